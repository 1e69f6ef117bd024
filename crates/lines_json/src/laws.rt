ghost use Rattle.lines_json.specs.JsonLaws.{AnswersRead, WatchesRead, RefusalsRead, EndsRead, SegmentsRead, GenerationsRead};

/// The answer to a query is read as an object with its line, how many documents it saw, and the ids
/// in their order. The call does nothing.
pub fn answers_read()
    ensures { AnswersRead }
{}

/// The watches that a document matches are read as an object with its line and their numbers in
/// their order. The call does nothing.
pub fn watches_read()
    ensures { WatchesRead }
{}

/// A refusal is read as an object with its line, its name, and the number that it gives, if it
/// gives one. The call does nothing.
pub fn refusals_read()
    ensures { RefusalsRead }
{}

/// The end is read as an object with the counts, in a line of its own. The call does nothing.
pub fn ends_read()
    ensures { EndsRead }
{}

/// The segments are read as an object with how many are begun and how many of them are converted.
/// The call does nothing.
pub fn segments_read()
    ensures { SegmentsRead }
{}

/// Those of a feed are read as an object with how many generations are begun besides. The call does
/// nothing.
pub fn generations_read()
    ensures { GenerationsRead }
{}
