//! What is done through a seat at the words: searches, adds and conversions.
ghost use Rattle.std.specs.Prelude.{◌≡◌, ℕ, List, [], ◌+◌, ◌-◌, ◌++◌, ◌<◌, ◌≤◌, length, take, None, IfOk, OnErr};
ghost use Rattle.eb_base.specs.Match.{answer};
ghost use Rattle.eb_base.specs.Query.{word, conjunction};
ghost use Rattle.eb_convert.specs.Converting.{IsConversion};
ghost use Rattle.eb_cursor.specs.AndCosts.{word_parts};
ghost use Rattle.eb_count.specs.Counts.{match_count};
ghost use Rattle.eb_count.specs.Tallies.{HasCounted};
ghost use Rattle.eb_cursor.specs.Frames.{query_of, k_of, ids_of, SeenAs};
ghost use Rattle.eb_place.specs.Later.{IsNotBefore};
ghost use Rattle.eb_place.specs.declared.moment.Moment.{Moment};
ghost use Rattle.eb_place.specs.Room.{cut, HasRoom};
ghost use Rattle.eb_engine.specs.Loads.{IsWithinBound, IsWithinAndBound, IsAlone};
ghost use Rattle.eb_search.specs.Bounds.{match_loads};
ghost use Rattle.eb_search.specs.Counted.{CountedOn, CountedLikely};
ghost use Rattle.eb_search.specs.Searched.{Searched, SearchedLikely};
ghost use Rattle.eb_search.specs.Visible.{AreNone};
ghost use Rattle.eb_table.specs.Known.{MadeWith};
ghost use Rattle.eb_writer.specs.Progress.{PlacerStands, HasNoRoom};
ghost use Rattle.eb_writer.specs.Storing.{IsAccepted};

use eb_base::{Document, Gate};
use eb_convert::{Converted, convert_next};
use eb_count::Tally;
use eb_cursor::Frame;
use eb_marks::Segments;
use eb_place::Steps;
use eb_search::{count_first, count_likely, count_on, search, search_first, search_likely};
use eb_table::{
    ConverterPort, ConverterSeat, ReaderPort, ReaderSeat, SharedWords, WriterPort, WriterSeat,
};
use eb_writer::{Full, Placer};
use std::sync::ledger::Ledger;

// A search by a reader's seat.
pub(crate) fn search_words<G: Gate, L: Ledger>(
    seat: &mut ReaderSeat,
    words: &SharedWords,
    frame: &mut Frame,
    gate: &G,
    steps: &mut Steps<L>,
) -> u64
    requires made { MadeWith seat.old words.now }
    ensures made { MadeWith seat.new words.now }
    ensures query { query_of frame.new ≡ query_of frame.old }
    ensures k { k_of frame.new ≡ k_of frame.old }
    ensures answer { Searched seat.old.moment seat.new.moment (query_of frame.old) (k_of frame.old) result (ids_of frame.new) }
    ensures loads { (t : List ℕ) → query_of frame.old ≡ word t
        → IsWithinBound [] seat.old.moment seat.new.moment t result (length (ids_of frame.new)) steps.old steps.new }
    ensures rounds { (ts : List (List ℕ)) → query_of frame.old ≡ conjunction (word_parts ts)
        → IsWithinAndBound [] seat.new.moment ts result (length (ids_of frame.new)) steps.old steps.new }
{
    let mut port = ReaderPort { seat, words };
    search(&mut port, frame, gate, steps)
}

// A search by a reader's seat, over all segments but those of which `likely` says false.
pub(crate) fn search_words_likely<G: Gate, L: Ledger>(
    seat: &mut ReaderSeat,
    words: &SharedWords,
    frame: &mut Frame,
    gate: &G,
    likely: Segments,
    steps: &mut Steps<L>,
) -> u64
    requires made { MadeWith seat.old words.now }
    ensures made { MadeWith seat.new words.now }
    ensures query { query_of frame.new ≡ query_of frame.old }
    ensures k { k_of frame.new ≡ k_of frame.old }
    ensures answer { SearchedLikely seat.old.moment seat.new.moment (query_of frame.old) (k_of frame.old) likely result (ids_of frame.new) }
    ensures loads { (t : List ℕ) → query_of frame.old ≡ word t
        → IsWithinBound likely seat.old.moment seat.new.moment t result (length (ids_of frame.new)) steps.old steps.new }
    ensures rounds { (ts : List (List ℕ)) → query_of frame.old ≡ conjunction (word_parts ts)
        → IsWithinAndBound likely seat.new.moment ts result (length (ids_of frame.new)) steps.old steps.new }
{
    let mut port = ReaderPort { seat, words };
    search_likely(&mut port, frame, gate, likely, steps)
}

// A search by a reader's seat that the writer's seat splits off and meets again. Nothing is added
// meanwhile, so the reader finds exactly what the writer knows.
pub(crate) fn search_alone<G: Gate, L: Ledger>(
    seat: &mut WriterSeat,
    words: &SharedWords,
    frame: &mut Frame,
    gate: &G,
    steps: &mut Steps<L>,
) -> u64
    requires made { MadeWith seat.old words.now }
    requires idle { seat.old.moment.documents.current ≡ None }
    ensures made { MadeWith seat.new words.now }
    ensures later { IsNotBefore seat.new.moment seat.old.moment }
    ensures documents { seat.new.moment.documents ≡ seat.old.moment.documents }
    ensures query { query_of frame.new ≡ query_of frame.old }
    ensures k { k_of frame.new ≡ k_of frame.old }
    ensures count { result ≡ length seat.old.moment.documents.accepted }
    ensures ids { ids_of frame.new ≡ answer (query_of frame.old) (k_of frame.old) seat.old.moment.documents.accepted }
    ensures loads { (t : List ℕ) → query_of frame.old ≡ word t → (now : Moment) × IsAlone seat.old.moment now
        × IsWithinBound [] seat.old.moment now t result (length (ids_of frame.new)) steps.old steps.new }
    ensures rounds { (ts : List (List ℕ)) → query_of frame.old ≡ conjunction (word_parts ts) → (now : Moment) × IsAlone seat.old.moment now
        × IsWithinAndBound [] now ts result (length (ids_of frame.new)) steps.old steps.new }
{
    let mut reader = seat.split(words);
    let count = search_words(&mut reader, words, frame, gate, steps);
    seat.meet(words, reader);
    count
}

// A search by a reader's seat beside the writer's, as above, over all segments but those of which
// `likely` says false.
pub(crate) fn search_alone_likely<G: Gate, L: Ledger>(
    seat: &mut WriterSeat,
    words: &SharedWords,
    frame: &mut Frame,
    gate: &G,
    likely: Segments,
    steps: &mut Steps<L>,
) -> u64
    requires made { MadeWith seat.old words.now }
    requires idle { seat.old.moment.documents.current ≡ None }
    ensures made { MadeWith seat.new words.now }
    ensures later { IsNotBefore seat.new.moment seat.old.moment }
    ensures documents { seat.new.moment.documents ≡ seat.old.moment.documents }
    ensures query { query_of frame.new ≡ query_of frame.old }
    ensures k { k_of frame.new ≡ k_of frame.old }
    ensures count { result ≡ length seat.old.moment.documents.accepted }
    ensures ids { AreNone (query_of frame.old) (cut words.now.setting seat.old.moment.documents.accepted) likely
        → ids_of frame.new ≡ answer (query_of frame.old) (k_of frame.old) seat.old.moment.documents.accepted }
    ensures loads { (t : List ℕ) → query_of frame.old ≡ word t → (now : Moment) × IsAlone seat.old.moment now
        × IsWithinBound likely seat.old.moment now t result (length (ids_of frame.new)) steps.old steps.new }
    ensures rounds { (ts : List (List ℕ)) → query_of frame.old ≡ conjunction (word_parts ts) → (now : Moment) × IsAlone seat.old.moment now
        × IsWithinAndBound likely now ts result (length (ids_of frame.new)) steps.old steps.new }
{
    let mut reader = seat.split(words);
    let count = search_words_likely(&mut reader, words, frame, gate, likely, steps);
    seat.meet(words, reader);
    count
}

// A search by a reader's seat of exactly the first `count` documents that it knows, after what the
// frame holds.
pub(crate) fn search_known_words<L: Ledger>(
    seat: &mut ReaderSeat,
    words: &SharedWords,
    count: u64,
    frame: &mut Frame,
    steps: &mut Steps<L>,
)
    requires made { MadeWith seat.old words.now }
    requires count { count ≤ length seat.old.moment.documents.accepted }
    ensures made { MadeWith seat.new words.now }
    ensures later { IsNotBefore seat.new.moment seat.old.moment }
    ensures query { query_of frame.new ≡ query_of frame.old }
    ensures k { k_of frame.new ≡ k_of frame.old }
    ensures ids { ids_of frame.new
        ≡ ids_of frame.old ++ answer (query_of frame.old) (k_of frame.old - length (ids_of frame.old)) (take count seat.old.moment.documents.accepted) }
{
    let mut port = ReaderPort { seat, words };
    search_first(&mut port, count, frame, steps)
}

// A count by a reader's seat.
pub(crate) fn count_words<G: Gate, L: Ledger>(
    seat: &mut ReaderSeat,
    words: &SharedWords,
    frame: &mut Frame,
    tally: &mut Tally,
    gate: &G,
    steps: &mut Steps<L>,
) -> u64
    requires made { MadeWith seat.old words.now }
    ensures made { MadeWith seat.new words.now }
    ensures seen { SeenAs frame.old frame.new }
    ensures counts { CountedOn seat.old.moment seat.new.moment (query_of frame.old) result tally.old tally.new }
    ensures loads { (t : List ℕ) → query_of frame.old ≡ word t → IsWithinBound [] seat.old.moment seat.new.moment t result
        (match_loads (length tally.old.buckets) (match_count (word t) (take result seat.new.moment.documents.accepted))) steps.old steps.new }
{
    let mut port = ReaderPort { seat, words };
    count_on(&mut port, frame, tally, gate, steps)
}

// A count by a reader's seat, over all segments but those of which `likely` says false.
pub(crate) fn count_words_likely<G: Gate, L: Ledger>(
    seat: &mut ReaderSeat,
    words: &SharedWords,
    frame: &mut Frame,
    tally: &mut Tally,
    gate: &G,
    likely: Segments,
    steps: &mut Steps<L>,
) -> u64
    requires made { MadeWith seat.old words.now }
    ensures made { MadeWith seat.new words.now }
    ensures seen { SeenAs frame.old frame.new }
    ensures counts { CountedLikely seat.old.moment seat.new.moment (query_of frame.old) likely result tally.old tally.new }
    ensures loads { (t : List ℕ) → query_of frame.old ≡ word t → IsWithinBound likely seat.old.moment seat.new.moment t result
        (match_loads (length tally.old.buckets) (match_count (word t) (take result seat.new.moment.documents.accepted))) steps.old steps.new }
{
    let mut port = ReaderPort { seat, words };
    count_likely(&mut port, frame, tally, gate, likely, steps)
}

// A count by a reader's seat that the writer's seat splits off and meets again, as in
// `search_alone`.
pub(crate) fn count_alone<G: Gate, L: Ledger>(
    seat: &mut WriterSeat,
    words: &SharedWords,
    frame: &mut Frame,
    tally: &mut Tally,
    gate: &G,
    steps: &mut Steps<L>,
) -> u64
    requires made { MadeWith seat.old words.now }
    requires idle { seat.old.moment.documents.current ≡ None }
    ensures made { MadeWith seat.new words.now }
    ensures later { IsNotBefore seat.new.moment seat.old.moment }
    ensures documents { seat.new.moment.documents ≡ seat.old.moment.documents }
    ensures seen { SeenAs frame.old frame.new }
    ensures count { result ≡ length seat.old.moment.documents.accepted }
    ensures counts { HasCounted (query_of frame.old) seat.old.moment.documents.accepted tally.old tally.new }
    ensures loads { (t : List ℕ) → query_of frame.old ≡ word t → (now : Moment) × IsAlone seat.old.moment now
        × IsWithinBound [] seat.old.moment now t result
        (match_loads (length tally.old.buckets) (match_count (word t) seat.old.moment.documents.accepted)) steps.old steps.new }
{
    let mut reader = seat.split(words);
    let count = count_words(&mut reader, words, frame, tally, gate, steps);
    seat.meet(words, reader);
    count
}

// A count by a reader's seat beside the writer's, as above, over all segments but those of which
// `likely` says false.
pub(crate) fn count_alone_likely<G: Gate, L: Ledger>(
    seat: &mut WriterSeat,
    words: &SharedWords,
    frame: &mut Frame,
    tally: &mut Tally,
    gate: &G,
    likely: Segments,
    steps: &mut Steps<L>,
) -> u64
    requires made { MadeWith seat.old words.now }
    requires idle { seat.old.moment.documents.current ≡ None }
    ensures made { MadeWith seat.new words.now }
    ensures later { IsNotBefore seat.new.moment seat.old.moment }
    ensures documents { seat.new.moment.documents ≡ seat.old.moment.documents }
    ensures seen { SeenAs frame.old frame.new }
    ensures count { result ≡ length seat.old.moment.documents.accepted }
    ensures counts { AreNone (query_of frame.old) (cut words.now.setting seat.old.moment.documents.accepted) likely
        → HasCounted (query_of frame.old) seat.old.moment.documents.accepted tally.old tally.new }
    ensures loads { (t : List ℕ) → query_of frame.old ≡ word t → (now : Moment) × IsAlone seat.old.moment now
        × IsWithinBound likely seat.old.moment now t result
        (match_loads (length tally.old.buckets) (match_count (word t) seat.old.moment.documents.accepted)) steps.old steps.new }
{
    let mut reader = seat.split(words);
    let count = count_words_likely(&mut reader, words, frame, tally, gate, likely, steps);
    seat.meet(words, reader);
    count
}

// A count by a reader's seat of exactly the first `count` documents that it knows, after what the
// tally holds.
pub(crate) fn count_known_words<L: Ledger>(
    seat: &mut ReaderSeat,
    words: &SharedWords,
    count: u64,
    frame: &mut Frame,
    tally: &mut Tally,
    steps: &mut Steps<L>,
)
    requires made { MadeWith seat.old words.now }
    requires count { count ≤ length seat.old.moment.documents.accepted }
    ensures made { MadeWith seat.new words.now }
    ensures later { IsNotBefore seat.new.moment seat.old.moment }
    ensures seen { SeenAs frame.old frame.new }
    ensures counts { HasCounted (query_of frame.old) (take count seat.old.moment.documents.accepted) tally.old tally.new }
{
    let mut port = ReaderPort { seat, words };
    count_first(&mut port, count, frame, tally, steps)
}

// An add by the writer's seat.
pub(crate) fn add_to_words(
    placer: &mut Placer,
    seat: &mut WriterSeat,
    words: &SharedWords,
    document: &Document,
) -> Result<u64, Full>
    requires made { MadeWith seat.old words.now }
    requires stands { PlacerStands placer.old seat.old.moment }
    ensures made { MadeWith seat.new words.now }
    ensures stands { PlacerStands placer.new seat.new.moment }
    ensures ok { IfOk result (λ count. HasRoom seat.old.moment.setting seat.old.moment.documents.accepted document.now
        × IsAccepted seat.old.moment seat.new.moment document.now × (count ≡ length seat.old.moment.documents.accepted + 1)) }
    ensures full { OnErr result (HasNoRoom seat.old.moment document.now × (seat.new.moment.documents ≡ seat.old.moment.documents)) }
    ensures later { IsNotBefore seat.new.moment seat.old.moment }
{
    let mut pen = WriterPort { seat, words };
    placer.add(&mut pen, document)
}

// The next conversion, by the converter's seat.
pub(crate) fn convert_in_words(
    seat: &mut ConverterSeat,
    words: &SharedWords,
    segment: u32,
) -> Converted
    requires made { MadeWith seat.old words.now }
    requires segment { segment < words.now.setting.segments }
    requires next { seat.old.moment.conversions ≡ record { converted = segment; packed = 0 } }
    ensures made { MadeWith seat.new words.now }
    ensures later { IsNotBefore seat.new.moment seat.old.moment }
    ensures conversion { IsConversion seat.old.moment seat.new.moment segment result }
{
    let mut port = ConverterPort { seat, words };
    convert_next(&mut port, segment)
}
