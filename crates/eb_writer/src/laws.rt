ghost use Rattle.eb_writer.specs.Laws.{StandsLater};

/// A law: a placer that stands for a moment stands for each later moment of the same documents, as
/// conversions go on meanwhile. Does nothing.
pub fn placer_stands_later()
    ensures { StandsLater }
{}
