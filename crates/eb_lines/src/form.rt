/// How the output of a run is written.
#[derive(Clone, Copy, Debug, PartialEq, Eq)]
pub struct Form {
    /// Whether each line is a JSON object, or words.
    pub json: bool,
    /// Whether the segments are printed at the end.
    pub stats: bool,
}

/// What is printed at the end beside the counts.
#[derive(Clone, Copy, Debug, PartialEq, Eq)]
pub enum Tail {
    /// Nothing.
    Nothing,
    /// How many of the accepted documents are kept.
    Kept(u64),
    /// The segments.
    Segments {
        /// How many are begun.
        begun: u64,
        /// How many of them are converted.
        converted: u64,
    },
    /// How many of the accepted documents are kept, and the generations that keep them.
    Generations {
        /// How many documents are kept.
        kept: u64,
        /// How many segments are begun in the generations that are kept.
        segments: u64,
        /// How many of them are converted.
        converted: u64,
        /// How many generations are begun, also those that were dropped.
        begun: u64,
    },
}
