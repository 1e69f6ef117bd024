/// How much of a segment is used, as far as it is stored. The relation `TellsSegment` of `specs/`
/// says when the numbers describe a segment at a moment.
#[derive(Clone, Copy, Debug, PartialEq, Eq)]
pub struct Used {
    /// The accepted documents of the segment.
    pub documents: u32,
    /// The terms that are entered in the segment.
    pub terms: u32,
    /// The text words of these terms.
    pub text: u32,
    /// The slices of pool 0 that postings begin whose tail stores are done.
    pub pool0: u32,
    /// Those of pool 1.
    pub pool1: u32,
    /// Those of pool 2.
    pub pool2: u32,
    /// Those of pool 3.
    pub pool3: u32,
}
