/// What a query line asks of its query.
#[derive(Clone, Copy, Debug, PartialEq, Eq)]
pub enum Ask {
    /// The ids of the newest matches, at most this many.
    Newest(u32),
    /// How many matches there are, and how many of them have an id in each bucket.
    Counts {
        /// The least id of the first bucket.
        start: u64,
        /// How many ids each bucket spans, at least 1. The next bucket begins where one ends.
        width: u64,
        /// How many buckets there are, at most [`MAX_BUCKETS`](crate::MAX_BUCKETS); 0 where the
        /// total alone is asked for.
        number: u32,
    },
}
