//! An index that the lines of an input fill and query.
#![tactic(auto)]

mod converting;
mod counting;
mod ending;
mod indexed;
mod searching;
mod spare;

pub use converting::{SegmentCounts, catch_up, close, convert_all, has_waiting};
pub use counting::count_all;
pub use ending::{Counts, put_end, tell_segments};
pub use indexed::Indexed;
pub use searching::search_all;
