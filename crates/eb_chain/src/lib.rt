//! Chains: the postings of one term in one segment, in slices that grow while they are read. One
//! writer appends; readers walk backwards, newest first. No call takes memory.
#![tactic(auto)]

mod chain;
mod leaps;
mod new_slices;
mod next_place;
mod writing;

pub use chain::Chain;
pub use new_slices::{NewSlices, needs, needs_next};
pub use writing::append;
