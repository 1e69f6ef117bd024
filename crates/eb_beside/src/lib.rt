//! A parallel loop over a slice; the caller starts all threads.
#![tactic(auto)]

mod each;

pub use each::each_place;
