//! Trials of the index: tests that go through several crates, over words in a vector and over two
//! ports of their own. One records each store that is done through it; the words of the other grow
//! between two loads, as they do where another thread writes.
#![tactic(auto)]

mod growing;
mod recording;
mod searching;

pub use growing::{GrowingPort, Pace};
pub use recording::RecordingPen;
pub use searching::{Answer, SearchingPen};

#[cfg(test)]
mod tests;
