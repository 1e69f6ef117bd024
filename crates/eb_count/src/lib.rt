//! Counting: how many documents match a query, and how many of them have an id in each bucket of a
//! histogram. `specs/Counts.antt` has the definitions.
#![tactic(auto)]

mod tally;

pub use tally::Tally;
