//! Sets of the segments of an index, each as one number of 64 bits: in which of them a query may
//! match. A walk goes from member to member, from the greatest down.
#![tactic(auto)]

mod segments;

pub use segments::Segments;
