//! The placer: it adds documents to an index by single stores, segment after segment, and refuses a
//! document for which there is no room before it stores anything. No call takes memory.
#![tactic(auto)]

mod counting;
mod laws;
mod placer;
mod plan;
mod recall;
mod storing;

pub use laws::placer_stands_later;
pub use placer::{Full, Placer};
