//! A feed that threads share: generations of an index, where a new one is begun when the newest has
//! no room. One writer adds. Any number of readers search, each over the newest generations that it
//! holds. No call waits. `specs/Turns.antt` says what a writer and a reader are to contracts.
#![tactic(auto)]

mod converter;
mod follower;
mod mail;
mod piece;
mod reader;
mod released;
mod spare;
mod trail;
mod turn;
mod unmetered;
mod writer;

pub use converter::FeedConverter;
pub use follower::{Follower, Leader};
pub use reader::FeedReader;
pub use released::Released;
pub use spare::Spare;
pub use turn::Turn;
pub use writer::FeedWriter;
