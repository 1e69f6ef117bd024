//! The base of Earlybird: terms, documents and their limits, queries, the setting of an index, and
//! the gate through which a caller can observe an index. `specs/` has the two definitions that
//! everything serves: which documents a query matches, and what the answer to a query is.
#![tactic(auto)]

mod config;
mod document;
mod gate;
mod hashing;
mod match_law;
mod memory;
mod query;
mod query_copy;
mod query_is;
mod terms;

pub use config::{Config, ConfigFault, MAX_DOCS, MAX_SEGMENTS, MAX_WORDS};
pub use document::{DocFault, Document, MAX_BYTES, MAX_TOKENS};
pub use gate::{Gate, OpenGate, Point};
pub use match_law::match_is_decided;
pub use memory::NoMemory;
pub use query::{MAX_REACH, MAX_SIZE, Queries, Query};
pub use terms::{Term, Terms};
