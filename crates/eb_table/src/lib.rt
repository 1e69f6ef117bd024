//! The words of an index, shared by threads: one table of atomic words under a rule, and the seats
//! of those who load and store them. Each load and each store of one word is one step; between any
//! two of them the words are those of one moment, and no seat knows a later one
//! (`specs/Rule.antt`). A port of a seat (`ReaderPort`, `WriterPort`, `ConverterPort`) is what the
//! other crates load and store through.
//!
//! No call waits, and none but `SharedWords::open` takes memory.
#![tactic(auto)]

mod ports;
mod rule;
mod seats;
mod view;
mod words;

pub use ports::{ConverterPort, ReaderPort, WriterPort};
pub use seats::{ConverterSeat, ReaderSeat, WriterSeat};
pub use words::SharedWords;
