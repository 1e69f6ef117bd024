//! The words of an index that one thread uses. `FlatWords` keeps them in one vector: a port whose
//! loads change no moment, and both pens. The lent words are ports over a slice of words that the
//! caller owns, so an index can lie in memory of a C program, and a call works on it in place.
#![tactic(auto)]

mod lent;
mod words;

pub use lent::{LentWords, LentWordsMut};
pub use words::FlatWords;
