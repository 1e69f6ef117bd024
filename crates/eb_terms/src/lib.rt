//! The dictionary of a segment: an open-addressed hash table over parallel arrays of words. Its
//! cells hold term numbers. A term's text is among the text words, from its text place on. The
//! dictionary is filled by single stores and read while it grows. No call takes memory.
#![tactic(auto)]

mod entering;
mod finding;
mod hashing;
mod loads;
mod texts;

pub use entering::enter;
pub use finding::{find, find_hashed, may_be_entered};
pub use hashing::{hash_of, home, home_of};
pub use texts::count_words;
