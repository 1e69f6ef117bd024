//! Bloom filters of an index's segments: they say in which segments a query may match, so a search
//! can skip the others. A filter has four bits for each term that its segment has room for, and a
//! term has two of them, which a mixed hash of the term chooses (Knuth's multiplicative hashing).
//! They are for the one writer of an index, which notes each document that it adds.
//! `specs/Covers.antt` says what they cover.
#![tactic(auto)]

mod bits;
mod filters;
mod hashing;
mod lanes;
mod marks;

pub use filters::Filters;
