//! Indexes that threads share.
mod beside;
mod conversions;
mod counting;
mod holding;
mod made;
