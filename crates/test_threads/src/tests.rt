//! The tests, by what they run.
mod blends;
mod engine;
mod heard;
mod watches;
