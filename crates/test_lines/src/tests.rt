//! The tests, by what they read.
mod base;
mod copies;
mod documents;
mod fields;
mod images;
mod lines;
mod made;
mod options;
mod queries;
mod sinks;
mod texts;
mod watches;
mod windows;
