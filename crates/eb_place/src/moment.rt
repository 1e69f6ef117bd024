use eb_base::{Config, Document};
use std::collections::LinkedList;

/// The documents part of a moment. No value of this type is ever made; contracts speak of it.
pub struct Documents {
    /// The accepted documents, in order.
    pub accepted: LinkedList<Document>,
    /// The document that is being placed, with the number of its stores that are done.
    pub current: Option<(Document, u64)>,
}

/// The conversion part of a moment. No value of this type is ever made; contracts speak of it.
pub struct Conversions {
    /// How many segments are converted.
    pub converted: u64,
    /// How many stores of the next conversion are done.
    pub packed: u64,
}

/// The state of an index's words at one time: a setting, and how far the writer and the converter
/// have come. No value of this type is ever made; contracts speak of it.
pub struct Moment {
    /// The setting of the index, which no store changes.
    pub setting: Config,
    /// How far the writer has come.
    pub documents: Documents,
    /// How far the converter has come.
    pub conversions: Conversions,
}
