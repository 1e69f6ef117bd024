//! What the lines that are printed as JSON are read as: each is one JSON text, whose value says
//! what the line says. The reader is that of `serde_json`, by its own definition of a text's value
//! (RFC 8259).
#![tactic(auto)]

mod laws;

pub use laws::{
    answers_read, ends_read, generations_read, refusals_read, segments_read, watches_read,
};
