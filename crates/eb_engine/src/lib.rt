//! The index that threads share: one writer, one converter and any number of readers, each a token
//! that may go to a thread of its own. The writer adds documents, the converter packs the segments
//! that are closed, and the readers search, at the same time, over the same words. A search answers
//! over exactly the documents that were accepted when it loaded their count, whatever is converted
//! meanwhile. No call waits, and none but `Index::open` takes memory.
//!
//! Contracts speak of lists of documents and of settings alone: `specs/Tokens.antt` says what a
//! writer, a reader and a converter are to them.
#![tactic(auto)]

mod calls;
mod converter;
mod index;
mod reader;
mod unmetered;
mod writer;

pub use converter::Converter;
pub use index::Index;
pub use reader::Reader;
pub use writer::Writer;
