//! Whether a query matches a document, by a scan of the document's terms. The body follows the
//! definition of a match, part by part, and takes no memory.
#![tactic(auto)]

mod scan;

pub use scan::{has_term, is_match};
