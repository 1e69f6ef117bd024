ghost use Rattle.std.specs.Prelude.{◌≡◌, ◌<◌, ◌≤◌, ◌↔◌, length, IfOk, IsErrOf, IsTrue};
ghost use Rattle.eb_base.specs.Document.{IsDocument, bytes_of, most_tokens, most_bytes};

use crate::terms::Terms;
use std::error::Error;
use std::fmt;
use std::marker::Model;

/// The most tokens of a document.
pub const MAX_TOKENS: usize = 1024;

/// The most bytes of a document's folded tokens, summed.
pub const MAX_BYTES: usize = 16_384;

/// A message that can be found: its id, and its terms in the order of its words. It has at most
/// [`MAX_TOKENS`] terms, of at most [`MAX_BYTES`] bytes in all (this project's profile,
/// docs/FORMATS.md).
#[derive(Debug, Drop)]
pub struct Document {
    id: u64,
    terms: Terms,
}

impl Model for Document {
    ghost use Rattle.eb_base.specs.Document.{Doc, IsDocument};

    ghost Value = { Doc };

    ghost view = { λ d. record { id = d.id; terms = d.terms } };

    ghost invariant = { λ d. IsDocument (record { id = d.id; terms = d.terms }) };
}

/// Why a list of terms isn't a document's.
#[derive(Clone, Copy, Debug, PartialEq, Eq)]
pub enum DocFault {
    /// There are more than [`MAX_TOKENS`] terms.
    TooManyTokens,
    /// There are at most [`MAX_TOKENS`] terms, and they have more than [`MAX_BYTES`] bytes in all.
    TooManyBytes,
}

impl fmt::Display for DocFault {
    ghost use Rattle.std.specs.Prelude.{Some};
    ghost use Rattle.eb_base.specs.Faults.{doc_fault_text};

    ghost output = { λ fault. Some (doc_fault_text fault) };

    fn fmt<W: fmt::Write>(&self, f: &mut fmt::Formatter<W>) -> fmt::Result {
        match self {
            DocFault::TooManyTokens => f.write_str("more than 1,024 terms"),
            DocFault::TooManyBytes => f.write_str("more than 16,384 bytes of terms"),
        }
    }
}

impl Error for DocFault {}

impl Document {
    /// The document with this id and these terms. `TooManyTokens` exactly at 1,025 or more terms,
    /// else `TooManyBytes` exactly at 16,385 or more bytes; the terms are dropped then. Takes no
    /// memory.
    pub fn new(id: u64, terms: Terms) -> Result<Document, DocFault>
        ensures ok { IfOk result (λ document. document ≡ record { id = id; terms = terms }) }
        ensures tokens { IsErrOf result DocFault.TooManyTokens ↔ most_tokens < length terms }
        ensures bytes { IsErrOf result DocFault.TooManyBytes ↔ (length terms ≤ most_tokens) × (most_bytes < bytes_of terms) }
    {
        if terms.len() > MAX_TOKENS {
            return Err(DocFault::TooManyTokens);
        }
        if !is_short(&terms) {
            return Err(DocFault::TooManyBytes);
        }
        Ok(Document { id, terms })
    }

    /// The id of the message. Two documents with one id are two documents.
    pub fn id(&self) -> u64
        ensures { result ≡ self.now.id }
    {
        self.id
    }

    /// The terms, in the order of the message's words.
    pub fn terms(&self) -> &Terms
        ensures terms { result.now ≡ self.now.terms }
        ensures document { IsDocument self.now }
    {
        &self.terms
    }
}

// Whether the terms have at most the bytes that a document may have.
fn is_short(terms: &Terms) -> bool
    ensures { IsTrue result ↔ (bytes_of terms.now ≤ most_bytes) }
{
    let mut bytes = 0;
    for at in 0..terms.len() {
        let len = terms.get(at).bytes().len();
        if len > MAX_BYTES - bytes {
            return false;
        }
        bytes += len;
    }
    true
}
