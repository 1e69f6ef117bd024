//! Document lines: one JSON object a line (RFC 8259, read by `serde_json`), with a number as its
//! `id` and a string as its `text`, or as members of other names that a dialect says. With fields,
//! the members of their names give terms too, so that a query finds a message by who wrote it, or
//! in which room.
#![tactic(auto)]

ghost use Rattle.std.specs.Prelude.{◌≡◌, ◌⊎◌, Ok, Err, IfOk, IfErr, Some, None, []};
ghost use Rattle.serde_json.specs.View.{view};
ghost use Rattle.eb_doc.specs.DocumentLine.{document_of, value_of, message};
ghost use Rattle.eb_doc.specs.WithFields.{document_with};
ghost use Rattle.eb_fields.specs.Dialect.{dialect_of};
ghost use Rattle.eb_fields.specs.Fields.{names};
ghost use Rattle.eb_doc.specs.declared.LineFault.TheVariants.{NoMemory as out_of_memory};

mod fielded;
mod fields;
mod given;
mod laws;
mod look;
mod members;
mod numbers;
mod passing;
mod seen;

use crate::fielded::read_with_fields;
pub use crate::fields::MAX_ITEMS;
use crate::given::document_by;
pub use crate::laws::in_plain;
use crate::look::{Look, look_at};
use eb_base::{Document, NoMemory, Terms};
use eb_fields::Dialect;
use json::Scratch;
use serde_json::Value;
use std::alloc::Global;
use std::error::Error;
use std::fmt;

/// Why a document line isn't a document.
#[derive(Clone, Copy, Debug, PartialEq, Eq)]
pub enum LineFault {
    /// The line isn't UTF-8, or isn't one JSON value with nothing after it.
    BadJson,
    /// The value isn't an object, its id isn't a whole number below 2^64 (nor a string of its
    /// digits, where a dialect names the id's member), or its text isn't a string; a missing member
    /// counts as one of another kind.
    BadDocument,
    /// The text and the fields have 1,025 or more terms, or 16,385 or more bytes of folded terms,
    /// or a field has a value of 129 or more folded bytes.
    TooLong,
    /// Memory ran out. It can come for any line.
    NoMemory,
}

impl fmt::Display for LineFault {
    ghost use Rattle.std.specs.Prelude.{Some};
    ghost use Rattle.eb_doc.specs.Faults.{line_fault_text};

    ghost output = { λ fault. Some (line_fault_text fault) };

    fn fmt<W: fmt::Write>(&self, f: &mut fmt::Formatter<W>) -> fmt::Result {
        match self {
            LineFault::BadJson => f.write_str("bad json"),
            LineFault::BadDocument => f.write_str("bad document"),
            LineFault::TooLong => f.write_str("too long"),
            LineFault::NoMemory => f.write_str("memory ran out"),
        }
    }
}

impl Error for LineFault {}

impl From<NoMemory> for LineFault {
    ghost from_gives = { λ _ fault. fault ≡ out_of_memory };

    fn from(_error: NoMemory) -> LineFault {
        LineFault::NoMemory
    }
}

/// Reads document lines, one after the other. It keeps the room that reading a line takes for the
/// next one.
#[derive(Drop)]
pub struct DocumentReader {
    alloc: Global,
    scratch: Scratch,
}

impl DocumentReader {
    /// A reader. Takes no memory.
    pub fn new(alloc: Global) -> DocumentReader {
        DocumentReader {
            alloc,
            scratch: Scratch::new(alloc),
        }
    }

    /// The document that a line is, as [`read_document`] says.
    pub fn read(&mut self, line: &[u8]) -> Result<Document, LineFault>
        ensures document { IfOk result (λ document. document_of line.now ≡ Ok document) }
        ensures refused { IfErr result (λ fault. (fault ≡ LineFault.NoMemory) ⊎ (document_of line.now ≡ Err fault)) }
    {
        self.read_with(Dialect::plain(), line)
    }

    /// The document that a line is by this dialect. Its terms are the tokens of its text, cut as
    /// the dialect says, and then the terms of its fields, name by name. A member of a field's name
    /// that is a string, a whole number or a boolean gives the term of the name and the value; an
    /// array of at most [`MAX_ITEMS`] of these gives the terms of all. A number is in decimal, and
    /// a boolean is `true` or `false`. A member that is missing or anything else gives no term; a
    /// value of more than 128 folded bytes is `TooLong`. Where the dialect names the member that is
    /// the id, its value is a whole number below 2^64, or a string of one to twenty digits of such
    /// a value, leading zeros allowed; the member `id` is then a member like others. Where it names
    /// the member that is the text, so is `text`. Both names may be the same, and names of fields
    /// too. Otherwise as [`read_document`] says.
    pub fn read_with(&mut self, dialect: Dialect<'_>, line: &[u8]) -> Result<Document, LineFault>
        ensures document { IfOk result (λ document. document_with (dialect_of dialect.entry) line.now ≡ Ok document) }
        ensures refused { IfErr result (λ fault.
            (fault ≡ LineFault.NoMemory) ⊎ (document_with (dialect_of dialect.entry) line.now ≡ Err fault)) }
    {
        if dialect.fields.is_none() {
            return self.read_quickly(&dialect, line);
        }
        read_with_fields(self.alloc, &dialect, line)
    }

    // The document that a line is where there is no field, by what is seen of its members.
    fn read_quickly(&mut self, dialect: &Dialect<'_>, line: &[u8]) -> Result<Document, LineFault>
        requires { names dialect.now.fields ≡ [] }
        ensures document { IfOk result (λ document. document_with (dialect_of dialect.now) line.now ≡ Ok document) }
        ensures refused { IfErr result (λ fault.
            (fault ≡ LineFault.NoMemory) ⊎ (document_with (dialect_of dialect.now) line.now ≡ Err fault)) }
    {
        match look_at(line, &mut self.scratch, dialect) {
            Ok(Look::Object(found)) => document_by(self.alloc, dialect, found),
            Ok(Look::NoJson) => Err(LineFault::BadJson),
            Ok(Look::Other) => read_with_fields(self.alloc, dialect, line),
            Err(NoMemory) => Err(LineFault::NoMemory),
        }
    }
}

/// The document that a line is: its id, and the tokens of its text as terms. The line is any bytes,
/// without the LF that ends it. Members other than `id` and `text` may hold anything and are
/// skipped; where a name occurs twice, the last value counts.
///
/// The refusals come in this order: `BadJson`, `BadDocument`, `TooLong`.
pub fn read_document(alloc: Global, line: &[u8]) -> Result<Document, LineFault>
    ensures document { IfOk result (λ document. document_of line.now ≡ Ok document) }
    ensures refused { IfErr result (λ fault. (fault ≡ LineFault.NoMemory) ⊎ (document_of line.now ≡ Err fault)) }
{
    let mut reader = DocumentReader::new(alloc);
    reader.read(line)
}

// The JSON value that the line is.
fn read_value(alloc: Global, line: &[u8]) -> Result<Value, LineFault>
    ensures value { IfOk result (λ value. value_of line.now ≡ Some (view value)) }
    ensures refused { IfErr result (λ fault. (fault ≡ LineFault.NoMemory) ⊎ ((fault ≡ LineFault.BadJson) × (value_of line.now ≡ None))) }
{
    match Value::from_slice(alloc, line) {
        Ok(value) => Ok(value),
        Err(error) => {
            if error.is_memory() {
                return Err(LineFault::NoMemory);
            }
            Err(LineFault::BadJson)
        }
    }
}

// The document with this id and these terms.
fn message_of(id: u64, terms: Terms) -> Result<Document, LineFault>
    ensures document { IfOk result (λ document. message id terms ≡ Ok document) }
    ensures refused { IfErr result (λ fault. message id terms ≡ Err fault) }
{
    match Document::new(id, terms) {
        Ok(document) => Ok(document),
        Err(_) => Err(LineFault::TooLong),
    }
}
