//! The members of a document line that are its id and its text, by the dialect.
ghost use Rattle.std.specs.Prelude.{◌≡◌, ◌⊎◌, Ok, Err, IfOk, IfErr, Some, [], unwrap_or};
ghost use Rattle.serde_json.specs.Data.{Data};
ghost use Rattle.serde_json.specs.View.{view};
ghost use Rattle.eb_fields.specs.Dialect.{dialect_of};
ghost use Rattle.eb_fields.specs.Fields.{names};
ghost use Rattle.eb_doc.specs.DocumentLine as line;
ghost use Rattle.eb_doc.specs.WithFields as spec;
ghost use Rattle.eb_doc.specs.WithFields.{read_with};
ghost use Rattle.eb_doc.specs.Seen.{ShowsMembers, seen_id};
ghost use Rattle.eb_fields.specs.Given.{told_text};

use crate::seen::{Members, Seen};
use crate::{LineFault, message_of};
use eb_base::Document;
use eb_fields::{Dialect, read_id};
use eb_text::tokens_by;
use serde_json::Value;
use std::alloc::Global;

// The name that is given, or else the usual one.
fn name_or<'a>(given: Option<&'a str>, usual: &'a str) -> &'a str
    ensures { result.now ≡ unwrap_or (told_text given.entry) usual.now }
{
    match given {
        Some(name) => name,
        None => usual,
    }
}

// The number that a member is, or else the one that its string writes.
fn given_id(number: Option<u64>, string: Option<&str>) -> Option<u64>
    ensures { result ≡ spec.given_id number (told_text string.entry) }
{
    match number {
        Some(id) => Some(id),
        None => match string {
            Some(digits) => read_id(digits),
            None => None,
        },
    }
}

// The id that a value is of which this is seen, where the id's member has this name.
pub(crate) fn id_by(given: Option<&str>, seen: &Seen<'_>) -> Option<u64>
    ensures { result ≡ seen_id (told_text given.entry) seen.now }
{
    match given {
        Some(_name) => given_id(seen.number, seen.string),
        None => seen.number,
    }
}

// The document of an object of which this is seen, where there is no field.
pub(crate) fn document_by(
    alloc: Global,
    dialect: &Dialect<'_>,
    found: Members<'_>,
) -> Result<Document, LineFault>
    requires { names dialect.now.fields ≡ [] }
    ensures document { let how = dialect_of dialect.now in
        IfOk result (λ document. (d : Data) → ShowsMembers how found.entry d → read_with how (Some d) ≡ Ok document) }
    ensures refused { let how = dialect_of dialect.now in IfErr result (λ fault.
        (fault ≡ LineFault.NoMemory) ⊎ ((d : Data) → ShowsMembers how found.entry d → read_with how (Some d) ≡ Err fault)) }
{
    let Some(id) = found.id else {
        return Err(LineFault::BadDocument);
    };
    let Some(text) = found.text else {
        return Err(LineFault::BadDocument);
    };
    let terms = tokens_by(alloc, dialect.cut, text)?;
    message_of(id, terms)
}

// The number of the member of this name.
fn number_in(name: &str, value: &Value) -> Option<u64>
    ensures { result ≡ line.number_in name.now (view value.now) }
{
    value.get(name).and_then(Value::as_u64)
}

// The string of the member of this name.
fn string_in<'a>(name: &str, value: &'a Value) -> Option<&'a str>
    ensures { told_text result ≡ line.string_in name.now (view value.now) }
{
    value.get(name).and_then(Value::as_str)
}

// The id of a document's value.
pub(crate) fn id_in(dialect: &Dialect<'_>, value: &Value) -> Option<u64>
    ensures { result ≡ spec.id_in (dialect_of dialect.now) (view value.now) }
{
    match dialect.id {
        Some(name) => given_id(number_in(name, value), string_in(name, value)),
        None => number_in("id", value),
    }
}

// The text of a document's value.
pub(crate) fn text_in<'a>(dialect: &Dialect<'_>, value: &'a Value) -> Option<&'a str>
    ensures { told_text result ≡ spec.text_in (dialect_of dialect.now) (view value.now) }
{
    string_in(name_or(dialect.text, "text"), value)
}
