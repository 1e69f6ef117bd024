//! Document lines by their values.
ghost use Rattle.std.specs.Prelude.{◌≡◌, ◌⊎◌, Ok, Err, IfOk, IfErr, Some};
ghost use Rattle.serde_json.specs.View.{view};
ghost use Rattle.eb_fields.specs.Dialect.{dialect_of};
ghost use Rattle.eb_doc.specs.WithFields.{document_with, read_with};

use crate::fields::with_fields;
use crate::given::{id_in, text_in};
use crate::{LineFault, message_of, read_value};
use eb_base::Document;
use eb_fields::Dialect;
use eb_text::tokens_by;
use serde_json::Value;
use std::alloc::Global;

// The document that a line is, by its value.
pub(crate) fn read_with_fields(
    alloc: Global,
    dialect: &Dialect<'_>,
    line: &[u8],
) -> Result<Document, LineFault>
    ensures document { IfOk result (λ document. document_with (dialect_of dialect.now) line.now ≡ Ok document) }
    ensures refused { IfErr result (λ fault. (fault ≡ LineFault.NoMemory) ⊎ (document_with (dialect_of dialect.now) line.now ≡ Err fault)) }
{
    match read_value(alloc, line) {
        Ok(value) => fielded_document(alloc, dialect, &value),
        Err(fault) => Err(fault),
    }
}

// The document that a value is.
fn fielded_document(
    alloc: Global,
    dialect: &Dialect<'_>,
    value: &Value,
) -> Result<Document, LineFault>
    ensures document { IfOk result (λ document. read_with (dialect_of dialect.now) (Some (view value.now)) ≡ Ok document) }
    ensures refused { IfErr result (λ fault.
        (fault ≡ LineFault.NoMemory) ⊎ (read_with (dialect_of dialect.now) (Some (view value.now)) ≡ Err fault)) }
{
    let id = id_in(dialect, value).ok_or(LineFault::BadDocument)?;
    let text = text_in(dialect, value).ok_or(LineFault::BadDocument)?;
    let terms = with_fields(
        alloc,
        dialect.fields,
        value,
        tokens_by(alloc, dialect.cut, text)?,
    )?;
    message_of(id, terms)
}
