//! Watch lines.
ghost use Rattle.std.specs.Prelude.{◌≡◌, Some, IfOk, slice_get};
ghost use Rattle.eb_fields.specs.Dialect.{dialect_of};
ghost use Rattle.run_with_watches.specs.Others.{IsOther};

use eb_base::{NoMemory, Query};
use eb_fields::Dialect;
use eb_lines::{Refusal, query_refusal};
use eb_query::read_watch_with;
use std::alloc::Global;
use std::str;

// The number of a watch, and the query that it is set to, if it isn't removed; or why the line is
// refused.
pub(crate) type Other = Result<(u32, Option<Query>), Refusal>;

// What a line asks, read by this dialect, that is neither blank, nor a document or query line.
pub(crate) fn read_other(
    alloc: Global,
    dialect: Dialect<'_>,
    bytes: &[u8],
) -> Result<Other, NoMemory>
    ensures { IfOk result (λ read. IsOther (dialect_of dialect.entry) bytes.now read) }
{
    match bytes.first() {
        Some(b'!') => read_marked(alloc, dialect, bytes),
        _ => Ok(Err(Refusal::BadLine)),
    }
}

// What a line asks that begins with `!`, read by this dialect.
fn read_marked(alloc: Global, dialect: Dialect<'_>, bytes: &[u8]) -> Result<Other, NoMemory>
    requires { slice_get bytes.now 0 ≡ Some 33 }
    ensures { IfOk result (λ read. IsOther (dialect_of dialect.entry) bytes.now read) }
{
    match str::from_utf8(bytes) {
        Ok(text) => read_text(alloc, dialect, text),
        Err(_) => Ok(Err(Refusal::BadLine)),
    }
}

// What a watch line asks, by the dialect, or its refusal.
fn read_text(alloc: Global, dialect: Dialect<'_>, text: &str) -> Result<Other, NoMemory>
    requires { slice_get text.now 0 ≡ Some 33 }
    ensures { IfOk result (λ read. IsOther (dialect_of dialect.entry) text.now read) }
{
    match read_watch_with(alloc, dialect, text) {
        Ok(asked) => Ok(Ok(asked)),
        Err(fault) => Ok(Err(query_refusal(fault)?)),
    }
}
