ghost use Rattle.std.specs.Prelude.{◌≡◌, ◌≢◌, ◌<◌, true, length, slice_index};
ghost use Rattle.eb_fields.specs.Dialect.{dialect_of, plain};
ghost use Rattle.eb_query.specs.Head as spec;
ghost use Rattle.eb_lines.specs.LineKinds.{IsOfKind, HasQuestionMark};

use eb_fields::Dialect;
use eb_query::begins_query;
use std::str;

/// What kind of line a line that isn't long is.
#[derive(Clone, Copy, Debug, Drop)]
pub enum LineKind<'a> {
    /// The line is blank.
    Blank,
    /// It begins with `{`.
    Document,
    /// It begins with `?`, or with `#` where counts are asked for, and is this text.
    Query(&'a str),
    /// It is none of these.
    Bad,
}

// The kind of a line that begins as a query line does.
fn query_kind<'a>(dialect: Dialect<'_>, bytes: &'a [u8]) -> LineKind<'a>
    requires { spec.begins_query (dialect_of dialect) bytes.now ≡ true }
    ensures { IsOfKind (dialect_of dialect.entry) bytes.now result }
{
    let Ok(text) = str::from_utf8(bytes) else {
        return LineKind::Bad;
    };
    LineKind::Query(text)
}

// The kind of a line that isn't blank, nor a document line.
fn other_kind<'a>(dialect: Dialect<'_>, bytes: &'a [u8]) -> LineKind<'a>
    requires some { 0 < length bytes.now }
    requires other { slice_index bytes.now 0 ≢ 123 }
    ensures { IsOfKind (dialect_of dialect.entry) bytes.now result }
{
    if begins_query(dialect, bytes) {
        query_kind(dialect, bytes)
    } else {
        LineKind::Bad
    }
}

/// The kind of a line that isn't long, by its first byte and this dialect. Takes no memory.
pub fn line_kind<'a>(dialect: Dialect<'_>, bytes: &'a [u8]) -> LineKind<'a>
    ensures { IsOfKind (dialect_of dialect.entry) bytes.now result }
{
    if bytes.is_empty() {
        return LineKind::Blank;
    }
    if bytes[0] == b'{' {
        return LineKind::Document;
    }
    other_kind(dialect, bytes)
}

/// The kind of a line where no line asks for a count: one that begins with `#` is none of the
/// others. Takes no memory.
pub fn plain_kind(bytes: &[u8]) -> LineKind<'_>
    ensures kind { IsOfKind plain bytes.now result }
    ensures mark { HasQuestionMark result }
{
    line_kind(Dialect::plain(), bytes)
}
