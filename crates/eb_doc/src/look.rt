//! A line as an object of JSON.
ghost use Rattle.std.specs.Prelude.{◌≡◌, IfOk};
ghost use Rattle.eb_doc.specs.DocumentLine.{value_of};
ghost use Rattle.eb_doc.specs.Looked.{IsLook};
ghost use Rattle.eb_fields.specs.Dialect.{dialect_of};

use crate::members::read_members;
use crate::seen::Members;
use eb_base::NoMemory;
use eb_fields::Dialect;
use json::{Reader, Scratch, Token};

// The value of a line nests no deeper than this.
const MAX_DEPTH: usize = 127;

// What a line is: an object, no value of JSON, or not decided by this look.
pub(crate) enum Look<'a> {
    Object(Members<'a>),
    NoJson,
    Other,
}

// Looks at a line token by token, without a tree of its values, for the members that are the id and
// the text by this dialect.
#[inline(always)]
pub(crate) fn look_at<'a>(
    line: &'a [u8],
    scratch: &'a mut Scratch,
    dialect: &Dialect<'_>,
) -> Result<Look<'a>, NoMemory>
    ensures { IfOk result (λ look. IsLook (dialect_of dialect.now) look (value_of line.now)) }
{
    let Ok(text) = str::from_utf8(line) else {
        return Ok(Look::NoJson);
    };
    let Ok(mut reader) = Reader::new(text, scratch) else {
        return Err(NoMemory);
    };
    let Some(Token::BeginObject) = reader.next() else {
        return Ok(Look::Other);
    };
    let Some(found) = read_members(&mut reader, MAX_DEPTH - 1, dialect) else {
        return Ok(Look::NoJson);
    };
    match reader.next() {
        Some(_more) => Ok(Look::NoJson),
        None => Ok(Look::Object(found)),
    }
}
