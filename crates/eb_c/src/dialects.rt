//! How a caller says that lines and texts are read.
ghost use Rattle.std.specs.Prelude.{◌≡◌, option_map};
ghost use Rattle.eb_fields.specs.Dialect.{dialect_of};
ghost use Rattle.eb_c.specs.Dialects.{names_by, member_by, cut_by, dialect_by};
ghost use Rattle.eb_fields.specs.Given.{told_fields, told_member};

use eb_fields::{Dialect, Fields};
use eb_text::Cut;
use std::str;

/// How lines and texts are read, as the options of the program `earlybird` say it. Where all is
/// empty and 0, they are read as without options.
#[repr(C)]
#[derive(Clone, Copy, Debug)]
pub struct Reading<'a> {
    /// The names of the members of documents that queries can ask for too, with commas between, as
    /// `--fields` has them: one to eight names, each of one to 32 of the letters `a` to `z`, the
    /// digits and `_`, none of them `since`, and none twice. Empty: there is none.
    pub fields: &'a [u8],
    /// The name of the member that is a document's id, as `--id` has it, in UTF-8. Empty: it is
    /// `id`.
    pub id: &'a [u8],
    /// The name of the member that is a document's text, as `--text` has it, in UTF-8. Empty: it is
    /// `text`.
    pub text: &'a [u8],
    /// How texts are cut into tokens: 0 as without options, 1 as `--words pieces` says it.
    pub words: u32,
}

// The fields of these names, if they are well formed; none where there are no bytes.
fn read_fields<'a>(names: &'a [u8]) -> Option<Fields<'a>>
    ensures { told_fields result ≡ names_by names.now }
{
    if names.is_empty() {
        return Some(Fields::none());
    }
    match str::from_utf8(names) {
        Ok(names) => Fields::read(names),
        Err(_) => None,
    }
}

// The name of a member, if it is UTF-8; `Some(None)` where there are no bytes.
fn read_member<'a>(name: &'a [u8]) -> Option<Option<&'a str>>
    ensures { told_member result ≡ member_by name.now }
{
    if name.is_empty() {
        return Some(None);
    }
    match str::from_utf8(name) {
        Ok(name) => Some(Some(name)),
        Err(_) => None,
    }
}

// How texts are cut by this number, if it says so.
fn read_cut(words: u32) -> Option<Cut>
    ensures { result ≡ cut_by words }
{
    match words {
        0 => Some(Cut::Words),
        1 => Some(Cut::Pieces),
        _ => None,
    }
}

// How lines are read, if it is said in the grammar of the options.
pub(crate) fn read_dialect<'a>(how: &Reading<'a>) -> Option<Dialect<'a>>
    ensures { option_map dialect_of result ≡ dialect_by how.now }
{
    let fields = read_fields(how.fields)?;
    let cut = read_cut(how.words)?;
    let id = read_member(how.id)?;
    let text = read_member(how.text)?;
    Some(Dialect {
        fields,
        cut,
        id,
        text,
        ..Dialect::plain()
    })
}
