//! The members of an object.
ghost use Rattle.std.specs.Prelude.{◌≡◌, length, Some, None, IfSome, IfNone, unwrap_or, bytes_eq};
ghost use Rattle.json.specs.Json.{value, members};
ghost use Rattle.serde_json.specs.Data.{object, no_members};
ghost use Rattle.serde_json.specs.Data as values;
ghost use Rattle.serde_json.specs.Read.{of_members, converted};
ghost use Rattle.eb_doc.specs.Seen.{Shows, ShowsMembers};
ghost use Rattle.eb_doc.specs.WithFields.{id_in, text_in};
ghost use Rattle.eb_fields.specs.Dialect.{dialect_of};
ghost use Rattle.eb_fields.specs.Given.{told_text};

use crate::given::id_by;
use crate::passing::pass;
use crate::seen::{Members, Seen};
use eb_fields::Dialect;
use json::Reader;

// What is seen of an object whose members come next, and whose values nest no deeper than this.
#[inline(always)]
pub(crate) fn read_members<'a>(
    reader: &mut Reader<'a>,
    depth: usize,
    dialect: &Dialect<'_>,
) -> Option<Members<'a>>
    ensures ok { IfSome result (λ found. (ms : values.Members)
        × (converted (λ js. of_members js no_members) (members (value depth) (length reader.old) reader.old) ≡ Some (ms, reader.new))
        × ShowsMembers (dialect_of dialect.now) found (object ms)) }
    ensures err { IfNone result (converted (λ js. of_members js no_members) (members (value depth) (length reader.old) reader.old) ≡ None) }
{
    let mut found = Members {
        id: None,
        text: None,
    };
    'members: loop {
        let Ok(key) = reader.next_key() else {
            return None;
        };
        let Some(name) = key else {
            return Some(found);
        };
        let Some(seen) = pass(reader, depth) else {
            return None;
        };
        see_id(dialect, &mut found.id, name, &seen);
        see_text(dialect, &mut found.text, name, &seen);
    }
}

// Whether this is the name that is given. It stands in no caller's code, so that a line costs
// nothing for it where no name is given.
#[inline(never)]
fn is_own(name: &str, own: &str) -> bool
    ensures { result ≡ bytes_eq name.now own.now }
{
    name == own
}

// Whether this is the given name, or the usual one where none is given. The usual one stands in the
// code of its caller, which makes comparing it cheap.
#[inline(always)]
fn is_named(name: &str, given: Option<&str>, usual: &str) -> bool
    ensures { result ≡ bytes_eq name.now (unwrap_or (told_text given.entry) usual.now) }
{
    match given {
        Some(own) => is_own(name, own),
        None => name == usual,
    }
}

// Sees one more member of an object, which is the id in place of an earlier one of its name, where
// it has the id's name.
#[inline(always)]
fn see_id(dialect: &Dialect<'_>, found: &mut Option<u64>, name: &str, seen: &Seen<'_>)
    ensures { let how = dialect_of dialect.now in
        (ms : values.Members) (d : values.Data) → found.old ≡ id_in how (object ms) → Shows seen.now d
        → found.new ≡ id_in how (object (values.put name.now d ms)) }
{
    if is_named(name, dialect.id, "id") {
        *found = id_by(dialect.id, seen);
    }
}

// Sees one more member of an object, which is the text in place of an earlier one of its name, where
// it has the text's name.
#[inline(always)]
fn see_text<'a>(dialect: &Dialect<'_>, found: &mut Option<&'a str>, name: &str, seen: &Seen<'a>)
    ensures { let how = dialect_of dialect.now in
        (ms : values.Members) (d : values.Data) → told_text found.old ≡ text_in how (object ms) → Shows seen.now d
        → told_text found.new ≡ text_in how (object (values.put name.now d ms)) }
{
    if is_named(name, dialect.text, "text") {
        *found = seen.string;
    }
}
