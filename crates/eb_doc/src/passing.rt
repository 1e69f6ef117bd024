//! Values of JSON that are skipped.
ghost use Rattle.std.specs.Prelude.{◌≡◌, ◌<◌, length, Some, None, IfSome, IfNone};
ghost use Rattle.json.specs.Json.{value, items, members};
ghost use Rattle.serde_json.specs.Data.{Data, Items, Members, no_members};
ghost use Rattle.serde_json.specs.Read.{of_json, of_items, of_members, converted};
ghost use Rattle.eb_doc.specs.Seen.{Shows};

use crate::numbers::whole_number;
use crate::seen::{NEITHER, Seen};
use json::{Reader, Token};

// Skips the value that comes next, whose arrays and objects nest no deeper than this.
#[cycle(pass)]
pub(crate) fn pass<'a>(reader: &mut Reader<'a>, depth: usize) -> Option<Seen<'a>>
    ensures ok { IfSome result (λ seen. (d : Data) × (converted of_json (value depth reader.old) ≡ Some (d, reader.new)) × Shows seen d) }
    ensures shorter { IfSome result (λ _. length reader.new < length reader.old) }
    ensures err { IfNone result (converted of_json (value depth reader.old) ≡ None) }
{
    let Some(token) = reader.next() else {
        return None;
    };
    match token {
        Token::String(text) => Some(Seen {
            number: None,
            string: Some(text),
        }),
        Token::Bool(_is) => Some(NEITHER),
        Token::Null => Some(NEITHER),
        Token::Number(text) => match whole_number(text) {
            Some(number) => Some(Seen {
                number,
                string: None,
            }),
            None => None,
        },
        Token::EndObject | Token::EndArray | Token::Key(_) | Token::Bad => None,
        Token::BeginArray => {
            if depth == 0 {
                return None;
            }
            match pass_items(reader, depth - 1) {
                Some(()) => Some(NEITHER),
                None => None,
            }
        }
        Token::BeginObject => {
            if depth == 0 {
                return None;
            }
            match pass_members(reader, depth - 1) {
                Some(()) => Some(NEITHER),
                None => None,
            }
        }
    }
}

// Skips the items of an array, and its end.
#[cycle(pass)]
fn pass_items(reader: &mut Reader<'_>, depth: usize) -> Option<()>
    ensures ok { IfSome result (λ _. (ds : Items) × (converted of_items (items (value depth) (length reader.old) reader.old) ≡ Some (ds, reader.new))) }
    ensures shorter { IfSome result (λ _. length reader.new < length reader.old) }
    ensures err { IfNone result (converted of_items (items (value depth) (length reader.old) reader.old) ≡ None) }
{
    'items: while !reader.take_end_array() {
        let Some(_seen) = pass(reader, depth) else {
            return None;
        };
    }
    Some(())
}

// Skips the members of an object, and its end.
#[cycle(pass)]
fn pass_members(reader: &mut Reader<'_>, depth: usize) -> Option<()>
    ensures ok { IfSome result (λ _. (ms : Members)
        × (converted (λ js. of_members js no_members) (members (value depth) (length reader.old) reader.old) ≡ Some (ms, reader.new))) }
    ensures shorter { IfSome result (λ _. length reader.new < length reader.old) }
    ensures err { IfNone result (converted (λ js. of_members js no_members) (members (value depth) (length reader.old) reader.old) ≡ None) }
{
    'members: loop {
        let Ok(key) = reader.next_key() else {
            return None;
        };
        let Some(_name) = key else {
            return Some(());
        };
        let Some(_seen) = pass(reader, depth) else {
            return None;
        };
    }
}
