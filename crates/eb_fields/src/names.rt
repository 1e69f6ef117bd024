//! The grammar of the names of fields.
ghost use Rattle.std.specs.Prelude.{◌≡◌, ◌++◌, ◌∷◌, [], eqb, ◌&&◌, nat_lt, nat_le, length, slice_index};
ghost use Rattle.std.specs.List.{list_all, list_any, starts_with};
ghost use Rattle.std.specs.Str.{bytes_eq};
ghost use Rattle.eb_fields.specs.Fields.{names, most_names};
ghost use Rattle.eb_fields.specs.Fields as spec;

use crate::fields::Fields;

/// The most names of a list of fields.
pub const MAX_NAMES: usize = 8;

/// The most bytes of a field's name.
pub const MAX_NAME_BYTES: usize = 32;

// Whether there are one to eight names, and none twice.
pub(crate) fn are_names(fields: Fields<'_>) -> bool
    ensures { result ≡ spec.are_names (names fields.entry) }
{
    !fields.is_none() && are_few(fields) && are_all_names(fields) && are_distinct(fields)
}

// Whether there are at most as many names as may be.
fn are_few(fields: Fields<'_>) -> bool
    ensures { result ≡ nat_le (length (names fields.entry)) most_names }
{
    let mut rest = fields;
    for _at in 0..MAX_NAMES {
        let Some((_name, more)) = rest.split_first() else {
            return true;
        };
        rest = more;
    }
    rest.is_none()
}

// Whether each name is well formed.
fn are_all_names(fields: Fields<'_>) -> bool
    ensures { result ≡ list_all spec.is_name (names fields.entry) }
{
    match fields.split_first() {
        Some((name, rest)) => is_name(name.as_bytes()) && are_all_names(rest),
        None => true,
    }
}

// Whether no name occurs twice.
fn are_distinct(fields: Fields<'_>) -> bool
    ensures { result ≡ spec.are_distinct (names fields.entry) }
{
    match fields.split_first() {
        Some((name, rest)) => !is_among(name, rest) && are_distinct(rest),
        None => true,
    }
}

// Whether the name is one of these.
fn is_among(name: &str, fields: Fields<'_>) -> bool
    ensures { result ≡ list_any (bytes_eq name.now) (names fields.entry) }
{
    match fields.split_first() {
        Some((other, rest)) => name == other || is_among(name, rest),
        None => false,
    }
}

// Whether the text is a name.
fn is_name(name: &[u8]) -> bool
    ensures { result ≡ spec.is_name name.now }
{
    !name.is_empty()
        && name.len() <= MAX_NAME_BYTES
        && are_name_bytes(name)
        && name != b"since".as_slice()
}

// Whether each of these bytes may be in a name.
fn are_name_bytes(bytes: &[u8]) -> bool
    ensures { result ≡ list_all spec.is_name_byte bytes.now }
{
    bytes.iter().all(|&byte| is_name_byte(byte))
}

// Whether the byte may be in a name.
fn is_name_byte(byte: u8) -> bool
    ensures { result ≡ spec.is_name_byte byte }
{
    byte.is_ascii_lowercase() || byte.is_ascii_digit() || byte == b'_'
}

// Whether there is a colon at this place.
fn has_colon_at(bytes: &[u8], at: usize) -> bool
    ensures { result ≡ (nat_lt at (length bytes.now) && eqb (slice_index bytes.now at) 58) }
{
    at < bytes.len() && bytes[at] == b':'
}

// Whether the text begins with the name and a colon.
pub(crate) fn is_begun_by(text: &str, name: &str) -> bool
    ensures { result ≡ starts_with eqb text.now (name.now ++ 58 ∷ []) }
{
    text.starts_with(name) && has_colon_at(text.as_bytes(), name.len())
}
