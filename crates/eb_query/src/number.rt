ghost use Rattle.std.specs.Prelude.{◌≡◌, ◌+◌, ◌<◌, ◌≤◌, length, drop, IfSome, IfNone};
ghost use Rattle.eb_query.specs.Number.{is_blank_or_end, digits_len, number_in_line, HasNumberUpTo, HasQueryNumber};

use crate::digits::value_of;
use crate::lexeme::is_blank_byte;
use eb_fields::digits_at;

/// The most matches that a query may ask for (this project's profile, docs/FORMATS.md).
pub const MAX_NUMBER: u32 = 1000;

/// The number of a line.
#[derive(Clone, Copy, Drop)]
pub struct Number {
    /// Its value.
    pub value: u32,
    /// The place of the byte after its last digit, counted from 0.
    pub end: usize,
}

// Whether there is a blank at this place, or the line ends there.
fn is_apart(line: &[u8], from: usize) -> bool
    requires { from ≤ length line.now }
    ensures { result ≡ is_blank_or_end (drop from line.now) }
{
    from == line.len() || is_blank_byte(line[from])
}

/// The number after the first byte of a line, if it has one: from one to `most_digits` digits, of a
/// value that isn't over the most, and after them a blank or the end. Takes no memory.
pub fn number_up_to(line: &[u8], most_digits: usize, most: u32) -> Option<Number>
    requires first { 0 < length line.now }
    requires few { most_digits ≤ 16 }
    ensures none { IfNone result (HasNumberUpTo most_digits most line.now → ⊥) }
    ensures some { IfSome result (λ number. HasNumberUpTo most_digits most line.now) }
    ensures value { IfSome result (λ number. number.value ≡ number_in_line line.now) }
    ensures end { IfSome result (λ number. number.end ≡ 1 + digits_len line.now) }
{
    let digits = digits_at(&line[1..]);
    if digits == 0 || digits > most_digits {
        return None;
    }
    let end = digits + 1;
    let value = value_of(&line[1..end]);
    if value > u64::from(most) {
        return None;
    }
    if is_apart(line, end) {
        Some(Number {
            value: value as u32,
            end,
        })
    } else {
        None
    }
}

/// The number of a line that begins with a question mark, if it has one: one to four digits of a
/// value from 1 to [`MAX_NUMBER`], and after them a blank or the end. Takes no memory.
pub fn number_at(line: &[u8]) -> Option<Number>
    requires { 0 < length line.now }
    ensures none { IfNone result (HasQueryNumber line.now → ⊥) }
    ensures some { IfSome result (λ number. HasQueryNumber line.now) }
    ensures value { IfSome result (λ number. number.value ≡ number_in_line line.now) }
    ensures end { IfSome result (λ number. number.end ≡ 1 + digits_len line.now) }
{
    let number = number_up_to(line, 4, MAX_NUMBER)?;
    if number.value == 0 {
        return None;
    }
    Some(number)
}
