//! The pieces of the lines that are printed.
ghost use Rattle.std.specs.Prelude.{◌≡◌, ◌+◌, ◌*◌, ◌≤◌, ◌++◌, ◌∷◌, length, vec_len, vec_capacity};
ghost use Rattle.std.specs.Fmt.{decimal};
ghost use Rattle.eb_lines.specs.Words.{parted};
ghost use Rattle.eb_lines.specs.JsonTexts.{listed};

use itoa::Buffer;

// Puts the bytes after the text, which has room for them. Takes no memory.
pub(crate) fn put(text: &mut Vec<u8>, bytes: &[u8])
    requires { vec_len text.old + length bytes.now ≤ vec_capacity text.old }
    ensures text { text.new.items ≡ text.old.items ++ bytes.now }
    ensures len { vec_len text.new ≡ vec_len text.old + length bytes.now }
    ensures room { vec_capacity text.old ≤ vec_capacity text.new }
{
    text.extend_from_slice(bytes).unwrap();
}

// A number in decimal.
#[inline(always)]
pub(crate) fn put_number(text: &mut Vec<u8>, number: u64)
    requires { vec_len text.old + 20 ≤ vec_capacity text.old }
    ensures text { text.new.items ≡ text.old.items ++ decimal number }
    ensures len { vec_len text.new ≤ vec_len text.old + 20 }
    ensures room { vec_capacity text.old ≤ vec_capacity text.new }
{
    let mut buffer = Buffer::new();
    put(text, buffer.format(number).as_bytes());
}

// A number after a byte that separates it from what comes before.
#[inline(always)]
fn put_next(text: &mut Vec<u8>, part: u8, number: u64)
    requires { vec_len text.old + 21 ≤ vec_capacity text.old }
    ensures text { text.new.items ≡ text.old.items ++ part ∷ decimal number }
    ensures len { vec_len text.new ≤ vec_len text.old + 21 }
    ensures room { vec_capacity text.old ≤ vec_capacity text.new }
{
    put(text, &[part]);
    put_number(text, number);
}

// Each number after such a byte. The loop holds all that it calls: as a call for each number, an
// answer of ten ids took a fourth more instructions.
#[inline(never)]
pub(crate) fn put_ids(text: &mut Vec<u8>, part: u8, ids: &[u64])
    requires { vec_len text.old + 21 * length ids.now ≤ vec_capacity text.old }
    ensures text { text.new.items ≡ text.old.items ++ parted part ids.now }
    ensures len { vec_len text.new ≤ vec_len text.old + 21 * length ids.now }
    ensures room { vec_capacity text.old ≤ vec_capacity text.new }
{
    for id in ids {
        put_next(text, part, *id);
    }
}

// Each number after a byte that separates them.
pub(crate) fn put_numbers(text: &mut Vec<u8>, part: u8, numbers: &[u32])
    requires { vec_len text.old + 21 * length numbers.now ≤ vec_capacity text.old }
    ensures text { text.new.items ≡ text.old.items ++ parted part numbers.now }
    ensures len { vec_len text.new ≤ vec_len text.old + 21 * length numbers.now }
    ensures room { vec_capacity text.old ≤ vec_capacity text.new }
{
    for number in numbers {
        put_next(text, part, u64::from(*number));
    }
}

// The numbers with a comma between two of them.
pub(crate) fn put_id_list(text: &mut Vec<u8>, ids: &[u64])
    requires { vec_len text.old + 21 * length ids.now ≤ vec_capacity text.old }
    ensures text { text.new.items ≡ text.old.items ++ listed ids.now }
    ensures len { vec_len text.new ≤ vec_len text.old + 21 * length ids.now }
    ensures room { vec_capacity text.old ≤ vec_capacity text.new }
{
    if let Some((first, rest)) = ids.split_first() {
        put_number(text, *first);
        put_ids(text, b',', rest);
    }
}

// The numbers with a comma between two of them.
pub(crate) fn put_number_list(text: &mut Vec<u8>, numbers: &[u32])
    requires { vec_len text.old + 21 * length numbers.now ≤ vec_capacity text.old }
    ensures text { text.new.items ≡ text.old.items ++ listed numbers.now }
    ensures len { vec_len text.new ≤ vec_len text.old + 21 * length numbers.now }
    ensures room { vec_capacity text.old ≤ vec_capacity text.new }
{
    if let Some((first, rest)) = numbers.split_first() {
        put_number(text, u64::from(*first));
        put_numbers(text, b',', rest);
    }
}
