ghost use Rattle.std.specs.Prelude.{◌≡◌, ◌<◌, ◌≤◌, ◌^◌, [], ◌∷◌, get_or, length};
ghost use Rattle.eb_base.specs.Term.{AreBytes};
ghost use Rattle.eb_place.specs.Room.{text_words};
ghost use Rattle.eb_place.specs.Placing.{text_of, little_endian};

use eb_base::Term;

// The bytes of a text word.
const WORD_BYTES: usize = 8;

/// How many text words a term takes: its length, and its bytes by eights.
pub fn count_words(term: &Term) -> usize
    ensures count { result ≡ text_words term.now }
    ensures bytes { AreBytes term.now }
{
    let bytes = term.bytes();
    1 + bytes.len().div_ceil(WORD_BYTES)
}

// A text word of a term: its length in bytes, or eight of its bytes, lowest first.
pub(crate) fn text_word(term: &Term, at: usize) -> u64
    requires { at < text_words term.now }
    ensures { result ≡ get_or (text_of term.now) at 0 }
{
    let bytes = term.bytes();
    if at == 0 {
        return bytes.len() as u64;
    }
    let rest = &bytes[(at - 1) * WORD_BYTES..];
    lowest_first(&rest[..rest.len().min(WORD_BYTES)])
}

// Up to eight bytes as a number, the first lowest. The first four are one load where there are
// four. A loop over the bytes ends where the processor can't guess, since lengths vary: with it a
// Zipf document took 15,278 instructions in place of 14,274, and a rare word 3,099 in place of
// 2,981. Rejected: eight bytes at once always, which reads past the end of a term.
#[inline(always)]
fn lowest_first(bytes: &[u8]) -> u64
    requires { length bytes.now ≤ 8 }
    ensures { result ≡ little_endian bytes.now }
{
    match bytes {
        [a, b, c, d, rest @ ..] => four_bytes(*a, *b, *c, *d) + (1 << 32) * up_to_four(rest),
        _ => up_to_four(bytes),
    }
}

// Up to four bytes as a number, the first lowest.
#[inline(always)]
fn up_to_four(bytes: &[u8]) -> u64
    requires { length bytes.now ≤ 4 }
    ensures number { result ≡ little_endian bytes.now }
    ensures small { result < 2 ^ 32 }
{
    match bytes {
        [a, b, c, d] => four_bytes(*a, *b, *c, *d),
        [a, b, c] => four_bytes(*a, *b, *c, 0),
        [a, b] => four_bytes(*a, *b, 0, 0),
        [a] => u64::from(*a),
        _ => 0,
    }
}

// Four bytes as a number, the first lowest.
#[inline(always)]
fn four_bytes(a: u8, b: u8, c: u8, d: u8) -> u64
    ensures number { result ≡ little_endian (a ∷ b ∷ c ∷ d ∷ []) }
    ensures small { result < 2 ^ 32 }
{
    u64::from(u32::from_le_bytes([a, b, c, d]))
}
