//! The hash of bytes.
//!
//! Four bytes are hashed at a time, and the last one, two or three without a loop, since a loop over
//! single bytes takes nine instructions for each.
ghost use Rattle.std.specs.Prelude.{◌≡◌, [], ◌∷◌};
ghost use Rattle.eb_base.specs.Hashing.{hash, hashed};

// The hash of bytes: 0, and for each byte 31 times the hash plus the byte, modulo 2^32.
pub(crate) fn hash_of(bytes: &[u8]) -> u32
    ensures { result ≡ hash bytes.now }
{
    let mut hash = 0u32;
    let mut left = bytes;
    while let [a, b, c, d, rest @ ..] = left {
        hash = after_four(hash, *a, *b, *c, *d);
        left = rest;
    }
    match left {
        [a] => after_one(hash, *a),
        [a, b] => after_two(hash, *a, *b),
        [a, b, c] => after_three(hash, *a, *b, *c),
        _ => hash,
    }
}

// The hash after one byte more.
#[inline(always)]
fn after_one(hash: u32, a: u8) -> u32
    ensures { result ≡ hashed hash (a ∷ []) }
{
    hash.wrapping_mul(31).wrapping_add(u32::from(a))
}

// The hash after two bytes more.
#[inline(always)]
fn after_two(hash: u32, a: u8, b: u8) -> u32
    ensures { result ≡ hashed hash (a ∷ b ∷ []) }
{
    let bytes = u32::from(a) * 31 + u32::from(b);
    hash.wrapping_mul(961).wrapping_add(bytes)
}

// The hash after three bytes more.
#[inline(always)]
fn after_three(hash: u32, a: u8, b: u8, c: u8) -> u32
    ensures { result ≡ hashed hash (a ∷ b ∷ c ∷ []) }
{
    let bytes = u32::from(a) * 961 + u32::from(b) * 31 + u32::from(c);
    hash.wrapping_mul(29_791).wrapping_add(bytes)
}

// The hash after four bytes more.
#[inline(always)]
fn after_four(hash: u32, a: u8, b: u8, c: u8, d: u8) -> u32
    ensures { result ≡ hashed hash (a ∷ b ∷ c ∷ d ∷ []) }
{
    let bytes = u32::from(a) * 29_791 + u32::from(b) * 961 + u32::from(c) * 31 + u32::from(d);
    hash.wrapping_mul(923_521).wrapping_add(bytes)
}
