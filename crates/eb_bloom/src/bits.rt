//! Bits of words of 64.
ghost use Rattle.std.specs.Prelude.{◌≡◌, ℕ, ◌+◌, ◌*◌, ◌%◌, ◌<◌, ◌||◌, ◌==◌, length};
ghost use Rattle.eb_bloom.specs.Bits.{is_set};
ghost use Rattle.eb_marks.specs.Members.{has_mark};

// The bits of a word from this one on, the lowest first.
pub(crate) fn bits_from(words: &[u64], bit: usize) -> u64
    requires { bit < 64 * length words.now }
    ensures { (s : ℕ) → bit % 64 + s < 64 → has_mark result s ≡ is_set words.now (bit + s) }
{
    words[bit / 64] >> (bit % 64)
}

// Sets two bits, and leaves all others as they are.
pub(crate) fn set_bits(words: &mut [u64], bit: usize, other: usize)
    requires bit { bit < 64 * length words.old }
    requires other { other < 64 * length words.old }
    ensures { (i : ℕ) → is_set words.new i ≡ (is_set words.old i || (bit == i || other == i)) }
{
    set_bit(words, bit);
    set_bit(words, other);
}

// Sets this bit, and leaves all others as they are.
fn set_bit(words: &mut [u64], bit: usize)
    requires { bit < 64 * length words.old }
    ensures long { length words.new ≡ length words.old }
    ensures bits { (i : ℕ) → is_set words.new i ≡ (is_set words.old i || bit == i) }
{
    words[bit / 64] |= 1 << (bit % 64);
}
