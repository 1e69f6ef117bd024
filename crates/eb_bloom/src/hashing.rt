//! The mixed hash of a term, and the two bits that it has in a filter.
//!
//! A rare word is in one segment or two, but its home cell is filled in two of five others, and
//! then the texts there are compared. A filter leaves these segments out: it has four bits for each
//! term that its segment has room for, and a term sets two of them. A search that finds one of them
//! unset needs no look at the segment.
//!
//! The bits lie row by row: a row has the same bit of each segment's filter, and lies in one word.
//! So two loads ask the filters of all segments. A row has as many bits as there are segments,
//! rounded up to a power of two: 32 KiB a segment for 65,536 terms, and at most twice as much.
//!
//! The dictionary's hash puts words like `z1234` and `z1235` into neighbouring cells, which fills
//! runs of neighbouring bits. So the hash is multiplied by 2^64 over the golden ratio first
//! (Knuth's multiplicative hashing). Both rows are among the same 64, which lie side by side. By a
//! model of 2,000 queries over five segments of 4,000 messages, 7 segments in 100 searches for a
//! rare word are looked at in vain, where one bit at the home cell made it 31. Rejected: a second
//! bit beside the home cell by the higher bits of the unmixed hash, which are alike where the lower
//! ones are (36 in vain), and a third bit (4 in vain).
ghost use Rattle.std.specs.Prelude.{◌≡◌, ◌+◌, ◌*◌, ◌/◌, ◌%◌, ◌^◌};
ghost use Rattle.eb_bloom.specs.Bits.{mixed_hash};

use eb_base::Term;
use eb_terms::hash_of;

// The hash of a term, mixed: multiplied by 2^64 over the golden ratio, modulo 2^64.
pub(crate) fn mixed_hash_of(term: &Term) -> u64
    ensures { result ≡ mixed_hash term.now }
{
    u64::from(hash_of(term)).wrapping_mul(11_400_714_819_323_198_485)
}

// The first row of a term with this mixed hash, where there are this many rows.
pub(crate) fn first_of(mixed: u64, rows: u32) -> usize
    ensures { result ≡ mixed / 2 ^ 32 * rows / 2 ^ 32 }
{
    (((mixed >> 32) * u64::from(rows)) >> 32) as usize
}

// The second row, among the same 64 as the first.
pub(crate) fn second_of(mixed: u64, first: usize) -> usize
    ensures { result ≡ first / 64 * 64 + mixed / 2 ^ 26 % 64 }
{
    first / 64 * 64 + ((mixed >> 26) % 64) as usize
}
