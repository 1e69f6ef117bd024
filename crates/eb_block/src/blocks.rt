ghost use Rattle.std.specs.Prelude.{◌≡◌, ℕ, List, [], ◌∷◌, ◌++◌, ◌+◌, ◌-◌, ◌*◌, ◌/◌, ◌%◌, ◌^◌, ◌<◌, ◌≤◌, length, take, fold, max};
ghost use Rattle.eb_place.specs.Packed.{block, differences, fields, lowest_words, width_of};
ghost use Rattle.eb_place.specs.Falling.{IsFalling};
ghost use Rattle.eb_block.specs.Blocks.{IsPackable, BeginsWith};
ghost use Rattle.eb_block.specs.Fields.{IsHeld, Poured, DrawsFrom};
ghost use Rattle.eb_place.specs.Postings.{posting_bits};
ghost use Rattle.eb_block.specs.declared.TheConstants.{BLOCK_WORDS};

use crate::bits::Bits;
use crate::{BLOCK_POSTINGS, BLOCK_WORDS};
use eb_place::Posting;

// Where fields are written to words, or read from them: the next word, and bits before it.
#[derive(Clone, Copy)]
struct Spot {
    at: usize,
    bits: Bits,
}

/// Packs 1 to 128 falling postings. Writes their block at the start of `into` (this project's
/// profile, docs/FORMATS.md), and returns its number of words, which is at most the number of
/// postings. Takes no memory.
pub fn pack_block(postings: &[Posting], into: &mut [u64; BLOCK_WORDS]) -> usize
    requires { IsPackable postings.now }
    ensures block { take result into.new ≡ block postings.now }
    ensures few { result ≤ length postings.now }
    ensures inside { result ≤ length into.new }
{
    let width = width_of(postings);
    into[0] = header(postings[0], width, postings.len() as u64);
    let mut spot = Spot {
        at: 1,
        bits: Bits::none(),
    };
    for i in 1..postings.len() {
        spot = pour(into, spot, postings[i - 1] - postings[i], width);
    }
    close(into, spot)
}

/// Unpacks the block that the words begin with. Writes its postings at the start of `into`, and
/// returns their number. Takes no memory.
pub fn unpack_block(words: &[u64], into: &mut [Posting; BLOCK_POSTINGS]) -> usize
    requires { (xs : List ℕ) × BeginsWith words.now xs }
    ensures { (xs : List ℕ) → BeginsWith words.now xs → (result ≡ length xs) × (take result into.new ≡ xs) }
{
    let header = words[0];
    let count = count_in(header);
    let width = width_in(header);
    let mut posting = posting_in(header);
    into[0] = posting;
    let mut spot = Spot {
        at: 1,
        bits: Bits::none(),
    };
    for i in 1..count {
        let (difference, next) = draw(words, spot, width);
        spot = next;
        posting -= difference;
        into[i] = posting;
    }
    count
}

// The least number of bits that holds each difference of a posting to the next.
fn width_of(postings: &[Posting]) -> u32
    requires { IsFalling postings.now }
    ensures { result ≡ width_of (fold max 0 (differences postings.now)) }
{
    let mut widest = 0u64;
    for i in 1..postings.len() {
        widest = (postings[i - 1] - postings[i]).max(widest);
    }
    64 - widest.leading_zeros()
}

// The header of a block.
#[inline(always)]
fn header(posting: Posting, width: u32, count: u64) -> u64
    requires posting { posting < 2 ^ posting_bits }
    requires width { width < 2 ^ 8 }
    requires count { count < 2 ^ 8 }
    ensures { result ≡ posting * 2 ^ 16 + width * 2 ^ 8 + count }
{
    (posting << 16) + (u64::from(width) << 8) + count
}

// How many postings the block with this header has.
#[inline(always)]
pub(crate) fn count_in(header: u64) -> usize
    ensures { result ≡ header % 2 ^ 8 }
{
    (header % (1 << 8)) as usize
}

// The width of its fields.
#[inline(always)]
pub(crate) fn width_in(header: u64) -> u32
    ensures { result ≡ header / 2 ^ 8 % 2 ^ 8 }
{
    ((header >> 8) % (1 << 8)) as u32
}

// Its first posting.
#[inline(always)]
pub(crate) fn posting_in(header: u64) -> Posting
    requires { header < 2 ^ (16 + posting_bits) }
    ensures { result ≡ header / 2 ^ 16 }
{
    header >> 16
}

// Writes one more field.
#[inline(always)]
fn pour(into: &mut [u64; BLOCK_WORDS], spot: Spot, field: u64, width: u32) -> Spot
    requires held { IsHeld spot.bits }
    requires field { field < 2 ^ width }
    requires narrow { width < 64 }
    requires at { spot.at < BLOCK_WORDS }
    ensures { (header : ℕ) (numbers : List ℕ) → Poured width header into.old spot.at spot.bits numbers
        → Poured width header into.new result.at result.bits (numbers ++ field ∷ []) }
{
    if spot.bits.count + width < 64 {
        return Spot {
            at: spot.at,
            bits: spot.bits.with(field, width),
        };
    }
    let (word, bits) = spot.bits.over(field, width);
    into[spot.at] = word;
    Spot {
        at: spot.at + 1,
        bits,
    }
}

// Writes the last bits, where there are any.
fn close(into: &mut [u64; BLOCK_WORDS], spot: Spot) -> usize
    requires at { spot.at < BLOCK_WORDS }
    ensures inside { result ≤ BLOCK_WORDS }
    ensures words { (width header : ℕ) (numbers : List ℕ) → Poured width header into.old spot.at spot.bits numbers
        → take result into.new ≡ header ∷ lowest_words ((length numbers * width + 63) / 64) (fields width numbers) }
{
    if spot.bits.count == 0 {
        return spot.at;
    }
    into[spot.at] = spot.bits.low;
    spot.at + 1
}

// Reads one field.
#[inline(always)]
fn draw(words: &[u64], spot: Spot, width: u32) -> (u64, Spot)
    requires narrow { width < 64 }
    requires next { (n : ℕ) × (ns : List ℕ) × DrawsFrom width words.now spot.at spot.bits (n ∷ ns) }
    ensures { (n : ℕ) (ns : List ℕ) → DrawsFrom width words.now spot.at spot.bits (n ∷ ns)
        → (result.0 ≡ n) × DrawsFrom width words.now result.1.at result.1.bits ns }
{
    let mut bits = spot.bits;
    if width <= bits.count {
        let field = bits.take(width);
        return (field, Spot { at: spot.at, bits });
    }
    let field = bits.take_over(words[spot.at], width);
    (
        field,
        Spot {
            at: spot.at + 1,
            bits,
        },
    )
}
