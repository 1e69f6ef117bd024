ghost use Rattle.std.specs.Prelude.{◌≡◌, ℕ, ◌+◌, ◌-◌, ◌%◌, ◌==◌, ◌&&◌, ◌≤◌, ◌<◌, ◌^◌, nat_le};
ghost use Rattle.eb_base.specs.Document.{most_tokens};
ghost use Rattle.eb_place.specs.Room.{slices};
ghost use Rattle.eb_chain.specs.Needs.{IsTailWord, TakesSlices, BeginsSlice, HasLike};

use eb_place::{offset_of, pool_of};

/// How many new slices of each pool some postings take.
#[derive(Clone, Copy, Debug, PartialEq, Eq)]
pub struct NewSlices {
    /// Slices of pool 0, which hold 2 postings.
    pub pool0: u32,
    /// Slices of pool 1, which hold 15 postings and a link.
    pub pool1: u32,
    /// Slices of pool 2, which hold 127 postings and a link.
    pub pool2: u32,
    /// Slices of pool 3, which hold 2,047 postings and a link.
    pub pool3: u32,
}

/// The new slices that `postings` further postings of a term take. `tail` is the term's tail word:
/// 0, or one more than the address of its last posting. A document has at most
/// [`MAX_TOKENS`](eb_base::MAX_TOKENS) postings. Takes no memory.
pub fn needs(tail: u64, postings: u32) -> NewSlices
    requires tail { (f : ℕ) × IsTailWord f tail }
    requires few { postings ≤ most_tokens }
    ensures { (f : ℕ) → IsTailWord f tail → TakesSlices f postings result }
{
    let before = least_before(tail);
    let after = before + postings;
    NewSlices {
        pool0: slices_in(0, after) - slices_in(0, before),
        pool1: slices_in(1, after) - slices_in(1, before),
        pool2: slices_in(2, after) - slices_in(2, before),
        pool3: slices_in(3, after) - slices_in(3, before),
    }
}

/// The new slices that one more posting of a term takes, after `postings` further ones of one
/// document, by the term's tail word: at most one, which this posting begins. Takes no memory.
pub fn needs_next(tail: u64, postings: u32) -> NewSlices
    requires tail { (f : ℕ) × IsTailWord f tail }
    requires few { postings ≤ most_tokens }
    ensures { (f : ℕ) → IsTailWord f tail → BeginsSlice (f + postings) result }
{
    let before = least_before(tail) + postings;
    NewSlices {
        pool0: u32::from(before == 0),
        pool1: u32::from(before == 2),
        pool2: u32::from(before == 17),
        pool3: u32::from(begins_last(before)),
    }
}

// Whether the posting that comes after this many begins a slice of pool 3.
fn begins_last(before: u32) -> bool
    ensures { result ≡ (nat_le 144 before && ((before - 144) % 2047 == 0)) }
{
    before >= 144 && (before - 144) % 2047 == 0
}

// The least number of postings of a term that has this tail word. Slices of pool 3 are alike, so a
// tail there doesn't say how many came before its slice.
fn least_before(tail: u64) -> u32
    requires { (f : ℕ) × IsTailWord f tail }
    ensures like { (f : ℕ) → IsTailWord f tail → HasLike f result }
    ensures small { result ≤ 2191 }
{
    if tail == 0 {
        return 0;
    }
    let last = (tail - 1) as u32;
    match pool_of(last) {
        0 => offset_of(last) + 1,
        1 => offset_of(last) + 2,
        2 => offset_of(last) + 17,
        _ => offset_of(last) + 144,
    }
}

// The slices of a pool that a term with this many postings has.
fn slices_in(pool: u32, postings: u32) -> u32
    requires { postings < 2 ^ 16 }
    ensures { result ≡ slices pool postings }
{
    match pool {
        0 => u32::from(postings > 0),
        1 => u32::from(postings > 2),
        2 => u32::from(postings > 17),
        _ => postings.saturating_sub(144).div_ceil(2047),
    }
}
