//! Blocks of postings: their words, and what comes back from them.
ghost use Rattle.std.specs.Prelude.{◌≡◌, ◌^◌, true};
ghost use Rattle.eb_place.specs.Falling.{AllBelow};
ghost use Rattle.eb_place.specs.Postings.{posting_bits};
ghost use Rattle.eb_block.specs.Blocks.{IsPackable};

use eb_block::{BLOCK_POSTINGS, BLOCK_WORDS, pack_block, unpack_block};
use eb_place::{POSTING_BITS, Posting};
use std::alloc::Global;
use std::process::Abort;
use std::test::Fail;

// The greatest posting.
const GREATEST: Posting = (1 << POSTING_BITS) - 1;

// Whether none of these is above the greatest posting.
fn are_small(postings: &[Posting]) -> bool
    ensures { result ≡ true → AllBelow (2 ^ posting_bits) postings.now }
{
    for i in 0..postings.len() {
        if postings[i] > GREATEST {
            return false;
        }
    }
    true
}

// Whether these are 1 to 128 postings that fall.
fn is_packable(postings: &[Posting]) -> bool
    ensures { result ≡ true → IsPackable postings.now }
{
    if postings.is_empty() || postings.len() > BLOCK_POSTINGS || !are_small(postings) {
        return false;
    }
    for i in 1..postings.len() {
        if postings[i - 1] <= postings[i] {
            return false;
        }
    }
    true
}

// Packs the postings of one block and unpacks it: the words go after `words`, the postings after
// `back`.
fn put_block(
    postings: &[Posting],
    words: &mut Vec<u64>,
    back: &mut Vec<Posting>,
) -> Result<(), Fail> {
    if !is_packable(postings) {
        return Err(Fail::new("no postings of a block"));
    }
    let mut into = [u64::MAX; BLOCK_WORDS];
    let count = pack_block(postings, &mut into);
    let block = &into[..count];
    words.extend_from_slice(block)?;
    let mut unpacked = [7; BLOCK_POSTINGS];
    let many = unpack_block(block, &mut unpacked);
    back.extend_from_slice(&unpacked[..many])?;
    Ok(())
}

// The words of the blocks of these postings, and the postings that come back from them.
fn blocks_of(alloc: Global, postings: &[Posting]) -> Result<(Vec<u64>, Vec<Posting>), Fail> {
    let mut words = Vec::new(alloc);
    let mut back = Vec::new(alloc);
    for some in postings.chunks(BLOCK_POSTINGS) {
        put_block(some, &mut words, &mut back)?;
    }
    Ok((words, back))
}

// This many numbers, down to 0.
fn down_to_0(alloc: Global, from: Posting) -> Result<Vec<Posting>, Fail> {
    let mut postings = Vec::new(alloc);
    for i in 0..=from {
        postings.push(from.saturating_sub(i))?;
    }
    Ok(postings)
}

// Asserts that the blocks of these postings have these words, and that they unpack to the postings.
fn packed_as(
    rt: &impl Abort,
    alloc: Global,
    postings: &[Posting],
    words: &[u64],
) -> Result<(), Fail> {
    let (packed, back) = blocks_of(alloc, postings)?;
    assert!(rt; packed.as_slice() == words, "{packed:?}, not {words:?}");
    assert!(rt; back.as_slice() == postings, "{back:?}, not {postings:?}");
    Ok(())
}

// Postings, and the words of their block.
const BLOCKS: [(&[Posting], &[u64]); 6] = [
    (&[5], &[327681]),
    (&[300, 299], &[19661058, 1]),
    (&[4294967295, 0], &[281474976653314, 4294967295]),
    (&[1099511627775, 0], &[72057594037872642, 1099511627775]),
    (&[65536, 1023], &[4294971394, 64513]),
    (
        &[8388612, 8388611, 8388609, 0],
        &[549756082180, 281475010265089, 128],
    ),
];

// First postings, from which they go down to 0 one by one, and the words of their blocks.
const FALLING: [(Posting, &[u64]); 2] = [
    (127, &[8323456, 18446744073709551615, 9223372036854775807]),
    (
        128,
        &[8388992, 18446744073709551615, 9223372036854775807, 1],
    ),
];

#[test]
fn blocks_have_their_words(rt: HostRuntime) -> Result<(), Fail> {
    for (postings, words) in BLOCKS {
        packed_as(&rt, rt.alloc(), postings, words)?;
    }
    for (first, words) in FALLING {
        let postings = down_to_0(rt.alloc(), first)?;
        packed_as(&rt, rt.alloc(), postings.as_slice(), words)?;
    }
    Ok(())
}

// Postings whose greatest difference, in the middle, has this many bits; `power` is 2 to this.
fn made(alloc: Global, count: usize, power: u64) -> Result<Vec<Posting>, Fail> {
    let mut postings = Vec::new(alloc);
    let mut posting = GREATEST;
    for i in 0..count {
        postings.push(posting)?;
        let small = (i as u64).saturating_mul(40503) % power.saturating_sub(1).clamp(1, 1 << 20)
            + 1;
        let difference = if i == (count - 1) / 2 {
            power / 2 + power / 8
        } else {
            small
        };
        posting = posting.saturating_sub(difference);
    }
    Ok(postings)
}

// The words of a block by its definition, bit by bit.
fn defined(alloc: Global, postings: &[Posting], width: u64) -> Result<Vec<u64>, Fail> {
    let mut words = Vec::new(alloc);
    let first = postings.first().copied().unwrap_or(0);
    let count = postings.len() as u64;
    words.push(
        first
            .saturating_mul(65536)
            .saturating_add(width.saturating_mul(256))
            .saturating_add(count),
    )?;
    let mut word = 0u64;
    let mut bit = 1u64;
    let mut bits = 0u64;
    for pair in postings.windows(2) {
        let mut left = pair[0].saturating_sub(pair[1]);
        for _ in 0..width {
            if left % 2 == 1 {
                word = word.saturating_add(bit);
            }
            left /= 2;
            bit = bit.saturating_mul(2);
            bits = bits.saturating_add(1);
            if bits == 64 {
                words.push(word)?;
                word = 0;
                bit = 1;
                bits = 0;
            }
        }
    }
    if bits > 0 {
        words.push(word)?;
    }
    Ok(words)
}

// Tries blocks of one posting and up whose greatest difference has this many bits; `power` is 2 to
// this.
fn of_width(rt: &impl Abort, alloc: Global, width: u32, power: u64) -> Result<(), Fail> {
    for count in 1..=BLOCK_POSTINGS {
        let postings = made(alloc, count, power)?;
        let bits = if count == 1 { 0 } else { u64::from(width) };
        let words = defined(alloc, postings.as_slice(), bits)?;
        packed_as(rt, alloc, postings.as_slice(), words.as_slice())?;
    }
    Ok(())
}

#[test]
fn made_blocks_are_as_defined(rt: HostRuntime) -> Result<(), Fail> {
    assert_eq!(rt; (BLOCK_POSTINGS, POSTING_BITS), (128, 40));
    let mut power = 1u64;
    for width in 1..=POSTING_BITS {
        power = power.saturating_mul(2);
        of_width(&rt, rt.alloc(), width, power)?;
    }
    Ok(())
}
