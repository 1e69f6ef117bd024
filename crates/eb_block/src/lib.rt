//! Packed blocks: the postings of one term of a closed segment, newest first, in blocks of 128. No
//! call takes memory.
#![tactic(auto)]

mod bits;
mod blocks;
mod packed_list;

pub use blocks::{pack_block, unpack_block};
use eb_place::POSTING_BITS;
pub use packed_list::PackedList;

/// The most postings of a block.
pub const BLOCK_POSTINGS: usize = 128;

/// The most words of a block: its header, and 127 differences of the bits of a posting.
pub const BLOCK_WORDS: usize = 1 + ((BLOCK_POSTINGS - 1) * POSTING_BITS as usize + 63) / 64;
