//! The plan of a document: all that adding it will store, found before the first store.
//!
//! A document without room must leave nothing behind, since readers may see each store. So an add
//! first looks up each token's term number and tail word, and counts what the tokens need on a copy
//! of what is used of the segment (`Used`). Where a count passes its limit the answer is `Full`,
//! and nothing was stored. Else the document is stored as the plan says, and nothing can fail any
//! more.
//!
//! A term that occurs several times in a document is entered once. So the earlier tokens of the
//! document are kept in 512 buckets by hash, linked by numbers of 16 bits (`Recall`). One hash of a
//! term gives both its bucket and its home cell. The arrays are kept from document to document: to
//! make them anew set 73 KB to 0 and moved 50 KB for each document of 15 words.
//!
//! Tried and rejected: to load all words' home cells first, then their text places and tails, then
//! their texts, so that no load waits for another word's. A Zipf document took 5.1 microseconds in
//! place of 4.8, since two waits in three are for the texts of other words: the hash puts words
//! like `z1234` and `z1235` into neighbouring cells, so 1.4 to 2.8 texts are compared for a word. A
//! part of the hash beside the number in each cell would help, but is another layout of the words,
//! and another image.
ghost use Rattle.std.specs.Prelude.{◌≡◌, length};
ghost use Rattle.eb_base.specs.Document.{most_tokens};

use eb_base::MAX_TOKENS;
use eb_place::Used;

// What is found of a token before the document is placed.
#[derive(Clone, Copy)]
pub(crate) struct Found {
    // The number that its term has in the segment, or gets.
    pub number: u32,
    // The term's tail word before the document.
    pub tail: u64,
    // How often the term occurs earlier in the document.
    pub earlier: u32,
}

/// How many buckets the tokens of a document are kept in.
pub(crate) const BUCKETS: usize = 512;

// The tokens of a document so far, in buckets by their hashes, to find where a term occurred last.
// Each entry is 0, or one more than the place of a token.
#[derive(Clone, Copy)]
pub(crate) struct Recall {
    // The last token of each bucket.
    pub latest: [u16; BUCKETS],
    // For each token the one before it in its bucket. What comes after the tokens so far is left
    // from earlier documents.
    pub before: [u16; MAX_TOKENS],
    ghost places: { length before ≡ most_tokens },
}

// No tokens.
fn recall_nothing() -> Recall {
    Recall {
        latest: [0; BUCKETS],
        before: [0; MAX_TOKENS],
    }
}

// What the placing of a document in a segment will do.
#[derive(Drop)]
pub(crate) struct Plan {
    // Its tokens, in order. What comes after them is left from earlier plans, so a plan costs no
    // more than its tokens.
    pub found: [Found; MAX_TOKENS],
    // What is used of the segment with them.
    pub used: Used,
    // Where the tokens counted so far are.
    pub recall: Recall,
    ghost places: { length found ≡ most_tokens },
}

// A plan of no token.
pub(crate) fn plan_nothing(used: Used) -> Plan {
    Plan {
        found: [Found {
            number: 0,
            tail: 0,
            earlier: 0,
        }; MAX_TOKENS],
        used,
        recall: recall_nothing(),
    }
}
