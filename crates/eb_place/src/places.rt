#![tactic(auto, unfolding(crate::specs::Layout::place, crate::specs::Layout::start, crate::specs::Layout::size, crate::specs::Layout::pool_slot))]

ghost use Rattle.std.specs.Prelude.{◌≡◌, ◌+◌, ◌*◌, ◌%◌, ◌^◌, ◌<◌};
ghost use Rattle.eb_base.specs.Setting.{words_of};
ghost use Rattle.eb_place.specs.Layout.{place, pool_slot, pool_region, start, segment_words, IsInPool};
ghost use Rattle.eb_place.specs.Layout.Slot.{slot};
ghost use Rattle.eb_place.specs.Layout.Region.{first_region, converted_region, cell_region, text_place_region};
ghost use Rattle.eb_place.specs.Layout.Region.{tail_region, text_region, id_region, directory_region, packed_region};

use crate::slice_addresses::pool_of;
use eb_base::Config;
use std::marker::Model;

/// Where each word of an index is, by the index's setting: its place, counted from 0. Place 0 has
/// the count of accepted documents (this project's profile, docs/FORMATS.md).
#[derive(Clone, Copy, Debug, PartialEq, Eq)]
pub struct Places {
    config: Config,
}

impl Model for Places {
    ghost use Rattle.eb_base.specs.Setting.{Setting, IsSetting};

    ghost Value = { Setting };

    ghost view = { λ p. p.config };

    ghost invariant = { λ p. IsSetting p.config };

    ghost inverse = { λ s. record { config = s } };
}

impl Places {
    /// The places of an index of this setting. Takes no memory.
    pub fn new(config: Config) -> Places
        ensures { result ≡ config }
    {
        let _words = config.words();
        Places { config }
    }

    /// The place of a segment's first-document word.
    pub fn first(&self, segment: u32) -> u64
        requires { segment < self.now.segments }
        ensures place { result ≡ place self.now (slot segment first_region 0) }
        ensures inside { result < words_of self.now }
    {
        self.word_at(segment, 0)
    }

    /// The place of a segment's converted word.
    pub fn converted(&self, segment: u32) -> u64
        requires { segment < self.now.segments }
        ensures place { result ≡ place self.now (slot segment converted_region 0) }
        ensures inside { result < words_of self.now }
    {
        self.word_at(segment, 1)
    }

    /// The place of a cell of a segment's dictionary, which has two cells a term.
    pub fn cell(&self, segment: u32, cell: u32) -> u64
        requires segment { segment < self.now.segments }
        requires cell { cell < 2 * self.now.terms }
        ensures place { result ≡ place self.now (slot segment cell_region cell) }
        ensures inside { result < words_of self.now }
    {
        self.word_at(segment, 2 + u64::from(cell))
    }

    /// The place of the text place of a term, by the term's number in the segment.
    pub fn text_place(&self, segment: u32, term: u32) -> u64
        requires segment { segment < self.now.segments }
        requires term { term < self.now.terms }
        ensures place { result ≡ place self.now (slot segment text_place_region term) }
        ensures inside { result < words_of self.now }
    {
        self.word_at(segment, 2 + 2 * self.terms() + u64::from(term))
    }

    /// The place of the tail of a term, by the term's number in the segment.
    pub fn tail(&self, segment: u32, term: u32) -> u64
        requires segment { segment < self.now.segments }
        requires term { term < self.now.terms }
        ensures place { result ≡ place self.now (slot segment tail_region term) }
        ensures inside { result < words_of self.now }
    {
        self.word_at(segment, 2 + 3 * self.terms() + u64::from(term))
    }

    /// The place of a text word, of which a segment has four a term.
    pub fn text(&self, segment: u32, at: u32) -> u64
        requires segment { segment < self.now.segments }
        requires at { at < 4 * self.now.terms }
        ensures place { result ≡ place self.now (slot segment text_region at) }
        ensures inside { result < words_of self.now }
    {
        self.word_at(segment, 2 + 4 * self.terms() + u64::from(at))
    }

    /// The place of the id word of a document, by the document's number in the segment.
    pub fn id(&self, segment: u32, document: u32) -> u64
        requires segment { segment < self.now.segments }
        requires document { document < self.now.docs }
        ensures place { result ≡ place self.now (slot segment id_region document) }
        ensures inside { result < words_of self.now }
    {
        self.word_at(segment, 2 + 8 * self.terms() + u64::from(document))
    }

    /// The place of the word of a pool that an address of the segment names.
    pub fn posting_at(&self, segment: u32, address: u32) -> u64
        requires segment { segment < self.now.segments }
        requires address { IsInPool self.now address }
        ensures place { result ≡ place self.now (pool_slot segment address) }
        ensures inside { result < words_of self.now }
    {
        let at = u64::from(address % (1 << 30));
        self.word_at(segment, self.pool_start(pool_of(address)) + at)
    }

    /// The place of the directory word of a term, by the term's number in the segment.
    pub fn directory(&self, segment: u32, term: u32) -> u64
        requires segment { segment < self.now.segments }
        requires term { term < self.now.terms }
        ensures place { result ≡ place self.now (slot segment directory_region term) }
        ensures inside { result < words_of self.now }
    {
        self.word_at(
            segment,
            2 + 42 * self.terms() + self.docs() + u64::from(term),
        )
    }

    /// The place of a packed word, of which a segment has 34 a term.
    pub fn packed(&self, segment: u32, at: u32) -> u64
        requires segment { segment < self.now.segments }
        requires at { at < 34 * self.now.terms }
        ensures place { result ≡ place self.now (slot segment packed_region at) }
        ensures inside { result < words_of self.now }
    {
        self.word_at(segment, 2 + 43 * self.terms() + self.docs() + u64::from(at))
    }

    // The place of the word at this offset in a segment.
    fn word_at(&self, segment: u32, offset: u64) -> u64
        requires segment { segment < self.now.segments }
        requires offset { offset < segment_words self.now }
        ensures place { result ≡ 1 + segment * segment_words self.now + offset }
        ensures inside { result < words_of self.now }
    {
        1 + u64::from(segment) * (2 + self.docs() + 77 * self.terms()) + offset
    }

    // Where a pool begins in its segment.
    fn pool_start(&self, pool: u32) -> u64
        requires { pool < 4 }
        ensures start { result ≡ start self.now (pool_region pool) }
        ensures small { result < 2 ^ 40 }
    {
        2 + words_before(pool) * self.terms() + self.docs()
    }

    fn terms(&self) -> u64
        ensures terms { result ≡ self.now.terms }
        ensures small { result < 2 ^ 21 }
    {
        u64::from(self.config.terms())
    }

    fn docs(&self) -> u64
        ensures docs { result ≡ self.now.docs }
        ensures small { result < 2 ^ 25 }
    {
        u64::from(self.config.docs())
    }
}

// How many words for each term are before a pool in its segment: bytes of one number, so that
// nothing branches by the pool. A match of four became a table of jumps, and the pool changes from
// one posting to the next: in an And of two words the processor guessed some fifty of these jumps
// wrong (by callgrind's model).
#[inline(always)]
fn words_before(pool: u32) -> u64
    requires { pool < 4 }
    ensures first { pool ≡ 0 → result ≡ 8 }
    ensures second { pool ≡ 1 → result ≡ 10 }
    ensures third { pool ≡ 2 → result ≡ 18 }
    ensures last { pool ≡ 3 → result ≡ 26 }
{
    u64::from((u32::from_le_bytes([8, 10, 18, 26]) >> (8 * pool)) % 256)
}
