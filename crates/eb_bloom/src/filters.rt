ghost use Rattle.std.specs.Prelude.{◌≡◌, ℕ, ◌+◌, ◌<◌, ◌≤◌, ◌||◌, ◌==◌, true, false, List, [], ◌∷◌, ◌++◌, length, replicate, get_or, IfOk};
ghost use Rattle.std.specs.List.{list_any};
ghost use Rattle.eb_base.specs.Document.{Doc};
ghost use Rattle.eb_base.specs.Match.{answer};
ghost use Rattle.eb_base.specs.Query.{tree};
ghost use Rattle.eb_base.specs.Setting.{Setting};
ghost use Rattle.eb_place.specs.Room.{cut};
ghost use Rattle.eb_bloom.specs.Bits.{filter_words, first_bit, second_bit, is_set, is_noted};
ghost use Rattle.eb_bloom.specs.Covers.{Covers};
ghost use Rattle.eb_bloom.specs.Likely.{may_match};

use crate::bits::{bits_from, set_bits};
use crate::hashing::{first_of, mixed_hash_of, second_of};
use crate::lanes::lanes_of;
use crate::marks::marks_of;
use eb_base::{Config, Document, NoMemory, Query, Term};
use eb_marks::Segments;
use std::alloc::Global;
use std::marker::Model;

/// A Bloom filter for each segment of a setting: four bits for each term that a segment has room
/// for, of which a term has two, chosen by a mixed hash of the term (Knuth's multiplicative
/// hashing). The same bit of all segments lies in one word, so two loads ask all filters.
#[derive(Debug, Drop)]
pub struct Filters {
    config: Config,
    words: Vec<u64>,
    // The bits of a row.
    lanes: u32,
}

impl Model for Filters {
    ghost use Rattle.std.specs.Prelude.{◌≡◌};
    ghost use Rattle.eb_bloom.specs.Bits.{Bits, AreFilters, row_bits};

    ghost Value = { Bits };

    ghost view = { λ f. record { setting = f.config; words = f.words.items } };

    ghost invariant = { λ f. AreFilters (record { setting = f.config; words = f.words.items }) × (f.lanes ≡ row_bits f.config) };
}

impl Filters {
    /// The filters of the segments of this setting, in which no term is noted. Takes all its
    /// memory.
    pub fn new(alloc: Global, config: Config) -> Result<Filters, NoMemory>
        ensures bits { IfOk result (λ filters. filters ≡ record { setting = config; words = replicate (filter_words config) 0 }) }
        ensures covers { IfOk result (λ filters. Covers filters config []) }
    {
        let _words = config.words();
        let lanes = lanes_of(config.segments());
        let number = lanes as usize * (config.terms() as usize / 16);
        let words = vec![in alloc; 0u64; number]?;
        Ok(Filters {
            config,
            words,
            lanes,
        })
    }

    /// Notes the terms of a document in the filter of this segment. Where the document is in the
    /// last segment, after the documents that the filters cover, they then cover it too. Takes no
    /// memory.
    pub fn note(&mut self, segment: u32, document: &Document)
        requires { segment < self.old.setting.segments }
        ensures setting { self.new.setting ≡ self.old.setting }
        ensures bits { (i : ℕ) → is_set self.new.words i
            ≡ (is_set self.old.words i
            || list_any (λ t. first_bit self.old.setting segment t == i || second_bit self.old.setting segment t == i) document.now.terms) }
        ensures covers { (σ : Setting) (docs : List Doc) → Covers self.old σ docs
            → segment + 1 ≡ length (cut σ (docs ++ document.now ∷ [])) → Covers self.new σ (docs ++ document.now ∷ []) }
    {
        let rows = 4 * self.config.terms();
        let lanes = self.lanes as usize;
        let lane = segment as usize;
        let words = self.words.as_mut_slice();
        for term in document.terms().as_slice() {
            let mixed = mixed_hash_of(term);
            let first = first_of(mixed, rows);
            let second = second_of(mixed, first);
            set_bits(words, first * lanes + lane, second * lanes + lane);
        }
    }

    /// Forgets all terms. Takes no memory.
    pub fn clear(&mut self)
        ensures bits { self.new ≡ record { setting = self.old.setting; words = replicate (length self.old.words) 0 } }
        ensures covers { Covers self.new self.old.setting [] }
    {
        self.words.as_mut_slice().fill(0);
    }

    /// In which of the first `begun` segments a query may match, by what is noted in their filters:
    /// a word, a phrase and a window in those where all their terms are noted, an And where each
    /// part may match, an Or where some part may, and a bound and a Not in all. The result is true
    /// of each further segment. Where the filters cover an index, no document of a segment of which
    /// it is false matches the query. Takes no memory.
    pub fn likely(&self, query: &Query, begun: u32) -> Segments
        requires { begun ≤ self.now.setting.segments }
        ensures noted { (s : ℕ) → s < begun → get_or result s true ≡ may_match self.now s (tree query.now) }
        ensures further { (s : ℕ) → begun ≤ s → get_or result s true ≡ true }
        ensures none { (σ : Setting) (docs : List Doc) → Covers self.now σ docs
            → (s k : ℕ) → get_or result s true ≡ false → answer (tree query.now) k (get_or (cut σ docs) s []) ≡ [] }
    {
        // (a setting has at most 64 segments)
        let _segments = self.config.segments();
        marks_of(self, query, begun)
    }

    // Those of the first `begun` segments in whose filter the term is noted, and all further ones.
    pub(crate) fn marks(&self, term: &Term, begun: u32) -> Segments
        requires begun { begun ≤ self.now.setting.segments }
        requires few { begun ≤ 64 }
        ensures noted { (s : ℕ) → s < begun → get_or result s true ≡ is_noted self.now s term.now }
        ensures further { (s : ℕ) → begun ≤ s → get_or result s true ≡ true }
    {
        let mixed = mixed_hash_of(term);
        let first = first_of(mixed, 4 * self.config.terms());
        let second = second_of(mixed, first);
        let lanes = self.lanes as usize;
        let words = self.words.as_slice();
        let both = bits_from(words, first * lanes) & bits_from(words, second * lanes);
        Segments::marked(both, begun)
    }
}
