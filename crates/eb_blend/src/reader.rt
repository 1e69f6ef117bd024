//! A reader of a blend.
//!
//! A blend is a list of indexes, each with its own tokens. Its frame copies the query for each
//! part, so that a search takes no memory. The parts are asked one after the other, since a thread
//! costs more than most searches.
ghost use Rattle.std.specs.Prelude.{◌≡◌, ◌<◌, ℕ, List, map, length, All};
ghost use Rattle.eb_base.specs.Query.{Tree, word, conjunction};
ghost use Rattle.eb_base.specs.Setting.{Setting};
ghost use Rattle.eb_base.specs.Term.{Term};
ghost use Rattle.eb_cursor.specs.AndCosts.{word_parts};
ghost use Rattle.eb_base.specs.Match.{answer};
ghost use Rattle.eb_count.specs.Tallies.{HasCounted};
ghost use Rattle.eb_cursor.specs.Frames.{ids_of, query_of, SeenAs};
ghost use Rattle.eb_blend.specs.Blended.{blended};
ghost use Rattle.eb_blend.specs.Bounded.{AreBounded, AreAndBounded};
ghost use Rattle.eb_blend.specs.Counted.{all_of};
ghost use Rattle.eb_blend.specs.Parts.{indexes_of, histories_of, lengths_of, counted, AreFronts};
ghost use Rattle.eb_blend.specs.Frames.{AllAsk, Asks, found_of, searched_of};

use crate::blend::Blend;
use crate::frame::BlendFrame;
use eb_base::Gate;
use eb_count::Tally;
use eb_cursor::Frame;
use eb_engine::{Index, Reader};
use eb_place::Steps;
use std::marker::Model;
use std::sync::ledger::Ledger;

/// A reader of a blend. There may be any number, each on a thread of its own. Contracts see the
/// documents that it knows of each part, which are the first ones of the part's history: those that
/// readers it met knew, and those that its searches found.
#[derive(Drop)]
pub struct BlendReader {
    readers: Vec<Reader>,
}

impl Model for BlendReader {
    ghost use Rattle.eb_blend.specs.Parts.{ReaderTokens, indexes_of, histories_of};

    ghost Value = { ReaderTokens };

    ghost view = { λ r. record { indexes = indexes_of r.readers.items; histories = histories_of r.readers.items } };
}

impl BlendReader {
    pub(crate) fn new(readers: Vec<Reader>) -> BlendReader
        ensures { result ≡ record { indexes = indexes_of readers.items; histories = histories_of readers.items } }
    {
        BlendReader { readers }
    }

    // The readers of the parts.
    pub(crate) fn into_readers(self) -> Vec<Reader>
        ensures indexes { indexes_of result.items ≡ self.indexes }
        ensures histories { histories_of result.items ≡ self.histories }
    {
        self.readers
    }

    /// Searches the parts one after the other. Of each part it searches the documents that are
    /// accepted when it loads the part's count. All documents of the part that this reader knew
    /// before are a prefix of them, and it knows them from then on. Afterwards the frame holds the
    /// ids of the newest `k` of them all that its query matches, from the greatest to the least,
    /// and how many documents it searched of each part; the result is the sum of these numbers. No
    /// clause says that these documents are together the first ones that the blend accepted, since
    /// the writer may add between two loads. Each count is reported to the gate directly after its
    /// load, and the steps count each load of a word. A search of a word, or of an And of words, makes
    /// no more loads than one of each part by itself (`AreBounded`, `AreAndBounded`). The reader must
    /// have been made with this blend, and the frame for as many parts. Takes no memory.
    pub fn search<G: Gate, L: Ledger>(
        &mut self,
        blend: &Blend,
        frame: &mut BlendFrame,
        gate: &G,
        steps: &mut Steps<L>,
    ) -> u64
        requires made { self.old.indexes ≡ blend.now.indexes }
        requires frame { (q : Tree) × (k : ℕ) × Asks frame.old q k (length blend.now.indexes) }
        ensures indexes { self.new.indexes ≡ self.old.indexes }
        ensures known { AreFronts self.old.histories self.new.histories }
        ensures lengths { searched_of frame.new ≡ lengths_of self.new.histories }
        ensures count { result ≡ counted (searched_of frame.new) }
        ensures asks { (q : Tree) (k parts : ℕ) → Asks frame.old q k parts → Asks frame.new q k parts }
        ensures ids { (q : Tree) (k : ℕ) → Asks frame.old q k (length blend.now.indexes)
            → found_of frame.new ≡ blended q k self.new.histories (searched_of frame.new) }
        ensures loads { (t : Term) (k : ℕ) → Asks frame.old (word t) k (length blend.now.indexes)
            → AreBounded blend.now.setting self.old.histories self.new.histories t k steps.old steps.new }
        ensures rounds { (ts : List Term) (k : ℕ) → Asks frame.old (conjunction (word_parts ts)) k (length blend.now.indexes)
            → AreAndBounded blend.now.setting self.new.histories ts k steps.old steps.new }
    {
        search_each(
            self.readers.as_mut_slice(),
            blend.parts.as_slice(),
            frame.frames.as_mut_slice(),
            gate,
            steps,
        );
        let count = count_each(self.readers.as_slice(), frame.lengths.as_mut_slice());
        frame.blend();
        count
    }

    /// Counts, in one tally, all matches among the documents of all parts, part after part, added
    /// to what the tally held: of each part those that are accepted when it loads the part's count.
    /// All documents of the part that this reader knew before are a prefix of them, and it knows
    /// them from then on. The frame is a plain one, and stays as it is. The reader must have been
    /// made with this blend. Takes no memory.
    pub fn count<G: Gate, L: Ledger>(
        &mut self,
        blend: &Blend,
        frame: &mut Frame,
        tally: &mut Tally,
        gate: &G,
        steps: &mut Steps<L>,
    )
        requires { self.old.indexes ≡ blend.now.indexes }
        ensures indexes { self.new.indexes ≡ self.old.indexes }
        ensures known { AreFronts self.old.histories self.new.histories }
        ensures seen { SeenAs frame.old frame.new }
        ensures counts { HasCounted (query_of frame.old) (all_of self.new.histories) tally.old tally.new }
    {
        tally_each(
            self.readers.as_mut_slice(),
            blend.parts.as_slice(),
            frame,
            tally,
            gate,
            steps,
        );
    }
}

// Counts in each part.
fn tally_each<G: Gate, L: Ledger>(
    readers: &mut [Reader],
    indexes: &[Index],
    frame: &mut Frame,
    tally: &mut Tally,
    gate: &G,
    steps: &mut Steps<L>,
)
    requires made { indexes_of readers.old ≡ indexes.now }
    ensures indexes { indexes_of readers.new ≡ indexes_of readers.old }
    ensures fronts { AreFronts (histories_of readers.old) (histories_of readers.new) }
    ensures seen { SeenAs frame.old frame.new }
    ensures counts { HasCounted (query_of frame.old) (all_of (histories_of readers.new)) tally.old tally.new }
{
    for at in 0..readers.len() {
        readers[at].count(&indexes[at], frame, tally, gate, steps);
    }
}

// Searches each part with its frame.
fn search_each<G: Gate, L: Ledger>(
    readers: &mut [Reader],
    indexes: &[Index],
    frames: &mut [Frame],
    gate: &G,
    steps: &mut Steps<L>,
)
    requires made { indexes_of readers.old ≡ indexes.now }
    requires frames { length frames.old ≡ length readers.old }
    requires ask { (q : Tree) × (k : ℕ) × AllAsk q k frames.old }
    ensures indexes { indexes_of readers.new ≡ indexes_of readers.old }
    ensures fronts { AreFronts (histories_of readers.old) (histories_of readers.new) }
    ensures ask { (q : Tree) (k : ℕ) → AllAsk q k frames.old → AllAsk q k frames.new }
    ensures found { (q : Tree) (k : ℕ) → AllAsk q k frames.old → map ids_of frames.new ≡ map (answer q k) (histories_of readers.new) }
    ensures loads { (σ : Setting) (t : Term) (k : ℕ) → All (λ w. w.setting ≡ σ) indexes.now → AllAsk (word t) k frames.old
        → AreBounded σ (histories_of readers.old) (histories_of readers.new) t k steps.old steps.new }
    ensures rounds { (σ : Setting) (ts : List Term) (k : ℕ) → All (λ w. w.setting ≡ σ) indexes.now → AllAsk (conjunction (word_parts ts)) k frames.old
        → AreAndBounded σ (histories_of readers.new) ts k steps.old steps.new }
{
    for at in 0..readers.len() {
        readers[at].search(&indexes[at], &mut frames[at], gate, steps);
    }
}

// Puts how many documents each reader knows, and returns their sum.
fn count_each(readers: &[Reader], lengths: &mut [u64]) -> u64
    requires { length lengths.old ≡ length readers.now }
    ensures lengths { lengths.new ≡ lengths_of (histories_of readers.now) }
    ensures sum { result ≡ counted lengths.new }
{
    let mut count = 0u64;
    for at in 0..readers.len() {
        let seen = readers[at].seen();
        lengths[at] = seen;
        count = count.saturating_add(seen);
    }
    count
}
