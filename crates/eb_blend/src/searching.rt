//! The writer of a blend searches, and so reads its own writes.
ghost use Rattle.std.specs.Prelude.{◌≡◌, ℕ, List, map, length, All};
ghost use Rattle.eb_base.specs.Query.{Tree, word, conjunction};
ghost use Rattle.eb_base.specs.Setting.{Setting};
ghost use Rattle.eb_base.specs.Term.{Term};
ghost use Rattle.eb_cursor.specs.AndCosts.{word_parts};
ghost use Rattle.eb_base.specs.Match.{answer};
ghost use Rattle.eb_cursor.specs.Frames.{ids_of};
ghost use Rattle.eb_blend.specs.Blended.{blended};
ghost use Rattle.eb_blend.specs.Bounded.{AreBoundedAlone, AreAndBoundedAlone};
ghost use Rattle.eb_blend.specs.Frames.{AllAsk, Asks, found_of, searched_of};
ghost use Rattle.eb_blend.specs.Parts.{indexes_of, histories_of, lengths_of, counted};

use crate::blend::Blend;
use crate::frame::BlendFrame;
use crate::writer::BlendWriter;
use eb_base::Gate;
use eb_cursor::Frame;
use eb_engine::{Index, Writer};
use eb_place::Steps;
use std::sync::ledger::Ledger;

impl BlendWriter {
    /// Searches the whole histories, part after part; otherwise as `BlendReader::search`. So the
    /// answer is over exactly the documents that were added, and the bounds on loads are those of
    /// these documents (`AreBoundedAlone`, `AreAndBoundedAlone`). The writer must have been made with
    /// this blend, and the frame for as many parts. Takes no memory.
    pub fn search<G: Gate, L: Ledger>(
        &mut self,
        blend: &Blend,
        frame: &mut BlendFrame,
        gate: &G,
        steps: &mut Steps<L>,
    ) -> u64
        requires made { self.old.indexes ≡ blend.now.indexes }
        requires frame { (q : Tree) × (k : ℕ) × Asks frame.old q k (length blend.now.indexes) }
        ensures this { self.new ≡ self.old }
        ensures lengths { searched_of frame.new ≡ lengths_of self.old.histories }
        ensures count { result ≡ counted (lengths_of self.old.histories) }
        ensures asks { (q : Tree) (k parts : ℕ) → Asks frame.old q k parts → Asks frame.new q k parts }
        ensures ids { (q : Tree) (k : ℕ) → Asks frame.old q k (length blend.now.indexes)
            → found_of frame.new ≡ blended q k self.old.histories (lengths_of self.old.histories) }
        ensures loads { (t : Term) (k : ℕ) → Asks frame.old (word t) k (length blend.now.indexes)
            → AreBoundedAlone blend.now.setting self.old.histories t k steps.old steps.new }
        ensures rounds { (ts : List Term) (k : ℕ) → Asks frame.old (conjunction (word_parts ts)) k (length blend.now.indexes)
            → AreAndBoundedAlone blend.now.setting self.old.histories ts k steps.old steps.new }
    {
        search_own(
            self.writers.as_mut_slice(),
            blend.parts.as_slice(),
            frame.frames.as_mut_slice(),
            gate,
            steps,
        );
        let count = count_own(self.writers.as_slice(), frame.lengths.as_mut_slice());
        frame.blend();
        count
    }
}

// Each writer searches its part with its frame.
fn search_own<G: Gate, L: Ledger>(
    writers: &mut [Writer],
    indexes: &[Index],
    frames: &mut [Frame],
    gate: &G,
    steps: &mut Steps<L>,
)
    requires made { indexes_of writers.old ≡ indexes.now }
    requires frames { length frames.old ≡ length writers.old }
    requires ask { (q : Tree) × (k : ℕ) × AllAsk q k frames.old }
    ensures writers { writers.new ≡ writers.old }
    ensures ask { (q : Tree) (k : ℕ) → AllAsk q k frames.old → AllAsk q k frames.new }
    ensures found { (q : Tree) (k : ℕ) → AllAsk q k frames.old → map ids_of frames.new ≡ map (answer q k) (histories_of writers.old) }
    ensures loads { (σ : Setting) (t : Term) (k : ℕ) → All (λ w. w.setting ≡ σ) indexes.now → AllAsk (word t) k frames.old
        → AreBoundedAlone σ (histories_of writers.old) t k steps.old steps.new }
    ensures rounds { (σ : Setting) (ts : List Term) (k : ℕ) → All (λ w. w.setting ≡ σ) indexes.now → AllAsk (conjunction (word_parts ts)) k frames.old
        → AreAndBoundedAlone σ (histories_of writers.old) ts k steps.old steps.new }
{
    for at in 0..writers.len() {
        writers[at].search(&indexes[at], &mut frames[at], gate, steps);
    }
}

// Puts how many documents each writer added, and returns their sum.
fn count_own(writers: &[Writer], lengths: &mut [u64]) -> u64
    requires { length lengths.old ≡ length writers.now }
    ensures lengths { lengths.new ≡ lengths_of (histories_of writers.now) }
    ensures sum { result ≡ counted lengths.new }
{
    let mut count = 0u64;
    for at in 0..writers.len() {
        let added = writers[at].accepted();
        lengths[at] = added;
        count = count.saturating_add(added);
    }
    count
}
