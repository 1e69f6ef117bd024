ghost use Rattle.std.specs.Prelude.{◌≡◌, ◌+◌, ◌-◌, ◌≤◌, ◌++◌, min, length, take, drop, IfOk, replicate};
ghost use Rattle.eb_base.specs.Setting.{Setting, words_of};
ghost use Rattle.eb_place.specs.Moments.{empty_moment};
ghost use Rattle.eb_flat.specs.Flat.{StandsFor, IsEmptied};

use eb_base::{Config, Document, NoMemory};
use eb_place::{PackPen, Pen, Port, Steps};
use std::alloc::Global;
use std::marker::Model;
use std::sync::ledger::Ledger;

/// The words of an index in one vector, with the setting of the index. It stands for each moment of
/// this setting whose image the words are. It is a port, and both pens. Its loads change no moment,
/// so its fixed part is all of it.
#[derive(Debug, Drop)]
pub struct FlatWords {
    config: Config,
    words: Vec<u64>,
}

impl Model for FlatWords {
    ghost use Rattle.eb_flat.specs.Flat.{Flat};

    ghost Value = { Flat };

    ghost view = { λ f. record { setting = f.config; words = f.words.items } };
}

impl FlatWords {
    /// The words of an index without a document: all 0. Takes all its memory at once.
    pub fn new(alloc: Global, config: Config) -> Result<FlatWords, NoMemory>
        ensures words { IfOk result (λ flat. flat ≡ record { setting = config; words = replicate (words_of config) 0 }) }
        ensures moment { IfOk result (λ flat. StandsFor flat (empty_moment config)) }
    {
        let words = vec![in alloc; 0u64; config.words() as usize]?;
        Ok(FlatWords { config, words })
    }

    /// Empties more of the index: after the first `done` words, which are 0, it sets up to `most`
    /// further words to 0, and returns how many are 0 then. Where all are, the index has no
    /// document. Takes no memory.
    pub fn empty_on(&mut self, done: u64, most: u64) -> u64
        requires { (σ : Setting) × IsEmptied self.old σ done }
        ensures emptied { (σ : Setting) → IsEmptied self.old σ done → IsEmptied self.new σ result }
        ensures number { (σ : Setting) → IsEmptied self.old σ done → result ≡ done + min (words_of σ - done) most }
        ensures all { (σ : Setting) → IsEmptied self.old σ done → result ≡ words_of σ → StandsFor self.new (empty_moment σ) }
    {
        let words = self.words.as_mut_slice();
        let number = (words.len() as u64 - done).min(most);
        set_to_zero(words, done as usize, number as usize);
        done + number
    }
}

impl Port for FlatWords {
    ghost use Rattle.std.proofs.Common.{refl, ◌∙◌};
    ghost use Rattle.eb_flat.specs.Flat.{StandsFor};

    ghost stands = { StandsFor };

    ghost keeps = { λ s m t n. (t ≡ s) × (n ≡ m) };

    ghost same = { λ s t. t.setting ≡ s.setting };

    fn config(&self) -> Config {
        self.config
    }

    fn load<L: Ledger>(&mut self, place: u64, steps: &mut Steps<L>) -> u64 {
        steps.tick();
        self.words[place as usize]
    }

    ghost lawful = { λ s m h. h.moment };

    ghost keeps_itself = { λ s m h. (refl, refl) };

    ghost keeps_on = { λ s t u l m n h k. (k.0 ∙ h.0, k.1 ∙ h.1) };

    ghost keeps_same = { λ s t m n h. λ i. (h.0 i).setting };

    ghost same_on = { λ s t u h k. k ∙ h };
}

impl Pen for FlatWords {
    fn store(&mut self, document: &Document, place: u64, value: u64) {
        let _ = document;
        self.words[place as usize] = value;
    }

    ghost pen_keeps = { λ s t m n h. λ i. (h.1 i).documents };
}

impl PackPen for FlatWords {
    fn put(&mut self, place: u64, value: u64) {
        self.words[place as usize] = value;
    }

    ghost pack_keeps = { λ s t m n h. λ i. (h.1 i).conversions };
}

// Sets `number` words from a place on to 0.
fn set_to_zero(words: &mut [u64], from: usize, number: usize)
    requires { from + number ≤ length words.old }
    ensures { words.new ≡ take from words.old ++ (replicate number 0 ++ drop (from + number) words.old) }
{
    words[from..from + number].fill(0);
}
