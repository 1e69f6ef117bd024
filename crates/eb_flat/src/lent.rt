ghost use Rattle.std.specs.Prelude.{◌≡◌};
ghost use Rattle.eb_flat.specs.Flat.{StandsFor};

use eb_base::{Config, Document};
use eb_place::{Pen, Port, Steps};
use std::sync::ledger::Ledger;

/// The words of an index of a setting, lent to be read. It stands for each moment of this setting
/// whose image the words are. Its loads change no moment, so its fixed part is all of it.
#[derive(Drop)]
pub struct LentWords<'a> {
    /// The setting of the index.
    pub config: Config,
    /// All words of the index, in order.
    pub words: &'a [u64],
}

impl Port for LentWords<'_> {
    ghost use Rattle.std.specs.Prelude.{◌≡◌};
    ghost use Rattle.std.proofs.Common.{refl, ◌∙◌};
    ghost use Rattle.eb_flat.specs.Flat.{StandsFor};

    ghost stands = { λ s m. StandsFor (record { setting = s.config; words = s.words.now }) m };

    ghost keeps = { λ s m t n. (t ≡ s) × (n ≡ m) };

    ghost same = { λ s t. t ≡ s };

    fn config(&self) -> Config {
        self.config
    }

    fn load<L: Ledger>(&mut self, place: u64, steps: &mut Steps<L>) -> u64 {
        steps.tick();
        self.words[place as usize]
    }

    ghost lawful = { λ s m h. h.moment };

    ghost keeps_itself = { λ s m h. (refl, refl) };

    ghost keeps_on = { λ s t u l m n h k. (k.0 ∙ h.0, k.1 ∙ h.1) };

    ghost keeps_same = { λ s t m n h. h.0 };

    ghost same_on = { λ s t u h k. k ∙ h };
}

/// The words of an index of a setting, lent to its one writer. It stands for each moment of this
/// setting whose image the words are, as [`LentWords`] does; documents are placed in it.
#[derive(Drop)]
pub struct LentWordsMut<'a> {
    /// The setting of the index.
    pub config: Config,
    /// All words of the index, in order.
    pub words: &'a mut [u64],
}

impl Port for LentWordsMut<'_> {
    ghost use Rattle.std.specs.Prelude.{◌≡◌};
    ghost use Rattle.std.proofs.Common.{refl, ◌∙◌};
    ghost use Rattle.eb_flat.specs.Flat.{StandsFor};

    ghost stands = { λ s m. StandsFor (record { setting = s.config; words = s.words.now }) m };

    ghost keeps = { λ s m t n. (t ≡ s) × (n ≡ m) };

    ghost same = { λ s t. (t.config ≡ s.config) × (t.words.ghost_name ≡ s.words.ghost_name) };

    fn config(&self) -> Config {
        self.config
    }

    fn load<L: Ledger>(&mut self, place: u64, steps: &mut Steps<L>) -> u64 {
        steps.tick();
        self.words[place as usize]
    }

    ghost lawful = { λ s m h. h.moment };

    ghost keeps_itself = { λ s m h. (refl, refl) };

    ghost keeps_on = { λ s t u l m n h k. (k.0 ∙ h.0, k.1 ∙ h.1) };

    ghost keeps_same = { λ s t m n h. (λ i. (h.0 i).config, λ i. (h.0 i).words.ghost_name) };

    ghost same_on = { λ s t u h k. (k.0 ∙ h.0, k.1 ∙ h.1) };
}

impl Pen for LentWordsMut<'_> {
    fn store(&mut self, document: &Document, place: u64, value: u64) {
        let _ = document;
        self.words[place as usize] = value;
    }

    ghost pen_keeps = { λ s t m n h. λ i. (h.1 i).documents };
}
