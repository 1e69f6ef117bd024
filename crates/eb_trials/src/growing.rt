ghost use Rattle.std.specs.Prelude.{◌≡◌, take, drop};
ghost use Rattle.eb_place.specs.declared.moment.Moment.{Moment};
ghost use Rattle.eb_flat.specs.Flat.{StandsFor};
ghost use Rattle.eb_trials.specs.Grown.{AreLeft, Grows, HasGrown};

use eb_base::{Config, Document};
use eb_flat::FlatWords;
use eb_place::{Pen, Port, Steps};
use std::sync::ledger::Ledger;

/// Before which loads a growing port does stores of its document.
#[derive(Clone, Copy, Debug, PartialEq, Eq)]
pub enum Pace {
    /// All that are left, before the load of this number, counted from 0.
    AllBefore(u64),
    /// One before each load from that of this number on.
    OneFrom(u64),
}

/// Words in a vector that grow between two loads: before some of its loads the port does stores of
/// the placing of one document, in order, as a writer on another thread might.
#[derive(Drop)]
pub struct GrowingPort {
    words: FlatWords,
    document: Document,
    stores: Vec<(u64, u64)>,
    done: usize,
    pace: Pace,
    loads: u64,
}

impl GrowingPort {
    /// Words that will grow by the placing of a document. Its stores, as pairs of place and value,
    /// are those of the list from number `done` on. Takes no memory.
    pub fn new(
        words: FlatWords,
        document: Document,
        stores: Vec<(u64, u64)>,
        done: usize,
        pace: Pace,
    ) -> GrowingPort
        requires { (m : Moment) × StandsFor words m × AreLeft m document (drop done stores.items) }
        ensures { (m : Moment) → StandsFor words m → AreLeft m document (drop done stores.items) → Grows result m }
    {
        GrowingPort {
            words,
            document,
            stores,
            done,
            pace,
            loads: 0,
        }
    }

    /// The stores of the list that are done, also those before the document's: pairs of place and
    /// value.
    pub fn stores_done(&self) -> &[(u64, u64)]
        ensures { result.now ≡ take self.now.done self.now.stores.items }
    {
        match self.stores.as_slice().get(..self.done) {
            Some(done) => done,
            None => self.stores.as_slice(),
        }
    }

    /// How many loads it made.
    pub fn loads(&self) -> u64
        ensures { result ≡ self.now.loads }
    {
        self.loads
    }

    // How many stores are left.
    fn left(&self) -> usize {
        self.stores.len().saturating_sub(self.done)
    }

    /// Does the next store, if one is left.
    pub fn grow_once(&mut self)
        requires { (m : Moment) × Grows self.old m }
        ensures { (m : Moment) → Grows self.old m → HasGrown self.old self.new m }
    {
        if self.done >= self.stores.len() {
            return;
        }
        let (place, value) = self.stores[self.done];
        self.words.store(&self.document, place, value);
        self.done += 1;
    }

    // How many stores are done before the next load.
    fn due(&self) -> usize {
        match self.pace {
            Pace::AllBefore(load) => { if self.loads == load { self.left() } else { 0 } }
            Pace::OneFrom(load) => usize::from(self.loads >= load),
        }
    }

    // Does the stores that are done before the next load.
    fn grow(&mut self)
        requires { (m : Moment) × Grows self.old m }
        ensures { (m : Moment) → Grows self.old m → HasGrown self.old self.new m }
    {
        for _ in 0..self.due() {
            self.grow_once();
        }
        self.loads = self.loads.saturating_add(1);
    }
}

impl Port for GrowingPort {
    ghost use Rattle.std.proofs.Common.{refl, ◌∙◌};
    ghost use Rattle.eb_trials.specs.Grown.{Grows};

    ghost stands = { Grows };

    ghost keeps = { λ s m t n. t.words.setting ≡ s.words.setting };

    ghost same = { λ s t. t.words.setting ≡ s.words.setting };

    fn config(&self) -> Config {
        self.words.config()
    }

    fn load<L: Ledger>(&mut self, place: u64, steps: &mut Steps<L>) -> u64 {
        self.grow();
        self.words.load(place, steps)
    }

    ghost lawful = { λ s m h. h.words.moment };

    ghost keeps_itself = { λ s m h. refl };

    ghost keeps_on = { λ s t u l m n h k. k ∙ h };

    ghost keeps_same = { λ s t m n h. h };

    ghost same_on = { λ s t u h k. k ∙ h };
}
