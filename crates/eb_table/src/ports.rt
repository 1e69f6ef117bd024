//! The ports of the seats.
ghost use Rattle.std.specs.Prelude.{◌≡◌};
ghost use Rattle.std.proofs.Common.{refl, ◌∙◌, subst};
ghost use Rattle.eb_place.specs.Moments.{IsMoment};
ghost use Rattle.eb_table.specs.Known.{KnowsMoment};

use crate::seats::{ConverterSeat, ReaderSeat, WriterSeat};
use crate::words::SharedWords;
use eb_base::{Config, Document};
use eb_place::{PackPen, Pen, Port, Steps};
use std::sync::ledger::Ledger;

/// A reader's seat at the words, as a port. A function that uses it makes it by its literal, from a
/// seat that was made with the words. It stands for the moment that the seat knows, and the seat
/// has what the port's calls showed when the port is gone. A load may show a later moment; which
/// seat and which words these are stays.
#[derive(Drop)]
pub struct ReaderPort<'a> {
    /// The seat, made with the words.
    pub seat: &'a mut ReaderSeat,
    /// The words.
    pub words: &'a SharedWords,
}

impl<'a> Port for ReaderPort<'a> {
    ghost stands = { λ s m. KnowsMoment s.seat.now s.words.now m };

    ghost keeps = { λ s m t n. (t.seat.ghost_name ≡ s.seat.ghost_name) × (t.words.now ≡ s.words.now) };

    ghost same = { λ s t. (t.seat.ghost_name ≡ s.seat.ghost_name) × (t.words.now ≡ s.words.now) };

    fn config(&self) -> Config {
        self.words.config()
    }

    fn load<L: Ledger>(&mut self, place: u64, steps: &mut Steps<L>) -> u64 {
        steps.tick();
        self.seat.load(self.words, place)
    }

    ghost lawful = { λ s m h. subst IsMoment h.1 h.0.moment };

    ghost keeps_itself = { λ s m h. (refl, refl) };

    ghost keeps_on = { λ s t u l m n h k. (k.0 ∙ h.0, k.1 ∙ h.1) };

    ghost keeps_same = { λ s t m n h. h };

    ghost same_on = { λ s t u h k. (k.0 ∙ h.0, k.1 ∙ h.1) };
}

/// The writer's seat at the words, as a pen; otherwise like `ReaderPort`. Its loads may show later
/// conversions, and leave the documents part of its moment.
#[derive(Drop)]
pub struct WriterPort<'a> {
    /// The seat, made with the words.
    pub seat: &'a mut WriterSeat,
    /// The words.
    pub words: &'a SharedWords,
}

impl<'a> Port for WriterPort<'a> {
    ghost stands = { λ s m. KnowsMoment s.seat.now s.words.now m };

    ghost keeps = { λ s m t n. (t.seat.ghost_name ≡ s.seat.ghost_name) × (t.words.now ≡ s.words.now) × (n.documents ≡ m.documents) };

    ghost same = { λ s t. (t.seat.ghost_name ≡ s.seat.ghost_name) × (t.words.now ≡ s.words.now) };

    fn config(&self) -> Config {
        self.words.config()
    }

    fn load<L: Ledger>(&mut self, place: u64, steps: &mut Steps<L>) -> u64 {
        steps.tick();
        self.seat.load(self.words, place)
    }

    ghost lawful = { λ s m h. subst IsMoment h.1 h.0.moment };

    ghost keeps_itself = { λ s m h. (refl, refl, refl) };

    ghost keeps_on = { λ s t u l m n h k. (k.0 ∙ h.0, k.1 ∙ h.1, k.2 ∙ h.2) };

    ghost keeps_same = { λ s t m n h. (h.0, h.1) };

    ghost same_on = { λ s t u h k. (k.0 ∙ h.0, k.1 ∙ h.1) };
}

impl<'a> Pen for WriterPort<'a> {
    fn store(&mut self, document: &Document, place: u64, value: u64) {
        self.seat.store(self.words, document, place, value)
    }

    ghost pen_keeps = { λ s t m n h. h.2 };
}

/// The converter's seat at the words, as a pen of conversions; otherwise like `ReaderPort`. Its
/// loads may show later documents, and leave the conversion part of its moment.
#[derive(Drop)]
pub struct ConverterPort<'a> {
    /// The seat, made with the words.
    pub seat: &'a mut ConverterSeat,
    /// The words.
    pub words: &'a SharedWords,
}

impl<'a> Port for ConverterPort<'a> {
    ghost stands = { λ s m. KnowsMoment s.seat.now s.words.now m };

    ghost keeps = { λ s m t n. (t.seat.ghost_name ≡ s.seat.ghost_name) × (t.words.now ≡ s.words.now) × (n.conversions ≡ m.conversions) };

    ghost same = { λ s t. (t.seat.ghost_name ≡ s.seat.ghost_name) × (t.words.now ≡ s.words.now) };

    fn config(&self) -> Config {
        self.words.config()
    }

    fn load<L: Ledger>(&mut self, place: u64, steps: &mut Steps<L>) -> u64 {
        steps.tick();
        self.seat.load(self.words, place)
    }

    ghost lawful = { λ s m h. subst IsMoment h.1 h.0.moment };

    ghost keeps_itself = { λ s m h. (refl, refl, refl) };

    ghost keeps_on = { λ s t u l m n h k. (k.0 ∙ h.0, k.1 ∙ h.1, k.2 ∙ h.2) };

    ghost keeps_same = { λ s t m n h. (h.0, h.1) };

    ghost same_on = { λ s t u h k. (k.0 ∙ h.0, k.1 ∙ h.1) };
}

impl<'a> PackPen for ConverterPort<'a> {
    fn put(&mut self, place: u64, value: u64) {
        self.seat.put(self.words, place, value)
    }

    ghost pack_keeps = { λ s t m n h. h.2 };
}
