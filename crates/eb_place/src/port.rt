ghost use Rattle.std.specs.Prelude.{◌≡◌, ◌+◌, ◌<◌};
ghost use Rattle.eb_base.specs.Setting.{words_of};
ghost use Rattle.eb_place.specs.declared.moment.Moment.{Moment};
ghost use Rattle.eb_place.specs.Moments.{word, IsMoment};
ghost use Rattle.eb_place.specs.Later.{IsNotBefore};
ghost use Rattle.eb_place.specs.NextStores.{IsNext, after_store, IsNextPut, after_put};

use crate::steps::Steps;
use eb_base::{Config, Document};
use std::sync::ledger::Ledger;

/// Loads the words of an index.
///
/// A port stands for a moment of the words, or for each moment at which they are the same. Between
/// two of its loads the words may grow, so after a load it may stand for a later moment. `keeps` is
/// the fixed part, which loads don't change. `same` is what stores and puts don't change either:
/// which words it is a port of, and by which seat.
pub trait Port {
    // The moments that the port stands for.
    ghost stands: { Self → Moment → Type 0 };
    // The fixed part of the first port, at the first moment, is that of the second at the second.
    ghost keeps: { Self → Moment → Self → Moment → Type 0 };
    // Both are ports of the same words, by the same seat.
    ghost same: { Self → Self → Type 0 };

    /// The setting of the index.
    fn config(&self) -> Config
        requires { (m : Moment) × stands self.now m }
        ensures { (m : Moment) → stands self.now m → result ≡ m.setting };

    /// The word at a place that is below the number of words. Afterwards the port stands for the
    /// same moment or a later one, the word is that moment's, and the fixed part is as before. One
    /// step is counted. Takes no memory.
    fn load<L: Ledger>(&mut self, place: u64, steps: &mut Steps<L>) -> u64
        requires { (m : Moment) × stands self.old m × (place < words_of m.setting) }
        ensures told { (m : Moment) → stands self.old m
            → (n : Moment) × stands self.new n × IsNotBefore n m × keeps self.old m self.new n × (result ≡ word n place) }
        ensures step { steps.new ≡ steps.old + 1 };

    // A port stands for lawful moments.
    ghost lawful: { (s : Self) (m : Moment) → stands s m → IsMoment m };

    // The fixed part stays where nothing is done, and over several calls that leave it.
    ghost keeps_itself: { (s : Self) (m : Moment) → stands s m → keeps s m s m };

    ghost keeps_on: { (s t u : Self) (l m n : Moment) → keeps s l t m → keeps t m u n → keeps s l u n };

    // What loads leave holds all that stores leave.
    ghost keeps_same: { (s t : Self) (m n : Moment) → keeps s m t n → same s t };

    ghost same_on: { (s t u : Self) → same s t → same t u → same s u };
}

/// Places documents: the one writer of an index.
pub trait Pen: Port {
    /// Does the next store of the placing of a document, which has room; no other document is being
    /// placed. The documents part of the moment then has this one more store, and the conversion
    /// part is as before. Takes no memory.
    fn store(&mut self, document: &Document, place: u64, value: u64)
        requires { (m : Moment) × Self.stands self.old m × IsNext m document.now place value }
        ensures { (m : Moment) → Self.stands self.old m → IsNext m document.now place value
            → Self.stands self.new (after_store m document.now) × Self.same self.old self.new };

    // A pen's loads change nothing of what it knows of the documents.
    ghost pen_keeps: { (s t : Self) (m n : Moment) → Self.keeps s m t n → n.documents ≡ m.documents };
}

/// Converts segments: the one converter of an index.
pub trait PackPen: Port {
    /// Does the next store of the next conversion, whose segment is closed. The conversion part of
    /// the moment then has this one more store, and the documents part is as before. Takes no
    /// memory.
    fn put(&mut self, place: u64, value: u64)
        requires { (m : Moment) × Self.stands self.old m × IsNextPut m place value }
        ensures { (m : Moment) → Self.stands self.old m → IsNextPut m place value
            → Self.stands self.new (after_put m) × Self.same self.old self.new };

    // A converter's loads change nothing of what it knows of the conversions.
    ghost pack_keeps: { (s t : Self) (m n : Moment) → Self.keeps s m t n → n.conversions ≡ m.conversions };
}
