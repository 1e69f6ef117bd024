//! What a handle leads to: a writer, a reader or a converter, with its share of the index; a leader
//! or a follower of a feed, a spare index for one, or a generation that one dropped; or watches.
ghost use Rattle.std.specs.Prelude.{◌≡◌, ◌<◌, ◌++◌, ◌∷◌, [], false, length, IfSome};
ghost use mathlib.Core.List.{IsPrefix};
ghost use Rattle.eb_base.specs.Match.{answer as answer_of};
ghost use Rattle.eb_count.specs.Tallies.{HasCounted};
ghost use Rattle.eb_cursor.specs.Frames.{query_of, k_of, ids_of};
ghost use Rattle.eb_place.specs.Room.{has_room};
ghost use Rattle.eb_convert.specs.declared.conversion.Converted.{Converted};
ghost use Rattle.eb_engine.specs.Tokens.{Converts};
ghost use Rattle.std.specs.Arc.{arc_value};

use crate::leading::{HeldFollower, HeldLeader};
use eb_base::{Document, OpenGate};
use eb_count::Tally;
use eb_cursor::Frame;
use eb_engine::{Converter, Index as Shared, Reader, Writer};
use eb_watch::Watches;
use eb_writer::Full;
use feed_shared::{FeedConverter, Released, Spare};
use std::alloc::Global;
use std::marker::{Brand, Model};
use std::sync::Arc;

/// The writer of a shared index. It has an allocation of its own, so that what a handle leads to is
/// small.
#[derive(Drop)]
pub struct HeldWriter {
    index: Arc<Shared, Global>,
    writer: Box<Writer, Global>,
}

impl Model for HeldWriter {
    ghost use Rattle.std.specs.Prelude.{◌≡◌};
    ghost use Rattle.std.specs.Arc.{arc_value};
    ghost use Rattle.eb_engine.specs.Tokens.{HistoryToken};

    ghost Value = { HistoryToken };

    ghost view = { λ h. h.writer.value };

    ghost invariant = { λ h. h.writer.value.index ≡ arc_value h.index };
}

/// A reader of a shared index.
#[derive(Drop)]
pub struct HeldReader {
    index: Arc<Shared, Global>,
    reader: Reader,
}

impl Model for HeldReader {
    ghost use Rattle.std.specs.Prelude.{◌≡◌};
    ghost use Rattle.std.specs.Arc.{arc_value};
    ghost use Rattle.eb_engine.specs.Tokens.{HistoryToken};

    ghost Value = { HistoryToken };

    ghost view = { λ h. h.reader };

    ghost invariant = { λ h. h.reader.index ≡ arc_value h.index };
}

/// The converter of a shared index.
#[derive(Drop)]
pub struct HeldConverter {
    index: Arc<Shared, Global>,
    converter: Converter,
}

impl Model for HeldConverter {
    ghost use Rattle.std.specs.Prelude.{◌≡◌};
    ghost use Rattle.std.specs.Arc.{arc_value};
    ghost use Rattle.eb_engine.specs.Tokens.{ConverterToken};

    ghost Value = { ConverterToken };

    ghost view = { λ h. h.converter };

    ghost invariant = { λ h. h.converter.index ≡ arc_value h.index };
}

/// What a handle leads to.
#[derive(Drop)]
pub enum Held {
    /// A writer.
    Writer(HeldWriter),
    /// A reader.
    Reader(HeldReader),
    /// A converter of an index.
    Converter(HeldConverter),
    /// The leader of a feed.
    Leader(HeldLeader),
    /// A follower of a feed.
    Follower(HeldFollower),
    /// The converter of a generation of a feed.
    FeedConverter(FeedConverter),
    /// A spare index: one that was opened ahead, for the next generation of a feed. Nothing where
    /// it was just lent, and none came back.
    Spare(Option<Spare>),
    /// A generation that a feed dropped.
    Released(Released),
    /// Watches.
    Watches(Watches),
}

impl HeldConverter {
    pub(crate) fn new(index: Arc<Shared, Global>, converter: Converter) -> HeldConverter
        requires { converter.index ≡ arc_value index }
        ensures { result ≡ converter }
    {
        HeldConverter { index, converter }
    }

    // Converts the next segment, if it is closed, and returns the number of those that are
    // converted.
    pub(crate) fn convert(&mut self) -> u32
        ensures index { self.new.index ≡ self.old.index }
        ensures known { IsPrefix self.old.docs self.new.docs }
        ensures converts { (x : Converted) × Converts self.old.index.setting self.old self.new x }
        ensures number { result ≡ self.new.converted }
    {
        let _done = self.converter.convert(&self.index);
        self.converter.converted()
    }
}

impl HeldWriter {
    pub(crate) fn new(index: Arc<Shared, Global>, writer: Box<Writer, Global>) -> HeldWriter
        requires { writer.value.index ≡ arc_value index }
        ensures { result ≡ writer.value }
    {
        HeldWriter { index, writer }
    }

    // Adds a document. False exactly where there is no room for it; all is then as before.
    pub(crate) fn add(&mut self, document: &Document) -> bool
        ensures index { self.new.index ≡ self.old.index }
        ensures added { result ≡ has_room self.old.index.setting self.old.docs document.now }
        ensures docs { (result ≡ false → self.new ≡ self.old) × ((result ≡ false → ⊥) → self.new.docs ≡ self.old.docs ++ document.now ∷ []) }
        ensures converted { self.new.converted ≡ self.old.converted }
    {
        match self.writer.add(&self.index, document, &OpenGate) {
            Ok(_) => true,
            Err(Full) => false,
        }
    }

    // A reader that knows the whole history. `None` where there are too many shares of the index.
    pub(crate) fn reader(&mut self) -> Option<HeldReader>
        ensures this { self.new ≡ self.old }
        ensures reader { IfSome result (λ r. r ≡ self.old) }
    {
        let Ok(index) = Arc::try_clone(&self.index) else {
            return None;
        };
        let reader = self.writer.reader(&self.index);
        Some(HeldReader { index, reader })
    }
}

impl HeldReader {
    // A reader that knows what this one knows. `None` where there are too many shares of the index.
    pub(crate) fn again(&mut self) -> Option<HeldReader>
        ensures this { self.new ≡ self.old }
        ensures reader { IfSome result (λ r. r ≡ self.old) }
    {
        let Ok(index) = Arc::try_clone(&self.index) else {
            return None;
        };
        let reader = self.reader.split(&self.index);
        Some(HeldReader { index, reader })
    }

    // How many documents it knows.
    pub(crate) fn seen(&self) -> u64
        ensures { result ≡ length self.now.docs }
    {
        self.reader.seen()
    }

    // Meets another reader of the index.
    pub(crate) fn meet(&mut self, other: &mut HeldReader)
        requires { other.old.index ≡ self.old.index }
        ensures index { self.new.index ≡ self.old.index }
        ensures other { other.new ≡ other.old }
        ensures known { IsPrefix self.old.docs self.new.docs }
        ensures told { IsPrefix other.old.docs self.new.docs }
    {
        let told = other.reader.split(&other.index);
        self.reader.meet(&self.index, told);
    }

    // Searches all documents that are accepted, and returns their number.
    pub(crate) fn search(&mut self, frame: &mut Frame) -> u64
        ensures index { self.new.index ≡ self.old.index }
        ensures known { IsPrefix self.old.docs self.new.docs }
        ensures count { result ≡ length self.new.docs }
        ensures ids { ids_of frame.new ≡ answer_of (query_of frame.old) (k_of frame.old) self.new.docs }
    {
        self.reader.search_unmetered(&self.index, frame, &OpenGate)
    }

    // Counts, in the tally, all matches among the documents that are accepted, and returns their
    // number.
    pub(crate) fn count(&mut self, frame: &mut Frame, tally: &mut Tally) -> u64
        ensures index { self.new.index ≡ self.old.index }
        ensures known { IsPrefix self.old.docs self.new.docs }
        ensures count { result ≡ length self.new.docs }
        ensures counts { HasCounted (query_of frame.old) self.new.docs tally.old tally.new }
    {
        self.reader
            .count_unmetered(&self.index, frame, tally, &OpenGate)
    }
}
