//! Searches and counts for callers that don't ask how many loads they make. A counter of loads
//! belongs to a ledger that only a function with a type parameter for it can open, so each call here
//! stands before such a function.
ghost use Rattle.std.specs.Prelude.{◌≡◌, ◌<◌, length};
ghost use mathlib.Core.List.{IsPrefix};
ghost use Rattle.eb_base.specs.Match.{answer};
ghost use Rattle.eb_count.specs.Tallies.{HasCounted};
ghost use Rattle.eb_cursor.specs.Frames.{query_of, k_of, ids_of, SeenAs};

use crate::index::Index;
use crate::reader::Reader;
use crate::writer::Writer;
use eb_base::Gate;
use eb_count::Tally;
use eb_cursor::Frame;
use eb_place::Steps;
use std::marker::Brand;
use std::sync::ledger::{Blank, Ledger};

// Searches with a counter of the ledger that the blank names.
fn search_by<G: Gate, L: Ledger>(
    reader: &mut Reader,
    index: &Index,
    frame: &mut Frame,
    gate: &G,
    blank: Blank,
) -> u64
    requires blank { (blank.name ≡ L.name) × (blank.parts ≡ L.parts) × (0 < blank.parts) }
    requires made { reader.old.index ≡ index.now }
    ensures index { reader.new.index ≡ reader.old.index }
    ensures known { IsPrefix reader.old.docs reader.new.docs }
    ensures converted { reader.new.converted ≡ reader.old.converted }
    ensures count { result ≡ length reader.new.docs }
    ensures query { query_of frame.new ≡ query_of frame.old }
    ensures k { k_of frame.new ≡ k_of frame.old }
    ensures ids { ids_of frame.new ≡ answer (query_of frame.old) (k_of frame.old) reader.new.docs }
{
    let mut steps = Steps::<L>::new(blank);
    reader.search(index, frame, gate, &mut steps)
}

// Counts with a counter of the ledger that the blank names.
fn count_by<G: Gate, L: Ledger>(
    reader: &mut Reader,
    index: &Index,
    frame: &mut Frame,
    tally: &mut Tally,
    gate: &G,
    blank: Blank,
) -> u64
    requires blank { (blank.name ≡ L.name) × (blank.parts ≡ L.parts) × (0 < blank.parts) }
    requires made { reader.old.index ≡ index.now }
    ensures index { reader.new.index ≡ reader.old.index }
    ensures known { IsPrefix reader.old.docs reader.new.docs }
    ensures converted { reader.new.converted ≡ reader.old.converted }
    ensures count { result ≡ length reader.new.docs }
    ensures seen { SeenAs frame.old frame.new }
    ensures counts { HasCounted (query_of frame.old) reader.new.docs tally.old tally.new }
{
    let mut steps = Steps::<L>::new(blank);
    reader.count(index, frame, tally, gate, &mut steps)
}

// Counts over the writer's history with a counter of the ledger that the blank names.
fn count_history_by<G: Gate, L: Ledger>(
    writer: &mut Writer,
    index: &Index,
    frame: &mut Frame,
    tally: &mut Tally,
    gate: &G,
    blank: Blank,
) -> u64
    requires blank { (blank.name ≡ L.name) × (blank.parts ≡ L.parts) × (0 < blank.parts) }
    requires made { writer.old.index ≡ index.now }
    ensures writer { writer.new ≡ writer.old }
    ensures count { result ≡ length writer.new.docs }
    ensures seen { SeenAs frame.old frame.new }
    ensures counts { HasCounted (query_of frame.old) writer.new.docs tally.old tally.new }
{
    let mut steps = Steps::<L>::new(blank);
    writer.count(index, frame, tally, gate, &mut steps)
}

impl Reader {
    /// Searches as [`Reader::search`], and doesn't say how many loads it makes. The reader must
    /// have been made with this index. Takes no memory.
    pub fn search_unmetered<G: Gate>(&mut self, index: &Index, frame: &mut Frame, gate: &G) -> u64
        requires { self.old.index ≡ index.now }
        ensures index { self.new.index ≡ self.old.index }
        ensures known { IsPrefix self.old.docs self.new.docs }
        ensures converted { self.new.converted ≡ self.old.converted }
        ensures count { result ≡ length self.new.docs }
        ensures query { query_of frame.new ≡ query_of frame.old }
        ensures k { k_of frame.new ≡ k_of frame.old }
        ensures ids { ids_of frame.new ≡ answer (query_of frame.old) (k_of frame.old) self.new.docs }
    {
        search_by::<G, Brand>(self, index, frame, gate, Blank::new(1))
    }

    /// Counts as [`Reader::count`], and doesn't say how many loads it makes. The reader must have
    /// been made with this index. Takes no memory.
    pub fn count_unmetered<G: Gate>(
        &mut self,
        index: &Index,
        frame: &mut Frame,
        tally: &mut Tally,
        gate: &G,
    ) -> u64
        requires { self.old.index ≡ index.now }
        ensures index { self.new.index ≡ self.old.index }
        ensures known { IsPrefix self.old.docs self.new.docs }
        ensures converted { self.new.converted ≡ self.old.converted }
        ensures count { result ≡ length self.new.docs }
        ensures seen { SeenAs frame.old frame.new }
        ensures counts { HasCounted (query_of frame.old) self.new.docs tally.old tally.new }
    {
        count_by::<G, Brand>(self, index, frame, tally, gate, Blank::new(1))
    }
}

impl Writer {
    /// Counts as [`Writer::count`], and doesn't say how many loads it makes. The writer must have
    /// been made with this index. Takes no memory.
    pub fn count_unmetered<G: Gate>(
        &mut self,
        index: &Index,
        frame: &mut Frame,
        tally: &mut Tally,
        gate: &G,
    ) -> u64
        requires { self.old.index ≡ index.now }
        ensures this { self.new ≡ self.old }
        ensures count { result ≡ length self.new.docs }
        ensures seen { SeenAs frame.old frame.new }
        ensures counts { HasCounted (query_of frame.old) self.new.docs tally.old tally.new }
    {
        count_history_by::<G, Brand>(self, index, frame, tally, gate, Blank::new(1))
    }
}
