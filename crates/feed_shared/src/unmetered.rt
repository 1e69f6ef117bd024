//! Searches and counts for callers that don't ask how many loads they make. A counter of loads
//! belongs to a ledger that only a function with a type parameter for it can open, so each call here
//! stands before such a function.
ghost use Rattle.std.specs.Prelude.{◌≡◌, ◌<◌, length, min};
ghost use mathlib.Core.List.{IsPrefix};
ghost use Rattle.eb_base.specs.Match.{answer};
ghost use Rattle.eb_count.specs.Tallies.{HasCounted};
ghost use Rattle.eb_cursor.specs.Frames.{query_of, k_of, ids_of, SeenAs};
ghost use Rattle.feed_shared.specs.Turns.{history_of, stretch_of, counted};

use crate::follower::Follower;
use crate::reader::FeedReader;
use crate::writer::FeedWriter;
use eb_base::Gate;
use eb_count::Tally;
use eb_cursor::Frame;
use eb_place::Steps;
use std::marker::Brand;
use std::sync::ledger::{Blank, Ledger};

// Searches with a counter of the ledger that the blank names.
fn search_by<G: Gate, L: Ledger>(
    reader: &mut FeedReader,
    frame: &mut Frame,
    gate: &G,
    blank: Blank,
) -> u64
    requires blank { (blank.name ≡ L.name) × (blank.parts ≡ L.parts) × (0 < blank.parts) }
    ensures book { reader.new.book ≡ reader.old.book }
    ensures log { reader.new.log ≡ reader.old.log }
    ensures held { reader.new.held ≡ reader.old.held }
    ensures known { IsPrefix reader.old.docs reader.new.docs }
    ensures count { result ≡ counted (history_of reader.new.log reader.new.docs) }
    ensures query { query_of frame.new ≡ query_of frame.old }
    ensures k { k_of frame.new ≡ k_of frame.old }
    ensures ids { ids_of frame.new ≡ answer (query_of frame.old) (k_of frame.old) (stretch_of reader.new.held reader.new.log reader.new.docs) }
{
    let mut steps = Steps::<L>::new(blank);
    reader.search(frame, gate, &mut steps)
}

// Counts with a counter of the ledger that the blank names.
fn count_by<G: Gate, L: Ledger>(
    reader: &mut FeedReader,
    frame: &mut Frame,
    tally: &mut Tally,
    gate: &G,
    blank: Blank,
) -> u64
    requires blank { (blank.name ≡ L.name) × (blank.parts ≡ L.parts) × (0 < blank.parts) }
    ensures book { reader.new.book ≡ reader.old.book }
    ensures log { reader.new.log ≡ reader.old.log }
    ensures held { reader.new.held ≡ reader.old.held }
    ensures known { IsPrefix reader.old.docs reader.new.docs }
    ensures count { result ≡ counted (history_of reader.new.log reader.new.docs) }
    ensures seen { SeenAs frame.old frame.new }
    ensures counts { HasCounted (query_of frame.old) (stretch_of reader.new.held reader.new.log reader.new.docs) tally.old tally.new }
{
    let mut steps = Steps::<L>::new(blank);
    reader.count(frame, tally, gate, &mut steps)
}

// Searches, by the writer, with a counter of the ledger that the blank names.
fn search_all_by<G: Gate, L: Ledger>(
    writer: &mut FeedWriter,
    frame: &mut Frame,
    gate: &G,
    blank: Blank,
) -> u64
    requires blank { (blank.name ≡ L.name) × (blank.parts ≡ L.parts) × (0 < blank.parts) }
    ensures this { writer.new ≡ writer.old }
    ensures held { writer.new.feed.held ≡ min writer.new.keep (length writer.new.feed.log) }
    ensures count { result ≡ counted (history_of writer.new.feed.log writer.new.feed.docs) }
    ensures query { query_of frame.new ≡ query_of frame.old }
    ensures k { k_of frame.new ≡ k_of frame.old }
    ensures ids { ids_of frame.new
        ≡ answer (query_of frame.old) (k_of frame.old) (stretch_of writer.new.feed.held writer.new.feed.log writer.new.feed.docs) }
{
    let mut steps = Steps::<L>::new(blank);
    writer.search(frame, gate, &mut steps)
}

// Counts, by the writer, with a counter of the ledger that the blank names.
fn count_all_by<G: Gate, L: Ledger>(
    writer: &mut FeedWriter,
    frame: &mut Frame,
    tally: &mut Tally,
    gate: &G,
    blank: Blank,
) -> u64
    requires blank { (blank.name ≡ L.name) × (blank.parts ≡ L.parts) × (0 < blank.parts) }
    ensures this { writer.new ≡ writer.old }
    ensures held { writer.new.feed.held ≡ min writer.new.keep (length writer.new.feed.log) }
    ensures count { result ≡ counted (history_of writer.new.feed.log writer.new.feed.docs) }
    ensures seen { SeenAs frame.old frame.new }
    ensures counts { HasCounted (query_of frame.old) (stretch_of writer.new.feed.held writer.new.feed.log writer.new.feed.docs) tally.old tally.new }
{
    let mut steps = Steps::<L>::new(blank);
    writer.count(frame, tally, gate, &mut steps)
}

impl FeedReader {
    /// Searches as [`FeedReader::search`], and doesn't say how many loads it
    /// makes. Takes no memory.
    pub fn search_unmetered<G: Gate>(&mut self, frame: &mut Frame, gate: &G) -> u64
        ensures book { self.new.book ≡ self.old.book }
        ensures log { self.new.log ≡ self.old.log }
        ensures held { self.new.held ≡ self.old.held }
        ensures known { IsPrefix self.old.docs self.new.docs }
        ensures count { result ≡ counted (history_of self.new.log self.new.docs) }
        ensures query { query_of frame.new ≡ query_of frame.old }
        ensures k { k_of frame.new ≡ k_of frame.old }
        ensures ids { ids_of frame.new ≡ answer (query_of frame.old) (k_of frame.old) (stretch_of self.new.held self.new.log self.new.docs) }
    {
        search_by::<G, Brand>(self, frame, gate, Blank::new(1))
    }

    /// Counts as [`FeedReader::count`], and doesn't say how many loads it
    /// makes. Takes no memory.
    pub fn count_unmetered<G: Gate>(
        &mut self,
        frame: &mut Frame,
        tally: &mut Tally,
        gate: &G,
    ) -> u64
        ensures book { self.new.book ≡ self.old.book }
        ensures log { self.new.log ≡ self.old.log }
        ensures held { self.new.held ≡ self.old.held }
        ensures known { IsPrefix self.old.docs self.new.docs }
        ensures count { result ≡ counted (history_of self.new.log self.new.docs) }
        ensures seen { SeenAs frame.old frame.new }
        ensures counts { HasCounted (query_of frame.old) (stretch_of self.new.held self.new.log self.new.docs) tally.old tally.new }
    {
        count_by::<G, Brand>(self, frame, tally, gate, Blank::new(1))
    }
}

impl FeedWriter {
    /// Searches as [`FeedWriter::search`], and doesn't say how many loads it
    /// makes. Takes no memory.
    pub fn search_unmetered<G: Gate>(&mut self, frame: &mut Frame, gate: &G) -> u64
        ensures this { self.new ≡ self.old }
        ensures held { self.new.feed.held ≡ min self.new.keep (length self.new.feed.log) }
        ensures count { result ≡ counted (history_of self.new.feed.log self.new.feed.docs) }
        ensures query { query_of frame.new ≡ query_of frame.old }
        ensures k { k_of frame.new ≡ k_of frame.old }
        ensures ids { ids_of frame.new
            ≡ answer (query_of frame.old) (k_of frame.old) (stretch_of self.new.feed.held self.new.feed.log self.new.feed.docs) }
    {
        search_all_by::<G, Brand>(self, frame, gate, Blank::new(1))
    }

    /// Counts as [`FeedWriter::count`], and doesn't say how many loads it
    /// makes. Takes no memory.
    pub fn count_unmetered<G: Gate>(
        &mut self,
        frame: &mut Frame,
        tally: &mut Tally,
        gate: &G,
    ) -> u64
        ensures this { self.new ≡ self.old }
        ensures held { self.new.feed.held ≡ min self.new.keep (length self.new.feed.log) }
        ensures count { result ≡ counted (history_of self.new.feed.log self.new.feed.docs) }
        ensures seen { SeenAs frame.old frame.new }
        ensures counts { HasCounted (query_of frame.old) (stretch_of self.new.feed.held self.new.feed.log self.new.feed.docs) tally.old tally.new }
    {
        count_all_by::<G, Brand>(self, frame, tally, gate, Blank::new(1))
    }
}

impl Follower {
    /// Searches as [`FeedReader::search`], and doesn't say how many loads it
    /// makes. Takes no memory.
    pub fn search_unmetered<G: Gate>(&mut self, frame: &mut Frame, gate: &G) -> u64
        ensures book { self.new.book ≡ self.old.book }
        ensures log { self.new.log ≡ self.old.log }
        ensures held { self.new.held ≡ self.old.held }
        ensures known { IsPrefix self.old.docs self.new.docs }
        ensures count { result ≡ counted (history_of self.new.log self.new.docs) }
        ensures query { query_of frame.new ≡ query_of frame.old }
        ensures k { k_of frame.new ≡ k_of frame.old }
        ensures ids { ids_of frame.new ≡ answer (query_of frame.old) (k_of frame.old) (stretch_of self.new.held self.new.log self.new.docs) }
    {
        self.reader.search_unmetered(frame, gate)
    }

    /// Counts as [`FeedReader::count`], and doesn't say how many loads it
    /// makes. Takes no memory.
    pub fn count_unmetered<G: Gate>(
        &mut self,
        frame: &mut Frame,
        tally: &mut Tally,
        gate: &G,
    ) -> u64
        ensures book { self.new.book ≡ self.old.book }
        ensures log { self.new.log ≡ self.old.log }
        ensures held { self.new.held ≡ self.old.held }
        ensures known { IsPrefix self.old.docs self.new.docs }
        ensures count { result ≡ counted (history_of self.new.log self.new.docs) }
        ensures seen { SeenAs frame.old frame.new }
        ensures counts { HasCounted (query_of frame.old) (stretch_of self.new.held self.new.log self.new.docs) tally.old tally.new }
    {
        self.reader.count_unmetered(frame, tally, gate)
    }
}
