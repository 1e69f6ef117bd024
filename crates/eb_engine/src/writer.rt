ghost use Rattle.std.specs.Prelude.{◌≡◌, ℕ, List, ◌++◌, ◌∷◌, [], ◌≤◌, false, length, max, IfOk, OnErr};
ghost use mathlib.Core.List.{IsPrefix};
ghost use Rattle.eb_base.specs.Match.{answer};
ghost use Rattle.eb_base.specs.Query.{word, conjunction};
ghost use Rattle.eb_cursor.specs.AndCosts.{word_parts};
ghost use Rattle.eb_count.specs.Counts.{match_count};
ghost use Rattle.eb_count.specs.Tallies.{HasCounted};
ghost use Rattle.eb_cursor.specs.Frames.{query_of, k_of, ids_of, SeenAs};
ghost use Rattle.eb_place.specs.Moments.{IsMoment, empty_moment};
ghost use Rattle.eb_place.specs.Room.{cut, HasRoom, has_room};
ghost use Rattle.eb_search.specs.Bounds.{match_loads};
ghost use Rattle.eb_search.specs.Visible.{AreNone};
ghost use Rattle.eb_engine.specs.Loads.{IsBoundedAlone, IsAndBoundedAlone};
ghost use Rattle.eb_engine.specs.Tokens.{index_of, AreClosed};

use crate::calls::{
    add_to_words, count_alone, count_alone_likely, search_alone, search_alone_likely,
};
use crate::converter::Converter;
use crate::index::Index;
use crate::reader::Reader;
use eb_base::{Config, Document, Gate, Point};
use eb_count::Tally;
use eb_cursor::Frame;
use eb_marks::Segments;
use eb_place::Steps;
use eb_table::WriterSeat;
use eb_writer::{Full, Placer};
use std::marker::Model;
use std::sync::ledger::Ledger;

/// The one writer of an index. It may go to a thread of its own. Contracts see its history, which
/// is the documents that it added, in order; and how many segments it knows to be converted.
#[derive(Drop)]
pub struct Writer {
    seat: WriterSeat,
    placer: Placer,
    // How many segments it knows to be converted.
    converted: u32,
}

impl Model for Writer {
    ghost use Rattle.std.specs.Prelude.{◌≤◌};
    ghost use Rattle.eb_place.specs.Moments.{IsMoment};
    ghost use Rattle.eb_writer.specs.Progress.{PlacerStands};
    ghost use Rattle.eb_engine.specs.Tokens.{HistoryToken, index_of};

    ghost Value = { HistoryToken };

    ghost view = { λ w. record { index = index_of w.seat; docs = w.seat.moment.documents.accepted; converted = w.converted } };

    ghost invariant = { λ w. IsMoment w.seat.moment × PlacerStands w.placer w.seat.moment × (w.converted ≤ w.seat.moment.conversions.converted) };
}

impl Writer {
    pub(crate) fn new(seat: WriterSeat, config: Config) -> Writer
        requires moment { seat.moment ≡ empty_moment config }
        requires lawful { IsMoment seat.moment }
        ensures { result ≡ record { index = index_of seat; docs = []; converted = 0 } }
    {
        Writer {
            seat,
            placer: Placer::new(config),
            converted: 0,
        }
    }

    /// Adds a document after the history, and returns the length of the history then, which is
    /// reported to the gate after the last store. `Full` exactly where the index has no room for
    /// the document: the history is then as before, and no store is done. The writer must have been
    /// made with this index. Takes no memory.
    pub fn add<G: Gate>(
        &mut self,
        index: &Index,
        document: &Document,
        gate: &G,
    ) -> Result<u64, Full>
        requires { self.old.index ≡ index.now }
        ensures ok { IfOk result (λ n. HasRoom index.now.setting self.old.docs document.now
            × (self.new ≡ record { index = self.old.index; docs = self.old.docs ++ document.now ∷ []; converted = self.old.converted })
            × (n ≡ length self.new.docs)) }
        ensures full { OnErr result ((has_room index.now.setting self.old.docs document.now ≡ false) × (self.new ≡ self.old)) }
    {
        let count = add_to_words(&mut self.placer, &mut self.seat, &index.words, document)?;
        gate.reached(Point::Added(count));
        Ok(count)
    }

    /// The length of the history.
    pub fn accepted(&self) -> u64
        ensures { result ≡ length self.now.docs }
    {
        self.placer.documents()
    }

    /// The number of segments of the cut of the history, at most those of the index.
    pub fn segments(&self) -> u32
        ensures cut { result ≡ length (cut self.now.index.setting self.now.docs) }
        ensures few { result ≤ self.now.index.setting.segments }
    {
        self.placer.segments()
    }

    /// A reader that knows the whole history, and as many converted segments as the writer knows.
    /// The writer must have been made with this index. Takes no memory.
    pub fn reader(&mut self, index: &Index) -> Reader
        requires { self.old.index ≡ index.now }
        ensures this { self.new ≡ self.old }
        ensures reader { result ≡ self.old }
    {
        let seat = self.seat.split(&index.words);
        Reader::new(seat, self.placer.documents(), self.converted)
    }

    /// Meets a reader, which is used up: what it knew is a prefix of the history. Both must have
    /// been made with this index. Takes no memory.
    pub fn meet(&mut self, index: &Index, reader: Reader)
        requires this { self.old.index ≡ index.now }
        requires reader { reader.index ≡ index.now }
        ensures this { self.new ≡ self.old }
        ensures reader { IsPrefix reader.docs self.new.docs }
    {
        let known = reader.into_seat();
        self.seat.meet(&index.words, known);
    }

    /// Searches the whole history, so a writer reads its own writes: a reader that knows the
    /// history searches, and the writer meets it again. Since no document is added meanwhile, the
    /// answer is over exactly the history, and its length is the result; otherwise as
    /// `Reader::search`. The bounds on loads are taken at moments at which exactly the history is
    /// stored (`IsBoundedAlone`, `IsAndBoundedAlone`). The writer must have been made with this
    /// index. Takes no memory.
    pub fn search<G: Gate, L: Ledger>(
        &mut self,
        index: &Index,
        frame: &mut Frame,
        gate: &G,
        steps: &mut Steps<L>,
    ) -> u64
        requires { self.old.index ≡ index.now }
        ensures this { self.new ≡ self.old }
        ensures count { result ≡ length self.new.docs }
        ensures query { query_of frame.new ≡ query_of frame.old }
        ensures k { k_of frame.new ≡ k_of frame.old }
        ensures ids { ids_of frame.new ≡ answer (query_of frame.old) (k_of frame.old) self.new.docs }
        ensures loads { (t : List ℕ) → query_of frame.old ≡ word t
            → IsBoundedAlone [] index.now.setting self.new.docs self.new.converted t (length (ids_of frame.new)) steps.old steps.new }
        ensures rounds { (ts : List (List ℕ)) → query_of frame.old ≡ conjunction (word_parts ts)
            → IsAndBoundedAlone [] index.now.setting self.new.docs ts (length (ids_of frame.new)) steps.old steps.new }
    {
        search_alone(&mut self.seat, &index.words, frame, gate, steps)
    }

    /// Searches as [`Writer::search`] does, over all segments but those of which `likely` says
    /// false: the answer is that over the whole history where none of the documents of those
    /// segments matches. The bounds on loads are those of [`Writer::search`] but count nothing for
    /// what is in these segments. The writer must have been made with this index. Takes no memory.
    pub fn search_likely<G: Gate, L: Ledger>(
        &mut self,
        index: &Index,
        frame: &mut Frame,
        gate: &G,
        likely: Segments,
        steps: &mut Steps<L>,
    ) -> u64
        requires { self.old.index ≡ index.now }
        ensures this { self.new ≡ self.old }
        ensures count { result ≡ length self.new.docs }
        ensures query { query_of frame.new ≡ query_of frame.old }
        ensures k { k_of frame.new ≡ k_of frame.old }
        ensures ids { AreNone (query_of frame.old) (cut index.now.setting self.new.docs) likely
            → ids_of frame.new ≡ answer (query_of frame.old) (k_of frame.old) self.new.docs }
        ensures loads { (t : List ℕ) → query_of frame.old ≡ word t
            → IsBoundedAlone likely index.now.setting self.new.docs self.new.converted t (length (ids_of frame.new)) steps.old steps.new }
        ensures rounds { (ts : List (List ℕ)) → query_of frame.old ≡ conjunction (word_parts ts)
            → IsAndBoundedAlone likely index.now.setting self.new.docs ts (length (ids_of frame.new)) steps.old steps.new }
    {
        search_alone_likely(&mut self.seat, &index.words, frame, gate, likely, steps)
    }

    /// Counts, in the tally, all matches among the whole history, added to what the tally held: a
    /// reader that knows the history counts, and the writer meets it again. The length of the
    /// history is the result; otherwise as `Reader::count`. The writer must have been made with
    /// this index. Takes no memory.
    pub fn count<G: Gate, L: Ledger>(
        &mut self,
        index: &Index,
        frame: &mut Frame,
        tally: &mut Tally,
        gate: &G,
        steps: &mut Steps<L>,
    ) -> u64
        requires { self.old.index ≡ index.now }
        ensures this { self.new ≡ self.old }
        ensures count { result ≡ length self.new.docs }
        ensures seen { SeenAs frame.old frame.new }
        ensures counts { HasCounted (query_of frame.old) self.new.docs tally.old tally.new }
        ensures loads { (t : List ℕ) → query_of frame.old ≡ word t → IsBoundedAlone [] index.now.setting self.new.docs self.new.converted t
            (match_loads (length tally.old.buckets) (match_count (word t) self.new.docs)) steps.old steps.new }
    {
        count_alone(&mut self.seat, &index.words, frame, tally, gate, steps)
    }

    /// Counts as [`Writer::count`] does, over all segments but those of which `likely` says false:
    /// the numbers are those over the whole history where none of the documents of those segments
    /// matches. The bound on loads is that of [`Writer::count`] but counts nothing for the word in
    /// these segments. The writer must have been made with this index. Takes no memory.
    pub fn count_likely<G: Gate, L: Ledger>(
        &mut self,
        index: &Index,
        frame: &mut Frame,
        tally: &mut Tally,
        gate: &G,
        likely: Segments,
        steps: &mut Steps<L>,
    ) -> u64
        requires { self.old.index ≡ index.now }
        ensures this { self.new ≡ self.old }
        ensures count { result ≡ length self.new.docs }
        ensures seen { SeenAs frame.old frame.new }
        ensures counts { AreNone (query_of frame.old) (cut index.now.setting self.new.docs) likely
            → HasCounted (query_of frame.old) self.new.docs tally.old tally.new }
        ensures loads { (t : List ℕ) → query_of frame.old ≡ word t → IsBoundedAlone likely index.now.setting self.new.docs self.new.converted t
            (match_loads (length tally.old.buckets) (match_count (word t) self.new.docs)) steps.old steps.new }
    {
        count_alone_likely(
            &mut self.seat,
            &index.words,
            frame,
            tally,
            gate,
            likely,
            steps,
        )
    }

    /// Takes over what the converter knows: it is a prefix of the history, in which each segment
    /// that it converted is closed. The writer then knows these segments to be converted. Both must
    /// have been made with this index. Takes no memory.
    pub fn hear(&mut self, index: &Index, converter: &mut Converter)
        requires this { self.old.index ≡ index.now }
        requires converter { converter.old.index ≡ index.now }
        ensures this { self.new ≡ record { index = self.old.index; docs = self.old.docs; converted = max self.old.converted converter.old.converted } }
        ensures converter { converter.new ≡ converter.old }
        ensures told { IsPrefix converter.old.docs self.new.docs }
        ensures closed { AreClosed index.now.setting self.new.docs converter.old.converted }
    {
        let told = converter.seat.split(&index.words);
        self.seat.meet(&index.words, told);
        self.converted = self.converted.max(converter.converted());
    }
}
