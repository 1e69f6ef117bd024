ghost use Rattle.std.specs.Prelude.{◌≡◌, ℕ, List, [], ◌≤◌, ◌-◌, ◌++◌, ◌⊎◌, length, max};
ghost use mathlib.Core.List.{IsPrefix};
ghost use Rattle.eb_base.specs.Match.{answer};
ghost use Rattle.eb_base.specs.Query.{word, conjunction};
ghost use Rattle.eb_cursor.specs.AndCosts.{word_parts};
ghost use Rattle.eb_count.specs.Counts.{match_count};
ghost use Rattle.eb_count.specs.Tallies.{HasCounted};
ghost use Rattle.eb_cursor.specs.Frames.{query_of, k_of, ids_of, SeenAs};
ghost use Rattle.eb_place.specs.Moments.{IsMoment};
ghost use Rattle.eb_place.specs.Room.{cut};
ghost use Rattle.eb_search.specs.Bounds.{match_loads};
ghost use Rattle.eb_search.specs.Visible.{AreNone};
ghost use Rattle.eb_engine.specs.Loads.{IsBounded, IsAndBounded};
ghost use Rattle.eb_engine.specs.Tokens.{index_of, first_of};

use crate::calls::{
    count_known_words, count_words, count_words_likely, search_known_words, search_words,
    search_words_likely,
};
use crate::index::Index;
use eb_base::Gate;
use eb_count::Tally;
use eb_cursor::Frame;
use eb_marks::Segments;
use eb_place::Steps;
use eb_table::ReaderSeat;
use std::marker::Model;
use std::sync::ledger::Ledger;

/// A reader of an index. There may be any number, each on a thread of its own. Contracts see the
/// documents that it knows, which are the first ones of the writer's history: those that readers it
/// met knew, and those that its searches found. They also see how many segments it knows to be
/// converted.
#[derive(Drop)]
pub struct Reader {
    seat: ReaderSeat,
    // How many documents it knows: the first ones of those that its seat knows.
    seen: u64,
    // How many segments it knows to be converted.
    converted: u32,
}

impl Model for Reader {
    ghost use Rattle.std.specs.Prelude.{◌≤◌, length};
    ghost use Rattle.eb_place.specs.Moments.{IsMoment};
    ghost use Rattle.eb_engine.specs.Tokens.{HistoryToken, index_of, first_of};

    ghost Value = { HistoryToken };

    ghost view = { λ r. record { index = index_of r.seat; docs = first_of r.seen r.seat; converted = r.converted } };

    ghost invariant = { λ r. IsMoment r.seat.moment × (r.seen ≤ length r.seat.moment.documents.accepted)
        × (r.converted ≤ r.seat.moment.conversions.converted) };
}

impl Reader {
    pub(crate) fn new(seat: ReaderSeat, seen: u64, converted: u32) -> Reader
        requires moment { IsMoment seat.moment }
        requires seen { seen ≤ length seat.moment.documents.accepted }
        requires converted { converted ≤ seat.moment.conversions.converted }
        ensures { result ≡ record { index = index_of seat; docs = first_of seen seat; converted = converted } }
    {
        Reader {
            seat,
            seen,
            converted,
        }
    }

    // What the reader knows is a prefix of what the seat knows.
    pub(crate) fn into_seat(self) -> ReaderSeat
        ensures moment { IsMoment result.moment }
        ensures index { index_of result ≡ self.index }
        ensures docs { IsPrefix self.docs result.moment.documents.accepted }
    {
        let Reader {
            seat,
            seen: _,
            converted: _,
        } = self;
        seat
    }

    /// A reader that knows what this one knows. This one must have been made with this index. Takes
    /// no memory.
    pub fn split(&mut self, index: &Index) -> Reader
        requires { self.old.index ≡ index.now }
        ensures this { self.new ≡ self.old }
        ensures reader { result ≡ self.old }
    {
        let seat = self.seat.split(&index.words);
        Reader::new(seat, self.seen, self.converted)
    }

    /// Searches the documents that are accepted when it loads their count, which is its result:
    /// afterwards the frame holds the ids of the newest `k` of them that its query matches, newest
    /// first. All documents that this reader knew before are a prefix of them, and it knows them
    /// from then on. Documents that are added while the search goes on change nothing of it. The
    /// count is reported to the gate directly after its load, and the steps count each load of a
    /// word. A search of a word makes a bounded number of loads (`IsBounded`): one for the count,
    /// two for each segment of the setting, one for each id, and in each segment that has one of
    /// these documents those that find the word and those of its list, which is the packed one
    /// where the segment was converted when the search began, so at least where the reader knew
    /// that it is. So does a search of an And of words (`IsAndBounded`), by the documents that have
    /// the rarest of them in each segment. Both bounds are taken at some moments whose documents
    /// begin with those that the reader knows then. The reader must have been made with this index.
    /// Takes no memory.
    pub fn search<G: Gate, L: Ledger>(
        &mut self,
        index: &Index,
        frame: &mut Frame,
        gate: &G,
        steps: &mut Steps<L>,
    ) -> u64
        requires { self.old.index ≡ index.now }
        ensures index { self.new.index ≡ self.old.index }
        ensures known { IsPrefix self.old.docs self.new.docs }
        ensures converted { self.new.converted ≡ self.old.converted }
        ensures count { result ≡ length self.new.docs }
        ensures query { query_of frame.new ≡ query_of frame.old }
        ensures k { k_of frame.new ≡ k_of frame.old }
        ensures ids { ids_of frame.new ≡ answer (query_of frame.old) (k_of frame.old) self.new.docs }
        ensures loads { (t : List ℕ) → query_of frame.old ≡ word t
            → IsBounded [] index.now.setting self.old.docs self.old.converted self.new.docs t (length (ids_of frame.new)) steps.old steps.new }
        ensures rounds { (ts : List (List ℕ)) → query_of frame.old ≡ conjunction (word_parts ts)
            → IsAndBounded [] index.now.setting self.new.docs ts (length (ids_of frame.new)) steps.old steps.new }
    {
        let count = search_words(&mut self.seat, &index.words, frame, gate, steps);
        self.seen = count;
        count
    }

    /// Searches as [`Reader::search`] does, over all segments but those of which `likely` says
    /// false. The answer is that over all documents where none of the documents of those segments
    /// matches. So a caller that keeps a Bloom filter of each segment can skip those that its
    /// filter excludes. From then on the reader knows all documents that it counted, also those of
    /// the segments that it skipped. The bounds on loads are those of [`Reader::search`] but count
    /// nothing for what is in these segments. The reader must have been made with this index. Takes
    /// no memory.
    pub fn search_likely<G: Gate, L: Ledger>(
        &mut self,
        index: &Index,
        frame: &mut Frame,
        gate: &G,
        likely: Segments,
        steps: &mut Steps<L>,
    ) -> u64
        requires { self.old.index ≡ index.now }
        ensures index { self.new.index ≡ self.old.index }
        ensures known { IsPrefix self.old.docs self.new.docs }
        ensures converted { self.new.converted ≡ self.old.converted }
        ensures count { result ≡ length self.new.docs }
        ensures query { query_of frame.new ≡ query_of frame.old }
        ensures k { k_of frame.new ≡ k_of frame.old }
        ensures ids { AreNone (query_of frame.old) (cut index.now.setting self.new.docs) likely
            → ids_of frame.new ≡ answer (query_of frame.old) (k_of frame.old) self.new.docs }
        ensures loads { (t : List ℕ) → query_of frame.old ≡ word t
            → IsBounded likely index.now.setting self.old.docs self.old.converted self.new.docs t (length (ids_of frame.new)) steps.old steps.new }
        ensures rounds { (ts : List (List ℕ)) → query_of frame.old ≡ conjunction (word_parts ts)
            → IsAndBounded likely index.now.setting self.new.docs ts (length (ids_of frame.new)) steps.old steps.new }
    {
        let count = search_words_likely(&mut self.seat, &index.words, frame, gate, likely, steps);
        self.seen = count;
        count
    }

    /// Searches exactly the documents that this reader knows, and finds out about no others. The
    /// ids of the newest matches come after those that the frame holds, as many as it still takes.
    /// So one frame goes through several indexes, from the newest to the oldest. The reader must
    /// have been made with this index. Takes no memory.
    pub fn search_known<L: Ledger>(
        &mut self,
        index: &Index,
        frame: &mut Frame,
        steps: &mut Steps<L>,
    )
        requires { self.old.index ≡ index.now }
        ensures same { self.new ≡ self.old }
        ensures query { query_of frame.new ≡ query_of frame.old }
        ensures k { k_of frame.new ≡ k_of frame.old }
        ensures ids { ids_of frame.new ≡ ids_of frame.old ++ answer (query_of frame.old) (k_of frame.old - length (ids_of frame.old)) self.old.docs }
    {
        search_known_words(&mut self.seat, &index.words, self.seen, frame, steps);
    }

    /// Counts, in the tally, all matches among the documents that are accepted when it loads their
    /// count, which is its result: all in all, and in each of the tally's buckets, added to what
    /// the tally held. All documents that this reader knew before are a prefix of them, and it
    /// knows them from then on. Documents that are added while the count goes on change nothing of
    /// it. The number of documents is reported to the gate directly after its load. The frame stays
    /// as it is. The bound on the loads of a word's count is that of its search, with one for each
    /// match in place of one for each id, and none for matches where the tally has no buckets. The
    /// reader must have been made with this index. Takes no memory.
    pub fn count<G: Gate, L: Ledger>(
        &mut self,
        index: &Index,
        frame: &mut Frame,
        tally: &mut Tally,
        gate: &G,
        steps: &mut Steps<L>,
    ) -> u64
        requires { self.old.index ≡ index.now }
        ensures index { self.new.index ≡ self.old.index }
        ensures known { IsPrefix self.old.docs self.new.docs }
        ensures converted { self.new.converted ≡ self.old.converted }
        ensures count { result ≡ length self.new.docs }
        ensures seen { SeenAs frame.old frame.new }
        ensures counts { HasCounted (query_of frame.old) self.new.docs tally.old tally.new }
        ensures loads { (t : List ℕ) → query_of frame.old ≡ word t → IsBounded [] index.now.setting self.old.docs self.old.converted self.new.docs t
            (match_loads (length tally.old.buckets) (match_count (word t) self.new.docs)) steps.old steps.new }
    {
        let count = count_words(&mut self.seat, &index.words, frame, tally, gate, steps);
        self.seen = count;
        count
    }

    /// Counts as [`Reader::count`] does, over all segments but those of which `likely` says false:
    /// the numbers are those over all documents where none of the documents of those segments
    /// matches. The bound on loads is that of [`Reader::count`] but counts nothing for the word in
    /// these segments. The reader must have been made with this index. Takes no memory.
    pub fn count_likely<G: Gate, L: Ledger>(
        &mut self,
        index: &Index,
        frame: &mut Frame,
        tally: &mut Tally,
        gate: &G,
        likely: Segments,
        steps: &mut Steps<L>,
    ) -> u64
        requires { self.old.index ≡ index.now }
        ensures index { self.new.index ≡ self.old.index }
        ensures known { IsPrefix self.old.docs self.new.docs }
        ensures converted { self.new.converted ≡ self.old.converted }
        ensures count { result ≡ length self.new.docs }
        ensures seen { SeenAs frame.old frame.new }
        ensures counts { AreNone (query_of frame.old) (cut index.now.setting self.new.docs) likely
            → HasCounted (query_of frame.old) self.new.docs tally.old tally.new }
        ensures loads { (t : List ℕ) → query_of frame.old ≡ word t → IsBounded likely index.now.setting self.old.docs self.old.converted self.new.docs t
            (match_loads (length tally.old.buckets) (match_count (word t) self.new.docs)) steps.old steps.new }
    {
        let count = count_words_likely(
            &mut self.seat,
            &index.words,
            frame,
            tally,
            gate,
            likely,
            steps,
        );
        self.seen = count;
        count
    }

    /// Counts, in the tally, all matches among exactly the documents that this reader knows, and
    /// finds out about no others; they are added to what the tally held. So one tally goes through
    /// several indexes. The reader must have been made with this index. Takes no memory.
    pub fn count_known<L: Ledger>(
        &mut self,
        index: &Index,
        frame: &mut Frame,
        tally: &mut Tally,
        steps: &mut Steps<L>,
    )
        requires { self.old.index ≡ index.now }
        ensures same { self.new ≡ self.old }
        ensures seen { SeenAs frame.old frame.new }
        ensures counts { HasCounted (query_of frame.old) self.old.docs tally.old tally.new }
    {
        count_known_words(&mut self.seat, &index.words, self.seen, frame, tally, steps);
    }

    /// How many documents it knows.
    pub fn seen(&self) -> u64
        ensures { result ≡ length self.now.docs }
    {
        self.seen
    }

    /// Meets another reader, which is used up. What both knew are prefixes of one history; this
    /// reader then knows the longer, and the greater number of converted segments. Both must have
    /// been made with this index. Takes no memory.
    pub fn meet(&mut self, index: &Index, other: Reader)
        requires this { self.old.index ≡ index.now }
        requires other { other.index ≡ index.now }
        ensures index { self.new.index ≡ self.old.index }
        ensures this { IsPrefix self.old.docs self.new.docs }
        ensures other { IsPrefix other.docs self.new.docs }
        ensures longer { (self.new.docs ≡ self.old.docs) ⊎ (self.new.docs ≡ other.docs) }
        ensures converted { self.new.converted ≡ max self.old.converted other.converted }
    {
        let Reader {
            seat,
            seen,
            converted,
        } = other;
        self.seat.meet(&index.words, seat);
        self.converted = self.converted.max(converted);
        if self.seen < seen {
            self.seen = seen;
        }
    }
}
