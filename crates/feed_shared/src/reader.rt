//! The readers of a feed.
ghost use Rattle.std.specs.Prelude.{◌≡◌, ◌≤◌, ◌<◌, ◌-◌, ◌++◌, ℕ, List, [], ◌∷◌, length, take, reverse, get_or, IsTrue, IsFalse, IfOk};
ghost use mathlib.Core.List.{IsPrefix};
ghost use Rattle.eb_base.specs.Document.{Doc};
ghost use Rattle.eb_base.specs.Match.{answer};
ghost use Rattle.eb_base.specs.Query.{Tree};
ghost use Rattle.eb_count.specs.Tallies.{Numbers, HasCounted};
ghost use Rattle.eb_cursor.specs.Frames.{query_of, k_of, ids_of, SeenAs};
ghost use Rattle.eb_feed.specs.Generations.{joined_generations};
ghost use Rattle.feed_shared.specs.Turns.{PieceToken, piece_of, AreHeld, HasLapsed, newest_docs, past_of, history_of, stretch_of, counted};
ghost use Rattle.feed_shared.specs.declared.turn.Turn.{Turn};

use crate::piece::{Piece, copy_all};
use crate::trail::Trail;
use eb_base::{Gate, NoMemory};
use eb_count::Tally;
use eb_cursor::Frame;
use eb_engine::Reader;
use eb_place::Steps;
use std::alloc::Global;
use std::marker::Model;
use std::sync::ledger::Ledger;

/// A reader of a feed. There may be any number, each on a thread of its own. Contracts see which
/// feed it is of, the turns that it knows, the documents that it knows of the generation that the
/// last of them began, and how many generations it holds.
#[derive(Drop)]
pub struct FeedReader {
    trail: Trail,
    // The newest first.
    pieces: Vec<Piece>,
    // How many documents come before the newest generation.
    before: u64,
}

impl Model for FeedReader {
    ghost use Rattle.std.specs.Prelude.{◌≡◌, ◌≤◌, [], length, reverse};
    ghost use Rattle.feed_shared.specs.Turns.{FeedToken, AreHeld, newest_docs, history_of, counted};

    ghost Value = { FeedToken };

    ghost view = { λ r. record { book = r.trail.book; log = r.trail.log; docs = newest_docs r.pieces.items; held = length r.pieces.items } };

    ghost invariant = { λ r. (1 ≤ length r.pieces.items) × AreHeld r.pieces.items (newest_docs r.pieces.items) (reverse r.trail.log)
        × (r.before ≡ counted (history_of r.trail.log [])) };
}

impl FeedReader {
    pub(crate) fn new(trail: Trail, pieces: Vec<Piece>, before: u64) -> FeedReader
        requires some { 1 ≤ length pieces.items }
        requires held { AreHeld pieces.items (newest_docs pieces.items) (reverse trail.log) }
        requires before { before ≡ counted (history_of trail.log []) }
        ensures { result ≡ record { book = trail.book; log = trail.log; docs = newest_docs pieces.items; held = length pieces.items } }
    {
        FeedReader {
            trail,
            pieces,
            before,
        }
    }

    // What it knows of the turns, and a reader of the newest generation that knows what its own one
    // knows.
    pub(crate) fn into_newest(self) -> (Trail, Reader)
        ensures trail { result.0 ≡ record { book = self.book; log = self.log } }
        ensures docs { result.1.docs ≡ self.docs }
        ensures held { AreHeld (piece_of result.1 ∷ []) self.docs (reverse self.log) }
    {
        let FeedReader {
            trail,
            mut pieces,
            before: _,
        } = self;
        let newest = pieces[0].reader();
        (trail, newest)
    }

    /// A reader that knows and holds what this one knows and holds.
    pub fn split(&mut self, alloc: Global) -> Result<FeedReader, NoMemory>
        ensures this { self.new ≡ self.old }
        ensures reader { IfOk result (λ r. r ≡ self.old) }
    {
        let mut pieces = Vec::with_capacity(alloc, self.pieces.len())?;
        copy_all(self.pieces.as_mut_slice(), &mut pieces)?;
        Ok(FeedReader::new(self.trail.again(), pieces, self.before))
    }

    /// How many turns it knows.
    pub fn turns(&self) -> u64
        ensures { result ≡ length self.now.log }
    {
        self.trail.count()
    }

    /// How many generations it holds: the newest of those that it knows.
    pub fn held(&self) -> usize
        ensures { result ≡ self.now.held }
    {
        self.pieces.len()
    }

    /// Searches the generations that it holds: of the newest one the documents that are accepted
    /// when it loads their count, which is reported to the gate, and of the others all. Together
    /// they are a stretch of the feed's history that ends with a prefix of it, and this prefix has
    /// all documents that this reader knew. Afterwards the frame holds the ids of the newest `k` of
    /// them that its query matches, newest first. Returns the length of that prefix, at most 2^64 -
    /// 1. Doesn't wait, and takes no memory.
    pub fn search<G: Gate, L: Ledger>(
        &mut self,
        frame: &mut Frame,
        gate: &G,
        steps: &mut Steps<L>,
    ) -> u64
        ensures book { self.new.book ≡ self.old.book }
        ensures log { self.new.log ≡ self.old.log }
        ensures held { self.new.held ≡ self.old.held }
        ensures known { IsPrefix self.old.docs self.new.docs }
        ensures count { result ≡ counted (history_of self.new.log self.new.docs) }
        ensures query { query_of frame.new ≡ query_of frame.old }
        ensures k { k_of frame.new ≡ k_of frame.old }
        ensures ids { ids_of frame.new ≡ answer (query_of frame.old) (k_of frame.old) (stretch_of self.new.held self.new.log self.new.docs) }
    {
        let count = search_pieces(self.pieces.as_mut_slice(), frame, gate, steps);
        self.before.saturating_add(count)
    }

    /// Counts, in the tally, all matches among the documents that [`FeedReader::search`] would
    /// search: all in all, and in each of the tally's buckets, added to what the tally held; all
    /// are of one stretch. Returns the length of the prefix that the stretch ends with, at most
    /// 2^64 - 1. The frame stays as it is. Doesn't wait, and takes no memory.
    pub fn count<G: Gate, L: Ledger>(
        &mut self,
        frame: &mut Frame,
        tally: &mut Tally,
        gate: &G,
        steps: &mut Steps<L>,
    ) -> u64
        ensures book { self.new.book ≡ self.old.book }
        ensures log { self.new.log ≡ self.old.log }
        ensures held { self.new.held ≡ self.old.held }
        ensures known { IsPrefix self.old.docs self.new.docs }
        ensures count { result ≡ counted (history_of self.new.log self.new.docs) }
        ensures seen { SeenAs frame.old frame.new }
        ensures counts { HasCounted (query_of frame.old) (stretch_of self.new.held self.new.log self.new.docs) tally.old tally.new }
    {
        let count = count_pieces(self.pieces.as_mut_slice(), frame, tally, gate, steps);
        self.before.saturating_add(count)
    }

    /// Meets another reader of the feed, which is used up. Where that one knows as many turns or
    /// more, this one then holds what that one held, and knows what it knew; where it knows fewer,
    /// nothing changes. True where this reader still knows all that it knew. False only where the
    /// other one has dropped the generation that was this reader's newest, or where, after a turn,
    /// it knows fewer documents of that generation: then documents of that one may be forgotten.
    /// Where no turn is new, it forgets none of them. Doesn't wait, and takes no memory.
    pub fn meet(&mut self, mut other: FeedReader) -> bool
        requires { other.book ≡ self.old.book }
        ensures book { self.new.book ≡ self.old.book }
        ensures turns { IsPrefix self.old.log self.new.log }
        ensures told { IsPrefix other.log self.new.log }
        ensures known { IsTrue result → IsPrefix (history_of self.old.log self.old.docs) (history_of self.new.log self.new.docs) }
        ensures closed { IsPrefix (history_of self.old.log []) (history_of self.new.log self.new.docs) }
        ensures lapsed { IsFalse result → HasLapsed self.old self.new }
        ensures newest { self.new.log ≡ self.old.log → IsPrefix self.old.docs self.new.docs }
        ensures newer { IsPrefix self.old.log other.log
            → (self.new.log ≡ other.log) × (self.new.held ≡ other.held) × IsPrefix other.docs self.new.docs }
        ensures older { length other.log < length self.old.log → self.new ≡ self.old }
    {
        if !self.trail.is_front_of(&other.trail) {
            return true;
        }
        let met = self.pass_on(&mut other);
        *self = other;
        met
    }

    // The other reader learns what this one knows of its newest generation, if the other holds it.
    // False where it doesn't, or where the generation is closed for the other and this one knows
    // more of it.
    fn pass_on(&mut self, other: &mut FeedReader) -> bool
        requires book { other.old.book ≡ self.old.book }
        requires turns { IsPrefix self.old.log other.old.log }
        ensures this { self.new ≡ self.old }
        ensures book { other.new.book ≡ other.old.book }
        ensures log { other.new.log ≡ other.old.log }
        ensures held { other.new.held ≡ other.old.held }
        ensures docs { IsPrefix other.old.docs other.new.docs }
        ensures met { IsTrue result → IsPrefix (history_of self.old.log self.old.docs) (history_of other.new.log other.new.docs) }
        ensures lapsed { IsFalse result → HasLapsed self.old other.new }
        ensures newest { other.new.log ≡ self.old.log → IsPrefix self.old.docs other.new.docs }
    {
        let behind = other.trail.count() - self.trail.count();
        if behind >= other.pieces.len() as u64 {
            return false;
        }
        let newest = self.pieces[0].reader();
        take_in(other.pieces.as_mut_slice(), behind as usize, newest)
    }
}

// The piece at a place meets a reader of its index. The first piece may learn of more documents. A
// later one knows all, so the reader must know no more: false where it does.
fn take_in(pieces: &mut [Piece], at: usize, reader: Reader) -> bool
    requires place { at < length pieces.old }
    requires held { (docs : List Doc) × (ts : List Turn) × AreHeld pieces.old docs ts }
    requires index { (d : PieceToken) → reader.index ≡ (get_or pieces.old at d).index }
    ensures number { length pieces.new ≡ length pieces.old }
    ensures apart { IsFalse result → pieces.new ≡ pieces.old }
    ensures held { (docs : List Doc) (ts : List Turn) → AreHeld pieces.old docs ts → AreHeld pieces.new (newest_docs pieces.new) ts }
    ensures front { IsPrefix (newest_docs pieces.old) (newest_docs pieces.new) }
    ensures met { (d : PieceToken) → IsTrue result → IsPrefix reader.docs (get_or pieces.new at d).docs }
    ensures few { (d : PieceToken) → IsFalse result → length (get_or pieces.old at d).docs < length reader.docs }
    ensures newest { at ≡ 0 → IsTrue result }
{
    if at > 0 && reader.seen() > pieces[at].seen() {
        return false;
    }
    pieces[at].meet(reader);
    true
}

// The piece at a place meets a reader of its index that knows no more than it. False where the
// reader knows more.
pub(crate) fn covers(pieces: &mut [Piece], at: usize, reader: Reader) -> bool
    requires place { at < length pieces.old }
    requires index { (d : PieceToken) → reader.index ≡ (get_or pieces.old at d).index }
    ensures same { pieces.new ≡ pieces.old }
    ensures met { (d : PieceToken) → IsTrue result → IsPrefix reader.docs (get_or pieces.old at d).docs }
    ensures few { (d : PieceToken) → IsFalse result → length (get_or pieces.old at d).docs < length reader.docs }
{
    if reader.seen() > pieces[at].seen() {
        return false;
    }
    pieces[at].meet(reader);
    true
}

// Searches pieces from the newest to the oldest, and stops where the frame is full.
fn search_pieces<G: Gate, L: Ledger>(
    pieces: &mut [Piece],
    frame: &mut Frame,
    gate: &G,
    steps: &mut Steps<L>,
) -> u64
    requires some { 1 ≤ length pieces.old }
    requires held { (docs : List Doc) × (ts : List Turn) × AreHeld pieces.old docs ts }
    ensures number { length pieces.new ≡ length pieces.old }
    ensures held { (docs : List Doc) (ts : List Turn) → AreHeld pieces.old docs ts → AreHeld pieces.new (newest_docs pieces.new) ts }
    ensures known { IsPrefix (newest_docs pieces.old) (newest_docs pieces.new) }
    ensures count { result ≡ length (newest_docs pieces.new) }
    ensures query { query_of frame.new ≡ query_of frame.old }
    ensures k { k_of frame.new ≡ k_of frame.old }
    ensures ids { (docs : List Doc) (ts : List Turn) → AreHeld pieces.old docs ts
        → ids_of frame.new
        ≡ answer (query_of frame.old) (k_of frame.old) (joined_generations (take (length pieces.old) (past_of (newest_docs pieces.new) ts))) }
{
    let count = pieces[0].search(frame, gate, steps);
    search_older(pieces, frame, steps);
    count
}

// Searches the pieces after the newest one.
fn search_older<L: Ledger>(pieces: &mut [Piece], frame: &mut Frame, steps: &mut Steps<L>)
    requires some { 1 ≤ length pieces.old }
    ensures same { pieces.new ≡ pieces.old }
    ensures query { query_of frame.new ≡ query_of frame.old }
    ensures k { k_of frame.new ≡ k_of frame.old }
    ensures ids { (docs : List Doc) (ts : List Turn) → AreHeld pieces.old docs ts → ids_of frame.old ≡ answer (query_of frame.old) (k_of frame.old) docs
        → ids_of frame.new ≡ answer (query_of frame.old) (k_of frame.old) (joined_generations (take (length pieces.old) (past_of docs ts))) }
{
    for at in 1..pieces.len() {
        if frame.is_full() {
            return;
        }
        pieces[at].search_known(frame, steps);
    }
}

// Counts all matches of pieces in the tally, from the newest to the oldest, after what it holds.
fn count_pieces<G: Gate, L: Ledger>(
    pieces: &mut [Piece],
    frame: &mut Frame,
    tally: &mut Tally,
    gate: &G,
    steps: &mut Steps<L>,
) -> u64
    requires some { 1 ≤ length pieces.old }
    requires held { (docs : List Doc) × (ts : List Turn) × AreHeld pieces.old docs ts }
    ensures number { length pieces.new ≡ length pieces.old }
    ensures held { (docs : List Doc) (ts : List Turn) → AreHeld pieces.old docs ts → AreHeld pieces.new (newest_docs pieces.new) ts }
    ensures known { IsPrefix (newest_docs pieces.old) (newest_docs pieces.new) }
    ensures count { result ≡ length (newest_docs pieces.new) }
    ensures seen { SeenAs frame.old frame.new }
    ensures counts { (docs : List Doc) (ts : List Turn) → AreHeld pieces.old docs ts
        → HasCounted (query_of frame.old) (joined_generations (take (length pieces.old) (past_of (newest_docs pieces.new) ts))) tally.old tally.new }
{
    let count = pieces[0].count(frame, tally, gate, steps);
    count_older(pieces, frame, tally, steps);
    count
}

// Counts in the pieces after the newest one.
fn count_older<L: Ledger>(
    pieces: &mut [Piece],
    frame: &mut Frame,
    tally: &mut Tally,
    steps: &mut Steps<L>,
)
    requires some { 1 ≤ length pieces.old }
    ensures same { pieces.new ≡ pieces.old }
    ensures seen { SeenAs frame.old frame.new }
    ensures counts { (docs : List Doc) (ts : List Turn) (before : Numbers) → AreHeld pieces.old docs ts → HasCounted (query_of frame.old) docs before tally.old
        → HasCounted (query_of frame.old) (joined_generations (take (length pieces.old) (past_of docs ts))) before tally.new }
{
    for at in 1..pieces.len() {
        pieces[at].count_known(frame, tally, steps);
    }
}

// Counts in all pieces, after what the tally holds.
pub(crate) fn count_behind<L: Ledger>(
    pieces: &mut [Piece],
    frame: &mut Frame,
    tally: &mut Tally,
    steps: &mut Steps<L>,
)
    ensures same { pieces.new ≡ pieces.old }
    ensures seen { SeenAs frame.old frame.new }
    ensures counts { (docs : List Doc) (ts : List Turn) (newer : List Doc) (before : Numbers) → AreHeld pieces.old docs ts
        → HasCounted (query_of frame.old) newer before tally.old
        → HasCounted (query_of frame.old) (joined_generations (take (length pieces.old) (past_of docs ts)) ++ newer) before tally.new }
{
    for at in 0..pieces.len() {
        pieces[at].count_known(frame, tally, steps);
    }
}

// Searches all pieces; the ids come after what the frame holds. Stops where it is full.
pub(crate) fn search_behind<L: Ledger>(
    pieces: &mut [Piece],
    frame: &mut Frame,
    steps: &mut Steps<L>,
)
    ensures same { pieces.new ≡ pieces.old }
    ensures query { query_of frame.new ≡ query_of frame.old }
    ensures k { k_of frame.new ≡ k_of frame.old }
    ensures ids { (docs : List Doc) (ts : List Turn) → AreHeld pieces.old docs ts
        → ids_of frame.new ≡ ids_of frame.old
        ++ answer (query_of frame.old) (k_of frame.old - length (ids_of frame.old)) (joined_generations (take (length pieces.old) (past_of docs ts))) }
{
    for at in 0..pieces.len() {
        if frame.is_full() {
            return;
        }
        pieces[at].search_known(frame, steps);
    }
}
