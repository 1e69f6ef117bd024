//! The writer of a feed.
ghost use Rattle.std.specs.Prelude.{◌≡◌, ◌≤◌, ◌<◌, ◌+◌, ◌++◌, ◌∷◌, [], List, false, take, get_or, length, min, vec_len, vec_capacity};
ghost use Rattle.std.specs.Prelude.{IsTrue, IsFalse, IfOk, IfSome, OnOk, OnErr, MatchOption};
ghost use mathlib.Core.List.{IsPrefix};
ghost use Rattle.eb_base.specs.Document.{Doc};
ghost use Rattle.eb_base.specs.Match.{answer};
ghost use Rattle.eb_count.specs.Tallies.{HasCounted};
ghost use Rattle.eb_cursor.specs.Frames.{query_of, k_of, ids_of, SeenAs};
ghost use Rattle.eb_place.specs.Room.{has_room};
ghost use Rattle.eb_feed.specs.Generations.{with_generation, joined_generations};
ghost use Rattle.feed_shared.specs.Turns.{generations_of, past_of, history_of, stretch_of, counted, AreHeld, HasLapsed, HasTaken};
ghost use Rattle.feed_shared.specs.Turns.{IsBegun, IsLetGo, IsOfNewest};
ghost use Rattle.feed_shared.specs.declared.turn.Turn.{Turn};

use crate::converter::FeedConverter;
use crate::piece::{Piece, copy_all};
use crate::reader::{FeedReader, count_behind, covers, search_behind};
use crate::released::Released;
use crate::spare::Spare;
use crate::trail::{Head, Trail};
use crate::turn::Pair;
use eb_base::{Config, Document, Gate, NoMemory};
use eb_count::Tally;
use eb_cursor::Frame;
use eb_engine::{Index, Writer};
use eb_place::Steps;
use eb_writer::Full;
use std::alloc::Global;
use std::marker::Model;
use std::sync::Arc;
use std::sync::ledger::Ledger;

/// The one writer of a feed. It may go to a thread of its own. Contracts see its setting, and what
/// a reader that knows all sees.
#[derive(Drop)]
pub struct FeedWriter {
    alloc: Global,
    config: Config,
    keep: u32,
    head: Head,
    trail: Trail,
    index: Arc<Index, Global>,
    writer: Writer,
    // The generations that are closed and kept, the newest first.
    older: Vec<Piece>,
    // How many documents come before the newest generation.
    before: u64,
    // The index of the next generation, where one was lent.
    spare: Option<Spare>,
    // The generation that the last turn dropped, where the turn began a lent index, until it is
    // taken.
    released: Option<Released>,
    // The converter of the newest generation, until it is given out.
    converter: Option<FeedConverter>,
}

impl Model for FeedWriter {
    ghost use Rattle.std.specs.Prelude.{◌≡◌, ◌≤◌, ◌∷◌, [], suc, min, length, reverse, IfSome};
    ghost use Rattle.std.specs.Arc.{arc_value};
    ghost use Rattle.feed_shared.specs.Turns.{FeedToken, WriterToken, piece_of, AreHeld, IsLetGo, IsOfNewest, history_of, counted};

    ghost Value = { WriterToken };

    ghost view = { λ w. record {
      setting = w.config;
      keep = w.keep;
      feed = record { book = w.trail.book; log = w.trail.log; docs = w.writer.docs; held = suc (length w.older.items) };
    } };

    ghost invariant = { λ w. (2 ≤ w.keep) × (w.head ≡ w.trail.book) × (w.writer.index ≡ arc_value w.index) × (w.writer.index.setting ≡ w.config)
        × AreHeld (piece_of w.writer ∷ w.older.items) w.writer.docs (reverse w.trail.log) × (suc (length w.older.items) ≡ min w.keep (length w.trail.log))
        × (w.before ≡ counted (history_of w.trail.log [])) × IfSome w.spare (λ s. s.setting ≡ w.config)
        × IfSome w.converter (λ c. IsOfNewest c.index w.trail.log) × IfSome w.released (λ r. IsLetGo r w.keep w.trail.log) };
}

impl FeedWriter {
    /// A feed without a document, which keeps `keep` generations of an index of this setting. Takes
    /// memory for one index.
    pub fn open(alloc: Global, config: Config, keep: u32) -> Result<FeedWriter, NoMemory>
        requires { (2 ≤ keep) × (keep ≤ 64) }
        ensures setting { IfOk result (λ w. (w.setting ≡ config) × (w.keep ≡ keep)) }
        ensures empty { IfOk result (λ w. generations_of w.feed.log w.feed.docs ≡ [] ∷ []) }
    {
        let (index, mut writer, converter) = Spare::open(alloc, config)?.into_parts();
        let older = Vec::with_capacity(alloc, keep as usize)?;
        let (head, mut trail) = Trail::open();
        let pair = Pair {
            begun: writer.reader(&index),
            closed: writer.reader(&index),
        };
        if !trail.begin(&head, &pair) {
            return Err(NoMemory);
        }
        Ok(FeedWriter {
            alloc,
            config,
            keep,
            head,
            trail,
            index,
            writer,
            older,
            before: 0,
            spare: None,
            released: None,
            converter: Some(converter),
        })
    }

    /// Adds a document after the history. Where the newest generation has no room for it, the
    /// writer begins another, in the index that was lent or in one for which it takes memory, and
    /// drops the oldest if it holds as many as it keeps. Returns how many documents are in the
    /// history then. `NoMemory` only where another generation has to be begun and memory runs out:
    /// nothing changes then. The number of documents of the newest generation is reported to the
    /// gate. Doesn't wait.
    pub fn add<G: Gate>(&mut self, document: &Document, gate: &G) -> Result<u64, NoMemory>
        ensures setting { (self.new.setting ≡ self.old.setting) × (self.new.keep ≡ self.old.keep) × (self.new.feed.book ≡ self.old.feed.book) }
        ensures turns { IsPrefix self.old.feed.log self.new.feed.log }
        ensures taken { OnOk result (generations_of self.new.feed.log self.new.feed.docs
            ≡ with_generation self.old.setting (generations_of self.old.feed.log self.old.feed.docs) document.now) }
        ensures history { (history : List Doc) → HasTaken self.old history → OnOk result (HasTaken self.new (history ++ document.now ∷ [])) }
        ensures count { IfOk result (λ n. n ≡ counted (history_of self.new.feed.log self.new.feed.docs)) }
        ensures no_memory { OnErr result ((has_room self.old.setting self.old.feed.docs document.now ≡ false) × (self.new ≡ self.old)) }
    {
        // This call shows that the setting is allowed.
        let _words = self.config.words();
        match self.add_here_or_behind(document, gate) {
            Ok(()) => Ok(self.accepted()),
            Err(NoMemory) => Err(NoMemory),
        }
    }

    // Adds a document to the newest generation, or to a new one.
    fn add_here_or_behind<G: Gate>(&mut self, document: &Document, gate: &G) -> Result<(), NoMemory>
        ensures setting { (self.new.setting ≡ self.old.setting) × (self.new.keep ≡ self.old.keep) × (self.new.feed.book ≡ self.old.feed.book) }
        ensures turns { IsPrefix self.old.feed.log self.new.feed.log }
        ensures taken { OnOk result (generations_of self.new.feed.log self.new.feed.docs
            ≡ with_generation self.old.setting (generations_of self.old.feed.log self.old.feed.docs) document.now) }
        ensures no_memory { OnErr result ((has_room self.old.setting self.old.feed.docs document.now ≡ false) × (self.new ≡ self.old)) }
    {
        match self.writer.add(&self.index, document, gate) {
            Ok(_) => Ok(()),
            Err(Full) => self.add_behind(document, gate),
        }
    }

    // Adds a document to a new generation.
    fn add_behind<G: Gate>(&mut self, document: &Document, gate: &G) -> Result<(), NoMemory>
        ensures setting { (self.new.setting ≡ self.old.setting) × (self.new.keep ≡ self.old.keep) × (self.new.feed.book ≡ self.old.feed.book) }
        ensures turns { IsPrefix self.old.feed.log self.new.feed.log }
        ensures taken { OnOk result (generations_of self.new.feed.log self.new.feed.docs
            ≡ (document.now ∷ []) ∷ generations_of self.old.feed.log self.old.feed.docs) }
        ensures unchanged { OnErr result (self.new ≡ self.old) }
    {
        // This call shows that the setting is allowed.
        let _words = self.config.words();
        self.turn()?;
        match self.writer.add(&self.index, document, gate) {
            Ok(_) => Ok(()),
            Err(Full) => unreachable!(),
        }
    }

    // Begins another generation.
    fn turn(&mut self) -> Result<(), NoMemory>
        ensures begun { OnOk result (IsBegun self.old self.new) }
        ensures unchanged { OnErr result (self.new ≡ self.old) }
    {
        let lent = self.spare.is_some();
        let spare = self.next_index()?;
        self.turn_to(spare)?;
        if !lent {
            self.released = None;
        }
        Ok(())
    }

    // Begins another generation in this index, and sets aside the one that is dropped.
    fn turn_to(&mut self, spare: Spare) -> Result<(), NoMemory>
        requires { spare.setting ≡ self.old.setting }
        ensures begun { OnOk result (IsBegun self.old self.new) }
        ensures unchanged { OnErr result (self.new ≡ self.old) }
    {
        self.older.reserve(1)?;
        let (index, mut writer, converter) = spare.into_parts();
        let pair = Pair {
            begun: writer.reader(&index),
            closed: self.writer.reader(&self.index),
        };
        let mut trail = self.trail.again();
        if !trail.begin(&self.head, &pair) {
            return Err(NoMemory);
        }
        let Pair { begun: _, closed } = pair;
        self.before = self.before.saturating_add(closed.seen());
        let index = std::mem::replace(&mut self.index, index);
        let most = self.keep as usize - 2;
        self.released = put_first(&mut self.older, most, Piece::new(index, closed));
        self.writer = writer;
        self.trail = trail;
        self.converter = Some(converter);
        Ok(())
    }

    // The index that was lent, or one that is opened now.
    fn next_index(&mut self) -> Result<Spare, NoMemory>
        ensures this { self.new ≡ self.old }
        ensures index { IfOk result (λ s. s.setting ≡ self.old.setting) }
    {
        match self.spare.take() {
            Some(spare) => Ok(spare),
            None => Spare::open(self.alloc, self.config),
        }
    }

    /// Lends the index of the next generation, so that the turn doesn't have to open one, and
    /// returns the one that was lent before and isn't taken yet. So it may be called before each
    /// add. Where nothing comes back, another index has to be opened, on a thread of its own. Takes
    /// no memory.
    pub fn lend(&mut self, spare: Spare) -> Option<Spare>
        requires { spare.setting ≡ self.old.setting }
        ensures this { self.new ≡ self.old }
        ensures back { IfSome result (λ s. s.setting ≡ self.old.setting) }
    {
        self.spare.replace(spare)
    }

    /// The generation that the last turn dropped, if that turn began a lent index and the
    /// generation wasn't taken yet. So the add of the turn gives no memory back: whoever drops the
    /// generation does, on any thread, unless a reader or its converter still holds it. Where
    /// nobody takes it, the next turn drops it, so at most one is held beyond those that are kept.
    /// A turn that opens an index itself drops the oldest at once. Takes no memory and gives none
    /// back.
    pub fn released(&mut self) -> Option<Released>
        ensures this { self.new ≡ self.old }
        ensures let_go { IfSome result (λ r. IsLetGo r self.old.keep self.old.feed.log) }
    {
        self.released.take()
    }

    /// The setting of each generation.
    pub fn config(&self) -> Config
        ensures { result ≡ self.now.setting }
    {
        self.config
    }

    /// The converter of the newest generation, if it wasn't given out since the turn. Where nobody
    /// asks for it, the generation's segments stay unpacked. Takes no memory.
    pub fn converter(&mut self) -> Option<FeedConverter>
        ensures this { self.new ≡ self.old }
        ensures converter { IfSome result (λ c. IsOfNewest c.index self.old.feed.log) }
    {
        self.converter.take()
    }

    /// A reader that knows all, and holds all that the writer holds.
    pub fn reader(&mut self) -> Result<FeedReader, NoMemory>
        ensures this { self.new ≡ self.old }
        ensures reader { IfOk result (λ r. r ≡ self.old.feed) }
        ensures held { IfOk result (λ r. r.held ≡ min self.old.keep (length r.log)) }
    {
        let mut pieces = Vec::with_capacity(self.alloc, self.older.len() + 1)?;
        let index = Arc::try_clone(&self.index)?;
        pieces.push(Piece::new(index, self.writer.reader(&self.index)))?;
        copy_all(self.older.as_mut_slice(), &mut pieces)?;
        Ok(FeedReader::new(self.trail.again(), pieces, self.before))
    }

    /// Meets a reader, which is used up. True where all that it knew is a prefix of the history.
    /// False only where the writer has dropped the generation that was the reader's newest, or
    /// knows fewer of its documents, or fewer turns. Takes no memory.
    pub fn meet(&mut self, reader: FeedReader) -> bool
        requires { reader.book ≡ self.old.feed.book }
        ensures this { self.new ≡ self.old }
        ensures turns { IsTrue result → IsPrefix reader.log self.new.feed.log }
        ensures front { IsTrue result → IsPrefix (history_of reader.log reader.docs) (history_of self.new.feed.log self.new.feed.docs) }
        ensures lapsed { IsFalse result → HasLapsed reader self.new.feed }
    {
        let (trail, newest) = reader.into_newest();
        if !trail.is_front_of(&self.trail) {
            return false;
        }
        let behind = self.trail.count() - trail.count();
        if behind == 0 {
            self.writer.meet(&self.index, newest);
            return true;
        }
        if behind > self.older.len() as u64 {
            return false;
        }
        covers(self.older.as_mut_slice(), behind as usize - 1, newest)
    }

    /// Searches the generations that it holds, of which it knows all. Since no document is added
    /// meanwhile, the answer is over all that a reader made now can find. Returns how many
    /// documents are in the history. Takes no memory.
    pub fn search<G: Gate, L: Ledger>(
        &mut self,
        frame: &mut Frame,
        gate: &G,
        steps: &mut Steps<L>,
    ) -> u64
        ensures this { self.new ≡ self.old }
        ensures held { self.new.feed.held ≡ min self.new.keep (length self.new.feed.log) }
        ensures count { result ≡ counted (history_of self.new.feed.log self.new.feed.docs) }
        ensures query { query_of frame.new ≡ query_of frame.old }
        ensures k { k_of frame.new ≡ k_of frame.old }
        ensures ids { ids_of frame.new
            ≡ answer (query_of frame.old) (k_of frame.old) (stretch_of self.new.feed.held self.new.feed.log self.new.feed.docs) }
    {
        let count = self.writer.search(&self.index, frame, gate, steps);
        search_behind(self.older.as_mut_slice(), frame, steps);
        self.before.saturating_add(count)
    }

    /// Counts, in the tally, all matches among the documents that [`FeedWriter::search`] would
    /// search: all in all, and in each of the tally's buckets, added to what the tally held.
    /// Returns how many documents are in the history. The frame stays as it is. Takes no memory.
    pub fn count<G: Gate, L: Ledger>(
        &mut self,
        frame: &mut Frame,
        tally: &mut Tally,
        gate: &G,
        steps: &mut Steps<L>,
    ) -> u64
        ensures this { self.new ≡ self.old }
        ensures held { self.new.feed.held ≡ min self.new.keep (length self.new.feed.log) }
        ensures count { result ≡ counted (history_of self.new.feed.log self.new.feed.docs) }
        ensures seen { SeenAs frame.old frame.new }
        ensures counts { HasCounted (query_of frame.old) (stretch_of self.new.feed.held self.new.feed.log self.new.feed.docs) tally.old tally.new }
    {
        let newest = self.writer.count(&self.index, frame, tally, gate, steps);
        count_behind(self.older.as_mut_slice(), frame, tally, steps);
        self.before.saturating_add(newest)
    }

    /// How many documents are in the history.
    pub fn accepted(&self) -> u64
        ensures { result ≡ counted (history_of self.now.feed.log self.now.feed.docs) }
    {
        self.before.saturating_add(self.writer.accepted())
    }

    /// How many documents are in the generations that it holds, which are the newest, as many as it
    /// keeps, or all.
    pub fn kept(&self) -> u64
        ensures kept { result ≡ counted (stretch_of self.now.feed.held self.now.feed.log self.now.feed.docs) }
        ensures held { self.now.feed.held ≡ min self.now.keep (length self.now.feed.log) }
    {
        let newest = self.writer.accepted();
        newest.saturating_add(seen_in(self.older.as_slice()))
    }

    /// How many generations were begun.
    pub fn turns(&self) -> u64
        ensures { result ≡ length self.now.feed.log }
    {
        self.trail.count()
    }
}

// How many documents pieces know together, as far as a number of 64 bits goes.
fn seen_in(pieces: &[Piece]) -> u64
    ensures { (docs : List Doc) (ts : List Turn) → AreHeld pieces.now docs ts
        → result ≡ counted (joined_generations (take (length pieces.now) (past_of docs ts))) }
{
    let mut count = 0u64;
    for at in 0..pieces.len() {
        count = count.saturating_add(pieces[at].seen());
    }
    count
}

// Puts a piece first, and keeps this many of the others. Returns the one that is dropped, if there
// were more.
fn put_first(older: &mut Vec<Piece>, most: usize, piece: Piece) -> Option<Released>
    requires room { vec_len older.old < vec_capacity older.old }
    requires few { vec_len older.old ≤ most + 1 }
    ensures older { older.new.items ≡ piece ∷ take most older.old.items }
    ensures let_go { MatchOption result (vec_len older.old ≤ most) (λ p. (most < vec_len older.old) × (p ≡ get_or older.old.items most p)) }
{
    let last = last_behind(older, most);
    older.push_reserved(piece);
    older.as_mut_slice().rotate_right(1);
    last
}

// Removes the last piece, where there are more than this many.
fn last_behind(pieces: &mut Vec<Piece>, most: usize) -> Option<Released>
    requires { vec_len pieces.old ≤ most + 1 }
    ensures capacity { vec_capacity pieces.new ≡ vec_capacity pieces.old }
    ensures kept { pieces.new.items ≡ take most pieces.old.items }
    ensures last { MatchOption result (vec_len pieces.old ≤ most) (λ p. (most < vec_len pieces.old) × (p ≡ get_or pieces.old.items most p)) }
{
    if pieces.len() <= most {
        return None;
    }
    match pieces.pop() {
        Some(last) => Some(Released::new(last)),
        None => None,
    }
}
