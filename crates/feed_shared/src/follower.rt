//! Followers: readers that get the news of turns, and the leader that sends it.
ghost use Rattle.std.specs.Prelude.{◌≡◌, ◌++◌, ◌∷◌, [], List, false, length, All, IsTrue, IsFalse, IfOk, IfSome, OnOk, OnErr};
ghost use mathlib.Core.List.{IsPrefix};
ghost use Rattle.eb_base.specs.Document.{Doc};
ghost use Rattle.eb_base.specs.Match.{answer};
ghost use Rattle.eb_count.specs.Tallies.{HasCounted};
ghost use Rattle.eb_cursor.specs.Frames.{query_of, k_of, ids_of, SeenAs};
ghost use Rattle.eb_place.specs.Room.{has_room};
ghost use Rattle.eb_feed.specs.Generations.{with_generation};
ghost use Rattle.feed_shared.specs.Turns.{generations_of, history_of, stretch_of, counted, HasLapsed, HasTaken, IsLetGo, IsOfNewest};

use crate::converter::FeedConverter;
use crate::mail::Slot;
use crate::reader::FeedReader;
use crate::released::Released;
use crate::spare::Spare;
use crate::writer::FeedWriter;
use eb_base::{Config, Document, Gate, NoMemory};
use eb_count::Tally;
use eb_cursor::Frame;
use eb_place::Steps;
use std::alloc::Global;
use std::marker::Model;
use std::sync::ledger::Ledger;

/// A reader of a feed that gets news where a generation was begun. It may go to a thread of its
/// own. Contracts see what its reader knows.
#[derive(Drop)]
pub struct Follower {
    pub(crate) reader: FeedReader,
    inbox: Slot,
}

impl Model for Follower {
    ghost use Rattle.std.specs.Prelude.{◌≡◌};
    ghost use Rattle.feed_shared.specs.Turns.{FeedToken};

    ghost Value = { FeedToken };

    ghost view = { λ f. f.reader };

    ghost invariant = { λ f. f.inbox ≡ f.reader.book };
}

impl Follower {
    /// Meets the newest reader in its mailbox, if there is one. True where it still knows all that
    /// it knew. False only where the generation that was its newest was dropped, or where, after a
    /// turn, it knows fewer documents of that generation: then documents of that one may be
    /// forgotten. Where no turn is new, it forgets none of them. Doesn't wait, and takes no memory.
    pub fn hear(&mut self) -> bool
        ensures book { self.new.book ≡ self.old.book }
        ensures turns { IsPrefix self.old.log self.new.log }
        ensures known { IsTrue result → IsPrefix (history_of self.old.log self.old.docs) (history_of self.new.log self.new.docs) }
        ensures closed { IsPrefix (history_of self.old.log []) (history_of self.new.log self.new.docs) }
        ensures lapsed { IsFalse result → HasLapsed self.old self.new }
        ensures newest { self.new.log ≡ self.old.log → IsPrefix self.old.docs self.new.docs }
    {
        match self.inbox.take() {
            Some(news) => self.reader.meet(news),
            None => true,
        }
    }

    /// Searches as [`FeedReader::search`].
    pub fn search<G: Gate, L: Ledger>(
        &mut self,
        frame: &mut Frame,
        gate: &G,
        steps: &mut Steps<L>,
    ) -> u64
        ensures book { self.new.book ≡ self.old.book }
        ensures log { self.new.log ≡ self.old.log }
        ensures held { self.new.held ≡ self.old.held }
        ensures known { IsPrefix self.old.docs self.new.docs }
        ensures count { result ≡ counted (history_of self.new.log self.new.docs) }
        ensures query { query_of frame.new ≡ query_of frame.old }
        ensures k { k_of frame.new ≡ k_of frame.old }
        ensures ids { ids_of frame.new ≡ answer (query_of frame.old) (k_of frame.old) (stretch_of self.new.held self.new.log self.new.docs) }
    {
        self.reader.search(frame, gate, steps)
    }

    /// Counts as [`FeedReader::count`].
    pub fn count<G: Gate, L: Ledger>(
        &mut self,
        frame: &mut Frame,
        tally: &mut Tally,
        gate: &G,
        steps: &mut Steps<L>,
    ) -> u64
        ensures book { self.new.book ≡ self.old.book }
        ensures log { self.new.log ≡ self.old.log }
        ensures held { self.new.held ≡ self.old.held }
        ensures known { IsPrefix self.old.docs self.new.docs }
        ensures count { result ≡ counted (history_of self.new.log self.new.docs) }
        ensures seen { SeenAs frame.old frame.new }
        ensures counts { HasCounted (query_of frame.old) (stretch_of self.new.held self.new.log self.new.docs) tally.old tally.new }
    {
        self.reader.count(frame, tally, gate, steps)
    }

    /// How many turns it knows.
    pub fn turns(&self) -> u64
        ensures { result ≡ length self.now.log }
    {
        self.reader.turns()
    }

    /// How many generations it holds: the newest of those that it knows.
    pub fn held(&self) -> usize
        ensures { result ≡ self.now.held }
    {
        self.reader.held()
    }

    /// Its reader, which gets no more news of turns.
    pub fn into_reader(self) -> FeedReader
        ensures { result ≡ self }
    {
        let Follower { reader, inbox: _ } = self;
        reader
    }
}

/// The writer of a feed, with its followers. Contracts see what its writer has.
#[derive(Drop)]
pub struct Leader {
    alloc: Global,
    writer: FeedWriter,
    outboxes: Vec<Slot>,
    // How many turns all followers have news of.
    told: u64,
}

impl Model for Leader {
    ghost use Rattle.std.specs.Prelude.{◌≡◌, All};
    ghost use Rattle.feed_shared.specs.Turns.{WriterToken};

    ghost Value = { WriterToken };

    ghost view = { λ l. l.writer };

    ghost invariant = { λ l. All (λ s. s ≡ l.writer.feed.book) l.outboxes.items };
}

impl Leader {
    /// A leader without a follower.
    pub fn new(alloc: Global, writer: FeedWriter) -> Leader
        ensures { result ≡ writer }
    {
        Leader {
            alloc,
            writer,
            outboxes: Vec::new(alloc),
            told: 0,
        }
    }

    /// One more follower, which knows all.
    pub fn follower(&mut self) -> Result<Follower, NoMemory>
        ensures this { self.new ≡ self.old }
        ensures follower { IfOk result (λ f. f ≡ self.old.feed) }
    {
        let reader = self.writer.reader()?;
        let (outbox, inbox) = Slot::open(self.alloc, &reader)?;
        self.outboxes.push(outbox)?;
        Ok(Follower { reader, inbox })
    }

    /// Adds as [`FeedWriter::add`], and sends news to the followers where a generation was begun.
    /// Doesn't wait.
    pub fn add<G: Gate>(&mut self, document: &Document, gate: &G) -> Result<u64, NoMemory>
        ensures setting { (self.new.setting ≡ self.old.setting) × (self.new.keep ≡ self.old.keep) × (self.new.feed.book ≡ self.old.feed.book) }
        ensures turns { IsPrefix self.old.feed.log self.new.feed.log }
        ensures taken { OnOk result (generations_of self.new.feed.log self.new.feed.docs
            ≡ with_generation self.old.setting (generations_of self.old.feed.log self.old.feed.docs) document.now) }
        ensures history { (history : List Doc) → HasTaken self.old history → OnOk result (HasTaken self.new (history ++ document.now ∷ [])) }
        ensures count { IfOk result (λ n. n ≡ counted (history_of self.new.feed.log self.new.feed.docs)) }
        ensures no_memory { OnErr result ((has_room self.old.setting self.old.feed.docs document.now ≡ false) × (self.new ≡ self.old)) }
    {
        let count = self.writer.add(document, gate)?;
        self.tell();
        Ok(count)
    }

    /// Searches as [`FeedWriter::search`].
    pub fn search<G: Gate, L: Ledger>(
        &mut self,
        frame: &mut Frame,
        gate: &G,
        steps: &mut Steps<L>,
    ) -> u64
        ensures this { self.new ≡ self.old }
        ensures count { result ≡ counted (history_of self.new.feed.log self.new.feed.docs) }
        ensures query { query_of frame.new ≡ query_of frame.old }
        ensures k { k_of frame.new ≡ k_of frame.old }
        ensures ids { ids_of frame.new
            ≡ answer (query_of frame.old) (k_of frame.old) (stretch_of self.new.feed.held self.new.feed.log self.new.feed.docs) }
    {
        self.writer.search(frame, gate, steps)
    }

    /// Lends the index of the next generation, as [`FeedWriter::lend`].
    pub fn lend(&mut self, spare: Spare) -> Option<Spare>
        requires { spare.setting ≡ self.old.setting }
        ensures this { self.new ≡ self.old }
        ensures back { IfSome result (λ s. s.setting ≡ self.old.setting) }
    {
        self.writer.lend(spare)
    }

    /// The generation that the last turn dropped, as [`FeedWriter::released`].
    pub fn released(&mut self) -> Option<Released>
        ensures this { self.new ≡ self.old }
        ensures let_go { IfSome result (λ r. IsLetGo r self.old.keep self.old.feed.log) }
    {
        self.writer.released()
    }

    /// The setting of each generation.
    pub fn config(&self) -> Config
        ensures { result ≡ self.now.setting }
    {
        self.writer.config()
    }

    /// The converter of the newest generation, as [`FeedWriter::converter`].
    pub fn converter(&mut self) -> Option<FeedConverter>
        ensures this { self.new ≡ self.old }
        ensures converter { IfSome result (λ c. IsOfNewest c.index self.old.feed.log) }
    {
        self.writer.converter()
    }

    /// How many documents are in the history.
    pub fn accepted(&self) -> u64
        ensures { result ≡ counted (history_of self.now.feed.log self.now.feed.docs) }
    {
        self.writer.accepted()
    }

    /// How many generations were begun.
    pub fn turns(&self) -> u64
        ensures { result ≡ length self.now.feed.log }
    {
        self.writer.turns()
    }

    /// Meets a reader, as [`FeedWriter::meet`].
    pub fn meet(&mut self, reader: FeedReader) -> bool
        requires { reader.book ≡ self.old.feed.book }
        ensures this { self.new ≡ self.old }
        ensures turns { IsTrue result → IsPrefix reader.log self.new.feed.log }
        ensures front { IsTrue result → IsPrefix (history_of reader.log reader.docs) (history_of self.new.feed.log self.new.feed.docs) }
        ensures lapsed { IsFalse result → HasLapsed reader self.new.feed }
    {
        self.writer.meet(reader)
    }

    /// Sends the newest turns to the followers, unless all have them. False where that failed for
    /// one: memory ran out, or the follower was just at its mailbox.
    pub fn tell(&mut self) -> bool
        ensures { self.new ≡ self.old }
    {
        let turns = self.writer.turns();
        if self.told == turns {
            return true;
        }
        let all = tell_all(self.outboxes.as_mut_slice(), &mut self.writer);
        if all {
            self.told = turns;
        }
        all
    }
}

// Puts a reader into each mailbox. False where one couldn't be put.
fn tell_all(outboxes: &mut [Slot], writer: &mut FeedWriter) -> bool
    requires { All (λ s. s ≡ writer.old.feed.book) outboxes.old }
    ensures outboxes { outboxes.new ≡ outboxes.old }
    ensures writer { writer.new ≡ writer.old }
{
    let mut all = true;
    for at in 0..outboxes.len() {
        all = match writer.reader() {
            Ok(news) => put_newest(&mut outboxes[at], news) && all,
            Err(NoMemory) => false,
        };
    }
    all
}

// Puts a reader, in place of one that wasn't taken.
fn put_newest(outbox: &mut Slot, news: FeedReader) -> bool
    requires { news.book ≡ outbox.old }
    ensures { outbox.new ≡ outbox.old }
{
    match outbox.put(news) {
        Ok(()) => true,
        Err(news) => {
            outbox.take();
            outbox.put(news).is_ok()
        }
    }
}
