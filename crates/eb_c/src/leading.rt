//! What a handle of a feed leads to: its leader, or a follower.
ghost use Rattle.std.specs.Prelude.{◌≡◌, ◌<◌, ◌≤◌, [], true, false, is_some, IfOk, IfSome};
ghost use Rattle.std.specs.Bool.{MatchBool};
ghost use Rattle.eb_base.specs.Match.{answer as answer_of};
ghost use Rattle.eb_count.specs.Tallies.{HasCounted};
ghost use Rattle.eb_cursor.specs.Frames.{query_of, k_of, ids_of};
ghost use Rattle.eb_place.specs.Room.{has_room};
ghost use Rattle.feed_shared.specs.Turns.{FeedToken, history_of, stretch_of, counted, HasTaken, IsLetGo, IsOfNewest};
ghost use Rattle.eb_c.specs.Streaming.{Takes, Hears, Learns};

use eb_base::{Config, Document, NoMemory, OpenGate};
use eb_count::Tally;
use eb_cursor::Frame;
use feed_shared::{FeedConverter, FeedWriter, Follower, Leader, Released, Spare};
use std::alloc::Global;
use std::marker::{Brand, Model};

/// The leader of a feed. It has an allocation of its own, so that what a handle leads to is small.
#[derive(Drop)]
pub struct HeldLeader {
    leader: Box<Leader, Global>,
}

impl Model for HeldLeader {
    ghost use Rattle.feed_shared.specs.Turns.{WriterToken};

    ghost Value = { WriterToken };

    ghost view = { λ h. h.leader.value };
}

/// A follower of a feed, with how many documents it knows.
#[derive(Drop)]
pub struct HeldFollower {
    follower: Follower,
    seen: u64,
}

impl Model for HeldFollower {
    ghost use Rattle.std.specs.Prelude.{◌≡◌};
    ghost use Rattle.feed_shared.specs.Turns.{FeedToken, history_of, counted};

    ghost Value = { FeedToken };

    ghost view = { λ h. h.follower };

    ghost invariant = { λ h. h.seen ≡ counted (history_of h.follower.log h.follower.docs) };
}

impl HeldLeader {
    // The leader of a feed without a document.
    pub(crate) fn open(alloc: Global, config: Config, keep: u32) -> Result<HeldLeader, NoMemory>
        requires { (2 ≤ keep) × (keep ≤ 64) }
        ensures setting { IfOk result (λ w. (w.setting ≡ config) × (w.keep ≡ keep)) }
        ensures empty { IfOk result (λ w. HasTaken w []) }
    {
        let Ok(writer) = FeedWriter::open(alloc, config, keep) else {
            return Err(NoMemory);
        };
        let Ok(leader) = Box::new(alloc, Leader::new(alloc, writer)) else {
            return Err(NoMemory);
        };
        Ok(HeldLeader { leader })
    }

    // Adds a document. False only where another generation has to be begun and memory runs out for
    // it; all is then as before.
    pub(crate) fn add(&mut self, document: &Document) -> bool
        ensures taken { result ≡ true → Takes self.old self.new document.now }
        ensures no_memory { result ≡ false → (has_room self.old.setting self.old.feed.docs document.now ≡ false) × (self.new ≡ self.old) }
    {
        match self.leader.add(document, &OpenGate) {
            Ok(_) => true,
            Err(NoMemory) => false,
        }
    }

    // A follower that knows the whole history. `None` where memory runs out for it.
    pub(crate) fn follower(&mut self) -> Option<HeldFollower>
        ensures this { self.new ≡ self.old }
        ensures follower { IfSome result (λ f. f ≡ self.old.feed) }
    {
        let seen = self.leader.accepted();
        match self.leader.follower() {
            Ok(follower) => Some(HeldFollower { follower, seen }),
            Err(NoMemory) => None,
        }
    }

    // The converter of the newest generation, where it wasn't given out.
    pub(crate) fn converter(&mut self) -> Option<FeedConverter>
        ensures this { self.new ≡ self.old }
        ensures converter { IfSome result (λ c. IsOfNewest c.index self.old.feed.log) }
    {
        self.leader.converter()
    }

    // Takes an index for the next generation, and puts in its place the one that it had for it, if
    // it had one. False where there is no index of the feed's setting; all is then as before.
    pub(crate) fn exchange(&mut self, spare: &mut Option<Spare>) -> bool
        ensures this { self.new ≡ self.old }
        ensures taken { result ≡ true → IfSome spare.new (λ s. s.setting ≡ self.old.setting) }
        ensures fits { IfSome spare.old (λ s. MatchBool result (s.setting ≡ self.old.setting) (s.setting ≡ self.old.setting → ⊥)) }
        ensures unchanged { result ≡ false → spare.new ≡ spare.old }
    {
        let Some(lent) = spare else {
            return false;
        };
        if self.leader.config() != lent.config() {
            return false;
        }
        self.take_from(spare)
    }

    // Takes an index of the feed's setting, and puts in its place the one that it had. False where
    // there is none.
    fn take_from(&mut self, spare: &mut Option<Spare>) -> bool
        requires { IfSome spare.old (λ s. s.setting ≡ self.old.setting) }
        ensures this { self.new ≡ self.old }
        ensures taken { result ≡ true → IfSome spare.new (λ s. s.setting ≡ self.old.setting) }
        ensures some { result ≡ is_some spare.old }
        ensures unchanged { result ≡ false → spare.new ≡ spare.old }
    {
        match spare.take() {
            Some(lent) => {
                *spare = self.leader.lend(lent);
                true
            }
            None => false,
        }
    }

    // The generation that the last turn dropped, if that turn began a lent index, and the
    // generation wasn't taken.
    pub(crate) fn released(&mut self) -> Option<Released>
        ensures this { self.new ≡ self.old }
        ensures let_go { IfSome result (λ r. IsLetGo r self.old.keep self.old.feed.log) }
    {
        self.leader.released()
    }

    // Sends the newest turns to each follower. False where that failed for one.
    pub(crate) fn tell(&mut self) -> bool
        ensures { self.new ≡ self.old }
    {
        self.leader.tell()
    }
}

impl HeldFollower {
    // How many documents it knows.
    pub(crate) fn seen(&self) -> u64
        ensures { result ≡ counted (history_of self.now.log self.now.docs) }
    {
        self.seen
    }

    // How many generations it holds.
    pub(crate) fn held(&self) -> u64
        ensures { result ≡ self.now.held }
    {
        self.follower.held() as u64
    }

    // Takes in its news, searches the generations that it then holds, and returns how many
    // documents it knows.
    pub(crate) fn search(&mut self, frame: &mut Frame) -> u64
        ensures learned { (g : FeedToken) × Hears self.old g × Learns g self.new }
        ensures count { result ≡ counted (history_of self.new.log self.new.docs) }
        ensures ids { ids_of frame.new ≡ answer_of (query_of frame.old) (k_of frame.old) (stretch_of self.new.held self.new.log self.new.docs) }
    {
        let _met = self.follower.hear();
        self.seen = self.follower.search_unmetered(frame, &OpenGate);
        self.seen
    }

    // Takes in its news, counts the matches in the generations that it then holds, and returns how
    // many documents it knows.
    pub(crate) fn count(&mut self, frame: &mut Frame, tally: &mut Tally) -> u64
        ensures learned { (g : FeedToken) × Hears self.old g × Learns g self.new }
        ensures count { result ≡ counted (history_of self.new.log self.new.docs) }
        ensures counts { HasCounted (query_of frame.old) (stretch_of self.new.held self.new.log self.new.docs) tally.old tally.new }
    {
        let _met = self.follower.hear();
        self.seen = self.follower.count_unmetered(frame, tally, &OpenGate);
        self.seen
    }
}
