//! A desk with its clerk, beside the writer of its feed.
ghost use Rattle.std.specs.Prelude.{◌≡◌, ◌+◌, ◌-◌, ◌^◌, ◌<◌, ◌≤◌, ◌++◌, ◌∷◌, [], length, min, take, MatchOption, IsTrue, OnOk, OnErr, ⊤};
ghost use mathlib.Core.List.{IsPrefix};
ghost use Rattle.eb_base.specs.Match.{answer};
ghost use Rattle.eb_count.specs.Tallies.{HasCounted};
ghost use Rattle.eb_cursor.specs.Frames.{query_of, k_of, ids_of};
ghost use Rattle.eb_feed.specs.Generations.{kept};
ghost use Rattle.eb_desk.specs.Desk.{with_put};
ghost use Rattle.feed_serve.specs.Feeds.{feed_name, IsReaderOf};
ghost use Rattle.feed_serve.specs.Jobs.{pair, known_to};
ghost use Rattle.eb_desk.specs.Rule.{IsAboveEach};
ghost use Rattle.feed_shared.specs.Turns.{counted, history_of, stretch_of};

use eb_base::{Document, Gate, NoMemory};
use eb_count::Tally;
use eb_cursor::Frame;
use eb_lines::{Form, Refusal, Tail};
use feed_serve::{Answer, Clerk, Desk, Job, stop_all};
use feed_shared::{FeedReader, FeedWriter};
use run_with_workers::{Office, Settled};
use std::sync::Wait;

// A clerk, with the writer of its feed.
#[derive(Drop)]
pub(crate) struct Side {
    pub(crate) clerk: Clerk,
    pub(crate) feed: FeedWriter,
}

// A desk with its clerk, who has put no stop yet, the feed's writer, and how what is printed is written.
#[derive(Drop)]
pub(crate) struct FeedOffice<'a> {
    pub(crate) desk: &'a Desk,
    pub(crate) clerk: Clerk,
    pub(crate) feed: FeedWriter,
    pub(crate) form: Form,
    ghost home: { clerk.queues ≡ desk.now.queues },
    ghost goes_on: { clerk.stops ≡ 0 },
}

impl FeedOffice<'_> {
    ghost use Rattle.feed_with_workers.specs.Offices.{docs_of, IsStaffed, IsAnswerAt, Keeps};

    // Adds a document after the others. `NoMemory` leaves all as it was.
    fn add<G: Gate>(&mut self, document: &Document, gate: &G) -> Result<(), NoMemory>
        requires staffed { IsStaffed self.old }
        ensures keeps { Keeps self.old self.new }
        ensures clerk { self.new.clerk ≡ self.old.clerk }
        ensures placed { OnOk result (docs_of self.new ≡ docs_of self.old ++ document.now ∷ []) }
        ensures err { OnErr result (self.new ≡ self.old) }
    {
        match self.feed.add(document, gate) {
            Ok(_) => Ok(()),
            Err(NoMemory) => Err(NoMemory),
        }
    }

    // Asks the query of a frame, under the number of its line, with a reader that knows all documents: the clerk puts this
    // job after the others. `NoMemory` leaves all as it was.
    fn put<R: Wait>(&mut self, rt: &R, number: u64, frame: Frame) -> Result<(), NoMemory>
        requires staffed { IsStaffed self.old }
        requires above { IsAboveEach number self.old.clerk.put }
        ensures keeps { Keeps self.old self.new }
        ensures feed { self.new.feed ≡ self.old.feed }
        ensures put { OnOk result (self.new.clerk ≡ with_put self.old.clerk (pair number (counted (docs_of self.old)) frame)) }
        ensures err { OnErr result (self.new ≡ self.old) }
    {
        let job = Job::new(number, frame, &mut self.feed)?;
        self.clerk.ask(rt, self.desk, job);
        Ok(())
    }

    // Waits for an answer.
    fn wait_for<R: Wait, G: Gate>(&mut self, rt: &R, gate: &G) -> Answer
        requires staffed { IsStaffed self.old }
        ensures keeps { Keeps self.old self.new }
        ensures feed { self.new.feed ≡ self.old.feed }
        ensures put { self.new.clerk.put ≡ self.old.clerk.put }
        ensures made { IsAnswerAt self.new result }
    {
        self.clerk.wait(rt, self.desk, &(), gate)
    }

    // Takes an answer where one is there.
    fn take_there(&mut self) -> Option<Answer>
        requires staffed { IsStaffed self.old }
        ensures keeps { Keeps self.old self.new }
        ensures feed { self.new.feed ≡ self.old.feed }
        ensures put { self.new.clerk.put ≡ self.old.clerk.put }
        ensures made { MatchOption result ⊤ (λ a. IsAnswerAt self.new a) }
    {
        self.clerk.take_answer(self.desk)
    }

    // Whether what the reader knew is a prefix of the history, and no generation was begun since.
    fn has_front(&mut self, reader: FeedReader) -> bool
        requires made { IsReaderOf (feed_name self.old.feed) reader }
        ensures same { self.new ≡ self.old }
        ensures turns { IsTrue result → length reader.log ≡ length self.old.feed.feed.log }
        ensures log { IsTrue result → IsPrefix reader.log self.old.feed.feed.log }
        ensures front { IsTrue result → IsPrefix (history_of reader.log reader.docs) (docs_of self.old) }
    {
        if reader.turns() != self.feed.turns() {
            return false;
        }
        self.feed.meet(reader)
    }

    // Sees that what an answer's reader knew is a prefix of the history; where a generation was begun since, the query is
    // answered again. Gives how many documents that front has: the frame's ids are the answer over what is kept of them.
    fn settle_front<G: Gate>(
        &mut self,
        frame: &mut Frame,
        reader: FeedReader,
        seen: u64,
        gate: &G,
    ) -> u64
        requires staffed { IsStaffed self.old }
        requires made { IsReaderOf (feed_name self.old.feed) reader }
        requires seen { seen ≡ known_to reader }
        requires found { ids_of frame.old ≡ answer (query_of frame.old) (k_of frame.old) (stretch_of reader.held reader.log reader.docs) }
        ensures same { self.new ≡ self.old }
        ensures query { query_of frame.new ≡ query_of frame.old }
        ensures k { k_of frame.new ≡ k_of frame.old }
        ensures within { length (docs_of self.old) < 2 ^ 64 - 1 → result ≤ length (docs_of self.old) }
        ensures ids { length (docs_of self.old) < 2 ^ 64 - 1
            → ids_of frame.new ≡ answer (query_of frame.old) (k_of frame.old) (kept self.old.feed.setting self.old.feed.keep (take result (docs_of self.old))) }
    {
        if self.has_front(reader) {
            return seen;
        }
        self.feed.search_unmetered(frame, gate)
    }

    // Counts, in the tally, all matches in what is kept, after what it holds, and gives how many documents the feed has taken.
    fn count_kept<G: Gate>(&mut self, frame: &mut Frame, tally: &mut Tally, gate: &G) -> u64
        ensures same { self.new ≡ self.old }
        ensures held { self.old.feed.feed.held ≡ min self.old.feed.keep (length self.old.feed.feed.log) }
        ensures count { result ≡ counted (docs_of self.old) }
        ensures counts { HasCounted (query_of frame.old) (stretch_of self.old.feed.feed.held self.old.feed.feed.log self.old.feed.feed.docs)
            tally.old tally.new }
    {
        self.feed.count_unmetered(frame, tally, gate)
    }

    // Puts a stop for each of the workers, and gives the clerk back.
    pub(crate) fn stop<R: Wait>(self, rt: &R, workers: u32) -> Clerk
        ensures { result.stops ≡ workers }
    {
        let FeedOffice { desk, clerk, .. } = self;
        let mut clerk = clerk;
        stop_all(rt, desk, &mut clerk, workers);
        clerk
    }
}

impl Office for FeedOffice<'_> {
    ghost use Rattle.feed_with_workers.specs.Offices.{HoldsFeed, IsAnswerAt};

    type Answer = Answer;

    ghost holds = { HoldsFeed };

    ghost asked = { λ o. o.clerk.put };

    ghost made = { IsAnswerAt };

    fn place<G: Gate>(
        &mut self,
        document: &Document,
        gate: &G,
    ) -> Result<Option<Refusal>, NoMemory> {
        self.add(document, gate)?;
        Ok(None)
    }

    fn ask<R: Wait>(&mut self, rt: &R, number: u64, frame: Frame) -> Result<(), NoMemory> {
        self.put(rt, number, frame)
    }

    fn take(&mut self) -> Option<Answer> {
        self.take_there()
    }

    fn wait<R: Wait, G: Gate>(&mut self, rt: &R, gate: &G) -> Answer {
        self.wait_for(rt, gate)
    }

    fn settle<G: Gate>(&mut self, answer: Answer, gate: &G) -> Settled {
        let number = answer.number();
        let seen = answer.seen();
        let (mut frame, reader) = answer.finish();
        let seen = self.settle_front(&mut frame, reader, seen, gate);
        Settled {
            number,
            seen,
            frame,
        }
    }

    fn count<G: Gate>(&mut self, frame: &mut Frame, tally: &mut Tally, gate: &G) -> u64 {
        tally.clear();
        self.count_kept(frame, tally, gate)
    }

    fn documents(&self) -> u64 {
        self.feed.accepted()
    }

    fn form(&self) -> Form {
        self.form
    }

    fn close(&mut self) -> Tail {
        Tail::Kept(self.feed.kept())
    }
}
