//! A desk with its clerk, beside the writer and the converter of its index.
ghost use Rattle.std.specs.Prelude.{◌≡◌, ◌+◌, ◌<◌, length, max, MatchOption, ⊤};
ghost use Rattle.eb_base.specs.Match.{answer};
ghost use Rattle.eb_cursor.specs.Frames.{query_of, k_of, ids_of};
ghost use Rattle.eb_count.specs.Tallies.{HasCounted};
ghost use mathlib.Core.List.{IsPrefix};
ghost use Rattle.eb_place.specs.Room.{cut};
ghost use Rattle.run_index.specs.Conversions.{most_converted};
ghost use Rattle.eb_desk.specs.Desk.{with_put};
ghost use Rattle.eb_serve.specs.Jobs.{pair};
ghost use Rattle.eb_desk.specs.Rule.{IsAboveEach};

use crate::office::{Office, Settled};
use eb_base::{Document, Gate, NoMemory};
use eb_count::Tally;
use eb_cursor::Frame;
use eb_engine::{Converter, Index, Reader, Writer};
use eb_lines::{Form, Refusal, Tail};
use eb_serve::{Answer, Clerk, Desk, Job, stop_all};
use eb_writer::Full;
use run_index::{SegmentCounts, catch_up, close, tell_segments};
use std::sync::Wait;

// A clerk, with the writer and the converter of its index.
#[derive(Drop)]
pub(crate) struct Side {
    pub(crate) clerk: Clerk,
    pub(crate) writer: Writer,
    pub(crate) converter: Converter,
}

// A desk with its clerk, who has put no stop yet, the index, its writer and its converter, and how what is printed is written.
#[derive(Drop)]
pub(crate) struct IndexOffice<'a> {
    pub(crate) desk: &'a Desk,
    pub(crate) index: &'a Index,
    pub(crate) clerk: Clerk,
    pub(crate) writer: Writer,
    pub(crate) converter: Converter,
    pub(crate) form: Form,
    ghost home: { clerk.queues ≡ desk.now.queues },
    ghost goes_on: { clerk.stops ≡ 0 },
}

impl IndexOffice<'_> {
    ghost use Rattle.run_with_workers.specs.IndexOffices.{IsStaffed, IsAnswerAt, Keeps, WithPlaced};

    // Adds a document after the others, and converts the segment that it closed. False exactly where there is no room for
    // it. Takes no memory.
    fn add<G: Gate>(&mut self, document: &Document, gate: &G) -> bool
        requires staffed { IsStaffed self.old }
        ensures keeps { Keeps self.old self.new }
        ensures clerk { self.new.clerk ≡ self.old.clerk }
        ensures placed { WithPlaced self.old self.new document.now result }
    {
        match self.writer.add(self.index, document, gate) {
            Ok(_) => {
                catch_up(self.index, &mut self.writer, &mut self.converter);
                true
            }
            Err(Full) => false,
        }
    }

    // Asks the query of a frame, under the number of its line, with a reader that knows all documents: the clerk puts this
    // job after the others.
    fn put<R: Wait>(&mut self, rt: &R, number: u64, frame: Frame)
        requires staffed { IsStaffed self.old }
        requires above { IsAboveEach number self.old.clerk.put }
        ensures keeps { Keeps self.old self.new }
        ensures writer { self.new.writer ≡ self.old.writer }
        ensures put { self.new.clerk ≡ with_put self.old.clerk (pair number (length self.old.writer.docs) frame) }
    {
        let reader = self.writer.reader(self.index);
        self.clerk
            .ask(rt, self.desk, Job::new(number, frame, reader));
    }

    // Waits for an answer.
    fn wait_for<R: Wait, G: Gate>(&mut self, rt: &R, gate: &G) -> Answer
        requires staffed { IsStaffed self.old }
        ensures keeps { Keeps self.old self.new }
        ensures writer { self.new.writer ≡ self.old.writer }
        ensures put { self.new.clerk.put ≡ self.old.clerk.put }
        ensures made { IsAnswerAt self.new result }
    {
        self.clerk.wait(rt, self.desk, self.index, gate)
    }

    // Takes an answer where one is there.
    fn take_there(&mut self) -> Option<Answer>
        requires staffed { IsStaffed self.old }
        ensures keeps { Keeps self.old self.new }
        ensures writer { self.new.writer ≡ self.old.writer }
        ensures put { self.new.clerk.put ≡ self.old.clerk.put }
        ensures made { MatchOption result ⊤ (λ a. IsAnswerAt self.new a) }
    {
        self.clerk.take_answer(self.desk)
    }

    // Meets the reader of an answer: what it knows comes first in the history.
    fn meet(&mut self, reader: Reader)
        requires staffed { IsStaffed self.old }
        requires made { reader.index ≡ self.old.index.now }
        ensures keeps { Keeps self.old self.new }
        ensures writer { self.new.writer ≡ self.old.writer }
        ensures clerk { self.new.clerk ≡ self.old.clerk }
        ensures known { IsPrefix reader.docs self.new.writer.docs }
    {
        self.writer.meet(self.index, reader);
    }

    // Counts, in the tally, all matches among all documents, after what it holds, and gives their number.
    fn count_all<G: Gate>(&mut self, frame: &mut Frame, tally: &mut Tally, gate: &G) -> u64
        requires staffed { IsStaffed self.old }
        ensures keeps { Keeps self.old self.new }
        ensures writer { self.new.writer ≡ self.old.writer }
        ensures clerk { self.new.clerk ≡ self.old.clerk }
        ensures count { result ≡ length self.new.writer.docs }
        ensures counts { HasCounted (query_of frame.old) self.new.writer.docs tally.old tally.new }
    {
        self.writer.count_unmetered(self.index, frame, tally, gate)
    }

    // Converts all segments but the last one, and gives how many are begun and how many are converted.
    fn convert_all(&mut self) -> SegmentCounts
        requires staffed { IsStaffed self.old }
        ensures keeps { Keeps self.old self.new }
        ensures clerk { self.new.clerk ≡ self.old.clerk }
        ensures writer { self.new.writer
            ≡ record { index = self.old.writer.index; docs = self.old.writer.docs; converted = max self.old.writer.converted result.converted } }
        ensures segments { result.segments ≡ length (cut self.old.index.now.setting self.old.writer.docs) }
        ensures converted { result.converted ≡ most_converted (length (cut self.old.index.now.setting self.old.writer.docs)) }
    {
        close(self.index, &mut self.writer, &mut self.converter)
    }

    // Puts a stop for each of the workers, and gives the clerk back.
    pub(crate) fn stop<R: Wait>(self, rt: &R, workers: u32) -> Clerk
        ensures { result.stops ≡ workers }
    {
        let IndexOffice { desk, clerk, .. } = self;
        let mut clerk = clerk;
        stop_all(rt, desk, &mut clerk, workers);
        clerk
    }
}

impl Office for IndexOffice<'_> {
    ghost use Rattle.std.specs.Prelude.{ℕ};
    ghost use Rattle.run_with_workers.specs.IndexOffices.{HoldsIndex, IsAnswerAt};

    type Answer = Answer;

    ghost holds = { HoldsIndex };

    ghost asked = { λ o. o.clerk.put };

    ghost made = { IsAnswerAt };

    fn place<G: Gate>(
        &mut self,
        document: &Document,
        gate: &G,
    ) -> Result<Option<Refusal>, NoMemory> {
        if self.add(document, gate) {
            return Ok(None);
        }
        Ok(Some(Refusal::Full))
    }

    fn ask<R: Wait>(&mut self, rt: &R, number: u64, frame: Frame) -> Result<(), NoMemory> {
        self.put(rt, number, frame);
        Ok(())
    }

    fn take(&mut self) -> Option<Answer> {
        self.take_there()
    }

    fn wait<R: Wait, G: Gate>(&mut self, rt: &R, gate: &G) -> Answer {
        self.wait_for(rt, gate)
    }

    // The writer meets the answer's reader, so what that knows comes first in the history.
    fn settle<G: Gate>(&mut self, answer: Answer, _gate: &G) -> Settled {
        let number = answer.number();
        let (frame, reader) = answer.finish();
        let seen = reader.seen();
        self.meet(reader);
        Settled {
            number,
            seen,
            frame,
        }
    }

    fn count<G: Gate>(&mut self, frame: &mut Frame, tally: &mut Tally, gate: &G) -> u64 {
        tally.clear();
        self.count_all(frame, tally, gate)
    }

    fn documents(&self) -> u64 {
        self.writer.accepted()
    }

    fn form(&self) -> Form {
        self.form
    }

    fn close(&mut self) -> Tail {
        let segments = self.convert_all();
        tell_segments(self.form, segments)
    }
}
