ghost use Rattle.std.specs.Prelude.{◌≡◌, ◌+◌, ◌<◌, ◌^◌, true, Some, None, ℕ, List, [], length, IfOk, OnErr, OnOk, IsTrue};
ghost use Rattle.eb_fields.specs.Dialect.{dialect_of};
ghost use Rattle.eb_io.specs.Lines.{Line, line, long_line};
ghost use Rattle.eb_rounds.specs.Passed.{input_of, input_kind};
ghost use Rattle.eb_rounds.specs.Standing.{queries_held};
ghost use Rattle.eb_rounds.specs.Takes.{takes_kind};
ghost use Rattle.eb_place.specs.Room.{cut};
ghost use Rattle.run_index.specs.Conversions.{most_converted};
ghost use Rattle.eb_run.specs.Holding.{held_as};
ghost use Rattle.eb_lines.specs.Programs.{IsRunning, WorksOn, WorksOnGiven};
ghost use Rattle.eb_run.specs.Running.{asked, HasRun, HoldsNone, WorksOffHeld};

use eb_base::{Gate, NoMemory};
use eb_engine::{Converter, Index, Writer};
use eb_fields::Dialect;
use eb_lines::{Form, LineKind, Refusal, line_kind};
use eb_rounds::{Input, Kind, Rounds, Setup};
use run_index::{Counts, SegmentCounts, close};
use run_store::Plan;
use std::alloc::Global;
use std::thread::Threads;

// A run with overlap between two lines: how lines are read, how the output is written, the index of
// the accepted documents, the lines that are held, and the number of the last line given.
#[derive(Drop)]
pub(crate) struct Running<'a> {
    dialect: Dialect<'a>,
    pub(crate) form: Form,
    index: Index,
    writer: Writer,
    converter: Converter,
    rounds: Rounds,
    number: u64,
}

impl<'a> Running<'a> {
    // A run with an empty index. Takes all the memory of the index.
    pub(crate) fn new(alloc: Global, plan: &Plan<'a>) -> Result<Running<'a>, NoMemory>
        ensures { IfOk result (λ running. HasRun running (asked (dialect_of plan.entry.now.dialect) plan.entry.now.config plan.entry.now.form) [] []) }
    {
        let (index, writer, converter) = Index::open(alloc, plan.config)?;
        Ok(Running {
            dialect: plan.dialect,
            form: plan.form,
            index,
            writer,
            converter,
            rounds: Rounds::new(alloc),
            number: 0,
        })
    }

    // What was processed so far.
    pub(crate) fn counts(&self) -> Counts
        ensures { (result.documents ≡ self.now.rounds.counts.documents) × (result.queries ≡ self.now.rounds.counts.queries)
            × (result.refused ≡ self.now.rounds.counts.refused) }
    {
        self.rounds.counts()
    }

    // Converts what can be of an input that is over, and returns how many segments are begun, and
    // how many converted.
    pub(crate) fn finish(&mut self) -> SegmentCounts
        requires { IsRunning HasRun self.old }
        ensures segments { result.segments ≡ length (cut self.old.index.setting self.old.writer.docs) }
        ensures converted { result.converted ≡ most_converted (length (cut self.old.index.setting self.old.writer.docs)) }
    {
        close(&self.index, &mut self.writer, &mut self.converter)
    }

    // Processes the held lines, with what they print after the text. Where memory runs out, nothing
    // is done.
    pub(crate) fn work_held<R: Threads + Sync, G: Gate + Sync>(
        &mut self,
        rt: &R,
        alloc: Global,
        gate: &G,
        text: &mut Vec<u8>,
    ) -> Result<(), NoMemory>
        requires { IsRunning HasRun self.old }
        ensures on { WorksOn HasRun self.old self.new text.old.items text.new.items }
        ensures none { OnOk result (HoldsNone self.new) }
        ensures number { self.new.number ≡ self.old.number }
    {
        let setup = Setup {
            index: &self.index,
            gate,
            dialect: self.dialect,
            form: self.form,
        };
        self.rounds.step_behind(
            rt,
            alloc,
            &setup,
            &mut self.writer,
            &mut self.converter,
            text,
        )
    }

    // Processes the held lines where a query waits among them.
    pub(crate) fn answer_held<W: Fn(&mut Running<'a>, &mut Vec<u8>) -> Result<(), NoMemory>>(
        &mut self,
        worker: &W,
        text: &mut Vec<u8>,
    ) -> Result<(), NoMemory>
        requires state { IsRunning HasRun self.old }
        requires worker { WorksOffHeld W.pre W.post worker.now }
        ensures on { WorksOn HasRun self.old self.new text.old.items text.new.items }
        ensures answered { OnOk result (queries_held self.new.rounds.ahead + queries_held self.new.rounds.held ≡ 0) }
        ensures number { self.new.number ≡ self.old.number }
    {
        if self.rounds.has_query() {
            worker(self, text)
        } else {
            Ok(())
        }
    }

    // Whether a line of this kind, which can't follow the held ones in their round, opens a round:
    // a query line after documents alone, which are then read together with what follows it.
    fn opens_round(&self, kind: Kind) -> bool
        ensures { IsTrue result → self.now.rounds.ahead ≡ [] }
    {
        kind == Kind::QueryLine && !self.rounds.has_query() && !self.rounds.has_round_ahead()
    }

    // Where no line of this kind goes after the held lines, opens a round for it, or processes
    // them.
    fn make_way<W: Fn(&mut Running<'a>, &mut Vec<u8>) -> Result<(), NoMemory>>(
        &mut self,
        kind: Kind,
        worker: &W,
        text: &mut Vec<u8>,
    ) -> Result<(), NoMemory>
        requires state { IsRunning HasRun self.old }
        requires worker { WorksOffHeld W.pre W.post worker.now }
        ensures on { WorksOn HasRun self.old self.new text.old.items text.new.items }
        ensures takes { OnOk result (takes_kind self.new.rounds.held kind ≡ true) }
        ensures number { self.new.number ≡ self.old.number }
    {
        if self.rounds.takes(kind) {
            return Ok(());
        }
        if self.opens_round(kind) {
            self.rounds.open_round();
            return Ok(());
        }
        worker(self, text)
    }

    // Holds the next line, where one of its kind goes after those that are held.
    fn put(&mut self, input: Input<'_>) -> Result<(), NoMemory>
        requires state { IsRunning HasRun self.old }
        requires number { self.old.number + 1 < 2 ^ 64 }
        requires takes { takes_kind self.old.rounds.held (input_kind input) ≡ true }
        ensures ok { OnOk result ((l : Line) → held_as (dialect_of self.old.dialect) l ≡ Some (input_of input.entry)
            → (text : List ℕ) → WorksOnGiven HasRun self.old self.new text text l) }
        ensures err { OnErr result (self.new ≡ self.old) }
    {
        let number = self.number + 1;
        self.rounds.put(number, input)?;
        self.number = number;
        Ok(())
    }

    // Holds the next line, and processes the held lines before where it doesn't go after them.
    fn hold<W: Fn(&mut Running<'a>, &mut Vec<u8>) -> Result<(), NoMemory>>(
        &mut self,
        input: Input<'_>,
        worker: &W,
        text: &mut Vec<u8>,
    ) -> Result<(), NoMemory>
        requires state { IsRunning HasRun self.old }
        requires worker { WorksOffHeld W.pre W.post worker.now }
        requires number { self.old.number + 1 < 2 ^ 64 }
        ensures ok { OnOk result ((l : Line) → held_as (dialect_of self.old.dialect) l ≡ Some (input_of input.entry)
            → WorksOnGiven HasRun self.old self.new text.old.items text.new.items l) }
        ensures err { OnErr result (WorksOn HasRun self.old self.new text.old.items text.new.items) }
    {
        self.make_way(input.kind(), worker, text)?;
        self.put(input)
    }

    // Skips a blank line.
    fn pass(&mut self)
        requires state { IsRunning HasRun self.old }
        requires number { self.old.number + 1 < 2 ^ 64 }
        ensures { (l : Line) → held_as (dialect_of self.old.dialect) l ≡ None → (text : List ℕ) → WorksOnGiven HasRun self.old self.new text text l }
    {
        self.number += 1;
    }

    // Takes the next line, which is a long one.
    pub(crate) fn take_long<W: Fn(&mut Running<'a>, &mut Vec<u8>) -> Result<(), NoMemory>>(
        &mut self,
        worker: &W,
        text: &mut Vec<u8>,
    ) -> Result<(), NoMemory>
        requires state { IsRunning HasRun self.old }
        requires worker { WorksOffHeld W.pre W.post worker.now }
        requires number { self.old.number + 1 < 2 ^ 64 }
        ensures ok { OnOk result (WorksOnGiven HasRun self.old self.new text.old.items text.new.items long_line) }
        ensures err { OnErr result (WorksOn HasRun self.old self.new text.old.items text.new.items) }
    {
        self.hold(Input::RefusedLine(Refusal::LongLine), worker, text)
    }

    // Takes the next line, which isn't a long one.
    pub(crate) fn take_line<W: Fn(&mut Running<'a>, &mut Vec<u8>) -> Result<(), NoMemory>>(
        &mut self,
        bytes: &[u8],
        worker: &W,
        text: &mut Vec<u8>,
    ) -> Result<(), NoMemory>
        requires state { IsRunning HasRun self.old }
        requires worker { WorksOffHeld W.pre W.post worker.now }
        requires number { self.old.number + 1 < 2 ^ 64 }
        ensures ok { OnOk result (WorksOnGiven HasRun self.old self.new text.old.items text.new.items (line bytes.now)) }
        ensures err { OnErr result (WorksOn HasRun self.old self.new text.old.items text.new.items) }
    {
        match line_kind(self.dialect, bytes) {
            LineKind::Blank => {
                self.pass();
                Ok(())
            }
            LineKind::Document => self.hold(Input::DocumentLine(bytes), worker, text),
            LineKind::Query(query) => self.hold(Input::QueryLine(query), worker, text),
            LineKind::Bad => self.hold(Input::RefusedLine(Refusal::BadLine), worker, text),
        }
    }
}
