//! A run with workers between two lines: the office, and the lines that wait.
ghost use Rattle.std.specs.Prelude.{◌≡◌, ◌+◌, ◌<◌, ◌≤◌, ◌^◌, ℕ, List, [], true, IfOk, IfSome, OnErr, OnOk, IsTrue};
ghost use Rattle.std.specs.VecDeque.{deque_len, deque_capacity};
ghost use Rattle.run_store.specs.Rules.{Rules, is_bad, HasRefusal, HasNoRefusal};
ghost use Rattle.run_store.specs.Sees.{at_least};
ghost use Rattle.run_store.specs.Text.{IsText};
ghost use Rattle.eb_base.specs.Query.{tree};
ghost use Rattle.eb_fields.specs.Dialect.{dialect_of};
ghost use Rattle.eb_io.specs.Lines.{Line, line, long_line};
ghost use Rattle.eb_query.specs.Head.{begins_query};
ghost use Rattle.eb_query.specs.declared.ask.Ask.TheVariants.{Newest, Counts};
ghost use Rattle.eb_lines.specs.Kinds.{document_line, query_line, kind_of};
ghost use Rattle.eb_lines.specs.Programs.{IsRunning, WorksOn, WorksOnGiven, Finishes};
ghost use Rattle.eb_lines.specs.Reading.{blank, document as reads_document, query as reads_query, refused as is_refused};
ghost use Rattle.run_store.specs.Questions.{MayAsk};
ghost use Rattle.run_with_workers.specs.Waiting.{AwaitsAt, IsPlace, IsKept, NextNeeds};
ghost use Rattle.run_with_workers.specs.Serving.{HasServed, TakesLine, TakesRead, IsFurther};

use crate::office::{Office, Settled};
use crate::waiting::{Counted, Waiting, push, replace};
use eb_base::{Document, Gate, NoMemory, Query};
use eb_count::Tally;
use eb_cursor::Frame;
use eb_fields::Dialect;
use eb_lines::{LineKind, Refusal, line_kind, put_summary, read_document_line};
use eb_query::Ask;
use run_store::read_question;
use std::alloc::Global;
use std::collections::VecDeque;
use std::sync::Wait;

// The greatest number of unanswered queries.
const UNANSWERED: u64 = 512;

// The greatest number of lines that wait to be printed.
const UNPRINTED: usize = 4096;

// The office; how lines are read; the number of the last line given, how many of the lines are queries and how many are refused;
// the lines that wait, the last ones given, in order, and how many of them are queries without an answer.
#[derive(Drop)]
pub(crate) struct Serving<'a, O: Office> {
    pub(crate) office: O,
    pub(crate) dialect: Dialect<'a>,
    pub(crate) number: u64,
    pub(crate) queries: u64,
    pub(crate) refused: u64,
    pub(crate) unanswered: u64,
    pub(crate) waiting: VecDeque<Waiting>,
}

impl<'a, O: Office> Serving<'a, O> {
    // Before the first line. Takes no memory.
    pub(crate) fn new(alloc: Global, office: O, dialect: Dialect<'a>) -> Serving<'a, O>
        ensures office { result.office ≡ office }
        ensures dialect { dialect_of result.dialect ≡ dialect_of dialect.entry }
        ensures number { (result.number ≡ 0) × (result.queries ≡ 0) × (result.refused ≡ 0) }
        ensures waiting { result.waiting.items ≡ [] }
    {
        Serving {
            office,
            dialect,
            number: 0,
            queries: 0,
            refused: 0,
            unanswered: 0,
            waiting: VecDeque::new(alloc),
        }
    }

    // Where the line of this number waits.
    fn place_of(&self, number: u64) -> Option<usize>
        ensures { IfSome result (λ at. (at < deque_len self.now.waiting) × IsPlace self.now.number self.now.waiting.items number at) }
    {
        let printed = self.number.saturating_sub(self.waiting.len() as u64);
        let at = number.checked_sub(printed)?.checked_sub(1)?;
        if at < self.waiting.len() as u64 {
            Some(at as usize)
        } else {
            None
        }
    }

    // Whether the line that waits there is a query without an answer, and one over that number of documents will do.
    fn awaits(&self, at: usize, seen: u64) -> bool
        ensures { IsTrue result → AwaitsAt self.now.waiting.items at seen }
    {
        match self.waiting.get(at) {
            None => false,
            Some(line) => line.awaits(seen),
        }
    }

    // Lets the line of an answer's number, if it awaits one, wait with it. Any other answer is dropped.
    fn keep(&mut self, settled: Settled)
        ensures office { self.new.office ≡ self.old.office }
        ensures dialect { dialect_of self.new.dialect ≡ dialect_of self.old.dialect }
        ensures counts { (self.new.number ≡ self.old.number) × (self.new.queries ≡ self.old.queries) × (self.new.refused ≡ self.old.refused) }
        ensures kept { IsKept self.old.number self.old.waiting.items self.new.waiting.items settled }
    {
        let Some(at) = self.place_of(settled.number) else {
            return;
        };
        let Settled { seen, frame, .. } = settled;
        if !self.awaits(at, seen) {
            return;
        }
        replace(&mut self.waiting, at, Waiting::Answered { seen, frame });
        self.unanswered = self.unanswered.saturating_sub(1);
    }

    // Takes an answer in, when it is settled.
    fn take_in<G: Gate>(&mut self, answer: O::Answer, gate: &G)
        requires running { IsRunning (HasServed O.holds O.asked) self.old }
        requires made { O.made self.old.office answer }
        ensures { IsFurther O.holds O.asked self.old self.new }
    {
        let settled = self.office.settle(answer, gate);
        self.keep(settled);
    }

    // Takes in the answer that is there, and says whether one was.
    fn take_there<G: Gate>(&mut self, gate: &G) -> bool
        requires running { IsRunning (HasServed O.holds O.asked) self.old }
        ensures { IsFurther O.holds O.asked self.old self.new }
    {
        match self.office.take() {
            None => false,
            Some(answer) => {
                self.take_in(answer, gate);
                true
            }
        }
    }

    // Takes in all answers that are there, without waiting.
    fn take_all_there<G: Gate>(&mut self, gate: &G)
        requires running { IsRunning (HasServed O.holds O.asked) self.old }
        ensures { IsFurther O.holds O.asked self.old self.new }
    {
        for _ in 0..self.unanswered {
            if !self.take_there(gate) {
                return;
            }
        }
    }

    // Waits for an answer, and takes it in.
    fn wait<R: Wait, G: Gate>(&mut self, rt: &R, gate: &G)
        requires running { IsRunning (HasServed O.holds O.asked) self.old }
        ensures { IsFurther O.holds O.asked self.old self.new }
    {
        let answer = self.office.wait(rt, gate);
        self.take_in(answer, gate);
    }

    // Whether it is known what the next line prints, and how many bytes at most.
    fn next_need(&self) -> Option<usize>
        ensures { IfSome result (λ need. NextNeeds self.now.waiting.items need) }
    {
        let line = self.waiting.front()?;
        if line.is_ready() {
            Some(line.need())
        } else {
            None
        }
    }

    // Puts what the next line prints after the text, where it is known, and says whether it was. Where memory doesn't
    // suffice, nothing is done.
    fn print_next(&mut self, text: &mut Vec<u8>) -> Result<bool, NoMemory>
        requires running { IsRunning (HasServed O.holds O.asked) self.old }
        ensures on { WorksOn (HasServed O.holds O.asked) self.old self.new text.old.items text.new.items }
        ensures fewer { IfOk result (λ printed. IsTrue printed → deque_len self.new.waiting + 1 ≡ deque_len self.old.waiting) }
    {
        let form = self.office.form();
        let Some(need) = self.next_need() else {
            return Ok(false);
        };
        text.reserve(need)?;
        let Some(line) = self.waiting.pop_front() else {
            return Ok(false);
        };
        let number = self.number.saturating_sub(self.waiting.len() as u64);
        line.print(form, number, text);
        Ok(true)
    }

    // Puts what the next lines print after the text, as far as it is known.
    fn print_ready(&mut self, text: &mut Vec<u8>) -> Result<(), NoMemory>
        requires running { IsRunning (HasServed O.holds O.asked) self.old }
        ensures on { WorksOn (HasServed O.holds O.asked) self.old self.new text.old.items text.new.items }
    {
        'ready: while self.print_next(text)? {}
        Ok(())
    }

    // Takes in the answers that are there, and prints the lines that are ready. Doesn't wait.
    fn print_there<G: Gate>(&mut self, gate: &G, text: &mut Vec<u8>) -> Result<(), NoMemory>
        requires running { IsRunning (HasServed O.holds O.asked) self.old }
        ensures { WorksOn (HasServed O.holds O.asked) self.old self.new text.old.items text.new.items }
    {
        self.take_all_there(gate);
        self.print_ready(text)
    }

    // Prints the lines that are ready, and waits until at most these numbers of unanswered queries and of lines are left.
    fn wait_down<R: Wait, G: Gate>(
        &mut self,
        rt: &R,
        gate: &G,
        unanswered: u64,
        unprinted: usize,
        text: &mut Vec<u8>,
    ) -> Result<(), NoMemory>
        requires running { IsRunning (HasServed O.holds O.asked) self.old }
        ensures on { WorksOn (HasServed O.holds O.asked) self.old self.new text.old.items text.new.items }
        ensures few { OnOk result (deque_len self.new.waiting ≤ unprinted) }
    {
        for _ in rt.forever() {
            self.print_ready(text)?;
            if self.unanswered <= unanswered && self.waiting.len() <= unprinted {
                return Ok(());
            }
            self.wait(rt, gate);
        }
        unreachable!()
    }

    // Takes in the answers that are there, prints the lines that are ready, and waits until there is room for a further line
    // and a further query.
    fn make_room<R: Wait, G: Gate>(
        &mut self,
        rt: &R,
        gate: &G,
        text: &mut Vec<u8>,
    ) -> Result<(), NoMemory>
        requires running { IsRunning (HasServed O.holds O.asked) self.old }
        ensures on { WorksOn (HasServed O.holds O.asked) self.old self.new text.old.items text.new.items }
        ensures room { OnOk result (deque_len self.new.waiting + 1 ≤ deque_capacity self.new.waiting) }
    {
        self.print_there(gate, text)?;
        self.wait_down(rt, gate, UNANSWERED - 1, UNPRINTED - 1, text)?;
        self.waiting.reserve(1)?;
        Ok(())
    }

    // Passes over a blank line.
    fn pass(&mut self)
        requires running { IsRunning (HasServed O.holds O.asked) self.old }
        requires number { self.old.number ≤ 2 ^ 40 }
        requires room { deque_len self.old.waiting + 1 ≤ deque_capacity self.old.waiting }
        ensures { TakesLine O.holds O.asked self.old self.new blank }
    {
        self.number += 1;
        push(&mut self.waiting, Waiting::Nothing);
    }

    // Adds a document, or refuses its line. Where memory doesn't suffice, nothing is done.
    fn add<G: Gate>(&mut self, document: &Document, gate: &G) -> Result<(), NoMemory>
        requires running { IsRunning (HasServed O.holds O.asked) self.old }
        requires number { self.old.number ≤ 2 ^ 40 }
        requires room { deque_len self.old.waiting + 1 ≤ deque_capacity self.old.waiting }
        ensures ok { OnOk result (TakesLine O.holds O.asked self.old self.new (reads_document document.now)) }
        ensures err { OnErr result (self.new ≡ self.old) }
    {
        match self.office.place(document, gate)? {
            None => {
                self.number += 1;
                push(&mut self.waiting, Waiting::Nothing);
            }
            Some(refusal) => {
                self.number += 1;
                self.refused += 1;
                push(&mut self.waiting, Waiting::Refused(refusal));
            }
        }
        Ok(())
    }

    // Refuses a line.
    fn refuse(&mut self, refusal: Refusal)
        requires running { IsRunning (HasServed O.holds O.asked) self.old }
        requires number { self.old.number ≤ 2 ^ 40 }
        requires room { deque_len self.old.waiting + 1 ≤ deque_capacity self.old.waiting }
        ensures { TakesLine O.holds O.asked self.old self.new (is_refused refusal) }
    {
        self.number += 1;
        self.refused += 1;
        push(&mut self.waiting, Waiting::Refused(refusal));
    }

    // Asks for the newest `k` matches of a query. Where memory doesn't suffice, nothing is done.
    fn ask<R: Wait>(&mut self, rt: &R, alloc: Global, k: u32, query: Query) -> Result<(), NoMemory>
        requires running { IsRunning (HasServed O.holds O.asked) self.old }
        requires number { self.old.number ≤ 2 ^ 40 }
        requires room { deque_len self.old.waiting + 1 ≤ deque_capacity self.old.waiting }
        requires asked { MayAsk (Newest k) query }
        ensures ok { OnOk result (TakesLine O.holds O.asked self.old self.new (reads_query (Newest k) (tree query))) }
        ensures err { OnErr result (self.new ≡ self.old) }
    {
        let told = self.office.documents();
        let frame = Frame::new(alloc, query, k)?;
        self.office.ask(rt, self.number + 1, frame)?;
        self.number += 1;
        self.queries += 1;
        self.unanswered = self.unanswered.saturating_add(1);
        push(&mut self.waiting, Waiting::Asked { told });
        Ok(())
    }

    // Counts the matches of a query, all in all and in these buckets, among all documents that are accepted. Where memory
    // doesn't suffice, nothing is done.
    fn count<G: Gate>(
        &mut self,
        alloc: Global,
        start: u64,
        width: u64,
        buckets: u32,
        query: Query,
        gate: &G,
    ) -> Result<(), NoMemory>
        requires running { IsRunning (HasServed O.holds O.asked) self.old }
        requires number { self.old.number ≤ 2 ^ 40 }
        requires room { deque_len self.old.waiting + 1 ≤ deque_capacity self.old.waiting }
        requires asked { MayAsk (Counts start width buckets) query }
        ensures ok { OnOk result (TakesLine O.holds O.asked self.old self.new (reads_query (Counts start width buckets) (tree query))) }
        ensures err { OnErr result (self.new ≡ self.old) }
    {
        let mut tally = Tally::with_buckets(alloc, start, width, buckets as usize)?;
        let mut frame = Frame::new(alloc, query, 1)?;
        let seen = self.office.count(&mut frame, &mut tally, gate);
        let counted = Counted::new(seen, tally);
        self.number += 1;
        self.queries += 1;
        push(&mut self.waiting, Waiting::Counted(counted));
        Ok(())
    }

    // Asks a query, or counts its matches. Where memory doesn't suffice, nothing is done.
    fn answer<R: Wait, G: Gate>(
        &mut self,
        rt: &R,
        alloc: Global,
        ask: Ask,
        query: Query,
        gate: &G,
    ) -> Result<(), NoMemory>
        requires running { IsRunning (HasServed O.holds O.asked) self.old }
        requires number { self.old.number ≤ 2 ^ 40 }
        requires room { deque_len self.old.waiting + 1 ≤ deque_capacity self.old.waiting }
        requires asked { MayAsk ask query }
        ensures ok { OnOk result (TakesLine O.holds O.asked self.old self.new (reads_query ask (tree query))) }
        ensures err { OnErr result (self.new ≡ self.old) }
    {
        match ask {
            Ask::Newest(k) => self.ask(rt, alloc, k, query),
            Ask::Counts {
                start,
                width,
                number: buckets,
            } => self.count(alloc, start, width, buckets, query, gate),
        }
    }

    // Takes a document line. Where memory doesn't suffice, nothing is done.
    fn take_document<G: Gate>(
        &mut self,
        alloc: Global,
        bytes: &[u8],
        gate: &G,
    ) -> Result<(), NoMemory>
        requires running { IsRunning (HasServed O.holds O.asked) self.old }
        requires number { self.old.number ≤ 2 ^ 40 }
        requires room { deque_len self.old.waiting + 1 ≤ deque_capacity self.old.waiting }
        ensures ok { OnOk result (TakesRead O.holds O.asked self.old self.new document_line bytes.now) }
        ensures err { OnErr result (self.new ≡ self.old) }
    {
        match read_document_line(alloc, self.dialect, bytes)? {
            Ok(document) => self.add(&document, gate),
            Err(refusal) => {
                self.refuse(refusal);
                Ok(())
            }
        }
    }

    // Takes a query line. Where memory doesn't suffice, nothing is done.
    fn take_query<R: Wait, G: Gate>(
        &mut self,
        rt: &R,
        alloc: Global,
        text: &str,
        gate: &G,
    ) -> Result<(), NoMemory>
        requires running { IsRunning (HasServed O.holds O.asked) self.old }
        requires number { self.old.number ≤ 2 ^ 40 }
        requires room { deque_len self.old.waiting + 1 ≤ deque_capacity self.old.waiting }
        requires mark { begins_query (dialect_of self.old.dialect) text.now ≡ true }
        ensures ok { OnOk result (TakesRead O.holds O.asked self.old self.new query_line text.now) }
        ensures err { OnErr result (self.new ≡ self.old) }
    {
        match read_question(alloc, &self.dialect, text)? {
            Ok((ask, query)) => self.answer(rt, alloc, ask, query, gate),
            Err(refusal) => {
                self.refuse(refusal);
                Ok(())
            }
        }
    }

    // Takes a line by its kind. Where memory doesn't suffice, nothing is done.
    fn take_bytes<R: Wait, G: Gate>(
        &mut self,
        rt: &R,
        alloc: Global,
        bytes: &[u8],
        gate: &G,
    ) -> Result<(), NoMemory>
        requires running { IsRunning (HasServed O.holds O.asked) self.old }
        requires number { self.old.number ≤ 2 ^ 40 }
        requires room { deque_len self.old.waiting + 1 ≤ deque_capacity self.old.waiting }
        ensures ok { OnOk result (TakesRead O.holds O.asked self.old self.new (kind_of (dialect_of self.old.dialect) bytes.now) bytes.now) }
        ensures err { OnErr result (self.new ≡ self.old) }
    {
        match line_kind(self.dialect, bytes) {
            LineKind::Blank => {
                self.pass();
                Ok(())
            }
            LineKind::Document => self.take_document(alloc, bytes, gate),
            LineKind::Query(text) => self.take_query(rt, alloc, text, gate),
            LineKind::Bad => {
                self.refuse(Refusal::BadLine);
                Ok(())
            }
        }
    }

    // Takes the next line, which isn't a long one: reads it, adds its document, asks its query or counts, and holds it until it
    // is its turn to be printed; prints the lines before it that are ready. Waits first where as many queries are unanswered
    // or as many lines unprinted as may be. Where memory doesn't suffice, the line isn't taken.
    pub(crate) fn take_line<R: Wait, G: Gate>(
        &mut self,
        rt: &R,
        alloc: Global,
        bytes: &[u8],
        gate: &G,
        text: &mut Vec<u8>,
    ) -> Result<(), NoMemory>
        requires running { IsRunning (HasServed O.holds O.asked) self.old }
        requires number { self.old.number ≤ 2 ^ 40 }
        ensures ok { OnOk result (WorksOnGiven (HasServed O.holds O.asked) self.old self.new text.old.items text.new.items (line bytes.now)) }
        ensures err { OnErr result (WorksOn (HasServed O.holds O.asked) self.old self.new text.old.items text.new.items) }
    {
        self.make_room(rt, gate, text)?;
        self.take_bytes(rt, alloc, bytes, gate)
    }

    // Takes the next line where it is a long one.
    pub(crate) fn take_long<R: Wait, G: Gate>(
        &mut self,
        rt: &R,
        gate: &G,
        text: &mut Vec<u8>,
    ) -> Result<(), NoMemory>
        requires running { IsRunning (HasServed O.holds O.asked) self.old }
        requires number { self.old.number ≤ 2 ^ 40 }
        ensures ok { OnOk result (WorksOnGiven (HasServed O.holds O.asked) self.old self.new text.old.items text.new.items long_line) }
        ensures err { OnErr result (WorksOn (HasServed O.holds O.asked) self.old self.new text.old.items text.new.items) }
    {
        self.make_room(rt, gate, text)?;
        self.refuse(Refusal::LongLine);
        Ok(())
    }

    // Waits for all answers, and prints all lines.
    pub(crate) fn settle_all<R: Wait, G: Gate>(
        &mut self,
        rt: &R,
        gate: &G,
        text: &mut Vec<u8>,
    ) -> Result<(), NoMemory>
        requires running { IsRunning (HasServed O.holds O.asked) self.old }
        ensures on { WorksOn (HasServed O.holds O.asked) self.old self.new text.old.items text.new.items }
        ensures all { OnOk result (self.new.waiting.items ≡ []) }
    {
        self.wait_down(rt, gate, 0, 0, text)
    }

    // Puts the end of the input after the text, where no line waits, and gives how many lines are refused. Where memory
    // doesn't suffice, the text is as before.
    pub(crate) fn finish(&mut self, text: &mut Vec<u8>) -> Result<u64, NoMemory>
        requires running { IsRunning (HasServed O.holds O.asked) self.old }
        requires settled { self.old.waiting.items ≡ [] }
        ensures ok { IfOk result (λ refused. (rules : Rules (Unit {0})) (given : List Line) (so_far : List ℕ)
            → HasServed O.holds O.asked self.old rules given so_far
            → Finishes (HasServed O.holds O.asked) (IsText is_bad at_least) (HasRefusal is_bad) (HasNoRefusal is_bad)
            self.old text.old.items text.new.items refused rules given so_far) }
        ensures err { OnErr result (text.new.items ≡ text.old.items) }
    {
        let form = self.office.form();
        let documents = self.office.documents();
        let tail = self.office.close();
        put_summary(text, form, documents, self.queries, self.refused, tail)?;
        Ok(self.refused)
    }
}
