//! A run whose lines wait until they are processed.
ghost use Rattle.std.specs.Prelude.{◌≡◌, ◌+◌, ◌≤◌, ◌<◌, ◌^◌, ◌++◌, ◌∷◌, List, [], length, drop, IfOk, OnErr, OnOk};
ghost use Rattle.std.specs.List.{AllZip};
ghost use Rattle.run_ahead.specs.Ahead.{HasHeld, HoldsNone, WorksOffHeld, AreWaiting, HasWorked};
ghost use Rattle.run_ahead.specs.Placing.{PlacesTogether, TellsNone};
ghost use Rattle.run_ahead.specs.Tasks.{line_of, AreRun};
ghost use Rattle.run_store.specs.Answering.{HasAnswered};
ghost use Rattle.run_store.specs.Rules.{Rules};
ghost use Rattle.eb_fields.specs.Dialect.{dialect_of};
ghost use Rattle.eb_lines.specs.Programs.{IsRunning, WorksOn, WorksOnGiven};

use crate::adding::{work_line, work_run};
use crate::lines::{HeldLine, HeldLines};
use crate::reading::{Other, let_go, read_lines, run_length};
use eb_base::{Document, Gate, NoMemory};
use eb_lines::Refusal;
use run_store::{Answering, Store};
use std::alloc::Global;
use std::thread::Threads;

// A run over a store, the lines that wait, of which the first `worked` are processed, whether a
// query may be among them, and the number of the last line given.
#[derive(Drop)]
pub(crate) struct Ahead<'a, G, S> {
    pub(crate) answering: Answering<'a, G, S>,
    held: HeldLines,
    worked: usize,
    asks: bool,
    pub(crate) number: u64,
}

impl<'a, G: Gate, S: Store> Ahead<'a, G, S> {
    // Before the first line.
    pub(crate) fn new(alloc: Global, answering: Answering<'a, G, S>) -> Ahead<'a, G, S>
        ensures { (rules : Rules S.Watches) → HasAnswered S.other S.holds answering.entry rules [] [] → HasHeld S.other S.holds result rules [] [] }
    {
        Ahead {
            answering,
            held: HeldLines::new(alloc),
            worked: 0,
            asks: false,
            number: 0,
        }
    }

    // Takes the first line that waits, which is read so.
    fn work_one(
        &mut self,
        alloc: Global,
        task: &Result<Document, Other>,
        text: &mut Vec<u8>,
    ) -> Result<(), NoMemory>
        requires state { IsRunning (HasHeld S.other S.holds) self.old }
        requires waits { (more : List _) × AreWaiting self.old (task.now ∷ more) }
        ensures on { WorksOn (HasHeld S.other S.holds) self.old self.new text.old.items text.new.items }
        ensures worked { OnOk result (HasWorked self.old self.new 1) }
        ensures number { self.new.number ≡ self.old.number }
    {
        let line = self.held.get(self.worked);
        work_line(&mut self.answering, alloc, line, task, text)?;
        self.worked += 1;
        Ok(())
    }

    // Lets the next line wait, where there is room for it.
    fn put(&mut self, line: HeldLine<'_>, asks: bool) -> Result<(), NoMemory>
        requires state { IsRunning (HasHeld S.other S.holds) self.old }
        requires number { self.old.number ≤ 2 ^ 40 }
        ensures ok { OnOk result ((text : List _) → WorksOnGiven (HasHeld S.other S.holds) self.old self.new text text (line_of line.entry)) }
        ensures err { OnErr result ((text : List _) → WorksOn (HasHeld S.other S.holds) self.old self.new text text) }
    {
        self.held.push(line)?;
        self.number += 1;
        self.asks = self.asks || asks;
        Ok(())
    }

    // Processes the lines that wait.
    pub(crate) fn work_off<W: Fn(&mut Ahead<'a, G, S>, &mut Vec<u8>) -> Result<(), NoMemory>>(
        &mut self,
        worker: &W,
        text: &mut Vec<u8>,
    ) -> Result<(), NoMemory>
        requires state { IsRunning (HasHeld S.other S.holds) self.old }
        requires worker { WorksOffHeld S.other S.holds W.pre W.post worker.now }
        ensures on { WorksOn (HasHeld S.other S.holds) self.old self.new text.old.items text.new.items }
        ensures none { OnOk result (HoldsNone self.new) }
        ensures number { self.new.number ≡ self.old.number }
    {
        worker(self, text)
    }

    // Processes the lines that wait where no further one may.
    fn make_way<W: Fn(&mut Ahead<'a, G, S>, &mut Vec<u8>) -> Result<(), NoMemory>>(
        &mut self,
        worker: &W,
        text: &mut Vec<u8>,
    ) -> Result<(), NoMemory>
        requires state { IsRunning (HasHeld S.other S.holds) self.old }
        requires worker { WorksOffHeld S.other S.holds W.pre W.post worker.now }
        ensures on { WorksOn (HasHeld S.other S.holds) self.old self.new text.old.items text.new.items }
        ensures number { self.new.number ≡ self.old.number }
    {
        if self.held.is_full() {
            worker(self, text)
        } else {
            Ok(())
        }
    }

    // Lets the next line wait. Where no further one may, those that wait are processed before.
    pub(crate) fn hold<W: Fn(&mut Ahead<'a, G, S>, &mut Vec<u8>) -> Result<(), NoMemory>>(
        &mut self,
        line: HeldLine<'_>,
        asks: bool,
        worker: &W,
        text: &mut Vec<u8>,
    ) -> Result<(), NoMemory>
        requires state { IsRunning (HasHeld S.other S.holds) self.old }
        requires worker { WorksOffHeld S.other S.holds W.pre W.post worker.now }
        requires number { self.old.number ≤ 2 ^ 40 }
        ensures ok { OnOk result (WorksOnGiven (HasHeld S.other S.holds) self.old self.new text.old.items text.new.items (line_of line.entry)) }
        ensures err { OnErr result (WorksOn (HasHeld S.other S.holds) self.old self.new text.old.items text.new.items) }
    {
        self.make_way(worker, text)?;
        self.put(line, asks)
    }

    // Processes the lines that wait where a query may be among them.
    pub(crate) fn answer_held<W: Fn(&mut Ahead<'a, G, S>, &mut Vec<u8>) -> Result<(), NoMemory>>(
        &mut self,
        worker: &W,
        text: &mut Vec<u8>,
    ) -> Result<(), NoMemory>
        requires state { IsRunning (HasHeld S.other S.holds) self.old }
        requires worker { WorksOffHeld S.other S.holds W.pre W.post worker.now }
        ensures on { WorksOn (HasHeld S.other S.holds) self.old self.new text.old.items text.new.items }
        ensures number { self.new.number ≡ self.old.number }
    {
        if self.asks {
            worker(self, text)
        } else {
            Ok(())
        }
    }
}

// Takes the first lines that wait, which are read so, and none of which is a query or left to the
// store.
fn work_first<
    P: Store,
    G: Gate,
    W: Fn(&mut P, &[Result<Document, Other>]) -> Result<Vec<Option<Refusal>>, NoMemory>,
>(
    ahead: &mut Ahead<'_, G, P>,
    place_all: &W,
    tasks: &[Result<Document, Other>],
    text: &mut Vec<u8>,
) -> Result<(), NoMemory>
    requires state { IsRunning (HasHeld P.other P.holds) ahead.old }
    requires placing { PlacesTogether P.holds W.pre W.post place_all.now }
    requires tells { TellsNone P.holds }
    requires waits { (more : List _) × AreWaiting ahead.old (tasks.now ++ more) }
    requires run { AreRun tasks.now }
    ensures on { WorksOn (HasHeld P.other P.holds) ahead.old ahead.new text.old.items text.new.items }
    ensures worked { OnOk result (HasWorked ahead.old ahead.new (length tasks.now)) }
    ensures number { ahead.new.number ≡ ahead.old.number }
{
    work_run(&mut ahead.answering, place_all, tasks, text)?;
    ahead.worked += tasks.len();
    Ok(())
}

// Takes the first run of the lines that wait, which are read so, and the line after it, if any, and
// returns how many these are.
fn work_some<
    P: Store,
    G: Gate,
    W: Fn(&mut P, &[Result<Document, Other>]) -> Result<Vec<Option<Refusal>>, NoMemory>,
>(
    ahead: &mut Ahead<'_, G, P>,
    alloc: Global,
    place_all: &W,
    tasks: &[Result<Document, Other>],
    text: &mut Vec<u8>,
) -> Result<usize, NoMemory>
    requires state { IsRunning (HasHeld P.other P.holds) ahead.old }
    requires placing { PlacesTogether P.holds W.pre W.post place_all.now }
    requires tells { TellsNone P.holds }
    requires waits { AreWaiting ahead.old tasks.now }
    ensures on { WorksOn (HasHeld P.other P.holds) ahead.old ahead.new text.old.items text.new.items }
    ensures worked { IfOk result (λ n. HasWorked ahead.old ahead.new n) }
    ensures most { IfOk result (λ n. n ≤ length tasks.now) }
    ensures some { 0 < length tasks.now → IfOk result (λ n. 0 < n) }
    ensures number { ahead.new.number ≡ ahead.old.number }
{
    let (run, more) = tasks.split_at(run_length(tasks));
    work_first(ahead, place_all, run, text)?;
    let Some((task, _)) = more.split_first() else {
        return Ok(run.len());
    };
    ahead.work_one(alloc, task, text)?;
    Ok(run.len() + 1)
}

// Takes all lines that wait, which are read so: run after run, and what is between them.
fn work_all<
    P: Store,
    G: Gate,
    W: Fn(&mut P, &[Result<Document, Other>]) -> Result<Vec<Option<Refusal>>, NoMemory>,
>(
    ahead: &mut Ahead<'_, G, P>,
    alloc: Global,
    place_all: &W,
    tasks: &[Result<Document, Other>],
    text: &mut Vec<u8>,
) -> Result<(), NoMemory>
    requires state { IsRunning (HasHeld P.other P.holds) ahead.old }
    requires placing { PlacesTogether P.holds W.pre W.post place_all.now }
    requires tells { TellsNone P.holds }
    requires waits { AreWaiting ahead.old tasks.now }
    ensures on { WorksOn (HasHeld P.other P.holds) ahead.old ahead.new text.old.items text.new.items }
    ensures worked { OnOk result (HasWorked ahead.old ahead.new (length tasks.now)) }
    ensures number { ahead.new.number ≡ ahead.old.number }
{
    let mut rest = tasks;
    while !rest.is_empty() {
        let taken = work_some(ahead, alloc, place_all, rest, text)?;
        let (_, more) = rest.split_at(taken);
        rest = more;
    }
    Ok(())
}

// Processes the lines that wait, with what they print after the text: they are read concurrently,
// and then taken run after run. Where memory runs out, some of the first may be processed.
pub(crate) fn work_held<
    P: Store,
    R: Threads + Sync,
    G: Gate,
    W: Fn(&mut P, &[Result<Document, Other>]) -> Result<Vec<Option<Refusal>>, NoMemory>,
>(
    ahead: &mut Ahead<'_, G, P>,
    rt: &R,
    alloc: Global,
    place_all: &W,
    text: &mut Vec<u8>,
) -> Result<(), NoMemory>
    requires state { IsRunning (HasHeld P.other P.holds) ahead.old }
    requires placing { PlacesTogether P.holds W.pre W.post place_all.now }
    requires tells { TellsNone P.holds }
    ensures on { WorksOn (HasHeld P.other P.holds) ahead.old ahead.new text.old.items text.new.items }
    ensures none { OnOk result (HoldsNone ahead.new) }
    ensures number { ahead.new.number ≡ ahead.old.number }
{
    let mut tasks = read_lines(
        rt,
        alloc,
        ahead.answering.dialect,
        &ahead.held,
        ahead.worked,
    )?;
    work_all(ahead, alloc, place_all, tasks.as_slice(), text)?;
    let_go(rt, tasks.as_mut_slice());
    ahead.held.clear();
    ahead.worked = 0;
    ahead.asks = false;
    Ok(())
}
