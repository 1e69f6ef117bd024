//! Lines whose documents are added many at once, and a line that is processed alone.
ghost use Rattle.std.specs.Prelude.{◌≡◌, ◌+◌, ◌*◌, ◌<◌, ◌≤◌, ◌^◌, ◌++◌, length, vec_len, vec_capacity, Err, OnErr, OnOk};
ghost use Rattle.run_ahead.specs.Placing.{PlacesTogether, TellsNone};
ghost use Rattle.run_ahead.specs.Runs.{TakesRun};
ghost use Rattle.run_ahead.specs.Tasks.{line_of, IsTaskOf, AreRun, cause, cause_line, one_cause, run_text, run_refused};
ghost use Rattle.run_store.specs.Answering.{HasAnswered};
ghost use Rattle.eb_fields.specs.Dialect.{dialect_of};
ghost use Rattle.eb_lines.specs.Programs.{IsRunning, WorksOn, WorksOnGiven};
ghost use Rattle.eb_lines.specs.Text.{room_of};

use crate::lines::HeldLine;
use crate::reading::Other;
use eb_base::{Document, Gate, NoMemory};
use eb_lines::{Form, Refusal, line_room, put_refusal};
use run_store::{Answering, Store};
use std::alloc::Global;

// Why a line is refused, where this came of what it is read as.
fn cause_of(task: &Result<Document, Other>, refusal: Option<Refusal>) -> Option<Refusal>
    ensures { result ≡ cause task.now refusal }
{
    match task {
        Ok(_) => refusal,
        Err(Other::Refuse(refusal)) => Some(*refusal),
        Err(_) => None,
    }
}

// Prints a refusal for this cause, if there is one, and returns how many lines are refused. Takes
// no memory.
fn put_cause(text: &mut Vec<u8>, form: Form, number: u64, cause: Option<Refusal>) -> u64
    requires { vec_len text.old + room_of 0 ≤ vec_capacity text.old }
    ensures text { text.new.items ≡ text.old.items ++ cause_line form number cause }
    ensures len { vec_len text.new ≤ vec_len text.old + room_of 0 }
    ensures room { vec_capacity text.old ≤ vec_capacity text.new }
    ensures refused { result ≡ one_cause cause }
{
    match cause {
        None => 0,
        Some(refusal) => {
            put_refusal(text, form, number, refusal);
            1
        }
    }
}

// Prints what came of lines after line `before`, and returns how many of them are refused. Takes no
// memory.
fn put_run(
    text: &mut Vec<u8>,
    form: Form,
    before: u64,
    tasks: &[Result<Document, Other>],
    refusals: &[Option<Refusal>],
) -> u64
    requires room { vec_len text.old + room_of 0 * length tasks.now ≤ vec_capacity text.old }
    requires number { before + length tasks.now ≤ 2 ^ 40 + 1 }
    requires same { length refusals.now ≡ length tasks.now }
    ensures text { text.new.items ≡ text.old.items ++ run_text form before tasks.now refusals.now }
    ensures refused { result ≡ run_refused tasks.now refusals.now }
{
    let mut refused = 0;
    for at in 0..tasks.len() {
        let cause = cause_of(&tasks[at], refusals[at]);
        refused += put_cause(text, form, before + at as u64 + 1, cause);
    }
    refused
}

// Takes lines, none of which is a query or left to the store, and adds their documents at once.
// Room for what they print is taken before: where memory runs out, nothing is done.
pub(crate) fn work_run<
    P: Store,
    G: Gate,
    W: Fn(&mut P, &[Result<Document, Other>]) -> Result<Vec<Option<Refusal>>, NoMemory>,
>(
    answering: &mut Answering<'_, G, P>,
    place_all: &W,
    tasks: &[Result<Document, Other>],
    text: &mut Vec<u8>,
) -> Result<(), NoMemory>
    requires state { IsRunning (HasAnswered P.other P.holds) answering.old }
    requires placing { PlacesTogether P.holds W.pre W.post place_all.now }
    requires tells { TellsNone P.holds }
    requires number { answering.old.number + length tasks.now ≤ 2 ^ 40 + 1 }
    requires run { AreRun tasks.now }
    ensures ok { OnOk result (TakesRun P.other P.holds answering.old answering.new text.old.items text.new.items tasks.now) }
    ensures err { OnErr result (WorksOn (HasAnswered P.other P.holds) answering.old answering.new text.old.items text.new.items) }
{
    let form = answering.store.form();
    text.reserve(line_room(0) * tasks.len())?;
    let refusals = place_all(&mut answering.store, tasks)?;
    let refused = put_run(text, form, answering.number, tasks, refusals.as_slice());
    answering.number += tasks.len() as u64;
    answering.refused += refused;
    Ok(())
}

// Takes a line alone that isn't read as a document.
fn work_other<P: Store, G: Gate>(
    answering: &mut Answering<'_, G, P>,
    alloc: Global,
    line: HeldLine<'_>,
    other: &Other,
    text: &mut Vec<u8>,
) -> Result<(), NoMemory>
    requires state { IsRunning (HasAnswered P.other P.holds) answering.old }
    requires number { answering.old.number ≤ 2 ^ 40 }
    requires task { IsTaskOf (dialect_of answering.old.dialect) (line_of line) (Err other.now) }
    ensures ok { OnOk result (WorksOnGiven (HasAnswered P.other P.holds) answering.old answering.new text.old.items text.new.items (line_of line.entry)) }
    ensures err { OnErr result (WorksOn (HasAnswered P.other P.holds) answering.old answering.new text.old.items text.new.items) }
{
    match other {
        Other::Blank => {
            answering.pass();
            Ok(())
        }
        Other::Ask(question) => {
            let query = question.query.copy(alloc)?;
            answering.answer(question.ask, query, text)
        }
        Other::Refuse(refusal) => answering.refuse(*refusal, text),
        Other::Leave => match line {
            HeldLine::Line(bytes) => answering.take_other(bytes, text),
            HeldLine::Long => answering.refuse(Refusal::LongLine, text),
        },
    }
}

// Takes a line alone, whatever it is.
pub(crate) fn work_line<P: Store, G: Gate>(
    answering: &mut Answering<'_, G, P>,
    alloc: Global,
    line: HeldLine<'_>,
    task: &Result<Document, Other>,
    text: &mut Vec<u8>,
) -> Result<(), NoMemory>
    requires state { IsRunning (HasAnswered P.other P.holds) answering.old }
    requires number { answering.old.number ≤ 2 ^ 40 }
    requires task { IsTaskOf (dialect_of answering.old.dialect) (line_of line) task.now }
    ensures ok { OnOk result (WorksOnGiven (HasAnswered P.other P.holds) answering.old answering.new text.old.items text.new.items (line_of line.entry)) }
    ensures err { OnErr result (WorksOn (HasAnswered P.other P.holds) answering.old answering.new text.old.items text.new.items) }
{
    match task {
        Ok(document) => answering.add(document, text),
        Err(other) => work_other(answering, alloc, line, other, text),
    }
}
