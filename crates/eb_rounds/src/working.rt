ghost use Rattle.eb_fields.specs.Dialect.{Dialect as Spoken};
ghost use Rattle.std.specs.Prelude.{◌≡◌, ◌+◌, ◌*◌, ◌≤◌, ◌^◌, ℕ, List, length, map, sum_by, vec_len, vec_capacity};
ghost use Rattle.std.specs.List.{AllZip, list_any};
ghost use mathlib.Core.List.{IsPrefix};
ghost use Rattle.run_index.specs.Conversions.{AreConverted};
ghost use Rattle.eb_rounds.specs.Inputs.{HeldLine, ReadsLine};
ghost use Rattle.eb_lines.specs.Text.{room_of};
ghost use Rattle.eb_rounds.specs.Shown.{AreAnswered, AreAdded, WorksOff};
ghost use Rattle.eb_rounds.specs.Working.{AreWorkedOff};
ghost use Rattle.eb_rounds.specs.Works.{asked_entry, asked_need, is_answer, is_add, given_entry, entries_of, need_of_tasks, count_of_tasks, HasRoomForRefusals};

use crate::adding::add_all;
use crate::answering::answer_all;
use crate::setup::Setup;
use crate::tasks::{Asked, AskedWork, Given, GivenWork, Tasks};
use eb_base::Gate;
use eb_engine::{Converter, Reader, Writer};
use eb_lines::line_room;
use run_index::{Counts, convert_all, has_waiting};
use std::thread::{Threads, join_mut};

// The most bytes that a line prints.
fn need_of(task: &Asked) -> usize
    ensures need { result ≡ asked_need task.now }
    ensures small { result ≤ 2 ^ 40 }
{
    match &task.work {
        AskedWork::Answer(frame) => line_room(frame.k() as usize),
        AskedWork::Count(counted) => line_room(1 + counted.tally.buckets().len()),
        AskedWork::Refuse(_) => line_room(0),
    }
}

// The most bytes that the lines before the first document line print.
fn needs_of_asked(tasks: &[Asked]) -> usize
    requires { length tasks.now ≤ 2 ^ 16 }
    ensures needs { result ≡ sum_by asked_need tasks.now }
    ensures small { result ≤ 2 ^ 40 * length tasks.now }
{
    let mut needs = 0;
    for task in tasks {
        needs += need_of(task);
    }
    needs
}

// The most bytes that the lines of a round print.
pub(crate) fn needs_of(tasks: &Tasks) -> usize
    requires asked { length tasks.now.asked.items ≤ 2 ^ 16 }
    requires given { length tasks.now.given.items ≤ 2 ^ 16 }
    ensures needs { result ≡ need_of_tasks tasks.now }
    ensures small { result ≤ 2 ^ 57 }
{
    needs_of_asked(tasks.asked.as_slice()) + line_room(0) * tasks.given.len()
}

// Whether the line is a query that is to be answered.
fn is_query(task: &Asked) -> bool
    ensures { result ≡ is_answer task.now }
{
    match &task.work {
        AskedWork::Answer(_) => true,
        AskedWork::Count(_) => true,
        AskedWork::Refuse(_) => false,
    }
}

// Whether some line is a query that is to be answered.
fn has_answer(tasks: &[Asked]) -> bool
    ensures { result ≡ list_any is_answer tasks.now }
{
    for task in tasks {
        if is_query(task) {
            return true;
        }
    }
    false
}

// Whether some line is a document that is to be added.
fn has_add(tasks: &[Given]) -> bool
    ensures { result ≡ list_any is_add tasks.now }
{
    for task in tasks {
        if let GivenWork::Add(_) = &task.work {
            return true;
        }
    }
    false
}

// Answers the queries and adds the documents of a round: at the same time where there are both, for
// which a thread is started, else by one thread. What the document lines print stands apart. Takes
// no memory.
fn work_apart<R: Threads + Sync, G: Gate + Sync>(
    rt: &R,
    setup: &Setup<'_, G>,
    writer: &mut Writer,
    reader: &mut Reader,
    tasks: &mut Tasks,
    text: &mut Vec<u8>,
) -> ((u64, u64), (u64, u64))
    requires writer { writer.old.index ≡ setup.now.index.now }
    requires reader { reader.old.index ≡ setup.now.index.now }
    requires text { vec_len text.old + sum_by asked_need tasks.old.asked.items ≤ vec_capacity text.old }
    requires refusals { vec_len tasks.old.refusals + room_of 0 * length tasks.old.given.items ≤ vec_capacity tasks.old.refusals }
    ensures writer { writer.new.index ≡ writer.old.index }
    ensures reader { reader.new.index ≡ reader.old.index }
    ensures len { vec_len text.new ≤ vec_len text.old + sum_by asked_need tasks.old.asked.items }
    ensures room { vec_capacity text.old ≤ vec_capacity text.new }
    ensures refusals { vec_len tasks.new.refusals ≤ vec_len tasks.old.refusals + room_of 0 * length tasks.old.given.items }
    ensures answered { AreAnswered setup.now.form reader.old.docs reader.new.docs (map asked_entry tasks.old.asked.items)
        text.old.items text.new.items result.1.0 result.1.1 }
    ensures added { AreAdded setup.now.form setup.now.index.now.setting writer.old.docs writer.new.docs (map given_entry tasks.old.given.items)
        tasks.old.refusals.items tasks.new.refusals.items result.0.0 result.0.1 }
{
    let Tasks {
        asked,
        given,
        refusals,
    } = tasks;
    let asked = asked.as_mut_slice();
    let given = given.as_slice();
    if has_answer(asked) && has_add(given) {
        // The first call goes to the new thread. Adding stays on this one, whose caches know the
        // index.
        let (answered, added) = join_mut(
            rt,
            &mut || answer_all(setup, reader, asked, text),
            &mut || add_all(setup, writer, given, refusals),
        );
        return (added, answered);
    }
    let answered = answer_all(setup, reader, asked, text);
    let added = add_all(setup, writer, given, refusals);
    (added, answered)
}

// Adds the documents and answers the queries of a round. Takes no memory.
fn work_round<R: Threads + Sync, G: Gate + Sync>(
    rt: &R,
    setup: &Setup<'_, G>,
    writer: &mut Writer,
    tasks: &mut Tasks,
    text: &mut Vec<u8>,
) -> ((u64, u64), (u64, u64))
    requires writer { writer.old.index ≡ setup.now.index.now }
    requires text { vec_len text.old + need_of_tasks tasks.old ≤ vec_capacity text.old }
    requires refusals { HasRoomForRefusals tasks.old }
    ensures { AreWorkedOff setup.now.form setup.now.index.now.setting tasks.old writer.old writer.new text.old text.new result.0 result.1 }
{
    let mut reader = writer.reader(setup.index);
    let counts = work_apart(rt, setup, writer, &mut reader, tasks, text);
    writer.meet(setup.index, reader);
    text.extend_from_slice(tasks.refusals.as_slice()).unwrap();
    counts
}

// Processes the lines of a round, and converts all segments that are closed before it: at the same
// time where both is to be done, for which a thread is started. The converter knows the history.
// Takes no memory.
#[tactic(auto, using(run_index::proofs::Conversions::converted_front))]
fn work_and_convert<R: Threads + Sync, G: Gate + Sync>(
    rt: &R,
    setup: &Setup<'_, G>,
    writer: &mut Writer,
    converter: &mut Converter,
    tasks: &mut Tasks,
    text: &mut Vec<u8>,
) -> ((u64, u64), (u64, u64))
    requires writer { writer.old.index ≡ setup.now.index.now }
    requires converter { converter.old.index ≡ setup.now.index.now }
    requires told { IsPrefix writer.old.docs converter.old.docs }
    requires text { vec_len text.old + need_of_tasks tasks.old ≤ vec_capacity text.old }
    requires refusals { HasRoomForRefusals tasks.old }
    ensures converter { converter.new.index ≡ converter.old.index }
    ensures grown { converter.old.converted ≤ converter.new.converted }
    ensures converted { AreConverted setup.now.index.now.setting writer.old.docs converter.new.converted }
    ensures round { AreWorkedOff setup.now.form setup.now.index.now.setting tasks.old writer.old writer.new text.old text.new result.0 result.1 }
{
    if !has_waiting(writer, converter) {
        return work_round(rt, setup, writer, tasks, text);
    }
    if has_answer(tasks.asked.as_slice()) || has_add(tasks.given.as_slice()) {
        let ((), counts) = join_mut(
            rt,
            &mut || convert_all(setup.index, converter),
            &mut ||
                requires writer { writer.now.index ≡ setup.now.index.now }
                requires text { vec_len text.now + need_of_tasks tasks.now ≤ vec_capacity text.now }
                requires refusals { HasRoomForRefusals tasks.now }
            { work_round(rt, setup, writer, tasks, text) },
        );
        return counts;
    }
    convert_all(setup.index, converter);
    work_round(rt, setup, writer, tasks, text)
}

// The converter learns the history; then the lines of a round are processed, and all segments that
// are closed before it converted. Takes no memory.
pub(crate) fn work_tasks<R: Threads + Sync, G: Gate + Sync>(
    rt: &R,
    setup: &Setup<'_, G>,
    writer: &mut Writer,
    converter: &mut Converter,
    tasks: &mut Tasks,
    text: &mut Vec<u8>,
) -> Counts
    requires writer { writer.old.index ≡ setup.now.index.now }
    requires converter { converter.old.index ≡ setup.now.index.now }
    requires few { count_of_tasks tasks.old ≤ 2 ^ 16 }
    requires text { vec_len text.old + need_of_tasks tasks.old ≤ vec_capacity text.old }
    requires refusals { HasRoomForRefusals tasks.old }
    ensures index { writer.new.index ≡ writer.old.index }
    ensures converter { converter.new.index ≡ converter.old.index }
    ensures grown { converter.old.converted ≤ converter.new.converted }
    ensures converted { AreConverted setup.now.index.now.setting writer.old.docs converter.new.converted }
    ensures len { vec_len text.new ≤ vec_len text.old + need_of_tasks tasks.old }
    ensures room { vec_capacity text.old ≤ vec_capacity text.new }
    ensures works { (how : Spoken) (held : List HeldLine) → AllZip (ReadsLine how) held (entries_of tasks.old)
        → WorksOff how setup.now.form setup.now.index.now.setting held writer.old.docs writer.new.docs text.old.items text.new.items
        result.documents result.queries result.refused }
    ensures few { result.documents + (result.queries + result.refused) ≤ count_of_tasks tasks.old }
{
    converter.meet(setup.index, writer.reader(setup.index));
    let ((documents, full), (queries, refused)) = work_and_convert(
        rt, setup, writer, converter, tasks, text,
    );
    Counts {
        documents,
        queries,
        refused: refused + full,
    }
}
