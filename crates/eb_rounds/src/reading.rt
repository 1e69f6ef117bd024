ghost use Rattle.std.specs.Prelude.{◌≡◌, ◌≤◌, ◌^◌, true, length, IfOk};
ghost use Rattle.std.specs.List.{AllZip};
ghost use Rattle.eb_doc.specs.WithFields.{document_with};
ghost use Rattle.eb_fields.specs.Dialect.{dialect_of};
ghost use Rattle.eb_base.specs.Query.{tree};
ghost use Rattle.run_store.specs.Questions.{MayAsk};
ghost use Rattle.eb_lines.specs.Reading.{query as reads_query};
ghost use Rattle.eb_rounds.specs.Inputs.{ReadsInput, ReadsLine, query_line};
ghost use Rattle.eb_query.specs.Head.{begins_query as begins};
ghost use Rattle.eb_lines.specs.Kinds as kind;
ghost use Rattle.eb_lines.specs.Reads.{IsOfDocument, ReadsByKind};
ghost use Rattle.eb_rounds.specs.Works.{first_line, then_line, asked_reading, given_reading, asked_entry, given_entry, IsReadAs};

use crate::held::{FirstInput, FirstLine, Held, ThenInput, ThenLine};
use crate::tasks::{Asked, AskedWork, Counted, Given, GivenWork, Tasks};
use eb_base::{NoMemory, Query};
use eb_count::Tally;
use eb_cursor::Frame;
use eb_fields::Dialect;
use eb_lines::{Refusal, line_room, read_document_line};
use eb_query::{Ask, begins_query};
use rayon::prelude::*;
use run_store::read_question;
use std::alloc::{AllocError, Global};
use std::thread::{Threads, join_mut};

// What is to be done for a document line by this dialect.
fn document_work(alloc: Global, dialect: Dialect<'_>, bytes: &[u8]) -> Result<GivenWork, NoMemory>
    ensures { IfOk result (λ work. IsOfDocument (document_with (dialect_of dialect.entry) bytes.now) (given_reading work)) }
{
    match read_document_line(alloc, dialect, bytes)? {
        Ok(document) => Ok(GivenWork::Add(document)),
        Err(refusal) => Ok(GivenWork::Refuse(refusal)),
    }
}

// What is to be done for a query of which this is asked.
fn asked_work(alloc: Global, ask: Ask, query: Query) -> Result<AskedWork, NoMemory>
    requires { MayAsk ask query }
    ensures { IfOk result (λ work. asked_reading work ≡ reads_query ask (tree query)) }
{
    match ask {
        Ask::Newest(k) => Ok(AskedWork::Answer(Frame::new(alloc, query, k)?)),
        Ask::Counts {
            start,
            width,
            number,
        } => {
            let tally = Tally::with_buckets(alloc, start, width, number as usize)?;
            let frame = Frame::new(alloc, query, 1)?;
            Ok(AskedWork::Count(Counted::new(frame, tally)))
        }
    }
}

// What is to be done for a line that begins as a query line does by this dialect.
fn marked_work(alloc: Global, dialect: Dialect<'_>, text: &str) -> Result<AskedWork, NoMemory>
    requires { begins (dialect_of dialect) text.now ≡ true }
    ensures { IfOk result (λ work. ReadsByKind (dialect_of dialect.entry) kind.query_line text.now (asked_reading work)) }
{
    match read_question(alloc, &dialect, text)? {
        Ok((ask, query)) => asked_work(alloc, ask, query),
        Err(refusal) => Ok(AskedWork::Refuse(refusal)),
    }
}

// What is to be done for a query line by this dialect.
fn query_work(alloc: Global, dialect: Dialect<'_>, text: &str) -> Result<AskedWork, NoMemory>
    ensures { IfOk result (λ work. ReadsInput (dialect_of dialect.entry) (query_line text.now) (asked_reading work)) }
{
    if !begins_query(dialect, text.as_bytes()) {
        return Ok(AskedWork::Refuse(Refusal::BadLine));
    }
    marked_work(alloc, dialect, text)
}

// Reads a document line, or a line after it.
fn read_then(alloc: Global, dialect: Dialect<'_>, line: &ThenLine) -> Result<Given, NoMemory>
    ensures { IfOk result (λ task. ReadsLine (dialect_of dialect.entry) (then_line line.now) (given_entry task)) }
{
    let work = match &line.input {
        ThenInput::Document(bytes) => document_work(alloc, dialect, bytes.as_slice())?,
        ThenInput::Refused(refusal) => GivenWork::Refuse(*refusal),
    };
    Ok(Given {
        number: line.number,
        work,
    })
}

// Reads a line before the first document line.
fn read_first(alloc: Global, dialect: Dialect<'_>, line: &FirstLine) -> Result<Asked, NoMemory>
    ensures { IfOk result (λ task. ReadsLine (dialect_of dialect.entry) (first_line line.now) (asked_entry task)) }
{
    let work = match &line.input {
        FirstInput::Query(line) => query_work(alloc, dialect, line.as_str())?,
        FirstInput::Refused(refusal) => AskedWork::Refuse(*refusal),
    };
    Ok(Asked {
        number: line.number,
        work,
    })
}

// The fewest document lines that are worth a thread of their own.
const LEAST_LINES: usize = 128;

// Reads the lines in list order, by several threads.
fn read_all_then<R: Threads + Sync>(
    rt: &R,
    alloc: Global,
    dialect: Dialect<'_>,
    lines: &[ThenLine],
) -> Result<Result<Vec<Given>, NoMemory>, AllocError>
    ensures { IfOk result (λ all. IfOk all (λ tasks.
        AllZip (λ line task. ReadsLine (dialect_of dialect.entry) (then_line line) (given_entry task)) lines.now tasks.items)) }
{
    lines
        .par_iter()
        .with_min_len(LEAST_LINES)
        .map(
            |line: &ThenLine| -> Result<Given, NoMemory>
                ensures { IfOk result (λ task. ReadsLine (dialect_of dialect.entry) (then_line line.now) (given_entry task)) }
            { read_then(alloc, dialect, line) },
        )
        .collect::<Result<Vec<_>, NoMemory>>(rt, alloc)
}

// Reads the lines before the first document line, by several threads.
fn read_all_first<R: Threads + Sync>(
    rt: &R,
    alloc: Global,
    dialect: Dialect<'_>,
    lines: &[FirstLine],
) -> Result<Result<Vec<Asked>, NoMemory>, AllocError>
    ensures { IfOk result (λ all. IfOk all (λ tasks.
        AllZip (λ line task. ReadsLine (dialect_of dialect.entry) (first_line line) (asked_entry task)) lines.now tasks.items)) }
{
    lines
        .par_iter()
        .map(
            |line: &FirstLine| -> Result<Asked, NoMemory>
                ensures { IfOk result (λ task. ReadsLine (dialect_of dialect.entry) (first_line line.now) (asked_entry task)) }
            { read_first(alloc, dialect, line) },
        )
        .collect::<Result<Vec<_>, NoMemory>>(rt, alloc)
}

// Reads the lines of a round in list order, by several threads where there are many.
fn read_lines<R: Threads + Sync>(
    rt: &R,
    alloc: Global,
    dialect: Dialect<'_>,
    first: &[FirstLine],
    then: &[ThenLine],
) -> Result<(Vec<Asked>, Vec<Given>), NoMemory>
    ensures first { IfOk result (λ r. AllZip (λ line task. ReadsLine (dialect_of dialect.entry) (first_line line) (asked_entry task)) first.now r.0.items) }
    ensures then { IfOk result (λ r. AllZip (λ line task. ReadsLine (dialect_of dialect.entry) (then_line line) (given_entry task)) then.now r.1.items) }
{
    let Ok(Ok(asked)) = read_all_first(rt, alloc, dialect, first) else {
        return Err(NoMemory);
    };
    let Ok(Ok(given)) = read_all_then(rt, alloc, dialect, then) else {
        return Err(NoMemory);
    };
    Ok((asked, given))
}

// Reads the lines of a round in list order, and takes room for the refusals of the document lines.
fn read_round<R: Threads + Sync>(
    rt: &R,
    alloc: Global,
    dialect: Dialect<'_>,
    round: &Held,
) -> Result<Tasks, NoMemory>
    requires { length round.now.last.items ≤ 2 ^ 16 }
    ensures { IfOk result (IsReadAs (dialect_of dialect.entry) round.now) }
{
    let (asked, given) = read_lines(
        rt,
        alloc,
        dialect,
        round.first.as_slice(),
        round.last.as_slice(),
    )?;
    let refusals = Vec::with_capacity(alloc, line_room(0) * given.len())?;
    Ok(Tasks {
        asked,
        given,
        refusals,
    })
}

// Reads the lines of two rounds in list order, concurrently where both have many, and takes room
// for their refusals.
pub(crate) fn read_rounds<R: Threads + Sync>(
    rt: &R,
    alloc: Global,
    dialect: Dialect<'_>,
    ahead: &Held,
    held: &Held,
) -> Result<(Tasks, Tasks), NoMemory>
    requires ahead { length ahead.now.last.items ≤ 2 ^ 16 }
    requires held { length held.now.last.items ≤ 2 ^ 16 }
    ensures ahead { IfOk result (λ r. IsReadAs (dialect_of dialect.entry) ahead.now r.0) }
    ensures held { IfOk result (λ r. IsReadAs (dialect_of dialect.entry) held.now r.1) }
{
    if ahead.last.len() < LEAST_LINES || held.last.len() < LEAST_LINES {
        let first = read_round(rt, alloc, dialect, ahead)?;
        let then = read_round(rt, alloc, dialect, held)?;
        return Ok((first, then));
    }
    let (first, then) = join_mut(
        rt,
        &mut || -> Result<Tasks, NoMemory>
            requires { length ahead.now.last.items ≤ 2 ^ 16 }
            ensures { IfOk result (IsReadAs (dialect_of dialect.entry) ahead.entry.now) }
        { read_round(rt, alloc, dialect, ahead) },
        &mut || -> Result<Tasks, NoMemory>
            requires { length held.now.last.items ≤ 2 ^ 16 }
            ensures { IfOk result (IsReadAs (dialect_of dialect.entry) held.entry.now) }
        { read_round(rt, alloc, dialect, held) },
    );
    Ok((first?, then?))
}
