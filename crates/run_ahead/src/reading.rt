//! What lines that wait are read as, by several threads.
ghost use Rattle.std.specs.Prelude.{◌≡◌, ℕ, ◌+◌, ◌*◌, ◌<◌, ◌≤◌, ◌^◌, ◌++◌, List, true, IfOk, OnOk, Ok, length, vec_len, take, drop};
ghost use Rattle.std.specs.List.{AllZip};
ghost use Rattle.run_ahead.specs.Tasks.{line_of, IsTaskOf, IsTaskOfKind, is_run_task, AreRun};
ghost use Rattle.eb_fields.specs.Dialect.{Dialect as Spoken, dialect_of};
ghost use Rattle.eb_query.specs.Head.{begins_query};
ghost use Rattle.run_ahead.specs.Pieces.{IsPiece, ArePieces};
ghost use Rattle.eb_io.specs.Lines.{Line, line};
ghost use Rattle.eb_lines.specs.Kinds.{document_line, query_line};

use crate::lines::{HeldLine, HeldLines};
use eb_base::{Document, NoMemory, Query};
use eb_beside::each_place;
use eb_doc::DocumentReader;
use eb_fields::Dialect;
use eb_lines::{LineKind, Refusal, line_kind, read_document_line_by};
use eb_query::Ask;
use rayon::current_num_threads;
use run_store::read_question;
use std::alloc::Global;
use std::thread;
use std::thread::Threads;

/// A query, and what is asked of it.
#[derive(Drop)]
pub struct Question {
    pub(crate) ask: Ask,
    pub(crate) query: Query,
}

/// What is to be done for a line that isn't a document.
#[derive(Drop)]
pub enum Other {
    /// Nothing.
    Blank,
    /// It is answered.
    Ask(Question),
    /// It is refused.
    Refuse(Refusal),
    /// It is left to the store.
    Leave,
}

// The fewest lines that are worth a thread of their own.
const LEAST_LINES: usize = 128;

// What some lines that follow one another are read as.
type Piece = Result<Vec<Result<Document, Other>>, NoMemory>;

// Reads a document line.
fn read_document(
    reader: &mut DocumentReader,
    dialect: Dialect<'_>,
    bytes: &[u8],
) -> Result<Result<Document, Other>, NoMemory>
    ensures { IfOk result (IsTaskOfKind (dialect_of dialect.entry) document_line bytes.now) }
{
    match read_document_line_by(reader, dialect, bytes)? {
        Ok(document) => Ok(Ok(document)),
        Err(refusal) => Ok(Err(Other::Refuse(refusal))),
    }
}

// Reads a query line.
fn read_query(
    alloc: Global,
    dialect: Dialect<'_>,
    text: &str,
) -> Result<Result<Document, Other>, NoMemory>
    requires { begins_query (dialect_of dialect) text.now ≡ true }
    ensures { IfOk result (IsTaskOfKind (dialect_of dialect.entry) query_line text.now) }
{
    match read_question(alloc, &dialect, text)? {
        Ok((ask, query)) => Ok(Err(Other::Ask(Question { ask, query }))),
        Err(refusal) => Ok(Err(Other::Refuse(refusal))),
    }
}

// Reads a line that isn't long.
fn read_bytes(
    reader: &mut DocumentReader,
    alloc: Global,
    dialect: Dialect<'_>,
    bytes: &[u8],
) -> Result<Result<Document, Other>, NoMemory>
    ensures { IfOk result (IsTaskOf (dialect_of dialect.entry) (line bytes.now)) }
{
    match line_kind(dialect, bytes) {
        LineKind::Blank => Ok(Err(Other::Blank)),
        LineKind::Document => read_document(reader, dialect, bytes),
        LineKind::Query(text) => read_query(alloc, dialect, text),
        LineKind::Bad => Ok(Err(Other::Leave)),
    }
}

// Reads a line.
fn read_line(
    reader: &mut DocumentReader,
    alloc: Global,
    dialect: Dialect<'_>,
    line: HeldLine<'_>,
) -> Result<Result<Document, Other>, NoMemory>
    ensures { IfOk result (IsTaskOf (dialect_of dialect.entry) (line_of line.entry)) }
{
    match line {
        HeldLine::Line(bytes) => read_bytes(reader, alloc, dialect, bytes),
        HeldLine::Long => Ok(Err(Other::Refuse(Refusal::LongLine))),
    }
}

// Reads the lines from this place on, at most this many, one after the other by one reader.
fn read_some(
    alloc: Global,
    dialect: Dialect<'_>,
    lines: &HeldLines,
    from: usize,
    most: usize,
) -> Piece
    requires { from ≤ length lines.now }
    ensures { IfOk result (λ tasks. AllZip (IsTaskOf (dialect_of dialect.entry)) (take most (drop from lines.now)) tasks.items) }
{
    let mut reader = DocumentReader::new(alloc);
    let count = most.min(lines.len() - from);
    let mut tasks = Vec::with_capacity(alloc, count)?;
    for at in from..from + count {
        let task = read_line(&mut reader, alloc, dialect, lines.get(at))?;
        tasks.push_reserved(task);
    }
    Ok(tasks)
}

// This many pieces, nothing of which is read yet.
fn no_pieces(alloc: Global, count: usize) -> Result<Vec<Piece>, NoMemory>
    ensures { IfOk result (λ pieces. vec_len pieces ≡ count) }
{
    let mut pieces = Vec::with_capacity(alloc, count)?;
    for _piece in 0..count {
        pieces.push_reserved(Ok(Vec::new(alloc)));
    }
    Ok(pieces)
}

// Reads the lines from this place on in pieces of `size` lines, each by a thread of its own.
fn read_pieces<R: Threads + Sync>(
    rt: &R,
    alloc: Global,
    dialect: Dialect<'_>,
    lines: &HeldLines,
    from: usize,
    size: usize,
    pieces: &mut [Piece],
)
    requires starts { (i : ℕ) → i < length pieces.old → from + i * size < length lines.now }
    requires fits { length lines.now < 2 ^ 64 }
    ensures pieces { ArePieces (dialect_of dialect.entry) (drop from lines.now) size pieces.new }
    ensures count { length pieces.new ≡ length pieces.old }
{
    each_place(
        rt,
        pieces,
        true,
        &|at: usize, piece: &mut Piece|
            requires { (from + at * size < length lines.now) × (length lines.now < 2 ^ 64) }
            ensures { IsPiece (dialect_of dialect.entry) (drop from lines.entry.now) size at piece.exit.now }
        { *piece = read_some(alloc, dialect, lines, from + at * size, size) },
    );
}

// Puts a piece after what was read before.
fn join_piece(tasks: &mut Vec<Result<Document, Other>>, piece: &mut Piece) -> Result<(), NoMemory>
    ensures { OnOk result ((more : _) × (piece.old ≡ Ok more) × (tasks.new.items ≡ tasks.old.items ++ more.items)) }
{
    match piece {
        Ok(more) => {
            tasks.append(more)?;
            Ok(())
        }
        Err(_) => Err(NoMemory),
    }
}

// Puts the pieces together, which have at most this many lines.
fn join_pieces(alloc: Global, count: usize, pieces: &mut [Piece]) -> Piece
    ensures { (how : Spoken) (lines : List Line) (size : ℕ) → ArePieces how lines size pieces.old
        → IfOk result (λ tasks. AllZip (IsTaskOf how) (take (length pieces.old * size) lines) tasks.items) }
{
    let mut tasks = Vec::with_capacity(alloc, count)?;
    for at in 0..pieces.len() {
        join_piece(&mut tasks, &mut pieces[at])?;
    }
    Ok(tasks)
}

// Reads the lines from this place on, in list order, in pieces of `size` lines, of which there are
// enough.
fn read_in_pieces<R: Threads + Sync>(
    rt: &R,
    alloc: Global,
    dialect: Dialect<'_>,
    lines: &HeldLines,
    from: usize,
    size: usize,
    pieces: &mut [Piece],
) -> Piece
    requires starts { (i : ℕ) → i < length pieces.old → from + i * size < length lines.now }
    requires fits { (from ≤ length lines.now) × (length lines.now < 2 ^ 64) }
    requires enough { length lines.now ≤ from + length pieces.old * size }
    ensures { IfOk result (λ tasks. AllZip (IsTaskOf (dialect_of dialect.entry)) (drop from lines.now) tasks.items) }
{
    read_pieces(rt, alloc, dialect, lines, from, size, pieces);
    join_pieces(alloc, lines.len() - from, pieces)
}

// Reads the lines from this place on, in list order, by several threads where there are many.
pub(crate) fn read_lines<R: Threads + Sync>(
    rt: &R,
    alloc: Global,
    dialect: Dialect<'_>,
    lines: &HeldLines,
    from: usize,
) -> Piece
    requires { from ≤ length lines.now }
    ensures { IfOk result (λ tasks. AllZip (IsTaskOf (dialect_of dialect.entry)) (drop from lines.now) tasks.items) }
{
    let count = lines.len() - from;
    let size = count.div_ceil(current_num_threads(rt)).max(LEAST_LINES);
    let mut pieces = no_pieces(alloc, count.div_ceil(size))?;
    read_in_pieces(rt, alloc, dialect, lines, from, size, pieces.as_mut_slice())
}

// Gives back the memory of what lines were read as, by several threads where they are many.
pub(crate) fn let_go<R: Threads + Sync>(rt: &R, tasks: &mut [Result<Document, Other>]) {
    let size = tasks
        .len()
        .div_ceil(current_num_threads(rt))
        .max(LEAST_LINES);
    thread::for_each_chunk_mut(
        rt,
        tasks,
        size,
        &|_start: usize, some: &mut [Result<Document, Other>]| {
            for task in some.iter_mut() {
                *task = Err(Other::Blank);
            }
        },
    );
}

// Whether a line may be among those whose documents are added many at once: it isn't a query, and
// isn't left to the store.
fn is_added(task: &Result<Document, Other>) -> bool
    ensures { result ≡ is_run_task task.now }
{
    match task {
        Err(Other::Ask(_)) | Err(Other::Leave) => false,
        _ => true,
    }
}

// How many of the first lines may be added at once.
pub(crate) fn run_length(tasks: &[Result<Document, Other>]) -> usize
    ensures most { result ≤ length tasks.now }
    ensures run { AreRun (take result tasks.now) }
{
    for (at, task) in tasks.iter().enumerate() {
        if !is_added(task) {
            return at;
        }
    }
    tasks.len()
}
