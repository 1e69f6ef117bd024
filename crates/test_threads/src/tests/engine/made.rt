//! Documents and queries, and calls of the engine with a gate and a counter of their own.
ghost use Rattle.std.specs.Prelude.{◌≡◌, ◌<◌, length};
ghost use mathlib.Core.List.{IsPrefix};
ghost use Rattle.eb_base.specs.Match.{answer};
ghost use Rattle.eb_cursor.specs.Frames.{query_of, k_of, ids_of};

use eb_base::{Document, Gate, OpenGate, Queries, Query, Term, Terms};
use eb_cursor::Frame;
use eb_engine::{Index, Reader, Writer};
use eb_plain::newest;
use eb_writer::Full;
use std::alloc::Global;
use std::test::Fail;

// A document of the term `d`, and of `a`, `b` or `c` where 2, 3 or 5 divides its id.
pub(super) fn document(alloc: Global, id: u64) -> Result<Document, Fail> {
    let mut terms = Terms::new(alloc);
    for (divisor, term) in [(2, b"a"), (3, b"b"), (5, b"c"), (1, b"d")] {
        if id % divisor == 0 {
            terms.push(Term::new(alloc, term)?)?;
        }
    }
    Ok(Document::new(id, terms)?)
}

// A word.
pub(super) fn word(alloc: Global, term: &[u8]) -> Result<Query, Fail> {
    Ok(Query::Word(Term::new(alloc, term)?))
}

// A frame for a query, with room for ten ids.
pub(super) fn frame(alloc: Global, query: Query) -> Result<Frame, Fail> {
    if !query.is_well_formed() {
        return Err(Fail::new("no such query"));
    }
    Ok(Frame::new(alloc, query, 10)?)
}

// Two parts.
fn both(alloc: Global, first: Query, second: Query) -> Result<Queries, Fail> {
    let mut parts = Queries::new(alloc);
    parts.push(first)?;
    parts.push(second)?;
    Ok(parts)
}

// Two terms.
fn pair(alloc: Global, first: &[u8], second: &[u8]) -> Result<Terms, Fail> {
    let mut terms = Terms::new(alloc);
    terms.push(Term::new(alloc, first)?)?;
    terms.push(Term::new(alloc, second)?)?;
    Ok(terms)
}

fn phrase(alloc: Global, first: &[u8], second: &[u8]) -> Result<Query, Fail> {
    Ok(Query::Phrase(pair(alloc, first, second)?))
}

fn either(alloc: Global, first: Query, second: Query) -> Result<Query, Fail> {
    Ok(Query::Or(both(alloc, first, second)?))
}

// The documents with a word from this id on.
fn since(alloc: Global, id: u64, term: &[u8]) -> Result<Query, Fail> {
    Ok(Query::And(both(alloc, Query::Since(id), word(alloc, term)?)?))
}

// The documents with the first word and not the second.
fn without(alloc: Global, first: &[u8], second: &[u8]) -> Result<Query, Fail> {
    let other = Query::Not(Box::new(alloc, word(alloc, second)?)?);
    Ok(Query::And(both(alloc, word(alloc, first)?, other)?))
}

// The query of a number below 7: a word of each document, `a` without `b`, `b` or `c`, `a` before
// `b`, `a` and `d` within two places, `c` from id 57 on, and `b` before `d` or `c` without `a`.
fn query(alloc: Global, number: u32) -> Result<Query, Fail> {
    match number {
        0 => word(alloc, b"d"),
        1 => without(alloc, b"a", b"b"),
        2 => either(alloc, word(alloc, b"b")?, word(alloc, b"c")?),
        3 => phrase(alloc, b"a", b"b"),
        4 => Ok(Query::Window(pair(alloc, b"a", b"d")?, 2)),
        5 => since(alloc, 57, b"c"),
        _ => either(
            alloc,
            phrase(alloc, b"b", b"d")?,
            without(alloc, b"c", b"a")?,
        ),
    }
}

// A query, and a frame for it.
#[derive(Drop)]
pub(super) struct Question {
    pub(super) query: Query,
    pub(super) frame: Frame,
}

// The question of a number.
pub(super) fn question_of(alloc: Global, number: u32) -> Result<Question, Fail> {
    Ok(Question {
        query: query(alloc, number)?,
        frame: frame(alloc, query(alloc, number)?)?,
    })
}

// Whether the ids are those of the plain scan over the first documents.
pub(super) fn is_scanned(
    alloc: Global,
    query: &Query,
    documents: &[Document],
    count: u64,
    ids: &[u64],
) -> bool {
    let Some(first) = documents.get(..count as usize) else {
        return false;
    };
    match newest(alloc, query, 10, first) {
        Ok(scanned) => scanned.as_slice() == ids,
        Err(_) => false,
    }
}

// Documents with the ids 0 to 389.
pub(super) fn documents(alloc: Global) -> Result<Vec<Document>, Fail> {
    let mut documents = Vec::new(alloc);
    for id in 0..390 {
        documents.push(document(alloc, id)?)?;
    }
    Ok(documents)
}

// Adds a document: the new count, or none where there is no room.
pub(super) fn added(writer: &mut Writer, index: &Index, document: &Document) -> Option<u64>
    requires { writer.old.index ≡ index.now }
    ensures { writer.new.index ≡ writer.old.index }
{
    match writer.add(index, document, &OpenGate) {
        Ok(count) => Some(count),
        Err(Full) => None,
    }
}

// A search, and what is known of it.
pub(super) fn searched<G: Gate>(
    reader: &mut Reader,
    index: &Index,
    frame: &mut Frame,
    gate: &G,
) -> u64
    requires { reader.old.index ≡ index.now }
    ensures index { reader.new.index ≡ reader.old.index }
    ensures known { IsPrefix reader.old.docs reader.new.docs }
    ensures count { result ≡ length reader.new.docs }
    ensures ids { ids_of frame.new ≡ answer (query_of frame.old) (k_of frame.old) reader.new.docs }
{
    reader.search_unmetered(index, frame, gate)
}
