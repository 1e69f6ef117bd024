//! Documents and questions, and calls of a feed with a gate and a counter of their own.
ghost use Rattle.std.specs.Prelude.{◌≡◌, ◌<◌, IfOk};

use eb_base::{Document, Gate, OpenGate, Queries, Query, Term, Terms};
use eb_count::Tally;
use eb_cursor::Frame;
use eb_plain::newest;
use feed_shared::{FeedReader, FeedWriter};
use std::alloc::Global;
use std::test::Fail;

// A document of the term `d`, and of `a` or `b` where 2 or 3 divides its id.
pub(super) fn document(alloc: Global, id: u64) -> Result<Document, Fail> {
    let mut terms = Terms::new(alloc);
    for (divisor, term) in [(2, b"a"), (3, b"b"), (1, b"d")] {
        if id % divisor == 0 {
            terms.push(Term::new(alloc, term)?)?;
        }
    }
    Ok(Document::new(id, terms)?)
}

// Documents with the ids from 1 to this one.
pub(super) fn documents(alloc: Global, last: u64) -> Result<Vec<Document>, Fail> {
    let mut documents = Vec::new(alloc);
    for before in 0..last {
        documents.push(document(alloc, before + 1)?)?;
    }
    Ok(documents)
}

// A word.
pub(super) fn word(alloc: Global, term: &[u8]) -> Result<Query, Fail> {
    Ok(Query::Word(Term::new(alloc, term)?))
}

// The documents with `a` and not `b`.
pub(super) fn a_without_b(alloc: Global) -> Result<Query, Fail> {
    let mut parts = Queries::new(alloc);
    parts.push(word(alloc, b"a")?)?;
    parts.push(Query::Not(Box::new(alloc, word(alloc, b"b")?)?))?;
    Ok(Query::And(parts))
}

// A frame for a query, with room for ten ids.
pub(super) fn frame(alloc: Global, query: Query) -> Result<Frame, Fail> {
    if !query.is_well_formed() {
        return Err(Fail::new("no such query"));
    }
    Ok(Frame::new(alloc, query, 10)?)
}

// What is asked: a query, and a frame for it.
#[derive(Drop)]
pub(super) struct Question {
    pub(super) query: Query,
    pub(super) frame: Frame,
}

// A word of every document, or the documents with `a` and not `b`.
fn query(alloc: Global, number: u32) -> Result<Query, Fail> {
    match number {
        0 => word(alloc, b"d"),
        _ => a_without_b(alloc),
    }
}

pub(super) fn question_of(alloc: Global, number: u32) -> Result<Question, Fail> {
    Ok(Question {
        query: query(alloc, number)?,
        frame: frame(alloc, query(alloc, number)?)?,
    })
}

// Whether the ids are those of the plain scan over the documents from one place on, before another.
pub(super) fn is_scanned(
    alloc: Global,
    query: &Query,
    documents: &[Document],
    from: u64,
    count: u64,
    ids: &[u64],
) -> bool {
    let Some(first) = documents.get(..count as usize) else {
        return false;
    };
    let Some(stretch) = first.get(from as usize..) else {
        return false;
    };
    match newest(alloc, query, 10, stretch) {
        Ok(scanned) => scanned.as_slice() == ids,
        Err(_) => false,
    }
}

// Where the generations begin that are held, where each takes this many documents.
pub(super) fn first_held(turns: u64, held: usize, size: u64) -> u64 {
    turns.saturating_sub(held as u64).saturating_mul(size)
}

// Adds a document.
pub(super) fn add(feed: &mut FeedWriter, document: &Document) -> Result<u64, Fail>
    ensures { feed.new.feed.book ≡ feed.old.feed.book }
{
    match feed.add(document, &OpenGate) {
        Ok(count) => Ok(count),
        Err(_) => Err(Fail::new("no memory")),
    }
}

// A reader that knows all.
pub(super) fn renewed(feed: &mut FeedWriter) -> Result<FeedReader, Fail>
    ensures same { feed.new ≡ feed.old }
    ensures reader { IfOk result (λ r. r.book ≡ feed.old.feed.book) }
{
    match feed.reader() {
        Ok(reader) => Ok(reader),
        Err(_) => Err(Fail::new("no memory")),
    }
}

// A search, which stays with its feed.
pub(super) fn searched<G: Gate>(reader: &mut FeedReader, frame: &mut Frame, gate: &G) -> u64
    ensures { reader.new.book ≡ reader.old.book }
{
    reader.search_unmetered(frame, gate)
}

// A count, which stays with its feed.
pub(super) fn counted(reader: &mut FeedReader, frame: &mut Frame, tally: &mut Tally) -> u64
    ensures { reader.new.book ≡ reader.old.book }
{
    reader.count_unmetered(frame, tally, &OpenGate)
}

// A search by the writer.
pub(super) fn own_search(feed: &mut FeedWriter, frame: &mut Frame) -> u64
    ensures { feed.new ≡ feed.old }
{
    feed.search_unmetered(frame, &OpenGate)
}
