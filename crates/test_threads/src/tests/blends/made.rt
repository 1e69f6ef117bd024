//! Documents, queries, and calls of a blend with a counter of their own.
ghost use Rattle.std.specs.Prelude.{◌≡◌, ◌<◌, ◌≤◌, ℕ, length};
ghost use Rattle.eb_base.specs.Query.{Tree, tree, IsWellFormed};
ghost use Rattle.eb_blend.specs.Frames.{Asks};

use super::super::heard::Heard;
use eb_base::{Document, NoMemory, OpenGate, Queries, Query, Term, Terms};
use eb_blend::{Blend, BlendFrame, BlendReader, BlendRefusal, BlendWriter};
use eb_place::Steps;
use std::alloc::Global;
use std::marker::Brand;
use std::sync::ledger::{Blank, Ledger};
use std::test::Fail;

// A document of the term `a`, and of `b`, `c` or `d` where 2, 3 or 5 divides its id.
pub(super) fn document(alloc: Global, id: u64) -> Result<Document, Fail> {
    let mut terms = Terms::new(alloc);
    for (divisor, term) in [(1, b"a"), (2, b"b"), (3, b"c"), (5, b"d")] {
        if id % divisor == 0 {
            terms.push(Term::new(alloc, term)?)?;
        }
    }
    Ok(Document::new(id, terms)?)
}

// A word.
pub(super) fn word(alloc: Global, term: &[u8]) -> Result<Query, Fail> {
    Ok(Query::Word(Term::new(alloc, term)?))
}

// The documents with `c` and not `d`.
pub(super) fn c_without_d(alloc: Global) -> Result<Query, Fail> {
    let mut parts = Queries::new(alloc);
    parts.push(word(alloc, b"c")?)?;
    parts.push(Query::Not(Box::new(alloc, word(alloc, b"d")?)?))?;
    Ok(Query::And(parts))
}

// Adds a made document.
pub(super) fn added(
    alloc: Global,
    blend: &Blend,
    writer: &mut BlendWriter,
    id: u64,
) -> Result<Result<u64, BlendRefusal>, Fail>
    requires { writer.old.indexes ≡ blend.now.indexes }
    ensures { writer.new.indexes ≡ writer.old.indexes }
{
    let document = document(alloc, id)?;
    Ok(writer.add(blend, &document, &OpenGate))
}

fn search_alone<L: Ledger>(
    reader: &mut BlendReader,
    blend: &Blend,
    frame: &mut BlendFrame,
    gate: &Heard,
    blank: Blank,
) -> u64
    requires blank { (blank.name ≡ L.name) × (blank.parts ≡ L.parts) × (0 < blank.parts) }
    requires made { reader.old.indexes ≡ blend.now.indexes }
    requires frame { (q : Tree) × (k : ℕ) × Asks frame.old q k (length blend.now.indexes) }
    ensures indexes { reader.new.indexes ≡ reader.old.indexes }
    ensures asks { (q : Tree) (k parts : ℕ) → Asks frame.old q k parts → Asks frame.new q k parts }
{
    let mut steps = Steps::<L>::new(blank);
    reader.search(blend, frame, gate, &mut steps)
}

// A search with a counter of its own.
pub(super) fn searched(
    reader: &mut BlendReader,
    blend: &Blend,
    frame: &mut BlendFrame,
    gate: &Heard,
) -> u64
    requires made { reader.old.indexes ≡ blend.now.indexes }
    requires frame { (q : Tree) × (k : ℕ) × Asks frame.old q k (length blend.now.indexes) }
    ensures indexes { reader.new.indexes ≡ reader.old.indexes }
    ensures asks { (q : Tree) (k parts : ℕ) → Asks frame.old q k parts → Asks frame.new q k parts }
{
    search_alone::<Brand>(reader, blend, frame, gate, Blank::new(1))
}

// What a new reader finds of a query in `parts` parts, at most `k` ids: a frame with the ids, the
// number of documents, and the sum of the counts that the gate observed.
pub(super) fn asked(
    alloc: Global,
    blend: &Blend,
    writer: &mut BlendWriter,
    query: &Query,
    k: u32,
    parts: u32,
) -> Result<(BlendFrame, u64, u64), NoMemory>
    requires made { writer.old.indexes ≡ blend.now.indexes }
    requires parts { (length blend.now.indexes ≡ parts) × (1 ≤ parts) × (parts ≤ 16) }
    requires k { (1 ≤ k) × (k ≤ 1000) }
    requires query { IsWellFormed (tree query.now) }
    ensures { writer.new ≡ writer.old }
{
    let mut frame = BlendFrame::new(alloc, query, k, parts)?;
    let mut reader = writer.reader(alloc, blend)?;
    let gate = Heard::new();
    let count = searched(&mut reader, blend, &mut frame, &gate);
    writer.meet(blend, reader);
    Ok((frame, count, gate.loaded()))
}
