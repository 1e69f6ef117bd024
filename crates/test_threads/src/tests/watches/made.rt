//! Documents, queries, and calls with a counter of their own.
ghost use Rattle.std.specs.Prelude.{◌≡◌, ◌<◌};

use super::super::heard::Heard;
use eb_base::{Document, NoMemory, Queries, Query, Term, Terms};
use eb_engine::{Index, Writer};
use eb_place::Steps;
use eb_watch::{SetFault, WatchFault, Watches, matches};
use std::alloc::Global;
use std::marker::Brand;
use std::sync::ledger::{Blank, Ledger};
use std::test::Fail;

// The terms.
fn terms_of(alloc: Global, terms: &[&[u8]]) -> Result<Terms, NoMemory> {
    let mut made = Terms::new(alloc);
    for term in terms {
        made.push(Term::new(alloc, term)?)?;
    }
    Ok(made)
}

// A document of these terms.
fn document(alloc: Global, terms: &[&[u8]]) -> Option<Document> {
    let terms = terms_of(alloc, terms).ok()?;
    Document::new(5, terms).ok()
}

pub(super) fn word(alloc: Global, term: &[u8]) -> Result<Query, NoMemory> {
    Ok(Query::Word(Term::new(alloc, term)?))
}

pub(super) fn phrase(alloc: Global, terms: &[&[u8]]) -> Result<Query, NoMemory> {
    Ok(Query::Phrase(terms_of(alloc, terms)?))
}

pub(super) fn window(alloc: Global, terms: &[&[u8]]) -> Result<Query, NoMemory> {
    Ok(Query::Window(terms_of(alloc, terms)?, 3))
}

pub(super) fn no_word(alloc: Global, term: &[u8]) -> Result<Query, NoMemory> {
    Ok(Query::Not(Box::new(alloc, word(alloc, term)?)?))
}

pub(super) fn both(alloc: Global, first: Query, second: Query) -> Result<Query, NoMemory> {
    let mut parts = Queries::new(alloc);
    parts.push(first)?;
    parts.push(second)?;
    Ok(Query::And(parts))
}

pub(super) fn either(alloc: Global, first: Query, second: Query) -> Result<Query, NoMemory> {
    let mut parts = Queries::new(alloc);
    parts.push(first)?;
    parts.push(second)?;
    Ok(Query::Or(parts))
}

// Sets a watch.
pub(super) fn set(watches: &mut Watches, number: u32, query: Query) -> Result<(), SetFault> {
    if !query.is_well_formed() {
        return Err(SetFault::NoMemory);
    }
    watches.set(number, query)
}

// Sets a watch for a word.
pub(super) fn set_word(
    alloc: Global,
    watches: &mut Watches,
    number: u32,
    term: &[u8],
) -> Result<(), SetFault> {
    match word(alloc, term) {
        Ok(query) => set(watches, number, query),
        Err(NoMemory) => Err(SetFault::NoMemory),
    }
}

fn added_counted<L: Ledger>(
    alloc: Global,
    watches: &Watches,
    index: &Index,
    writer: &mut Writer,
    document: &Document,
    gate: &Heard,
    blank: Blank,
) -> Result<(u64, Vec<u32>), WatchFault>
    requires blank { (blank.name ≡ L.name) × (blank.parts ≡ L.parts) × (0 < blank.parts) }
    requires made { writer.old.index ≡ index.now }
    ensures { writer.new.index ≡ writer.old.index }
{
    let mut tests = Steps::<L>::new(blank);
    watches.add(alloc, index, writer, document, gate, &mut tests)
}

// Adds a document with a counter of its own.
fn added(
    alloc: Global,
    watches: &Watches,
    index: &Index,
    writer: &mut Writer,
    document: &Document,
    gate: &Heard,
) -> Result<(u64, Vec<u32>), WatchFault>
    requires { writer.old.index ≡ index.now }
    ensures { writer.new.index ≡ writer.old.index }
{
    added_counted::<Brand>(alloc, watches, index, writer, document, gate, Blank::new(1))
}

// Adds a document of these terms with this gate, and finds the watches that it matches.
pub(super) fn told(
    alloc: Global,
    watches: &Watches,
    index: &Index,
    writer: &mut Writer,
    terms: &[&[u8]],
    gate: &Heard,
) -> Result<(u64, Vec<u32>), WatchFault>
    requires { writer.old.index ≡ index.now }
    ensures { writer.new.index ≡ writer.old.index }
{
    match document(alloc, terms) {
        Some(document) => { added(alloc, watches, index, writer, &document, gate) }
        None => Err(WatchFault::NoMemory),
    }
}

fn tested_counted<L: Ledger>(query: &Query, document: &Document, blank: Blank) -> bool
    requires blank { (blank.name ≡ L.name) × (blank.parts ≡ L.parts) × (0 < blank.parts) }
{
    let mut tests = Steps::<L>::new(blank);
    matches(query, document, &mut tests)
}

// A test with a counter of its own.
fn tested_alone(query: &Query, document: &Document) -> bool {
    tested_counted::<Brand>(query, document, Blank::new(1))
}

// Whether a query matches a document of these terms.
pub(super) fn tested(alloc: Global, query: &Query, terms: &[&[u8]]) -> Result<bool, Fail> {
    let document = document(alloc, terms).ok_or("no document")?;
    Ok(tested_alone(query, &document))
}

// The numbers of the watches that a document of these terms, with the id 5, matches.
pub(super) fn matched(alloc: Global, watches: &Watches, terms: &[&[u8]]) -> Result<Vec<u32>, Fail> {
    let document = document(alloc, terms).ok_or("no document")?;
    Ok(watches.told_unmetered(alloc, &document)?)
}
