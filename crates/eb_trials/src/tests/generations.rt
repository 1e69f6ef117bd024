//! Feeds of made documents, compared with the plain scan of what they are to keep.
ghost use Rattle.std.specs.Prelude.{◌<◌, ℕ, List};
ghost use Rattle.eb_base.specs.Document.{Doc};
ghost use Rattle.eb_base.specs.Setting.{Setting};
ghost use Rattle.eb_feed.specs.Held.{IsFedWith};

use super::feeds::searched;
use eb_base::{Config, Document, Query, Term, Terms};
use eb_cursor::Frame;
use eb_feed::Feed;
use eb_plain::{has_room, newest};
use std::alloc::Global;
use std::fmt::Write;
use std::process::Abort;
use std::test::Fail;

// What fills a generation of made documents first.
#[derive(Clone, Copy)]
enum Fills {
    Documents,
    Terms,
    Text,
    Slices,
}

// A feed, and what the plain scan knows of it: the history, and where in it each generation begins.
#[derive(Drop)]
struct Row {
    feed: Feed,
    history: Vec<Document>,
    begins: Vec<usize>,
}

// How many generations are kept.
const KEEP: usize = 3;

// A made term of at least this many bytes.
fn term(alloc: Global, number: u64, at: u32, len: usize) -> Result<Term, Fail> {
    let mut text = String::new(alloc);
    write!(text, "{number}-{at}")?;
    for _at in text.len()..len {
        text.push('x')?;
    }
    Ok(Term::new(alloc, text.as_bytes())?)
}

// A made document, with one of the terms `0-0` to `6-0`.
fn made(alloc: Global, fills: Fills, number: u64) -> Result<Document, Fail> {
    let mut terms = Terms::new(alloc);
    terms.push(term(alloc, number % 7, 0, 0)?)?;
    let (further, len) = match fills {
        Fills::Documents => (0, 0),
        Fills::Terms => (240, 0),
        Fills::Text => (8, 1600),
        Fills::Slices => (360, 0),
    };
    for at in 0..further {
        terms.push(match fills {
            Fills::Slices => term(alloc, number.wrapping_add(7), at % 20, 0)?,
            _ => term(alloc, number.wrapping_add(7), at, len)?,
        })?;
    }
    Ok(Document::new(number, terms)?)
}

// The documents of a history from a place on.
fn rear(history: &[Document], from: usize) -> &[Document] {
    if from > history.len() {
        return history;
    }
    &history[from..]
}

// What the plain scan keeps: the documents of the newest generations.
fn kept_of(row: &Row) -> &[Document] {
    let begun = row.begins.len();
    let from = if begun > KEEP {
        row.begins[begun - KEEP]
    } else {
        0
    };
    rear(row.history.as_slice(), from)
}

// Adds a document to the feed, and after the plain history.
fn add(alloc: Global, row: &mut Row, config: &Config, document: Document) -> Result<(), Fail>
    requires { (σ : Setting) × (keep : ℕ) × (history : List Doc) × IsFedWith row.old.feed σ keep history }
    ensures { (σ : Setting) × (keep : ℕ) × (history : List Doc) × IsFedWith row.new.feed σ keep history }
{
    if row.feed.accepted() < u64::MAX {
        row.feed.add(&document);
    }
    let newest = rear(
        row.history.as_slice(),
        row.begins.last().copied().unwrap_or(0),
    );
    if !has_room(alloc, config, newest, &document)? {
        row.begins.push(row.history.len())?;
    }
    row.history.push(document)?;
    Ok(())
}

// Asks for the newest documents with a term, and compares.
fn ask(rt: &impl Abort, alloc: Global, row: &mut Row, number: u64) -> Result<(), Fail>
    requires { (σ : Setting) × (keep : ℕ) × (history : List Doc) × IsFedWith row.old.feed σ keep history }
    ensures { (σ : Setting) × (keep : ℕ) × (history : List Doc) × IsFedWith row.new.feed σ keep history }
{
    let query = Query::Word(term(alloc, number % 7, 0, 0)?);
    let want = newest(alloc, &query, 9, kept_of(row))?;
    let mut frame = Frame::new(alloc, query, 9)?;
    let seen = searched(&mut row.feed, &mut frame);
    assert_eq!(rt; seen, row.history.len() as u64);
    assert_eq!(rt; row.feed.kept(), kept_of(row).len() as u64);
    assert_eq!(rt; frame.ids(), want.as_slice());
    Ok(())
}

// Takes this many made documents, compares after each, and returns the number of generations that
// were begun.
fn compare(rt: &impl Abort, alloc: Global, fills: Fills, documents: u64) -> Result<usize, Fail> {
    let config = Config::new(1, 20, 1024)?;
    let mut row = Row {
        feed: Feed::open(alloc, config, KEEP as u32)?,
        history: Vec::new(alloc),
        begins: Vec::new(alloc),
    };
    row.begins.push(0)?;
    for number in 0..documents {
        add(alloc, &mut row, &config, made(alloc, fills, number)?)?;
        ask(rt, alloc, &mut row, number)?;
    }
    Ok(row.begins.len())
}

// What fills generations, how many documents are added, and how many generations are begun. A
// generation here has room for 20 documents, 1,024 terms, 4,096 text words, and 64 terms of more
// than 17 postings, each of which takes a slice of pool 2. So it takes 20 short documents; 4 of 240
// further terms each; 2 of 8 further terms of 1,600 bytes; and 3 of 20 further terms that occur 18
// times each.
const GENERATIONS: [(Fills, u64, usize); 4] = [
    (Fills::Documents, 1000, 50),
    (Fills::Terms, 20, 5),
    (Fills::Text, 12, 6),
    (Fills::Slices, 18, 6),
];

#[test]
fn a_feed_keeps_what_the_plain_scan_keeps(rt: HostRuntime) -> Result<(), Fail> {
    for (fills, documents, generations) in GENERATIONS {
        assert_eq!(rt; compare(&rt, rt.alloc(), fills, documents)?, generations);
    }
    Ok(())
}
