//! Which part of an and leads, by how many words a search loads.
ghost use Rattle.std.specs.Prelude.{IfOk};
ghost use Rattle.eb_place.specs.declared.moment.Moment.{Moment};
ghost use Rattle.eb_trials.specs.Recorded.{IsRecord};

use super::asking::query;
use super::bounds::{CountedWords, search_alone};
use super::made::{add_all, document};
use crate::RecordingPen;
use eb_base::{Config, Document};
use eb_cursor::Frame;
use eb_writer::Placer;
use std::alloc::Global;
use std::marker::Brand;
use std::sync::ledger::Blank;
use std::test::Fail;

// The text of a document by its id, 1 to 200: `a` is in each, `b` and `d` in 20 of them, `c` in 19
// of the older half, and `e` in two.
fn text(id: u64) -> &'static [u8] {
    if id == 50 || id == 150 {
        return b"a b e";
    }
    if id % 10 == 0 {
        return if id <= 100 { b"a b c" } else { b"a b" };
    }
    if id % 10 == 5 {
        return if id <= 100 { b"a c d" } else { b"a d" };
    }
    b"a"
}

fn documents(alloc: Global) -> Result<Vec<Document>, Fail> {
    let mut documents = Vec::new(alloc);
    for id in 1..201 {
        documents.push(document(alloc, id, text(id))?)?;
    }
    Ok(documents)
}

// An index that holds these documents.
fn filled(alloc: Global, documents: &[Document]) -> Result<RecordingPen, Fail>
    ensures { IfOk result (λ pen. (m : Moment) × IsRecord pen m) }
{
    let config = Config::new(1, 256, 1024)?;
    let mut pen = RecordingPen::unrecorded(alloc, config)?;
    let mut placer = Placer::new(config);
    if !add_all(&mut placer, &mut pen, documents) {
        return Err(Fail::new("full"));
    }
    Ok(pen)
}

// How many ids a search finds, and how many words it loads.
fn searched(alloc: Global, documents: &[Document], text: &[u8]) -> Result<(u64, u64), Fail> {
    let query = query(alloc, text)?;
    if !query.is_well_formed() {
        return Err(Fail::new("no such query"));
    }
    let mut frame = Frame::new(alloc, query, 1000)?;
    let mut words = CountedWords {
        words: filled(alloc, documents)?,
        loads: 0,
    };
    search_alone::<Brand>(&mut words, &mut frame, Blank::new(1));
    Ok((frame.ids().len() as u64, words.loads))
}

// Parts in both orders, and how many documents have them all: a word of few documents and one of
// many, twice; words of as many, one of which begins lower; a word and a bound on the id; and a not
// and a bound.
const ORDERS: [(&[u8], &[u8], u64); 5] = [
    (b"e a &2", b"a e &2", 2),
    (b"b a &2", b"a b &2", 20),
    (b"c d &2", b"d c &2", 10),
    (b"b >100 &2", b">100 b &2", 10),
    (b"b - >190 &2", b">190 b - &2", 9),
];

#[test]
fn the_same_part_leads_in_each_order(rt: HostRuntime) -> Result<(), Fail> {
    let documents = documents(rt.alloc())?;
    for (text, other, count) in ORDERS {
        let (found, loads) = searched(rt.alloc(), documents.as_slice(), text)?;
        assert_eq!(rt; found, count, "{text:?}");
        let again = searched(rt.alloc(), documents.as_slice(), other)?;
        assert_eq!(rt; again, (found, loads), "{other:?}");
    }
    Ok(())
}

// One load for the count, two for the segment, ten to find each word, and four for the postings of
// `a`: none of the 200 documents with `a` is walked where the other word is in no document.
#[test]
fn a_word_without_a_posting_ends_a_search(rt: HostRuntime) -> Result<(), Fail> {
    let documents = documents(rt.alloc())?;
    for text in [b"a z &2", b"z a &2"] {
        let (found, loads) = searched(rt.alloc(), documents.as_slice(), text)?;
        assert!(rt; found == 0 && loads <= 27, "{loads}");
    }
    Ok(())
}
