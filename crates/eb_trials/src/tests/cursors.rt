//! What cursors find, compared with the plain scan.
ghost use Rattle.std.specs.Prelude.{◌≡◌, ◌<◌, length, IfOk};
ghost use Rattle.eb_place.specs.declared.moment.Moment.{Moment};
ghost use Rattle.eb_flat.specs.Flat.{StandsFor};
ghost use Rattle.eb_trials.specs.Added.{HasAccepted};
ghost use Rattle.eb_trials.specs.Grown.{Grows};

use super::asking::{found, query};
use super::made::{document, grow_by, growing, index_of};
use super::queries::small_queries;
use crate::{GrowingPort, Pace};
use eb_base::{Config, Document};
use eb_flat::FlatWords;
use eb_match::is_match;
use eb_place::{Port, Steps};
use std::alloc::Global;
use std::marker::Brand;
use std::sync::ledger::{Blank, Ledger};
use std::test::Fail;

// An index of one segment that holds these documents.
fn one_segment(alloc: Global, documents: &[Document]) -> Result<FlatWords, Fail>
    ensures { IfOk result (λ words. HasAccepted StandsFor words (length documents.now)) }
{
    let config = Config::new(1, 512, 1024)?;
    let words = index_of(alloc, config, documents)?;
    Ok(words)
}

// The same, which grows by one more document: this many of its stores are done, and one more is
// done before each load.
fn growing_segment(
    alloc: Global,
    documents: &[Document],
    last: Document,
    stores: usize,
) -> Result<GrowingPort, Fail>
    ensures { IfOk result (λ port. HasAccepted Grows port (length documents.now)) }
{
    let config = Config::new(1, 512, 1024)?;
    let mut port = growing(alloc, config, documents, last, Pace::OneFrom(0))?;
    grow_by(&mut port, stores);
    Ok(port)
}

// The numbers of the documents that the query of this text matches, greatest first, as the cursors
// find them.
fn asked<P: Port, L: Ledger>(
    alloc: Global,
    port: &mut P,
    text: &[u8],
    documents: &[Document],
    blank: Blank,
) -> Result<Vec<u64>, Fail>
    requires blank { (blank.name ≡ L.name) × (blank.parts ≡ L.parts) × (0 < blank.parts) }
    requires port { HasAccepted P.stands port.old (length documents.now) }
    ensures { (m : Moment) × (n : Moment) × P.stands port.old m × P.stands port.new n × P.keeps port.old m port.new n }
{
    let query = query(alloc, text)?;
    let count = u32::try_from(documents.len())?;
    if count == 0 {
        return Ok(Vec::new(alloc));
    }
    let mut steps = Steps::<L>::new(blank);
    found(alloc, port, query, count, &mut steps)
}

// The same, as a scan of the documents finds them.
fn scanned(alloc: Global, text: &[u8], documents: &[Document]) -> Result<Vec<u64>, Fail> {
    let query = query(alloc, text)?;
    let mut numbers = Vec::new(alloc);
    for at in 0..documents.len() {
        let number = documents.len() - 1 - at;
        if is_match(&query, &documents[number]) {
            numbers.push(number as u64)?;
        }
    }
    Ok(numbers)
}

// Whether cursors over words that don't grow find what the scan finds.
fn is_as_scanned(
    alloc: Global,
    words: &mut FlatWords,
    text: &[u8],
    documents: &[Document],
) -> Result<bool, Fail>
    requires { HasAccepted StandsFor words.old (length documents.now) }
    ensures { words.new ≡ words.old }
{
    let numbers = asked::<FlatWords, Brand>(alloc, words, text, documents, Blank::new(1))?;
    Ok(numbers.as_slice() == scanned(alloc, text, documents)?.as_slice())
}

// The number after this one.
fn next(number: u64) -> u64 {
    number
        .wrapping_mul(6_364_136_223_846_793_005)
        .wrapping_add(1_442_695_040_888_963_407)
}

// This many documents of none to five of the words `a`, `b` and `c`, made by a rule.
pub(super) fn made(alloc: Global, count: usize) -> Result<Vec<Document>, Fail> {
    let mut documents = Vec::new(alloc);
    let mut number = 7;
    for id in 0..count {
        let mut text = Vec::new(alloc);
        number = next(number);
        for _ in 0..(number >> 33) % 6 {
            number = next(number);
            text.push(b'a' + ((number >> 33) % 3) as u8)?;
            text.push(b' ')?;
        }
        documents.push(document(alloc, id as u64, text.as_slice())?)?;
    }
    Ok(documents)
}

// What cursors find of documents.
fn found_of(alloc: Global, documents: &[Document], text: &[u8]) -> Result<Vec<u64>, Fail> {
    let mut words = one_segment(alloc, documents)?;
    asked::<FlatWords, Brand>(alloc, &mut words, text, documents, Blank::new(1))
}

// What they find of two documents.
fn found_of_two(alloc: Global, texts: [&[u8]; 2], text: &[u8]) -> Result<Vec<u64>, Fail> {
    let [first, second] = texts;
    let documents = [document(alloc, 1, first)?, document(alloc, 2, second)?];
    found_of(alloc, documents.as_slice(), text)
}

// Nothing is found.
const NONE: &[u64] = &[];

const RUNS: [&[u8]; 2] = [b"a b b a b a", b""];

const ROWS: [&[u8]; 2] = [b"a b b a b a", b"b a"];

const PAIRS: [&[u8]; 2] = [b"a b", b"c d"];

// Two documents, a query, and what it finds of them.
const BY_HAND: [([&[u8]; 2], &[u8], &[u64]); 23] = [
    ([b"", b"foo"], b"foo -", &[0]),
    (RUNS, b"\" a b a \"", &[0]),
    (RUNS, b"\" b b a b \"", &[0]),
    (RUNS, b"\" b a b b \"", NONE),
    (PAIRS, b"\" b c \"", NONE),
    (PAIRS, b"b c &2", NONE),
    (PAIRS, b"b c |2", &[1, 0]),
    (ROWS, b"\" a a \" ~2", &[0]),
    (ROWS, b"\" a a \" ~1", NONE),
    (ROWS, b"\" b b b \" ~3", &[0]),
    (ROWS, b"\" a a a \" ~5", &[0]),
    (ROWS, b"\" a a a \" ~4", NONE),
    (ROWS, b"\" b a \" ~1", &[1, 0]),
    (ROWS, b"\" a b a \" ~2", &[0]),
    (ROWS, b"\" b a b b \" ~1023", NONE),
    (PAIRS, b"\" b c \" ~1023", NONE),
    (PAIRS, b"\" a b \" ~1 \" c d \" ~1 |2", &[1, 0]),
    (ROWS, b">1 a &2", &[1]),
    (ROWS, b"a >1 &2", &[1]),
    (ROWS, b">1 -", &[0]),
    (ROWS, b">0 >1 &2", &[1]),
    (ROWS, b">0 b - &2", NONE),
    (ROWS, b">18446744073709551615", NONE),
];

#[test]
fn cursors_find_by_hand(rt: HostRuntime) -> Result<(), Fail> {
    for (texts, text, want) in BY_HAND {
        let found = found_of_two(rt.alloc(), texts, text)?;
        assert_eq!(rt; found.as_slice(), want, "{text:?}");
    }
    Ok(())
}

// Documents of the word `a` whose ids come in no order.
fn in_no_order(alloc: Global) -> Result<Vec<Document>, Fail> {
    let mut documents = Vec::new(alloc);
    for id in [5, 3, 9, 1, 7] {
        documents.push(document(alloc, id, b"a")?)?;
    }
    Ok(documents)
}

// Bounds on these ids, and what they find.
const BOUNDS: [(&[u8], &[u64]); 6] = [
    (b">4", &[4, 2, 0]),
    (b">5", &[4, 2]),
    (b">4 -", &[3, 1]),
    (b">4 a &2", &[4, 2, 0]),
    (b">4 >6 - &2", &[0]),
    (b">8 >2 - |2", &[3, 2]),
];

#[test]
fn bounds_hold_for_ids_in_any_order(rt: HostRuntime) -> Result<(), Fail> {
    let documents = in_no_order(rt.alloc())?;
    for (text, want) in BOUNDS {
        let found = found_of(rt.alloc(), documents.as_slice(), text)?;
        assert_eq!(rt; found.as_slice(), want, "{text:?}");
    }
    Ok(())
}

// Windows, bounds on ids, and operators over them.
const WINDOWS_AND_BOUNDS: [&[u8]; 24] = [
    b"\" a b \" ~1",
    b"\" a b \" ~2",
    b"\" a b \" ~4",
    b"\" b b \" ~1",
    b"\" b b \" ~2",
    b"\" c c \" ~3",
    b"\" a b c \" ~2",
    b"\" a b c \" ~3",
    b"\" c c c \" ~2",
    b"\" c b c \" ~4",
    b"\" a a b b \" ~4",
    b"\" a b \" ~2 -",
    b"\" a b \" ~2 c &2",
    b"\" a b \" ~2 \" b a \" ~3 &2",
    b"\" a b \" ~2 c |2",
    b">0",
    b">200",
    b">200 -",
    b">200 a &2",
    b"a >200 b &3",
    b">100 a - &2",
    b">300 c |2",
    b">100 >300 - &2",
    b">250 \" a b \" ~2 c &3",
];

#[test]
fn cursors_find_windows_and_bounds_as_a_scan_does(rt: HostRuntime) -> Result<(), Fail> {
    let alloc = rt.alloc();
    let documents = made(alloc, 400)?;
    let mut words = one_segment(alloc, documents.as_slice())?;
    for text in WINDOWS_AND_BOUNDS {
        assert!(rt; is_as_scanned(alloc, &mut words, text, documents.as_slice())?);
    }
    Ok(())
}

#[test]
fn cursors_find_as_a_scan_does(rt: HostRuntime) -> Result<(), Fail> {
    let alloc = rt.alloc();
    let documents = made(alloc, 400)?;
    let texts = small_queries(alloc)?;
    assert_eq!(rt; texts.len(), 408);
    let mut words = one_segment(alloc, documents.as_slice())?;
    for text in texts.as_slice() {
        let text = text.as_slice();
        assert!(rt; is_as_scanned(alloc, &mut words, text, documents.as_slice())?);
    }
    Ok(())
}

// What cursors find while one more document is placed, of which this many stores are done.
fn found_growing(
    alloc: Global,
    text: &[u8],
    documents: &[Document],
    stores: usize,
) -> Result<Vec<u64>, Fail> {
    let last = document(alloc, 99, b"a b c c b a a b c")?;
    let mut port = growing_segment(alloc, documents, last, stores)?;
    asked::<GrowingPort, Brand>(alloc, &mut port, text, documents, Blank::new(1))
}

// Whether cursors find what a scan of the documents does, however many stores of one more document
// are done.
fn is_as_accepted(alloc: Global, text: &[u8], documents: &[Document]) -> Result<bool, Fail> {
    let want = scanned(alloc, text, documents)?;
    for stores in [0, 3, 10, 19] {
        let numbers = found_growing(alloc, text, documents, stores)?;
        if numbers.as_slice() != want.as_slice() {
            return Ok(false);
        }
    }
    Ok(true)
}

#[test]
fn cursors_find_what_was_accepted(rt: HostRuntime) -> Result<(), Fail> {
    let documents = made(rt.alloc(), 20)?;
    let texts = small_queries(rt.alloc())?;
    for text in texts.as_slice() {
        let is = is_as_accepted(rt.alloc(), text.as_slice(), documents.as_slice())?;
        assert!(rt; is, "{text:?}");
    }
    Ok(())
}
