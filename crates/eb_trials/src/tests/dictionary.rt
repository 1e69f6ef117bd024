//! Where terms are in a dictionary, and how they are found, also while it grows.
ghost use Rattle.std.specs.Prelude.{◌≡◌, ◌<◌};
ghost use Rattle.eb_place.specs.declared.moment.Moment.{Moment};
ghost use Rattle.eb_flat.specs.Flat.{StandsFor};
ghost use Rattle.eb_trials.specs.Grown.{Grows};

use super::made::{document, grow_by, growing, index_of, terms, word_at};
use crate::{GrowingPort, Pace};
use eb_base::{Config, Term, Terms};
use eb_flat::FlatWords;
use eb_place::{Places, Port, Steps};
use eb_terms::find;
use std::alloc::Global;
use std::marker::Brand;
use std::process::Abort;
use std::sync::ledger::{Blank, Ledger};
use std::test::Fail;

// The number of a term in a segment, none in one that there isn't.
fn number_in<L: Ledger>(
    words: &mut FlatWords,
    segment: u32,
    term: &Term,
    blank: Blank,
) -> Option<u32>
    requires blank { (blank.name ≡ L.name) × (blank.parts ≡ L.parts) × (0 < blank.parts) }
    requires words { (m : Moment) × StandsFor words.old m }
    ensures { words.new ≡ words.old }
{
    if segment >= words.config().segments() {
        return None;
    }
    let mut steps = Steps::<L>::new(blank);
    find(words, segment, term, &mut steps)
}

// The numbers of the terms in a segment.
fn numbers_in(
    alloc: Global,
    words: &mut FlatWords,
    segment: u32,
    terms: &Terms,
) -> Result<Vec<Option<u32>>, Fail>
    requires { (m : Moment) × StandsFor words.old m }
    ensures { words.new ≡ words.old }
{
    let mut numbers = Vec::new(alloc);
    for term in terms.as_slice() {
        let number = number_in::<Brand>(words, segment, term, Blank::new(1));
        numbers.push(number)?;
    }
    Ok(numbers)
}

// Asserts that the terms `po`, `r1`, `aonpo`, `aonr1` and `zz` have these numbers in the two
// segments.
fn are_numbered(
    rt: &impl Abort,
    alloc: Global,
    words: &mut FlatWords,
    first: &[Option<u32>],
    second: &[Option<u32>],
) -> Result<(), Fail>
    requires { (m : Moment) × StandsFor words.old m }
    ensures { words.new ≡ words.old }
{
    let asked = terms(alloc, b"po r1 aonpo aonr1 zz")?;
    let in_first = numbers_in(alloc, words, 0, &asked)?;
    let in_second = numbers_in(alloc, words, 1, &asked)?;
    assert_eq!(rt; in_first.as_slice(), first);
    assert_eq!(rt; in_second.as_slice(), second);
    Ok(())
}

// The numbers in a segment without a document.
const NONE: [Option<u32>; 5] = [None, None, None, None, None];

#[test]
fn an_empty_segment_has_no_terms(rt: HostRuntime) -> Result<(), Fail> {
    let mut words = index_of(rt.alloc(), Config::new(2, 1, 1024)?, &[])?;
    are_numbered(&rt, rt.alloc(), &mut words, &NONE, &NONE)
}

#[test]
fn terms_stand_in_the_cells_of_their_hashes(rt: HostRuntime) -> Result<(), Fail> {
    let config = Config::new(2, 1, 1024)?;
    let document = document(rt.alloc(), 1, b"po r1 aonpo aonr1")?;
    let mut words = index_of(rt.alloc(), config, [document].as_slice())?;
    let places = Places::new(config);
    let cells = [
        word_at(&mut words, places.cell(0, 1535)),
        word_at(&mut words, places.cell(0, 1536)),
        word_at(&mut words, places.cell(0, 2047)),
        word_at(&mut words, places.cell(0, 0)),
    ];
    assert_eq!(rt; cells, [Some(1), Some(2), Some(3), Some(4)]);
    let numbers = [Some(0), Some(1), Some(2), Some(3), None];
    are_numbered(&rt, rt.alloc(), &mut words, &numbers, &NONE)
}

// What is found of a term while words grow.
#[derive(Drop)]
struct Found {
    // Whether the term's cell was stored before the search.
    was_entered: bool,
    // The answer.
    number: Option<u32>,
    // Whether the term's cell is stored after the search.
    is_entered: bool,
}

// Whether a store is among those that are done.
fn is_done(port: &GrowingPort, store: (u64, u64)) -> bool {
    port.stores_done().iter().any(|done| *done == store)
}

// Searches a term in segment 0, none where there is no segment.
fn find_growing<L: Ledger>(
    port: &mut GrowingPort,
    term: &Term,
    store: (u64, u64),
    blank: Blank,
) -> Option<Found>
    requires blank { (blank.name ≡ L.name) × (blank.parts ≡ L.parts) × (0 < blank.parts) }
    requires port { (m : Moment) × Grows port.old m }
{
    if port.config().segments() == 0 {
        return None;
    }
    let was_entered = is_done(port, store);
    let mut steps = Steps::<L>::new(blank);
    let number = find(port, 0, term, &mut steps);
    Some(Found {
        was_entered,
        number,
        is_entered: is_done(port, store),
    })
}

// What is searched while a document is placed.
#[derive(Clone, Copy)]
struct Search {
    // The document's text.
    text: &'static [u8],
    // The term.
    term: &'static [u8],
    // The store of the term's cell, a place and a value; one that isn't done where the term isn't
    // in the document.
    store: (u64, u64),
}

// Searches a term after this many stores of the document's placing, at this pace of the others.
fn find_after(
    alloc: Global,
    search: Search,
    stores: usize,
    pace: Pace,
) -> Result<Option<Found>, Fail> {
    let config = Config::new(1, 1, 1024)?;
    let last = document(alloc, 7, search.text)?;
    let mut port = growing(alloc, config, &[], last, pace)?;
    grow_by(&mut port, stores);
    let term = Term::new(alloc, search.term)?;
    Ok(find_growing::<Brand>(&mut port, &term, search.store, Blank::new(1)))
}

// How the searches of a term went.
#[derive(Clone, Copy, Debug, Drop, PartialEq, Eq)]
struct Tally {
    // Answers that are wrong: another number, a number of a term that isn't entered, or none where
    // the term was entered.
    wrong: u64,
    // Numbers of terms that were entered only while they were searched.
    entered_meanwhile: u64,
}

// Counts an answer.
fn count(tally: &mut Tally, found: &Found, number: u32) {
    let is_wrong = match found.number {
        Some(answer) => !found.is_entered || answer != number,
        None => found.was_entered,
    };
    if is_wrong {
        tally.wrong = tally.wrong.saturating_add(1);
    }
    if found.number.is_some() && !found.was_entered {
        tally.entered_meanwhile = tally.entered_meanwhile.saturating_add(1);
    }
}

// Searches a term after each number of stores, with the others done before the load of each number,
// and with one done before each load from that number on.
fn search_all(alloc: Global, search: Search, number: u32) -> Result<Tally, Fail> {
    let mut tally = Tally {
        wrong: 0,
        entered_meanwhile: 0,
    };
    for stores in 0..28 {
        for load in 0..9 {
            for pace in [Pace::AllBefore(load), Pace::OneFrom(load)] {
                match find_after(alloc, search, stores, pace)? {
                    Some(found) => count(&mut tally, &found, number),
                    None => return Err(Fail::new("no segment")),
                }
            }
        }
    }
    Ok(tally)
}

// Documents, terms of theirs, the stores of the terms' cells, and the terms' numbers.
const ENTERED: [(&[u8], &[u8], (u64, u64), u32); 6] = [
    (b"ab b ab", b"ab", (1060, 1), 0),
    (b"ab b ab", b"b", (101, 2), 1),
    (b"po r1 aonpo aonr1", b"po", (1538, 1), 0),
    (b"po r1 aonpo aonr1", b"r1", (1539, 2), 1),
    (b"po r1 aonpo aonr1", b"aonpo", (2050, 3), 2),
    (b"po r1 aonpo aonr1", b"aonr1", (3, 4), 3),
];

#[test]
fn a_term_is_found_while_it_is_entered(rt: HostRuntime) -> Result<(), Fail> {
    for (text, term, store, number) in ENTERED {
        let search = Search { text, term, store };
        let tally = search_all(rt.alloc(), search, number)?;
        assert!(rt;
            tally.wrong == 0 && tally.entered_meanwhile > 0,
            "{number}: {tally:?}"
        );
    }
    Ok(())
}

#[test]
fn a_term_that_is_not_entered_is_not_found(rt: HostRuntime) -> Result<(), Fail> {
    let search = Search {
        text: b"po r1 aonpo aonr1",
        term: b"zz",
        store: (0, 2),
    };
    let tally = search_all(rt.alloc(), search, 4)?;
    assert_eq!(rt; (tally.wrong, tally.entered_meanwhile), (0, 0));
    Ok(())
}
