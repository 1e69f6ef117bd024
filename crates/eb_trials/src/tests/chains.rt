//! Chains: the slices that postings take, and walks.
ghost use Rattle.std.specs.Prelude.{◌≡◌, ◌<◌, ℕ, List, MatchOption};
ghost use Rattle.eb_place.specs.declared.moment.Moment.{Moment};
ghost use Rattle.eb_flat.specs.Flat.{StandsFor};
ghost use Rattle.eb_writer.specs.Progress.{PlacerStands};
ghost use Rattle.eb_chain.specs.Chains as chains;
ghost use Rattle.eb_trials.specs.Grown.{Grows};

use super::made::{added, grow_by, growing, word_at};
use crate::{GrowingPort, Pace};
use eb_base::{Config, Document, MAX_TOKENS, Term, Terms};
use eb_chain::Chain;
use eb_flat::FlatWords;
use eb_place::{PLACES, Port, Posting, Steps};
use eb_terms::find;
use eb_writer::Placer;
use std::alloc::Global;
use std::marker::Brand;
use std::sync::ledger::{Blank, Ledger};
use std::test::Fail;

// A document of this many times the term `a`.
pub(super) fn of_a(alloc: Global, times: usize) -> Result<Document, Fail> {
    let mut terms = Terms::new(alloc);
    for _ in 0..times {
        terms.push(Term::new(alloc, b"a")?)?;
    }
    Ok(Document::new(1, terms)?)
}

// Puts the postings of the first positions of a document, by its number, after the list.
fn put_postings(postings: &mut Vec<u64>, document: u64, times: u64) -> Result<(), Fail> {
    let first = document.saturating_mul(PLACES);
    for position in 0..times {
        postings.push(first.saturating_add(position))?;
    }
    Ok(())
}

// Adds documents of the term `a` with this many postings in all, which are put after the list.
fn add_postings(
    alloc: Global,
    placer: &mut Placer,
    words: &mut FlatWords,
    postings: &mut Vec<u64>,
    more: usize,
) -> Result<(), Fail>
    requires { (m : Moment) × StandsFor words.old m × PlacerStands placer.old m }
    ensures { (m : Moment) × StandsFor words.new m × PlacerStands placer.new m }
{
    let mut left = more;
    for _ in 0..more {
        let times = left.min(MAX_TOKENS);
        if times == 0 {
            return Ok(());
        }
        let document = of_a(alloc, times)?;
        let Some(count) = added(placer, words, &document) else {
            return Err(Fail::new("full"));
        };
        put_postings(postings, count.saturating_sub(1), times as u64)?;
        left -= times;
    }
    Ok(())
}

// Whether the calls of a walk gave these postings, from the last to the first, and then none.
fn are_given(given: &[Option<Posting>], postings: &[u64]) -> bool {
    let mut left = postings.len();
    for posting in given {
        if let Some(posting) = posting {
            if left == 0 || postings[left - 1] != *posting {
                return false;
            }
            left -= 1;
        } else if left > 0 {
            return false;
        }
    }
    left == 0 && given.len() == postings.len().saturating_add(2)
}

// Opens the chain of a term in segment 0, if it is there.
pub(super) fn open<P: Port, L: Ledger>(
    port: &mut P,
    term: &Term,
    steps: &mut Steps<L>,
) -> Option<Chain>
    requires { (m : Moment) × P.stands port.old m }
    ensures { MatchOption result (Unit {0})
        (λ chain. (m : Moment) × (s : ℕ) × (t : List ℕ) × (opened : ℕ) × (rest : List ℕ) × P.stands port.new m × chains.Stands m s t chain opened rest) }
{
    if port.config().segments() == 0 {
        return None;
    }
    let Some(number) = find(port, 0, term, steps) else {
        return None;
    };
    Some(Chain::open(port, 0, number, steps))
}

// What this many calls of a chain give.
fn ask<P: Port, L: Ledger>(
    alloc: Global,
    chain: &mut Chain,
    port: &mut P,
    times: usize,
    steps: &mut Steps<L>,
) -> Result<Vec<Option<Posting>>, Fail>
    requires { (m : Moment) × (s : ℕ) × (t : List ℕ) × (opened : ℕ) × (rest : List ℕ) × P.stands port.old m × chains.Stands m s t chain.old opened rest }
{
    let mut given = Vec::new(alloc);
    for _ in 0..times {
        given.push(chain.next(port, steps))?;
    }
    Ok(given)
}

// What this many calls of the chain of a term give.
fn walk<L: Ledger>(
    alloc: Global,
    words: &mut FlatWords,
    term: &Term,
    times: usize,
    blank: Blank,
) -> Result<Vec<Option<Posting>>, Fail>
    requires blank { (blank.name ≡ L.name) × (blank.parts ≡ L.parts) × (0 < blank.parts) }
    requires words { (m : Moment) × StandsFor words.old m }
{
    let mut steps = Steps::<L>::new(blank);
    let Some(mut chain) = open(words, term, &mut steps) else {
        return Err(Fail::new("no such term"));
    };
    ask(alloc, &mut chain, words, times, &mut steps)
}

// The tail word of the first term, and the link words of the first slices of pools 1 and 2 and of
// the first two of pool 3, in an index of one segment with 4,096 documents and 8,192 terms.
fn chain_words(words: &mut FlatWords) -> [u64; 5]
    requires { (m : Moment) × StandsFor words.old m }
    ensures { words.new ≡ words.old }
{
    let tail = word_at(words, 24_579).unwrap_or(u64::MAX);
    let pool1 = word_at(words, 86_019).unwrap_or(u64::MAX);
    let pool2 = word_at(words, 151_555).unwrap_or(u64::MAX);
    let pool3 = word_at(words, 217_091).unwrap_or(u64::MAX);
    let next = word_at(words, 219_139).unwrap_or(u64::MAX);
    [tail, pool1, pool2, pool3, next]
}

// How many postings more there are, and the words then: the tail, and the links of the slices.
const SLICES: [(usize, [u64; 5]); 9] = [
    (1, [1, 0, 0, 0, 0]),
    (1, [2, 0, 0, 0, 0]),
    (1, [1073741826, 1, 0, 0, 0]),
    (14, [1073741840, 1, 0, 0, 0]),
    (1, [2147483650, 1, 1073741839, 0, 0]),
    (126, [2147483776, 1, 1073741839, 0, 0]),
    (1, [3221225474, 1, 1073741839, 2147483775, 0]),
    (2046, [3221227520, 1, 1073741839, 2147483775, 0]),
    (1, [3221227522, 1, 1073741839, 2147483775, 3221227519]),
];

#[test]
fn postings_take_slices_of_greater_pools(rt: HostRuntime) -> Result<(), Fail> {
    let alloc = rt.alloc();
    let config = Config::new(1, 4096, 8192)?;
    let mut words = FlatWords::new(alloc, config)?;
    let mut placer = Placer::new(config);
    let mut postings = Vec::new(alloc);
    for (more, want) in SLICES {
        add_postings(alloc, &mut placer, &mut words, &mut postings, more)?;
        let left = chain_words(&mut words);
        assert_eq!(rt; left, want, "{more}");
    }
    let term = Term::new(alloc, b"a")?;
    let given = walk::<Brand>(alloc, &mut words, &term, 2194, Blank::new(1))?;
    assert_eq!(rt; postings.len(), 2192);
    assert!(rt; are_given(given.as_slice(), postings.as_slice()));
    Ok(())
}

// The postings whose tails are stored, oldest first: a posting is stored right before its tail.
pub(super) fn postings_stored(
    alloc: Global,
    port: &GrowingPort,
    tail: u64,
) -> Result<Vec<u64>, Fail> {
    let mut postings = Vec::new(alloc);
    let mut last = 0;
    for store in port.stores_done() {
        let (place, value) = *store;
        if place == tail {
            postings.push(last)?;
        }
        last = value;
    }
    Ok(postings)
}

// Whether a walk gives what was seen when it was opened, while a document is placed, with one more
// store before each load.
fn is_walk_of_seen<L: Ledger>(
    alloc: Global,
    port: &mut GrowingPort,
    blank: Blank,
) -> Result<bool, Fail>
    requires blank { (blank.name ≡ L.name) × (blank.parts ≡ L.parts) × (0 < blank.parts) }
    requires port { (m : Moment) × Grows port.old m }
{
    let mut steps = Steps::<L>::new(blank);
    let term = Term::new(alloc, b"a")?;
    let Some(mut chain) = open(port, &term, &mut steps) else {
        return Ok(false);
    };
    let postings = postings_stored(alloc, port, 3075)?;
    let times = postings.len().saturating_add(2);
    let given = ask(alloc, &mut chain, port, times, &mut steps)?;
    Ok(are_given(given.as_slice(), postings.as_slice()))
}

// The same, with this many stores done before.
fn walks_what_it_saw(alloc: Global, stores: usize) -> Result<bool, Fail> {
    let config = Config::new(1, 4096, 1024)?;
    let documents = [of_a(alloc, 16)?];
    let last = of_a(alloc, 256)?;
    let mut port = growing(alloc, config, documents.as_slice(), last, Pace::OneFrom(0))?;
    grow_by(&mut port, stores);
    is_walk_of_seen::<Brand>(alloc, &mut port, Blank::new(1))
}

#[test]
fn a_walk_gives_what_it_saw(rt: HostRuntime) -> Result<(), Fail> {
    let alloc = rt.alloc();
    for stores in [
        0, 1, 2, 3, 4, 5, 6, 7, 8, 20, 100, 260, 261, 262, 263, 264, 400, 600,
    ] {
        assert!(rt; walks_what_it_saw(alloc, stores)?, "{stores}");
    }
    Ok(())
}
