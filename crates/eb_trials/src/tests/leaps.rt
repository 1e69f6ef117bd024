//! Leaps: what a chain gives at or below a number, compared with the list of its postings, while
//! its words grow between any two loads.
ghost use Rattle.std.specs.Prelude.{◌≡◌, ◌<◌};
ghost use Rattle.eb_place.specs.declared.moment.Moment.{Moment};
ghost use Rattle.eb_trials.specs.Grown.{Grows};

use super::chains::{of_a, open, postings_stored};
use super::made::{grow_by, growing};
use crate::{GrowingPort, Pace};
use eb_base::{Config, Document, MAX_TOKENS, Term};
use eb_place::{PLACES, Posting, Steps};
use std::alloc::Global;
use std::marker::Brand;
use std::sync::ledger::{Blank, Ledger};
use std::test::Fail;

// Documents of the term `a` with this many postings in all, full but for the last.
fn documents_of(alloc: Global, postings: usize) -> Result<Vec<Document>, Fail> {
    let mut documents = Vec::new(alloc);
    let mut left = postings;
    for _ in 0..postings {
        let times = left.min(MAX_TOKENS);
        if times > 0 {
            documents.push(of_a(alloc, times)?)?;
        }
        left -= times;
    }
    Ok(documents)
}

// The posting of this number of those documents, counted from 0.
fn nth(at: u64) -> Posting {
    let tokens = MAX_TOKENS as u64;
    (at / tokens)
        .saturating_mul(PLACES)
        .saturating_add(at % tokens)
}

// How many of rising numbers are at most `most`.
fn count_at_most(postings: &[u64], most: u64) -> usize {
    postings.iter().filter(|posting| **posting <= most).count()
}

// Whether this is the last of the first `left` postings, none where there are none.
fn is_last(given: Option<Posting>, postings: &[u64], left: usize) -> bool {
    match given {
        None => left == 0,
        Some(posting) => left > 0 && postings.get(left - 1) == Some(&posting),
    }
}

// The slices of all pools that this many postings are in: of 2, 15, 127, and further ones of 2,047.
fn slices_of(postings: usize) -> u64 {
    let firsts = [0, 2, 17, 144, 2191, 4238, 6285];
    firsts.iter().filter(|first| **first < postings).count() as u64
}

// What a leap to a posting gave, the next one then, and a leap to the half of it; and how many
// loads the first leap made.
#[derive(Clone, Copy)]
struct Leapt {
    first: Option<Posting>,
    second: Option<Posting>,
    third: Option<Posting>,
    loads: u64,
}

// Whether that is what these postings have at or below `most`, after it, and at or below its half;
// and whether the first leap made at most two loads for each slice that it leaves, and 23.
fn is_as_listed(postings: &[u64], most: Posting, leapt: Leapt) -> bool {
    let at_first = count_at_most(postings, most);
    let at_second = at_first.saturating_sub(1);
    let at_third = count_at_most(postings, most / 2).min(at_second.saturating_sub(1));
    let passed = slices_of(postings.len()).saturating_sub(slices_of(at_first));
    let bound = passed.saturating_mul(2).saturating_add(23);
    leapt.loads <= bound
        && is_last(leapt.first, postings, at_first)
        && is_last(leapt.second, postings, at_second)
        && is_last(leapt.third, postings, at_third)
}

// Whether the leaps of the chain of `a` are so.
fn leaps_as_listed<L: Ledger>(
    alloc: Global,
    port: &mut GrowingPort,
    most: Posting,
    blank: Blank,
) -> Result<bool, Fail>
    requires blank { (blank.name ≡ L.name) × (blank.parts ≡ L.parts) × (0 < blank.parts) }
    requires port { (m : Moment) × Grows port.old m }
{
    let mut steps = Steps::<L>::new(blank);
    let term = Term::new(alloc, b"a")?;
    let Some(mut chain) = open(port, &term, &mut steps) else {
        return Ok(false);
    };
    let stored = postings_stored(alloc, port, 3075)?;
    let before = port.loads();
    let first = chain.next_at_most(port, most, &mut steps);
    let loads = port.loads().saturating_sub(before);
    let second = chain.next(port, &mut steps);
    let third = chain.next_at_most(port, most / 2, &mut steps);
    let leapt = Leapt {
        first,
        second,
        third,
        loads,
    };
    Ok(is_as_listed(stored.as_slice(), most, leapt))
}

// The same for this many postings, with five stores of a further document done before, and one more
// before each load.
fn leaps(alloc: Global, postings: usize, most: Posting) -> Result<bool, Fail> {
    let config = Config::new(1, 4096, 1024)?;
    let documents = documents_of(alloc, postings)?;
    let last = of_a(alloc, 256)?;
    let mut port = growing(alloc, config, documents.as_slice(), last, Pace::OneFrom(0))?;
    grow_by(&mut port, 5);
    leaps_as_listed::<Brand>(alloc, &mut port, most, Blank::new(1))
}

// The numbers of the postings that are leapt to.
const MOSTS: [u64; 24] = [
    0,
    1,
    2,
    3,
    15,
    16,
    17,
    18,
    142,
    143,
    144,
    145,
    2189,
    2190,
    2191,
    2192,
    4236,
    4237,
    4238,
    4239,
    5998,
    5999,
    6000,
    1 << 23,
];

#[test]
fn a_leap_gives_what_the_list_has(rt: HostRuntime) -> Result<(), Fail> {
    for postings in [2, 17, 144, 2191, 6000] {
        for most in MOSTS {
            let is = leaps(rt.alloc(), postings, nth(most))?;
            assert!(rt; is, "{postings} {most}");
        }
    }
    Ok(())
}
