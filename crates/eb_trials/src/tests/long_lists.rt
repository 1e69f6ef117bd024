//! Packed lists of 1 to 100,000 postings: a leap to each posting, to one below it and to one above
//! it.
ghost use Rattle.std.specs.Prelude.{◌≡◌, ◌<◌, IfOk};
ghost use Rattle.eb_place.specs.declared.moment.Moment.{Moment};
ghost use Rattle.eb_trials.specs.Recorded.{IsRecord};

use super::made::{add_all, document};
use super::packing::{convert_all, open, seek_each};
use crate::RecordingPen;
use eb_base::{Config, Document, Term};
use eb_convert::Converted;
use eb_place::{PLACES, Posting, Steps};
use eb_writer::Placer;
use std::alloc::Global;
use std::marker::Brand;
use std::sync::ledger::{Blank, Ledger};
use std::test::Fail;

// Documents in which `a` occurs this many times, and one of `b`.
fn documents_of(alloc: Global, documents: u64, times: u64) -> Result<Vec<Document>, Fail> {
    let mut text = Vec::new(alloc);
    for _ in 0..times {
        text.extend_from_slice(b"a ")?;
    }
    let mut all = Vec::new(alloc);
    for id in 0..documents {
        all.push(document(alloc, id, text.as_slice())?)?;
    }
    all.push(document(alloc, documents, b"b")?)?;
    Ok(all)
}

// An index whose first segment is full of these documents but for the last, and is converted.
fn converted(alloc: Global, documents: &[Document]) -> Result<RecordingPen, Fail>
    ensures { IfOk result (λ pen. (m : Moment) × IsRecord pen m) }
{
    let most = u32::try_from(documents.len().saturating_sub(1))?;
    let config = Config::new(2, most, 8192)?;
    let mut pen = RecordingPen::unrecorded(alloc, config)?;
    let mut placer = Placer::new(config);
    if !add_all(&mut placer, &mut pen, documents) {
        return Err(Fail::new("full"));
    }
    if convert_all(alloc, &mut pen, 1)?.as_slice() != [Converted::One(0)].as_slice() {
        return Err(Fail::new("not converted"));
    }
    Ok(pen)
}

// Leaps, and what each of them gives.
#[derive(Drop)]
struct Leaps {
    to: Vec<Posting>,
    give: Vec<Option<Posting>>,
}

// Puts a leap, and what it gives.
fn put(leaps: &mut Leaps, to: Posting, give: Posting) -> Result<(), Fail> {
    leaps.to.push(to)?;
    leaps.give.push(Some(give))?;
    Ok(())
}

// To one above each posting, to itself and to one below it, from the least on. There is none below
// 0.
fn leaps_of(alloc: Global, documents: u64, times: u64) -> Result<Leaps, Fail> {
    let mut leaps = Leaps {
        to: Vec::new(alloc),
        give: Vec::new(alloc),
    };
    let mut before = 0;
    for document in 0..documents {
        for place in 0..times {
            let posting = document.wrapping_mul(PLACES).wrapping_add(place);
            let is_last = place == times.wrapping_sub(1);
            let above = posting.wrapping_add(1);
            put(&mut leaps, above, if is_last { posting } else { above })?;
            put(&mut leaps, posting, posting)?;
            put(&mut leaps, posting.saturating_sub(1), before)?;
            before = posting;
        }
    }
    Ok(leaps)
}

// Whether each leap gives what it has to.
fn leaps_are<L: Ledger>(
    alloc: Global,
    pen: &mut RecordingPen,
    leaps: &Leaps,
    blank: Blank,
) -> Result<bool, Fail>
    requires blank { (blank.name ≡ L.name) × (blank.parts ≡ L.parts) × (0 < blank.parts) }
    requires pen { (m : Moment) × IsRecord pen.old m }
{
    let mut steps = Steps::<L>::new(blank);
    let term = Term::new(alloc, b"a")?;
    let Some(list) = open(pen, &term, &mut steps) else {
        return Ok(false);
    };
    let given = seek_each(alloc, list, pen, leaps.to.as_slice(), &mut steps)?;
    Ok(given.as_slice() == leaps.give.as_slice())
}

// Whether all leaps over the list of this many documents and places do.
fn are_leapt_over(alloc: Global, documents: u64, times: u64) -> Result<bool, Fail> {
    let all = documents_of(alloc, documents, times)?;
    let mut pen = converted(alloc, all.as_slice())?;
    let leaps = leaps_of(alloc, documents, times)?;
    leaps_are::<Brand>(alloc, &mut pen, &leaps, Blank::new(1))
}

// How many documents there are, and how often the word occurs in each.
const LISTS: [(u64, u64); 7] = [
    (1, 1),
    (1, 2),
    (1, 127),
    (1, 128),
    (1, 129),
    (1, 1000),
    (100, 1000),
];

#[test]
fn leaps_over_long_lists(rt: HostRuntime) -> Result<(), Fail> {
    for (documents, times) in LISTS {
        let are = are_leapt_over(rt.alloc(), documents, times)?;
        assert!(rt; are, "{documents} {times}");
    }
    Ok(())
}
