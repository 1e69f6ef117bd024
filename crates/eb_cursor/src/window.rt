//! Windows: terms in their order in one document, the last at most `reach` places after the first.
//!
//! A window is sought from its end. The walk takes the greatest place of the last term below an
//! end, and then for each term before it the greatest place below that of the term after it. For
//! this last place the window is then as short as it can be. Where its first term is too far away,
//! or in an earlier document, no window ends between the end of the first term's reach and this
//! last place: each such window begins at or before that first term, and reaches no further. So the
//! last term leaps to the end of that reach. Places only fall, so the loop terminates, and no list
//! of places is kept.
//!
//! A look stops early where the terms asked so far are too far apart for the reach, since each of
//! the others needs a place of its own before them. The last place that leaves room for the others
//! then stands for that of the first term, which is there or before. So the leap from it skips no
//! window either. Without that test, where 64 terms miss their reach by one place, each look at a
//! place of the last asked all 64.
//!
//! Two terms, which most windows have, are asked in place, three by one call more, and others in a
//! loop (`many_below`). As a call for each term, a look at 64 terms took up to 1.4 times as many
//! instructions, since a look that stopped early had made all its calls. In the loop three terms
//! would take 1.09 times as many.
//!
//! Where terms next to each other are one, and more than two, only the first and the last of them
//! walk (`run.rt`).
//!
//! A window whose reach is too short for its terms matches nothing, and asks no list. Without that
//! test 64 equal words with too short a reach walked one list 64 times.
//!
//! The walk holds for any number of position bits, since the end of the document bounds the reach.
//! `window_below` stays a call, since inlined it took registers from the walk over a query's other
//! parts.
ghost use Rattle.std.specs.Prelude.{◌≡◌, ◌+◌, ◌-◌, ◌*◌, ◌<◌, ◌≤◌, ◌^◌, true, false, length, None, Some};
ghost use Rattle.std.specs.Bool.{MatchBool};
ghost use Rattle.eb_base.specs.Query.{window};
ghost use Rattle.eb_cursor.specs.Loads.{loads_left};
ghost use Rattle.eb_cursor.specs.Posted.{reach_end};
ghost use Rattle.eb_cursor.specs.Asked.{CanAsk, CanAskBehind, CanAskTerms};
ghost use Rattle.eb_cursor.specs.Finds.{FindsMatch, FindsSpan, FindsEndOf, FindsLast};
ghost use Rattle.eb_cursor.specs.Runs.{CanAskDown, GoesDown, AreKept, CanLook, Looks, CanAskWith, FindsEndWith};

use crate::cursor::{Cursor, leaf_below};
use crate::phrase::to_document_end;
use crate::run::{Run, long_run, run_below};
use eb_base::Term;
use eb_place::{PLACES, Port, Steps};
use std::sync::ledger::Ledger;

/// Where the terms of a window are, each as near as it can before the one after it.
#[derive(Clone, Copy)]
pub struct Span {
    /// One more than the place of the first term, 0 where the terms don't occur in their order. It
    /// may be more than that where both are further apart than the look was asked for.
    pub first: u64,
    /// One more than the place of the last term, 0 where it doesn't occur.
    pub last: u64,
}

/// How far a look has come: the terms from one on were asked.
#[derive(Clone, Copy)]
pub(crate) struct Asked {
    /// How many terms before them weren't asked.
    pub(crate) left: usize,
    /// One more than the place of the first of those asked, 0 where they don't occur in their
    /// order; one more than the end where none was asked.
    pub(crate) first: u64,
}

impl Asked {
    /// What the place of the first of all terms is at most, one more than it: each that wasn't
    /// asked needs a place of its own.
    #[inline(always)]
    pub(crate) fn first_at_most(self) -> u64
        ensures { result ≡ self.first - self.left }
    {
        self.first.saturating_sub(self.left as u64)
    }
}

// Asks the terms from the last on, each for its greatest place below that of the term after it,
// until the first can't be within `limit` places of the last. Two terms, which most windows have,
// are asked here, without a call.
#[inline(always)]
#[cycle(span_below)]
fn span_below<P: Port, L: Ledger>(
    limit: u64,
    cursors: &mut [Cursor],
    port: &mut P,
    steps: &mut Steps<L>,
    end: u64,
) -> Span
    requires some { 0 < length cursors.old }
    requires ready { CanAskBehind P.stands port.old cursors.old end }
    ensures found { FindsSpan P.stands P.keeps port.old port.new limit cursors.old cursors.new end result }
    ensures loads { steps.new + loads_left cursors.new ≤ steps.old + loads_left cursors.old }
{
    let Some((own, rest)) = cursors.split_first_mut() else {
        return Span { first: 0, last: 0 };
    };
    if rest.is_empty() {
        let place = leaf_below(own, port, steps, end);
        return Span {
            first: place,
            last: place,
        };
    }
    let nearer = limit.saturating_sub(1);
    let behind = rest_below(nearer, rest, port, steps, end);
    if behind.first == 0 {
        return behind;
    }
    // (wherever this one is)
    if are_apart(rest.len(), behind, nearer) {
        return Span {
            first: behind.first - 1,
            last: behind.last,
        };
    }
    let first = leaf_below(own, port, steps, behind.first - 1);
    Span {
        first,
        last: behind.last,
    }
}

// Whether the terms are further apart than `limit`: a single one isn't, without a look at it.
#[inline(always)]
fn are_apart(terms: usize, span: Span, limit: u64) -> bool
    requires single { terms ≤ 1 → span.last ≡ span.first }
    ensures apart { result ≡ true → span.first + limit < span.last }
    ensures near { result ≡ false → span.last ≤ span.first + limit }
{
    terms > 1 && span.last.saturating_sub(span.first) > limit
}

// Asks the terms after the first, most often a single one.
#[inline(always)]
#[cycle(span_below)]
fn rest_below<P: Port, L: Ledger>(
    limit: u64,
    cursors: &mut [Cursor],
    port: &mut P,
    steps: &mut Steps<L>,
    end: u64,
) -> Span
    requires some { 0 < length cursors.old }
    requires ready { CanAskBehind P.stands port.old cursors.old end }
    ensures found { FindsSpan P.stands P.keeps port.old port.new limit cursors.old cursors.new end result }
    ensures single { length cursors.old ≤ 1 → result.last ≡ result.first }
    ensures loads { steps.new + loads_left cursors.new ≤ steps.old + loads_left cursors.old }
{
    if cursors.len() > 1 {
        return more_below(limit, cursors, port, steps, end);
    }
    let place = leaf_below(&mut cursors[0], port, steps, end);
    Span {
        first: place,
        last: place,
    }
}

// Asks more than one term, by a call: two here, others in a loop.
#[cycle(span_below)]
fn more_below<P: Port, L: Ledger>(
    limit: u64,
    cursors: &mut [Cursor],
    port: &mut P,
    steps: &mut Steps<L>,
    end: u64,
) -> Span
    requires some { 0 < length cursors.old }
    requires ready { CanAskBehind P.stands port.old cursors.old end }
    ensures found { FindsSpan P.stands P.keeps port.old port.new limit cursors.old cursors.new end result }
    ensures loads { steps.new + loads_left cursors.new ≤ steps.old + loads_left cursors.old }
{
    if cursors.len() > 2 {
        return many_below(limit, cursors, port, steps, end);
    }
    span_below(limit, cursors, port, steps, end)
}

// One more than the greatest place of the last term below `end`, or 0. The other terms aren't
// asked.
#[inline(always)]
fn last_below<P: Port, L: Ledger>(
    cursors: &mut [Cursor],
    port: &mut P,
    steps: &mut Steps<L>,
    end: u64,
) -> u64
    requires some { 0 < length cursors.old }
    requires ready { CanAskBehind P.stands port.old cursors.old end }
    ensures found { FindsLast P.stands P.keeps port.old port.new cursors.old cursors.new end result }
    ensures loads { steps.new + loads_left cursors.new ≤ steps.old + loads_left cursors.old }
{
    let last = cursors.len() - 1;
    leaf_below(&mut cursors[last], port, steps, end)
}

// Asks many terms, by a call, in a loop from the last on. It ends where the terms asked are too far
// apart, wherever the others are: each of these needs a place of its own.
fn many_below<P: Port, L: Ledger>(
    limit: u64,
    cursors: &mut [Cursor],
    port: &mut P,
    steps: &mut Steps<L>,
    end: u64,
) -> Span
    requires some { 0 < length cursors.old }
    requires ready { CanAskBehind P.stands port.old cursors.old end }
    ensures found { FindsSpan P.stands P.keeps port.old port.new limit cursors.old cursors.new end result }
    ensures loads { steps.new + loads_left cursors.new ≤ steps.old + loads_left cursors.old }
{
    let last = last_below(cursors, port, steps, end);
    let asked = Asked {
        left: cursors.len() - 1,
        first: last,
    };
    let asked = ask_down(0, last.saturating_sub(limit), asked, cursors, port, steps);
    Span {
        first: asked.first_at_most(),
        last,
    }
}

// Asks the terms before those that were asked, down to one, until they can't all be from `floor`
// on.
#[inline(always)]
pub(crate) fn ask_down<P: Port, L: Ledger>(
    down_to: usize,
    floor: u64,
    asked: Asked,
    cursors: &mut [Cursor],
    port: &mut P,
    steps: &mut Steps<L>,
) -> Asked
    requires within { asked.left ≤ length cursors.old }
    requires ready { CanAskDown P.stands port.old cursors.old asked }
    ensures found { GoesDown P.stands P.keeps port.old port.new cursors.old cursors.new asked result }
    ensures low { down_to ≤ asked.left → down_to ≤ result.left }
    ensures falls { result.left ≤ asked.left }
    ensures kept { AreKept cursors.old cursors.new result.left asked.left }
    ensures stops { down_to < result.left → 0 < result.first → result.first - result.left < floor }
    ensures loads { steps.new + loads_left cursors.new ≤ steps.old + loads_left cursors.old }
{
    let mut asked = asked;
    'down: while is_open(down_to, asked, floor) {
        let left = asked.left - 1;
        let first = leaf_below(&mut cursors[left], port, steps, asked.first - 1);
        asked = Asked { left, first };
    }
    asked
}

// Whether terms are left to be asked, those after them occur in their order, and all can be from
// `floor` on.
#[inline(always)]
fn is_open(down_to: usize, asked: Asked, floor: u64) -> bool
    ensures { MatchBool result ((down_to < asked.left) × (0 < asked.first) × (floor ≤ asked.first - asked.left))
        (down_to < asked.left → 0 < asked.first → asked.first - asked.left < floor) }
{
    asked.left > down_to && asked.first > 0 && asked.first_at_most() >= floor
}

// The end below which the last term of a window is whose first term is before `first`: at most
// `reach` places after it, and in its document.
fn end_of_reach(first: u64, reach: u32) -> u64
    requires { first ≤ 2 ^ 49 }
    ensures { result ≡ reach_end reach first }
{
    (first + u64::from(reach)).min(PLACES * to_document_end(first))
}

// Where the terms are below `end`, as far as a look within `limit` tells; where the run is, if there
// is one.
#[inline(always)]
fn look_below<P: Port, L: Ledger>(
    run: Option<Run>,
    known: &mut Option<Span>,
    limit: u64,
    cursors: &mut [Cursor],
    port: &mut P,
    steps: &mut Steps<L>,
    end: u64,
) -> Span
    requires small { end ≤ 2 ^ 48 }
    requires some { 0 < length cursors.old }
    requires ready { CanLook P.stands port.old run known.old cursors.old end }
    ensures found { Looks P.stands P.keeps port.old port.new limit run known.old known.new cursors.old cursors.new end result }
    ensures loads { steps.new + loads_left cursors.new ≤ steps.old + loads_left cursors.old }
{
    match run {
        None => span_below(limit, cursors, port, steps, end),
        Some(run) => run_below(run, known, limit, cursors, port, steps, end),
    }
}

// One more than the greatest place below `end` where a window ends, or 0. The run is one of its
// terms, if it has one.
#[inline(always)]
fn windows_below<P: Port, L: Ledger>(
    run: Option<Run>,
    reach: u32,
    cursors: &mut [Cursor],
    port: &mut P,
    steps: &mut Steps<L>,
    end: u64,
) -> u64
    requires small { end ≤ 2 ^ 48 }
    requires some { 0 < length cursors.old }
    requires ready { CanAskWith P.stands port.old run cursors.old end }
    ensures found { FindsEndWith P.stands P.keeps port.old port.new run reach cursors.old cursors.new end result }
    ensures loads { steps.new + loads_left cursors.new ≤ steps.old + loads_left cursors.old }
{
    let mut known = None;
    let mut place = end;
    while place > 0 {
        let limit = u64::from(reach);
        let span = look_below(run, &mut known, limit, cursors, port, steps, place);
        let reached = end_of_reach(span.first, reach);
        if span.last <= reached {
            return span.last;
        }
        place = reached;
    }
    place
}

// As `windows_below`, where the terms have a run.
#[inline(never)]
fn runs_below<P: Port, L: Ledger>(
    run: Run,
    reach: u32,
    cursors: &mut [Cursor],
    port: &mut P,
    steps: &mut Steps<L>,
    end: u64,
) -> u64
    requires small { end ≤ 2 ^ 48 }
    requires some { 0 < length cursors.old }
    requires ready { CanAskWith P.stands port.old (Some run) cursors.old end }
    ensures found { FindsEndWith P.stands P.keeps port.old port.new (Some run) reach cursors.old cursors.new end result }
    ensures loads { steps.new + loads_left cursors.new ≤ steps.old + loads_left cursors.old }
{
    windows_below(Some(run), reach, cursors, port, steps, end)
}

// One more than the greatest place below `end` where a window of these terms ends, or 0.
fn ends_below<P: Port, L: Ledger>(
    terms: &[Term],
    reach: u32,
    cursors: &mut [Cursor],
    port: &mut P,
    steps: &mut Steps<L>,
    end: u64,
) -> u64
    requires small { end ≤ 2 ^ 48 }
    requires some { 0 < length cursors.old }
    requires ready { CanAskTerms P.stands port.old terms.now cursors.old end }
    ensures found { FindsEndOf P.stands P.keeps port.old port.new terms.now reach cursors.old cursors.new end result }
    ensures loads { steps.new + loads_left cursors.new ≤ steps.old + loads_left cursors.old }
{
    if terms.len() > 2 {
        if let Some(run) = long_run(terms) {
            return runs_below(run, reach, cursors, port, steps, end);
        }
    }
    windows_below(None, reach, cursors, port, steps, end)
}

/// One more than the greatest document below `end` that has the window of this reach, or 0.
// A call, so that the walk over a query's other parts takes none of its registers.
#[inline(never)]
pub fn window_below<P: Port, L: Ledger>(
    terms: &[Term],
    reach: u32,
    cursors: &mut [Cursor],
    port: &mut P,
    steps: &mut Steps<L>,
    end: u64,
) -> u64
    requires small { end ≤ 2 ^ 32 }
    requires ready { CanAsk P.stands port.old (window terms.now reach) cursors.old end }
    ensures found { FindsMatch P.stands P.keeps port.old port.new (window terms.now reach) cursors.old cursors.new end result }
    ensures loads { steps.new + loads_left cursors.new ≤ steps.old + loads_left cursors.old }
{
    // (a reach that is too short for the terms)
    if cursors.len() > reach as usize + 1 {
        return 0;
    }
    let start = (PLACES * end).min(cursors[0].upto);
    if start == 0 {
        return 0;
    }
    let found = ends_below(terms, reach, cursors, port, steps, start);
    cursors[0].upto = found;
    to_document_end(found)
}
