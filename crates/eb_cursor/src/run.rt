//! Runs: terms of a window next to each other that are one.
//!
//! Each stands at the greatest place below that of the term after it. So where the last of them
//! falls to its next place, each other falls to the place of the term before it, and the first to
//! its own next place: their looks cost two walks of their list, and not one for each. The places
//! of a run are kept from look to look; where all of them are above the next end, its cursors leap
//! there as others do. Of several runs the longest is asked so.
ghost use Rattle.std.specs.Prelude.{◌≡◌, ◌+◌, ◌-◌, ◌<◌, ◌≤◌, ◌^◌, length, None, Some};
ghost use Rattle.eb_cursor.specs.Loads.{loads_left};
ghost use Rattle.eb_cursor.specs.Runs.{CanAskRun, FindsRun, CanAskBefore, FindsBefore, CanLook, Looks, HasRun, IsLongest};

use crate::cursor::{Cursor, leaf_below};
use crate::window::{Asked, Span, ask_down};
use eb_base::Term;
use eb_place::{Port, Steps};
use std::sync::ledger::Ledger;

/// Terms of a window next to each other that are one.
#[derive(Clone, Copy)]
pub(crate) struct Run {
    /// The number of the first of them.
    pub(crate) from: usize,
    /// One more than the number of the last.
    pub(crate) to: usize,
}

/// The first of the longest runs of these terms, where it has three terms or more.
pub(crate) fn long_run(terms: &[Term]) -> Option<Run>
    ensures run { HasRun result terms.now }
    ensures longest { IsLongest result terms.now }
{
    let mut longest = Run { from: 0, to: 0 };
    let mut from = 0;
    let mut at = 0;
    while at < terms.len() {
        if terms[at] != terms[from] {
            from = at;
        }
        at += 1;
        if at - from > longest.to - longest.from {
            longest = Run { from, to: at };
        }
    }
    if longest.to - longest.from > 2 {
        return Some(longest);
    }
    None
}

// The places of a run that stands at known ones, the last of its terms at or after the place that
// is sought: all fall by one place at a time.
fn step_run<P: Port, L: Ledger>(
    run: Run,
    span: Span,
    asked: Asked,
    cursors: &mut [Cursor],
    port: &mut P,
    steps: &mut Steps<L>,
) -> Span
    requires left { asked.left ≡ run.to }
    requires some { 0 < asked.first }
    requires within { run.to ≤ length cursors.old }
    requires ready { CanAskRun P.stands port.old run (Some span) cursors.old asked }
    ensures found { FindsRun P.stands P.keeps port.old port.new run (Some span) cursors.old cursors.new asked result }
    ensures loads { steps.new + loads_left cursors.new ≤ steps.old + loads_left cursors.old }
{
    let mut span = span;
    while span.last >= asked.first {
        let last = leaf_below(&mut cursors[run.to - 1], port, steps, span.last - 1);
        let end = span.first.saturating_sub(1);
        let first = leaf_below(&mut cursors[run.from], port, steps, end);
        span = Span { first, last };
    }
    span
}

// The places of a run whose terms are all asked.
fn leap_run<P: Port, L: Ledger>(
    run: Run,
    asked: Asked,
    cursors: &mut [Cursor],
    port: &mut P,
    steps: &mut Steps<L>,
) -> Span
    requires left { asked.left ≡ run.to }
    requires within { run.to ≤ length cursors.old }
    requires ready { CanAskRun P.stands port.old run None cursors.old asked }
    ensures found { FindsRun P.stands P.keeps port.old port.new run None cursors.old cursors.new asked result }
    ensures loads { steps.new + loads_left cursors.new ≤ steps.old + loads_left cursors.old }
{
    let last = ask_down(run.to - 1, 0, asked, cursors, port, steps);
    let first = ask_down(run.from, 0, last, cursors, port, steps);
    Span {
        first: first.first,
        last: last.first,
    }
}

// The places of a run, where the terms after it were asked.
fn ask_run<P: Port, L: Ledger>(
    run: Run,
    known: Option<Span>,
    asked: Asked,
    cursors: &mut [Cursor],
    port: &mut P,
    steps: &mut Steps<L>,
) -> Span
    requires left { asked.left ≡ run.to }
    requires within { run.to ≤ length cursors.old }
    requires ready { CanAskRun P.stands port.old run known cursors.old asked }
    ensures found { FindsRun P.stands P.keeps port.old port.new run known cursors.old cursors.new asked result }
    ensures loads { steps.new + loads_left cursors.new ≤ steps.old + loads_left cursors.old }
{
    if let Some(span) = known {
        if span.first < asked.first {
            return step_run(run, span, asked, cursors, port, steps);
        }
    }
    leap_run(run, asked, cursors, port, steps)
}

// Asks the terms before the run, which is at these places, until the first of all can't be within
// `limit` places of the last.
fn before_run<P: Port, L: Ledger>(
    run: Run,
    span: Span,
    last: u64,
    limit: u64,
    cursors: &mut [Cursor],
    port: &mut P,
    steps: &mut Steps<L>,
) -> Span
    requires within { run.to ≤ length cursors.old }
    requires ready { CanAskBefore P.stands port.old run span last cursors.old }
    ensures found { FindsBefore P.stands P.keeps port.old port.new limit run span last cursors.old cursors.new result }
    ensures loads { steps.new + loads_left cursors.new ≤ steps.old + loads_left cursors.old }
{
    let asked = Asked {
        left: run.from,
        first: span.first,
    };
    let asked = ask_down(0, last.saturating_sub(limit), asked, cursors, port, steps);
    Span {
        first: asked.first_at_most(),
        last,
    }
}

/// Asks the terms of a window that has a run from the last on, each for its greatest place below
/// that of the term after it, until the first can't be within `limit` places of the last. `known`
/// is where the run was found before, if it was.
pub(crate) fn run_below<P: Port, L: Ledger>(
    run: Run,
    known: &mut Option<Span>,
    limit: u64,
    cursors: &mut [Cursor],
    port: &mut P,
    steps: &mut Steps<L>,
    end: u64,
) -> Span
    requires small { end ≤ 2 ^ 48 }
    requires ready { CanLook P.stands port.old (Some run) known.old cursors.old end }
    ensures found { Looks P.stands P.keeps port.old port.new limit (Some run) known.old known.new cursors.old cursors.new end result }
    ensures loads { steps.new + loads_left cursors.new ≤ steps.old + loads_left cursors.old }
{
    let left = cursors.len();
    let asked = Asked {
        left,
        first: end + 1,
    };
    if run.to == left {
        let span = ask_run(run, *known, asked, cursors, port, steps);
        *known = Some(span);
        return before_run(run, span, span.last, limit, cursors, port, steps);
    }
    let last = ask_down(left - 1, 0, asked, cursors, port, steps);
    let floor = last.first.saturating_sub(limit);
    let asked = ask_down(run.to, floor, last, cursors, port, steps);
    if asked.left > run.to {
        return Span {
            first: asked.first_at_most(),
            last: last.first,
        };
    }
    let span = ask_run(run, *known, asked, cursors, port, steps);
    *known = Some(span);
    before_run(run, span, last.first, limit, cursors, port, steps)
}
