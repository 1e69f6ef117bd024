//! Phrases: leaps over the places where a phrase can begin.
//!
//! Where a phrase begins at place p, its term number i is at p + i. So the postings of term i, each
//! less i, are the places where the phrase can begin as far as this term says, and a phrase is an
//! And of these lists. It is found as an And is (`below.rt`): the term that is likely the rarest is
//! asked first, then all terms in turn, each below the place where the one before it stopped. Where
//! a turn leaves the place as it is, the phrase begins there. A place is skipped only where some
//! term can't be at its own place, so no phrase is lost; places only fall, so the loop terminates.
//!
//! Places of two documents follow each other without a gap in the numbers. So before each turn the
//! end is lowered to one from before which all terms of the phrase are in one document
//! (`room_below`).
//!
//! Two terms, which most phrases have, are asked without a loop (`terms_below`). `phrase_below`
//! stays a call, since inlined it took registers from the walk over a query's other parts.
ghost use Rattle.std.specs.Prelude.{◌≡◌, ℕ, ◌+◌, ◌*◌, ◌<◌, ◌≤◌, ◌^◌, List, length};
ghost use Rattle.eb_place.specs.Postings.{places};
ghost use Rattle.eb_cursor.specs.Loads.{loads_left};
ghost use Rattle.eb_cursor.specs.Costs.{PaysSpans, round_loads};
ghost use Rattle.eb_cursor.specs.Posted.{document_end, has_places};
ghost use Rattle.eb_cursor.specs.Asked.{CanAskPhrase, CanAskLeaves};
ghost use Rattle.eb_cursor.specs.Finds.{FindsPhrase, FindsStart, LeadsRun, GoesOver};
ghost use Rattle.eb_cursor.specs.Tops.{top};

use crate::cursor::{Cursor, leaf_below};
use eb_place::{PLACES, Port, Steps};
use std::sync::ledger::Ledger;

/// One more than the document of the posting before this place, or 0.
#[inline(always)]
pub fn to_document_end(place: u64) -> u64
    ensures { result ≡ document_end place }
{
    if place == 0 {
        return 0;
    }
    (place - 1) / PLACES + 1
}

// The greatest end at or below this one, from before which `count` places lie in one document.
fn room_below(count: u64, end: u64) -> u64
    requires { (0 < count) × (count ≤ places) }
    ensures { result ≡ top (has_places count) end }
{
    if end == 0 {
        return 0;
    }
    let over = (end - 1) % PLACES + count;
    if over <= PLACES {
        return end;
    }
    end - (over - PLACES)
}

// Asks each leaf in turn, each for its own place in the phrase; none where the one before it has
// ended.
fn leaves_below<P: Port, L: Ledger>(
    at: u64,
    cursors: &mut [Cursor],
    port: &mut P,
    steps: &mut Steps<L>,
    end: u64,
) -> u64
    requires small { end + at + length cursors.old < 2 ^ 49 }
    requires ready { CanAskLeaves P.stands port.old cursors.old at end }
    ensures found { GoesOver P.stands P.keeps port.old port.new cursors.old cursors.new at end result }
    ensures loads { steps.new + loads_left cursors.new ≤ steps.old + loads_left cursors.old }
    ensures spans { (ts : List (List ℕ))
        → PaysSpans P.stands P.keeps port.old port.new ts cursors.old cursors.new (round_loads ts) steps.old steps.new }
{
    if end == 0 {
        return 0;
    }
    let Some((own, rest)) = cursors.split_first_mut() else {
        return end;
    };
    let found = leaf_below(own, port, steps, end + at).saturating_sub(at);
    leaves_below(at + 1, rest, port, steps, found)
}

// As `leaves_below` from the first term on. Most phrases have two terms, which are asked here,
// without a loop.
#[inline(always)]
fn terms_below<P: Port, L: Ledger>(
    cursors: &mut [Cursor],
    port: &mut P,
    steps: &mut Steps<L>,
    end: u64,
) -> u64
    requires small { end + length cursors.old < 2 ^ 49 }
    requires ready { CanAskLeaves P.stands port.old cursors.old 0 end }
    ensures found { GoesOver P.stands P.keeps port.old port.new cursors.old cursors.new 0 end result }
    ensures loads { steps.new + loads_left cursors.new ≤ steps.old + loads_left cursors.old }
{
    if end == 0 {
        return 0;
    }
    if cursors.len() != 2 {
        return leaves_below(0, cursors, port, steps, end);
    }
    let found = leaf_below(&mut cursors[0], port, steps, end);
    if found == 0 {
        return 0;
    }
    leaf_below(&mut cursors[1], port, steps, found + 1).saturating_sub(1)
}

// One more than the greatest place below `end` where the phrase can begin by its leading term, or
// 0; `end` where no term has its number.
fn lead_leaf_below<P: Port, L: Ledger>(
    at: u64,
    lead: u32,
    cursors: &mut [Cursor],
    port: &mut P,
    steps: &mut Steps<L>,
    end: u64,
) -> u64
    requires small { end + at + length cursors.old < 2 ^ 49 }
    requires ready { CanAskLeaves P.stands port.old cursors.old at end }
    ensures found { LeadsRun P.stands P.keeps port.old port.new cursors.old cursors.new at end result }
    ensures loads { steps.new + loads_left cursors.new ≤ steps.old + loads_left cursors.old }
{
    let Some((own, rest)) = cursors.split_first_mut() else {
        return end;
    };
    if lead == 0 {
        return leaf_below(own, port, steps, end + at).saturating_sub(at);
    }
    lead_leaf_below(at + 1, lead - 1, rest, port, steps, end)
}

// One more than the greatest place below `end` where the phrase begins, or 0.
fn starts_below<P: Port, L: Ledger>(
    cursors: &mut [Cursor],
    port: &mut P,
    steps: &mut Steps<L>,
    end: u64,
) -> u64
    requires small { (end ≤ 2 ^ 48) × (0 < length cursors.old) × (length cursors.old ≤ 64) }
    requires ready { CanAskLeaves P.stands port.old cursors.old 0 end }
    ensures found { FindsStart P.stands P.keeps port.old port.new cursors.old cursors.new end result }
    ensures loads { steps.new + loads_left cursors.new ≤ steps.old + loads_left cursors.old }
{
    let count = cursors.len() as u64;
    let mut place = end;
    loop {
        let room = room_below(count, place);
        let found = terms_below(cursors, port, steps, room);
        if found == place {
            return place;
        }
        place = found;
    }
}

// Asks the leading term first, and then all terms from where it stopped.
fn led_starts_below<P: Port, L: Ledger>(
    lead: u32,
    cursors: &mut [Cursor],
    port: &mut P,
    steps: &mut Steps<L>,
    end: u64,
) -> u64
    requires small { (end ≤ 2 ^ 48) × (0 < length cursors.old) × (length cursors.old ≤ 64) }
    requires ready { CanAskLeaves P.stands port.old cursors.old 0 end }
    ensures found { FindsStart P.stands P.keeps port.old port.new cursors.old cursors.new end result }
    ensures loads { steps.new + loads_left cursors.new ≤ steps.old + loads_left cursors.old }
{
    let start = lead_leaf_below(0, lead, cursors, port, steps, end);
    starts_below(cursors, port, steps, start)
}

/// One more than the greatest document below `end` that has the phrase, or 0.
// A call, so that the walk over a query's other parts takes none of its registers.
#[inline(never)]
pub fn phrase_below<P: Port, L: Ledger>(
    cursors: &mut [Cursor],
    port: &mut P,
    steps: &mut Steps<L>,
    end: u64,
) -> u64
    requires small { (end ≤ 2 ^ 32) × (length cursors.old ≤ 64) }
    requires ready { CanAskPhrase P.stands port.old cursors.old end }
    ensures found { FindsPhrase P.stands P.keeps port.old port.new cursors.old cursors.new end result }
    ensures loads { steps.new + loads_left cursors.new ≤ steps.old + loads_left cursors.old }
{
    let start = (PLACES * end).min(cursors[0].upto);
    if start == 0 {
        return 0;
    }
    let lead = cursors[0].lead;
    let found = led_starts_below(lead, cursors, port, steps, start);
    cursors[0].upto = found;
    to_document_end(found)
}
