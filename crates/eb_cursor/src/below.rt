//! The greatest match of a query below an end.
//!
//! Each part of a query answers one question: which is the greatest document below this end that
//! the part matches? A search asks the whole query again and again, each time below the match
//! before.
//!
//! - An **And** is a leapfrog join of sorted lists. It asks the part that is likely the rarest first, and then all parts in
//!   turn, each below the place where the part before it stopped. Where a whole turn leaves the place as it is, all parts match
//!   there. A part skips only documents that it doesn't match, so no match is lost. The place never rises, so the loop
//!   terminates. Where a part has ended, the parts after it aren't asked.
//! - An **Or** takes the greatest match of its parts. A part whose greatest match is known answers
//!   from its cursors, at no load.
//! - A **Not** tries document by document, since it has no list to leap in.
//! - A **bound on the id** is asked after the parts that follow it, since each of its documents
//!   costs a load.
//!
//! Most Ands have two words. A turn over any number of parts was a call, or a loop of its own, of
//! 50 to 80 instructions besides the leaps. For two parts the turn is now in the loop that asks for
//! it (`first_below`, `last_below`); others go by the recursion (`round_below`). Two packed words
//! near their ends are merged instead (`pair.rt`). `docs/DECISIONS.md` has more, under Leaps, The
//! leader of an And, and A leap reads field by field.
ghost use Rattle.std.specs.Prelude.{◌≡◌, ℕ, ◌+◌, ◌<◌, ◌≤◌, ◌^◌, List, [], ◌∷◌, length, true};
ghost use Rattle.std.specs.List.{Contains};
ghost use Rattle.eb_base.specs.Query.{tree, word, conjunction};
ghost use Rattle.eb_base.specs.Term.{Term};
ghost use Rattle.eb_place.specs.Told.{Told};
ghost use Rattle.eb_cursor.specs.Loads.{loads_left};
ghost use Rattle.eb_cursor.specs.Costs.{FirstCosts, IsPaid, Pays, PaysSpans, look_loads, round_loads};
ghost use Rattle.eb_cursor.specs.AndCosts.{word_parts, call_loads, PaysRounds, PaysAnd};
ghost use Rattle.eb_cursor.specs.Asked.{trees_in, CanAsk, CanAskAll, CanAskWord};
ghost use Rattle.eb_cursor.specs.Finds.{FindsMatch, FindsWord, FindsNot, FindsAll, FindsSome, Leads, GoesRound};

use crate::bound::bound_below;
use crate::cursor::{Cursor, leaf_below, walk_below};
use crate::pair::pair_below;
use crate::phrase::{phrase_below, to_document_end};
use crate::size::{part_size, size};
use crate::window::window_below;
use eb_base::Query;
use eb_place::{PLACES, Port, Steps};
use std::sync::ledger::Ledger;

/// One more than the greatest document below `end` that matches, or 0. A query that is a word reads
/// its postings one by one, which bounds its loads. The loads of an and of words are bounded by the
/// documents of any one of them.
// Both a search and a count call it.
#[inline(always)]
pub fn query_below<P: Port, L: Ledger>(
    query: &Query,
    cursors: &mut [Cursor],
    port: &mut P,
    steps: &mut Steps<L>,
    end: u64,
) -> u64
    requires small { (end ≤ 2 ^ 32) × (length cursors.old ≤ 64) }
    requires ready { CanAsk P.stands port.old (tree query.now) cursors.old end }
    ensures found { FindsMatch P.stands P.keeps port.old port.new (tree query.now) cursors.old cursors.new end result }
    ensures loads { steps.new + loads_left cursors.new ≤ steps.old + loads_left cursors.old }
    ensures costs { (s : ℕ) (t : List ℕ) (most : ℕ) → tree query.now ≡ word t
        → Told P.stands P.keeps port.old port.new (λ m. FirstCosts m s t cursors.old most)
        (λ n. IsPaid (FirstCosts n s t cursors.new) steps.old most steps.new) }
    ensures rounds { (ts : List (List ℕ)) (t : List ℕ) → tree query.now ≡ conjunction (word_parts ts) → Contains ts t
        → PaysAnd P.stands P.keeps port.old port.new ts t cursors.old cursors.new end steps.old steps.new }
{
    match query {
        Query::Word(_) => posting_below(cursors, port, steps, end),
        Query::And(parts) => and_below(parts.as_slice(), cursors, port, steps, end),
        _ => below(query, cursors, port, steps, end),
    }
}

// One more than the greatest document below `end` that has the term, or 0, posting by posting.
#[inline(always)]
fn posting_below<P: Port, L: Ledger>(
    cursors: &mut [Cursor],
    port: &mut P,
    steps: &mut Steps<L>,
    end: u64,
) -> u64
    requires small { end ≤ 2 ^ 32 }
    requires ready { CanAskWord P.stands port.old cursors.old end }
    ensures found { FindsWord P.stands P.keeps port.old port.new cursors.old cursors.new end result }
    ensures loads { steps.new + loads_left cursors.new ≤ steps.old + loads_left cursors.old }
    ensures costs { Pays P.stands P.keeps port.old port.new FirstCosts cursors.old cursors.new steps.old steps.new }
{
    let found = walk_below(&mut cursors[0], port, steps, PLACES * end);
    to_document_end(found)
}

/// One more than the greatest document below `end` that matches, or 0.
#[cycle(below)]
pub fn below<P: Port, L: Ledger>(
    query: &Query,
    cursors: &mut [Cursor],
    port: &mut P,
    steps: &mut Steps<L>,
    end: u64,
) -> u64
    requires small { (end ≤ 2 ^ 32) × (length cursors.old ≤ 64) }
    requires ready { CanAsk P.stands port.old (tree query.now) cursors.old end }
    ensures found { FindsMatch P.stands P.keeps port.old port.new (tree query.now) cursors.old cursors.new end result }
    ensures loads { steps.new + loads_left cursors.new ≤ steps.old + loads_left cursors.old }
    ensures spans { (t : List ℕ) → tree query.now ≡ word t
        → PaysSpans P.stands P.keeps port.old port.new (t ∷ []) cursors.old cursors.new look_loads steps.old steps.new }
{
    if end == 0 {
        return 0;
    }
    match query {
        Query::Word(_) => word_below(cursors, port, steps, end),
        Query::Phrase(_) => phrase_below(cursors, port, steps, end),
        Query::Window(terms, reach) => {
            window_below(terms.as_slice(), *reach, cursors, port, steps, end)
        }
        Query::Since(bound) => bound_below(*bound, cursors, port, steps, end),
        Query::Not(part) => {
            let Some((own, rest)) = cursors.split_first_mut() else {
                return 0;
            };
            let found = not_below(part, rest, port, steps, end.min(own.upto));
            own.upto = found;
            found
        }
        Query::And(parts) => and_below(parts.as_slice(), cursors, port, steps, end),
        Query::Or(parts) => {
            let Some((_own, rest)) = cursors.split_first_mut() else {
                return 0;
            };
            some_below(parts.as_slice(), rest, port, steps, end)
        }
    }
}

// One more than the greatest document below `end` that has the term, or 0.
#[inline(always)]
fn word_below<P: Port, L: Ledger>(
    cursors: &mut [Cursor],
    port: &mut P,
    steps: &mut Steps<L>,
    end: u64,
) -> u64
    requires small { end ≤ 2 ^ 32 }
    requires ready { CanAskWord P.stands port.old cursors.old end }
    ensures found { FindsWord P.stands P.keeps port.old port.new cursors.old cursors.new end result }
    ensures loads { steps.new + loads_left cursors.new ≤ steps.old + loads_left cursors.old }
    ensures spans { (t : List ℕ)
        → PaysSpans P.stands P.keeps port.old port.new (t ∷ []) cursors.old cursors.new look_loads steps.old steps.new }
{
    let found = leaf_below(&mut cursors[0], port, steps, PLACES * end);
    to_document_end(found)
}

// As `below`, for a part of an and, most of which are words.
#[inline(always)]
#[cycle(below)]
fn part_below<P: Port, L: Ledger>(
    query: &Query,
    cursors: &mut [Cursor],
    port: &mut P,
    steps: &mut Steps<L>,
    end: u64,
) -> u64
    requires small { (end ≤ 2 ^ 32) × (length cursors.old ≤ 64) }
    requires ready { CanAsk P.stands port.old (tree query.now) cursors.old end }
    ensures found { FindsMatch P.stands P.keeps port.old port.new (tree query.now) cursors.old cursors.new end result }
    ensures loads { steps.new + loads_left cursors.new ≤ steps.old + loads_left cursors.old }
    ensures spans { (t : List ℕ) → tree query.now ≡ word t
        → PaysSpans P.stands P.keeps port.old port.new (t ∷ []) cursors.old cursors.new look_loads steps.old steps.new }
{
    match query {
        Query::Word(_) => word_below(cursors, port, steps, end),
        _ => below(query, cursors, port, steps, end),
    }
}

// One more than the greatest document below `end` that doesn't match, or 0.
#[cycle(below)]
fn not_below<P: Port, L: Ledger>(
    query: &Query,
    cursors: &mut [Cursor],
    port: &mut P,
    steps: &mut Steps<L>,
    end: u64,
) -> u64
    requires small { (end ≤ 2 ^ 32) × (length cursors.old ≤ 64) }
    requires ready { CanAsk P.stands port.old (tree query.now) cursors.old end }
    ensures found { FindsNot P.stands P.keeps port.old port.new (tree query.now) cursors.old cursors.new end result }
    ensures loads { steps.new + loads_left cursors.new ≤ steps.old + loads_left cursors.old }
{
    let mut place = end;
    while place > 0 {
        let found = below(query, cursors, port, steps, place);
        if found < place {
            return place;
        }
        place -= 1;
    }
    place
}

/// One more than the greatest document below `end` that all parts match, or 0. The first cursor is
/// that of the and.
#[cycle(below)]
pub fn and_below<P: Port, L: Ledger>(
    parts: &[Query],
    cursors: &mut [Cursor],
    port: &mut P,
    steps: &mut Steps<L>,
    end: u64,
) -> u64
    requires small { (end ≤ 2 ^ 32) × (length cursors.old ≤ 64) }
    requires ready { CanAsk P.stands port.old (conjunction (trees_in parts.now)) cursors.old end }
    ensures found { FindsMatch P.stands P.keeps port.old port.new (conjunction (trees_in parts.now)) cursors.old cursors.new end result }
    ensures loads { steps.new + loads_left cursors.new ≤ steps.old + loads_left cursors.old }
    ensures rounds { (ts : List (List ℕ)) (t : List ℕ) → trees_in parts.now ≡ word_parts ts → Contains ts t
        → PaysAnd P.stands P.keeps port.old port.new ts t cursors.old cursors.new end steps.old steps.new }
{
    let Some((own, rest)) = cursors.split_first_mut() else {
        return 0;
    };
    let start = end.min(own.upto);
    let found = led_below(parts, rest, own.lead, port, steps, start);
    own.upto = found;
    found
}

// Asks the leading part first, and then all parts from where it stopped.
#[cycle(below)]
fn led_below<P: Port, L: Ledger>(
    parts: &[Query],
    cursors: &mut [Cursor],
    lead: u32,
    port: &mut P,
    steps: &mut Steps<L>,
    end: u64,
) -> u64
    requires small { (end ≤ 2 ^ 32) × (length cursors.old ≤ 64) }
    requires ready { CanAskAll P.stands port.old (trees_in parts.now) cursors.old end }
    ensures found { FindsAll P.stands P.keeps port.old port.new (trees_in parts.now) cursors.old cursors.new end result }
    ensures loads { steps.new + loads_left cursors.new ≤ steps.old + loads_left cursors.old }
    ensures rounds { (ts : List (List ℕ)) (t : List ℕ) → trees_in parts.now ≡ word_parts ts → Contains ts t
        → PaysRounds P.stands P.keeps port.old port.new ts t cursors.old cursors.new end result (call_loads ts) steps.old steps.new }
{
    let start = lead_below(parts, cursors, lead, port, steps, end);
    all_below(parts, cursors, port, steps, start)
}

// One more than the greatest document below `end` that the leading part matches, or 0; `end` where
// no part has its number.
#[cycle(below)]
fn lead_below<P: Port, L: Ledger>(
    parts: &[Query],
    cursors: &mut [Cursor],
    lead: u32,
    port: &mut P,
    steps: &mut Steps<L>,
    end: u64,
) -> u64
    requires small { (end ≤ 2 ^ 32) × (length cursors.old ≤ 64) }
    requires ready { CanAskAll P.stands port.old (trees_in parts.now) cursors.old end }
    ensures found { Leads P.stands P.keeps port.old port.new (trees_in parts.now) cursors.old cursors.new end result }
    ensures loads { steps.new + loads_left cursors.new ≤ steps.old + loads_left cursors.old }
    ensures spans { (ts : List (List ℕ)) → trees_in parts.now ≡ word_parts ts
        → PaysSpans P.stands P.keeps port.old port.new ts cursors.old cursors.new look_loads steps.old steps.new }
{
    let Some((part, others)) = parts.split_first() else {
        return end;
    };
    let (own, rest) = cursors.split_at_mut(size(part));
    if lead == 0 {
        return part_below(part, own, port, steps, end);
    }
    lead_below(others, rest, lead - 1, port, steps, end)
}

// Whether the query is a bound on the id.
fn is_bound(query: &Query) -> bool {
    matches!(query, Query::Since(_))
}

// One more than the greatest document below `end` that all parts match, or 0. Two words whose lists
// are packed and in their last blocks are walked together.
#[cycle(below)]
fn all_below<P: Port, L: Ledger>(
    parts: &[Query],
    cursors: &mut [Cursor],
    port: &mut P,
    steps: &mut Steps<L>,
    end: u64,
) -> u64
    requires small { (end ≤ 2 ^ 32) × (length cursors.old ≤ 64) }
    requires ready { CanAskAll P.stands port.old (trees_in parts.now) cursors.old end }
    ensures found { FindsAll P.stands P.keeps port.old port.new (trees_in parts.now) cursors.old cursors.new end result }
    ensures loads { steps.new + loads_left cursors.new ≤ steps.old + loads_left cursors.old }
    ensures rounds { (ts : List (List ℕ)) (t : List ℕ) → trees_in parts.now ≡ word_parts ts → Contains ts t
        → PaysRounds P.stands P.keeps port.old port.new ts t cursors.old cursors.new end result (round_loads ts) steps.old steps.new }
{
    if are_two_words(parts) {
        if let Some(found) = pair_below(cursors, port, steps, end) {
            return found;
        }
    }
    turns_below(parts, cursors, port, steps, end)
}

// Whether the parts are two words.
#[inline(always)]
fn are_two_words(parts: &[Query]) -> bool
    ensures { result ≡ true → (u : Term) × (v : Term) × (trees_in parts.now ≡ word_parts (u ∷ v ∷ [])) }
{
    matches!(parts, [Query::Word(_), Query::Word(_)])
}

// Asks all parts in turn, each from where the one before it stopped, until none of them falls.
#[inline(always)]
#[cycle(below)]
fn turns_below<P: Port, L: Ledger>(
    parts: &[Query],
    cursors: &mut [Cursor],
    port: &mut P,
    steps: &mut Steps<L>,
    end: u64,
) -> u64
    requires small { (end ≤ 2 ^ 32) × (length cursors.old ≤ 64) }
    requires ready { CanAskAll P.stands port.old (trees_in parts.now) cursors.old end }
    ensures found { FindsAll P.stands P.keeps port.old port.new (trees_in parts.now) cursors.old cursors.new end result }
    ensures loads { steps.new + loads_left cursors.new ≤ steps.old + loads_left cursors.old }
    ensures rounds { (ts : List (List ℕ)) (t : List ℕ) → trees_in parts.now ≡ word_parts ts → Contains ts t
        → PaysRounds P.stands P.keeps port.old port.new ts t cursors.old cursors.new end result (round_loads ts) steps.old steps.new }
{
    let mut place = end;
    loop {
        let found = first_below(parts, cursors, port, steps, place);
        if found == place {
            return place;
        }
        place = found;
    }
}

// One turn over all parts. The first part is most often a word, which is asked here, without a
// call.
#[inline(always)]
#[cycle(below)]
fn first_below<P: Port, L: Ledger>(
    parts: &[Query],
    cursors: &mut [Cursor],
    port: &mut P,
    steps: &mut Steps<L>,
    end: u64,
) -> u64
    requires small { (end ≤ 2 ^ 32) × (length cursors.old ≤ 64) }
    requires ready { CanAskAll P.stands port.old (trees_in parts.now) cursors.old end }
    ensures found { GoesRound P.stands P.keeps port.old port.new (trees_in parts.now) cursors.old cursors.new end result }
    ensures loads { steps.new + loads_left cursors.new ≤ steps.old + loads_left cursors.old }
    ensures spans { (ts : List (List ℕ)) → trees_in parts.now ≡ word_parts ts
        → PaysSpans P.stands P.keeps port.old port.new ts cursors.old cursors.new (round_loads ts) steps.old steps.new }
{
    let Some((Query::Word(_), others)) = parts.split_first() else {
        return round_below(parts, cursors, port, steps, end);
    };
    let (own, rest) = cursors.split_at_mut(1);
    let found = word_below(own, port, steps, end);
    last_below(others, rest, port, steps, found)
}

// One turn over the parts after the first, most often a single one.
#[inline(always)]
#[cycle(below)]
fn last_below<P: Port, L: Ledger>(
    parts: &[Query],
    cursors: &mut [Cursor],
    port: &mut P,
    steps: &mut Steps<L>,
    end: u64,
) -> u64
    requires small { (end ≤ 2 ^ 32) × (length cursors.old ≤ 64) }
    requires ready { CanAskAll P.stands port.old (trees_in parts.now) cursors.old end }
    ensures found { GoesRound P.stands P.keeps port.old port.new (trees_in parts.now) cursors.old cursors.new end result }
    ensures loads { steps.new + loads_left cursors.new ≤ steps.old + loads_left cursors.old }
    ensures spans { (ts : List (List ℕ)) → trees_in parts.now ≡ word_parts ts
        → PaysSpans P.stands P.keeps port.old port.new ts cursors.old cursors.new (round_loads ts) steps.old steps.new }
{
    match parts {
        [part] => part_below(part, cursors, port, steps, end),
        _ => round_below(parts, cursors, port, steps, end),
    }
}

// One turn over all parts. A bound on the id is asked after the parts that follow it, since it
// costs loads.
#[cycle(below)]
fn round_below<P: Port, L: Ledger>(
    parts: &[Query],
    cursors: &mut [Cursor],
    port: &mut P,
    steps: &mut Steps<L>,
    end: u64,
) -> u64
    requires small { (end ≤ 2 ^ 32) × (length cursors.old ≤ 64) }
    requires ready { CanAskAll P.stands port.old (trees_in parts.now) cursors.old end }
    ensures found { GoesRound P.stands P.keeps port.old port.new (trees_in parts.now) cursors.old cursors.new end result }
    ensures loads { steps.new + loads_left cursors.new ≤ steps.old + loads_left cursors.old }
    ensures spans { (ts : List (List ℕ)) → trees_in parts.now ≡ word_parts ts
        → PaysSpans P.stands P.keeps port.old port.new ts cursors.old cursors.new (round_loads ts) steps.old steps.new }
{
    let Some((part, others)) = parts.split_first() else {
        return end;
    };
    let (own, rest) = cursors.split_at_mut(part_size(part));
    if is_bound(part) {
        let found = round_below(others, rest, port, steps, end);
        return below(part, own, port, steps, found);
    }
    let found = part_below(part, own, port, steps, end);
    round_below(others, rest, port, steps, found)
}

// One more than the greatest document below `end` that some part matches, or 0.
#[cycle(below)]
fn some_below<P: Port, L: Ledger>(
    parts: &[Query],
    cursors: &mut [Cursor],
    port: &mut P,
    steps: &mut Steps<L>,
    end: u64,
) -> u64
    requires small { (end ≤ 2 ^ 32) × (length cursors.old ≤ 64) }
    requires ready { CanAskAll P.stands port.old (trees_in parts.now) cursors.old end }
    ensures found { FindsSome P.stands P.keeps port.old port.new (trees_in parts.now) cursors.old cursors.new end result }
    ensures loads { steps.new + loads_left cursors.new ≤ steps.old + loads_left cursors.old }
{
    let Some((part, others)) = parts.split_first() else {
        return 0;
    };
    let (own, rest) = cursors.split_at_mut(size(part));
    let found = below(part, own, port, steps, end);
    let other = some_below(others, rest, port, steps, end);
    found.max(other)
}
