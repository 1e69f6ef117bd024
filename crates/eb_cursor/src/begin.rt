//! The first postings of each term of a query.
ghost use Rattle.std.specs.Prelude.{◌≡◌, ℕ, ◌+◌, ◌*◌, ◌<◌, ◌≤◌};
ghost use Rattle.std.specs.Prelude.{List, [], ◌∷◌, length, if◌then◌else◌};
ghost use Rattle.eb_base.specs.Document.{Doc};
ghost use Rattle.eb_base.specs.Query.{tree, word, window, conjunction, size, sizes, IsFormed, AreFormed};
ghost use Rattle.eb_place.specs.Postings.{places};
ghost use Rattle.eb_place.specs.declared.moment.Moment.{Moment};
ghost use Rattle.eb_place.specs.Told.{Told};
ghost use Rattle.eb_cursor.specs.Lists.{gives};
ghost use Rattle.eb_cursor.specs.Accepted.{AreFirst};
ghost use Rattle.eb_cursor.specs.Opened.{CanOpen};
ghost use Rattle.eb_cursor.specs.Finds.{OpensIn, BeginsIn};
ghost use Rattle.eb_cursor.specs.Posted.{is_posting};
ghost use Rattle.eb_cursor.specs.Ready.{IsLeaf, IsBound, Ready};
ghost use Rattle.eb_cursor.specs.Costs.{Costs, FirstCosts, Spans, AllSpan, IsPaid, IsReadAs, IsReading, opening_loads, word_loads};
ghost use Rattle.eb_cursor.specs.AndCosts.{word_parts, documents_with, all_opening_loads, and_loads, AndOwes};
ghost use Rattle.eb_cursor.specs.Asked.{trees_in};
ghost use Rattle.eb_cursor.specs.Begun.{AreClear, CanBegin, Begun, BegunLeaves, BegunEach, BegunSome};

use crate::cursor::{Cursor, last_before};
use crate::posting_list::PostingList;
use crate::rarest::{rarest_leaf, rarest_number};
use crate::size::size;
use eb_base::{Query, Term};
use eb_place::{PLACES, Port, Steps};
use std::sync::ledger::Ledger;

/// Lets each cursor have skipped everything, and forget its list.
pub fn clear(cursors: &mut [Cursor])
    ensures { AreClear cursors.new }
{
    let Some((own, rest)) = cursors.split_first_mut() else {
        return;
    };
    *own = Cursor::new();
    clear(rest);
}

// Opens the list of a term and reads its first posting.
fn open_leaf<P: Port, L: Ledger>(
    term: &Term,
    segment: u32,
    packed: bool,
    port: &mut P,
    steps: &mut Steps<L>,
) -> Cursor
    requires { CanOpen P.stands port.old segment packed }
    ensures leaf { OpensIn P.stands P.keeps port.old port.new segment packed
        (λ docs n. IsLeaf (gives n) (is_posting docs term.now) result (places * length docs)) }
    ensures costs { (was : Moment) → Told P.stands P.keeps port.old port.new (λ m. IsReading was m segment packed)
        (λ n. IsPaid (Costs n segment term.now result.list) steps.old (word_loads was n segment term.now) (steps.new + 1)) }
    ensures spans { Told P.stands P.keeps port.old port.new (λ m. IsReadAs m segment packed)
        (λ n. IsPaid (Spans n segment term.now result.list) steps.old (opening_loads n segment term.now + 2) steps.new) }
{
    let mut list = PostingList::open(term, segment, packed, port, steps);
    let current = list.next(port, steps);
    Cursor {
        upto: 0,
        lead: 0,
        segment,
        current,
        list,
    }
}

// Opens the lists of the terms of a phrase or a window, up to the first that occurs in no document.
fn begin_leaves<P: Port, L: Ledger>(
    terms: &[Term],
    cursors: &mut [Cursor],
    segment: u32,
    packed: bool,
    port: &mut P,
    steps: &mut Steps<L>,
) -> bool
    requires fits { length cursors.old ≡ length terms.now }
    requires first { CanOpen P.stands port.old segment packed }
    ensures { OpensIn P.stands P.keeps port.old port.new segment packed (λ docs. BegunLeaves docs terms.now cursors.new result) }
{
    let Some((own, rest)) = cursors.split_first_mut() else {
        return true;
    };
    let Some((term, others)) = terms.split_first() else {
        return true;
    };
    *own = open_leaf(term, segment, packed, port, steps);
    if own.current.is_none() {
        return false;
    }
    begin_leaves(others, rest, segment, packed, port, steps)
}

// The end that an operator begins with: 0 where nothing matches.
fn end_if(some: bool, end: u64) -> u64
    ensures { result ≡ (if some then end else 0) }
{
    if some { end } else { 0 }
}

// Begins a window of these terms.
fn begin_window<P: Port, L: Ledger>(
    terms: &[Term],
    cursors: &mut [Cursor],
    segment: u32,
    packed: bool,
    documents: u32,
    port: &mut P,
    steps: &mut Steps<L>,
) -> bool
    requires some { 0 < length terms.now }
    requires fits { length cursors.old ≡ length terms.now }
    requires first { CanBegin P.stands port.old segment documents packed }
    ensures { (w : ℕ) → BeginsIn P.stands P.keeps port.old port.new segment documents packed
        (λ docs. Begun docs (window terms.now w) cursors.new result) }
{
    let end = PLACES * u64::from(documents);
    let all = begin_leaves(terms, cursors, segment, packed, port, steps);
    let upto = end_if(all, end);
    cursors[0].upto = upto;
    all
}

// Begins a bound on the id. Loads nothing.
fn begin_bound(cursor: &mut Cursor, segment: u32, documents: u32)
    ensures { (n : Moment) (docs : List Doc) (x : ℕ) → length docs ≡ documents → AreFirst n segment docs
        → IsBound (gives n) docs x cursor.new (length docs) }
{
    let end = u64::from(documents);
    cursor.segment = segment;
    cursor.upto = end;
    cursor.current = last_before(end);
}

/// Begins a query, as [`begin`] does. The loads are bounded where it is a word or an and of words.
pub fn begin_query<P: Port, L: Ledger>(
    query: &Query,
    cursors: &mut [Cursor],
    segment: u32,
    packed: bool,
    documents: u32,
    port: &mut P,
    steps: &mut Steps<L>,
)
    requires small { (0 < documents) × (length cursors.old ≤ 64) }
    requires fits { length cursors.old ≡ size (tree query.now) }
    requires formed { IsFormed (tree query.now) }
    requires clear { AreClear cursors.old }
    requires first { CanBegin P.stands port.old segment documents packed }
    ensures ready { BeginsIn P.stands P.keeps port.old port.new segment documents packed
        (λ docs n. Ready (gives n) docs (tree query.now) cursors.new (length docs)) }
    ensures costs { (was : Moment) (t : List ℕ) → tree query.now ≡ word t → Told P.stands P.keeps port.old port.new
        (λ m. IsReading was m segment packed) (λ n. IsPaid (FirstCosts n segment t cursors.new) steps.old (word_loads was n segment t) (steps.new + 1)) }
    ensures rounds { (docs : List Doc) (ts : List (List ℕ)) (t : List ℕ) → tree query.now ≡ conjunction (word_parts ts)
        → length docs ≡ documents → Told P.stands P.keeps port.old port.new (λ m. IsReadAs m segment packed)
        (λ n. IsPaid (AndOwes n segment docs ts t cursors.new) steps.old (and_loads n segment ts (documents_with docs t)) steps.new) }
{
    match query {
        Query::Word(term) => cursors[0] = open_leaf(term, segment, packed, port, steps),
        Query::And(parts) => {
            begin_and(
                parts.as_slice(),
                cursors,
                segment,
                packed,
                documents,
                port,
                steps,
            );
        }
        _ => {
            begin(query, cursors, segment, packed, documents, port, steps);
        }
    }
}

/// Begins a query at the end of the first `documents` documents of a segment. False only where none
/// of them matches. A term that occurs in none ends a word, a phrase, a window and an and at once.
/// In an and and a phrase the part that is likely the rarest leads. A bound on the id loads nothing
/// yet.
#[cycle(begin)]
pub fn begin<P: Port, L: Ledger>(
    query: &Query,
    cursors: &mut [Cursor],
    segment: u32,
    packed: bool,
    documents: u32,
    port: &mut P,
    steps: &mut Steps<L>,
) -> bool
    requires small { (0 < documents) × (length cursors.old ≤ 64) }
    requires fits { length cursors.old ≡ size (tree query.now) }
    requires formed { IsFormed (tree query.now) }
    requires clear { AreClear cursors.old }
    requires first { CanBegin P.stands port.old segment documents packed }
    ensures begun { BeginsIn P.stands P.keeps port.old port.new segment documents packed (λ docs. Begun docs (tree query.now) cursors.new result) }
    ensures spans { (t : List ℕ) → tree query.now ≡ word t
        → Told P.stands P.keeps port.old port.new (λ m. IsReadAs m segment packed)
        (λ n. IsPaid (AllSpan n segment (t ∷ []) cursors.new) steps.old (opening_loads n segment t + 2) steps.new) }
{
    let end = u64::from(documents);
    match query {
        Query::Word(term) => {
            let leaf = open_leaf(term, segment, packed, port, steps);
            let some = leaf.current.is_some();
            cursors[0] = leaf;
            some
        }
        Query::Phrase(terms) => {
            let all = begin_leaves(terms.as_slice(), cursors, segment, packed, port, steps);
            let last = PLACES * end + 1 - terms.len() as u64;
            let upto = end_if(all, last);
            let lead = rarest_leaf(cursors).number;
            let first = &mut cursors[0];
            first.upto = upto;
            first.lead = lead;
            all
        }
        Query::Window(terms, _) => begin_window(
            terms.as_slice(),
            cursors,
            segment,
            packed,
            documents,
            port,
            steps,
        ),
        Query::Since(_) => {
            begin_bound(&mut cursors[0], segment, documents);
            true
        }
        Query::Not(part) => {
            let Some((own, rest)) = cursors.split_first_mut() else {
                return false;
            };
            own.upto = end;
            begin(part, rest, segment, packed, documents, port, steps);
            true
        }
        Query::And(parts) => begin_and(
            parts.as_slice(),
            cursors,
            segment,
            packed,
            documents,
            port,
            steps,
        ),
        Query::Or(parts) => {
            let Some((_own, rest)) = cursors.split_first_mut() else {
                return false;
            };
            begin_some(
                parts.as_slice(),
                rest,
                segment,
                packed,
                documents,
                port,
                steps,
            )
        }
    }
}

// Begins an and of these parts.
#[cycle(begin)]
fn begin_and<P: Port, L: Ledger>(
    parts: &[Query],
    cursors: &mut [Cursor],
    segment: u32,
    packed: bool,
    documents: u32,
    port: &mut P,
    steps: &mut Steps<L>,
) -> bool
    requires small { (0 < documents) × (length cursors.old ≤ 64) }
    requires fits { length cursors.old ≡ size (conjunction (trees_in parts.now)) }
    requires formed { IsFormed (conjunction (trees_in parts.now)) }
    requires clear { AreClear cursors.old }
    requires first { CanBegin P.stands port.old segment documents packed }
    ensures begun { BeginsIn P.stands P.keeps port.old port.new segment documents packed
        (λ docs. Begun docs (conjunction (trees_in parts.now)) cursors.new result) }
    ensures rounds { (docs : List Doc) (ts : List (List ℕ)) (t : List ℕ) → trees_in parts.now ≡ word_parts ts
        → length docs ≡ documents → Told P.stands P.keeps port.old port.new (λ m. IsReadAs m segment packed)
        (λ n. IsPaid (AndOwes n segment docs ts t cursors.new) steps.old (and_loads n segment ts (documents_with docs t)) steps.new) }
{
    let Some((own, rest)) = cursors.split_first_mut() else {
        return false;
    };
    let end = u64::from(documents);
    let all = begin_each(parts, rest, segment, packed, documents, port, steps);
    own.upto = end_if(all, end);
    own.lead = rarest_number(parts, rest);
    all
}

// Begins the parts of an and, up to the first that matches no document.
#[cycle(begin)]
fn begin_each<P: Port, L: Ledger>(
    parts: &[Query],
    cursors: &mut [Cursor],
    segment: u32,
    packed: bool,
    documents: u32,
    port: &mut P,
    steps: &mut Steps<L>,
) -> bool
    requires small { (0 < documents) × (length cursors.old ≤ 64) }
    requires fits { length cursors.old ≡ sizes (trees_in parts.now) }
    requires formed { AreFormed (trees_in parts.now) }
    requires clear { AreClear cursors.old }
    requires first { CanBegin P.stands port.old segment documents packed }
    ensures begun { BeginsIn P.stands P.keeps port.old port.new segment documents packed
        (λ docs. BegunEach docs (trees_in parts.now) cursors.new result) }
    ensures spans { (ts : List (List ℕ)) → trees_in parts.now ≡ word_parts ts
        → Told P.stands P.keeps port.old port.new (λ m. IsReadAs m segment packed)
        (λ n. IsPaid (AllSpan n segment ts cursors.new) steps.old (all_opening_loads n segment ts) steps.new) }
{
    let Some((part, others)) = parts.split_first() else {
        return true;
    };
    let (own, rest) = cursors.split_at_mut(size(part));
    if !begin(part, own, segment, packed, documents, port, steps) {
        return false;
    }
    begin_each(others, rest, segment, packed, documents, port, steps)
}

// Begins the parts of an or.
#[cycle(begin)]
fn begin_some<P: Port, L: Ledger>(
    parts: &[Query],
    cursors: &mut [Cursor],
    segment: u32,
    packed: bool,
    documents: u32,
    port: &mut P,
    steps: &mut Steps<L>,
) -> bool
    requires small { (0 < documents) × (length cursors.old ≤ 64) }
    requires fits { length cursors.old ≡ sizes (trees_in parts.now) }
    requires formed { AreFormed (trees_in parts.now) }
    requires clear { AreClear cursors.old }
    requires first { CanBegin P.stands port.old segment documents packed }
    ensures { BeginsIn P.stands P.keeps port.old port.new segment documents packed
        (λ docs. BegunSome docs (trees_in parts.now) cursors.new result) }
{
    let Some((part, others)) = parts.split_first() else {
        return false;
    };
    let (own, rest) = cursors.split_at_mut(size(part));
    let some = begin(part, own, segment, packed, documents, port, steps);
    let other = begin_some(others, rest, segment, packed, documents, port, steps);
    some || other
}
