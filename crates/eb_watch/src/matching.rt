//! One test of a document.
ghost use Rattle.std.specs.Prelude.{◌≡◌, ◌+◌, IsTrue, ◌↔◌, IsSome, length, is_some, bytes_eq};
ghost use Rattle.std.specs.List.{list_any};
ghost use Rattle.eb_base.specs.Query.{tree, parts_of, trees_of};
ghost use Rattle.eb_base.specs.Match.{Matches, has_phrase, has_window};
ghost use Rattle.eb_base.specs.Match as spec;
ghost use Rattle.eb_watch.specs.Message.{AreNumbered};

use crate::ends::{is_near, put_first, put_next};
use crate::message::Message;
use eb_base::{Document, Queries, Query, Term};
use eb_match::is_match;
use eb_place::Steps;
use std::sync::ledger::Ledger;

/// Whether the query matches the document: a word where it is one of the document's terms, a phrase
/// where its terms follow one another in the document, a window where they occur in their order,
/// the last at most its reach after the first, a bound where the document's id is greater, a Not
/// where its part doesn't match, an And where each part matches, an Or where some part does. The
/// tests count it. Takes no memory.
pub fn matches<L: Ledger>(query: &Query, document: &Document, tests: &mut Steps<L>) -> bool
    ensures fact { IsTrue result ↔ Matches (tree query.now) document.now }
    ensures test { result ≡ spec.is_match (tree query.now) document.now }
    ensures tests { tests.new ≡ tests.old + 1 }
{
    tests.tick();
    is_match(query, document)
}

// Whether the query matches a document whose terms have numbers. `ends` has a place for each term.
// The tests count it.
pub(crate) fn matches_by<L: Ledger>(
    query: &Query,
    document: &Document,
    message: &Message,
    ends: &mut [usize],
    tests: &mut Steps<L>,
) -> bool
    requires numbered { AreNumbered message.now document.now.terms }
    requires room { length ends.old ≡ length document.now.terms }
    ensures test { result ≡ spec.is_match (tree query.now) document.now }
    ensures room { length ends.new ≡ length ends.old }
    ensures tests { tests.new ≡ tests.old + 1 }
{
    tests.tick();
    is_told(query, document, message, ends)
}

// Whether the query matches, without counting a test.
#[cycle(told)]
fn is_told(query: &Query, document: &Document, message: &Message, ends: &mut [usize]) -> bool
    requires numbered { AreNumbered message.now document.now.terms }
    requires room { length ends.old ≡ length document.now.terms }
    ensures test { result ≡ spec.is_match (tree query.now) document.now }
    ensures room { length ends.new ≡ length ends.old }
{
    match query {
        Query::Word(term) => has_term(document, message, term),
        Query::Phrase(terms) => has_phrase_of(document, message, terms.as_slice(), ends),
        Query::Window(terms, reach) => {
            has_window_of(document, message, terms.as_slice(), *reach as usize, ends)
        }
        Query::Since(bound) => *bound < document.id(),
        Query::Not(part) => !is_told(part, document, message, ends),
        Query::And(parts) => each_is_told(parts, document, message, ends),
        Query::Or(parts) => some_is_told(parts, document, message, ends),
    }
}

// Whether each part matches.
#[cycle(told)]
fn each_is_told(parts: &Queries, document: &Document, message: &Message, ends: &mut [usize]) -> bool
    requires numbered { AreNumbered message.now document.now.terms }
    requires room { length ends.old ≡ length document.now.terms }
    ensures test { result ≡ spec.each_matches (trees_of (parts_of parts.now)) document.now }
    ensures room { length ends.new ≡ length ends.old }
{
    for part in parts.as_slice() {
        if !is_told(part, document, message, ends) {
            return false;
        }
    }
    true
}

// Whether some part matches.
#[cycle(told)]
fn some_is_told(parts: &Queries, document: &Document, message: &Message, ends: &mut [usize]) -> bool
    requires numbered { AreNumbered message.now document.now.terms }
    requires room { length ends.old ≡ length document.now.terms }
    ensures test { result ≡ spec.some_matches (trees_of (parts_of parts.now)) document.now }
    ensures room { length ends.new ≡ length ends.old }
{
    for part in parts.as_slice() {
        if is_told(part, document, message, ends) {
            return true;
        }
    }
    false
}

// Whether the term is one of the document's.
fn has_term(document: &Document, message: &Message, term: &Term) -> bool
    requires { AreNumbered message.now document.now.terms }
    ensures { result ≡ list_any (bytes_eq term.now) document.now.terms }
{
    message.number(term).is_some()
}

// Whether the terms follow one another: then their last is as far after the first as they are many.
fn has_phrase_of(
    document: &Document,
    message: &Message,
    phrase: &[Term],
    ends: &mut [usize],
) -> bool
    requires numbered { AreNumbered message.now document.now.terms }
    requires room { length ends.old ≡ length document.now.terms }
    ensures test { result ≡ has_phrase phrase.now document.now.terms }
    ensures room { length ends.new ≡ length ends.old }
{
    if phrase.is_empty() {
        return true;
    }
    has_window_of(document, message, phrase, phrase.len() - 1, ends)
}

// Whether the terms occur in their order, the last at most this many places after the first. It
// goes from the last term to the first, and keeps for each place where the terms from there on end
// first. So each term looks at each place once.
fn has_window_of(
    document: &Document,
    message: &Message,
    window: &[Term],
    reach: usize,
    ends: &mut [usize],
) -> bool
    requires numbered { AreNumbered message.now document.now.terms }
    requires room { length ends.old ≡ length document.now.terms }
    ensures test { result ≡ has_window window.now reach document.now.terms }
    ensures room { length ends.new ≡ length ends.old }
{
    let Some((last, before)) = window.split_last() else {
        return false;
    };
    if before.len() > reach {
        return false;
    }
    let most = document.terms().len();
    if window.len() > most {
        return false;
    }
    let Some(number) = message.number(last) else {
        return false;
    };
    put_first(message.places(), number, ends);
    let mut left = before.len();
    while left > 0 {
        left -= 1;
        let Some(number) = message.number(&before[left]) else {
            return false;
        };
        put_next(message.places(), number, ends);
    }
    is_near(ends, reach)
}
