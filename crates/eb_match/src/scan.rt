ghost use Rattle.std.specs.Prelude.{◌≡◌, bytes_eq, IsTrue, ◌↔◌};
ghost use Rattle.std.specs.List.{list_any, starts_with};
ghost use Rattle.eb_base.specs.Query.{tree, parts_of, trees_of};
ghost use Rattle.eb_base.specs.Match.{Matches, has_phrase, has_in_order, has_window};
ghost use Rattle.eb_base.specs.Match as spec;

use eb_base::{Document, Queries, Query, Term};

/// Whether the query matches the document: a word where it is one of the document's terms, a phrase
/// where its terms follow one another in the document, a Window where they occur in their order,
/// the last at most its reach after the first, a Since where the document's id is greater, a Not
/// where its part doesn't match, an And where each part matches, an Or where some part does. Takes
/// no memory.
pub fn is_match(query: &Query, document: &Document) -> bool
    ensures fact { IsTrue result ↔ Matches (tree query.now) document.now }
    ensures test { result ≡ spec.is_match (tree query.now) document.now }
{
    matches(query, document)
}

#[cycle(matches)]
fn matches(query: &Query, document: &Document) -> bool
    ensures { result ≡ spec.is_match (tree query.now) document.now }
{
    let terms = document.terms().as_slice();
    match query {
        Query::Word(term) => has_term(terms, term),
        Query::Phrase(phrase) => contains_phrase(terms, phrase.as_slice()),
        Query::Window(window, reach) => contains_window(terms, window.as_slice(), *reach as usize),
        Query::Since(bound) => *bound < document.id(),
        Query::Not(part) => !matches(part, document),
        Query::And(parts) => each_matches(parts, document),
        Query::Or(parts) => some_matches(parts, document),
    }
}

#[cycle(matches)]
fn each_matches(parts: &Queries, document: &Document) -> bool
    ensures { result ≡ spec.each_matches (trees_of (parts_of parts.now)) document.now }
{
    for part in parts.as_slice() {
        if !matches(part, document) {
            return false;
        }
    }
    true
}

#[cycle(matches)]
fn some_matches(parts: &Queries, document: &Document) -> bool
    ensures { result ≡ spec.some_matches (trees_of (parts_of parts.now)) document.now }
{
    for part in parts.as_slice() {
        if matches(part, document) {
            return true;
        }
    }
    false
}

/// Whether the term is one of these. Takes no memory.
pub fn has_term(terms: &[Term], term: &Term) -> bool
    ensures { result ≡ list_any (bytes_eq term.now) terms.now }
{
    terms.iter().any(|own| term == own)
}

// Whether the terms of the phrase follow one another from some place on.
fn contains_phrase(terms: &[Term], phrase: &[Term]) -> bool
    ensures { result ≡ has_phrase phrase.now terms.now }
{
    let mut rest = terms;
    while let Some((_, after)) = rest.split_first() {
        if rest.starts_with(phrase) {
            return true;
        }
        rest = after;
    }
    rest.starts_with(phrase)
}

// Whether the terms of the window occur in their order, the last at most this many places after the
// first.
fn contains_window(terms: &[Term], window: &[Term], reach: usize) -> bool
    ensures { result ≡ has_window window.now reach terms.now }
{
    let Some((first, further)) = window.split_first() else {
        return false;
    };
    let mut rest = terms;
    while let Some((term, after)) = rest.split_first() {
        if first == term && stand_in_order(&after[..after.len().min(reach)], further) {
            return true;
        }
        rest = after;
    }
    false
}

// Whether these terms occur among the others in their order.
fn stand_in_order(terms: &[Term], wanted: &[Term]) -> bool
    ensures { result ≡ has_in_order wanted.now terms.now }
{
    let mut left = wanted;
    for term in terms {
        let Some((next, after)) = left.split_first() else {
            return true;
        };
        if next == term {
            left = after;
        }
    }
    left.is_empty()
}
