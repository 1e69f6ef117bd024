//! The key of a query, as a list.
ghost use Rattle.std.specs.Prelude.{◌≡◌, ◌∷◌, [], IfOk};
ghost use Rattle.eb_base.specs.Query.{tree, parts_of, trees_of};
ghost use Rattle.eb_watch.specs.Key.{watch_key, first_key, all_keys, first_term};
ghost use Rattle.eb_watch.specs.Terms.{key_terms};

use eb_base::{NoMemory, Queries, Query, Term, Terms};
use std::alloc::Global;

// The key of the query: terms of which each document that matches it has one. Takes memory.
#[cycle(key)]
pub(crate) fn key_of(alloc: Global, query: &Query) -> Result<Option<Vec<Term>>, NoMemory>
    ensures { IfOk result (λ key. key_terms key ≡ watch_key (tree query.now)) }
{
    match query {
        Query::Word(term) => key_of_term(alloc, term),
        Query::Phrase(terms) => key_of_terms(alloc, terms),
        Query::Window(terms, _) => key_of_terms(alloc, terms),
        Query::Since(_) => Ok(None),
        Query::Not(_) => Ok(None),
        Query::And(parts) => first_key_of(alloc, parts),
        Query::Or(parts) => all_keys_of(alloc, parts),
    }
}

// The key of the first part that has one.
#[cycle(key)]
fn first_key_of(alloc: Global, parts: &Queries) -> Result<Option<Vec<Term>>, NoMemory>
    ensures { IfOk result (λ key. key_terms key ≡ first_key (trees_of (parts_of parts.now))) }
{
    for part in parts.as_slice() {
        let key = key_of(alloc, part)?;
        if key.is_some() {
            return Ok(key);
        }
    }
    Ok(None)
}

// The terms of all parts' keys, where each part has one.
#[cycle(key)]
fn all_keys_of(alloc: Global, parts: &Queries) -> Result<Option<Vec<Term>>, NoMemory>
    ensures { IfOk result (λ key. key_terms key ≡ all_keys (trees_of (parts_of parts.now))) }
{
    let mut terms = Vec::new(alloc);
    for part in parts.as_slice() {
        match key_of(alloc, part)? {
            Some(mut key) => terms.append(&mut key)?,
            None => return Ok(None),
        }
    }
    Ok(Some(terms))
}

// The term, as a key.
fn key_of_term(alloc: Global, term: &Term) -> Result<Option<Vec<Term>>, NoMemory>
    ensures { IfOk result (λ key. key_terms key ≡ Some (term.now ∷ [])) }
{
    let mut key = Vec::new(alloc);
    key.push(Term::new(alloc, term.bytes())?)?;
    Ok(Some(key))
}

// The first of the terms, as a key.
fn key_of_terms(alloc: Global, terms: &Terms) -> Result<Option<Vec<Term>>, NoMemory>
    ensures { IfOk result (λ key. key_terms key ≡ first_term terms.now) }
{
    match terms.as_slice() {
        [first, ..] => key_of_term(alloc, first),
        [] => Ok(None),
    }
}
