//! Whether two queries are equal.
ghost use Rattle.std.specs.Prelude.{◌≡◌, ◌↔◌, IsTrue};
ghost use Rattle.eb_base.specs.Query.{tree, parts_of};

use crate::query::{Queries, Query};
use crate::terms::Terms;

impl Query {
    /// Whether the other query is equal to this one: they ask the same, in the same form. Takes no
    /// memory.
    pub fn is(&self, other: &Query) -> bool
        ensures { IsTrue result ↔ (tree self.now ≡ tree other.now) }
    {
        is_query(self, other)
    }
}

// Whether the terms are the same, in the same order.
fn are_terms(terms: &Terms, others: &Terms) -> bool
    ensures { IsTrue result ↔ (terms.now ≡ others.now) }
{
    terms.as_slice() == others.as_slice()
}

// Whether the queries are equal.
#[cycle(same)]
fn is_query(query: &Query, other: &Query) -> bool
    ensures { IsTrue result ↔ (tree query.now ≡ tree other.now) }
{
    match (query, other) {
        (Query::Word(term), Query::Word(by)) => term == by,
        (Query::Phrase(terms), Query::Phrase(by)) => are_terms(terms, by),
        (Query::Window(terms, reach), Query::Window(by, other_reach)) => {
            are_terms(terms, by) && reach == other_reach
        }
        (Query::Since(id), Query::Since(by)) => id == by,
        (Query::Not(part), Query::Not(by)) => is_query(part, by),
        (Query::And(parts), Query::And(by)) => are_parts(parts, by),
        (Query::Or(parts), Query::Or(by)) => are_parts(parts, by),
        _ => false,
    }
}

// Whether the parts are equal, in the same order.
#[cycle(same)]
fn are_parts(parts: &Queries, others: &Queries) -> bool
    ensures { IsTrue result ↔ (parts_of parts.now ≡ parts_of others.now) }
{
    if parts.len() != others.len() {
        return false;
    }
    for (at, part) in parts.as_slice().iter().enumerate() {
        if !is_query(part, others.get(at)) {
            return false;
        }
    }
    true
}
