//! Copies of queries.
ghost use Rattle.std.specs.Prelude.{◌≡◌, IfOk};
ghost use Rattle.eb_base.specs.Query.{tree, parts_of};

use crate::memory::NoMemory;
use crate::query::{Queries, Query};
use crate::terms::{Term, Terms};
use std::alloc::Global;

impl Query {
    /// An equal query, with memory of its own. Takes memory.
    pub fn copy(&self, alloc: Global) -> Result<Query, NoMemory>
        ensures { IfOk result (λ copied. tree copied ≡ tree self.now) }
    {
        copy_query(alloc, self)
    }
}

// A copy of the terms.
fn copy_terms(alloc: Global, terms: &Terms) -> Result<Terms, NoMemory>
    ensures { IfOk result (λ copied. copied ≡ terms.now) }
{
    let mut copied = Terms::new(alloc);
    for at in 0..terms.len() {
        copied.push(Term::new(alloc, terms.get(at).bytes())?)?;
    }
    Ok(copied)
}

// A copy of the query.
#[cycle(copy)]
fn copy_query(alloc: Global, query: &Query) -> Result<Query, NoMemory>
    ensures { IfOk result (λ copied. tree copied ≡ tree query.now) }
{
    match query {
        Query::Word(term) => Ok(Query::Word(Term::new(alloc, term.bytes())?)),
        Query::Phrase(terms) => Ok(Query::Phrase(copy_terms(alloc, terms)?)),
        Query::Window(terms, reach) => Ok(Query::Window(copy_terms(alloc, terms)?, *reach)),
        Query::Since(id) => Ok(Query::Since(*id)),
        Query::Not(part) => Ok(Query::Not(Box::new(alloc, copy_query(alloc, part)?)?)),
        Query::And(parts) => Ok(Query::And(copy_parts(alloc, parts)?)),
        Query::Or(parts) => Ok(Query::Or(copy_parts(alloc, parts)?)),
    }
}

// A copy of the parts.
#[cycle(copy)]
fn copy_parts(alloc: Global, parts: &Queries) -> Result<Queries, NoMemory>
    ensures { IfOk result (λ copied. parts_of copied ≡ parts_of parts.now) }
{
    let mut copied = Queries::new(alloc);
    for part in parts.as_slice() {
        copied.push(copy_query(alloc, part)?)?;
    }
    Ok(copied)
}
