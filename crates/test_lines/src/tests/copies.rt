//! Queries, their copies, and others.
use eb_base::{NoMemory, Queries, Query, Term, Terms};
use std::alloc::Global;
use std::test::Fail;

// The terms `x y`.
fn terms(alloc: Global) -> Result<Terms, NoMemory> {
    let mut terms = Terms::new(alloc);
    terms.push(Term::new(alloc, b"x")?)?;
    terms.push(Term::new(alloc, b"y")?)?;
    Ok(terms)
}

fn phrase(alloc: Global) -> Result<Query, NoMemory> {
    Ok(Query::Phrase(terms(alloc)?))
}

fn window(alloc: Global, reach: u32) -> Result<Query, NoMemory> {
    Ok(Query::Window(terms(alloc)?, reach))
}

// The word `a`, and not the phrase.
fn word_without_phrase(alloc: Global) -> Result<Query, NoMemory> {
    let mut parts = Queries::new(alloc);
    parts.push(Query::Word(Term::new(alloc, b"a")?))?;
    parts.push(Query::Not(Box::new(alloc, phrase(alloc)?)?))?;
    Ok(Query::And(parts))
}

// Whether the copy of each of these queries is equal to it, and to no other of them.
fn are_apart(alloc: Global, queries: &[Query]) -> Result<bool, NoMemory> {
    for (at, query) in queries.iter().enumerate() {
        let copied = query.copy(alloc)?;
        for (other, further) in queries.iter().enumerate() {
            if copied.is(further) != (at == other) {
                return Ok(false);
            }
        }
    }
    Ok(true)
}

#[test]
fn a_copy_is_equal_to_its_query_alone(rt: HostRuntime) -> Result<(), Fail> {
    let alloc = rt.alloc();
    let queries = [
        word_without_phrase(alloc)?,
        phrase(alloc)?,
        window(alloc, 3)?,
        window(alloc, 4)?,
        Query::Since(3),
        Query::Since(7),
        Query::Since(8),
    ];
    assert!(rt; are_apart(alloc, &queries)?);
    Ok(())
}
