//! Queries written as texts, and what cursors find of them.
ghost use Rattle.std.specs.Prelude.{◌≤◌, ◌<◌, length};
ghost use Rattle.eb_place.specs.declared.moment.Moment.{Moment};
ghost use Rattle.eb_cursor.specs.Accepted.{accepted_in};

use super::made::terms;
use eb_base::{Queries, Query, Term, Terms};
use eb_cursor::Frame;
use eb_place::{Port, Steps};
use std::alloc::Global;
use std::sync::ledger::Ledger;
use std::test::Fail;

// Takes this many queries from the end, and puts them in order.
fn taken(alloc: Global, queries: &mut Vec<Query>, count: usize) -> Result<Queries, Fail> {
    let mut reversed = Vec::new(alloc);
    for _ in 0..count {
        let Some(query) = queries.pop() else {
            return Err(Fail::new("too few parts"));
        };
        reversed.push(query)?;
    }
    let mut parts = Queries::new(alloc);
    for _ in 0..count {
        if let Some(query) = reversed.pop() {
            parts.push(query)?;
        }
    }
    Ok(parts)
}

// The number that these digits write.
fn number(digits: &[u8]) -> u64 {
    let mut number: u64 = 0;
    for digit in digits {
        let value = u64::from(digit.wrapping_sub(b'0'));
        number = number.wrapping_mul(10).wrapping_add(value);
    }
    number
}

// The window that a reach makes of the phrase before it, a bound on the id, or a word.
fn leaf(alloc: Global, queries: &mut Vec<Query>, word: &[u8]) -> Result<Query, Fail> {
    let Some((sign, digits)) = word.split_first() else {
        return Err(Fail::new("no word"));
    };
    match *sign {
        b'~' => {
            let Some(Query::Phrase(terms)) = queries.pop() else {
                return Err(Fail::new("no phrase"));
            };
            Ok(Query::Window(terms, u32::try_from(number(digits))?))
        }
        b'>' => Ok(Query::Since(number(digits))),
        _ => Ok(Query::Word(Term::new(alloc, word)?)),
    }
}

// Puts the query that an operator makes of the last ones, or a leaf.
fn put(alloc: Global, queries: &mut Vec<Query>, word: &[u8]) -> Result<(), Fail> {
    let query = match word {
        b"-" => {
            let Some(part) = queries.pop() else {
                return Err(Fail::new("no part"));
            };
            Query::Not(Box::new(alloc, part)?)
        }
        b"&2" => Query::And(taken(alloc, queries, 2)?),
        b"&3" => Query::And(taken(alloc, queries, 3)?),
        b"|2" => Query::Or(taken(alloc, queries, 2)?),
        b"|3" => Query::Or(taken(alloc, queries, 3)?),
        _ => leaf(alloc, queries, word)?,
    };
    queries.push(query)?;
    Ok(())
}

// The query that a text writes, with each operator after its parts: `-` is Not, `&2` and `&3` are
// And of that many parts, `|2` and `|3` Or, `"` begins and ends a phrase, `~` and a number make of
// the phrase before it a window of that reach, `>` and a number are a bound on the id, and any
// other word is a word.
pub(super) fn query(alloc: Global, text: &[u8]) -> Result<Query, Fail> {
    let mut queries = Vec::new(alloc);
    let mut phrase = Terms::new(alloc);
    let mut is_quoted = false;
    for term in terms(alloc, text)?.as_slice() {
        let word = term.bytes();
        if word == b"\"".as_slice() {
            if is_quoted {
                queries.push(Query::Phrase(phrase))?;
                phrase = Terms::new(alloc);
            }
            is_quoted = !is_quoted;
        } else if is_quoted {
            phrase.push(Term::new(alloc, word)?)?;
        } else {
            put(alloc, &mut queries, word)?;
        }
    }
    match queries.pop() {
        Some(query) => Ok(query),
        None => Err(Fail::new("no query")),
    }
}

// The numbers of those of the first documents of segment 0 that the query matches, greatest first,
// as the cursors find them.
pub(super) fn found<P: Port, L: Ledger>(
    alloc: Global,
    port: &mut P,
    query: Query,
    documents: u32,
    steps: &mut Steps<L>,
) -> Result<Vec<u64>, Fail>
    requires { (m : Moment) × P.stands port.old m × (1 ≤ documents) × (documents ≤ length (accepted_in m 0)) }
    ensures { (m : Moment) × (n : Moment) × P.stands port.old m × P.stands port.new n × P.keeps port.old m port.new n }
{
    let mut numbers = Vec::new(alloc);
    if !query.is_well_formed() {
        return Err(Fail::new("no such query"));
    }
    let mut frame = Frame::new(alloc, query, 1)?;
    frame.start(port, 0, documents, steps);
    let mut end = documents;
    for _ in 0..documents {
        if end == 0 {
            return Ok(numbers);
        }
        let Some(number) = frame.at_most(port, end - 1, steps) else {
            return Ok(numbers);
        };
        numbers.push(u64::from(number))?;
        end = number;
    }
    Ok(numbers)
}
