ghost use Rattle.std.specs.Prelude.{◌≡◌, ◌≤◌, ◌++◌, IfOk, OnOk, decimal};
ghost use Rattle.eb_base.specs.Query.{tree, trees_of, parts_of, IsWellFormed};
ghost use Rattle.eb_query.specs.Writing.{spaced_terms, in_quotes, window_text, since_text, unary_text, part_text, and_text, or_text, line_text};
ghost use Rattle.eb_query.specs.Gaps.{and_gap, or_gap};
ghost use Rattle.eb_base.specs.Match.{most_matches};

use eb_base::{NoMemory, Queries, Query, Terms};
use std::alloc::Global;

// Puts these bytes at the end.
fn put(out: &mut Vec<u8>, bytes: &[u8]) -> Result<(), NoMemory>
    ensures { OnOk result (out.new.items ≡ out.old.items ++ bytes.now) }
{
    out.extend_from_slice(bytes)?;
    Ok(())
}

// Puts what comes before the part of an `and`, or the term of a phrase, at this index.
fn put_gap(out: &mut Vec<u8>, at: usize) -> Result<(), NoMemory>
    ensures { OnOk result (out.new.items ≡ out.old.items ++ and_gap at) }
{
    if at > 0 {
        out.push(b' ')?;
    }
    Ok(())
}

// Puts what comes before the part of an `or` at this index.
fn put_or(out: &mut Vec<u8>, at: usize) -> Result<(), NoMemory>
    ensures { OnOk result (out.new.items ≡ out.old.items ++ or_gap at) }
{
    if at > 0 {
        put(out, b" OR ")?;
    }
    Ok(())
}

// Puts the terms, with a space between.
fn put_terms(out: &mut Vec<u8>, terms: &Terms) -> Result<(), NoMemory>
    ensures { OnOk result (out.new.items ≡ out.old.items ++ spaced_terms terms.now) }
{
    for at in 0..terms.len() {
        put_gap(out, at)?;
        put(out, terms.get(at).bytes())?;
    }
    Ok(())
}

// Puts the terms between two quotation marks, with a space between.
fn put_quoted(out: &mut Vec<u8>, terms: &Terms) -> Result<(), NoMemory>
    ensures { OnOk result (out.new.items ≡ out.old.items ++ in_quotes (spaced_terms terms.now)) }
{
    out.push(b'"')?;
    put_terms(out, terms)?;
    out.push(b'"')?;
    Ok(())
}

// Puts the number in decimal.
fn put_number(alloc: Global, out: &mut Vec<u8>, number: u64) -> Result<(), NoMemory>
    ensures { OnOk result (out.new.items ≡ out.old.items ++ decimal number) }
{
    put(out, number.to_string(alloc)?.as_bytes())
}

// Puts a window: its quoted terms, a tilde and its reach.
fn put_window(alloc: Global, out: &mut Vec<u8>, terms: &Terms, reach: u32) -> Result<(), NoMemory>
    ensures { OnOk result (out.new.items ≡ out.old.items ++ window_text terms.now reach) }
{
    put_quoted(out, terms)?;
    out.push(b'~')?;
    put_number(alloc, out, u64::from(reach))
}

// Puts a bound on ids.
fn put_since(alloc: Global, out: &mut Vec<u8>, bound: u64) -> Result<(), NoMemory>
    ensures { OnOk result (out.new.items ≡ out.old.items ++ since_text bound) }
{
    put(out, b"since:")?;
    put_number(alloc, out, bound)
}

// Puts a query as a part of an `and`, or after a minus.
#[cycle(put)]
fn put_unary(alloc: Global, out: &mut Vec<u8>, query: &Query) -> Result<(), NoMemory>
    ensures { OnOk result (out.new.items ≡ out.old.items ++ unary_text (tree query.now)) }
{
    match query {
        Query::Word(term) => {
            out.push(b'"')?;
            put(out, term.bytes())?;
            out.push(b'"')?;
        }
        Query::Phrase(terms) => put_quoted(out, terms)?,
        Query::Window(terms, reach) => put_window(alloc, out, terms, *reach)?,
        Query::Since(bound) => put_since(alloc, out, *bound)?,
        Query::Not(part) => {
            out.push(b'-')?;
            put_unary(alloc, out, part)?;
        }
        Query::And(parts) => {
            out.push(b'(')?;
            put_all(alloc, out, parts)?;
            out.push(b')')?;
        }
        Query::Or(parts) => {
            out.push(b'(')?;
            put_any(alloc, out, parts)?;
            out.push(b')')?;
        }
    }
    Ok(())
}

// Puts a query as a part of an `or`.
#[cycle(put)]
fn put_part(alloc: Global, out: &mut Vec<u8>, query: &Query) -> Result<(), NoMemory>
    ensures { OnOk result (out.new.items ≡ out.old.items ++ part_text (tree query.now)) }
{
    match query {
        Query::And(parts) => put_all(alloc, out, parts),
        _ => put_unary(alloc, out, query),
    }
}

// Puts the parts of an `and`.
#[cycle(put)]
fn put_all(alloc: Global, out: &mut Vec<u8>, parts: &Queries) -> Result<(), NoMemory>
    ensures { OnOk result
        (out.new.items ≡ out.old.items ++ and_text (trees_of (parts_of parts.now))) }
{
    for (at, part) in parts.as_slice().iter().enumerate() {
        put_gap(out, at)?;
        put_unary(alloc, out, part)?;
    }
    Ok(())
}

// Puts the parts of an `or`.
#[cycle(put)]
fn put_any(alloc: Global, out: &mut Vec<u8>, parts: &Queries) -> Result<(), NoMemory>
    ensures { OnOk result
        (out.new.items ≡ out.old.items ++ or_text (trees_of (parts_of parts.now))) }
{
    for (at, part) in parts.as_slice().iter().enumerate() {
        put_or(out, at)?;
        put_part(alloc, out, part)?;
    }
    Ok(())
}

/// The line that asks for the first `k` matches of the query: `?`, `k`, a space and the query,
/// without a LF (this project's profile, docs/FORMATS.md). A word or a phrase is its terms between
/// two `"` with one space between; a window is the same with `~` and its reach after it; a bound is
/// `since:` and its number. The parts of an `and` have a space between, those of an `or` ` OR `. A
/// `-` comes before what is negated. An `and` or an `or` inside another or after a `-` is in
/// parentheses, except an `and` inside an `or`. `NoMemory` where memory runs out.
pub fn write_query(alloc: Global, k: u32, query: &Query) -> Result<Vec<u8>, NoMemory>
    requires well_formed { IsWellFormed (tree query.now) }
    requires some { 1 ≤ k }
    requires within { k ≤ most_matches }
    ensures { IfOk result (λ line. line.items ≡ line_text k (tree query.now)) }
{
    let mut line = Vec::new(alloc);
    line.push(b'?')?;
    put_number(alloc, &mut line, u64::from(k))?;
    line.push(b' ')?;
    match query {
        Query::And(parts) => put_all(alloc, &mut line, parts)?,
        Query::Or(parts) => put_any(alloc, &mut line, parts)?,
        _ => put_unary(alloc, &mut line, query)?,
    }
    Ok(line)
}
