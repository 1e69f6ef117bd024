ghost use Rattle.std.specs.Prelude.{◌≡◌, ◌+◌, ◌*◌, ◌<◌, ◌≤◌, ◌^◌, ◌++◌, length, sum_by, IfOk, OnOk};
ghost use Rattle.eb_base.specs.Document.{IsDocument, most_tokens, most_bytes};
ghost use Rattle.eb_place.specs.Postings.{count_of, distinct};
ghost use Rattle.eb_place.specs.Room.{all_slices};
ghost use Rattle.eb_place.specs.Room as spec;
ghost use Rattle.eb_plain.specs.TermRoom.{holds_terms};

use eb_base::{Config, Document, NoMemory, Term, Terms};
use eb_match::has_term;
use std::alloc::Global;

/// Whether a document fits a segment of this setting after its documents, by counting all of them
/// again: the documents, the distinct terms, their text words, and the slices of each pool.
pub fn fits(
    alloc: Global,
    config: &Config,
    segment: &[Document],
    document: &Document,
) -> Result<bool, NoMemory>
    ensures { IfOk result (λ answer. answer ≡ spec.fits config.now segment.now document.now) }
{
    if segment.len() >= config.docs() as usize {
        return Ok(false);
    }
    let mut terms = Terms::new(alloc);
    for earlier in segment {
        put_terms(alloc, earlier, &mut terms)?;
    }
    put_terms(alloc, document, &mut terms)?;
    has_room_for(alloc, config, &terms)
}

// The list, and then the terms of the document.
fn put_terms(alloc: Global, document: &Document, terms: &mut Terms) -> Result<(), NoMemory>
    ensures terms { OnOk result (terms.new ≡ terms.old ++ document.now.terms) }
    ensures document { OnOk result (IsDocument document.now) }
{
    for term in document.terms().as_slice() {
        terms.push(Term::new(alloc, term.bytes())?)?;
    }
    Ok(())
}

// Whether a segment has room for these terms.
fn has_room_for(alloc: Global, config: &Config, terms: &Terms) -> Result<bool, NoMemory>
    requires few { length terms.now ≤ most_tokens * 2 ^ 32 }
    requires short { sum_by length terms.now ≤ most_bytes * 2 ^ 32 }
    ensures { IfOk result (λ answer. answer ≡ holds_terms config.now terms.now) }
{
    let found = distinct_terms(alloc, terms)?;
    let text = text_of(&found, terms);
    let pool_0 = slices_of(0, &found, terms);
    let pool_1 = slices_of(1, &found, terms);
    let pool_2 = slices_of(2, &found, terms);
    let pool_3 = slices_of(3, &found, terms);
    let most = u64::from(config.terms());
    Ok(
        (found.len() as u64 <= most)
            & (text <= 4 * most)
            & (pool_0 <= most)
            & (pool_1 <= most / 2)
            & (pool_2 <= most / 16)
            & (pool_3 <= most / 128),
    )
}

// The distinct terms, in order of first appearance.
fn distinct_terms(alloc: Global, terms: &Terms) -> Result<Terms, NoMemory>
    ensures { IfOk result (λ found. found ≡ distinct terms.now) }
{
    let mut found = Terms::new(alloc);
    for term in terms.as_slice() {
        if !has_term(found.as_slice(), term) {
            found.push(Term::new(alloc, term.bytes())?)?;
        }
    }
    Ok(found)
}

// The text words of the distinct terms of a list.
fn text_of(found: &Terms, terms: &Terms) -> u64
    requires distinct { found.now ≡ distinct terms.now }
    requires few { length terms.now ≤ most_tokens * 2 ^ 32 }
    requires short { sum_by length terms.now ≤ most_bytes * 2 ^ 32 }
    ensures { result ≡ sum_by spec.text_words (distinct terms.now) }
{
    let mut words = 0u64;
    for term in found.as_slice() {
        words += 1 + (term.bytes().len() as u64).div_ceil(8);
    }
    words
}

// The slices of a pool that the distinct terms of a list take, each as often as it occurs in it.
fn slices_of(pool: u32, found: &Terms, terms: &Terms) -> u64
    requires pool { pool < 4 }
    requires distinct { found.now ≡ distinct terms.now }
    requires few { length terms.now ≤ most_tokens * 2 ^ 32 }
    ensures { result ≡ all_slices pool terms.now }
{
    let mut slices = 0u64;
    for term in found.as_slice() {
        slices += slices_for(pool, count(term, terms));
    }
    slices
}

// How often the term occurs in the list.
fn count(term: &Term, terms: &Terms) -> u64
    ensures count { result ≡ count_of term.now terms.now }
    ensures within { result ≤ length terms.now }
{
    let mut count = 0u64;
    for own in terms.as_slice() {
        if term == own {
            count += 1;
        }
    }
    count
}

// The slices of a pool that a term with this many postings takes.
fn slices_for(pool: u32, postings: u64) -> u64
    requires pool { pool < 4 }
    requires few { postings ≤ most_tokens * 2 ^ 32 }
    ensures { result ≡ spec.slices pool postings }
{
    match pool {
        0 => u64::from(postings >= 1),
        1 => u64::from(postings > 2),
        2 => u64::from(postings > 17),
        _ => postings.saturating_sub(144).div_ceil(2047),
    }
}
