ghost use Rattle.std.specs.Prelude.{◌≡◌, ◌+◌, ◌<◌, length, drop, slice_index, IfOk};
ghost use Rattle.std.specs.List.{position_or_len};
ghost use Rattle.std.specs.Str.{IsCharBoundary};
ghost use Rattle.eb_fields.specs.Dialect.{dialect_of};
ghost use Rattle.eb_query.specs.Lexemes.{is_blank, ends_run, text_lexeme, run_lexeme, bare, first, first_with};
ghost use Rattle.eb_query.specs.Views.{lexeme_of};

use crate::quoted::quoted_at;
use crate::value::value_at;
use eb_base::{NoMemory, Query};
use eb_fields::{Dialect, read_id};
use eb_text::{plain_token, tokens_by};
use std::alloc::Global;

/// A lexeme of a query text.
#[derive(Drop)]
pub enum Lexeme {
    /// `(`.
    Opening,
    /// `)`.
    Closing,
    /// `-` where a lexeme begins.
    Minus,
    /// The run `OR`.
    OrWord,
    /// A bare word, a quoted text, a window text, a bound or a field's value, by what it asks.
    Leaf(Query),
    /// A quote that isn't closed, a text without a token, a window text without a reach, a bound
    /// without an id, or a field without a value.
    Broken,
}

/// A lexeme of a line.
#[derive(Drop)]
pub struct Found {
    /// The lexeme.
    pub lexeme: Lexeme,
    /// The place of the byte after its last one, counted from 0.
    pub end: usize,
}

/// Whether the byte is a blank: a space or a tab.
pub fn is_blank_byte(byte: u8) -> bool
    ensures { result ≡ is_blank byte }
{
    byte == b' ' || byte == b'\t'
}

/// Whether a bare word ends before this byte.
pub fn ends_run_byte(byte: u8) -> bool
    ensures { result ≡ ends_run byte }
{
    is_blank_byte(byte) || byte == b'(' || byte == b')' || byte == b'"'
}

/// How many leading bytes belong to a bare word.
pub fn run_len(bytes: &[u8]) -> usize
    ensures { result ≡ position_or_len ends_run bytes.now }
{
    for (at, byte) in bytes.iter().enumerate() {
        if ends_run_byte(*byte) {
            return at;
        }
    }
    bytes.len()
}

/// The lexeme of a text, by its tokens.
#[tactic(auto, unfolding(crate::specs::Lexemes::text_lexeme))]
#[inline(always)]
pub fn text_of(alloc: Global, dialect: &Dialect<'_>, text: &str) -> Result<Lexeme, NoMemory>
    ensures { IfOk result (λ lexeme. lexeme_of lexeme ≡ text_lexeme (dialect_of dialect.now) text.now) }
{
    if let Some(term) = plain_token(alloc, text)? {
        return Ok(Lexeme::Leaf(Query::Word(term)));
    }
    match Query::of_terms(tokens_by(alloc, dialect.cut, text)?) {
        Some(query) => Ok(Lexeme::Leaf(query)),
        None => Ok(Lexeme::Broken),
    }
}

// The lexeme of a run.
#[tactic(auto, unfolding(crate::specs::Lexemes::run_lexeme))]
fn run_of(alloc: Global, dialect: &Dialect<'_>, run: &str) -> Result<Lexeme, NoMemory>
    ensures { IfOk result (λ lexeme. lexeme_of lexeme ≡ run_lexeme (dialect_of dialect.now) run.now) }
{
    if run == "OR" {
        return Ok(Lexeme::OrWord);
    }
    if let Some(digits) = run.strip_prefix("since:") {
        return Ok(match read_id(digits) {
            Some(bound) => Lexeme::Leaf(Query::Since(bound)),
            None => Lexeme::Broken,
        });
    }
    text_of(alloc, dialect, run)
}

// The run that begins at this place.
fn bare_at(alloc: Global, dialect: &Dialect<'_>, line: &str, at: usize) -> Result<Found, NoMemory>
    requires boundary { IsCharBoundary line.now at }
    requires within { at < length line.now }
    ensures lexeme { IfOk result (λ found.
        lexeme_of found.lexeme ≡ (bare (dialect_of dialect.now) (slice_index line.now at) (drop (at + 1) line.now)).0) }
    ensures end { IfOk result (λ found.
        found.end ≡ at + 1 + (bare (dialect_of dialect.now) (slice_index line.now at) (drop (at + 1) line.now)).1) }
    ensures boundary { IfOk result (λ found. IsCharBoundary line.now found.end) }
{
    let len = run_len(&line.as_bytes()[at + 1..]);
    let end = at + 1 + len;
    let lexeme = run_of(alloc, dialect, &line[at..end])?;
    Ok(Found { lexeme, end })
}

// The lexeme that begins at this place of the line, where there is no blank and no field is named.
fn first_at(alloc: Global, dialect: &Dialect<'_>, line: &str, at: usize) -> Result<Found, NoMemory>
    requires boundary { IsCharBoundary line.now at }
    requires within { at < length line.now }
    ensures lexeme { IfOk result (λ found.
        lexeme_of found.lexeme ≡ (first (dialect_of dialect.now) (slice_index line.now at) (drop (at + 1) line.now)).0) }
    ensures end { IfOk result (λ found.
        found.end ≡ at + 1 + (first (dialect_of dialect.now) (slice_index line.now at) (drop (at + 1) line.now)).1) }
    ensures boundary { IfOk result (λ found. IsCharBoundary line.now found.end) }
{
    let byte = line.as_bytes()[at];
    if byte == b'(' {
        return Ok(Found {
            lexeme: Lexeme::Opening,
            end: at + 1,
        });
    }
    if byte == b')' {
        return Ok(Found {
            lexeme: Lexeme::Closing,
            end: at + 1,
        });
    }
    if byte == b'-' {
        return Ok(Found {
            lexeme: Lexeme::Minus,
            end: at + 1,
        });
    }
    if byte == b'"' {
        return quoted_at(alloc, dialect, line, at);
    }
    bare_at(alloc, dialect, line, at)
}

/// The lexeme that begins at this place of the line, where there is no blank.
pub fn lexeme_at(
    alloc: Global,
    dialect: &Dialect<'_>,
    line: &str,
    at: usize,
) -> Result<Found, NoMemory>
    requires boundary { IsCharBoundary line.now at }
    requires within { at < length line.now }
    ensures lexeme { IfOk result (λ found.
        lexeme_of found.lexeme ≡ (first_with (dialect_of dialect.now) (slice_index line.now at) (drop (at + 1) line.now)).0) }
    ensures end { IfOk result (λ found.
        found.end ≡ at + 1 + (first_with (dialect_of dialect.now) (slice_index line.now at) (drop (at + 1) line.now)).1) }
    ensures boundary { IfOk result (λ found. IsCharBoundary line.now found.end) }
{
    match dialect.fields.begun_by(&line[at..]) {
        Some(name) => value_at(alloc, name, line, at + name.len() + 1),
        None => first_at(alloc, dialect, line, at),
    }
}
