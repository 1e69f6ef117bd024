ghost use Rattle.std.specs.Prelude.{◌≡◌, ◌+◌, ◌<◌, ◌≤◌, length, drop, slice_index, IfOk, option_and_then};
ghost use Rattle.std.specs.List.{position_or_len};
ghost use Rattle.std.specs.Str.{IsCharBoundary};
ghost use Rattle.eb_base.specs.Query.{window_of};
ghost use Rattle.eb_fields.specs.Dialect.{dialect_of};
ghost use Rattle.eb_text.specs.Pieces as spec;
ghost use Rattle.eb_fields.specs.Digits.{is_no_digit};
ghost use Rattle.eb_query.specs.Lexemes.{is_quote, of_leaf, is_run_end, reach_by, has_tilde, window_lexeme, quoted_lexeme, tilde_len, quoted};
ghost use Rattle.eb_query.specs.Views.{lexeme_of};

use crate::digits::value_of;
use crate::lexeme::{Found, Lexeme, ends_run_byte, text_of};
use eb_base::{MAX_REACH, NoMemory, Query};
use eb_fields::{Dialect, digits_at};
use eb_text::{Cut, tokens_by};
use std::alloc::Global;

/// How many bytes come before the first quotation mark; all, if there is none.
pub fn quote_at(bytes: &[u8]) -> usize
    ensures { result ≡ position_or_len is_quote bytes.now }
{
    for (at, byte) in bytes.iter().enumerate() {
        if *byte == b'"' {
            return at;
        }
    }
    bytes.len()
}

// Whether there is a tilde at this place.
fn has_tilde_at(bytes: &[u8], from: usize) -> bool
    requires { from ≤ length bytes.now }
    ensures { result ≡ has_tilde (drop from bytes.now) }
{
    from < bytes.len() && bytes[from] == b'~'
}

// Whether a run ends at this place, or the line does.
fn is_run_end_at(bytes: &[u8], from: usize) -> bool
    requires { from ≤ length bytes.now }
    ensures { result ≡ is_run_end (drop from bytes.now) }
{
    from == bytes.len() || ends_run_byte(bytes[from])
}

// The reach that the leading `digits` digits write: one to four of a value from 1 to the greatest
// reach, and after them what ends a run, or the end. Takes no memory.
fn reach_at(bytes: &[u8], digits: usize) -> Option<u32>
    requires { digits ≤ length bytes.now }
    ensures { result ≡ reach_by digits bytes.now }
{
    if digits == 0 || digits > 4 || !is_run_end_at(bytes, digits) {
        return None;
    }
    let reach = value_of(&bytes[..digits]);
    if reach == 0 || reach > u64::from(MAX_REACH) {
        return None;
    }
    Some(reach as u32)
}

// The leaf of a window text, by its tokens and its reach.
fn window_leaf(alloc: Global, cut: Cut, text: &str, reach: Option<u32>) -> Result<Lexeme, NoMemory>
    ensures { IfOk result (λ lexeme.
        lexeme_of lexeme ≡ of_leaf (option_and_then (window_of (spec.tokens_by cut text.now)) reach)) }
{
    let Some(reach) = reach else {
        return Ok(Lexeme::Broken);
    };
    match Query::of_window(tokens_by(alloc, cut, text)?, reach) {
        Some(query) => Ok(Lexeme::Leaf(query)),
        None => Ok(Lexeme::Broken),
    }
}

// The window text of this text, after whose tilde the digits begin at this place of the line.
fn window_at(
    alloc: Global,
    dialect: &Dialect<'_>,
    text: &str,
    line: &str,
    from: usize,
) -> Result<Found, NoMemory>
    requires within { from ≤ length line.now }
    requires boundary { IsCharBoundary line.now from }
    ensures lexeme { IfOk result (λ found.
        lexeme_of found.lexeme ≡ window_lexeme (dialect_of dialect.now) text.now (drop from line.now)) }
    ensures end { IfOk result (λ found.
        found.end ≡ from + position_or_len is_no_digit (drop from line.now)) }
    ensures boundary { IfOk result (λ found. IsCharBoundary line.now found.end) }
{
    let rest = &line.as_bytes()[from..];
    let digits = digits_at(rest);
    let lexeme = window_leaf(alloc, dialect.cut, text, reach_at(rest, digits))?;
    Ok(Found {
        lexeme,
        end: from + digits,
    })
}

// The lexeme of this text between quotation marks, the second of which is right before this place
// of the line.
fn closed_at(
    alloc: Global,
    dialect: &Dialect<'_>,
    text: &str,
    line: &str,
    behind: usize,
) -> Result<Found, NoMemory>
    requires within { behind ≤ length line.now }
    requires boundary { IsCharBoundary line.now behind }
    ensures lexeme { IfOk result (λ found.
        lexeme_of found.lexeme ≡ quoted_lexeme (dialect_of dialect.now) text.now (drop behind line.now)) }
    ensures end { IfOk result (λ found. found.end ≡ behind + tilde_len (drop behind line.now)) }
    ensures boundary { IfOk result (λ found. IsCharBoundary line.now found.end) }
{
    if has_tilde_at(line.as_bytes(), behind) {
        return window_at(alloc, dialect, text, line, behind + 1);
    }
    let lexeme = text_of(alloc, dialect, text)?;
    Ok(Found {
        lexeme,
        end: behind,
    })
}

/// The quoted text or the window text whose first quotation mark is at this place.
pub fn quoted_at(
    alloc: Global,
    dialect: &Dialect<'_>,
    line: &str,
    at: usize,
) -> Result<Found, NoMemory>
    requires within { at < length line.now }
    requires quote { slice_index line.now at ≡ 34 }
    ensures lexeme { IfOk result (λ found.
        lexeme_of found.lexeme ≡ (quoted (dialect_of dialect.now) (drop (at + 1) line.now)).0) }
    ensures end { IfOk result (λ found.
        found.end ≡ at + 1 + (quoted (dialect_of dialect.now) (drop (at + 1) line.now)).1) }
    ensures boundary { IfOk result (λ found. IsCharBoundary line.now found.end) }
{
    let start = at + 1;
    let len = quote_at(&line.as_bytes()[start..]);
    if len == line.len() - start {
        return Ok(Found {
            lexeme: Lexeme::Broken,
            end: line.len(),
        });
    }
    let quote = start + len;
    closed_at(alloc, dialect, &line[start..quote], line, quote + 1)
}
