//! The values of fields in a query text.
ghost use Rattle.std.specs.Prelude.{◌≡◌, ◌+◌, ◌≤◌, length, drop, IfOk};
ghost use Rattle.std.specs.Str.{IsCharBoundary};
ghost use Rattle.eb_query.specs.Lexemes.{field_leaf, has_quote, bare_value, quoted_value, value_lexeme};
ghost use Rattle.eb_query.specs.Views.{lexeme_of};

use crate::lexeme::{Found, Lexeme, run_len};
use crate::quoted::quote_at;
use eb_base::{NoMemory, Query};
use eb_fields::field_term;
use std::alloc::Global;

// What asks for a field's value.
fn leaf_of(alloc: Global, name: &str, value: &str) -> Result<Lexeme, NoMemory>
    ensures { IfOk result (λ lexeme. lexeme_of lexeme ≡ field_leaf name.now value.now) }
{
    let term = field_term(alloc, name, value)?;
    Ok(Lexeme::Leaf(Query::Word(term)))
}

// Whether there is a quotation mark at this place.
fn has_quote_at(bytes: &[u8], from: usize) -> bool
    requires { from ≤ length bytes.now }
    ensures { result ≡ has_quote (drop from bytes.now) }
{
    from < bytes.len() && bytes[from] == b'"'
}

// The value that begins at this place and goes up to what ends a run.
fn bare_value_at(alloc: Global, name: &str, line: &str, from: usize) -> Result<Found, NoMemory>
    requires within { from ≤ length line.now }
    requires boundary { IsCharBoundary line.now from }
    ensures lexeme { IfOk result (λ found.
        lexeme_of found.lexeme ≡ (bare_value name.now (drop from line.now)).0) }
    ensures end { IfOk result (λ found.
        found.end ≡ from + (bare_value name.now (drop from line.now)).1) }
    ensures boundary { IfOk result (λ found. IsCharBoundary line.now found.end) }
{
    let len = run_len(&line.as_bytes()[from..]);
    if len == 0 {
        return Ok(Found {
            lexeme: Lexeme::Broken,
            end: from,
        });
    }
    let end = from + len;
    let lexeme = leaf_of(alloc, name, &line[from..end])?;
    Ok(Found { lexeme, end })
}

// The value that begins at this place, right after a quotation mark, and goes up to the next one.
fn quoted_value_at(alloc: Global, name: &str, line: &str, from: usize) -> Result<Found, NoMemory>
    requires within { from ≤ length line.now }
    requires boundary { IsCharBoundary line.now from }
    ensures lexeme { IfOk result (λ found.
        lexeme_of found.lexeme ≡ (quoted_value name.now (drop from line.now)).0) }
    ensures end { IfOk result (λ found.
        found.end ≡ from + (quoted_value name.now (drop from line.now)).1) }
    ensures boundary { IfOk result (λ found. IsCharBoundary line.now found.end) }
{
    let len = quote_at(&line.as_bytes()[from..]);
    if len == line.len() - from {
        return Ok(Found {
            lexeme: Lexeme::Broken,
            end: line.len(),
        });
    }
    let quote = from + len;
    let lexeme = leaf_of(alloc, name, &line[from..quote])?;
    Ok(Found {
        lexeme,
        end: quote + 1,
    })
}

/// The lexeme of a field whose name and colon come before this place.
pub fn value_at(alloc: Global, name: &str, line: &str, from: usize) -> Result<Found, NoMemory>
    requires within { from ≤ length line.now }
    requires boundary { IsCharBoundary line.now from }
    ensures lexeme { IfOk result (λ found.
        lexeme_of found.lexeme ≡ (value_lexeme name.now (drop from line.now)).0) }
    ensures end { IfOk result (λ found.
        found.end ≡ from + (value_lexeme name.now (drop from line.now)).1) }
    ensures boundary { IfOk result (λ found. IsCharBoundary line.now found.end) }
{
    if has_quote_at(line.as_bytes(), from) {
        return quoted_value_at(alloc, name, line, from + 1);
    }
    bare_value_at(alloc, name, line, from)
}
