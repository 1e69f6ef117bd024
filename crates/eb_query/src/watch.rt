ghost use Rattle.std.specs.Prelude.{◌≡◌, ◌≤◌, length, drop, Some, slice_get, option_map, IfOk, IfErr, IfSome};
ghost use Rattle.std.specs.List.{list_all};
ghost use Rattle.eb_base.specs.Query.{tree, IsWellFormed};
ghost use Rattle.eb_query.specs.Lexemes.{is_blank};
ghost use Rattle.eb_fields.specs.Dialect.{dialect_of};
ghost use Rattle.eb_query.specs.WatchLine.{watch_asked, ReadsWatchAs, ReadsWatchWith};
ghost use Rattle.eb_query.specs.Refusal.{IsWatchRefused, IsWatchRefusedWith};

use crate::ask::Ask;
use crate::head::Head;
use crate::lexeme::is_blank_byte;
use crate::number::number_up_to;
use crate::read::{QueryFault, read_text};
use eb_base::Query;
use eb_fields::Dialect;
use std::alloc::Global;

// Whether each of these bytes is a blank.
fn are_blanks(bytes: &[u8]) -> bool
    ensures { result ≡ list_all is_blank bytes.now }
{
    bytes.iter().all(|&byte| is_blank_byte(byte))
}

// Whether there is nothing but blanks from this place on.
#[tactic(auto, using(crate::proofs::Cuts::rest_is))]
fn is_blank_from(line: &[u8], from: usize) -> bool
    requires { from ≤ length line.now }
    ensures { result ≡ list_all is_blank (drop from line.now) }
{
    are_blanks(&line[from..])
}

/// What a line that begins with `!` asks: a number of one to ten digits, at most 4,294,967,295, and
/// after it and a blank a query text, which [`read_query`](crate::read_query) describes: the watch
/// of this number is to be set to the query, which is well formed. Where nothing but blanks follows
/// the number, there is no query: the watch of this number is to be removed.
///
/// Each [`QueryFault`] says when it comes; `NoMemory` comes where a growth was refused.
pub fn read_watch(alloc: Global, line: &str) -> Result<(u32, Option<Query>), QueryFault>
    requires exclamation_mark { slice_get line.now 0 ≡ Some 33 }
    ensures asks { IfOk result (λ asked. ReadsWatchAs line.now (watch_asked asked.0 (option_map tree asked.1))) }
    ensures refused { IfErr result (IsWatchRefused line.now) }
    ensures well_formed { IfOk result (λ asked. IfSome asked.1 (λ query. IsWellFormed (tree query))) }
{
    read_watch_with(alloc, Dialect::plain(), line)
}

/// What a line that begins with `!` asks, where fields are read: [`read_watch`] says it, and
/// [`read_query_with`](crate::read_query_with) what a field in the query is.
pub fn read_watch_with(
    alloc: Global,
    dialect: Dialect<'_>,
    line: &str,
) -> Result<(u32, Option<Query>), QueryFault>
    requires exclamation_mark { slice_get line.now 0 ≡ Some 33 }
    ensures asks { IfOk result (λ asked. ReadsWatchWith (dialect_of dialect.entry) line.now (watch_asked asked.0 (option_map tree asked.1))) }
    ensures refused { IfErr result (IsWatchRefusedWith (dialect_of dialect.entry) line.now) }
    ensures well_formed { IfOk result (λ asked. IfSome asked.1 (λ query. IsWellFormed (tree query))) }
{
    let Some(number) = number_up_to(line.as_bytes(), 10, u32::MAX) else {
        return Err(QueryFault::BadNumber);
    };
    if is_blank_from(line.as_bytes(), number.end) {
        return Ok((number.value, None));
    }
    let head = Head {
        ask: Ask::Newest(number.value),
        end: number.end,
    };
    let query = read_text(alloc, &dialect, line, head)?;
    Ok((number.value, Some(query)))
}
