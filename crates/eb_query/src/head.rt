//! The head of a query line: what it asks of the query whose text follows.
ghost use Rattle.std.specs.Prelude.{◌≡◌, ◌<◌, ◌≤◌, ℕ, Some, true, false, length, slice_get, IfSome, IfNone};
ghost use Rattle.std.specs.List.{position_or_len};
ghost use Rattle.std.specs.Str.{IsCharBoundary};
ghost use Rattle.eb_fields.specs.Dialect.{dialect_of};
ghost use Rattle.eb_query.specs.Lexemes.{is_blank};
ghost use Rattle.eb_fields.specs.Ids.{id_of};
ghost use Rattle.eb_query.specs.Head as spec;
ghost use Rattle.eb_query.specs.Head.{is_count, number_of, are_buckets, buckets_by, buckets_in, counts_in, IsHead, HasHead, IsWithin};
ghost use Rattle.eb_query.specs.declared.ask.Ask.{Ask as Asked};

use crate::ask::Ask;
use crate::lexeme::is_blank_byte;
use crate::number::number_at;
use eb_fields::{Dialect, read_id};

/// The most buckets that a count line may ask for (this project's profile, docs/FORMATS.md).
pub const MAX_BUCKETS: u32 = 1000;

/// The head of a query line.
#[derive(Clone, Copy, Drop)]
pub(crate) struct Head {
    /// What it asks of the query.
    pub(crate) ask: Ask,
    /// The place of the byte after its last one, counted from 0.
    pub(crate) end: usize,
}

// How many bytes come before a blank or the end.
fn blank_at(bytes: &[u8]) -> usize
    ensures { result ≡ position_or_len is_blank bytes.now }
{
    for (at, byte) in bytes.iter().enumerate() {
        if is_blank_byte(*byte) {
            return at;
        }
    }
    bytes.len()
}

// The number of buckets that a text writes.
fn read_number(text: &str) -> Option<u64>
    ensures { result ≡ number_of text.now }
{
    if text.len() > 4 {
        return None;
    }
    read_id(text)
}

// This many buckets, where they are numbers that buckets may have.
fn buckets(start: u64, width: u64, number: u64) -> Option<Ask>
    ensures { result ≡ are_buckets start width number }
{
    if width == 0 || number == 0 || number > u64::from(MAX_BUCKETS) {
        return None;
    }
    Some(Ask::Counts {
        start,
        width,
        number: number as u32,
    })
}

// The buckets by the texts of their numbers.
#[tactic(auto, unfolding(crate::specs::Head::buckets_by))]
fn read_buckets(start: &str, width: &str, number: &str) -> Option<Ask>
    ensures { result ≡ buckets_by start.now width.now number.now }
{
    let start = read_id(start)?;
    let width = read_id(width)?;
    let number = read_number(number)?;
    buckets(start, width, number)
}

// The buckets of a text `X+W*N`.
#[tactic(auto, unfolding(crate::specs::Head::buckets_in))]
fn read_range(text: &str) -> Option<Ask>
    ensures { result ≡ buckets_in text.now }
{
    let (start, rest) = text.split_once('+')?;
    let (width, number) = rest.split_once('*')?;
    read_buckets(start, width, number)
}

// What is counted.
fn read_counts(text: &str) -> Option<Ask>
    ensures { result ≡ counts_in text.now }
{
    if text.is_empty() {
        return Some(Ask::Counts {
            start: 0,
            width: 1,
            number: 0,
        });
    }
    read_range(text)
}

// The head of a count line.
#[inline(never)]
fn counts_head(line: &str) -> Option<Head>
    requires { slice_get line.now 0 ≡ Some 35 }
    ensures none { IfNone result ((a : Asked) (n : ℕ) → IsHead true line.now a n → ⊥) }
    ensures some { IfSome result (λ head. IsHead true line.now head.ask head.end) }
    ensures end { IfSome result (λ head. head.end ≤ length line.now) }
    ensures boundary { IfSome result (λ head. IsCharBoundary line.now head.end) }
{
    let end = 1 + blank_at(&line.as_bytes()[1..]);
    let ask = read_counts(&line[1..end])?;
    Some(Head { ask, end })
}

// The head of another query line.
#[inline(always)]
fn newest_head(line: &str) -> Option<Head>
    requires { 0 < length line.now }
    ensures none { IfNone result ((a : Asked) (n : ℕ) → IsHead false line.now a n → ⊥) }
    ensures some { IfSome result (λ head. IsHead false line.now head.ask head.end) }
    ensures end { IfSome result (λ head. head.end ≤ length line.now) }
    ensures boundary { IfSome result (λ head. IsCharBoundary line.now head.end) }
{
    let number = number_at(line.as_bytes())?;
    Some(Head {
        ask: Ask::Newest(number.value),
        end: number.end,
    })
}

// Whether a line asks for a count.
#[inline(always)]
fn asks_count(dialect: Dialect<'_>, line: &[u8]) -> bool
    ensures { result ≡ is_count (dialect_of dialect.entry) line.now }
{
    dialect.counts && !line.is_empty() && line[0] == b'#'
}

/// Whether a line begins as a query line does by this dialect: with `?`, or with `#` where the
/// dialect has counts. Takes no memory.
pub fn begins_query(dialect: Dialect<'_>, line: &[u8]) -> bool
    ensures { result ≡ spec.begins_query (dialect_of dialect.entry) line.now }
{
    asks_count(dialect, line) || (!line.is_empty() && line[0] == b'?')
}

/// The head of a query line by this dialect, if it has one. Takes no memory.
#[inline(always)]
pub(crate) fn head_at(dialect: Dialect<'_>, line: &str) -> Option<Head>
    requires { spec.begins_query (dialect_of dialect) line.now ≡ true }
    ensures none { IfNone result ((a : Asked) (n : ℕ) → HasHead (dialect_of dialect.entry) line.now a n → ⊥) }
    ensures some { IfSome result (λ head. HasHead (dialect_of dialect.entry) line.now head.ask head.end) }
    ensures end { IfSome result (λ head. head.end ≤ length line.now) }
    ensures boundary { IfSome result (λ head. IsCharBoundary line.now head.end) }
{
    if asks_count(dialect, line.as_bytes()) {
        counts_head(line)
    } else {
        newest_head(line)
    }
}
