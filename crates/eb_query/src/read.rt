ghost use Rattle.std.specs.Prelude.{◌≡◌, ◌+◌, ◌<◌, ◌≤◌, true, false, ◌∷◌, length, drop, slice_get, slice_index, IfOk, IfErr, OnOk, OnErr};
ghost use Rattle.std.specs.Str.{IsCharBoundary};
ghost use Rattle.eb_base.specs.Query.{tree, IsWellFormed};
ghost use Rattle.eb_query.specs.Lexemes.{lexemes, is_blank};
ghost use Rattle.eb_fields.specs.Dialect.{Dialect as Spoken, dialect_of, uncounted};
ghost use Rattle.eb_query.specs.Head.{begins_query, IsWithin};
ghost use Rattle.eb_query.specs.declared.ask.Ask.TheVariants.{Newest};
ghost use Rattle.eb_query.specs.Reading.{asks, ReadsAs, ReadsWith};
ghost use Rattle.eb_query.specs.Refusal.{IsRefused, IsRefusedWith};
ghost use Rattle.eb_query.specs.Machine.{start, outcome};
ghost use Rattle.eb_query.specs.Views.{Finds, lexeme_of};
ghost use Rattle.eb_query.specs.declared.read.QueryFault.TheVariants as faults;
ghost use Rattle.eb_base.specs.Match.{most_matches};

use crate::ask::Ask;
use crate::head::{Head, head_at};
use crate::lexeme::{Found, Lexeme, is_blank_byte, lexeme_at};
use crate::reader::{Reader, Step};
use eb_base::{NoMemory, Query};
use eb_fields::Dialect;
use std::alloc::Global;
use std::error::Error;
use std::fmt;

/// Why a line isn't a query, or isn't a watch. Where several hold, the number comes first, then the
/// first lexeme from the left that fails, then the end of the line, and last the size.
#[derive(Clone, Copy, Debug, PartialEq, Eq)]
pub enum QueryFault {
    /// The question mark isn't followed by one to four digits of a value from 1 to 1,000, or the
    /// exclamation mark by one to ten of a value that 32 bits hold, with a blank or the end of the
    /// line after them; or the `#` of a count line is followed neither by a blank or the end, nor
    /// by buckets and a blank or the end.
    BadNumber,
    /// A lexeme isn't allowed at its place, is a quote that isn't closed, has no token, or is a
    /// window text without a reach, a bound without an id or a field without a value; or the line
    /// ends before the query is complete.
    BadQuery {
        /// The place of the lexeme's first byte in the line, counted from 1 for the mark that the
        /// line begins with; at the end of the line its length plus 1.
        column: u64,
    },
    /// A `(` or a `-` is allowed at its place, where 16 of them are open already.
    TooDeep,
    /// The query is complete, and its size is over 64. Each word, bound and minus and each `and`
    /// and `or` of several parts counts 1, and each phrase and window the number of its terms.
    TooManyNodes,
    /// Memory ran out, which says nothing of the line.
    NoMemory,
}

impl fmt::Display for QueryFault {
    ghost use Rattle.std.specs.Prelude.{Some};
    ghost use Rattle.eb_query.specs.Faults.{query_fault_text};

    ghost output = { λ fault. Some (query_fault_text fault) };

    fn fmt<W: fmt::Write>(&self, f: &mut fmt::Formatter<W>) -> fmt::Result {
        match self {
            QueryFault::BadNumber => f.write_str("bad number"),
            QueryFault::BadQuery { column } => write!(f, "bad query at {column}"),
            QueryFault::TooDeep => f.write_str("query too deep"),
            QueryFault::TooManyNodes => f.write_str("query too large"),
            QueryFault::NoMemory => f.write_str("memory ran out"),
        }
    }
}

impl Error for QueryFault {}

impl From<NoMemory> for QueryFault {
    ghost use Rattle.std.specs.Prelude.{◌≡◌};
    ghost use Rattle.eb_query.specs.declared.read.QueryFault.TheVariants as faults;

    ghost from_gives = { λ _ fault. fault ≡ faults.NoMemory };

    fn from(_error: NoMemory) -> QueryFault {
        QueryFault::NoMemory
    }
}

// The place of the first byte from this one on that is no blank, or the end of the line.
#[inline(always)]
fn skip_blanks(line: &str, from: usize) -> usize
    requires boundary { IsCharBoundary line.now from }
    requires within { from ≤ length line.now }
    ensures lexemes { (how : Spoken) → lexemes how 0 (from + 1) (drop from line.now) ≡ lexemes how 0 (result + 1) (drop result line.now) }
    ensures from { from ≤ result }
    ensures within { result ≤ length line.now }
    ensures stops { result < length line.now → is_blank (slice_index line.now result) ≡ false }
    ensures boundary { IsCharBoundary line.now result }
{
    let mut at = from;
    while at < line.len() && is_blank_byte(line.as_bytes()[at]) {
        at += 1;
    }
    at
}

// The fault of a line that ends before its query is complete.
fn incomplete(line: &str) -> QueryFault
    ensures { result ≡ faults.BadQuery (length line.now + 1) }
{
    QueryFault::BadQuery {
        column: line.len() as u64 + 1,
    }
}

// The query, where it is well formed.
#[inline(always)]
fn fitting(query: Query) -> Result<Query, QueryFault>
    ensures same { IfOk result (λ fit. fit ≡ query) }
    ensures well_formed { OnOk result (IsWellFormed (tree query)) }
    ensures too_large { IfErr result (λ fault. fault ≡ faults.TooManyNodes) }
    ensures unfit { OnErr result (IsWellFormed (tree query) → ⊥) }
{
    if query.is_well_formed() {
        Ok(query)
    } else {
        Err(QueryFault::TooManyNodes)
    }
}

// What the text after the head of this line asks, whose first lexeme is this one and begins here.
#[inline(never)]
fn read_rest(
    alloc: Global,
    dialect: &Dialect<'_>,
    line: &str,
    head: Head,
    begin: usize,
    first: Found,
) -> Result<Query, QueryFault>
    requires first { lexemes (dialect_of dialect.now) 0 (head.end + 1) (drop head.end line.now)
        ≡ record { column = begin + 1; lexeme = lexeme_of first.lexeme } ∷ lexemes (dialect_of dialect.now) 0 (first.end + 1) (drop first.end line.now) }
    requires within { begin < length line.now }
    requires after { begin < first.end }
    requires boundary { IsCharBoundary line.now first.end }
    ensures { Finds head.ask
        (outcome line.now head.ask (lexemes (dialect_of dialect.now) 0 (head.end + 1) (drop head.end line.now)) start) result }
{
    let mut reader = Reader::new(alloc);
    let mut at = begin;
    let mut found = first;
    loop {
        match reader.read(alloc, found.lexeme)? {
            Step::Stood => {}
            Step::Misplaced => {
                return Err(QueryFault::BadQuery {
                    column: at as u64 + 1,
                });
            }
            Step::Deep => return Err(QueryFault::TooDeep),
        }
        at = skip_blanks(line, found.end);
        if at == line.len() {
            break;
        }
        found = lexeme_at(alloc, dialect, line, at)?;
    }
    match reader.finish()? {
        None => Err(incomplete(line)),
        Some(query) => fitting(query),
    }
}

// What the text after the head of this line asks. A leaf alone needs no reader.
pub(crate) fn read_text(
    alloc: Global,
    dialect: &Dialect<'_>,
    line: &str,
    head: Head,
) -> Result<Query, QueryFault>
    requires boundary { IsCharBoundary line.now head.end }
    requires within { head.end ≤ length line.now }
    ensures { Finds head.ask
        (outcome line.now head.ask (lexemes (dialect_of dialect.now) 0 (head.end + 1) (drop head.end line.now)) start) result }
{
    let at = skip_blanks(line, head.end);
    if at == line.len() {
        return Err(incomplete(line));
    }
    let found = lexeme_at(alloc, dialect, line, at)?;
    if found.end == line.len()
        && let Lexeme::Leaf(query) = found.lexeme
    {
        return fitting(query);
    }
    read_rest(alloc, dialect, line, head, at, found)
}

/// What a line that begins with `?` asks: how many matches, 1 to 1,000, and a well-formed query
/// (this project's profile, docs/FORMATS.md). After the number come, with spaces and tabs between
/// as wanted:
///
/// - a word, or a text between two `"`, cut into tokens as documents are: one token asks for that
///   word, several for the phrase of them in this order;
/// - a text between two `"` with `~` and one to four digits of a value from 1 to 1,023 right after
///   it, and then a blank, a parenthesis, a `"` or the end: the window of its tokens, in this
///   order, the last at most that many places after the first; one token asks for that word;
/// - `since:` with one to twenty digits of a value that 64 bits hold right after it, up to a blank,
///   a parenthesis, a `"` or the end: the documents with a greater id;
/// - parts in a row: all of them;
/// - parts with `OR` between: any of them; it binds less tightly than parts in a row;
/// - `-` where a part begins: not that part;
/// - `(` and `)` round a query.
///
/// Each [`QueryFault`] says when it comes; `NoMemory` comes where a growth was refused.
pub fn read_query(alloc: Global, line: &str) -> Result<(u32, Query), QueryFault>
    requires question_mark { slice_get line.now 0 ≡ Some 63 }
    ensures asks { IfOk result (λ asked. ReadsAs line.now (asks (Newest asked.0) (tree asked.1))) }
    ensures refused { IfErr result (IsRefused line.now) }
    ensures some { IfOk result (λ asked. 1 ≤ asked.0) }
    ensures within { IfOk result (λ asked. asked.0 ≤ most_matches) }
    ensures well_formed { IfOk result (λ asked. IsWellFormed (tree asked.1)) }
{
    read_query_with(alloc, Dialect::plain(), line)
}

/// What a line that begins with `?` asks, where fields are read, as [`read_query`] says. Where a
/// part is allowed, the name of a field and a colon right after it, with no blank between, begin a
/// field:
///
/// - with a value of one byte or more after the colon, up to a blank, a parenthesis, a `"` or the end: the
///   documents of which the field has this value, whole and folded;
/// - with a `"` after the colon: the same for all bytes up to the next `"`, which may be none.
///
/// A field without a value, and one whose quote isn't closed, are a `BadQuery` at the name.
pub fn read_query_with(
    alloc: Global,
    dialect: Dialect<'_>,
    line: &str,
) -> Result<(u32, Query), QueryFault>
    requires question_mark { slice_get line.now 0 ≡ Some 63 }
    ensures asks { IfOk result (λ asked. ReadsWith (uncounted (dialect_of dialect.entry)) line.now (asks (Newest asked.0) (tree asked.1))) }
    ensures refused { IfErr result (IsRefusedWith (uncounted (dialect_of dialect.entry)) line.now) }
    ensures some { IfOk result (λ asked. 1 ≤ asked.0) }
    ensures within { IfOk result (λ asked. asked.0 ≤ most_matches) }
    ensures well_formed { IfOk result (λ asked. IsWellFormed (tree asked.1)) }
{
    match read_ask(alloc, &dialect.uncounted(), line) {
        Ok((Ask::Newest(k), query)) => Ok((k, query)),
        Ok((Ask::Counts { .. }, _)) => unreachable!(),
        Err(fault) => Err(fault),
    }
}

/// What a query line asks of its query by this dialect, and the query, which is well formed. The
/// line begins with `?`, as [`read_query_with`] says, or with `#` where the dialect has counts.
/// After the `#` comes nothing, where the total alone is asked for, or `X+W*N`, for the total and
/// `N` buckets, each `W` wide, from the id `X` on: `X` is one to twenty digits of a value that 64
/// bits hold, `W` the same from 1 on, `N` one to four digits of a value from 1 to
/// [`MAX_BUCKETS`](crate::MAX_BUCKETS). Then come a blank or the end, and a query text as after the
/// number of a `?` line.
///
/// Each [`QueryFault`] says when it comes; `NoMemory` comes where a growth was refused.
#[inline(always)]
pub fn read_ask(
    alloc: Global,
    dialect: &Dialect<'_>,
    line: &str,
) -> Result<(Ask, Query), QueryFault>
    requires begins { begins_query (dialect_of dialect.now) line.now ≡ true }
    ensures asks { IfOk result (λ asked. ReadsWith (dialect_of dialect.now) line.now (asks asked.0 (tree asked.1))) }
    ensures refused { IfErr result (IsRefusedWith (dialect_of dialect.now) line.now) }
    ensures within { IfOk result (λ asked. IsWithin asked.0) }
    ensures well_formed { IfOk result (λ asked. IsWellFormed (tree asked.1)) }
{
    let Some(head) = head_at(*dialect, line) else {
        return Err(QueryFault::BadNumber);
    };
    let query = read_text(alloc, dialect, line, head)?;
    Ok((head.ask, query))
}
