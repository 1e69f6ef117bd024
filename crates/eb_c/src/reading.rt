//! What documents and questions the bytes of a caller are, by a dialect: the one without options,
//! or one that the caller gives.
ghost use Rattle.std.specs.Prelude.{◌≡◌, ◌⊎◌, ◌++◌, false, Err, IfOk, Some, slice_get, length};
ghost use Rattle.std.specs.Str.{is_utf8};
ghost use Rattle.std.specs.String.{string_bytes};
ghost use Rattle.eb_text.specs.Pieces.{tokens_by};
ghost use Rattle.eb_fields.specs.Dialect.{dialect_of};
ghost use Rattle.eb_doc.specs.DocumentLine.{message};
ghost use Rattle.eb_doc.specs.WithFields as doc;
ghost use Rattle.eb_c.specs.Adding.{document_in, document_in_by, document_in_as, document_with, document_by, document_as, or_refused};
ghost use Rattle.eb_c.specs.Asking.{asked_of, parsed_of, refused, line_front, ReadsBy, AsksBy, LineAsks, LineAsksBy, LineAsksAs};
ghost use Rattle.eb_c.specs.Asking.{TextAsks, TextAsksBy, TextAsksAs};

use crate::dialects::{Reading, read_dialect};
use crate::parsed::{Parsed, Wanted};
use crate::refusal::{Refusal, refusal_of};
use eb_base::{Document, NoMemory, Query};
use eb_cursor::Frame;
use eb_doc::DocumentReader;
use eb_fields::Dialect;
use eb_query::{QueryFault, read_query_with};
use eb_text::tokens_by;
use std::alloc::Global;
use std::fmt::Write;
use std::str;

// The most bytes of a line.
const MAX_LINE: usize = 65_536;

// What is asked.
#[derive(Drop)]
pub(crate) enum Question {
    // The newest matches of a query, as many as the frame takes.
    Asks(Frame),
    // It is refused; a bad query has the column of its fault, others 0.
    Refused(Refusal, u64),
}

// The document of a document line, by a dialect.
fn line_document(alloc: Global, dialect: Dialect<'_>, line: &[u8]) -> Result<Document, Refusal>
    ensures { (result ≡ Err Refusal.NoMemory) ⊎ (result ≡ document_in_by (dialect_of dialect.entry) line.now) }
{
    if line.len() > MAX_LINE {
        return Err(Refusal::LongLine);
    }
    match line.first() {
        Some(b'{') => document_of_line(alloc, dialect, line),
        _ => Err(Refusal::BadLine),
    }
}

// The document of a document line that isn't too long, by a dialect.
fn document_of_line(alloc: Global, dialect: Dialect<'_>, line: &[u8]) -> Result<Document, Refusal>
    ensures { (result ≡ Err Refusal.NoMemory) ⊎ (result ≡ or_refused (doc.document_with (dialect_of dialect.entry) line.now)) }
{
    let mut reader = DocumentReader::new(alloc);
    match reader.read_with(dialect, line) {
        Ok(document) => Ok(document),
        Err(fault) => Err(refusal_of(fault)),
    }
}

// The document of a document line.
pub(crate) fn document_in_line(alloc: Global, line: &[u8]) -> Result<Document, Refusal>
    ensures { (result ≡ Err Refusal.NoMemory) ⊎ (result ≡ document_in line.now) }
{
    line_document(alloc, Dialect::plain(), line)
}

// The document of a document line, by the dialect that a caller gives.
pub(crate) fn document_in_line_as(
    alloc: Global,
    how: &Reading<'_>,
    line: &[u8],
) -> Result<Document, Refusal>
    ensures { (result ≡ Err Refusal.NoMemory) ⊎ (result ≡ document_in_as how.now line.now) }
{
    match read_dialect(how) {
        Some(dialect) => line_document(alloc, dialect, line),
        None => Err(Refusal::BadReading),
    }
}

// The document of an id and a text, by a dialect.
fn text_document(
    alloc: Global,
    dialect: Dialect<'_>,
    id: u64,
    text: &[u8],
) -> Result<Document, Refusal>
    ensures { (result ≡ Err Refusal.NoMemory) ⊎ (result ≡ document_by (dialect_of dialect.entry) id text.now) }
{
    match str::from_utf8(text) {
        Ok(text) => document_of_text(alloc, dialect, id, text),
        Err(_) => Err(Refusal::BadText),
    }
}

// The document of an id and a text, by a dialect.
fn document_of_text(
    alloc: Global,
    dialect: Dialect<'_>,
    id: u64,
    text: &str,
) -> Result<Document, Refusal>
    ensures { (result ≡ Err Refusal.NoMemory) ⊎ (result ≡ or_refused (message id (tokens_by (dialect_of dialect.entry).cut text.now))) }
{
    let Ok(terms) = tokens_by(alloc, dialect.cut, text) else {
        return Err(Refusal::NoMemory);
    };
    match Document::new(id, terms) {
        Ok(document) => Ok(document),
        Err(_) => Err(Refusal::TooLong),
    }
}

// The document of an id and a text.
pub(crate) fn document_with(alloc: Global, id: u64, text: &[u8]) -> Result<Document, Refusal>
    ensures { (result ≡ Err Refusal.NoMemory) ⊎ (result ≡ document_with id text.now) }
{
    text_document(alloc, Dialect::plain(), id, text)
}

// The document of an id and a text, by the dialect that a caller gives.
pub(crate) fn document_as(
    alloc: Global,
    how: &Reading<'_>,
    id: u64,
    text: &[u8],
) -> Result<Document, Refusal>
    ensures { (result ≡ Err Refusal.NoMemory) ⊎ (result ≡ document_as how.now id text.now) }
{
    match read_dialect(how) {
        Some(dialect) => text_document(alloc, dialect, id, text),
        None => Err(Refusal::BadReading),
    }
}

// What a query line asks, by a dialect.
fn line_parsed(alloc: Global, dialect: Dialect<'_>, line: &[u8]) -> Parsed
    ensures { (parsed_of result ≡ refused Refusal.NoMemory 0) ⊎ LineAsksBy (dialect_of dialect.entry) line.now (parsed_of result) }
{
    if line.len() > MAX_LINE {
        return Parsed::Refused(Refusal::LongLine, 0);
    }
    match line.first() {
        Some(b'?') => parsed_of_line(alloc, dialect, line),
        _ => Parsed::Refused(Refusal::BadLine, 0),
    }
}

// What a query line asks that isn't too long, by a dialect.
fn parsed_of_line(alloc: Global, dialect: Dialect<'_>, line: &[u8]) -> Parsed
    requires { slice_get line.now 0 ≡ Some 63 }
    ensures { (parsed_of result ≡ refused Refusal.NoMemory 0) ⊎ AsksBy (dialect_of dialect.entry) false (is_utf8 line.now) line.now (parsed_of result) }
{
    match str::from_utf8(line) {
        Ok(line) => parsed_behind(alloc, dialect, line, 0),
        Err(_) => Parsed::Refused(Refusal::BadLine, 0),
    }
}

// What a query line asks.
fn parsed_in_line(alloc: Global, line: &[u8]) -> Parsed
    ensures { (parsed_of result ≡ refused Refusal.NoMemory 0) ⊎ LineAsks line.now (parsed_of result) }
{
    line_parsed(alloc, Dialect::plain(), line)
}

// What a query line asks, by the dialect that a caller gives.
fn parsed_in_line_as(alloc: Global, how: &Reading<'_>, line: &[u8]) -> Parsed
    ensures { (parsed_of result ≡ refused Refusal.NoMemory 0) ⊎ LineAsksAs how.now line.now (parsed_of result) }
{
    match read_dialect(how) {
        Some(dialect) => line_parsed(alloc, dialect, line),
        None => Parsed::Refused(Refusal::BadReading, 0),
    }
}

// What a query text asks of which k matches are wanted, by a dialect.
fn text_parsed(alloc: Global, dialect: Dialect<'_>, k: u32, text: &[u8]) -> Parsed
    ensures { (parsed_of result ≡ refused Refusal.NoMemory 0) ⊎ TextAsksBy (dialect_of dialect.entry) k text.now (parsed_of result) }
{
    match str::from_utf8(text) {
        Ok(text) => parsed_of_text(alloc, dialect, k, text),
        Err(_) => Parsed::Refused(Refusal::BadText, 0),
    }
}

// What a query text asks of which k matches are wanted, by a dialect.
fn parsed_of_text(alloc: Global, dialect: Dialect<'_>, k: u32, text: &str) -> Parsed
    ensures { (parsed_of result ≡ refused Refusal.NoMemory 0)
        ⊎ ReadsBy (dialect_of dialect.entry) (length (line_front k)) (line_front k ++ text.now) (parsed_of result) }
{
    let Ok(mut line) = line_front(alloc, k) else {
        return Parsed::Refused(Refusal::NoMemory, 0);
    };
    let front = line.len();
    if line.push_str(text).is_err() {
        return Parsed::Refused(Refusal::NoMemory, 0);
    }
    parsed_behind(alloc, dialect, line.as_str(), front as u64)
}

// What a query text asks of which k matches are wanted.
fn parsed_in_text(alloc: Global, k: u32, text: &[u8]) -> Parsed
    ensures { (parsed_of result ≡ refused Refusal.NoMemory 0) ⊎ TextAsks k text.now (parsed_of result) }
{
    text_parsed(alloc, Dialect::plain(), k, text)
}

// What a query text asks of which k matches are wanted, by the dialect that a caller gives.
pub(crate) fn parsed_in_text_as(alloc: Global, how: &Reading<'_>, k: u32, text: &[u8]) -> Parsed
    ensures { (parsed_of result ≡ refused Refusal.NoMemory 0) ⊎ TextAsksAs how.now k text.now (parsed_of result) }
{
    match read_dialect(how) {
        Some(dialect) => text_parsed(alloc, dialect, k, text),
        None => Parsed::Refused(Refusal::BadReading, 0),
    }
}

// The question of what was read.
fn question_of(alloc: Global, parsed: Parsed) -> Question
    ensures { (asked_of result ≡ refused Refusal.NoMemory 0) ⊎ (asked_of result ≡ parsed_of parsed) }
{
    match parsed {
        Parsed::Asks(wanted) => match Frame::new(alloc, wanted.query, wanted.k) {
            Ok(frame) => Question::Asks(frame),
            Err(NoMemory) => Question::Refused(Refusal::NoMemory, 0),
        },
        Parsed::Refused(refusal, column) => Question::Refused(refusal, column),
    }
}

// The question of a query line.
pub(crate) fn question_in_line(alloc: Global, line: &[u8]) -> Question
    ensures { (asked_of result ≡ refused Refusal.NoMemory 0) ⊎ LineAsks line.now (asked_of result) }
{
    question_of(alloc, parsed_in_line(alloc, line))
}

// The question of a query line, by the dialect that a caller gives.
pub(crate) fn question_in_line_as(alloc: Global, how: &Reading<'_>, line: &[u8]) -> Question
    ensures { (asked_of result ≡ refused Refusal.NoMemory 0) ⊎ LineAsksAs how.now line.now (asked_of result) }
{
    question_of(alloc, parsed_in_line_as(alloc, how, line))
}

// The question of a query text of which k matches are wanted.
pub(crate) fn question_in_text(alloc: Global, k: u32, text: &[u8]) -> Question
    ensures { (asked_of result ≡ refused Refusal.NoMemory 0) ⊎ TextAsks k text.now (asked_of result) }
{
    question_of(alloc, parsed_in_text(alloc, k, text))
}

// The question of a query text of which k matches are wanted, by the dialect that a caller gives.
pub(crate) fn question_in_text_as(alloc: Global, how: &Reading<'_>, k: u32, text: &[u8]) -> Question
    ensures { (asked_of result ≡ refused Refusal.NoMemory 0) ⊎ TextAsksAs how.now k text.now (asked_of result) }
{
    question_of(alloc, parsed_in_text_as(alloc, how, k, text))
}

// What comes before the query text in the line that asks for k matches of it.
fn line_front(alloc: Global, k: u32) -> Result<String, NoMemory>
    ensures { IfOk result (λ line. string_bytes line ≡ line_front k) }
{
    let mut line = String::new(alloc);
    write!(line, "?{k} ")?;
    Ok(line)
}

// What a line asks that begins with a question mark, the columns counted after this many bytes.
fn parsed_behind(alloc: Global, dialect: Dialect<'_>, line: &str, front: u64) -> Parsed
    requires { slice_get line.now 0 ≡ Some 63 }
    ensures { (parsed_of result ≡ refused Refusal.NoMemory 0) ⊎ ReadsBy (dialect_of dialect.entry) front line.now (parsed_of result) }
{
    match read_query_with(alloc, dialect, line) {
        Ok((k, query)) => Parsed::Asks(Wanted { k, query }),
        Err(QueryFault::BadNumber) => Parsed::Refused(Refusal::BadNumber, 0),
        Err(QueryFault::BadQuery { column }) => {
            Parsed::Refused(Refusal::BadQuery, column.saturating_sub(front))
        }
        Err(QueryFault::TooDeep) => Parsed::Refused(Refusal::QueryTooDeep, 0),
        Err(QueryFault::TooManyNodes) => Parsed::Refused(Refusal::QueryTooLarge, 0),
        Err(QueryFault::NoMemory) => Parsed::Refused(Refusal::NoMemory, 0),
    }
}
