ghost use Rattle.std.specs.Prelude.{◌≡◌, Some, None, IfOk, OnErr, slice_get};
ghost use Rattle.eb_doc.specs.WithFields.{document_with};
ghost use Rattle.eb_fields.specs.Dialect.{dialect_of, uncounted_of};
ghost use Rattle.eb_io.specs.Lines.{line};
ghost use Rattle.eb_lines.specs.Kinds.{query_line};
ghost use Rattle.eb_lines.specs.Reads.{IsOfDocument, Reads, ReadsByKind};
ghost use Rattle.eb_lines.specs.Works.{document_reading, query_reading, reading_of, refusal_of};

use crate::kind::{LineKind, line_kind};
use crate::refusal::Refusal;
use eb_base::{Document, NoMemory};
use eb_cursor::Frame;
use eb_doc::{DocumentReader, LineFault};
use eb_fields::Dialect;
use eb_query::{QueryFault, read_query_with};
use std::alloc::Global;

/// What is to be done for a line.
#[derive(Drop)]
pub enum Work {
    /// The line is blank.
    Nothing,
    /// A document is to be added.
    Add(Document),
    /// A query is to be answered: the frame has room for all its ids.
    Answer(Frame),
    /// The line is refused.
    Refuse(Refusal),
}

/// The document of a document line by this dialect, or why the line is refused. Takes the memory of
/// its terms.
pub fn read_document_line(
    alloc: Global,
    dialect: Dialect<'_>,
    bytes: &[u8],
) -> Result<Result<Document, Refusal>, NoMemory>
    ensures { IfOk result (λ read. IsOfDocument (document_with (dialect_of dialect.entry) bytes.now) (document_reading read)) }
{
    let mut reader = DocumentReader::new(alloc);
    read_document_line_by(&mut reader, dialect, bytes)
}

/// The document of a document line, as [`read_document_line`] says, by a reader that is kept from
/// line to line.
pub fn read_document_line_by(
    reader: &mut DocumentReader,
    dialect: Dialect<'_>,
    bytes: &[u8],
) -> Result<Result<Document, Refusal>, NoMemory>
    ensures { IfOk result (λ read. IsOfDocument (document_with (dialect_of dialect.entry) bytes.now) (document_reading read)) }
{
    match reader.read_with(dialect, bytes) {
        Ok(document) => Ok(Ok(document)),
        Err(LineFault::BadJson) => Ok(Err(Refusal::BadJson)),
        Err(LineFault::BadDocument) => Ok(Err(Refusal::BadDocument)),
        Err(LineFault::TooLong) => Ok(Err(Refusal::TooLong)),
        Err(LineFault::NoMemory) => Err(NoMemory),
    }
}

/// The refusal of a line whose query has this fault; out of memory refuses no line.
pub fn query_refusal(fault: QueryFault) -> Result<Refusal, NoMemory>
    ensures ok { IfOk result (λ refusal. refusal_of fault ≡ Some refusal) }
    ensures err { OnErr result (refusal_of fault ≡ None) }
{
    match fault {
        QueryFault::BadNumber => Ok(Refusal::BadNumber),
        QueryFault::BadQuery { column } => Ok(Refusal::BadQuery(column)),
        QueryFault::TooDeep => Ok(Refusal::QueryTooDeep),
        QueryFault::TooManyNodes => Ok(Refusal::QueryTooLarge),
        QueryFault::NoMemory => Err(NoMemory),
    }
}

/// A frame for the query of a line that begins with `?`, by this dialect, or why the line is
/// refused. Takes the memory of a search, so that the search takes none.
pub fn read_query_text(
    alloc: Global,
    dialect: Dialect<'_>,
    text: &str,
) -> Result<Result<Frame, Refusal>, NoMemory>
    requires { slice_get text.now 0 ≡ Some 63 }
    ensures { IfOk result (λ read. ReadsByKind (uncounted_of dialect.entry) query_line text.now (query_reading read)) }
{
    match read_query_with(alloc, dialect, text) {
        Ok((k, query)) => Ok(Ok(Frame::new(alloc, query, k)?)),
        Err(fault) => Ok(Err(query_refusal(fault)?)),
    }
}

// The work of a document line.
fn document_work(alloc: Global, dialect: Dialect<'_>, bytes: &[u8]) -> Result<Work, NoMemory>
    ensures { IfOk result (λ work. IsOfDocument (document_with (dialect_of dialect.entry) bytes.now) (reading_of work)) }
{
    match read_document_line(alloc, dialect, bytes)? {
        Ok(document) => Ok(Work::Add(document)),
        Err(refusal) => Ok(Work::Refuse(refusal)),
    }
}

// The work of a query line that is UTF-8.
fn text_work(alloc: Global, dialect: Dialect<'_>, text: &str) -> Result<Work, NoMemory>
    requires { slice_get text.now 0 ≡ Some 63 }
    ensures { IfOk result (λ work. ReadsByKind (uncounted_of dialect.entry) query_line text.now (reading_of work)) }
{
    match read_query_text(alloc, dialect, text)? {
        Ok(frame) => Ok(Work::Answer(frame)),
        Err(refusal) => Ok(Work::Refuse(refusal)),
    }
}

/// The work of a line that isn't long by this dialect, where no line asks for a count: one that
/// begins with `#` is refused. Takes the memory that the work needs.
pub fn read_line(alloc: Global, dialect: Dialect<'_>, bytes: &[u8]) -> Result<Work, NoMemory>
    ensures { IfOk result (λ work. Reads (uncounted_of dialect.entry) (line bytes.now) (reading_of work)) }
{
    let dialect = dialect.uncounted();
    match line_kind(dialect, bytes) {
        LineKind::Blank => Ok(Work::Nothing),
        LineKind::Document => document_work(alloc, dialect, bytes),
        LineKind::Query(text) => text_work(alloc, dialect, text),
        LineKind::Bad => Ok(Work::Refuse(Refusal::BadLine)),
    }
}
