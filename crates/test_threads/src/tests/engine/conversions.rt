//! A query of each form over converted and unconverted segments of one index, before and after each
//! conversion: each answer is that of the plain scan.
ghost use Rattle.std.specs.Prelude.{◌≡◌};

use super::made::{Question, added, documents, is_scanned, question_of, searched};
use eb_base::{Config, Document, OpenGate};
use eb_engine::{Converter, Index, Reader, Writer};
use std::alloc::Global;
use std::process::Abort;
use std::test::Fail;

// Whether the answer to the query of a number is that of the plain scan over all documents.
fn is_answered(
    alloc: Global,
    index: &Index,
    reader: &mut Reader,
    documents: &[Document],
    number: u32,
) -> Result<bool, Fail>
    requires { reader.old.index ≡ index.now }
    ensures { reader.new.index ≡ index.now }
{
    let Question { query, mut frame } = question_of(alloc, number)?;
    let count = searched(reader, index, &mut frame, &OpenGate);
    Ok(count == documents.len() as u64 && is_scanned(alloc, &query, documents, count, frame.ids()))
}

// Whether the answer to each query is.
fn are_answered(
    alloc: Global,
    index: &Index,
    reader: &mut Reader,
    documents: &[Document],
) -> Result<bool, Fail>
    requires { reader.old.index ≡ index.now }
    ensures { reader.new.index ≡ index.now }
{
    for number in 0..7 {
        if !is_answered(alloc, index, reader, documents, number)? {
            return Ok(false);
        }
    }
    Ok(true)
}

// Adds the documents.
pub(super) fn add_all(index: &Index, writer: &mut Writer, documents: &[Document])
    requires { writer.old.index ≡ index.now }
    ensures { writer.new.index ≡ index.now }
{
    for document in documents {
        added(writer, index, document);
    }
}

// Looks at the answers before and after each conversion of three segments.
fn convert_all(
    rt: &impl Abort,
    alloc: Global,
    index: &Index,
    reader: &mut Reader,
    converter: &mut Converter,
    documents: &[Document],
) -> Result<(), Fail>
    requires reader { reader.old.index ≡ index.now }
    requires converter { converter.old.index ≡ index.now }
{
    for converted in 0..=3 {
        assert_eq!(rt; converter.converted(), converted);
        let are = are_answered(alloc, index, reader, documents)?;
        assert!(rt; are, "{converted}");
        converter.convert(index);
    }
    assert_eq!(rt; converter.converted(), 3);
    Ok(())
}

#[test]
fn conversions_change_no_answer(rt: HostRuntime) -> Result<(), Fail> {
    let alloc = rt.alloc();
    let documents = documents(alloc)?;
    let (index, mut writer, mut converter) = Index::open(alloc, Config::new(4, 100, 1024)?)?;
    add_all(&index, &mut writer, documents.as_slice());
    let mut reader = writer.reader(&index);
    convert_all(
        &rt,
        alloc,
        &index,
        &mut reader,
        &mut converter,
        documents.as_slice(),
    )
}
