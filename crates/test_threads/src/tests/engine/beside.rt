//! One writer adds documents through rollovers, while a converter converts the closed segments and
//! two readers search, by a query of each form. Each answer is that of the plain scan over the
//! first documents, as many as the search says, and these never get fewer for a reader.
ghost use Rattle.std.specs.Prelude.{◌≡◌};

use super::made::{Question, added, documents, is_scanned, question_of, searched};
use eb_base::{Config, Document, OpenGate};
use eb_engine::{Converter, Index, Reader, Writer};
use std::alloc::Global;
use std::test::Fail;
use std::thread;
use std::thread::Threads;

// A reader, and what it asks.
#[derive(Drop)]
struct Asker {
    reader: Reader,
    question: Question,
}

// Searches until all documents are seen: whether each answer was right, and none over fewer
// documents than before.
fn search_beside(alloc: Global, index: &Index, asker: Asker, documents: &[Document]) -> bool
    requires { asker.reader.index ≡ index.now }
{
    let Asker {
        mut reader,
        question,
    } = asker;
    let Question { query, mut frame } = question;
    let mut last = 0;
    for _ in 0..u64::MAX {
        let count = searched(&mut reader, index, &mut frame, &OpenGate);
        if count < last || !is_scanned(alloc, &query, documents, count, frame.ids()) {
            return false;
        }
        if count == documents.len() as u64 {
            return true;
        }
        last = count;
    }
    false
}

// Adds all documents, and returns the last count.
fn add_beside(index: &Index, writer: Writer, documents: &[Document]) -> u64
    requires { writer.index ≡ index.now }
{
    let mut writer = writer;
    let mut last = 0;
    for document in documents {
        if let Some(count) = added(&mut writer, index, document) {
            last = count;
        }
        thread::yield_now();
    }
    last
}

// Converts until this many segments are converted, and returns their number.
fn convert_beside(index: &Index, converter: Converter, most: u32) -> u32
    requires { converter.index ≡ index.now }
{
    let mut converter = converter;
    for _ in 0..u64::MAX {
        if converter.converted() >= most {
            return converter.converted();
        }
        converter.convert(index);
        thread::yield_now();
    }
    converter.converted()
}

// A writer and a reader.
fn write_and_search<R: Threads + Sync>(
    rt: &R,
    alloc: Global,
    index: &Index,
    writer: Writer,
    asker: Asker,
    documents: &[Document],
) -> (u64, bool)
    requires writer { writer.index ≡ index.now }
    requires reader { asker.reader.index ≡ index.now }
{
    thread::join(
        rt,
        move || -> u64
            requires { writer.index ≡ index.now }
        { add_beside(index, writer, documents) },
        move || -> bool
            requires { asker.reader.index ≡ index.now }
        { search_beside(alloc, index, asker, documents) },
    )
}

// A converter and a reader.
fn convert_and_search<R: Threads + Sync>(
    rt: &R,
    alloc: Global,
    index: &Index,
    converter: Converter,
    asker: Asker,
    documents: &[Document],
) -> (u32, bool)
    requires converter { converter.index ≡ index.now }
    requires reader { asker.reader.index ≡ index.now }
{
    thread::join(
        rt,
        move || -> u32
            requires { converter.index ≡ index.now }
        { convert_beside(index, converter, 3) },
        move || -> bool
            requires { asker.reader.index ≡ index.now }
        { search_beside(alloc, index, asker, documents) },
    )
}

// A writer, a converter and two readers, each on a thread of its own.
fn all_beside<R: Threads + Sync>(
    rt: &R,
    alloc: Global,
    index: &Index,
    writer: Writer,
    converter: Converter,
    askers: (Asker, Asker),
    documents: &[Document],
) -> ((u64, bool), (u32, bool))
    requires writer { writer.index ≡ index.now }
    requires converter { converter.index ≡ index.now }
    requires first { askers.0.reader.index ≡ index.now }
    requires second { askers.1.reader.index ≡ index.now }
{
    let (first, second) = askers;
    thread::join(
        rt,
        move || -> (u64, bool)
            requires { (writer.index ≡ index.now) × (first.reader.index ≡ index.now) }
        { write_and_search(rt, alloc, index, writer, first, documents) },
        move || -> (u32, bool)
            requires { (converter.index ≡ index.now) × (second.reader.index ≡ index.now) }
        { convert_and_search(rt, alloc, index, converter, second, documents) },
    )
}

#[test]
fn readers_search_beside_a_writer_and_a_converter(rt: HostRuntime) -> Result<(), Fail> {
    let alloc = rt.alloc();
    let documents = documents(alloc)?;
    for numbers in [(0, 1), (2, 3), (4, 5), (6, 0)] {
        let (index, mut writer, converter) = Index::open(alloc, Config::new(4, 100, 1024)?)?;
        let mut reader = writer.reader(&index);
        let other = reader.split(&index);
        let first = Asker {
            reader,
            question: question_of(alloc, numbers.0)?,
        };
        let second = Asker {
            reader: other,
            question: question_of(alloc, numbers.1)?,
        };
        let done = all_beside(
            &rt,
            alloc,
            &index,
            writer,
            converter,
            (first, second),
            documents.as_slice(),
        );
        assert_eq!(rt; done, ((390, true), (3, true)));
    }
    Ok(())
}
