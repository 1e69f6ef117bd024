//! A search that is held after the load of its count, while the writer adds a document on a second
//! thread and the converter converts on a third; and an index that fills up and is converted
//! meanwhile.
ghost use Rattle.std.specs.Prelude.{◌≡◌, IfOk};
ghost use mathlib.Core.List.{IsPrefix};

use super::made::{added, document, frame, searched, word};
use eb_base::{Config, Document, Gate, OpenGate, Point};
use eb_convert::Converted;
use eb_cursor::Frame;
use eb_engine::{Converter, Index, Reader, Writer};
use std::alloc::Global;
use std::process::Abort;
use std::sync::atomic::{AtomicU64, Ordering};
use std::test::Fail;
use std::thread;
use std::thread::Threads;

// Goes on when the flag is up.
fn wait_for(flag: &AtomicU64) {
    for _ in 0..u64::MAX {
        if flag.load(Ordering::SeqCst) > 0 {
            return;
        }
        thread::yield_now();
    }
}

// A gate that holds a search after the load of its count.
#[derive(Drop)]
struct Hold<'a> {
    loaded: &'a AtomicU64,
    go: &'a AtomicU64,
}

impl<'a> Gate for Hold<'a> {
    fn reached(&self, point: Point) {
        if let Point::CountLoaded(count) = point {
            self.loaded.store(count, Ordering::SeqCst);
            wait_for(self.go);
        }
    }
}

// A search that is held after the load of its count, until the flag is up.
fn held_search(
    index: &Index,
    reader: Reader,
    frame: Frame,
    loaded: &AtomicU64,
    go: &AtomicU64,
) -> (Reader, Frame, u64)
    requires { reader.index ≡ index.now }
    ensures index { result.0.index ≡ index.now }
    ensures known { IsPrefix reader.docs result.0.docs }
{
    let mut reader = reader;
    let mut frame = frame;
    let gate = Hold { loaded, go };
    let found = searched(&mut reader, index, &mut frame, &gate);
    (reader, frame, found)
}

// An add that waits for the first flag, and puts the second up.
fn late_add(
    index: &Index,
    writer: Writer,
    document: &Document,
    loaded: &AtomicU64,
    placed: &AtomicU64,
) -> (Writer, Option<u64>)
    requires { writer.index ≡ index.now }
    ensures { result.0.index ≡ index.now }
{
    let mut writer = writer;
    wait_for(loaded);
    let count = added(&mut writer, index, document);
    placed.store(1, Ordering::SeqCst);
    (writer, count)
}

// A conversion that waits for the first flag, and puts the second up.
fn late_convert(
    index: &Index,
    converter: Converter,
    placed: &AtomicU64,
    go: &AtomicU64,
) -> Converted
    requires { converter.index ≡ index.now }
{
    let mut converter = converter;
    wait_for(placed);
    let converted = converter.convert(index);
    go.store(1, Ordering::SeqCst);
    converted
}

// One thread adds a document when the first flag is up; the other then converts, and puts the
// second up.
fn add_and_convert<R: Threads + Sync>(
    rt: &R,
    index: &Index,
    writer: Writer,
    converter: Converter,
    document: &Document,
    loaded: &AtomicU64,
    go: &AtomicU64,
) -> ((Writer, Option<u64>), Converted)
    requires writer { writer.index ≡ index.now }
    requires converter { converter.index ≡ index.now }
    ensures { result.0.0.index ≡ index.now }
{
    let placed = &AtomicU64::new(0);
    thread::join(
        rt,
        move || -> (Writer, Option<u64>)
            requires { writer.index ≡ index.now }
            ensures { result.0.index ≡ index.entry.now }
        { late_add(index, writer, document, loaded, placed) },
        move || -> Converted
            requires { converter.index ≡ index.now }
        { late_convert(index, converter, placed, go) },
    )
}

// One thread searches, and is held after the load of its count; meanwhile another adds a document,
// and a third converts.
fn overlapping<R: Threads + Sync>(
    rt: &R,
    index: &Index,
    writer: Writer,
    converter: Converter,
    reader: Reader,
    frame: Frame,
    document: &Document,
) -> ((Reader, Frame, u64), ((Writer, Option<u64>), Converted))
    requires writer { writer.index ≡ index.now }
    requires converter { converter.index ≡ index.now }
    requires reader { reader.index ≡ index.now }
    ensures reader { result.0.0.index ≡ index.now }
    ensures known { IsPrefix reader.docs result.0.0.docs }
    ensures writer { result.1.0.0.index ≡ index.now }
{
    let loaded = &AtomicU64::new(0);
    let go = &AtomicU64::new(0);
    thread::join(
        rt,
        move || -> (Reader, Frame, u64)
            requires { reader.index ≡ index.now }
            ensures { (result.0.index ≡ index.entry.now) × IsPrefix reader.docs result.0.docs }
        { held_search(index, reader, frame, loaded, go) },
        move || -> ((Writer, Option<u64>), Converted)
            requires { (writer.index ≡ index.now) × (converter.index ≡ index.now) }
            ensures { result.0.0.index ≡ index.entry.now }
        { add_and_convert(rt, index, writer, converter, document, loaded, go) },
    )
}

// An index of two segments of two documents each.
fn opened(alloc: Global) -> Result<(Index, Writer, Converter), Fail>
    ensures { IfOk result (λ r. (r.1.index ≡ r.0) × (r.2.index ≡ r.0)) }
{
    Ok(Index::open(alloc, Config::new(2, 2, 1024)?)?)
}

// Adds the documents with ids 1 to 5, and converts once after the second and twice after the third:
// what the adds answer, and what the conversions do.
fn fill(
    alloc: Global,
    index: &Index,
    writer: &mut Writer,
    converter: &mut Converter,
) -> Result<(Vec<Option<u64>>, Vec<Converted>), Fail>
    requires writer { writer.old.index ≡ index.now }
    requires converter { converter.old.index ≡ index.now }
    ensures writer { writer.new.index ≡ writer.old.index }
    ensures converter { converter.new.index ≡ converter.old.index }
{
    let mut counts = Vec::new(alloc);
    let mut conversions = Vec::new(alloc);
    for (id, calls) in [(1, 0), (2, 1), (3, 2), (4, 0), (5, 0)] {
        let next = document(alloc, id)?;
        counts.push(added(writer, index, &next))?;
        for _ in 0..calls {
            conversions.push(converter.convert(index))?;
        }
    }
    Ok((counts, conversions))
}

// The converter and the writer learn what readers of the writer know: the length of the history
// then, the number of its segments, and that of the converted ones.
fn told(index: &Index, writer: Writer, converter: Converter) -> (u64, u32, u32)
    requires writer { writer.index ≡ index.now }
    requires converter { converter.index ≡ index.now }
{
    let mut writer = writer;
    let mut converter = converter;
    let mut reader = writer.reader(index);
    let other = reader.split(index);
    converter.meet(index, reader);
    writer.meet(index, other);
    writer.hear(index, &mut converter);
    (writer.accepted(), writer.segments(), converter.converted())
}

// The same index with the documents with ids 1 and 2.
fn with_two(alloc: Global) -> Result<(Index, Writer, Converter), Fail>
    ensures { IfOk result (λ r. (r.1.index ≡ r.0) × (r.2.index ≡ r.0)) }
{
    let (index, mut writer, converter) = opened(alloc)?;
    added(&mut writer, &index, &document(alloc, 1)?);
    added(&mut writer, &index, &document(alloc, 2)?);
    Ok((index, writer, converter))
}

// Asserts that a search by a reader is over this many documents, and finds these.
fn finds(rt: &impl Abort, reader: &mut Reader, index: &Index, frame: &mut Frame, ids: &[u64])
    requires { reader.old.index ≡ index.now }
    ensures { reader.new.index ≡ reader.old.index }
{
    let count = searched(reader, index, frame, &OpenGate);
    assert_eq!(rt; count, ids.len() as u64);
    assert_eq!(rt; frame.ids(), ids);
}

// Asserts that another reader, and one that learned of the third document, find it.
fn find_the_third(
    rt: &impl Abort,
    index: &Index,
    writer: &mut Writer,
    held: &mut Reader,
    other: &mut Reader,
    frame: &mut Frame,
)
    requires writer { writer.old.index ≡ index.now }
    requires held { held.old.index ≡ index.now }
    requires other { other.old.index ≡ index.now }
{
    assert_eq!(rt; (held.seen(), other.seen()), (2, 2));
    finds(rt, other, index, frame, &[3, 2, 1]);
    let told = writer.reader(index);
    held.meet(index, told);
    assert_eq!(rt; held.seen(), 3);
    finds(rt, held, index, frame, &[3, 2, 1]);
}

#[test]
fn a_search_answers_over_the_documents_of_its_count(rt: HostRuntime) -> Result<(), Fail> {
    let alloc = rt.alloc();
    let third = document(alloc, 3)?;
    let asked = frame(alloc, word(alloc, b"d")?)?;
    let (index, mut writer, converter) = with_two(alloc)?;
    let held = writer.reader(&index);
    let mut other = writer.reader(&index);
    let ((mut held, mut asked, found), ((mut writer, added), converted)) = overlapping(
        &rt, &index, writer, converter, held, asked, &third,
    );
    assert_eq!(rt; (added, converted), (Some(3), Converted::One(0)));
    assert_eq!(rt; (found, asked.ids()), (2, [2, 1].as_slice()));
    find_the_third(&rt, &index, &mut writer, &mut held, &mut other, &mut asked);
    Ok(())
}

// What the adds of an index that fills up answer.
const COUNTS: [Option<u64>; 5] = [Some(1), Some(2), Some(3), Some(4), None];

// What its conversions do.
const CONVERSIONS: [Converted; 3] = [Converted::Nothing, Converted::One(0), Converted::Nothing];

#[test]
fn an_index_fills_up(rt: HostRuntime) -> Result<(), Fail> {
    let alloc = rt.alloc();
    let (index, mut writer, mut converter) = opened(alloc)?;
    let (counts, conversions) = fill(alloc, &index, &mut writer, &mut converter)?;
    assert_eq!(rt; counts.as_slice(), COUNTS.as_slice());
    assert_eq!(rt; conversions.as_slice(), CONVERSIONS.as_slice());
    assert_eq!(rt; told(&index, writer, converter), (4, 2, 1));
    Ok(())
}
