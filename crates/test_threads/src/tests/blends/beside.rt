//! One writer adds documents to four parts through rollovers, while a converter converts the closed
//! segments and two readers search. Each answer is what the definition makes of the lengths that
//! the search names: of each part the plain scan over that many of its first documents, and of what
//! these found the greatest ids. No part's length gets less for a reader, and a search that begins
//! after the last add is over all documents.
ghost use Rattle.std.specs.Prelude.{◌≡◌, length, IfOk};
ghost use Rattle.eb_base.specs.Query.{tree};
ghost use Rattle.eb_blend.specs.Frames.{Asks};

use super::super::heard::Heard;
use super::made::{c_without_d, document, searched, word};
use eb_base::{Config, Document, OpenGate, Query};
use eb_blend::{Blend, BlendConverter, BlendFrame, BlendReader, BlendWriter};
use eb_plain::newest;
use std::alloc::Global;
use std::sync::atomic::{AtomicU64, Ordering};
use std::test::Fail;
use std::thread;
use std::thread::Threads;

// The documents in the order in which they are added, and the same by their parts.
#[derive(Drop)]
struct Documents {
    all: Vec<Document>,
    parts: Vec<Vec<Document>>,
}

// A reader, what it asks, and a frame for it.
#[derive(Drop)]
struct Asker {
    reader: BlendReader,
    query: Query,
    frame: BlendFrame,
}

// What a reader saw: whether each answer was right, the lengths that its last search named, how
// many searches it made, and how many different sums of lengths these had.
#[derive(Clone, Copy, Debug)]
struct Seen {
    right: bool,
    lengths: [u64; 4],
    searches: u64,
    sums: u64,
}

// Whether there is no document of this id: the parts 0 to 3 then have 400, 360, 390 and 350 of the
// ids below 1,600.
fn is_left_out(id: u64) -> bool {
    id % 40 == 1 || id % 160 == 2 || id % 32 == 3
}

// The documents of a part, whose ids leave it as the rest by 4.
fn part_of(alloc: Global, part: u64) -> Result<Vec<Document>, Fail> {
    let mut documents = Vec::new(alloc);
    for id in 0..1600u64 {
        if id % 4 == part && !is_left_out(id) {
            documents.push(document(alloc, id)?)?;
        }
    }
    Ok(documents)
}

fn made_documents(alloc: Global) -> Result<Documents, Fail> {
    let mut all = Vec::new(alloc);
    for id in 0..1600u64 {
        if !is_left_out(id) {
            all.push(document(alloc, id)?)?;
        }
    }
    let mut parts = Vec::new(alloc);
    for part in 0..4u64 {
        parts.push(part_of(alloc, part)?)?;
    }
    Ok(Documents { all, parts })
}

// A reader of the writer, which asks this.
fn asker_of(
    alloc: Global,
    blend: &Blend,
    writer: &mut BlendWriter,
    query: Query,
) -> Result<Asker, Fail>
    requires made { writer.old.indexes ≡ blend.now.indexes }
    requires parts { length blend.now.indexes ≡ 4 }
    ensures writer { writer.new.indexes ≡ writer.old.indexes }
    ensures reader { IfOk result (λ asker. asker.reader.indexes ≡ blend.now.indexes) }
    ensures asks { IfOk result (λ asker. Asks asker.frame (tree asker.query) 10 (length blend.now.indexes)) }
{
    if !query.is_well_formed() {
        return Err(Fail::new("no such query"));
    }
    let frame = BlendFrame::new(alloc, &query, 10, 4)?;
    let reader = writer.reader(alloc, blend)?;
    Ok(Asker {
        reader,
        query,
        frame,
    })
}

// What the definition answers over this many of the first documents of each part; none where a part
// hasn't as many.
fn blended(
    alloc: Global,
    query: &Query,
    parts: &[Vec<Document>],
    lengths: &[u64],
) -> Option<Vec<u64>> {
    let mut ids = Vec::new(alloc);
    for (part, length) in parts.iter().zip(lengths) {
        let first = part.as_slice().get(..*length as usize)?;
        let found = newest(alloc, query, 10, first).ok()?;
        ids.extend_from_slice(found.as_slice()).ok()?;
    }
    ids.sort_unstable();
    ids.reverse();
    ids.truncate(10);
    Some(ids)
}

// Whether the frame holds what the definition answers over the lengths that it names.
fn is_blended(alloc: Global, query: &Query, parts: &[Vec<Document>], frame: &BlendFrame) -> bool {
    match blended(alloc, query, parts, frame.lengths()) {
        Some(ids) => ids.as_slice() == frame.ids(),
        None => false,
    }
}

// What is seen with one search more, which gave this count. Wrong where the count isn't the sum of
// the lengths that the frame names, and where one of these is less than before.
fn with_search(seen: Seen, frame: &BlendFrame, count: u64) -> Seen {
    let [first, second, third, fourth] = frame.lengths() else {
        return Seen {
            right: false,
            ..seen
        };
    };
    let lengths = [*first, *second, *third, *fourth];
    let is_new = seen.searches == 0 || sum(&seen.lengths) != count;
    Seen {
        right: sum(&lengths) == count && !has_fewer(&lengths, &seen.lengths),
        lengths,
        searches: seen.searches.saturating_add(1),
        sums: seen.sums.saturating_add(u64::from(is_new)),
    }
}

fn sum(lengths: &[u64]) -> u64 {
    let mut sum = 0u64;
    for length in lengths {
        sum = sum.saturating_add(*length);
    }
    sum
}

// Whether a part has fewer than before.
fn has_fewer(lengths: &[u64], before: &[u64]) -> bool {
    lengths
        .iter()
        .zip(before)
        .any(|(length, before)| length < before)
}

// Searches until an answer is wrong, or a search that began after the last add is done.
fn search_beside(
    alloc: Global,
    blend: &Blend,
    asker: Asker,
    documents: &Documents,
    done: &AtomicU64,
) -> Seen
    requires made { asker.reader.indexes ≡ blend.now.indexes }
    requires asks { Asks asker.frame (tree asker.query) 10 (length blend.now.indexes) }
{
    let Asker {
        mut reader,
        query,
        mut frame,
    } = asker;
    let mut seen = Seen {
        right: false,
        lengths: [0; 4],
        searches: 0,
        sums: 0,
    };
    let gate = Heard::new();
    for _ in 0..u64::MAX {
        let is_last = done.load(Ordering::SeqCst) > 0;
        let count = searched(&mut reader, blend, &mut frame, &gate);
        seen = with_search(seen, &frame, count);
        seen.right = seen.right && is_blended(alloc, &query, documents.parts.as_slice(), &frame);
        if is_last || !seen.right {
            return seen;
        }
    }
    seen
}

// Adds all documents, and returns the last count and the number of segments.
fn add_beside(
    blend: &Blend,
    writer: BlendWriter,
    documents: &Documents,
    done: &AtomicU64,
) -> (u64, u32)
    requires { writer.indexes ≡ blend.now.indexes }
{
    let mut writer = writer;
    let mut last = 0;
    for document in &documents.all {
        if let Ok(count) = writer.add(blend, document, &OpenGate) {
            last = count;
        }
        thread::yield_now();
    }
    done.store(1, Ordering::SeqCst);
    (last, writer.segments())
}

// Converts until a round that began after the last add is done, and returns how many segments are
// converted.
fn convert_beside(blend: &Blend, converter: BlendConverter, done: &AtomicU64) -> u32
    requires { converter.indexes ≡ blend.now.indexes }
{
    let mut converter = converter;
    let gate = Heard::new();
    for _ in 0..u64::MAX {
        let is_last = done.load(Ordering::SeqCst) > 0;
        converter.convert_all(blend);
        if is_last {
            return converter.converted();
        }
        thread::yield_now();
    }
    converter.converted()
}

// A writer and a reader.
fn write_and_search<R: Threads + Sync>(
    rt: &R,
    alloc: Global,
    blend: &Blend,
    writer: BlendWriter,
    asker: Asker,
    documents: &Documents,
    done: &AtomicU64,
) -> ((u64, u32), Seen)
    requires writer { writer.indexes ≡ blend.now.indexes }
    requires reader { asker.reader.indexes ≡ blend.now.indexes }
    requires asks { Asks asker.frame (tree asker.query) 10 (length blend.now.indexes) }
{
    thread::join(
        rt,
        move || -> (u64, u32)
            requires { writer.indexes ≡ blend.now.indexes }
        { add_beside(blend, writer, documents, done) },
        move || -> Seen
            requires { (asker.reader.indexes ≡ blend.now.indexes)
                × Asks asker.frame (tree asker.query) 10 (length blend.now.indexes) }
        { search_beside(alloc, blend, asker, documents, done) },
    )
}

// A converter and a reader.
fn convert_and_search<R: Threads + Sync>(
    rt: &R,
    alloc: Global,
    blend: &Blend,
    converter: BlendConverter,
    asker: Asker,
    documents: &Documents,
    done: &AtomicU64,
) -> (u32, Seen)
    requires converter { converter.indexes ≡ blend.now.indexes }
    requires reader { asker.reader.indexes ≡ blend.now.indexes }
    requires asks { Asks asker.frame (tree asker.query) 10 (length blend.now.indexes) }
{
    thread::join(
        rt,
        move || -> u32
            requires { converter.indexes ≡ blend.now.indexes }
        { convert_beside(blend, converter, done) },
        move || -> Seen
            requires { (asker.reader.indexes ≡ blend.now.indexes)
                × Asks asker.frame (tree asker.query) 10 (length blend.now.indexes) }
        { search_beside(alloc, blend, asker, documents, done) },
    )
}

// A writer, a converter and two readers, each on a thread of its own.
fn all_beside<R: Threads + Sync>(
    rt: &R,
    alloc: Global,
    blend: &Blend,
    writer: BlendWriter,
    converter: BlendConverter,
    askers: (Asker, Asker),
    documents: &Documents,
) -> (((u64, u32), Seen), (u32, Seen))
    requires writer { writer.indexes ≡ blend.now.indexes }
    requires converter { converter.indexes ≡ blend.now.indexes }
    requires first { askers.0.reader.indexes ≡ blend.now.indexes }
    requires first_asks { Asks askers.0.frame (tree askers.0.query) 10 (length blend.now.indexes) }
    requires second { askers.1.reader.indexes ≡ blend.now.indexes }
    requires second_asks { Asks askers.1.frame (tree askers.1.query) 10 (length blend.now.indexes) }
{
    let (first, second) = askers;
    let done = &AtomicU64::new(0);
    thread::join(
        rt,
        move || -> ((u64, u32), Seen)
            requires { (writer.indexes ≡ blend.now.indexes) × (first.reader.indexes ≡ blend.now.indexes)
                × Asks first.frame (tree first.query) 10 (length blend.now.indexes) }
        { write_and_search(rt, alloc, blend, writer, first, documents, done) },
        move || -> (u32, Seen)
            requires { (converter.indexes ≡ blend.now.indexes) × (second.reader.indexes ≡ blend.now.indexes)
                × Asks second.frame (tree second.query) 10 (length blend.now.indexes) }
        { convert_and_search(rt, alloc, blend, converter, second, documents, done) },
    )
}

// Whether what a reader saw was right, and over all documents in the end.
fn is_right(seen: Seen) -> bool {
    seen.right && seen.searches > 0 && seen.lengths == [400, 360, 390, 350]
}

#[test]
fn readers_search_beside_the_writer_of_a_blend(rt: HostRuntime) -> Result<(), Fail> {
    let alloc = rt.alloc();
    let documents = made_documents(alloc)?;
    assert_eq!(rt; documents.all.len(), 1500);
    let (blend, mut writer, converter) = Blend::open(alloc, 4, Config::new(4, 100, 1024)?)?;
    let all = asker_of(alloc, &blend, &mut writer, word(alloc, b"a")?)?;
    let some = asker_of(alloc, &blend, &mut writer, c_without_d(alloc)?)?;
    let ((added, first), (converted, second)) = all_beside(
        &rt,
        alloc,
        &blend,
        writer,
        converter,
        (all, some),
        &documents,
    );
    assert_eq!(rt; (added, converted), ((1500, 16), 12));
    assert!(rt; is_right(first) && is_right(second), "{first:?} {second:?}");
    Ok(())
}
