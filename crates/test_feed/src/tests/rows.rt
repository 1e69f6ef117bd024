//! Rows of documents, each generation of two: which of them readers find that wake, and that sleep.
ghost use Rattle.std.specs.Prelude.{◌≡◌, IfOk};

use super::made::{add, counted, document, frame, own_search, renewed, searched, word};
use eb_base::{Config, OpenGate};
use eb_count::Tally;
use eb_cursor::Frame;
use feed_shared::{FeedReader, FeedWriter};
use std::alloc::Global;
use std::process::Abort;
use std::test::Fail;

fn add_id(alloc: Global, feed: &mut FeedWriter, id: u64) -> Result<(), Fail>
    ensures { feed.new.feed.book ≡ feed.old.feed.book }
{
    let next = document(alloc, id)?;
    add(feed, &next)?;
    Ok(())
}

// Adds documents with the ids from one to another.
fn add_ids(alloc: Global, feed: &mut FeedWriter, first: u64, last: u64) -> Result<(), Fail>
    ensures { feed.new.feed.book ≡ feed.old.feed.book }
{
    for before in first..last {
        add_id(alloc, feed, before)?;
    }
    add_id(alloc, feed, last)
}

// Asserts that a search finds these, over this many documents of the history.
fn finds(rt: &impl Abort, reader: &mut FeedReader, frame: &mut Frame, seen: u64, ids: &[u64])
    ensures { reader.new.book ≡ reader.old.book }
{
    let count = searched(reader, frame, &OpenGate);
    assert_eq!(rt; count, seen);
    assert_eq!(rt; frame.ids(), ids);
}

// Asserts that a count finds this many, and of the ids 4 and 5 these, over this many documents of
// the history.
fn counts(
    rt: &impl Abort,
    alloc: Global,
    reader: &mut FeedReader,
    frame: &mut Frame,
    seen: u64,
    total: u64,
    newest: [u64; 2],
) -> Result<(), Fail>
    ensures { reader.new.book ≡ reader.old.book }
{
    let mut tally = Tally::with_buckets(alloc, 4, 1, 2)?;
    let count = counted(reader, frame, &mut tally);
    assert_eq!(rt; (count, tally.total()), (seen, total));
    assert_eq!(rt; tally.buckets(), newest.as_slice());
    Ok(())
}

// A reader meets one that is made now; whether it knows all on that it knew is this.
fn meets(
    rt: &impl Abort,
    feed: &mut FeedWriter,
    reader: &mut FeedReader,
    whole: bool,
) -> Result<(), Fail>
    requires { reader.old.book ≡ feed.old.feed.book }
    ensures { (feed.new ≡ feed.old) × (reader.new.book ≡ reader.old.book) }
{
    let news = renewed(feed)?;
    assert_eq!(rt; reader.meet(news), whole);
    Ok(())
}

// A reader finds what is added to its newest generation.
fn learns(
    rt: &impl Abort,
    alloc: Global,
    feed: &mut FeedWriter,
    frame: &mut Frame,
) -> Result<FeedReader, Fail>
    ensures { IfOk result (λ r. r.book ≡ feed.new.feed.book) }
{
    add_id(alloc, feed, 1)?;
    let mut reader = renewed(feed)?;
    add_id(alloc, feed, 2)?;
    finds(rt, &mut reader, frame, 2, [2, 1].as_slice());
    Ok(reader)
}

// It learns of turns where it meets another one.
fn learns_of_turns(
    rt: &impl Abort,
    alloc: Global,
    feed: &mut FeedWriter,
    reader: &mut FeedReader,
    frame: &mut Frame,
) -> Result<(), Fail>
    requires { reader.old.book ≡ feed.old.feed.book }
    ensures { reader.new.book ≡ feed.new.feed.book }
{
    add_id(alloc, feed, 3)?;
    finds(rt, reader, frame, 2, [2, 1].as_slice());
    meets(rt, feed, reader, true)?;
    finds(rt, reader, frame, 3, [3, 2, 1].as_slice());
    Ok(())
}

// It forgets the oldest generation where it learns of a third one.
fn forgets(
    rt: &impl Abort,
    alloc: Global,
    feed: &mut FeedWriter,
    reader: FeedReader,
    frame: &mut Frame,
) -> Result<(), Fail>
    requires { reader.book ≡ feed.old.feed.book }
{
    let mut reader = reader;
    add_ids(alloc, feed, 4, 5)?;
    finds(rt, &mut reader, frame, 4, [4, 3, 2, 1].as_slice());
    counts(rt, alloc, &mut reader, frame, 4, 4, [1, 0])?;
    meets(rt, feed, &mut reader, true)?;
    finds(rt, &mut reader, frame, 5, [5, 4, 3].as_slice());
    counts(rt, alloc, &mut reader, frame, 5, 3, [1, 1])?;
    assert!(rt; feed.meet(reader));
    Ok(())
}

// A reader that slept through as many turns as generations are kept holds the newest ones
// afterwards.
fn sleeps(
    rt: &impl Abort,
    alloc: Global,
    feed: &mut FeedWriter,
    frame: &mut Frame,
) -> Result<(), Fail> {
    let mut reader = renewed(feed)?;
    add_ids(alloc, feed, 6, 9)?;
    finds(rt, &mut reader, frame, 6, [6, 5, 4, 3].as_slice());
    meets(rt, feed, &mut reader, false)?;
    finds(rt, &mut reader, frame, 9, [9, 8, 7].as_slice());
    assert!(rt; feed.meet(reader));
    Ok(())
}

// Another reader, which knows what this one knows.
fn split_of(alloc: Global, reader: &mut FeedReader) -> Result<FeedReader, Fail>
    ensures this { reader.new ≡ reader.old }
    ensures other { IfOk result (λ r. r ≡ reader.old) }
{
    match reader.split(alloc) {
        Ok(other) => Ok(other),
        Err(_) => Err(Fail::new("no memory")),
    }
}

// A reader that is split is another one, which learns for itself.
fn learns_alone(
    rt: &impl Abort,
    alloc: Global,
    feed: &mut FeedWriter,
    reader: &mut FeedReader,
    frame: &mut Frame,
) -> Result<FeedReader, Fail>
    requires { reader.old.book ≡ feed.old.feed.book }
    ensures same { reader.new.book ≡ feed.new.feed.book }
    ensures other { IfOk result (λ r. r.book ≡ feed.new.feed.book) }
{
    let mut other = split_of(alloc, reader)?;
    add_id(alloc, feed, 10)?;
    finds(rt, &mut other, frame, 10, [10, 9, 8, 7].as_slice());
    add_id(alloc, feed, 11)?;
    meets(rt, feed, &mut other, true)?;
    Ok(other)
}

// The older one of two can be met by the newer, which knows as much afterwards.
fn splits(
    rt: &impl Abort,
    alloc: Global,
    feed: &mut FeedWriter,
    frame: &mut Frame,
) -> Result<(), Fail> {
    let mut reader = renewed(feed)?;
    let mut other = learns_alone(rt, alloc, feed, &mut reader, frame)?;
    finds(rt, &mut other, frame, 11, [11, 10, 9].as_slice());
    assert!(rt; other.meet(reader));
    finds(rt, &mut other, frame, 11, [11, 10, 9].as_slice());
    assert_eq!(rt; (other.turns(), other.held()), (6, 2));
    Ok(())
}

// The writer finds all that it keeps.
fn writer_finds(rt: &impl Abort, feed: &mut FeedWriter, frame: &mut Frame) {
    let count = own_search(feed, frame);
    assert_eq!(rt; count, 11);
    assert_eq!(rt; frame.ids(), [11, 10, 9].as_slice());
    assert_eq!(rt; (feed.turns(), feed.accepted()), (6, 11));
}

// A reader that slept through twice as many turns as generations are kept finds what it holds,
// until it gets the news.
fn oversleeps(
    rt: &impl Abort,
    alloc: Global,
    feed: &mut FeedWriter,
    frame: &mut Frame,
) -> Result<(), Fail> {
    add_id(alloc, feed, 1)?;
    let mut reader = renewed(feed)?;
    add_ids(alloc, feed, 2, 9)?;
    finds(rt, &mut reader, frame, 2, [2, 1].as_slice());
    meets(rt, feed, &mut reader, false)?;
    finds(rt, &mut reader, frame, 9, [9, 8, 7].as_slice());
    assert_eq!(rt; (reader.turns(), reader.held()), (5, 2));
    Ok(())
}

// A writer meets a reader that slept for as long: it has dropped all that the reader knew.
fn is_lost(
    rt: &impl Abort,
    alloc: Global,
    feed: &mut FeedWriter,
    frame: &mut Frame,
) -> Result<(), Fail> {
    let mut reader = renewed(feed)?;
    add_ids(alloc, feed, 10, 13)?;
    finds(rt, &mut reader, frame, 10, [10, 9, 8, 7].as_slice());
    assert!(rt; !feed.meet(reader));
    Ok(())
}

// A feed of two generations of two documents each.
fn opened(alloc: Global) -> Result<FeedWriter, Fail> {
    match FeedWriter::open(alloc, Config::new(1, 2, 1024)?, 2) {
        Ok(feed) => Ok(feed),
        Err(_) => Err(Fail::new("no memory")),
    }
}

// A frame for the word of every document.
fn every(alloc: Global) -> Result<Frame, Fail> {
    frame(alloc, word(alloc, b"d")?)
}

fn learn(
    rt: &impl Abort,
    alloc: Global,
    feed: &mut FeedWriter,
    frame: &mut Frame,
) -> Result<(), Fail> {
    let mut reader = learns(rt, alloc, feed, frame)?;
    learns_of_turns(rt, alloc, feed, &mut reader, frame)?;
    forgets(rt, alloc, feed, reader, frame)
}

#[test]
fn readers_learn_sleep_and_split(rt: HostRuntime) -> Result<(), Fail> {
    let mut feed = opened(rt.alloc())?;
    let mut frame = every(rt.alloc())?;
    learn(&rt, rt.alloc(), &mut feed, &mut frame)?;
    sleeps(&rt, rt.alloc(), &mut feed, &mut frame)?;
    splits(&rt, rt.alloc(), &mut feed, &mut frame)?;
    writer_finds(&rt, &mut feed, &mut frame);
    Ok(())
}

#[test]
fn readers_oversleep(rt: HostRuntime) -> Result<(), Fail> {
    let mut feed = opened(rt.alloc())?;
    let mut frame = every(rt.alloc())?;
    oversleeps(&rt, rt.alloc(), &mut feed, &mut frame)?;
    is_lost(&rt, rt.alloc(), &mut feed, &mut frame)
}
