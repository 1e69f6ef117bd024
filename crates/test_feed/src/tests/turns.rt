//! Turns at each boundary of a segment and of a generation: after each document a reader that is
//! made then, one that is made at first and meets another, and the writer answer what the plain
//! scan finds in the generations that they hold.
ghost use Rattle.std.specs.Prelude.{◌≡◌};

use super::made::{
    Question, add, documents, first_held, is_scanned, own_search, question_of, renewed, searched,
};
use eb_base::{Config, Document, OpenGate};
use feed_shared::{FeedReader, FeedWriter};
use std::alloc::Global;
use std::process::Abort;
use std::test::Fail;

// Whether a search by the reader is right, where each generation takes this many documents.
fn is_right(
    alloc: Global,
    reader: &mut FeedReader,
    question: &mut Question,
    documents: &[Document],
    size: u64,
) -> bool
    ensures { reader.new.book ≡ reader.old.book }
{
    let count = searched(reader, &mut question.frame, &OpenGate);
    let from = first_held(reader.turns(), reader.held(), size);
    is_scanned(
        alloc,
        &question.query,
        documents,
        from,
        count,
        question.frame.ids(),
    )
}

// Whether that of a reader is right that is made now.
fn is_fresh_right(
    alloc: Global,
    feed: &mut FeedWriter,
    question: &mut Question,
    documents: &[Document],
    size: u64,
) -> Result<bool, Fail>
    ensures { feed.new ≡ feed.old }
{
    let mut fresh = renewed(feed)?;
    Ok(is_right(alloc, &mut fresh, question, documents, size))
}

// Whether the search of a reader is right that was made earlier and gets the news now.
fn is_told_right(
    alloc: Global,
    feed: &mut FeedWriter,
    reader: &mut FeedReader,
    question: &mut Question,
    documents: &[Document],
    size: u64,
) -> Result<bool, Fail>
    requires { reader.old.book ≡ feed.old.feed.book }
    ensures { (feed.new ≡ feed.old) × (reader.new.book ≡ reader.old.book) }
{
    let fresh = renewed(feed)?;
    let met = reader.meet(fresh);
    let right = is_right(alloc, reader, question, documents, size);
    Ok(met && right)
}

// Whether that of the writer is right, which keeps three generations.
fn is_own_right(
    alloc: Global,
    feed: &mut FeedWriter,
    question: &mut Question,
    documents: &[Document],
    size: u64,
) -> bool
    ensures { feed.new ≡ feed.old }
{
    let count = own_search(feed, &mut question.frame);
    let from = first_held(feed.turns(), 3, size);
    is_scanned(
        alloc,
        &question.query,
        documents,
        from,
        count,
        question.frame.ids(),
    )
}

// Adds all documents, and asks a new reader after each.
fn all_fresh_right(
    alloc: Global,
    feed: &mut FeedWriter,
    question: &mut Question,
    documents: &[Document],
    size: u64,
) -> Result<bool, Fail> {
    for document in documents {
        add(feed, document)?;
        if !is_fresh_right(alloc, feed, question, documents, size)? {
            return Ok(false);
        }
    }
    Ok(true)
}

// Adds all documents, and asks a reader that gets the news after each.
fn all_told_right(
    alloc: Global,
    feed: &mut FeedWriter,
    reader: &mut FeedReader,
    question: &mut Question,
    documents: &[Document],
    size: u64,
) -> Result<bool, Fail>
    requires { reader.old.book ≡ feed.old.feed.book }
{
    for document in documents {
        add(feed, document)?;
        if !is_told_right(alloc, feed, reader, question, documents, size)? {
            return Ok(false);
        }
    }
    Ok(true)
}

// Adds all documents, and asks the writer after each.
fn all_own_right(
    alloc: Global,
    feed: &mut FeedWriter,
    question: &mut Question,
    documents: &[Document],
    size: u64,
) -> Result<bool, Fail> {
    for document in documents {
        add(feed, document)?;
        if !is_own_right(alloc, feed, question, documents, size) {
            return Ok(false);
        }
    }
    Ok(true)
}

// A feed of three generations.
fn opened(alloc: Global, segments: u32, docs: u32) -> Result<FeedWriter, Fail> {
    match FeedWriter::open(alloc, Config::new(segments, docs, 1024)?, 3) {
        Ok(feed) => Ok(feed),
        Err(_) => Err(Fail::new("no memory")),
    }
}

// Asserts that this many documents and turns were counted.
fn counts(rt: &impl Abort, feed: &FeedWriter, turns: u64) {
    assert_eq!(rt; (feed.accepted(), feed.turns()), (26, turns));
}

#[test]
fn new_readers_at_each_boundary(rt: HostRuntime) -> Result<(), Fail> {
    let documents = documents(rt.alloc(), 26)?;
    let mut question = question_of(rt.alloc(), 1)?;
    let mut feed = opened(rt.alloc(), 2, 2)?;
    assert!(rt;
        all_fresh_right(
            rt.alloc(),
            &mut feed,
            &mut question,
            documents.as_slice(),
            4
        )?
    );
    counts(&rt, &feed, 7);
    Ok(())
}

#[test]
fn told_readers_at_each_boundary(rt: HostRuntime) -> Result<(), Fail> {
    let documents = documents(rt.alloc(), 26)?;
    let mut question = question_of(rt.alloc(), 0)?;
    let mut feed = opened(rt.alloc(), 1, 3)?;
    let mut reader = renewed(&mut feed)?;
    assert!(rt;
        all_told_right(
            rt.alloc(),
            &mut feed,
            &mut reader,
            &mut question,
            documents.as_slice(),
            3
        )?
    );
    counts(&rt, &feed, 9);
    Ok(())
}

#[test]
fn the_writer_at_each_boundary(rt: HostRuntime) -> Result<(), Fail> {
    let documents = documents(rt.alloc(), 26)?;
    let mut question = question_of(rt.alloc(), 1)?;
    let mut feed = opened(rt.alloc(), 3, 1)?;
    assert!(rt;
        all_own_right(
            rt.alloc(),
            &mut feed,
            &mut question,
            documents.as_slice(),
            3
        )?
    );
    counts(&rt, &feed, 9);
    Ok(())
}
