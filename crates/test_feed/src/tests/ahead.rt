//! Indexes that are opened ahead, and converters that go along with them.
ghost use Rattle.std.specs.Prelude.{◌≡◌, IfOk};

use super::made::{documents, frame, own_search, word};
use eb_base::{Config, Document, OpenGate};
use eb_convert::Converted;
use feed_shared::{FeedConverter, FeedWriter, Spare};
use std::alloc::Global;
use std::process::Abort;
use std::test::Fail;

// A feed of three generations.
fn opened(alloc: Global, config: Config) -> Result<FeedWriter, Fail>
    ensures { IfOk result (λ w. w.setting ≡ config) }
{
    match FeedWriter::open(alloc, config, 3) {
        Ok(feed) => Ok(feed),
        Err(_) => Err(Fail::new("no memory")),
    }
}

// The converter of the newest generation.
fn converter_of(feed: &mut FeedWriter) -> Result<FeedConverter, Fail>
    ensures { feed.new ≡ feed.old }
{
    match feed.converter() {
        Some(converter) => Ok(converter),
        None => Err(Fail::new("no converter")),
    }
}

// The converter of the first generation, which is given out once, and has nothing to convert yet.
fn first_of(rt: &impl Abort, feed: &mut FeedWriter) -> Result<FeedConverter, Fail>
    ensures { feed.new ≡ feed.old }
{
    let mut first = converter_of(feed)?;
    assert!(rt; feed.converter().is_none());
    assert_eq!(rt; first.convert(), Converted::Nothing);
    Ok(first)
}

// An index that is opened ahead.
fn spare(alloc: Global, config: Config) -> Result<Spare, Fail>
    ensures { IfOk result (λ s. s.setting ≡ config) }
{
    match Spare::open(alloc, config) {
        Ok(spare) => Ok(spare),
        Err(_) => Err(Fail::new("no memory")),
    }
}

// Adds a document.
fn add(feed: &mut FeedWriter, document: &Document) -> Result<(), Fail>
    ensures { feed.new.setting ≡ feed.old.setting }
{
    match feed.add(document, &OpenGate) {
        Ok(_) => Ok(()),
        Err(_) => Err(Fail::new("no memory")),
    }
}

// Lends an index, and adds a document. Whether the feed had none for the next generation.
fn add_ahead(
    alloc: Global,
    feed: &mut FeedWriter,
    document: &Document,
    config: Config,
) -> Result<bool, Fail>
    requires { feed.old.setting ≡ config }
    ensures { feed.new.setting ≡ feed.old.setting }
{
    let spare = spare(alloc, config)?;
    let back = feed.lend(spare);
    add(feed, document)?;
    Ok(back.is_none())
}

// Lends an index before each of the documents, and returns how often the feed had none.
fn add_all_ahead(
    alloc: Global,
    feed: &mut FeedWriter,
    documents: &[Document],
    config: Config,
) -> Result<u64, Fail>
    requires { feed.old.setting ≡ config }
{
    let mut lacked = 0u64;
    for document in documents {
        if add_ahead(alloc, feed, document, config)? {
            lacked = lacked.saturating_add(1);
        }
    }
    Ok(lacked)
}

// A generation of two segments of two documents: the first segment is converted once the third
// document is there, also where the generation is closed; the second one never is.
fn converts(rt: &impl Abort, converter: &mut FeedConverter) {
    assert_eq!(rt; converter.convert(), Converted::One(0));
    assert_eq!(rt; converter.convert(), Converted::Nothing);
    assert_eq!(rt; converter.converted(), 1);
}

// The third generation has one document, so there is nothing to convert.
fn third_converts_nothing(rt: &impl Abort, feed: &mut FeedWriter) -> Result<(), Fail> {
    let mut third = converter_of(feed)?;
    assert_eq!(rt; third.convert(), Converted::Nothing);
    Ok(())
}

// The writer finds all.
fn finds_all(rt: &impl Abort, alloc: Global, feed: &mut FeedWriter) -> Result<(), Fail> {
    let mut frame = frame(alloc, word(alloc, b"d")?)?;
    assert_eq!(rt; own_search(feed, &mut frame), 9);
    assert_eq!(rt; frame.ids(), [9, 8, 7, 6, 5, 4, 3, 2, 1].as_slice());
    Ok(())
}

// Nine documents are added to the first generation and to two others.
fn fill(
    rt: &impl Abort,
    alloc: Global,
    feed: &mut FeedWriter,
    config: Config,
) -> Result<FeedConverter, Fail>
    requires { feed.old.setting ≡ config }
{
    let documents = documents(alloc, 9)?;
    let first = first_of(rt, feed)?;
    // before the first document, and before the one after a turn to the second generation
    assert_eq!(rt;
        add_all_ahead(alloc, feed, documents.as_slice(), config)?,
        2
    );
    Ok(first)
}

#[test]
fn generations_are_opened_ahead_and_converted(rt: HostRuntime) -> Result<(), Fail> {
    let config = Config::new(2, 2, 1024)?;
    let mut feed = opened(rt.alloc(), config)?;
    let mut first = fill(&rt, rt.alloc(), &mut feed, config)?;
    converts(&rt, &mut first);
    third_converts_nothing(&rt, &mut feed)?;
    finds_all(&rt, rt.alloc(), &mut feed)
}
