//! Generations that a feed drops and gives out, so that whoever drops them gives their memory back.
ghost use Rattle.std.specs.Prelude.{◌≡◌, IfOk};

use super::made::{document, frame, own_search, renewed, searched, word};
use eb_base::{Config, OpenGate};
use eb_cursor::Frame;
use feed_shared::{FeedReader, FeedWriter, Released, Spare};
use std::alloc::Global;
use std::process::Abort;
use std::test::Fail;
use std::thread;
use std::thread::Threads;

// A feed of two generations of two documents each.
fn opened(alloc: Global, config: Config) -> Result<FeedWriter, Fail>
    ensures { IfOk result (λ w. w.setting ≡ config) }
{
    match FeedWriter::open(alloc, config, 2) {
        Ok(feed) => Ok(feed),
        Err(_) => Err(Fail::new("no memory")),
    }
}

// A frame for the word of every document.
fn every(alloc: Global) -> Result<Frame, Fail> {
    frame(alloc, word(alloc, b"d")?)
}

// Lends an index for the next generation.
fn lend(alloc: Global, feed: &mut FeedWriter, config: Config) -> Result<(), Fail>
    requires { feed.old.setting ≡ config }
    ensures { feed.new ≡ feed.old }
{
    match Spare::open(alloc, config) {
        Ok(spare) => {
            feed.lend(spare);
            Ok(())
        }
        Err(_) => Err(Fail::new("no memory")),
    }
}

// Adds a document.
fn add(alloc: Global, feed: &mut FeedWriter, id: u64) -> Result<(), Fail>
    ensures { feed.new.setting ≡ feed.old.setting }
{
    match feed.add(&document(alloc, id)?, &OpenGate) {
        Ok(_) => Ok(()),
        Err(_) => Err(Fail::new("no memory")),
    }
}

// Adds the two documents of a generation.
fn add_two(alloc: Global, feed: &mut FeedWriter, first: u64) -> Result<(), Fail>
    ensures { feed.new.setting ≡ feed.old.setting }
{
    add(alloc, feed, first)?;
    add(alloc, feed, first.saturating_add(1))
}

// The same, where an index is lent for the generation, if this says so.
fn add_generation(
    alloc: Global,
    feed: &mut FeedWriter,
    first: u64,
    lent: bool,
    config: Config,
) -> Result<(), Fail>
    requires { feed.old.setting ≡ config }
    ensures { feed.new.setting ≡ feed.old.setting }
{
    if lent {
        lend(alloc, feed, config)?;
    }
    add_two(alloc, feed, first)
}

// Whether a generation is given out; it is once.
fn gives(rt: &impl Abort, feed: &mut FeedWriter) -> bool
    ensures { feed.new ≡ feed.old }
{
    let given = feed.released().is_some();
    assert!(rt; feed.released().is_none());
    given
}

// Both find the same.
fn finds_as(
    rt: &impl Abort,
    feed: &mut FeedWriter,
    plain: &mut FeedWriter,
    frames: &mut (Frame, Frame),
)
    ensures { (feed.new ≡ feed.old) × (plain.new ≡ plain.old) }
{
    assert_eq!(rt;
        own_search(feed, &mut frames.0),
        own_search(plain, &mut frames.1)
    );
    assert_eq!(rt; frames.0.ids(), frames.1.ids());
}

// Generations, one after another: whether an index is lent for it, and whether another one is given
// out then that it dropped, where that is asked. One whose turn wasn't asked for it is dropped by
// the next turn.
fn row(
    rt: &impl Abort,
    alloc: Global,
    feeds: (FeedWriter, FeedWriter),
    frames: (Frame, Frame),
    config: Config,
) -> Result<(), Fail>
    requires { feeds.0.setting ≡ config }
{
    let (mut feed, mut plain) = feeds;
    let mut frames = frames;
    let mut first = 1u64;
    for (lent, given) in [
        (false, Some(false)),
        // the first one stays
        (true, Some(false)),
        (true, Some(true)),
        (false, Some(false)),
        (true, None),
        (false, Some(false)),
        (true, None),
        (true, Some(true)),
    ] {
        add_generation(alloc, &mut feed, first, lent, config)?;
        add_two(alloc, &mut plain, first)?;
        finds_as(rt, &mut feed, &mut plain, &mut frames);
        if let Some(given) = given {
            assert_eq!(rt; gives(rt, &mut feed), given);
        }
        assert!(rt; !gives(rt, &mut plain));
        first = first.saturating_add(2);
    }
    Ok(())
}

#[test]
fn a_turn_into_a_lent_index_gives_out_what_it_let_go(rt: HostRuntime) -> Result<(), Fail> {
    let alloc = rt.alloc();
    let config = Config::new(1, 2, 1024)?;
    let feeds = (opened(alloc, config)?, opened(alloc, config)?);
    row(&rt, alloc, feeds, (every(alloc)?, every(alloc)?), config)
}

// What the last turn dropped.
fn released(feed: &mut FeedWriter) -> Result<Released, Fail> {
    match feed.released() {
        Some(released) => Ok(released),
        None => Err(Fail::new("none is given out")),
    }
}

// A reader of the first two generations, and the first of them, which the third dropped.
fn let_go(alloc: Global, feed: FeedWriter, config: Config) -> Result<(FeedReader, Released), Fail>
    requires { feed.setting ≡ config }
{
    let mut feed = feed;
    add_generation(alloc, &mut feed, 1, false, config)?;
    add_generation(alloc, &mut feed, 3, true, config)?;
    let reader = renewed(&mut feed)?;
    add_generation(alloc, &mut feed, 5, true, config)?;
    let released = released(&mut feed)?;
    Ok((reader, released))
}

// Drops a generation.
fn dropped(released: Released) -> bool {
    let _released = released;
    true
}

fn found(reader: FeedReader, frame: Frame) -> (Frame, u64) {
    let mut reader = reader;
    let mut frame = frame;
    let count = searched(&mut reader, &mut frame, &OpenGate);
    (frame, count)
}

// One thread drops a generation that another one searches.
fn dropped_beside<R: Threads + Sync>(
    rt: &R,
    reader: FeedReader,
    frame: Frame,
    released: Released,
) -> ((Frame, u64), bool) {
    thread::join(
        rt,
        move || -> (Frame, u64) { found(reader, frame) },
        move || -> bool { dropped(released) },
    )
}

#[test]
fn readers_search_on_what_is_dropped(rt: HostRuntime) -> Result<(), Fail> {
    let alloc = rt.alloc();
    let config = Config::new(1, 2, 1024)?;
    let (mut reader, released) = let_go(alloc, opened(alloc, config)?, config)?;
    let mut frame = every(alloc)?;
    assert_eq!(rt; searched(&mut reader, &mut frame, &OpenGate), 4);
    assert_eq!(rt; frame.ids(), [4, 3, 2, 1].as_slice());
    let ((frame, count), dropped) = dropped_beside(&rt, reader, frame, released);
    assert_eq!(rt; (count, dropped), (4, true));
    assert_eq!(rt; frame.ids(), [4, 3, 2, 1].as_slice());
    Ok(())
}
