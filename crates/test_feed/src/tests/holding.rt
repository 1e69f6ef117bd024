//! A search that is held after the load of its count, while the writer goes on through more turns
//! than it keeps generations, so that it drops all that the reader holds; and the reader that goes
//! on afterwards.
use super::made::{add, documents, frame, renewed, searched, word};
use eb_base::{Config, Document, Gate, OpenGate, Point};
use eb_cursor::Frame;
use feed_shared::{FeedReader, FeedWriter};
use std::sync::atomic::{AtomicU64, Ordering};
use std::test::Fail;
use std::thread;
use std::thread::Threads;

// Goes on when the flag is up.
fn wait_for(flag: &AtomicU64) {
    for _ in 0..u64::MAX {
        if flag.load(Ordering::SeqCst) > 0 {
            return;
        }
        thread::yield_now();
    }
}

// A gate that holds a search after the load of its count.
#[derive(Drop)]
struct Hold<'a> {
    loaded: &'a AtomicU64,
    go: &'a AtomicU64,
}

impl<'a> Gate for Hold<'a> {
    fn reached(&self, point: Point) {
        if let Point::CountLoaded(count) = point {
            self.loaded.store(count, Ordering::SeqCst);
            wait_for(self.go);
        }
    }
}

// A search that is held after the load of its count, until the flag is up. The reader goes on then.
fn held_search(
    reader: FeedReader,
    frame: Frame,
    loaded: &AtomicU64,
    go: &AtomicU64,
) -> (Frame, u64) {
    let mut reader = reader;
    let mut frame = frame;
    let gate = Hold { loaded, go };
    let found = searched(&mut reader, &mut frame, &gate);
    (frame, found)
}

// Adds the documents after the first four when the first flag is up, and puts the second up.
// Returns the turns then.
fn late_adds(feed: FeedWriter, documents: &[Document], loaded: &AtomicU64, go: &AtomicU64) -> u64 {
    let mut feed = feed;
    wait_for(loaded);
    for at in 4..documents.len() {
        if feed.add(&documents[at], &OpenGate).is_err() {
            return 0;
        }
    }
    go.store(1, Ordering::SeqCst);
    feed.turns()
}

// One thread searches, and is held; the other adds meanwhile.
fn overlapping<R: Threads + Sync>(
    rt: &R,
    feed: FeedWriter,
    reader: FeedReader,
    frame: Frame,
    documents: &[Document],
) -> ((Frame, u64), u64) {
    let loaded = &AtomicU64::new(0);
    let go = &AtomicU64::new(0);
    thread::join(
        rt,
        move || -> (Frame, u64) { held_search(reader, frame, loaded, go) },
        move || -> u64 { late_adds(feed, documents, loaded, go) },
    )
}

#[test]
fn generations_are_let_go_in_mid_search(rt: HostRuntime) -> Result<(), Fail> {
    let alloc = rt.alloc();
    let documents = documents(alloc, 11)?;
    let Ok(mut feed) = FeedWriter::open(alloc, Config::new(1, 3, 1024)?, 2) else {
        return Err(Fail::new("no memory"));
    };
    for at in 0..4 {
        if let Some(document) = documents.get(at) {
            add(&mut feed, document)?;
        }
    }
    let reader = renewed(&mut feed)?;
    let frame = frame(alloc, word(alloc, b"d")?)?;
    let ((frame, found), turns) = overlapping(&rt, feed, reader, frame, documents.as_slice());
    assert_eq!(rt; (found, turns), (4, 4));
    assert_eq!(rt; frame.ids(), [4, 3, 2, 1].as_slice());
    Ok(())
}
