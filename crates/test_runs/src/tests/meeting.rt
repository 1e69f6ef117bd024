//! Workers are threads of their own, and only a bounded number of queries and lines waits: over an
//! index, and over a feed.
use super::printed;
use eb_base::{Gate, Point};
use std::alloc::{AllocError, Global};
use std::sync::Wait;
use std::sync::atomic::{AtomicU64, Ordering};
use std::test::Fail;
use std::thread;
use std::thread::Threads;

// A gate at which `number` searches meet: each is held after the load of its count until that many
// came there, for at most 10,000,000 turns. It keeps the count that the last of them loaded. The
// thread that adds the first document rests for some turns, in which workers without a job fall
// asleep.
#[derive(Drop)]
struct Meeting {
    searches: u64,
    came: AtomicU64,
    last: AtomicU64,
    ran_out: AtomicU64,
}

impl Meeting {
    fn hold(&self) {
        for _ in 0..10_000_000u64 {
            if self.came.load(Ordering::SeqCst) >= self.searches {
                return;
            }
            thread::yield_now();
        }
        self.ran_out.store(1, Ordering::SeqCst);
    }
}

impl Gate for Meeting {
    fn reached(&self, point: Point) {
        match point {
            Point::Added(1) => {
                for _ in 0..100_000u64 {
                    thread::yield_now();
                }
            }
            Point::Added(_) => {}
            Point::CountLoaded(count) => {
                let came = self.came.fetch_add(1, Ordering::SeqCst);
                if came.saturating_add(1) == self.searches {
                    self.last.store(count, Ordering::SeqCst);
                }
                self.hold();
            }
        }
    }
}

// The count that the last of the searches loaded that met, where none was held for too long.
fn meet<R: Threads + Wait + Sync>(
    rt: &R,
    alloc: Global,
    line: &str,
    input: &str,
    searches: u64,
) -> Result<Option<u64>, Fail> {
    let gate = Meeting {
        searches,
        came: AtomicU64::new(0),
        last: AtomicU64::new(0),
        ran_out: AtomicU64::new(0),
    };
    printed(rt, alloc, line, input, &gate)?;
    if gate.ran_out.load(Ordering::SeqCst) > 0 {
        return Ok(None);
    }
    Ok(Some(gate.last.load(Ordering::SeqCst)))
}

// A text, and after it another one this many times.
fn with_many(alloc: Global, text: &str, other: &str, times: u64) -> Result<String, AllocError> {
    let mut all = String::from_str(alloc, text)?;
    for _ in 0..times {
        all.push_str(other)?;
    }
    Ok(all)
}

const DOCUMENT: &str = "{\"id\":1,\"text\":\"a\"}\n";

// How many workers there are, and how many queries are held at once.
const WORKERS: [(&str, u64); 6] = [
    ("run --workers 1 --terms 1024", 2),
    ("run --workers 2 --terms 1024", 3),
    ("run --workers 16 --terms 1024", 17),
    ("feed --workers 1 --keep 2 --segments 2 --terms 1024", 2),
    ("feed --workers 2 --keep 2 --segments 2 --terms 1024", 3),
    ("feed --workers 16 --keep 2 --segments 2 --terms 1024", 17),
];

// Each worker holds one query and the clerk one more, though all workers slept when the queries
// came.
#[test]
fn each_worker_is_a_thread_of_its_own(rt: HostRuntime) -> Result<(), Fail> {
    for (line, queries) in WORKERS {
        let input = with_many(rt.alloc(), DOCUMENT, "?5 a\n", queries)?;
        let met = meet(&rt, rt.alloc(), line, input.as_str(), queries)?;
        assert_eq!(rt; met, Some(1), "{line}");
    }
    Ok(())
}

const ONE_WORKER: [&str; 2] = [
    "run --workers 1 --segments 2 --terms 1024",
    "feed --workers 1 --keep 2 --segments 2 --terms 1024",
];

// The one worker holds the first query, until the clerk, which has no room for a further line,
// begins to answer the next one. So far 512 queries came with 511 documents between them.
#[test]
fn only_so_many_pairs_may_wait(rt: HostRuntime) -> Result<(), Fail> {
    let pair = "?5 a\n{\"id\":1,\"text\":\"a\"}\n";
    let pairs = with_many(rt.alloc(), "", pair, 600)?;
    for line in ONE_WORKER {
        let met = meet(&rt, rt.alloc(), line, pairs.as_str(), 2)?;
        assert_eq!(rt; met, Some(511), "{line}");
    }
    Ok(())
}

// Two queries, blank lines and two documents.
fn with_blanks(alloc: Global) -> Result<String, AllocError> {
    let mut lines = with_many(alloc, "?5 a\n?5 a\n", "\n", 4093)?;
    lines.push_str(DOCUMENT)?;
    lines.push_str(DOCUMENT)?;
    Ok(lines)
}

// Here two queries came so far, 4,093 blank lines and the first of two documents.
#[test]
fn only_so_many_lines_may_wait(rt: HostRuntime) -> Result<(), Fail> {
    let lines = with_blanks(rt.alloc())?;
    for line in ONE_WORKER {
        let met = meet(&rt, rt.alloc(), line, lines.as_str(), 2)?;
        assert_eq!(rt; met, Some(1), "{line}");
    }
    Ok(())
}

// A gate that lets workers and clerk fall asleep: the thread that adds the first document rests for
// some turns, the thread that adds the second is held until a search came, and a search rests for
// some turns.
#[derive(Drop)]
struct Sleepy {
    came: AtomicU64,
    ran_out: AtomicU64,
}

impl Sleepy {
    fn rest(&self) {
        for _ in 0..100_000u64 {
            thread::yield_now();
        }
    }

    fn hold(&self) {
        for _ in 0..10_000_000u64 {
            if self.came.load(Ordering::SeqCst) > 0 {
                return;
            }
            thread::yield_now();
        }
        self.ran_out.store(1, Ordering::SeqCst);
    }
}

impl Gate for Sleepy {
    fn reached(&self, point: Point) {
        match point {
            Point::Added(1) => self.rest(),
            Point::Added(_) => self.hold(),
            Point::CountLoaded(_) => {
                self.came.store(1, Ordering::SeqCst);
                self.rest();
            }
        }
    }
}

// How it is run, and its summary.
const SLEEPERS: [(&str, &str); 2] = [
    (
        "run --workers 4 --terms 1024",
        "end: documents 2, queries 1, refused 0\n",
    ),
    (
        "feed --workers 4 --keep 2 --segments 2 --terms 1024",
        "end: documents 2, queries 1, refused 0, kept 2\n",
    ),
];

// A query wakes a worker, its answer wakes the clerk, and stops wake the other workers: else the
// run doesn't end.
#[test]
fn who_sleeps_is_woken(rt: HostRuntime) -> Result<(), Fail> {
    let input = "{\"id\":1,\"text\":\"a\"}\n?5 a\n{\"id\":2,\"text\":\"b\"}\n";
    for (line, end) in SLEEPERS {
        let gate = Sleepy {
            came: AtomicU64::new(0),
            ran_out: AtomicU64::new(0),
        };
        let text = printed(&rt, rt.alloc(), line, input, &gate)?;
        assert_eq!(rt; gate.ran_out.load(Ordering::SeqCst), 0, "{line}");
        assert!(rt; text.as_slice().ends_with(end.as_bytes()), "{line}");
    }
    Ok(())
}
