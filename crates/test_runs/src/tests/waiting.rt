//! How many lines wait before their documents are added, where these are added many at once.
ghost use Rattle.std.specs.Prelude.{◌≤◌, length};

use super::words_of;
use crate::tests::turns::give;
use eb_base::{Gate, Point};
use eb_io::{CountSink, StdSink, StdSource};
use eb_lines::Status;
use eb_run::run;
use std::alloc::Global;
use std::io;
use std::sync::Wait;
use std::sync::atomic::{AtomicU64, Ordering};
use std::test::Fail;
use std::thread::Threads;

// A reader that gives one line again and again, and counts how often.
#[derive(Drop)]
struct Repeater<'a> {
    line: &'a [u8],
    times: u64,
    given: &'a AtomicU64,
}

impl<'a> io::Read for Repeater<'a> {
    fn read(&mut self, buf: &mut [u8]) -> io::Result<usize> {
        if self.given.load(Ordering::SeqCst) >= self.times {
            return Ok(0);
        }
        self.given.fetch_add(1, Ordering::SeqCst);
        Ok(give(self.line, buf))
    }
}

// A gate that notes how many lines were given when the first document was added.
#[derive(Drop)]
struct FirstAdd<'a> {
    given: &'a AtomicU64,
    noted: AtomicU64,
}

impl<'a> Gate for FirstAdd<'a> {
    fn reached(&self, point: Point) {
        if let Point::Added(1) = point {
            self.noted
                .store(self.given.load(Ordering::SeqCst), Ordering::SeqCst);
        }
    }
}

// How a run ends over a source that has this line as often, and how many lines it had given when the
// first document was added.
fn given_before_the_first_add<R: Threads + Wait + Sync>(
    rt: &R,
    alloc: Global,
    line: &[u8],
    times: u64,
) -> Result<(Status, u64), Fail> {
    let words = words_of(alloc, "run --parts=2 --overlap --terms=1024")?;
    let given = AtomicU64::new(0);
    let gate = FirstAdd {
        given: &given,
        noted: AtomicU64::new(0),
    };
    let mut source = StdSource::new(Repeater {
        line,
        times,
        given: &given,
    });
    let mut out = StdSink::new(io::sink());
    let mut err = CountSink::new();
    let status = run(rt, alloc, &words, &mut source, &mut out, &mut err, &gate);
    Ok((status, gate.noted.load(Ordering::SeqCst)))
}

// The line after 32,768 others finds no room. Each line after the first is refused, as its id isn't
// greater.
#[test]
fn at_most_32768_lines_wait(rt: HostRuntime) -> Result<(), Fail> {
    let line = b"{\"id\":1,\"text\":\"a\"}\n";
    let given = given_before_the_first_add(&rt, rt.alloc(), line.as_slice(), 33_000)?;
    assert_eq!(rt; given, (Status::Refused, 32_769));
    Ok(())
}

// Lines of 4,095 bytes, without what ends them: 2,049 of them are the first to have 8 MiB, which is
// 2,048 times 4,096 bytes, and the line after them finds no room. Each line after the first is refused,
// as its id isn't greater.
#[test]
fn lines_of_8_mib_wait(rt: HostRuntime) -> Result<(), Fail> {
    let mut line = Vec::new(rt.alloc());
    line.extend_from_slice(b"{\"id\":1,\"text\":\"a\",\"more\":\"")?;
    for _ in 0..4_066 {
        line.push(b'x')?;
    }
    line.extend_from_slice(b"\"}\n")?;
    assert_eq!(rt; line.len(), 4_096);
    let given = given_before_the_first_add(&rt, rt.alloc(), line.as_slice(), 2_100)?;
    assert_eq!(rt; given, (Status::Refused, 2_050));
    Ok(())
}
