//! Each answer is out before the next line is read.
ghost use Rattle.std.specs.Prelude.{◌≤◌, length};

use super::{printed, words_of};
use eb_base::OpenGate;
use eb_io::{CountSink, StdSink, StdSource};
use eb_lines::Status;
use eb_run::{run, run_feed};
use std::alloc::Global;
use std::io;
use std::sync::Wait;
use std::sync::atomic::{AtomicU64, Ordering};
use std::test::Fail;
use std::thread::Threads;

const FIRST: &[u8] = b"{\"id\":1,\"text\":\"a\"}\n?5 a\n";

const COUNTED: &[u8] = b"{\"id\":1,\"text\":\"a\"}\n# a\n";

const SECOND: &[u8] = b"?5 b\n";

const ANSWER: &str = "2 seen 1: 1\n";

const WHOLE_COUNTED: &str = "2 count 1: 1\n3 seen 1:\nend: documents 1, queries 2, refused 0\n";

const WHOLE: &str = "2 seen 1: 1\n3 seen 1:\nend: documents 1, queries 2, refused 0\n";

// A reader that gives its second lines only once the answer to the first is out, and fails before.
#[derive(Drop)]
struct Asker<'a> {
    first: &'a [u8],
    taken: &'a AtomicU64,
    has_asked: bool,
}

// Copies the bytes into the start of the buffer, as many as there is room for.
pub(crate) fn give(bytes: &[u8], into: &mut [u8]) -> usize
    ensures { result ≤ length into.old }
{
    let count = bytes.len().min(into.len());
    into[..count].copy_from_slice(&bytes[..count]);
    count
}

impl<'a> io::Read for Asker<'a> {
    fn read(&mut self, buf: &mut [u8]) -> io::Result<usize> {
        if !self.first.is_empty() {
            let count = give(self.first, buf);
            self.first = &self.first[count.min(self.first.len())..];
            return Ok(count);
        }
        if self.taken.load(Ordering::SeqCst) < ANSWER.len() as u64 {
            return Err(io::Error::other("not answered"));
        }
        if self.has_asked {
            return Ok(0);
        }
        self.has_asked = true;
        Ok(give(SECOND, buf))
    }
}

// A writer that counts the bytes that it takes.
#[derive(Drop)]
struct Taker<'a> {
    taken: &'a AtomicU64,
}

impl<'a> io::Write for Taker<'a> {
    fn write(&mut self, buf: &[u8]) -> io::Result<usize> {
        self.taken.fetch_add(buf.len() as u64, Ordering::SeqCst);
        Ok(buf.len())
    }

    fn flush(&mut self) -> io::Result<()> {
        Ok(())
    }
}

// Runs between the two by this command line, where the first read gives these bytes, and returns
// how it ended and how many bytes were taken.
fn run_in_turns<R: Threads + Wait + Sync>(
    rt: &R,
    alloc: Global,
    line: &str,
    first: &[u8],
) -> Result<(Status, u64), Fail> {
    let words = words_of(alloc, line)?;
    let taken = AtomicU64::new(0);
    let mut source = StdSource::new(Asker {
        first,
        taken: &taken,
        has_asked: false,
    });
    let mut out = StdSink::new(Taker { taken: &taken });
    let mut err = CountSink::new();
    let status = run(
        rt,
        alloc,
        &words,
        &mut source,
        &mut out,
        &mut err,
        &OpenGate,
    );
    Ok((status, taken.load(Ordering::SeqCst)))
}

// The same of a feed.
fn feed_in_turns<R: Threads + Wait + Sync>(
    rt: &R,
    alloc: Global,
    line: &str,
    first: &[u8],
) -> Result<(Status, u64), Fail> {
    let words = words_of(alloc, line)?;
    let taken = AtomicU64::new(0);
    let mut source = StdSource::new(Asker {
        first,
        taken: &taken,
        has_asked: false,
    });
    let mut out = StdSink::new(Taker { taken: &taken });
    let mut err = CountSink::new();
    let status = run_feed(
        rt,
        alloc,
        words.as_slice(),
        &mut source,
        &mut out,
        &mut err,
        &OpenGate,
    );
    Ok((status, taken.load(Ordering::SeqCst)))
}

// The lines by which it is run.
const LINES: [&str; 6] = [
    "run --terms=1024",
    "run --terms=1024 --overlap",
    "run --terms=1024 --workers=2",
    "run --terms=1024 --parts=2",
    "run --terms=1024 --parts=2 --overlap",
    "run --terms=1024 --watch",
];

#[test]
fn each_answer_is_out_before_the_next_line_is_read(rt: HostRuntime) -> Result<(), Fail> {
    for line in LINES {
        let left = run_in_turns(&rt, rt.alloc(), line, FIRST)?;
        assert_eq!(rt; left, (Status::Done, WHOLE.len() as u64), "{line}");
    }
    Ok(())
}

// The lines by which a feed is.
const FEED_LINES: [&str; 4] = [
    "--terms=1024 --keep=4",
    "--terms=1024 --overlap",
    "--terms=1024 --workers=2",
    "--terms=1024 --watch",
];

#[test]
fn each_answer_of_a_feed_is_out_before_the_next_line_is_read(rt: HostRuntime) -> Result<(), Fail> {
    for line in FEED_LINES {
        let left = feed_in_turns(&rt, rt.alloc(), line, FIRST)?;
        assert_eq!(rt; left, (Status::Done, WHOLE.len() as u64 + 8), "{line}");
    }
    Ok(())
}

// The lines by which runs and feeds count.
const COUNTING_LINES: [&str; 6] = [
    "run --terms=1024 --counts",
    "run --terms=1024 --counts --overlap",
    "run --terms=1024 --counts --workers=2",
    "run --terms=1024 --counts --parts=2",
    "run --terms=1024 --counts --parts=2 --overlap",
    "run --terms=1024 --counts --watch",
];

const COUNTING_FEED_LINES: [&str; 4] = [
    "--terms=1024 --counts",
    "--terms=1024 --counts --overlap",
    "--terms=1024 --counts --workers=2",
    "--terms=1024 --counts --watch",
];

#[test]
fn each_count_is_out_before_the_next_line_is_read(rt: HostRuntime) -> Result<(), Fail> {
    for line in COUNTING_LINES {
        let left = run_in_turns(&rt, rt.alloc(), line, COUNTED)?;
        assert_eq!(rt; left, (Status::Done, WHOLE_COUNTED.len() as u64), "{line}");
    }
    for line in COUNTING_FEED_LINES {
        let left = feed_in_turns(&rt, rt.alloc(), line, COUNTED)?;
        assert_eq!(rt;
            left,
            (Status::Done, WHOLE_COUNTED.len() as u64 + 8),
            "{line}"
        );
    }
    Ok(())
}

const LOADED: &str = "1 seen 1: 1\n2 seen 1:\nend: documents 1, queries 2, refused 0\n";

// The image of the first document, and after it its query.
#[test]
fn each_answer_over_an_image_is_out_before_the_next_line_is_read(
    rt: HostRuntime,
) -> Result<(), Fail> {
    let document = "{\"id\":1,\"text\":\"a\"}\n";
    let mut first = printed(&rt, rt.alloc(), "save --terms 1024", document, &OpenGate)?;
    first.extend_from_slice(b"?5 a\n")?;
    let left = run_in_turns(&rt, rt.alloc(), "load", first.as_slice())?;
    assert_eq!(rt; left, (Status::Done, LOADED.len() as u64));
    Ok(())
}
