//! The tests, and a run in memory with a gate.

mod counts;
mod meeting;
mod overlap;
mod parts;
mod rounds;
mod sinks;
mod turns;
mod waiting;
mod words;

use eb_base::Gate;
use eb_io::{MemSink, MemSource};
use eb_run::{run, run_feed};
use std::alloc::{AllocError, Global};
use std::sync::Wait;
use std::test::Fail;
use std::thread::Threads;

// The words of this line, with a blank between them.
fn words_of(alloc: Global, line: &str) -> Result<Vec<String>, AllocError> {
    let mut words = Vec::new(alloc);
    for word in line.split(' ') {
        words.push(String::from_str(alloc, word)?)?;
    }
    Ok(words)
}

// What a run or a feed of this command line with this gate prints, over a source that gives its
// input at once.
fn printed<R: Threads + Wait + Sync, G: Gate + Sync>(
    rt: &R,
    alloc: Global,
    line: &str,
    input: &str,
    gate: &G,
) -> Result<Vec<u8>, Fail> {
    let mut source = MemSource::new(alloc, input.as_bytes(), 1_000_000, &[])?;
    let mut out = MemSink::new(alloc, 262_144, 1_000_000, &[])?;
    let mut err = MemSink::new(alloc, 100, 100, &[])?;
    match line.strip_prefix("feed ") {
        Some(rest) => {
            let words = words_of(alloc, rest)?;
            run_feed(
                rt,
                alloc,
                words.as_slice(),
                &mut source,
                &mut out,
                &mut err,
                gate,
            );
        }
        None => {
            let words = words_of(alloc, line)?;
            run(rt, alloc, &words, &mut source, &mut out, &mut err, gate);
        }
    }
    Ok(out.bytes().to_vec(alloc)?)
}
