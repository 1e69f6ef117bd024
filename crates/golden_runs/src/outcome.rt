//! One run, in memory.

use crate::points::Points;
use crate::row::{Fault, Row};
use anyhow::Result;
use eb_io::{Got, MemSink, MemSource, Source};
use eb_lines::Status;
use eb_run::{run, run_feed};
use std::alloc::Global;
use std::sync::Wait;
use std::sync::atomic::Ordering;
use std::thread::Threads;

// A run of a row: the words of its command line, how many bytes a call the source gives and the
// sink takes at most, and which calls fail.
#[derive(Clone, Copy)]
pub(crate) struct Run<'a> {
    pub(crate) row: &'a Row,
    pub(crate) words: &'a Vec<String>,
    pub(crate) cut: u64,
    pub(crate) fault: Fault,
}

// What a run left: the exit code, what it printed and said, what the gate observed, and whether the
// source's next call is its first one.
#[derive(Drop)]
pub(crate) struct Left {
    pub(crate) status: u8,
    pub(crate) printed: Vec<u8>,
    pub(crate) said: Vec<u8>,
    pub(crate) added: u64,
    pub(crate) loaded: u64,
    pub(crate) order: u64,
    pub(crate) is_unread: bool,
}

fn run_by<R: Threads + Wait + Sync>(
    rt: &R,
    alloc: Global,
    words: &Vec<String>,
    source: &mut MemSource,
    out: &mut MemSink,
    err: &mut MemSink,
    gate: &Points,
) -> Status {
    match words.split_first() {
        Some((name, rest)) if name.as_str() == "feed" => {
            run_feed(rt, alloc, rest, source, out, err, gate)
        }
        _ => run(rt, alloc, words, source, out, err, gate),
    }
}

// Makes a run. Where its row wants that the source isn't called, the source's first call fails.
pub(crate) fn run_once<R: Threads + Wait + Sync>(
    rt: &R,
    alloc: Global,
    run: &Run<'_>,
) -> Result<Left> {
    let Run {
        row,
        words,
        cut,
        fault,
    } = *run;
    let piece = (cut as usize).max(1);
    let read = if row.is_unread { 1 } else { fault.read };
    let deaf = u64::from(row.is_deaf);
    let mut source = MemSource::new(alloc, row.input.as_slice(), piece, &[read])?;
    let mut out = MemSink::new(alloc, row.room as usize, piece, &[fault.write])?;
    let mut err = MemSink::new(alloc, 1024, 3, &[deaf])?;
    let gate = Points::new();
    let status = run_by(rt, alloc, words, &mut source, &mut out, &mut err, &gate);
    let mut byte = [0u8; 1];
    let is_unread = row.is_unread && source.read(&mut byte) == Got::Failed;
    Ok(Left {
        status: status.code(),
        printed: out.bytes().to_vec(alloc)?,
        said: err.bytes().to_vec(alloc)?,
        added: gate.added.load(Ordering::SeqCst),
        loaded: gate.loaded.load(Ordering::SeqCst),
        order: gate.order.load(Ordering::SeqCst),
        is_unread,
    })
}
