//! Compares what runs left with what their row wants.

use crate::outcome::{Left, Run, run_once};
use crate::row::{Fault, Row};
use anyhow::Result;
use std::alloc::Global;
use std::str;
use std::sync::Wait;
use std::thread::Threads;

// How many rows and runs there were, and how many of the runs differ.
#[derive(Clone, Copy)]
pub(crate) struct Tally {
    pub(crate) rows: u64,
    pub(crate) runs: u64,
    pub(crate) differ: u64,
}

impl Tally {
    pub(crate) fn new() -> Tally {
        Tally {
            rows: 0,
            runs: 0,
            differ: 0,
        }
    }
}

const NO_FAULT: Fault = Fault {
    read: 0,
    write: 0,
    leaves: 0,
};

// What is left of a text after one of these that it begins with.
fn behind<'a>(text: &'a [u8], allowed: &[Vec<u8>]) -> Option<&'a [u8]> {
    for front in allowed {
        if let Some(rest) = text.strip_prefix(front.as_slice()) {
            return Some(rest);
        }
    }
    None
}

// Whether a text is one that the parts allow.
fn is_allowed(text: &[u8], parts: &[Vec<Vec<u8>>]) -> bool {
    let mut rest = text;
    for allowed in parts {
        match behind(rest, allowed.as_slice()) {
            Some(left) => rest = left,
            None => return false,
        }
    }
    rest.is_empty()
}

// The first text that a row allows.
fn first_text(alloc: Global, row: &Row) -> Result<Vec<u8>> {
    let mut text = Vec::new(alloc);
    for allowed in row.output.as_slice() {
        if let Some(first) = allowed.first() {
            text.extend_from_slice(first.as_slice())?;
        }
    }
    Ok(text)
}

fn difference_of_points(row: &Row, left: &Left) -> Option<&'static str> {
    if let Some(told) = row.told
        && (told.added != left.added || told.loaded != left.loaded)
    {
        return Some("what the gate was told");
    }
    match row.order {
        Some(order) if order != left.order => Some("the order of the gate's points"),
        _ => None,
    }
}

// In what a run without a fault differs from its row.
fn difference(row: &Row, left: &Left) -> Option<&'static str> {
    if !is_allowed(left.printed.as_slice(), row.output.as_slice()) {
        return Some("what is printed");
    }
    if u64::from(left.status) != row.status {
        return Some("the status");
    }
    if left.said.as_slice() != row.said.as_slice() {
        return Some("what is said");
    }
    if row.is_unread && !left.is_unread {
        return Some("the source, which is read");
    }
    difference_of_points(row, left)
}

// In what a run with a fault differs from its row. Of two faults that of the sink counts, and none
// after the whole text.
fn difference_at(row: &Row, fault: Fault, text: &[u8], left: &Left) -> Option<&'static str> {
    if fault.leaves as usize == text.len() {
        return difference(row, left);
    }
    let (status, said) = if fault.write > 0 {
        (4, "earlybird: write fault\n")
    } else {
        (3, "earlybird: read fault\n")
    };
    if text.get(..fault.leaves as usize) != Some(left.printed.as_slice()) {
        return Some("what is printed at a fault");
    }
    if left.status != status {
        return Some("the status at a fault");
    }
    if left.said.as_slice() != said.as_bytes() {
        return Some("what is said at a fault");
    }
    None
}

// Counts a run, and prints in what it differs and what it left.
fn tell<R: Print>(
    rt: &R,
    run: &Run<'_>,
    left: &Left,
    what: Option<&'static str>,
    tally: &mut Tally,
) -> Result<()> {
    tally.runs = tally.runs.saturating_add(1);
    let Some(what) = what else {
        return Ok(());
    };
    tally.differ = tally.differ.saturating_add(1);
    let Run {
        row,
        words,
        cut,
        fault,
    } = *run;
    let name = row.name.as_str();
    let Fault { read, write, .. } = fault;
    println!(rt; "{name}: {what}, of {words:?}, cut {cut}, fault read {read} write {write}")?;
    let Left {
        status,
        added,
        loaded,
        ..
    } = *left;
    println!(rt; "status {status}, gate added {added} loaded {loaded}; printed and said:")?;
    rt.print(str::from_utf8(left.printed.as_slice()).unwrap_or("no UTF-8\n"))?;
    rt.print(str::from_utf8(left.said.as_slice()).unwrap_or("no UTF-8\n"))?;
    Ok(())
}

// Makes a run without a fault, and those like it with the faults of its row.
fn check_at<R: Threads + Wait + Sync + Print>(
    rt: &R,
    alloc: Global,
    run: &Run<'_>,
    text: &[u8],
    tally: &mut Tally,
) -> Result<()> {
    let row = run.row;
    let left = run_once(rt, alloc, run)?;
    tell(rt, run, &left, difference(row, &left), tally)?;
    for fault in row.faults.as_slice() {
        let run = Run {
            fault: *fault,
            ..*run
        };
        let left = run_once(rt, alloc, &run)?;
        let what = difference_at(row, *fault, text, &left);
        tell(rt, &run, &left, what, tally)?;
    }
    Ok(())
}

// Makes the runs of a row.
pub(crate) fn check_row<R: Threads + Wait + Sync + Print>(
    rt: &R,
    alloc: Global,
    row: &Row,
    tally: &mut Tally,
) -> Result<()> {
    tally.rows = tally.rows.saturating_add(1);
    let text = first_text(alloc, row)?;
    for words in row.lines.as_slice() {
        for cut in row.cuts.as_slice() {
            let run = Run {
                row,
                words,
                cut: *cut,
                fault: NO_FAULT,
            };
            check_at(rt, alloc, &run, text.as_slice(), tally)?;
        }
    }
    Ok(())
}
