//! Runs the rows of a folder: whole runs of the program's commands in memory, each with what it has
//! to print, to say and how it has to end. Prints what differs, and after it how many rows and runs
//! there were.
#![tactic(auto)]

mod check;
mod expand;
mod numbers;
mod outcome;
mod points;
mod reading;
mod row;

use anyhow::{Context, Result};
use check::{Tally, check_row};
use reading::read_row;
use std::alloc::Global;
use std::rt::{Env, Files};
use std::sync::Wait;
use std::thread::Threads;
use std::{env, fs};

fn main(rt: HostRuntime) -> Result<()> {
    let alloc = rt.alloc();
    let mut tally = Tally::new();
    for path in files(&rt, alloc)?.as_slice() {
        check_file(&rt, alloc, path.as_str(), &mut tally)?;
    }
    let rows = tally.rows;
    let runs = tally.runs;
    let differ = tally.differ;
    println!(rt; "rows: {rows} rows, {runs} runs, {differ} differ")?;
    Ok(())
}

// The paths of the files of the folder that the first word of the command line names, in order.
fn files(
    rt: &(impl Env + Files + AllocGlobal + Clone + Drop),
    alloc: Global,
) -> Result<Vec<String>> {
    let folder = env::args(rt)?.nth(1).context("a folder of rows is wanted")?;
    let mut paths = Vec::new(alloc);
    for entry in fs::read_dir(rt, folder.as_str())? {
        let entry = entry?;
        paths.push(String::from_str(alloc, entry.path().as_str())?)?;
    }
    paths.sort()?;
    Ok(paths)
}

// Runs the rows of a file, each of which begins with a line `row NAME`.
fn check_file(
    rt: &(impl Files + AllocGlobal + Print + Threads + Wait + Sync),
    alloc: Global,
    path: &str,
    tally: &mut Tally,
) -> Result<()> {
    let text = fs::read_to_string(rt, path)?;
    for part in text.as_str().split("\nrow ").skip(1) {
        let row = read_row(alloc, part).context(format_args!("in {path}"))?;
        check_row(rt, alloc, &row, tally)?;
    }
    Ok(())
}
