//! Reads a row. README.md says how it is written.

use crate::expand::put_line;
use crate::numbers::{number_at, numbers};
use crate::points::ordered;
use crate::row::{Fault, Row, Told};
use anyhow::{Context, Result, bail};
use eb_base::Point;
use std::alloc::Global;

// One number.
fn one(alloc: Global, text: &str) -> Result<u64> {
    number_at(numbers(alloc, text)?.as_slice(), 0)
}

// The words of a command line, in which '' is the empty word.
fn command_line(alloc: Global, text: &str) -> Result<Vec<String>> {
    let mut words = Vec::new(alloc);
    for word in text.split_whitespace() {
        let word = if word == "''" { "" } else { word };
        words.push(String::from_str(alloc, word)?)?;
    }
    Ok(words)
}

// `added 2 loaded 3`
fn told(text: &str) -> Result<Told> {
    let rest = text.strip_prefix("added ").context("added is wanted")?;
    let (added, loaded) = rest.split_once(" loaded ").context("loaded is wanted")?;
    Ok(Told {
        added: added.parse::<u64>()?,
        loaded: loaded.parse::<u64>()?,
    })
}

// `+1 +2 ?2`: the first and the second document were added, and a search loaded the count 2.
fn order(text: &str) -> Result<u64> {
    let mut order = 0;
    for word in text.split_whitespace() {
        let point = match (word.strip_prefix('+'), word.strip_prefix('?')) {
            (Some(count), _) => Point::Added(count.parse::<u64>()?),
            (_, Some(count)) => Point::CountLoaded(count.parse::<u64>()?),
            _ => bail!("{word} is no point"),
        };
        order = ordered(order, point);
    }
    Ok(order)
}

// `read 6..30 leaves 10`, `write 1..61 leaves 0..60`, or both
fn put_faults(faults: &mut Vec<Fault>, alloc: Global, text: &str) -> Result<()> {
    let (calls, leaves) = text.split_once(" leaves ").context("leaves is wanted")?;
    let (reads, writes) = calls.split_once("write ").unwrap_or((calls, ""));
    let reads = numbers(alloc, reads.strip_prefix("read ").unwrap_or(""))?;
    let writes = numbers(alloc, writes)?;
    let leaves = numbers(alloc, leaves)?;
    for at in 0..reads.len().max(writes.len()) {
        faults.push(Fault {
            read: number_at(reads.as_slice(), at)?,
            write: number_at(writes.as_slice(), at)?,
            leaves: number_at(leaves.as_slice(), at)?,
        })?;
    }
    Ok(())
}

// One text.
fn text_of(alloc: Global, range: &str, text: &str) -> Result<Vec<u8>> {
    let mut bytes = Vec::new(alloc);
    put_line(&mut bytes, alloc, range, text)?;
    Ok(bytes)
}

// A line of the output, and one that is allowed in the place of the last one.
fn put_output(row: &mut Row, alloc: Global, text: Vec<u8>) -> Result<()> {
    let mut texts = Vec::new(alloc);
    texts.push(text)?;
    row.output.push(texts)?;
    Ok(())
}

fn put_other(row: &mut Row, text: Vec<u8>) -> Result<()> {
    let texts = row.output.last_mut().context("| stands behind no >")?;
    texts.push(text)?;
    Ok(())
}

fn put_setting(row: &mut Row, alloc: Global, key: &str, text: &str) -> Result<()> {
    match key {
        "words" => row.lines.push(command_line(alloc, text)?)?,
        "cut" => row.cuts = numbers(alloc, text)?,
        "status" => row.status = one(alloc, text)?,
        "says" => row.said = text_of(alloc, "", text)?,
        "deaf" => row.is_deaf = true,
        "unread" => row.is_unread = true,
        "room" => row.room = one(alloc, text)?,
        "gate" => row.told = Some(told(text)?),
        "points" => row.order = Some(order(text)?),
        "fault" => put_faults(&mut row.faults, alloc, text)?,
        "" | "#" => {}
        _ => bail!("{key} begins no line of a row"),
    }
    Ok(())
}

fn put_row_line(row: &mut Row, alloc: Global, line: &str) -> Result<()> {
    let (key, text) = line.split_once(' ').unwrap_or((line, ""));
    if let Some(range) = key.strip_prefix('<') {
        return put_line(&mut row.input, alloc, range, text);
    }
    if let Some(range) = key.strip_prefix('>') {
        return put_output(row, alloc, text_of(alloc, range, text)?);
    }
    if let Some(range) = key.strip_prefix('|') {
        return put_other(row, text_of(alloc, range, text)?);
    }
    put_setting(row, alloc, key, text)
}

// The row of a text, which has its name in the first line.
pub(crate) fn read_row(alloc: Global, text: &str) -> Result<Row> {
    let (name, rest) = text.split_once('\n').unwrap_or((text, ""));
    let mut row = Row::new(alloc, String::from_str(alloc, name)?);
    for line in rest.split('\n') {
        put_row_line(&mut row, alloc, line).context(format_args!("{name}: {line}"))?;
    }
    if row.lines.is_empty() {
        bail!("{name}: no words");
    }
    if row.cuts.is_empty() {
        row.cuts.push(65_536)?;
    }
    Ok(row)
}
