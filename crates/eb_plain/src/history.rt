ghost use Rattle.std.specs.Prelude.{◌≡◌, ◌<◌, ◌≤◌, length, map, drop, IfOk};
ghost use Rattle.eb_place.specs.Room as spec;
ghost use Rattle.eb_plain.specs.Cutting.{IsCutAt};

use crate::room::fits;
use eb_base::{Config, Document, NoMemory};
use std::alloc::Global;

// Where a history is cut: how many documents each closed segment has, and where the last one
// begins.
struct Segments {
    closed: Vec<usize>,
    start: usize,
}

/// The numbers of documents of the segments of a history, in order: each document goes into the
/// last segment where it fits there, else it begins the next one.
pub fn cut(alloc: Global, config: &Config, documents: &[Document]) -> Result<Vec<usize>, NoMemory>
    ensures { IfOk result (λ lengths. lengths.items ≡ map length (spec.cut config.now documents.now)) }
{
    if documents.is_empty() {
        return Ok(Vec::new(alloc));
    }
    let Segments { mut closed, start } = find_cut(alloc, config, documents)?;
    closed.push(documents.len() - start)?;
    Ok(closed)
}

/// Whether an index of this setting has room for the document after this history: one more segment
/// can be begun, or the document fits the last one.
pub fn has_room(
    alloc: Global,
    config: &Config,
    documents: &[Document],
    document: &Document,
) -> Result<bool, NoMemory>
    ensures { IfOk result (λ answer. answer ≡ spec.has_room config.now documents.now document.now) }
{
    let last = last_segment(alloc, config, documents)?;
    if last.begun < config.segments() as usize {
        return Ok(true);
    }
    fits(alloc, config, &documents[last.start..], document)
}

// How many segments are begun, and where the last one begins in the history.
#[derive(Clone, Copy)]
struct Last {
    begun: usize,
    start: usize,
}

// How many segments are begun, and where the last one begins in the history.
fn last_segment(alloc: Global, config: &Config, documents: &[Document]) -> Result<Last, NoMemory>
    ensures begun { IfOk result (λ last. last.begun ≡ length (spec.cut config.now documents.now)) }
    ensures start { IfOk result (λ last. spec.last_of (spec.cut config.now documents.now) ≡ drop last.start documents.now) }
    ensures within { IfOk result (λ last. last.start ≤ length documents.now) }
{
    if documents.is_empty() {
        return Ok(Last { begun: 0, start: 0 });
    }
    let Segments { closed, start } = find_cut(alloc, config, documents)?;
    Ok(Last {
        begun: closed.len() + 1,
        start,
    })
}

// Where a history with a document is cut.
fn find_cut(alloc: Global, config: &Config, documents: &[Document]) -> Result<Segments, NoMemory>
    requires { 0 < length documents.now }
    ensures cut { IfOk result (λ found. IsCutAt config.now documents.now found.closed.items found.start) }
    ensures within { IfOk result (λ found. found.start ≤ length documents.now) }
{
    let mut closed = Vec::new(alloc);
    let mut start = 0;
    for at in 1..documents.len() {
        if !fits(alloc, config, &documents[start..at], &documents[at])? {
            closed.push(at - start)?;
            start = at;
        }
    }
    Ok(Segments { closed, start })
}
