ghost use Rattle.std.specs.Prelude.{◌≡◌, ◌<◌, ◌≤◌, ℕ, List, length};
ghost use Rattle.eb_base.specs.Match.{answer};
ghost use Rattle.eb_base.specs.Query.{word};
ghost use Rattle.eb_bloom.specs.Covers.{Covers};
ghost use Rattle.eb_cursor.specs.Frames.{query_of, k_of, ids_of};
ghost use Rattle.run_index.specs.Spared.{IsSpared};

use eb_base::Gate;
use eb_bloom::Filters;
use eb_cursor::Frame;
use eb_engine::{Index, Writer};
use eb_place::Steps;
use std::marker::Brand;
use std::sync::ledger::{Blank, Ledger};

// Searches the segments in which the query may match by what is noted in their filters. Of a word
// it makes no load for what is in the other segments.
fn search_noted<G: Gate, L: Ledger>(
    index: &Index,
    filters: &Filters,
    writer: &mut Writer,
    frame: &mut Frame,
    gate: &G,
    steps: &mut Steps<L>,
) -> u64
    requires writer { writer.old.index ≡ index.now }
    requires covers { Covers filters.now index.now.setting writer.old.docs }
    ensures writer { writer.new ≡ writer.old }
    ensures count { result ≡ length writer.new.docs }
    ensures ids { ids_of frame.new ≡ answer (query_of frame.old) (k_of frame.old) writer.new.docs }
    ensures few { length (ids_of frame.new) ≤ k_of frame.old }
    ensures loads { (t : List ℕ) → query_of frame.old ≡ word t
        → IsSpared filters.now index.now.setting writer.new.docs writer.new.converted t (length (ids_of frame.new)) steps.old steps.new }
{
    let likely = filters.likely(frame.query(), writer.segments());
    writer.search_likely(index, frame, gate, likely, steps)
}

// Searches with a counter of loads that nobody reads.
fn search_with<G: Gate, L: Ledger>(
    index: &Index,
    filters: &Filters,
    writer: &mut Writer,
    frame: &mut Frame,
    gate: &G,
    blank: Blank,
) -> u64
    requires blank { (blank.name ≡ L.name) × (blank.parts ≡ L.parts) × (0 < blank.parts) }
    requires writer { writer.old.index ≡ index.now }
    requires covers { Covers filters.now index.now.setting writer.old.docs }
    ensures writer { writer.new ≡ writer.old }
    ensures count { result ≡ length writer.new.docs }
    ensures ids { ids_of frame.new ≡ answer (query_of frame.old) (k_of frame.old) writer.new.docs }
    ensures few { length (ids_of frame.new) ≤ k_of frame.old }
{
    let mut steps = Steps::<L>::new(blank);
    search_noted(index, filters, writer, frame, gate, &mut steps)
}

/// Searches the whole history of an index, by its writer, without counting loads: puts the ids of
/// the newest `k` matches into the frame, newest first, and returns the number of documents. To
/// spare loads, segments in which the query can't match by the terms that are noted in their
/// filters aren't searched; for a word a clause of `search_noted` says so. The writer must have
/// been made with this index, and the filters must cover its history. The writer stays as it is.
/// Takes no memory.
pub fn search_all<G: Gate>(
    index: &Index,
    filters: &Filters,
    writer: &mut Writer,
    frame: &mut Frame,
    gate: &G,
) -> u64
    requires writer { writer.old.index ≡ index.now }
    requires covers { Covers filters.now index.now.setting writer.old.docs }
    ensures writer { writer.new ≡ writer.old }
    ensures count { result ≡ length writer.new.docs }
    ensures ids { ids_of frame.new ≡ answer (query_of frame.old) (k_of frame.old) writer.new.docs }
    ensures few { length (ids_of frame.new) ≤ k_of frame.old }
{
    search_with::<G, Brand>(index, filters, writer, frame, gate, Blank::new(1))
}
