ghost use Rattle.std.specs.Prelude.{◌≡◌, ◌<◌, ◌≤◌, length};
ghost use Rattle.eb_bloom.specs.Covers.{Covers};
ghost use Rattle.eb_count.specs.Tallies.{HasCounted};
ghost use Rattle.eb_cursor.specs.Frames.{query_of, SeenAs};

use eb_base::Gate;
use eb_bloom::Filters;
use eb_count::Tally;
use eb_cursor::Frame;
use eb_engine::{Index, Writer};
use eb_place::Steps;
use std::marker::Brand;
use std::sync::ledger::{Blank, Ledger};

// Counts with a counter of loads that nobody reads.
fn count_with<G: Gate, L: Ledger>(
    index: &Index,
    filters: &Filters,
    writer: &mut Writer,
    frame: &mut Frame,
    tally: &mut Tally,
    gate: &G,
    blank: Blank,
) -> u64
    requires blank { (blank.name ≡ L.name) × (blank.parts ≡ L.parts) × (0 < blank.parts) }
    requires writer { writer.old.index ≡ index.now }
    requires covers { Covers filters.now index.now.setting writer.old.docs }
    ensures writer { writer.new ≡ writer.old }
    ensures count { result ≡ length writer.new.docs }
    ensures seen { SeenAs frame.old frame.new }
    ensures counts { HasCounted (query_of frame.old) writer.new.docs tally.old tally.new }
{
    let mut steps = Steps::<L>::new(blank);
    let likely = filters.likely(frame.query(), writer.segments());
    writer.count_likely(index, frame, tally, gate, likely, &mut steps)
}

/// Counts, in the tally, all matches among the whole history of an index, by its writer: all in
/// all, and in each of the tally's buckets, added to what the tally held. Returns the number of
/// documents. To spare loads, segments in which the query can't match by the terms that are noted
/// in their filters aren't searched; no clause says so. The writer must have been made with this
/// index, and the filters must cover its history. The writer and the frame stay as they are. Takes
/// no memory.
pub fn count_all<G: Gate>(
    index: &Index,
    filters: &Filters,
    writer: &mut Writer,
    frame: &mut Frame,
    tally: &mut Tally,
    gate: &G,
) -> u64
    requires writer { writer.old.index ≡ index.now }
    requires covers { Covers filters.now index.now.setting writer.old.docs }
    ensures writer { writer.new ≡ writer.old }
    ensures count { result ≡ length writer.new.docs }
    ensures seen { SeenAs frame.old frame.new }
    ensures counts { HasCounted (query_of frame.old) writer.new.docs tally.old tally.new }
{
    count_with::<G, Brand>(index, filters, writer, frame, tally, gate, Blank::new(1))
}
