//! Counting: how many documents a query matches, and how many of them have an id in each bucket.
ghost use Rattle.std.specs.Prelude.{◌≡◌, ℕ, ◌+◌, ◌≤◌, List, [], length};
ghost use mathlib.Core.List.{IsPrefix};
ghost use Rattle.eb_base.specs.Document.{Doc};
ghost use Rattle.eb_base.specs.Query.{word};
ghost use Rattle.eb_count.specs.Tallies.{HasCounted};
ghost use Rattle.eb_place.specs.Told.{Told};
ghost use Rattle.eb_place.specs.declared.moment.Moment.{Moment};
ghost use Rattle.eb_place.specs.Later.{IsNotBefore};
ghost use Rattle.eb_cursor.specs.Frames.{query_of, SeenAs};
ghost use Rattle.eb_search.specs.Bounds.{count_bound};
ghost use Rattle.eb_search.specs.Counted.{CountedOn, CountedLikely};

use crate::tallying::{tally_walk, tally_walk_likely};
use crate::visible::visible_segments;
use eb_base::{Gate, MAX_SEGMENTS, Point};
use eb_count::Tally;
use eb_cursor::Frame;
use eb_marks::Segments;
use eb_place::{Port, Steps};
use std::sync::ledger::Ledger;

/// Counts, in the tally, all matches among the documents that are accepted when it loads their
/// count, which is its result: all in all, and in each of the tally's buckets, added to what the
/// tally held. One walk counts all buckets over the same documents. Documents that are accepted
/// later, and words that the writer stores meanwhile, change nothing of it. The count is reported
/// to the gate directly after its load. The frame stays as it is, with its ids. The bound on the
/// loads of a word's count is that of its search, with one for each match in place of one for each
/// id, and none for matches where the tally has no buckets (`count_bound`). Takes no memory.
pub fn count_on<P: Port, G: Gate, L: Ledger>(
    port: &mut P,
    frame: &mut Frame,
    tally: &mut Tally,
    gate: &G,
    steps: &mut Steps<L>,
) -> u64
    requires { (m : Moment) × P.stands port.old m }
    ensures seen { SeenAs frame.old frame.new }
    ensures counts { (m : Moment) → P.stands port.old m → (n : Moment) × P.stands port.new n × P.keeps port.old m port.new n
        × CountedOn m n (query_of frame.old) result tally.old tally.new }
    ensures loads { (m : Moment) (t : List ℕ) → P.stands port.old m → query_of frame.old ≡ word t
        → (n : Moment) × P.stands port.new n × IsNotBefore n m × P.keeps port.old m port.new n
        × (steps.new ≤ steps.old + count_bound [] m n result t (length tally.old.buckets)) }
{
    let mut firsts = [0; MAX_SEGMENTS as usize];
    let count = port.load(0, steps);
    gate.reached(Point::CountLoaded(count));
    let begun = visible_segments(port, count, &mut firsts, steps);
    tally_walk(port, frame, tally, count, &firsts, begun, steps);
    count
}

/// Counts as [`count_on`] does, over all segments but those of which `likely` says false: the
/// numbers are the same where none of the documents of these segments matches. The bound on loads
/// is that of [`count_on`] but counts nothing for what finds the word in these segments, and for
/// its lists there. Takes no memory.
pub fn count_likely<P: Port, G: Gate, L: Ledger>(
    port: &mut P,
    frame: &mut Frame,
    tally: &mut Tally,
    gate: &G,
    likely: Segments,
    steps: &mut Steps<L>,
) -> u64
    requires { (m : Moment) × P.stands port.old m }
    ensures seen { SeenAs frame.old frame.new }
    ensures counts { (m : Moment) → P.stands port.old m → (n : Moment) × P.stands port.new n × P.keeps port.old m port.new n
        × CountedLikely m n (query_of frame.old) likely result tally.old tally.new }
    ensures loads { (m : Moment) (t : List ℕ) → P.stands port.old m → query_of frame.old ≡ word t
        → (n : Moment) × P.stands port.new n × IsNotBefore n m × P.keeps port.old m port.new n
        × (steps.new ≤ steps.old + count_bound likely m n result t (length tally.old.buckets)) }
{
    let mut firsts = [0; MAX_SEGMENTS as usize];
    let count = port.load(0, steps);
    gate.reached(Point::CountLoaded(count));
    let begun = visible_segments(port, count, &mut firsts, steps);
    tally_walk_likely(port, frame, tally, count, &firsts, likely, begun, steps);
    count
}

/// Counts, in the tally, all matches among exactly the first `count` documents, all of which are
/// accepted. It loads no count, so documents that are accepted later change nothing of it, whenever
/// it is called. The bound on the loads of a word is that of [`count_on`] but for the one of the
/// count. Takes no memory.
pub fn count_first<P: Port, L: Ledger>(
    port: &mut P,
    count: u64,
    frame: &mut Frame,
    tally: &mut Tally,
    steps: &mut Steps<L>,
)
    requires { (m : Moment) × P.stands port.old m × (count ≤ length m.documents.accepted) }
    ensures seen { SeenAs frame.old frame.new }
    ensures counts { (docs : List Doc) → length docs ≡ count → Told P.stands P.keeps port.old port.new
        (λ m. IsPrefix docs m.documents.accepted) (λ n. HasCounted (query_of frame.old) docs tally.old tally.new) }
    ensures loads { (m : Moment) (t : List ℕ) → P.stands port.old m → count ≤ length m.documents.accepted → query_of frame.old ≡ word t
        → (n : Moment) × P.stands port.new n × IsNotBefore n m × P.keeps port.old m port.new n
        × (steps.new + 1 ≤ steps.old + count_bound [] m n count t (length tally.old.buckets)) }
{
    let mut firsts = [0; MAX_SEGMENTS as usize];
    let begun = visible_segments(port, count, &mut firsts, steps);
    tally_walk(port, frame, tally, count, &firsts, begun, steps);
}
