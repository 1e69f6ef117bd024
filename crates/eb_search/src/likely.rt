//! The search that skips segments which its caller knows to have no match.
ghost use Rattle.std.specs.Prelude.{◌≡◌, ℕ, ◌+◌, ◌≤◌, List, length};
ghost use Rattle.eb_place.specs.declared.moment.Moment.{Moment};
ghost use Rattle.eb_cursor.specs.Frames.{query_of, k_of, ids_of};
ghost use Rattle.eb_base.specs.Query.{word, conjunction};
ghost use Rattle.eb_cursor.specs.AndCosts.{word_parts};
ghost use Rattle.eb_place.specs.Later.{IsNotBefore};
ghost use Rattle.eb_search.specs.Searched.{SearchedLikely, SearchedOnLikely};
ghost use Rattle.eb_search.specs.Bounds.{load_bound, and_bound, ids_loads};

use crate::visible::visible_segments;
use crate::walking::walk_likely;
use eb_base::{Gate, MAX_SEGMENTS, Point};
use eb_cursor::Frame;
use eb_marks::Segments;
use eb_place::{Port, Steps};
use std::sync::ledger::Ledger;

/// Searches as [`search`] does, over all segments but those of which `likely` says false: the
/// answer is the same where none of the documents of these segments matches. The bounds on loads
/// are those of [`search`] but count nothing for what is in these segments. Takes no memory.
///
/// [`search`]: crate::search
pub fn search_likely<P: Port, G: Gate, L: Ledger>(
    port: &mut P,
    frame: &mut Frame,
    gate: &G,
    likely: Segments,
    steps: &mut Steps<L>,
) -> u64
    requires { (m : Moment) × P.stands port.old m }
    ensures query { query_of frame.new ≡ query_of frame.old }
    ensures k { k_of frame.new ≡ k_of frame.old }
    ensures answer { (m : Moment) → P.stands port.old m → (n : Moment) × P.stands port.new n × P.keeps port.old m port.new n
        × SearchedLikely m n (query_of frame.old) (k_of frame.old) likely result (ids_of frame.new) }
    ensures loads { (m : Moment) (t : List ℕ) → P.stands port.old m → query_of frame.old ≡ word t
        → (n : Moment) × P.stands port.new n × IsNotBefore n m × P.keeps port.old m port.new n
        × (steps.new ≤ steps.old + load_bound likely m n result t (length (ids_of frame.new))) }
    ensures rounds { (m : Moment) (ts : List (List ℕ)) → P.stands port.old m → query_of frame.old ≡ conjunction (word_parts ts)
        → (n : Moment) × P.stands port.new n × IsNotBefore n m × P.keeps port.old m port.new n
        × (steps.new ≤ steps.old + and_bound likely n result ts (length (ids_of frame.new))) }
{
    frame.clear();
    search_on_likely(port, frame, gate, likely, steps)
}

/// Searches as [`search_likely`] does, and keeps the ids that the frame holds: the ids that it
/// finds come after them, as many as the frame still takes. Takes no memory.
pub fn search_on_likely<P: Port, G: Gate, L: Ledger>(
    port: &mut P,
    frame: &mut Frame,
    gate: &G,
    likely: Segments,
    steps: &mut Steps<L>,
) -> u64
    requires { (m : Moment) × P.stands port.old m }
    ensures query { query_of frame.new ≡ query_of frame.old }
    ensures k { k_of frame.new ≡ k_of frame.old }
    ensures answer { (m : Moment) → P.stands port.old m → (n : Moment) × P.stands port.new n × P.keeps port.old m port.new n
        × SearchedOnLikely m n (query_of frame.old) (k_of frame.old) likely result (ids_of frame.old) (ids_of frame.new) }
    ensures loads { (m : Moment) (t : List ℕ) → P.stands port.old m → query_of frame.old ≡ word t
        → (n : Moment) × P.stands port.new n × IsNotBefore n m × P.keeps port.old m port.new n
        × (steps.new + length (ids_of frame.old) ≤ steps.old + load_bound likely m n result t (length (ids_of frame.new))) }
    ensures rounds { (m : Moment) (ts : List (List ℕ)) → P.stands port.old m → query_of frame.old ≡ conjunction (word_parts ts)
        → (n : Moment) × P.stands port.new n × IsNotBefore n m × P.keeps port.old m port.new n
        × (steps.new + ids_loads ts (length (ids_of frame.old)) ≤ steps.old + and_bound likely n result ts (length (ids_of frame.new))) }
{
    // (before the load, across which it would be cleared twice)
    let mut firsts = [0; MAX_SEGMENTS as usize];
    let count = port.load(0, steps);
    gate.reached(Point::CountLoaded(count));
    let begun = visible_segments(port, count, &mut firsts, steps);
    walk_likely(port, frame, count, &firsts, likely, begun, steps);
    count
}
