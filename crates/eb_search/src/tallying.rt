//! The counting of the matches of one segment, and the walk over all segments.
ghost use Rattle.std.specs.Prelude.{◌≡◌, ℕ, ◌+◌, ◌<◌, ◌≤◌, List, [], length, slice_get, Some};
ghost use mathlib.Core.List.{IsPrefix};
ghost use Rattle.eb_base.specs.Document.{Doc};
ghost use Rattle.eb_base.specs.Query.{word};
ghost use Rattle.eb_count.specs.Counts.{match_count};
ghost use Rattle.eb_count.specs.Tallies.{HasAdded, HasCounted};
ghost use Rattle.eb_place.specs.declared.moment.Moment.{Moment};
ghost use Rattle.eb_place.specs.Later.{IsNotBefore};
ghost use Rattle.eb_place.specs.Room.{cut};
ghost use Rattle.eb_place.specs.Told.{Told};
ghost use Rattle.eb_cursor.specs.Accepted.{accepted_in};
ghost use Rattle.eb_cursor.specs.Costs.{word_loads};
ghost use Rattle.eb_cursor.specs.Frames.{query_of, SeenAs};
ghost use Rattle.eb_search.specs.Bounds.{loads_from, match_loads};
ghost use Rattle.eb_search.specs.Visible.{AreVisible, AreNone, CanWalk};

use crate::visible::documents_in;
use eb_base::MAX_SEGMENTS;
use eb_count::Tally;
use eb_cursor::Frame;
use eb_marks::Segments;
use eb_place::{Places, Port, Steps};
use std::sync::ledger::Ledger;

// Counts a match, the document with this number of a segment. Loads its id only where the tally has
// buckets.
fn tally_document<P: Port, L: Ledger>(
    port: &mut P,
    tally: &mut Tally,
    segment: u32,
    document: u32,
    steps: &mut Steps<L>,
)
    requires { (m : Moment) × (docs : List Doc) × P.stands port.old m × IsPrefix docs (accepted_in m segment) × (document < length docs) }
    ensures buckets { length tally.new.buckets ≡ length tally.old.buckets }
    ensures loads { steps.new ≤ steps.old + match_loads (length tally.old.buckets) 1 }
    ensures counted { (docs : List Doc) (d : Doc) → slice_get docs document ≡ Some d → document < length docs
        → Told P.stands P.keeps port.old port.new (λ m. IsPrefix docs (accepted_in m segment)) (λ n. HasAdded d.id tally.old tally.new) }
{
    if !tally.wants_ids() {
        tally.add(0);
        return;
    }
    let places = Places::new(port.config());
    let id = port.load(places.id(segment, document), steps);
    tally.add(id);
}

/// Counts all matches among the first `documents` documents of a segment. At least that many of its
/// documents are accepted.
pub(crate) fn tally_matches<P: Port, L: Ledger>(
    port: &mut P,
    frame: &mut Frame,
    tally: &mut Tally,
    segment: u32,
    documents: u32,
    steps: &mut Steps<L>,
)
    requires { (m : Moment) × P.stands port.old m × (1 ≤ documents) × (documents ≤ length (accepted_in m segment)) }
    ensures seen { SeenAs frame.old frame.new }
    ensures buckets { length tally.new.buckets ≡ length tally.old.buckets }
    ensures counted { (docs : List Doc) → length docs ≡ documents → Told P.stands P.keeps port.old port.new
        (λ m. IsPrefix docs (accepted_in m segment)) (λ n. HasCounted (query_of frame.old) docs tally.old tally.new) }
    ensures costs { (was : Moment) (docs : List Doc) (t : List ℕ) → length docs ≡ documents → query_of frame.old ≡ word t
        → Told P.stands P.keeps port.old port.new (λ m. IsPrefix docs (accepted_in m segment) × IsNotBefore m was)
        (λ n. steps.new ≤ steps.old + word_loads was n segment t + match_loads (length tally.old.buckets) (match_count (word t) docs)) }
{
    frame.start(port, segment, documents, steps);
    let mut end = documents;
    while end > 0 {
        let Some(document) = frame.at_most(port, end - 1, steps) else {
            return;
        };
        tally_document(port, tally, segment, document, steps);
        end = document;
    }
}

/// Counts all matches among the first `count` accepted documents, from the newest of their `begun`
/// segments to the oldest. `firsts` has the first-document word of each of these segments. It skips
/// those that can't have a match.
pub(crate) fn tally_walk<P: Port, L: Ledger>(
    port: &mut P,
    frame: &mut Frame,
    tally: &mut Tally,
    count: u64,
    firsts: &[u64; MAX_SEGMENTS as usize],
    begun: u32,
    steps: &mut Steps<L>,
)
    requires { CanWalk P.stands port.old count firsts.now begun }
    ensures seen { SeenAs frame.old frame.new }
    ensures counted { (docs : List Doc) → length docs ≡ count → Told P.stands P.keeps port.old port.new
        (λ m. AreVisible m docs firsts.now begun) (λ n. HasCounted (query_of frame.old) docs tally.old tally.new) }
    ensures costs { (was : Moment) (docs : List Doc) (t : List ℕ) → length docs ≡ count → query_of frame.old ≡ word t
        → Told P.stands P.keeps port.old port.new (λ m. AreVisible m docs firsts.now begun × IsNotBefore m was)
        (λ n. steps.new ≤ steps.old + begun + loads_from [] was n 0 begun t + match_loads (length tally.old.buckets) (match_count (word t) docs)) }
{
    let likely = frame.likely(port, begun, steps);
    tally_walk_likely(port, frame, tally, count, firsts, likely, begun, steps);
}

/// Counts as above, and skips each segment of which `likely` says that none of these documents of
/// it matches. Whatever it says, the documents stay visible.
pub(crate) fn tally_walk_likely<P: Port, L: Ledger>(
    port: &mut P,
    frame: &mut Frame,
    tally: &mut Tally,
    count: u64,
    firsts: &[u64; MAX_SEGMENTS as usize],
    likely: Segments,
    begun: u32,
    steps: &mut Steps<L>,
)
    requires { CanWalk P.stands port.old count firsts.now begun }
    ensures seen { SeenAs frame.old frame.new }
    ensures stands { (docs : List Doc) → length docs ≡ count → Told P.stands P.keeps port.old port.new
        (λ m. AreVisible m docs firsts.now begun) (λ n. AreVisible n docs firsts.now begun) }
    ensures counted { (docs : List Doc) → length docs ≡ count → Told P.stands P.keeps port.old port.new
        (λ m. AreVisible m docs firsts.now begun × AreNone (query_of frame.old) (cut m.setting docs) likely)
        (λ n. HasCounted (query_of frame.old) docs tally.old tally.new) }
    ensures costs { (was : Moment) (docs : List Doc) (t : List ℕ) → length docs ≡ count → query_of frame.old ≡ word t
        → Told P.stands P.keeps port.old port.new (λ m. AreVisible m docs firsts.now begun × IsNotBefore m was)
        (λ n. steps.new ≤ steps.old + loads_from likely was n 0 begun t + match_loads (length tally.old.buckets) (match_count (word t) docs)) }
{
    let mut top = begun;
    while let Some(segment) = likely.last_below(top) {
        let documents = documents_in(firsts, begun, count, segment);
        tally_matches(port, frame, tally, segment, documents, steps);
        top = segment;
    }
}
