//! The search of documents that are known.
ghost use Rattle.std.specs.Prelude.{◌≡◌, ◌-◌, ◌++◌, ◌≤◌, List, length};
ghost use mathlib.Core.List.{IsPrefix};
ghost use Rattle.eb_base.specs.Document.{Doc};
ghost use Rattle.eb_base.specs.Match.{answer};
ghost use Rattle.eb_place.specs.Told.{Told};
ghost use Rattle.eb_place.specs.declared.moment.Moment.{Moment};
ghost use Rattle.eb_cursor.specs.Frames.{query_of, k_of, ids_of};

use crate::visible::visible_segments;
use crate::walking::walk;
use eb_base::MAX_SEGMENTS;
use eb_cursor::Frame;
use eb_place::{Port, Steps};
use std::sync::ledger::Ledger;

/// Searches exactly the first `count` documents, all of which are accepted. It loads no count, and
/// puts the ids that it finds after those of the frame, as many as the frame still takes. So
/// documents that are accepted later change nothing of it, whenever it is called. Takes no memory.
pub fn search_first<P: Port, L: Ledger>(
    port: &mut P,
    count: u64,
    frame: &mut Frame,
    steps: &mut Steps<L>,
)
    requires { (m : Moment) × P.stands port.old m × (count ≤ length m.documents.accepted) }
    ensures query { query_of frame.new ≡ query_of frame.old }
    ensures k { k_of frame.new ≡ k_of frame.old }
    ensures ids { (docs : List Doc) → length docs ≡ count → Told P.stands P.keeps port.old port.new
        (λ m. IsPrefix docs m.documents.accepted)
        (λ n. ids_of frame.new ≡ ids_of frame.old ++ answer (query_of frame.old) (k_of frame.old - length (ids_of frame.old)) docs) }
{
    let mut firsts = [0; MAX_SEGMENTS as usize];
    let begun = visible_segments(port, count, &mut firsts, steps);
    walk(port, frame, count, &firsts, begun, steps);
}
