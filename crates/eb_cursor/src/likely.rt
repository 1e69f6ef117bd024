//! The segments in which a word may be.
//!
//! A word's list is found segment by segment, and each step of it waits for memory: home cell, text
//! place, text, list. The home cells of all segments don't depend on each other, so they are loaded
//! first, one after the other, and a segment whose home cell is free is skipped. The bound on the
//! loads of a word's search stays as it is. Rejected: the same for an And, whose words are looked
//! up in the segment at hand, and a table of all segments' words, which the writer would have to
//! keep.
ghost use Rattle.std.specs.Prelude.{◌≡◌, ℕ, ◌+◌, ◌≤◌, true, false, get_or};
ghost use Rattle.eb_place.specs.declared.moment.Moment.{Moment};
ghost use Rattle.eb_place.specs.Later.{IsNotBefore};
ghost use Rattle.eb_place.specs.Seen.{IsEntered};
ghost use Rattle.eb_cursor.specs.Greatest.{AreFilled};

use eb_base::Term;
use eb_marks::Segments;
use eb_place::{Port, Steps};
use eb_terms::{hash_of, may_be_entered};
use std::sync::ledger::Ledger;

/// In which of the first segments a term may be entered: those where its home cell is filled. One
/// load a segment; no load waits for another, so the memory serves them at once.
pub fn segments_with<P: Port, L: Ledger>(
    term: &Term,
    begun: u32,
    port: &mut P,
    steps: &mut Steps<L>,
) -> Segments
    requires { (m : Moment) × P.stands port.old m × (begun ≤ m.setting.segments) }
    ensures told { (m : Moment) → P.stands port.old m
        → (n : Moment) × P.stands port.new n × IsNotBefore n m × P.keeps port.old m port.new n
        × ((s : ℕ) → get_or result s true ≡ false → IsEntered m s term.now → ⊥) × AreFilled n term.now begun result }
    ensures loads { steps.new ≡ steps.old + begun }
{
    let hashed = hash_of(term);
    let mut likely = Segments::all();
    for segment in 0..begun {
        if !may_be_entered(port, segment, term, hashed, steps) {
            likely = likely.without(segment);
        }
    }
    likely
}
