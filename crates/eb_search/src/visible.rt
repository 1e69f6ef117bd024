//! The segments that a search looks at.
ghost use Rattle.std.specs.Prelude.{◌≡◌, ◌<◌, ◌≤◌, ◌+◌, List, [], length, get_or};
ghost use mathlib.Core.List.{IsPrefix};
ghost use Rattle.eb_base.specs.Document.{Doc};
ghost use Rattle.eb_place.specs.declared.moment.Moment.{Moment};
ghost use Rattle.eb_place.specs.Moments.{IsMoment};
ghost use Rattle.eb_place.specs.Room.{cut};
ghost use Rattle.eb_place.specs.Told.{Told};
ghost use Rattle.eb_search.specs.Visible.{AreVisible};

use eb_base::MAX_SEGMENTS;
use eb_place::{Places, Port, Steps};
use std::sync::ledger::Ledger;

/// How many segments hold one of the first `count` accepted documents. Puts the first-document word
/// of each of them into `firsts`. A segment that was begun since, or whose first document isn't
/// among them, isn't counted: its word is 0 or above `count`. Loads at most one word a segment.
pub(crate) fn visible_segments<P: Port, L: Ledger>(
    port: &mut P,
    count: u64,
    firsts: &mut [u64; MAX_SEGMENTS as usize],
    steps: &mut Steps<L>,
) -> u32
    requires { (m : Moment) × P.stands port.old m × (count ≤ length m.documents.accepted) }
    ensures words { (docs : List Doc) → length docs ≡ count → Told P.stands P.keeps port.old port.new
        (λ m. IsPrefix docs m.documents.accepted) (λ n. AreVisible n docs firsts.new result) }
    ensures loads { (m : Moment) → P.stands port.old m → steps.new ≤ steps.old + m.setting.segments }
{
    let config = port.config();
    let places = Places::new(config);
    let mut segment = 0;
    while segment < config.segments() {
        let first = port.load(places.first(segment), steps);
        if first == 0 || first > count {
            return segment;
        }
        firsts[segment as usize] = first;
        segment += 1;
    }
    segment
}

/// How many of the first `count` accepted documents are in this segment, one of the `begun` ones.
/// `firsts` has the first-document word of each of these.
pub(crate) fn documents_in(
    firsts: &[u64; MAX_SEGMENTS as usize],
    begun: u32,
    count: u64,
    segment: u32,
) -> u32
    requires visible { (m : Moment) × (docs : List Doc) × IsMoment m × (length docs ≡ count) × AreVisible m docs firsts.now begun }
    requires begun { segment < begun }
    ensures { (m : Moment) (docs : List Doc) → IsMoment m → length docs ≡ count → AreVisible m docs firsts.now begun
        → result ≡ length (get_or (cut m.setting docs) segment []) }
{
    let mut end = count;
    if segment + 1 < begun {
        end = firsts[segment as usize + 1] - 1;
    }
    (end - (firsts[segment as usize] - 1)) as u32
}
