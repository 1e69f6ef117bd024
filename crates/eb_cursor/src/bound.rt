//! Bounds on ids: the ids of a segment's documents are loaded from the newest on, each at most
//! once.
ghost use Rattle.std.specs.Prelude.{◌≡◌, ◌+◌, ◌<◌, ◌≤◌, ◌^◌, List, length};
ghost use Rattle.eb_base.specs.Document.{Doc};
ghost use Rattle.eb_base.specs.Query.{since};
ghost use Rattle.eb_place.specs.Told.{Told};
ghost use Rattle.eb_cursor.specs.Tops.{top, number_before};
ghost use Rattle.eb_cursor.specs.Accepted.{AreFirst};
ghost use Rattle.eb_cursor.specs.Loads.{ahead, loads_left};
ghost use Rattle.eb_cursor.specs.Posted.{doc_at, match_at};
ghost use Rattle.eb_cursor.specs.Asked.{CanAskBound, CanAskSince, CanLoadIds};
ghost use Rattle.eb_cursor.specs.Finds.{FindsMatch, FindsBound};

use crate::cursor::{Cursor, last_before, place_after};
use eb_place::{Places, Port, Steps};
use std::sync::ledger::Ledger;

// The id of one of the first accepted documents of a segment. One load.
fn load_id<P: Port, L: Ledger>(
    segment: u32,
    document: u32,
    port: &mut P,
    steps: &mut Steps<L>,
) -> u64
    requires { CanLoadIds P.stands port.old segment (document + 1) }
    ensures id { (docs : List Doc) → document < length docs → Told P.stands P.keeps port.old port.new
        (λ m. AreFirst m segment docs) (λ n. result ≡ (doc_at docs document).id) }
    ensures step { steps.new ≡ steps.old + 1 }
{
    let places = Places::new(port.config());
    port.load(places.id(segment, document), steps)
}

// One more than the greatest document below `end` whose id is greater than the bound, or 0. Loads
// the ids of those from there on.
fn ids_below<P: Port, L: Ledger>(
    bound: u64,
    segment: u32,
    port: &mut P,
    steps: &mut Steps<L>,
    end: u64,
) -> u64
    requires small { end ≤ 2 ^ 32 }
    requires ready { CanLoadIds P.stands port.old segment end }
    ensures found { (docs : List Doc) → end ≤ length docs → Told P.stands P.keeps port.old port.new
        (λ m. AreFirst m segment docs) (λ n. result ≡ top (match_at docs (since bound)) end) }
    ensures within { result ≤ end }
    ensures loads { steps.new + number_before result ≤ steps.old + end }
{
    let mut place = end;
    while place > 0 {
        let id = load_id(segment, (place - 1) as u32, port, steps);
        if id > bound {
            return place;
        }
        place -= 1;
    }
    place
}

// One more than the greatest document below `end` whose id is greater than the bound, or 0. The
// cursor says which of them is known.
fn cursor_below<P: Port, L: Ledger>(
    bound: u64,
    cursor: &mut Cursor,
    port: &mut P,
    steps: &mut Steps<L>,
    end: u64,
) -> u64
    requires small { end ≤ 2 ^ 32 }
    requires ready { CanAskBound P.stands port.old bound cursor.old end }
    ensures found { FindsBound P.stands P.keeps port.old port.new bound cursor.old cursor.new end result }
    ensures falls { ahead cursor.new.current ≤ ahead cursor.old.current }
    ensures loads { steps.new + ahead cursor.new.current ≤ steps.old + ahead cursor.old.current }
{
    let start = end.min(cursor.upto);
    if start == 0 || place_after(cursor.current) < start {
        return start;
    }
    let found = ids_below(bound, cursor.segment, port, steps, start);
    cursor.upto = found;
    cursor.current = last_before(found.saturating_sub(1));
    found
}

/// One more than the greatest document below `end` whose id is greater than the bound, or 0.
pub fn bound_below<P: Port, L: Ledger>(
    bound: u64,
    cursors: &mut [Cursor],
    port: &mut P,
    steps: &mut Steps<L>,
    end: u64,
) -> u64
    requires small { end ≤ 2 ^ 32 }
    requires ready { CanAskSince P.stands port.old bound cursors.old end }
    ensures found { FindsMatch P.stands P.keeps port.old port.new (since bound) cursors.old cursors.new end result }
    ensures loads { steps.new + loads_left cursors.new ≤ steps.old + loads_left cursors.old }
{
    cursor_below(bound, &mut cursors[0], port, steps, end)
}
