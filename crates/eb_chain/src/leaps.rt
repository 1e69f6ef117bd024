//! Leaps within a slice, whose postings follow one another and rise. The place of the first is
//! computed once.
ghost use Rattle.std.specs.Prelude.{◌≡◌, ℕ, ◌+◌, ◌-◌, ◌*◌, ◌<◌, ◌≤◌, ◌^◌};
ghost use Rattle.eb_base.specs.Term.{Term};
ghost use Rattle.eb_place.specs.declared.moment.Moment.{Moment};
ghost use Rattle.eb_place.specs.Layout.{address_pool, address_offset};
ghost use Rattle.eb_place.specs.Later.{IsNotBefore};
ghost use Rattle.eb_chain.specs.Leaps.{IsRow, IsRowAt, IsOldest, Between, IsNewest, IsLook, IsLookLoads};

use crate::chain::posting_from;
use eb_place::{Places, Port, Posting, Steps, offset_of, pool_of};
use std::sync::ledger::Ledger;

// A posting, and its offset from the slice's first.
#[derive(Clone, Copy, Debug, PartialEq, Eq)]
pub(crate) struct Found {
    pub at: u32,
    pub posting: Posting,
}

// The posting at `low` is known and not above a number, those from `high` on are above it.
#[derive(Clone, Copy, Debug, PartialEq, Eq)]
pub(crate) struct Bounds {
    pub low: u32,
    pub high: u32,
    pub found: Posting,
}

// What a look into a slice finds: a posting, or the slice's first where all are above.
#[derive(Clone, Copy, Debug, PartialEq, Eq)]
pub(crate) enum Look {
    Within(Found),
    Above(Posting),
}

// The address of the first posting of the slice of this one.
pub(crate) fn oldest_in_slice(address: u32) -> u32
    requires { 1 ≤ address_pool address → 1 ≤ address_offset address }
    ensures { IsOldest address result }
{
    if pool_of(address) == 0 {
        address - offset_of(address)
    } else {
        address - (offset_of(address) - 1)
    }
}

// The newest posting of a slice, from the one at `span` on, that isn't above `most`. Loads the
// slice's first posting, and looks further only where that isn't above.
pub(crate) fn look_back<P: Port, L: Ledger>(
    port: &mut P,
    segment: u32,
    oldest: u32,
    span: u32,
    most: Posting,
    steps: &mut Steps<L>,
) -> Look
    requires { (m : Moment) × (t : Term) × (b : ℕ) × P.stands port.old m × IsRow m segment t b oldest span }
    ensures told { (m : Moment) (t : Term) (b : ℕ) → P.stands port.old m → IsRow m segment t b oldest span
        → (n : Moment) × P.stands port.new n × IsNotBefore n m × P.keeps port.old m port.new n
        × IsLook m segment t b span most result }
    ensures loads { IsLookLoads span result steps.old steps.new }
{
    let places = Places::new(port.config());
    let place = places.posting_at(segment, oldest);
    let first = posting_from(port, place, steps);
    if first > most {
        return Look::Above(first);
    }
    let bounds = gallop(port, place, span, first, most, steps);
    Look::Within(halve(port, place, span, bounds, most, steps))
}

// Leaps back from the newest posting, each leap twice as long as the one before, to one that isn't
// above `most`; `first` is the slice's first posting, which isn't.
fn gallop<P: Port, L: Ledger>(
    port: &mut P,
    place: u64,
    span: u32,
    first: Posting,
    most: Posting,
    steps: &mut Steps<L>,
) -> Bounds
    requires { (m : Moment) × (s : ℕ) × (t : Term) × (b : ℕ) × (o : ℕ) × P.stands port.old m × IsRowAt m s t b o span place
        × Between m s t b span most (record { low = 0; high = span + 1; found = first }) }
    ensures told { (m : Moment) (s : ℕ) (t : Term) (b o : ℕ) → P.stands port.old m → IsRowAt m s t b o span place
        → Between m s t b span most (record { low = 0; high = span + 1; found = first })
        → (n : Moment) × P.stands port.new n × IsNotBefore n m × P.keeps port.old m port.new n
        × Between m s t b span most result }
    ensures loads { (i : ℕ) × (result.high + 2 ^ i ≡ span + 2) × (result.high ≤ result.low + 2 ^ i) × (steps.new ≤ steps.old + i + 1) }
{
    let mut high = span + 1;
    let mut step = 1;
    while step < high {
        let at = high - step;
        let posting = posting_from(port, place + u64::from(at), steps);
        if posting <= most {
            return Bounds {
                low: at,
                high,
                found: posting,
            };
        }
        high = at;
        step *= 2;
    }
    Bounds {
        low: 0,
        high,
        found: first,
    }
}

// Halves the range between the bounds until it is empty.
fn halve<P: Port, L: Ledger>(
    port: &mut P,
    place: u64,
    span: u32,
    bounds: Bounds,
    most: Posting,
    steps: &mut Steps<L>,
) -> Found
    requires { (m : Moment) × (l : Moment) × (s : ℕ) × (t : Term) × (b : ℕ) × (o : ℕ) × P.stands port.old m × IsRowAt m s t b o span place
        × IsNotBefore m l × Between l s t b span most bounds × IsRowAt l s t b o span place }
    ensures told { (l : Moment) (m : Moment) (s : ℕ) (t : Term) (b o : ℕ) → P.stands port.old m → IsNotBefore m l → IsRowAt l s t b o span place
        → IsRowAt m s t b o span place → Between l s t b span most bounds
        → (n : Moment) × P.stands port.new n × IsNotBefore n m × P.keeps port.old m port.new n
        × IsNewest l s t b span most result × (result.at < bounds.high) }
    ensures loads { (c : ℕ) → bounds.high ≤ bounds.low + 2 ^ c → steps.new ≤ steps.old + c }
{
    let mut now = bounds;
    while now.high - now.low > 1 {
        let middle = now.low + (now.high - now.low) / 2;
        let posting = posting_from(port, place + u64::from(middle), steps);
        now = if posting <= most {
            Bounds {
                low: middle,
                high: now.high,
                found: posting,
            }
        } else {
            Bounds {
                low: now.low,
                high: middle,
                found: now.found,
            }
        };
    }
    Found {
        at: now.low,
        posting: now.found,
    }
}
