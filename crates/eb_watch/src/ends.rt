//! Where terms that occur in their order end.
ghost use Rattle.std.specs.Prelude.{◌≡◌, ◌≢◌, ◌+◌, ◌<◌, ◌≤◌, ◌↔◌, ℕ, eqb, nat_lt, if◌then◌else◌, length, get_or, IsTrue};
ghost use Rattle.eb_watch.specs.Ends.{none, first_end, stepped, IsNear};

// Of a place from which no terms occur.
const NONE: usize = usize::MAX;

// The end where a place has the number.
fn end_where(place: usize, number: usize, end: usize) -> usize
    ensures { result ≡ (if eqb place number then end else none) }
{
    if place == number { end } else { NONE }
}

// The lesser of both.
fn lesser(one: usize, other: usize) -> usize
    ensures { result ≡ (if nat_lt one other then one else other) }
{
    if one < other { one } else { other }
}

// Whether the end is at most this many after the place.
fn is_near_at(end: usize, place: usize, reach: usize) -> bool
    ensures { IsTrue result ↔ (end ≢ none) × (end ≤ place + reach) }
{
    end != NONE && end.saturating_sub(place) <= reach
}

// Puts the end of one term that is at a place: the place itself.
pub(crate) fn put_first(places: &[usize], number: usize, ends: &mut [usize])
    requires { length ends.old ≡ length places.now }
    ensures length { length ends.new ≡ length places.now }
    ensures ends { (k : ℕ) → k < length places.now → get_or ends.new k 0 ≡ first_end number (get_or places.now k 0) k }
{
    for (at, place) in places.iter().enumerate() {
        ends[at] = end_where(*place, number, at);
    }
}

// Puts the least end of terms of which the first has this number and is at a place, from the least
// ends of those after it.
pub(crate) fn put_next(places: &[usize], number: usize, ends: &mut [usize])
    requires { length ends.old ≡ length places.now }
    ensures length { length ends.new ≡ length places.now }
    ensures ends { (k : ℕ) → k < length places.now → get_or ends.new k 0 ≡ stepped number places.now ends.old k }
{
    let mut least = NONE;
    let mut at = places.len();
    'places: while at > 0 {
        at -= 1;
        let end = ends[at];
        ends[at] = end_where(places[at], number, least);
        least = lesser(least, end);
    }
}

// Whether some end is at most this many after its place.
pub(crate) fn is_near(ends: &[usize], reach: usize) -> bool
    ensures { IsTrue result ↔ IsNear ends.now reach }
{
    for (at, end) in ends.iter().enumerate() {
        if is_near_at(*end, at, reach) {
            return true;
        }
    }
    false
}
