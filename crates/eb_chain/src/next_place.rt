ghost use Rattle.std.specs.Prelude.{◌≡◌, ℕ, ◌+◌, ◌*◌, ◌<◌, ◌^◌};
ghost use Rattle.eb_place.specs.Layout.{slice_bits, address_number};
ghost use Rattle.eb_chain.specs.Needs.{IsTailWord};
ghost use Rattle.eb_chain.specs.NextPlaces.{HasAddress, IsNextPlace, slices_of, with_slice};

use eb_place::{Used, address, offset_of, pool_of};

/// Where the next posting of a term goes.
#[derive(Clone, Copy, Debug, PartialEq, Eq)]
pub struct NextPlace {
    /// The address of the posting.
    pub address: u32,
    /// Where it begins a slice that has a link: the address of the term's last posting, which the
    /// link holds.
    pub link: Option<u32>,
    /// What is used of the segment, this posting included.
    pub used: Used,
}

/// The place of the next posting of a term, by the term's tail word: the next of its slice where
/// there is one; else the first of the next slice of the next pool, or of pool 3 where the term is
/// in pool 3 (the Earlybird paper of 2012). Takes no memory.
pub fn next_place(tail: u64, used: Used) -> NextPlace
    requires { (f : ℕ) × IsTailWord f tail × HasAddress f used }
    ensures { (f : ℕ) → IsTailWord f tail → HasAddress f used → IsNextPlace f tail used result }
{
    if tail == 0 {
        return first_of_slice(0, 0, None, used);
    }
    let last = (tail - 1) as u32;
    let pool = pool_of(last);
    if offset_of(last) + 1 < places_in(pool) {
        return NextPlace {
            address: last + 1,
            link: None,
            used,
        };
    }
    first_of_slice(pool_after(pool), 1, Some(last), used)
}

// The place at this offset in the next slice of a pool.
fn first_of_slice(pool: u32, offset: u32, link: Option<u32>, used: Used) -> NextPlace
    requires pool { pool < 4 }
    requires address { slices_of used pool * 2 ^ slice_bits pool + offset < 2 ^ 30 }
    requires offset { offset < 2 ^ slice_bits pool }
    ensures address { result.address ≡ address_number pool (slices_of used pool) offset }
    ensures link { result.link ≡ link }
    ensures used { result.used ≡ with_slice used pool }
{
    NextPlace {
        address: address(pool, slices_used(used, pool), offset),
        link,
        used: one_slice_more(used, pool),
    }
}

// The pool of the slice that comes after one of this pool.
fn pool_after(pool: u32) -> u32
    requires { pool < 4 }
    ensures three { pool ≡ 3 → result ≡ 3 }
    ensures next { pool < 3 → result ≡ pool + 1 }
{
    if pool < 3 { pool + 1 } else { 3 }
}

// The places of a slice of a pool, the one of its link included.
fn places_in(pool: u32) -> u32
    requires { pool < 4 }
    ensures { result ≡ 2 ^ slice_bits pool }
{
    match pool {
        0 => 2,
        1 => 16,
        2 => 128,
        _ => 2048,
    }
}

// The slices of a pool that are used.
fn slices_used(used: Used, pool: u32) -> u32
    ensures { result ≡ slices_of used pool }
{
    match pool {
        0 => used.pool0,
        1 => used.pool1,
        2 => used.pool2,
        _ => used.pool3,
    }
}

// With one more slice of a pool.
fn one_slice_more(used: Used, pool: u32) -> Used
    requires { slices_of used pool < 2 ^ 30 }
    ensures { result ≡ with_slice used pool }
{
    match pool {
        0 => Used {
            pool0: used.pool0 + 1,
            ..used
        },
        1 => Used {
            pool1: used.pool1 + 1,
            ..used
        },
        2 => Used {
            pool2: used.pool2 + 1,
            ..used
        },
        _ => Used {
            pool3: used.pool3 + 1,
            ..used
        },
    }
}
