//! A walk over the postings of a term.
//!
//! A chain can be opened for each term with postings in the segment, those of the document being
//! placed included. This asks less than that the term is entered. Its relation has the number of
//! postings that were seen at the opening, since the loads of a call depend on whether a posting
//! was given before. A chain doesn't keep its places: each call computes them, and with that a
//! `next` takes 2.9 ns.
ghost use Rattle.std.specs.Prelude.{◌≡◌, ℕ, List, ◌+◌, ◌-◌, ◌<◌, ◌≤◌, ◌^◌, length, reverse};
ghost use Rattle.eb_base.specs.Term.{Term};
ghost use Rattle.eb_place.specs.declared.moment.Moment.{Moment};
ghost use Rattle.eb_place.specs.Address.{pool_at};
ghost use Rattle.eb_place.specs.Moments.{IsMoment};
ghost use Rattle.eb_place.specs.Told.{Told};
ghost use Rattle.eb_place.specs.Seen.{seen, seen_count};
ghost use Rattle.eb_place.specs.Walk.{IsAddress, IsLink, IsTerm};
ghost use Rattle.eb_chain.specs.Chains.{Stands, Given, next_loads, IsWay, IsWayBefore, IsPlaceOf, IsPosting, IsWayOf};
ghost use Rattle.eb_place.specs.Postings.{at_most};
ghost use Rattle.eb_chain.specs.Leaps.{IsLeap, IsShort, LeadsTo, lead_loads};

use crate::leaps::{Look, look_back, oldest_in_slice};
use eb_place::{Places, Port, Posting, Steps, offset_of, pool_of, posting_in_word};
use std::sync::ledger::Ledger;

// Where the next posting of a walk is found.
#[derive(Clone, Copy, Debug, PartialEq, Eq)]
enum Way {
    // Nowhere: no posting is left.
    End,
    // At this address.
    At(u32),
    // At the address that the link at this address holds.
    Link(u32),
}

/// A backward walk over the postings of one term in one segment. Each slice is linked to the term's
/// earlier slice, so the walk begins at the tail and meets the newest posting first (the Earlybird
/// paper of 2012). It gives the postings whose tails were stored when it was opened, even while
/// more come.
#[derive(Clone, Copy, Debug, PartialEq, Eq)]
pub struct Chain {
    segment: u32,
    way: Way,
}

impl Chain {
    /// Opens the chain of a term, by the term's number in the segment. It has the term's postings
    /// at the moment of this call's one load, that of the tail. Postings of a document that is
    /// being placed are among them where their tails are stored. Takes no memory.
    pub fn open<P: Port, L: Ledger>(
        port: &mut P,
        segment: u32,
        term: u32,
        steps: &mut Steps<L>,
    ) -> Chain
        requires { (m : Moment) × (t : Term) × P.stands port.old m × IsTerm m segment t term }
        ensures told { (t : Term) → Told P.stands P.keeps port.old port.new (λ m. IsTerm m segment t term)
            (λ n. Stands n segment t result (seen_count n segment t) (reverse (seen n segment t))) }
        ensures steps { steps.new ≡ steps.old + 1 }
    {
        let places = Places::new(port.config());
        let tail = port.load(places.tail(segment, term), steps);
        Chain {
            segment,
            way: way_from(tail),
        }
    }

    /// The pool of the slice that the walk is in, 0 to 3, and 0 after the oldest posting: the pool
    /// of the posting that comes next, or of the one that was given before it. It grows with the
    /// number of postings of a term. Loads nothing.
    pub fn pool(&self) -> u32
        ensures { (m : Moment) (s : ℕ) (t : Term) (opened : ℕ) (rest : List ℕ) → IsMoment m → Stands m s t self.now opened rest
            → (pool_at (length rest - 1) ≤ result) × (result ≤ pool_at (length rest)) }
    {
        match self.way {
            Way::End => 0,
            Way::At(address) => pool_of(address),
            Way::Link(link) => pool_of(link),
        }
    }

    /// The newest posting that wasn't given yet; `None` exactly after the oldest, and from then on.
    /// The port's moment must not be before that of the opening. One load a posting, and one more
    /// where the posting given before was the first of a slice that has a link; none where the
    /// answer is `None`. Takes no memory.
    pub fn next<P: Port, L: Ledger>(
        &mut self,
        port: &mut P,
        steps: &mut Steps<L>,
    ) -> Option<Posting>
        requires { (m : Moment) × (s : ℕ) × (t : Term) × (opened : ℕ) × (rest : List ℕ)
            × P.stands port.old m × Stands m s t self.old opened rest }
        ensures told { (s : ℕ) (t : Term) (opened : ℕ) (rest : List ℕ) → Told P.stands P.keeps port.old port.new
            (λ m. Stands m s t self.old opened rest) (λ n. Given n s t self.new opened rest result) }
        ensures steps { (m : Moment) (s : ℕ) (t : Term) (opened : ℕ) (rest : List ℕ)
            → Stands m s t self.old opened rest → steps.new ≡ steps.old + next_loads opened (length rest) }
    {
        let address = match self.way {
            Way::End => return None,
            Way::At(address) => address,
            Way::Link(link) => follow(port, self.segment, link, steps),
        };
        let posting = posting_in(port, self.segment, address, steps);
        self.way = way_before(address);
        Some(posting)
    }

    /// The newest posting at or below `most` that wasn't given yet. Postings above it are skipped
    /// for good; `None` exactly where none is left. The port's moment must not be before that of
    /// the opening. A slice whose first posting is above `most` is skipped by that posting and the
    /// link. In the slice where one isn't, the walk leaps back, each leap twice as long as the one
    /// before, and then halves. Takes no memory.
    pub fn next_at_most<P: Port, L: Ledger>(
        &mut self,
        port: &mut P,
        most: Posting,
        steps: &mut Steps<L>,
    ) -> Option<Posting>
        requires { (m : Moment) × (s : ℕ) × (t : Term) × (opened : ℕ) × (rest : List ℕ)
            × P.stands port.old m × Stands m s t self.old opened rest }
        ensures told { (s : ℕ) (t : Term) (opened : ℕ) (rest : List ℕ) → Told P.stands P.keeps port.old port.new
            (λ m. Stands m s t self.old opened rest) (λ n. Given n s t self.new opened (at_most most rest) result) }
        ensures leap { (m : Moment) (s : ℕ) (t : Term) (opened : ℕ) (rest : List ℕ)
            → P.stands port.old m → Stands m s t self.old opened rest → IsLeap rest (at_most most rest) steps.old steps.new }
        ensures short { (m : Moment) (s : ℕ) (t : Term) (opened : ℕ) (rest : List ℕ)
            → P.stands port.old m → Stands m s t self.old opened rest → IsShort opened rest (at_most most rest) steps.old steps.new }
    {
        // The first posting of the slice that was skipped last: it falls.
        let mut above = u64::MAX;
        while let Some(address) = address_of(port, self.segment, self.way, steps) {
            let oldest = oldest_in_slice(address);
            match look_back(port, self.segment, oldest, address - oldest, most, steps) {
                Look::Within(found) => {
                    self.way = way_before(oldest + found.at);
                    return Some(found.posting);
                }
                Look::Above(first) => {
                    self.way = way_before(oldest);
                    above = u64::from(first);
                }
            }
        }
        None
    }
}

// The address that a way leads to. Ticks one load where it is in a link.
fn address_of<P: Port, L: Ledger>(
    port: &mut P,
    segment: u32,
    way: Way,
    steps: &mut Steps<L>,
) -> Option<u32>
    requires { (m : Moment) × (t : Term) × (f : ℕ) × P.stands port.old m × IsWay m segment t f way }
    ensures told { (t : Term) (f : ℕ) → Told P.stands P.keeps port.old port.new (λ m. IsWay m segment t f way) (λ n. LeadsTo n segment t f result) }
    ensures steps { steps.new ≡ steps.old + lead_loads way }
{
    match way {
        Way::End => None,
        Way::At(address) => Some(address),
        Way::Link(link) => Some(follow(port, segment, link, steps)),
    }
}

// The way from a tail word: 0, or the address of the newest posting plus 1.
fn way_from(tail: u64) -> Way
    requires { tail ≤ 2 ^ 32 }
    ensures { IsWayOf tail result }
{
    if tail == 0 {
        Way::End
    } else {
        Way::At((tail - 1) as u32)
    }
}

// The way from the address of a posting to the posting before it.
fn way_before(address: u32) -> Way
    ensures { IsWayBefore address result }
{
    match (pool_of(address), offset_of(address)) {
        (0, 0) => Way::End,
        (0, _) => Way::At(address - 1),
        (_, 1) => Way::Link(address - 1),
        (_, _) => Way::At(address - 1),
    }
}

// The address that a link holds. Ticks one load.
fn follow<P: Port, L: Ledger>(port: &mut P, segment: u32, link: u32, steps: &mut Steps<L>) -> u32
    requires { (m : Moment) × (t : Term) × (f : ℕ) × P.stands port.old m × IsLink m segment t f link }
    ensures told { (t : Term) (f : ℕ) → Told P.stands P.keeps port.old port.new (λ m. IsLink m segment t f link) (λ n. IsAddress n segment t f result) }
    ensures steps { steps.new ≡ steps.old + 1 }
{
    let places = Places::new(port.config());
    port.load(places.posting_at(segment, link), steps) as u32
}

// The posting at an address. Ticks one load.
fn posting_in<P: Port, L: Ledger>(
    port: &mut P,
    segment: u32,
    address: u32,
    steps: &mut Steps<L>,
) -> Posting
    requires { (m : Moment) × (t : Term) × (f : ℕ) × P.stands port.old m × IsAddress m segment t f address }
    ensures told { (t : Term) (f : ℕ) → Told P.stands P.keeps port.old port.new (λ m. IsAddress m segment t f address)
        (λ n. IsPosting n segment t f address result) }
    ensures steps { steps.new ≡ steps.old + 1 }
{
    let places = Places::new(port.config());
    posting_from(port, places.posting_at(segment, address), steps)
}

// The posting at the place of an address. Ticks one load.
pub(crate) fn posting_from<P: Port, L: Ledger>(
    port: &mut P,
    place: u64,
    steps: &mut Steps<L>,
) -> Posting
    requires { (m : Moment) × (s : ℕ) × (t : Term) × (f : ℕ) × (a : ℕ) × P.stands port.old m × IsPlaceOf m s t f a place }
    ensures told { (s : ℕ) (t : Term) (f a : ℕ) → Told P.stands P.keeps port.old port.new (λ m. IsPlaceOf m s t f a place)
        (λ n. IsPosting n s t f a result) }
    ensures steps { steps.new ≡ steps.old + 1 }
{
    posting_in_word(port.load(place, steps))
}
