//! Where the postings of a term come from.
ghost use Rattle.std.specs.Prelude.{◌≡◌, ℕ, ◌+◌, ◌-◌, ◌*◌, ◌<◌, ◌≤◌, List, length};
ghost use Rattle.std.specs.Bool.{MatchBool};
ghost use Rattle.eb_place.specs.declared.moment.Moment.{Moment};
ghost use Rattle.eb_place.specs.Told.{Told};
ghost use Rattle.eb_cursor.specs.Costs.{Costs, Spans, look_loads, opening_loads, IsPaid, IsReadAs, IsReading, Pays, PaysBesides, word_loads};
ghost use Rattle.eb_base.specs.Term.{Term};
ghost use Rattle.eb_chain.specs.Chains.{Stands, Given};
ghost use Rattle.eb_place.specs.Postings.{at_most};
ghost use Rattle.eb_chain.specs.Leaps.{slices_in_use};
ghost use Rattle.eb_cursor.specs.Finds.{OpensIn};
ghost use Rattle.eb_cursor.specs.Lists.{list_gives, CanGive, Gave, from_below};
ghost use Rattle.eb_cursor.specs.Opened.{CanOpen, Opened};
ghost use Rattle.eb_place.specs.PackedLists.{IsConverted};

use eb_base::Term;
use eb_block::PackedList;
use eb_chain::Chain;
use eb_place::{Places, Port, Posting, Steps};
use eb_terms::find;
use std::sync::ledger::Ledger;

/// The postings of a term in one segment that weren't given yet, newest first.
#[derive(Drop)]
pub enum PostingList {
    /// There are none.
    Empty,
    /// Those that the live slices still hold.
    Live(Chain),
    /// Those that the packed blocks of a converted segment still hold.
    Packed(PackedList),
}

/// Whether a segment is converted, so that its packed lists may be read: whether its converted word
/// is 1. One load.
pub fn is_packed<P: Port, L: Ledger>(port: &mut P, segment: u32, steps: &mut Steps<L>) -> bool
    requires { (m : Moment) × P.stands port.old m × (segment < m.setting.segments) }
    ensures told { Told P.stands P.keeps port.old port.new (λ m. segment < m.setting.segments)
        (λ n. MatchBool result (IsConverted n segment) (n.conversions.converted ≤ segment)) }
    ensures step { steps.new ≡ steps.old + 1 }
{
    let places = Places::new(port.config());
    let word = port.load(places.converted(segment), steps);
    word == 1
}

impl PostingList {
    /// The postings of a term in a segment, among them those of its first documents: from its
    /// packed list where `packed`, which requires that the segment is converted, else from its live
    /// slices. Takes no memory.
    pub fn open<P: Port, L: Ledger>(
        term: &Term,
        segment: u32,
        packed: bool,
        port: &mut P,
        steps: &mut Steps<L>,
    ) -> PostingList
        requires { CanOpen P.stands port.old segment packed }
        ensures opened { OpensIn P.stands P.keeps port.old port.new segment packed (λ docs n. Opened n docs term.now result) }
        ensures costs { (was : Moment) → Told P.stands P.keeps port.old port.new (λ m. IsReading was m segment packed)
            (λ n. IsPaid (Costs n segment term.now result) steps.old (word_loads was n segment term.now) (steps.new + 1)) }
        ensures spans { Told P.stands P.keeps port.old port.new (λ m. IsReadAs m segment packed)
            (λ n. IsPaid (Spans n segment term.now result) steps.old (opening_loads n segment term.now) steps.new) }
    {
        let Some(number) = find(port, segment, term, steps) else {
            return PostingList::Empty;
        };
        if packed {
            return PostingList::Packed(PackedList::open(port, segment, number, steps));
        }
        PostingList::Live(Chain::open(port, segment, number, steps))
    }

    /// The next posting, until all are given. Takes no memory.
    #[inline(always)]
    pub fn next<P: Port, L: Ledger>(
        &mut self,
        port: &mut P,
        steps: &mut Steps<L>,
    ) -> Option<Posting>
        requires { CanGive P.stands port.old self.old }
        ensures given { (xs : List ℕ) → Told P.stands P.keeps port.old port.new (λ m. list_gives m self.old xs) (Gave xs self.new result) }
        ensures loads { steps.new ≤ steps.old + 2 }
        ensures costs { Pays P.stands P.keeps port.old port.new Costs self.old self.new steps.old steps.new }
        ensures spans { PaysBesides P.stands P.keeps port.old port.new Spans self.old self.new 2 steps.old steps.new }
    {
        match self {
            PostingList::Empty => None,
            PostingList::Live(chain) => chain.next(port, steps),
            PostingList::Packed(list) => list.next(port, steps),
        }
    }

    /// The newest posting at or below `most`; those above it are skipped for good. In live slices
    /// the next posting is looked at first; where it isn't the one, the list leaps. Takes no
    /// memory.
    #[inline(always)]
    pub fn next_at_most<P: Port, L: Ledger>(
        &mut self,
        port: &mut P,
        most: Posting,
        steps: &mut Steps<L>,
    ) -> Option<Posting>
        requires { CanGive P.stands port.old self.old }
        ensures given { (xs : List ℕ) → Told P.stands P.keeps port.old port.new
            (λ m. list_gives m self.old xs) (Gave (from_below (most + 1) xs) self.new result) }
        ensures loads { (m : Moment) (xs : List ℕ) → P.stands port.old m → list_gives m self.old xs
            → steps.new ≤ steps.old + 2 * (length xs - length (from_below (most + 1) xs) + 1) + 2 }
        ensures spans { PaysBesides P.stands P.keeps port.old port.new Spans self.old self.new look_loads steps.old steps.new }
    {
        match self {
            PostingList::Empty => None,
            PostingList::Live(chain) => look_at_most(chain, port, most, steps),
            PostingList::Packed(list) => list.next_at_most(port, most, steps),
        }
    }

    /// How common the term is: the pool that the live slices are in, or how many postings a packed
    /// list still has to give; 0 where it is empty. All lists of a segment are of one kind. Loads
    /// nothing.
    pub fn frequency(&self) -> u64 {
        match self {
            PostingList::Empty => 0,
            PostingList::Live(chain) => u64::from(chain.pool()),
            PostingList::Packed(list) => list.postings_left(),
        }
    }
}

// The newest posting of a chain at or below `most`. The next posting is looked at first; where it
// isn't the one, the chain leaps.
fn look_at_most<P: Port, L: Ledger>(
    chain: &mut Chain,
    port: &mut P,
    most: Posting,
    steps: &mut Steps<L>,
) -> Option<Posting>
    requires { (m : Moment) × (s : ℕ) × (t : Term) × (opened : ℕ) × (rest : List ℕ)
        × P.stands port.old m × Stands m s t chain.old opened rest }
    ensures told { (s : ℕ) (t : Term) (opened : ℕ) (rest : List ℕ) → Told P.stands P.keeps port.old port.new
        (λ m. Stands m s t chain.old opened rest) (λ n. Given n s t chain.new opened (at_most most rest) result) }
    ensures loads { (m : Moment) (s : ℕ) (t : Term) (opened : ℕ) (rest : List ℕ)
        → P.stands port.old m → Stands m s t chain.old opened rest
        → steps.new ≤ steps.old + 2 * (length rest - length (at_most most rest) + 1) + 2 }
    ensures spans { (m : Moment) (s : ℕ) (t : Term) (opened : ℕ) (rest : List ℕ)
        → P.stands port.old m → Stands m s t chain.old opened rest
        → steps.new + 2 * slices_in_use (length (at_most most rest)) ≤ steps.old + 2 * slices_in_use (length rest) + look_loads }
{
    let Some(posting) = chain.next(port, steps) else {
        return None;
    };
    if posting <= most {
        return Some(posting);
    }
    chain.next_at_most(port, most, steps)
}
