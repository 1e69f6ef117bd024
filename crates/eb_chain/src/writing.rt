//! Appending a posting.
//!
//! The condition of `append` says what is left of the placing: this posting's stores, those of the
//! later tokens, the id and the count. So the next store is that of this posting or of its link,
//! and the document's room gives a free slice. `append` loads the tail once. The conversion part
//! may grow at that load, so its clause speaks of the documents part, and of a moment that isn't
//! before. A tail word doesn't say how many slices of pool 3 are full, so the clause of `needs`
//! holds for every number of postings with that tail word.
ghost use Rattle.std.specs.Prelude.{◌≡◌, List, [], ◌∷◌, ◌++◌, ◌+◌, ◌<◌};
ghost use Rattle.std.specs.Option.{ForSome};
ghost use Rattle.eb_base.specs.Term.{Term};
ghost use Rattle.eb_base.specs.Setting.{words_of};
ghost use Rattle.eb_place.specs.declared.moment.Moment.{Moment};
ghost use Rattle.eb_place.specs.Layout.{pool_slot};
ghost use Rattle.eb_place.specs.Layout.Slot.{slot};
ghost use Rattle.eb_place.specs.Layout.Region.{tail_region};
ghost use Rattle.eb_place.specs.Placing.{Store};
ghost use Rattle.eb_place.specs.Moments.{word};
ghost use Rattle.eb_place.specs.Later.{IsNotBefore};
ghost use Rattle.eb_place.specs.NextStores.{after_store, AreNext};
ghost use Rattle.eb_place.specs.Tells.{TellsSegment};
ghost use Rattle.eb_place.specs.Walk.{IsTerm};
ghost use Rattle.eb_place.specs.Told.{Written};
ghost use Rattle.eb_chain.specs.Appends.{IsPostingNext, HasAppended};
ghost use Rattle.eb_chain.specs.NextPlaces.{link_stores, after_link};

use crate::next_place::next_place;
use eb_base::Document;
use eb_place::{Pen, Places, Port, Posting, Steps, Used};
use std::marker::Brand;
use std::sync::ledger::{Blank, Ledger};

/// Appends a posting of the document that is being placed to the chain of its term, by the term's
/// number in the segment. The placing is at the stores of this posting: the slice's link to the
/// term's last posting, where the posting begins a slice of the pools 1 to 3; the posting; the
/// term's tail. The call does exactly these, in this order. `used` describes the segment before and
/// afterwards. Takes no memory.
pub fn append<P: Pen>(
    pen: &mut P,
    document: &Document,
    segment: u32,
    used: &mut Used,
    term: u32,
    posting: Posting,
)
    requires { (m : Moment) × (t : Term) × P.stands pen.old m × IsTerm m segment t term
        × TellsSegment used.old m segment × IsPostingNext m.setting m.documents document.now segment t posting }
    ensures { (t : Term) → Written P.stands P.same pen.old pen.new (λ m. IsTerm m segment t term
        × TellsSegment used.old m segment × IsPostingNext m.setting m.documents document.now segment t posting)
        (λ m n. HasAppended m n document.now segment t posting × TellsSegment used.new n segment) }
{
    let tail = Places::new(pen.config()).tail(segment, term);
    let last = load_alone::<P, Brand>(pen, tail, Blank::new(1));
    let next = next_place(last, *used);
    store_link(pen, document, segment, next.address, next.link);
    store_posting(pen, document, segment, term, next.address, posting);
    *used = next.used;
}

// The word at a place, with a counter of loads of its own.
fn load_alone<P: Port, L: Ledger>(port: &mut P, place: u64, blank: Blank) -> u64
    requires blank { (blank.name ≡ L.name) × (blank.parts ≡ L.parts) × (0 < blank.parts) }
    requires place { (m : Moment) × P.stands port.old m × (place < words_of m.setting) }
    ensures { (m : Moment) → P.stands port.old m
        → (n : Moment) × P.stands port.new n × IsNotBefore n m × P.keeps port.old m port.new n × (result ≡ word n place) }
{
    let mut steps = Steps::<L>::new(blank);
    port.load(place, &mut steps)
}

// Where the posting at this address begins a slice with a link, stores the link to the last
// posting.
fn store_link<P: Pen>(
    pen: &mut P,
    document: &Document,
    segment: u32,
    address: u32,
    link: Option<u32>,
)
    requires { (m : Moment) × (now : List Store) × P.stands pen.old m × ForSome link (λ last. 0 < address)
        × AreNext m document.now (link_stores segment address link ++ now) }
    ensures { (m : Moment) (now : List Store) → P.stands pen.old m
        → AreNext m document.now (link_stores segment address link ++ now)
        → P.stands pen.new (after_link m document.now link) × P.same pen.old pen.new }
{
    if let Some(last) = link {
        let place = Places::new(pen.config()).posting_at(segment, address - 1);
        pen.store(document, place, u64::from(last));
    }
}

// Stores a posting at this address, and the tail of its term.
fn store_posting<P: Pen>(
    pen: &mut P,
    document: &Document,
    segment: u32,
    term: u32,
    address: u32,
    posting: Posting,
)
    requires { (m : Moment) × P.stands pen.old m
        × AreNext m document.now ((pool_slot segment address, posting) ∷ (slot segment tail_region term, address + 1) ∷ []) }
    ensures { (m : Moment) → P.stands pen.old m
        → AreNext m document.now ((pool_slot segment address, posting) ∷ (slot segment tail_region term, address + 1) ∷ [])
        → P.stands pen.new (after_store (after_store m document.now) document.now) × P.same pen.old pen.new }
{
    let places = Places::new(pen.config());
    let place = places.posting_at(segment, address);
    let tail = places.tail(segment, term);
    pen.store(document, place, u64::from(posting));
    pen.store(document, tail, u64::from(address) + 1);
}
