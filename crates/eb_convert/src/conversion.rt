//! The conversion of a closed segment.
//!
//! A put needs to know what is left of the conversion's stores, and not how many were done. Loads
//! leave that, since closed segments don't change. The segment that the converter of an index
//! converts is closed by a document of the history, or by the one that is being placed: the
//! converter's own load may show the first-document word of a segment whose first document isn't
//! accepted yet.
ghost use Rattle.std.specs.Prelude.{◌≡◌, ℕ, List, [], ◌∷◌, ◌++◌, ◌+◌, ◌*◌, ◌≤◌, ◌<◌, length, take, drop};
ghost use Rattle.eb_base.specs.Term.{Term};
ghost use Rattle.eb_place.specs.declared.moment.Moment.{Moment};
ghost use Rattle.eb_place.specs.Layout.Slot.{slot};
ghost use Rattle.eb_place.specs.Layout.Region.{converted_region, directory_region, packed_region};
ghost use Rattle.eb_place.specs.Placing.{Store, in_row};
ghost use Rattle.std.specs.Bool.{MatchBool};
ghost use Rattle.eb_place.specs.Moments.{IsClosed};
ghost use Rattle.eb_place.specs.Later.{IsNotBefore};
ghost use Rattle.eb_chain.specs.Chains.{Stands};
ghost use Rattle.eb_place.specs.Walk.{IsTerm};
ghost use Rattle.eb_place.specs.Told.{Told, Written};
ghost use Rattle.eb_convert.specs.Progress.{HasLeft, IsBlockNext, IsBlockDone, AreBlocksDone, term_stores, packed_of, terms_left};
ghost use Rattle.eb_convert.specs.Progress.{HasTerm, HasNoTerm, IsBegunAt};
ghost use Rattle.eb_convert.specs.Converting.{first_word, IsConversion};

use eb_block::{BLOCK_POSTINGS, BLOCK_WORDS, pack_block};
use eb_chain::Chain;
use eb_place::{PackPen, Places, Port, Posting, Steps};
use std::marker::Brand;
use std::sync::ledger::{Blank, Ledger};

/// What a call of the converter did.
#[derive(Clone, Copy, Debug, PartialEq, Eq)]
pub enum Converted {
    /// It converted this segment.
    One(u32),
    /// It converted nothing: the segment isn't closed.
    Nothing,
}

// Puts words at this packed word and after it. They are the next stores of the conversion, and
// others come after them.
fn put_words<P: PackPen>(pen: &mut P, segment: u32, at: u32, words: &[u64])
    requires { (m : Moment) × (rest : List Store) × P.stands pen.old m
        × HasLeft m segment (in_row segment packed_region at words.now ++ rest) × (1 ≤ length rest) }
    ensures { (rest : List Store) → Written P.stands P.same pen.old pen.new
        (λ m. HasLeft m segment (in_row segment packed_region at words.now ++ rest) × (1 ≤ length rest)) (λ m n. IsNotBefore n m × HasLeft n segment rest) }
{
    let places = Places::new(pen.config());
    for i in 0..words.len() {
        let place = places.packed(segment, at + i as u32);
        pen.put(place, words[i]);
    }
}

// Puts the directory word of a term, which is the next store.
fn put_directory<P: PackPen>(pen: &mut P, segment: u32, term: u32, value: u64)
    requires { (m : Moment) × (rest : List Store) × P.stands pen.old m
        × HasLeft m segment ((slot segment directory_region term, value) ∷ rest) × (1 ≤ length rest) }
    ensures { (rest : List Store) → Written P.stands P.same pen.old pen.new
        (λ m. HasLeft m segment ((slot segment directory_region term, value) ∷ rest) × (1 ≤ length rest)) (λ m n. IsNotBefore n m × HasLeft n segment rest) }
{
    let place = Places::new(pen.config()).directory(segment, term);
    pen.put(place, value);
}

// Puts the converted word, which is the last store.
fn put_converted<P: PackPen>(pen: &mut P, segment: u32)
    requires { (m : Moment) × P.stands pen.old m × HasLeft m segment ((slot segment converted_region 0, 1) ∷ []) }
    ensures { Written P.stands P.same pen.old pen.new (λ m. HasLeft m segment ((slot segment converted_region 0, 1) ∷ []))
        (λ m n. IsNotBefore n m × (n.conversions ≡ record { converted = segment + 1; packed = 0 })) }
{
    let place = Places::new(pen.config()).converted(segment);
    pen.put(place, 1);
}

// The next postings of a chain, at most 128, at the start of `into`.
fn fill<P: Port, L: Ledger>(
    port: &mut P,
    chain: &mut Chain,
    into: &mut [Posting; BLOCK_POSTINGS],
    steps: &mut Steps<L>,
) -> usize
    requires { (m : Moment) × (s : ℕ) × (t : Term) × (opened : ℕ) × (rest : List ℕ) × P.stands port.old m × Stands m s t chain.old opened rest }
    ensures few { result ≤ 128 }
    ensures told { (s : ℕ) (t : Term) (opened : ℕ) (rest : List ℕ) → Told P.stands P.keeps port.old port.new (λ m. Stands m s t chain.old opened rest)
        (λ n. Stands n s t chain.new opened (drop 128 rest) × (take result into.new ≡ take 128 rest) × (result ≤ length rest)) }
{
    for i in 0..BLOCK_POSTINGS {
        let Some(posting) = chain.next(port, steps) else {
            return i;
        };
        into[i] = posting;
    }
    BLOCK_POSTINGS
}

// Puts the block of the next postings of a chain, at most 128. Returns how many they are, and the
// packed word after the block.
fn convert_block<P: PackPen, L: Ledger>(
    pen: &mut P,
    chain: &mut Chain,
    segment: u32,
    at: u32,
    steps: &mut Steps<L>,
) -> (usize, u32)
    requires { (m : Moment) × (t : Term) × (opened : ℕ) × (rest : List ℕ) × (more : List Store) × P.stands pen.old m
        × IsBlockNext m segment t chain.old opened at rest more }
    ensures { (t : Term) (opened : ℕ) (rest : List ℕ) (more : List Store) → Written P.stands P.same pen.old pen.new
        (λ m. IsBlockNext m segment t chain.old opened at rest more)
        (λ m n. IsNotBefore n m × IsBlockDone n segment t chain.new opened at rest more result.0 result.1) }
{
    let mut postings: [Posting; BLOCK_POSTINGS] = [0; BLOCK_POSTINGS];
    let mut words = [0; BLOCK_WORDS];
    let count = fill(pen, chain, &mut postings, steps);
    if count == 0 {
        return (0, at);
    }
    let block = pack_block(&postings[..count], &mut words);
    put_words(pen, segment, at, &words[..block]);
    (count, at + block as u32)
}

// Puts all blocks of a chain. Returns how many postings they are, and the packed word after them.
fn convert_blocks<P: PackPen, L: Ledger>(
    pen: &mut P,
    chain: &mut Chain,
    segment: u32,
    at: u32,
    steps: &mut Steps<L>,
) -> (u64, u32)
    requires { (m : Moment) × (t : Term) × (opened : ℕ) × (rest : List ℕ) × (more : List Store) × P.stands pen.old m
        × IsBlockNext m segment t chain.old opened at rest more × (length rest ≤ 34 * m.setting.terms) }
    ensures { (t : Term) (opened : ℕ) (rest : List ℕ) (more : List Store) → Written P.stands P.same pen.old pen.new
        (λ m. IsBlockNext m segment t chain.old opened at rest more × (length rest ≤ 34 * m.setting.terms))
        (λ m n. IsNotBefore n m × AreBlocksDone n segment at rest more result.0 result.1) }
{
    let mut next = at;
    let mut total = 0u64;
    for i in 0..pen.config().terms() {
        let (count, after) = convert_block(pen, chain, segment, next, steps);
        if count == 0 {
            return (total, next);
        }
        total += count as u64;
        next = after;
    }
    (total, next)
}

// Converts one term: its blocks, and its directory word. Returns the packed word after the blocks.
fn convert_term<P: PackPen, L: Ledger>(
    pen: &mut P,
    segment: u32,
    term: u32,
    at: u32,
    steps: &mut Steps<L>,
) -> u32
    requires { (m : Moment) × (t : Term) × (more : List Store) × P.stands pen.old m × IsTerm m segment t term
        × HasLeft m segment (term_stores m segment t term at ++ more) × (1 ≤ length more) }
    ensures { (t : Term) (more : List Store) → Written P.stands P.same pen.old pen.new
        (λ m. IsTerm m segment t term × HasLeft m segment (term_stores m segment t term at ++ more) × (1 ≤ length more))
        (λ m n. IsNotBefore n m × HasLeft n segment more × (result ≡ at + packed_of m segment t)) }
{
    let mut chain = Chain::open(pen, segment, term, steps);
    let (total, next) = convert_blocks(pen, &mut chain, segment, at, steps);
    put_directory(pen, segment, term, (u64::from(at) << 32) + total);
    next
}

// Whether there is a term of this number in the segment, which is closed.
fn has_term<P: Port, L: Ledger>(port: &mut P, segment: u32, term: u32, steps: &mut Steps<L>) -> bool
    requires { (m : Moment) × P.stands port.old m × IsClosed m segment × (term < m.setting.terms) }
    ensures { (m : Moment) → P.stands port.old m → IsClosed m segment → term < m.setting.terms
        → (n : Moment) × P.stands port.new n × IsNotBefore n m × P.keeps port.old m port.new n
        × MatchBool result (HasTerm m segment term) (HasNoTerm m segment term) }
{
    let place = Places::new(port.config()).tail(segment, term);
    port.load(place, steps) > 0
}

// Converts all terms of a closed segment; the converted word comes next.
fn convert_terms<P: PackPen, L: Ledger>(pen: &mut P, segment: u32, steps: &mut Steps<L>)
    requires { (m : Moment) × P.stands pen.old m × HasLeft m segment (terms_left m segment 0 0) }
    ensures { Written P.stands P.same pen.old pen.new (λ m. HasLeft m segment (terms_left m segment 0 0))
        (λ m n. IsNotBefore n m × HasLeft n segment ((slot segment converted_region 0, 1) ∷ [])) }
{
    let mut at = 0;
    for term in 0..pen.config().terms() {
        if !has_term(pen, segment, term, steps) {
            return;
        }
        at = convert_term(pen, segment, term, at, steps);
    }
}

// Whether a segment is begun, by its first-document word.
fn is_begun<P: Port, L: Ledger>(port: &mut P, segment: u32, steps: &mut Steps<L>) -> bool
    requires { (m : Moment) × P.stands port.old m × (segment < m.setting.segments) }
    ensures { Told P.stands P.keeps port.old port.new (λ m. segment < m.setting.segments)
        (λ n. MatchBool result (IsBegunAt n segment) (first_word n segment ≡ 0)) }
{
    let place = Places::new(port.config()).first(segment);
    port.load(place, steps) > 0
}

// The conversion, with a counter of loads of its own.
fn convert_alone<P: PackPen, L: Ledger>(pen: &mut P, segment: u32, blank: Blank) -> Converted
    requires blank { (blank.name ≡ L.name) × (blank.parts ≡ L.parts) × (0 < blank.parts) }
    requires pen { (m : Moment) × P.stands pen.old m × (segment < m.setting.segments) × (m.conversions ≡ record { converted = segment; packed = 0 }) }
    ensures { (m : Moment) → P.stands pen.old m → segment < m.setting.segments → m.conversions ≡ record { converted = segment; packed = 0 }
        → (n : Moment) × P.stands pen.new n × P.same pen.old pen.new × IsNotBefore n m × IsConversion m n segment result }
{
    let mut steps = Steps::<L>::new(blank);
    if segment + 1 == pen.config().segments() {
        return Converted::Nothing;
    }
    if !is_begun(pen, segment + 1, &mut steps) {
        return Converted::Nothing;
    }
    convert_terms(pen, segment, &mut steps);
    put_converted(pen, segment);
    Converted::One(segment)
}

/// Converts the next segment: does exactly the stores of its conversion, in order. Does none where
/// it is the last segment of the index, or where the following segment isn't begun. Takes no
/// memory.
pub fn convert_next<P: PackPen>(pen: &mut P, segment: u32) -> Converted
    requires { (m : Moment) × P.stands pen.old m × (segment < m.setting.segments) × (m.conversions ≡ record { converted = segment; packed = 0 }) }
    ensures { (m : Moment) → P.stands pen.old m → segment < m.setting.segments → m.conversions ≡ record { converted = segment; packed = 0 }
        → (n : Moment) × P.stands pen.new n × P.same pen.old pen.new × IsNotBefore n m × IsConversion m n segment result }
{
    convert_alone::<P, Brand>(pen, segment, Blank::new(1))
}
