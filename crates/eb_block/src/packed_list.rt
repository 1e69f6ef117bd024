//! Packed lists: the postings of one term of a converted segment, newest first, in blocks of 128.
//!
//! A block is a header word (its first posting, how many it has, the width of its fields) and the
//! differences between its postings, each in a field of that width. So a block can be skipped by
//! its header alone, and within a block the differences are subtracted one by one. The list decodes
//! as it goes: it keeps the place of the next word, the bits at hand and the last posting, and no
//! buffer of a block.
//!
//! A leap to the newest posting at or below `most` has two steps. First it skips blocks: where the
//! next block begins at or above `most`, all that is left of this one is above it (`pass_block`).
//! `near` is the bound above which no block can be skipped, so one comparison decides for most
//! leaps. Then it reads fields, in locals, until a posting isn't above `most` (`seek_inside`).
//! Postings only fall, so what one leap skips no later, lower one needs. A packed word is loaded
//! once at most; how many a list may still load is the `budget` of `specs/Reading.antt`. How many
//! postings are left is in the directory word, at no load.
//!
//! Whole blocks of one width are equally long. So the place of the next header is known before this
//! one is loaded, and a processor can load several at once (`pass_alike`).
//!
//! What was tried: a leap took some 65 instructions besides the postings that it skipped. With
//! `near`, the result returned and not marked in the list, the fields taken off the bits in place,
//! and the seldom case a call (`seek_block`), a phrase takes 86,717 instructions in place of 93,883
//! and a window 63,587 in place of 68,546; an And whose one segment is open takes 45,198 in place
//! of 43,998, since its leaps over live slices have fewer registers. Rejected: the mask of a field
//! kept beside its width (1 in 100 instructions fewer, and no faster); the walk within a block as a
//! call of its own, or as two loops (8 to 12 in 100 more); in live slices of the last pool, a leap
//! that doesn't look at the next posting (1 in 100 fewer, more guessed wrong).
ghost use Rattle.std.specs.Prelude.{◌≡◌, ℕ, List, [], ◌+◌, ◌-◌, ◌*◌, ◌≤◌, ◌<◌, ◌/◌, ◌%◌, ◌^◌, length, true, false, IsTrue, ◌↔◌};
ghost use Rattle.std.specs.Bool.{MatchBool};
ghost use Rattle.eb_base.specs.Term.{Term};
ghost use Rattle.eb_place.specs.declared.moment.Moment.{Moment};
ghost use Rattle.eb_place.specs.Told.{Told};
ghost use Rattle.eb_place.specs.Walk.{IsTerm};
ghost use Rattle.eb_place.specs.PackedLists.{IsConverted, newest_first, packed_words};
ghost use Rattle.eb_place.specs.Postings.{at_most};
ghost use Rattle.eb_block.specs.Reading.{ListStands, IsPackedAt, ListGives, HasPassed, IsNear, remaining, loaded, seek_loads};

use crate::bits::Bits;
use crate::blocks::{count_in, posting_in, width_in};
use eb_place::{Places, Port, Posting, Steps};
use std::sync::ledger::Ledger;

/// The postings of one term of a converted segment, newest first, read from its packed blocks. Each
/// packed word is loaded once at most.
#[derive(Clone, Copy, Debug, PartialEq, Eq)]
pub struct PackedList {
    // Of the block that is read: the place of the next word to be loaded, the bits and the width of
    // its fields, how many differences are left, and the last posting that was read; `held` where
    // it is still to be given.
    at: u32,
    bits: Bits,
    width: u32,
    inside: u32,
    last: Posting,
    held: bool,
    // Of the blocks after it: the place where they begin, the header there if it is loaded, else 0,
    // and how many postings they have. None of them is skipped for a bound above `near`: 0 where
    // there are none, the first posting of the next one where its header is loaded, else the
    // greatest number.
    next: u32,
    header: u64,
    left: u32,
    near: Posting,
}

impl PackedList {
    /// Opens the packed list of a term, by the term's number in the segment, which is converted.
    /// One load, that of the directory word. Takes no memory.
    pub fn open<P: Port, L: Ledger>(
        port: &mut P,
        segment: u32,
        term: u32,
        steps: &mut Steps<L>,
    ) -> PackedList
        requires { (m : Moment) × (t : Term) × P.stands port.old m × IsConverted m segment × IsTerm m segment t term }
        ensures told { (t : Term) → Told P.stands P.keeps port.old port.new (λ m. IsConverted m segment × IsTerm m segment t term)
            (λ n. ListStands n segment t result (newest_first n segment t) (length (packed_words n segment t))) }
        ensures steps { steps.new ≡ steps.old + 1 }
    {
        let places = Places::new(port.config());
        let word = port.load(places.directory(segment, term), steps);
        let base = places.packed(segment, 0);
        let start = base as u32 + (word >> 32) as u32;
        PackedList {
            at: start,
            bits: Bits::none(),
            width: 0,
            inside: 0,
            last: 0,
            held: false,
            next: start,
            header: 0,
            left: (word % (1 << 32)) as u32,
            near: u64::MAX,
        }
    }

    /// The newest posting that wasn't given yet; `None` exactly after the oldest. The port's moment
    /// must not be before that of the opening. One load at most; all calls of `next` and `seek` on
    /// one list load together at most as many words as the packed list has. Takes no memory.
    #[inline(always)]
    pub fn next<P: Port, L: Ledger>(
        &mut self,
        port: &mut P,
        steps: &mut Steps<L>,
    ) -> Option<Posting>
        requires { (m : Moment) × (s : ℕ) × (t : Term) × (rest : List ℕ) × (budget : ℕ)
            × P.stands port.old m × ListStands m s t self.old rest budget }
        ensures told { (s : ℕ) (t : Term) (rest : List ℕ) (budget : ℕ) → Told P.stands P.keeps port.old port.new
            (λ m. ListStands m s t self.old rest budget) (λ n. (b : ℕ) × ListGives n s t self.new rest b result × (steps.new + b ≤ steps.old + budget)) }
        ensures one { steps.new ≤ steps.old + 1 }
    {
        self.give(port, steps)
    }

    /// The newest posting at or below `most` that wasn't given yet. Postings above it are skipped
    /// for good; `None` exactly where none is left. Does what a `seek` and a `next` do. The port's
    /// moment must not be before that of the opening. Takes no memory.
    #[inline(always)]
    pub fn next_at_most<P: Port, L: Ledger>(
        &mut self,
        port: &mut P,
        most: Posting,
        steps: &mut Steps<L>,
    ) -> Option<Posting>
        requires { (m : Moment) × (s : ℕ) × (t : Term) × (rest : List ℕ) × (budget : ℕ)
            × P.stands port.old m × ListStands m s t self.old rest budget }
        ensures told { (s : ℕ) (t : Term) (rest : List ℕ) (budget : ℕ) → Told P.stands P.keeps port.old port.new
            (λ m. ListStands m s t self.old rest budget)
            (λ n. (b : ℕ) × ListGives n s t self.new (at_most most rest) b result × (steps.new + b ≤ steps.old + budget)) }
        ensures loads { (m : Moment) (s : ℕ) (t : Term) (rest : List ℕ) (budget : ℕ)
            → P.stands port.old m → ListStands m s t self.old rest budget
            → steps.new ≤ steps.old + seek_loads (length rest - length (at_most most rest)) + 1 }
        ensures few { (m : Moment) (s : ℕ) (t : Term) (rest : List ℕ) (budget : ℕ)
            → P.stands port.old m → ListStands m s t self.old rest budget
            → steps.new ≤ steps.old + (length rest - length (at_most most rest)) + 4 }
    {
        self.seek_near(port, most, steps);
        if self.last <= most {
            return self.give(port, steps);
        }
        let found = self.seek_inside(port, most, steps);
        self.held = false;
        if found {
            return Some(self.last);
        }
        self.give(port, steps)
    }

    /// How many postings the list still has to give. Loads nothing.
    pub fn postings_left(&self) -> u64
        ensures { (m : Moment) (s : ℕ) (t : Term) (rest : List ℕ) (budget : ℕ)
            → ListStands m s t self.now rest budget → result ≡ length rest }
    {
        u64::from(self.held) + u64::from(self.inside) + u64::from(self.left)
    }

    /// Whether all postings that it still has to give are in the block that is read, and none of
    /// them was looked at. Loads nothing.
    #[inline(always)]
    pub fn is_last(&self) -> bool
        ensures { IsTrue result ↔ ((self.now.left ≡ 0) × (self.now.held ≡ false)) }
    {
        self.left == 0 && !self.held
    }

    /// Skips exactly the postings above `most` that weren't given yet, whole blocks by their
    /// headers alone. It loads one word for each 128 postings that it skips and at most 66 more,
    /// and never more than three above one for each posting that it skips. The port's moment must
    /// not be before that of the opening. Takes no memory.
    #[inline(always)]
    pub fn seek<P: Port, L: Ledger>(&mut self, port: &mut P, most: Posting, steps: &mut Steps<L>)
        requires { (m : Moment) × (s : ℕ) × (t : Term) × (rest : List ℕ) × (budget : ℕ)
            × P.stands port.old m × ListStands m s t self.old rest budget }
        ensures told { (s : ℕ) (t : Term) (rest : List ℕ) (budget : ℕ) → Told P.stands P.keeps port.old port.new
            (λ m. ListStands m s t self.old rest budget)
            (λ n. (b : ℕ) × ListStands n s t self.new (at_most most rest) b × (steps.new + b ≤ steps.old + budget)) }
        ensures loads { (m : Moment) (s : ℕ) (t : Term) (rest : List ℕ) (budget : ℕ)
            → P.stands port.old m → ListStands m s t self.old rest budget
            → steps.new ≤ steps.old + seek_loads (length rest - length (at_most most rest)) }
        ensures few { (m : Moment) (s : ℕ) (t : Term) (rest : List ℕ) (budget : ℕ)
            → P.stands port.old m → ListStands m s t self.old rest budget
            → steps.new ≤ steps.old + (length rest - length (at_most most rest)) + 3 }
    {
        self.seek_near(port, most, steps);
        if self.last > most {
            self.held = self.seek_inside(port, most, steps);
        }
    }

    // Skips the blocks that are all above, where there may be one.
    #[inline(always)]
    fn seek_near<P: Port, L: Ledger>(&mut self, port: &mut P, most: Posting, steps: &mut Steps<L>)
        requires { (m : Moment) × (s : ℕ) × (t : Term) × (rest : List ℕ) × (budget : ℕ)
            × P.stands port.old m × ListStands m s t self.old rest budget }
        ensures near { IsNear most self.new }
        ensures loads { 128 * steps.new + remaining self.new ≤ 128 * steps.old + remaining self.old + 256 }
        ensures fewer { remaining self.new ≤ remaining self.old }
        ensures told { (s : ℕ) (t : Term) (rest : List ℕ) (budget : ℕ) → Told P.stands P.keeps port.old port.new
            (λ m. ListStands m s t self.old rest budget)
            (λ n. (after : List ℕ) × (b : ℕ) × ListStands n s t self.new after b × (steps.new + b ≤ steps.old + budget)
            × (at_most most after ≡ at_most most rest)) }
    {
        if self.near < most {
            return;
        }
        self.seek_block(port, most, steps);
    }

    // Skips the postings of the block that are above. What this changes is in locals. True where
    // one that isn't above is read then, and is to be held.
    #[inline(always)]
    fn seek_inside<P: Port, L: Ledger>(
        &mut self,
        port: &mut P,
        most: Posting,
        steps: &mut Steps<L>,
    ) -> bool
        requires reads { (m : Moment) × (s : ℕ) × (t : Term) × (rest : List ℕ) × (budget : ℕ)
            × P.stands port.old m × ListStands m s t self.old rest budget }
        requires near { IsNear most self.old }
        requires above { most < self.old.last }
        ensures next { self.new.next ≡ self.old.next }
        ensures loads { steps.new + self.old.at ≡ steps.old + self.new.at }
        ensures fewer { remaining (record self.new { held = result }) ≤ remaining self.old }
        ensures few { steps.new + self.new.inside + self.new.left ≤ steps.old + self.old.inside + self.old.left }
        ensures told { (s : ℕ) (t : Term) (rest : List ℕ) (budget : ℕ) → Told P.stands P.keeps port.old port.new
            (λ m. ListStands m s t self.old rest budget)
            (λ n. (b : ℕ) × ListStands n s t (record self.new { held = result }) (at_most most rest) b × (steps.new + b ≤ steps.old + budget)) }
    {
        if self.inside == 0 {
            return false;
        }
        let mut list = *self;
        'above: while list.pass_above(port, most, steps) {}
        self.at = list.at;
        self.bits.low = list.bits.low;
        self.bits.count = list.bits.count;
        self.inside = list.inside;
        self.last = list.last;
        list.last <= most
    }

    // Reads the next posting of the block; true where it is above and more are left in the block.
    #[inline(always)]
    fn pass_above<P: Port, L: Ledger>(
        &mut self,
        port: &mut P,
        most: Posting,
        steps: &mut Steps<L>,
    ) -> bool
        requires reads { (m : Moment) × (s : ℕ) × (t : Term) × (rest : List ℕ) × (budget : ℕ)
            × P.stands port.old m × ListStands m s t self.old rest budget }
        requires inside { 1 ≤ self.old.inside }
        requires above { most < self.old.last }
        ensures held { self.new.held ≡ true }
        ensures same { self.new ≡ record self.old
            { at = self.new.at; bits = self.new.bits; inside = self.new.inside; last = self.new.last; held = self.new.held } }
        ensures loads { steps.new + self.old.at ≡ steps.old + self.new.at }
        ensures less { self.new.inside + 1 ≡ self.old.inside }
        ensures one { steps.new ≤ steps.old + 1 }
        ensures goes { result ≡ true → (1 ≤ self.new.inside) × (most < self.new.last) }
        ensures ends { result ≡ false → most < self.new.last → self.new.inside ≡ 0 }
        ensures told { (s : ℕ) (t : Term) (rest : List ℕ) (budget : ℕ) → Told P.stands P.keeps port.old port.new
            (λ m. ListStands m s t self.old rest budget)
            (λ n. (after : List ℕ) × (b : ℕ) × ListStands n s t self.new after b × (steps.new + b ≤ steps.old + budget)
            × (at_most most after ≡ at_most most rest)) }
    {
        self.held = false;
        self.step(port, steps);
        self.inside > 0 && self.last > most
    }

    // The newest posting that wasn't given yet.
    #[inline(always)]
    fn give<P: Port, L: Ledger>(&mut self, port: &mut P, steps: &mut Steps<L>) -> Option<Posting>
        requires { (m : Moment) × (s : ℕ) × (t : Term) × (rest : List ℕ) × (budget : ℕ)
            × P.stands port.old m × ListStands m s t self.old rest budget }
        ensures told { (s : ℕ) (t : Term) (rest : List ℕ) (budget : ℕ) → Told P.stands P.keeps port.old port.new
            (λ m. ListStands m s t self.old rest budget) (λ n. (b : ℕ) × ListGives n s t self.new rest b result × (steps.new + b ≤ steps.old + budget)) }
        ensures one { steps.new ≤ steps.old + 1 }
    {
        if !self.hold(port, steps) {
            return None;
        }
        self.held = false;
        Some(self.last)
    }

    // Skips the blocks that are all above. It is a call, since there are seldom any.
    #[inline(never)]
    fn seek_block<P: Port, L: Ledger>(&mut self, port: &mut P, most: Posting, steps: &mut Steps<L>)
        requires { (m : Moment) × (s : ℕ) × (t : Term) × (rest : List ℕ) × (budget : ℕ)
            × P.stands port.old m × ListStands m s t self.old rest budget }
        ensures near { IsNear most self.new }
        ensures loads { 128 * steps.new + remaining self.new ≤ 128 * steps.old + remaining self.old + 256 }
        ensures fewer { remaining self.new ≤ remaining self.old }
        ensures told { (s : ℕ) (t : Term) (rest : List ℕ) (budget : ℕ) → Told P.stands P.keeps port.old port.new
            (λ m. ListStands m s t self.old rest budget)
            (λ n. (after : List ℕ) × (b : ℕ) × ListStands n s t self.new after b × (steps.new + b ≤ steps.old + budget)
            × (at_most most after ≡ at_most most rest)) }
    {
        'whole: while self.pass_block(port, most, steps) {}
    }

    // Whether a posting is held that isn't above.
    #[inline(always)]
    fn is_at(&self, most: Posting) -> bool
        ensures { MatchBool result ((self.now.held ≡ true) × (self.now.last ≤ most)) (self.now.held ≡ true → most < self.now.last) }
    {
        self.held && self.last <= most
    }

    // Goes to the next block, where all before it is above, and on over those after it that have
    // its width.
    #[inline(always)]
    fn pass_block<P: Port, L: Ledger>(
        &mut self,
        port: &mut P,
        most: Posting,
        steps: &mut Steps<L>,
    ) -> bool
        requires { (m : Moment) × (s : ℕ) × (t : Term) × (rest : List ℕ) × (budget : ℕ)
            × P.stands port.old m × ListStands m s t self.old rest budget }
        ensures near { result ≡ false → IsNear most self.new }
        ensures less { result ≡ true → self.new.left < self.old.left }
        ensures same { result ≡ false → remaining self.new ≡ remaining self.old }
        ensures stays { result ≡ false → steps.new + loaded self.old.header ≤ steps.old + loaded self.new.header }
        ensures fewer { result ≡ true → remaining self.new ≤ self.old.left }
        ensures goes { result ≡ true → 128 * steps.new + remaining self.new + 128 * loaded self.old.header
            ≤ 128 * steps.old + self.old.left + 128 + 128 * loaded self.new.header }
        ensures whole { result ≡ true → 1 ≤ self.new.left → 128 * steps.new + self.new.left + 128 * loaded self.old.header
            ≤ 128 * steps.old + self.old.left + 128 * loaded self.new.header }
        ensures told { (s : ℕ) (t : Term) (rest : List ℕ) (budget : ℕ) → Told P.stands P.keeps port.old port.new
            (λ m. ListStands m s t self.old rest budget)
            (λ n. (after : List ℕ) × (b : ℕ) × ListStands n s t self.new after b × (steps.new + b ≤ steps.old + budget)
            × (at_most most after ≡ at_most most rest)) }
    {
        if self.left == 0 {
            return false;
        }
        if self.is_at(most) {
            return false;
        }
        self.peek(port, steps);
        if posting_in(self.header) < most {
            return false;
        }
        self.enter();
        self.pass_alike(port, most, steps);
        true
    }

    // Skips the blocks after a whole one that have its width and begin above. Where the next header
    // is follows from the width, so a processor that guesses right loads several headers at once.
    #[inline(always)]
    fn pass_alike<P: Port, L: Ledger>(&mut self, port: &mut P, most: Posting, steps: &mut Steps<L>)
        requires reads { (m : Moment) × (s : ℕ) × (t : Term) × (rest : List ℕ) × (budget : ℕ)
            × P.stands port.old m × ListStands m s t self.old rest budget }
        requires held { self.old.held ≡ true }
        requires fresh { self.old.header ≡ 0 }
        requires full { 1 ≤ self.old.left → self.old.inside ≡ 127 }
        ensures less { self.new.left ≤ self.old.left }
        ensures fewer { remaining self.new ≤ remaining self.old }
        ensures loads { 128 * steps.new + remaining self.new ≤ 128 * steps.old + remaining self.old + 128 * loaded self.new.header }
        ensures whole { 1 ≤ self.new.left → 128 * steps.new + self.new.left ≤ 128 * steps.old + self.old.left + 128 * loaded self.new.header }
        ensures told { (s : ℕ) (t : Term) (rest : List ℕ) (budget : ℕ) → Told P.stands P.keeps port.old port.new
            (λ m. ListStands m s t self.old rest budget)
            (λ n. (after : List ℕ) × (b : ℕ) × ListStands n s t self.new after b × (steps.new + b ≤ steps.old + budget)
            × (at_most most after ≡ at_most most rest)) }
    {
        'alike: while self.pass_like(port, most, steps) {}
    }

    // Goes to the next block, where it has the width of this one, begins above and isn't the last.
    #[inline(always)]
    fn pass_like<P: Port, L: Ledger>(
        &mut self,
        port: &mut P,
        most: Posting,
        steps: &mut Steps<L>,
    ) -> bool
        requires { (m : Moment) × (s : ℕ) × (t : Term) × (rest : List ℕ) × (budget : ℕ)
            × P.stands port.old m × ListStands m s t self.old rest budget }
        ensures stays { result ≡ false → self.new ≡ record self.old { header = self.new.header; near = self.new.near } }
        ensures waits { result ≡ false → steps.new + loaded self.old.header ≤ steps.old + loaded self.new.header }
        ensures held { result ≡ true → self.new.held ≡ true }
        ensures full { result ≡ true → self.new.inside ≡ 127 }
        ensures less { result ≡ true → self.new.left + 128 ≡ self.old.left }
        ensures fresh { result ≡ true → self.new.header ≡ 0 }
        ensures goes { result ≡ true → steps.new + loaded self.old.header ≤ steps.old + 1 }
        ensures told { (s : ℕ) (t : Term) (rest : List ℕ) (budget : ℕ) → Told P.stands P.keeps port.old port.new
            (λ m. ListStands m s t self.old rest budget)
            (λ n. (after : List ℕ) × (b : ℕ) × ListStands n s t self.new after b × (steps.new + b ≤ steps.old + budget)
            × (at_most most after ≡ at_most most rest)) }
    {
        if self.left <= 128 {
            return false;
        }
        self.peek(port, steps);
        if posting_in(self.header) <= most {
            return false;
        }
        if width_in(self.header) != self.width {
            return false;
        }
        self.enter_like();
        true
    }

    // Reads the next posting, where none is held and one is left.
    #[inline(always)]
    fn hold<P: Port, L: Ledger>(&mut self, port: &mut P, steps: &mut Steps<L>) -> bool
        requires { (m : Moment) × (s : ℕ) × (t : Term) × (rest : List ℕ) × (budget : ℕ)
            × P.stands port.old m × ListStands m s t self.old rest budget }
        ensures one { steps.new ≤ steps.old + 1 }
        ensures told { (s : ℕ) (t : Term) (rest : List ℕ) (budget : ℕ) → Told P.stands P.keeps port.old port.new
            (λ m. ListStands m s t self.old rest budget) (λ n. (b : ℕ) × ListStands n s t self.new rest b × (steps.new + b ≤ steps.old + budget)
            × MatchBool result (self.new.held ≡ true) (rest ≡ [])) }
    {
        if self.held {
            return true;
        }
        if self.inside > 0 {
            self.step(port, steps);
            return true;
        }
        if self.left == 0 {
            return false;
        }
        self.peek(port, steps);
        self.enter();
        true
    }

    // Reads the next posting of the block, where none is held.
    #[inline(always)]
    fn step<P: Port, L: Ledger>(&mut self, port: &mut P, steps: &mut Steps<L>)
        requires reads { (m : Moment) × (s : ℕ) × (t : Term) × (rest : List ℕ) × (budget : ℕ)
            × P.stands port.old m × ListStands m s t self.old rest budget }
        requires inside { 1 ≤ self.old.inside }
        requires free { self.old.held ≡ false }
        ensures held { self.new.held ≡ true }
        ensures same { self.new ≡ record self.old
            { at = self.new.at; bits = self.new.bits; inside = self.new.inside; last = self.new.last; held = self.new.held } }
        ensures left { self.new.left ≡ self.old.left }
        ensures header { self.new.header ≡ self.old.header }
        ensures less { self.new.inside + 1 ≡ self.old.inside }
        ensures next { self.new.next ≡ self.old.next }
        ensures loads { steps.new + self.old.at ≡ steps.old + self.new.at }
        ensures one { steps.new ≤ steps.old + 1 }
        ensures told { (s : ℕ) (t : Term) (rest : List ℕ) (budget : ℕ) → Told P.stands P.keeps port.old port.new
            (λ m. ListStands m s t self.old rest budget) (λ n. (b : ℕ) × ListStands n s t self.new rest b × (steps.new + b ≡ steps.old + budget)) }
    {
        self.inside -= 1;
        self.held = true;
        if self.width <= self.bits.count {
            let field = self.bits.take(self.width);
            self.last -= field;
            return;
        }
        let word = packed_word(port, self.at, steps);
        let field = self.bits.take_over(word, self.width);
        self.at += 1;
        self.last -= field;
    }

    // Loads the header of the next block, unless it is loaded.
    #[inline(always)]
    fn peek<P: Port, L: Ledger>(&mut self, port: &mut P, steps: &mut Steps<L>)
        requires reads { (m : Moment) × (s : ℕ) × (t : Term) × (rest : List ℕ) × (budget : ℕ)
            × P.stands port.old m × ListStands m s t self.old rest budget }
        requires left { 1 ≤ self.old.left }
        ensures loaded { 1 ≤ self.new.header }
        ensures same { self.new ≡ record self.old { header = self.new.header; near = self.new.near } }
        ensures one { steps.new ≤ steps.old + 1 }
        ensures paid { steps.new + loaded self.old.header ≡ steps.old + 1 }
        ensures told { (s : ℕ) (t : Term) (rest : List ℕ) (budget : ℕ) → Told P.stands P.keeps port.old port.new
            (λ m. ListStands m s t self.old rest budget) (λ n. (b : ℕ) × ListStands n s t self.new rest b × (steps.new + b ≡ steps.old + budget)) }
    {
        if self.header > 0 {
            return;
        }
        self.header = packed_word(port, self.next, steps);
        self.near = posting_in(self.header);
    }

    // Goes to the next block, whose header is loaded, and holds its first posting.
    #[inline(always)]
    fn enter(&mut self)
        requires reads { (m : Moment) × (s : ℕ) × (t : Term) × (rest : List ℕ) × (budget : ℕ) × ListStands m s t self.old rest budget }
        requires loaded { 1 ≤ self.old.header }
        ensures held { self.new.held ≡ true }
        ensures fresh { self.new.header ≡ 0 }
        ensures less { self.new.left < self.old.left }
        ensures count { self.new.inside + 1 + self.new.left ≡ self.old.left }
        ensures full { 1 ≤ self.new.left → self.new.inside ≡ 127 }
        ensures told { (m : Moment) (s : ℕ) (t : Term) (rest : List ℕ) (budget : ℕ) → ListStands m s t self.old rest budget
            → (after : List ℕ) × (b : ℕ) × ListStands m s t self.new after b × (b ≤ budget) × HasPassed self.old rest after }
    {
        let header = self.header;
        let count = count_in(header) as u32;
        let width = width_in(header);
        self.at = self.next + 1;
        self.bits = Bits::none();
        self.width = width;
        self.inside = count - 1;
        self.last = posting_in(header);
        self.held = true;
        // A block before the last has 127 differences, in twice as many words as these have bits.
        self.next = self.at + 2 * width;
        self.header = 0;
        self.left -= count;
        self.near = if self.left == 0 { 0 } else { u64::MAX };
    }

    // Goes to the next block, a whole one of the width of this block, whose header is loaded, and
    // holds its first posting.
    #[inline(always)]
    fn enter_like(&mut self)
        requires reads { (m : Moment) × (s : ℕ) × (t : Term) × (rest : List ℕ) × (budget : ℕ) × ListStands m s t self.old rest budget }
        requires loaded { 1 ≤ self.old.header }
        requires many { 128 < self.old.left }
        requires alike { self.old.header / 2 ^ 8 % 2 ^ 8 ≡ self.old.width }
        ensures held { self.new.held ≡ true }
        ensures fresh { self.new.header ≡ 0 }
        ensures full { self.new.inside ≡ 127 }
        ensures less { self.new.left + 128 ≡ self.old.left }
        ensures told { (m : Moment) (s : ℕ) (t : Term) (rest : List ℕ) (budget : ℕ) → ListStands m s t self.old rest budget
            → (after : List ℕ) × (b : ℕ) × ListStands m s t self.new after b × (b ≤ budget) × HasPassed self.old rest after }
    {
        let last = posting_in(self.header);
        self.at = self.next + 1;
        self.bits = Bits::none();
        self.inside = 127;
        self.last = last;
        self.held = true;
        self.next = self.at + 2 * self.width;
        self.header = 0;
        self.left -= 128;
        self.near = u64::MAX;
    }
}

// A packed word. Ticks one load.
#[inline(always)]
fn packed_word<P: Port, L: Ledger>(port: &mut P, at: u32, steps: &mut Steps<L>) -> u64
    requires { (m : Moment) × (s : ℕ) × (value : ℕ) × P.stands port.old m × IsPackedAt m s at value }
    ensures told { (s value : ℕ) → Told P.stands P.keeps port.old port.new (λ m. IsPackedAt m s at value) (λ n. result ≡ value) }
    ensures step { steps.new ≡ steps.old + 1 }
{
    port.load(u64::from(at), steps)
}
