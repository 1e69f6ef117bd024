//! Two words whose lists are packed and in their last blocks: a merge in place of leaps.
//!
//! Both lists fall. The merge skips each posting of the first list that is in a later document than
//! the current posting of the second, then one posting of the second that is in a later document
//! than that of the first, and so on until both are in one document or a list has ended. All that
//! is left of the other list is in earlier documents than a skipped posting, so no match is lost.
//! Each skip shortens a list, so the merge terminates, and its result is the answer: no further
//! turn has to find that neither list falls.
//!
//! What is left of each list is less than a block. So the merge loads no more than a turn of leaps,
//! and the bounds on loads hold. Longer lists leap, since a leap skips whole blocks by their
//! headers.
//!
//! What it saves: a leap finds its list in the cursors, copies it to locals, skips some two
//! postings and puts it back; a merge does that once. With the first list skipped in a loop of its
//! own, an And of two words takes 32,363 instructions; with both lists compared anew for each
//! posting it took 35,776. Tried and rejected: to look for a pair in each turn and not once for
//! each document that is asked for (an And over one segment of 20,000 documents took a tenth
//! longer); leaps within the pair (3 in 100 instructions fewer, and no faster); both steps without
//! a branch (the words of both lists have to be loaded before it is known that they are needed).
ghost use Rattle.std.specs.Prelude.{◌≡◌, ℕ, suc, List, [], ◌∷◌, ◌+◌, ◌*◌, ◌/◌, ◌<◌, ◌≤◌, ◌^◌, true, false, Some, None, MatchOption, ⊤};
ghost use Rattle.eb_base.specs.Term.{Term};
ghost use Rattle.eb_place.specs.Postings.{places};
ghost use Rattle.eb_cursor.specs.AndCosts.{word_parts};
ghost use Rattle.eb_cursor.specs.Asked.{CanAskAll};
ghost use Rattle.eb_cursor.specs.Costs.{PaysSpans, round_loads};
ghost use Rattle.eb_cursor.specs.Finds.{FindsAll};
ghost use Rattle.eb_cursor.specs.Loads.{loads_left};
ghost use Rattle.eb_cursor.specs.Pairs.{AreTogether, CanPass, GoesPast, IsNotLater, IsPairOf, PaysPair, both_ahead, meeting_end};

use crate::cursor::Cursor;
use crate::posting_list::PostingList;
use eb_block::PackedList;
use eb_place::{PLACES, Port, Posting, Steps};
use std::sync::ledger::Ledger;

// Two packed lists, and the posting of each that was given last.
#[derive(Drop)]
struct Pair {
    left: Option<Posting>,
    right: Option<Posting>,
    one: PackedList,
    two: PackedList,
}

impl Pair {
    // Skips the posting of the first list, where it is in a later document than that of the other
    // one.
    #[inline(always)]
    fn pass_left<P: Port, L: Ledger>(&mut self, port: &mut P, steps: &mut Steps<L>) -> bool
        requires { CanPass P.stands port.old self.old }
        ensures told { GoesPast P.stands P.keeps port.old port.new self.old self.new }
        ensures costs { PaysPair P.stands P.keeps port.old port.new self.old self.new steps.old steps.new }
        ensures loads { steps.new + 4 * both_ahead self.new ≤ steps.old + 4 * both_ahead self.old }
        ensures falls { both_ahead self.new ≤ both_ahead self.old }
        ensures less { result ≡ true → both_ahead self.new < both_ahead self.old }
        ensures not_later { result ≡ false → IsNotLater self.new.left self.new.right }
    {
        let Some(left) = self.left else {
            return false;
        };
        let Some(right) = self.right else {
            return false;
        };
        if left / PLACES <= right / PLACES {
            return false;
        }
        self.left = self.one.next(port, steps);
        true
    }

    // Skips each posting of the first list that is in a later document.
    #[inline(always)]
    fn pass_lefts<P: Port, L: Ledger>(&mut self, port: &mut P, steps: &mut Steps<L>)
        requires { CanPass P.stands port.old self.old }
        ensures told { GoesPast P.stands P.keeps port.old port.new self.old self.new }
        ensures costs { PaysPair P.stands P.keeps port.old port.new self.old self.new steps.old steps.new }
        ensures loads { steps.new + 4 * both_ahead self.new ≤ steps.old + 4 * both_ahead self.old }
        ensures falls { both_ahead self.new ≤ both_ahead self.old }
        ensures not_later { IsNotLater self.new.left self.new.right }
    {
        'later: while self.pass_left(port, steps) {}
    }

    // Skips the posting of the second list, where it is in a later document than that of the first
    // one.
    #[inline(always)]
    fn pass_right<P: Port, L: Ledger>(&mut self, port: &mut P, steps: &mut Steps<L>) -> bool
        requires { CanPass P.stands port.old self.old }
        ensures told { GoesPast P.stands P.keeps port.old port.new self.old self.new }
        ensures costs { PaysPair P.stands P.keeps port.old port.new self.old self.new steps.old steps.new }
        ensures loads { steps.new + 4 * both_ahead self.new ≤ steps.old + 4 * both_ahead self.old }
        ensures less { result ≡ true → both_ahead self.new < both_ahead self.old }
        ensures stays { result ≡ false → self.new ≡ self.old }
        ensures not_later { result ≡ false → IsNotLater self.new.right self.new.left }
    {
        let Some(left) = self.left else {
            return false;
        };
        let Some(right) = self.right else {
            return false;
        };
        if right / PLACES <= left / PLACES {
            return false;
        }
        self.right = self.two.next(port, steps);
        true
    }

    // Skips postings in a later document than that of the other list: each such posting of the
    // first one, and then one of the second; false where that has none.
    #[inline(always)]
    fn pass<P: Port, L: Ledger>(&mut self, port: &mut P, steps: &mut Steps<L>) -> bool
        requires { CanPass P.stands port.old self.old }
        ensures told { GoesPast P.stands P.keeps port.old port.new self.old self.new }
        ensures costs { PaysPair P.stands P.keeps port.old port.new self.old self.new steps.old steps.new }
        ensures loads { steps.new + 4 * both_ahead self.new ≤ steps.old + 4 * both_ahead self.old }
        ensures less { result ≡ true → both_ahead self.new < both_ahead self.old }
        ensures together { result ≡ false → AreTogether self.new }
    {
        self.pass_lefts(port, steps);
        self.pass_right(port, steps)
    }

    // Skips until both are in one document, or one has ended.
    #[inline(always)]
    fn pass_apart<P: Port, L: Ledger>(&mut self, port: &mut P, steps: &mut Steps<L>)
        requires { CanPass P.stands port.old self.old }
        ensures told { GoesPast P.stands P.keeps port.old port.new self.old self.new }
        ensures costs { PaysPair P.stands P.keeps port.old port.new self.old self.new steps.old steps.new }
        ensures loads { steps.new + 4 * both_ahead self.new ≤ steps.old + 4 * both_ahead self.old }
        ensures together { AreTogether self.new }
    {
        'apart: while self.pass(port, steps) {}
    }

    // One more than the document where both are, or 0 where a list has ended.
    #[inline(always)]
    fn end(&self) -> u64
        ensures { result ≡ meeting_end self.now.left self.now.right }
    {
        let Some(left) = self.left else {
            return 0;
        };
        let Some(_right) = self.right else {
            return 0;
        };
        after_document(left)
    }
}

// One more than the document of a posting.
#[inline(always)]
fn after_document(posting: Posting) -> u64
    ensures { result ≡ suc (posting / places) }
{
    posting / PLACES + 1
}

// The pair of two cursors, where their lists are packed and in their last blocks, and the lower
// posting is in a document below `end`.
#[inline(always)]
fn pair_of(own: &Cursor, other: &Cursor, end: u64) -> Option<Pair>
    requires { end ≤ 2 ^ 32 }
    ensures { MatchOption result ⊤ (IsPairOf own.now other.now end) }
{
    let Some(left) = own.current else {
        return None;
    };
    let Some(right) = other.current else {
        return None;
    };
    let PostingList::Packed(one) = &own.list else {
        return None;
    };
    let PostingList::Packed(two) = &other.list else {
        return None;
    };
    if !one.is_last() || !two.is_last() || PLACES * end <= left.min(right) {
        return None;
    }
    Some(Pair {
        left: Some(left),
        right: Some(right),
        one: *one,
        two: *two,
    })
}

/// One more than the greatest document below `end` that has both of two words, or 0, where their
/// lists are packed and in their last blocks, and the lower of their postings is in a document
/// below `end`; else `None`, and then nothing is done.
#[inline(always)]
pub fn pair_below<P: Port, L: Ledger>(
    cursors: &mut [Cursor],
    port: &mut P,
    steps: &mut Steps<L>,
    end: u64,
) -> Option<u64>
    requires small { end ≤ 2 ^ 32 }
    requires ready { (u : Term) × (v : Term) × CanAskAll P.stands port.old (word_parts (u ∷ v ∷ [])) cursors.old end }
    ensures stays { result ≡ None → (port.new ≡ port.old) × (cursors.new ≡ cursors.old) × (steps.new ≡ steps.old) }
    ensures found { (found : ℕ) → result ≡ Some found → (u v : Term)
        → FindsAll P.stands P.keeps port.old port.new (word_parts (u ∷ v ∷ [])) cursors.old cursors.new end found }
    ensures loads { steps.new + loads_left cursors.new ≤ steps.old + loads_left cursors.old }
    ensures spans { (found : ℕ) → result ≡ Some found → (u v : Term)
        → PaysSpans P.stands P.keeps port.old port.new (u ∷ v ∷ []) cursors.old cursors.new (round_loads (u ∷ v ∷ [])) steps.old steps.new }
{
    let Some((own, rest)) = cursors.split_first_mut() else {
        return None;
    };
    let Some((other, _more)) = rest.split_first_mut() else {
        return None;
    };
    let Some(mut pair) = pair_of(own, other, end) else {
        return None;
    };
    pair.pass_apart(port, steps);
    let found = pair.end();
    own.current = pair.left;
    own.list = PostingList::Packed(pair.one);
    other.current = pair.right;
    other.list = PostingList::Packed(pair.two);
    Some(found)
}
