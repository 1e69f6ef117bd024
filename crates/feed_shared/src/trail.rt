//! Which generations were begun: the one log of a feed.
ghost use Rattle.std.specs.Prelude.{◌≡◌, ◌<◌, ◌++◌, ◌∷◌, [], length, IsTrue, IsFalse, MatchBool};
ghost use mathlib.Core.List.{IsPrefix};
ghost use Rattle.feed_shared.specs.Turns.{turn};

use crate::turn::{Begin, Law, Nothing, Pair, Turn};
use logbook::{Offer, Seen, Start, Word};
use std::marker::Model;

// The word of the book, which the writer of a feed has.
#[derive(Drop)]
pub struct Head {
    word: Word<Turn, u64, Law>,
}

impl Model for Head {
    ghost use Rattle.std.specs.Prelude.{◌≡◌};
    ghost use Rattle.logbook.specs.Pages.{Book};
    ghost use Rattle.feed_shared.specs.Rules.{head_of};

    ghost Value = { Book };

    ghost view = { λ h. h.word.book };

    ghost invariant = { λ h. h.word ≡ head_of h.word.book };
}

// A prefix of the log that was seen. Contracts see it, and which book it is of.
#[derive(Drop)]
pub(crate) struct Trail {
    count: u64,
    seen: Seen<Turn, u64, Law>,
}

impl Model for Trail {
    ghost use Rattle.std.specs.Prelude.{◌≡◌, length};
    ghost use Rattle.feed_shared.specs.Turns.{TrailToken};

    ghost Value = { TrailToken };

    ghost view = { λ t. record { book = t.seen.book; log = t.seen.log } };

    ghost invariant = { λ t. t.count ≡ length t.seen.log };
}

impl Trail {
    // A log without a turn, with its word.
    pub(crate) fn open() -> (Head, Trail)
        ensures book { result.0 ≡ result.1.book }
        ensures log { result.1.log ≡ [] }
    {
        let (seen, mut first, _second) = Seen::open(Start::alone(), 0, 0);
        let head = Head {
            word: Word::tracked(0, &mut first),
        };
        (head, Trail { count: 0, seen })
    }

    // How many turns it has.
    pub(crate) fn count(&self) -> u64
        ensures { result ≡ length self.now.log }
    {
        self.count
    }

    // A copy.
    pub(crate) fn again(&self) -> Trail
        ensures { result ≡ self.now }
    {
        Trail {
            count: self.count,
            seen: self.seen.again(),
        }
    }

    // Whether it is a prefix of the other, of the same book; else the other is a prefix of it.
    pub(crate) fn is_front_of(&self, other: &Trail) -> bool
        requires { other.now.book ≡ self.now.book }
        ensures front { IsTrue result → IsPrefix self.now.log other.now.log }
        ensures behind { IsFalse result → IsPrefix other.now.log self.now.log }
        ensures more { IsFalse result → length other.now.log < length self.now.log }
    {
        let mut both = self.seen.again();
        both.learn(&other.seen);
        if self.count <= other.count {
            true
        } else {
            false
        }
    }

    // Adds a turn after all that was seen. False where the log is longer, or can't grow.
    pub(crate) fn begin(&mut self, head: &Head, pair: &Pair) -> bool
        requires { head.now ≡ self.old.book }
        ensures book { self.new.book ≡ self.old.book }
        ensures begun { IsTrue result → self.new.log ≡ self.old.log ++ turn pair.now.begun.index pair.now.closed.docs ∷ [] }
    {
        if self.count >= u64::MAX - 1 {
            return false;
        }
        let mut offer: Offer<Turn, u64, Law, Nothing> = self
            .seen
            .plain::<Nothing, Pair, Begin>(pair);
        let mut pen = self.seen.no_pen();
        let count = self.count;
        let found = head
            .word
            .compare_exchange::<Begin, Nothing>(
                count,
                count + 1,
                &mut self.seen,
                &mut offer,
                &mut pen,
            );
        self.count = if found == count { count + 1 } else { found };
        found == count
    }
}
