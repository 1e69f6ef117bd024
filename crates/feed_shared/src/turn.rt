//! The log of turns, and the rule of its book. No value of `Turn` is ever made; contracts speak of
//! it.
use eb_base::Document;
use eb_engine::{Index, Reader};
use logbook::{Gain, Plain, Play, Rule};
use std::collections::LinkedList;

/// A generation was begun: its index, and the documents of the generation before it, which is
/// closed by that.
pub struct Turn {
    /// The index.
    pub index: Index,
    /// The documents of the generation before.
    pub before: LinkedList<Document>,
}

/// The rule of the book: its first word is the number of turns.
pub struct Law;

impl Rule<Turn, u64> for Law {
    ghost use Rattle.std.specs.Prelude.{[]};
    ghost use base.Fml.{ftrue};
    ghost use Rattle.feed_shared.specs.Rules.{IsKept};

    ghost holds = { λ cells log. IsKept cells log };

    ghost first = { [] };

    ghost hinted = { λ n log. Unit {0} };

    ghost shows = { λ log. [] };

    ghost keeps = { λ names log. ftrue };

    ghost moves = { λ ask before after answer. Unit {0} };
}

/// Callers gain nothing by a step.
pub struct Nothing;

impl Gain<Turn, u64> for Nothing {
    ghost use base.Fml.{ftrue};

    ghost after = { λ names about answer. ftrue };
}

/// A step that adds a turn.
pub struct Begin;

impl Play<Turn, u64> for Begin {
    ghost use Rattle.feed_shared.specs.Rules.{Begins};

    ghost then = { Begins };
}

/// A reader of the index that is begun, and one of the index that is closed, which knows all of its
/// documents.
#[derive(Drop)]
pub(crate) struct Pair {
    pub(crate) begun: Reader,
    pub(crate) closed: Reader,
}

impl Plain<Pair, Turn, u64> for Begin {
    ghost use Rattle.std.specs.Prelude.{None};
    ghost use Rattle.feed_shared.specs.Turns.{turn};

    ghost ask = { λ pair. turn pair.begun.index pair.closed.docs };

    ghost state = { λ pair. None };
}
