//! The rule of the shared words, and what each kind of step shows its seat: opening, split, join,
//! load, the writer's store and the converter's store.
ghost use Rattle.std.specs.Prelude.{[]};
ghost use Rattle.eb_base.specs.Document.{Doc};
ghost use Rattle.eb_place.specs.Moments.{empty_moment};
ghost use Rattle.eb_table.specs.Rule.{KeepsWords};
ghost use Rattle.eb_table.specs.Steps.{LoadedWord, Confirmed, Stored, Put, left_of, right_of, met};
ghost use Rattle.eb_table.specs.declared.view.View.TheVariants.{Opening, Spent};

use crate::view::View;
use atomic_table::{Join, Play, Split, TableRule};
use eb_base::Config;
use std::marker::{Brand, PhantomData};

/// The rule of the words, for each setting; and what the first seat knows.
pub struct WordsRule;

impl TableRule<(), View, Config> for WordsRule {
    ghost holds = { KeepsWords };

    ghost first = { λ σ. Opening (empty_moment σ) };
}

/// A load: what its seat then knows, and what it found.
pub struct LoadStep;

impl Play<(), View> for LoadStep {
    ghost then = { LoadedWord };
}

/// A load that shows its seat nothing new: what the seat knows lies on the history of the words.
pub struct ConfirmStep;

impl Play<(), View> for ConfirmStep {
    ghost then = { Confirmed };
}

/// Which document is being placed. Each store of the writer names it, since no word does.
pub trait Placed {
    ghost document: { Doc };
}

// `Brand` serves for any document: the store that gets it says which.
impl Placed for Brand {
    ghost document = { record { id = 0; terms = [] } };
}

/// A store of the writer: one more store of the placing of the document is done.
pub struct StoreStep<D> {
    document: PhantomData<D>,
}

impl<D: Placed> Play<(), View> for StoreStep<D> {
    ghost then = { Stored D.document };
}

/// A store of the converter: one more store of the next conversion is done.
pub struct PutStep;

impl Play<(), View> for PutStep {
    ghost then = { Put };
}

/// How a seat is split: the first one into the seats of the writer and the converter, any other
/// into itself and a seat of a reader.
pub struct SplitStep;

impl Split<View> for SplitStep {
    ghost left = { left_of };

    ghost right = { right_of };
}

/// How a seat meets another: it then knows the least moment after both.
pub struct JoinStep;

impl Join<View> for JoinStep {
    ghost both = { met };

    ghost spent = { Spent };
}
