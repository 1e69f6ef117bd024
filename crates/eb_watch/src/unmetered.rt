//! The watches that a document matches, for callers that don't ask how many tests that takes. A
//! counter of tests belongs to a ledger that only a function with a type parameter for it can open,
//! so the call here stands before such a function.
ghost use Rattle.std.specs.Prelude.{◌≡◌, ◌<◌, IfOk};
ghost use Rattle.std.specs.List.Sorted.{IsStrictlyIncreasing};
ghost use Rattle.eb_watch.specs.Watches.{numbers_of, matching};
ghost use Rattle.eb_watch.specs.Seen.{watches_of};

use crate::watches::Watches;
use eb_base::{Document, NoMemory};
use eb_place::Steps;
use std::alloc::Global;
use std::marker::Brand;
use std::sync::ledger::{Blank, Ledger};

// Tests with a counter of the ledger that the blank names.
fn told_by<L: Ledger>(
    watches: &Watches,
    alloc: Global,
    document: &Document,
    blank: Blank,
) -> Result<Vec<u32>, NoMemory>
    requires blank { (blank.name ≡ L.name) × (blank.parts ≡ L.parts) × (0 < blank.parts) }
    ensures told { IfOk result (λ numbers. numbers.items ≡ numbers_of (matching (watches_of watches.now) document.now)) }
    ensures rising { IfOk result (λ numbers. IsStrictlyIncreasing numbers.items) }
{
    let mut tests = Steps::<L>::new(blank);
    watches.told(alloc, document, &mut tests)
}

impl Watches {
    /// The numbers that [`Watches::told`] gives; it doesn't say how many tests are made. Takes
    /// memory for the list.
    pub fn told_unmetered(&self, alloc: Global, document: &Document) -> Result<Vec<u32>, NoMemory>
        ensures told { IfOk result (λ numbers. numbers.items ≡ numbers_of (matching (watches_of self.now) document.now)) }
        ensures rising { IfOk result (λ numbers. IsStrictlyIncreasing numbers.items) }
    {
        told_by::<Brand>(self, alloc, document, Blank::new(1))
    }
}
