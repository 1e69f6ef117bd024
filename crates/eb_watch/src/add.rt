//! Adding a document, and finding the watches that it matches.
ghost use Rattle.std.specs.Prelude.{◌≡◌, ◌+◌, ◌≤◌, ◌++◌, ◌∷◌, [], false, length, IfOk, IsErrOf, OnErr};
ghost use Rattle.std.specs.List.Sorted.{IsStrictlyIncreasing};
ghost use Rattle.eb_place.specs.Room.{HasRoom, has_room};
ghost use Rattle.eb_watch.specs.Watches.{numbers_of, matching, candidates};
ghost use Rattle.eb_watch.specs.Seen.{watches_of};

use crate::candidates::candidate_numbers;
use crate::faults::WatchFault;
use crate::matching::matches_by;
use crate::message::Message;
use crate::watches::Watches;
use eb_base::{Document, Gate, NoMemory};
use eb_engine::{Index, Writer};
use eb_place::Steps;
use eb_writer::Full;
use std::alloc::Global;
use std::sync::ledger::Ledger;

impl Watches {
    /// Adds a document as `Writer::add` does, and returns the length of the history then, with the
    /// rising list of the numbers of the watches whose query matches the document. `Full` exactly
    /// where the index has no room for the document. `NoMemory` comes before the document is added.
    /// After either the history is as before, and no store is done. The writer must have been made
    /// with this index.
    ///
    /// The tests count each query that the document is tested against: at most those of the watches
    /// without a key, and of those with one of the document's terms in their key. Takes memory for
    /// the list.
    pub fn add<G: Gate, L: Ledger>(
        &self,
        alloc: Global,
        index: &Index,
        writer: &mut Writer,
        document: &Document,
        gate: &G,
        tests: &mut Steps<L>,
    ) -> Result<(u64, Vec<u32>), WatchFault>
        requires { writer.old.index ≡ index.now }
        ensures added { IfOk result (λ r. HasRoom index.now.setting writer.old.docs document.now
            × (writer.new ≡ record { index = writer.old.index; docs = writer.old.docs ++ document.now ∷ []; converted = writer.old.converted })
            × (r.0 ≡ length writer.new.docs)) }
        ensures told { IfOk result (λ r. r.1.items ≡ numbers_of (matching (watches_of self.now) document.now)) }
        ensures rising { IfOk result (λ r. IsStrictlyIncreasing r.1.items) }
        ensures full { IsErrOf result WatchFault.Full → has_room index.now.setting writer.old.docs document.now ≡ false }
        ensures unchanged { OnErr result (writer.new ≡ writer.old) }
        ensures tests { tests.new ≤ tests.old + length (candidates (watches_of self.now) document.now) }
    {
        let Ok(numbers) = self.told(alloc, document, tests) else {
            return Err(WatchFault::NoMemory);
        };
        match writer.add(index, document, gate) {
            Ok(count) => Ok((count, numbers)),
            Err(Full) => Err(WatchFault::Full),
        }
    }

    /// The numbers of the watches whose query matches the document, rising. Takes memory for the
    /// list.
    pub fn told<L: Ledger>(
        &self,
        alloc: Global,
        document: &Document,
        tests: &mut Steps<L>,
    ) -> Result<Vec<u32>, NoMemory>
        ensures told { IfOk result (λ numbers. numbers.items ≡ numbers_of (matching (watches_of self.now) document.now)) }
        ensures rising { IfOk result (λ numbers. IsStrictlyIncreasing numbers.items) }
        ensures tests { tests.new ≤ tests.old + length (candidates (watches_of self.now) document.now) }
    {
        let candidates = candidate_numbers(alloc, &self.by_term, &self.keyless, document)?;
        let terms = document.terms().as_slice();
        let message = Message::new(alloc, terms)?;
        let mut room = vec![in alloc; 0; terms.len()]?;
        let ends = room.as_mut_slice();
        let mut numbers = Vec::new(alloc);
        for number in &candidates {
            let Some(watch) = self.by_number.get(number) else {
                continue;
            };
            if matches_by(&watch.query, document, &message, ends, tests) {
                numbers.push(*number)?;
            }
        }
        Ok(numbers)
    }
}
