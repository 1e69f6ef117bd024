//! A store with watches.
//!
//! The room for all numbers that a document may print is taken before the document is added, so
//! nothing can fail after the add: 21 bytes for each watch that is set. The room stays with the
//! text, so it is taken once.
ghost use Rattle.std.specs.Prelude.{◌≡◌, ◌<◌, ◌≤◌, ◌^◌, ℕ, List, [], Some, None, length, IfOk, OnErr};
ghost use Rattle.run_store.specs.Rules.{Rules};
ghost use Rattle.run_store.specs.Stores.{IsHolding, TakesOther, Keeps};
ghost use Rattle.eb_base.specs.Document.{Doc};
ghost use Rattle.eb_base.specs.Query.{tree, IsWellFormed};
ghost use Rattle.eb_lines.specs.Reading.{watch};
ghost use Rattle.eb_watch.specs.Seen.{watches_of};
ghost use Rattle.eb_watch.specs.Watches.{numbers_of, matching};
ghost use Rattle.run_with_watches.specs.Watched.{IsWatched};
ghost use Rattle.run_with_watches.specs.WatchRules.{with_watches};

use crate::other::read_other;
use eb_base::{Document, Gate, NoMemory, Query};
use eb_fields::Dialect;
use eb_lines::{Form, Refusal, Tail};
use eb_query::Ask;
use eb_watch::{NoWatch, SetFault, Watches};
use run_store::Store;
use std::alloc::Global;

// A store, and the watches that are set.
#[derive(Drop)]
pub(crate) struct Watching<S> {
    store: S,
    watches: Watches,
}

// The numbers of the watches that a document matches.
fn told_of(alloc: Global, watches: &Watches, document: &Document) -> Result<Vec<u32>, NoMemory>
    ensures told { IfOk result (λ numbers. numbers.items ≡ numbers_of (matching (watches_of watches.now) document.now)) }
    ensures few { IfOk result (λ numbers. length numbers.items ≤ 2 ^ 32) }
{
    let _most = watches.len();
    watches.told_unmetered(alloc, document)
}

impl<S: Store> Watching<S> {
    // The store, and no watches. Takes no memory.
    pub(crate) fn new(alloc: Global, store: S) -> Watching<S>
        ensures { (rules : Rules S.Watches) (docs : List Doc) (beside : S.Watches) → S.holds store rules docs beside
            → IsWatched S.holds result (with_watches rules) docs [] }
    {
        Watching {
            store,
            watches: Watches::new(alloc),
        }
    }

    // Sets a watch, or returns why it isn't set.
    fn set(&mut self, number: u32, query: Query) -> Result<Option<Refusal>, NoMemory>
        requires { IsWellFormed (tree query) }
        ensures ok { IfOk result (λ refusal. TakesOther (IsWatched S.holds) self.old self.new (watch number (Some (tree query))) refusal) }
        ensures err { OnErr result (Keeps (IsWatched S.holds) self.old self.new) }
    {
        match self.watches.set(number, query) {
            Ok(()) => Ok(None),
            Err(SetFault::Taken) => Ok(Some(Refusal::WatchTaken)),
            Err(SetFault::Full) => Ok(Some(Refusal::WatchesFull)),
            Err(SetFault::NoMemory) => Err(NoMemory),
        }
    }

    // Removes a watch, or returns why it isn't removed.
    fn remove(&mut self, number: u32) -> Option<Refusal>
        ensures { TakesOther (IsWatched S.holds) self.old self.new (watch number None) result }
    {
        match self.watches.remove(number) {
            Ok(()) => None,
            Err(NoWatch) => Some(Refusal::NoWatch),
        }
    }
}

impl<S: Store> Store for Watching<S> {
    ghost use Rattle.std.specs.Prelude.{List};
    ghost use Rattle.eb_watch.specs.Watches.{Watched};
    ghost use Rattle.run_with_watches.specs.Others.{ReadsOther};
    ghost use Rattle.run_with_watches.specs.Watched.{IsWatched as IsWatchedBy};

    ghost Watches = { List Watched };

    ghost other = { ReadsOther };

    ghost holds = { IsWatchedBy S.holds };

    fn place<G: Gate>(&mut self, document: &Document, gate: &G) -> Option<Refusal> {
        self.store.place(document, gate)
    }

    fn told(&self, alloc: Global, document: &Document) -> Result<Vec<u32>, NoMemory> {
        told_of(alloc, &self.watches, document)
    }

    fn take_other(
        &mut self,
        alloc: Global,
        dialect: Dialect<'_>,
        bytes: &[u8],
    ) -> Result<Option<Refusal>, NoMemory> {
        match read_other(alloc, dialect, bytes)? {
            Ok((number, Some(query))) => self.set(number, query),
            Ok((number, None)) => Ok(self.remove(number)),
            Err(refusal) => Ok(Some(refusal)),
        }
    }

    fn answer<G: Gate>(
        &mut self,
        alloc: Global,
        number: u64,
        ask: Ask,
        query: Query,
        gate: &G,
        text: &mut Vec<u8>,
    ) -> Result<(), NoMemory> {
        self.store.answer(alloc, number, ask, query, gate, text)
    }

    fn documents(&self) -> u64 {
        self.store.documents()
    }

    fn form(&self) -> Form {
        self.store.form()
    }

    fn close(&mut self, alloc: Global) -> Result<Tail, NoMemory> {
        self.store.close(alloc)
    }
}
