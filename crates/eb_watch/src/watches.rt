//! The watches that are set.
//!
//! The watches are in a `BTreeMap` by number. A `HashMap` leads from a term of a key to a
//! `BTreeSet` of numbers, and the watches without a key are a set of their own. So setting and
//! removing a watch touches only the sets of its own terms, and a document costs a look-up for each
//! of its terms. When memory runs out, what `set` had put in is removed again.
ghost use Rattle.std.specs.Prelude.{◌≡◌, ◌≤◌, ◌↔◌, [], true, false, length, IsTrue, IsErr, IsErrOf, OnOk, OnErr};
ghost use Rattle.std.specs.BTreeMap.{btree_map_len, keys};
ghost use Rattle.std.specs.List.Sorted.{IsStrictlyIncreasing};
ghost use Rattle.eb_base.specs.Query.{tree, IsWellFormed};
ghost use Rattle.eb_watch.specs.Watches.{is_set, numbers_of, most_watches, with_watch, without_watch};
ghost use Rattle.eb_watch.specs.Held.{watched, AllWellFormed, all_formed_prop, TermsLead, AreKeyless};

use crate::faults::{NoWatch, SetFault};
use crate::index::{ByTerm, put_key, take_key};
use crate::key::key_of;
use crate::watch::Watch;
use eb_base::Query;
use std::alloc::Global;
use std::collections::{BTreeMap, BTreeSet, HashMap};

/// The most watches that can be set (this project's profile).
pub const MAX_WATCHES: usize = 10_000;

/// The watches that are set: queries that are well formed, each with a number of its own. Contracts
/// see the list of the numbers and queries, in rising order of the numbers.
#[derive(Drop)]
pub struct Watches {
    alloc: Global,
    pub(crate) by_number: BTreeMap<u32, Watch>,
    pub(crate) by_term: ByTerm,
    pub(crate) keyless: BTreeSet<u32>,
    ghost rising: { IsStrictlyIncreasing (keys by_number) },
    ghost few: { btree_map_len by_number ≤ most_watches },
    ghost formed: { AllWellFormed (watched by_number.entries) } by { all_formed_prop (watched by_number.entries) },
    ghost terms_lead: { TermsLead by_term (watched by_number.entries) },
    ghost are_keyless: { AreKeyless keyless (watched by_number.entries) },
}

impl Watches {
    ghost use Rattle.eb_watch.specs.Seen.{watches_of};

    /// No watches. Takes no memory.
    pub fn new(alloc: Global) -> Watches
        ensures { watches_of result ≡ [] }
    {
        Watches {
            alloc,
            by_number: BTreeMap::new(alloc),
            by_term: HashMap::new(alloc),
            keyless: BTreeSet::new(alloc),
        }
    }

    /// The number of watches, at most [`MAX_WATCHES`]. Takes no memory.
    pub fn len(&self) -> usize
        ensures len { result ≡ length (watches_of self.now) }
        ensures few { result ≤ most_watches }
        ensures rising { IsStrictlyIncreasing (numbers_of (watches_of self.now)) }
        ensures formed { AllWellFormed (watches_of self.now) }
    {
        self.by_number.len()
    }

    /// Whether no watch is set. Takes no memory.
    pub fn is_empty(&self) -> bool
        ensures { IsTrue result ↔ (watches_of self.now ≡ []) }
    {
        self.by_number.is_empty()
    }

    #[tactic(auto, using(crate::proofs::Lists::set_watched))]
    /// Sets a watch of this number, which asks the query. `Taken` exactly where a watch has the
    /// number; `Full` exactly where none has it and [`MAX_WATCHES`] watches are set. After a
    /// refusal, `NoMemory` included, the watches are as before, and the query is dropped. The query
    /// must be well formed. Takes memory.
    pub fn set(&mut self, number: u32, query: Query) -> Result<(), SetFault>
        requires { IsWellFormed (tree query) }
        ensures ok { OnOk result (watches_of self.new ≡ with_watch (watches_of self.old) number (tree query)) }
        ensures taken { IsErrOf result SetFault.Taken ↔ (is_set (watches_of self.old) number ≡ true) }
        ensures full { IsErrOf result SetFault.Full ↔ (is_set (watches_of self.old) number ≡ false) × (length (watches_of self.old) ≡ most_watches) }
        ensures err { OnErr result (watches_of self.new ≡ watches_of self.old) }
    {
        if self.by_number.contains_key(&number) {
            return Err(SetFault::Taken);
        }
        if self.by_number.len() == MAX_WATCHES {
            return Err(SetFault::Full);
        }
        let Ok(key) = key_of(self.alloc, &query) else {
            return Err(SetFault::NoMemory);
        };
        if put_key(
            self.alloc,
            &mut self.by_term,
            &mut self.keyless,
            &key,
            number,
        )
        .is_err()
        {
            return Err(SetFault::NoMemory);
        }
        if let Err(refused) = self.by_number.insert(number, Watch { query, key }) {
            let (_, watch) = refused.value;
            take_key(&mut self.by_term, &mut self.keyless, &watch.key, number);
            return Err(SetFault::NoMemory);
        }
        Ok(())
    }

    /// Removes the watch of this number. `NoWatch` exactly where none has it; the watches are then
    /// as before. Takes no memory.
    pub fn remove(&mut self, number: u32) -> Result<(), NoWatch>
        ensures ok { OnOk result (watches_of self.new ≡ without_watch (watches_of self.old) number) }
        ensures no_watch { IsErr result ↔ (is_set (watches_of self.old) number ≡ false) }
        ensures err { OnErr result (watches_of self.new ≡ watches_of self.old) }
    {
        let Some(watch) = self.by_number.remove(&number) else {
            return Err(NoWatch);
        };
        take_key(&mut self.by_term, &mut self.keyless, &watch.key, number);
        Ok(())
    }
}
