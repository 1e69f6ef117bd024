//! From the terms of a document to the watches that have them in their key.
ghost use Rattle.std.specs.Prelude.{◌≡◌, ℕ, false, List, bytes_eq, OnOk, OnErr};
ghost use Rattle.std.specs.List.{list_any};
ghost use Rattle.std.specs.Option.{is_none};
ghost use Rattle.eb_watch.specs.Key.{key_has};
ghost use Rattle.eb_watch.specs.Terms.{key_terms};
ghost use Rattle.eb_watch.specs.Index.{leads, LeadsAlso, LeadsNoMore, LeadsElsewhere, LeadsAsBefore, HasAlso, HasNoMore, HasAsBefore};

use eb_base::{NoMemory, Term};
use std::alloc::Global;
use std::collections::{BTreeSet, HashMap};

/// Of each term that is in a watch's key, the numbers of the watches that have it there.
pub(crate) type ByTerm = HashMap<Vec<u8>, BTreeSet<u32>>;

// Puts the number into the set of the term.
fn put_number(alloc: Global, by_term: &mut ByTerm, term: &Term, number: u32) -> Result<(), NoMemory>
    ensures ok { OnOk result (LeadsAlso by_term.old by_term.new (λ t. bytes_eq t term.now) number) }
    ensures err { OnErr result (LeadsAsBefore by_term.old by_term.new) }
{
    if let Some(numbers) = by_term.get_mut(term.bytes()) {
        numbers.insert(number)?;
        return Ok(());
    }
    let mut numbers = BTreeSet::new(alloc);
    numbers.insert(number)?;
    let key = Vec::from_slice(alloc, term.bytes())?;
    by_term.insert(key, numbers)?;
    Ok(())
}

// Removes the number from the set of the term; a set that becomes empty goes.
fn take_number(by_term: &mut ByTerm, term: &Term, number: u32)
    ensures { LeadsNoMore by_term.old by_term.new (λ t. bytes_eq t term.now) number }
{
    let Some(numbers) = by_term.get_mut(term.bytes()) else {
        return;
    };
    numbers.remove(&number);
    if numbers.is_empty() {
        by_term.remove(term.bytes());
    }
}

// Puts the number into the sets of all these terms. Without memory it is in those of some of them.
fn put_all(alloc: Global, by_term: &mut ByTerm, terms: &[Term], number: u32) -> Result<(), NoMemory>
    ensures ok { OnOk result (LeadsAlso by_term.old by_term.new (λ t. list_any (bytes_eq t) terms.now) number) }
    ensures err { OnErr result (LeadsElsewhere by_term.old by_term.new (λ t. list_any (bytes_eq t) terms.now) number) }
{
    for term in terms {
        put_number(alloc, by_term, term, number)?;
    }
    Ok(())
}

// Removes the number from the sets of all these terms.
fn take_all(by_term: &mut ByTerm, terms: &[Term], number: u32)
    ensures { LeadsNoMore by_term.old by_term.new (λ t. list_any (bytes_eq t) terms.now) number }
{
    for term in terms {
        take_number(by_term, term, number);
    }
}

// Lets the key lead to the number, to which no term leads yet; a watch without a key goes among the
// keyless. Without memory all is as before.
pub(crate) fn put_key(
    alloc: Global,
    by_term: &mut ByTerm,
    keyless: &mut BTreeSet<u32>,
    key: &Option<Vec<Term>>,
    number: u32,
) -> Result<(), NoMemory>
    requires free { (t : List ℕ) → leads by_term.old t number ≡ false }
    ensures terms { OnOk result (LeadsAlso by_term.old by_term.new (key_has (key_terms key.now)) number) }
    ensures keyless { OnOk result (HasAlso keyless.old keyless.new (is_none (key_terms key.now)) number) }
    ensures same_terms { OnErr result (LeadsAsBefore by_term.old by_term.new) }
    ensures same_keyless { OnErr result (HasAsBefore keyless.old keyless.new) }
{
    match key {
        Some(terms) => {
            if put_all(alloc, by_term, terms.as_slice(), number).is_err() {
                take_all(by_term, terms.as_slice(), number);
                return Err(NoMemory);
            }
        }
        None => {
            keyless.insert(number)?;
        }
    }
    Ok(())
}

// The key no longer leads to the number.
pub(crate) fn take_key(
    by_term: &mut ByTerm,
    keyless: &mut BTreeSet<u32>,
    key: &Option<Vec<Term>>,
    number: u32,
)
    ensures terms { LeadsNoMore by_term.old by_term.new (key_has (key_terms key.now)) number }
    ensures keyless { HasNoMore keyless.old keyless.new (is_none (key_terms key.now)) number }
{
    match key {
        Some(terms) => take_all(by_term, terms.as_slice(), number),
        None => {
            keyless.remove(&number);
        }
    }
}
