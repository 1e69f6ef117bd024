//! The watches that a document may match.
ghost use Rattle.std.specs.Prelude.{◌≡◌, ℕ, ◌||◌, ◌++◌, nat_eq, OnOk, IfOk};
ghost use Rattle.std.specs.List.{list_any};
ghost use Rattle.std.specs.List.Sorted.{IsStrictlyIncreasing};
ghost use Rattle.std.specs.Ordering.{nat_cmp};
ghost use Rattle.std.specs.BTreeSet.{contains};
ghost use Rattle.eb_watch.specs.Index.{leads};

use crate::index::ByTerm;
use eb_base::{Document, NoMemory, Term};
use std::alloc::Global;
use std::collections::BTreeSet;

// The numbers of the watches without a key, and of those to which a term of the document leads,
// rising, each once.
pub(crate) fn candidate_numbers(
    alloc: Global,
    by_term: &ByTerm,
    keyless: &BTreeSet<u32>,
    document: &Document,
) -> Result<Vec<u32>, NoMemory>
    ensures rising { IfOk result (λ numbers. IsStrictlyIncreasing numbers.items) }
    ensures numbers { IfOk result (λ numbers. (n : ℕ) → list_any (nat_eq n) numbers.items
        ≡ (contains nat_cmp keyless.now n || list_any (λ t. leads by_term.now t n) document.now.terms)) }
{
    let mut numbers = Vec::new(alloc);
    put_numbers(keyless, &mut numbers)?;
    put_led(by_term, document.terms().as_slice(), &mut numbers)?;
    numbers.sort_unstable();
    numbers.dedup();
    Ok(numbers)
}

// Puts after the list the numbers to which one of the terms leads, those of a term that occurs
// several times once.
fn put_led(by_term: &ByTerm, terms: &[Term], numbers: &mut Vec<u32>) -> Result<(), NoMemory>
    ensures { OnOk result ((n : ℕ) → list_any (nat_eq n) numbers.new.items
        ≡ (list_any (nat_eq n) numbers.old.items || list_any (λ t. leads by_term.now t n) terms.now)) }
{
    for (at, term) in terms.iter().enumerate() {
        let Some(led) = by_term.get(term.bytes()) else {
            continue;
        };
        if !terms[..at].contains(term) {
            put_numbers(led, numbers)?;
        }
    }
    Ok(())
}

// Puts the numbers of the set after the list.
fn put_numbers(set: &BTreeSet<u32>, numbers: &mut Vec<u32>) -> Result<(), NoMemory>
    ensures { OnOk result (numbers.new.items ≡ numbers.old.items ++ set.now.keys) }
{
    for number in set {
        numbers.push(*number)?;
    }
    Ok(())
}
