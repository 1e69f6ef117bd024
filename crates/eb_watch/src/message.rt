//! A document that many queries are tested against: its terms by number.
ghost use Rattle.std.specs.Prelude.{◌≡◌, ℕ, ◌≤◌, length, Some, None, IfOk, OnOk, unwrap_or};
ghost use Rattle.std.specs.HashMap.{UpdatesBy};
ghost use Rattle.eb_watch.specs.Message.{AreNumbered, Numbers, number_of};

use eb_base::{NoMemory, Term};
use std::alloc::Global;
use std::collections::HashMap;

// For each term of a document the first place where it occurs, which is its number.
pub(crate) type ByText = HashMap<Vec<u8>, usize>;

// The terms of a document by number, and the number of the term at each place.
#[derive(Drop)]
pub(crate) struct Message {
    by_text: ByText,
    places: Vec<usize>,
}

impl Message {
    // The message of these terms. Takes memory for each of them.
    pub(crate) fn new(alloc: Global, terms: &[Term]) -> Result<Message, NoMemory>
        ensures { IfOk result (λ message. AreNumbered message terms.now) }
    {
        let mut by_text = HashMap::new(alloc);
        let mut places = Vec::with_capacity(alloc, terms.len())?;
        for (at, term) in terms.iter().enumerate() {
            let number = put_number(alloc, &mut by_text, term, at)?;
            places.push(number)?;
        }
        Ok(Message { by_text, places })
    }

    // The number of the term, if the document has it.
    pub(crate) fn number(&self, term: &Term) -> Option<usize>
        ensures { result ≡ number_of self.now.by_text term.now }
    {
        match self.by_text.get(term.bytes()) {
            Some(number) => Some(*number),
            None => None,
        }
    }

    // The number of the term at each place.
    pub(crate) fn places(&self) -> &[usize]
        ensures { result.now ≡ self.now.places.items }
    {
        self.places.as_slice()
    }
}

// The number of a term that is at this place: that of an earlier place, or else this one.
fn put_number(
    alloc: Global,
    by_text: &mut ByText,
    term: &Term,
    at: usize,
) -> Result<usize, NoMemory>
    ensures { IfOk result (λ number. Numbers by_text.old by_text.new term.now at number) }
{
    if let Some(number) = by_text.get(term.bytes()) {
        return Ok(*number);
    }
    let key = Vec::from_slice(alloc, term.bytes())?;
    by_text.insert(key, at)?;
    Ok(at)
}
