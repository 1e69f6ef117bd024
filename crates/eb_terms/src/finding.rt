//! Finding a term in the dictionary.
//!
//! A cell whose word isn't 0 is filled. The run from the home cell has at most all cells. A lookup
//! that came round all cells answers none, but it always meets a free cell earlier.
ghost use Rattle.std.specs.Prelude.{◌≡◌, ◌+◌, ◌*◌, ◌<◌, ◌≤◌, ◌↔◌, IsTrue, false};
ghost use Rattle.eb_place.specs.declared.moment.Moment.{Moment};
ghost use Rattle.eb_place.specs.Placing.{hash, text_of};
ghost use Rattle.eb_place.specs.Later.{IsNotBefore};
ghost use Rattle.eb_place.specs.Seen.{IsEntered};
ghost use Rattle.eb_place.specs.Told.{Told};
ghost use Rattle.eb_terms.specs.Finding.{IsAnswer, is_home_filled, most_finding_loads};
ghost use Rattle.eb_terms.specs.Comparing.{IsNumber, term_at, words_compared};

use crate::hashing::{cell_behind, hash_of, home_of};
use crate::loads::{number_in, start_of, word_of_text};
use crate::texts::{count_words, text_word};
use eb_base::Term;
use eb_place::{Places, Port, Steps};
use std::sync::ledger::Ledger;

/// The number of a term in a segment's dictionary, by linear probing from the term's home cell
/// (this project's profile, docs/FORMATS.md).
///
/// A number is that of the term at the moment on exit, at which it is entered. `None` comes only
/// where the term isn't entered at the moment on entry, even if words grow between two loads. The
/// loads are fewer than `(r + 1) * (3 + w)`, where `r` is the number of filled cells that follow
/// each other from the home cell, wrapping, at the moment on exit, and `w` the number of text words
/// of the term. Takes no memory.
pub fn find<P: Port, L: Ledger>(
    port: &mut P,
    segment: u32,
    term: &Term,
    steps: &mut Steps<L>,
) -> Option<u32>
    requires { (m : Moment) × P.stands port.old m × (segment < m.setting.segments) }
    ensures told { (m : Moment) → P.stands port.old m
        → (n : Moment) × P.stands port.new n × IsNotBefore n m × P.keeps port.old m port.new n
        × IsAnswer m n segment term.now result × (steps.new < steps.old + most_finding_loads n segment term.now) }
{
    find_hashed(port, segment, term, hash_of(term), steps)
}

/// The number of a term whose hash is known, as [`find`] says: the hash is computed once where
/// several segments are searched. Takes no memory.
pub fn find_hashed<P: Port, L: Ledger>(
    port: &mut P,
    segment: u32,
    term: &Term,
    hashed: u32,
    steps: &mut Steps<L>,
) -> Option<u32>
    requires inside { (m : Moment) × P.stands port.old m × (segment < m.setting.segments) }
    requires hash { hashed ≡ hash term.now }
    ensures told { (m : Moment) → P.stands port.old m
        → (n : Moment) × P.stands port.new n × IsNotBefore n m × P.keeps port.old m port.new n
        × IsAnswer m n segment term.now result × (steps.new < steps.old + most_finding_loads n segment term.now) }
{
    let config = port.config();
    let places = Places::new(config);
    let cells = 2 * config.terms();
    let first = home_of(hashed, cells);
    for step in 0..cells {
        let cell = cell_behind(first, step, cells);
        let Some(number) = number_in(port, places, segment, cell, steps) else {
            return None;
        };
        if is_term(port, places, segment, number, term, steps) {
            return Some(number);
        }
    }
    None
}

/// Whether a term whose hash is known may be entered in a segment: whether its home cell is filled
/// at the moment on exit. Where it isn't, the term isn't entered at that moment. One load; with it,
/// a `find` loads at most `(r + 1) * (3 + w)` words. Takes no memory.
pub fn may_be_entered<P: Port, L: Ledger>(
    port: &mut P,
    segment: u32,
    term: &Term,
    hashed: u32,
    steps: &mut Steps<L>,
) -> bool
    requires inside { (m : Moment) × P.stands port.old m × (segment < m.setting.segments) }
    requires hash { hashed ≡ hash term.now }
    ensures told { (m : Moment) → P.stands port.old m
        → (n : Moment) × P.stands port.new n × IsNotBefore n m × P.keeps port.old m port.new n
        × (result ≡ false → IsEntered n segment term.now → ⊥) × (result ≡ is_home_filled n segment term.now) × (segment < n.setting.segments) }
    ensures step { steps.new ≡ steps.old + 1 }
{
    let config = port.config();
    let places = Places::new(config);
    let first = home_of(hashed, 2 * config.terms());
    let Some(_) = number_in(port, places, segment, first, steps) else {
        return false;
    };
    true
}

// Whether the entered term of this number is the given one. The lengths are compared first, then
// the words of the bytes, up to the first that differs.
fn is_term<P: Port, L: Ledger>(
    port: &mut P,
    places: Places,
    segment: u32,
    number: u32,
    term: &Term,
    steps: &mut Steps<L>,
) -> bool
    requires { (m : Moment) × P.stands port.old m × (places ≡ m.setting) × (segment < m.setting.segments) × IsNumber m segment number }
    ensures told { Told P.stands P.keeps port.old port.new (λ m. (places ≡ m.setting) × (segment < m.setting.segments) × IsNumber m segment number)
        (λ n. IsNumber n segment number × (IsTrue result ↔ (term_at n segment number ≡ term.now))
        × (steps.new ≡ steps.old + 1 + words_compared (text_of (term_at n segment number)) (text_of term.now))) }
{
    let start = start_of(port, places, segment, number, steps);
    for at in 0..count_words(term) {
        if word_of_text(port, places, segment, start, at, steps) != text_word(term, at) {
            return false;
        }
    }
    true
}
