//! Entering a term into the dictionary.
//!
//! The condition says that the next stores of the placing enter this term after the entered ones.
//! That there is room for the term and its text, and that the segment is one of the index, follows
//! from it. The free cell is found before the first store, with a counter of loads of its own.
ghost use Rattle.std.specs.Prelude.{◌≡◌, ◌+◌, ◌<◌};
ghost use Rattle.eb_place.specs.declared.moment.Moment.{Moment};
ghost use Rattle.eb_place.specs.Room.{text_words};
ghost use Rattle.eb_place.specs.Placing.{cell_of_next};
ghost use Rattle.eb_place.specs.Later.{IsNotBefore};
ghost use Rattle.eb_place.specs.Seen.{entered};
ghost use Rattle.eb_place.specs.Tells.{TellsSegment};
ghost use Rattle.eb_place.specs.NextStores.{with_placed};
ghost use Rattle.eb_place.specs.Told.{Written};
ghost use Rattle.eb_terms.specs.Finding.{cells_in};
ghost use Rattle.eb_terms.specs.Entering.{IsNextTerm, IsNextText, HasEntered};

use crate::hashing::{cell_behind, home};
use crate::loads::number_in;
use crate::texts::{count_words, text_word};
use eb_base::{Document, Term};
use eb_place::{Pen, Places, Port, Steps, Used};
use std::marker::Brand;
use std::sync::ledger::{Blank, Ledger};

/// Enters a term in a segment, and returns its number. The next stores of the placing of a document
/// must be the text words of this term, its text place and its cell; the call does exactly these,
/// in this order (this project's profile, docs/FORMATS.md). Where these stores come next there is
/// room for the term and its text. `used` describes the segment before the call and after it. Takes
/// no memory.
pub fn enter<P: Pen>(
    pen: &mut P,
    document: &Document,
    segment: u32,
    used: &mut Used,
    term: &Term,
) -> u32
    requires { (m : Moment) × P.stands pen.old m × TellsSegment used.old m segment × IsNextTerm m document.now segment term.now }
    ensures { Written P.stands P.same pen.old pen.new (λ m. TellsSegment used.old m segment × IsNextTerm m document.now segment term.now)
        (λ m n. HasEntered m n document.now segment term.now result × TellsSegment used.new n segment) }
{
    let number = used.terms;
    let start = used.text;
    let cell = free_cell_alone::<P, Brand>(pen, segment, term, Blank::new(1));
    let places = Places::new(pen.config());
    store_text(pen, document, segment, start, term);
    pen.store(
        document,
        places.text_place(segment, number),
        u64::from(start),
    );
    pen.store(document, places.cell(segment, cell), u64::from(number) + 1);
    used.terms = number + 1;
    used.text = start + count_words(term) as u32;
    number
}

// Stores the text words of a term, which come next, from this text word of the segment on.
fn store_text<P: Pen>(pen: &mut P, document: &Document, segment: u32, start: u32, term: &Term)
    requires { (m : Moment) × P.stands pen.old m × IsNextText m document.now segment start term.now }
    ensures { (m : Moment) → P.stands pen.old m → IsNextText m document.now segment start term.now
        → P.stands pen.new (with_placed m document.now (text_words term.now)) × P.same pen.old pen.new }
{
    let places = Places::new(pen.config());
    for at in 0..count_words(term) {
        let place = places.text(segment, start + at as u32);
        pen.store(document, place, text_word(term, at));
    }
}

// The cell for a term that isn't entered yet: the first free one from the term's home cell on.
fn free_cell<P: Port, L: Ledger>(
    port: &mut P,
    segment: u32,
    term: &Term,
    steps: &mut Steps<L>,
) -> u32
    requires { (m : Moment) × P.stands port.old m × (segment < m.setting.segments) }
    ensures { (m : Moment) → P.stands port.old m
        → (n : Moment) × P.stands port.new n × IsNotBefore n m × P.keeps port.old m port.new n
        × (result ≡ cell_of_next (cells_in n) (entered n segment) term.now) × (result < cells_in n) }
{
    let config = port.config();
    let places = Places::new(config);
    let cells = 2 * config.terms();
    let first = home(term, cells);
    for step in 0..cells {
        let cell = cell_behind(first, step, cells);
        let Some(_) = number_in(port, places, segment, cell, steps) else {
            return cell;
        };
    }
    unreachable!()
}

// The cell for a term that isn't entered yet, with a counter of loads of its own.
fn free_cell_alone<P: Port, L: Ledger>(port: &mut P, segment: u32, term: &Term, blank: Blank) -> u32
    requires blank { (blank.name ≡ L.name) × (blank.parts ≡ L.parts) × (0 < blank.parts) }
    requires inside { (m : Moment) × P.stands port.old m × (segment < m.setting.segments) }
    ensures { (m : Moment) → P.stands port.old m
        → (n : Moment) × P.stands port.new n × IsNotBefore n m × P.keeps port.old m port.new n
        × (result ≡ cell_of_next (cells_in n) (entered n segment) term.now) × (result < cells_in n) }
{
    let mut steps = Steps::<L>::new(blank);
    free_cell(port, segment, term, &mut steps)
}
