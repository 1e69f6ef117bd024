ghost use Rattle.std.specs.Prelude.{◌≡◌, ℕ, ◌+◌, ◌<◌, get_or};
ghost use Rattle.eb_place.specs.declared.moment.Moment.{Moment};
ghost use Rattle.eb_place.specs.Room.{text_words};
ghost use Rattle.eb_place.specs.Placing.{text_of};
ghost use Rattle.eb_place.specs.Told.{Told};
ghost use Rattle.eb_terms.specs.Finding.{cells_in};
ghost use Rattle.eb_terms.specs.Comparing.{CellHolds, IsNumber, IsText, term_at};

use eb_place::{Places, Port, Steps};
use std::sync::ledger::Ledger;

// The number of the term that has this cell, if the cell is filled.
pub(crate) fn number_in<P: Port, L: Ledger>(
    port: &mut P,
    places: Places,
    segment: u32,
    cell: u32,
    steps: &mut Steps<L>,
) -> Option<u32>
    requires { (m : Moment) × P.stands port.old m × (places ≡ m.setting) × (segment < m.setting.segments) × (cell < cells_in m) }
    ensures told { Told P.stands P.keeps port.old port.new (λ m. (places ≡ m.setting) × (segment < m.setting.segments) × (cell < cells_in m))
        (λ n. CellHolds n segment cell result) }
    ensures step { steps.new ≡ steps.old + 1 }
{
    let word = port.load(places.cell(segment, cell), steps);
    if word == 0 {
        return None;
    }
    Some((word - 1) as u32)
}

// Where the text of an entered term begins, by its text place.
pub(crate) fn start_of<P: Port, L: Ledger>(
    port: &mut P,
    places: Places,
    segment: u32,
    number: u32,
    steps: &mut Steps<L>,
) -> u32
    requires { (m : Moment) × P.stands port.old m × (places ≡ m.setting) × (segment < m.setting.segments) × IsNumber m segment number }
    ensures told { Told P.stands P.keeps port.old port.new (λ m. (places ≡ m.setting) × (segment < m.setting.segments) × IsNumber m segment number)
        (λ n. IsText n segment number result) }
    ensures step { steps.new ≡ steps.old + 1 }
{
    port.load(places.text_place(segment, number), steps) as u32
}

// A text word of an entered term whose text begins here.
pub(crate) fn word_of_text<P: Port, L: Ledger>(
    port: &mut P,
    places: Places,
    segment: u32,
    start: u32,
    at: usize,
    steps: &mut Steps<L>,
) -> u64
    requires { (m : Moment) × (number : ℕ) × P.stands port.old m × (places ≡ m.setting) × IsText m segment number start
        × (at < text_words (term_at m segment number)) }
    ensures told { (number : ℕ) → Told P.stands P.keeps port.old port.new
        (λ m. (places ≡ m.setting) × IsText m segment number start × (at < text_words (term_at m segment number)))
        (λ n. result ≡ get_or (text_of (term_at n segment number)) at 0) }
    ensures step { steps.new ≡ steps.old + 1 }
{
    port.load(places.text(segment, start + at as u32), steps)
}
