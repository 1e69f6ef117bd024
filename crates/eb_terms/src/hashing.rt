//! The home cell of a term.
//!
//! A term is hashed once, where it is made. Its hash gives its home cell in each segment, its bucket
//! among the document's earlier tokens, and its bits in a filter.
ghost use Rattle.std.specs.Prelude.{◌≡◌, ◌+◌, ◌*◌, ◌<◌, ◌≤◌, ◌^◌, ◌%◌};
ghost use Rattle.eb_place.specs.Placing.{hash, home_cell};

use eb_base::Term;

/// The home cell of a term among this many cells: the cell where the lookup of the term begins. It
/// is the remainder of the term's hash, of 32 bits, by the number of cells (this project's profile,
/// docs/FORMATS.md). Where the cells are a power of two, it is the lowest bits of the hash, and
/// nothing is divided. Takes no memory.
pub fn home(term: &Term, cells: u32) -> u32
    requires { 1 ≤ cells }
    ensures { result ≡ home_cell cells term.now }
{
    home_of(hash_of(term), cells)
}

/// The home cell of a term by its hash. Takes no memory.
pub fn home_of(hashed: u32, cells: u32) -> u32
    requires { 1 ≤ cells }
    ensures { result ≡ hashed % cells }
{
    rest(hashed, cells)
}

// The remainder of a number by another one that isn't 0.
fn rest(number: u32, by: u32) -> u32
    requires { 1 ≤ by }
    ensures { result ≡ number % by }
{
    let bits = by.trailing_zeros();
    if bits < 32 && by == 1 << bits {
        number & ((1 << bits) - 1)
    } else {
        number % by
    }
}

/// The hash of a term, from which its home cell comes: 0, and for each byte 31 times the hash plus
/// the byte, modulo 2^32 (this project's profile, docs/FORMATS.md). The term has it. Takes no
/// memory.
#[inline(always)]
pub fn hash_of(term: &Term) -> u32
    ensures { result ≡ hash term.now }
{
    term.hash()
}

// The cell `step` cells after a first one, wrapping at the number of cells. Nothing is divided.
pub(crate) fn cell_behind(first: u32, step: u32, cells: u32) -> u32
    requires first { first < cells }
    requires step { step < cells }
    requires small { cells ≤ 2 ^ 31 }
    ensures { result ≡ (first + step) % cells }
{
    let cell = first + step;
    if cell < cells { cell } else { cell - cells }
}
