//! In which segments a query may match.
ghost use Rattle.std.specs.Prelude.{◌≡◌, ℕ, ◌<◌, ◌≤◌, true, get_or};
ghost use Rattle.std.specs.List.{list_all};
ghost use Rattle.eb_base.specs.Query.{tree, parts_of, trees_of};
ghost use Rattle.eb_bloom.specs.Bits.{is_noted};
ghost use Rattle.eb_bloom.specs.Likely.{may_match, each_may_match, some_may_match};

use crate::filters::Filters;
use eb_base::{Queries, Query, Term};
use eb_marks::Segments;

// Those of the first `begun` segments in which the query may match, and all further ones.
#[cycle(marks)]
pub(crate) fn marks_of(filters: &Filters, query: &Query, begun: u32) -> Segments
    requires begun { begun ≤ filters.now.setting.segments }
    requires few { begun ≤ 64 }
    ensures noted { (s : ℕ) → s < begun → get_or result s true ≡ may_match filters.now s (tree query.now) }
    ensures further { (s : ℕ) → begun ≤ s → get_or result s true ≡ true }
{
    match query {
        Query::Word(term) => filters.marks(term, begun),
        Query::Phrase(terms) => marks_of_all(filters, terms.as_slice(), begun),
        Query::Window(terms, _) => marks_of_all(filters, terms.as_slice(), begun),
        Query::Since(_) => Segments::all(),
        Query::Not(_) => Segments::all(),
        Query::And(parts) => marks_of_each(filters, parts, begun),
        Query::Or(parts) => marks_of_some(filters, parts, begun),
    }
}

// Of those in which each part may match.
#[cycle(marks)]
fn marks_of_each(filters: &Filters, parts: &Queries, begun: u32) -> Segments
    requires begun { begun ≤ filters.now.setting.segments }
    requires few { begun ≤ 64 }
    ensures noted { (s : ℕ) → s < begun → get_or result s true ≡ each_may_match filters.now s (trees_of (parts_of parts.now)) }
    ensures further { (s : ℕ) → begun ≤ s → get_or result s true ≡ true }
{
    let mut marks = Segments::all();
    for part in parts.as_slice() {
        marks = marks.and(marks_of(filters, part, begun));
    }
    marks
}

// Of those in which some part may match.
#[cycle(marks)]
fn marks_of_some(filters: &Filters, parts: &Queries, begun: u32) -> Segments
    requires begun { begun ≤ filters.now.setting.segments }
    requires few { begun ≤ 64 }
    ensures noted { (s : ℕ) → s < begun → get_or result s true ≡ some_may_match filters.now s (trees_of (parts_of parts.now)) }
    ensures further { (s : ℕ) → begun ≤ s → get_or result s true ≡ true }
{
    let mut marks = Segments::marked(0, begun);
    for part in parts.as_slice() {
        marks = marks.or(marks_of(filters, part, begun));
    }
    marks
}

// Of those in whose filter each of the terms is noted.
fn marks_of_all(filters: &Filters, terms: &[Term], begun: u32) -> Segments
    requires begun { begun ≤ filters.now.setting.segments }
    requires few { begun ≤ 64 }
    ensures noted { (s : ℕ) → s < begun → get_or result s true ≡ list_all (is_noted filters.now s) terms.now }
    ensures further { (s : ℕ) → begun ≤ s → get_or result s true ≡ true }
{
    let mut marks = Segments::all();
    for term in terms {
        marks = marks.and(filters.marks(term, begun));
    }
    marks
}
