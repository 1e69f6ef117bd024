//! Which part of a query is likely the rarest.
ghost use Rattle.std.specs.Prelude.{◌≡◌, ◌≤◌, length};
ghost use Rattle.eb_base.specs.Query.{tree, size, sizes};
ghost use Rattle.eb_cursor.specs.Asked.{trees_in};

use crate::cursor::Cursor;
use crate::size::size;
use eb_base::Query;

/// How common a part likely is, by what its cursors know without a load.
#[derive(Clone, Copy, Debug, PartialEq, Eq)]
pub struct Commonness {
    /// The pool that its live postings are in, each of which has some nine times the postings of
    /// the one before it, or the number of its packed postings; the greatest number where that
    /// isn't known.
    pub frequency: u64,
    /// One more than its newest posting, 0 where there is none, the greatest number but one where
    /// that isn't known, and the greatest for a bound on the id: of two terms of one frequency the
    /// rarer one likely begins lower.
    pub newest: u64,
}

/// Of a part of which nothing is known.
pub const UNKNOWN: Commonness = Commonness {
    frequency: u64::MAX,
    newest: u64::MAX - 1,
};

/// Of a bound on the id. Nothing is more common, since each of its documents costs a load.
pub const BOUND: Commonness = Commonness {
    frequency: u64::MAX,
    newest: u64::MAX,
};

// Of what matches nothing.
const NOTHING: Commonness = Commonness {
    frequency: 0,
    newest: 0,
};

/// A part of a query or a term of a phrase.
#[derive(Clone, Copy, Debug, PartialEq, Eq)]
pub struct Part {
    /// Its number, counted from 0.
    pub number: u32,
    /// How common it likely is.
    pub commonness: Commonness,
}

// Whether the first is likely rarer.
fn is_rarer(one: Commonness, other: Commonness) -> bool {
    one.frequency < other.frequency
        || (one.frequency == other.frequency && one.newest < other.newest)
}

// How common the term of a leaf likely is.
fn commonness_of_leaf(cursor: &Cursor) -> Commonness {
    let newest = match cursor.current {
        None => return NOTHING,
        Some(posting) => posting.saturating_add(1),
    };
    Commonness {
        frequency: cursor.list.frequency(),
        newest,
    }
}

/// The first part, or the one among those after it where that is likely rarer.
pub fn rarer(own: Commonness, behind: Part) -> Part {
    if is_rarer(behind.commonness, own) {
        return Part {
            number: behind.number.saturating_add(1),
            commonness: behind.commonness,
        };
    }
    Part {
        number: 0,
        commonness: own,
    }
}

// No part.
const NO_PART: Part = Part {
    number: 0,
    commonness: UNKNOWN,
};

/// The term of a phrase or window that is likely the rarest. Loads nothing.
pub fn rarest_leaf(cursors: &[Cursor]) -> Part {
    let Some((own, rest)) = cursors.split_first() else {
        return NO_PART;
    };
    rarer(commonness_of_leaf(own), rarest_leaf(rest))
}

/// The part that is likely the rarest, none of them where all are bounds on the id. Loads nothing.
#[cycle(common)]
pub fn rarest(parts: &[Query], cursors: &[Cursor]) -> Part
    requires fits { length cursors.now ≡ sizes (trees_in parts.now) }
    requires small { length cursors.now ≤ 64 }
{
    let Some((part, others)) = parts.split_first() else {
        return NO_PART;
    };
    let (own, rest) = cursors.split_at(size(part));
    rarer(commonness_of_part(part, own), rarest(others, rest))
}

/// The number of the part of an and that is likely the rarest, 0 where all are bounds on the id.
/// Loads nothing.
pub fn rarest_number(parts: &[Query], cursors: &[Cursor]) -> u32
    requires fits { length cursors.now ≡ sizes (trees_in parts.now) }
    requires small { length cursors.now ≤ 64 }
{
    match parts {
        [Query::Word(_), Query::Word(_)] => rarer_of_two(cursors),
        _ => rarest(parts, cursors).number,
    }
}

// The number of the rarer of two words.
#[inline(always)]
fn rarer_of_two(cursors: &[Cursor]) -> u32 {
    let [one, other] = cursors else {
        return 0;
    };
    u32::from(is_rarer(commonness_of_leaf(other), commonness_of_leaf(one)))
}

// How common the most common of the parts likely is.
#[cycle(common)]
fn commonness_of_some(parts: &[Query], cursors: &[Cursor]) -> Commonness
    requires fits { length cursors.now ≡ sizes (trees_in parts.now) }
    requires small { length cursors.now ≤ 64 }
{
    let Some((part, others)) = parts.split_first() else {
        return NOTHING;
    };
    let (own, rest) = cursors.split_at(size(part));
    let first = commonness_of_part(part, own);
    let other = commonness_of_some(others, rest);
    if is_rarer(first, other) { other } else { first }
}

// How common a query likely is.
#[cycle(common)]
fn commonness_of_part(query: &Query, cursors: &[Cursor]) -> Commonness
    requires fits { length cursors.now ≡ size (tree query.now) }
    requires small { length cursors.now ≤ 64 }
{
    let Some((own, rest)) = cursors.split_first() else {
        return UNKNOWN;
    };
    match query {
        Query::Word(_) => commonness_of_leaf(own),
        Query::Phrase(_) | Query::Window(_, _) => rarest_leaf(cursors).commonness,
        Query::Since(_) => BOUND,
        Query::Not(_) => UNKNOWN,
        Query::And(parts) => rarest(parts.as_slice(), rest).commonness,
        Query::Or(parts) => commonness_of_some(parts.as_slice(), rest),
    }
}
