//! What a query line or a query text asks, before an index does.
ghost use Rattle.std.specs.Prelude.{◌≤◌};
ghost use Rattle.eb_base.specs.Query.{tree, size, IsFormed};
ghost use Rattle.eb_cursor.specs.Formed.{formed_prop};

use crate::refusal::Refusal;
use eb_base::Query;

// At most k matches of a well-formed query are wanted.
#[derive(Drop)]
pub(crate) struct Wanted {
    pub(crate) k: u32,
    pub(crate) query: Query,
    ghost some: { 1 ≤ k },
    ghost few: { k ≤ 1000 },
    ghost formed: { IsFormed (tree query) } by { formed_prop (tree query) },
    ghost within: { size (tree query) ≤ 64 },
}

// What a line or a text asks.
#[derive(Drop)]
pub(crate) enum Parsed {
    // It asks for matches of a query.
    Asks(Wanted),
    // It is refused; a bad query has the column of its fault, others 0.
    Refused(Refusal, u64),
}
