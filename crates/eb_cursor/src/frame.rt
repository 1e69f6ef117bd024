//! A query with all the memory that its searches need.
ghost use Rattle.std.specs.Prelude.{◌≡◌, ◌≤◌, length, vec_capacity};
ghost use Rattle.eb_base.specs.Query.{tree, size, IsFormed};
ghost use Rattle.eb_cursor.specs.Formed.{formed_prop};

use crate::cursor::Cursor;
use eb_base::Query;

mod calls;

/// A query, the most ids of an answer (`k`), and the ids found so far, with all memory that
/// searches need. It serves any number of searches, one segment after the other; only `new` and
/// `renew` take memory.
#[derive(Drop)]
pub struct Frame {
    query: Query,
    k: u32,
    documents: u32,
    cursors: Vec<Cursor>,
    ids: Vec<u64>,
    ghost whole: { length cursors.items ≡ size (tree query) },
    ghost within: { size (tree query) ≤ 64 },
    ghost formed: { IsFormed (tree query) } by { formed_prop (tree query) },
    ghost few: { length ids.items ≤ k },
    ghost room: { k ≤ vec_capacity ids },
}
