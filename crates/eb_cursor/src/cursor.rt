//! What a part of a query remembers.
//!
//! A cursor is one record, and no enum by roles: the first cursor of a phrase or a window is both a
//! leaf and the operator's, so each access would have to prove its role. The query stays as it is.
//! Beside it is one flat list of cursors, one for each unit of its size, in preorder. A part's size
//! is counted from the query where the cursors are split: kept in a cursor, it would be one more
//! fact in the contract of each call.
ghost use Rattle.std.specs.Prelude.{◌≡◌, ◌+◌, ◌*◌, ◌<◌, ◌≤◌, ◌^◌};
ghost use Rattle.eb_cursor.specs.declared.posting_list.PostingList.TheVariants.{Empty};
ghost use Rattle.eb_cursor.specs.Loads.{ahead};
ghost use Rattle.eb_cursor.specs.Asked.{CanAskLeaf};
ghost use Rattle.eb_cursor.specs.Finds.{FindsLeaf};
ghost use Rattle.eb_cursor.specs.Costs.{Costs, Spans, look_loads, Pays, PaysBesides};

use crate::posting_list::PostingList;
use eb_place::{Port, Posting, Steps};
use std::sync::ledger::Ledger;

/// What a part of a query remembers between two calls: each word, each term of a phrase or window,
/// each bound on the id and each operator has one.
#[derive(Drop)]
pub struct Cursor {
    /// Of an operator, a phrase, a window or a bound: all from this end on was skipped. A place for
    /// a phrase or a window, else a document.
    pub upto: u64,
    /// Of an and or a phrase: the number of the part or term that is asked first, counted from 0.
    pub lead: u32,
    /// Of a word, a term of a phrase or window and a bound: the segment whose words it loads.
    pub segment: u32,
    /// Of a word or a term of a phrase or window: the posting that was given last. Of a bound: the
    /// newest document whose id wasn't loaded yet.
    pub current: Option<Posting>,
    /// The postings below it.
    pub list: PostingList,
}

impl Cursor {
    /// A cursor that has skipped everything.
    pub fn new() -> Cursor
        ensures { (result.upto ≡ 0) × (result.current ≡ None) × (result.list ≡ Empty) }
    {
        Cursor {
            upto: 0,
            lead: 0,
            segment: 0,
            current: None,
            list: PostingList::Empty,
        }
    }
}

/// One more than the greatest number of the list below `end`, or 0, posting by posting.
#[inline(always)]
pub fn walk_below<P: Port, L: Ledger>(
    cursor: &mut Cursor,
    port: &mut P,
    steps: &mut Steps<L>,
    end: u64,
) -> u64
    requires { CanAskLeaf P.stands port.old cursor.old end }
    ensures upto { cursor.new.upto ≡ cursor.old.upto }
    ensures found { FindsLeaf P.stands P.keeps port.old port.new cursor.old cursor.new end result }
    ensures loads { steps.new + 4 * ahead cursor.new.current ≤ steps.old + 4 * ahead cursor.old.current }
    ensures costs { Pays P.stands P.keeps port.old port.new Costs cursor.old.list cursor.new.list steps.old steps.new }
{
    while let Some(posting) = cursor.current {
        if posting < end {
            return posting + 1;
        }
        cursor.current = cursor.list.next(port, steps);
    }
    0
}

/// One more than the greatest number of the list below `end`, or 0, by a leap.
#[inline(always)]
pub fn leaf_below<P: Port, L: Ledger>(
    cursor: &mut Cursor,
    port: &mut P,
    steps: &mut Steps<L>,
    end: u64,
) -> u64
    requires { CanAskLeaf P.stands port.old cursor.old end }
    ensures upto { cursor.new.upto ≡ cursor.old.upto }
    ensures found { FindsLeaf P.stands P.keeps port.old port.new cursor.old cursor.new end result }
    ensures loads { steps.new + 4 * ahead cursor.new.current ≤ steps.old + 4 * ahead cursor.old.current }
    ensures spans { PaysBesides P.stands P.keeps port.old port.new Spans cursor.old.list cursor.new.list look_loads steps.old steps.new }
{
    let Some(posting) = cursor.current else {
        return 0;
    };
    if posting < end {
        return posting + 1;
    }
    if end == 0 {
        return 0;
    }
    let Some(next) = cursor.list.next_at_most(port, end - 1, steps) else {
        cursor.current = None;
        return 0;
    };
    cursor.current = Some(next);
    next + 1
}

/// One more than a posting, 0 where there is none.
#[inline(always)]
pub fn place_after(posting: Option<Posting>) -> u64
    requires { ahead posting < 2 ^ 64 }
    ensures { result ≡ ahead posting }
{
    match posting {
        None => 0,
        Some(posting) => posting + 1,
    }
}

/// The posting before an end, none before 0.
pub fn last_before(end: u64) -> Option<Posting>
    ensures { ahead result ≡ end }
{
    if end == 0 {
        return None;
    }
    Some(end - 1)
}
