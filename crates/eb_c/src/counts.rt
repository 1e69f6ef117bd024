//! The calls that count.
ghost use Rattle.std.specs.Prelude.{◌≡◌, ◌≢◌, List, Some, length};
ghost use mathlib.Core.List.{IsPrefix};
ghost use Rattle.eb_base.specs.Document.{Doc};
ghost use Rattle.eb_engine.specs.Tokens.{HistoryToken};
ghost use Rattle.feed_shared.specs.Turns.{FeedToken};
ghost use Rattle.eb_c.specs.Asking.{TextAsks};
ghost use Rattle.eb_c.specs.Counting.{nothing_counted, wanted, IsPrepared, Counts, CountsOver, FollowerCounts, FollowerCountsOver};
ghost use Rattle.eb_c.specs.Holding.{IsBegunIndex, Holds, IsIndex};
ghost use Rattle.eb_c.specs.Sharing.{kind_of, LeadsToReader};
ghost use Rattle.eb_c.specs.Streaming.{LeadsToFollower, Follows};

use crate::counting::{Axis, Count, Counting, count_read, nothing, prepare, put_counts};
use crate::handle::{BAD_HANDLE, Handle};
use crate::held::Held;
use crate::index::Index;
use crate::reading::question_in_text;
use std::alloc::Global;

/// Counts the matches of a query text, which is UTF-8, among all accepted documents: 0, and `count`
/// reports how many there are. Each bucket's number is how many of them have an id that is at least
/// the start and as many widths as there are buckets before it, and less than one width more. Else
/// the result is the number of the refusal, no number is written, and `count` reports the column of
/// a bad query, counted in the text; 7 where there are buckets of width 0. Without buckets start
/// and width aren't read. Numbers stay at 2^64 - 1. Takes memory for the query and the numbers,
/// which is given back.
#[unsafe(no_mangle)]
pub extern "C" fn eb_count_text(
    alloc: Global,
    words: &[u64],
    index: &Index,
    text: &[u8],
    start: u64,
    width: u64,
    buckets: &mut [u64],
    count: &mut Count,
) -> u32
    requires { IsBegunIndex index.now (length words.now) → IsIndex index.now words.now }
    ensures not_begun { (IsBegunIndex index.now (length words.now) → ⊥) → (result ≡ 15) × (count.new ≡ nothing_counted 0) × (buckets.new ≡ buckets.old) }
    ensures told { (docs : List Doc) → Holds index.now words.now docs
        → Counts (TextAsks 1 text.now) docs (record { start = start; width = width }) result count.new buckets.old buckets.new }
{
    let axis = Axis { start, width };
    let asked = prepare(alloc, question_in_text(alloc, 1, text), axis, buckets.len());
    count_read(words, index, asked, axis, buckets, count)
}

/// Counts as `eb_count_text` does, over all documents that are accepted when the call counts them.
/// All that this reader knew are a prefix of them, and it knows them from then on. 16 where the
/// handle isn't that of a reader.
#[unsafe(no_mangle)]
pub extern "C" fn eb_reader_count_text(
    alloc: Global,
    reader: &mut Handle,
    text: &[u8],
    start: u64,
    width: u64,
    buckets: &mut [u64],
    count: &mut Count,
) -> u32
    ensures told { (r : HistoryToken) → LeadsToReader reader.old.seal.held r
        → (s : HistoryToken) × LeadsToReader reader.new.seal.held s × (s.index ≡ r.index) × IsPrefix r.docs s.docs
        × Counts (TextAsks 1 text.now) s.docs (record { start = start; width = width }) result count.new buckets.old buckets.new }
    ensures bad { kind_of reader.old.seal.held ≢ 2
        → (result ≡ 16) × (count.new ≡ nothing_counted 0) × (buckets.new ≡ buckets.old) × (reader.new.seal.held ≡ reader.old.seal.held) }
{
    let axis = Axis { start, width };
    let asked = prepare(alloc, question_in_text(alloc, 1, text), axis, buckets.len());
    count_by_reader(alloc, reader, asked, axis, buckets, count)
}

// Counts what is to be counted: 0, or the number of the refusal; 16 where the handle isn't that of
// a reader.
pub(crate) fn count_by_reader(
    alloc: Global,
    reader: &mut Handle,
    asked: Counting,
    axis: Axis,
    buckets: &mut [u64],
    count: &mut Count,
) -> u32
    requires { IsPrepared axis (length buckets.old) asked }
    ensures told { (r : HistoryToken) → LeadsToReader reader.old.seal.held r
        → (s : HistoryToken) × LeadsToReader reader.new.seal.held s × (s.index ≡ r.index) × IsPrefix r.docs s.docs
        × CountsOver (length s.docs) s.docs axis (wanted asked) result count.new buckets.old buckets.new }
    ensures bad { kind_of reader.old.seal.held ≢ 2
        → (result ≡ 16) × (count.new ≡ nothing_counted 0) × (buckets.new ≡ buckets.old) × (reader.new.seal.held ≡ reader.old.seal.held) }
{
    let Some(held) = reader.take(alloc) else {
        *count = nothing(0);
        return BAD_HANDLE;
    };
    let mut held = held;
    let number = count_read_by(&mut held, asked, axis, buckets, count);
    *reader = Handle::of(held);
    number
}

// Counts what is to be counted, by what the handle leads to.
fn count_read_by(
    held: &mut Held,
    asked: Counting,
    axis: Axis,
    buckets: &mut [u64],
    count: &mut Count,
) -> u32
    requires { IsPrepared axis (length buckets.old) asked }
    ensures told { (r : HistoryToken) → held.old ≡ Held.Reader r
        → (s : HistoryToken) × (held.new ≡ Held.Reader s) × (s.index ≡ r.index) × IsPrefix r.docs s.docs
        × CountsOver (length s.docs) s.docs axis (wanted asked) result count.new buckets.old buckets.new }
    ensures bad { kind_of (Some held.old) ≢ 2 → (result ≡ 16) × (count.new ≡ nothing_counted 0) × (buckets.new ≡ buckets.old) × (held.new ≡ held.old) }
{
    // The contract alone reads it.
    let _ = axis;
    let Held::Reader(reader) = held else {
        *count = nothing(0);
        return BAD_HANDLE;
    };
    match asked {
        Counting::Counts(frame, tally) => {
            let (mut frame, mut tally) = (frame, tally);
            let seen = reader.count(&mut frame, &mut tally);
            put_counts(&tally, seen, buckets, count);
            0
        }
        Counting::Refused(refusal, column) => {
            *count = nothing(column);
            refusal.number()
        }
    }
}

/// Takes in this follower's news, and counts as `eb_count_text` does, over the generations that it
/// then holds: those that its feed keeps, as far as it knows them, and of the newest of them the
/// documents that are accepted when the call counts them. `count` reports how many documents are in
/// the history that the follower knows then. Where the result isn't 0, the follower is as before;
/// 16 where the handle isn't that of a follower.
#[unsafe(no_mangle)]
pub extern "C" fn eb_follower_count_text(
    alloc: Global,
    follower: &mut Handle,
    text: &[u8],
    start: u64,
    width: u64,
    buckets: &mut [u64],
    count: &mut Count,
) -> u32
    ensures told { (f : FeedToken) → LeadsToFollower follower.old.seal.held f
        → (g : FeedToken) × LeadsToFollower follower.new.seal.held g
        × FollowerCounts (TextAsks 1 text.now) f g (record { start = start; width = width }) result count.new buckets.old buckets.new }
    ensures bad { kind_of follower.old.seal.held ≢ 5
        → (result ≡ 16) × (count.new ≡ nothing_counted 0) × (buckets.new ≡ buckets.old) × (follower.new.seal.held ≡ follower.old.seal.held) }
{
    let axis = Axis { start, width };
    let asked = prepare(alloc, question_in_text(alloc, 1, text), axis, buckets.len());
    count_by_follower(alloc, follower, asked, axis, buckets, count)
}

// Counts what is to be counted: 0, or the number of the refusal; 16 where the handle isn't that of
// a follower.
pub(crate) fn count_by_follower(
    alloc: Global,
    follower: &mut Handle,
    asked: Counting,
    axis: Axis,
    buckets: &mut [u64],
    count: &mut Count,
) -> u32
    requires { IsPrepared axis (length buckets.old) asked }
    ensures told { (f : FeedToken) → LeadsToFollower follower.old.seal.held f
        → (g : FeedToken) × LeadsToFollower follower.new.seal.held g × Follows (wanted asked) f g
        × FollowerCountsOver g axis (wanted asked) result count.new buckets.old buckets.new }
    ensures bad { kind_of follower.old.seal.held ≢ 5
        → (result ≡ 16) × (count.new ≡ nothing_counted 0) × (buckets.new ≡ buckets.old) × (follower.new.seal.held ≡ follower.old.seal.held) }
{
    let Some(held) = follower.take(alloc) else {
        *count = nothing(0);
        return BAD_HANDLE;
    };
    let mut held = held;
    let number = count_heard_by(&mut held, asked, axis, buckets, count);
    *follower = Handle::of(held);
    number
}

// Counts what is to be counted, by what the handle leads to.
fn count_heard_by(
    held: &mut Held,
    asked: Counting,
    axis: Axis,
    buckets: &mut [u64],
    count: &mut Count,
) -> u32
    requires { IsPrepared axis (length buckets.old) asked }
    ensures told { (f : FeedToken) → held.old ≡ Held.Follower f
        → (g : FeedToken) × (held.new ≡ Held.Follower g) × Follows (wanted asked) f g
        × FollowerCountsOver g axis (wanted asked) result count.new buckets.old buckets.new }
    ensures bad { kind_of (Some held.old) ≢ 5 → (result ≡ 16) × (count.new ≡ nothing_counted 0) × (buckets.new ≡ buckets.old) × (held.new ≡ held.old) }
{
    // The contract alone reads it.
    let _ = axis;
    let Held::Follower(follower) = held else {
        *count = nothing(0);
        return BAD_HANDLE;
    };
    match asked {
        Counting::Counts(frame, tally) => {
            let (mut frame, mut tally) = (frame, tally);
            let seen = follower.count(&mut frame, &mut tally);
            put_counts(&tally, seen, buckets, count);
            0
        }
        Counting::Refused(refusal, column) => {
            *count = nothing(column);
            refusal.number()
        }
    }
}
