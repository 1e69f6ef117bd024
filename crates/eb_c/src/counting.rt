//! Counting: how many documents match, and how many of them have an id in each bucket.
ghost use Rattle.std.specs.Prelude.{◌≡◌, ◌⊎◌, ◌<◌, ◌≤◌, List, IfOk, length};
ghost use Rattle.eb_base.specs.Document.{Doc};
ghost use Rattle.eb_count.specs.Tallies.{HasCounted};
ghost use Rattle.eb_cursor.specs.Frames.{query_of};
ghost use Rattle.eb_flat.specs.Flat.{StandsFor};
ghost use Rattle.eb_place.specs.declared.moment.Moment.{Moment};
ghost use Rattle.eb_c.specs.Asking.{asks, asked_of, refused};
ghost use Rattle.eb_c.specs.Counting.{in_buckets, nothing_counted, wanted, IsFresh, IsPrepared, CountsOver};
ghost use Rattle.eb_c.specs.Holding.{IsBegunIndex, Holds, IsIndex};

use crate::index::{Index, begun_setting};
use crate::reading::Question;
use crate::refusal::Refusal;
use eb_base::{Config, NoMemory, OpenGate};
use eb_count::Tally;
use eb_cursor::Frame;
use eb_flat::LentWords;
use eb_place::Steps;
use eb_search::count_on;
use std::alloc::Global;
use std::marker::Brand;
use std::sync::ledger::{Blank, Ledger};

/// What a call that counts reports besides the numbers of the buckets.
#[repr(C)]
#[derive(Clone, Copy, Debug, PartialEq, Eq)]
pub struct Count {
    /// How many documents were accepted; the count is over all of them. 0 where the call is
    /// refused.
    pub seen: u64,
    /// How many of them match. 0 where the call is refused.
    pub total: u64,
    /// The column of a bad query's fault, counted from 1; else 0.
    pub column: u64,
}

// Where the buckets start, and how wide each is, in ids.
#[derive(Clone, Copy, Debug)]
pub(crate) struct Axis {
    pub(crate) start: u64,
    pub(crate) width: u64,
}

// What is to be counted.
#[derive(Drop)]
pub(crate) enum Counting {
    // The matches of the frame's query, in the tally.
    Counts(Frame, Tally),
    // It is refused; a bad query has the column of its fault, others 0.
    Refused(Refusal, u64),
}

// The answer to a count that is refused.
pub(crate) fn nothing(column: u64) -> Count
    ensures { result ≡ nothing_counted column }
{
    Count {
        seen: 0,
        total: 0,
        column,
    }
}

// A tally of this number of buckets, before the first match.
fn fresh(alloc: Global, axis: Axis, number: usize) -> Result<Tally, NoMemory>
    requires { (0 < number) → 1 ≤ axis.width }
    ensures { IfOk result (λ t. IsFresh axis number t) }
{
    Tally::with_buckets(alloc, axis.start, axis.width.max(1), number)
}

// What is to be counted for a question: its matches, in this number of buckets.
pub(crate) fn prepare(alloc: Global, read: Question, axis: Axis, number: usize) -> Counting
    ensures wanted { (wanted result ≡ refused Refusal.NoMemory 0) ⊎ (wanted result ≡ in_buckets axis.width number (asked_of read)) }
    ensures prepared { IsPrepared axis number result }
{
    match read {
        Question::Asks(frame) => {
            if axis.width == 0 && number > 0 {
                return Counting::Refused(Refusal::BadNumber, 0);
            }
            match fresh(alloc, axis, number) {
                Ok(tally) => Counting::Counts(frame, tally),
                Err(NoMemory) => Counting::Refused(Refusal::NoMemory, 0),
            }
        }
        Question::Refused(refusal, column) => Counting::Refused(refusal, column),
    }
}

// Counts over all accepted documents, and returns their number.
fn count_words<L: Ledger>(
    words: &[u64],
    config: Config,
    frame: &mut Frame,
    tally: &mut Tally,
    blank: Blank,
) -> u64
    requires blank { (blank.name ≡ L.name) × (blank.parts ≡ L.parts) × (0 < blank.parts) }
    requires words { (m : Moment) × StandsFor (record { setting = config; words = words.now }) m }
    ensures count { (m : Moment) → StandsFor (record { setting = config; words = words.now }) m → result ≡ length m.documents.accepted }
    ensures counts { (m : Moment) → StandsFor (record { setting = config; words = words.now }) m
        → HasCounted (query_of frame.old) m.documents.accepted tally.old tally.new }
{
    let mut steps = Steps::<L>::new(blank);
    let mut port = LentWords { config, words };
    count_on(&mut port, frame, tally, &OpenGate, &mut steps)
}

// Writes what was counted over these documents, and reports it.
pub(crate) fn put_counts(tally: &Tally, seen: u64, buckets: &mut [u64], count: &mut Count)
    requires { length tally.now.buckets ≡ length buckets.old }
    ensures count { count.new ≡ record { seen = seen; total = tally.now.total; column = 0 } }
    ensures buckets { buckets.new ≡ tally.now.buckets }
{
    buckets.copy_from_slice(tally.buckets());
    *count = Count {
        seen,
        total: tally.total(),
        column: 0,
    };
}

// Counts what was read of a question, over an index that was begun: 0, or the number of the
// refusal.
pub(crate) fn count_read(
    words: &[u64],
    index: &Index,
    asked: Counting,
    axis: Axis,
    buckets: &mut [u64],
    count: &mut Count,
) -> u32
    requires begun { IsBegunIndex index.now (length words.now) → IsIndex index.now words.now }
    requires prepared { IsPrepared axis (length buckets.old) asked }
    ensures not_begun { (IsBegunIndex index.now (length words.now) → ⊥) → (result ≡ 15) × (count.new ≡ nothing_counted 0) × (buckets.new ≡ buckets.old) }
    ensures told { (docs : List Doc) → Holds index.now words.now docs
        → CountsOver (length docs) docs axis (wanted asked) result count.new buckets.old buckets.new }
{
    // The contract alone reads it.
    let _ = axis;
    let Some(config) = begun_setting(index, words.len()) else {
        *count = nothing(0);
        return Refusal::NotBegun.number();
    };
    match asked {
        Counting::Counts(frame, tally) => {
            let (mut frame, mut tally) = (frame, tally);
            let seen = count_words::<Brand>(words, config, &mut frame, &mut tally, Blank::new(1));
            put_counts(&tally, seen, buckets, count);
            0
        }
        Counting::Refused(refusal, column) => {
            *count = nothing(column);
            refusal.number()
        }
    }
}
