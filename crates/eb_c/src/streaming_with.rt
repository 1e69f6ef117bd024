//! The calls on the handles of a feed where a caller says how lines and texts are read.
ghost use Rattle.std.specs.Prelude.{◌≡◌, ◌≢◌, ◌⊎◌, Err, Result};
ghost use Rattle.eb_base.specs.Document.{Doc};
ghost use Rattle.feed_shared.specs.Turns.{FeedToken, WriterToken};
ghost use Rattle.eb_c.specs.Adding.{document_in_as, document_as};
ghost use Rattle.eb_c.specs.Asking.{nothing_told, LineAsksAs, TextAsksAs};
ghost use Rattle.eb_c.specs.Counting.{nothing_counted, FollowerCounts};
ghost use Rattle.eb_c.specs.Sharing.{kind_of};
ghost use Rattle.eb_c.specs.Streaming.{LeadsToLeader, LeadsToFollower, LeaderAdds, FollowerAnswers};

use crate::counting::{Axis, Count, prepare};
use crate::counts::count_by_follower;
use crate::dialects::Reading;
use crate::handle::Handle;
use crate::index::Answer;
use crate::reading::{document_as, document_in_line_as, question_in_line_as, question_in_text_as};
use crate::refusal::Refusal;
use crate::streaming::{add_by, ask_by};
use std::alloc::Global;

/// Adds the document of an id and a text as `eb_leader_add_text` does, where texts are cut so:
/// `BadReading` (17) where that isn't in the grammar of the options.
#[unsafe(no_mangle)]
pub extern "C" fn eb_leader_add_text_with(
    alloc: Global,
    leader: &mut Handle,
    how: &Reading<'_>,
    id: u64,
    text: &[u8],
) -> u32
    ensures added { (w : WriterToken) → LeadsToLeader leader.old.seal.held w
        → (r : Result Doc Refusal) × ((r ≡ Err Refusal.NoMemory) ⊎ (r ≡ document_as how.now id text.now))
        × (v : WriterToken) × LeadsToLeader leader.new.seal.held v × LeaderAdds r w result v }
    ensures bad { kind_of leader.old.seal.held ≢ 4 → (result ≡ 16) × (leader.new.seal.held ≡ leader.old.seal.held) }
{
    add_by(alloc, leader, document_as(alloc, how, id, text))
}

/// Adds the document of a document line as `eb_leader_add_line` does, where lines are read so.
#[unsafe(no_mangle)]
pub extern "C" fn eb_leader_add_line_with(
    alloc: Global,
    leader: &mut Handle,
    how: &Reading<'_>,
    line: &[u8],
) -> u32
    ensures added { (w : WriterToken) → LeadsToLeader leader.old.seal.held w
        → (r : Result Doc Refusal) × ((r ≡ Err Refusal.NoMemory) ⊎ (r ≡ document_in_as how.now line.now))
        × (v : WriterToken) × LeadsToLeader leader.new.seal.held v × LeaderAdds r w result v }
    ensures bad { kind_of leader.old.seal.held ≢ 4 → (result ≡ 16) × (leader.new.seal.held ≡ leader.old.seal.held) }
{
    add_by(alloc, leader, document_in_line_as(alloc, how, line))
}

/// Answers a query text as `eb_follower_ask_text` does, where texts are read so.
#[unsafe(no_mangle)]
pub extern "C" fn eb_follower_ask_text_with(
    alloc: Global,
    follower: &mut Handle,
    how: &Reading<'_>,
    k: u32,
    text: &[u8],
    ids: &mut [u64],
    answer: &mut Answer,
) -> u32
    ensures told { (f : FeedToken) → LeadsToFollower follower.old.seal.held f
        → (g : FeedToken) × LeadsToFollower follower.new.seal.held g × FollowerAnswers (TextAsksAs how.now k text.now) f g result answer.new ids.old ids.new }
    ensures bad { kind_of follower.old.seal.held ≢ 5
        → (result ≡ 16) × (answer.new ≡ nothing_told 0) × (ids.new ≡ ids.old) × (follower.new.seal.held ≡ follower.old.seal.held) }
{
    let asked = question_in_text_as(alloc, how, k, text);
    ask_by(alloc, follower, asked, ids, answer)
}

/// Answers a query line as `eb_follower_ask_line` does, where lines are read so.
#[unsafe(no_mangle)]
pub extern "C" fn eb_follower_ask_line_with(
    alloc: Global,
    follower: &mut Handle,
    how: &Reading<'_>,
    line: &[u8],
    ids: &mut [u64],
    answer: &mut Answer,
) -> u32
    ensures told { (f : FeedToken) → LeadsToFollower follower.old.seal.held f
        → (g : FeedToken) × LeadsToFollower follower.new.seal.held g × FollowerAnswers (LineAsksAs how.now line.now) f g result answer.new ids.old ids.new }
    ensures bad { kind_of follower.old.seal.held ≢ 5
        → (result ≡ 16) × (answer.new ≡ nothing_told 0) × (ids.new ≡ ids.old) × (follower.new.seal.held ≡ follower.old.seal.held) }
{
    let asked = question_in_line_as(alloc, how, line);
    ask_by(alloc, follower, asked, ids, answer)
}

/// Counts as `eb_follower_count_text` does, where texts are read so.
#[unsafe(no_mangle)]
pub extern "C" fn eb_follower_count_text_with(
    alloc: Global,
    follower: &mut Handle,
    how: &Reading<'_>,
    text: &[u8],
    start: u64,
    width: u64,
    buckets: &mut [u64],
    count: &mut Count,
) -> u32
    ensures told { (f : FeedToken) → LeadsToFollower follower.old.seal.held f
        → (g : FeedToken) × LeadsToFollower follower.new.seal.held g
        × FollowerCounts (TextAsksAs how.now 1 text.now) f g (record { start = start; width = width }) result count.new buckets.old buckets.new }
    ensures bad { kind_of follower.old.seal.held ≢ 5
        → (result ≡ 16) × (count.new ≡ nothing_counted 0) × (buckets.new ≡ buckets.old) × (follower.new.seal.held ≡ follower.old.seal.held) }
{
    let axis = Axis { start, width };
    let question = question_in_text_as(alloc, how, 1, text);
    let asked = prepare(alloc, question, axis, buckets.len());
    count_by_follower(alloc, follower, asked, axis, buckets, count)
}
