//! A leader adds documents through a hundred turns, while two followers hear and search on threads
//! of their own. Each answer is that of the plain scan over the generations that the follower
//! holds, and none is over fewer documents than before.
ghost use Rattle.std.specs.Prelude.{◌≡◌, ◌<◌};

use super::made::{Question, documents, first_held, is_scanned, question_of};
use eb_base::{Config, Document, OpenGate};
use feed_shared::{FeedWriter, Follower, Leader};
use std::alloc::Global;
use std::test::Fail;
use std::thread;
use std::thread::Threads;

// How many documents a generation takes: two segments of three.
const SIZE: u64 = 6;

// Hears and searches until all documents are seen: whether each answer was right, and none over
// fewer documents than before.
fn follow(alloc: Global, follower: Follower, question: Question, documents: &[Document]) -> bool {
    let mut follower = follower;
    let mut question = question;
    let mut last = 0;
    for _ in 0..u64::MAX {
        follower.hear();
        let count = follower.search_unmetered(&mut question.frame, &OpenGate);
        let from = first_held(follower.turns(), follower.held(), SIZE);
        if count < last
            || !is_scanned(
                alloc,
                &question.query,
                documents,
                from,
                count,
                question.frame.ids(),
            )
        {
            return false;
        }
        if count == documents.len() as u64 {
            return true;
        }
        last = count;
    }
    false
}

// Sends the news to the followers, until all of them have it.
fn tell(leader: &mut Leader) {
    for _ in 0..u64::MAX {
        if leader.tell() {
            return;
        }
        thread::yield_now();
    }
}

// Adds all documents, and returns how many were accepted, and how many generations were begun.
fn lead(leader: Leader, documents: &[Document]) -> (u64, u64) {
    let mut leader = leader;
    for document in documents {
        if leader.add(document, &OpenGate).is_err() {
            return (0, 0);
        }
        thread::yield_now();
    }
    tell(&mut leader);
    (leader.accepted(), leader.turns())
}

// Two followers.
fn follow_both<R: Threads + Sync>(
    rt: &R,
    alloc: Global,
    followers: (Follower, Follower),
    questions: (Question, Question),
    documents: &[Document],
) -> (bool, bool) {
    let (first, second) = followers;
    let (all, some) = questions;
    thread::join(
        rt,
        move || -> bool { follow(alloc, first, all, documents) },
        move || -> bool { follow(alloc, second, some, documents) },
    )
}

// The leader and both followers, each on a thread of its own.
fn all_beside<R: Threads + Sync>(
    rt: &R,
    alloc: Global,
    leader: Leader,
    followers: (Follower, Follower),
    documents: &[Document],
) -> Result<((u64, u64), (bool, bool)), Fail> {
    let questions = (question_of(alloc, 0)?, question_of(alloc, 1)?);
    Ok(thread::join(
        rt,
        move || -> (u64, u64) { lead(leader, documents) },
        move || -> (bool, bool) { follow_both(rt, alloc, followers, questions, documents) },
    ))
}

// A leader with two followers.
fn opened(alloc: Global) -> Result<(Leader, (Follower, Follower)), Fail> {
    let Ok(feed) = FeedWriter::open(alloc, Config::new(2, 3, 1024)?, 3) else {
        return Err(Fail::new("no memory"));
    };
    let mut leader = Leader::new(alloc, feed);
    let (Ok(first), Ok(second)) = (leader.follower(), leader.follower()) else {
        return Err(Fail::new("no memory"));
    };
    Ok((leader, (first, second)))
}

#[test]
fn followers_search_beside_a_leader(rt: HostRuntime) -> Result<(), Fail> {
    let alloc = rt.alloc();
    let documents = documents(alloc, 600)?;
    let (leader, followers) = opened(alloc)?;
    let done = all_beside(&rt, alloc, leader, followers, documents.as_slice())?;
    assert_eq!(rt; done, ((600, 100), (true, true)));
    Ok(())
}
