//! A feed that threads share: one thread adds 200,000 messages, which begin twenty generations, and
//! two threads search while it does and check each answer.
//!
//! Message n has the id n and one word, by n modulo 7. So an answer is known from what the follower
//! says beside it: how many messages it saw, and how many of the generations that were begun it
//! holds.
#![tactic(auto)]

ghost use Rattle.std.specs.Prelude.{◌≡◌, ◌<◌};

use eb_base::{Config, Document, NoMemory, OpenGate, Query, Term};
use eb_cursor::Frame;
use eb_text::tokens;
use feed_shared::{FeedWriter, Follower, Leader};
use std::alloc::Global;
use std::thread::Threads;
use std::{io, thread};

// How many messages are added, and how many of them a generation has room for: two segments of
// 5,000.
const MESSAGES: u64 = 200_000;

const GENERATION: u64 = 10_000;

// The words of the messages, and how many ids a search asks for.
const WORDS: [&str; 7] = ["sun", "rain", "snow", "wind", "fog", "hail", "frost"];

const ASKED: usize = 10;

#[derive(Debug, Drop)]
enum Trouble {
    NoMemory,
    BadSetting,
    NoOutput,
}

impl From<NoMemory> for Trouble {
    fn from(_: NoMemory) -> Trouble {
        Trouble::NoMemory
    }
}

impl From<io::Error> for Trouble {
    fn from(_: io::Error) -> Trouble {
        Trouble::NoOutput
    }
}

// A message.
fn message(alloc: Global, number: u64) -> Result<Document, NoMemory> {
    let word = WORDS[(number % 7) as usize];
    match Document::new(number, tokens(alloc, word)?) {
        Ok(document) => Ok(document),
        Err(_) => Err(NoMemory),
    }
}

// Adds the messages, and sends the followers news of each generation. `Leader::add` never finds the
// feed full.
fn add_all(alloc: Global, leader: Leader) -> Result<Leader, NoMemory> {
    let mut leader = leader;
    for number in 0..MESSAGES {
        let document = message(alloc, number)?;
        leader.add(&document, &OpenGate)?;
    }
    // A letter can fail to be put while its follower is just at the mailbox.
    for _ in 0..u64::MAX {
        if leader.tell() {
            return Ok(leader);
        }
        thread::yield_now();
    }
    Ok(leader)
}

// Whether these are the newest ids with the word below `count`, at most ten, and none below
// `first`.
fn are_newest(ids: &[u64], word: u64, first: u64, count: u64) -> bool {
    let mut above = count;
    for id in ids {
        // Of seven ids that follow one another exactly one has the word.
        if *id < first || *id >= above || above - *id > 7 || *id % 7 != word {
            return false;
        }
        above = *id;
    }
    ids.len() == ASKED || above < first.saturating_add(7)
}

// Whether the answer of a search is right, which saw this many messages.
fn is_right(follower: &Follower, frame: &Frame, word: u64, count: u64) -> bool {
    let passed = follower.turns().saturating_sub(follower.held() as u64);
    are_newest(frame.ids(), word, passed.saturating_mul(GENERATION), count)
}

// Searches until it sees all messages, and says how many answers were wrong.
fn follow(follower: Follower, frame: Frame, word: u64) -> u64 {
    let mut follower = follower;
    let mut frame = frame;
    let mut wrong = 0u64;
    for _ in 0..u64::MAX {
        follower.hear();
        let count = follower.search_unmetered(&mut frame, &OpenGate);
        if !is_right(&follower, &frame, word, count) {
            wrong = wrong.saturating_add(1);
        }
        if count >= MESSAGES {
            return wrong;
        }
        thread::yield_now();
    }
    wrong
}

// Two followers, each on a thread of its own.
fn follow_beside<R: Threads + Sync>(
    rt: &R,
    followers: (Follower, Follower),
    frames: (Frame, Frame),
) -> (u64, u64) {
    let (first, second) = followers;
    let (one, other) = frames;
    thread::join(
        rt,
        move || -> u64 { follow(first, one, 1) },
        move || -> u64 { follow(second, other, 4) },
    )
}

// The writer and the followers.
fn run<R: Threads + Sync>(
    rt: &R,
    alloc: Global,
    leader: Leader,
    followers: (Follower, Follower),
    frames: (Frame, Frame),
) -> (Result<Leader, NoMemory>, (u64, u64)) {
    thread::join(
        rt,
        move || -> Result<Leader, NoMemory> { add_all(alloc, leader) },
        move || -> (u64, u64) { follow_beside(rt, followers, frames) },
    )
}

// A frame for the newest ten with a word.
fn frame(alloc: Global, word: &str) -> Result<Frame, NoMemory> {
    Frame::new(
        alloc,
        Query::Word(Term::new(alloc, word.as_bytes())?),
        ASKED as u32,
    )
}

// What the two followers ask for.
fn frames(alloc: Global) -> Result<(Frame, Frame), NoMemory> {
    Ok((frame(alloc, WORDS[1])?, frame(alloc, WORDS[4])?))
}

// The writer of a feed that keeps four generations; each takes its memory when it is begun.
fn opened(alloc: Global) -> Result<Leader, Trouble> {
    let Ok(config) = Config::new(2, 5_000, 1024) else {
        return Err(Trouble::BadSetting);
    };
    Ok(Leader::new(alloc, FeedWriter::open(alloc, config, 4)?))
}

// Two followers.
fn followers(leader: &mut Leader) -> Result<(Follower, Follower), NoMemory> {
    Ok((leader.follower()?, leader.follower()?))
}

// Prints how far the feed came, and how many answers were wrong.
fn report(rt: &impl Print, leader: &Leader, wrong: u64) -> io::Result<()> {
    println!(rt;
        "messages {}, generations {}, wrong answers {}",
        leader.accepted(),
        leader.turns(),
        wrong
    )
}

fn main(rt: HostRuntime) -> Result<(), Trouble> {
    let mut leader = opened(rt.alloc())?;
    let followers = followers(&mut leader)?;
    let frames = frames(rt.alloc())?;
    let (leader, (one, other)) = run(&rt, rt.alloc(), leader, followers, frames);
    report(&rt, &leader?, one.saturating_add(other))?;
    Ok(())
}
