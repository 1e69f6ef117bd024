//! Standing workers over a feed: a clerk adds documents and asks a query after each, and waits for
//! the answers then. Each is that of the plain scan over the generations that were held when it was
//! asked.
ghost use Rattle.std.specs.Prelude.{◌≡◌, ◌+◌, List, [], All, IfOk, OnOk};
ghost use Rattle.eb_base.specs.Document.{Doc};
ghost use Rattle.feed_shared.specs.Turns.{HasTaken};
ghost use Rattle.feed_serve.specs.Desk.{IsOpen, IsWorkerOf};
ghost use Rattle.feed_serve.specs.Feeds.{feed_name, IsReaderOf};
ghost use Rattle.feed_serve.specs.Jobs.{asker, pair_of};
ghost use Rattle.eb_desk.specs.Rule.{IsAboveEach};

use super::made::{a_without_b, documents, first_held, frame, is_scanned};
use eb_base::{Config, Document, OpenGate, Query};
use feed_serve::{Answer, Clerk, Desk, Job, Worker, stop_all, work_all};
use feed_shared::FeedWriter;
use std::alloc::Global;
use std::sync::Wait;
use std::test::Fail;
use std::thread;
use std::thread::Threads;

// How many documents a generation takes: two segments of three.
const SIZE: u64 = 6;

const WORKERS: u32 = 3;

// The documents that are added, and what is asked after each.
#[derive(Clone, Copy)]
struct Trial<'a> {
    documents: &'a [Document],
    query: &'a Query,
}

// Adds a document.
fn add(feed: &mut FeedWriter, document: &Document) -> Result<(), Fail>
    requires taken { (history : List Doc) × HasTaken feed.old history }
    ensures name { feed_name feed.new ≡ feed_name feed.old }
    ensures taken { (history : List Doc) × HasTaken feed.new history }
{
    match feed.add(document, &OpenGate) {
        Ok(_) => Ok(()),
        Err(_) => Err(Fail::new("no memory")),
    }
}

// A job over all that was added.
fn job(alloc: Global, feed: &mut FeedWriter, number: u64) -> Result<Job, Fail>
    requires taken { (history : List Doc) × HasTaken feed.old history }
    ensures same { feed.new ≡ feed.old }
    ensures number { IfOk result (λ j. (pair_of j).number ≡ number) }
    ensures made { IfOk result (λ j. IsReaderOf (feed_name feed.old) (asker j)) }
{
    let frame = frame(alloc, a_without_b(alloc)?)?;
    match Job::new(number, frame, feed) {
        Ok(job) => Ok(job),
        Err(_) => Err(Fail::new("no memory")),
    }
}

// Adds a document, and asks a query then.
fn ask<R: Wait>(
    rt: &R,
    alloc: Global,
    desk: &Desk,
    clerk: &mut Clerk,
    feed: &mut FeedWriter,
    document: &Document,
    number: u64,
) -> Result<(), Fail>
    requires taken { (history : List Doc) × HasTaken feed.old history }
    requires open { IsOpen desk.now.queues (feed_name feed.old) clerk.old }
    requires above { IsAboveEach number clerk.old.put }
    ensures taken { (history : List Doc) × HasTaken feed.new history }
    ensures open { IsOpen desk.now.queues (feed_name feed.new) clerk.new }
    ensures above { OnOk result (IsAboveEach (number + 1) clerk.new.put) }
{
    add(feed, document)?;
    let job = job(alloc, feed, number)?;
    clerk.ask(rt, desk, job);
    Ok(())
}

// Adds all documents, and asks a query after each.
fn ask_all<R: Wait>(
    rt: &R,
    alloc: Global,
    desk: &Desk,
    clerk: &mut Clerk,
    feed: &mut FeedWriter,
    documents: &[Document],
) -> Result<(), Fail>
    requires taken { (history : List Doc) × HasTaken feed.old history }
    requires open { IsOpen desk.now.queues (feed_name feed.old) clerk.old }
    requires first { clerk.old.put ≡ [] }
    ensures { IsOpen desk.now.queues (feed_name feed.new) clerk.new }
{
    for number in 0..documents.len() {
        let document = &documents[number];
        ask(rt, alloc, desk, clerk, feed, document, number as u64)?;
    }
    Ok(())
}

// Whether an answer is right, where this many documents and one were added before it was asked.
fn is_right(alloc: Global, trial: &Trial<'_>, answer: Answer) -> bool {
    let (number, told, seen) = (answer.number(), answer.told(), answer.seen());
    let (frame, reader) = answer.finish();
    let from = first_held(reader.turns(), reader.held(), SIZE);
    told == number.saturating_add(1)
        && told <= seen
        && reader.turns() == (number / SIZE).saturating_add(1)
        && is_scanned(alloc, trial.query, trial.documents, from, seen, frame.ids())
}

// Waits for the answers, and counts those that are right.
fn wait_all<R: Wait>(
    rt: &R,
    alloc: Global,
    desk: &Desk,
    clerk: &mut Clerk,
    trial: &Trial<'_>,
) -> usize
    requires queues { clerk.old.queues ≡ desk.now.queues }
    requires open { clerk.old.stops ≡ 0 }
    ensures { clerk.new.queues ≡ desk.now.queues }
{
    let mut right = 0usize;
    for _ in 0..trial.documents.len() {
        let answer = clerk.wait(rt, desk, &(), &OpenGate);
        if is_right(alloc, trial, answer) {
            right = right.saturating_add(1);
        }
    }
    right
}

// The clerk's part: returns how many answers were right.
fn serve<R: Wait>(
    rt: &R,
    alloc: Global,
    desk: &Desk,
    clerk: Clerk,
    feed: FeedWriter,
    trial: &Trial<'_>,
) -> Result<usize, Fail>
    requires taken { (history : List Doc) × HasTaken feed history }
    requires open { IsOpen desk.now.queues (feed_name feed) clerk }
    requires first { clerk.put ≡ [] }
{
    let mut clerk = clerk;
    let mut feed = feed;
    let asked = ask_all(rt, alloc, desk, &mut clerk, &mut feed, trial.documents);
    let right = if asked.is_ok() {
        wait_all(rt, alloc, desk, &mut clerk, trial)
    } else {
        0
    };
    stop_all(rt, desk, &mut clerk, WORKERS);
    asked?;
    Ok(right)
}

// The workers work until they are stopped.
fn work<R: Threads + Wait + Sync>(rt: &R, desk: &Desk, workers: Vec<Worker>)
    requires { All (λ w. IsWorkerOf desk.now.queues w) workers.items }
{
    let mut workers = workers;
    work_all(rt, desk, &(), &OpenGate, workers.as_mut_slice());
}

// The workers, while the clerk's part runs.
fn serve_beside<R: Threads + Wait + Sync>(
    rt: &R,
    alloc: Global,
    desk: &Desk,
    workers: Vec<Worker>,
    clerk: Clerk,
    feed: FeedWriter,
    trial: &Trial<'_>,
) -> Result<usize, Fail>
    requires workers { All (λ w. IsWorkerOf desk.now.queues w) workers.items }
    requires taken { (history : List Doc) × HasTaken feed history }
    requires open { IsOpen desk.now.queues (feed_name feed) clerk }
    requires first { clerk.put ≡ [] }
{
    let (_, right) = thread::join(
        rt,
        move ||
            requires { All (λ w. IsWorkerOf desk.now.queues w) workers.items }
        { work(rt, desk, workers) },
        move || -> Result<usize, Fail>
            requires { ((history : List Doc) × HasTaken feed history) × IsOpen desk.now.queues (feed_name feed) clerk × (clerk.put ≡ []) }
        { serve(rt, alloc, desk, clerk, feed, trial) },
    );
    right
}

#[test]
fn workers_answer_beside_a_clerk(rt: HostRuntime) -> Result<(), Fail> {
    let alloc = rt.alloc();
    let documents = documents(alloc, 60)?;
    let query = a_without_b(alloc)?;
    let Ok(feed) = FeedWriter::open(alloc, Config::new(2, 3, 1024)?, 3) else {
        return Err(Fail::new("no memory"));
    };
    let Ok((desk, clerk, workers)) = Desk::open(alloc, &feed, WORKERS) else {
        return Err(Fail::new("no memory"));
    };
    let trial = Trial {
        documents: documents.as_slice(),
        query: &query,
    };
    let right = serve_beside(&rt, alloc, &desk, workers, clerk, feed, &trial)?;
    assert_eq!(rt; right, 60);
    Ok(())
}
