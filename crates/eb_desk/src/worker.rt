//! A worker.
//!
//! An idle worker tries for a while and then sleeps by an event count. Before it sleeps it
//! announces the wait and looks again, by the take that fails only at an empty queue: the quick one
//! also fails where another thread is in the way. A worker has a number because the kit proves
//! nothing of slices of tokens without bytes.
ghost use Rattle.std.specs.Prelude.{◌≡◌, ◌+◌, MatchOption};
ghost use Rattle.eb_desk.specs.Rule.{asked_pair, IsMadeTask, IsAsked, IsPermit};
ghost use Rattle.eb_desk.specs.Desk.{with_task, with_answer, worker_home, HasWorked};

use crate::calls::{put_answer, sure_task, take_permit, take_task};
use crate::desk::Desk;
use crate::job::{Job, Task};
use crate::rule::{Asked, AskedOf, DeskView, Permit};
use crossbeam_queue::Pass;
use crossbeam_utils::Backoff;
use eb_base::Gate;
use std::marker::{Brand, Model};
use std::sync::Wait;
use std::thread;

/// Takes jobs from a desk, and puts their answers there. It may go to a thread of its own.
/// Contracts see the pairs (a number, the job's document count, and what it asks) of the jobs that
/// it took and of the answers that it put, and how many stops it took.
#[derive(Drop)]
pub struct Worker<J: Job> {
    // The kit proves nothing of slices of tokens without bytes, so a worker has its number among
    // those of its desk, from 0.
    pub(crate) number: u32,
    pub(crate) jobs: Pass<Task<AskedOf<J>>, DeskView>,
    pub(crate) answers: Pass<J::Answer, DeskView>,
}

impl<J: Job> Model for Worker<J> {
    ghost use Rattle.std.specs.Prelude.{ℕ, List};
    ghost use Rattle.eb_desk.specs.Desk.{WorkerBook, worker_book, IsWorker};

    ghost Value = { WorkerBook (List ℕ) };

    ghost view = { λ w. worker_book w.jobs w.answers };

    ghost invariant = { λ w. IsWorker w.jobs w.answers };
}

// One more. At the greatest number it waits for ever.
fn counted<R: Wait>(rt: &R, count: u64) -> u64
    ensures { result ≡ count + 1 }
{
    if count < u64::MAX {
        return count + 1;
    }
    for _ in rt.forever() {
        thread::yield_now();
    }
    unreachable!()
}

impl<J: Job> Worker<J> {
    // Takes a job or a stop, where there is one and no other thread is in the way.
    fn take(&mut self, desk: &Desk<J>) -> Option<Task<AskedOf<J>>>
        requires desk { self.old.queues ≡ desk.now.queues }
        ensures { MatchOption result (self.new ≡ self.old)
            (λ t. (self.new ≡ with_task (asked_pair J.pair) self.old t) × IsMadeTask (IsAsked J.pair J.made) (worker_home self.old) t) }
    {
        take_task(&desk.jobs, &mut self.jobs)
    }

    // Takes a job or a stop. `None` only if there was none at one moment of the call.
    fn sure_take<R: Wait>(&mut self, rt: &R, desk: &Desk<J>) -> Option<Task<AskedOf<J>>>
        requires desk { self.old.queues ≡ desk.now.queues }
        ensures { MatchOption result (self.new ≡ self.old)
            (λ t. (self.new ≡ with_task (asked_pair J.pair) self.old t) × IsMadeTask (IsAsked J.pair J.made) (worker_home self.old) t) }
    {
        sure_task(rt, &desk.jobs, &mut self.jobs)
    }

    // Takes a job or a stop, or sleeps until one is put. The sure take finds what was put before
    // the wait was announced.
    fn take_or_sleep<R: Wait>(&mut self, rt: &R, desk: &Desk<J>) -> Option<Task<AskedOf<J>>>
        requires desk { self.old.queues ≡ desk.now.queues }
        ensures { MatchOption result (self.new ≡ self.old)
            (λ t. (self.new ≡ with_task (asked_pair J.pair) self.old t) × IsMadeTask (IsAsked J.pair J.made) (worker_home self.old) t) }
    {
        let key = desk.tasks_came.prepare_wait();
        match self.sure_take(rt, desk) {
            Some(task) => Some(task),
            None => {
                key.wait(rt);
                None
            }
        }
    }

    // Takes a job or a stop: tries for a while, and then sleeps until one is put.
    fn next_task<R: Wait>(&mut self, rt: &R, desk: &Desk<J>) -> Task<AskedOf<J>>
        requires desk { self.old.queues ≡ desk.now.queues }
        ensures { (self.new ≡ with_task (asked_pair J.pair) self.old result) × IsMadeTask (IsAsked J.pair J.made) (worker_home self.old) result }
    {
        let backoff = Backoff::new();
        for _ in rt.forever() {
            if let Some(task) = self.take(desk) {
                return task;
            }
            if !backoff.is_completed() {
                backoff.snooze();
            } else if let Some(task) = self.take_or_sleep(rt, desk) {
                return task;
            }
        }
        unreachable!()
    }

    // Puts an answer that is permitted, and tries again while the queue is full.
    fn put<R: Wait>(&mut self, rt: &R, desk: &Desk<J>, permit: Permit<J::Answer>, answer: J::Answer)
        requires desk { self.old.queues ≡ desk.now.queues }
        requires made { J.answer_made self.old.home answer }
        requires permit { IsPermit (worker_home self.old) (J.answer_pair answer) permit }
        ensures { self.new ≡ with_answer self.old (J.answer_pair answer) }
    {
        take_permit::<J, Brand>(&desk.answers, &mut self.answers, permit);
        put_answer(rt, &desk.answers, &mut self.answers, answer);
        desk.answers_came.notify_one();
    }

    /// Answers jobs until it takes a stop, and returns how many jobs it took. Each is answered with
    /// this gate. The pairs that it puts as answers are those of the jobs that it takes, in the
    /// same order, and it takes exactly one stop. It tries again while the queue of answers is
    /// full, and sleeps where there is no job. What it is given must serve the desk's home. Takes
    /// no memory.
    pub fn work<R: Wait, G: Gate>(
        &mut self,
        rt: &R,
        desk: &Desk<J>,
        with: &J::With,
        gate: &G,
    ) -> u64
        requires desk { self.old.queues ≡ desk.now.queues }
        requires with { J.serves with.now self.old.home }
        ensures { HasWorked self.old self.new result }
    {
        let mut count = 0;
        for _ in rt.forever() {
            match self.next_task(rt, desk) {
                Task::Stop => return count,
                Task::Job(Asked { job, permit }) => {
                    let answer = job.answered(with, gate);
                    self.put(rt, desk, permit, answer);
                    count = counted(rt, count);
                }
            }
        }
        unreachable!()
    }
}
