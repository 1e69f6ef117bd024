//! The clerk.
//!
//! The clerk's call is the second argument of `join_mut`: the first runs on a new thread, or last
//! where no thread can be started. With the clerk first, workers would sleep before it ever began;
//! with it second, it answers its jobs itself. A waiting clerk sleeps until an answer comes; a
//! worker does a job that the clerk missed. A call of its own takes an answer that is there: it
//! doesn't wait, and takes no handle that may wait.
ghost use Rattle.std.specs.Prelude.{◌≡◌, ◌⊎◌, MatchOption, Contains};
ghost use Rattle.eb_desk.specs.Rule.{IsAboveEach, IsAsked, IsPermit};
ghost use Rattle.eb_desk.specs.declared.rule.Pair.{Pair};
ghost use Rattle.eb_desk.specs.Desk.{clerk_home, with_put, with_stop, with_taken, with_answered};

use crate::calls::{
    cut_permit, learn_permits, put_task, sure_answer, take_answer, take_job, take_permit,
};
use crate::desk::Desk;
use crate::job::{Job, Task};
use crate::rule::{Asked, AskedOf, DeskView, Permit};
use crossbeam_queue::Pass;
use crossbeam_utils::Backoff;
use eb_base::Gate;
use std::marker::{Brand, Model};
use std::sync::Wait;

/// Puts jobs and stops at a desk, and takes answers. It may go to a thread of its own. Contracts
/// see the pairs (a number, the job's document count, and what it asks) that it put, the stops, and
/// the pairs that it took, as a job or as an answer.
#[derive(Drop)]
pub struct Clerk<J: Job> {
    pub(crate) jobs: Pass<Task<AskedOf<J>>, DeskView>,
    pub(crate) answers: Pass<J::Answer, DeskView>,
}

impl<J: Job> Model for Clerk<J> {
    ghost use Rattle.std.specs.Prelude.{ℕ, List};
    ghost use Rattle.eb_desk.specs.Desk.{ClerkBook, clerk_book, IsClerk};

    ghost Value = { ClerkBook (List ℕ) };

    ghost view = { λ c. clerk_book c.jobs c.answers };

    ghost invariant = { λ c. IsClerk c.jobs c.answers };
}

impl<J: Job> Clerk<J> {
    /// Puts a job, and tries again while the queue is full, which it never is where at most 512
    /// jobs are unanswered. Its number must be above those of the jobs put before, it must be of
    /// the desk's home, and no stop may have been put. Takes no memory.
    pub fn ask<R: Wait>(&mut self, rt: &R, desk: &Desk<J>, job: J)
        requires desk { self.old.queues ≡ desk.now.queues }
        requires made { J.made self.old.home job }
        requires rising { IsAboveEach (J.pair job).number self.old.put }
        requires open { self.old.stops ≡ 0 }
        ensures { self.new ≡ with_put self.old (J.pair job) }
    {
        let permit = cut_permit::<J, Brand>(&desk.answers, &mut self.answers, &job);
        put_task(
            rt,
            &desk.jobs,
            &mut self.jobs,
            Task::Job(Asked { job, permit }),
        );
        desk.tasks_came.notify_one();
    }

    /// Puts one stop, and tries again while the queue is full. Takes no memory.
    pub fn stop<R: Wait>(&mut self, rt: &R, desk: &Desk<J>)
        requires desk { self.old.queues ≡ desk.now.queues }
        ensures { self.new ≡ with_stop self.old }
    {
        put_task(rt, &desk.jobs, &mut self.jobs, Task::Stop);
        desk.tasks_came.notify_one();
    }

    /// Takes an answer where one is there, and doesn't wait. Its pair is one of those that the
    /// clerk put. `None`, where there is none or another thread is just putting one, leaves the
    /// clerk as it was. Takes no memory.
    pub fn take_answer(&mut self, desk: &Desk<J>) -> Option<J::Answer>
        requires desk { self.old.queues ≡ desk.now.queues }
        ensures { MatchOption result (self.new ≡ self.old)
            (λ a. (self.new ≡ with_answered self.old (J.answer_pair a)) × J.answer_made self.old.home a × Contains self.old.put (J.answer_pair a)) }
    {
        take_answer(&desk.answers, &mut self.answers)
    }

    // Takes a job. Where no stop was put, there is none to take.
    fn take_job(&mut self, desk: &Desk<J>) -> Option<AskedOf<J>>
        requires desk { self.old.queues ≡ desk.now.queues }
        requires open { self.old.stops ≡ 0 }
        ensures { MatchOption result (self.new ≡ self.old)
            (λ x. (self.new ≡ with_taken self.old (J.pair x.job)) × IsAsked J.pair J.made (clerk_home self.old) x) }
    {
        take_job(&desk.jobs, &mut self.jobs)
    }

    // Finds by its permit that a job is one of those that the clerk put.
    fn redeem(&mut self, desk: &Desk<J>, permit: Permit<J::Answer>)
        requires desk { self.old.queues ≡ desk.now.queues }
        requires permit { (p : Pair) × IsPermit (clerk_home self.old) p permit }
        ensures same { self.new ≡ self.old }
        ensures put { (p : Pair) → IsPermit (clerk_home self.old) p permit → Contains self.old.put p }
    {
        take_permit::<J, Brand>(&desk.answers, &mut self.answers, permit);
        learn_permits(&desk.answers, &mut self.answers);
    }

    /// Returns one answer: takes one that a worker put, or takes a job and answers it, with this
    /// gate. Where neither comes it goes on waiting: first it tries both queues in turn, and then
    /// it sleeps until an answer is put. The answer's pair is one of those that the clerk put. What
    /// it is given must serve the desk's home, and no stop may have been put. Takes no memory.
    pub fn wait<R: Wait, G: Gate>(
        &mut self,
        rt: &R,
        desk: &Desk<J>,
        with: &J::With,
        gate: &G,
    ) -> J::Answer
        requires desk { self.old.queues ≡ desk.now.queues }
        requires with { J.serves with.now self.old.home }
        requires open { self.old.stops ≡ 0 }
        ensures made { J.answer_made self.old.home result }
        ensures put { Contains self.old.put (J.answer_pair result) }
        ensures one { (self.new ≡ with_answered self.old (J.answer_pair result)) ⊎ (self.new ≡ with_taken self.old (J.answer_pair result)) }
    {
        let backoff = Backoff::new();
        for _ in rt.forever() {
            if let Some(answer) = self.take_answer(desk) {
                return answer;
            }
            if let Some(Asked { job, permit }) = self.take_job(desk) {
                self.redeem(desk, permit);
                return job.answered(with, gate);
            }
            if !backoff.is_completed() {
                backoff.snooze();
            } else if let Some(answer) = self.take_answer_or_sleep(rt, desk) {
                return answer;
            }
        }
        unreachable!()
    }

    // Takes an answer, or sleeps until one is put.
    fn take_answer_or_sleep<R: Wait>(&mut self, rt: &R, desk: &Desk<J>) -> Option<J::Answer>
        requires desk { self.old.queues ≡ desk.now.queues }
        ensures { MatchOption result (self.new ≡ self.old)
            (λ a. (self.new ≡ with_answered self.old (J.answer_pair a)) × J.answer_made self.old.home a × Contains self.old.put (J.answer_pair a)) }
    {
        let key = desk.answers_came.prepare_wait();
        match self.sure_answer(rt, desk) {
            Some(answer) => Some(answer),
            None => {
                key.wait(rt);
                None
            }
        }
    }

    // Takes an answer. `None` only if there was none at one moment of the call.
    fn sure_answer<R: Wait>(&mut self, rt: &R, desk: &Desk<J>) -> Option<J::Answer>
        requires desk { self.old.queues ≡ desk.now.queues }
        ensures { MatchOption result (self.new ≡ self.old)
            (λ a. (self.new ≡ with_answered self.old (J.answer_pair a)) × J.answer_made self.old.home a × Contains self.old.put (J.answer_pair a)) }
    {
        sure_answer(rt, &desk.answers, &mut self.answers)
    }
}
