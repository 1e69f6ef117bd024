ghost use Rattle.std.specs.Prelude.{◌≡◌, ◌≤◌, All, IfOk, vec_len};
ghost use Rattle.eb_desk.specs.Desk.{HasPlaces, new_clerk, new_worker};

use crate::calls::{cut_putter, cut_taker};
use crate::clerk::Clerk;
use crate::job::Job;
use crate::rule::{AnswerQueue, JobQueue};
use crate::worker::Worker;
use crossbeam_utils::sync::EventCount;
use eb_base::NoMemory;
use std::alloc::Global;
use std::marker::{Brand, Model};

// The places of the queue of jobs and stops: 512 jobs, and a stop for each worker.
const JOB_PLACES: usize = 528;

// The places of the queue of answers.
const ANSWER_PLACES: usize = 512;

/// The queues of a desk's jobs and stops, and of its answers. Threads share it by reference.
/// Contracts see which two queues it has, and their places.
#[derive(Drop)]
pub struct Desk<J: Job> {
    pub(crate) jobs: JobQueue<J>,
    pub(crate) answers: AnswerQueue<J>,
    // The event counts of the two queues: one for each job and each stop that was put, one for each
    // answer.
    pub(crate) tasks_came: EventCount,
    pub(crate) answers_came: EventCount,
}

impl<J: Job> Model for Desk<J> {
    ghost use Rattle.crossbeam_queue.specs.Passes.{ruled_capacity};
    ghost use Rattle.eb_desk.specs.Desk.{DeskBook};

    ghost Value = { DeskBook };

    ghost view = { λ d. record {
      queues = record { jobs = d.jobs.table.shared.table_id; answers = d.answers.table.shared.table_id };
      job_places = ruled_capacity d.jobs;
      answer_places = ruled_capacity d.answers;
    } };
}

impl<J: Job> Desk<J> {
    /// An empty desk for the jobs of a place, with its one clerk and `workers` workers, from 1 to
    /// 16. It has 528 places for jobs and stops, and 512 for answers. Takes all memory that they
    /// will ever take, at once; `NoMemory` where memory runs out: nothing is kept then.
    pub fn open(
        alloc: Global,
        place: &J::Place,
        workers: u32,
    ) -> Result<(Desk<J>, Clerk<J>, Vec<Worker<J>>), NoMemory>
        requires { (1 ≤ workers) × (workers ≤ 16) }
        ensures places { IfOk result (λ r. HasPlaces r.0) }
        ensures clerk { IfOk result (λ r. r.1 ≡ new_clerk r.0.queues (J.key place.now)) }
        ensures count { IfOk result (λ r. vec_len r.2 ≡ workers) }
        ensures workers { IfOk result (λ r. All (λ w. w ≡ new_worker r.0.queues (J.key place.now)) r.2.items) }
    {
        let (jobs, mut clerk_jobs) = JobQueue::<J>::ruled(alloc, JOB_PLACES)?;
        let (answers, mut clerk_answers) = AnswerQueue::<J>::ruled(alloc, ANSWER_PLACES)?;
        let mut all = Vec::with_capacity(alloc, workers as usize)?;
        all.push(Worker {
            number: 0,
            jobs: cut_taker::<J, Brand>(&jobs, &mut clerk_jobs, place, &answers),
            answers: cut_putter::<J, Brand>(&answers, &mut clerk_answers, place),
        })?;
        for number in 1..workers {
            all.push(Worker {
                number,
                jobs: cut_taker::<J, Brand>(&jobs, &mut clerk_jobs, place, &answers),
                answers: cut_putter::<J, Brand>(&answers, &mut clerk_answers, place),
            })?;
        }
        let desk = Desk {
            jobs,
            answers,
            tasks_came: EventCount::new(),
            answers_came: EventCount::new(),
        };
        let clerk = Clerk {
            jobs: clerk_jobs,
            answers: clerk_answers,
        };
        Ok((desk, clerk, all))
    }
}
