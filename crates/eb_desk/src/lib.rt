//! A desk: a clerk puts jobs and takes answers, and workers take the jobs and put the answers. What
//! a job is, and how it is answered, is the caller's ([`Job`]). Both go through queues under a rule
//! (`specs/Rule.antt`): each job is taken at most once, and what was put and not taken is there,
//! whatever the threads do. Idle threads sleep.
//!
//! Only `Desk::open` takes memory. The calls that take `rt` may wait, and their promise holds if
//! they return.
#![tactic(auto)]

mod calls;
mod clerk;
mod desk;
mod job;
mod laws;
mod rule;
mod worker;
mod working;

pub use clerk::Clerk;
pub use desk::Desk;
pub use job::{Job, Task};
pub use laws::{answers_are_kept, jobs_are_known, jobs_are_taken_once};
pub use rule::{
    AnswerQueue, Answers, Asked, AskedOf, DeskView, Hand, Home, JobQueue, Jobs, Key, Pair, Permit,
    View,
};
pub use worker::Worker;
pub use working::{stop_all, work_all};
