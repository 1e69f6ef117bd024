//! Standing workers of a feed: threads that live as long as it is searched, and answer queries
//! while its one writer adds. A clerk puts jobs, each a query with a reader of its own, and takes
//! answers; workers take the jobs and put the answers. The queues, their rules and their calls are
//! in `eb_desk`. This crate says what a job over a feed is, and how it is answered.
//!
//! Only `Desk::open` and `Job::new` take memory. The calls that take `rt` may wait, and their
//! promise holds if they return.
#![tactic(auto)]

mod desk;
mod job;

pub use desk::{Clerk, Desk, Worker};
pub use eb_desk::{answers_are_kept, jobs_are_known, jobs_are_taken_once, stop_all, work_all};
pub use job::{Answer, Job};
