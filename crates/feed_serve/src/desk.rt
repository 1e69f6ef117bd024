use crate::job::Job;

/// The queues of a feed's jobs and stops, and of its answers. Threads share it by reference.
pub type Desk = eb_desk::Desk<Job>;
/// Puts jobs and stops at a desk, and takes answers.
pub type Clerk = eb_desk::Clerk<Job>;
/// Takes jobs from a desk, and puts their answers there.
pub type Worker = eb_desk::Worker<Job>;
