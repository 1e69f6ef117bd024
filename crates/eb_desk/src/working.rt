ghost use Rattle.std.specs.Prelude.{◌≡◌, ℕ, ◌<◌, length, All, slice_index_or};
ghost use Rattle.eb_desk.specs.Desk.{HasWorked, with_stops};

use crate::clerk::Clerk;
use crate::desk::Desk;
use crate::job::Job;
use crate::worker::Worker;
use eb_base::Gate;
use std::sync::Wait;
use std::thread;
use std::thread::Threads;

/// All workers work at once, each on a thread of its own as far as threads can be started, until
/// each took one stop ([`Worker::work`]). They must be of this desk. Pass this call to `join_mut`
/// first and the clerk's part second: the first runs on a thread of its own, or after the second
/// where none can be started, and then the clerk answers its jobs itself.
pub fn work_all<J: Job + Send, R: Threads + Wait + Sync, G: Gate + Sync>(
    rt: &R,
    desk: &Desk<J>,
    with: &J::With,
    gate: &G,
    workers: &mut [Worker<J>],
)
where
    J::Answer: Send,
    J::With: Sync,
    requires { All (λ w. (w.queues ≡ desk.now.queues) × J.serves with.now w.home) workers.old }
    ensures { (i : ℕ) (d : _) → i < length workers.old
        → (count : ℕ) × HasWorked (slice_index_or workers.old i d) (slice_index_or workers.new i d) count }
{
    if workers.is_empty() {
        return;
    }
    let threads = workers.len();
    thread::for_each_mut(
        rt,
        workers,
        threads,
        &|_place: usize, worker: &mut Worker<J>|
            requires { (worker.now.queues ≡ desk.now.queues) × J.serves with.now worker.now.home }
            ensures { (count : ℕ) × HasWorked worker.entry.now worker.exit.now count }
        {
            worker.work(rt, desk, with, gate);
        },
    );
}

/// Puts a stop for each of `workers` workers. The clerk's part ends with it, after a fault too.
/// Takes no memory.
pub fn stop_all<J: Job, R: Wait>(rt: &R, desk: &Desk<J>, clerk: &mut Clerk<J>, workers: u32)
    requires { clerk.old.queues ≡ desk.now.queues }
    ensures { clerk.new ≡ with_stops clerk.old workers }
{
    for _ in 0..workers {
        clerk.stop(rt, desk);
    }
}
