//! The calls of the two queues, each once.
ghost use Rattle.std.specs.Prelude.{◌≡◌, true, false, [], MatchOption};
ghost use Rattle.crossbeam_queue.specs.Passes.{view, IsPassOf, IsSamePass};
ghost use Rattle.eb_desk.specs.Homes.{Home, home_at, numbers_of};
ghost use Rattle.eb_desk.specs.Rule.{idle, hand_of, asked_pair, worker_hand, IsPermit, IsAsked, IsGiven};
ghost use Rattle.eb_desk.specs.Steps.{opened, IsFirstPass, put_in, after_answer, MayPutTask, MayPutAnswer};
ghost use Rattle.eb_desk.specs.Steps.{Moves, taken_out, pair_out, IsTaken, IsTakenOne, IsTakenAnswer, KnowsHome, MayTakeJob, TakesAnswers};
ghost use Rattle.eb_desk.specs.Steps.{permitting, informed, KnowsOwn};
ghost use Rattle.eb_desk.specs.declared.rule.Hand.{Hand};
ghost use Rattle.eb_desk.specs.declared.rule.View.TheVariants.{At};

use crate::job::{Job, Task};
use crate::rule::{
    AnswerQueue, AskedOf, DeskView, Granted, Informs, JobQueue, KnowsPermits, Named, Permit,
    Permits, PutAnswer, PutTask, Putters, Takers, TookAnswer, TookTask,
};
use crossbeam_queue::Pass;
use std::sync::Wait;
use std::thread;

// Puts a task, and tries again while the queue is full.
pub(crate) fn put_task<J: Job, R: Wait>(
    rt: &R,
    queue: &JobQueue<J>,
    pass: &mut Pass<Task<AskedOf<J>>, DeskView>,
    task: Task<AskedOf<J>>,
)
    requires pass { IsPassOf queue.now pass.old }
    requires rule { MayPutTask (asked_pair J.pair) (IsAsked J.pair J.made) (view pass.old) task }
    ensures pass { IsSamePass pass.old pass.new }
    ensures moved { Moves (view pass.old) (λ h. put_in (asked_pair J.pair) h task) (view pass.new) }
{
    let mut task = task;
    for _ in rt.forever() {
        match queue.try_push_as::<PutTask<J>>(pass, task) {
            Ok(()) => return,
            Err(back) => {
                task = back;
                thread::yield_now();
            }
        }
    }
    unreachable!()
}

// Puts an answer, and tries again while the queue is full.
pub(crate) fn put_answer<J: Job, R: Wait>(
    rt: &R,
    queue: &AnswerQueue<J>,
    pass: &mut Pass<J::Answer, DeskView>,
    answer: J::Answer,
)
    requires pass { IsPassOf queue.now pass.old }
    requires rule { MayPutAnswer J.answer_pair (IsGiven J.answer_made) (view pass.old) answer }
    ensures pass { IsSamePass pass.old pass.new }
    ensures moved { Moves (view pass.old) (λ h. after_answer h (J.answer_pair answer)) (view pass.new) }
{
    let mut answer = answer;
    for _ in rt.forever() {
        match queue.try_push_as::<PutAnswer<J>>(pass, answer) {
            Ok(()) => return,
            Err(back) => {
                answer = back;
                thread::yield_now();
            }
        }
    }
    unreachable!()
}

// Takes a task, where there is one.
pub(crate) fn take_task<J: Job>(
    queue: &JobQueue<J>,
    pass: &mut Pass<Task<AskedOf<J>>, DeskView>,
) -> Option<Task<AskedOf<J>>>
    requires pass { IsPassOf queue.now pass.old }
    requires rule { KnowsHome (view pass.old) }
    ensures pass { IsSamePass pass.old pass.new }
    ensures moved { MatchOption result (view pass.new ≡ view pass.old)
        (λ x. Moves (view pass.old) (λ h. taken_out (asked_pair J.pair) h x) (view pass.new) × IsTaken (IsAsked J.pair J.made) (view pass.old) x) }
{
    queue.try_pop_as::<TookTask<J>>(pass)
}

// Takes a task. None only if the queue was empty at one moment of the call.
pub(crate) fn sure_task<J: Job, R: Wait>(
    rt: &R,
    queue: &JobQueue<J>,
    pass: &mut Pass<Task<AskedOf<J>>, DeskView>,
) -> Option<Task<AskedOf<J>>>
    requires pass { IsPassOf queue.now pass.old }
    requires rule { KnowsHome (view pass.old) }
    ensures pass { IsSamePass pass.old pass.new }
    ensures moved { MatchOption result (view pass.new ≡ view pass.old)
        (λ x. Moves (view pass.old) (λ h. taken_out (asked_pair J.pair) h x) (view pass.new) × IsTaken (IsAsked J.pair J.made) (view pass.old) x) }
{
    queue.pop_as::<TookTask<J>, R>(rt, pass)
}

// Takes an answer. None only if the queue was empty at one moment of the call.
pub(crate) fn sure_answer<J: Job, R: Wait>(
    rt: &R,
    queue: &AnswerQueue<J>,
    pass: &mut Pass<J::Answer, DeskView>,
) -> Option<J::Answer>
    requires pass { IsPassOf queue.now pass.old }
    requires rule { TakesAnswers (view pass.old) }
    ensures pass { IsSamePass pass.old pass.new }
    ensures moved { MatchOption result (view pass.new ≡ view pass.old)
        (λ x. Moves (view pass.old) (λ h. pair_out h (J.answer_pair x)) (view pass.new)
        × IsTakenAnswer J.answer_pair (IsGiven J.answer_made) (view pass.old) x) }
{
    queue.pop_as::<TookAnswer<J>, R>(rt, pass)
}

// Takes a job, where there is one and no stop was put.
pub(crate) fn take_job<J: Job>(
    queue: &JobQueue<J>,
    pass: &mut Pass<Task<AskedOf<J>>, DeskView>,
) -> Option<AskedOf<J>>
    requires pass { IsPassOf queue.now pass.old }
    requires rule { MayTakeJob (view pass.old) }
    ensures pass { IsSamePass pass.old pass.new }
    ensures moved { MatchOption result (view pass.new ≡ view pass.old)
        (λ j. Moves (view pass.old) (λ h. pair_out h (asked_pair J.pair j)) (view pass.new) × IsTakenOne (IsAsked J.pair J.made) (view pass.old) j) }
{
    match take_task(queue, pass) {
        Some(Task::Job(job)) => Some(job),
        Some(Task::Stop) => unreachable!(),
        None => None,
    }
}

// Takes an answer, where there is one.
pub(crate) fn take_answer<J: Job>(
    queue: &AnswerQueue<J>,
    pass: &mut Pass<J::Answer, DeskView>,
) -> Option<J::Answer>
    requires pass { IsPassOf queue.now pass.old }
    requires rule { TakesAnswers (view pass.old) }
    ensures pass { IsSamePass pass.old pass.new }
    ensures moved { MatchOption result (view pass.new ≡ view pass.old)
        (λ x. Moves (view pass.old) (λ h. pair_out h (J.answer_pair x)) (view pass.new)
        × IsTakenAnswer J.answer_pair (IsGiven J.answer_made) (view pass.old) x) }
{
    queue.try_pop_as::<TookAnswer<J>>(pass)
}

// A new pass for a worker at the queue of jobs.
pub(crate) fn cut_taker<J: Job, N: Named>(
    queue: &JobQueue<J>,
    pass: &mut Pass<Task<AskedOf<J>>, DeskView>,
    place: &J::Place,
    answers: &AnswerQueue<J>,
) -> Pass<Task<AskedOf<J>>, DeskView>
    requires named { N.home ≡ home_at (J.key place.now) answers.now.table.shared.table_id }
    requires pass { IsPassOf queue.now pass.old }
    requires rule { IsFirstPass N.home (view pass.old) }
    ensures pass { IsSamePass pass.old pass.new × IsPassOf queue.now result }
    ensures old { view pass.new ≡ At N.home (opened true (view pass.old)) }
    ensures new { view result ≡ At N.home (idle false) }
{
    let _ = place;
    let _ = answers;
    queue.another::<Takers<N>>(pass)
}

// A new pass for a worker at the queue of answers.
pub(crate) fn cut_putter<J: Job, N: Named>(
    queue: &AnswerQueue<J>,
    pass: &mut Pass<J::Answer, DeskView>,
    place: &J::Place,
) -> Pass<J::Answer, DeskView>
    requires named { N.home ≡ home_at (J.key place.now) queue.now.table.shared.table_id }
    requires pass { IsPassOf queue.now pass.old }
    requires rule { IsFirstPass N.home (view pass.old) }
    ensures pass { IsSamePass pass.old pass.new × IsPassOf queue.now result }
    ensures old { view pass.new ≡ At N.home (opened false (view pass.old)) }
    ensures new { view result ≡ At N.home (idle true) }
{
    let _ = place;
    queue.another::<Putters<N>>(pass)
}

// A permit for the answer to this job, from the clerk's pass at the queue of answers.
pub(crate) fn cut_permit<J: Job, N: Granted>(
    queue: &AnswerQueue<J>,
    pass: &mut Pass<J::Answer, DeskView>,
    job: &J,
) -> Permit<J::Answer>
    requires granted { N.pair ≡ J.pair job.now }
    requires pass { IsPassOf queue.now pass.old }
    requires rule { TakesAnswers (view pass.old) }
    ensures pass { IsSamePass pass.old pass.new }
    ensures moved { Moves (view pass.old) (λ h. permitting h (J.pair job.now)) (view pass.new) }
    ensures permit { (home : Home) (h : Hand) → view pass.old ≡ At home h → home.1 ≡ numbers_of pass.old.table_id
        → IsPermit home (J.pair job.now) result }
{
    let _ = job;
    queue.another::<Permits<N>>(pass)
}

// A permit comes to a pass at the queue of answers, which knows what it permits from then on.
pub(crate) fn take_permit<J: Job, N: Named>(
    queue: &AnswerQueue<J>,
    pass: &mut Pass<J::Answer, DeskView>,
    permit: Permit<J::Answer>,
)
    requires pass { IsPassOf queue.now pass.old × IsPassOf queue.now permit }
    requires home { (h : Hand) × (view pass.old ≡ At N.home h) }
    requires permit { view permit ≡ At N.home (worker_hand [] (hand_of (view permit)).known) }
    ensures pass { IsSamePass pass.old pass.new }
    ensures moved { Moves (view pass.old) (λ h. informed h (hand_of (view permit)).known) (view pass.new) }
{
    queue.absorb::<Informs<N>>(pass, permit);
}

// The clerk's pass finds that what it knows to be permitted it has permitted.
pub(crate) fn learn_permits<J: Job>(queue: &AnswerQueue<J>, pass: &mut Pass<J::Answer, DeskView>)
    requires pass { IsPassOf queue.now pass.old }
    requires rule { KnowsHome (view pass.old) }
    ensures pass { IsSamePass pass.old pass.new × (view pass.new ≡ view pass.old) }
    ensures known { KnowsOwn (view pass.old) }
{
    queue.learn_as::<KnowsPermits>(pass);
}
