//! The rules of the two queues, and what each kind of step shows: opening, split and join of
//! passes, put and take. No value of `Pair`, `Hand` and `View` is ever made; contracts speak of them.
ghost use Rattle.eb_desk.specs.Homes.{Home};
ghost use Rattle.eb_desk.specs.declared.rule.Pair.{Pair};

use crate::job::{Job, Task};
use crossbeam_queue::protocol::{Join, Lesson, Outcome, Protocol, Split};
use crossbeam_queue::{Pass, RuledArrayQueue};
use std::collections::LinkedList;
use std::marker::{Brand, PhantomData};

/// The number of a job or an answer, how many documents it is at least over, and what it asks, by
/// numbers.
pub struct Pair {
    /// The number.
    pub number: u64,
    /// How many documents it is at least over.
    pub told: u64,
    /// What it asks.
    pub asks: LinkedList<u64>,
}

/// What a pass has put and taken.
pub struct Hand {
    /// Whether it may put: at the queue of jobs the clerk's pass, at that of answers the workers'
    /// passes.
    pub puts: bool,
    /// The pairs that it put, in order.
    pub put: LinkedList<Pair>,
    /// How many stops it put.
    pub stops_put: u64,
    /// The pairs that it took, in order.
    pub taken: LinkedList<Pair>,
    /// How many stops it took.
    pub stops_taken: u64,
    /// The pairs that it has permitted to be put as answers, in order: those of the clerk's jobs.
    pub permitted: LinkedList<Pair>,
    /// Pairs that it knows to be permitted.
    pub known: LinkedList<Pair>,
}

/// What a pass knows: nothing yet; or the home of all jobs and answers, and what it has put and
/// taken.
pub enum View<D> {
    /// The queue has one pass, which knows nothing yet.
    Opening,
    /// The home, and what the pass has put and taken.
    At(D, Hand),
}

/// The numbers by which contracts know the home of all jobs and answers of a desk.
pub type Key = LinkedList<u64>;

/// The home of a desk, and the table of its queue of answers, by numbers.
pub type Home = (Key, Key);

/// What a pass of a desk knows.
pub type DeskView = View<Home>;

/// Permits the answer to one job to be put. It has no bytes, and goes with the job.
pub type Permit<A> = Pass<A, DeskView>;

/// A job, with the permit to put its answer.
#[derive(Drop)]
pub struct Asked<J, A> {
    /// The job.
    pub job: J,
    /// The permit to put its answer.
    pub permit: Permit<A>,
}

/// The job of a desk, with the permit to put its answer.
pub type AskedOf<J> = Asked<J, <J as Job>::Answer>;

// The home of all jobs and answers.
pub(crate) trait Named {
    ghost home: { Home };
}

// `Brand` serves for any home: the split that gets it says which.
impl Named for Brand {
    ghost use Rattle.std.specs.Prelude.{[]};

    ghost home = { ([], []) };
}

// The pair of a job that is asked.
pub(crate) trait Granted {
    ghost pair: { Pair };
}

// `Brand` serves for any pair: the split that gets it says which.
impl Granted for Brand {
    ghost use Rattle.std.specs.Prelude.{[]};

    ghost pair = { record { number = 0; told = 0; asks = [] } };
}

/// The rule of the queue of jobs.
pub struct Jobs<J> {
    job: PhantomData<J>,
}

impl<J: Job> Protocol<Task<AskedOf<J>>, DeskView> for Jobs<J> {
    ghost use Rattle.eb_desk.specs.Rule.{asked_pair, IsAsked, KeepsJobs};
    ghost use Rattle.eb_desk.specs.declared.rule.View.TheVariants.{Opening};

    ghost holds = { KeepsJobs (asked_pair J.pair) (IsAsked J.pair J.made) };

    ghost first = { Opening };
}

/// The rule of the queue of answers.
pub struct Answers<J> {
    job: PhantomData<J>,
}

impl<J: Job> Protocol<J::Answer, DeskView> for Answers<J> {
    ghost use Rattle.eb_desk.specs.Rule.{IsGiven, KeepsAnswers};
    ghost use Rattle.eb_desk.specs.declared.rule.View.TheVariants.{Opening};

    ghost holds = { KeepsAnswers J.answer_pair (IsGiven J.answer_made) };

    ghost first = { Opening };
}

/// A new pass for a worker at the queue of jobs.
pub(crate) struct Takers<N>(N);

impl<N: Named> Split<DeskView> for Takers<N> {
    ghost use Rattle.std.specs.Prelude.{true, false};
    ghost use Rattle.eb_desk.specs.Rule.{idle};
    ghost use Rattle.eb_desk.specs.Steps.{opened};
    ghost use Rattle.eb_desk.specs.declared.rule.View.TheVariants.{At};

    ghost left = { λ v. At N.home (opened true v) };

    ghost right = { λ v. At N.home (idle false) };
}

/// A new pass for a worker at the queue of answers.
pub(crate) struct Putters<N>(N);

impl<N: Named> Split<DeskView> for Putters<N> {
    ghost use Rattle.std.specs.Prelude.{true, false};
    ghost use Rattle.eb_desk.specs.Rule.{idle};
    ghost use Rattle.eb_desk.specs.Steps.{opened};
    ghost use Rattle.eb_desk.specs.declared.rule.View.TheVariants.{At};

    ghost left = { λ v. At N.home (opened false v) };

    ghost right = { λ v. At N.home (idle true) };
}

// A permit for the answer to a job.
pub(crate) struct Permits<N>(N);

impl<N: Granted> Split<DeskView> for Permits<N> {
    ghost use Rattle.std.specs.Prelude.{[], ◌∷◌};
    ghost use Rattle.eb_desk.specs.Desk.{nowhere};
    ghost use Rattle.eb_desk.specs.Rule.{hand_of, worker_hand};
    ghost use Rattle.eb_desk.specs.Steps.{home_of_view, permitting};
    ghost use Rattle.eb_desk.specs.declared.rule.View.TheVariants.{At};

    ghost left = { λ v. At (home_of_view nowhere v) (permitting (hand_of v) N.pair) };

    ghost right = { λ v. At (home_of_view nowhere v) (worker_hand [] (N.pair ∷ [])) };
}

// A permit comes to the pass that puts the answer, or to the clerk's.
pub(crate) struct Informs<N>(N);

impl<N: Named> Join<DeskView> for Informs<N> {
    ghost use Rattle.std.specs.Prelude.{true};
    ghost use Rattle.eb_desk.specs.Rule.{hand_of, idle};
    ghost use Rattle.eb_desk.specs.Steps.{informed};
    ghost use Rattle.eb_desk.specs.declared.rule.View.TheVariants.{At};

    ghost both = { λ v w. At N.home (informed (hand_of v) (hand_of w).known) };

    ghost spent = { At N.home (idle true) };
}

/// A task was put.
pub struct PutTask<J> {
    job: PhantomData<J>,
}

impl<J: Job> Outcome<Task<AskedOf<J>>, DeskView> for PutTask<J> {
    ghost use Rattle.eb_desk.specs.Rule.{asked_pair};
    ghost use Rattle.eb_desk.specs.Steps.{put_in, Moves};

    ghost then = { λ v x w. Moves v (λ h. put_in (asked_pair J.pair) h x) w };
}

/// A task was taken.
pub struct TookTask<J> {
    job: PhantomData<J>,
}

impl<J: Job> Outcome<Task<AskedOf<J>>, DeskView> for TookTask<J> {
    ghost use Rattle.eb_desk.specs.Rule.{asked_pair, IsAsked};
    ghost use Rattle.eb_desk.specs.Steps.{taken_out, Moves, IsTaken};

    ghost then = { λ v x w. Moves v (λ h. taken_out (asked_pair J.pair) h x) w × IsTaken (IsAsked J.pair J.made) v x };
}

impl<J: Job> Lesson<Task<AskedOf<J>>, DeskView> for TookTask<J> {
    ghost use Rattle.std.specs.Prelude.{⊤};

    ghost fact = { λ v items. ⊤ };
}

/// An answer was put.
pub struct PutAnswer<J> {
    job: PhantomData<J>,
}

impl<J: Job> Outcome<J::Answer, DeskView> for PutAnswer<J> {
    ghost use Rattle.eb_desk.specs.Steps.{after_answer, Moves};

    ghost then = { λ v x w. Moves v (λ h. after_answer h (J.answer_pair x)) w };
}

/// An answer was taken.
pub struct TookAnswer<J> {
    job: PhantomData<J>,
}

impl<J: Job> Outcome<J::Answer, DeskView> for TookAnswer<J> {
    ghost use Rattle.eb_desk.specs.Rule.{IsGiven};
    ghost use Rattle.eb_desk.specs.Steps.{pair_out, Moves, IsTakenAnswer};

    ghost then = { λ v x w. Moves v (λ h. pair_out h (J.answer_pair x)) w × IsTakenAnswer J.answer_pair (IsGiven J.answer_made) v x };
}

impl<J: Job> Lesson<J::Answer, DeskView> for TookAnswer<J> {
    ghost use Rattle.std.specs.Prelude.{⊤};

    ghost fact = { λ v items. ⊤ };
}

// What the clerk's pass knows to be permitted.
pub(crate) struct KnowsPermits;

impl<T> Lesson<T, DeskView> for KnowsPermits {
    ghost use Rattle.eb_desk.specs.Steps.{KnowsOwn};

    ghost fact = { λ v items. KnowsOwn v };
}

/// The queue of jobs and stops.
pub type JobQueue<J> = RuledArrayQueue<Task<AskedOf<J>>, DeskView, Jobs<J>>;

/// The queue of answers.
pub type AnswerQueue<J> = RuledArrayQueue<<J as Job>::Answer, DeskView, Answers<J>>;
