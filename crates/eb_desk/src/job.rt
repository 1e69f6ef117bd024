//! What a desk passes on.
ghost use Rattle.std.specs.Prelude.{◌≡◌, ℕ, List};
ghost use Rattle.eb_desk.specs.declared.rule.Pair.{Pair};

use eb_base::Gate;

/// A value that waits at a desk for its answer.
pub trait Job: Sized + Drop {
    /// What becomes of a job.
    type Answer: Drop;
    /// What a desk is opened for, as an index.
    type Place;
    /// What answering reads besides a job.
    type With;

    ghost pair: { Self → Pair };

    ghost answer_pair: { Self.Answer → Pair };

    ghost made: { List ℕ → Self → Type 0 };

    ghost answer_made: { List ℕ → Self.Answer → Type 0 };

    ghost key: { Self.Place → List ℕ };

    ghost serves: { Self.With → List ℕ → Type 0 };

    /// The job's answer.
    fn answered<G: Gate>(self, with: &Self::With, gate: &G) -> Self::Answer
        requires { (home : List ℕ) × serves with.now home × made home self }
        ensures made { (home : List ℕ) → serves with.now home → made home self → answer_made home result }
        ensures pair { answer_pair result ≡ pair self };
}

/// What is in the queue of jobs.
#[derive(Drop)]
pub enum Task<J> {
    /// A job.
    Job(J),
    /// One worker is to stop.
    Stop,
}
