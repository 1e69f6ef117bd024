ghost use Rattle.eb_desk.specs.Rule.{asked_pair, IsAsked, IsGiven};
ghost use Rattle.eb_desk.specs.Laws.{JobsAreTakenOnce, JobsAreKnown, AnswersAreKept};

use crate::job::Job;

/// A law of the rule of the jobs: no number occurs twice among the queue and what the clerk and the
/// workers took of it, so each job is taken at most once. Does nothing.
pub fn jobs_are_taken_once<J: Job>()
    ensures { JobsAreTakenOnce (asked_pair {A = J.Answer} J.pair) (IsAsked {A = J.Answer} J.pair J.made) }
{}

/// A law of the rule of the jobs: each pair in the queue, and each that was taken of it, is one
/// that the clerk put, and occurs at most as often. Does nothing.
pub fn jobs_are_known<J: Job>()
    ensures { JobsAreKnown (asked_pair {A = J.Answer} J.pair) (IsAsked {A = J.Answer} J.pair J.made) }
{}

/// A law of the rule of the answers: each pair occurs in the queue and in what the clerk took of it
/// together as often as in what the workers put. Does nothing.
pub fn answers_are_kept<J: Job>()
    ensures { AnswersAreKept J.answer_pair (IsGiven J.answer_made) }
{}
