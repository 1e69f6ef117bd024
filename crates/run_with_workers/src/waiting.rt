//! A line that waits until it is its turn to be printed.
ghost use Rattle.std.specs.Prelude.{◌≡◌, ◌+◌, ◌<◌, ◌≤◌, ◌++◌, ◌∷◌, [], ◌↔◌, IsTrue, length, vec_len, vec_capacity, set};
ghost use Rattle.eb_query.specs.Head.{most_buckets};
ghost use Rattle.std.specs.VecDeque.{deque_len, deque_capacity};

use eb_count::Tally;
use eb_cursor::Frame;
use eb_lines::{Form, Refusal, line_room, put_answer, put_count, put_refusal};
use std::collections::VecDeque;

// What a line that was taken waits for, or what it prints.
#[derive(Drop)]
pub(crate) enum Waiting {
    // It prints nothing.
    Nothing,
    // It is refused.
    Refused(Refusal),
    // A query that the office was asked, under the number of its line, and that isn't answered yet: before its line this many
    // documents were accepted.
    Asked { told: u64 },
    // An answer, over the first documents, this many.
    Answered { seen: u64, frame: Frame },
    // Counts.
    Counted(Counted),
}

// Counts over the first documents, this many.
#[derive(Drop)]
pub(crate) struct Counted {
    pub(crate) seen: u64,
    pub(crate) tally: Tally,
    ghost few: { length tally.buckets ≤ most_buckets },
}

impl Counted {
    pub(crate) fn new(seen: u64, tally: Tally) -> Counted
        requires { length tally.buckets ≤ most_buckets }
        ensures seen { result.seen ≡ seen }
        ensures tally { result.tally ≡ tally }
    {
        Counted { seen, tally }
    }
}

impl Waiting {
    ghost use Rattle.run_with_workers.specs.Waiting.{IsReady, Awaits, printed_by, need_of};

    // Whether it is known what it prints.
    pub(crate) fn is_ready(&self) -> bool
        ensures { IsTrue result ↔ IsReady self.now }
    {
        match self {
            Waiting::Nothing => true,
            Waiting::Refused(_) => true,
            Waiting::Asked { .. } => false,
            Waiting::Answered { .. } => true,
            Waiting::Counted(_) => true,
        }
    }

    // Whether it is a query without an answer, and one over this many documents is over all that were accepted before its line.
    pub(crate) fn awaits(&self, seen: u64) -> bool
        ensures { IsTrue result ↔ Awaits self.now seen }
    {
        match self {
            Waiting::Nothing => false,
            Waiting::Refused(_) => false,
            Waiting::Asked { told } => *told <= seen,
            Waiting::Answered { .. } => false,
            Waiting::Counted(_) => false,
        }
    }

    // How many bytes it prints at most.
    pub(crate) fn need(&self) -> usize
        ensures { result ≡ need_of self.now }
    {
        match self {
            Waiting::Nothing => 0,
            Waiting::Refused(_) => line_room(0),
            Waiting::Asked { .. } => 0,
            Waiting::Answered { seen: _, frame } => line_room(frame.k() as usize),
            Waiting::Counted(counted) => line_room(1 + counted.tally.buckets().len()),
        }
    }

    // Puts what it prints after the text, which has room for it. Takes no memory.
    pub(crate) fn print(self, form: Form, number: u64, text: &mut Vec<u8>)
        requires { vec_len text.old + need_of self ≤ vec_capacity text.old }
        ensures { text.new.items ≡ text.old.items ++ printed_by form number self }
    {
        match self {
            Waiting::Nothing => {}
            Waiting::Refused(refusal) => put_refusal(text, form, number, refusal),
            Waiting::Asked { .. } => {}
            Waiting::Answered { seen, frame } => put_answer(text, form, number, seen, frame.ids()),
            Waiting::Counted(counted) => {
                let Counted { seen, tally } = counted;
                put_count(text, form, number, seen, tally.total(), tally.buckets());
            }
        }
    }
}

// Puts a line in the place of another.
pub(crate) fn replace(lines: &mut VecDeque<Waiting>, at: usize, line: Waiting)
    requires { at < deque_len lines.old }
    ensures { lines.new.items ≡ set lines.old.items at line }
{
    lines[at] = line;
}

// Puts a line after those that wait, which have room for it.
pub(crate) fn push(lines: &mut VecDeque<Waiting>, line: Waiting)
    requires { deque_len lines.old + 1 ≤ deque_capacity lines.old }
    ensures { lines.new.items ≡ lines.old.items ++ line ∷ [] }
{
    lines.push_back(line).unwrap();
}
