//! The lines of an input are passed to a program, one after the other.
ghost use Rattle.std.specs.Prelude.{◌≡◌, ◌+◌, ◌<◌, ◌≤◌, List, [], ℕ, Option, MatchResult, OnOk, ⊤};
ghost use Rattle.eb_io.specs.Faults.{HasRisen};
ghost use Rattle.eb_io.specs.Held.{Held};
ghost use Rattle.eb_lines.specs.Passing.{IsAt, IsAtEnd, IsStopped, IsSomewhere, MayStop, Comes, Ends, upcoming_of};

use crate::gathered::{write_gathered, write_much};
use crate::program::LineProgram;
use crate::status::{MAX_INPUT, Status};
use eb_base::NoMemory;
use eb_io::{Lines, Next, Sink, SinkFailed, Source};
use std::alloc::Global;

// How a program ends out of memory: the buffer is written before.
fn give_up<P: LineProgram, K: Sink>(text: &mut Vec<u8>, out: &mut K) -> Status
    ensures ends { (a : P.Asked) (l0 l1 p0 : Option (List ℕ)) → MayStop (P.prints a) l0 l1 p0 (K.taken out.old) text.old.items
        → Ends (P.prints a) (P.ends_with a) (P.refuses a) (P.accepts a) result l0 l1 p0 (K.taken out.new) }
    ensures read { result ≡ Status.ReadFault → ⊥ }
    ensures write_fault { result ≡ Status.WriteFault → HasRisen (K.faults out.old) (K.faults out.new) }
    ensures later { K.faults out.old ≤ K.faults out.new }
{
    match write_gathered(text, out) {
        Ok(()) => Status::NoMemory,
        Err(SinkFailed) => Status::WriteFault,
    }
}

// Before the next line: where the source is read for it, nothing that may not wait is left, and the
// buffer is written.
fn settle<P: LineProgram, K: Sink>(
    program: &mut P,
    lines: &Lines,
    text: &mut Vec<u8>,
    out: &mut K,
) -> Result<(), Status>
    requires { (l1 : Option (List ℕ)) × IsSomewhere P.has_run l1 (K.taken out.old) lines.now program.old text.old.items }
    ensures next { (a : P.Asked) (l0 l1 p0 : Option (List ℕ)) → IsAt P.has_run a l0 l1 p0 (K.taken out.old) lines.now program.old text.old.items
        → MatchResult result (λ _. IsAt P.has_run a l0 l1 p0 (K.taken out.new) lines.now program.new text.new.items)
        (λ status. Ends (P.prints a) (P.ends_with a) (P.refuses a) (P.accepts a) status l0 l1 p0 (K.taken out.new)) }
    ensures number { OnOk result (P.number program.new ≡ P.number program.old) }
    ensures read { MatchResult result (λ _. ⊤) (λ status. status ≡ Status.ReadFault → ⊥) }
    ensures write_fault { MatchResult result (λ _. ⊤) (λ status. status ≡ Status.WriteFault → HasRisen (K.faults out.old) (K.faults out.new)) }
    ensures later { K.faults out.old ≤ K.faults out.new }
{
    if lines.has_line() {
        return Ok(());
    }
    let Ok(()) = program.settle(text) else {
        return Err(give_up::<P, K>(text, out));
    };
    match write_gathered(text, out) {
        Ok(()) => Ok(()),
        Err(SinkFailed) => Err(Status::WriteFault),
    }
}

// What comes next in an input.
#[derive(Clone, Copy, Debug, PartialEq, Eq)]
pub(crate) enum Upcoming {
    // A line, which was taken.
    Line,
    End,
    ReadFault,
    InputTooLong,
    // A line, for which there was no memory.
    NoMemory,
}

// A line came, and was taken or not.
fn say_taken(taken: Result<(), NoMemory>) -> Upcoming
    ensures { result ≡ upcoming_of taken }
{
    match taken {
        Ok(()) => Upcoming::Line,
        Err(NoMemory) => Upcoming::NoMemory,
    }
}

// Asks for the next line, and lets the program take it.
fn take_next<P: LineProgram, S: Source>(
    program: &mut P,
    lines: &mut Lines,
    source: &mut S,
    text: &mut Vec<u8>,
) -> Upcoming
    requires { (p1 : Option (List ℕ)) × IsSomewhere P.has_run (S.left source.old) p1 lines.old program.old text.old.items }
    ensures next { (a : P.Asked) (l0 p0 p1 : Option (List ℕ)) → IsAt P.has_run a l0 (S.left source.old) p0 p1 lines.old program.old text.old.items
        → Comes P.has_run P.prints result a l0 (S.left source.new) p0 p1 lines.new program.new text.new.items }
    ensures number { result ≡ Upcoming.Line → P.number program.new ≡ P.number program.old + 1 }
    ensures fault { result ≡ Upcoming.ReadFault → HasRisen (S.faults source.old) (S.faults source.new) }
    ensures later { S.faults source.old ≤ S.faults source.new }
{
    match lines.next_line(source) {
        Next::Line => say_taken(program.take_line(lines.line(), text)),
        Next::LongLine => say_taken(program.take_long(text)),
        Next::End => Upcoming::End,
        Next::ReadFault => Upcoming::ReadFault,
        Next::InputTooLong => Upcoming::InputTooLong,
    }
}

// How a program ends where reading does, by this status: all lines are processed before, and the
// buffer is written.
fn stop<P: LineProgram, K: Sink>(
    program: &mut P,
    text: &mut Vec<u8>,
    out: &mut K,
    status: Status,
) -> Status
    requires { (held : Held) × (l1 : Option (List ℕ)) × IsSomewhere P.has_run l1 (K.taken out.old) held program.old text.old.items }
    ensures ends { (a : P.Asked) (l0 l1 p0 : Option (List ℕ)) (held : Held)
        → IsStopped P.has_run status a l0 l1 p0 (K.taken out.old) held program.old text.old.items
        → Ends (P.prints a) (P.ends_with a) (P.refuses a) (P.accepts a) result l0 l1 p0 (K.taken out.new) }
    ensures read { (status ≡ Status.ReadFault → ⊥) → result ≡ Status.ReadFault → ⊥ }
    ensures write_fault { (status ≡ Status.WriteFault → ⊥) → result ≡ Status.WriteFault → HasRisen (K.faults out.old) (K.faults out.new) }
{
    let Ok(()) = program.settle_all(text) else {
        return give_up::<P, K>(text, out);
    };
    match write_gathered(text, out) {
        Ok(()) => status,
        Err(SinkFailed) => Status::WriteFault,
    }
}

// The status at the end of an input of which this many lines are refused.
fn status_of(refused: u64) -> Status
    ensures some { 0 < refused → result ≡ Status.Refused }
    ensures none { refused ≡ 0 → result ≡ Status.Done }
{
    if refused > 0 {
        Status::Refused
    } else {
        Status::Done
    }
}

// How a program ends where its input does: all lines are processed before, and the end is printed.
fn close<P: LineProgram, K: Sink>(program: &mut P, text: &mut Vec<u8>, out: &mut K) -> Status
    requires { (held : Held) × (l1 : Option (List ℕ)) × IsSomewhere P.has_run l1 (K.taken out.old) held program.old text.old.items }
    ensures ends { (a : P.Asked) (l0 l1 p0 : Option (List ℕ)) (held : Held) → IsAtEnd P.has_run a l0 l1 p0 (K.taken out.old) held program.old text.old.items
        → Ends (P.prints a) (P.ends_with a) (P.refuses a) (P.accepts a) result l0 l1 p0 (K.taken out.new) }
    ensures read { result ≡ Status.ReadFault → ⊥ }
    ensures write_fault { result ≡ Status.WriteFault → HasRisen (K.faults out.old) (K.faults out.new) }
{
    let Ok(()) = program.settle_all(text) else {
        return give_up::<P, K>(text, out);
    };
    let Ok(refused) = program.finish(text) else {
        return give_up::<P, K>(text, out);
    };
    let Ok(()) = write_gathered(text, out) else {
        return Status::WriteFault;
    };
    status_of(refused)
}

/// Passes the lines that the source gives to the program, and writes on `out` what it prints: in
/// one write before the source is read again, or once 64 KiB are buffered. `text` is what the
/// program printed before its first line. Returns how the input ended, and whether a line of it is
/// refused.
pub fn pass_lines<P: LineProgram, S: Source, K: Sink>(
    alloc: Global,
    program: &mut P,
    text: Vec<u8>,
    source: &mut S,
    out: &mut K,
) -> Status
    requires { (a : P.Asked) × P.has_run program.old a [] text.items }
    ensures ends { (a : P.Asked) → P.has_run program.old a [] text.items
        → Ends (P.prints a) (P.ends_with a) (P.refuses a) (P.accepts a) result (S.left source.old) (S.left source.new) (K.taken out.old) (K.taken out.new) }
    ensures read_fault { result ≡ Status.ReadFault → HasRisen (S.faults source.old) (S.faults source.new) }
    ensures write_fault { result ≡ Status.WriteFault → HasRisen (K.faults out.old) (K.faults out.new) }
{
    let Ok(mut lines) = Lines::new(alloc, MAX_INPUT) else {
        return Status::NoMemory;
    };
    let mut text = text;
    'lines: loop {
        if let Err(status) = settle(program, &lines, &mut text, out) {
            return status;
        }
        match take_next(program, &mut lines, source, &mut text) {
            Upcoming::Line => {}
            Upcoming::End => return close(program, &mut text, out),
            Upcoming::ReadFault => return stop(program, &mut text, out, Status::ReadFault),
            Upcoming::InputTooLong => return stop(program, &mut text, out, Status::InputTooLong),
            Upcoming::NoMemory => return give_up::<P, K>(&mut text, out),
        }
        let Ok(()) = write_much(&mut text, out) else {
            return Status::WriteFault;
        };
    }
}
