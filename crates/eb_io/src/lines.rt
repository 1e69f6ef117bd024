//! Lines of what a source gives, read in large pieces.
//!
//! A read takes up to 1 MiB, so lines that wait come together. With reads of 64 KiB, a run over a
//! file was cut into rounds of some 600 lines, each of which started its threads anew: four parts
//! with `--overlap` and a query after each 1,000 messages took 0.42 s, and take 0.35. A pipe gives
//! 64 KiB at once unless somebody makes it larger. An answer waits at most for the lines of its
//! piece, some 40 ms. Rejected: another size for each way to run, which is one more parameter of
//! each call.
//!
//! The next LF is sought once: its place is kept when a LF is passed or a piece is read. To ask
//! first whether a whole line is held, and then where it ends, sought it twice.
ghost use Rattle.std.specs.Prelude.{◌≡◌, ◌≢◌, ℕ, ◌+◌, ◌-◌, ◌<◌, ◌≤◌, ◌↔◌, ◌⊎◌, true, false, List, []};
ghost use Rattle.std.specs.Prelude.{◌++◌, length, take, drop, vec_capacity, IfOk, IsTrue, MatchOption, option_map, ⊤};
ghost use Rattle.std.specs.List.{Contains};
ghost use Rattle.eb_io.specs.Faults.{HasRisen};
ghost use Rattle.eb_io.specs.Source.{after, got, IsCount, IsEmpty};
ghost use Rattle.eb_io.specs.Lines.{Line, without_cr, line_from, IsUncut, IsEnd};

use crate::source::{Got, Source};
use eb_base::NoMemory;
use memchr::memchr;
use std::alloc::Global;
use std::marker::Model;
use std::mem;

/// The most bytes of a line, its LF not counted. A line of more is a long line, whose bytes aren't
/// kept (this project's profile, docs/FORMATS.md).
pub const LONGEST_LINE: usize = 65_536;

// The most bytes of a read: what waits is read at once, so lines that may be processed together
// come together.
const PIECE: usize = 1 << 20;

const LF: u8 = 10;

const CR: u8 = 13;

/// What a call for the next line answers.
#[derive(Clone, Copy, Debug, PartialEq, Eq)]
pub enum Next {
    /// A line of at most [`LONGEST_LINE`] bytes, which [`Lines::line`] gives.
    Line,
    /// A line of more bytes, which was skipped up to its LF, or to the end.
    LongLine,
    /// All lines were given, and the source ended, in this call or an earlier one, before as many
    /// bytes were taken as may be.
    End,
    /// The source failed, and no whole line is held. What was taken of the next line is kept, or
    /// the fact that it is a long one; the next call goes on with the rest of it.
    ReadFault,
    /// As many bytes were taken as may be, the source didn't end, and no whole line is held. Later
    /// calls answer the same, and leave the source alone.
    InputTooLong,
}

/// Cuts what a source gives into lines (this project's profile, docs/FORMATS.md): a line is the
/// bytes up to a LF, or up to the end where there is at least one, without one CR at its end.
///
/// It takes all its memory when it is made.
#[derive(Drop)]
pub struct Lines {
    // what was read last, of which the bytes from `from` to `to` are still to be cut, and the place
    // of the first LF among these
    piece: Vec<u8>,
    from: usize,
    to: usize,
    end: Option<usize>,
    // what was taken of the line that comes next; nothing where it is known to be long
    part: Vec<u8>,
    is_long: bool,
    // the line that was given last
    given: Vec<u8>,
    is_ended: bool,
    taken: u64,
    limit: u64,
}

impl Model for Lines {
    ghost use Rattle.std.specs.Prelude.{slice_range};
    ghost use Rattle.eb_io.specs.Held.{Held};

    ghost Value = { Held };

    ghost view = { λ l. record {
      part = record { is_long = l.is_long; bytes = l.part.items };
      rest = slice_range l.piece.items l.from l.to;
      line = l.given.items;
      is_ended = l.is_ended;
      taken = l.taken;
      limit = l.limit;
    } };

    ghost use Rattle.eb_io.specs.Buffers.{HasRoomForLines};

    ghost invariant = { HasRoomForLines };
}

// The place of the first LF.
fn find_end(bytes: &[u8]) -> Option<usize>
    ensures { IsEnd bytes.now result }
{
    memchr(LF, bytes)
}

// A place in what is left when this many bytes before it are removed.
fn place_behind(place: Option<usize>, count: usize) -> Option<usize>
    requires { MatchOption place ⊤ (λ at. count ≤ at) }
    ensures { result ≡ option_map (λ at. at - count) place }
{
    match place {
        None => None,
        Some(at) => Some(at - count),
    }
}

// Reads into the start of a piece.
fn read_piece<S: Source>(source: &mut S, piece: &mut [u8], room: usize) -> Got
    requires some { 0 < room }
    requires fits { room ≤ length piece.old }
    ensures count { IsCount room result }
    ensures len { length piece.new ≡ length piece.old }
    ensures left { S.left source.old ≡ after (got result piece.new) (S.left source.new) }
    ensures end { result ≡ Got.End → IsEmpty (S.left source.old) }
    ensures later { S.faults source.old ≤ S.faults source.new }
    ensures failed { result ≡ Got.Failed → HasRisen (S.faults source.old) (S.faults source.new) }
{
    source.read(&mut piece[..room])
}

// Removes one CR at the end.
fn drop_cr(line: &mut Vec<u8>)
    ensures bytes { line.new.items ≡ without_cr line.old.items }
    ensures fits { length line.new.items ≤ length line.old.items }
    ensures room { vec_capacity line.old ≤ vec_capacity line.new }
{
    let len = line.len();
    if len > 0 && line[len - 1] == CR {
        line.truncate(len - 1);
    }
}

impl Lines {
    ghost use Rattle.eb_io.specs.Held.{HasGiven, Tells, GivesLine, kept_part, no_part};

    /// Lines of which none has been given yet, of a source from which at most `limit` bytes are
    /// taken in all. Takes all memory at once.
    pub fn new(alloc: Global, limit: u64) -> Result<Lines, NoMemory>
        ensures fresh { IfOk result (λ lines.
            lines ≡ record { part = no_part; rest = []; line = []; is_ended = false; taken = 0; limit = limit }) }
        ensures given { IfOk result (λ lines. HasGiven [] [] lines) }
    {
        let piece = vec![in alloc; 0; PIECE]?;
        let part = Vec::with_capacity(alloc, LONGEST_LINE)?;
        let given = Vec::with_capacity(alloc, LONGEST_LINE)?;
        Ok(Lines {
            piece,
            from: 0,
            to: 0,
            end: None,
            part,
            is_long: false,
            given,
            is_ended: false,
            taken: 0,
            limit,
        })
    }

    /// The bytes of the line that was given last as [`Next::Line`], until the next call for a line.
    /// Takes no memory.
    pub fn line(&self) -> &[u8]
        ensures { result.now ≡ self.now.line }
    {
        self.given.as_slice()
    }

    /// How many bytes were taken so far. Takes no memory.
    pub fn taken(&self) -> u64
        ensures { result ≡ self.now.taken }
    {
        self.taken
    }

    // Where the next line ends in what is held.
    fn find(&self) -> Option<usize>
        ensures within { self.now.taken ≤ self.now.limit }
        ensures short { self.now.is_ended ≡ true → self.now.taken < self.now.limit }
        ensures place { IsEnd self.now.rest result }
    {
        self.end
    }

    /// Whether a whole line is held: then the next call for a line leaves the source alone. Takes
    /// no memory.
    pub fn has_line(&self) -> bool
        ensures { IsTrue result ↔ Contains self.now.rest 10 }
    {
        match self.find() {
            Some(_) => true,
            None => false,
        }
    }

    // How many bytes are still to be cut.
    fn rest_len(&self) -> usize
        ensures { result ≡ length self.now.rest }
    {
        self.to - self.from
    }

    // Moves the first bytes of the rest, which have no LF, to the end of the part.
    fn join(&mut self, count: usize)
        requires within { count ≤ length self.old.rest }
        requires uncut { IsUncut (take count self.old.rest) }
        ensures held { self.new ≡ record self.old { part = self.new.part; rest = drop count self.old.rest } }
        ensures part { (begun : List ℕ) → self.old.part ≡ kept_part begun
            → self.new.part ≡ kept_part (begun ++ take count self.old.rest) }
    {
        let start = self.from;
        self.from += count;
        self.end = place_behind(self.end, count);
        if self.is_long {
            return;
        }
        if count > LONGEST_LINE - self.part.len() {
            self.is_long = true;
            self.part.clear();
            return;
        }
        let more = &self.piece[start..start + count];
        self.part.extend_from_slice(more).unwrap();
    }

    // Skips the byte that ends a line.
    fn pass(&mut self)
        requires { 0 < length self.old.rest }
        ensures { self.new ≡ record self.old { rest = drop 1 self.old.rest } }
    {
        self.from += 1;
        self.end = find_end(&self.piece[self.from..self.to]);
    }

    // Gives the part as a line.
    fn give(&mut self) -> Next
        ensures held { self.new ≡ record self.old { part = no_part; line = self.new.line } }
        ensures given { (begun : List ℕ) → self.old.part ≡ kept_part begun
            → GivesLine result self.new.line (line_from begun) }
        ensures no_fault { result ≡ Next.ReadFault → ⊥ }
        ensures line { (result ≡ Next.Line → ⊥) → self.new.line ≡ self.old.line }
    {
        if self.is_long {
            self.is_long = false;
            return Next::LongLine;
        }
        drop_cr(&mut self.part);
        mem::swap(&mut self.part, &mut self.given);
        self.part.clear();
        Next::Line
    }

    // Reads the next piece.
    fn fill<S: Source>(&mut self, source: &mut S) -> Got
        requires empty { self.old.rest ≡ [] }
        requires room { self.old.taken < self.old.limit }
        requires open_end { self.old.is_ended ≡ false }
        ensures held { self.new ≡ record self.old {
          rest = self.new.rest;
          taken = self.old.taken + length self.new.rest;
          is_ended = self.new.is_ended;
        } }
        ensures left { S.left source.old ≡ after self.new.rest (S.left source.new) }
        ensures ended { result ≡ Got.End → self.new.is_ended ≡ true }
        ensures empty { self.new.is_ended ≡ true → (self.old.is_ended ≡ true) ⊎ IsEmpty (S.left source.new) }
        ensures open_end { (result ≡ Got.End → ⊥) → self.new.is_ended ≡ self.old.is_ended }
        ensures more { (result ≡ Got.End → ⊥) → (result ≡ Got.Failed → ⊥) → 0 < length self.new.rest }
        ensures failed { result ≡ Got.Failed → self.new.rest ≡ [] }
        ensures fault { result ≡ Got.Failed → HasRisen (S.faults source.old) (S.faults source.new) }
        ensures later { S.faults source.old ≤ S.faults source.new }
    {
        let room = (PIECE as u64).min(self.limit - self.taken) as usize;
        let got = read_piece(source, self.piece.as_mut_slice(), room);
        self.from = 0;
        self.to = 0;
        self.end = None;
        match got {
            Got::Bytes(count) => {
                self.to = count;
                self.end = find_end(&self.piece[..count]);
                self.taken += count as u64;
            }
            Got::End => self.is_ended = true,
            Got::Failed => {}
        }
        got
    }

    // Whether a line has begun whose end isn't held.
    fn has_part(&self) -> bool
        ensures { IsTrue result ↔ (self.now.part ≢ no_part) }
    {
        self.is_long || !self.part.is_empty()
    }

    // Whether as many bytes were taken as may be.
    fn is_full(&self) -> bool
        ensures full { IsTrue result ↔ (self.now.taken ≡ self.now.limit) }
        ensures within { self.now.taken ≤ self.now.limit }
    {
        self.limit == self.taken
    }

    // Whether the source ended.
    fn is_ended(&self) -> bool
        ensures ended { result ≡ self.now.is_ended }
        ensures short { self.now.is_ended ≡ true → self.now.taken < self.now.limit }
    {
        self.is_ended
    }

    /// Goes on to the next line of the text, and reads only where no whole line is held.
    ///
    /// The bytes taken, cut into lines, are what was given and what is held, however the source
    /// cuts them. `ReadFault` comes only where the source's number of faults rose in this call.
    /// After the end was met, the source isn't asked again. Takes no memory.
    pub fn next_line<S: Source>(&mut self, source: &mut S) -> Next
        // the call took some bytes; with those that were taken before, and after the lines that
        // were given before, the answer says what comes next
        ensures told { (before : List ℕ) (given : List Line) → HasGiven before given self.old
            → (seen : List ℕ) × (S.left source.old ≡ after seen (S.left source.new))
            × Tells result (before ++ seen) given self.new }
        ensures fault { result ≡ Next.ReadFault → HasRisen (S.faults source.old) (S.faults source.new) }
        ensures later { S.faults source.old ≤ S.faults source.new }
        // where the source ended in this call, nothing is left, so far as that is known
        ensures end { self.new.is_ended ≡ true → (self.old.is_ended ≡ true) ⊎ IsEmpty (S.left source.new) }
        // the source isn't read after it ended, nor where a whole line is held
        ensures ended { self.old.is_ended ≡ true → source.new ≡ source.old }
        ensures whole { Contains self.old.rest 10 → source.new ≡ source.old }
        // nor where as many bytes were taken as may be; without an end and a whole line held, the
        // answer is InputTooLong
        ensures full { self.old.taken ≡ self.old.limit → source.new ≡ source.old }
        ensures too_long { self.old.taken ≡ self.old.limit → self.old.is_ended ≡ false → (Contains self.old.rest 10 → ⊥) → result ≡ Next.InputTooLong }
        ensures line { (result ≡ Next.Line → ⊥) → self.new.line ≡ self.old.line }
        ensures limit { self.new.limit ≡ self.old.limit }
        ensures within { self.new.taken ≤ self.new.limit }
        ensures short { self.new.is_ended ≡ true → self.new.taken < self.new.limit }
    {
        'pieces: loop {
            if let Some(count) = self.find() {
                self.join(count);
                self.pass();
                return self.give();
            }
            let all = self.rest_len();
            self.join(all);
            if self.is_ended() {
                return if self.has_part() {
                    self.give()
                } else {
                    Next::End
                };
            }
            if self.is_full() {
                return Next::InputTooLong;
            }
            if let Got::Failed = self.fill(source) {
                return Next::ReadFault;
            }
        }
    }
}
