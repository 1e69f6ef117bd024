//! Lines that wait until they are processed, one after the other in one buffer.
ghost use Rattle.std.specs.Prelude.{◌≡◌, ◌<◌, ◌++◌, ◌∷◌, [], Some, length, slice_get, vec_len, IfOk, OnOk, OnErr};
ghost use Rattle.run_ahead.specs.Held.{IsWithin, line_in};
ghost use Rattle.run_ahead.specs.Tasks.{line_of};

use eb_base::NoMemory;
use std::alloc::Global;
use std::marker::Model;

// The most lines that wait, and the bytes of waiting lines from which on no further line waits.
const MOST_LINES: usize = 32_768;

const MOST_BYTES: usize = 8 << 20;

// A line.
#[derive(Clone, Copy)]
pub(crate) enum HeldLine<'a> {
    // One that isn't long.
    Line(&'a [u8]),
    Long,
}

// Where the bytes of a line begin and end.
#[derive(Clone, Copy)]
pub(crate) struct Span {
    from: usize,
    to: usize,
}

// The lines, each with where its bytes are; of a long line none are kept.
#[derive(Drop)]
pub(crate) struct HeldLines {
    bytes: Vec<u8>,
    spans: Vec<Option<Span>>,
}

impl Model for HeldLines {
    ghost use Rattle.std.specs.Prelude.{◌≡◌, List, map, vec_len, All};
    ghost use Rattle.eb_io.specs.Lines.{Line};
    ghost use Rattle.run_ahead.specs.Held.{IsWithin, line_in};

    ghost Value = { List Line };

    ghost view = { λ h. map (line_in h.bytes.items) h.spans.items };

    ghost invariant = { λ h. All (IsWithin (vec_len h.bytes)) h.spans.items };
}

// Puts the bytes of a line after the others, and returns where they are.
fn put_line(bytes: &mut Vec<u8>, line: HeldLine<'_>) -> Result<Option<Span>, NoMemory>
    ensures line { IfOk result (λ span. line_in bytes.new.items span ≡ line_of line.entry) }
    ensures within { IfOk result (IsWithin (vec_len bytes.new)) }
    ensures behind { (more : _) × (bytes.new.items ≡ bytes.old.items ++ more) }
    ensures same { OnErr result (bytes.new.items ≡ bytes.old.items) }
{
    let HeldLine::Line(line) = line else {
        return Ok(None);
    };
    let from = bytes.len();
    bytes.extend_from_slice(line)?;
    let to = bytes.len();
    Ok(Some(Span { from, to }))
}

impl HeldLines {
    // No lines.
    pub(crate) fn new(alloc: Global) -> HeldLines
        ensures { result ≡ [] }
    {
        HeldLines {
            bytes: Vec::new(alloc),
            spans: Vec::new(alloc),
        }
    }

    // How many lines there are.
    pub(crate) fn len(&self) -> usize
        ensures { result ≡ length self.now }
    {
        self.spans.len()
    }

    // Whether no further line is to wait.
    pub(crate) fn is_full(&self) -> bool {
        self.spans.len() >= MOST_LINES || self.bytes.len() >= MOST_BYTES
    }

    // Puts a line after the others.
    pub(crate) fn push(&mut self, line: HeldLine<'_>) -> Result<(), NoMemory>
        ensures ok { OnOk result (self.new ≡ self.old ++ line_of line.entry ∷ []) }
        ensures err { OnErr result (self.new ≡ self.old) }
    {
        self.spans.reserve(1)?;
        let span = put_line(&mut self.bytes, line)?;
        self.spans.push_reserved(span);
        Ok(())
    }

    // The line at this place, from 0.
    pub(crate) fn get(&self, at: usize) -> HeldLine<'_>
        requires { at < length self.now }
        ensures { slice_get self.now at ≡ Some (line_of result) }
    {
        let Some(span) = self.spans[at] else {
            return HeldLine::Long;
        };
        HeldLine::Line(&self.bytes[span.from..span.to])
    }

    // Drops all lines, and keeps their memory for others.
    pub(crate) fn clear(&mut self)
        ensures { self.new ≡ [] }
    {
        self.spans.clear();
        self.bytes.clear();
    }
}
