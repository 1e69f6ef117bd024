ghost use Rattle.std.specs.Prelude.{◌≡◌};
ghost use Rattle.eb_rounds.specs.Passed.{input_kind};

use eb_lines::Refusal;

/// A line that is to be processed. A blank line isn't one.
#[derive(Clone, Copy, Debug, Drop)]
pub enum Input<'a> {
    /// A document line, as JSON text of any bytes.
    DocumentLine(&'a [u8]),
    /// A query line, which begins with `?`, or with `#` where counts are asked for; one that
    /// doesn't is refused as a bad line.
    QueryLine(&'a str),
    /// A line that is refused before it is read: a bad line or a long line.
    RefusedLine(Refusal),
}

/// The kinds of lines that are held.
#[derive(Clone, Copy, Debug, PartialEq, Eq)]
pub enum Kind {
    /// A document line, whatever it is read as.
    DocumentLine,
    /// A query line, whatever it is read as.
    QueryLine,
    /// A line that is refused before it is read.
    RefusedLine,
}

impl<'a> Input<'a> {
    /// Its kind. Takes no memory.
    pub fn kind(&self) -> Kind
        ensures { result ≡ input_kind self.now }
    {
        match self {
            Input::DocumentLine(_) => Kind::DocumentLine,
            Input::QueryLine(_) => Kind::QueryLine,
            Input::RefusedLine(_) => Kind::RefusedLine,
        }
    }
}
