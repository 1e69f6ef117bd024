ghost use Rattle.eb_text.specs.PieceLaws.{StayTogether, AreRuns, NoMarks, StaysWhole};

/// The laws of pieces: a piece has no mark; a token without a mark stays as it is; tokens that
/// follow one another do so in pieces; and of a text of ASCII the pieces are all runs of letters
/// and digits. The call does nothing.
pub fn pieces_of_tokens()
    ensures marks { NoMarks }
    ensures whole { StaysWhole }
    ensures together { StayTogether }
    ensures runs { AreRuns }
{}
