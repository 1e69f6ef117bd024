ghost use Rattle.eb_lines.specs.Laws.{LinesInPlain};

use eb_doc::in_plain;

/// A law: where no option says otherwise a line is read as by the rules without options: a document
/// line is the same document, or has the same refusal, and a query line asks the same. The call
/// does nothing.
pub fn lines_in_plain()
    ensures { LinesInPlain }
{
    in_plain();
}
