ghost use Rattle.eb_doc.specs.Laws.{InPlain};

/// A law: where no option says otherwise a line gives the same document, or the same refusal, as by
/// the rules without options. The call does nothing.
pub fn in_plain()
    ensures { InPlain }
{}
