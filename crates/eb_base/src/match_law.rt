ghost use Rattle.eb_base.specs.MatchLaw.{MatchIsDecided};

/// A law: the test by which an answer is defined is true exactly where the query matches the
/// document. Does nothing.
pub fn match_is_decided()
    ensures { MatchIsDecided }
{}
