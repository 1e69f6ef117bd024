ghost use Rattle.eb_watch.specs.KeyLaw.{KeyLaw};

/// A law: a document that matches a query with a key has one of the key's terms. Does nothing.
#[tactic(auto, using(crate::proofs::Keys::key_law))]
pub fn a_match_has_a_key_term()
    ensures { KeyLaw }
{}
