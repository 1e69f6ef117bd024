ghost use Rattle.eb_blend.specs.Laws.{BlendIsAnswer};

/// A law: where the ids of a history rise, and it is cut into parts by the remainder of the id, a
/// blend of all parts answers as one index of the history. Does nothing.
#[tactic(auto, using(crate::proofs::Law::is_answer))]
pub fn blend_is_answer()
    ensures { BlendIsAnswer }
{}
