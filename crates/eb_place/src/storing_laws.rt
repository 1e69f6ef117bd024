ghost use Rattle.eb_place.specs.StoringLaws.{PlacingsLieInRegions, ConversionsLieInRegions, PackingFits, BlocksAreShort, EnteredWithTheCell};
ghost use Rattle.eb_place.specs.StoredOnce.{StoredOnce};
ghost use Rattle.eb_place.specs.BackwardWalk.{ReachedWordsStay};

/// A law: each store of a placing goes to the count or to a word of a region that is none of the
/// converter's, and each store of a conversion to a word of one of the converter's. Does nothing.
pub fn stores_lie_in_regions()
    ensures placings { PlacingsLieInRegions }
    ensures conversions { ConversionsLieInRegions }
{}

/// A law: by all placings of a lawful history and all conversions of its segments, each place but
/// that of the count and those of the tails is stored at most once; the values stored to the count
/// rise, and so do those stored to each tail. Does nothing.
pub fn stored_once()
    ensures { StoredOnce }
{}

/// A law: from the tail word of a term at a moment, a backward walk gives the reverse of the
/// postings that are seen at that moment, and each word that it reads has the same value at every
/// later moment. Does nothing.
pub fn reached_words_stay()
    ensures { ReachedWordsStay }
{}

/// A law: at each moment a term is entered in a segment exactly where the store of its cell is
/// done, which puts its number plus 1 there. Does nothing.
pub fn entered_with_the_cell()
    ensures { EnteredWithTheCell }
{}

/// A law: the packed words of a segment find room, and a block has at most as many words as
/// postings. Does nothing.
pub fn packing_fits()
    ensures segment { PackingFits }
    ensures block { BlocksAreShort }
{}
