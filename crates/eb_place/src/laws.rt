ghost use Rattle.std.specs.Prelude.{[]};
ghost use Rattle.eb_place.specs.Room.{Fits};
ghost use Rattle.eb_place.specs.Laws.{StoreChangesOneWord, PutChangesOneWord, MomentsMeet, PlacesAreApart};

use eb_base::{Config, Document};

/// A law: each document fits a segment that has none yet, in each setting. Does nothing.
pub fn each_document_fits(config: Config, document: &Document)
    ensures { Fits config [] document.now }
{
    // These calls show that the setting is allowed, and that the document is within the limits.
    let _words = config.words();
    let _terms = document.terms();
}

/// A law: one more store of a placing changes the word at its own place alone. Does nothing.
pub fn store_changes_one_word()
    ensures { StoreChangesOneWord }
{}

/// A law: one more store of a conversion changes the word at its own place alone. Does nothing.
pub fn put_changes_one_word()
    ensures { PutChangesOneWord }
{}

/// A law: two moments that a third comes after have a least moment after both. Does nothing.
pub fn moments_meet()
    ensures { MomentsMeet }
{}

/// A law: the placing of a document and the conversion of a segment have no place in common. Does
/// nothing.
pub fn places_are_apart()
    ensures { PlacesAreApart }
{}
