//! Adds to an index that was begun.
ghost use Rattle.std.specs.Prelude.{◌≡◌, List, false, length};
ghost use Rattle.eb_base.specs.Document.{Doc};
ghost use Rattle.eb_place.specs.declared.moment.Moment.{Moment};
ghost use Rattle.eb_flat.specs.Flat.{StandsFor};
ghost use Rattle.eb_writer.specs.Progress.{PlacerStands};
ghost use Rattle.eb_c.specs.Holding.{setting_of, IsBegunIndex, Holds, IsIndex};
ghost use Rattle.eb_c.specs.Adding.{WithPlaced, WithAdded, number_after, docs_after};

use crate::index::{Index, begun_setting, index_of, placer_of};
use crate::refusal::Refusal;
use eb_base::{Config, Document};
use eb_flat::LentWordsMut;
use eb_writer::{Full, Placer};

// Places a document. False exactly where there is no room for it; all is then as before.
fn place(words: &mut LentWordsMut<'_>, placer: &mut Placer, document: &Document) -> bool
    requires { (m : Moment) × StandsFor (record { setting = words.old.config; words = words.old.words.now }) m × PlacerStands placer.old m }
    ensures same { (words.new.config ≡ words.old.config) × (words.new.words.ghost_name ≡ words.old.words.ghost_name) }
    ensures placed { (m : Moment) → StandsFor (record { setting = words.old.config; words = words.old.words.now }) m → PlacerStands placer.old m
        → WithPlaced m (record { setting = words.new.config; words = words.new.words.now }) placer.new document.now result }
    ensures unchanged { result ≡ false → (words.new ≡ words.old) × (placer.new ≡ placer.old) }
{
    match placer.add(words, document) {
        Ok(_) => true,
        Err(Full) => false,
    }
}

// Adds a document to an index of this setting. False exactly where there is no room for it; all is
// then as before.
fn add(words: &mut [u64], index: &mut Index, config: Config, document: &Document) -> bool
    requires setting { config ≡ setting_of index.old }
    requires kept { IsIndex index.old words.old }
    ensures added { (docs : List Doc) → Holds index.old words.old docs → WithAdded (setting_of index.old) docs document.now result index.new words.new }
    ensures unchanged { result ≡ false → (words.new ≡ words.old) × (index.new ≡ index.old) }
{
    let mut placer = placer_of(index, config);
    let mut lent = LentWordsMut { config, words };
    let placed = place(&mut lent, &mut placer, document);
    if placed {
        *index = index_of(&placer);
    }
    placed
}

// Adds what was read of a document to an index that was begun: 0, or the number of the refusal.
pub(crate) fn add_read(words: &mut [u64], index: &mut Index, read: Result<Document, Refusal>) -> u32
    requires { IsBegunIndex index.old (length words.old) → IsIndex index.old words.old }
    ensures not_begun { (IsBegunIndex index.old (length words.old) → ⊥) → result ≡ 15 }
    ensures number { (docs : List Doc) → Holds index.old words.old docs → result ≡ number_after (setting_of index.old) docs read }
    ensures index { (docs : List Doc) → Holds index.old words.old docs → Holds index.new words.new (docs_after (setting_of index.old) docs read) }
    ensures unchanged { (result ≡ 0 → ⊥) → (words.new ≡ words.old) × (index.new ≡ index.old) }
{
    let Some(config) = begun_setting(index, words.len()) else {
        return Refusal::NotBegun.number();
    };
    match read {
        Ok(document) => {
            if add(words, index, config, &document) {
                0
            } else {
                Refusal::Full.number()
            }
        }
        Err(refusal) => refusal.number(),
    }
}
