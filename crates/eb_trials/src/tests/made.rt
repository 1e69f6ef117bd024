//! Documents, and indexes that hold them.
ghost use Rattle.std.specs.Prelude.{◌≡◌, ◌<◌, IsTrue, IfOk};
ghost use Rattle.eb_base.specs.Setting.{words_of};
ghost use Rattle.eb_place.specs.declared.moment.Moment.{Moment};
ghost use Rattle.eb_flat.specs.Flat.{StandsFor};
ghost use Rattle.eb_writer.specs.Progress.{PlacerStands};
ghost use Rattle.eb_trials.specs.Added.{HasAdded, Holds};
ghost use Rattle.eb_trials.specs.Grown.{Grows, HasGrown};

use crate::{GrowingPort, Pace, RecordingPen};
use eb_base::{Config, Document, Term, Terms};
use eb_flat::FlatWords;
use eb_place::{Pen, Port, Steps};
use eb_writer::Placer;
use std::alloc::Global;
use std::marker::Brand;
use std::sync::ledger::{Blank, Ledger};
use std::test::Fail;

// The terms of a text whose words have blanks between them.
pub(super) fn terms(alloc: Global, text: &[u8]) -> Result<Terms, Fail> {
    let mut terms = Terms::new(alloc);
    let mut word = Vec::new(alloc);
    for byte in text {
        if *byte != b' ' {
            word.push(*byte)?;
        } else if !word.is_empty() {
            terms.push(Term::new(alloc, word.as_slice())?)?;
            word.clear();
        }
    }
    if !word.is_empty() {
        terms.push(Term::new(alloc, word.as_slice())?)?;
    }
    Ok(terms)
}

// The document with this id and the words of this text.
pub(super) fn document(alloc: Global, id: u64, text: &[u8]) -> Result<Document, Fail> {
    Ok(Document::new(id, terms(alloc, text)?)?)
}

// Documents of the term `a` with the ids 1 to 4.
pub(super) fn four(alloc: Global) -> Result<Vec<Document>, Fail> {
    let mut documents = Vec::new(alloc);
    for id in 1..5 {
        documents.push(document(alloc, id, b"a")?)?;
    }
    Ok(documents)
}

// Adds a document: the new count, none where there is no room.
pub(super) fn added<P: Pen>(placer: &mut Placer, pen: &mut P, document: &Document) -> Option<u64>
    requires { (m : Moment) × P.stands pen.old m × PlacerStands placer.old m }
    ensures { (m : Moment) × P.stands pen.new m × PlacerStands placer.new m }
{
    match placer.add(pen, document) {
        Ok(count) => Some(count),
        Err(_) => None,
    }
}

// Adds documents, in order, up to the first that has no room; whether all had.
pub(super) fn add_all<P: Pen>(placer: &mut Placer, pen: &mut P, documents: &[Document]) -> bool
    requires { (m : Moment) × P.stands pen.old m × PlacerStands placer.old m }
    ensures { IsTrue result → (m : Moment) → P.stands pen.old m → PlacerStands placer.old m → HasAdded P.stands pen.new placer.new m documents.now }
{
    for document in documents {
        let Ok(_count) = placer.add(pen, document) else {
            return false;
        };
    }
    true
}

// The words of an index that holds these documents.
pub(super) fn index_of(
    alloc: Global,
    config: Config,
    documents: &[Document],
) -> Result<FlatWords, Fail>
    ensures { IfOk result (λ words. (m : Moment) × StandsFor words m × Holds m config documents.now) }
{
    let mut words = FlatWords::new(alloc, config)?;
    let mut placer = Placer::new(config);
    if !add_all(&mut placer, &mut words, documents) {
        return Err(Fail::new("full"));
    }
    Ok(words)
}

// A port of an index that holds these documents, which grows by the placing of one more.
pub(super) fn growing(
    alloc: Global,
    config: Config,
    documents: &[Document],
    last: Document,
    pace: Pace,
) -> Result<GrowingPort, Fail>
    ensures { IfOk result (λ port. (m : Moment) × Grows port m × Holds m config documents.now) }
{
    let mut pen = RecordingPen::new(alloc, config)?;
    let mut placer = Placer::new(config);
    if !add_all(&mut placer, &mut pen, documents) {
        return Err(Fail::new("full"));
    }
    if pen.has_lost() {
        return Err(Fail::new("no memory"));
    }
    let done = pen.stores().len();
    let _terms = last.terms();
    let _count = placer.add(&mut pen, &last)?;
    if pen.has_lost() {
        return Err(Fail::new("no memory"));
    }
    let words = index_of(alloc, config, documents)?;
    Ok(GrowingPort::new(words, last, pen.into_stores(), done, pace))
}

// The word at this place, none after the last.
pub(super) fn word_at(words: &mut FlatWords, place: u64) -> Option<u64>
    requires { (m : Moment) × StandsFor words.old m }
    ensures { words.new ≡ words.old }
{
    if place >= words.config().words() {
        return None;
    }
    Some(load::<Brand>(words, place, Blank::new(1)))
}

// The word at this place, with a counter of its own.
fn load<L: Ledger>(words: &mut FlatWords, place: u64, blank: Blank) -> u64
    requires blank { (blank.name ≡ L.name) × (blank.parts ≡ L.parts) × (0 < blank.parts) }
    requires words { (m : Moment) × StandsFor words.old m × (place < words_of m.setting) }
    ensures { words.new ≡ words.old }
{
    let mut steps = Steps::<L>::new(blank);
    words.load(place, &mut steps)
}

// Does this many stores.
pub(super) fn grow_by(port: &mut GrowingPort, stores: usize)
    requires { (m : Moment) × Grows port.old m }
    ensures { (m : Moment) → Grows port.old m → HasGrown port.old port.new m }
{
    for _ in 0..stores {
        port.grow_once();
    }
}
