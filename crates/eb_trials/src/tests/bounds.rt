//! How many words a search of a word in a converted segment loads, by a port that counts its own
//! loads.
ghost use Rattle.std.specs.Prelude.{◌≡◌, ◌<◌, IfOk};
ghost use Rattle.eb_place.specs.declared.moment.Moment.{Moment};
ghost use Rattle.eb_trials.specs.Recorded.{IsRecord};

use super::made::{add_all, document};
use crate::RecordingPen;
use eb_base::{Config, Document, OpenGate, Query, Term};
use eb_convert::{Converted, convert_next};
use eb_cursor::Frame;
use eb_place::{Port, Steps};
use eb_search::search;
use eb_writer::Placer;
use std::alloc::Global;
use std::marker::Brand;
use std::process::Abort;
use std::sync::ledger::{Blank, Ledger};
use std::test::Fail;

// A port that counts its own loads.
#[derive(Drop)]
pub(super) struct CountedWords {
    pub(super) words: RecordingPen,
    pub(super) loads: u64,
}

impl Port for CountedWords {
    ghost use Rattle.std.proofs.Common.{refl, ◌∙◌};
    ghost use Rattle.eb_trials.specs.Recorded.{IsRecord};

    ghost stands = { λ s m. IsRecord s.words m };

    ghost keeps = { λ s m t n. (t.words ≡ s.words) × (n ≡ m) };

    ghost same = { λ s t. t.words.words.setting ≡ s.words.words.setting };

    fn config(&self) -> Config {
        self.words.config()
    }

    fn load<L: Ledger>(&mut self, place: u64, steps: &mut Steps<L>) -> u64 {
        self.loads = self.loads.wrapping_add(1);
        self.words.load(place, steps)
    }

    ghost lawful = { λ s m h. h.words.moment };

    ghost keeps_itself = { λ s m h. (refl, refl) };

    ghost keeps_on = { λ s t u l m n h k. (k.0 ∙ h.0, k.1 ∙ h.1) };

    ghost keeps_same = { λ s t m n h. λ i. (h.0 i).words.setting };

    ghost same_on = { λ s t u h k. k ∙ h };
}

// Converts the next segment, if there is one.
fn convert(pen: &mut RecordingPen) -> Option<Converted>
    requires { (m : Moment) × IsRecord pen.old m }
    ensures { (m : Moment) × IsRecord pen.new m }
{
    let segment = pen.converted();
    if segment >= pen.config().segments() || !pen.is_whole() {
        return None;
    }
    Some(convert_next(pen, segment))
}

// An index that holds these documents, and whose first segment is converted.
fn converted(alloc: Global, config: Config, documents: &[Document]) -> Result<RecordingPen, Fail>
    ensures { IfOk result (λ pen. (m : Moment) × IsRecord pen m) }
{
    let mut pen = RecordingPen::new(alloc, config)?;
    let mut placer = Placer::new(config);
    if !add_all(&mut placer, &mut pen, documents) {
        return Err(Fail::new("full"));
    }
    if convert(&mut pen) != Some(Converted::One(0)) {
        return Err(Fail::new("not converted"));
    }
    Ok(pen)
}

// A search, with steps of its own.
pub(super) fn search_alone<L: Ledger>(
    words: &mut CountedWords,
    frame: &mut Frame,
    blank: Blank,
) -> u64
    requires blank { (blank.name ≡ L.name) × (blank.parts ≡ L.parts) × (0 < blank.parts) }
    requires words { (m : Moment) × IsRecord words.old.words m }
{
    let mut steps = Steps::<L>::new(blank);
    search(words, frame, &OpenGate, &mut steps)
}

// A search for a word in an index that holds these documents, and whose first segment is converted:
// how many documents it saw, the frame with the ids, and how many loads it made.
fn searched(
    alloc: Global,
    config: Config,
    documents: &[Document],
    word: &[u8],
) -> Result<(u64, Frame, u64), Fail> {
    let mut frame = Frame::new(alloc, Query::Word(Term::new(alloc, word)?), 1000)?;
    let mut words = CountedWords {
        words: converted(alloc, config, documents)?,
        loads: 0,
    };
    let count = search_alone::<Brand>(&mut words, &mut frame, Blank::new(1));
    Ok((count, frame, words.loads))
}

// Asserts that a search for a word sees all these documents, finds these ids, and loads at most
// this many words.
fn finds(
    rt: &impl Abort,
    alloc: Global,
    config: Config,
    documents: &[Document],
    word: &[u8],
    ids: &[u64],
    most: u64,
) -> Result<(), Fail> {
    let (count, frame, loads) = searched(alloc, config, documents, word)?;
    assert_eq!(rt; (count, frame.ids()), (documents.len() as u64, ids));
    assert!(rt; loads <= most, "{loads}");
    Ok(())
}

#[test]
fn a_search_of_a_word_of_two_documents_loads_few_words(rt: HostRuntime) -> Result<(), Fail> {
    let alloc = rt.alloc();
    let few = [document(alloc, 7, b"ab b ab")?, document(alloc, 8, b"b")?];
    finds(
        &rt,
        alloc,
        Config::new(2, 1, 1024)?,
        &few,
        b"b",
        &[8, 7],
        32,
    )
}

// Documents of the word `a` with the ids 1 to 128, and one of `b` with the id 129.
fn many(alloc: Global) -> Result<Vec<Document>, Fail> {
    let mut many = Vec::new(alloc);
    for id in 1..129 {
        many.push(document(alloc, id, b"a")?)?;
    }
    many.push(document(alloc, 129, b"b")?)?;
    Ok(many)
}

// The ids 128 to 1.
fn newest_first(alloc: Global) -> Result<Vec<u64>, Fail> {
    let mut ids = Vec::new(alloc);
    for id in 1..129 {
        ids.push(129 - id)?;
    }
    Ok(ids)
}

// The 128 postings of `a` are 35 packed words; over their slices the same search makes 131 loads
// for them.
#[test]
fn a_search_of_a_word_loads_the_packed_words(rt: HostRuntime) -> Result<(), Fail> {
    let alloc = rt.alloc();
    let many = many(alloc)?;
    let ids = newest_first(alloc)?;
    let config = Config::new(2, 128, 1024)?;
    finds(
        &rt,
        alloc,
        config,
        many.as_slice(),
        b"a",
        ids.as_slice(),
        185,
    )
}
