ghost use Rattle.std.specs.Prelude.{◌≡◌, ◌<◌, IfOk};
ghost use Rattle.eb_place.specs.declared.moment.Moment.{Moment};
ghost use Rattle.eb_place.specs.Moments.{empty_moment};
ghost use Rattle.eb_trials.specs.Recorded.{IsRecord};

use crate::RecordingPen;
use eb_base::{Config, Document, NoMemory, OpenGate};
use eb_cursor::Frame;
use eb_place::{PackPen, Pen, Port, Steps};
use eb_search::search;
use std::alloc::Global;
use std::marker::Brand;
use std::sync::ledger::{Blank, Ledger};

/// What a search answered: how many stores were done before it, how many documents it saw, and the
/// ids that it found, newest first.
#[derive(Debug, Drop, PartialEq)]
pub struct Answer {
    pub stores: u64,
    pub seen: u64,
    pub ids: Vec<u64>,
}

/// Words in a vector that are searched after each store of a writer or a converter, always by the
/// same query: a pen that notes each answer that differs from the one before it. Where memory runs
/// out for a note, the record says so.
#[derive(Drop)]
pub struct SearchingPen {
    pen: RecordingPen,
    frame: Frame,
    stores: u64,
    answers: Vec<Answer>,
    has_lost: bool,
    alloc: Global,
}

impl SearchingPen {
    /// The words of an index without a document, the frame that searches them, and no answer. Takes
    /// the memory of the words; a store may take more.
    pub fn new(alloc: Global, config: Config, frame: Frame) -> Result<SearchingPen, NoMemory>
        ensures { IfOk result (λ pen. IsRecord pen.pen (empty_moment config)) }
    {
        let pen = RecordingPen::new(alloc, config)?;
        Ok(SearchingPen {
            pen,
            frame,
            stores: 0,
            answers: Vec::new(alloc),
            has_lost: false,
            alloc,
        })
    }

    /// The answers that differ from the one before, in order; before the first, a search saw no
    /// document.
    pub fn answers(&self) -> &[Answer]
        ensures { result.now ≡ self.now.answers.items }
    {
        self.answers.as_slice()
    }

    /// How many stores were done, up to the last number.
    pub fn stores(&self) -> u64
        ensures { result ≡ self.now.stores }
    {
        self.stores
    }

    /// Whether an answer was not noted, or a store not recorded.
    pub fn has_lost(&self) -> bool {
        self.has_lost || self.pen.has_lost()
    }

    /// The words, with their stores.
    pub fn recorded(&self) -> &RecordingPen
        ensures { result.now ≡ self.now.pen }
    {
        &self.pen
    }

    // Searches the words, and notes the answer where it differs from the one before.
    fn look<L: Ledger>(&mut self, blank: Blank)
        requires blank { (blank.name ≡ L.name) × (blank.parts ≡ L.parts) × (0 < blank.parts) }
        requires pen { (m : Moment) × IsRecord self.old.pen m }
        ensures { self.new.pen ≡ self.old.pen }
    {
        let mut steps = Steps::<L>::new(blank);
        self.stores = self.stores.saturating_add(1);
        let seen = search(&mut self.pen, &mut self.frame, &OpenGate, &mut steps);
        self.note(seen);
    }

    // Notes an answer where it differs from the one before.
    fn note(&mut self, seen: u64)
        ensures { self.new.pen ≡ self.old.pen }
    {
        let differs = match self.answers.as_slice().last() {
            Some(last) => last.seen != seen || last.ids.as_slice() != self.frame.ids(),
            None => seen != 0 || !self.frame.ids().is_empty(),
        };
        if differs && self.push(seen).is_err() {
            self.has_lost = true;
        }
    }

    // Puts an answer after the others.
    fn push(&mut self, seen: u64) -> Result<(), NoMemory>
        ensures { self.new.pen ≡ self.old.pen }
    {
        let mut ids = Vec::new(self.alloc);
        ids.extend_from_slice(self.frame.ids())?;
        self.answers.push(Answer {
            stores: self.stores,
            seen,
            ids,
        })?;
        Ok(())
    }
}

impl Port for SearchingPen {
    ghost use Rattle.std.proofs.Common.{refl, ◌∙◌};
    ghost use Rattle.eb_trials.specs.Recorded.{IsRecord};

    ghost stands = { λ s m. IsRecord s.pen m };

    ghost keeps = { λ s m t n. (t.pen ≡ s.pen) × (n ≡ m) };

    ghost same = { λ s t. t.pen.words.setting ≡ s.pen.words.setting };

    fn config(&self) -> Config {
        self.pen.config()
    }

    fn load<L: Ledger>(&mut self, place: u64, steps: &mut Steps<L>) -> u64 {
        self.pen.load(place, steps)
    }

    ghost lawful = { λ s m h. h.words.moment };

    ghost keeps_itself = { λ s m h. (refl, refl) };

    ghost keeps_on = { λ s t u l m n h k. (k.0 ∙ h.0, k.1 ∙ h.1) };

    ghost keeps_same = { λ s t m n h. λ i. (h.0 i).words.setting };

    ghost same_on = { λ s t u h k. k ∙ h };
}

impl Pen for SearchingPen {
    fn store(&mut self, document: &Document, place: u64, value: u64) {
        self.pen.store(document, place, value);
        self.look::<Brand>(Blank::new(1));
    }

    ghost pen_keeps = { λ s t m n h. λ i. (h.1 i).documents };
}

impl PackPen for SearchingPen {
    fn put(&mut self, place: u64, value: u64) {
        self.pen.put(place, value);
        self.look::<Brand>(Blank::new(1));
    }

    ghost pack_keeps = { λ s t m n h. λ i. (h.1 i).conversions };
}
