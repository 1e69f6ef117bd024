//! The ids that a search leaves, newest first, and what its gate observes.
ghost use Rattle.std.specs.Prelude.{◌≡◌, ◌<◌, ◌≤◌};
ghost use Rattle.eb_place.specs.declared.moment.Moment.{Moment};
ghost use Rattle.eb_flat.specs.Flat.{StandsFor};

use super::made::{four, index_of};
use eb_base::{Config, Gate, Point, Query, Term};
use eb_cursor::Frame;
use eb_flat::FlatWords;
use eb_place::{Port, Steps};
use eb_search::search;
use std::alloc::Global;
use std::cell::Cell;
use std::marker::Brand;
use std::sync::ledger::{Blank, Ledger};
use std::test::Fail;

// A port that counts its own loads, in a counter that a gate looks at.
#[derive(Drop)]
struct CountedWords<'a> {
    words: FlatWords,
    loads: &'a Cell<u64>,
}

impl Port for CountedWords<'_> {
    ghost use Rattle.std.proofs.Common.{refl, ◌∙◌};
    ghost use Rattle.eb_flat.specs.Flat.{StandsFor};

    ghost stands = { λ s m. StandsFor s.words m };

    ghost keeps = { λ s m t n. (t.words ≡ s.words) × (n ≡ m) };

    ghost same = { λ s t. t.words.setting ≡ s.words.setting };

    fn config(&self) -> Config {
        self.words.config()
    }

    fn load<L: Ledger>(&mut self, place: u64, steps: &mut Steps<L>) -> u64 {
        self.loads.set(self.loads.get().wrapping_add(1));
        self.words.load(place, steps)
    }

    ghost lawful = { λ s m h. h.moment };

    ghost keeps_itself = { λ s m h. (refl, refl) };

    ghost keeps_on = { λ s t u l m n h k. (k.0 ∙ h.0, k.1 ∙ h.1) };

    ghost keeps_same = { λ s t m n h. λ i. (h.0 i).setting };

    ghost same_on = { λ s t u h k. k ∙ h };
}

// A gate that keeps the last count that was reported, how often a point was reported, and how many
// loads there were by then.
#[derive(Drop)]
struct Recorder<'a> {
    loads: &'a Cell<u64>,
    count: Cell<u64>,
    points: Cell<u64>,
    loads_at_count: Cell<u64>,
}

impl<'a> Recorder<'a> {
    fn new(loads: &'a Cell<u64>) -> Recorder<'a> {
        Recorder {
            loads,
            count: Cell::new(7),
            points: Cell::new(0),
            loads_at_count: Cell::new(7),
        }
    }

    // All that it keeps.
    fn told(&self) -> (u64, u64, u64) {
        (
            self.count.get(),
            self.points.get(),
            self.loads_at_count.get(),
        )
    }
}

impl Gate for Recorder<'_> {
    fn reached(&self, point: Point) {
        if let Point::CountLoaded(count) = point {
            self.count.set(count);
            self.loads_at_count.set(self.loads.get());
        }
        self.points.set(self.points.get().wrapping_add(1));
    }
}

// A frame for the term `a`.
fn frame(alloc: Global, k: u32) -> Result<Frame, Fail>
    requires { (1 ≤ k) × (k ≤ 1000) }
{
    let query = Query::Word(Term::new(alloc, b"a")?);
    Ok(Frame::new(alloc, query, k)?)
}

// Searches words in a vector, with steps of its own; the port and the gate count from 0.
fn search_alone<L: Ledger>(
    port: &mut CountedWords,
    frame: &mut Frame,
    gate: &Recorder,
    blank: Blank,
) -> u64
    requires blank { (blank.name ≡ L.name) × (blank.parts ≡ L.parts) × (0 < blank.parts) }
    requires words { (m : Moment) × StandsFor port.old.words m }
    ensures { port.new.words ≡ port.old.words }
{
    let mut steps = Steps::<L>::new(blank);
    port.loads.set(0);
    search(port, frame, gate, &mut steps)
}

// The same: the count that the search loads.
fn searched(port: &mut CountedWords, frame: &mut Frame, gate: &Recorder) -> u64
    requires { (m : Moment) × StandsFor port.old.words m }
    ensures { port.new.words ≡ port.old.words }
{
    search_alone::<Brand>(port, frame, gate, Blank::new(1))
}

#[test]
fn the_newest_come_first(rt: HostRuntime) -> Result<(), Fail> {
    let documents = four(rt.alloc())?;
    let words = index_of(rt.alloc(), Config::new(2, 2, 1024)?, documents.as_slice())?;
    let loads = Cell::new(0);
    let gate = Recorder::new(&loads);
    let mut port = CountedWords {
        words,
        loads: &loads,
    };
    let mut few = frame(rt.alloc(), 3)?;
    let mut many = frame(rt.alloc(), 9)?;
    let seen = searched(&mut port, &mut few, &gate);
    assert_eq!(rt; (seen, few.ids()), (4, [4, 3, 2].as_slice()));
    // One load for the count, two for each of the two segments, one for each of three ids, and in
    // each segment ten to find the term, two for its postings, one for its slice and one for its
    // tail.
    assert!(rt; loads.get() <= 36);
    let seen = searched(&mut port, &mut many, &gate);
    assert_eq!(rt; (seen, many.ids()), (4, [4, 3, 2, 1].as_slice()));
    assert!(rt; loads.get() <= 37);
    assert_eq!(rt; gate.told(), (4, 2, 1));
    Ok(())
}

#[test]
fn the_gate_is_told_directly_after_the_load_of_the_count(rt: HostRuntime) -> Result<(), Fail> {
    let config = Config::new(2, 2, 1024)?;
    let loads = Cell::new(0);
    let gate = Recorder::new(&loads);
    let mut port = CountedWords {
        words: FlatWords::new(rt.alloc(), config)?,
        loads: &loads,
    };
    let mut few = frame(rt.alloc(), 3)?;
    let seen = searched(&mut port, &mut few, &gate);
    assert!(rt; few.ids().is_empty());
    assert_eq!(rt; (seen, gate.told()), (0, (0, 1, 1)));
    Ok(())
}
