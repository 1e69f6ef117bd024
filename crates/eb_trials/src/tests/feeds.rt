//! A feed of two generations of two documents.
ghost use Rattle.std.specs.Prelude.{◌≡◌, ◌<◌, ℕ, List};
ghost use Rattle.eb_base.specs.Document.{Doc};
ghost use Rattle.eb_base.specs.Setting.{Setting};
ghost use Rattle.eb_feed.specs.Held.{IsFedWith};

use eb_base::{Config, Document, OpenGate, Query, Term, Terms};
use eb_count::Tally;
use eb_cursor::Frame;
use eb_feed::Feed;
use std::alloc::Global;
use std::process::Abort;
use std::test::Fail;

// Adds a document of one term.
fn added(alloc: Global, feed: &mut Feed, id: u64, term: &[u8]) -> Result<u64, Fail>
    requires { (σ : Setting) × (keep : ℕ) × (history : List Doc) × IsFedWith feed.old σ keep history }
    ensures { (σ : Setting) × (keep : ℕ) × (history : List Doc) × IsFedWith feed.new σ keep history }
{
    let mut terms = Terms::new(alloc);
    terms.push(Term::new(alloc, term)?)?;
    let document = Document::new(id, terms)?;
    if feed.accepted() == u64::MAX {
        return Ok(0);
    }
    Ok(feed.add(&document))
}

pub(super) fn searched(feed: &mut Feed, frame: &mut Frame) -> u64
    requires { (σ : Setting) × (keep : ℕ) × (history : List Doc) × IsFedWith feed.old σ keep history }
    ensures { (σ : Setting) × (keep : ℕ) × (history : List Doc) × IsFedWith feed.new σ keep history }
{
    feed.search_unmetered(frame, &OpenGate)
}

fn counted(feed: &mut Feed, frame: &mut Frame, tally: &mut Tally) -> u64
    requires { (σ : Setting) × (keep : ℕ) × (history : List Doc) × IsFedWith feed.old σ keep history }
    ensures { (σ : Setting) × (keep : ℕ) × (history : List Doc) × IsFedWith feed.new σ keep history }
{
    feed.count_unmetered(frame, tally, &OpenGate)
}

// Adds a document of the term `a`, and looks at what is found and counted then.
fn step(
    rt: &impl Abort,
    alloc: Global,
    feed: &mut Feed,
    frame: &mut Frame,
    id: u64,
    generations: u64,
    found: &[u64],
) -> Result<(), Fail>
    requires { (σ : Setting) × (keep : ℕ) × (history : List Doc) × IsFedWith feed.old σ keep history }
    ensures { (σ : Setting) × (keep : ℕ) × (history : List Doc) × IsFedWith feed.new σ keep history }
{
    let count = added(alloc, feed, id, b"a")?;
    let seen = searched(feed, frame);
    let mut tally = Tally::with_buckets(alloc, 4, 2, 1)?;
    assert_eq!(rt; counted(feed, frame, &mut tally), id);
    assert_eq!(rt; tally.total(), found.len() as u64);
    let fours = found.iter().filter(|at| **at / 2 == 2).count();
    assert_eq!(rt; tally.buckets(), [fours as u64].as_slice());
    let kept = feed.kept();
    let (begun, segments) = (feed.begun(), feed.segments());
    assert_eq!(rt; count, id);
    assert_eq!(rt; seen, id);
    assert_eq!(rt; kept, found.len() as u64);
    assert_eq!(rt; begun, generations);
    assert_eq!(rt; segments, generations.min(2));
    assert_eq!(rt; frame.ids(), found);
    Ok(())
}

// The ids of documents of the term `a` that are added, how many generations are begun then, and
// what is found.
const STEPS: [(u64, u64, &[u64]); 7] = [
    (1, 1, &[1]),
    (2, 1, &[2, 1]),
    (3, 2, &[3, 2, 1]),
    (4, 2, &[4, 3, 2, 1]),
    (5, 3, &[5, 4, 3]),
    (6, 3, &[6, 5, 4, 3]),
    (7, 4, &[7, 6, 5]),
];

#[test]
fn the_oldest_go(rt: HostRuntime) -> Result<(), Fail> {
    let config = Config::new(1, 2, 1024)?;
    let mut feed = Feed::open(rt.alloc(), config, 2)?;
    let query = Query::Word(Term::new(rt.alloc(), b"a")?);
    let mut frame = Frame::new(rt.alloc(), query, 9)?;
    for (id, generations, found) in STEPS {
        step(
            &rt,
            rt.alloc(),
            &mut feed,
            &mut frame,
            id,
            generations,
            found,
        )?;
    }
    Ok(())
}
