//! Documents are added while queries are answered.
ghost use Rattle.std.specs.Prelude.{◌<◌};

use super::printed;
use eb_base::{Gate, Point};
use std::alloc::Global;
use std::sync::atomic::{AtomicU64, Ordering};
use std::test::Fail;
use std::thread;

// A gate that holds the second document's end until a count was loaded, and the load of a count
// below 3 until a further document was added, each for at most 10,000,000 turns. So neither hold
// ends if one thread does all.
#[derive(Drop)]
struct Crossing {
    added: AtomicU64,
    loaded: AtomicU64,
    ran_out: AtomicU64,
}

impl Crossing {
    fn hold(&self, flag: &AtomicU64, least: u64) {
        for _ in 0..10_000_000u64 {
            if flag.load(Ordering::SeqCst) >= least {
                return;
            }
            thread::yield_now();
        }
        self.ran_out.store(1, Ordering::SeqCst);
    }
}

impl Gate for Crossing {
    fn reached(&self, point: Point) {
        match point {
            Point::Added(count) => {
                self.added.store(count, Ordering::SeqCst);
                if count == 2 {
                    self.hold(&self.loaded, 1);
                }
            }
            Point::CountLoaded(count) => {
                self.loaded.store(1, Ordering::SeqCst);
                if count < 3 {
                    self.hold(&self.added, count.wrapping_add(1));
                }
            }
        }
    }
}

const TURNS: &str =
    "{\"id\":1,\"text\":\"a\"}\n?5 a\n{\"id\":2,\"text\":\"a\"}\n{\"id\":3,\"text\":\"a\"}\n?5 a\n";

const ALLOWED: [&str; 2] = [
    "2 seen 1: 1\n5 seen 3: 3 2 1\nend: documents 3, queries 2, refused 0\n",
    "2 seen 2: 2 1\n5 seen 3: 3 2 1\nend: documents 3, queries 2, refused 0\n",
];

#[test]
fn documents_are_added_while_a_query_is_answered(rt: HostRuntime) -> Result<(), Fail> {
    let gate = Crossing {
        added: AtomicU64::new(0),
        loaded: AtomicU64::new(0),
        ran_out: AtomicU64::new(0),
    };
    let text = printed(&rt, rt.alloc(), "run --overlap --terms=1024", TURNS, &gate)?;
    assert_eq!(rt; gate.ran_out.load(Ordering::SeqCst), 0);
    assert!(rt;
        ALLOWED
            .iter()
            .any(|allowed| text.as_slice() == allowed.as_bytes())
    );
    Ok(())
}

// Two queries in a row, with documents after them.
const TWO: &str =
    "{\"id\":1,\"text\":\"a\"}\n?5 a\n?5 a\n{\"id\":2,\"text\":\"a\"}\n{\"id\":3,\"text\":\"a\"}\n?5 a\n";

const SEEN: [&str; 3] = ["seen 1: 1\n", "seen 2: 2 1\n", "seen 3: 3 2 1\n"];

// What is printed where the first two queries see this many documents less one.
fn text_of(alloc: Global, first: usize, second: usize) -> Result<String, Fail>
    requires { (first < 3) × (second < 3) }
{
    let mut text = String::from_str(alloc, "2 ")?;
    text.push_str(SEEN[first])?;
    text.push_str("3 ")?;
    text.push_str(SEEN[second])?;
    text.push_str("6 seen 3: 3 2 1\nend: documents 3, queries 3, refused 0\n")?;
    Ok(text)
}

// Whether the text is that of a run in which no query sees fewer documents than one before it.
fn is_allowed(alloc: Global, text: &[u8]) -> Result<bool, Fail> {
    for first in 0..3 {
        for second in first..3 {
            let allowed = text_of(alloc, first, second)?;
            if text == allowed.as_bytes() {
                return Ok(true);
            }
        }
    }
    Ok(false)
}

#[test]
fn documents_are_added_while_two_queries_are_answered(rt: HostRuntime) -> Result<(), Fail> {
    let gate = Crossing {
        added: AtomicU64::new(0),
        loaded: AtomicU64::new(0),
        ran_out: AtomicU64::new(0),
    };
    let text = printed(&rt, rt.alloc(), "run --overlap --terms=1024", TWO, &gate)?;
    assert_eq!(rt; gate.ran_out.load(Ordering::SeqCst), 0);
    assert!(rt; is_allowed(rt.alloc(), text.as_slice())?);
    Ok(())
}
