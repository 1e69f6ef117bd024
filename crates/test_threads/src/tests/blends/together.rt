//! The parts of a blend add concurrently, and what comes of each document is what comes of it one
//! after the other.
use super::made::document;
use eb_base::{Config, Document, Gate, OpenGate, Point};
use eb_blend::{Blend, BlendRefusal};
use std::alloc::Global;
use std::sync::atomic::{AtomicU64, Ordering};
use std::test::Fail;
use std::thread;

// A gate at which two adds meet: each is held until another came there, for at most 10,000,000
// turns.
#[derive(Drop)]
struct Meeting {
    came: AtomicU64,
    ran_out: AtomicU64,
}

impl Meeting {
    fn hold(&self) {
        for _ in 0..10_000_000u64 {
            if self.came.load(Ordering::SeqCst) >= 2 {
                return;
            }
            thread::yield_now();
        }
        self.ran_out.store(1, Ordering::SeqCst);
    }
}

impl Gate for Meeting {
    fn reached(&self, point: Point) {
        if let Point::Added(_) = point {
            let _came = self.came.fetch_add(1, Ordering::SeqCst);
            self.hold();
        }
    }
}

// Documents of these ids, and after each tenth of them an item that is none.
fn items(alloc: Global, ids: &[u64]) -> Result<Vec<Result<Document, u64>>, Fail> {
    let mut items = Vec::new(alloc);
    for id in ids {
        items.push(Ok(document(alloc, *id)?))?;
        if *id % 10 == 0 {
            items.push(Err(*id))?;
        }
    }
    Ok(items)
}

// The numbers from the first to below the last.
fn numbers(alloc: Global, first: u64, last: u64) -> Result<Vec<u64>, Fail> {
    let mut ids = Vec::new(alloc);
    for id in first..last {
        ids.push(id)?;
    }
    Ok(ids)
}

// The first add of a part is held until another part adds, too.
#[test]
fn two_parts_add_at_once(rt: HostRuntime) -> Result<(), Fail> {
    let alloc = rt.alloc();
    let (blend, mut writer, _converter) = Blend::open(alloc, 2, Config::new(1, 100, 1024)?)?;
    let gate = Meeting {
        came: AtomicU64::new(0),
        ran_out: AtomicU64::new(0),
    };
    let ids = numbers(alloc, 1, 65)?;
    let items = items(alloc, ids.as_slice())?;
    let outcomes = writer.add_all(&rt, alloc, &blend, items.as_slice(), &gate)?;
    assert!(rt; outcomes.iter().all(|outcome| outcome.is_none()));
    assert_eq!(rt; writer.accepted(), 64);
    assert_eq!(rt; gate.ran_out.load(Ordering::SeqCst), 0);
    Ok(())
}

// Two parts have room for 20 documents each. The ids 1 to 40 fill them, and 41 to 44 find none; 40
// isn't above the last one, and 41 is, since it wasn't accepted.
#[test]
fn each_document_is_told_of(rt: HostRuntime) -> Result<(), Fail> {
    let alloc = rt.alloc();
    let (blend, mut writer, _converter) = Blend::open(alloc, 2, Config::new(1, 20, 1024)?)?;
    let mut ids = numbers(alloc, 1, 45)?;
    ids.push(40)?;
    ids.push(41)?;
    let items = items(alloc, ids.as_slice())?;
    let outcomes = writer.add_all(&rt, alloc, &blend, items.as_slice(), &OpenGate)?;
    if outcomes.len() != 51 {
        return Err(Fail::new("another number of outcomes"));
    }
    let (fitting, others) = outcomes.as_slice().split_at(44);
    assert!(rt; fitting.iter().all(|outcome| outcome.is_none()));
    assert_eq!(rt;
        others,
        [
            Some(BlendRefusal::Full { part: 1 }),
            Some(BlendRefusal::Full { part: 0 }),
            Some(BlendRefusal::Full { part: 1 }),
            Some(BlendRefusal::Full { part: 0 }),
            Some(BlendRefusal::NotRising { last: 40 }),
            None,
            Some(BlendRefusal::Full { part: 1 }),
        ]
        .as_slice()
    );
    assert_eq!(rt; writer.accepted(), 40);
    Ok(())
}
