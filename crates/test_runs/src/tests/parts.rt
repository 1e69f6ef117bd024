//! The parts of a run with overlap add at once.
use super::printed;
use eb_base::{Gate, Point};
use std::alloc::{AllocError, Global};
use std::fmt::Write;
use std::sync::atomic::{AtomicU64, Ordering};
use std::test::Fail;
use std::thread;

// A gate at which two first adds meet: each is held until another part added its first document,
// too, for at most 10,000,000 turns. So no hold ends if one thread does all.
#[derive(Drop)]
struct Firsts {
    came: AtomicU64,
    ran_out: AtomicU64,
}

impl Firsts {
    fn hold(&self) {
        for _ in 0..10_000_000u64 {
            if self.came.load(Ordering::SeqCst) >= 2 {
                return;
            }
            thread::yield_now();
        }
        self.ran_out.store(1, Ordering::SeqCst);
    }
}

impl Gate for Firsts {
    fn reached(&self, point: Point) {
        if let Point::Added(1) = point {
            let _came = self.came.fetch_add(1, Ordering::SeqCst);
            self.hold();
        }
    }
}

// Documents with the ids from 1 on, and a query after them.
fn lines(alloc: Global, documents: u64) -> Result<String, AllocError> {
    let mut lines = String::new(alloc);
    for id in 0..documents {
        let next = id.wrapping_add(1);
        write!(lines, "{{\"id\":{next},\"text\":\"a\"}}\n")?;
    }
    lines.push_str("?2 a\n")?;
    Ok(lines)
}

#[test]
fn two_parts_add_at_once(rt: HostRuntime) -> Result<(), Fail> {
    let gate = Firsts {
        came: AtomicU64::new(0),
        ran_out: AtomicU64::new(0),
    };
    let input = lines(rt.alloc(), 64)?;
    let line = "run --parts 2 --overlap --terms 1024";
    let text = printed(&rt, rt.alloc(), line, input.as_str(), &gate)?;
    assert_eq!(rt; gate.ran_out.load(Ordering::SeqCst), 0);
    let whole = b"65 seen 64: 64 63\nend: documents 64, queries 1, refused 0\n";
    assert!(rt; text.as_slice() == whole.as_slice());
    Ok(())
}
