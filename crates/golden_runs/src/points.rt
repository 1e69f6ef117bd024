//! A gate that counts what it observes, and keeps the order.

use eb_base::{Gate, Point};
use std::sync::atomic::{AtomicU64, Ordering};

// How many documents were added and how many counts loaded, and a number that all points in order
// come to: where threads reach the gate at once, it is no number of theirs.
#[derive(Drop)]
pub(crate) struct Points {
    pub(crate) added: AtomicU64,
    pub(crate) loaded: AtomicU64,
    pub(crate) order: AtomicU64,
}

// The number of the points, where a further one is reached after them.
pub(crate) fn ordered(order: u64, point: Point) -> u64 {
    let code = match point {
        Point::Added(count) => count.wrapping_mul(2).wrapping_add(1),
        Point::CountLoaded(count) => count.wrapping_mul(2).wrapping_add(2),
    };
    order.wrapping_mul(1_000_003).wrapping_add(code)
}

impl Points {
    pub(crate) fn new() -> Points {
        Points {
            added: AtomicU64::new(0),
            loaded: AtomicU64::new(0),
            order: AtomicU64::new(0),
        }
    }
}

impl Gate for Points {
    fn reached(&self, point: Point) {
        match point {
            Point::Added(_) => self.added.fetch_add(1, Ordering::SeqCst),
            Point::CountLoaded(_) => self.loaded.fetch_add(1, Ordering::SeqCst),
        };
        let order = self.order.load(Ordering::SeqCst);
        self.order.store(ordered(order, point), Ordering::SeqCst);
    }
}
