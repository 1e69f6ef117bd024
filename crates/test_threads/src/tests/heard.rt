//! A gate that keeps what it observed.
use eb_base::{Gate, Point};
use std::sync::atomic::{AtomicU64, Ordering};

// The count of the last document that was added, and the counts that searches loaded, summed.
#[derive(Drop)]
pub(super) struct Heard {
    added: AtomicU64,
    loaded: AtomicU64,
}

impl Heard {
    pub(super) fn new() -> Heard {
        Heard {
            added: AtomicU64::new(0),
            loaded: AtomicU64::new(0),
        }
    }

    pub(super) fn added(&self) -> u64 {
        self.added.load(Ordering::SeqCst)
    }

    pub(super) fn loaded(&self) -> u64 {
        self.loaded.load(Ordering::SeqCst)
    }
}

impl Gate for Heard {
    fn reached(&self, point: Point) {
        match point {
            Point::Added(count) => self.added.store(count, Ordering::SeqCst),
            Point::CountLoaded(count) => {
                self.loaded.fetch_add(count, Ordering::SeqCst);
            }
        }
    }
}
