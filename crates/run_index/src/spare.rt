//! The memory of a query that was answered, for the next one.
ghost use Rattle.std.specs.Prelude.{◌≡◌, ◌≤◌, [], IfOk, box_value};
ghost use Rattle.eb_base.specs.Query.{tree, IsWellFormed};
ghost use Rattle.eb_cursor.specs.Frames.{query_of, k_of, ids_of};

use eb_base::{NoMemory, Query};
use eb_cursor::Frame;
use std::alloc::Global;
use std::marker::Model;

/// A frame that is kept for its memory alone, if there is one: to a contract all are the same.
#[derive(Drop)]
pub struct Spare {
    frame: Option<Box<Frame>>,
}

impl Model for Spare {
    ghost Value = { Unit {0} };

    ghost view = { λ spare. tt };
}

impl Spare {
    /// None is kept. Takes no memory.
    pub fn new() -> Spare {
        Spare { frame: None }
    }

    /// A frame without ids for a query that is well formed and a `k` from 1 to 1,000, in the memory
    /// of the kept frame, or in memory of its own. Without memory the query is dropped.
    #[inline(always)]
    pub fn frame(&mut self, alloc: Global, query: Query, k: u32) -> Result<Box<Frame>, NoMemory>
        requires well_formed { IsWellFormed (tree query) }
        requires k { (1 ≤ k) × (k ≤ 1000) }
        ensures query { IfOk result (λ f. query_of (box_value f) ≡ tree query) }
        ensures k { IfOk result (λ f. k_of (box_value f) ≡ k) }
        ensures ids { IfOk result (λ f. ids_of (box_value f) ≡ []) }
    {
        match self.frame.take() {
            Some(kept) => {
                let mut frame = kept;
                frame.renew(query, k)?;
                Ok(frame)
            }
            None => {
                let frame = Frame::new(alloc, query, k)?;
                Ok(Box::new(alloc, frame)?)
            }
        }
    }

    /// Keeps the memory of a frame. Takes none.
    #[inline(always)]
    pub fn keep(&mut self, frame: Box<Frame>) {
        self.frame = Some(frame);
    }
}
