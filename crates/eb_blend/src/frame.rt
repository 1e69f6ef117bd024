ghost use Rattle.std.specs.Prelude.{◌≡◌, ◌≤◌, ◌*◌, ℕ, [], map, length, replicate, take, vec_capacity, IfOk};
ghost use Rattle.eb_base.specs.Query.{Tree, tree, IsWellFormed};
ghost use Rattle.eb_cursor.specs.Frames.{ids_of};
ghost use Rattle.eb_blend.specs.Blended.{falling};
ghost use Rattle.eb_blend.specs.Frames.{AllAsk, Asks, found_of, searched_of};
ghost use Rattle.eb_blend.specs.Parts.{joined};

use crate::order::keep_greatest;
use eb_base::{NoMemory, Query};
use eb_cursor::Frame;
use std::alloc::Global;

/// A query, the most ids of an answer (`k`), the ids found, and the length of each part's prefix
/// that was searched, with all memory that searches of this many parts need. It serves any number
/// of searches; only `new` takes memory.
#[derive(Drop)]
pub struct BlendFrame {
    k: u32,
    pub(crate) frames: Vec<Frame>,
    pub(crate) lengths: Vec<u64>,
    ids: Vec<u64>,
}

impl BlendFrame {
    /// A frame without ids for searches of `parts` parts, from 1 to 16, for a query that is well
    /// formed, of which it makes copies, and for a `k` from 1 to 1,000. Takes all memory that its
    /// searches need, at once.
    pub fn new(alloc: Global, query: &Query, k: u32, parts: u32) -> Result<BlendFrame, NoMemory>
        requires well_formed { IsWellFormed (tree query.now) }
        requires k { (1 ≤ k) × (k ≤ 1000) }
        requires parts { (1 ≤ parts) × (parts ≤ 16) }
        ensures asks { IfOk result (λ f. Asks f (tree query.now) k parts) }
        ensures ids { IfOk result (λ f. found_of f ≡ []) }
        ensures lengths { IfOk result (λ f. searched_of f ≡ replicate parts 0) }
    {
        let ids = Vec::with_capacity(alloc, (parts * k) as usize)?;
        let mut lengths = Vec::with_capacity(alloc, parts as usize)?;
        let mut frames = Vec::with_capacity(alloc, parts as usize)?;
        for _part in 0..parts {
            lengths.push(0)?;
            frames.push(Frame::new(alloc, query.copy(alloc)?, k)?)?;
        }
        Ok(BlendFrame {
            k,
            frames,
            lengths,
            ids,
        })
    }

    // Blends the ids that the parts' frames hold.
    pub(crate) fn blend(&mut self)
        requires { (q : Tree) × (k : ℕ) × (parts : ℕ) × Asks self.old q k parts }
        ensures asks { (q : Tree) (k parts : ℕ) → Asks self.old q k parts → Asks self.new q k parts }
        ensures frames { self.new.frames.items ≡ self.old.frames.items }
        ensures lengths { searched_of self.new ≡ searched_of self.old }
        ensures ids { found_of self.new ≡ take self.old.k (falling (joined (map ids_of self.old.frames.items))) }
    {
        gather(self.frames.as_slice(), &mut self.ids);
        keep_greatest(&mut self.ids, self.k as usize);
    }

    /// The ids, from the greatest to the least. Takes no memory.
    pub fn ids(&self) -> &[u64]
        ensures { result.now ≡ found_of self.now }
    {
        self.ids.as_slice()
    }

    /// How many documents the last search searched of each part. Takes no memory.
    pub fn lengths(&self) -> &[u64]
        ensures { result.now ≡ searched_of self.now }
    {
        self.lengths.as_slice()
    }
}

// Puts the ids of all frames in a row, each as often as they hold it.
fn gather(frames: &[Frame], ids: &mut Vec<u64>)
    requires { (q : Tree) × (k : ℕ) × AllAsk q k frames.now × (length frames.now * k ≤ vec_capacity ids.old) }
    ensures ids { ids.new.items ≡ joined (map ids_of frames.now) }
    ensures room { vec_capacity ids.old ≤ vec_capacity ids.new }
{
    ids.clear();
    for frame in frames {
        if ids.extend_from_slice(frame.ids()).is_err() {
            unreachable!();
        }
    }
}
