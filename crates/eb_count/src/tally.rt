ghost use Rattle.std.specs.Prelude.{◌≡◌, ℕ, ◌+◌, ◌≤◌, List, [], length, replicate, IfOk, IsTrue, IsFalse, ◌↔◌};
ghost use Rattle.eb_count.specs.Tallies.{HasAdded};

use eb_base::NoMemory;
use std::alloc::Global;
use std::marker::Model;

/// The matches that a search counted: all of them, and those whose ids lie in each of its buckets.
/// The buckets are of one width and follow one another from a start on: an id lies in bucket i
/// where it is at least the start and i widths, and less than one width more. So where ids are
/// times, the buckets are a histogram over time.
#[derive(Debug, Drop)]
pub struct Tally {
    start: u64,
    width: u64,
    total: u64,
    buckets: Vec<u64>,
}

impl Model for Tally {
    ghost use Rattle.std.specs.Prelude.{◌≤◌};
    ghost use Rattle.eb_count.specs.Tallies.{Numbers};

    ghost Value = { Numbers };

    ghost view = { λ t. record { start = t.start; width = t.width; total = t.total; buckets = t.buckets.items } };

    ghost invariant = { λ t. 1 ≤ t.width };
}

impl Tally {
    /// A tally without buckets, which counts all matches. Takes no memory.
    pub fn of_all(alloc: Global) -> Tally
        ensures { result ≡ record { start = 0; width = 1; total = 0; buckets = [] } }
    {
        Tally {
            start: 0,
            width: 1,
            total: 0,
            buckets: Vec::new(alloc),
        }
    }

    /// A tally with `number` buckets, each of `width` ids, from the id `start` on. Takes all memory
    /// that it needs.
    pub fn with_buckets(
        alloc: Global,
        start: u64,
        width: u64,
        number: usize,
    ) -> Result<Tally, NoMemory>
        requires { 1 ≤ width }
        ensures { IfOk result (λ t. t ≡ record { start = start; width = width; total = 0; buckets = replicate number 0 }) }
    {
        let buckets = vec![in alloc; 0u64; number]?;
        Ok(Tally {
            start,
            width,
            total: 0,
            buckets,
        })
    }

    /// Sets all numbers to 0. Takes no memory.
    pub fn clear(&mut self)
        ensures { self.new ≡ record { start = self.old.start; width = self.old.width; total = 0; buckets = replicate (length self.old.buckets) 0 } }
    {
        self.total = 0;
        self.buckets.as_mut_slice().fill(0);
    }

    /// Whether there are buckets, so that the ids of the matches count. Takes no memory.
    pub fn wants_ids(&self) -> bool
        ensures { IsFalse result ↔ (length self.now.buckets ≡ 0) }
    {
        !self.buckets.is_empty()
    }

    /// Counts one more match, whose document has this id. Numbers stay at 2^64 - 1. Takes no
    /// memory.
    pub fn add(&mut self, id: u64)
        ensures { HasAdded id self.old self.new }
    {
        self.total = self.total.saturating_add(1);
        if id < self.start {
            return;
        }
        let at = (id - self.start) / self.width;
        if at >= self.buckets.len() as u64 {
            return;
        }
        let more = self.buckets[at as usize].saturating_add(1);
        self.buckets[at as usize] = more;
    }

    /// Where the buckets start. Takes no memory.
    pub fn start(&self) -> u64
        ensures { result ≡ self.now.start }
    {
        self.start
    }

    /// How wide each bucket is. Takes no memory.
    pub fn width(&self) -> u64
        ensures result { result ≡ self.now.width }
        ensures some { 1 ≤ result }
    {
        self.width
    }

    /// How many matches it counted. Takes no memory.
    pub fn total(&self) -> u64
        ensures { result ≡ self.now.total }
    {
        self.total
    }

    /// How many of them lie in each bucket. Takes no memory.
    pub fn buckets(&self) -> &[u64]
        ensures { result.now ≡ self.now.buckets }
    {
        self.buckets.as_slice()
    }
}
