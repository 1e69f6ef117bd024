ghost use Rattle.std.specs.Prelude.{◌≡◌, ◌+◌, ◌-◌, ◌^◌, ◌<◌, length, min, None, IfOk, OnErr};

use crate::sink::{Sink, SinkFailed};
use std::marker::Model;

/// A sink that takes all bytes, keeps none and never fails. It tells only how many bytes it took.
/// Contracts see it as this number, which stays at 18,446,744,073,709,551,615.
#[derive(Debug, Drop)]
pub struct CountSink {
    count: u64,
}

impl Model for CountSink {
    ghost use Rattle.std.specs.Prelude.{ℕ};

    ghost Value = { ℕ };

    ghost view = { λ s. s.count };
}

impl CountSink {
    /// A sink that took nothing yet. Takes no memory.
    pub fn new() -> CountSink
        ensures { result ≡ 0 }
    {
        CountSink { count: 0 }
    }

    /// How many bytes it took.
    pub fn count(&self) -> u64
        ensures { result ≡ self.now }
    {
        self.count
    }
}

impl Sink for CountSink {
    ghost taken = { λ _. None };

    ghost faults = { λ _. 0 };

    fn put(&mut self, bytes: &[u8]) -> Result<usize, SinkFailed>
        requires { 0 < length bytes.now }
        ensures all { IfOk result (λ n. n ≡ length bytes.now) }
        ensures never { OnErr result ⊥ }
        ensures number { self.new ≡ min (self.old + length bytes.now) (2 ^ 64 - 1) }
    {
        self.count = self.count.saturating_add(bytes.len() as u64);
        Ok(bytes.len())
    }
}
