ghost use Rattle.std.specs.Prelude.{◌≡◌, ℕ, ◌<◌, ◌≤◌, ◌↔◌, List, [], ◌++◌, length, drop, min, Some, IfOk};
ghost use Rattle.eb_io.specs.Source.{got, IsCount};

use crate::front::copy_front;
use crate::source::{Got, Source};
use eb_base::NoMemory;
use std::alloc::Global;
use std::marker::Model;

/// A source over bytes in memory, which tells them and never fails. Contracts see it as the bytes
/// that are left.
#[derive(Drop)]
pub struct SureSource {
    bytes: Vec<u8>,
    at: usize,
}

impl Model for SureSource {
    ghost use Rattle.std.specs.Prelude.{ℕ, ◌≤◌, List, length, drop};

    ghost Value = { List ℕ };

    ghost view = { λ s. drop s.at s.bytes.items };

    ghost invariant = { λ s. s.at ≤ length s.bytes.items };
}

impl SureSource {
    /// The source of these bytes, which are copied. Takes memory.
    pub fn new(alloc: Global, bytes: &[u8]) -> Result<SureSource, NoMemory>
        ensures { IfOk result (λ source. source ≡ bytes.now) }
    {
        let bytes = bytes.to_vec(alloc)?;
        Ok(SureSource { bytes, at: 0 })
    }
}

impl Source for SureSource {
    ghost left = { λ s. Some s };

    ghost faults = { λ _. 0 };

    fn read(&mut self, into: &mut [u8]) -> Got
        requires { 0 < length into.old }
        ensures count { IsCount (length into.old) result }
        ensures left { self.old ≡ got result into.new ++ self.new }
        ensures all { (n : ℕ) → result ≡ Got.Bytes n → n ≡ min (length into.old) (length self.old) }
        ensures end { (result ≡ Got.End) ↔ (self.old ≡ []) }
        ensures never { result ≡ Got.Failed → ⊥ }
    {
        let rest = &self.bytes[self.at..];
        if rest.is_empty() {
            return Got::End;
        }
        let most = rest.len();
        let count = copy_front(rest, into, most);
        self.at += count;
        Got::Bytes(count)
    }
}
