ghost use Rattle.std.specs.Prelude.{◌≡◌, ◌+◌, ◌<◌, ◌≤◌, ◌++◌, length, drop, Some, IfOk};
ghost use Rattle.eb_io.specs.Faults.{HasRisen, one_more};
ghost use Rattle.eb_io.specs.Source.{got, got_count, IsCount};
ghost use Rattle.eb_io.specs.Memory.{Answers};

use crate::front::{copy_front, is_listed};
use crate::source::{Got, Source};
use eb_base::NoMemory;
use std::alloc::Global;
use std::marker::Model;

/// A source over bytes in memory, which tells them. It gives at most `piece` bytes a call, and
/// fails exactly at the calls that were listed. Calls are counted from 1 up to
/// 18,446,744,073,709,551,615, and at that number none fails.
#[derive(Drop)]
pub struct MemSource {
    bytes: Vec<u8>,
    at: usize,
    piece: usize,
    failing: Vec<u64>,
    calls: u64,
    faults: u64,
}

impl Model for MemSource {
    ghost use Rattle.std.specs.Prelude.{◌≤◌, length, drop};
    ghost use Rattle.eb_io.specs.Memory.{SourceState};

    ghost Value = { SourceState };

    ghost view = { λ s. record {
      left = drop s.at s.bytes.items;
      piece = s.piece;
      failing = s.failing.items;
      calls = s.calls;
      faults = s.faults;
    } };

    ghost invariant = { λ s. (s.at ≤ length s.bytes.items) × (1 ≤ s.piece) };
}

impl MemSource {
    /// The source of these bytes, which are copied. It gives at most `piece` bytes a call, at least
    /// one, and fails at the calls whose numbers, from 1, are in `failing`. Takes memory.
    pub fn new(
        alloc: Global,
        bytes: &[u8],
        piece: usize,
        failing: &[u64],
    ) -> Result<MemSource, NoMemory>
        requires { 1 ≤ piece }
        ensures { IfOk result (λ source.
            source ≡ record { left = bytes.now; piece = piece; failing = failing.now; calls = 0; faults = 0 }) }
    {
        let bytes = bytes.to_vec(alloc)?;
        let failing = failing.to_vec(alloc)?;
        Ok(MemSource {
            bytes,
            at: 0,
            piece,
            failing,
            calls: 0,
            faults: 0,
        })
    }
}

impl Source for MemSource {
    ghost left = { λ s. Some s.left };

    ghost faults = { λ s. s.faults };

    fn read(&mut self, into: &mut [u8]) -> Got
        requires { 0 < length into.old }
        ensures count { IsCount (length into.old) result }
        ensures left { self.old.left ≡ got result into.new ++ self.new.left }
        ensures later { self.old.faults ≤ self.new.faults }
        ensures failed { result ≡ Got.Failed → HasRisen self.old.faults self.new.faults }

        ensures answer { Answers self.old (length into.old) result }
        ensures state { self.new ≡ record self.old {
          left = drop (got_count result) self.old.left;
          calls = one_more self.old.calls;
          faults = self.new.faults;
        } }
        ensures faults { result ≡ Got.Failed → self.new.faults ≡ one_more self.old.faults }
        ensures no_fault { (result ≡ Got.Failed → ⊥) → self.new.faults ≡ self.old.faults }
    {
        self.calls = self.calls.saturating_add(1);
        if is_listed(&self.failing, self.calls) {
            self.faults = self.faults.saturating_add(1);
            return Got::Failed;
        }
        let rest = &self.bytes[self.at..];
        if rest.is_empty() {
            return Got::End;
        }
        let count = copy_front(rest, into, self.piece);
        self.at += count;
        Got::Bytes(count)
    }
}
