ghost use Rattle.std.specs.Prelude.{◌≡◌, ◌<◌, ◌≤◌, [], ◌++◌, length, take, Some, IfOk, OnOk, OnErr};
ghost use Rattle.eb_io.specs.Faults.{HasRisen, one_more};
ghost use Rattle.eb_io.specs.Sink.{put_count};
ghost use Rattle.eb_io.specs.Memory.{Takes};

use crate::front::is_listed;
use crate::sink::{Sink, SinkFailed};
use eb_base::NoMemory;
use std::alloc::Global;
use std::marker::Model;

/// A sink into memory, which tells its bytes and never grows. It takes at most `piece` bytes a
/// call, and fails exactly at the calls that were listed and where all its room is taken. Calls are
/// counted from 1 up to 18,446,744,073,709,551,615, and at that number none fails for being listed.
#[derive(Drop)]
pub struct MemSink {
    bytes: Vec<u8>,
    room: usize,
    piece: usize,
    failing: Vec<u64>,
    calls: u64,
    faults: u64,
}

impl Model for MemSink {
    ghost use Rattle.std.specs.Prelude.{◌≤◌, length, vec_capacity};
    ghost use Rattle.eb_io.specs.Memory.{SinkState};

    ghost Value = { SinkState };

    ghost view = { λ s. record {
      taken = s.bytes.items;
      room = s.room;
      piece = s.piece;
      failing = s.failing.items;
      calls = s.calls;
      faults = s.faults;
    } };

    ghost invariant = { λ s. (length s.bytes.items ≤ s.room) × (s.room ≤ vec_capacity s.bytes) × (1 ≤ s.piece) };
}

impl MemSink {
    /// An empty sink with room for `room` bytes, which are reserved at once. It takes at most
    /// `piece` bytes a call, at least one, and fails at the calls whose numbers, from 1, are in
    /// `failing`. Takes memory; later calls take none.
    pub fn new(
        alloc: Global,
        room: usize,
        piece: usize,
        failing: &[u64],
    ) -> Result<MemSink, NoMemory>
        requires { 1 ≤ piece }
        ensures { IfOk result (λ sink.
            sink ≡ record { taken = []; room = room; piece = piece; failing = failing.now; calls = 0; faults = 0 }) }
    {
        let bytes = Vec::with_capacity(alloc, room)?;
        let failing = failing.to_vec(alloc)?;
        Ok(MemSink {
            bytes,
            room,
            piece,
            failing,
            calls: 0,
            faults: 0,
        })
    }

    /// The bytes that were taken, in order. Takes no memory.
    pub fn bytes(&self) -> &[u8]
        ensures { result.now ≡ self.now.taken }
    {
        self.bytes.as_slice()
    }
}

impl Sink for MemSink {
    ghost taken = { λ s. Some s.taken };

    ghost faults = { λ s. s.faults };

    fn put(&mut self, bytes: &[u8]) -> Result<usize, SinkFailed>
        requires { 0 < length bytes.now }
        ensures count { IfOk result (λ n. (1 ≤ n) × (n ≤ length bytes.now)) }
        ensures taken { self.new.taken ≡ self.old.taken ++ take (put_count result) bytes.now }
        ensures later { self.old.faults ≤ self.new.faults }
        ensures failed { OnErr result (HasRisen self.old.faults self.new.faults) }

        ensures answer { Takes self.old (length bytes.now) result }
        ensures state { self.new ≡ record self.old {
          taken = self.new.taken;
          calls = one_more self.old.calls;
          faults = self.new.faults;
        } }
        ensures faults { OnErr result (self.new.faults ≡ one_more self.old.faults) }
        ensures no_fault { OnOk result (self.new.faults ≡ self.old.faults) }
    {
        self.calls = self.calls.saturating_add(1);
        let free = self.room - self.bytes.len();
        if free == 0 || is_listed(&self.failing, self.calls) {
            self.faults = self.faults.saturating_add(1);
            return Err(SinkFailed);
        }
        let count = self.piece.min(bytes.len().min(free));
        self.bytes.extend_from_slice(&bytes[..count]).unwrap();
        Ok(count)
    }
}
