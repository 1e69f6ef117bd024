ghost use Rattle.std.specs.Prelude.{◌≡◌, ℕ, ◌<◌, ◌≤◌, List, length, take, Option, IfOk, OnErr};

use std::error::Error;
use std::fmt;

/// A sink took nothing, since it failed. A later put may go on.
#[derive(Clone, Copy, Debug, PartialEq, Eq)]
pub struct SinkFailed;

impl fmt::Display for SinkFailed {
    ghost use Rattle.std.specs.Prelude.{Some, codes};

    ghost output = { λ _. Some (codes "write fault") };

    fn fmt<W: fmt::Write>(&self, f: &mut fmt::Formatter<W>) -> fmt::Result {
        f.write_str("write fault")
    }
}

impl Error for SinkFailed {}

/// Where bytes go.
///
/// Contracts see two things of a sink: the bytes that it took so far, where it tells them, and the
/// number of its faults. This number never falls, and stays at 18,446,744,073,709,551,615.
pub trait Sink {
    ghost use Rattle.eb_io.specs.Faults.{HasRisen};
    ghost use Rattle.eb_io.specs.Sink.{grown, put_count};

    // the bytes taken so far, where they are known
    ghost taken: { Self → Option (List ℕ) };
    // how often it failed
    ghost faults: { Self → ℕ };

    /// Puts the first of the bytes, of which there is at least one, and returns how many it took.
    /// `SinkFailed` only where the number of faults rose in this call, and then nothing was taken.
    /// Takes no memory.
    fn put(&mut self, bytes: &[u8]) -> Result<usize, SinkFailed>
        requires { 0 < length bytes.now }
        ensures count { IfOk result (λ n. (1 ≤ n) × (n ≤ length bytes.now)) }
        ensures taken { taken self.new ≡ grown (taken self.old) (take (put_count result) bytes.now) }
        ensures later { faults self.old ≤ faults self.new }
        ensures failed { OnErr result (HasRisen (faults self.old) (faults self.new)) };
}
