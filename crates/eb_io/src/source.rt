ghost use Rattle.std.specs.Prelude.{◌≡◌, ℕ, ◌<◌, ◌≤◌, List, length, Option};

/// What a read of a source gave.
#[derive(Clone, Copy, Debug, PartialEq, Eq)]
pub enum Got {
    /// This many bytes, at least one, which are at the start of the buffer.
    Bytes(usize),
    /// Nothing, since the source is at its end.
    End,
    /// Nothing, since the read failed. A later read may go on.
    Failed,
}

/// Where bytes come from.
///
/// Contracts see two things of a source: the bytes that are left, where it tells them, and the
/// number of its faults. This number never falls, and stays at 18,446,744,073,709,551,615.
pub trait Source {
    ghost use Rattle.eb_io.specs.Faults.{HasRisen};
    ghost use Rattle.eb_io.specs.Source.{after, got, IsCount, IsEmpty};

    // the bytes still to come, where they are known
    ghost left: { Self → Option (List ℕ) };
    // how often it failed
    ghost faults: { Self → ℕ };

    /// Reads the next bytes into the start of the buffer, which isn't empty. `End` only where
    /// nothing is left, `Failed` only where the number of faults rose in this call; neither takes a
    /// byte. Takes no memory.
    fn read(&mut self, into: &mut [u8]) -> Got
        requires { 0 < length into.old }
        ensures count { IsCount (length into.old) result }
        ensures left { left self.old ≡ after (got result into.new) (left self.new) }
        ensures end { result ≡ Got.End → IsEmpty (left self.old) }
        ensures later { faults self.old ≤ faults self.new }
        ensures failed { result ≡ Got.Failed → HasRisen (faults self.old) (faults self.new) };
}
