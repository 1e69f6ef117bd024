ghost use Rattle.std.specs.Prelude.{◌≡◌, ℕ, ◌+◌, ◌-◌, ◌<◌, ◌≤◌, List, length, take, Option};
ghost use Rattle.eb_io.specs.Faults.{HasRisen};
ghost use Rattle.eb_io.specs.Source.{after, got_count, IsCount, IsEmpty};

use eb_io::{Got, Source};

// Reads after the first bytes of the buffer, up to a place in it.
pub(crate) fn read_behind<S: Source>(
    source: &mut S,
    buffer: &mut [u8],
    from: usize,
    to: usize,
) -> Got
    requires some { from < to }
    requires within { to ≤ length buffer.old }
    ensures count { IsCount (to - from) result }
    ensures left { (first : Option (List ℕ)) → first ≡ after (take from buffer.old) (S.left source.old)
        → first ≡ after (take (from + got_count result) buffer.new) (S.left source.new) }
    ensures before { take from buffer.new ≡ take from buffer.old }
    ensures len { length buffer.new ≡ length buffer.old }
    ensures end { result ≡ Got.End → IsEmpty (S.left source.new) }
    ensures later { S.faults source.old ≤ S.faults source.new }
    ensures failed { result ≡ Got.Failed → HasRisen (S.faults source.old) (S.faults source.new) }
{
    source.read(&mut buffer[from..to])
}
