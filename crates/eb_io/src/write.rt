ghost use Rattle.std.specs.Prelude.{◌≡◌, ℕ, ◌<◌, ◌≤◌, length, take, OnOk, OnErr};
ghost use Rattle.eb_io.specs.Faults.{HasRisen};
ghost use Rattle.eb_io.specs.Sink.{grown};

use crate::sink::{Sink, SinkFailed};

/// Puts all the bytes, one put after another. `SinkFailed` only where the sink's number of faults
/// rose in this call, and then the sink took a prefix of the bytes. Takes no memory.
pub fn write_all<K: Sink>(sink: &mut K, bytes: &[u8]) -> Result<(), SinkFailed>
    ensures ok { OnOk result (K.taken sink.new ≡ grown (K.taken sink.old) bytes.now) }
    ensures err { OnErr result ((n : ℕ) × (n < length bytes.now)
        × (K.taken sink.new ≡ grown (K.taken sink.old) (take n bytes.now))) }
    ensures later { K.faults sink.old ≤ K.faults sink.new }
    ensures failed { OnErr result (HasRisen (K.faults sink.old) (K.faults sink.new)) }
{
    let mut at = 0;
    while at < bytes.len() {
        at += sink.put(&bytes[at..])?;
    }
    Ok(())
}
