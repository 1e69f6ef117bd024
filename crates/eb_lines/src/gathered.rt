//! Output in large pieces: what is printed is buffered, and written where the buffer is large and
//! before a program waits.
ghost use Rattle.std.specs.Prelude.{◌≡◌, ◌≤◌, ◌++◌, List, [], ℕ, take, OnErr, OnOk};
ghost use Rattle.eb_io.specs.Faults.{HasRisen};
ghost use Rattle.eb_io.specs.Sink.{grown};

use eb_io::{Sink, SinkFailed, write_all};

// How many bytes are buffered before they are written, where the source isn't read before.
const GATHERED: usize = 65_536;

/// Writes the buffer, and empties it.
pub fn write_gathered<K: Sink>(text: &mut Vec<u8>, out: &mut K) -> Result<(), SinkFailed>
    ensures ok { OnOk result ((K.taken out.new ≡ grown (K.taken out.old) text.old.items) × (text.new.items ≡ [])) }
    ensures err { OnErr result ((n : ℕ) × (K.taken out.new ≡ grown (K.taken out.old) (take n text.old.items))) }
    ensures later { K.faults out.old ≤ K.faults out.new }
    ensures failed { OnErr result (HasRisen (K.faults out.old) (K.faults out.new)) }
{
    write_all(out, text.as_slice())?;
    text.clear();
    Ok(())
}

/// Writes the buffer, and empties it, where it is large, 64 KiB.
pub fn write_much<K: Sink>(text: &mut Vec<u8>, out: &mut K) -> Result<(), SinkFailed>
    ensures ok { OnOk result ((front : List ℕ) × (K.taken out.new ≡ grown (K.taken out.old) front) × (text.old.items ≡ front ++ text.new.items)) }
    ensures err { OnErr result ((n : ℕ) × (K.taken out.new ≡ grown (K.taken out.old) (take n text.old.items))) }
    ensures later { K.faults out.old ≤ K.faults out.new }
    ensures failed { OnErr result (HasRisen (K.faults out.old) (K.faults out.new)) }
{
    if text.len() < GATHERED {
        return Ok(());
    }
    write_gathered(text, out)
}
