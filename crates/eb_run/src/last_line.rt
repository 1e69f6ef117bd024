ghost use Rattle.std.specs.Prelude.{◌≡◌, ◌≤◌, string_bytes};
ghost use Rattle.eb_io.specs.Faults.{HasRisen};
ghost use Rattle.eb_run.specs.Bench.{Closes};

use eb_io::{Sink, write_all};
use eb_lines::Status;

// Prints the last line, where `refused` lines are refused.
pub(crate) fn print_last<K: Sink>(refused: u64, text: &String, out: &mut K) -> Status
    ensures printed { Closes result refused (string_bytes text.now) (K.taken out.old) (K.taken out.new) }
    ensures memory { result ≡ Status.NoMemory → ⊥ }
    ensures fault { result ≡ Status.WriteFault → HasRisen (K.faults out.old) (K.faults out.new) }
    ensures later { K.faults out.old ≤ K.faults out.new }
{
    if write_all(out, text.as_bytes()).is_err() {
        return Status::WriteFault;
    }
    if refused > 0 {
        Status::Refused
    } else {
        Status::Done
    }
}
