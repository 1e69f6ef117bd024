//! Lines are passed to an office.
ghost use Rattle.std.specs.Prelude.{◌≡◌};
ghost use Rattle.run_store.specs.Rules.{Rules, is_bad};
ghost use Rattle.run_store.specs.Sees.{at_least};
ghost use Rattle.run_store.specs.Text.{EndsOf};
ghost use Rattle.eb_fields.specs.Dialect.{dialect_of};
ghost use Rattle.eb_io.specs.Faults.{HasRisen};
ghost use Rattle.run_with_workers.specs.Offices.{Opens};

use crate::office::Office;
use crate::program::WorkersProgram;
use crate::serving::Serving;
use eb_base::Gate;
use eb_fields::Dialect;
use eb_io::{Sink, Source};
use eb_lines::{Status, pass_lines};
use std::alloc::Global;
use std::sync::Wait;

/// Passes the lines that the source gives to an office that holds nothing yet, reads them by this dialect, and prints answers and
/// refusals on `out`, each in its line's place, and after them the summary. A count is taken when its line comes. Gives the
/// office back, also after a fault and where memory runs out. At most 512 queries are unanswered and 4,096 lines unprinted at
/// once. The call may wait, and its promise holds if its waits end. Faults come only from outside.
pub fn serve_lines<O: Office, R: Wait, S: Source, K: Sink, G: Gate>(
    rt: &R,
    alloc: Global,
    office: O,
    dialect: Dialect<'_>,
    source: &mut S,
    out: &mut K,
    gate: &G,
) -> (Status, O)
    requires { (rules : Rules (Unit {0})) × Opens O.holds O.asked (dialect_of dialect) office rules }
    ensures ends { (rules : Rules (Unit {0})) → Opens O.holds O.asked (dialect_of dialect.entry) office rules
        → EndsOf is_bad at_least rules result.0 (S.left source.old) (S.left source.new) (K.taken out.old) (K.taken out.new) }
    ensures read_fault { result.0 ≡ Status.ReadFault → HasRisen (S.faults source.old) (S.faults source.new) }
    ensures write_fault { result.0 ≡ Status.WriteFault → HasRisen (K.faults out.old) (K.faults out.new) }
{
    let mut program = WorkersProgram {
        rt,
        alloc,
        gate,
        serving: Serving::new(alloc, office, dialect),
    };
    let status = pass_lines(alloc, &mut program, Vec::new(alloc), source, out);
    let WorkersProgram { serving, .. } = program;
    let Serving { office, .. } = serving;
    (status, office)
}
