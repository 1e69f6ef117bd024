ghost use Rattle.std.specs.Prelude.{◌≡◌};
ghost use Rattle.run_store.specs.Rules.{Rules};
ghost use Rattle.run_store.specs.Sees.{exactly};
ghost use Rattle.run_store.specs.Text.{EndsOf};
ghost use Rattle.eb_fields.specs.Dialect.{dialect_of};
ghost use Rattle.eb_io.specs.Faults.{HasRisen};

use crate::answering::Answering;
use crate::store::Store;
use eb_base::Gate;
use eb_fields::Dialect;
use eb_io::{Sink, Source};
use eb_lines::{Status, pass_lines};
use std::alloc::Global;

/// Processes the lines that the source gives, in order, over a store that may hold documents at
/// first. Reads them by this dialect, and prints answers, refusals and the summary on `out`. Lines
/// are numbered from 1. A query is answered after all lines before it. The output is written in one
/// write before the source is read again, or once 64 KiB are buffered.
pub fn answer_lines<P: Store + Drop, S: Source, K: Sink, G: Gate>(
    alloc: Global,
    store: P,
    dialect: Dialect<'_>,
    source: &mut S,
    out: &mut K,
    gate: &G,
) -> Status
    requires { (rules : Rules P.Watches) × (dialect_of dialect ≡ rules.dialect) × P.holds store rules rules.start rules.watches }
    ensures ends { (rules : Rules P.Watches) → dialect_of dialect.entry ≡ rules.dialect → P.holds store rules rules.start rules.watches
        → EndsOf P.other exactly rules result (S.left source.old) (S.left source.new) (K.taken out.old) (K.taken out.new) }
    ensures read_fault { result ≡ Status.ReadFault → HasRisen (S.faults source.old) (S.faults source.new) }
    ensures write_fault { result ≡ Status.WriteFault → HasRisen (K.faults out.old) (K.faults out.new) }
{
    let mut answering = Answering::new(alloc, gate, store, dialect);
    pass_lines(alloc, &mut answering, Vec::new(alloc), source, out)
}
