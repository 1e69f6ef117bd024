ghost use Rattle.std.specs.Prelude.{◌≡◌};
ghost use Rattle.run_store.specs.Rules.{Rules};
ghost use Rattle.run_store.specs.Sees.{exactly};
ghost use Rattle.run_store.specs.Text.{EndsOf};
ghost use Rattle.eb_fields.specs.Dialect.{dialect_of};
ghost use Rattle.eb_io.specs.Faults.{HasRisen};
ghost use Rattle.run_with_watches.specs.Others.{ReadsOther};
ghost use Rattle.run_with_watches.specs.WatchRules.{with_watches, watch_rules};

use crate::watched::Watching;
use eb_base::Gate;
use eb_fields::Dialect;
use eb_io::{Sink, Source};
use eb_lines::Status;
use run_index::Indexed;
use run_store::{Plan, Store, answer_lines};
use std::alloc::Global;

/// Processes the lines that the source gives, in order, over a store that holds what it holds at first, as `answer_lines`
/// does, with watches: a line `!N QUERY` sets the watch N, and `!N` removes it, and a document that is accepted tells
/// those that are set and whose query it matches. No watch is set at first.
pub fn answer_watched<P: Store + Drop, S: Source, K: Sink, G: Gate>(
    alloc: Global,
    store: P,
    dialect: Dialect<'_>,
    source: &mut S,
    out: &mut K,
    gate: &G,
) -> Status
    requires { (rules : Rules P.Watches) × (dialect_of dialect ≡ rules.dialect) × P.holds store rules rules.start rules.watches }
    ensures ends { (plain : Rules P.Watches) → dialect_of dialect.entry ≡ plain.dialect → P.holds store plain plain.start plain.watches
        → EndsOf ReadsOther exactly (with_watches plain) result (S.left source.old) (S.left source.new) (K.taken out.old) (K.taken out.new) }
    ensures read_fault { result ≡ Status.ReadFault → HasRisen (S.faults source.old) (S.faults source.new) }
    ensures write_fault { result ≡ Status.WriteFault → HasRisen (K.faults out.old) (K.faults out.new) }
{
    answer_lines(
        alloc,
        Watching::new(alloc, store),
        dialect,
        source,
        out,
        gate,
    )
}

/// Processes the lines that the source gives, in order, with an index of the plan's setting; prints answers, the matches of
/// watches, refusals and the summary on `out`. Lines are numbered from 1. A line `!N QUERY` sets the watch N, and `!N` takes it
/// away (this project's profile, docs/FORMATS.md); a document that is accepted tells the numbers of the set watches whose
/// query it matches, where there are any. A query sees all documents that were accepted before its line.
///
/// What lines print is written before the source is asked for a line that it hasn't given yet. The gate sees each add
/// and each search. Takes the memory of the index at once, and that of each watch while it is set. Faults come only from outside.
pub fn run_watches<S: Source, K: Sink, G: Gate>(
    alloc: Global,
    plan: &Plan<'_>,
    source: &mut S,
    out: &mut K,
    gate: &G,
) -> Status
    ensures ends { EndsOf ReadsOther exactly (watch_rules (dialect_of plan.entry.now.dialect) plan.entry.now.config plan.entry.now.form) result
        (S.left source.old) (S.left source.new) (K.taken out.old) (K.taken out.new) }
    ensures read_fault { result ≡ Status.ReadFault → HasRisen (S.faults source.old) (S.faults source.new) }
    ensures write_fault { result ≡ Status.WriteFault → HasRisen (K.faults out.old) (K.faults out.new) }
{
    let Ok(indexed) = Indexed::new(alloc, plan.form, plan.config) else {
        return Status::NoMemory;
    };
    answer_watched(alloc, indexed, plan.dialect, source, out, gate)
}
