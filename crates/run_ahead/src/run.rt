ghost use Rattle.std.specs.Prelude.{◌≡◌, OnOk};
ghost use Rattle.run_ahead.specs.Ahead.{HasHeld, HoldsNone};
ghost use Rattle.run_ahead.specs.Placing.{PlacesTogether, TellsNone};
ghost use Rattle.run_store.specs.Rules.{Rules};
ghost use Rattle.run_store.specs.Sees.{exactly};
ghost use Rattle.run_store.specs.Text.{EndsOf};
ghost use Rattle.eb_fields.specs.Dialect.{dialect_of};
ghost use Rattle.eb_io.specs.Faults.{HasRisen};
ghost use Rattle.eb_lines.specs.Programs.{IsRunning, WorksOn};

use crate::ahead::{Ahead, work_held};
use crate::program::AheadProgram;
use crate::reading::Other;
use eb_base::{Document, Gate, NoMemory};
use eb_fields::Dialect;
use eb_io::{Sink, Source};
use eb_lines::{Refusal, Status, pass_lines};
use run_store::{Answering, Store};
use std::alloc::Global;
use std::thread::Threads;

/// As `answer_lines` of run_store, and prints the same, while at most 32,768 lines wait. Several
/// threads read them where there are many, and the documents up to the next query are added many at
/// once. No query waits for a further line. Memory for what a run of documents prints is taken
/// before the first of them is added.
pub fn answer_lines_ahead<
    P: Store + Drop,
    R: Threads + Sync,
    S: Source,
    K: Sink,
    G: Gate,
    W: Fn(&mut P, &[Result<Document, Other>]) -> Result<Vec<Option<Refusal>>, NoMemory>,
>(
    rt: &R,
    alloc: Global,
    store: P,
    place_all: &W,
    dialect: Dialect<'_>,
    source: &mut S,
    out: &mut K,
    gate: &G,
) -> Status
    requires store { (rules : Rules P.Watches) × (dialect_of dialect ≡ rules.dialect) × P.holds store rules rules.start rules.watches }
    requires placing { PlacesTogether P.holds W.pre W.post place_all.now }
    requires tells { TellsNone P.holds }
    ensures ends { (rules : Rules P.Watches) → dialect_of dialect.entry ≡ rules.dialect → P.holds store rules rules.start rules.watches
        → EndsOf P.other exactly rules result (S.left source.old) (S.left source.new) (K.taken out.old) (K.taken out.new) }
    ensures read_fault { result ≡ Status.ReadFault → HasRisen (S.faults source.old) (S.faults source.new) }
    ensures write_fault { result ≡ Status.WriteFault → HasRisen (K.faults out.old) (K.faults out.new) }
{
    let mut program = AheadProgram {
        alloc,
        worker: |ahead: &mut Ahead<'_, G, P>, text: &mut Vec<u8>| -> Result<(), NoMemory>
            requires state { IsRunning (HasHeld P.other P.holds) ahead.old }
            requires placing { PlacesTogether P.holds W.pre W.post place_all.now }
            requires tells { TellsNone P.holds }
            ensures on { WorksOn (HasHeld P.other P.holds) ahead.old ahead.new text.old.items text.new.items }
            ensures none { OnOk result (HoldsNone ahead.new) }
            ensures same { ahead.new.number ≡ ahead.old.number }
        { work_held(ahead, rt, alloc, place_all, text) },
        ahead: Ahead::new(alloc, Answering::new(alloc, gate, store, dialect)),
    };
    pass_lines(alloc, &mut program, Vec::new(alloc), source, out)
}
