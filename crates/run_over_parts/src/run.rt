ghost use Rattle.std.specs.Prelude.{◌≡◌, ◌≤◌, length, IfOk, OnErr};
ghost use Rattle.run_ahead.specs.Placed.{IsHoldingFor, PlacesAll};
ghost use Rattle.run_store.specs.Rules.{is_bad};
ghost use Rattle.run_store.specs.Sees.{exactly};
ghost use Rattle.run_store.specs.Stores.{Keeps};
ghost use Rattle.run_store.specs.Text.{EndsOf};
ghost use Rattle.eb_fields.specs.Dialect.{dialect_of};
ghost use Rattle.eb_io.specs.Faults.{HasRisen};
ghost use Rattle.run_over_parts.specs.Parted.{IsParted};
ghost use Rattle.run_over_parts.specs.Texts.{parts_rules};

use crate::parted::Parted;
use eb_base::{Document, Gate, NoMemory};
use eb_io::{Sink, Source};
use eb_lines::{Refusal, Status};
use run_ahead::{Other, answer_lines_ahead};
use run_store::{Plan, answer_lines};
use std::alloc::Global;
use std::thread::Threads;

/// Processes the lines that the source gives, in order, over 1 to 16 parts, each an index of the plan's setting:
/// a document goes to the part that is its id modulo their number; prints answers, refusals and the summary on
/// `out`, and where the form says so the segments of all parts. Lines are numbered from 1. A query sees all documents that were
/// accepted before its line, and its answer is that of one history of them.
///
/// A document line whose id isn't above that of the last accepted document is refused as `not rising`, and then one whose
/// part has no room as `full`. Each answer is written before the source is asked for a line that it hasn't given yet. The
/// gate sees each search. Takes the memory of the parts at once. Faults come only from outside.
///
/// With overlap the parts add side by side, and the same is printed: at most 32,768 lines wait, are read by several
/// threads, and the documents up to the next query are added by a thread for each part where their ids rise. No query
/// waits for a further line. Memory for what a run of documents prints is taken before the first of them is added.
pub fn run_parts<R: Threads + Sync, S: Source, K: Sink, G: Gate + Sync>(
    rt: &R,
    alloc: Global,
    parts: u32,
    overlap: bool,
    plan: &Plan<'_>,
    source: &mut S,
    out: &mut K,
    gate: &G,
) -> Status
    requires { (1 ≤ parts) × (parts ≤ 16) }
    ensures ends { EndsOf is_bad exactly (parts_rules (dialect_of plan.entry.now.dialect) parts plan.entry.now.config plan.entry.now.form) result
        (S.left source.old) (S.left source.new) (K.taken out.old) (K.taken out.new) }
    ensures read_fault { result ≡ Status.ReadFault → HasRisen (S.faults source.old) (S.faults source.new) }
    ensures write_fault { result ≡ Status.WriteFault → HasRisen (K.faults out.old) (K.faults out.new) }
{
    let Ok(parted) = Parted::new(alloc, parts, plan.form, plan.config) else {
        return Status::NoMemory;
    };
    if !overlap {
        return answer_lines(alloc, parted, plan.dialect, source, out, gate);
    }
    let place_all = |parted: &mut Parted, items: &[Result<Document, Other>]| -> Result<
        Vec<Option<Refusal>>,
        NoMemory,
    >
        requires { IsHoldingFor IsParted parted.old (length items.now) }
        ensures ok { IfOk result (λ refusals. PlacesAll IsParted parted.old parted.new items.now refusals.items) }
        ensures err { OnErr result (Keeps IsParted parted.old parted.new) }
    { parted.place_all(rt, alloc, items, gate) };
    answer_lines_ahead(
        rt,
        alloc,
        parted,
        &place_all,
        plan.dialect,
        source,
        out,
        gate,
    )
}
