//! Workers and the clerk's part run at once.
ghost use Rattle.std.specs.Prelude.{◌≡◌, ◌≤◌, [], All};
ghost use Rattle.run_store.specs.Rules.{is_bad};
ghost use Rattle.run_store.specs.Sees.{at_least};
ghost use Rattle.run_store.specs.Text.{EndsOf};
ghost use Rattle.eb_fields.specs.Dialect.{dialect_of};
ghost use Rattle.run_index.specs.IndexRules.{index_rules, rules_of};
ghost use Rattle.eb_io.specs.Faults.{HasRisen};
ghost use Rattle.eb_serve.specs.Desk.{IsWorkerOf};
ghost use Rattle.run_with_workers.specs.IndexOffices.{IsNewSide};

use crate::index_office::{IndexOffice, Side};
use crate::serve::serve_lines;
use eb_base::Gate;
use eb_engine::Index;
use eb_io::{Sink, Source};
use eb_lines::Status;
use eb_serve::{Clerk, Desk, work_all};
use run_store::Plan;
use std::alloc::Global;
use std::sync::Wait;
use std::thread::{Threads, join_mut};

// What a run serves with: the desk, the index, how its lines are gone over, and how many workers there are.
#[derive(Clone, Copy)]
struct Service<'a> {
    desk: &'a Desk,
    index: &'a Index,
    plan: &'a Plan<'a>,
    workers: u32,
}

// The clerk's part, which begins with a new clerk and an empty index. In it one stop is put for each worker, after a fault
// and where memory runs out.
fn serve<R: Threads + Wait + Sync, S: Source, K: Sink, G: Gate + Sync>(
    rt: &R,
    alloc: Global,
    service: &Service<'_>,
    side: &mut Option<Side>,
    source: &mut S,
    out: &mut K,
    gate: &G,
) -> (Status, Clerk)
    requires { IsNewSide service.now.desk.now.queues service.now.index.now side.old }
    ensures stops { result.1.stops ≡ service.now.workers }
    ensures ends { EndsOf is_bad at_least
        (index_rules (dialect_of service.now.plan.now.dialect) service.now.index.now.setting service.now.plan.now.form []) result.0
        (S.left source.old) (S.left source.new) (K.taken out.old) (K.taken out.new) }
    ensures read_fault { result.0 ≡ Status.ReadFault → HasRisen (S.faults source.old) (S.faults source.new) }
    ensures write_fault { result.0 ≡ Status.WriteFault → HasRisen (K.faults out.old) (K.faults out.new) }
{
    let Service {
        desk,
        index,
        plan,
        workers,
    } = *service;
    let Some(
        Side {
            clerk,
            writer,
            converter,
        },
    ) = side.take()
    else {
        unreachable!();
    };
    let office = IndexOffice {
        desk,
        index,
        clerk,
        writer,
        converter,
        form: plan.form,
    };
    let (status, office) = serve_lines(rt, alloc, office, plan.dialect, source, out, gate);
    (status, office.stop(rt, workers))
}

/// Runs over the lines that the source gives, with 1 to 16 workers that live for the whole run and answer
/// queries beside the one writer: document lines add, query lines ask, and answers and refusals are printed on `out`, each
/// in its line's place, and after them the summary. A query's answer is over a prefix of the accepted documents that holds
/// at least those before its line; the clerk itself counts, when it comes to a count line. The plan says how lines are read,
/// how what is printed is written, and the setting of the index.
///
/// At most 512 queries are unanswered and 4,096 lines unprinted at once: where one of these numbers is reached, and at the
/// end of the lines, the clerk waits for answers, or answers a query itself. The call may wait, and its promise holds if its
/// waits end. Takes the memory of the index and of the desk at once. Faults come only from outside.
pub fn run_workers<R, S, K, G>(
    rt: &R,
    alloc: Global,
    workers: u32,
    plan: &Plan<'_>,
    source: &mut S,
    out: &mut K,
    gate: &G,
) -> Status
where
    R: Threads + Wait + Sync,
    S: Source,
    K: Sink,
    G: Gate + Sync,
    requires { (1 ≤ workers) × (workers ≤ 16) }
    ensures ends { EndsOf is_bad at_least (rules_of (dialect_of plan.entry.now.dialect) plan.entry.now) result
        (S.left source.old) (S.left source.new) (K.taken out.old) (K.taken out.new) }
    ensures read_fault { result ≡ Status.ReadFault → HasRisen (S.faults source.old) (S.faults source.new) }
    ensures write_fault { result ≡ Status.WriteFault → HasRisen (K.faults out.old) (K.faults out.new) }
{
    let Ok((index, writer, converter)) = Index::open(alloc, plan.config) else {
        return Status::NoMemory;
    };
    let Ok((desk, clerk, mut all)) = Desk::open(alloc, &index, workers) else {
        return Status::NoMemory;
    };
    let mut side = Some(Side {
        clerk,
        writer,
        converter,
    });
    let service = Service {
        desk: &desk,
        index: &index,
        plan,
        workers,
    };
    let all = all.as_mut_slice();
    let (_, (status, _)) = join_mut(
        rt,
        &mut ||
            requires { All (λ w. IsWorkerOf desk.queues index w) all.now }
        { work_all(rt, &desk, &index, gate, all) },
        &mut ||
            requires { IsNewSide service.desk.now.queues service.index.now side }
        { serve(rt, alloc, &service, &mut side, source, out, gate) },
    );
    status
}
