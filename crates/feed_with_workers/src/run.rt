//! Workers and the clerk's part run at once.
ghost use Rattle.std.specs.Prelude.{◌≡◌, ◌≤◌, All};
ghost use Rattle.run_store.specs.Rules.{is_bad};
ghost use Rattle.run_store.specs.Sees.{at_least};
ghost use Rattle.run_store.specs.Text.{EndsOf};
ghost use Rattle.eb_fields.specs.Dialect.{dialect_of};
ghost use Rattle.feed_serve.specs.Desk.{IsWorkerOf};
ghost use Rattle.feed_with_workers.specs.FeedRules.{workers_rules};
ghost use Rattle.feed_with_workers.specs.Offices.{IsNewSide};
ghost use Rattle.eb_io.specs.Faults.{HasRisen};

use crate::feed_office::{FeedOffice, Side};
use crate::plan::FeedPlan;
use eb_base::Gate;
use eb_io::{Sink, Source};
use eb_lines::Status;
use feed_serve::{Clerk, Desk, work_all};
use feed_shared::FeedWriter;
use run_with_workers::serve_lines;
use std::alloc::Global;
use std::sync::Wait;
use std::thread::{Threads, join_mut};

// What a run serves with: the desk, how its lines are gone over, and how many workers there are.
#[derive(Clone, Copy)]
struct Service<'a> {
    desk: &'a Desk,
    plan: &'a FeedPlan<'a>,
    workers: u32,
}

// The clerk's part, which begins with a new clerk and an empty feed. In it one stop is put for each worker, after a fault
// and where memory runs out.
fn serve<R: Threads + Wait + Sync, S: Source, K: Sink, G: Gate + Sync>(
    rt: &R,
    alloc: Global,
    service: &Service<'_>,
    side: &mut Option<Side>,
    source: &mut S,
    out: &mut K,
    gate: &G,
) -> (Status, Clerk)
    requires { IsNewSide service.now.desk.now.queues service.now.plan.now.lines.config service.now.plan.now.keep side.old }
    ensures stops { result.1.stops ≡ service.now.workers }
    ensures ends { EndsOf is_bad at_least (workers_rules (dialect_of service.now.plan.now.lines.dialect) service.now.plan.now.lines.config
        service.now.plan.now.keep service.now.plan.now.lines.form) result.0
        (S.left source.old) (S.left source.new) (K.taken out.old) (K.taken out.new) }
    ensures read_fault { result.0 ≡ Status.ReadFault → HasRisen (S.faults source.old) (S.faults source.new) }
    ensures write_fault { result.0 ≡ Status.WriteFault → HasRisen (K.faults out.old) (K.faults out.new) }
{
    let Service {
        desk,
        plan,
        workers,
    } = *service;
    let Some(Side { clerk, feed }) = side.take() else {
        unreachable!();
    };
    let office = FeedOffice {
        desk,
        clerk,
        feed,
        form: plan.lines.form,
    };
    let (status, office) = serve_lines(rt, alloc, office, plan.lines.dialect, source, out, gate);
    (status, office.stop(rt, workers))
}

/// Runs over the lines that the source gives, with 1 to 16 workers that live for the whole run and answer
/// queries beside the one writer of a feed, which keeps 2 to 64 generations of an index of the plan's setting:
/// document lines add, query lines ask, and answers and refusals are printed on `out`, each in its line's place, and after them
/// the summary. A query's answer is over what the feed keeps of a prefix of the accepted documents that holds at least those
/// before its line; the clerk itself counts, when it comes to a count line. Lines are read by the plan's dialect.
///
/// At most 512 queries are unanswered and 4,096 lines unprinted at once: where one of these numbers is reached, and at the
/// end of the lines, the clerk waits for answers, or answers a query itself. The call may wait, and its promise holds if its
/// waits end. Takes the memory of the first generation and of the desk at once, and that of a further one where it begins.
/// Faults come only from outside.
pub fn run_feed_workers<R, S, K, G>(
    rt: &R,
    alloc: Global,
    workers: u32,
    plan: &FeedPlan<'_>,
    source: &mut S,
    out: &mut K,
    gate: &G,
) -> Status
where
    R: Threads + Wait + Sync,
    S: Source,
    K: Sink,
    G: Gate + Sync,
    requires workers { (1 ≤ workers) × (workers ≤ 16) }
    requires keep { (2 ≤ plan.now.keep) × (plan.now.keep ≤ 64) }
    ensures ends { EndsOf is_bad at_least
        (workers_rules (dialect_of plan.entry.now.lines.dialect) plan.entry.now.lines.config plan.entry.now.keep plan.entry.now.lines.form) result
        (S.left source.old) (S.left source.new) (K.taken out.old) (K.taken out.new) }
    ensures read_fault { result ≡ Status.ReadFault → HasRisen (S.faults source.old) (S.faults source.new) }
    ensures write_fault { result ≡ Status.WriteFault → HasRisen (K.faults out.old) (K.faults out.new) }
{
    let Ok(feed) = FeedWriter::open(alloc, plan.lines.config, plan.keep) else {
        return Status::NoMemory;
    };
    let Ok((desk, clerk, mut all)) = Desk::open(alloc, &feed, workers) else {
        return Status::NoMemory;
    };
    let mut side = Some(Side { clerk, feed });
    let service = Service {
        desk: &desk,
        plan,
        workers,
    };
    let all = all.as_mut_slice();
    let (_, (status, _)) = join_mut(
        rt,
        &mut ||
            requires { All (λ w. IsWorkerOf desk.queues w) all.now }
        { work_all(rt, &desk, &(), gate, all) },
        &mut ||
            requires { IsNewSide service.desk.now.queues service.plan.now.lines.config service.plan.now.keep side }
            ensures ends { EndsOf is_bad at_least (workers_rules (dialect_of service.entry.plan.now.lines.dialect) service.entry.plan.now.lines.config
                service.entry.plan.now.keep service.entry.plan.now.lines.form) result.0
                (S.left source.entry.now) (S.left source.exit.now) (K.taken out.entry.now) (K.taken out.exit.now) }
            ensures read_fault { result.0 ≡ Status.ReadFault → HasRisen (S.faults source.entry.now) (S.faults source.exit.now) }
            ensures write_fault { result.0 ≡ Status.WriteFault → HasRisen (K.faults out.entry.now) (K.faults out.exit.now) }
        { serve(rt, alloc, &service, &mut side, source, out, gate) },
    );
    status
}
