ghost use Rattle.std.specs.Prelude.{◌≡◌, ◌⊎◌, ◌<◌, ◌≤◌, ◌++◌, List, ℕ, None, Some, IfOk, OnErr, length, map, string_bytes};
ghost use Rattle.run_ahead.specs.Placed.{IsHoldingFor, PlacesAll};
ghost use Rattle.run_store.specs.Rules.{Rules, is_bad};
ghost use Rattle.run_store.specs.Sees.{exactly};
ghost use Rattle.run_store.specs.Stores.{Keeps};
ghost use Rattle.run_store.specs.Text.{EndsOf};
ghost use Rattle.eb_fields.specs.Dialect.{Dialect as Spoken, dialect_of};
ghost use Rattle.eb_io.specs.Faults.{HasRisen};
ghost use Rattle.eb_io.specs.Lines.{longest_input};
ghost use Rattle.eb_lines.specs.Outcomes.{IsWorkedOff};
ghost use Rattle.eb_run.specs.Fed.{IsFed};
ghost use Rattle.eb_run.specs.FeedCommand.{feed_asked_of, AsksFeed};
ghost use Rattle.eb_run.specs.StatusLine.{feed_status_line};
ghost use Rattle.eb_run.specs.FeedLaws.{IsSettledWay};
ghost use Rattle.eb_run.specs.FeedOutput.{EndsFeed, WroteFeed, FeedMeans};

mod command;
mod fed;

use crate::command::CommandFault;
use crate::usage::FEED_USAGE;
pub use command::{FeedCommand, FeedRequest, FeedWay, read_feed_command};
use eb_base::{Document, Gate, NoMemory};
use eb_fields::Dialect;
use eb_io::{Sink, Source, write_all};
use eb_lines::{Refusal, Status};
use fed::Fed;
use feed_with_workers::{FeedPlan, run_feed_workers};
use run_ahead::{Other, answer_lines_ahead, place_each};
use run_store::{Plan, answer_lines};
use run_with_watches::answer_watched;
use std::alloc::Global;
use std::sync::Wait;
use std::thread::Threads;

/// Runs the feed that the words ask for, which are without the program's name and the word `feed`:
/// reads document lines and query lines, and with `--watch` lines that set watches, from the
/// source, and prints answers, the watches that documents match and refusals on `out`. Each
/// document is taken; the oldest are dropped. The output is written in one write before the source
/// is read again, or once 64 KiB are buffered. The line of the status goes to `err`; a fault there
/// changes no status.
pub fn run_feed<R, S, K, E, G>(
    rt: &R,
    alloc: Global,
    words: &[String],
    source: &mut S,
    out: &mut K,
    err: &mut E,
    gate: &G,
) -> Status
where
    R: Threads + Wait + Sync,
    S: Source,
    K: Sink,
    E: Sink,
    G: Gate + Sync,
    // Usage comes only where the command line is invalid; then nothing is read and nothing printed.
    ensures usage { result ≡ Status.Usage → feed_asked_of (map string_bytes words.now) ≡ None }
    ensures no_command { feed_asked_of (map string_bytes words.now) ≡ None → (result ≡ Status.Usage) ⊎ (result ≡ Status.NoMemory) }
    ensures unread { feed_asked_of (map string_bytes words.now) ≡ None → (source.new ≡ source.old) × (out.new ≡ out.old) }
    // Where the words ask for a feed, and source and `out` tell their bytes, the run printed the
    // text of the input as the status says.
    ensures output { (how : Spoken) (c : FeedCommand) → AsksFeed (map string_bytes words.now) how c
        → (bytes before : List ℕ) → S.left source.old ≡ Some bytes → K.taken out.old ≡ Some before
        → (printed : List ℕ) × (K.taken out.new ≡ Some (before ++ printed)) × WroteFeed how c result bytes (S.left source.new) printed }
    // What the status says of the input holds whatever becomes of the output.
    ensures means { (how : Spoken) (c : FeedCommand) → AsksFeed (map string_bytes words.now) how c
        → (bytes : List ℕ) → S.left source.old ≡ Some bytes → FeedMeans how c result bytes (S.left source.new) }
    // Faults come only from outside.
    ensures read_fault { result ≡ Status.ReadFault → HasRisen (S.faults source.old) (S.faults source.new) }
    ensures write_fault { result ≡ Status.WriteFault → HasRisen (K.faults out.old) (K.faults out.new) }
    // Without a fault and with an end in time, the input is processed.
    ensures completes { (how : Spoken) (c : FeedCommand) → AsksFeed (map string_bytes words.now) how c
        → (HasRisen (S.faults source.old) (S.faults source.new) → ⊥) → (HasRisen (K.faults out.old) (K.faults out.new) → ⊥)
        → (bytes : List ℕ) → S.left source.old ≡ Some bytes → length bytes < longest_input → IsWorkedOff result }
    // `err` took the line of the status, unless it failed.
    ensures told { (before : List ℕ) → E.taken err.old ≡ Some before
        → HasRisen (E.faults err.old) (E.faults err.new) ⊎ (E.taken err.new ≡ Some (before ++ feed_status_line result)) }
{
    let status = run_words(rt, alloc, words, source, out, gate);
    let _ = write_all(err, status.line(FEED_USAGE));
    status
}

// Runs the feed that the words ask for, without the line of its status.
fn run_words<R: Threads + Wait + Sync, S: Source, K: Sink, G: Gate + Sync>(
    rt: &R,
    alloc: Global,
    words: &[String],
    source: &mut S,
    out: &mut K,
    gate: &G,
) -> Status
    ensures usage { result ≡ Status.Usage → feed_asked_of (map string_bytes words.now) ≡ None }
    ensures no_command { feed_asked_of (map string_bytes words.now) ≡ None → (result ≡ Status.Usage) ⊎ (result ≡ Status.NoMemory) }
    ensures unread { feed_asked_of (map string_bytes words.now) ≡ None → (source.new ≡ source.old) × (out.new ≡ out.old) }
    ensures ends { (how : Spoken) (c : FeedCommand) → AsksFeed (map string_bytes words.now) how c
        → EndsFeed how c result (S.left source.old) (S.left source.new) (K.taken out.old) (K.taken out.new) }
    ensures read_fault { result ≡ Status.ReadFault → HasRisen (S.faults source.old) (S.faults source.new) }
    ensures write_fault { result ≡ Status.WriteFault → HasRisen (K.faults out.old) (K.faults out.new) }
{
    let request = match read_feed_command(alloc, words) {
        Ok(request) => request,
        Err(CommandFault::Usage) => return Status::Usage,
        Err(CommandFault::NoMemory) => return Status::NoMemory,
    };
    let FeedRequest { command, dialect } = request;
    if let FeedWay::Workers(workers) = command.way {
        let plan = FeedPlan {
            lines: Plan {
                dialect,
                form: command.form,
                config: command.config,
            },
            keep: command.keep,
        };
        return run_feed_workers(rt, alloc, workers, &plan, source, out, gate);
    }
    run_lines(rt, alloc, dialect, command, source, out, gate)
}

// Processes an input over a feed, where the thread that adds answers the queries.
fn run_lines<R: Threads + Sync, S: Source, K: Sink, G: Gate + Sync>(
    rt: &R,
    alloc: Global,
    dialect: Dialect<'_>,
    command: FeedCommand,
    source: &mut S,
    out: &mut K,
    gate: &G,
) -> Status
    requires keep { (2 ≤ command.keep) × (command.keep ≤ 64) }
    requires way { IsSettledWay command.way }
    ensures ends { EndsFeed (dialect_of dialect.entry) command result (S.left source.old) (S.left source.new) (K.taken out.old) (K.taken out.new) }
    ensures read_fault { result ≡ Status.ReadFault → HasRisen (S.faults source.old) (S.faults source.new) }
    ensures write_fault { result ≡ Status.WriteFault → HasRisen (K.faults out.old) (K.faults out.new) }
{
    let Ok(fed) = Fed::new(alloc, command.keep, command.form, command.config) else {
        return Status::NoMemory;
    };
    match command.way {
        FeedWay::Watches => answer_watched(alloc, fed, dialect, source, out, gate),
        FeedWay::Overlap => answer_ahead(rt, alloc, fed, dialect, source, out, gate),
        FeedWay::InOrder => answer_lines(alloc, fed, dialect, source, out, gate),
        FeedWay::Workers(_) => unreachable!(),
    }
}

// Processes an input over a feed whose lines several threads read.
fn answer_ahead<R: Threads + Sync, S: Source, K: Sink, G: Gate>(
    rt: &R,
    alloc: Global,
    fed: Fed,
    dialect: Dialect<'_>,
    source: &mut S,
    out: &mut K,
    gate: &G,
) -> Status
    requires { (rules : Rules (Unit {0})) × (dialect_of dialect ≡ rules.dialect) × IsFed fed rules rules.start rules.watches }
    ensures ends { (rules : Rules (Unit {0})) → dialect_of dialect.entry ≡ rules.dialect → IsFed fed rules rules.start rules.watches
        → EndsOf is_bad exactly rules result (S.left source.old) (S.left source.new) (K.taken out.old) (K.taken out.new) }
    ensures read_fault { result ≡ Status.ReadFault → HasRisen (S.faults source.old) (S.faults source.new) }
    ensures write_fault { result ≡ Status.WriteFault → HasRisen (K.faults out.old) (K.faults out.new) }
{
    let place_all = |fed: &mut Fed, items: &[Result<Document, Other>]| -> Result<
        Vec<Option<Refusal>>,
        NoMemory,
    >
        requires { IsHoldingFor IsFed fed.old (length items.now) }
        ensures ok { IfOk result (λ refusals. PlacesAll IsFed fed.old fed.new items.now refusals.items) }
        ensures err { OnErr result (Keeps IsFed fed.old fed.new) }
    { place_each(fed, alloc, items, gate) };
    answer_lines_ahead(rt, alloc, fed, &place_all, dialect, source, out, gate)
}
