ghost use Rattle.std.specs.Prelude.{◌≡◌, ◌⊎◌, ◌++◌, false, List, ℕ, None, Some, OnOk, map, option_map, string_bytes};
ghost use Rattle.run_store.specs.Rules.{is_bad};
ghost use Rattle.run_store.specs.Sees.{exactly, between};
ghost use Rattle.run_store.specs.Text.{EndsOf};
ghost use Rattle.eb_fields.specs.Dialect.{Dialect as Spoken, dialect_of};
ghost use Rattle.run_index.specs.IndexRules.{rules_of};
ghost use Rattle.eb_io.specs.Faults.{HasRisen};
ghost use Rattle.eb_lines.specs.declared.form.Form.{Form};
ghost use Rattle.eb_lines.specs.Programs.{IsRunning, WorksOn};
ghost use Rattle.eb_run.specs.Command.{asked_of, asks, HasFew};
ghost use Rattle.eb_run.specs.Ran.{EndsBy, EndsRun, Ran, Means, Completes, reads_source};
ghost use Rattle.eb_run.specs.Running.{HasRun, HoldsNone};
ghost use Rattle.eb_run.specs.StatusLine.{status_line};

use crate::bench::run_bench;
use crate::command::{Command, CommandFault, Mode, Request, read_command};
use crate::program::RunProgram;
use crate::running::Running;
use crate::usage::USAGE;
use eb_base::{Gate, NoMemory};
use eb_io::{Sink, Source, write_all};
use eb_lines::{Status, pass_lines};
use run_images::{load_lines, save_lines};
use run_index::Indexed;
use run_over_parts::run_parts;
use run_store::{Plan, answer_lines};
use run_with_watches::run_watches;
use run_with_workers::run_workers;
use std::alloc::Global;
use std::sync::Wait;
use std::thread::Threads;

/// Runs the command that the words ask for: `run` reads document lines and query lines from the
/// source and prints answers and refusals on `out`. With `--overlap` documents are added while queries
/// are answered, by two threads, and lines are read by several; with `--workers N` queries are answered by workers that live
/// for the whole run, and the call may wait: its promise holds if its waits end; with `--parts N` documents go to several
/// indexes by their ids, which add side by side where `--overlap` stands beside it; with `--watch` lines also set and remove
/// watches, and documents tell which they match. What is printed goes out in one write before the source is asked again, or
/// once 64 KiB are gathered. What the status has to say goes to `err`; a fault there changes no status.
pub fn run<R, S, K, E, G>(
    rt: &R,
    alloc: Global,
    words: &Vec<String>,
    source: &mut S,
    out: &mut K,
    err: &mut E,
    gate: &G,
) -> Status
where
    R: Threads + Wait + Sync,
    S: Source,
    K: Sink,
    E: Sink,
    G: Gate + Sync,
    // Usage comes only where the command line is invalid; then nothing is read and nothing printed.
    ensures usage { result ≡ Status.Usage → asked_of (map string_bytes words.now.items) ≡ None }
    ensures no_command { asked_of (map string_bytes words.now.items) ≡ None → (result ≡ Status.Usage) ⊎ (result ≡ Status.NoMemory) }
    ensures unprinted { asked_of (map string_bytes words.now.items) ≡ None → out.new ≡ out.old }
    // The source isn't read where it is invalid, or asks to process a made input.
    ensures unread { reads_source (option_map (λ a. a.command) (asked_of (map string_bytes words.now.items))) ≡ false → source.new ≡ source.old }
    // What was printed, by the command: where source and `out` tell their bytes, a text of the input as the status says.
    ensures ran { (how : Spoken) (c : Command) → asked_of (map string_bytes words.now.items) ≡ Some (asks how c)
        → Ran how c result (S.left source.old) (S.left source.new) (K.taken out.old) (K.taken out.new) }
    // What the status says of the input holds whatever becomes of the output.
    ensures means { (how : Spoken) (c : Command) → asked_of (map string_bytes words.now.items) ≡ Some (asks how c)
        → Means how c result (S.left source.old) (S.left source.new) }
    // Only `load` reports a bad image.
    ensures bad_image { (how : Spoken) (c : Command) → asked_of (map string_bytes words.now.items) ≡ Some (asks how c)
        → result ≡ Status.BadImage → (form : Form) × (c ≡ Command.Load form) }
    // Without a fault and with an end in time, the input is processed.
    ensures completes { (how : Spoken) (c : Command) → asked_of (map string_bytes words.now.items) ≡ Some (asks how c)
        → Completes c (HasRisen (S.faults source.old) (S.faults source.new)) (HasRisen (K.faults out.old) (K.faults out.new)) result (S.left source.old) }
    // Faults come only from outside.
    ensures read_fault { result ≡ Status.ReadFault → HasRisen (S.faults source.old) (S.faults source.new) }
    ensures write_fault { result ≡ Status.WriteFault → HasRisen (K.faults out.old) (K.faults out.new) }
    // `err` took the line of the status, unless it failed.
    ensures told { (before : List ℕ) → E.taken err.old ≡ Some before
        → HasRisen (E.faults err.old) (E.faults err.new) ⊎ (E.taken err.new ≡ Some (before ++ status_line result)) }
{
    let status = run_words(rt, alloc, words, source, out, gate);
    let _ = write_all(err, status.line(USAGE));
    status
}

fn run_words<R: Threads + Wait + Sync, S: Source, K: Sink, G: Gate + Sync>(
    rt: &R,
    alloc: Global,
    words: &Vec<String>,
    source: &mut S,
    out: &mut K,
    gate: &G,
) -> Status
    ensures usage { result ≡ Status.Usage → asked_of (map string_bytes words.now.items) ≡ None }
    ensures no_command { asked_of (map string_bytes words.now.items) ≡ None → (result ≡ Status.Usage) ⊎ (result ≡ Status.NoMemory) }
    ensures unprinted { asked_of (map string_bytes words.now.items) ≡ None → out.new ≡ out.old }
    ensures unread { reads_source (option_map (λ a. a.command) (asked_of (map string_bytes words.now.items))) ≡ false → source.new ≡ source.old }
    ensures ends { (how : Spoken) (c : Command) → asked_of (map string_bytes words.now.items) ≡ Some (asks how c)
        → EndsBy how c result (S.left source.old) (S.left source.new) (K.taken out.old) (K.taken out.new) }
    ensures read_fault { result ≡ Status.ReadFault → HasRisen (S.faults source.old) (S.faults source.new) }
    ensures write_fault { result ≡ Status.WriteFault → HasRisen (K.faults out.old) (K.faults out.new) }
{
    let Request { command, dialect } = match read_command(alloc, words) {
        Ok(request) => request,
        Err(CommandFault::Usage) => return Status::Usage,
        Err(CommandFault::NoMemory) => return Status::NoMemory,
    };
    match command {
        Command::Run { mode, form, config } => {
            let plan = Plan {
                dialect,
                form,
                config,
            };
            run_lines(rt, alloc, mode, &plan, source, out, gate)
        }
        Command::Bench { start, docs } => run_bench(alloc, start, docs, out, gate),
        Command::Save { config } => save_lines(alloc, dialect, config, source, out, gate),
        Command::Load { form } => load_lines(alloc, dialect, form, source, out, gate),
    }
}

// Processes the lines in this mode.
fn run_lines<R: Threads + Wait + Sync, S: Source, K: Sink, G: Gate + Sync>(
    rt: &R,
    alloc: Global,
    mode: Mode,
    plan: &Plan<'_>,
    source: &mut S,
    out: &mut K,
    gate: &G,
) -> Status
    requires { HasFew mode }
    ensures ends { EndsRun (dialect_of plan.entry.now.dialect) plan.entry.now.config mode plan.entry.now.form result
        (S.left source.old) (S.left source.new) (K.taken out.old) (K.taken out.new) }
    ensures read_fault { result ≡ Status.ReadFault → HasRisen (S.faults source.old) (S.faults source.new) }
    ensures write_fault { result ≡ Status.WriteFault → HasRisen (K.faults out.old) (K.faults out.new) }
{
    match mode {
        Mode::InOrder => run_in_order(alloc, plan, source, out, gate),
        Mode::Overlap => run_beside(rt, alloc, plan, source, out, gate),
        Mode::Workers(workers) => run_workers(rt, alloc, workers, plan, source, out, gate),
        Mode::Parts(parts) => run_parts(rt, alloc, parts, false, plan, source, out, gate),
        Mode::OverlapParts(parts) => run_parts(rt, alloc, parts, true, plan, source, out, gate),
        Mode::Watch => run_watches(alloc, plan, source, out, gate),
    }
}

// Processes the lines one after the other.
fn run_in_order<S: Source, K: Sink, G: Gate>(
    alloc: Global,
    plan: &Plan<'_>,
    source: &mut S,
    out: &mut K,
    gate: &G,
) -> Status
    ensures ends { EndsOf is_bad exactly (rules_of (dialect_of plan.entry.now.dialect) plan.entry.now) result
        (S.left source.old) (S.left source.new) (K.taken out.old) (K.taken out.new) }
    ensures read_fault { result ≡ Status.ReadFault → HasRisen (S.faults source.old) (S.faults source.new) }
    ensures write_fault { result ≡ Status.WriteFault → HasRisen (K.faults out.old) (K.faults out.new) }
{
    let Ok(indexed) = Indexed::new(alloc, plan.form, plan.config) else {
        return Status::NoMemory;
    };
    answer_lines(alloc, indexed, plan.dialect, source, out, gate)
}

// Adds documents while queries are answered.
fn run_beside<R: Threads + Sync, S: Source, K: Sink, G: Gate + Sync>(
    rt: &R,
    alloc: Global,
    plan: &Plan<'_>,
    source: &mut S,
    out: &mut K,
    gate: &G,
) -> Status
    ensures ends { EndsOf is_bad between (rules_of (dialect_of plan.entry.now.dialect) plan.entry.now) result
        (S.left source.old) (S.left source.new) (K.taken out.old) (K.taken out.new) }
    ensures read_fault { result ≡ Status.ReadFault → HasRisen (S.faults source.old) (S.faults source.new) }
    ensures write_fault { result ≡ Status.WriteFault → HasRisen (K.faults out.old) (K.faults out.new) }
{
    let Ok(running) = Running::new(alloc, plan) else {
        return Status::NoMemory;
    };
    let mut program = RunProgram {
        alloc,
        worker: |running: &mut Running<'_>, text: &mut Vec<u8>| -> Result<(), NoMemory>
            requires { IsRunning HasRun running.old }
            ensures on { WorksOn HasRun running.old running.new text.old.items text.new.items }
            ensures none { OnOk result (HoldsNone running.new) }
            ensures same { running.new.number ≡ running.old.number }
        { running.work_held(rt, alloc, gate, text) },
        running,
    };
    pass_lines(alloc, &mut program, Vec::new(alloc), source, out)
}
