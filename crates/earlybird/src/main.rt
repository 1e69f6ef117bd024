//! The program `earlybird`: `main` reads the command line and calls `run`, or `run_feed` with the
//! words after `feed`, with standard input, standard output and standard error.
#![tactic(auto)]

ghost use Rattle.std.specs.Prelude.{◌≡◌, ◌↔◌};

use eb_base::OpenGate;
use eb_io::{StdSink, StdSource, write_all};
use eb_lines::Status;
use eb_run::{USAGE, run, run_feed};
use std::alloc::Global;
use std::env;
use std::io::{BufReader, ErrorKind};
use std::process::ExitCode;
use std::rt::Env;

fn main(rt: HostRuntime) -> ExitCode {
    let alloc = rt.alloc();
    let mut err = StdSink::new(rt.stderr());
    let words = match read_words(&rt, alloc) {
        Ok(words) => words,
        Err(status) => {
            let _ = write_all(&mut err, status.line(USAGE));
            return ExitCode::from(status.code());
        }
    };
    let Ok(reader) = BufReader::new(alloc, rt.stdin()) else {
        let _ = write_all(&mut err, Status::NoMemory.line(USAGE));
        return ExitCode::from(Status::NoMemory.code());
    };
    let mut source = StdSource::new(reader);
    let mut out = StdSink::new(rt.stdout());
    let gate = OpenGate;
    let status = match words.split_first() {
        Some((name, rest)) if name.as_str() == "feed" => {
            run_feed(&rt, alloc, rest, &mut source, &mut out, &mut err, &gate)
        }
        _ => run(&rt, alloc, &words, &mut source, &mut out, &mut err, &gate),
    };
    ExitCode::from(status.code())
}

// The words of the command line, without the program's name. Where they can't be read, how the
// program ends.
fn read_words(rt: &(impl Env + AllocGlobal), alloc: Global) -> Result<Vec<String>, Status> {
    match env::args(rt) {
        Ok(args) => args.skip(1).collect(alloc).map_err(|_| Status::NoMemory),
        Err(error) => Err(without_words(error.kind())),
    }
}

// How the program ends where its words can't be read for this cause: out of memory, or since a word
// isn't UTF-8, which is an invalid command line.
fn without_words(kind: ErrorKind) -> Status
    ensures memory { result ≡ Status.NoMemory ↔ kind ≡ ErrorKind.OutOfMemory }
    ensures usage { (kind ≡ ErrorKind.OutOfMemory → ⊥) → result ≡ Status.Usage }
{
    if kind == ErrorKind::OutOfMemory {
        Status::NoMemory
    } else {
        Status::Usage
    }
}
