ghost use Rattle.std.specs.Prelude.{◌≡◌, [], Some, None, IfOk, IsErrOf, map, option_map, string_bytes};
ghost use Rattle.eb_options.specs.Items.{texts};
ghost use Rattle.eb_run.specs.Command.{asked_of, with_dialect, run_of, run_options, save_of, load_of, IsInRange};
ghost use Rattle.eb_options.specs.Settings.{setting_options};
ghost use Rattle.eb_run.specs.Requests.{request_view};

mod bench;
pub(crate) mod form;
mod images;
mod lines;
pub(crate) mod mode;

use crate::fields::take_dialect;
use bench::read_bench;
use eb_base::Config;
use eb_fields::Dialect;
use eb_lines::Form;
use images::{LOAD_VALUES, SAVE_VALUES, read_load, read_save};
use lines::{RUN_VALUES, read_run};
pub use mode::Mode;
use std::alloc::Global;

/// What the words of a command line ask for.
#[derive(Clone, Copy, Debug, PartialEq, Eq)]
pub enum Command {
    /// `run`: read lines.
    Run {
        /// How the lines are processed (`--overlap`, `--workers`, `--parts` and `--watch`).
        mode: Mode,
        /// How the output is written (`--json`), and whether the segments are printed after the
        /// summary (`--stats`).
        form: Form,
        /// The setting of the index, or of each of them, that the options give; what they don't
        /// name is as in `Config::usual`.
        config: Config,
    },
    /// `bench START DOCS`: process made input.
    Bench {
        /// Where the made input starts, any 64-bit number.
        start: u64,
        /// How many documents it has, 1 to 40,000.
        docs: u32,
    },
    /// `save`: write an image of the documents that lines add to an index of this setting.
    Save {
        /// The setting that the options give, as of `run`.
        config: Config,
    },
    /// `load`: read an image, and then lines as `run` does.
    Load {
        /// How the output is written (`--json`), and whether the segments are printed after the
        /// summary (`--stats`).
        form: Form,
    },
}

/// What the words of a command line ask for, and how its lines are read.
#[derive(Clone, Copy, Debug)]
pub struct Request<'a> {
    /// The command.
    pub command: Command,
    /// How its lines are read (`--fields`, `--words`, `--id`, `--text` and `--counts`); plain for
    /// `bench`.
    pub dialect: Dialect<'a>,
}

/// Why the words are no command.
#[derive(Clone, Copy, Debug, PartialEq, Eq)]
pub enum CommandFault {
    /// The words aren't in the grammar, or ask for a setting that isn't allowed.
    Usage,
    /// Memory ran out while they were read.
    NoMemory,
}

// A command, and whether its lines may ask for counts (`--counts`).
#[derive(Clone, Copy)]
pub(crate) struct Counting {
    pub(crate) counts: bool,
    pub(crate) command: Command,
}

// What the words after `run` ask for.
fn ask_run<'a>(alloc: Global, words: &'a [String]) -> Result<Request<'a>, CommandFault>
    ensures request { IfOk result (λ request. with_dialect run_options run_of (map string_bytes words.entry.now) ≡ Some (request_view request)) }
    ensures range { IfOk result (λ request. IsInRange request.command) }
    ensures usage { IsErrOf result CommandFault.Usage → with_dialect run_options run_of (map string_bytes words.entry.now) ≡ None }
{
    match take_dialect(alloc, words, &RUN_VALUES) {
        Ok(apart) => match read_run(alloc, apart.others.as_slice()) {
            Ok(Counting { counts, command }) => Ok(Request {
                command,
                dialect: Dialect {
                    counts,
                    ..apart.dialect
                },
            }),
            Err(fault) => Err(fault),
        },
        Err(fault) => Err(fault),
    }
}

// What the words after `save` ask for.
fn ask_save<'a>(alloc: Global, words: &'a [String]) -> Result<Request<'a>, CommandFault>
    ensures request { IfOk result (λ request. with_dialect setting_options save_of (map string_bytes words.entry.now) ≡ Some (request_view request)) }
    ensures range { IfOk result (λ request. IsInRange request.command) }
    ensures usage { IsErrOf result CommandFault.Usage → with_dialect setting_options save_of (map string_bytes words.entry.now) ≡ None }
{
    match take_dialect(alloc, words, &SAVE_VALUES) {
        Ok(apart) => match read_save(alloc, apart.others.as_slice()) {
            Ok(Counting { counts, command }) => Ok(Request {
                command,
                dialect: Dialect {
                    counts,
                    ..apart.dialect
                },
            }),
            Err(fault) => Err(fault),
        },
        Err(fault) => Err(fault),
    }
}

// What the words after `load` ask for.
fn ask_load<'a>(alloc: Global, words: &'a [String]) -> Result<Request<'a>, CommandFault>
    ensures request { IfOk result (λ request. with_dialect [] load_of (map string_bytes words.entry.now) ≡ Some (request_view request)) }
    ensures range { IfOk result (λ request. IsInRange request.command) }
    ensures usage { IsErrOf result CommandFault.Usage → with_dialect [] load_of (map string_bytes words.entry.now) ≡ None }
{
    match take_dialect(alloc, words, &LOAD_VALUES) {
        Ok(apart) => match read_load(alloc, apart.others.as_slice()) {
            Ok(Counting { counts, command }) => Ok(Request {
                command,
                dialect: Dialect {
                    counts,
                    ..apart.dialect
                },
            }),
            Err(fault) => Err(fault),
        },
        Err(fault) => Err(fault),
    }
}

/// What the words ask for; they are without the program's name.
///
/// - `run`, and then items in any order, each option at most once: `--overlap`, `--watch`, `--json`, `--stats`, `--counts`, and for x of
///   `workers`, `parts`, `segments`, `docs` and `terms` the two words `--x V` or the one word `--x=V`. V is one to nine digits, leading
///   zeros allowed; what isn't named of a setting is as in `Config::usual`. `Config::new` has to allow the setting. There is at most
///   one of `--overlap`, `--workers`, `--parts` and `--watch`, or `--overlap` with `--parts`; the number of workers and of parts is
///   from 1 to 16, and the words of all parts together are at most 134,217,728.
/// - `bench START DOCS`: one to twenty digits of value at most 18446744073709551615, and one to nine
///   digits of value 1 to 40,000; leading zeros allowed.
/// - `save`, and then the options of a setting as after `run`.
/// - `load`, and then `--json`, `--stats` and `--counts`, each at most once.
///
/// After `run`, `save` and `load` there may be among these items, each once and as two words `--x
/// V` or one word `--x=V`: `--fields` with a list that `Fields::read` takes, `--words pieces`, and
/// `--id` and `--text` with any text that isn't empty, the names of the members that are a
/// document's id and text.
///
/// Usage comes exactly where the words are none of these; NoMemory is free.
pub fn read_command<'a>(alloc: Global, words: &'a Vec<String>) -> Result<Request<'a>, CommandFault>
    ensures request { IfOk result (λ request. asked_of (map string_bytes words.entry.now.items) ≡ Some (request_view request)) }
    ensures range { IfOk result (λ request. IsInRange request.command) }
    ensures usage { IsErrOf result CommandFault.Usage → asked_of (map string_bytes words.entry.now.items) ≡ None }
{
    let Some((name, rest)) = words.split_first() else {
        return Err(CommandFault::Usage);
    };
    if name.as_str() == "run" {
        return ask_run(alloc, rest);
    }
    if name.as_str() == "bench" {
        return match read_bench(rest) {
            Some(command) => Ok(Request {
                command,
                dialect: Dialect::plain(),
            }),
            None => Err(CommandFault::Usage),
        };
    }
    if name.as_str() == "save" {
        return ask_save(alloc, rest);
    }
    if name.as_str() == "load" {
        return ask_load(alloc, rest);
    }
    Err(CommandFault::Usage)
}
