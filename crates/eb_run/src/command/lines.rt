ghost use Rattle.std.specs.Prelude.{◌≡◌, Some, None, IfSome, IfOk, IsErrOf, map, string_bytes};
ghost use Rattle.eb_options.specs.Items.{items_of};
ghost use Rattle.eb_run.specs.Command.{run_flags, run_of, run_options, run_with, IsInRange};
ghost use Rattle.eb_run.specs.Requests.{counting_view};

use crate::command::form::read_form;
use crate::command::mode::mode_of;
use crate::command::{Command, CommandFault, Counting};
use eb_options::{Items, OptionFault, read_options, read_setting};
use std::alloc::Global;

// The flags and the options of `run`.
const RUN_FLAGS: [&str; 5] = ["overlap", "watch", "json", "stats", "counts"];

const RUN_OPTIONS: [&str; 5] = ["workers", "parts", "segments", "docs", "terms"];

// Its options with a value; first those that say how lines are read.
pub(super) const RUN_VALUES: [&str; 9] = [
    "fields", "words", "id", "text", "workers", "parts", "segments", "docs", "terms",
];

// The run that the items ask for, if it is allowed.
fn allow_run(items: &Items) -> Option<Command>
    ensures run { result ≡ run_with items.now }
    ensures range { IfSome result IsInRange }
{
    let config = read_setting(items)?;
    let mode = mode_of(
        items.has("overlap"),
        items.has("watch"),
        items.number("workers"),
        items.number("parts"),
        config,
    )?;
    Some(Command::Run {
        mode,
        form: read_form(items),
        config,
    })
}

// The items that the words after `run` are.
fn read_items(alloc: Global, words: &[String]) -> Result<Items, CommandFault>
    ensures items { IfOk result (λ items. items_of run_flags run_options (map string_bytes words.now) ≡ Some items) }
    ensures usage { IsErrOf result CommandFault.Usage → items_of run_flags run_options (map string_bytes words.now) ≡ None }
{
    match read_options(alloc, words, &RUN_FLAGS, &RUN_OPTIONS) {
        Ok(items) => Ok(items),
        Err(OptionFault::Usage) => Err(CommandFault::Usage),
        Err(OptionFault::NoMemory) => Err(CommandFault::NoMemory),
    }
}

// What the words after `run` ask for.
pub(super) fn read_run(alloc: Global, words: &[String]) -> Result<Counting, CommandFault>
    ensures command { IfOk result (λ command. run_of (map string_bytes words.now) ≡ Some (counting_view command)) }
    ensures range { IfOk result (λ counting. IsInRange counting.command) }
    ensures usage { IsErrOf result CommandFault.Usage → run_of (map string_bytes words.now) ≡ None }
{
    let items = read_items(alloc, words)?;
    let Some(command) = allow_run(&items) else {
        return Err(CommandFault::Usage);
    };
    Ok(Counting {
        counts: items.has("counts"),
        command,
    })
}
