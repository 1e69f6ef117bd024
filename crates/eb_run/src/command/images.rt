ghost use Rattle.std.specs.Prelude.{◌≡◌, Some, None, IfOk, IsErrOf, map, string_bytes};
ghost use Rattle.eb_run.specs.Command.{save_of, load_of, IsInRange};
ghost use Rattle.eb_run.specs.Requests.{counting_view};

use crate::command::form::read_form;
use crate::command::{Command, CommandFault, Counting};
use eb_options::{OptionFault, SETTING_OPTIONS, read_options, read_setting};
use std::alloc::Global;

// The flags of `save`: none; and of `load`.
const SAVE_FLAGS: [&str; 0] = [];

const LOAD_FLAGS: [&str; 3] = ["json", "stats", "counts"];

// The options of `load` with a number: none.
const LOAD_OPTIONS: [&str; 0] = [];

// The options with a value of both; first those that say how lines are read.
pub(super) const LOAD_VALUES: [&str; 4] = ["fields", "words", "id", "text"];

pub(super) const SAVE_VALUES: [&str; 7] = [
    "fields", "words", "id", "text", "segments", "docs", "terms",
];

// What the words after `save` ask for.
pub(super) fn read_save(alloc: Global, words: &[String]) -> Result<Counting, CommandFault>
    ensures command { IfOk result (λ command. save_of (map string_bytes words.now) ≡ Some (counting_view command)) }
    ensures range { IfOk result (λ counting. IsInRange counting.command) }
    ensures usage { IsErrOf result CommandFault.Usage → save_of (map string_bytes words.now) ≡ None }
{
    let items = match read_options(alloc, words, &SAVE_FLAGS, &SETTING_OPTIONS) {
        Ok(items) => items,
        Err(OptionFault::Usage) => return Err(CommandFault::Usage),
        Err(OptionFault::NoMemory) => return Err(CommandFault::NoMemory),
    };
    match read_setting(&items) {
        Some(config) => Ok(Counting {
            counts: false,
            command: Command::Save { config },
        }),
        None => Err(CommandFault::Usage),
    }
}

// What the words after `load` ask for.
pub(super) fn read_load(alloc: Global, words: &[String]) -> Result<Counting, CommandFault>
    ensures command { IfOk result (λ command. load_of (map string_bytes words.now) ≡ Some (counting_view command)) }
    ensures range { IfOk result (λ counting. IsInRange counting.command) }
    ensures usage { IsErrOf result CommandFault.Usage → load_of (map string_bytes words.now) ≡ None }
{
    match read_options(alloc, words, &LOAD_FLAGS, &LOAD_OPTIONS) {
        Ok(items) => Ok(Counting {
            counts: items.has("counts"),
            command: Command::Load {
                form: read_form(&items),
            },
        }),
        Err(OptionFault::Usage) => Err(CommandFault::Usage),
        Err(OptionFault::NoMemory) => Err(CommandFault::NoMemory),
    }
}
