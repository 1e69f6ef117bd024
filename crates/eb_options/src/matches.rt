ghost use Rattle.std.specs.Prelude.{◌≡◌, false, map, IfOk, string_bytes};
ghost use Rattle.clap.specs.Words.{FailsBy, fault_of, found_of};
ghost use Rattle.clap.specs.Simple.{matches_of, app_of, on_top, new_app};
ghost use Rattle.clap.specs.Walk.{rows_of, rule_of};
ghost use Rattle.eb_options.specs.Items.{texts};
ghost use Rattle.eb_options.specs.Matches.{app, bare, option};

use clap::{Arg, ArgMatches, Command, Error};
use std::alloc::{AllocError, Global};

// An option with a value.
fn make_option<'a>(alloc: Global, name: &'a str) -> Arg<'a>
    ensures rule { rule_of result ≡ option name.entry.now }
    ensures local { result.global ≡ false }
{
    Arg::new(alloc, name).long(name)
}

// A command without flags for help and version, and with no program's name before its words.
fn make_bare<'a>(alloc: Global, name: &'a str) -> Command<'a>
    ensures { app_of result ≡ on_top bare (new_app name.entry.now) }
{
    Command::new(alloc, name)
        .disable_help_flag(true)
        .disable_version_flag(true)
        .no_binary_name(true)
}

// The command with these options.
fn make_command<'a>(alloc: Global, names: &[&'a str]) -> Result<Command<'a>, AllocError>
    ensures { IfOk result (λ command. app_of command ≡ app (texts names.now)) }
{
    let mut command = make_bare(alloc, "options");
    for name in names {
        command = command.arg(make_option(alloc, *name))?;
    }
    Ok(command)
}

// What clap finds in the words.
pub(crate) fn find_matches<'a>(
    alloc: Global,
    words: &'a [String],
    names: &[&'a str],
) -> Result<ArgMatches<'a>, Error>
    ensures kinds { FailsBy (fault_of (app (texts names.now)) (map string_bytes words.entry.now)) result }
    ensures matches { IfOk result (λ m. rows_of (found_of m) ≡ matches_of (app (texts names.now)) (map string_bytes words.entry.now)) }
{
    let command = make_command(alloc, names)?;
    command.try_get_matches_from(words)
}
