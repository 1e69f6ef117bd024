ghost use Rattle.std.specs.Prelude.{◌≡◌, ◌≢◌, Some, None, IfOk, IsErrOf, OnOk, ◌++◌, ◌∷◌, [], map, string_bytes, List};
ghost use Rattle.std.specs.List.{list_any};
ghost use Rattle.std.specs.Str.{bytes_eq};
ghost use Rattle.clap.specs.Walk.{rows_of};
ghost use Rattle.clap.specs.Words.{found_of, kind_of};
ghost use Rattle.eb_options.specs.Items.{AreNames, Value, flag_in, has, items_of, number_in, option_number, texts, with_each};
ghost use Rattle.eb_options.specs.Parts.{AreWordsOf};
ghost use Rattle.eb_options.specs.Matches.{number_at};
ghost use Rattle.eb_options.specs.Views.{flag_view, number_view};

use crate::matches::find_matches;
use crate::number::read_nine;
use crate::split::{is_dashed, split_words, words_of};
use clap::error::ErrorKind;
use clap::{ArgMatches, Error};
use eb_base::NoMemory;
use std::alloc::Global;
use std::marker::Model;
use std::{error, fmt};

// A flag of a command, and whether it is among the words.
#[derive(Debug, Drop)]
pub(crate) struct Flag {
    name: String,
    is_there: bool,
}

// An option of a command, and its number, if it is among the words.
#[derive(Debug, Drop)]
pub(crate) struct Number {
    name: String,
    number: Option<u32>,
}

/// The items that the words after a command's name are: for each flag of the command whether it is
/// there, and for each of its options the number, if it is there.
#[derive(Debug, Drop)]
pub struct Items {
    flags: Vec<Flag>,
    numbers: Vec<Number>,
}

impl Model for Items {
    ghost use Rattle.std.specs.Prelude.{map, string_bytes};
    ghost use Rattle.eb_options.specs.Items as specs;

    ghost Value = { specs.Items };

    ghost view = { λ i. record {
      flags = map (λ f. (string_bytes f.name, f.is_there)) i.flags.items;
      numbers = map (λ n. (string_bytes n.name, n.number)) i.numbers.items;
    } };
}

/// Why the words are no items.
#[derive(Clone, Copy, Debug, PartialEq, Eq)]
pub enum OptionFault {
    /// The words aren't flags and options of the command, each at most once and each option with a
    /// number of one to nine digits.
    Usage,
    /// Memory ran out while they were read.
    NoMemory,
}

impl fmt::Display for OptionFault {
    ghost use Rattle.std.specs.Prelude.{Some};
    ghost use Rattle.eb_options.specs.Faults.{option_fault_text};

    ghost output = { λ fault. Some (option_fault_text fault) };

    fn fmt<W: fmt::Write>(&self, f: &mut fmt::Formatter<W>) -> fmt::Result {
        match self {
            OptionFault::Usage => f.write_str("bad options"),
            OptionFault::NoMemory => f.write_str("memory ran out"),
        }
    }
}

impl error::Error for OptionFault {}

impl Items {
    /// Whether the flag is among the words.
    pub fn has(&self, flag: &str) -> bool
        ensures { result ≡ has flag.now self.now }
    {
        for this in &self.flags {
            if this.name.as_str() == flag && this.is_there {
                return true;
            }
        }
        false
    }

    /// The number of the option, if it is among the words.
    pub fn number(&self, option: &str) -> Option<u32>
        ensures { result ≡ option_number option.now self.now }
    {
        for this in &self.numbers {
            if this.name.as_str() == option {
                return this.number;
            }
        }
        None
    }
}

// Whether the flag is among the words; none where it occurs twice.
fn find_flag(words: &[String], flag: &str) -> Option<bool>
    ensures { result ≡ flag_in (map string_bytes words.now) flag.now }
{
    let mut found = false;
    for word in words {
        if is_dashed(word.as_str(), flag) {
            if found {
                return None;
            }
            found = true;
        }
    }
    Some(found)
}

// The flags with one more at the end.
fn push_flag(
    alloc: Global,
    flags: &mut Vec<Flag>,
    name: &str,
    is_there: bool,
) -> Result<(), NoMemory>
    ensures { OnOk result (map flag_view flags.new.items ≡ map flag_view flags.old.items ++ (name.now, is_there) ∷ []) }
{
    let name = String::from_str(alloc, name)?;
    flags.push(Flag { name, is_there })?;
    Ok(())
}

// The flags of these names, as they are among the words.
fn read_flags(alloc: Global, words: &[String], names: &[&str]) -> Result<Vec<Flag>, OptionFault>
    ensures flags { IfOk result (λ flags. with_each (flag_in (map string_bytes words.now)) (texts names.now) ≡ Some (map flag_view flags.items)) }
    ensures usage { IsErrOf result OptionFault.Usage → with_each (flag_in (map string_bytes words.now)) (texts names.now) ≡ None }
{
    let mut flags = Vec::new(alloc);
    for name in names {
        let Some(is_there) = find_flag(words, *name) else {
            return Err(OptionFault::Usage);
        };
        let Ok(()) = push_flag(alloc, &mut flags, *name, is_there) else {
            return Err(OptionFault::NoMemory);
        };
    }
    Ok(flags)
}

// The number of the option in the matches, if it is there; none where its value is no number of one
// to nine digits.
fn find_number(matches: &ArgMatches<'_>, option: &str) -> Option<Option<u32>>
    ensures { result ≡ number_at (rows_of (found_of matches.now)) option.now }
{
    match matches.get_str(option) {
        Some(word) => match read_nine(word) {
            Some(number) => Some(Some(number)),
            None => None,
        },
        None => Some(None),
    }
}

// The numbers with one more at the end.
fn push_number(
    alloc: Global,
    numbers: &mut Vec<Number>,
    name: &str,
    number: Option<u32>,
) -> Result<(), NoMemory>
    ensures { OnOk result (map number_view numbers.new.items ≡ map number_view numbers.old.items ++ (name.now, number) ∷ []) }
{
    let name = String::from_str(alloc, name)?;
    numbers.push(Number { name, number })?;
    Ok(())
}

// The options of these names, as the matches have them.
fn read_numbers(
    alloc: Global,
    matches: &ArgMatches<'_>,
    names: &[&str],
) -> Result<Vec<Number>, OptionFault>
    ensures numbers { IfOk result (λ numbers. with_each (number_at (rows_of (found_of matches.now))) (texts names.now) ≡ Some (map number_view numbers.items)) }
    ensures usage { IsErrOf result OptionFault.Usage → with_each (number_at (rows_of (found_of matches.now))) (texts names.now) ≡ None }
{
    let mut numbers = Vec::new(alloc);
    for name in names {
        let Some(number) = find_number(matches, *name) else {
            return Err(OptionFault::Usage);
        };
        let Ok(()) = push_number(alloc, &mut numbers, *name, number) else {
            return Err(OptionFault::NoMemory);
        };
    }
    Ok(numbers)
}

// What an error of clap's means for the caller.
fn fault_of(error: &Error) -> OptionFault
    ensures { result ≡ OptionFault.Usage → kind_of error.now ≢ ErrorKind.OutOfMemory }
{
    if error.kind() == ErrorKind::OutOfMemory {
        OptionFault::NoMemory
    } else {
        OptionFault::Usage
    }
}

// The options of these names, as they are in words `--x=V`, each of one of them.
fn read_values<'a>(
    alloc: Global,
    words: &'a Vec<String>,
    names: &'a [&'a str],
) -> Result<Vec<Number>, OptionFault>
    requires { AreNames (texts names.now) }
    ensures numbers { IfOk result (λ numbers. (values : List Value) → AreWordsOf (texts names.now) values (map string_bytes words.entry.now.items) →
        with_each (number_in values) (texts names.now) ≡ Some (map number_view numbers.items)) }
    ensures usage { IsErrOf result OptionFault.Usage → (values : List Value) → AreWordsOf (texts names.now) values (map string_bytes words.entry.now.items) →
        with_each (number_in values) (texts names.now) ≡ None }
{
    match find_matches(alloc, words.as_slice(), names) {
        Ok(matches) => read_numbers(alloc, &matches, names),
        Err(error) => Err(fault_of(&error)),
    }
}

/// The items that the words after a command's name are, for a command with these flags and options.
/// Names are without their dashes; a name of an option isn't empty, and has no `=`.
///
/// The words are items in any order: `--x` for a flag, and for an option the two words `--x V` or
/// the one word `--x=V`, where V is one to nine digits, leading zeros allowed. No name is
/// shortened, and each item occurs at most once. Usage comes exactly where the words are anything
/// else; NoMemory is free.
pub fn read_options<'n>(
    alloc: Global,
    words: &[String],
    flags: &[&str],
    options: &'n [&'n str],
) -> Result<Items, OptionFault>
    requires names { AreNames (texts options.now) }
    ensures items { IfOk result (λ items. items_of (texts flags.now) (texts options.now) (map string_bytes words.now) ≡ Some items) }
    ensures usage { IsErrOf result OptionFault.Usage → items_of (texts flags.now) (texts options.now) (map string_bytes words.now) ≡ None }
{
    let split = match split_words(alloc, words, flags, options) {
        Ok(split) => split,
        Err(fault) => return Err(fault),
    };
    let flags = match read_flags(alloc, split.flags.as_slice(), flags) {
        Ok(flags) => flags,
        Err(fault) => return Err(fault),
    };
    let Ok(words) = words_of(alloc, split.values.as_slice()) else {
        return Err(OptionFault::NoMemory);
    };
    let numbers = match read_values(alloc, &words, options) {
        Ok(numbers) => numbers,
        Err(fault) => return Err(fault),
    };
    Ok(Items { flags, numbers })
}
