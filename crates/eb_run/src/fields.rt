//! The options that say how lines are read: `--fields`, which members of a document's line are
//! fields, `--words`, how texts are cut, and `--id` and `--text`, which members are a document's id
//! and text.
ghost use Rattle.std.specs.Prelude.{◌≡◌, Some, None, IfOk, IsErrOf, map, string_bytes};
ghost use Rattle.eb_fields.specs.Dialect.{dialect_of};
ghost use Rattle.eb_options.specs.Items.{texts};
ghost use Rattle.eb_run.specs.Command.{dialect_apart, dialect_in, others_in, fields_in, cut_in, member_in};
ghost use Rattle.eb_run.specs.Command as spec;
ghost use Rattle.eb_run.specs.Splits.{apart_view};
ghost use Rattle.eb_fields.specs.Given.{told_fields, told_member, told_text};

use crate::command::CommandFault;
use eb_fields::{Dialect, Fields};
use eb_options::{OptionFault, take_text};
use eb_text::Cut;
use std::alloc::Global;

// The words after a command's name without the options that say how lines are read, and what these
// say.
#[derive(Drop)]
pub(crate) struct WordsApart<'a> {
    pub(crate) dialect: Dialect<'a>,
    pub(crate) others: Vec<String>,
}

// The fields of a list, if it is in the grammar; none where there is no list.
fn read_fields<'a>(text: Option<&'a str>) -> Option<Fields<'a>>
    ensures { told_fields result ≡ fields_in (told_text text.entry) }
{
    match text {
        Some(words) => Fields::read(words),
        None => Some(Fields::none()),
    }
}

// How texts are cut, if the text says it; each word is a token where there is none.
fn read_cut(text: Option<&str>) -> Option<Cut>
    ensures { result ≡ cut_in (told_text text.entry) }
{
    match text {
        Some(word) => {
            if word == "pieces" {
                Some(Cut::Pieces)
            } else {
                None
            }
        }
        None => Some(Cut::Words),
    }
}

// The name of a member, which isn't empty; none where there is no text.
fn read_member<'a>(text: Option<&'a str>) -> Option<Option<&'a str>>
    ensures { told_member result ≡ member_in (told_text text.entry) }
{
    match text {
        Some(name) => {
            if name.is_empty() {
                None
            } else {
                Some(Some(name))
            }
        }
        None => Some(None),
    }
}

// The text of an option, if it is there.
fn text_of<'a>(
    alloc: Global,
    words: &'a [String],
    name: &str,
    options: &[&str],
) -> Result<Option<&'a str>, CommandFault>
    ensures text { IfOk result (λ text. spec.text_of name.now (texts options.now) (map string_bytes words.entry.now) ≡ Some (told_text text)) }
    ensures usage { IsErrOf result CommandFault.Usage → spec.text_of name.now (texts options.now) (map string_bytes words.entry.now) ≡ None }
{
    match take_text(alloc, words, name, options) {
        Ok(apart) => Ok(apart.text),
        Err(OptionFault::Usage) => Err(CommandFault::Usage),
        Err(OptionFault::NoMemory) => Err(CommandFault::NoMemory),
    }
}

// The words without an option.
fn without(
    alloc: Global,
    words: &[String],
    name: &str,
    options: &[&str],
) -> Result<Vec<String>, CommandFault>
    ensures others { IfOk result (λ others. spec.without name.now (texts options.now) (map string_bytes words.now) ≡ Some (map string_bytes others.items)) }
    ensures usage { IsErrOf result CommandFault.Usage → spec.without name.now (texts options.now) (map string_bytes words.now) ≡ None }
{
    match take_text(alloc, words, name, options) {
        Ok(apart) => Ok(apart.others),
        Err(OptionFault::Usage) => Err(CommandFault::Usage),
        Err(OptionFault::NoMemory) => Err(CommandFault::NoMemory),
    }
}

// How lines are read, by the words.
fn dialect_of_words<'a>(
    alloc: Global,
    words: &'a [String],
    options: &[&str],
) -> Result<Dialect<'a>, CommandFault>
    ensures dialect { IfOk result (λ dialect. dialect_in (texts options.now) (map string_bytes words.entry.now) ≡ Some (dialect_of dialect)) }
    ensures usage { IsErrOf result CommandFault.Usage → dialect_in (texts options.now) (map string_bytes words.entry.now) ≡ None }
{
    let fields = read_fields(text_of(alloc, words, "fields", options)?).ok_or(CommandFault::Usage)?;
    let cut = read_cut(text_of(alloc, words, "words", options)?).ok_or(CommandFault::Usage)?;
    let id = read_member(text_of(alloc, words, "id", options)?).ok_or(CommandFault::Usage)?;
    let text = read_member(text_of(alloc, words, "text", options)?).ok_or(CommandFault::Usage)?;
    Ok(Dialect {
        fields,
        cut,
        id,
        text,
        ..Dialect::plain()
    })
}

// The words without the options that say how lines are read.
fn other_words(
    alloc: Global,
    words: &[String],
    options: &[&str],
) -> Result<Vec<String>, CommandFault>
    ensures others { IfOk result (λ others. others_in (texts options.now) (map string_bytes words.now) ≡ Some (map string_bytes others.items)) }
    ensures usage { IsErrOf result CommandFault.Usage → others_in (texts options.now) (map string_bytes words.now) ≡ None }
{
    let others = without(alloc, words, "fields", options)?;
    let fewer = without(alloc, others.as_slice(), "words", options)?;
    let least = without(alloc, fewer.as_slice(), "id", options)?;
    without(alloc, least.as_slice(), "text", options)
}

// The words without these options, and what they say, for a command whose options with a value are
// these, those among them.
pub(crate) fn take_dialect<'a>(
    alloc: Global,
    words: &'a [String],
    options: &[&str],
) -> Result<WordsApart<'a>, CommandFault>
    ensures apart { IfOk result (λ apart. dialect_apart (texts options.now) (map string_bytes words.entry.now) ≡ Some (apart_view apart)) }
    ensures usage { IsErrOf result CommandFault.Usage → dialect_apart (texts options.now) (map string_bytes words.entry.now) ≡ None }
{
    let dialect = dialect_of_words(alloc, words, options)?;
    let others = other_words(alloc, words, options)?;
    Ok(WordsApart { dialect, others })
}
