//! An option with a text, which is removed from the words of a command before the others are read.
ghost use Rattle.std.specs.Prelude.{◌≡◌, ◌++◌, ◌&&◌, Some, None, IfOk, IsErrOf, if◌then◌else◌, map, not, option_map, string_bytes};
ghost use Rattle.eb_options.specs.Items.{is_one_of, texts};
ghost use Rattle.eb_options.specs.Texts.{behind, taken_value, text_apart, value_of};
ghost use Rattle.eb_options.specs.TextViews.{apart_view, shown};

use crate::items::OptionFault;
use crate::split::{is_dashed, is_one_of, push};
use eb_base::NoMemory;
use std::alloc::Global;

/// The words of a command without an option that has a text, and this text, if there is one.
#[derive(Debug, Drop)]
pub struct TextApart<'a> {
    /// The text.
    pub text: Option<&'a str>,
    /// The other words.
    pub others: Vec<String>,
}

// What a word says of the option: nothing where it is another; and else the value in it, if there
// is one.
fn value_of<'a>(word: &'a str, name: &str) -> Option<Option<&'a str>>
    ensures { option_map shown result ≡ value_of name.now word.entry.now }
{
    match word.split_once('=') {
        Some((front, value)) if is_dashed(front, name) => Some(Some(value)),
        None if is_dashed(word, name) => Some(None),
        _ => None,
    }
}

// What a word says of the option where an item begins; nothing where an option before it waits for
// its value.
fn value_at<'a>(waits: bool, word: &'a str, name: &str) -> Option<Option<&'a str>>
    ensures { option_map shown result ≡ (if waits then None else value_of name.now word.entry.now) }
{
    if waits { None } else { value_of(word, name) }
}

// Whether the option that a word is waits for its value.
fn waits_after(waits: bool, word: &str, options: &[&str]) -> bool
    ensures { result ≡ (not waits && is_one_of (texts options.now) word.now) }
{
    !waits && is_one_of(word, options)
}

// The text, these words, and then the rest.
fn put_apart<'a>(
    alloc: Global,
    text: &'a str,
    rest: &[String],
    others: Vec<String>,
) -> Result<TextApart<'a>, NoMemory>
    ensures { IfOk result (λ apart. Some (apart_view apart)
        ≡ behind (map string_bytes others.items) (taken_value (Some text.entry.now) (map string_bytes rest.now))) }
{
    let mut others = others;
    for word in rest {
        push(alloc, &mut others, word.as_str())?;
    }
    Ok(TextApart {
        text: Some(text),
        others,
    })
}

// The value in the word of the option or else the next word, and the words before and after it.
fn take_value<'a>(
    alloc: Global,
    value: Option<&'a str>,
    rest: &'a [String],
    others: Vec<String>,
) -> Result<TextApart<'a>, OptionFault>
    ensures apart { IfOk result (λ apart. behind (map string_bytes others.items) (taken_value (shown value.entry) (map string_bytes rest.entry.now))
        ≡ Some (apart_view apart)) }
    ensures usage { IsErrOf result OptionFault.Usage → taken_value (shown value.entry) (map string_bytes rest.entry.now) ≡ None }
{
    let apart = match (value, rest) {
        (Some(text), _) => put_apart(alloc, text, rest, others),
        (None, [text, more @ ..]) => put_apart(alloc, text.as_str(), more, others),
        (None, []) => return Err(OptionFault::Usage),
    };
    apart.map_err(|_| OptionFault::NoMemory)
}

/// Removes the option of this name from the words after a command's name: the two words `--x V` or
/// the one word `--x=V` where an item begins, which isn't where an option of these other names
/// waits for its value. V is any text. What comes after it stays as it is, also a second item of
/// the name. Usage comes exactly where the option is last, without a value; NoMemory is free.
pub fn take_text<'a>(
    alloc: Global,
    words: &'a [String],
    name: &str,
    options: &[&str],
) -> Result<TextApart<'a>, OptionFault>
    ensures apart { IfOk result (λ apart. text_apart name.now (texts options.now) (map string_bytes words.entry.now) ≡ Some (apart_view apart)) }
    ensures usage { IsErrOf result OptionFault.Usage → text_apart name.now (texts options.now) (map string_bytes words.entry.now) ≡ None }
{
    let mut others = Vec::new(alloc);
    let mut waits = false;
    for (at, word) in words.iter().enumerate() {
        if let Some(value) = value_at(waits, word.as_str(), name) {
            return take_value(alloc, value, &words[at + 1..], others);
        }
        let Ok(()) = push(alloc, &mut others, word.as_str()) else {
            return Err(OptionFault::NoMemory);
        };
        waits = waits_after(waits, word.as_str(), options);
    }
    Ok(TextApart { text: None, others })
}
