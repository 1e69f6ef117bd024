//! The words after a command's name, split into flags and options with their values.
//!
//! `clap` reads the options alone, each as the one word `--x=V`, so each of its words is an item of
//! its own. Its flags have a default value, which each law of the options would have to speak of.
ghost use Rattle.std.specs.Prelude.{◌≡◌, ◌++◌, ◌∷◌, [], None, Some, IfOk, IsErrOf, List, OnOk, false, if◌then◌else◌, map, option_map, string_bytes, true, ℕ};
ghost use Rattle.std.specs.Str.{bytes_eq};
ghost use Rattle.eb_options.specs.Items.{dashed, flags_and_values, is_one_of, name_in, texts, value_in};
ghost use Rattle.eb_options.specs.Parts.{in_front, with_flag_last, with_value_last, word_of};
ghost use Rattle.eb_options.specs.Views.{item_view, parts_view, value_view, waiting};

use crate::items::OptionFault;
use eb_base::NoMemory;
use std::alloc::Global;

// An option, as a word, and the text of its value.
#[derive(Drop)]
pub(crate) struct Value {
    name: String,
    text: String,
}

// The words read so far: the flags, the options with their values, and the option that waits for
// its value.
#[derive(Drop)]
pub(crate) struct Split {
    pub(crate) flags: Vec<String>,
    pub(crate) values: Vec<Value>,
    waits: Option<String>,
}

impl Value {
    // The option with its value as one word, `--x=V`.
    fn word(&self, alloc: Global) -> Result<String, NoMemory>
        ensures { IfOk result (λ word. string_bytes word ≡ word_of (value_view self.now)) }
    {
        let mut word = String::from_str(alloc, self.name.as_str())?;
        word.push_str("=")?;
        word.push_str(self.text.as_str())?;
        Ok(word)
    }
}

// The options with their values, each as one word.
pub(crate) fn words_of(alloc: Global, values: &[Value]) -> Result<Vec<String>, NoMemory>
    ensures { IfOk result (λ words. map string_bytes words.items ≡ map word_of (map value_view values.now)) }
{
    let mut words = Vec::new(alloc);
    for value in values {
        words.push(value.word(alloc)?)?;
    }
    Ok(words)
}

// Whether the word is `--` and the name.
pub(crate) fn is_dashed(word: &str, name: &str) -> bool
    ensures { result ≡ bytes_eq word.now (dashed name.now) }
{
    let bytes = word.as_bytes();
    bytes.len() >= 2 && bytes[0] == b'-' && bytes[1] == b'-' && &bytes[2..] == name.as_bytes()
}

// Whether the word is `--` and one of the names.
pub(crate) fn is_one_of(word: &str, names: &[&str]) -> bool
    ensures { result ≡ is_one_of (texts names.now) word.now }
{
    for name in names {
        if is_dashed(word, *name) {
            return true;
        }
    }
    false
}

// The words with one more at the end.
pub(crate) fn push(alloc: Global, words: &mut Vec<String>, word: &str) -> Result<(), NoMemory>
    ensures { OnOk result (map string_bytes words.new.items ≡ map string_bytes words.old.items ++ word.now ∷ []) }
{
    words.push(String::from_str(alloc, word)?)?;
    Ok(())
}

// What a word is as an item: the option in it, and its value, if there is one; nothing where it is
// none of the options.
fn option_of<'a>(word: &'a str, options: &[&str]) -> Option<(&'a str, Option<&'a str>)>
    ensures { option_map item_view result ≡ (if is_one_of (texts options.now) (name_in word.entry.now)
        then Some (name_in word.entry.now, value_in word.entry.now) else None) }
{
    match word.split_once('=') {
        Some((name, text)) if is_one_of(name, options) => Some((name, Some(text))),
        None if is_one_of(word, options) => Some((word, None)),
        _ => None,
    }
}

impl Split {
    // One more flag.
    fn put_flag(&mut self, alloc: Global, word: &str) -> Result<(), NoMemory>
        ensures parts { OnOk result (parts_view self.new ≡ with_flag_last (parts_view self.old) word.now) }
        ensures waits { OnOk result (waiting self.new ≡ waiting self.old) }
    {
        push(alloc, &mut self.flags, word)
    }

    // One more option with its value; none waits.
    fn put_value(&mut self, alloc: Global, name: &str, text: &str) -> Result<(), NoMemory>
        ensures parts { OnOk result (parts_view self.new ≡ with_value_last (parts_view self.old) (name.now, text.now)) }
        ensures waits { OnOk result (waiting self.new ≡ None) }
    {
        let name = String::from_str(alloc, name)?;
        let text = String::from_str(alloc, text)?;
        self.values.push(Value { name, text })?;
        self.waits = None;
        Ok(())
    }

    // The option waits for its value.
    fn wait_for(&mut self, alloc: Global, name: &str) -> Result<(), NoMemory>
        ensures parts { OnOk result (parts_view self.new ≡ parts_view self.old) }
        ensures waits { OnOk result (waiting self.new ≡ Some name.now) }
    {
        self.waits = Some(String::from_str(alloc, name)?);
        Ok(())
    }

    // Reads one more word where no option waits for its value, and returns whether the word is a
    // flag or an option.
    fn read_item(
        &mut self,
        alloc: Global,
        word: &str,
        flags: &[&str],
        options: &[&str],
    ) -> Result<bool, NoMemory>
        requires { waiting self.old ≡ None }
        ensures item { IfOk result (λ is_item. is_item ≡ true → (rest : List (List ℕ)) →
            in_front (parts_view self.old) (flags_and_values (texts flags.now) (texts options.now) None (word.now ∷ rest))
            ≡ in_front (parts_view self.new) (flags_and_values (texts flags.now) (texts options.now) (waiting self.new) rest)) }
        ensures none { IfOk result (λ is_item. is_item ≡ false → (rest : List (List ℕ)) →
            flags_and_values (texts flags.now) (texts options.now) None (word.now ∷ rest) ≡ None) }
    {
        if is_one_of(word, flags) {
            self.put_flag(alloc, word)?;
            return Ok(true);
        }
        match option_of(word, options) {
            Some((name, Some(text))) => {
                self.put_value(alloc, name, text)?;
                return Ok(true);
            }
            Some((name, None)) => {
                self.wait_for(alloc, name)?;
                return Ok(true);
            }
            None => return Ok(false),
        }
    }

    // Reads one more word, and returns whether the word is allowed there.
    fn read(
        &mut self,
        alloc: Global,
        word: &str,
        flags: &[&str],
        options: &[&str],
    ) -> Result<bool, NoMemory>
        ensures item { IfOk result (λ is_item. is_item ≡ true → (rest : List (List ℕ)) →
            in_front (parts_view self.old) (flags_and_values (texts flags.now) (texts options.now) (waiting self.old) (word.now ∷ rest))
            ≡ in_front (parts_view self.new) (flags_and_values (texts flags.now) (texts options.now) (waiting self.new) rest)) }
        ensures none { IfOk result (λ is_item. is_item ≡ false → (rest : List (List ℕ)) →
            flags_and_values (texts flags.now) (texts options.now) (waiting self.old) (word.now ∷ rest) ≡ None) }
    {
        if let Some(name) = self.waits.take() {
            self.put_value(alloc, name.as_str(), word)?;
            return Ok(true);
        }
        self.read_item(alloc, word, flags, options)
    }
}

// The words as flags and options with their values.
pub(crate) fn split_words(
    alloc: Global,
    words: &[String],
    flags: &[&str],
    options: &[&str],
) -> Result<Split, OptionFault>
    ensures parts { IfOk result (λ split. flags_and_values (texts flags.now) (texts options.now) None (map string_bytes words.now) ≡ Some (parts_view split)) }
    ensures usage { IsErrOf result OptionFault.Usage → flags_and_values (texts flags.now) (texts options.now) None (map string_bytes words.now) ≡ None }
{
    let mut split = Split {
        flags: Vec::new(alloc),
        values: Vec::new(alloc),
        waits: None,
    };
    for word in words {
        match split.read(alloc, word.as_str(), flags, options) {
            Ok(true) => {}
            Ok(false) => return Err(OptionFault::Usage),
            Err(NoMemory) => return Err(OptionFault::NoMemory),
        }
    }
    if split.waits.is_some() {
        return Err(OptionFault::Usage);
    }
    Ok(split)
}
