//! Made input: document lines and query lines that are the same on every machine, for measuring
//! (this project's profile, docs/FORMATS.md).
#![tactic(auto)]

ghost use Rattle.std.specs.Prelude.{◌≡◌, ◌+◌, ◌<◌, ◌++◌, IfOk, OnOk};
ghost use Rattle.std.specs.String.{string_bytes};
ghost use Rattle.eb_gen.specs.Made.{made_line, made_query, word_number, word_text, words_to};

use eb_base::NoMemory;
use std::alloc::Global;
use std::fmt::Write;

/// The made document line of this number, without a LF: the number as its id, and eight words
/// `w0` to `w255` that the start value and the number decide.
pub fn line_of(alloc: Global, start: u64, number: u32) -> Result<Vec<u8>, NoMemory>
    ensures { IfOk result (λ line. line.items ≡ made_line start number) }
{
    let mut text = String::new(alloc);
    write!(text, "{{\"id\":{number},\"text\":\"")?;
    put_words(&mut text, start, number, 7)?;
    text.push_str("\"}")?;
    Ok(text.into_bytes())
}

/// The made query line of this number, without a LF: it asks for the newest ten documents with the
/// first two words of the document line of this number.
pub fn query_of(alloc: Global, start: u64, number: u32) -> Result<Vec<u8>, NoMemory>
    ensures { IfOk result (λ line. line.items ≡ made_query start number) }
{
    let mut text = String::new(alloc);
    text.push_str("?10 ")?;
    put_words(&mut text, start, number, 1)?;
    Ok(text.into_bytes())
}

// The text, and then the words of a document from the first to this one, with a space between two.
fn put_words(text: &mut String, start: u64, number: u32, last: u32) -> Result<(), NoMemory>
    requires { last < 8 }
    ensures { OnOk result (string_bytes text.new ≡ string_bytes text.old ++ words_to start number last) }
{
    put_word(text, start, number, 0)?;
    for at in 0..last {
        text.push(' ')?;
        put_word(text, start, number, at + 1)?;
    }
    Ok(())
}

// Puts the word of a document at this place after the text.
fn put_word(text: &mut String, start: u64, number: u32, at: u32) -> Result<(), NoMemory>
    requires { at < 8 }
    ensures { OnOk result (string_bytes text.new ≡ string_bytes text.old ++ word_text start number at) }
{
    let word = word_of(start, number, at);
    write!(text, "w{word}")?;
    Ok(())
}

// The number of a word, 0 to 255.
fn word_of(start: u64, number: u32, at: u32) -> u64
    requires { at < 8 }
    ensures { result ≡ word_number start number at }
{
    let place = start.wrapping_add(8 * u64::from(number) + u64::from(at));
    place
        .wrapping_mul(6_364_136_223_846_793_005)
        .wrapping_add(1_442_695_040_888_963_407)
        / 72_057_594_037_927_936
}
