//! Texts of a row: escapes, what is repeated, and numbers in it.

use crate::numbers::put_numbers;
use anyhow::{Context, Result, bail};
use std::alloc::Global;

// Where the reading of a text is: at a byte that means itself, after a backslash, among digits of
// two for a byte, or after the mark of a number.
#[derive(Clone, Copy)]
enum State {
    Text,
    Escape,
    Digits { high: Option<u8> },
    Number { value: u64, sign: Option<u8> },
}

// What the marks of a text mean: `#` the number of its line, `%` the number of what is repeated in
// it.
#[derive(Clone, Copy)]
struct Marks {
    line: Option<u64>,
    part: Option<u64>,
}

fn put_decimal(bytes: &mut Vec<u8>, alloc: Global, value: u64) -> Result<()> {
    bytes.extend_from_slice(format!(in alloc; "{value}")?.as_str().as_bytes())?;
    Ok(())
}

// After a byte that means itself, or at the begin of a text.
fn put_byte(bytes: &mut Vec<u8>, alloc: Global, marks: Marks, byte: u8) -> Result<State> {
    match (byte, marks.line, marks.part) {
        (b'\\', _, _) => return Ok(State::Escape),
        (b'#', Some(value), _) => return Ok(State::Number { value, sign: None }),
        (b'%', _, Some(value)) => put_decimal(bytes, alloc, value)?,
        _ => bytes.push(byte)?,
    }
    Ok(State::Text)
}

fn put_escaped(bytes: &mut Vec<u8>, byte: u8) -> Result<State> {
    match byte {
        b'n' => bytes.push(b'\n')?,
        b'r' => bytes.push(b'\r')?,
        b't' => bytes.push(b'\t')?,
        b'[' => return Ok(State::Digits { high: None }),
        _ => bail!("\\ stands before n, r, t or ["),
    }
    Ok(State::Text)
}

fn digit(byte: u8) -> Option<u8> {
    match byte {
        b'0'..=b'9' => Some(byte - b'0'),
        b'A'..=b'F' => Some(byte - b'A' + 10),
        _ => None,
    }
}

fn put_digit(bytes: &mut Vec<u8>, high: Option<u8>, byte: u8) -> Result<State> {
    match (digit(byte), high, byte) {
        (Some(value), None, _) => return Ok(State::Digits { high: Some(value) }),
        (Some(value), Some(high), _) => bytes.push(high.wrapping_mul(16).wrapping_add(value))?,
        (None, None, b' ') => {}
        (None, None, b']') => return Ok(State::Text),
        _ => bail!("two digits of 0 to 9 and A to F for a byte are wanted, and a ] behind them"),
    }
    Ok(State::Digits { high: None })
}

fn computed(value: u64, sign: u8, digit: u8) -> u64 {
    let digit = u64::from(digit);
    match sign {
        b'*' => value.wrapping_mul(digit),
        b'+' => value.wrapping_add(digit),
        _ => value.wrapping_sub(digit),
    }
}

fn put_number(bytes: &mut Vec<u8>, alloc: Global, value: u64, sign: Option<u8>) -> Result<()> {
    put_decimal(bytes, alloc, value)?;
    if let Some(sign) = sign {
        bytes.push(sign)?;
    }
    Ok(())
}

// After the mark of a number: `*`, `+` or `-` and one digit go on with it, and any other byte ends
// it.
fn go_on(
    bytes: &mut Vec<u8>,
    alloc: Global,
    marks: Marks,
    value: u64,
    sign: Option<u8>,
    byte: u8,
) -> Result<State> {
    match (sign, byte) {
        (None, b'*' | b'+' | b'-') => {
            return Ok(State::Number {
                value,
                sign: Some(byte),
            });
        }
        (Some(sign), b'0'..=b'9') => {
            return Ok(State::Number {
                value: computed(value, sign, byte - b'0'),
                sign: None,
            });
        }
        _ => {}
    }
    put_number(bytes, alloc, value, sign)?;
    put_byte(bytes, alloc, marks, byte)
}

fn put_text(bytes: &mut Vec<u8>, alloc: Global, marks: Marks, text: &str) -> Result<()> {
    let mut state = State::Text;
    for byte in text.as_bytes() {
        state = match state {
            State::Text => put_byte(bytes, alloc, marks, *byte)?,
            State::Escape => put_escaped(bytes, *byte)?,
            State::Digits { high } => put_digit(bytes, high, *byte)?,
            State::Number { value, sign } => go_on(bytes, alloc, marks, value, sign, *byte)?,
        };
    }
    match state {
        State::Text => Ok(()),
        State::Number { value, sign } => put_number(bytes, alloc, value, sign),
        _ => bail!("what \\ begins isn't ended"),
    }
}

// The numbers of a range: those from 1 to `N` of one number.
fn range(alloc: Global, word: &str) -> Result<Vec<u64>> {
    let mut numbers = Vec::new(alloc);
    match word.parse::<u64>() {
        Ok(last) => {
            for number in 0..last {
                numbers.push(number.saturating_add(1))?;
            }
        }
        Err(_) => put_numbers(&mut numbers, word)?,
    }
    Ok(numbers)
}

// Puts the text between `<<` and `>>`, a range and a text, as often as the range has numbers.
fn put_repeated(bytes: &mut Vec<u8>, alloc: Global, line: Option<u64>, text: &str) -> Result<()> {
    let (numbers, text) = text.split_once(' ').context("<< has no range and text")?;
    for number in range(alloc, numbers)?.as_slice() {
        let marks = Marks {
            line,
            part: Some(*number),
        };
        put_text(bytes, alloc, marks, text)?;
    }
    Ok(())
}

// Puts a text once.
fn put_once(bytes: &mut Vec<u8>, alloc: Global, line: Option<u64>, text: &str) -> Result<()> {
    let marks = Marks { line, part: None };
    let mut parts = text.split("<<");
    put_text(bytes, alloc, marks, parts.next().unwrap_or(""))?;
    for part in parts {
        let (repeated, rest) = part.split_once(">>").context("<< has no >>")?;
        put_repeated(bytes, alloc, line, repeated)?;
        put_text(bytes, alloc, marks, rest)?;
    }
    Ok(())
}

// Puts the text of a line, and a LF unless it ends with a backslash: once where the range is empty,
// else for each of its numbers.
pub(crate) fn put_line(
    bytes: &mut Vec<u8>,
    alloc: Global,
    numbers: &str,
    text: &str,
) -> Result<()> {
    let (text, end) = match text.strip_suffix('\\') {
        Some(text) => (text, ""),
        None => (text, "\n"),
    };
    if numbers.is_empty() {
        put_once(bytes, alloc, None, text)?;
        bytes.extend_from_slice(end.as_bytes())?;
        return Ok(());
    }
    for number in range(alloc, numbers)?.as_slice() {
        put_once(bytes, alloc, Some(*number), text)?;
        bytes.extend_from_slice(end.as_bytes())?;
    }
    Ok(())
}
