//! Lists of numbers.

use anyhow::{Context, Result};
use std::alloc::Global;

fn number(word: &str) -> Result<u64> {
    word.parse::<u64>()
        .context(format_args!("a number is wanted, and not {word}"))
}

// Puts the numbers of a word: one number `N`, those from `A` to `B` of `A..B`, or each so-manyth of
// them of `A..B/STEP`.
pub(crate) fn put_numbers(numbers: &mut Vec<u64>, word: &str) -> Result<()> {
    let Some((first, rest)) = word.split_once("..") else {
        numbers.push(number(word)?)?;
        return Ok(());
    };
    let (last, step) = rest.split_once('/').unwrap_or((rest, "1"));
    let first = number(first)?;
    let step = number(step)?.max(1);
    let count = number(last)?.saturating_sub(first) / step;
    for at in 0..count.saturating_add(1) {
        numbers.push(first.saturating_add(at.saturating_mul(step)))?;
    }
    Ok(())
}

// The numbers of these words.
pub(crate) fn numbers(alloc: Global, words: &str) -> Result<Vec<u64>> {
    let mut numbers = Vec::new(alloc);
    for word in words.split_whitespace() {
        put_numbers(&mut numbers, word)?;
    }
    Ok(numbers)
}

// The number of a place, in a list where one number serves for all; 0 in an empty list.
pub(crate) fn number_at(numbers: &[u64], at: usize) -> Result<u64> {
    match numbers {
        [] => Ok(0),
        [all] => Ok(*all),
        _ => Ok(*numbers.get(at).context("a number is missing")?),
    }
}
