//! Numbers as text.

use anyhow::{Context, Result};
use std::alloc::Global;

pub fn number(text: &str) -> Result<u32> {
    text.parse::<u32>().ok().context("no number")
}

pub fn numbers(alloc: Global, text: &str) -> Result<Vec<u32>> {
    let mut all = Vec::new(alloc);
    for word in text.split_whitespace() {
        all.push(number(word)?)?;
    }
    Ok(all)
}

/// A word of 64 bits.
pub fn fixed(word: &str) -> Result<i64> {
    word.parse::<i64>().ok().context("no fixed value")
}
