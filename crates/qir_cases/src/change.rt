// The texts of the cases.

use anyhow::{Context, Result, bail};
use itoa::Buffer;
use std::alloc::Global;

/// A change of a text: what takes the place of a part of one of its lines.
#[derive(Clone, Copy)]
struct Change<'a> {
    /// The number of the line, from 1.
    line: usize,
    old: &'a str,
    new: &'a str,
}

/// The text of a case.
pub fn case_text(alloc: Global, text: &str, case: &str) -> Result<Vec<u8>> {
    if case == "as it stands" {
        return Ok(Vec::from_slice(alloc, text.as_bytes())?);
    }
    match case.strip_prefix("the first ") {
        Some(count) => first_bytes(alloc, text, count),
        None => changed_text(alloc, text, case),
    }
}

/// So many bytes of a text.
fn first_bytes(alloc: Global, text: &str, count: &str) -> Result<Vec<u8>> {
    let count = count
        .parse::<usize>()
        .context("the number of bytes is none")?;
    if count > text.len() {
        bail!("the text has fewer bytes");
    }
    Ok(Vec::from_slice(alloc, &text.as_bytes()[..count])?)
}

/// The text with the changes of a case.
fn changed_text(alloc: Global, text: &str, case: &str) -> Result<Vec<u8>> {
    let mut changes = Vec::new(alloc);
    for change in case.split(" && ") {
        changes.push(change_of(change)?)?;
    }
    let mut changed = Vec::new(alloc);
    let mut number = 0usize;
    let mut made = 0usize;
    for line in text.lines() {
        number = number.saturating_add(1);
        made = made.saturating_add(push_changed(&mut changed, number, line, &changes)?);
        changed.push(b'\n')?;
    }
    if made != changes.len() {
        bail!("a change of no line");
    }
    Ok(changed)
}

/// The change of a part of a case.
fn change_of(change: &str) -> Result<Change<'_>> {
    let (number, parts) = change.split_once(" ").context("a case without a line")?;
    let (old, new) = parts.split_once(" => ").context("a case without a change")?;
    let line = number.parse::<usize>().context("the line is no number")?;
    Ok(Change { line, old, new })
}

/// Appends the line of a number with its changes, and gives how many these are.
fn push_changed(
    text: &mut Vec<u8>,
    number: usize,
    line: &str,
    changes: &[Change<'_>],
) -> Result<usize> {
    let mut rest = line;
    let mut made = 0usize;
    for change in changes {
        if change.line == number {
            let (front, behind) = rest
                .split_once(change.old)
                .context("the line has no such part")?;
            text.extend_from_slice(front.as_bytes())?;
            push_new(text, change.new)?;
            rest = behind;
            made = made.saturating_add(1);
        }
    }
    text.extend_from_slice(rest.as_bytes())?;
    Ok(made)
}

/// Appends what takes a part's place: a spelled part, or `N times` and one, once for each number from 0.
fn push_new(text: &mut Vec<u8>, new: &str) -> Result<()> {
    match new.split_once(" times ") {
        None => push_spelled(text, new, 0),
        Some((count, part)) => {
            let count = count.parse::<u32>().context("the number of times is none")?;
            for number in 0..count {
                push_spelled(text, part, number)?;
            }
            Ok(())
        }
    }
}

/// Appends a part as it is spelled in a case.
fn push_spelled(text: &mut Vec<u8>, part: &str, number: u32) -> Result<()> {
    let mut is_first = true;
    for piece in part.split("\\") {
        if is_first {
            text.extend_from_slice(piece.as_bytes())?;
        } else {
            push_piece(text, piece, number)?;
        }
        is_first = false;
    }
    Ok(())
}

/// Appends a piece that stands behind a backslash.
fn push_piece(text: &mut Vec<u8>, piece: &str, number: u32) -> Result<()> {
    if let Some(rest) = piece.strip_prefix("k") {
        return push_numbered(text, number, rest);
    }
    if let Some(rest) = piece.strip_prefix("l") {
        return push_numbered(text, number.saturating_add(1), rest);
    }
    for (letter, byte) in [("n", 10u8), ("r", 13), ("t", 9), ("y", 127), ("x", 255)] {
        if let Some(rest) = piece.strip_prefix(letter) {
            text.push(byte)?;
            text.extend_from_slice(rest.as_bytes())?;
            return Ok(());
        }
    }
    text.push(b'\\')?;
    text.extend_from_slice(piece.as_bytes())?;
    Ok(())
}

/// Appends a number and a text.
fn push_numbered(text: &mut Vec<u8>, number: u32, rest: &str) -> Result<()> {
    let mut buffer = Buffer::new();
    text.extend_from_slice(buffer.format(number).as_bytes())?;
    text.extend_from_slice(rest.as_bytes())?;
    Ok(())
}
