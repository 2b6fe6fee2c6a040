//! The fields of a case that are no part of a core.

use anyhow::{Context, Result, bail};
use core_ir::CellKind;
use core_text::{fixed, kind, number};
use phi_place::{CellState, Operands};
use qir_module::Operand;
use std::alloc::Global;

fn operand(word: &str) -> Result<Operand> {
    match word.strip_prefix("%") {
        Some(register) => Ok(Operand::Register(number(register)?)),
        None => Ok(Operand::Fixed(fixed(word)?)),
    }
}

/// Kinds, each with the operand behind its colon.
pub fn placed_cells(alloc: Global, text: &str) -> Result<(Vec<CellKind>, Vec<Operand>)> {
    let mut kinds = Vec::new(alloc);
    let mut operands = Vec::new(alloc);
    for word in text.split_whitespace() {
        let (first, second) = word.split_once(":").context("a cell without an operand")?;
        kinds.push(kind(first)?)?;
        operands.push(operand(second)?)?;
    }
    Ok((kinds, operands))
}

/// A block and its operands.
pub fn way(alloc: Global, text: &str) -> Result<CellState> {
    let (block, rest) = text.split_once(" ").context("a way without operands")?;
    let mut values = Vec::new(alloc);
    for word in rest.split_whitespace() {
        values.push(operand(word)?)?;
    }
    if values.len() > 1_000_000 {
        bail!("too many cells");
    }
    Ok(CellState {
        block: number(block)?,
        values: Operands::new(values),
    })
}

pub fn ways(alloc: Global, text: &str) -> Result<Vec<CellState>> {
    let mut all = Vec::new(alloc);
    for part in text.split(", ") {
        all.push(way(alloc, part)?)?;
    }
    Ok(all)
}
