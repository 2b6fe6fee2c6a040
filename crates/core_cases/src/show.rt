//! Answers as text.

use anyhow::{Result, bail};
use phi_place::CellState;
use qir_module::{Instr, Operand, Phi};
use std::alloc::Global;

fn shown_operand(alloc: Global, operand: Operand) -> Result<String> {
    match operand {
        Operand::Register(register) => Ok(format!(in alloc; "%{register}")?),
        Operand::Fixed(value) => Ok(format!(in alloc; "{value}")?),
    }
}

/// Each operand behind a blank.
pub fn shown_operands(alloc: Global, operands: &[Operand]) -> Result<String> {
    let mut text = String::new(alloc);
    for operand in operands {
        let one = shown_operand(alloc, *operand)?;
        text.push(' ')?;
        text.push_str(&one)?;
    }
    Ok(text)
}

pub fn shown_numbers(alloc: Global, numbers: &[u32]) -> Result<String> {
    let mut text = String::new(alloc);
    for number in numbers {
        if !text.is_empty() {
            text.push(' ')?;
        }
        let one = format!(in alloc; "{number}")?;
        text.push_str(&one)?;
    }
    Ok(text)
}

pub fn shown_code(alloc: Global, code: &[Instr]) -> Result<String> {
    let mut text = String::new(alloc);
    for instr in code {
        if !text.is_empty() {
            text.push_str("; ")?;
        }
        let one = shown_instr(alloc, instr)?;
        text.push_str(&one)?;
    }
    Ok(text)
}

fn mark(truth: bool) -> &'static str {
    if truth { " t" } else { "" }
}

fn shown_instr(alloc: Global, instr: &Instr) -> Result<String> {
    match instr {
        Instr::Op {
            register,
            op,
            truth,
            left,
            right,
        } => {
            let mark = mark(*truth);
            let operands = shown_operands(alloc, &[*left, *right])?;
            Ok(format!(in alloc; "%{register} = {op:?}{mark}{operands}")?)
        }
        Instr::Zext { register, from } => {
            let from = shown_operand(alloc, *from)?;
            Ok(format!(in alloc; "%{register} = Zext {from}")?)
        }
        Instr::Trunc { register, from } => {
            let from = shown_operand(alloc, *from)?;
            Ok(format!(in alloc; "%{register} = Trunc {from}")?)
        }
        Instr::Select {
            register,
            truth,
            test,
            yes,
            no,
        } => {
            let mark = mark(*truth);
            let operands = shown_operands(alloc, &[*test, *yes, *no])?;
            Ok(format!(in alloc; "%{register} = Select{mark}{operands}")?)
        }
        Instr::Call { .. } => bail!("a call"),
    }
}

fn shown_phi(alloc: Global, phi: &Phi) -> Result<String> {
    let register = phi.register;
    let kind = if phi.number { "n" } else { "t" };
    let mut text = format!(in alloc; "%{register} = phi {kind}")?;
    for (operand, block) in &phi.entries.items {
        let operand = shown_operand(alloc, *operand)?;
        let one = format!(in alloc; " [{operand} b{block}]")?;
        text.push_str(&one)?;
    }
    Ok(text)
}

pub fn shown_phis(alloc: Global, phis: &[Phi]) -> Result<String> {
    let mut text = String::new(alloc);
    for phi in phis {
        if !text.is_empty() {
            text.push_str("; ")?;
        }
        let one = shown_phi(alloc, phi)?;
        text.push_str(&one)?;
    }
    Ok(text)
}

/// Phis, and the state behind them.
pub fn shown_state(alloc: Global, phis: &[Phi], state: &CellState, next: u32) -> Result<String> {
    let phis = shown_phis(alloc, phis)?;
    let block = state.block;
    let operands = shown_operands(alloc, state.values.as_slice())?;
    Ok(format!(in alloc; "{phis} -> b{block}{operands}, next {next}")?)
}
