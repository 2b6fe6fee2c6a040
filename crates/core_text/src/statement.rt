//! Statements from their text.

use crate::digits::{fixed, number, numbers};
use anyhow::{Context, Result, bail};
use core_ir::{Body, CoreStmt, GateArg, LeafCall, Pairs};
use gate_table::target;
use qq_base::{GateId, QubitId};
use std::alloc::Global;

/// Statements.
pub fn statements(alloc: Global, text: &str) -> Result<Vec<CoreStmt>> {
    let mut all = Vec::new(alloc);
    if text.is_empty() {
        return Ok(all);
    }
    for part in text.split(", ") {
        all.push(statement(alloc, part)?)?;
    }
    Ok(all)
}

fn statement(alloc: Global, text: &str) -> Result<CoreStmt> {
    let (word, rest) = text.split_once(" ").unwrap_or((text, ""));
    match word {
        "set" => Ok(CoreStmt::Assign(pairs(alloc, rest)?)),
        "gate" => Ok(CoreStmt::Gate(leaf(alloc, rest)?)),
        "reset" => Ok(CoreStmt::Reset(QubitId(number(rest)?))),
        "measure" => measurement(rest),
        "if" => choice(alloc, rest),
        "block" => Ok(CoreStmt::Block(body(alloc, rest)?)),
        "loop" => Ok(CoreStmt::Loop(body(alloc, rest)?)),
        "leave" => Ok(CoreStmt::Leave(number(rest)?)),
        "again" => Ok(CoreStmt::Again(number(rest)?)),
        _ => bail!("no statement"),
    }
}

fn body(alloc: Global, text: &str) -> Result<Body> {
    Ok(Body {
        items: numbers(alloc, text)?,
    })
}

fn choice(alloc: Global, text: &str) -> Result<CoreStmt> {
    let (test, bodies) = text.split_once(" then").context("an if without then")?;
    let (first, second) = bodies.split_once("else").context("an if without else")?;
    Ok(CoreStmt::If(number(test)?, body(alloc, first)?, body(alloc, second)?))
}

fn measurement(text: &str) -> Result<CoreStmt> {
    match text.split_once(" into ") {
        Some((qubit, cell)) => Ok(CoreStmt::Measure {
            qubit: QubitId(number(qubit)?),
            into: Some(number(cell)?),
        }),
        None => Ok(CoreStmt::Measure {
            qubit: QubitId(number(text)?),
            into: None,
        }),
    }
}

fn pairs(alloc: Global, text: &str) -> Result<Pairs> {
    let mut items = Vec::new(alloc);
    for word in text.split_whitespace() {
        let (cell, expr) = word.split_once("=").context("a pair without =")?;
        items.push((number(cell)?, number(expr)?))?;
    }
    Ok(Pairs { items })
}

/// A gate with its arguments and qubits.
fn leaf(alloc: Global, text: &str) -> Result<LeafCall> {
    let (front, places) = text.split_once(" on ").context("a gate without on")?;
    let (name, words) = front.split_once(" ").unwrap_or((front, ""));
    Ok(LeafCall {
        gate: gate(name)?,
        args: args(words)?,
        qubits: qubits(alloc, places)?,
    })
}

/// The gate of a name in the target table.
fn gate(name: &str) -> Result<GateId> {
    for place in 0..31u8 {
        let gate = GateId(place);
        if target().name(gate) == name {
            return Ok(gate);
        }
    }
    bail!("no gate")
}

fn args(text: &str) -> Result<[GateArg; 4]> {
    let mut args = [GateArg::Unused; 4];
    let mut place = 0usize;
    for word in text.split_whitespace() {
        if place >= 4 {
            bail!("more than four arguments");
        }
        args[place] = arg(word)?;
        place += 1;
    }
    Ok(args)
}

fn arg(word: &str) -> Result<GateArg> {
    match word.strip_prefix("=") {
        Some(expr) => Ok(GateArg::Running(number(expr)?)),
        None => Ok(GateArg::Units(fixed(word)?)),
    }
}

/// The qubits, with qubit 0 in the places behind them.
fn qubits(alloc: Global, text: &str) -> Result<[QubitId; 3]> {
    match numbers(alloc, text)?.as_slice() {
        [first] => Ok([QubitId(*first), QubitId(0), QubitId(0)]),
        [first, second] => Ok([QubitId(*first), QubitId(*second), QubitId(0)]),
        [first, second, third] => Ok([QubitId(*first), QubitId(*second), QubitId(*third)]),
        _ => bail!("a gate has one to three qubits"),
    }
}
