//! A core as text.

use anyhow::Result;
use core_ir::{CellKind, Core, CoreExpr, CoreStmt, GateArg, LeafCall, Output};
use gate_table::target;
use qq_base::Label;
use std::alloc::Global;

/// The line of a core.
pub fn show_core(alloc: Global, core: &Core) -> Result<String> {
    let mut text = String::new(alloc);
    for kind in &core.cells {
        let one = if *kind == CellKind::Number { "n" } else { "t" };
        put(&mut text, " ", one)?;
    }
    text.push_str(" | ")?;
    put_exprs(alloc, &mut text, &core.exprs)?;
    text.push_str(" | ")?;
    put_stmts(alloc, &mut text, core)?;
    text.push_str(" | ")?;
    put_numbers(alloc, &mut text, &core.body)?;
    text.push_str(" | ")?;
    put_outputs(alloc, &mut text, &core.outputs)?;
    text.push_str(" | ")?;
    put_labels(alloc, &mut text, &core.labels)?;
    let qubits = core.qubits;
    let end = format!(in alloc; " | {qubits}")?;
    text.push_str(&end)?;
    Ok(text)
}

/// A part behind what stands, with something between them in the middle of a field.
fn put(text: &mut String, between: &str, part: &str) -> Result<()> {
    if !text.is_empty() && !text.ends_with(" ") {
        text.push_str(between)?;
    }
    text.push_str(part)?;
    Ok(())
}

fn put_numbers(alloc: Global, text: &mut String, numbers: &[u32]) -> Result<()> {
    for number in numbers {
        let one = format!(in alloc; "{number}")?;
        put(text, " ", &one)?;
    }
    Ok(())
}

fn put_exprs(alloc: Global, text: &mut String, exprs: &[CoreExpr]) -> Result<()> {
    for expr in exprs {
        let one = expr_text(alloc, *expr)?;
        put(text, ", ", &one)?;
    }
    Ok(())
}

fn expr_text(alloc: Global, expr: CoreExpr) -> Result<String> {
    match expr {
        CoreExpr::Cell(cell) => Ok(format!(in alloc; "Cell {cell}")?),
        CoreExpr::Truth(value) => {
            let value = if value { 1 } else { 0 };
            Ok(format!(in alloc; "Truth {value}")?)
        }
        CoreExpr::Number(value) => Ok(format!(in alloc; "Number {value}")?),
        CoreExpr::Op(op, left, right) => Ok(format!(in alloc; "{op:?} {left} {right}")?),
        CoreExpr::Widen(from) => Ok(format!(in alloc; "Widen {from}")?),
        CoreExpr::Narrow(from) => Ok(format!(in alloc; "Narrow {from}")?),
        CoreExpr::Choose(test, first, second) => {
            Ok(format!(in alloc; "Choose {test} {first} {second}")?)
        }
    }
}

fn put_stmts(alloc: Global, text: &mut String, core: &Core) -> Result<()> {
    for stmt in &core.stmts {
        let one = stmt_text(alloc, stmt)?;
        put(text, ", ", &one)?;
    }
    Ok(())
}

fn stmt_text(alloc: Global, stmt: &CoreStmt) -> Result<String> {
    match stmt {
        CoreStmt::Assign(pairs) => {
            let mut text = String::from_str(alloc, "set")?;
            for (cell, expr) in &pairs.items {
                let one = format!(in alloc; "{cell}={expr}")?;
                put(&mut text, " ", &one)?;
            }
            Ok(text)
        }
        CoreStmt::Gate(leaf) => leaf_text(alloc, leaf),
        CoreStmt::Reset(qubit) => Ok(format!(in alloc; "reset {}", qubit.0)?),
        CoreStmt::Measure { qubit, into } => match into {
            Some(cell) => Ok(format!(in alloc; "measure {} into {cell}", qubit.0)?),
            None => Ok(format!(in alloc; "measure {}", qubit.0)?),
        },
        CoreStmt::If(test, first, second) => {
            let mut text = format!(in alloc; "if {test} then")?;
            put_numbers(alloc, &mut text, &first.items)?;
            put(&mut text, " ", "else")?;
            put_numbers(alloc, &mut text, &second.items)?;
            Ok(text)
        }
        CoreStmt::Block(body) => body_text(alloc, "block", &body.items),
        CoreStmt::Loop(body) => body_text(alloc, "loop", &body.items),
        CoreStmt::Leave(level) => Ok(format!(in alloc; "leave {level}")?),
        CoreStmt::Again(level) => Ok(format!(in alloc; "again {level}")?),
    }
}

fn body_text(alloc: Global, word: &str, body: &[u32]) -> Result<String> {
    let mut text = String::from_str(alloc, word)?;
    put_numbers(alloc, &mut text, body)?;
    Ok(text)
}

fn leaf_text(alloc: Global, leaf: &LeafCall) -> Result<String> {
    let mut text = String::from_str(alloc, "gate")?;
    let mut qubits = 0;
    if leaf.gate.0 < 31 {
        put(&mut text, " ", target().name(leaf.gate))?;
        qubits = target().row(leaf.gate).qubits;
    }
    for arg in leaf.args {
        put_arg(alloc, &mut text, arg)?;
    }
    put(&mut text, " ", "on")?;
    for qubit in leaf.qubits {
        if qubits > 0 {
            put_numbers(alloc, &mut text, &[qubit.0])?;
            qubits -= 1;
        }
    }
    Ok(text)
}

fn put_arg(alloc: Global, text: &mut String, arg: GateArg) -> Result<()> {
    let one = match arg {
        GateArg::Unused => return Ok(()),
        GateArg::Units(units) => format!(in alloc; "{units}")?,
        GateArg::Running(expr) => format!(in alloc; "={expr}")?,
    };
    put(text, " ", &one)
}

fn put_outputs(alloc: Global, text: &mut String, outputs: &[Output]) -> Result<()> {
    for output in outputs {
        let one = match output {
            Output::Array { label, size } => format!(in alloc; "array {label} {size}")?,
            Output::Truth { label, cell } => format!(in alloc; "truth {label} {cell}")?,
            Output::Number { label, cell } => format!(in alloc; "number {label} {cell}")?,
        };
        put(text, ", ", &one)?;
    }
    Ok(())
}

fn put_labels(alloc: Global, text: &mut String, labels: &[Label]) -> Result<()> {
    for label in labels {
        let mut word = String::new(alloc);
        for byte in &label.items {
            if *byte > 32 && *byte < 127 {
                word.push(char::from(*byte))?;
            }
        }
        put(text, " ", &word)?;
    }
    Ok(())
}
