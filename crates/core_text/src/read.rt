//! A core from its text.

use crate::digits::{fixed, number, numbers};
use crate::statement::statements;
use anyhow::{Context, Result, bail};
use core_ir::{CellKind, Core, CoreExpr, CoreOp, Output};
use qq_base::Label;
use std::alloc::Global;

/// The core of a line.
pub fn read_core(alloc: Global, line: &str) -> Result<Core> {
    let mut fields = Vec::new(alloc);
    for field in line.split(" | ") {
        fields.push(field.trim())?;
    }
    match fields.as_slice() {
        [cells, nodes, stmts, body, outs, names, qubits] => Ok(Core {
            cells: kinds(alloc, cells)?,
            exprs: exprs(alloc, nodes)?,
            stmts: statements(alloc, stmts)?,
            body: numbers(alloc, body)?,
            outputs: outputs(alloc, outs)?,
            labels: labels(alloc, names)?,
            qubits: number(qubits)?,
        }),
        _ => bail!("a core has seven fields"),
    }
}

/// The kind of a cell.
pub fn kind(word: &str) -> Result<CellKind> {
    match word {
        "n" => Ok(CellKind::Number),
        "t" => Ok(CellKind::Truth),
        _ => bail!("no kind"),
    }
}

/// The kinds of cells.
pub fn kinds(alloc: Global, text: &str) -> Result<Vec<CellKind>> {
    let mut all = Vec::new(alloc);
    for word in text.split_whitespace() {
        all.push(kind(word)?)?;
    }
    Ok(all)
}

/// Expressions.
pub fn exprs(alloc: Global, text: &str) -> Result<Vec<CoreExpr>> {
    let mut all = Vec::new(alloc);
    if text.is_empty() {
        return Ok(all);
    }
    for part in text.split(", ") {
        all.push(expr(alloc, part)?)?;
    }
    Ok(all)
}

fn expr(alloc: Global, text: &str) -> Result<CoreExpr> {
    let (word, rest) = text.split_once(" ").context("an expression of one word")?;
    if word == "Number" {
        return Ok(CoreExpr::Number(fixed(rest)?));
    }
    let named = numbers(alloc, rest)?;
    match (word, named.as_slice()) {
        ("Cell", [cell]) => Ok(CoreExpr::Cell(*cell)),
        ("Truth", [value]) => Ok(CoreExpr::Truth(*value == 1)),
        ("Widen", [from]) => Ok(CoreExpr::Widen(*from)),
        ("Narrow", [from]) => Ok(CoreExpr::Narrow(*from)),
        ("Choose", [test, first, second]) => Ok(CoreExpr::Choose(*test, *first, *second)),
        (_, [left, right]) => Ok(CoreExpr::Op(opcode(word)?, *left, *right)),
        _ => bail!("no expression"),
    }
}

fn opcode(word: &str) -> Result<CoreOp> {
    match word {
        "Add" => Ok(CoreOp::Add),
        "Sub" => Ok(CoreOp::Sub),
        "Mul" => Ok(CoreOp::Mul),
        "Sdiv" => Ok(CoreOp::Sdiv),
        "Srem" => Ok(CoreOp::Srem),
        "Udiv" => Ok(CoreOp::Udiv),
        "Urem" => Ok(CoreOp::Urem),
        "Shl" => Ok(CoreOp::Shl),
        "Lshr" => Ok(CoreOp::Lshr),
        "Ashr" => Ok(CoreOp::Ashr),
        "And" => Ok(CoreOp::And),
        "Or" => Ok(CoreOp::Or),
        "Xor" => Ok(CoreOp::Xor),
        "Eq" => Ok(CoreOp::Eq),
        "Ne" => Ok(CoreOp::Ne),
        "Slt" => Ok(CoreOp::Slt),
        "Sle" => Ok(CoreOp::Sle),
        "Sgt" => Ok(CoreOp::Sgt),
        "Sge" => Ok(CoreOp::Sge),
        "Ult" => Ok(CoreOp::Ult),
        "Ule" => Ok(CoreOp::Ule),
        "Ugt" => Ok(CoreOp::Ugt),
        "Uge" => Ok(CoreOp::Uge),
        _ => bail!("no instruction"),
    }
}

fn outputs(alloc: Global, text: &str) -> Result<Vec<Output>> {
    let mut all = Vec::new(alloc);
    if text.is_empty() {
        return Ok(all);
    }
    for part in text.split(", ") {
        all.push(output(alloc, part)?)?;
    }
    Ok(all)
}

fn output(alloc: Global, text: &str) -> Result<Output> {
    let (word, rest) = text.split_once(" ").context("an output of one word")?;
    let named = numbers(alloc, rest)?;
    match (word, named.as_slice()) {
        ("array", [label, size]) => Ok(Output::Array {
            label: *label,
            size: *size,
        }),
        ("truth", [label, cell]) => Ok(Output::Truth {
            label: *label,
            cell: *cell,
        }),
        ("number", [label, cell]) => Ok(Output::Number {
            label: *label,
            cell: *cell,
        }),
        _ => bail!("no output"),
    }
}

fn labels(alloc: Global, text: &str) -> Result<Vec<Label>> {
    let mut all = Vec::new(alloc);
    for word in text.split_whitespace() {
        let mut items = Vec::from_slice(alloc, word.as_bytes())?;
        items.push(0)?;
        all.push(Label { items })?;
    }
    Ok(all)
}
