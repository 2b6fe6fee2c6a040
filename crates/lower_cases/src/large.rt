//! Cores at the limits, which `bench/lower.sh` times.

ghost use Rattle.std.specs.Prelude.{◌≤◌};

use anyhow::{Result, bail};
use core_ir::{Body, CellKind, Core, CoreExpr, CoreOp, CoreStmt, GateArg, LeafCall, Output, Pairs};
use qq_base::{GateId, Label, QubitId};
use std::alloc::Global;

/// The core of a word, with so many of what the word names, up to 1,000,000.
///
/// - `weight`: gates in one block, with three arguments that are computed for each, which makes four items a gate.
/// - `joints`: choices in one body, of which each gives one of 480 cells a value, of 200,000 cells in all.
/// - `calls`: gates in one block.
/// - `blocks`: blocks within one another.
/// - `loops`: loops within one another, each with a way back to its start. In each a cell counts.
pub fn large_core(alloc: Global, word: &str, count: u32) -> Result<Core> {
    if count > 1_000_000 {
        bail!("more than 1,000,000");
    }
    match word {
        "weight" => weight(alloc, count),
        "calls" => calls(alloc, count),
        "joints" => joints(alloc, count),
        "blocks" => blocks(alloc, count),
        "loops" => loops(alloc, count),
        _ => bail!("no such core"),
    }
}

/// A core with one label, which records cell 1.
fn small(alloc: Global) -> Result<Core> {
    Ok(Core {
        cells: vec![in alloc; CellKind::Truth, CellKind::Number]?,
        exprs: vec![in alloc;
            CoreExpr::Cell(0),
            CoreExpr::Cell(1),
            CoreExpr::Number(1),
            CoreExpr::Op(CoreOp::Add, 1, 2),
        ]?,
        stmts: Vec::new(alloc),
        body: Vec::new(alloc),
        outputs: vec![in alloc; Output::Number { label: 0, cell: 1 }]?,
        labels: vec![in alloc;
            Label {
                items: vec![in alloc; 99, 0]?
            },
        ]?,
        qubits: 1,
    })
}

fn body(alloc: Global, items: &[u32]) -> Result<Body> {
    Ok(Body {
        items: Vec::from_slice(alloc, items)?,
    })
}

fn set(alloc: Global, cell: u32, expr: u32) -> Result<CoreStmt> {
    Ok(CoreStmt::Assign(Pairs {
        items: vec![in alloc; (cell, expr)]?,
    }))
}

fn measure() -> CoreStmt {
    CoreStmt::Measure {
        qubit: QubitId(0),
        into: Some(0),
    }
}

fn gate(gate: u8, args: [GateArg; 4]) -> CoreStmt {
    CoreStmt::Gate(LeafCall {
        gate: GateId(gate),
        args,
        qubits: [QubitId(0); 3],
    })
}

fn weight(alloc: Global, count: u32) -> Result<Core>
    requires { count ≤ 1000000 }
{
    let mut core = small(alloc)?;
    core.exprs.push(CoreExpr::Op(CoreOp::Sub, 1, 2))?;
    core.exprs.push(CoreExpr::Op(CoreOp::Mul, 1, 2))?;
    let mut args = [GateArg::Unused; 4];
    args[0] = GateArg::Running(3);
    args[1] = GateArg::Running(4);
    args[2] = GateArg::Running(5);
    for k in 0..count {
        core.stmts.push(gate(27, args))?;
        core.body.push(k)?;
    }
    Ok(core)
}

fn calls(alloc: Global, count: u32) -> Result<Core>
    requires { count ≤ 1000000 }
{
    let mut core = small(alloc)?;
    for k in 0..count {
        core.stmts.push(gate(0, [GateArg::Unused; 4]))?;
        core.body.push(k)?;
    }
    Ok(core)
}

fn joints(alloc: Global, count: u32) -> Result<Core>
    requires { count ≤ 1000000 }
{
    let mut core = small(alloc)?;
    for _ in 2..200_000 {
        core.cells.push(CellKind::Number)?;
    }
    core.stmts.push(measure())?;
    core.body.push(0)?;
    for k in 0..count {
        let place = 1 + 2 * k;
        core.stmts.push(CoreStmt::If(0, body(alloc, &[place + 1])?, body(alloc, &[])?))?;
        core.stmts.push(set(alloc, 1 + k % 480, 3)?)?;
        core.body.push(place)?;
    }
    Ok(core)
}

fn blocks(alloc: Global, count: u32) -> Result<Core>
    requires { count ≤ 1000000 }
{
    let mut core = small(alloc)?;
    core.body.push(0)?;
    for k in 1..=count {
        core.stmts.push(CoreStmt::Block(body(alloc, &[k])?))?;
    }
    core.stmts.push(set(alloc, 1, 2)?)?;
    Ok(core)
}

/// Each loop is five statements: itself, the assignment of its counter, a measurement, a choice and the way back.
fn loops(alloc: Global, count: u32) -> Result<Core>
    requires { count ≤ 1000000 }
{
    let mut core = small(alloc)?;
    core.body.push(0)?;
    for k in 0..count {
        let place = 5 * k;
        let inner = if k + 1 < count {
            body(alloc, &[place + 1, place + 5, place + 2, place + 3])?
        } else {
            body(alloc, &[place + 1, place + 2, place + 3])?
        };
        core.stmts.push(CoreStmt::Loop(inner))?;
        core.stmts.push(set(alloc, 1, 3)?)?;
        core.stmts.push(measure())?;
        core.stmts.push(CoreStmt::If(0, body(alloc, &[place + 4])?, body(alloc, &[])?))?;
        core.stmts.push(CoreStmt::Again(0))?;
    }
    Ok(core)
}
