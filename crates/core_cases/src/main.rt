// Works single calls of the layers between a core and its blocks: the table of the cases of `lower_expr`, `assigned`,
// `join_phis`, `header_phis` and `start_phis`. It is no part of the product.
//
// Standard input is cases, one a line: a word, and fields with ` | ` between two. Each case is shown with its answer. Cells,
// expressions and statements are in the notation of `core_text`. An operand is `%` and the number of a register, or a fixed
// value.
//
// - `lower`: cells, each with its operand behind a colon; expressions; the expressions that are wanted; the next register.
//   The answer is the instructions, of which those on truth values have a mark `t`, then behind `->` the operands and the
//   next register.
// - `assigned`: how many cells; statements; those that the program is; those that are asked about. The answer is the cells.
//   There is one expression, a truth value, and one qubit.
// - `join`: cells; the ways with `, ` between two, each a block and its operands; the block and the next register. The
//   answer is the phis, then behind `->` the block, its operands and the next register.
// - `open`: the same with one way, and with a field for the listed cells behind it.
// - `start`: the same with all ways to a loop's start, without the block; the answer is the phis.
//
// It stands on `expr_lower` and `phi_place`, and on `core_text` for the notation.
#![tactic(auto)]

mod meets;
mod read;
mod show;

use anyhow::{Context, Result, bail};
use core_ir::{CellKind, Core, CoreExpr};
use core_text::{exprs, kinds, number, numbers, statements};
use expr_lower::laws::few_are_reached;
use expr_lower::lower_expr;
use meets::{are_within, ascend, can_join, has_room};
use phi_place::{assigned, header_phis, join_phis, start_phis};
use read::{placed_cells, way, ways};
use show::{shown_code, shown_numbers, shown_operands, shown_phis, shown_state};
use std::alloc::Global;
use std::io;

fn main(rt: HostRuntime) -> Result<()> {
    let alloc = rt.alloc();
    let input = io::read_to_string(alloc, rt.stdin())?;
    for case in input.lines() {
        let answer = answer(alloc, case)?;
        rt.println(format_args!("{case}: {answer}"))?;
    }
    Ok(())
}

/// The answer of a case.
fn answer(alloc: Global, case: &str) -> Result<String> {
    let (word, rest) = case.split_once(" ").context("a case of one word")?;
    let mut fields = Vec::new(alloc);
    for field in rest.split(" | ") {
        fields.push(field)?;
    }
    match (word, fields.as_slice()) {
        ("lower", [cells, nodes, wanted, next]) => lower(alloc, cells, nodes, wanted, next),
        ("assigned", [count, stmts, body, asked]) => cells_of(alloc, count, stmts, body, asked),
        ("join", [cells, all, block, next]) => join(alloc, cells, all, block, next),
        ("open", [cells, entry, listed, block, next]) => {
            open_loop(alloc, cells, entry, listed, block, next)
        }
        ("start", [cells, all, listed, next]) => start(alloc, cells, all, listed, next),
        _ => bail!("no case"),
    }
}

/// The code of expressions.
fn lower(alloc: Global, cells: &str, nodes: &str, wanted: &str, next: &str) -> Result<String> {
    let (kinds, operands) = placed_cells(alloc, cells)?;
    let core = Core {
        cells: kinds,
        exprs: exprs(alloc, nodes)?,
        stmts: Vec::new(alloc),
        body: Vec::new(alloc),
        outputs: Vec::new(alloc),
        labels: Vec::new(alloc),
        qubits: 0,
    };
    let wanted = numbers(alloc, wanted)?;
    let mut next = number(next)?;
    if !core.well_formed()
        || !are_within(&wanted, core.exprs.len())
        || !has_room(next, core.exprs.len())
    {
        bail!("a case that is not allowed");
    }
    few_are_reached();
    let mut body = Vec::new(alloc);
    match lower_expr(alloc, &core, &wanted, &operands, &mut next, &mut body) {
        Ok(operands) => {
            let code = shown_code(alloc, &body)?;
            let operands = shown_operands(alloc, &operands)?;
            Ok(format!(in alloc; "{code} ->{operands}, next {next}")?)
        }
        Err(_) => bail!("no memory"),
    }
}

/// The cells that statements assign, in a program over truth values.
fn cells_of(alloc: Global, count: &str, stmts: &str, body: &str, asked: &str) -> Result<String> {
    let mut cells = Vec::new(alloc);
    for _ in 0..number(count)? {
        cells.push(CellKind::Truth)?;
    }
    let core = Core {
        cells,
        exprs: vec![in alloc; CoreExpr::Truth(true)]?,
        stmts: statements(alloc, stmts)?,
        body: numbers(alloc, body)?,
        outputs: Vec::new(alloc),
        labels: Vec::new(alloc),
        qubits: 1,
    };
    let asked = numbers(alloc, asked)?;
    if !core.well_formed() || !are_within(&asked, core.stmts.len()) {
        bail!("a case that is not allowed");
    }
    match assigned(alloc, &core, &asked) {
        Ok(cells) => shown_numbers(alloc, &cells),
        Err(_) => bail!("no memory"),
    }
}

/// The phis of a join.
fn join(alloc: Global, cells: &str, all: &str, block: &str, next: &str) -> Result<String> {
    let kinds = kinds(alloc, cells)?;
    let all = ways(alloc, all)?;
    let block = number(block)?;
    let mut next = number(next)?;
    if !can_join(next, &all) || !has_room(next, kinds.len()) {
        bail!("a case that is not allowed");
    }
    match join_phis(alloc, &all, &kinds, block, &mut next) {
        Ok((phis, state)) => shown_state(alloc, &phis, &state, next),
        Err(_) => bail!("no memory"),
    }
}

/// The phis at the start of a loop.
fn open_loop(
    alloc: Global,
    cells: &str,
    entry: &str,
    listed: &str,
    block: &str,
    next: &str,
) -> Result<String> {
    let kinds = kinds(alloc, cells)?;
    let entry = way(alloc, entry)?;
    let listed = numbers(alloc, listed)?;
    let block = number(block)?;
    let mut next = number(next)?;
    if !ascend(&listed) || !has_room(next, kinds.len()) || !has_room(next, entry.values.len()) {
        bail!("a case that is not allowed");
    }
    match header_phis(alloc, &entry, &listed, &kinds, block, &mut next) {
        Ok((phis, state)) => shown_state(alloc, &phis, &state, next),
        Err(_) => bail!("no memory"),
    }
}

/// The phis of a loop's start with all its ways.
fn start(alloc: Global, cells: &str, all: &str, listed: &str, next: &str) -> Result<String> {
    let kinds = kinds(alloc, cells)?;
    let all = ways(alloc, all)?;
    let listed = numbers(alloc, listed)?;
    let next = number(next)?;
    if !ascend(&listed) || !has_room(next, kinds.len()) {
        bail!("a case that is not allowed");
    }
    match start_phis(alloc, &all, &listed, &kinds, next) {
        Ok(phis) => shown_phis(alloc, &phis),
        Err(_) => bail!("no memory"),
    }
}
