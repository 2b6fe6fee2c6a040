//! How answers are shown.

use anyhow::{Context, Result, bail};
use gate_flatten::{Expansion, GateArg, LeafCall, TurnExpr};
use gate_table::target;
use qq_base::{Fault, GateId};
use std::alloc::Global;

/// The cost, and the instructions, where run-time arguments have this number of units.
pub fn shown_expansion(alloc: Global, expansion: &Expansion, given: i64) -> Result<String> {
    let values = turn_values(alloc, &expansion.turns, given)?;
    let mut text = format!(in alloc; "{}:", expansion.cost)?;
    let mut is_first = true;
    for call in &expansion.calls {
        text.push_str(if is_first { " " } else { "; " })?;
        show_call(call, &values, &mut text)?;
        is_first = false;
    }
    Ok(text)
}

/// The values of turns, each of which names only earlier ones.
fn turn_values(alloc: Global, turns: &[TurnExpr], given: i64) -> Result<Vec<i64>> {
    let mut values = Vec::new(alloc);
    for turn in turns {
        let value = turn_value(*turn, &values, given)?;
        values.push(value)?;
    }
    Ok(values)
}

/// The value of a turn, by those of the earlier ones.
fn turn_value(turn: TurnExpr, values: &[i64], given: i64) -> Result<i64> {
    Ok(match turn {
        TurnExpr::Outer(_) => given,
        TurnExpr::Fixed(units) => units,
        TurnExpr::Neg(a) => at(values, a)?.wrapping_neg(),
        TurnExpr::Add(a, b) => at(values, a)?.wrapping_add(at(values, b)?),
        TurnExpr::Sub(a, b) => at(values, a)?.wrapping_sub(at(values, b)?),
        TurnExpr::Mul(a, k) => at(values, a)?.wrapping_mul(k),
        TurnExpr::Div(a, k) => at(values, a)?.checked_div(k).context("no divisor")?,
    })
}

/// The value of the turn with a number.
fn at(values: &[i64], number: u32) -> Result<i64> {
    match values.get(number as usize) {
        Some(value) => Ok(*value),
        None => bail!("a turn that names a later one"),
    }
}

/// An instruction: its name, its arguments and its qubits.
fn show_call(call: &LeafCall, values: &[i64], text: &mut String) -> Result<()> {
    text.push_str(name_of(call.gate)?)?;
    let mut is_first = true;
    for argument in &call.args {
        let units = match *argument {
            GateArg::Unused => continue,
            GateArg::Units(units) => units,
            GateArg::Running(turn) => at(values, turn)?,
        };
        text.push(if is_first { '(' } else { ',' })?;
        write!(text, "{units}")?;
        is_first = false;
    }
    if !is_first {
        text.push(')')?;
    }
    let count = qubit_count(call.gate)?;
    for qubit in call.qubits.iter().take(count) {
        write!(text, " {}", qubit.0)?;
    }
    Ok(())
}

/// The name of a gate of the target table.
fn name_of(gate: GateId) -> Result<&'static str> {
    if gate.0 >= 31 {
        bail!("no gate of the target table");
    }
    Ok(target().name(gate))
}

/// How many qubits a gate of the target table has.
fn qubit_count(gate: GateId) -> Result<usize> {
    if gate.0 >= 31 {
        bail!("no gate of the target table");
    }
    Ok(target().row(gate).qubits as usize)
}

/// A refusal, with its place.
pub fn refusal(alloc: Global, fault: Fault) -> Result<String> {
    match fault {
        Fault::Refused(refusal) => {
            let number = refusal.rule.number();
            let name = refusal.rule.name();
            let line = refusal.at.line;
            let column = refusal.at.column;
            Ok(format!(in alloc; "Q{number} {name} at {line}:{column}")?)
        }
        Fault::Memory => bail!("no memory"),
    }
}
