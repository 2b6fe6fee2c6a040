//! The calls of a module.

ghost use Rattle.std.specs.Prelude.{◌≡◌, ◌++◌, ◌<◌, map, take, IfOk, OnOk};
ghost use Rattle.std.specs.List.{flat_map};
ghost use Rattle.qq_base.specs.declared.run.QubitId.{QubitId as AQubit};
ghost use Rattle.gate_table.specs.Table.{row_of};
ghost use Rattle.core_ir.specs.Size.{leaf_exprs, pair_exprs, running_in};
ghost use Rattle.block_lower.specs.Kept.{pair_cells};
ghost use Rattle.block_graph.specs.Lowering.{unit_args, qubit_args, gate_call, reset_call, measure_call, read_call, initialize_call, record_call};

use core_ir::{GateArg, LeafCall, Output};
use gate_table::target;
use phi_place::Operands;
use qir_module::{Arg, Function, Instr, Operand, Sequence};
use qq_base::{NoMemory, QubitId};
use std::alloc::Global;

/// The run-time system is initialized.
pub fn initialize_call(alloc: Global) -> Result<Instr, NoMemory>
    ensures { IfOk result (λ i. i ≡ initialize_call) }
{
    let items = vec![in alloc; Arg::Id(0)]?;
    Ok(Instr::Call {
        register: None,
        function: Function::INITIALIZE,
        args: Sequence { items },
    })
}

/// The outcome of a result is read.
pub fn read_call(alloc: Global, register: u32, result_id: u32) -> Result<Instr, NoMemory>
    ensures { IfOk result (λ i. i ≡ read_call register result_id) }
{
    let items = vec![in alloc; Arg::Id(result_id)]?;
    Ok(Instr::Call {
        register: Some(register),
        function: Function::READ_RESULT,
        args: Sequence { items },
    })
}

/// A qubit is set to its ground state.
pub fn reset_call(alloc: Global, qubit: QubitId) -> Result<Instr, NoMemory>
    ensures { IfOk result (λ i. i ≡ reset_call qubit) }
{
    let items = vec![in alloc; Arg::Id(qubit.0)]?;
    Ok(Instr::Call {
        register: None,
        function: Function::RESET,
        args: Sequence { items },
    })
}

/// A qubit is measured into a result.
pub fn measure_call(alloc: Global, qubit: QubitId, result_id: u32) -> Result<Instr, NoMemory>
    ensures { IfOk result (λ i. i ≡ measure_call qubit result_id) }
{
    let items = vec![in alloc; Arg::Id(qubit.0), Arg::Id(result_id)]?;
    Ok(Instr::Call {
        register: None,
        function: Function::MZ,
        args: Sequence { items },
    })
}

/// A gate is applied, with these operands for its running arguments.
pub fn gate_call(alloc: Global, leaf: &LeafCall, operands: &[Operand]) -> Result<Instr, NoMemory>
    requires { leaf.now.gate.0 < 30 }
    ensures { IfOk result (λ i. i ≡ gate_call leaf.now operands.now) }
{
    let mut items = Vec::new(alloc);
    add_units(&leaf.args, operands, &mut items)?;
    add_qubits(leaf, &mut items)?;
    Ok(Instr::Call {
        register: None,
        function: Function::of_gate(leaf.gate),
        args: Sequence { items },
    })
}

/// Adds the numbers of units.
fn add_units(args: &[GateArg], operands: &[Operand], items: &mut Vec<Arg>) -> Result<(), NoMemory>
    ensures { OnOk result (items.new.items ≡ items.old.items ++ unit_args args.now operands.now) }
{
    match (args, operands) {
        ([GateArg::Unused, rest @ ..], _) => add_units(rest, operands, items),
        ([GateArg::Units(z), rest @ ..], _) => {
            items.push(Arg::Number(Operand::Fixed(*z)))?;
            add_units(rest, operands, items)
        }
        ([GateArg::Running(_), rest @ ..], [operand, more @ ..]) => {
            items.push(Arg::Number(*operand))?;
            add_units(rest, more, items)
        }
        ([GateArg::Running(_), ..], []) | ([], _) => Ok(()),
    }
}

fn add_qubits(leaf: &LeafCall, items: &mut Vec<Arg>) -> Result<(), NoMemory>
    requires { leaf.now.gate.0 < 30 }
    ensures { OnOk result (items.new.items ≡ items.old.items ++ qubit_args (row_of leaf.now.gate.0) leaf.now.qubits) }
{
    let row = target().row(leaf.gate);
    add_ids(row.qubits, &leaf.qubits, items)
}

/// Adds the first of these qubits.
fn add_ids(count: u8, qubits: &[QubitId], items: &mut Vec<Arg>) -> Result<(), NoMemory>
    ensures { OnOk result (items.new.items ≡ items.old.items ++ map (λ (q : AQubit). Arg.Id q.0) (take count qubits.now)) }
{
    match qubits {
        [qubit, rest @ ..] if count > 0 => {
            items.push(Arg::Id(qubit.0))?;
            add_ids(count - 1, rest, items)
        }
        _ => Ok(()),
    }
}

/// A cell's value, or the head of an array, is recorded.
pub fn record_call(alloc: Global, values: &Operands, output: Output) -> Result<Instr, NoMemory>
    ensures { IfOk result (λ i. i ≡ record_call values.now output) }
{
    let (function, value, label) = match output {
        Output::Array { label, size } => (
            Function::ARRAY_RECORD_OUTPUT,
            Arg::Number(Operand::Fixed(i64::from(size))),
            label,
        ),
        Output::Truth { label, cell } => (
            Function::BOOL_RECORD_OUTPUT,
            Arg::Truth(values.get(cell as usize)),
            label,
        ),
        Output::Number { label, cell } => (
            Function::INT_RECORD_OUTPUT,
            Arg::Number(values.get(cell as usize)),
            label,
        ),
    };
    let items = vec![in alloc; value, Arg::Text(label)]?;
    Ok(Instr::Call {
        register: None,
        function,
        args: Sequence { items },
    })
}

/// The expressions of the pairs.
pub fn pair_exprs(alloc: Global, pairs: &[(u32, u32)]) -> Result<Vec<u32>, NoMemory>
    ensures { IfOk result (λ exprs. exprs.items ≡ pair_exprs pairs.now) }
{
    let mut exprs = Vec::new(alloc);
    for pair in pairs {
        exprs.push(pair.1)?;
    }
    Ok(exprs)
}

/// The cells of the pairs.
pub fn pair_cells(alloc: Global, pairs: &[(u32, u32)]) -> Result<Vec<u32>, NoMemory>
    ensures { IfOk result (λ cells. cells.items ≡ pair_cells pairs.now) }
{
    let mut cells = Vec::new(alloc);
    for pair in pairs {
        cells.push(pair.0)?;
    }
    Ok(cells)
}

/// The expressions of a gate's arguments.
pub fn leaf_exprs(alloc: Global, leaf: &LeafCall) -> Result<Vec<u32>, NoMemory>
    ensures { IfOk result (λ exprs. exprs.items ≡ leaf_exprs leaf.now) }
{
    running_exprs(alloc, &leaf.args)
}

fn running_exprs(alloc: Global, args: &[GateArg]) -> Result<Vec<u32>, NoMemory>
    ensures { IfOk result (λ exprs. exprs.items ≡ flat_map running_in args.now) }
{
    let mut exprs = Vec::new(alloc);
    for arg in args {
        if let GateArg::Running(e) = arg {
            exprs.push(*e)?;
        }
    }
    Ok(exprs)
}
