//! Whether a core is well formed.

ghost use Rattle.std.specs.Prelude.{◌≡◌, ◌<◌, ◌↔◌, All, IsTrue, length, slice_get, Some};
ghost use Rattle.core_ir.specs.WellFormed.{kind_at, ExprsFit, StmtFits, PairFits, ArgFits, ArgsFit, QubitsFit, LeafFits, OutputFits, IsLabelText, StandOnce, BodiesStand, HasLevels};
ghost use Rattle.core_ir.specs.Levels.{LevelsFit};
ghost use Rattle.core_ir.specs.Tree.{program_of};

use crate::around::all_levels_fit;
use crate::body::{bodies_fit, levels_fit};
use crate::expression::CellKind;
use crate::kind::{expr_fits, kind};
use crate::program::{Core, Output};
use crate::standing::stand_once;
use crate::statement::{CoreStmt, GateArg, LeafCall};
use gate_table::target;
use qq_base::{Label, QubitId};

pub fn exprs_fit(core: &Core) -> bool
    ensures { IsTrue result ↔ ExprsFit core.now.cells core.now.exprs (length core.now.exprs) }
{
    for k in 0..core.exprs.len() {
        if !expr_fits(&core.cells, &core.exprs, k) {
            return false;
        }
    }
    true
}

#[tactic(auto, using(crate::proofs::Exprs::kind_past))]
fn expr_kind(core: &Core, e: u32) -> Option<CellKind>
    requires { ExprsFit core.now.cells core.now.exprs (length core.now.exprs) }
    ensures { result ≡ kind_at core.now e }
{
    if (e as usize) < core.exprs.len() {
        kind(&core.cells, &core.exprs, e)
    } else {
        None
    }
}

fn label_fits(label: &Label) -> bool
    ensures { IsTrue result ↔ IsLabelText label.now }
{
    label.items.len() <= u32::MAX as usize && label.items.last().copied() == Some(0)
}

pub fn labels_fit(core: &Core) -> bool
    ensures { IsTrue result ↔ All IsLabelText core.now.labels }
{
    core.labels.iter().all(|label| label_fits(label))
}

fn has_kind(core: &Core, c: u32, kind: CellKind) -> bool
    ensures { IsTrue result ↔ (slice_get core.now.cells c ≡ Some kind) }
{
    core.cells.get(c as usize).copied() == Some(kind)
}

fn output_fits(core: &Core, output: Output) -> bool
    ensures { IsTrue result ↔ OutputFits core.now output }
{
    let labels = core.labels.len();
    match output {
        Output::Array { label, .. } => (label as usize) < labels,
        Output::Truth { label, cell } => {
            (label as usize) < labels && has_kind(core, cell, CellKind::Truth)
        }
        Output::Number { label, cell } => {
            (label as usize) < labels && has_kind(core, cell, CellKind::Number)
        }
    }
}

pub fn outputs_fit(core: &Core) -> bool
    ensures { IsTrue result ↔ All (OutputFits core.now) core.now.outputs }
{
    core.outputs.iter().all(|output| output_fits(core, *output))
}

fn pair_fits(core: &Core, pair: (u32, u32)) -> bool
    requires { ExprsFit core.now.cells core.now.exprs (length core.now.exprs) }
    ensures { IsTrue result ↔ PairFits core.now pair }
{
    match (
        core.cells.get(pair.0 as usize).copied(),
        expr_kind(core, pair.1),
    ) {
        (Some(cell), Some(value)) => cell == value,
        _ => false,
    }
}

fn pairs_fit(core: &Core, pairs: &[(u32, u32)]) -> bool
    requires { ExprsFit core.now.cells core.now.exprs (length core.now.exprs) }
    ensures { IsTrue result ↔ All (PairFits core.now) pairs.now }
{
    pairs.iter().all(|pair| pair_fits(core, *pair))
}

fn arg_fits(core: &Core, arg: GateArg) -> bool
    requires { ExprsFit core.now.cells core.now.exprs (length core.now.exprs) }
    ensures { IsTrue result ↔ ArgFits core.now arg }
{
    match arg {
        GateArg::Unused => false,
        GateArg::Units(_) => true,
        GateArg::Running(e) => expr_kind(core, e) == Some(CellKind::Number),
    }
}

fn args_fit(core: &Core, params: u8, args: &[GateArg]) -> bool
    requires { ExprsFit core.now.cells core.now.exprs (length core.now.exprs) }
    ensures { IsTrue result ↔ ArgsFit core.now params args.now }
{
    match args {
        [] => true,
        [first, rest @ ..] if params == 0 => {
            matches!(first, GateArg::Unused) && args_fit(core, 0, rest)
        }
        [first, rest @ ..] => arg_fits(core, *first) && args_fit(core, params - 1, rest),
    }
}

fn qubits_fit(count: u32, takes: u8, qubits: &[QubitId]) -> bool
    ensures { IsTrue result ↔ QubitsFit count takes qubits.now }
{
    match qubits {
        [] => true,
        [first, rest @ ..] if takes == 0 => first.0 == 0 && qubits_fit(count, 0, rest),
        [first, rest @ ..] => first.0 < count && qubits_fit(count, takes - 1, rest),
    }
}

fn leaf_fits(core: &Core, leaf: &LeafCall) -> bool
    requires { ExprsFit core.now.cells core.now.exprs (length core.now.exprs) }
    ensures { IsTrue result ↔ LeafFits core.now leaf.now }
{
    if leaf.gate.0 >= 30 {
        return false;
    }
    let row = target().row(leaf.gate);
    args_fit(core, row.params, &leaf.args) && qubits_fit(core.qubits, row.qubits, &leaf.qubits)
}

fn stmt_fits(core: &Core, stmt: &CoreStmt) -> bool
    requires { ExprsFit core.now.cells core.now.exprs (length core.now.exprs) }
    ensures { IsTrue result ↔ StmtFits core.now stmt.now }
{
    match stmt {
        CoreStmt::Assign(pairs) => pairs_fit(core, &pairs.items),
        CoreStmt::Gate(leaf) => leaf_fits(core, leaf),
        CoreStmt::Reset(qubit) => qubit.0 < core.qubits,
        CoreStmt::Measure { qubit, into: None } => qubit.0 < core.qubits,
        CoreStmt::Measure {
            qubit,
            into: Some(cell),
        } => qubit.0 < core.qubits && has_kind(core, *cell, CellKind::Truth),
        CoreStmt::If(test, _, _) => expr_kind(core, *test) == Some(CellKind::Truth),
        _ => true,
    }
}

pub fn stmts_fit(core: &Core) -> bool
    requires { ExprsFit core.now.cells core.now.exprs (length core.now.exprs) }
    ensures { IsTrue result ↔ All (StmtFits core.now) core.now.stmts }
{
    core.stmts.iter().all(|stmt| stmt_fits(core, stmt))
}

/// Whether bodies name statements that are there and stand later, and each stands in one body, at one place.
pub fn bodies_stand(core: &Core) -> bool
    ensures { IsTrue result ↔ BodiesStand core.now.body core.now.stmts }
{
    all_named(&core.body, core.stmts.len()) && bodies_fit(&core.stmts) && each_stands_once(core)
}

fn all_named(body: &[u32], count: usize) -> bool
    ensures { IsTrue result ↔ All (λ k. k < count) body.now }
{
    body.iter().all(|k| (*k as usize) < count)
}

/// How many statements are counted at once.
const COUNTED: usize = 65_536;

fn each_stands_once(core: &Core) -> bool
    ensures { IsTrue result ↔ StandOnce core.now.body core.now.stmts }
{
    let mut seen = [0; COUNTED];
    stand_once(&core.body, &core.stmts, &mut seen)
}

/// Whether the levels that are left and gone back to are there.
pub fn levels_stand(core: &Core) -> bool
    requires { BodiesStand core.now.body core.now.stmts }
    ensures { IsTrue result ↔ HasLevels (program_of core.now) 0 0 }
{
    all_levels(&core.stmts)
}

/// For more statements the levels are looked for at each jump.
const LEVELED: usize = 65_536;

fn all_levels(stmts: &[CoreStmt]) -> bool
    ensures { IsTrue result ↔ LevelsFit stmts.now }
{
    let count = stmts.len();
    if count > LEVELED {
        return levels_fit(stmts);
    }
    let mut ends = [0; LEVELED];
    let mut starts = [0; LEVELED];
    all_levels_fit(stmts, &mut ends[..count], &mut starts[..count])
}
