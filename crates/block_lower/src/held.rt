//! What the types of a core's fields bound.

ghost use Rattle.std.specs.Prelude.{All};
ghost use Rattle.expr_lower.specs.Lowered.{IsHeldExpr};
ghost use Rattle.block_graph.specs.Bounds.{IsHeld, IsHeldStmt, IsHeldLeaf, IsHeldArg, IsHeldOutput, AreBytes};

use core_ir::{Core, CoreExpr, CoreStmt, GateArg, LeafCall, Output};
use qq_base::Label;

/// The numbers of a core are those of its types.
pub fn held(core: &Core)
    ensures { IsHeld core.now }
{
    exprs_held(&core.exprs);
    stmts_held(&core.stmts);
    outputs_held(&core.outputs);
    labels_held(&core.labels);
}

fn exprs_held(exprs: &[CoreExpr])
    ensures { All IsHeldExpr exprs.now }
{
    for expr in exprs {
        expr_held(*expr);
    }
}

fn expr_held(expr: CoreExpr)
    ensures { IsHeldExpr expr }
{
    match expr {
        CoreExpr::Number(_) => {}
        _ => {}
    }
}

fn stmts_held(stmts: &[CoreStmt])
    ensures { All IsHeldStmt stmts.now }
{
    for stmt in stmts {
        stmt_held(stmt);
    }
}

fn stmt_held(stmt: &CoreStmt)
    ensures { IsHeldStmt stmt.now }
{
    match stmt {
        CoreStmt::Gate(leaf) => leaf_held(*leaf),
        _ => {}
    }
}

fn leaf_held(leaf: LeafCall)
    ensures { IsHeldLeaf leaf }
{
    args_held(&leaf.args);
}

fn args_held(args: &[GateArg])
    ensures { All IsHeldArg args.now }
{
    for arg in args {
        arg_held(*arg);
    }
}

fn arg_held(arg: GateArg)
    ensures { IsHeldArg arg }
{
    match arg {
        GateArg::Units(_) => {}
        _ => {}
    }
}

fn outputs_held(outputs: &[Output])
    ensures { All IsHeldOutput outputs.now }
{
    for output in outputs {
        output_held(*output);
    }
}

fn output_held(output: Output)
    ensures { IsHeldOutput output }
{
    match output {
        Output::Array { .. } => {}
        _ => {}
    }
}

fn labels_held(labels: &[Label])
    ensures { All AreBytes labels.now }
{
    for label in labels {
        label_held(label);
    }
}

fn label_held(label: &Label)
    ensures { AreBytes label.now }
{
    for byte in &label.items {
        let _byte = *byte;
    }
}
