//! Arguments in the body of a gate: constants, and turns that are computed from run-time parameters.
ghost use Rattle.std.specs.Prelude.{◌≡◌, ◌≢◌, ◌<◌, [], ℕ, ℤ, pos, true, false, All, length, not, IfOk, OnOk, IsSome, Some, Ok, nat_eq};
ghost use Rattle.std.specs.Map.{lookup};
ghost use Rattle.qasm_ast.specs.Tree.{named, word};
ghost use Rattle.qasm_ast.specs.View.{brackets_in, called_in, maybe_in, text_in, tree_in, trees_in};
ghost use Rattle.qasm_ast.specs.Whole.{AllOf, IndexFits, IsExpr, OperandFits, TypeFits};
ghost use Rattle.const_eval.specs.Answers.{Answers, Fails};
ghost use Rattle.const_eval.specs.ConstCast.{greatest_width, sized_type};
ghost use Rattle.const_eval.specs.Refusing.{go_on};
ghost use Rattle.const_eval.specs.ConstantWalk.{constant_walk, indexes_walk};
ghost use Rattle.const_eval.specs.IsConstant.{are_constant_brackets, is_constant};
ghost use Rattle.const_eval.specs.Meaning.{Running, meaning_in};
ghost use Rattle.const_eval.specs.Seen.{HasNames, constant_of};
ghost use Rattle.gate_lists.specs.Growing.{AreWorths, Grows};
ghost use Rattle.gate_lists.specs.Paid.{AnswersWithin, paid_from};
ghost use Rattle.gate_arguments.specs.Arguments.{argument_walk, arguments_walk, operand_of};
ghost use Rattle.gate_arguments.specs.Kept.{KeepsTurns};
ghost use Rattle.gate_arguments.specs.Scope.{turn_of};
ghost use Rattle.gate_arguments.specs.Seen.{ArgumentFits, TurnsFit, argument_seen, arguments_seen, is_turn_argument, scope_names, scope_seen, turn_in, width_walk};

use crate::constants::{constant_at, indexes_at};
use crate::nodes::pay;
use crate::scope::{Argument, Scope};
use crate::turn::{Operator, TURN_COST, binary_row, made_turn, unary_row};
use const_eval::{Const, Constants, GateEnv, Lookup, is_constant};
use gate_lists::{Budget, Work, push, refused};
use qasm_ast::{
    Base, BinaryOp, ExprId, ExprKind, IndexRef, Items, OperandName, OperandRef, Program, TypeRef,
};
use qq_base::{Fault, Rule, Span};
use std::alloc::Global;

/// The arguments of a call in the body of a gate, in order.
pub fn arguments_at<E: GateEnv>(
    alloc: Global,
    program: &Program,
    ids: &Items<ExprId>,
    scope: &Scope<'_, E>,
    work: &mut Work,
) -> Result<Vec<Argument>, Fault>
    requires in_range { AllOf (IsExpr (length program.now.exprs)) ids.now }
    requires names { HasNames program.now (scope_names (E.names scope.now.env.now) (E.inside scope.now.env.now) scope.now.body) }
    requires turns { TurnsFit (length work.old.turns.items.items) scope.now.body }
    ensures answer { (given worths : ℕ → ℤ) → AreWorths given worths work.new.turns.items.items → AnswersWithin work.old.budget work.new.budget (λ v. arguments_seen worths v.items) result (arguments_walk (scope_seen program.now worths (E.names scope.now.env.now) (E.callables scope.now.env.now) (E.operands scope.now.env.now) (E.inside scope.now.env.now) scope.now.body) (trees_in program.now ids.now)) }
    ensures kept { KeepsTurns work.old.turns.items.items work.new.turns.items.items }
    ensures args { OnOk result (work.new.turns.args ≡ work.old.turns.args) }
    ensures grown { OnOk result (Grows work.old work.new []) }
    ensures fit { IfOk result (λ v. All (ArgumentFits (length work.new.turns.items.items)) v.items) }
{
    let mut arguments = Vec::new(alloc);
    for id in &ids.items {
        let argument = argument_at(alloc, program, *id, scope, work)?;
        push(&mut arguments, argument)?;
    }
    Ok(arguments)
}

// An argument. A constant is worth what constant expressions are worth, exactly, and what is not constant is a turn.
#[cycle(argument_at)]
fn argument_at<E: GateEnv>(
    alloc: Global,
    program: &Program,
    id: ExprId,
    scope: &Scope<'_, E>,
    work: &mut Work,
) -> Result<Argument, Fault>
    requires in_range { id.0 < length program.now.exprs }
    requires names { HasNames program.now (scope_names (E.names scope.now.env.now) (E.inside scope.now.env.now) scope.now.body) }
    requires turns { TurnsFit (length work.old.turns.items.items) scope.now.body }
    ensures answer { (given worths : ℕ → ℤ) → AreWorths given worths work.new.turns.items.items → AnswersWithin work.old.budget work.new.budget (argument_seen worths) result (argument_walk (scope_seen program.now worths (E.names scope.now.env.now) (E.callables scope.now.env.now) (E.operands scope.now.env.now) (E.inside scope.now.env.now) scope.now.body) (tree_in program.now id.0)) }
    ensures kept { KeepsTurns work.old.turns.items.items work.new.turns.items.items }
    ensures args { OnOk result (work.new.turns.args ≡ work.old.turns.args) }
    ensures grown { OnOk result (Grows work.old work.new []) }
    ensures fits { IfOk result (ArgumentFits (length work.new.turns.items.items)) }
    ensures constancy { IfOk result (λ a. is_turn_argument a ≡ not (is_constant (meaning_in program.now (scope_names (E.names scope.now.env.now) (E.inside scope.now.env.now) scope.now.body)) (tree_in program.now id.0))) }
{
    if is_constant(program, id, scope) {
        return constant_argument(alloc, program, id, scope, &mut work.budget);
    }
    Ok(Argument::Turn(turn_at(alloc, program, id, scope, work)?))
}

// An expression that is not constant is a turn.
#[cycle(argument_at)]
fn turn_at<E: GateEnv>(
    alloc: Global,
    program: &Program,
    id: ExprId,
    scope: &Scope<'_, E>,
    work: &mut Work,
) -> Result<u32, Fault>
    requires in_range { id.0 < length program.now.exprs }
    requires names { HasNames program.now (scope_names (E.names scope.now.env.now) (E.inside scope.now.env.now) scope.now.body) }
    requires turns { TurnsFit (length work.old.turns.items.items) scope.now.body }
    requires running { is_constant (meaning_in program.now (scope_names (E.names scope.now.env.now) (E.inside scope.now.env.now) scope.now.body)) (tree_in program.now id.0) ≡ false }
    ensures answer { (given worths : ℕ → ℤ) → AreWorths given worths work.new.turns.items.items → AnswersWithin work.old.budget work.new.budget (λ turn. turn_of (worths turn)) result (argument_walk (scope_seen program.now worths (E.names scope.now.env.now) (E.callables scope.now.env.now) (E.operands scope.now.env.now) (E.inside scope.now.env.now) scope.now.body) (tree_in program.now id.0)) }
    ensures kept { KeepsTurns work.old.turns.items.items work.new.turns.items.items }
    ensures args { OnOk result (work.new.turns.args ≡ work.old.turns.args) }
    ensures grown { OnOk result (Grows work.old work.new []) }
    ensures inside { IfOk result (λ turn. turn < length work.new.turns.items.items) }
{
    let node = program.expr(id);
    match &node.kind {
        ExprKind::Name(operand) => {
            named_turn(alloc, program, operand, node.at, scope, &mut work.budget)
        }
        ExprKind::Unary(op, operand) => {
            let turn = turn_at(alloc, program, *operand, scope, work)?;
            let made = unary_row(*op, node.at, turn)?;
            made_turn(made, work)
        }
        ExprKind::Binary(op, left, right) => {
            let a = operand_at(alloc, program, *op, *left, scope, work)?;
            let b = operand_at(alloc, program, *op, *right, scope, work)?;
            let operator = Operator {
                op: *op,
                at: node.at,
                left: program.expr(*left).at,
                right: program.expr(*right).at,
            };
            let made = binary_row(operator, &a, &b)?;
            made_turn(made, work)
        }
        ExprKind::Cast(ty, operand) => {
            width_at(alloc, program, ty, scope, &mut work.budget)?;
            let _value = argument_at(alloc, program, *operand, scope, work)?;
            Err(refused(Rule::NoCast, node.at))
        }
        ExprKind::Hardware(_)
        | ExprKind::Whole(_)
        | ExprKind::Truth(_)
        | ExprKind::Bits(_)
        | ExprKind::Call(_, _) => Err(no_constant(alloc, program, id, scope, &mut work.budget)),
    }
}

// An operand: that of `**` must be constant.
#[cycle(argument_at)]
fn operand_at<E: GateEnv>(
    alloc: Global,
    program: &Program,
    op: BinaryOp,
    id: ExprId,
    scope: &Scope<'_, E>,
    work: &mut Work,
) -> Result<Argument, Fault>
    requires in_range { id.0 < length program.now.exprs }
    requires names { HasNames program.now (scope_names (E.names scope.now.env.now) (E.inside scope.now.env.now) scope.now.body) }
    requires turns { TurnsFit (length work.old.turns.items.items) scope.now.body }
    ensures answer { (given worths : ℕ → ℤ) → AreWorths given worths work.new.turns.items.items → AnswersWithin work.old.budget work.new.budget (argument_seen worths) result (operand_of op (constant_walk (meaning_in program.now (scope_names (E.names scope.now.env.now) (E.inside scope.now.env.now) scope.now.body)) true (tree_in program.now id.0)) (argument_walk (scope_seen program.now worths (E.names scope.now.env.now) (E.callables scope.now.env.now) (E.operands scope.now.env.now) (E.inside scope.now.env.now) scope.now.body) (tree_in program.now id.0))) }
    ensures kept { KeepsTurns work.old.turns.items.items work.new.turns.items.items }
    ensures args { OnOk result (work.new.turns.args ≡ work.old.turns.args) }
    ensures grown { OnOk result (Grows work.old work.new []) }
    ensures fits { IfOk result (ArgumentFits (length work.new.turns.items.items)) }
    ensures constancy { IfOk result (λ a. is_turn_argument a ≡ not (is_constant (meaning_in program.now (scope_names (E.names scope.now.env.now) (E.inside scope.now.env.now) scope.now.body)) (tree_in program.now id.0))) }
{
    match op {
        BinaryOp::Power => constant_argument(alloc, program, id, scope, &mut work.budget),
        _ => argument_at(alloc, program, id, scope, work),
    }
}

// A constant, exactly.
fn constant_argument<E: GateEnv>(
    alloc: Global,
    program: &Program,
    id: ExprId,
    scope: &Scope<'_, E>,
    budget: &mut Budget,
) -> Result<Argument, Fault>
    requires in_range { id.0 < length program.now.exprs }
    requires names { HasNames program.now (scope_names (E.names scope.now.env.now) (E.inside scope.now.env.now) scope.now.body) }
    ensures answer { (worths : ℕ → ℤ) → AnswersWithin budget.old budget.new (argument_seen worths) result (constant_walk (meaning_in program.now (scope_names (E.names scope.now.env.now) (E.inside scope.now.env.now) scope.now.body)) true (tree_in program.now id.0)) }
    ensures fits { (turns : ℕ) → IfOk result (ArgumentFits turns) }
    ensures constant { IfOk result (λ a. is_turn_argument a ≡ false) }
    ensures constancy { OnOk result (is_constant (meaning_in program.now (scope_names (E.names scope.now.env.now) (E.inside scope.now.env.now) scope.now.body)) (tree_in program.now id.0) ≡ true) }
{
    let value = constant_at(alloc, program, id, scope, true, budget)?;
    Ok(Argument::Constant(value))
}

// Why an expression that is not constant has no value.
fn no_constant<E: GateEnv>(
    alloc: Global,
    program: &Program,
    id: ExprId,
    scope: &Scope<'_, E>,
    budget: &mut Budget,
) -> Fault
    requires in_range { id.0 < length program.now.exprs }
    requires names { HasNames program.now (scope_names (E.names scope.now.env.now) (E.inside scope.now.env.now) scope.now.body) }
    requires running { is_constant (meaning_in program.now (scope_names (E.names scope.now.env.now) (E.inside scope.now.env.now) scope.now.body)) (tree_in program.now id.0) ≡ false }
    ensures { Fails result (paid_from budget.old (constant_walk (meaning_in program.now (scope_names (E.names scope.now.env.now) (E.inside scope.now.env.now) scope.now.body)) true (tree_in program.now id.0))) }
{
    match constant_at(alloc, program, id, scope, true, budget) {
        Err(fault) => fault,
        Ok(_) => unreachable!(),
    }
}

// A name that is not constant as it stands: a turn, or a constant with an index that is not constant.
fn named_turn<E: GateEnv>(
    alloc: Global,
    program: &Program,
    operand: &OperandRef,
    place: Span,
    scope: &Scope<'_, E>,
    budget: &mut Budget,
) -> Result<u32, Fault>
    requires in_range { OperandFits (length program.now.names) (length program.now.exprs) operand.now }
    requires names { HasNames program.now (scope_names (E.names scope.now.env.now) (E.inside scope.now.env.now) scope.now.body) }
    requires running { is_constant (meaning_in program.now (scope_names (E.names scope.now.env.now) (E.inside scope.now.env.now) scope.now.body)) (named (called_in program.now operand.now.name) (brackets_in program.now operand.now.index) operand.now.at place) ≡ false }
    requires in_body { IsSome scope.now.body }
    ensures answer { (worths : ℕ → ℤ) → AnswersWithin budget.old budget.new (λ turn. turn_of (worths turn)) result (argument_walk (scope_seen program.now worths (E.names scope.now.env.now) (E.callables scope.now.env.now) (E.operands scope.now.env.now) (E.inside scope.now.env.now) scope.now.body) (named (called_in program.now operand.now.name) (brackets_in program.now operand.now.index) operand.now.at place)) }
    ensures inside { (turns : ℕ) → TurnsFit turns scope.now.body → IfOk result (λ turn. turn < turns) }
{
    match operand.name {
        OperandName::Hardware(_) => Err(refused(Rule::WrongKind, place)),
        OperandName::Name(name) => {
            meant_turn(alloc, program, name, operand, place, scope, budget)
        }
    }
}

// The same, by the number of the name.
fn meant_turn<E: GateEnv>(
    alloc: Global,
    program: &Program,
    name: u32,
    operand: &OperandRef,
    place: Span,
    scope: &Scope<'_, E>,
    budget: &mut Budget,
) -> Result<u32, Fault>
    requires in_range { name < length program.now.names }
    requires fits { AllOf (IndexFits (length program.now.exprs)) operand.now.index }
    requires names { HasNames program.now (scope_names (E.names scope.now.env.now) (E.inside scope.now.env.now) scope.now.body) }
    requires running { is_constant (meaning_in program.now (scope_names (E.names scope.now.env.now) (E.inside scope.now.env.now) scope.now.body)) (named (word (text_in program.now name)) (brackets_in program.now operand.now.index) operand.now.at place) ≡ false }
    requires in_body { IsSome scope.now.body }
    ensures answer { (worths : ℕ → ℤ) → AnswersWithin budget.old budget.new (λ turn. turn_of (worths turn)) result (argument_walk (scope_seen program.now worths (E.names scope.now.env.now) (E.callables scope.now.env.now) (E.operands scope.now.env.now) (E.inside scope.now.env.now) scope.now.body) (named (word (text_in program.now name)) (brackets_in program.now operand.now.index) operand.now.at place)) }
    ensures inside { (turns : ℕ) → TurnsFit turns scope.now.body → IfOk result (λ turn. turn < turns) }
{
    let _text = program.name(name);
    match scope.lookup(name) {
        Lookup::Variable => {
            let turn = parameter_turn(name, scope);
            if !operand.index.items.is_empty() {
                return Err(refused(Rule::WrongKind, place));
            }
            pay(TURN_COST, budget)?;
            Ok(turn)
        }
        Lookup::Value(value) => match value {
            Const::Bits(bits) => {
                pay(1 + bits.text.items.len() as u64, budget)?;
                Err(no_indexes(alloc, program, &operand.index, scope, budget))
            }
            _ => Err(refused(Rule::WrongKind, place)),
        },
        Lookup::Other => Err(refused(Rule::WrongKind, place)),
        Lookup::Unknown => Err(refused(Rule::Unknown, place)),
    }
}

// The turn of a run-time parameter.
fn parameter_turn<E: GateEnv>(name: u32, scope: &Scope<'_, E>) -> u32
    requires in_body { IsSome scope.now.body }
    requires running { lookup (nat_eq name) (scope_names (E.names scope.now.env.now) (E.inside scope.now.env.now) scope.now.body) ≡ Some Running }
    ensures { turn_in scope.now.body name ≡ Some result }
{
    match scope.turn(name) {
        Some(turn) => turn,
        None => unreachable!(),
    }
}

// Why indexes that are not constant have no values.
fn no_indexes<E: GateEnv>(
    alloc: Global,
    program: &Program,
    index: &Items<IndexRef>,
    scope: &Scope<'_, E>,
    budget: &mut Budget,
) -> Fault
    requires in_range { AllOf (IndexFits (length program.now.exprs)) index.now }
    requires names { HasNames program.now (scope_names (E.names scope.now.env.now) (E.inside scope.now.env.now) scope.now.body) }
    requires running { are_constant_brackets (meaning_in program.now (scope_names (E.names scope.now.env.now) (E.inside scope.now.env.now) scope.now.body)) (brackets_in program.now index.now) ≡ false }
    ensures { Fails result (paid_from budget.old (indexes_walk (meaning_in program.now (scope_names (E.names scope.now.env.now) (E.inside scope.now.env.now) scope.now.body)) true (brackets_in program.now index.now))) }
{
    match indexes_at(alloc, program, index, scope, true, budget) {
        Err(fault) => fault,
        Ok(_) => unreachable!(),
    }
}

// The width of a type, where one is written.
fn width_at<E: GateEnv>(
    alloc: Global,
    program: &Program,
    ty: &TypeRef,
    scope: &Scope<'_, E>,
    budget: &mut Budget,
) -> Result<(), Fault>
    requires in_range { TypeFits (length program.now.exprs) ty.now }
    requires names { HasNames program.now (scope_names (E.names scope.now.env.now) (E.inside scope.now.env.now) scope.now.body) }
    ensures { AnswersWithin budget.old budget.new (λ _. tt) result (width_walk (meaning_in program.now (scope_names (E.names scope.now.env.now) (E.inside scope.now.env.now) scope.now.body)) ty.now.base (maybe_in program.now ty.now.width) ty.now.at) }
{
    match ty.width {
        None => Ok(()),
        Some(width) => {
            let value = constant_at(alloc, program, width, scope, true, budget)?;
            width_fits(ty.base, ty.at, program.expr(width).at, &value)
        }
    }
}

// A width is a whole number that the base may have.
fn width_fits(base: Base, at: Span, place: Span, value: &Const) -> Result<(), Fault>
    requires { base ≢ Base.Qubit }
    ensures { Answers {B = Unit {0}} (λ _. tt) result (go_on {B = Unit {0}} (sized_type base at place (constant_of value.now)) (λ _. Ok tt)) }
{
    match value {
        Const::Whole(whole) if 1 <= whole.number && whole.number <= greatest_width(base) => Ok(()),
        Const::Whole(_) => Err(refused(Rule::WidthRange, place)),
        _ => Err(refused(Rule::NoCast, place)),
    }
}

fn greatest_width(base: Base) -> i128
    ensures { result ≡ pos (greatest_width base) }
{
    match base {
        Base::Bool => 1,
        Base::Bit => 4096,
        Base::Int | Base::Uint => 64,
        Base::Angle => 32,
        Base::Qubit => 1024,
    }
}
