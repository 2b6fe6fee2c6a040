// The value of a constant expression.
ghost use Rattle.std.specs.Prelude.{◌≡◌, ◌<◌, ◌^◌, length, IfOk};
ghost use Rattle.qasm_ast.specs.Tree.{named, place_of};
ghost use Rattle.qasm_ast.specs.View.{text_in, tree_in, trees_in, maybe_in, bracket_in, brackets_in, called_in};
ghost use Rattle.qasm_ast.specs.Whole.{AllOf, AnyTypeFits, IfThere, IsExpr, IndexFits, NameFits, OperandFits};
ghost use Rattle.qasm_types.specs.Types.{IsType};
ghost use Rattle.alias_resolve.specs.Places.{AreFew, HasFewMembers};
ghost use Rattle.const_eval.specs.Answers.{Answers, Fails};
ghost use Rattle.const_eval.specs.ConstValue.{called_constant, called_in_constant, constant_value, end_value as end_of, index_value as index_of, index_values as indexes_of, member_values as members_of, meant, value as value_of, whole_from, written_type as type_of};
ghost use Rattle.const_eval.specs.Constant.{Constant};
ghost use Rattle.const_eval.specs.Meaning.{meaning_in};
ghost use Rattle.const_eval.specs.Seen.{HasNames, constant_of, meaning_of};

use crate::cast::const_cast;
use crate::constant::{BitRegister, Const, WholeNumber};
use crate::copy::copied_bits;
use crate::environment::{Constants, Lookup};
use crate::index::indexed_constant;
use crate::operator::{Operator, binary_result};
use crate::refusing::{push, refused};
use crate::unary::unary_result;
use crate::width::{plain_type, sized_type, whole_at};
use alias_resolve::{IndexValue, MemberList};
use qasm_ast::{ExprId, ExprKind, IndexRef, Items, OperandName, OperandRef, Program, TypeRef};
use qasm_types::Ty;
use qq_base::{Fault, Rule, Span};
use std::alloc::Global;

/// The outermost expression, in which another stands.
#[derive(Clone, Copy)]
struct Outermost {
    /// Whether a division of whole constants must leave no remainder.
    exact: bool,
    place: Span,
}

/// What a constant expression is worth, or the first rule that it breaks: operands before their operator's own rules. A
/// name of a run-time value makes the whole expression no constant one, so `NotConstant` stands at its place.
/// `exact` forbids a remainder of whole constants.
pub fn const_value<E: Constants>(
    alloc: Global,
    program: &Program,
    expr: ExprId,
    env: &E,
    exact: bool,
) -> Result<Const, Fault>
    requires in_range { expr.0 < length program.now.exprs }
    requires names { HasNames program.now (E.names env.now) }
    ensures { Answers constant_of result (constant_value (meaning_in program.now (E.names env.now)) exact (tree_in program.now expr.0)) }
{
    let place = program.expr(expr).at;
    value_at(alloc, program, expr, env, Outermost { exact, place })
}

// The value of an expression.
#[cycle(value_at)]
fn value_at<E: Constants>(
    alloc: Global,
    program: &Program,
    id: ExprId,
    env: &E,
    outer: Outermost,
) -> Result<Const, Fault>
    requires in_range { id.0 < length program.now.exprs }
    requires names { HasNames program.now (E.names env.now) }
    ensures { Answers constant_of result (value_of (meaning_in program.now (E.names env.now)) outer.exact outer.place (tree_in program.now id.0)) }
{
    let node = program.expr(id);
    match &node.kind {
        ExprKind::Name(operand) => named_value(alloc, program, operand, node.at, env, outer),
        ExprKind::Hardware(_) => Err(refused(Rule::WrongKind, node.at)),
        ExprKind::Whole(number) => Ok(Const::Whole(WholeNumber {
            number: i128::from(*number),
        })),
        ExprKind::Truth(truth) => Ok(Const::Bool(*truth)),
        ExprKind::Bits(bits) => Ok(Const::Bits(BitRegister {
            text: copied_bits(alloc, bits)?,
        })),
        ExprKind::Unary(op, operand) => {
            let value = value_at(alloc, program, *operand, env, outer)?;
            unary_result(alloc, *op, node.at, &value)
        }
        ExprKind::Binary(op, left, right) => {
            let a = value_at(alloc, program, *left, env, outer)?;
            let b = value_at(alloc, program, *right, env, outer)?;
            let operator = Operator {
                op: *op,
                exact: outer.exact,
                at: node.at,
                left: program.expr(*left).at,
                right: program.expr(*right).at,
            };
            binary_result(alloc, operator, &a, &b)
        }
        ExprKind::Cast(ty, operand) => {
            let to = written_type(alloc, program, ty, env, outer)?;
            let value = value_at(alloc, program, *operand, env, outer)?;
            const_cast(alloc, &value, to, node.at)
        }
        ExprKind::Call(name, _) => Err(called_value(program, *name, node.at, env)),
    }
}

// Why a call is no constant: a name that is not visible, or that is a value, is none to call.
fn called_value<E: Constants>(program: &Program, name: u32, place: Span, env: &E) -> Fault
    requires in_range { name < length program.now.names }
    requires names { HasNames program.now (E.names env.now) }
    ensures { Fails {A = Constant} result (called_in_constant place (meaning_in program.now (E.names env.now) (text_in program.now name))) }
{
    let _text = program.name(name);
    match env.lookup(name) {
        Lookup::Unknown => refused(Rule::Unknown, place),
        Lookup::Other => refused(Rule::CallPlace, place),
        Lookup::Value(_) | Lookup::Variable => refused(Rule::WrongKind, place),
    }
}

// The constant that a name means.
fn meant_constant<'a, E: Constants>(
    program: &Program,
    name: OperandName,
    place: Span,
    env: &'a E,
    outer: Outermost,
) -> Result<&'a Const, Fault>
    requires in_range { NameFits (length program.now.names) name }
    requires names { HasNames program.now (E.names env.now) }
    ensures { Answers (λ c. constant_of c.now) result (called_constant (meaning_in program.now (E.names env.now)) outer.place place (called_in program.now name)) }
{
    let OperandName::Name(number) = name else {
        return Err(refused(Rule::WrongKind, place));
    };
    let _text = program.name(number);
    match env.lookup(number) {
        Lookup::Value(value) => Ok(value),
        Lookup::Variable => Err(refused(Rule::NotConstant, outer.place)),
        Lookup::Other => Err(refused(Rule::WrongKind, place)),
        Lookup::Unknown => Err(refused(Rule::Unknown, place)),
    }
}

// The value of a name with its brackets.
#[cycle(value_at)]
fn named_value<E: Constants>(
    alloc: Global,
    program: &Program,
    operand: &OperandRef,
    place: Span,
    env: &E,
    outer: Outermost,
) -> Result<Const, Fault>
    requires in_range { OperandFits (length program.now.names) (length program.now.exprs) operand.now }
    requires names { HasNames program.now (E.names env.now) }
    ensures { Answers constant_of result (value_of (meaning_in program.now (E.names env.now)) outer.exact outer.place (named (called_in program.now operand.now.name) (brackets_in program.now operand.now.index) operand.now.at place)) }
{
    let value = meant_constant(program, operand.name, place, env, outer)?;
    if operand.index.items.is_empty() {
        return Ok(value.copied(alloc)?);
    }
    let Const::Bits(bits) = value else {
        return Err(refused(Rule::WrongKind, place));
    };
    let values = index_values(alloc, program, &operand.index, env, outer)?;
    indexed_constant(alloc, program, place, &operand.index, bits, &values)
}

// A type with the width that is written, if one is.
#[cycle(value_at)]
fn written_type<E: Constants>(
    alloc: Global,
    program: &Program,
    ty: &TypeRef,
    env: &E,
    outer: Outermost,
) -> Result<Ty, Fault>
    requires in_range { IfThere (IsExpr (length program.now.exprs)) ty.now.width }
    requires names { HasNames program.now (E.names env.now) }
    ensures answer { Answers (λ type. type) result (type_of (meaning_in program.now (E.names env.now)) outer.exact outer.place ty.now.base (maybe_in program.now ty.now.width) ty.now.at) }
    ensures is_type { IfOk result IsType }
{
    let Some(width) = ty.width else {
        return plain_type(ty.base, ty.at);
    };
    let value = value_at(alloc, program, width, env, outer)?;
    sized_type(ty.base, ty.at, program.expr(width).at, &value)
}

// A whole number, where a constant of another kind may not stand.
#[cycle(value_at)]
fn whole_value<E: Constants>(
    alloc: Global,
    program: &Program,
    id: ExprId,
    env: &E,
    outer: Outermost,
) -> Result<i128, Fault>
    requires in_range { id.0 < length program.now.exprs }
    requires names { HasNames program.now (E.names env.now) }
    ensures { Answers (λ z. z) result (whole_from (place_of (tree_in program.now id.0)) (value_of (meaning_in program.now (E.names env.now)) outer.exact outer.place (tree_in program.now id.0))) }
{
    let value = value_at(alloc, program, id, env, outer)?;
    whole_at(program.expr(id).at, &value)
}

// The start, step or stop of a range, if it is there.
#[cycle(value_at)]
fn end_value<E: Constants>(
    alloc: Global,
    program: &Program,
    id: Option<ExprId>,
    env: &E,
    outer: Outermost,
) -> Result<Option<i128>, Fault>
    requires in_range { IfThere (IsExpr (length program.now.exprs)) id }
    requires names { HasNames program.now (E.names env.now) }
    ensures { Answers (λ z. z) result (end_of (meaning_in program.now (E.names env.now)) outer.exact outer.place (maybe_in program.now id)) }
{
    match id {
        None => Ok(None),
        Some(id) => Ok(Some(whole_value(alloc, program, id, env, outer)?)),
    }
}

// The members of a set.
#[cycle(value_at)]
#[tactic(auto, using(qasm_ast::specs::Size::ids_smaller))]
fn member_values<E: Constants>(
    alloc: Global,
    program: &Program,
    ids: &Items<ExprId>,
    env: &E,
    outer: Outermost,
) -> Result<MemberList, Fault>
    requires in_range { AllOf (IsExpr (length program.now.exprs)) ids.now }
    requires names { HasNames program.now (E.names env.now) }
    ensures answer { Answers (λ z. z) result (members_of (meaning_in program.now (E.names env.now)) outer.exact outer.place (trees_in program.now ids.now)) }
    ensures few { IfOk result (λ members. length members < 2 ^ 32) }
{
    let mut members = Vec::new(alloc);
    for id in &ids.items {
        push(&mut members, whole_value(alloc, program, *id, env, outer)?)?;
    }
    Ok(MemberList { items: members })
}

// The value of one index.
#[cycle(value_at)]
fn index_value<E: Constants>(
    alloc: Global,
    program: &Program,
    index: &IndexRef,
    env: &E,
    outer: Outermost,
) -> Result<IndexValue, Fault>
    requires in_range { IndexFits (length program.now.exprs) index.now }
    requires names { HasNames program.now (E.names env.now) }
    ensures answer { Answers (λ v. v) result (index_of (meaning_in program.now (E.names env.now)) outer.exact outer.place (bracket_in program.now index.now)) }
    ensures few { IfOk result HasFewMembers }
{
    match index {
        IndexRef::At(id) => Ok(IndexValue::At(whole_value(alloc, program, *id, env, outer)?)),
        IndexRef::Range {
            start,
            step,
            stop,
            ..
        } => Ok(IndexValue::Range {
            start: end_value(alloc, program, *start, env, outer)?,
            step: end_value(alloc, program, *step, env, outer)?,
            stop: end_value(alloc, program, *stop, env, outer)?,
        }),
        IndexRef::Set(ids) => Ok(IndexValue::Set(member_values(alloc, program, ids, env, outer)?)),
    }
}

// The values of all indexes in brackets.
#[cycle(value_at)]
#[tactic(auto, using(qasm_ast::specs::Size::brackets_smaller, crate::proofs::Walking::few_more))]
fn index_values<E: Constants>(
    alloc: Global,
    program: &Program,
    index: &Items<IndexRef>,
    env: &E,
    outer: Outermost,
) -> Result<Vec<IndexValue>, Fault>
    requires in_range { AllOf (IndexFits (length program.now.exprs)) index.now }
    requires names { HasNames program.now (E.names env.now) }
    ensures answer { Answers (λ v. v.items) result (indexes_of (meaning_in program.now (E.names env.now)) outer.exact outer.place (brackets_in program.now index.now)) }
    ensures few { IfOk result (λ v. AreFew v.items) }
{
    let mut values = Vec::new(alloc);
    for bracket in &index.items {
        push(
            &mut values,
            index_value(alloc, program, bracket, env, outer)?,
        )?;
    }
    Ok(values)
}
