// What `const_eval` answers for expressions whose names mean constants.
ghost use Rattle.std.specs.Prelude.{◌≡◌, ◌<◌, length, IfOk, IfSome};
ghost use Rattle.qasm_ast.specs.Whole.{ExprFits, ExprsFit, TypeFits};
ghost use Rattle.width_cases.specs.Named.{the_names};

use super::constants::{constant, seen};
use super::words::is_type;
use crate::names::Names;
use crate::plain::{Answer, Spot};
use crate::typed::Typed;
use anyhow::{Result, bail};
use const_eval::{Const, const_cast, const_value};
use qasm_ast::{
    Base, BinaryOp, Expr, ExprId, ExprKind, Items, OperandName, OperandRef, Program, TypeRef,
    UnaryOp, Word,
};
use qasm_types::Ty;
use qq_base::{Fault, Span};
use std::alloc::{AllocError, Global};

const WHOLE_COLUMN: u32 = 1;

const LEFT_COLUMN: u32 = 2;

const RIGHT_COLUMN: u32 = 3;

const WIDTH_COLUMN: u32 = 4;

/// An operator or a cast on the names `l` and `r`. Each part stands in a column of its own, so that the place of a rule tells the
/// part.
#[derive(Drop)]
pub struct Expression {
    program: Program,
    ghost names: { length program.names ≡ 2 },
    ghost exprs: { length program.exprs ≡ 4 },
}

impl Expression {
    /// An operator on `l` and `r`.
    pub fn binary(alloc: Global, op: BinaryOp) -> Result<Expression> {
        over_names(alloc, 0, ExprKind::Binary(op, ExprId(0), ExprId(1)))
    }

    /// An operator on `l`.
    pub fn unary(alloc: Global, op: UnaryOp) -> Result<Expression> {
        over_names(alloc, 0, ExprKind::Unary(op, ExprId(0)))
    }

    /// The cast of `l` to a type, where it can be written.
    pub fn cast(alloc: Global, to: Ty) -> Result<Option<Expression>> {
        match written(to) {
            Some((ty, width)) => {
                let cast = over_names(alloc, width, ExprKind::Cast(ty, ExprId(0)))?;
                Ok(Some(cast))
            }
            None => Ok(None),
        }
    }

    /// What it is worth where its names mean this.
    #[tactic(auto, using(crate::proofs::Named::names_found))]
    pub fn answer(&self, alloc: Global, names: &Names, exact: bool) -> Result<Answer> {
        answered(const_value(alloc, &self.program, ExprId(3), names, exact))
    }
}

fn in_column(column: u32) -> Span {
    Span { line: 1, column }
}

/// The program of one expression with the number 3, whose operands are `l`, `r` and a number with the numbers 0, 1 and 2.
#[tactic(auto, using(crate::proofs::Named::is_program))]
fn over_names(alloc: Global, number: u32, kind: ExprKind) -> Result<Expression>
    requires { ExprFits 2 3 kind }
{
    let names = names(alloc)?;
    let exprs = exprs(alloc, number, kind)?;
    let top = Items {
        items: Vec::new(alloc),
    };
    let end = in_column(WHOLE_COLUMN);
    match Program::new(alloc, names, exprs, Vec::new(alloc), top, end) {
        Ok(program) => Ok(Expression { program }),
        Err(_) => bail!("no memory"),
    }
}

fn names(alloc: Global) -> Result<Vec<Word>, AllocError>
    ensures { IfOk result (λ names. names.items ≡ the_names) }
{
    let left = Word {
        items: vec![in alloc; b'l']?,
    };
    let right = Word {
        items: vec![in alloc; b'r']?,
    };
    Ok(vec![in alloc; left, right]?)
}

/// The expressions of a program.
#[tactic(auto, using(crate::proofs::Named::four_fit))]
fn exprs(alloc: Global, number: u32, kind: ExprKind) -> Result<Vec<Expr>, AllocError>
    requires { ExprFits 2 3 kind }
    ensures count { IfOk result (λ exprs. length exprs.items ≡ 4) }
    ensures fit { IfOk result (λ exprs. ExprsFit 2 0 exprs.items) }
{
    let left = name(alloc, 0, in_column(LEFT_COLUMN));
    let right = name(alloc, 1, in_column(RIGHT_COLUMN));
    let number = Expr {
        kind: ExprKind::Whole(u64::from(number)),
        at: in_column(WIDTH_COLUMN),
    };
    let whole = Expr {
        kind,
        at: in_column(WHOLE_COLUMN),
    };
    Ok(vec![in alloc; left, right, number, whole]?)
}

/// A name alone.
fn name(alloc: Global, number: u32, at: Span) -> Expr
    requires { number < 2 }
    ensures { ExprFits 2 number result.kind }
{
    let operand = OperandRef {
        name: OperandName::Name(number),
        index: Items {
            items: Vec::new(alloc),
        },
        at,
    };
    Expr {
        kind: ExprKind::Name(operand),
        at,
    }
}

/// A type as it is written, and its width, which is expression 2. No width 0 is written.
fn written(ty: Ty) -> Option<(TypeRef, u32)>
    ensures { IfSome result (λ written. TypeFits 3 written.0) }
{
    let at = in_column(WHOLE_COLUMN);
    let sized = Some(ExprId(2));
    match ty {
        Ty::Bool => Some((type_of(Base::Bool, None, at), 0)),
        Ty::Bit => Some((type_of(Base::Bit, None, at), 0)),
        Ty::Bits(width) if 1 <= width => Some((type_of(Base::Bit, sized, at), width)),
        Ty::Int(width) => Some((type_of(Base::Int, sized, at), width)),
        Ty::Uint(width) => Some((type_of(Base::Uint, sized, at), width)),
        Ty::Angle(width) => Some((type_of(Base::Angle, sized, at), width)),
        Ty::Bits(_) | Ty::Turn | Ty::Whole | Ty::Pi => None,
    }
}

fn type_of(base: Base, width: Option<ExprId>, at: Span) -> TypeRef
    requires { TypeFits 3 (record { base = base; width = width; at = at }) }
    ensures { TypeFits 3 result }
{
    TypeRef { base, width, at }
}

fn spot(column: u32) -> Option<Spot> {
    match column {
        WHOLE_COLUMN => Some(Spot::Whole),
        LEFT_COLUMN => Some(Spot::Left),
        RIGHT_COLUMN => Some(Spot::Right),
        _ => None,
    }
}

fn answered(answer: Result<Const, Fault>) -> Result<Answer> {
    match answer {
        Ok(value) => Ok(Answer::Value(seen(&value))),
        Err(Fault::Refused(refusal)) => match spot(refusal.at.column) {
            Some(spot) => Ok(Answer::Broken(refusal.rule, spot)),
            None => bail!("a rule at no operand"),
        },
        Err(Fault::Memory) => bail!("no memory"),
    }
}

/// What a cast gives of an operand that is a constant.
pub fn cast_answer(alloc: Global, from: Typed, to: Ty) -> Result<Option<Answer>> {
    match constant(alloc, from)? {
        Some(value) if is_type(to) => {
            let place = in_column(WHOLE_COLUMN);
            Ok(Some(answered(const_cast(alloc, &value, to, place))?))
        }
        _ => Ok(None),
    }
}
