// Rows of the two tables worked by hand, a row on each line; and all operators at all pairs of types, and all casts, against a
// plain reading of the tables as texts.
mod plain;
mod tables;

ghost use Rattle.qasm_types.specs.Types.{IsType};

use super::*;
use plain::{has_cast, result_of, rows_of, types_of};
use qasm_ast::{BinaryOp, UnaryOp};
use std::alloc::{AllocError, Global};
use std::test::Fail;
use tables::{OPERANDS, SYMBOLS, UNARY_SYMBOLS};

// an operand, a type, and whether there is a cast
const CASTS: &str = "bool bit yes
bit int:8 yes
bool angle:4 no
int:8 bool yes
int:8 uint:64 yes
uint:4 bits:4 yes
uint:4 bits:5 no
int:1 bit yes
int:2 bit no
int:8 angle:8 no
bits:64 int:3 yes
bits:65 int:3 no
bits:0 uint:1 yes
bits:65 bool yes
bits:1 bit no
bits:4 angle:4 yes
bits:4 angle:5 no
bits:4 bits:5 no
angle:4 bits:4 yes
angle:4 angle:9 yes
angle:4 bool yes
angle:4 int:4 no
300 int:8 yes
0 bool yes
3 bits:2 yes
4 bits:2 no
-1 bits:2 no
1 bit yes
2 bit no
0 bits:65 no
5 angle:8 yes
pi angle:8 yes
pi bool no
turn bool no
turn turn yes";

// an operator, two operands, and the types at which they are taken and of the result
const PLANS: &str = "+ int:8 uint:8 uint:8 uint:8 uint:8
- int:8 uint:7 int:8 int:8 int:8
* int:8 300 int:64 int:64 int:64
/ -1 uint:64 uint:64 uint:64 uint:64
% uint:64 18446744073709551615 uint:64 uint:64 uint:64
+ int:8 18446744073709551615 uint:64 uint:64 uint:64
+ angle:4 angle:5 none
+ angle:4 pi angle:4 angle:4 angle:4
- pi turn turn turn turn
+ turn 0 none
+ angle:4 0 none
* angle:4 int:8 angle:4 int:8 angle:4
* 3 angle:4 whole angle:4 angle:4
* 2 pi whole pi pi
* pi int:8 none
* turn 2 turn whole turn
/ angle:4 int:8 angle:4 int:8 angle:4
/ 2 angle:4 none
/ 2 pi none
/ int:8 bit none
% angle:4 2 none
<< bits:3 1 bits:3 whole bits:3
>> int:8 uint:32 int:8 uint:32 int:8
<< 300 int:8 int:64 int:8 int:64
<< bit 1 none
<< int:8 bit none
& bits:3 bits:3 bits:3 bits:3 bits:3
& bits:3 bits:4 none
| bit bool bit bit bit
^ bit int:1 uint:1 uint:1 uint:1
& int:8 bool int:8 int:8 int:8
& bit 2 int:64 int:64 int:64
& bits:3 7 none
== bit bool bit bit bool
== bits:65 bits:65 bits:65 bits:65 bool
== bits:65 1 none
== bits:0 1 uint:1 uint:1 bool
< bit bool none
< bits:0 bits:0 uint:1 uint:1 bool
< bits:65 bits:65 none
< bits:8 int:8 uint:8 uint:8 bool
< angle:4 angle:4 angle:4 angle:4 bool
< pi pi pi pi bool
< turn turn none
&& bits:3 angle:4 bool bool bool
|| pi bit none
** 2 3 whole whole whole
** int:8 2 none";

// a unary operator, an operand, and the type of the result
const RESULTS: &str = "! angle:4 bool
! pi none
~ bit bit
~ bool none
~ bits:0 bits:0
~ angle:4 none
- uint:8 uint:8
- bits:4 none
- turn turn
- pi pi
~ 5 whole";

// `int:8`, `bool`, or a whole constant.
fn operand(name: &str) -> Option<Operand> {
    let whole = name.parse::<i128>().ok();
    if let Some(whole) = whole {
        return if -(1 << 63) <= whole && whole < 1 << 64 {
            Some(Operand {
                ty: Ty::Whole,
                whole,
            })
        } else {
            None
        };
    }
    let (kind, width) = name.split_once(':').unwrap_or((name, "1"));
    let width = width.parse::<u32>().ok()?;
    typed(kind, width)
}

fn typed(kind: &str, width: u32) -> Option<Operand> {
    match kind {
        "bool" => Some(of(Ty::Bool)),
        "bit" => Some(of(Ty::Bit)),
        "bits" => Some(of(Ty::Bits(width))),
        "int" if 1 <= width && width <= 64 => Some(of(Ty::Int(width))),
        "uint" if 1 <= width && width <= 64 => Some(of(Ty::Uint(width))),
        "angle" if 1 <= width && width <= 32 => Some(of(Ty::Angle(width))),
        "turn" => Some(of(Ty::Turn)),
        "whole" => Some(of(Ty::Whole)),
        "pi" => Some(of(Ty::Pi)),
        _ => None,
    }
}

fn of(ty: Ty) -> Operand
    requires { IsType ty }
{
    Operand { ty, whole: 0 }
}

fn operator(symbol: &str) -> Option<BinaryOp> {
    Some(match symbol {
        "+" => BinaryOp::Add,
        "-" => BinaryOp::Subtract,
        "*" => BinaryOp::Multiply,
        "/" => BinaryOp::Divide,
        "%" => BinaryOp::Remainder,
        "<<" => BinaryOp::ShiftLeft,
        ">>" => BinaryOp::ShiftRight,
        "&" => BinaryOp::BitAnd,
        "|" => BinaryOp::BitOr,
        "^" => BinaryOp::BitXor,
        "==" => BinaryOp::Equal,
        "!=" => BinaryOp::NotEqual,
        "<" => BinaryOp::Less,
        "<=" => BinaryOp::LessEqual,
        ">" => BinaryOp::Greater,
        ">=" => BinaryOp::GreaterEqual,
        "&&" => BinaryOp::And,
        "||" => BinaryOp::Or,
        "**" => BinaryOp::Power,
        _ => return None,
    })
}

fn unary(symbol: &str) -> Option<UnaryOp> {
    Some(match symbol {
        "!" => UnaryOp::Not,
        "~" => UnaryOp::Complement,
        "-" => UnaryOp::Negate,
        _ => return None,
    })
}

type Types = (Ty, Ty, Ty);

fn types(plan: Option<OpPlan>) -> Option<Types> {
    let plan = plan?;
    Some((plan.left, plan.right, plan.result))
}

fn type_of(name: Option<&str>) -> Option<Ty> {
    Some(operand(name?)?.ty)
}

#[test]
fn casts(rt: HostRuntime) -> Result<(), Fail> {
    for line in CASTS.lines() {
        let mut words = line.split(' ');
        let from = operand(words.next().unwrap_or("")).ok_or("from")?;
        let to = type_of(words.next()).ok_or("to")?;
        assert_eq!(rt;
            cast_of(from, to),
            words.next().unwrap_or("") == "yes",
            "{line}"
        );
    }
    Ok(())
}

#[test]
fn takes_operands(rt: HostRuntime) -> Result<(), Fail> {
    for line in PLANS.lines() {
        let mut words = line.split(' ');
        let op = operator(words.next().unwrap_or("")).ok_or("operator")?;
        let left = operand(words.next().unwrap_or("")).ok_or("left")?;
        let right = operand(words.next().unwrap_or("")).ok_or("right")?;
        let first = type_of(words.next());
        let second = type_of(words.next());
        let third = type_of(words.next());
        let got = types(operator_type(op, left, right));
        match (first, second, third) {
            (Some(l), Some(r), Some(t)) => assert_eq!(rt; got, Some((l, r, t)), "{line}"),
            _ => assert_eq!(rt; got, None, "{line}"),
        }
    }
    Ok(())
}

#[test]
fn takes_an_operand(rt: HostRuntime) -> Result<(), Fail> {
    for line in RESULTS.lines() {
        let mut words = line.split(' ');
        let op = unary(words.next().unwrap_or("")).ok_or("operator")?;
        let arg = operand(words.next().unwrap_or("")).ok_or("operand")?;
        assert_eq!(rt; unary_type(op, arg), type_of(words.next()), "{line}");
    }
    assert_eq!(rt; cells(Ty::Bits(0)), 0);
    assert_eq!(rt; cells(Ty::Uint(64)), 1);
    Ok(())
}

/// The operands that are compared, each with each.
fn operands(alloc: Global) -> Result<Vec<Operand>, AllocError> {
    let mut all = Vec::new(alloc);
    for name in OPERANDS.split_whitespace() {
        if let Some(one) = operand(name) {
            all.push(one)?;
        }
    }
    Ok(all)
}

#[test]
fn operators_have_their_rows(rt: HostRuntime) -> Result<(), Fail> {
    let truth = of(Ty::Bool);
    let all = operands(rt.alloc())?;
    for symbol in SYMBOLS.split(' ') {
        let op = operator(symbol).ok_or("operator")?;
        let rows = rows_of(rt.alloc(), symbol)?;
        for left in &all {
            for right in &all {
                let got = types(operator_type(op, *left, *right));
                let want = types_of(&rows, *left, *right, truth);
                assert_eq!(rt; got, want, "{left:?} {symbol} {right:?}");
            }
        }
    }
    Ok(())
}

#[test]
fn casts_and_unary_operators_have_their_rows(rt: HostRuntime) -> Result<(), Fail> {
    let truth = of(Ty::Bool);
    let all = operands(rt.alloc())?;
    assert_eq!(rt; all.len(), 55);
    for from in &all {
        for to in &all {
            assert_eq!(rt;
                cast_of(*from, to.ty),
                has_cast(*from, *to),
                "{from:?} {to:?}"
            );
        }
        for symbol in UNARY_SYMBOLS.split(' ') {
            let op = unary(symbol).ok_or("operator")?;
            let want = result_of(symbol, *from, truth);
            assert_eq!(rt; unary_type(op, *from), want, "{symbol} {from:?}");
        }
    }
    Ok(())
}
