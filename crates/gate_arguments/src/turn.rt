//! Operators on turns.
ghost use Rattle.std.specs.Prelude.{◌≡◌, ◌<◌, ◌≤◌, ◌^◌, ◌*ℤ◌, ◌+ℤ◌, ◌-ℤ◌, ◌≤ℤ◌, ◌<ℤ◌, ◌||◌, [], ℕ, ℤ, pos, false, length, unsigned_abs, IsTrue, IfOk, OnOk, Ok};
ghost use Rattle.qasm_types.specs.Types.{IsWholeConstant};
ghost use Rattle.const_eval.specs.Answers.{Answers, Fails};
ghost use Rattle.const_eval.specs.ConstOperators.{unary_result};
ghost use Rattle.const_eval.specs.Constant.{Constant};
ghost use Rattle.const_eval.specs.Seen.{constant_of};
ghost use Rattle.gate_lists.specs.Growing.{AreWorths, Grows, MakesTurns};
ghost use Rattle.gate_lists.specs.Paid.{AnswersWithin};
ghost use Rattle.gate_lists.specs.Turns.{is_outer, turn_fits, worth_by};
ghost use Rattle.gate_lists.specs.Units.{word_of};
ghost use Rattle.gate_arguments.specs.Arguments.{counted, turn_result};
ghost use Rattle.gate_arguments.specs.Kept.{KeepsTurns};
ghost use Rattle.gate_arguments.specs.Rows.{MadeFits, PartFits, divisor_beside, made_seen, no_rest, number_beside, part_seen, rule_beside, units_beside};
ghost use Rattle.gate_arguments.specs.Scope.{turn_of};
ghost use Rattle.gate_arguments.specs.Seen.{ArgumentFits, argument_seen, is_turn_argument};

use crate::nodes::pay;
use crate::scope::Argument;
use crate::units::units_of_part;
use const_eval::Const;
use gate_lists::{TurnExpr, Turns, Work, refused};
use qasm_ast::{BinaryOp, UnaryOp};
use qq_base::{Fault, NoMemory, Rule, Span};
use word_arith::{WordTy, congruent_numbers_combine, congruent_numbers_have_one_word, wrap};

/// The cost of a node whose value is a turn: 1, and 1 for its cell.
pub(crate) const TURN_COST: u64 = 2;

/// The words that are turns.
const WORD: WordTy = WordTy {
    signed: true,
    width: 64,
};

/// A binary operator where it stands, with the places of the expression and of its operands.
#[derive(Clone, Copy, Debug, PartialEq, Eq)]
pub(crate) struct Operator {
    pub op: BinaryOp,
    pub at: Span,
    pub left: Span,
    pub right: Span,
}

/// An operand of a sum: a turn, or the units of a constant.
#[derive(Clone, Copy, Debug, PartialEq, Eq)]
pub(crate) enum Part {
    Turn(u32),
    Units(i64),
}

/// What an operator makes of turns.
#[derive(Clone, Copy, Debug, PartialEq, Eq)]
pub(crate) enum Made {
    Negative(u32),
    Sum(Part, Part),
    Difference(Part, Part),
    Product(u32, i128),
    /// The divisor is at least 1.
    Quotient(u32, i64),
}

/// What a unary operator gives on an operand that is a turn.
pub(crate) fn unary_row(op: UnaryOp, at: Span, turn: u32) -> Result<Made, Fault>
    ensures answer { (worths : ℕ → ℤ) → Answers (λ made. turn_of (made_seen worths made)) result (unary_result op at (turn_of (worths turn))) }
    ensures fits { (turns : ℕ) → turn < turns → IfOk result (MadeFits turns) }
{
    match op {
        UnaryOp::Negate => Ok(Made::Negative(turn)),
        UnaryOp::Complement | UnaryOp::Not => Err(refused(Rule::TypeMismatch, at)),
    }
}

/// What a binary operator gives where an operand is a turn.
pub(crate) fn binary_row(
    operator: Operator,
    left: &Argument,
    right: &Argument,
) -> Result<Made, Fault>
    requires { IsTrue (is_turn_argument left.now || is_turn_argument right.now) }
    ensures answer { (worths : ℕ → ℤ) → Answers (λ made. turn_of (made_seen worths made)) result (turn_result operator.op operator.at (argument_seen worths left.now) operator.left (argument_seen worths right.now) operator.right) }
    ensures fits { (turns : ℕ) → ArgumentFits turns left.now → ArgumentFits turns right.now → IfOk result (MadeFits turns) }
{
    match (left, right) {
        (Argument::Turn(a), Argument::Turn(b)) => row_of_turns(operator, *a, *b),
        (Argument::Turn(a), Argument::Constant(b)) => row_with_constant(operator, *a, b),
        (Argument::Constant(a), Argument::Turn(b)) => row_behind_constant(operator, a, *b),
        (Argument::Constant(_), Argument::Constant(_)) => unreachable!(),
    }
}

fn row_of_turns(operator: Operator, a: u32, b: u32) -> Result<Made, Fault>
    ensures answer { (worths : ℕ → ℤ) → Answers (λ made. turn_of (made_seen worths made)) result (turn_result operator.op operator.at (turn_of (worths a)) operator.left (turn_of (worths b)) operator.right) }
    ensures fits { (turns : ℕ) → a < turns → b < turns → IfOk result (MadeFits turns) }
{
    match operator.op {
        BinaryOp::Add => Ok(Made::Sum(Part::Turn(a), Part::Turn(b))),
        BinaryOp::Subtract => Ok(Made::Difference(Part::Turn(a), Part::Turn(b))),
        _ => Err(refused(Rule::TypeMismatch, operator.at)),
    }
}

// A turn, and behind it a constant.
fn row_with_constant(operator: Operator, a: u32, b: &Const) -> Result<Made, Fault>
    ensures answer { (worths : ℕ → ℤ) → Answers (λ made. turn_of (made_seen worths made)) result (turn_result operator.op operator.at (turn_of (worths a)) operator.left (constant_of b.now) operator.right) }
    ensures fits { (turns : ℕ) → a < turns → IfOk result (MadeFits turns) }
{
    match operator.op {
        BinaryOp::Add => {
            let units = units_beside(b, operator.at, operator.right)?;
            Ok(Made::Sum(Part::Turn(a), Part::Units(units)))
        }
        BinaryOp::Subtract => {
            let units = units_beside(b, operator.at, operator.right)?;
            Ok(Made::Difference(Part::Turn(a), Part::Units(units)))
        }
        BinaryOp::Multiply => Ok(Made::Product(a, number_beside(b, operator.at)?)),
        BinaryOp::Divide => {
            let divisor = divisor_beside(b, operator.at, operator.right)?;
            Ok(Made::Quotient(a, divisor))
        }
        BinaryOp::Remainder => Err(no_rest(b, operator.at, operator.right)),
        _ => Err(no_row(b, operator.at)),
    }
}

// A constant, and behind it a turn.
fn row_behind_constant(operator: Operator, a: &Const, b: u32) -> Result<Made, Fault>
    ensures answer { (worths : ℕ → ℤ) → Answers (λ made. turn_of (made_seen worths made)) result (turn_result operator.op operator.at (constant_of a.now) operator.left (turn_of (worths b)) operator.right) }
    ensures fits { (turns : ℕ) → b < turns → IfOk result (MadeFits turns) }
{
    match operator.op {
        BinaryOp::Add => {
            let units = units_beside(a, operator.at, operator.left)?;
            Ok(Made::Sum(Part::Units(units), Part::Turn(b)))
        }
        BinaryOp::Subtract => {
            let units = units_beside(a, operator.at, operator.left)?;
            Ok(Made::Difference(Part::Units(units), Part::Turn(b)))
        }
        BinaryOp::Multiply => Ok(Made::Product(b, number_beside(a, operator.at)?)),
        _ => Err(no_row(a, operator.at)),
    }
}

// The units of a part of pi beside a turn. Nothing else is added to one.
fn units_beside(constant: &Const, at: Span, place: Span) -> Result<i64, Fault>
    ensures answer { Answers (λ z. z) result (units_beside at place (constant_of constant.now)) }
    ensures bounded { IfOk result (λ z. unsigned_abs z ≤ 2 ^ 40) }
{
    match constant {
        Const::Pi(part) => units_of_part(*part, place),
        _ => Err(no_row(constant, at)),
    }
}

// A whole constant that a turn is multiplied by.
fn number_beside(constant: &Const, at: Span) -> Result<i128, Fault>
    ensures answer { Answers (λ z. z) result (number_beside at (constant_of constant.now)) }
    ensures whole { IfOk result IsWholeConstant }
{
    match constant {
        Const::Whole(whole) => Ok(whole.number),
        _ => Err(no_row(constant, at)),
    }
}

// A whole constant that a turn is divided by: from 1 to 2^63 - 1.
fn divisor_beside(constant: &Const, at: Span, place: Span) -> Result<i64, Fault>
    ensures answer { Answers (λ z. z) result (divisor_beside at place (constant_of constant.now)) }
    ensures least { IfOk result (λ z. pos 1 ≤ℤ z) }
    ensures greatest { IfOk result (λ z. z <ℤ pos (2 ^ 63)) }
{
    match constant {
        Const::Whole(whole) => {
            if whole.number == 0 {
                return Err(refused(Rule::ConstDivide, place));
            }
            if whole.number < 1 || whole.number > i128::from(i64::MAX) {
                return Err(refused(Rule::DivisorRange, place));
            }
            Ok(whole.number as i64)
        }
        _ => Err(no_rest(constant, at, place)),
    }
}

// The rule where a turn is divided by what is no whole number: the fraction 0 of pi is 0 first.
fn no_rest(constant: &Const, at: Span, place: Span) -> Fault
    ensures { Fails {A = Constant} result (no_rest at place (constant_of constant.now)) }
{
    match constant {
        Const::Pi(part) if part.num() == 0 => refused(Rule::ConstDivide, place),
        _ => no_row(constant, at),
    }
}

// The rule where the table has no row for a turn and this constant.
fn no_row(beside: &Const, at: Span) -> Fault
    ensures { result ≡ Fault.Refused (record { rule = rule_beside (constant_of beside.now); at = at }) }
{
    match beside {
        Const::Pi(_) => refused(Rule::NotPiMultiple, at),
        _ => refused(Rule::TypeMismatch, at),
    }
}

/// Makes a turn, which costs its node, and gives its place.
pub(crate) fn made_turn(made: Made, work: &mut Work) -> Result<u32, Fault>
    requires { MadeFits (length work.old.turns.items.items) made }
    ensures answer { (given worths : ℕ → ℤ) → AreWorths given worths work.new.turns.items.items → AnswersWithin work.old.budget work.new.budget (λ turn. turn_of (worths turn)) result (counted (Ok (turn_of (made_seen worths made)))) }
    ensures kept { KeepsTurns work.old.turns.items.items work.new.turns.items.items }
    ensures args { OnOk result (work.new.turns.args ≡ work.old.turns.args) }
    ensures grown { OnOk result (Grows work.old work.new []) }
    ensures inside { IfOk result (λ turn. turn < length work.new.turns.items.items) }
{
    pay(TURN_COST, &mut work.budget)?;
    let turn = expression_of(made, &mut work.turns)?;
    Ok(work.turns.push(turn)?)
}

// What is made as an expression over turns, of which the units of constants are some more.
fn expression_of(made: Made, turns: &mut Turns) -> Result<TurnExpr, NoMemory>
    requires { MadeFits (length turns.old.items.items) made }
    ensures worth { (given worths : ℕ → ℤ) → AreWorths given worths turns.new.items.items → IfOk result (λ t. worth_by given worths t ≡ word_of (made_seen worths made)) }
    ensures fits { IfOk result (λ t. IsTrue (turn_fits 0 (length turns.new.items.items) t)) }
    ensures inner { IfOk result (λ t. is_outer t ≡ false) }
    ensures added { MakesTurns turns.old.items.items turns.new.items.items 2 }
    ensures args { OnOk result (turns.new.args ≡ turns.old.args) }
{
    match made {
        Made::Negative(a) => Ok(TurnExpr::Neg(a)),
        Made::Sum(a, b) => sum_of(a, b, turns),
        Made::Difference(a, b) => difference_of(a, b, turns),
        Made::Product(a, number) => Ok(product_of(a, number)),
        Made::Quotient(a, divisor) => Ok(TurnExpr::Div(a, divisor)),
    }
}

fn sum_of(a: Part, b: Part, turns: &mut Turns) -> Result<TurnExpr, NoMemory>
    requires left { PartFits (length turns.old.items.items) a }
    requires right { PartFits (length turns.old.items.items) b }
    ensures worth { (given worths : ℕ → ℤ) → AreWorths given worths turns.new.items.items → IfOk result (λ t. worth_by given worths t ≡ word_of (part_seen worths a +ℤ part_seen worths b)) }
    ensures fits { IfOk result (λ t. IsTrue (turn_fits 0 (length turns.new.items.items) t)) }
    ensures inner { IfOk result (λ t. is_outer t ≡ false) }
    ensures added { MakesTurns turns.old.items.items turns.new.items.items 2 }
    ensures args { OnOk result (turns.new.args ≡ turns.old.args) }
{
    let left = part_turn(a, turns)?;
    let right = part_turn(b, turns)?;
    Ok(TurnExpr::Add(left, right))
}

fn difference_of(a: Part, b: Part, turns: &mut Turns) -> Result<TurnExpr, NoMemory>
    requires left { PartFits (length turns.old.items.items) a }
    requires right { PartFits (length turns.old.items.items) b }
    ensures worth { (given worths : ℕ → ℤ) → AreWorths given worths turns.new.items.items → IfOk result (λ t. worth_by given worths t ≡ word_of (part_seen worths a -ℤ part_seen worths b)) }
    ensures fits { IfOk result (λ t. IsTrue (turn_fits 0 (length turns.new.items.items) t)) }
    ensures inner { IfOk result (λ t. is_outer t ≡ false) }
    ensures added { MakesTurns turns.old.items.items turns.new.items.items 2 }
    ensures args { OnOk result (turns.new.args ≡ turns.old.args) }
{
    let left = part_turn(a, turns)?;
    let right = part_turn(b, turns)?;
    Ok(TurnExpr::Sub(left, right))
}

// A product, which wraps: the lowest 64 bits of the number are enough.
fn product_of(turn: u32, number: i128) -> TurnExpr
    ensures worth { (given worths : ℕ → ℤ) → worth_by given worths result ≡ word_of (word_of (worths turn) *ℤ number) }
    ensures fits { (turns : ℕ) → turn < turns → IsTrue (turn_fits 0 turns result) }
    ensures inner { is_outer result ≡ false }
{
    congruent_numbers_combine();
    congruent_numbers_have_one_word();
    TurnExpr::Mul(turn, wrap(number, WORD))
}

// An operand of a sum as a turn.
fn part_turn(part: Part, turns: &mut Turns) -> Result<u32, NoMemory>
    requires { PartFits (length turns.old.items.items) part }
    ensures worth { (given worths : ℕ → ℤ) → AreWorths given worths turns.new.items.items → IfOk result (λ turn. worths turn ≡ part_seen worths part) }
    ensures inside { IfOk result (λ turn. turn < length turns.new.items.items) }
    ensures added { MakesTurns turns.old.items.items turns.new.items.items 1 }
    ensures args { OnOk result (turns.new.args ≡ turns.old.args) }
{
    match part {
        Part::Turn(turn) => Ok(turn),
        Part::Units(units) => turns.push(TurnExpr::Fixed(units)),
    }
}
