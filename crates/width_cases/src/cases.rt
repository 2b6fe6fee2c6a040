// The cases of one operator, or of the casts to one type.

use crate::library::{self, Expression, cast_answer};
use crate::names::Names;
use crate::plain::{self, binary_constant, cast_constant, unary_constant};
use crate::report::{Case, Report, What};
use crate::symbols::{binary_op, unary_op};
use crate::typed::Typed;
use anyhow::{Context, Result};
use qasm_ast::{BinaryOp, UnaryOp};
use qasm_types::Ty;
use std::alloc::Global;

/// All operands beside all with an operator.
pub fn binary_cases(alloc: Global, symbol: &str, operands: &[Typed]) -> Result<Report> {
    let op = binary_op(symbol).context("no operator")?;
    let expression = Expression::binary(alloc, op)?;
    let mut report = Report::new(alloc);
    for left in operands {
        for right in operands {
            let case = Case::of_two(symbol, *left, *right);
            binary_row(&mut report, case, op)?;
            binary_constants(alloc, &mut report, case, op, &expression)?;
        }
    }
    Ok(report)
}

// The row of an operator, and its value on words.
fn binary_row(report: &mut Report, case: Case<'_>, op: BinaryOp) -> Result<()> {
    let left = case.left;
    let right = case.right;
    let plain = plain::result_type(op, left, right);
    report.compare(
        What::Row,
        case,
        plain,
        library::result_type(op, left, right),
    )?;
    if let Some(word) = library::word_result(op, left, right) {
        report.compare(What::Word, case, plain::result(op, left, right), Some(word))?;
    }
    Ok(())
}

// An operator on two constants, and a division once more where it must leave no rest.
fn binary_constants(
    alloc: Global,
    report: &mut Report,
    case: Case<'_>,
    op: BinaryOp,
    expression: &Expression,
) -> Result<()> {
    let Some(names) = Names::new(alloc, case.left, case.right)? else {
        return Ok(());
    };
    for exact in [false, true] {
        if !exact || op == BinaryOp::Divide {
            let plain = binary_constant(op, case.left, case.right, exact);
            let answer = expression.answer(alloc, &names, exact)?;
            report.compare(What::Constant, case, plain, answer)?;
        }
    }
    Ok(())
}

/// All operands with an operator on one.
pub fn unary_cases(alloc: Global, symbol: &str, operands: &[Typed]) -> Result<Report> {
    let op = unary_op(symbol).context("no operator")?;
    let expression = Expression::unary(alloc, op)?;
    let mut report = Report::new(alloc);
    for arg in operands {
        let case = Case::of_one(symbol, *arg);
        unary_row(&mut report, case, op)?;
        if let Some(names) = Names::new(alloc, *arg, *arg)? {
            let plain = unary_constant(op, *arg);
            let answer = expression.answer(alloc, &names, false)?;
            report.compare(What::Constant, case, plain, answer)?;
        }
    }
    Ok(report)
}

// The row of an operator on one operand, and its value on a word.
fn unary_row(report: &mut Report, case: Case<'_>, op: UnaryOp) -> Result<()> {
    let arg = case.left;
    report.compare(
        What::Row,
        case,
        plain::unary_type(op, arg),
        library::unary_type(op, arg),
    )?;
    if let Some(word) = library::unary_word(op, arg) {
        report.compare(What::Word, case, plain::unary_result(op, arg), Some(word))?;
    }
    Ok(())
}

/// The casts of all operands to a type.
pub fn cast_cases(alloc: Global, to: Ty, name: &str, operands: &[Typed]) -> Result<Report> {
    let expression = Expression::cast(alloc, to)?;
    let mut report = Report::new(alloc);
    for from in operands {
        let case = Case::of_one(name, *from);
        cast_row(&mut report, case, to)?;
        if let Some(answer) = cast_answer(alloc, *from, to)? {
            report.compare(What::Constant, case, cast_constant(*from, to), answer)?;
        }
        if let Some(expression) = &expression {
            written_cast(alloc, &mut report, case, to, expression)?;
        }
    }
    Ok(report)
}

// The row of a cast, and its value where that is a word.
fn cast_row(report: &mut Report, case: Case<'_>, to: Ty) -> Result<()> {
    let from = case.left;
    report.compare(
        What::Row,
        case,
        plain::has_cast(from, to),
        library::has_cast(from, to),
    )?;
    if let Some(word) = library::word_cast(from, to) {
        report.compare(What::Word, case, plain::cast(from, to), Some(word))?;
    }
    Ok(())
}

// The cast of a constant as it is written in an expression.
fn written_cast(
    alloc: Global,
    report: &mut Report,
    case: Case<'_>,
    to: Ty,
    expression: &Expression,
) -> Result<()> {
    if let Some(names) = Names::new(alloc, case.left, case.left)? {
        let answer = expression.answer(alloc, &names, false)?;
        report.compare(What::Constant, case, cast_constant(case.left, to), answer)?;
    }
    Ok(())
}
