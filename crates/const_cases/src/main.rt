// Works constant expressions: the table of the cases of `const_value` and `is_constant`, and a way to time them. It is no part
// of the product.
//
// Standard input is a program, a line `====` and cases, one a line: an expression, behind the word `exact` where a division of
// whole constants must leave no remainder, or behind the word `constant` where it is asked whether the expression is constant.
// Each case is shown with its constant, or with the rule that it breaks and the column. The names of the program mean this in
// the cases: an assigned one the constant that it is assigned, a declared variable a run-time value, and any other that is
// declared some other thing; `pi` and `tau` are predefined.
//
// It stands on `const_eval`, and on `qasm_lexer` and `qasm_stmt` for the expressions.
#![tactic(auto)]

mod names;

use anyhow::{Context, Result, bail};
use const_eval::{Const, const_value, is_constant};
use names::{Named, Names};
use qasm_ast::{ExprId, OperandName, Program, Stmt, StmtId, StmtKind, ValueRef};
use qasm_lexer::{MOST_BYTES, lex};
use qasm_stmt::parse_program;
use qq_base::Fault;
use std::alloc::Global;
use std::io;

fn main(rt: HostRuntime) -> Result<()> {
    let alloc = rt.alloc();
    let input = io::read_to_string(alloc, rt.stdin())?;
    let (declarations, cases) = input.split_once("====\n").context("no line ====")?;
    for case in cases.lines() {
        let answer = answer(alloc, declarations, case)?;
        rt.println(format_args!("{case}: {answer}"))?;
    }
    Ok(())
}

/// What is asked of an expression.
#[derive(Clone, Copy)]
enum Question {
    Value { exact: bool },
    Constancy,
}

/// The question of a case, and its expression.
fn asked(case: &str) -> (Question, &str) {
    if let Some(expr) = case.strip_prefix("exact ") {
        return (Question::Value { exact: true }, expr);
    }
    if let Some(expr) = case.strip_prefix("constant ") {
        return (Question::Constancy, expr);
    }
    (Question::Value { exact: false }, case)
}

/// The answer of a case.
fn answer(alloc: Global, declarations: &str, case: &str) -> Result<String> {
    let (question, expr) = asked(case);
    let text = format!(in alloc; "{declarations}x =\n{expr}\n;\n")?;
    match parsed(alloc, text.as_str()) {
        Ok(program) => worked(alloc, &program, question),
        Err(fault) => refusal(alloc, fault),
    }
}

/// The answer to a question of the last expression of a program.
fn worked(alloc: Global, program: &Program, question: Question) -> Result<String> {
    let (last, earlier) = program.top.items.split_last().context("no case")?;
    let mut names = Names::new(alloc, program)?;
    for id in earlier {
        declare(alloc, program, *id, &mut names)?;
    }
    let last = statement(program, *last)?;
    let (_, expr) = assigned(last).context("the case is no expression")?;
    shown(alloc, program, expr, &names, question)
}

/// The program of a text.
fn parsed(alloc: Global, text: &str) -> Result<Program, Fault> {
    if text.len() > MOST_BYTES {
        return Err(Fault::Memory);
    }
    let tokens = lex(alloc, text.as_bytes())?;
    parse_program(alloc, text, tokens.as_slice())
}

/// A statement of a program.
fn statement(program: &Program, id: StmtId) -> Result<&Stmt> {
    program
        .stmts
        .get(id.0 as usize)
        .context("a statement of another program")
}

/// Declares what a statement says of its name.
fn declare(alloc: Global, program: &Program, id: StmtId, names: &mut Names) -> Result<()> {
    let stmt = statement(program, id)?;
    match &stmt.kind {
        StmtKind::Variable(_, declared, _) => names.declare(declared.name, Named::Running),
        StmtKind::Qubit(_, declared) | StmtKind::Gate { name: declared, .. } => {
            names.declare(declared.name, Named::Other)
        }
        _ => {
            let (name, expr) = assigned(stmt).context("a statement of another kind")?;
            if !names.serve(program, expr) {
                bail!("an expression of another program");
            }
            match const_value(alloc, program, expr, names, false) {
                Ok(value) => names.declare(name, Named::Held(value)),
                Err(_) => bail!("no constant"),
            }
        }
    }
    Ok(())
}

/// The name that a statement assigns, and the expression.
fn assigned(stmt: &Stmt) -> Option<(u32, ExprId)> {
    let StmtKind::Assign(target, None, ValueRef::Expr(expr)) = &stmt.kind else {
        return None;
    };
    match target.name {
        OperandName::Name(name) => Some((name, *expr)),
        OperandName::Hardware(_) => None,
    }
}

/// The answer to a question.
fn shown(
    alloc: Global,
    program: &Program,
    expr: ExprId,
    names: &Names,
    question: Question,
) -> Result<String> {
    if !names.serve(program, expr) {
        bail!("an expression of another program");
    }
    let exact = match question {
        Question::Value { exact } => exact,
        Question::Constancy => {
            let word = if is_constant(program, expr, names) {
                "yes"
            } else {
                "no"
            };
            return Ok(String::from_str(alloc, word)?);
        }
    };
    match const_value(alloc, program, expr, names, exact) {
        Ok(value) => shown_constant(alloc, &value),
        Err(fault) => refusal(alloc, fault),
    }
}

/// A constant.
fn shown_constant(alloc: Global, value: &Const) -> Result<String> {
    match value {
        Const::Whole(whole) => {
            let number = whole.number;
            Ok(format!(in alloc; "{number}")?)
        }
        Const::Pi(part) => {
            let num = part.num();
            let den = part.den();
            Ok(format!(in alloc; "pi {num}/{den}")?)
        }
        Const::Bool(truth) => Ok(format!(in alloc; "{truth}")?),
        Const::Bits(bits) => {
            let mut text = String::from_str(alloc, "\"")?;
            for bit in &bits.text.items {
                text.push(if *bit { '1' } else { '0' })?;
            }
            text.push('"')?;
            Ok(text)
        }
        Const::Angle(angle) => {
            let width = angle.width;
            let count = angle.count;
            Ok(format!(in alloc; "angle[{width}] {count}")?)
        }
    }
}

/// A refusal, with its column.
fn refusal(alloc: Global, fault: Fault) -> Result<String> {
    match fault {
        Fault::Refused(refusal) => {
            let number = refusal.rule.number();
            let name = refusal.rule.name();
            let column = refusal.at.column;
            Ok(format!(in alloc; "Q{number} {name} at {column}")?)
        }
        Fault::Memory => bail!("no memory"),
    }
}
