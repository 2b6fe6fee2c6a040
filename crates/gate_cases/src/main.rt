// Expands calls of gates: the table of the cases of `expand`. It is no part of the product.
//
// Standard input is a program, a line `====` and cases, one a line: statements, of which the last is the call of a gate, behind
// `budget N` where the budget is another than 250,000, behind `given N` where the run-time arguments of the call have another
// number of units than 1,000, and behind `alone` where they stand without the program. Each case is shown with the cost and
// the instructions, or with the rule that is broken and its place. An assigned name means the constant that it is assigned, and
// a declared variable a run-time value.
//
// It stands on `gate_flatten`, and on `qasm_lexer` and `qasm_stmt` for the programs.
#![tactic(auto)]

mod alias;
mod answers;
mod declared;
mod env;
mod serves;
mod show;

use alias::{constant, joined, whole};
use anyhow::{Context, Result, bail};
use const_eval::{const_value, is_constant};
use declared::Declared;
use env::{Named, Outer};
use gate_flatten::expand;
use qasm_ast::{ExprId, OperandName, Program, Stmt, StmtId, StmtKind, ValueRef};
use qasm_lexer::{MOST_BYTES, lex};
use qasm_stmt::parse_program;
use qq_base::Fault;
use show::{refusal, shown_expansion};
use std::alloc::Global;
use std::io;

/// The limit of costs.
const BUDGET: u64 = 250_000;

/// The units of run-time arguments.
const GIVEN: i64 = 1_000;

fn main(rt: HostRuntime) -> Result<()> {
    let alloc = rt.alloc();
    let input = io::read_to_string(alloc, rt.stdin())?;
    let (declarations, cases) = input.split_once("====\n").context("no line ====")?;
    for case in cases.lines() {
        let answer = answer(alloc, declarations, case)?;
        rt.println(format_args!("{case} => {answer}"))?;
    }
    Ok(())
}

/// A case, with what stands in front of its statements.
#[derive(Clone, Copy)]
struct Case<'a> {
    budget: u64,
    given: i64,
    /// Whether the statements stand without the declarations.
    alone: bool,
    text: &'a str,
}

/// A case as it is written.
fn read_case(line: &str) -> Result<Case<'_>> {
    let mut case = Case {
        budget: BUDGET,
        given: GIVEN,
        alone: false,
        text: line,
    };
    if let Some(rest) = case.text.strip_prefix("budget ") {
        let (number, text) = rest.split_once(" ").context("no budget")?;
        case.budget = number.parse::<u64>().ok().context("no budget")?;
        case.text = text;
    }
    if let Some(rest) = case.text.strip_prefix("given ") {
        let (number, text) = rest.split_once(" ").context("no units")?;
        case.given = number.parse::<i64>().ok().context("no units")?;
        case.text = text;
    }
    if let Some(text) = case.text.strip_prefix("alone ") {
        case.alone = true;
        case.text = text;
    }
    Ok(case)
}

/// The answer of a case.
fn answer(alloc: Global, declarations: &str, line: &str) -> Result<String> {
    let case = read_case(line)?;
    let front = if case.alone { "" } else { declarations };
    let text = format!(in alloc; "{front}{0}\n", case.text)?;
    match parsed(alloc, text.as_str()) {
        Ok(program) => worked(alloc, &program, case),
        Err(fault) => refusal(alloc, fault),
    }
}

/// The program of a text.
fn parsed(alloc: Global, text: &str) -> Result<Program, Fault> {
    if text.len() > MOST_BYTES {
        return Err(Fault::Memory);
    }
    let tokens = lex(alloc, text.as_bytes())?;
    parse_program(alloc, text, tokens.as_slice())
}

/// The expansion of the last statement of a program.
fn worked(alloc: Global, program: &Program, case: Case<'_>) -> Result<String> {
    let (last, earlier) = program.top.items.split_last().context("no call")?;
    let mut declared = Declared::new(alloc, program)?;
    for id in earlier {
        declare(alloc, program, *id, &mut declared)?;
    }
    let StmtKind::GateCall { args, operands, .. } = &statement(program, *last)?.kind else {
        bail!("the last statement is no call of a gate");
    };
    declared.add_operands(alloc, operands)?;
    for id in &args.items {
        match outer(alloc, program, *id, &declared)? {
            Ok(argument) => declared.add_outer(argument)?,
            Err(fault) => return refusal(alloc, fault),
        }
    }
    if !declared.env.serves(program, *last) || case.budget > BUDGET {
        bail!("the call is not served");
    }
    match expand(alloc, program, *last, &declared.env, case.budget) {
        Ok(expansion) => shown_expansion(alloc, &expansion, case.given),
        Err(fault) => refusal(alloc, fault),
    }
}

/// An argument of the outermost call: a constant, or else a turn.
fn outer(
    alloc: Global,
    program: &Program,
    id: ExprId,
    declared: &Declared,
) -> Result<Result<Outer, Fault>> {
    let env = &declared.env;
    if !env.serves_expr(program, id) {
        bail!("an expression of another program");
    }
    if !is_constant(program, id, env) {
        return Ok(Ok(Outer::Running));
    }
    match const_value(alloc, program, id, env, true) {
        Ok(value) => Ok(Ok(Outer::Fixed(value))),
        Err(fault) => Ok(Err(fault)),
    }
}

/// A statement of a program.
fn statement(program: &Program, id: StmtId) -> Result<&Stmt> {
    program
        .stmts
        .get(id.0 as usize)
        .context("a statement of another program")
}

/// Declares what a statement says of its name.
fn declare(alloc: Global, program: &Program, id: StmtId, declared: &mut Declared) -> Result<()> {
    let stmt = statement(program, id)?;
    match &stmt.kind {
        StmtKind::Include => declared.include(program),
        StmtKind::Variable(_, name, _) => declared.declare(name.name, Named::Running),
        StmtKind::Qubit(ty, name) => {
            let width = match ty.width {
                None => None,
                Some(width) => Some(whole(alloc, program, width, declared)?),
            };
            declared.declare_qubits(alloc, name.name, width)?;
        }
        StmtKind::Let(name, operands) => {
            let ids = joined(alloc, program, operands, declared)?;
            declared.declare(name.name, Named::Qubits { ids, single: false });
        }
        StmtKind::Gate { name, .. } => declared.define(name.name, id, Named::Gate(id)),
        StmtKind::Def { name, .. } => declared.define(name.name, id, Named::Subroutine(id)),
        _ => {
            let (name, expr) = assigned(stmt).context("a statement of another kind")?;
            let value = constant(alloc, program, expr, declared)?;
            declared.declare(name, Named::Held(value));
        }
    }
    Ok(())
}

/// The name that a statement assigns, and the expression.
fn assigned(stmt: &Stmt) -> Option<(u32, ExprId)> {
    let StmtKind::Assign(target, None, ValueRef::Expr(expr)) = &stmt.kind else {
        return None;
    };
    match target.name {
        OperandName::Name(name) => Some((name, *expr)),
        OperandName::Hardware(_) => None,
    }
}
