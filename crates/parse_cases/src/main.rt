// Reads texts of OpenQASM and shows their trees or their refusals: the table of the cases of `parse_expr` and
// `parse_program`. It is no part of the product.
//
// Standard input has a case a line, and lines that begin with `#`, which say what the cases behind them show. Each line of
// `stdout` is such a line, or a case and what is answered: of a text that is refused the rule and the place. A case is one of
// these:
//
// - `expression TEXT`: the tree of the expression that begins the text, each node with its place, and how many tokens it takes.
// - `from LEVEL TEXT`: how many tokens the expression takes, where so many levels are open.
// - `program TEXT`: the depth of the program, and its statements. Here an expression stands without its places.
// - `depth TEXT`: the depth alone.
// - `names TEXT`: the place of the end of the program, and its names in their order.
//
// In a text `«3 x»` stands for `x` three times, `\n` and `\r` for the two bytes that end lines, and `\t` for a tab.
//
// It stands on `qasm_expr` and `qasm_stmt`, and on `qasm_lexer` for the tokens.
#![tactic(auto)]

mod exprs;
mod stmts;

use anyhow::{Context, Result, bail};
use exprs::Trees;
use indexmap::IndexSet;
use qasm_ast::{Expr, ExprId, Program, Word};
use qasm_expr::{LEVELS, parse_expr};
use qasm_lexer::{MOST_BYTES, lex};
use qasm_stmt::parse_program;
use qq_base::Fault;
use std::alloc::{AllocError, Global};
use std::io;
use stmts::shown_program;

fn main(rt: HostRuntime) -> Result<()> {
    let alloc = rt.alloc();
    let input = io::read_to_string(alloc, rt.stdin())?;
    for line in input.lines() {
        if line.starts_with('#') {
            rt.println(format_args!("{line}"))?;
        } else {
            let answer = answer(alloc, line)?;
            rt.println(format_args!("{line} => {answer}"))?;
        }
    }
    Ok(())
}

/// The answer of a case.
fn answer(alloc: Global, case: &str) -> Result<String> {
    let (question, text) = case.split_once(' ').context("a case without a text")?;
    let text = spelled(alloc, text)?;
    match question {
        "expression" => expression(alloc, &text),
        "from" => {
            let (level, text) = text.split_once(' ').context("a case without a level")?;
            let level = level.parse::<u32>().context("the level is no number")?;
            taken(alloc, text, level)
        }
        "program" => program(alloc, &text, Shown::Statements),
        "depth" => program(alloc, &text, Shown::Depth),
        "names" => program(alloc, &text, Shown::Names),
        _ => bail!("a case of no kind"),
    }
}

/// A refusal, with its rule and place.
fn refusal(alloc: Global, fault: Fault) -> Result<String> {
    match fault {
        Fault::Refused(refusal) => {
            let number = refusal.rule.number();
            let row = refusal.at.line;
            let column = refusal.at.column;
            Ok(format!(in alloc; "Q{number} {row}:{column}")?)
        }
        Fault::Memory => bail!("no memory"),
    }
}

/// A part of a text that ends in a piece: what stands in front, how many times the piece stands, and the piece.
fn repeated<'x>(part: &'x str) -> Option<(&'x str, usize, &'x str)> {
    let (before, rest) = part.split_once('«')?;
    let (count, piece) = rest.split_once(' ')?;
    match count.parse::<usize>() {
        Ok(count) => Some((before, count, piece)),
        Err(_) => None,
    }
}

/// The text that a case spells.
fn spelled(alloc: Global, text: &str) -> Result<String, AllocError> {
    let text = text.replace(alloc, "\\n", "\n")?;
    let text = text.replace(alloc, "\\r", "\r")?;
    let text = text.replace(alloc, "\\t", "\t")?;
    let mut whole = String::new(alloc);
    for part in text.split('»') {
        match repeated(part) {
            Some((before, count, piece)) => {
                whole.push_str(before)?;
                whole.push_str(piece.repeat(alloc, count)?.as_str())?;
            }
            None => whole.push_str(part)?,
        }
    }
    Ok(whole)
}

/// The expression that begins a text where so many levels are open, and the number of its tokens.
fn parsed_expr(
    alloc: Global,
    text: &str,
    level: u32,
    nodes: &mut Vec<Expr>,
    names: &mut IndexSet<Word>,
) -> Result<(ExprId, usize), Fault> {
    nodes.clear();
    names.clear();
    if text.len() > MOST_BYTES || level > LEVELS {
        return Err(Fault::Memory);
    }
    let tokens = lex(alloc, text.as_bytes())?;
    parse_expr(alloc, text, tokens.as_slice(), 0, level, nodes, names)
}

/// The tree of the expression that begins a text, and how many tokens it takes.
fn expression(alloc: Global, text: &str) -> Result<String> {
    let mut nodes = Vec::new(alloc);
    let mut names = IndexSet::new(alloc);
    match parsed_expr(alloc, text, 0, &mut nodes, &mut names) {
        Ok((id, taken)) => {
            let mut trees = Trees::new(alloc, true);
            for name in names.iter() {
                trees.add_name(name)?;
            }
            trees.add_exprs(&nodes)?;
            let tree = trees.expr(id);
            Ok(format!(in alloc; "{tree} {taken}")?)
        }
        Err(fault) => refusal(alloc, fault),
    }
}

/// How many tokens the expression that begins a text takes.
fn taken(alloc: Global, text: &str, level: u32) -> Result<String> {
    let mut nodes = Vec::new(alloc);
    let mut names = IndexSet::new(alloc);
    match parsed_expr(alloc, text, level, &mut nodes, &mut names) {
        Ok((_, taken)) => Ok(format!(in alloc; "takes {taken}")?),
        Err(fault) => refusal(alloc, fault),
    }
}

/// The program of a text.
fn parsed(alloc: Global, text: &str) -> Result<Program, Fault> {
    if text.len() > MOST_BYTES {
        return Err(Fault::Memory);
    }
    let tokens = lex(alloc, text.as_bytes())?;
    parse_program(alloc, text, tokens.as_slice())
}

/// What of a program is shown.
#[derive(Clone, Copy)]
enum Shown {
    Statements,
    Depth,
    Names,
}

/// What is shown of the program of a text.
fn program(alloc: Global, text: &str, shown: Shown) -> Result<String> {
    let program = match parsed(alloc, text) {
        Ok(program) => program,
        Err(fault) => return refusal(alloc, fault),
    };
    let depth = program.depth();
    match shown {
        Shown::Statements => {
            let statements = shown_program(alloc, &program)?;
            Ok(format!(in alloc; "depth {depth}{statements}")?)
        }
        Shown::Depth => Ok(format!(in alloc; "depth {depth}")?),
        Shown::Names => end_and_names(alloc, &program),
    }
}

/// The place of the end of a program, and its names.
fn end_and_names(alloc: Global, program: &Program) -> Result<String> {
    let mut line = format!(in alloc; "{}:{}", program.end.line, program.end.column)?;
    for name in &program.names {
        let name = str::from_utf8(name.items.as_slice())
            .ok()
            .context("a name that is no text")?;
        write!(line, " {name}")?;
    }
    Ok(line)
}
