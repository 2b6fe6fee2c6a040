// Compares the tables of operators and casts with a plain reading of them, at all types of at most four bits and all their
// values. It is no part of the product.
//
// Standard input is a line of operators on two operands, a line of operators on one, and the operands: in each line a type,
// and the least and the greatest number of it that are taken (of `pi/4` the parts of pi whose denominator is 4). Each operator
// is asked at all operands, and each cast from all operands to all types. Compared are
//
// - the rows: which operands have the operator or cast, and of what type the result is, as `qasm_types` answers;
// - the words: what the calls of `word_arith` give, where the operands are taken as words;
// - the constants: what `const_eval` answers, where the operands are constants, the rule that is broken and its place included.
//
// A line of the output has the numbers of the cases of one operator or of the casts to one type, behind a line for each case in
// which the two differ; there is none.
//
// `plain` is the reading: it goes by the types of the operands, and computes on whole numbers by doubling, halving and counting.
// `library` asks the crates.
#![tactic(auto)]

mod cases;
mod library;
mod names;
mod plain;
mod report;
mod symbols;
mod typed;

use anyhow::{Context, Result};
use cases::{binary_cases, cast_cases, unary_cases};
use std::io;
use typed::{operands, type_of};

fn main(rt: HostRuntime) -> Result<()> {
    let alloc = rt.alloc();
    let input = io::read_to_string(alloc, rt.stdin())?;
    let (binary, rest) = input.split_once('\n').context("no operators")?;
    let (unary, lines) = rest
        .split_once('\n')
        .context("no operators on one operand")?;
    let operands = operands(alloc, lines)?;
    for symbol in binary.split(' ') {
        binary_cases(alloc, symbol, &operands)?.tell(&rt, symbol)?;
    }
    for symbol in unary.split(' ') {
        unary_cases(alloc, symbol, &operands)?.tell(&rt, symbol)?;
    }
    for line in lines.lines() {
        if let Some((name, to)) = type_of(line) {
            cast_cases(alloc, to, name, &operands)?.tell(&rt, name)?;
        }
    }
    Ok(())
}
