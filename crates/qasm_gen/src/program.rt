//! The program and the outcomes of a seed.
ghost use Rattle.std.specs.Prelude.{◌≡◌, ◌<◌, ◌*◌, IfOk, OnOk};
ghost use Rattle.qasm_gen.specs.Generated.{behind, drawn, drawn_line, generated_outcomes, generated_text, line_of, outcomes_from};

use crate::draws::Draws;
use qq_base::NoMemory;
use std::alloc::{AllocError, Global};

/// What stands in front of the lines.
const HEAD: &str = "OPENQASM 3.0;\ninclude \"stdgates.inc\";\nqubit[8] q;\nbit[8] c;\nint n = 0;\n";

/// A source program, as the bytes of its text, and outcomes for its measurements.
#[derive(Debug, Drop)]
pub struct Generated {
    pub text: Vec<u8>,
    pub outcomes: Vec<bool>,
}

/// The program of so many lines that a seed gives, and as many outcomes. Equal seeds and sizes give equal programs.
pub fn generate(alloc: Global, seed: u32, size: u32) -> Result<Generated, NoMemory>
    ensures text { IfOk result (λ g. g.text.items ≡ generated_text seed size) }
    ensures outcomes { IfOk result (λ g. g.outcomes.items ≡ generated_outcomes seed size) }
{
    let mut draws = Draws {
        state: u64::from(seed),
    };
    let text = text_of(alloc, &mut draws, size)?;
    let outcomes = outcomes(alloc, &mut draws, size)?;
    Ok(Generated { text, outcomes })
}

/// The head and so many lines.
fn text_of(alloc: Global, draws: &mut Draws, size: u32) -> Result<Vec<u8>, NoMemory>
    ensures text { IfOk result (λ t. t.items ≡ generated_text draws.old.state size) }
    ensures state { OnOk result (draws.new.state ≡ behind (3 * size) draws.old.state) }
{
    let mut text = Vec::new(alloc);
    text.extend_from_slice(HEAD.as_bytes())?;
    for _ in 0..size {
        let line = next_line(alloc, draws)?;
        text.extend_from_slice(line.as_bytes())?;
    }
    Ok(text)
}

/// The line of the next three draws.
fn next_line(alloc: Global, draws: &mut Draws) -> Result<String, NoMemory>
    ensures line { IfOk result (λ t. t.bytes.items ≡ drawn_line (drawn (behind 1 draws.old.state)) (drawn (behind 2 draws.old.state)) (drawn (behind 3 draws.old.state))) }
    ensures state { OnOk result (draws.new.state ≡ behind 3 draws.old.state) }
{
    let kind = draws.draw() % 8;
    let a = draws.draw() % 8;
    let b = (a + 1 + draws.draw() % 7) % 8;
    Ok(line(alloc, kind, a, b)?)
}

/// The line of a kind, with two numbers.
fn line(alloc: Global, kind: u32, a: u32, b: u32) -> Result<String, AllocError>
    requires kind { kind < 8 }
    requires shift { b < 8 }
    ensures line { IfOk result (λ t. t.bytes.items ≡ line_of kind a b) }
{
    match kind {
        0 => format!(in alloc; "h q[{a}];\n"),
        1 => format!(in alloc; "cx q[{a}], q[{b}];\n"),
        2 => {
            let part = 1u32 << b;
            format!(in alloc; "rz(pi/{part}) q[{a}];\n")
        }
        3 => format!(in alloc; "c[{a}] = measure q[{b}];\n"),
        4 => format!(in alloc; "if (c[{a}]) {{ x q[{b}]; n += 1; }}\n"),
        5 => format!(in alloc; "while (n < {b}) {{ n += 1; if (c[{a}]) break; }}\n"),
        6 => format!(in alloc; "for int i in [0:6] cx q[i], q[i+1];\n"),
        _ => format!(in alloc;
            "if (n > {b}) {{ n = n - {a}; reset q[{a}]; }} else {{ n += {b}; }}\n"
        ),
    }
}

/// So many outcomes.
fn outcomes(alloc: Global, draws: &mut Draws, size: u32) -> Result<Vec<bool>, NoMemory>
    ensures outcomes { IfOk result (λ v. v.items ≡ outcomes_from size draws.old.state) }
{
    let mut outcomes = Vec::new(alloc);
    for _ in 0..size {
        outcomes.push(draws.draw() % 2 == 1)?;
    }
    Ok(outcomes)
}
