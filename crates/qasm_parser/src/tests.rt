//! The answers for some texts, beside those of the parser of `qasm_expr`.

use crate::parse_expr;
use indexmap::IndexSet;
use qasm_ast::{Expr, ExprId, Word};
use qasm_lexer::{MOST_BYTES, lex};
use qq_base::Fault;
use std::alloc::{AllocError, Global};
use std::test::Fail;

/// Texts, a row each. A part `«3 x»` stands for `x` three times.
const TEXTS: &str = "\
1 + 2 * x[3]
bit[4](x) ** -2
f(1, 2,) +
x[{1,2}][0:3][::2] == int(3)
) 1
\"0101\" & ~y ;
x[1:2:3
x[1:2:3:4]
x[]
x[{}]
x[{,}]
f(,)
f(1,,2)
f(1 2)
a || b && c == d < e << 2 % $3
2 ** 3 ** -4
-2 ** 2
bool(x) + bool[2](x)
int[2] x
angle [n] ( x ) ]
true != false
\"01
\"0a1\"
1.5
pi / 2 * (a + b) ]
«64 (»1«64 )»
«65 (»1«65 )»
«64 -»1
«65 -»1
«63 a[»1«63 ]»
«64 a[»1«64 ]»
«65 a[»1«65 ]»
«63 a[{»1«63 }]»
«40 a[{»1«40 }]»
«32 a[{»1«32 }]»
1«64 +1»
1«65 +1»
1«64 **1»
1«65 **1»
1«32 +1»«33 *1»
1«32 *1»«32 +1»
1«63 +1»**2
1«64 +1»**2
(1«64 +1»)«64 *1»
f(«30 f(»1«30 )», 2) - x
~«64 ~»1
x.
#
";

/// The text of a row.
fn spelled(alloc: Global, row: &str) -> Result<String, AllocError> {
    let mut text = String::new(alloc);
    for part in row.split('»') {
        match part.split_once('«') {
            None => text.push_str(part)?,
            Some((before, rest)) => {
                text.push_str(before)?;
                if let Some((count, piece)) = rest.split_once(' ') {
                    for _ in 0..count.parse::<usize>().unwrap_or(0) {
                        text.push_str(piece)?;
                    }
                }
            }
        }
    }
    Ok(text)
}

/// An answer, with the nodes and the names.
fn shown(
    alloc: Global,
    answer: Result<(ExprId, usize), Fault>,
    nodes: Vec<Expr>,
    names: IndexSet<Word>,
) -> Result<String, AllocError> {
    let words: Vec<Word> = names.into_iter().collect(alloc)?;
    let words = words.as_slice();
    let nodes = nodes.as_slice();
    match answer {
        Ok((id, behind)) => {
            let id = id.0;
            format!(in alloc; "{id} up to {behind}, {nodes:?}, {words:?}")
        }
        Err(fault) => format!(in alloc; "{fault:?}, {nodes:?}, {words:?}"),
    }
}

#[test]
fn old_and_new_answer_alike(rt: HostRuntime) -> Result<(), Fail> {
    let alloc = rt.alloc();
    let mut count = 0u32;
    for row in TEXTS.lines() {
        let text = spelled(alloc, row)?;
        let text = text.as_str();
        if text.len() <= MOST_BYTES {
            if let Ok(tokens) = lex(alloc, text.as_bytes()) {
                let tokens = tokens.as_slice();
                let mut nodes: Vec<Expr> = Vec::new(alloc);
                let mut names: IndexSet<Word> = IndexSet::new(alloc);
                let answer = parse_expr(alloc, text, tokens, 0, 0, &mut nodes, &mut names);
                let new = shown(alloc, answer, nodes, names)?;
                let mut nodes: Vec<Expr> = Vec::new(alloc);
                let mut names: IndexSet<Word> = IndexSet::new(alloc);
                let answer = qasm_expr::parse_expr(
                    alloc, text, tokens, 0, 0, &mut nodes, &mut names,
                );
                let old = shown(alloc, answer, nodes, names)?;
                assert_eq!(rt; new.as_str(), old.as_str());
                count = count.wrapping_add(1);
            }
        }
    }
    assert_eq!(rt; count, 45);
    Ok(())
}
