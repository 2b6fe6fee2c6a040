//! Texts with their tokens or refusals, worked out by hand from the table of spellings.

use crate::{
    MOST_BYTES, QirToken, TextFault, TextRefusal, TextRule, end_of, next_token, qir_tokens,
};
use qq_base::Span;
use std::alloc::{AllocError, Global};
use std::test::Fail;

/// Each kind of token with its bytes and place. `\n` stands for the end of a line.
const TOKENS: &str = "\
; only a comment => 
 \t ; i64 => 
define _a9.b => Word@1:1 0-6, Word@1:8 7-12
0 42 -7 => Number(0)@1:1 0-1, Number(42)@1:3 2-4, Number(-7)@1:6 5-7
5-3 => Number(5)@1:1 0-1, Number(-3)@1:2 1-3
9223372036854775807 -9223372036854775808 => Number(9223372036854775807)@1:1 0-19, Number(-9223372036854775808)@1:21 20-40
%r0 %b7 b4294967295: => Register(0)@1:1 0-3, Target(7)@1:5 4-7, Block(4294967295)@1:9 8-20
@0 #1 !2 => Constant(0)@1:1 0-2, Group(1)@1:4 3-5, Flag(2)@1:7 6-8
@main !llvm.module.flags => Named@1:1 0-5, FlagName@1:7 6-24
\"a\\0aB\" c\"\" !\"x\" => Text@1:1 0-7, Bytes@1:9 8-11, FlagText@1:13 12-16
!{} => Mark(33)@1:1 0-1, Mark(123)@1:2 1-2, Mark(125)@1:3 2-3
=(),[] => Mark(61)@1:1 0-1, Mark(40)@1:2 1-2, Mark(41)@1:3 2-3, Mark(44)@1:4 3-4, Mark(91)@1:5 4-5, Mark(93)@1:6 5-6
b5 c b5.x => Word@1:1 0-2, Word@1:4 3-4, Word@1:6 5-9
5x%r1y => Number(5)@1:1 0-1, Word@1:2 1-2, Register(1)@1:3 2-5, Word@1:6 5-6
x;y\\nz ;\\n\\n w => Word@1:1 0-1, Word@2:1 4-5, Word@4:2 10-11";

/// Refusals with their places.
const REFUSED: &str = "\
define ? => 2 BadCharacter 1:8
x\\n - 5 => 2 BadCharacter 2:2
%x => 2 BadCharacter 1:1
%r => 2 BadCharacter 1:1
@ => 2 BadCharacter 1:1
# => 2 BadCharacter 1:1
b5.: => 2 BadCharacter 1:4
\"a => 3 OpenString 1:1
\"a\\nb\" => 3 OpenString 1:1
c\"\\0g\" => 3 OpenString 1:2
!\"\\4\" => 3 OpenString 1:2
-0 => 4 NumberForm 1:1
00 => 4 NumberForm 1:1
x -01 => 4 NumberForm 1:3
9223372036854775808 => 4 NumberForm 1:1
-9223372036854775809 => 4 NumberForm 1:1
99999999999999999999999 => 4 NumberForm 1:1
%r4294967296 => 4 NumberForm 1:1
b01: => 4 NumberForm 1:1
!00 => 4 NumberForm 1:1
? -0 => 2 BadCharacter 1:1";

/// A refusal by its number, name and place.
fn refusal(alloc: Global, refusal: TextRefusal) -> Result<String, AllocError> {
    let number = refusal.rule.number();
    let name = refusal.rule.name();
    let line = refusal.at.line;
    let column = refusal.at.column;
    format!(in alloc; "{number} {name} {line}:{column}")
}

/// A token by its kind, place and bytes.
fn shown(alloc: Global, token: QirToken) -> Result<String, AllocError> {
    let kind = token.kind;
    let line = token.at.line;
    let column = token.at.column;
    let start = token.start;
    let end = token.end;
    format!(in alloc; "{kind:?}@{line}:{column} {start}-{end}")
}

/// The tokens of a text, or its refusal.
fn answer(alloc: Global, text: &str) -> Result<String, AllocError> {
    if text.len() > MOST_BYTES {
        return Ok(String::new(alloc));
    }
    let mut line = String::new(alloc);
    match qir_tokens(alloc, text.as_bytes()) {
        Ok(tokens) => {
            for token in &tokens {
                if !line.is_empty() {
                    line.push_str(", ")?;
                }
                line.push_str(shown(alloc, *token)?.as_str())?;
            }
        }
        Err(TextFault::Refused(found)) => line.push_str(refusal(alloc, found)?.as_str())?,
        Err(TextFault::Memory) => line.push_str("memory")?,
    }
    Ok(line)
}

/// The first row of a table that is read otherwise, or nothing.
fn other_row(alloc: Global, table: &str) -> Result<String, AllocError> {
    for row in table.lines() {
        let Some((text, want)) = row.split_once(" => ") else {
            return format!(in alloc; "no row: {row}");
        };
        let text = text.replace(alloc, "\\n", "\n")?;
        let found = answer(alloc, text.as_str())?;
        if found.as_str() != want {
            return format!(in alloc; "{row}, but {found}");
        }
    }
    Ok(String::new(alloc))
}

#[test]
fn reads_every_kind(rt: HostRuntime) -> Result<(), Fail> {
    assert_eq!(rt; other_row(rt.alloc(), TOKENS)?.as_str(), "");
    Ok(())
}

#[test]
fn refuses_at_its_place(rt: HostRuntime) -> Result<(), Fail> {
    assert_eq!(rt; other_row(rt.alloc(), REFUSED)?.as_str(), "");
    Ok(())
}

#[test]
fn finds_one_token(rt: HostRuntime) -> Result<(), Fail> {
    let text = b"; a\n  ret ";
    let start = Span { line: 1, column: 1 };
    let found = match next_token(text, 0, start) {
        Ok(Some(token)) => shown(rt.alloc(), token)?,
        _ => String::new(rt.alloc()),
    };
    assert_eq!(rt; found.as_str(), "Word@2:3 6-9");
    let behind = Span { line: 2, column: 6 };
    assert_eq!(rt; next_token(text, 9, behind), Ok(None));
    assert_eq!(rt; end_of(text), Span { line: 2, column: 7 });
    assert_eq!(rt; TextRule::TooLong.number(), 1);
    Ok(())
}
