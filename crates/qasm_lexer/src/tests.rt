//! Texts with their tokens, worked out by hand from the table of spellings.

use crate::{end_of, lex};
use qq_base::Fault;
use std::alloc::{AllocError, Global};
use std::test::Fail;

/// The tokens of a text with their bytes and places, or its refusal.
fn shown(alloc: Global, bytes: &[u8]) -> Result<String, AllocError> {
    let mut line = String::new(alloc);
    if bytes.len() > crate::MOST_BYTES {
        return Ok(line);
    }
    match lex(alloc, bytes) {
        Ok(tokens) => {
            for token in &tokens {
                let kind = token.kind;
                let start = token.start;
                let end = token.end;
                let at = token.at;
                let row = at.line;
                let column = at.column;
                write!(line, "{start}-{end} {row}:{column} {kind:?}; ")?;
            }
        }
        Err(Fault::Refused(refusal)) => {
            let number = refusal.rule.number();
            let row = refusal.at.line;
            let column = refusal.at.column;
            write!(line, "Q{number} {row}:{column}")?;
        }
        Err(Fault::Memory) => line.push_str("memory")?,
    }
    Ok(line)
}

#[test]
fn reads_every_kind(rt: HostRuntime) -> Result<(), Fail> {
    let table = [
        ("", ""),
        (" \t\r\n", ""),
        ("π1", "0-3 1:1 Name; "),
        ("_a9 int", "0-3 1:1 Name; 4-7 1:5 Word(Int); "),
        ("ℇ", "0-3 1:1 Word(EulerSign); "),
        ("1_000", "0-5 1:1 Whole(1000); "),
        ("0b101 0B1_1", "0-5 1:1 Whole(5); 6-11 1:7 Whole(3); "),
        (
            "0o17 0xfF 0X1_0",
            "0-4 1:1 Whole(15); 5-9 1:6 Whole(255); 10-15 1:11 Whole(16); ",
        ),
        ("0O7", "0-1 1:1 Whole(0); 1-3 1:2 Name; "),
        ("0b2", "0-1 1:1 Whole(0); 1-3 1:2 Name; "),
        ("1_", "0-1 1:1 Whole(1); 1-2 1:2 Name; "),
        ("1__0", "0-1 1:1 Whole(1); 1-4 1:2 Name; "),
        (
            "1e+",
            "0-1 1:1 Whole(1); 1-2 1:2 Name; 2-3 1:3 Mark(Plus); ",
        ),
        ("2x", "0-1 1:1 Whole(2); 1-2 1:2 Name; "),
        ("0x1_g", "0-3 1:1 Whole(1); 3-5 1:4 Name; "),
        (
            "18446744073709551615",
            "0-20 1:1 Whole(18446744073709551615); ",
        ),
        (
            "$0 $4294967295",
            "0-2 1:1 Hardware(0); 3-14 1:4 Hardware(4294967295); ",
        ),
        ("$1_0", "0-2 1:1 Hardware(1); 2-4 1:3 Name; "),
        ("\"a'b\" 'a\"b'", "0-5 1:1 Text; 6-11 1:7 Text; "),
        ("\"é\" x", "0-4 1:1 Text; 5-6 1:5 Name; "),
        (
            "OPENQASM 3.0",
            "0-8 1:1 Word(OpenQasm); 9-12 1:10 Version { major: 3, minor: Some(0) }; ",
        ),
        (
            "OPENQASM 3;",
            "0-8 1:1 Word(OpenQasm); 9-10 1:10 Version { major: 3, minor: None }; 10-11 1:11 Mark(Semicolon); ",
        ),
        (
            "OPENQASM /**/ 03.00 3",
            "0-8 1:1 Word(OpenQasm); 14-19 1:15 Version { major: 3, minor: Some(0) }; 20-21 1:21 Whole(3); ",
        ),
        (
            "OPENQASM 3_0 0x3",
            "0-8 1:1 Word(OpenQasm); 9-12 1:10 Whole(30); 13-16 1:14 Whole(3); ",
        ),
        (
            "OPENQASM 0x3",
            "0-8 1:1 Word(OpenQasm); 9-12 1:10 Whole(3); ",
        ),
        (
            "a>>=b",
            "0-1 1:1 Name; 1-4 1:2 Mark(ShiftRightAssign); 4-5 1:5 Name; ",
        ),
        (
            "***= ->-",
            "0-2 1:1 Mark(StarStar); 2-4 1:3 Mark(StarAssign); 5-7 1:6 Mark(Arrow); 7-8 1:8 Mark(Minus); ",
        ),
        ("+++=", "0-2 1:1 Mark(PlusPlus); 2-4 1:3 Mark(PlusAssign); "),
        (
            "a//b\rc//d\ne",
            "0-1 1:1 Name; 5-6 1:6 Name; 10-11 2:1 Name; ",
        ),
        (
            "a/*\r\n*/b/**/c",
            "0-1 1:1 Name; 7-8 2:3 Name; 12-13 2:8 Name; ",
        ),
        ("/*/*/x", "5-6 1:6 Name; "),
        ("a\r\nb", "0-1 1:1 Name; 3-4 2:1 Name; "),
        ("//é\n/*é*/x", "11-12 2:6 Name; "),
    ];
    for (text, want) in table {
        assert_eq!(rt; shown(rt.alloc(), text.as_bytes())?.as_str(), want);
    }
    Ok(())
}

#[test]
fn refuses_at_its_place(rt: HostRuntime) -> Result<(), Fail> {
    let table: [(&[u8], &str); 28] = [
        (b"\xff", "Q2 1:1"),
        (b"a\n\xcf\x80 \xe2\x84", "Q2 2:3"),
        (b"? \xff", "Q2 1:3"),
        (b"a ?", "Q3 1:3"),
        (b"\n\xcf\x80 `", "Q3 2:3"),
        (b"$", "Q3 1:1"),
        (b".", "Q3 1:1"),
        (b".e5", "Q3 1:1"),
        (b"\xc2\xa0", "Q3 1:1"),
        (b"int x = 1; /* a", "Q4 1:12"),
        (b"/*/", "Q4 1:1"),
        (b"\"a\n\"", "Q5 1:1"),
        (b"x 'a\r'", "Q5 1:3"),
        (b"\"a'", "Q5 1:1"),
        (b"18446744073709551616", "Q6 1:1"),
        (b" 0x1_0000_0000_0000_0000", "Q6 1:2"),
        (b"$4294967296", "Q6 1:1"),
        (b"OPENQASM 4294967296", "Q6 1:10"),
        (b"OPENQASM 3.4294967296", "Q6 1:10"),
        (b"1.5", "Q7 1:1"),
        (b" .5", "Q7 1:2"),
        (b"1.", "Q7 1:1"),
        (b"1e5", "Q7 1:1"),
        (b"1.5E-3", "Q7 1:1"),
        (b"1_0.5", "Q7 1:4"),
        (b"OPENQASM 3.", "Q7 1:10"),
        (b"OPENQASM 3.0e1", "Q7 1:10"),
        (b"OPENQASM OPENQASM 3.0;\nx 3.0", "Q7 2:3"),
    ];
    for (text, want) in table {
        assert_eq!(rt; shown(rt.alloc(), text)?.as_str(), want);
    }
    Ok(())
}

/// The place of the end of a text.
fn shown_end(alloc: Global, text: &str) -> Result<String, AllocError> {
    if text.len() > crate::MOST_BYTES {
        return Ok(String::new(alloc));
    }
    let end = end_of(text.as_bytes());
    let line = end.line;
    let column = end.column;
    format!(in alloc; "{line}:{column}")
}

#[test]
fn ends_behind_all_characters(rt: HostRuntime) -> Result<(), Fail> {
    let table = [
        ("", "1:1"),
        ("x = π;\nπ\r", "2:3"),
        ("x // é", "1:7"),
        ("x /* é\n*/\n", "3:1"),
    ];
    for (text, want) in table {
        assert_eq!(rt; shown_end(rt.alloc(), text)?.as_str(), want);
    }
    Ok(())
}

/// How many bytes a hostile text has here.
const HOSTILE_BYTES: usize = 65_536;

/// A text of one piece again and again.
fn repeated(alloc: Global, piece: &[u8]) -> Result<Vec<u8>, AllocError> {
    let mut text = Vec::with_capacity(alloc, HOSTILE_BYTES)?;
    for _ in 0..HOSTILE_BYTES {
        if text.len() + piece.len() > HOSTILE_BYTES {
            break;
        }
        text.extend_from_slice(piece)?;
    }
    Ok(text)
}

/// The number of tokens of a hostile text, or its refusal.
fn counted(alloc: Global, piece: &[u8]) -> Result<String, AllocError> {
    let text = repeated(alloc, piece)?;
    if text.len() > crate::MOST_BYTES {
        return Ok(String::new(alloc));
    }
    match lex(alloc, text.as_slice()) {
        Ok(tokens) => {
            let count = tokens.len();
            format!(in alloc; "{count}")
        }
        Err(_) => shown(alloc, text.as_slice()),
    }
}

#[test]
fn takes_hostile_text(rt: HostRuntime) -> Result<(), Fail> {
    let table: [(&[u8], &str); 8] = [
        (b"(", "65536"),
        (b"\"", "32768"),
        (b"a ", "32768"),
        (b"\n", "0"),
        // Six bytes are a comment and a `*`. Four are left, and do not close.
        (b"/*", "Q4 1:65533"),
        (b"7", "Q6 1:1"),
        (b"x", "Q6 1:1"),
        (b"\xf0\x90\x90\x80", "Q6 1:1"),
    ];
    for (piece, want) in table {
        assert_eq!(rt; counted(rt.alloc(), piece)?.as_str(), want);
    }
    Ok(())
}
