//! The program as its users meet it, on streams in memory. The table of its calls is that of the program `tool_cases`.

use super::run_tool;
use qq_streams::{MemorySink, MemorySource};
use std::alloc::Global;
use std::process::Abort;
use std::test::Fail;

/// A Bell pair, measured.
const BELL_PAIR: &str = "OPENQASM 3.0;
include \"stdgates.inc\";
qubit[2] q;
bit[2] c;
h q[0];
cx q[0], q[1];
c[0] = measure q[0];
c[1] = measure q[1];
";

/// What a call answered and wrote.
#[derive(Drop)]
struct Answer {
    status: u8,
    out: MemorySink,
    err: MemorySink,
}

/// Runs `check` on a source text.
fn check(alloc: Global, source: &[u8]) -> Result<Answer, Fail> {
    let words = vec![in alloc; String::from_str(alloc, "check")?]?;
    let mut input = MemorySource::new(source.to_vec(alloc)?, Vec::new(alloc));
    let mut out = MemorySink::new(alloc, 10_000, 1000, Vec::new(alloc))
        .ok()
        .ok_or("out of memory")?;
    let mut err = MemorySink::new(alloc, 100, 1000, Vec::new(alloc))
        .ok()
        .ok_or("out of memory")?;
    let status = run_tool(alloc, &words, &mut input, &mut out, &mut err);
    Ok(Answer { status, out, err })
}

/// A byte, so many times.
fn copies(alloc: Global, byte: u8, count: usize) -> Result<Vec<u8>, Fail> {
    Ok(vec![in alloc; byte; count]?)
}

/// `check` refuses the source text with this line.
fn refuses(rt: &impl Abort, alloc: Global, source: &[u8], line: &str) -> Result<(), Fail> {
    let answer = check(alloc, source)?;
    assert_eq!(rt; answer.err.bytes(), line.as_bytes());
    assert_eq!(rt; answer.status, 1);
    assert!(rt; answer.out.bytes().is_empty());
    Ok(())
}

#[test]
fn accepts_a_program(rt: HostRuntime) -> Result<(), Fail> {
    let answer = check(rt.alloc(), BELL_PAIR.as_bytes())?;
    assert_eq!(rt; answer.out.bytes(), b"ok\n".as_slice());
    assert_eq!(rt; answer.status, 0);
    assert!(rt; answer.err.bytes().is_empty());
    Ok(())
}

/// Texts that no line of a table holds.
#[test]
fn refuses_long_texts_and_bytes(rt: HostRuntime) -> Result<(), Fail> {
    let alloc = rt.alloc();
    refuses(&rt, alloc, &[255], "refused Q02 NotUtf8 at 1:1\n")?;
    let longer = copies(alloc, b' ', 4_194_305)?;
    refuses(&rt, alloc, &longer, "refused Q01 InputTooLong at 1:1\n")?;
    // No blanks, so that the first byte is refused.
    let longest = copies(alloc, b'?', 4_194_304)?;
    refuses(&rt, alloc, &longest, "refused Q03 BadCharacter at 1:1\n")?;
    // The place is that of the 65th bracket, however many stand behind it.
    let mut nested = Vec::from_slice(alloc, b"int x = ")?;
    nested.extend_from_slice(&copies(alloc, b'(', 2_000_000)?)?;
    refuses(&rt, alloc, &nested, "refused Q08 NestingDeep at 1:73\n")
}
