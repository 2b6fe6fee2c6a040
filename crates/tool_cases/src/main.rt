// Calls the tool over streams in memory: the table of what `verify` and `run` answer, of runs at the edges of words, and of
// reads and writes that fail. It is no part of the product.
//
// Standard input is parts, with a line `####` between two. A part is a text, a line `====` and rows, one a line. A row is the
// words of a call, behind ` | ` the plan of its streams, and behind another ` | ` a piece: the input is the text in which the
// piece stands for each `?`, with `\n` in it for LF. Plan and piece may be left out. Among the words `""` is the empty word,
// and `D^N` is N times D. A plan is pairs of words:
//
// - `read N`, `out N` and `err N`: the call of that number, from 0, fails.
// - `by N`: a sink takes at most N bytes at once (nothing said: 4096).
// - `each read` and `each write`: call 0 of the source, or of both sinks, fails, then in another run call 1, and so on, up to
//   the first run in which none failed.
// - `each prefix`: the input is each prefix of the text; shown is how many were refused by a rule of QIR text, with nothing on
//   `out`, and the numbers of bytes of the others.
//
// Each line of `stdout` is a row, the number of the failing call where there are several, and behind a colon the status and
// what is on `out` and on `err`, with `\n` for LF.
//
// It stands on `qq_tool` and `qq_streams`.
#![tactic(auto)]

mod plan;

use anyhow::{Context, Result, bail};
use plan::{Each, Plan};
use qq_streams::{MemorySink, MemorySource};
use qq_tool::run_tool;
use std::alloc::Global;
use std::io;

/// How many bytes a sink takes in all.
const ROOM: usize = 1_000_000;

/// The greatest number of calls of which each fails in turn.
const MOST_CALLS: u32 = 10_000;

/// A call of the table: its line, its words and its input.
#[derive(Clone, Copy)]
struct Case<'a> {
    line: &'a str,
    words: &'a str,
    input: &'a [u8],
}

/// What a call answered and wrote.
#[derive(Drop)]
struct Answer {
    status: u8,
    out: MemorySink,
    err: MemorySink,
}

fn main(rt: HostRuntime) -> Result<()> {
    let alloc = rt.alloc();
    let input = io::read_to_string(alloc, rt.stdin())?;
    for part in input.split("####\n") {
        let (text, rows) = part.split_once("====\n").context("no line ====")?;
        for line in rows.lines() {
            show_row(&rt, alloc, text, line)?;
        }
    }
    Ok(())
}

/// Shows a row with its answers.
fn show_row(rt: &impl Print, alloc: Global, text: &str, line: &str) -> Result<()> {
    let (words, rest) = line.split_once(" | ").unwrap_or((line, ""));
    let (plan, piece) = rest.split_once(" | ").unwrap_or((rest, ""));
    let piece = piece.replace(alloc, "\\n", "\n")?;
    let input = text.replace(alloc, "?", piece.as_str())?;
    let case = Case {
        line,
        words,
        input: input.as_bytes(),
    };
    let plan = Plan::of(alloc, plan)?;
    let shown = match plan.each {
        None => shown_answer(alloc, &answered(alloc, case, &plan)?)?,
        Some(Each::Prefix) => prefixes(alloc, case, &plan)?,
        Some(each) => return show_calls(rt, alloc, case, plan, each),
    };
    rt.println(format_args!("{line}: {shown}"))?;
    Ok(())
}

/// Shows the answers of a row of which each call fails in turn.
fn show_calls(
    rt: &impl Print,
    alloc: Global,
    case: Case<'_>,
    plan: Plan,
    each: Each,
) -> Result<()> {
    let line = case.line;
    let mut plan = plan;
    for call in 0..MOST_CALLS {
        plan.fail_only(alloc, each, call)?;
        let answer = answered(alloc, case, &plan)?;
        let shown = shown_answer(alloc, &answer)?;
        rt.println(format_args!("{line}, call {call}: {shown}"))?;
        if answer.status != 3 && answer.status != 4 {
            return Ok(());
        }
    }
    bail!("too many calls")
}

/// The words of a call.
fn words_of(alloc: Global, line: &str) -> Result<Vec<String>> {
    let mut words = Vec::new(alloc);
    for word in line.split_whitespace() {
        words.push(word_of(alloc, word)?)?;
    }
    Ok(words)
}

/// A word as it is spelled in a row.
fn word_of(alloc: Global, word: &str) -> Result<String> {
    if word == "\"\"" {
        return Ok(String::new(alloc));
    }
    match word.split_once("^") {
        None => Ok(String::from_str(alloc, word)?),
        Some((part, count)) => {
            let count = count.parse::<u32>().context("no number of times")?;
            let mut text = String::new(alloc);
            for _ in 0..count {
                text.push_str(part)?;
            }
            Ok(text)
        }
    }
}

/// A call of the tool over streams by a plan.
fn answered(alloc: Global, case: Case<'_>, plan: &Plan) -> Result<Answer> {
    let words = words_of(alloc, case.words)?;
    let mut source = MemorySource::new(case.input.to_vec(alloc)?, plan.reads.to_vec(alloc)?);
    let mut out = sink(alloc, plan.piece, &plan.outs)?;
    let mut err = sink(alloc, plan.piece, &plan.errs)?;
    let status = run_tool(alloc, &words, &mut source, &mut out, &mut err);
    Ok(Answer { status, out, err })
}

/// A sink that takes at most so many bytes at once, of which these calls fail.
fn sink(alloc: Global, piece: u32, failing: &[u32]) -> Result<MemorySink> {
    let piece = (piece as usize).max(1);
    MemorySink::new(alloc, ROOM, piece, failing.to_vec(alloc)?)
        .ok()
        .context("no memory")
}

/// An answer as a line shows it.
fn shown_answer(alloc: Global, answer: &Answer) -> Result<String> {
    let status = answer.status;
    let out = shown_text(alloc, answer.out.bytes())?;
    let err = shown_text(alloc, answer.err.bytes())?;
    Ok(format!(in alloc; "status {status}, out \"{out}\", err \"{err}\"")?)
}

/// A text, with `\n` for LF.
fn shown_text(alloc: Global, bytes: &[u8]) -> Result<String> {
    let mut text = String::new(alloc);
    for byte in bytes {
        if *byte == b'\n' {
            text.push_str("\\n")?;
        } else {
            text.push(*byte as char)?;
        }
    }
    Ok(text)
}

/// How many prefixes of an input are refused by a rule of QIR text, and the numbers of bytes of the others.
fn prefixes(alloc: Global, case: Case<'_>, plan: &Plan) -> Result<String> {
    let mut refused = 0u64;
    let mut others = String::new(alloc);
    for count in 0..=case.input.len() {
        let prefix = Case {
            input: &case.input[..count],
            ..case
        };
        let answer = answered(alloc, prefix, plan)?;
        let is_refused = answer.status == 1
            && answer.out.bytes().is_empty()
            && answer.err.bytes().starts_with(b"refused N");
        if is_refused {
            refused = refused.saturating_add(1);
        } else {
            others.push_str(format!(in alloc; " {count}")?.as_str())?;
        }
    }
    Ok(format!(in alloc; "{refused} refused, not those of{others} bytes")?)
}
