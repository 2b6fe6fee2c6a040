// Reads texts of QIR and shows what the reader and the checker say of them: the table of their cases, and a way to time
// them. It is no part of the product.
//
// Without a word, standard input is parts, with a line `####` between two. A part is a text, a line `====` and cases, one a
// line. Each line of `stdout` is a case and, behind a colon, what is said of its text: the rule of QIR text by which it is
// refused and the place, or the first rule of the profile that its module breaks and the place, or that it passes; and where
// it has a module, whether that is written as the text stands or in another, canonical form. What is written is read and
// written again, which must change nothing. A case is one of these:
//
// - `as it stands`: the text itself.
// - `the first N`: its first N bytes.
// - `LINE OLD => NEW`: the text in which, in the line of that number, NEW stands for the first OLD (nothing: for the empty text
//   in front of the line). Further changes, each behind ` && `, are made in the same text, in a line from left to right.
//   In NEW `\n`, `\r` and `\t` are LF, CR and a tab, `\y` is the byte 127 and `\x` the byte 255. Where NEW begins with
//   `N times `, what follows stands N times, with `\k` for the number of the copy from 0, and `\l` for the next number.
// - `read` and one of these: whether the text is read, without the checker.
// - `prefixes`: how many prefixes of the text are refused, and the numbers of bytes of the others.
//
// With the word `copy`, standard input is a text, which is read, checked and written back, or else the line of its refusal is.
// With the word `accepted`, it is parts, and the text of each case that passes is written, a line `####` in front of each.
//
// It stands on `qir_reader`, `profile_check` and `qir_writer`.
#![tactic(auto)]

mod answer;
mod change;

use answer::{answer, copied, passes, prefixes, reading};
use anyhow::{Context, Result, bail};
use change::case_text;
use std::alloc::Global;
use std::env;
use std::io::{self, Write};

/// What is shown of a case.
#[derive(Clone, Copy)]
enum Shown {
    Answer,
    AcceptedText,
}

fn main(rt: HostRuntime) -> Result<()> {
    let alloc = rt.alloc();
    let input = io::read_to_string(alloc, rt.stdin())?;
    match env::args(&rt)?.nth(1) {
        None => show_parts(&rt, alloc, &input, Shown::Answer),
        Some(word) => match word.as_str() {
            "accepted" => show_parts(&rt, alloc, &input, Shown::AcceptedText),
            "copy" => {
                let copy = copied(alloc, input.as_bytes())?;
                rt.stdout().write_all(&copy)?;
                Ok(())
            }
            _ => bail!("the word is none, copy or accepted"),
        },
    }
}

/// Shows the cases of each part.
fn show_parts(rt: &impl Print, alloc: Global, input: &str, shown: Shown) -> Result<()> {
    for part in input.split("####\n") {
        let (text, cases) = part.split_once("====\n").context("no line ====")?;
        for case in cases.lines() {
            show_case(rt, alloc, text, case, shown)?;
        }
    }
    Ok(())
}

/// Shows a case of a text.
fn show_case(rt: &impl Print, alloc: Global, text: &str, case: &str, shown: Shown) -> Result<()> {
    match shown {
        Shown::Answer => {
            let answer = if case == "prefixes" {
                prefixes(alloc, text.as_bytes())?
            } else if let Some(change) = case.strip_prefix("read ") {
                reading(alloc, &case_text(alloc, text, change)?)?
            } else {
                answer(alloc, &case_text(alloc, text, case)?)?
            };
            rt.println(format_args!("{case}: {answer}"))?;
        }
        Shown::AcceptedText => {
            if case != "prefixes" && !case.starts_with("read ") {
                show_accepted(rt, &case_text(alloc, text, case)?, alloc)?;
            }
        }
    }
    Ok(())
}

/// Writes a text that passes, behind a line `####`.
fn show_accepted(rt: &impl Print, text: &[u8], alloc: Global) -> Result<()> {
    if passes(alloc, text)? {
        rt.write_all(b"####\n")?;
        rt.write_all(text)?;
    }
    Ok(())
}
