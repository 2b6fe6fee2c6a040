// The program: its words, standard input, standard output and standard error, handed to `run_tool`.
//
// It stands on `qq_tool`, whose contract says what is read and written and which status is answered. What is
// trusted here: that the system gives the words, and that the standard streams do what they are asked to.
#![tactic(auto)]

use qq_streams::{StdSink, StdSource};
use qq_tool::run_tool;
use std::env;
use std::io::{self, ErrorKind};
use std::process::ExitCode;

/// The status where the system does not give the words for want of memory.
const NO_MEMORY: u8 = 5;

/// The status where the system does not give the words for another reason.
const NO_WORDS: u8 = 6;

fn main(rt: HostRuntime) -> ExitCode {
    match words(&rt) {
        Ok(words) => {
            let mut input = StdSource::new(rt.stdin());
            let mut out = StdSink::new(rt.stdout());
            let mut err = StdSink::new(rt.stderr());
            let status = run_tool(rt.alloc(), &words, &mut input, &mut out, &mut err);
            ExitCode::from(status)
        }
        Err(error) if error.kind() == ErrorKind::OutOfMemory => ExitCode::from(NO_MEMORY),
        Err(_) => ExitCode::from(NO_WORDS),
    }
}

/// The words behind the program's name.
fn words(rt: &HostRuntime) -> io::Result<Vec<String>> {
    let words = env::args(rt)?.skip(1).collect(rt.alloc())?;
    Ok(words)
}
