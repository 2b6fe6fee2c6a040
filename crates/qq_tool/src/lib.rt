// The top call of the compiler, `run_tool`: words and three streams in, a status out.
//
// It stands on the streams, the lexer, the parser, the modules with their writer, reader, checker and machine, and the
// text of runs. Its parts are `command` (what the words say), `read` (the program that a thin text spells), `check` (that
// program, or why a text is refused), `lower` (a module that implements the program), `compile` (its canonical text),
// `verdict` (the module that a QIR text spells, or why it is refused) and `run` (that module's run, shown), under `tool`,
// which reads, answers and reports. The program above uses the contract of `run_tool` alone: which status and which bytes
// are due, and the cause of every other answer; `specs/Headline.antt` has the theorem in one place. `laws` has the laws
// over the definitions.
#![tactic(auto)]

mod check;
mod command;
mod compile;
pub mod laws;
mod lower;
mod read;
mod refusal_text;
mod run;
mod status;
mod tell;
mod thin;
mod tool;
mod verdict;

pub use tool::run_tool;

#[cfg(test)]
mod tests;
