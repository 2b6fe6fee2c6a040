// The text of a run: a line for each event and each record, and then the fate.
//
// It stands on `qq_base` for events, records and fates, on `gate_table` for the names of gates, on `qir_module` for the
// escapes of labels, and on `qq_streams` for the sinks that take the text. The commands that show runs use `Show`: it
// gives each step its outcome, takes over what the step answers, and puts the lines of `specs/Shown.antt` on their way to
// a sink, by a `Printer` with a buffer of fixed size and without taking memory. `specs/Showing.antt` says which text has
// been put by then, and `specs/Printing.antt` what of it the sink has taken.
#![tactic(auto)]

pub mod laws;
mod lines;
mod printer;
mod show;
#[cfg(test)]
mod tests;

pub use show::Show;
