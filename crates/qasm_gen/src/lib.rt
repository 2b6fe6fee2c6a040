// Source programs from a seed, with outcomes for their measurements: programs for whoever wants many that use gates, measurements,
// choices and loops.
//
// It stands on `qq_base`. The layer above uses the contract of `generate`: the text and the outcomes are those that
// `specs/Generated.antt` gives as a fold over draws.
#![tactic(auto)]

mod draws;
mod program;
#[cfg(test)]
mod tests;

pub use program::{Generated, generate};
