// The plans of the streams.

use anyhow::{Context, Result, bail};
use std::alloc::Global;

/// What is tried in turn.
#[derive(Clone, Copy)]
pub enum Each {
    Read,
    Write,
    Prefix,
}

/// Which calls of the streams fail, and how many bytes a sink takes at once.
#[derive(Drop)]
pub struct Plan {
    pub reads: Vec<u32>,
    pub outs: Vec<u32>,
    pub errs: Vec<u32>,
    pub piece: u32,
    pub each: Option<Each>,
}

impl Plan {
    /// The plan that the words of a line say.
    pub fn of(alloc: Global, line: &str) -> Result<Plan> {
        let mut plan = Plan {
            reads: Vec::new(alloc),
            outs: Vec::new(alloc),
            errs: Vec::new(alloc),
            piece: 4096,
            each: None,
        };
        let mut name = None;
        for word in line.split_whitespace() {
            match name {
                None => name = Some(word),
                Some(first) => {
                    plan.take(first, word)?;
                    name = None;
                }
            }
        }
        Ok(plan)
    }

    /// Takes over what a pair of words says.
    fn take(&mut self, first: &str, second: &str) -> Result<()> {
        if first == "each" {
            self.each = Some(match second {
                "read" => Each::Read,
                "write" => Each::Write,
                "prefix" => Each::Prefix,
                _ => bail!("a plan of another word"),
            });
            return Ok(());
        }
        let number = second.parse::<u32>().context("no number in a plan")?;
        match first {
            "read" => self.reads.push(number)?,
            "out" => self.outs.push(number)?,
            "err" => self.errs.push(number)?,
            "by" => self.piece = number,
            _ => bail!("a plan of another word"),
        }
        Ok(())
    }

    /// Lets only this call fail, of the source or of both sinks.
    pub fn fail_only(&mut self, alloc: Global, each: Each, call: u32) -> Result<()> {
        match each {
            Each::Read => self.reads = vec![in alloc; call]?,
            Each::Write => {
                self.outs = vec![in alloc; call]?;
                self.errs = vec![in alloc; call]?;
            }
            Each::Prefix => {}
        }
        Ok(())
    }
}
