//! Cores that are drawn, lowered and run in both ways.

ghost use Rattle.std.specs.Prelude.{IfOk};
ghost use Rattle.core_ir.specs.WellFormed.{Fits};
ghost use Rattle.qir_module.specs.Passes.{Passes};

use crate::draw::{Source, draw};
use crate::limits::fits;
use crate::machine::run_module;
use crate::run::{Seen, run_core};
use anyhow::{Context, Result, bail};
use block_lower::lower;
use core_ir::Core;
use core_text::{read_core, show_core};
use profile_check::check;
use qir_lexer::MOST_BYTES;
use qir_module::Module;
use qir_reader::read_module;
use qir_writer::write_module;
use std::alloc::Global;

/// All lists of up to four outcomes: the bits behind the highest one of the numbers from 1 to 31.
const LISTS: u32 = 31;

const MOST_OUTCOMES: u32 = 4;

const MOST_TURNS: u32 = 3;
/// A core that is drawn may never end. Of so many the end of one is reached, and of most in fact.
const DRAWN_FOR_EACH: u64 = 20;

/// How many cores there were, and runs of them.
#[derive(Clone, Copy, Debug)]
struct Counts {
    cores: u64,
    runs: u64,
    differences: u64,
}

/// Draws cores from a seed until so many fit, and gives what came of their runs.
pub fn trials(alloc: Global, seed: u32, count: u32) -> Result<Vec<u8>> {
    let mut counts = Counts {
        cores: 0,
        runs: 0,
        differences: 0,
    };
    let mut differing = String::new(alloc);
    let mut source = Source::new(seed);
    for _ in 0..u64::from(count) * DRAWN_FOR_EACH {
        if counts.cores >= u64::from(count) {
            break;
        }
        let (core, next) = draw(alloc, source)?;
        source = next;
        if fits(alloc, &core).ok().context("no memory")? {
            let differences = try_core(alloc, &core)?;
            counts.cores = counts.cores.saturating_add(1);
            counts.runs = counts
                .runs
                .saturating_add(u64::from(LISTS * (MOST_TURNS + 1)));
            counts.differences = counts.differences.saturating_add(differences);
            if differences > 0 {
                let text = show_core(alloc, &core)?;
                differing.push_str(&text)?;
                differing.push('\n')?;
            }
        }
    }
    let Counts {
        cores,
        runs,
        differences,
    } = counts;
    let line = format!(in alloc;
        "{cores} cores, {runs} runs, {differences} differences\n{differing}"
    )?;
    Ok(Vec::from_slice(alloc, line.as_bytes())?)
}

/// How many runs of a core differ from those of its module.
fn try_core(alloc: Global, core: &Core) -> Result<u64>
    requires { Fits core.now }
{
    see_as_shown(alloc, core)?;
    let module = passing_module(alloc, core)?;
    see_as_written(alloc, &module)?;
    let mut differences = 0u64;
    for number in 1..=LISTS {
        let outcomes = outcomes(alloc, number)?;
        differences = differences.saturating_add(try_outcomes(alloc, core, &module, &outcomes)?);
    }
    Ok(differences)
}

/// The module of a core, seen to keep the rules of the profile.
fn passing_module(alloc: Global, core: &Core) -> Result<Module>
    requires { Fits core.now }
    ensures { IfOk result (λ m. Passes m) }
{
    let Ok(module) = lower(alloc, core) else {
        bail!("no memory");
    };
    if check(alloc, &module).is_err() {
        bail!("a module that does not pass");
    }
    Ok(module)
}

/// How many runs differ with these outcomes.
fn try_outcomes(alloc: Global, core: &Core, module: &Module, outcomes: &[bool]) -> Result<u64>
    requires { Passes «module».now }
{
    let mut differences = 0u64;
    for turns in 0..=MOST_TURNS {
        let Ok(one) = run_core(alloc, core, outcomes, turns) else {
            bail!("no memory");
        };
        let Ok(Some(other)) = run_module(alloc, module, outcomes, turns) else {
            bail!("no memory, or a run without end");
        };
        if !are_same(&one, &other) {
            differences = differences.saturating_add(1);
        }
    }
    Ok(differences)
}

fn are_same(one: &Seen, other: &Seen) -> bool {
    one.fate == other.fate && one.steps == other.steps
}

/// The bits of a number behind its highest one.
fn outcomes(alloc: Global, number: u32) -> Result<Vec<bool>> {
    let mut outcomes = Vec::new(alloc);
    let mut left = number;
    for _ in 0..MOST_OUTCOMES {
        if left > 1 {
            outcomes.push(left % 2 == 1)?;
            left /= 2;
        }
    }
    Ok(outcomes)
}

/// What is written of a core is read as the same core.
fn see_as_shown(alloc: Global, core: &Core) -> Result<()> {
    let once = show_core(alloc, core)?;
    let twice = show_core(alloc, &read_core(alloc, &once)?)?;
    if once != twice {
        bail!("a core that is shown in two ways");
    }
    Ok(())
}

/// What is written of a module is read as the same module.
fn see_as_written(alloc: Global, module: &Module) -> Result<()> {
    let once = write_module(alloc, module).ok().context("no memory")?;
    if once.len() > MOST_BYTES {
        bail!("a text that is too long");
    }
    let read = read_module(alloc, &once).ok().context("no module is read")?;
    let twice = write_module(alloc, &read).ok().context("no memory")?;
    if once != twice {
        bail!("a module that is written in two ways");
    }
    Ok(())
}
