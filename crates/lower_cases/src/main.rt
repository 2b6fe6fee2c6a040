// Lowers cores: the table of the module texts of `lower`, and a comparison of runs on cores that are drawn. It is no part of
// the product.
//
// Standard input is cases, one a line.
//
// - `lower` and a core, in the notation of `core_text`: it is shown with the text of its module.
// - `trials`, a seed and a number: small cores are drawn until so many fit, and are lowered. The module of each must keep the rules of
//   the profile and be written as it is read; and for all lists of up to four outcomes and each number of turns from 0 to 3
//   its run on the machine is compared with the run of the core (`run.rt`). The answer is how many cores
//   and runs there were, and how many differed; and behind it each core of which a run differs.
// - `large`, a word and a number: a core of `large.rt` is lowered, and how long that takes is shown, with the numbers of
//   blocks and items of the module. Such cases serve `bench/lower.sh`.
//
// It stands on `block_lower`, and on the reader, the writer, the checker and the machine of modules.
#![tactic(auto)]

mod apply;
mod draw;
mod large;
mod limits;
mod machine;
mod run;
mod trials;
mod values;

ghost use Rattle.std.specs.Prelude.{OnOk};
ghost use Rattle.core_ir.specs.WellFormed.{Fits};

use anyhow::{Context, Result, bail};
use block_lower::lower;
use core_ir::Core;
use core_text::{number, read_core};
use large::large_core;
use limits::fits;
use qir_module::items;
use qir_writer::write_module;
use std::alloc::Global;
use std::io::{self, Write};
use std::rt::Clock;
use std::time::Instant;
use trials::trials;

fn main(rt: HostRuntime) -> Result<()> {
    let alloc = rt.alloc();
    let input = io::read_to_string(alloc, rt.stdin())?;
    for case in input.lines() {
        rt.println(format_args!("{case}"))?;
        match case.strip_prefix("large ") {
            Some(rest) => time_large(&rt, alloc, rest)?,
            None => {
                let answer = answer(alloc, case)?;
                rt.stdout().write_all(&answer)?;
            }
        }
    }
    Ok(())
}

/// A core fits, or is refused.
fn see_fit(alloc: Global, core: &Core) -> Result<()>
    ensures { OnOk result (Fits core.now) }
{
    match fits(alloc, core) {
        Ok(true) => Ok(()),
        Ok(false) => bail!("a core that does not fit"),
        Err(_) => bail!("no memory"),
    }
}

/// Shows how long it takes to lower a large core.
fn time_large<R: Print + Clock>(rt: &R, alloc: Global, case: &str) -> Result<()> {
    let (word, count) = case
        .split_once(" ")
        .context("a large core without a number")?;
    let core = large_core(alloc, word, number(count)?)?;
    see_fit(alloc, &core)?;
    let start = Instant::now(rt)?;
    let module = lower(alloc, &core).ok().context("no memory")?;
    let time = start.elapsed(rt)?.as_millis();
    let blocks = module.blocks.items.len();
    let count = items(&module);
    rt.println(format_args!("{time} ms, {blocks} blocks, {count} items"))?;
    Ok(())
}

/// The lines behind a case.
fn answer(alloc: Global, case: &str) -> Result<Vec<u8>> {
    let (word, rest) = case.split_once(" ").context("a case of one word")?;
    match word {
        "lower" => lowered(alloc, rest),
        "trials" => {
            let (seed, count) = rest.split_once(" ").context("trials without a number")?;
            trials(alloc, number(seed)?, number(count)?)
        }
        _ => bail!("no case"),
    }
}

/// The text of the module of a core.
fn lowered(alloc: Global, text: &str) -> Result<Vec<u8>> {
    let core = read_core(alloc, text)?;
    see_fit(alloc, &core)?;
    let module = lower(alloc, &core).ok().context("no memory")?;
    write_module(alloc, &module).ok().context("no memory")
}
