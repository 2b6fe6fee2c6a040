// What the reader and the checker say of a text.

use anyhow::{Context, Result, bail};
use profile_check::{CheckFault, check};
use qir_lexer::{MOST_BYTES, TextFault, TextRefusal};
use qir_module::Module;
use qir_reader::read_module;
use qir_writer::write_module;
use std::alloc::Global;

/// What the reader says of a text.
fn read(alloc: Global, text: &[u8]) -> Result<Result<Module, TextRefusal>> {
    if text.len() > MOST_BYTES {
        bail!("a text that is too long");
    }
    match read_module(alloc, text) {
        Ok(module) => Ok(Ok(module)),
        Err(TextFault::Refused(refusal)) => Ok(Err(refusal)),
        Err(TextFault::Memory) => bail!("no memory"),
    }
}

/// The text of a module.
fn written(alloc: Global, module: &Module) -> Result<Vec<u8>> {
    write_module(alloc, module).ok().context("no memory")
}

/// A text of a module, read and written back.
fn rewritten(alloc: Global, text: &[u8]) -> Result<Vec<u8>> {
    match read(alloc, text)? {
        Ok(module) => written(alloc, &module),
        Err(_) => bail!("a text of no module"),
    }
}

/// What the reader and the checker say of a text.
pub fn answer(alloc: Global, text: &[u8]) -> Result<String> {
    match read(alloc, text)? {
        Ok(module) => {
            let form = form(alloc, &module, text)?;
            match broken(alloc, &module)? {
                None => Ok(format!(in alloc; "passes, {form}")?),
                Some(rule) => Ok(format!(in alloc; "{rule}, {form}")?),
            }
        }
        Err(refusal) => refused(alloc, refusal),
    }
}

/// What the reader alone says of a text.
pub fn reading(alloc: Global, text: &[u8]) -> Result<String> {
    match read(alloc, text)? {
        Ok(_) => Ok(String::from_str(alloc, "read")?),
        Err(refusal) => refused(alloc, refusal),
    }
}

/// A text that passes, read, checked and written back, or the line of why it does not pass.
pub fn copied(alloc: Global, text: &[u8]) -> Result<Vec<u8>> {
    let line = match read(alloc, text)? {
        Ok(module) => match broken(alloc, &module)? {
            None => return written(alloc, &module),
            Some(line) => line,
        },
        Err(refusal) => refused(alloc, refusal)?,
    };
    let mut bytes = Vec::from_slice(alloc, line.as_bytes())?;
    bytes.push(b'\n')?;
    Ok(bytes)
}

/// Whether a text is that of a module that passes.
pub fn passes(alloc: Global, text: &[u8]) -> Result<bool> {
    match read(alloc, text)? {
        Ok(module) => Ok(broken(alloc, &module)?.is_none()),
        Err(_) => Ok(false),
    }
}

/// The refusal of a text.
fn refused(alloc: Global, refusal: TextRefusal) -> Result<String> {
    let number = refusal.rule.number();
    let name = refusal.rule.name();
    let line = refusal.at.line;
    let column = refusal.at.column;
    Ok(format!(in alloc; "refused N{number:02} {name} at {line}:{column}")?)
}

/// The rule that a module breaks, and where, if there is one.
fn broken(alloc: Global, module: &Module) -> Result<Option<String>> {
    match check(alloc, module) {
        Ok(()) => Ok(None),
        Err(CheckFault::Broken { rule, block, item }) => {
            let number = rule.number();
            let name = rule.name();
            Ok(Some(format!(in alloc; "refused P{number:02} {name} at block {block} item {item}")?))
        }
        Err(CheckFault::Memory) => bail!("no memory"),
    }
}

/// Whether a module is written as the text stands that it was read from. What is written is read again.
fn form(alloc: Global, module: &Module, text: &[u8]) -> Result<&'static str> {
    let once = written(alloc, module)?;
    let twice = rewritten(alloc, &once)?;
    if twice != once {
        bail!("written back in two ways");
    }
    if once.as_slice() == text {
        Ok("written back as it stands")
    } else {
        Ok("written in canonical form")
    }
}

/// How many prefixes of a text are refused, and the numbers of bytes of the others.
pub fn prefixes(alloc: Global, text: &[u8]) -> Result<String> {
    let mut refused = 0u64;
    let mut others = String::new(alloc);
    for count in 0..=text.len() {
        if read(alloc, &text[..count])?.is_ok() {
            others.push_str(format!(in alloc; " {count}")?.as_str())?;
        } else {
            refused = refused.saturating_add(1);
        }
    }
    Ok(format!(in alloc; "{refused} refused, not those of{others} bytes")?)
}
