//! Whether a QIR text is that of a module that passes, and the first rule that it breaks where it is not.

ghost use Rattle.std.specs.Prelude.{◌≡◌, ◌<◌, ◌≤◌, ◌++◌, length, IfOk, OnOk};
ghost use Rattle.qq_tool.specs.QirRefused.{IsPassing, IsQirRefused, text_refusal_line, broken_line};
ghost use Rattle.qq_tool.specs.Refused.{two_digits};
ghost use Rattle.qq_tool.specs.Verdict.{line_of};

use itoa::Buffer;
use profile_check::{CheckFault, CheckRule, check};
use qir_lexer::{MOST_BYTES, TextFault, TextRefusal};
use qir_module::Module;
use qir_reader::read_module;
use qq_base::NoMemory;
use std::alloc::Global;

/// Why a QIR text is refused: by a rule of QIR text, or by a rule of the profile, at an item of a block.
#[derive(Clone, Copy, Debug, PartialEq, Eq)]
pub enum QirRefusal {
    Text(TextRefusal),
    Profile {
        rule: CheckRule,
        block: u32,
        item: u32,
    },
}

/// Why a QIR text gives no module that passes.
#[derive(Clone, Copy, Debug, PartialEq, Eq)]
pub enum QirFault {
    Memory,
    Refused(QirRefusal),
}

/// The module of a QIR text, which passes, or the first rule that the text breaks.
pub fn passing_module(alloc: Global, text: &[u8]) -> Result<Module, QirFault>
    requires { length text.now ≤ MOST_BYTES }
    ensures ok { IfOk result (λ m. IsPassing text.now m) }
    ensures refused { (refusal : QirRefusal) → result ≡ Err (QirFault.Refused refusal) → IsQirRefused text.now (line_of refusal) }
{
    let module = match read_module(alloc, text) {
        Ok(module) => module,
        Err(TextFault::Memory) => return Err(QirFault::Memory),
        Err(TextFault::Refused(refusal)) => {
            return Err(QirFault::Refused(QirRefusal::Text(refusal)));
        }
    };
    match check(alloc, &module) {
        Ok(()) => Ok(module),
        Err(CheckFault::Memory) => Err(QirFault::Memory),
        Err(CheckFault::Broken { rule, block, item }) => {
            Err(QirFault::Refused(QirRefusal::Profile { rule, block, item }))
        }
    }
}

/// Appends two digits.
fn put_two_digits(line: &mut Vec<u8>, number: u8) -> Result<(), NoMemory>
    requires { number < 100 }
    ensures { OnOk result (line.new.items ≡ line.old.items ++ two_digits number) }
{
    line.extend_from_slice(&[b'0' + number / 10, b'0' + number % 10])?;
    Ok(())
}

/// The line of a refusal by a rule of QIR text, as `refused N05 Syntax at 1:4`.
fn text_refusal_text(alloc: Global, refusal: TextRefusal) -> Result<Vec<u8>, NoMemory>
    ensures { IfOk result (λ text. text.items ≡ text_refusal_line refusal) }
{
    let mut buffer = Buffer::new();
    let mut text = Vec::from_slice(alloc, b"refused N")?;
    put_two_digits(&mut text, refusal.rule.number())?;
    text.extend_from_slice(b" ")?;
    text.extend_from_slice(refusal.rule.name().as_bytes())?;
    text.extend_from_slice(b" at ")?;
    text.extend_from_slice(buffer.format(refusal.at.line).as_bytes())?;
    text.extend_from_slice(b":")?;
    text.extend_from_slice(buffer.format(refusal.at.column).as_bytes())?;
    text.extend_from_slice(b"\n")?;
    Ok(text)
}

/// The line of a refusal by a rule of the profile, as `refused P14 CarriedRegister at block 2 item 0`.
fn broken_text(alloc: Global, rule: CheckRule, block: u32, item: u32) -> Result<Vec<u8>, NoMemory>
    ensures { IfOk result (λ text. text.items ≡ broken_line rule block item) }
{
    let mut buffer = Buffer::new();
    let mut text = Vec::from_slice(alloc, b"refused P")?;
    put_two_digits(&mut text, rule.number())?;
    text.extend_from_slice(b" ")?;
    text.extend_from_slice(rule.name().as_bytes())?;
    text.extend_from_slice(b" at block ")?;
    text.extend_from_slice(buffer.format(block).as_bytes())?;
    text.extend_from_slice(b" item ")?;
    text.extend_from_slice(buffer.format(item).as_bytes())?;
    text.extend_from_slice(b"\n")?;
    Ok(text)
}

/// The line of a refusal.
pub fn qir_refusal_text(alloc: Global, refusal: QirRefusal) -> Result<Vec<u8>, NoMemory>
    ensures { IfOk result (λ text. text.items ≡ line_of refusal) }
{
    match refusal {
        QirRefusal::Text(refusal) => text_refusal_text(alloc, refusal),
        QirRefusal::Profile { rule, block, item } => broken_text(alloc, rule, block, item),
    }
}
