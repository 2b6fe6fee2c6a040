//! The line that reports a refusal.

ghost use Rattle.std.specs.Prelude.{◌≡◌, IfOk};
ghost use Rattle.qq_tool.specs.Refused.{refusal_line};

use itoa::Buffer;
use qq_base::{NoMemory, Refusal};
use std::alloc::Global;

/// The line of a refusal, as `refused Q17 TypeMismatch at 3:9`, with the end of the line.
pub fn refusal_text(alloc: Global, refusal: Refusal) -> Result<Vec<u8>, NoMemory>
    ensures { IfOk result (λ text. text.items ≡ refusal_line refusal) }
{
    let number = refusal.rule.number();
    let mut buffer = Buffer::new();
    let mut text = Vec::from_slice(alloc, b"refused Q")?;
    text.extend_from_slice(&[b'0' + number / 10, b'0' + number % 10, b' '])?;
    text.extend_from_slice(refusal.rule.name().as_bytes())?;
    text.extend_from_slice(b" at ")?;
    text.extend_from_slice(buffer.format(refusal.at.line).as_bytes())?;
    text.extend_from_slice(b":")?;
    text.extend_from_slice(buffer.format(refusal.at.column).as_bytes())?;
    text.extend_from_slice(b"\n")?;
    Ok(text)
}
