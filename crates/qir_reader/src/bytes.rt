//! The bytes that the characters of a quoted text mean.

ghost use Rattle.std.specs.Prelude.{◌≡◌, ◌<◌, length, IsTrue, IfOk};
ghost use Rattle.std.specs.Char.{digit_value};
ghost use Rattle.std.specs.Option.{option_to_list};
ghost use Rattle.qir_module.specs.Tokens.{Outside, behind, bytes_at, may_stand, is_hex, is_body, bytes_meant};
ghost use Rattle.qir_lexer.specs.Seen.{between};
ghost use Rattle.qir_reader.specs.Seen.{escape_of, IsSmall};

use qq_base::NoMemory;
use std::alloc::Global;

/// The characters of a quoted text: those behind its first quote, which ends so many characters in front, and before
/// its last.
pub(crate) fn between(front: usize, spelling: &[u8]) -> &[u8]
    requires { front < length spelling.now }
    ensures { result.now ≡ between front spelling.now }
{
    &spelling[front..spelling.len() - 1]
}

/// Where a character of a quoted text stands: outside an escape, behind its backslash, or behind its first digit.
#[derive(Clone, Copy)]
enum Escape {
    Outside,
    Opened,
    HalfRead(u8),
}

/// The value of a hexadecimal digit.
fn hex_value(character: u8) -> u8
    requires { IsTrue (is_hex character) }
    ensures value { result ≡ digit_value character }
    ensures small { result < 16 }
{
    match char::from(character).to_digit(16) {
        Some(value) => value as u8,
        None => 0,
    }
}

/// The state behind a character, and the byte that ends with it.
fn step(state: Escape, character: u8) -> (Escape, Option<u8>)
    requires small { IsSmall state }
    requires stands { IsTrue (may_stand (escape_of state) character) }
    ensures small { IsSmall result.0 }
    ensures state { escape_of result.0 ≡ behind (escape_of state) character }
    ensures bytes { option_to_list result.1 ≡ bytes_at (escape_of state) character }
{
    match state {
        Escape::Outside => {
            if character == b'\\' {
                (Escape::Opened, None)
            } else {
                (Escape::Outside, Some(character))
            }
        }
        Escape::Opened => (Escape::HalfRead(hex_value(character)), None),
        Escape::HalfRead(high) => (Escape::Outside, Some(high * 16 + hex_value(character))),
    }
}

/// The bytes that these characters mean: each itself, and `\HH` the byte of that number.
pub(crate) fn bytes_meant(alloc: Global, body: &[u8]) -> Result<Vec<u8>, NoMemory>
    requires { IsTrue (is_body Outside body.now) }
    ensures { IfOk result (λ bytes. bytes.items ≡ bytes_meant body.now) }
{
    let mut bytes = Vec::new(alloc);
    let mut state = Escape::Outside;
    for character in body {
        let (next, byte) = step(state, *character);
        if let Some(byte) = byte {
            bytes.push(byte)?;
        }
        state = next;
    }
    Ok(bytes)
}
