//! Labels, with their escapes.

ghost use Rattle.std.specs.Prelude.{◌≡◌, ◌<◌, ◌++◌, OnOk, codes};
ghost use Rattle.std.specs.List.{flat_map};
ghost use Rattle.std.specs.Fmt.{decimal};
ghost use Rattle.qir_module.specs.Text.{is_plain as is_plain_of, hex_digit as hex_digit_of, escaped};
ghost use Rattle.qir_module.specs.Written.{label_name_text, label_text, labels_text, behind_labels};

use crate::number::write_decimal;
use crate::operand::write_label_name;
use qq_base::{Label, NoMemory};

/// Whether a byte stands for itself in a quoted text.
fn is_plain(byte: u8) -> bool
    ensures { result ≡ is_plain_of byte }
{
    matches!(byte, b' '..=b'~') && byte != b'"' && byte != b'\\'
}

/// The upper case hexadecimal digit of a number.
fn hex_digit(value: u8) -> u8
    requires { value < 16 }
    ensures { result ≡ hex_digit_of value }
{
    if value < 10 {
        b'0' + value
    } else {
        b'A' + (value - 10)
    }
}

/// Appends a byte of a quoted text.
fn write_escaped(out: &mut Vec<u8>, byte: u8) -> Result<(), NoMemory>
    ensures { OnOk result (out.new.items ≡ out.old.items ++ escaped byte) }
{
    if is_plain(byte) {
        out.push(byte)?;
        return Ok(());
    }
    out.extend_from_slice(&[b'\\', hex_digit(byte / 16), hex_digit(byte % 16)])?;
    Ok(())
}

/// Appends the bytes of a quoted text.
fn write_quoted(out: &mut Vec<u8>, bytes: &[u8]) -> Result<(), NoMemory>
    ensures { OnOk result (out.new.items ≡ out.old.items ++ flat_map escaped bytes.now) }
{
    for byte in bytes {
        write_escaped(out, *byte)?;
    }
    Ok(())
}

/// Appends what stands in front of the bytes of a label: its name and its length.
fn write_label_head(out: &mut Vec<u8>, number: usize, length: usize) -> Result<(), NoMemory>
    ensures { OnOk result (out.new.items ≡ out.old.items
        ++ label_name_text number ++ codes " = internal constant [" ++ decimal length
        ++ codes " x i8] c\"") }
{
    write_label_name(out, number as u64)?;
    out.extend_from_slice(b" = internal constant [")?;
    write_decimal(out, length as u64)?;
    out.extend_from_slice(b" x i8] c\"")?;
    Ok(())
}

/// Appends the line of a label, by its number.
fn write_label(out: &mut Vec<u8>, number: usize, label: &Label) -> Result<(), NoMemory>
    ensures { OnOk result (out.new.items ≡ out.old.items ++ label_text number label.now) }
{
    write_label_head(out, number, label.items.len())?;
    write_quoted(out, &label.items)?;
    out.extend_from_slice(b"\"\n")?;
    Ok(())
}

/// Appends the labels of a module, and the blank line behind them.
pub fn write_labels(out: &mut Vec<u8>, labels: &[Label]) -> Result<(), NoMemory>
    ensures { OnOk result (out.new.items
        ≡ out.old.items ++ labels_text 0 labels.now ++ behind_labels labels.now) }
{
    for (number, label) in labels.iter().enumerate() {
        write_label(out, number, label)?;
    }
    if !labels.is_empty() {
        out.push(b'\n')?;
    }
    Ok(())
}
