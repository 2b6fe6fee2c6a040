//! Registers, targets, types and operands.

ghost use Rattle.std.specs.Prelude.{◌≡◌, ◌++◌, OnOk};
ghost use Rattle.qir_writer.specs.Parts.{comma_before};
ghost use Rattle.qir_module.specs.Written.{register_text, target_text, type_text, truth_text, fixed_text, operand_text, typed_text, id_text, label_name_text};

use crate::number::{write_decimal, write_signed};
use qir_module::Operand;
use qq_base::NoMemory;

/// Appends a register.
pub fn write_register(out: &mut Vec<u8>, register: u32) -> Result<(), NoMemory>
    ensures { OnOk result (out.new.items ≡ out.old.items ++ register_text register) }
{
    out.extend_from_slice(b"%r")?;
    write_decimal(out, u64::from(register))
}

/// Appends a block's name where it is jumped to.
pub fn write_target(out: &mut Vec<u8>, name: u32) -> Result<(), NoMemory>
    ensures { OnOk result (out.new.items ≡ out.old.items ++ target_text name) }
{
    out.extend_from_slice(b"%b")?;
    write_decimal(out, u64::from(name))
}

/// The type of a truth value, or of a word.
pub fn type_name(truth: bool) -> &'static str
    ensures { result.now ≡ type_text truth }
{
    if truth { "i1" } else { "i64" }
}

/// A truth value.
pub fn truth_name(value: bool) -> &'static str
    ensures { result.now ≡ truth_text value }
{
    if value { "true" } else { "false" }
}

/// Appends a fixed word, or a fixed truth value.
pub fn write_fixed(out: &mut Vec<u8>, truth: bool, value: i64) -> Result<(), NoMemory>
    ensures { OnOk result (out.new.items ≡ out.old.items ++ fixed_text truth value) }
{
    if truth {
        out.extend_from_slice(truth_name(value != 0).as_bytes())?;
        return Ok(());
    }
    write_signed(out, value)
}

/// Appends an operand.
pub fn write_operand(out: &mut Vec<u8>, truth: bool, operand: Operand) -> Result<(), NoMemory>
    ensures { OnOk result (out.new.items ≡ out.old.items ++ operand_text truth operand) }
{
    match operand {
        Operand::Register(register) => write_register(out, register),
        Operand::Fixed(value) => write_fixed(out, truth, value),
    }
}

/// Appends an operand behind its type.
pub fn write_typed(out: &mut Vec<u8>, truth: bool, operand: Operand) -> Result<(), NoMemory>
    ensures { OnOk result (out.new.items ≡ out.old.items ++ typed_text truth operand) }
{
    out.extend_from_slice(type_name(truth).as_bytes())?;
    out.push(b' ')?;
    write_operand(out, truth, operand)
}

/// Appends a qubit or a result.
pub fn write_id(out: &mut Vec<u8>, id: u32) -> Result<(), NoMemory>
    ensures { OnOk result (out.new.items ≡ out.old.items ++ id_text id) }
{
    if id == 0 {
        out.extend_from_slice(b"null")?;
        return Ok(());
    }
    out.extend_from_slice(b"inttoptr (i64 ")?;
    write_decimal(out, u64::from(id))?;
    out.extend_from_slice(b" to ptr)")?;
    Ok(())
}

/// Appends what stands in front of an item of a list: a comma and a blank, but for the first.
pub fn write_comma(out: &mut Vec<u8>, index: usize) -> Result<(), NoMemory>
    ensures { OnOk result (out.new.items ≡ out.old.items ++ comma_before index) }
{
    if index > 0 {
        out.extend_from_slice(b", ")?;
    }
    Ok(())
}

/// Appends a label's name.
pub fn write_label_name(out: &mut Vec<u8>, label: u64) -> Result<(), NoMemory>
    ensures { OnOk result (out.new.items ≡ out.old.items ++ label_name_text label) }
{
    out.push(b'@')?;
    write_decimal(out, label)
}
