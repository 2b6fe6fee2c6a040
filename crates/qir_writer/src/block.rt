//! Blocks, with their phis and instructions.

ghost use Rattle.std.specs.Prelude.{◌≡◌, ◌++◌, OnOk, map};
ghost use Rattle.std.specs.List.{flat_map};
ghost use Rattle.qir_module.specs.Text.{comma_joined};
ghost use Rattle.qir_module.specs.Written.{entry_text, phi_text, instr_text, item_line, body_text, block_text};

use crate::instruction::{write_assigned, write_instr, write_last};
use crate::number::write_decimal;
use crate::operand::{type_name, write_comma, write_operand, write_target};
use qir_module::{Block, Instr, Operand, Phi};
use qq_base::NoMemory;

/// Appends an entry of a phi.
fn write_entry(out: &mut Vec<u8>, truth: bool, operand: Operand, from: u32) -> Result<(), NoMemory>
    ensures { OnOk result (out.new.items ≡ out.old.items ++ entry_text truth (operand, from)) }
{
    out.extend_from_slice(b"[ ")?;
    write_operand(out, truth, operand)?;
    out.extend_from_slice(b", ")?;
    write_target(out, from)?;
    out.extend_from_slice(b" ]")?;
    Ok(())
}

/// Appends the entries of a phi.
fn write_entries(out: &mut Vec<u8>, truth: bool, entries: &[(Operand, u32)]) -> Result<(), NoMemory>
    ensures { OnOk result (out.new.items
        ≡ out.old.items ++ comma_joined (map (entry_text truth) entries.now)) }
{
    for (index, entry) in entries.iter().enumerate() {
        write_comma(out, index)?;
        write_entry(out, truth, entry.0, entry.1)?;
    }
    Ok(())
}

/// Appends a phi.
fn write_phi(out: &mut Vec<u8>, phi: &Phi) -> Result<(), NoMemory>
    ensures { OnOk result (out.new.items ≡ out.old.items ++ phi_text phi.now) }
{
    let truth = !phi.number;
    write_assigned(out, phi.register)?;
    out.extend_from_slice(b"phi ")?;
    out.extend_from_slice(type_name(truth).as_bytes())?;
    out.push(b' ')?;
    write_entries(out, truth, &phi.entries.items)
}

/// Appends the line of a phi.
fn write_phi_line(out: &mut Vec<u8>, phi: &Phi) -> Result<(), NoMemory>
    ensures { OnOk result (out.new.items ≡ out.old.items ++ item_line (phi_text phi.now)) }
{
    out.extend_from_slice(b"  ")?;
    write_phi(out, phi)?;
    out.push(b'\n')?;
    Ok(())
}

/// Appends the lines of phis.
fn write_phis(out: &mut Vec<u8>, phis: &[Phi]) -> Result<(), NoMemory>
    ensures { OnOk result (out.new.items
        ≡ out.old.items ++ flat_map (λ phi. item_line (phi_text phi)) phis.now) }
{
    for phi in phis {
        write_phi_line(out, phi)?;
    }
    Ok(())
}

/// Appends the line of an instruction.
fn write_instr_line(out: &mut Vec<u8>, instr: &Instr) -> Result<(), NoMemory>
    ensures { OnOk result (out.new.items ≡ out.old.items ++ item_line (instr_text instr.now)) }
{
    out.extend_from_slice(b"  ")?;
    write_instr(out, instr)?;
    out.push(b'\n')?;
    Ok(())
}

/// Appends the lines of instructions.
fn write_body(out: &mut Vec<u8>, body: &[Instr]) -> Result<(), NoMemory>
    ensures { OnOk result (out.new.items ≡ out.old.items ++ body_text body.now) }
{
    for instr in body {
        write_instr_line(out, instr)?;
    }
    Ok(())
}

/// Appends a block.
fn write_block(out: &mut Vec<u8>, block: &Block) -> Result<(), NoMemory>
    ensures { OnOk result (out.new.items ≡ out.old.items ++ block_text block.now) }
{
    out.push(b'b')?;
    write_decimal(out, u64::from(block.name))?;
    out.extend_from_slice(b":\n")?;
    write_phis(out, &block.phis.items)?;
    write_body(out, &block.body.items)?;
    out.extend_from_slice(b"  ")?;
    write_last(out, block.last)?;
    out.push(b'\n')?;
    Ok(())
}

/// Appends the blocks of a module.
pub fn write_blocks(out: &mut Vec<u8>, blocks: &[Block]) -> Result<(), NoMemory>
    ensures { OnOk result (out.new.items ≡ out.old.items ++ flat_map block_text blocks.now) }
{
    for block in blocks {
        write_block(out, block)?;
    }
    Ok(())
}
