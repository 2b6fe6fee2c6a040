// The writer of QIR text: the canonical text of a module, for every instruction of the profile.
//
// It stands on `qir_module`, whose definition `written` says what the text is, and on `qq_base` for want of
// memory. The layer above uses the one clause of `write_module`.
#![tactic(auto)]

ghost use Rattle.std.specs.Prelude.{◌≡◌, ◌++◌, [], ◌∷◌, OnOk, IfOk, codes};
ghost use Rattle.std.specs.List.{flat_map};
ghost use Rattle.qir_module.specs.Text.{line};
ghost use Rattle.qir_module.specs.Written.{block_text, declaration_text, written};

use crate::block::write_blocks;
use crate::flags::{write_attributes, write_flags};
use crate::function::write_declaration;
use crate::label::write_labels;
use qir_module::{Block, Function, Module};
use qq_base::NoMemory;
use std::alloc::Global;

mod block;
mod flags;
mod function;
mod instruction;
mod label;
mod number;
mod operand;
#[cfg(test)]
mod tests;

/// Appends the definition of the module's one function, and the blank line behind it.
fn write_definition(out: &mut Vec<u8>, blocks: &[Block]) -> Result<(), NoMemory>
    ensures { OnOk result (out.new.items ≡ out.old.items
        ++ (line (codes "define i64 @main() #0 {") ++ flat_map block_text blocks.now
        ++ line (codes "}") ++ line [])) }
{
    out.extend_from_slice(b"define i64 @main() #0 {\n")?;
    write_blocks(out, blocks)?;
    out.extend_from_slice(b"}\n\n")?;
    Ok(())
}

/// Appends the declarations, and the blank line behind them.
fn write_declarations(out: &mut Vec<u8>, declarations: &[Function]) -> Result<(), NoMemory>
    ensures { OnOk result (out.new.items
        ≡ out.old.items ++ (flat_map declaration_text declarations.now ++ line [])) }
{
    for function in declarations {
        write_declaration(out, *function)?;
    }
    out.push(b'\n')?;
    Ok(())
}

/// The canonical text of a module: labels, the definition, declarations, attributes and flags, in this
/// order, one item a line. It fails only for want of memory.
pub fn write_module(alloc: Global, module: &Module) -> Result<Vec<u8>, NoMemory>
    ensures { IfOk result (λ text. text.items ≡ written «module».now) }
{
    let mut out = Vec::new(alloc);
    write_labels(&mut out, &module.labels.items)?;
    write_definition(&mut out, &module.blocks.items)?;
    write_declarations(&mut out, &module.declarations.items)?;
    write_attributes(&mut out, module)?;
    out.extend_from_slice(b"\n!llvm.module.flags = !{!0, !1, !2, !3}\n\n")?;
    write_flags(&mut out, module)?;
    Ok(out)
}
