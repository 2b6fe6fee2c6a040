//! The functions that a module may call, as its text names and declares them.

ghost use Rattle.std.specs.Prelude.{◌≡◌, ◌++◌, OnOk, map};
ghost use Rattle.qir_module.specs.Functions.{row_of};
ghost use Rattle.qir_module.specs.Kinds.{kind_of};
ghost use Rattle.qir_module.specs.Text.{comma_joined};
ghost use Rattle.qir_module.specs.Written.{row_name, kind_text, gives_text, group_text, declaration_text};
ghost use Rattle.qir_writer.specs.Parts.{row_line};

use crate::operand::write_comma;
use qir_module::{Function, FunctionRow, Kind};
use qq_base::NoMemory;

/// The name of a function, empty where it has none.
pub fn function_name(function: Function) -> &'static str
    ensures { result.now ≡ row_name (row_of function.0) }
{
    match function.row() {
        None => "",
        Some(row) => row.name,
    }
}

/// The type of an argument of a kind.
fn kind_name(kind: Kind) -> &'static str
    ensures { result.now ≡ kind_text (kind_of kind) }
{
    match kind {
        Kind::Number => "i64",
        Kind::Truth => "i1",
        Kind::Null | Kind::Qubit | Kind::Result | Kind::Label => "ptr",
    }
}

/// Appends the types of the arguments.
fn write_kinds(out: &mut Vec<u8>, kinds: &[Kind]) -> Result<(), NoMemory>
    ensures { OnOk result (out.new.items
        ≡ out.old.items ++ comma_joined (map (λ kind. kind_text (kind_of kind)) kinds.now)) }
{
    for (index, kind) in kinds.iter().enumerate() {
        write_comma(out, index)?;
        out.extend_from_slice(kind_name(*kind).as_bytes())?;
    }
    Ok(())
}

/// What a call gives.
pub fn gives_name(gives: bool) -> &'static str
    ensures { result.now ≡ gives_text gives }
{
    if gives { "i1" } else { "void" }
}

/// The group of attributes behind a declaration, where there is one.
fn group_name(irreversible: bool) -> &'static str
    ensures { result.now ≡ group_text irreversible }
{
    if irreversible { " #1" } else { "" }
}

/// Appends the line that declares the function of a row.
fn write_row(out: &mut Vec<u8>, row: FunctionRow) -> Result<(), NoMemory>
    ensures { OnOk result (out.new.items ≡ out.old.items ++ row_line row) }
{
    out.extend_from_slice(b"declare ")?;
    out.extend_from_slice(gives_name(row.gives).as_bytes())?;
    out.extend_from_slice(b" @")?;
    out.extend_from_slice(row.name.as_bytes())?;
    out.push(b'(')?;
    write_kinds(out, row.takes)?;
    out.push(b')')?;
    out.extend_from_slice(group_name(row.irreversible).as_bytes())?;
    out.push(b'\n')?;
    Ok(())
}

/// Appends the declaration of a function, where it has a row.
pub fn write_declaration(out: &mut Vec<u8>, function: Function) -> Result<(), NoMemory>
    ensures { OnOk result (out.new.items ≡ out.old.items ++ declaration_text function) }
{
    match function.row() {
        None => Ok(()),
        Some(row) => write_row(out, row),
    }
}
