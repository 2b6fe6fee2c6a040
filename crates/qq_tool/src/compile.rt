//! From a thin program to QIR text.

ghost use Rattle.std.specs.Prelude.{IfOk};
ghost use Rattle.qq_tool.specs.Compiled.{IsCompiled};

use crate::lower::lower_thin;
use crate::thin::ThinProgram;
use qir_text::written_modules_are_read;
use qir_writer::write_module;
use qq_base::NoMemory;
use std::alloc::Global;

/// The QIR text of a program.
pub fn compiled(alloc: Global, program: &ThinProgram) -> Result<Vec<u8>, NoMemory>
    ensures { IfOk result (λ text. IsCompiled program.now text.items) }
{
    let module = lower_thin(alloc, program)?;
    written_modules_are_read();
    write_module(alloc, &module)
}
