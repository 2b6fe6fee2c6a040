//! Laws of this crate's definitions. No program calls these functions; each has an empty body, and its contract is
//! the law.

ghost use Rattle.qir_module.specs.Functions.{FunctionNamesDiffer};

/// No two functions have one name.
pub fn function_names_differ()
    ensures { FunctionNamesDiffer }
{}
