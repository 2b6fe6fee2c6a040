//! One scope.
ghost use Rattle.std.specs.Prelude.{◌≡◌, ◌∷◌, [], ◌↔◌, IsTrue, nat_eq, is_some, OnOk, OnErr, IfOk, IfErr, Err};
ghost use Rattle.std.specs.Map.{lookup};
ghost use Rattle.std.specs.Option.{option_copied};
ghost use Rattle.scope_env.specs.Fault.{value_of};

use qq_base::NoMemory;
use scope_env::{DeclareFault, Scopes};
use std::alloc::Global;
use std::marker::Model;

/// The names of one scope, each with its value, seen as the list of what was declared, newest first.
#[derive(Debug, Drop)]
pub struct Scope<T> {
    names: Scopes<T>,
}

impl<T> Model for Scope<T> {
    ghost use Rattle.std.specs.Prelude.{◌≡◌, List, ℕ, length};
    ghost use Rattle.open_names.specs.Innermost.{innermost};

    ghost Value = { List (ℕ × T) };

    ghost view = { λ scope. innermost scope.names };

    // No scope is opened within it.
    ghost invariant = { λ scope. length scope.names ≡ 1 };
}

impl<T: Drop> Scope<T> {
    /// A scope with no name. The allocator is kept for all that is declared later.
    pub fn new(alloc: Global) -> Result<Scope<T>, NoMemory>
        ensures { IfOk result (λ scope. scope ≡ []) }
    {
        Ok(Scope {
            names: Scopes::new(alloc)?,
        })
    }

    /// The value of a name.
    pub fn find(&self, name: u32) -> Option<&T>
        ensures { option_copied result ≡ lookup (nat_eq name) self.now }
    {
        self.names.find(name)
    }

    /// Declares a name. Refused where the scope has it, and for want of memory; then the value is handed back.
    pub fn declare(&mut self, name: u32, value: T) -> Result<(), DeclareFault<T>>
        ensures ok { OnOk result (self.new ≡ (name, value) ∷ self.old) }
        ensures err { OnErr result (self.new ≡ self.old) }
        ensures returned { IfErr result (λ fault. value_of fault ≡ value) }
        ensures redeclared { (result ≡ Err (DeclareFault.Redeclared value)) ↔ IsTrue (is_some (lookup (nat_eq name) self.old)) }
    {
        self.names.declare(name, value)
    }
}
