//! One scope.

ghost use Rattle.std.specs.Prelude.{◌≡◌, ◌∷◌, [], ◌↔◌, IsTrue, nat_eq, is_some, OnOk, OnErr, IfErr, Err};
ghost use Rattle.std.specs.Map.{lookup};
ghost use Rattle.std.specs.Option.{option_copied};
ghost use Rattle.scope_env.specs.Fault.{value_of};

use indexmap::IndexMap;
use std::alloc::Global;
use std::marker::Model;

/// Why a name is not declared. The value is handed back.
#[derive(Debug, Drop)]
pub enum DeclareFault<T> {
    /// Want of memory.
    Memory(T),
    /// The innermost scope has the name already.
    Redeclared(T),
}

/// The names of one scope, each with its value, seen as the list of what was declared, newest first.
#[derive(Debug, Drop)]
pub struct Scope<T> {
    names: IndexMap<u32, T>,
}

impl<T> Model for Scope<T> {
    ghost use Rattle.std.specs.Prelude.{◌≡◌, List, ℕ, reverse, nat_eq};
    ghost use Rattle.std.specs.Map.{lookup};

    ghost Value = { List (ℕ × T) };

    ghost view = { λ scope. reverse scope.names.entries };

    // A name stands once, so both orders have one answer.
    ghost invariant = { λ scope. (name : ℕ) → lookup (nat_eq name) (reverse scope.names.entries) ≡ lookup (nat_eq name) scope.names.entries };
}

impl<T: Drop> Scope<T> {
    /// A scope with no name.
    pub fn new(alloc: Global) -> Scope<T>
        ensures { result ≡ [] }
    {
        Scope {
            names: IndexMap::new(alloc),
        }
    }

    /// The value of a name.
    pub fn find(&self, name: u32) -> Option<&T>
        ensures { option_copied result ≡ lookup (nat_eq name) self.now }
    {
        self.names.get(&name)
    }

    /// Declares a name.
    pub fn declare(&mut self, name: u32, value: T) -> Result<(), DeclareFault<T>>
        ensures ok { OnOk result (self.new ≡ (name, value) ∷ self.old) }
        ensures err { OnErr result (self.new ≡ self.old) }
        ensures returned { IfErr result (λ fault. value_of fault ≡ value) }
        ensures redeclared { (result ≡ Err (DeclareFault.Redeclared value)) ↔ IsTrue (is_some (lookup (nat_eq name) self.old)) }
    {
        if self.names.contains_key(&name) {
            return Err(DeclareFault::Redeclared(value));
        }
        match self.names.insert(name, value) {
            Ok(_) => Ok(()),
            Err(refused) => Err(DeclareFault::Memory(refused.value.1)),
        }
    }
}
