//! Scopes within each other.

ghost use Rattle.std.specs.Prelude.{◌≡◌, ℕ, ◌≤◌, ◌∷◌, [], ◌↔◌, IsTrue, length, OnOk, OnErr, IfOk, IfErr, Err};
ghost use Rattle.std.specs.Option.{option_copied};
ghost use Rattle.scope_env.specs.Fault.{value_of};
ghost use Rattle.scope_env.specs.Scopes.{find, is_declared, declare, opened, close};

use crate::scope::{DeclareFault, Scope};
use qq_base::NoMemory;
use std::alloc::Global;
use std::marker::Model;
use std::mem;

/// Scopes within each other, of which at least one is open. They are seen as the list of the scopes, innermost
/// first, each a list of names with their values, newest first.
#[derive(Debug, Drop)]
pub struct Scopes<T> {
    alloc: Global,
    innermost: Scope<T>,
    /// The other scopes, the outermost first.
    outer: Vec<Scope<T>>,
}

impl<T> Model for Scopes<T> {
    ghost use Rattle.std.specs.Prelude.{List, ℕ, ◌∷◌, reverse};

    ghost Value = { List (List (ℕ × T)) };

    ghost view = { λ scopes. scopes.innermost ∷ reverse scopes.outer.items };
}

impl<T: Drop> Scopes<T> {
    /// One scope with no name. The allocator is kept for all that is declared later.
    pub fn new(alloc: Global) -> Result<Scopes<T>, NoMemory>
        ensures { IfOk result (λ scopes. scopes ≡ [] ∷ []) }
    {
        Ok(Scopes {
            alloc,
            innermost: Scope::new(alloc),
            outer: Vec::new(alloc),
        })
    }

    /// Opens a scope within the innermost.
    pub fn open(&mut self) -> Result<(), NoMemory>
        ensures ok { OnOk result (self.new ≡ opened self.old) }
        ensures err { OnErr result (self.new ≡ self.old) }
    {
        let enclosing = mem::replace(&mut self.innermost, Scope::new(self.alloc));
        match self.outer.push(enclosing) {
            Ok(()) => Ok(()),
            Err(refused) => {
                self.innermost = refused.value;
                Err(NoMemory)
            }
        }
    }

    /// Closes the innermost scope, and with it go its names.
    pub fn close(&mut self)
        requires { 2 ≤ length self.old }
        ensures { self.new ≡ close self.old }
    {
        if let Some(enclosing) = self.outer.pop() {
            self.innermost = enclosing;
        }
    }

    /// Declares a name in the innermost scope.
    ///
    /// Refused where that scope has the name, and for want of memory; then the value is handed back.
    pub fn declare(&mut self, name: u32, value: T) -> Result<(), DeclareFault<T>>
        ensures ok { OnOk result (self.new ≡ declare name value self.old) }
        ensures err { OnErr result (self.new ≡ self.old) }
        ensures returned { IfErr result (λ fault. value_of fault ≡ value) }
        ensures redeclared { (result ≡ Err (DeclareFault.Redeclared value)) ↔ IsTrue (is_declared name self.old) }
    {
        self.innermost.declare(name, value)
    }

    /// What the innermost scope that has the name declares, or nothing where no scope has it.
    pub fn find(&self, name: u32) -> Option<&T>
        ensures { option_copied result ≡ find name self.now }
    {
        if let Some(value) = self.innermost.find(name) {
            return Some(value);
        }
        for scope in self.outer.iter().rev() {
            if let Some(value) = scope.find(name) {
                return Some(value);
            }
        }
        None
    }
}
