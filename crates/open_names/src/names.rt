//! The open scopes of a program.
ghost use Rattle.std.specs.Prelude.{◌≡◌, ◌<◌, ◌↔◌, [], false, length, IsTrue, OnOk, OnErr, IfOk, IfErr, Err};
ghost use Rattle.std.specs.Option.{option_copied};
ghost use Rattle.qasm_ast.specs.View.{text_in};
ghost use Rattle.qasm_ast.specs.Tree.{text_at};
ghost use Rattle.scope_env.specs.Fault.{value_of};
ghost use Rattle.source_meaning.specs.Library.{included, predefined};
ghost use Rattle.scope_env.specs.OpenScopes.{Outside, Named, Opened, find, is_here, close};
ghost use Rattle.const_eval.specs.Things.{cells_in_scope, declared_qubits};
ghost use Rattle.open_names.specs.Counted.{counted};

use crate::counts::Counts;
use crate::scope::Scope;
use crate::slot::Slot;
use crate::standard::{library_row, standard_key};
use angle_arith::PiFraction;
use const_eval::Const;
use qasm_ast::Program;
use qq_base::{GateId, NoMemory};
use scope_env::DeclareFault;
use std::alloc::Global;
use std::marker::Model;

/// So many names a program may have, so that standard names have numbers behind them.
const MOST_NAMES: usize = 0xFFFF_FF00;

/// A scope that is open within others.
#[derive(Debug, Drop)]
pub struct Inner<A> {
    names: Scope<Slot<A>>,
    /// The sums over the scopes around it.
    around: Counts,
}

/// The open scopes of a program while it is walked.
#[derive(Drop)]
pub struct OpenNames<'p, A> {
    alloc: Global,
    program: &'p Program,
    globals: Scope<Slot<A>>,
    /// The scopes that are open within, the innermost last.
    inner: Vec<Inner<A>>,
    counts: Counts,
}

impl<'p, A> Model for OpenNames<'p, A> {
    ghost use Rattle.open_names.specs.Standing.{Standing};

    ghost Value = { Standing A };

    ghost use Rattle.open_names.specs.Keeping.{standing_of, AreKept};

    ghost view = { standing_of };

    ghost invariant = { AreKept };
}

impl<'p, A: Drop> OpenNames<'p, A> {
    ghost use Rattle.open_names.specs.Texts.{texts, standard_names};
    ghost use Rattle.open_names.specs.Standing.{Stands, scopes_of, things, is_top, with_row_slots, has_one_of};
    ghost use Rattle.open_names.specs.Keys.{IsKey};

    /// The names that a program has without declaring them. The allocator is kept for all that is declared later.
    pub fn new(alloc: Global, program: &'p Program) -> Result<OpenNames<'p, A>, NoMemory>
        ensures program { IfOk result (λ names. names.program ≡ program.now) }
        ensures scopes { IfOk result (λ names. things names ≡ predefined) }
    {
        let mut names = OpenNames::empty(alloc, program)?;
        names.put_standard(5, Slot::Row(GateId(30)))?;
        names.put_standard(4, Slot::Row(GateId(26)))?;
        names.put_standard(3, Slot::Fixed(Const::Pi(PiFraction::tau())))?;
        names.put_standard(2, Slot::Fixed(Const::Pi(PiFraction::tau())))?;
        names.put_standard(1, Slot::Fixed(Const::Pi(PiFraction::pi())))?;
        names.put_standard(0, Slot::Fixed(Const::Pi(PiFraction::pi())))?;
        Ok(names)
    }

    /// No names. A program with so many names that the standard ones have no numbers behind them has no memory.
    fn empty(alloc: Global, program: &'p Program) -> Result<OpenNames<'p, A>, NoMemory>
        ensures { IfOk result (Stands program.now Outside) }
    {
        if program.names.len() > MOST_NAMES {
            return Err(NoMemory);
        }
        Ok(OpenNames {
            alloc,
            program,
            globals: Scope::new(alloc)?,
            inner: Vec::new(alloc),
            counts: Counts {
                cells: 0,
                qubits: 0,
            },
        })
    }

    /// Declares a standard name.
    fn put_standard(&mut self, index: u8, slot: Slot<A>) -> Result<(), NoMemory>
        requires { index < 38 }
        ensures { OnOk result (Stands self.old.program (Named (text_at standard_names index) slot (scopes_of self.old)) self.new) }
    {
        let key = standard_key(self.program, index);
        match self.put(key, slot) {
            Ok(()) => Ok(()),
            Err(_) => Err(NoMemory),
        }
    }

    /// Opens a scope within the others.
    pub fn open(&mut self) -> Result<(), NoMemory>
        ensures ok { OnOk result (Stands self.old.program (Opened (scopes_of self.old)) self.new) }
        ensures err { OnErr result (self.new ≡ self.old) }
    {
        let names = Scope::new(self.alloc)?;
        self.inner.push(Inner {
            names,
            around: self.counts,
        })?;
        Ok(())
    }

    /// Closes the innermost scope, and with it go its names.
    pub fn close(&mut self)
        requires { is_top (scopes_of self.old) ≡ false }
        ensures { Stands self.old.program (close (scopes_of self.old)) self.new }
    {
        if let Some(scope) = self.inner.pop() {
            self.counts = scope.around;
        }
    }

    /// Declares a name of the program in the innermost scope.
    ///
    /// Refused where that scope has the name, and for want of memory; then what it stands for is handed back.
    pub fn declare(&mut self, name: u32, slot: Slot<A>) -> Result<(), DeclareFault<Slot<A>>>
        requires { name < length self.old.program.names }
        ensures ok { OnOk result (Stands self.old.program (Named (text_in self.old.program name) slot (scopes_of self.old)) self.new) }
        ensures err { OnErr result (self.new ≡ self.old) }
        ensures returned { IfErr result (λ fault. value_of fault ≡ slot) }
        ensures redeclared { (result ≡ Err (DeclareFault.Redeclared slot)) ↔ IsTrue (is_here (text_in self.old.program name) (scopes_of self.old)) }
    {
        let _ = &self.program;
        self.put(name, slot)
    }

    /// Declares a name by its number.
    fn put(&mut self, key: u32, slot: Slot<A>) -> Result<(), DeclareFault<Slot<A>>>
        requires { IsKey (texts self.old.program) key }
        ensures ok { OnOk result (Stands self.old.program (Named (text_at (texts self.old.program) key) slot (scopes_of self.old)) self.new) }
        ensures err { OnErr result (self.new ≡ self.old) }
        ensures returned { IfErr result (λ fault. value_of fault ≡ slot) }
        ensures redeclared { (result ≡ Err (DeclareFault.Redeclared slot)) ↔ IsTrue (is_here (text_at (texts self.old.program) key) (scopes_of self.old)) }
    {
        if self.inner.is_empty() {
            self.put_global(key, slot)
        } else {
            self.put_inner(key, slot)
        }
    }

    /// Declares a global name by its number.
    fn put_global(&mut self, key: u32, slot: Slot<A>) -> Result<(), DeclareFault<Slot<A>>>
        requires key { IsKey (texts self.old.program) key }
        requires top { self.old.inner ≡ [] }
        ensures ok { OnOk result (Stands self.old.program (Named (text_at (texts self.old.program) key) slot (scopes_of self.old)) self.new) }
        ensures err { OnErr result (self.new ≡ self.old) }
        ensures returned { IfErr result (λ fault. value_of fault ≡ slot) }
        ensures redeclared { (result ≡ Err (DeclareFault.Redeclared slot)) ↔ IsTrue (is_here (text_at (texts self.old.program) key) (scopes_of self.old)) }
    {
        let counts = self.counts.with(&slot);
        self.globals.declare(key, slot)?;
        self.counts = counts;
        Ok(())
    }

    /// Declares a name by its number in the innermost of the scopes that are open within the global one.
    fn put_inner(&mut self, key: u32, slot: Slot<A>) -> Result<(), DeclareFault<Slot<A>>>
        requires key { IsKey (texts self.old.program) key }
        requires inner { 0 < length self.old.inner }
        ensures ok { OnOk result (Stands self.old.program (Named (text_at (texts self.old.program) key) slot (scopes_of self.old)) self.new) }
        ensures err { OnErr result (self.new ≡ self.old) }
        ensures returned { IfErr result (λ fault. value_of fault ≡ slot) }
        ensures redeclared { (result ≡ Err (DeclareFault.Redeclared slot)) ↔ IsTrue (is_here (text_at (texts self.old.program) key) (scopes_of self.old)) }
    {
        let counts = self.counts.with(&slot);
        let last = self.inner.len() - 1;
        self.inner[last].names.declare(key, slot)?;
        self.counts = counts;
        Ok(())
    }

    /// What the innermost scope that has the name declares, or nothing where no scope has it.
    pub fn find(&self, name: u32) -> Option<&Slot<A>>
        requires { name < length self.now.program.names }
        ensures { option_copied result ≡ find (text_in self.now.program name) (scopes_of self.now) }
    {
        for scope in self.inner.iter().rev() {
            if let Some(slot) = scope.names.find(name) {
                return Some(slot);
            }
        }
        self.globals.find(name)
    }

    /// Whether the innermost scope has the name.
    pub fn is_here(&self, name: u32) -> bool
        requires { name < length self.now.program.names }
        ensures { result ≡ is_here (text_in self.now.program name) (scopes_of self.now) }
    {
        let _ = &self.program;
        self.has(name)
    }

    /// Whether the innermost scope has the name with this number.
    fn has(&self, key: u32) -> bool
        requires { IsKey (texts self.now.program) key }
        ensures { result ≡ is_here (text_at (texts self.now.program) key) (scopes_of self.now) }
    {
        match self.inner.last() {
            Some(scope) => scope.names.find(key).is_some(),
            None => self.globals.find(key).is_some(),
        }
    }

    /// Declares the names of the library in the innermost scope.
    ///
    /// Refused where that scope has one of them, and then nothing is changed, and for want of memory.
    pub fn include(&mut self) -> Result<(), DeclareFault<()>>
        ensures ok { OnOk result (Stands self.old.program (with_row_slots included (scopes_of self.old)) self.new) }
        ensures redeclared { (result ≡ Err (DeclareFault.Redeclared tt)) ↔ IsTrue (has_one_of included (scopes_of self.old)) }
        ensures refused { result ≡ Err (DeclareFault.Redeclared tt) → self.new ≡ self.old }
    {
        if self.has_library() {
            return Err(DeclareFault::Redeclared(()));
        }
        match self.put_library() {
            Ok(()) => Ok(()),
            Err(NoMemory) => Err(DeclareFault::Memory(())),
        }
    }

    /// Whether the innermost scope has a name of the library.
    fn has_library(&self) -> bool
        ensures { result ≡ has_one_of included (scopes_of self.now) }
    {
        for place in 0..32u8 {
            let key = standard_key(self.program, place + 6);
            if self.has(key) {
                return true;
            }
        }
        false
    }

    /// Declares the names of the library.
    fn put_library(&mut self) -> Result<(), NoMemory>
        ensures { OnOk result (Stands self.old.program (with_row_slots included (scopes_of self.old)) self.new) }
    {
        for place in 0..32u8 {
            self.put_standard(place + 6, Slot::Row(library_row(place)))?;
        }
        Ok(())
    }

    /// The cells in scope, counted up to 2^64 - 1.
    pub fn cells(&self) -> u64
        ensures { result ≡ counted (cells_in_scope (things self.now)) }
    {
        self.counts.cells
    }

    /// The qubits that are declared so far, counted up to 2^64 - 1.
    pub fn qubits(&self) -> u64
        ensures { result ≡ counted (declared_qubits (things self.now)) }
    {
        self.counts.qubits
    }
}
