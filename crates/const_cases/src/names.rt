// What names mean in the cases.
ghost use Rattle.std.specs.Prelude.{◌<◌, length, IsTrue};
ghost use Rattle.const_eval.specs.Seen.{HasNames};
ghost use Rattle.const_cases.specs.Numbered.{numbered};

use angle_arith::PiFraction;
use const_eval::{Const, Constants, Lookup};
use qasm_ast::{ExprId, Program, Word};
use std::alloc::{AllocError, Global};

/// What a name means.
#[derive(Drop)]
pub enum Named {
    /// A constant.
    Held(Const),
    /// A run-time value.
    Running,
    /// Some other thing.
    Other,
    /// Nothing.
    Unknown,
}

/// What each name of a program means, by the numbers of the names.
#[derive(Drop)]
pub struct Names {
    items: Vec<Named>,
}

impl Constants for Names {
    ghost names = { λ names. numbered 0 names.items.items };

    fn lookup(&self, name: u32) -> Lookup<'_> {
        match self.items.get(name as usize) {
            Some(Named::Held(value)) => Lookup::Value(value),
            Some(Named::Running) => Lookup::Variable,
            Some(Named::Other) => Lookup::Other,
            Some(Named::Unknown) => Lookup::Unknown,
            None => Lookup::Unknown,
        }
    }
}

impl Names {
    /// The names of a program, of which none is declared yet.
    pub fn new(alloc: Global, program: &Program) -> Result<Names, AllocError> {
        let mut items = Vec::new(alloc);
        for name in &program.names {
            items.push(predefined(name))?;
        }
        Ok(Names { items })
    }

    /// Says what a name means.
    pub fn declare(&mut self, name: u32, meaning: Named) {
        if let Some(place) = self.items.get_mut(name as usize) {
            *place = meaning;
        }
    }

    /// Whether an expression can be worked with these names: it is one of the program's, and there is a meaning for each
    /// name of the program.
    pub fn serve(&self, program: &Program, expr: ExprId) -> bool
        ensures in_range { IsTrue result → expr.0 < length program.now.exprs }
        ensures names { IsTrue result → HasNames program.now (⟦<Names as Constants>⟧.names self.now) }
    {
        (expr.0 as usize) < program.exprs.len() && self.items.len() == program.names.len()
    }
}

/// What a name means that is not declared.
fn predefined(name: &Word) -> Named {
    match name.items.as_slice() {
        b"pi" | b"\xCF\x80" => Named::Held(Const::Pi(PiFraction::pi())),
        b"tau" | b"\xCF\x84" => Named::Held(Const::Pi(PiFraction::tau())),
        _ => Named::Unknown,
    }
}
