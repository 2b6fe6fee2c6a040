//! What the statements in front of a call declare.

use crate::answers::{Answer, OperandAnswer};
use crate::env::{Entry, Env, Named, Outer};
use angle_arith::PiFraction;
use anyhow::{Result, bail};
use const_eval::Const;
use gate_table::target;
use qasm_ast::{Items, OperandName, OperandRef, Program, StmtId, Word};
use qq_base::{GateId, QubitId, Rule};
use std::alloc::{AllocError, Global};

/// The qubits that a program may have.
const MOST_QUBITS: u32 = 1024;

/// What was declared so far.
#[derive(Drop)]
pub struct Declared {
    pub env: Env,
    /// How many names were declared.
    count: u32,
    /// How many qubits were declared.
    qubits: u32,
}

impl Declared {
    /// The names of a program, of which none is declared yet.
    pub fn new(alloc: Global, program: &Program) -> Result<Declared, AllocError> {
        let mut entries = Vec::new(alloc);
        for name in &program.names {
            entries.push(Entry {
                named: predefined(name),
                order: 0,
            })?;
        }
        let orders = vec![in alloc; 0; program.stmts.len()]?;
        let env = Env {
            entries,
            orders,
            operands: Vec::new(alloc),
            outers: Vec::new(alloc),
        };
        Ok(Declared {
            env,
            count: 0,
            qubits: 0,
        })
    }

    /// Says what a name means.
    pub fn declare(&mut self, name: u32, named: Named) {
        self.count = self.count.saturating_add(1);
        let order = self.count;
        if let Some(entry) = self.env.entries.get_mut(name as usize) {
            *entry = Entry { named, order };
        }
    }

    /// Declares a gate or a subroutine.
    pub fn define(&mut self, name: u32, def: StmtId, named: Named) {
        self.declare(name, named);
        if let Some(order) = self.env.orders.get_mut(def.0 as usize) {
            *order = self.count;
        }
    }

    /// Declares the gates of the library.
    pub fn include(&mut self, program: &Program) {
        let table = target();
        let mut number = 0u32;
        for name in &program.names {
            if let Some(gate) = table.by_name(name.items.as_slice()) {
                self.declare(number, Named::Row(gate));
            }
            number = number.saturating_add(1);
        }
    }

    /// Declares qubits: one alone where there is no width.
    pub fn declare_qubits(&mut self, alloc: Global, name: u32, width: Option<u32>) -> Result<()> {
        let count = width.unwrap_or(1);
        let mut ids = Vec::new(alloc);
        for _ in 0..count {
            ids.push(QubitId(self.qubits))?;
            self.qubits = self.qubits.saturating_add(1);
        }
        let single = width.is_none();
        self.declare(name, Named::Qubits { ids, single });
        Ok(())
    }

    /// The qubits of a register, where a name is one.
    pub fn register(&self, operand: &OperandRef) -> Result<&[QubitId]> {
        let OperandName::Name(name) = operand.name else {
            bail!("no register");
        };
        match self.env.entries.get(name as usize) {
            Some(
                Entry {
                    named: Named::Qubits { ids, .. },
                    ..
                },
            ) => Ok(ids),
            _ => bail!("no register"),
        }
    }

    /// Adds an argument of the outermost call.
    pub fn add_outer(&mut self, argument: Outer) -> Result<()> {
        self.env.outers.push(argument)?;
        Ok(())
    }

    /// Adds the answers to the operands of a call.
    pub fn add_operands(&mut self, alloc: Global, operands: &Items<OperandRef>) -> Result<()> {
        for operand in &operands.items {
            let name = operand.name;
            let answer = self.answer(alloc, name)?;
            self.env.operands.push(OperandAnswer { name, answer })?;
        }
        Ok(())
    }

    /// The qubits of an operand.
    fn answer(&self, alloc: Global, name: OperandName) -> Result<Answer, AllocError> {
        match name {
            OperandName::Name(name) => match self.env.entries.get(name as usize) {
                Some(entry) => named_answer(alloc, entry),
                None => Ok(Answer::Broken(Rule::Unknown)),
            },
            OperandName::Hardware(number) => {
                if self.qubits > 0 {
                    return Ok(Answer::Broken(Rule::MixedQubits));
                }
                if number >= MOST_QUBITS {
                    return Ok(Answer::Broken(Rule::QubitRange));
                }
                Ok(Answer::Found {
                    ids: vec![in alloc; QubitId(number)]?,
                    single: true,
                })
            }
        }
    }
}

/// The qubits of a name.
fn named_answer(alloc: Global, entry: &Entry) -> Result<Answer, AllocError> {
    match &entry.named {
        Named::Qubits { ids, single } => Ok(Answer::Found {
            ids: ids.to_vec(alloc)?,
            single: *single,
        }),
        Named::Unknown => Ok(Answer::Broken(Rule::Unknown)),
        _ => Ok(Answer::Broken(Rule::WrongKind)),
    }
}

/// What a name means that is not declared.
fn predefined(name: &Word) -> Named {
    match name.items.as_slice() {
        b"pi" | b"\xCF\x80" => Named::Held(Const::Pi(PiFraction::pi())),
        b"tau" | b"\xCF\x84" => Named::Held(Const::Pi(PiFraction::tau())),
        b"U" => Named::Row(GateId(26)),
        b"gphase" => Named::Row(GateId(30)),
        _ => Named::Unknown,
    }
}
