//! Programs as short texts. A statement stands in round brackets, with its place behind them, and with that of its closing
//! brace where it has one: `(if a {(end)@1:10} {})@1:1-1:15`.

use crate::exprs::{Trees, operator, place};
use qasm_ast::{
    Declared, Items, Modifier, OperandRef, Program, Stmt, StmtId, StmtKind, TypeRef, ValueRef,
};
use std::alloc::{AllocError, Global};

/// The statements of a program, each behind a blank.
pub fn shown_program(alloc: Global, program: &Program) -> Result<String, AllocError> {
    let mut trees = Trees::new(alloc, false);
    for name in &program.names {
        trees.add_name(name)?;
    }
    trees.add_exprs(&program.exprs)?;
    // A statement names only earlier ones.
    let mut lines = Lines {
        alloc,
        trees,
        stmts: Vec::new(alloc),
    };
    for stmt in &program.stmts {
        let line = lines.shown(stmt)?;
        lines.stmts.push(line)?;
    }
    let mut whole = String::new(alloc);
    for id in &program.top.items {
        write!(whole, " {}", lines.stmt(*id))?;
    }
    Ok(whole)
}

/// The texts of statements, by their numbers.
#[derive(Drop)]
struct Lines {
    alloc: Global,
    trees: Trees,
    stmts: Vec<String>,
}

impl Lines {
    fn stmt(&self, id: StmtId) -> &str {
        match self.stmts.get(id.0 as usize) {
            Some(stmt) => stmt.as_str(),
            None => "no such statement",
        }
    }

    fn shown(&self, stmt: &Stmt) -> Result<String, AllocError> {
        let kind = self.declaration(&stmt.kind)?;
        let begin = place(self.alloc, stmt.at)?;
        if stmt.close == stmt.at {
            return format!(in self.alloc; "({kind}){begin}");
        }
        format!(in self.alloc; "({kind}){begin}-{}:{}", stmt.close.line, stmt.close.column)
    }

    /// Statements in braces.
    fn body(&self, ids: &Items<StmtId>) -> Result<String, AllocError> {
        let mut line = String::new(self.alloc);
        for id in &ids.items {
            if !line.is_empty() {
                line.push(' ')?;
            }
            line.push_str(self.stmt(*id))?;
        }
        format!(in self.alloc; "{{{line}}}")
    }

    fn variable(&self, ty: TypeRef, name: Declared) -> Result<String, AllocError> {
        let ty = self.trees.typed(ty)?;
        let name = self.trees.declared(name)?;
        format!(in self.alloc; "{ty} {name}")
    }

    fn value(&self, value: &ValueRef) -> Result<String, AllocError> {
        match value {
            ValueRef::Expr(id) => String::from_str(self.alloc, self.trees.expr(*id)),
            ValueRef::Measure(operand) => {
                let operand = self.trees.operand(operand)?;
                format!(in self.alloc; "measure {operand}")
            }
        }
    }

    /// Operands, each behind a blank.
    fn operands(&self, operands: &Items<OperandRef>) -> Result<String, AllocError> {
        let mut line = String::new(self.alloc);
        for operand in &operands.items {
            let operand = self.trees.operand(operand)?;
            write!(line, " {operand}")?;
        }
        Ok(line)
    }

    /// Names, each behind a blank.
    fn names(&self, names: &Items<Declared>) -> Result<String, AllocError> {
        let mut line = String::new(self.alloc);
        for name in &names.items {
            let name = self.trees.declared(*name)?;
            write!(line, " {name}")?;
        }
        Ok(line)
    }

    /// Parameters with their types, each behind a blank.
    fn params(&self, params: &Items<(TypeRef, Declared)>) -> Result<String, AllocError> {
        let mut line = String::new(self.alloc);
        for param in &params.items {
            let param = self.variable(param.0, param.1)?;
            write!(line, " {param}")?;
        }
        Ok(line)
    }

    /// Modifiers, a blank behind each.
    fn modifiers(&self, modifiers: &Items<Modifier>) -> Result<String, AllocError> {
        let mut line = String::new(self.alloc);
        for modifier in &modifiers.items {
            let at = match modifier {
                Modifier::Inv(at) => {
                    line.push_str("inv")?;
                    *at
                }
                Modifier::Pow(exponent, at) => {
                    write!(line, "pow({})", self.trees.expr(*exponent))?;
                    *at
                }
                Modifier::Ctrl(count, at) => {
                    write!(line, "ctrl({})", self.trees.part(*count))?;
                    *at
                }
            };
            let place = place(self.alloc, at)?;
            write!(line, "{place} ")?;
        }
        Ok(line)
    }

    /// A declaration without a body, or another statement.
    fn declaration(&self, kind: &StmtKind) -> Result<String, AllocError> {
        match kind {
            StmtKind::Include => String::from_str(self.alloc, "include"),
            StmtKind::Qubit(ty, name) => self.variable(*ty, *name),
            StmtKind::Variable(ty, name, None) => self.variable(*ty, *name),
            StmtKind::Variable(ty, name, Some(value)) => {
                let name = self.variable(*ty, *name)?;
                let value = self.value(value)?;
                format!(in self.alloc; "{name} = {value}")
            }
            StmtKind::Constant(ty, name, value) => {
                let name = self.variable(*ty, *name)?;
                format!(in self.alloc; "const {name} = {}", self.trees.expr(*value))
            }
            StmtKind::Output(ty, name) => {
                let name = self.variable(*ty, *name)?;
                format!(in self.alloc; "output {name}")
            }
            StmtKind::Let(name, operands) => {
                let name = self.trees.declared(*name)?;
                let operands = self.operands(operands)?;
                format!(in self.alloc; "let {name} ={operands}")
            }
            _ => self.definition(kind),
        }
    }

    /// A gate or a subroutine, or a statement that runs.
    fn definition(&self, kind: &StmtKind) -> Result<String, AllocError> {
        match kind {
            StmtKind::Gate {
                name,
                params,
                qubits,
                body,
            } => {
                let name = self.trees.declared(*name)?;
                let params = self.names(params)?;
                let qubits = self.names(qubits)?;
                let body = self.body(body)?;
                format!(in self.alloc; "gate {name}({params}){qubits} {body}")
            }
            StmtKind::Def {
                name,
                params,
                result,
                body,
            } => {
                let name = self.trees.declared(*name)?;
                let params = self.params(params)?;
                let body = self.body(body)?;
                match result {
                    Some(ty) => {
                        let ty = self.trees.typed(*ty)?;
                        format!(in self.alloc; "def {name}({params}) -> {ty} {body}")
                    }
                    None => format!(in self.alloc; "def {name}({params}) {body}"),
                }
            }
            _ => self.action(kind),
        }
    }

    /// A call, an assignment or a measurement, or another statement that runs.
    fn action(&self, kind: &StmtKind) -> Result<String, AllocError> {
        match kind {
            StmtKind::GateCall {
                mods,
                gate,
                args,
                operands,
            } => {
                let mods = self.modifiers(mods)?;
                let gate = self.trees.declared(*gate)?;
                let args = self.trees.exprs(args)?;
                let operands = self.operands(operands)?;
                format!(in self.alloc; "{mods}{gate}({args}){operands}")
            }
            StmtKind::Barrier(operands) => {
                let operands = self.operands(operands)?;
                format!(in self.alloc; "barrier{operands}")
            }
            StmtKind::Reset(operand) => {
                let operand = self.trees.operand(operand)?;
                format!(in self.alloc; "reset {operand}")
            }
            StmtKind::Measure(operand, target) => {
                let operand = self.trees.operand(operand)?;
                match target {
                    Some(target) => {
                        let target = self.trees.operand(target)?;
                        format!(in self.alloc; "measure {operand} -> {target}")
                    }
                    None => format!(in self.alloc; "measure {operand}"),
                }
            }
            StmtKind::Assign(target, op, value) => {
                let target = self.trees.operand(target)?;
                let value = self.value(value)?;
                let op = op.map_or("", |op| operator(op));
                format!(in self.alloc; "{target} {op}= {value}")
            }
            StmtKind::Call(id) => format!(in self.alloc; "call {}", self.trees.expr(*id)),
            _ => self.control(kind),
        }
    }

    /// A statement with a body that runs by a condition or in turns, or a word.
    fn control(&self, kind: &StmtKind) -> Result<String, AllocError> {
        match kind {
            StmtKind::If(test, taken, other) => {
                let test = self.trees.expr(*test);
                let taken = self.body(taken)?;
                let other = self.body(other)?;
                format!(in self.alloc; "if {test} {taken} {other}")
            }
            StmtKind::While(test, body) => {
                let body = self.body(body)?;
                format!(in self.alloc; "while {} {body}", self.trees.expr(*test))
            }
            StmtKind::ForRange {
                ty,
                name,
                start,
                step,
                stop,
                body,
            } => {
                let name = self.variable(*ty, *name)?;
                let start = self.trees.expr(*start);
                let step = self.trees.part(*step);
                let stop = self.trees.expr(*stop);
                let body = self.body(body)?;
                format!(in self.alloc; "for {name} in [{start} {step} {stop}] {body}")
            }
            StmtKind::ForSet {
                ty,
                name,
                members,
                body,
            } => {
                let name = self.variable(*ty, *name)?;
                let members = self.trees.exprs(members)?;
                let body = self.body(body)?;
                format!(in self.alloc; "for {name} in {{{members}}} {body}")
            }
            _ => self.word(kind),
        }
    }

    /// A statement of one word, and a value behind `return`.
    fn word(&self, kind: &StmtKind) -> Result<String, AllocError> {
        match kind {
            StmtKind::Break => String::from_str(self.alloc, "break"),
            StmtKind::Continue => String::from_str(self.alloc, "continue"),
            StmtKind::End => String::from_str(self.alloc, "end"),
            StmtKind::Return(None) => String::from_str(self.alloc, "return"),
            StmtKind::Return(Some(value)) => {
                let value = self.value(value)?;
                format!(in self.alloc; "return {value}")
            }
            _ => String::from_str(self.alloc, "no statement of these kinds"),
        }
    }
}
