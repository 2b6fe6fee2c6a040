//! Expressions, operands and types as short texts: `q[(+ i 1)]`, and `(+ 1@1:1 2@1:5)@1:1` with the places.

use qasm_ast::{
    Base, BinaryOp, BitText, Declared, Expr, ExprId, ExprKind, IndexRef, Items, OperandName,
    OperandRef, TypeRef, UnaryOp, Word,
};
use qq_base::Span;
use std::alloc::{AllocError, Global};

/// The texts of names and expressions, by their numbers.
#[derive(Drop)]
pub struct Trees {
    alloc: Global,
    names: Vec<String>,
    exprs: Vec<String>,
    /// Whether the parts of an expression stand with their places.
    has_places: bool,
}

/// A place.
pub fn place(alloc: Global, at: Span) -> Result<String, AllocError> {
    format!(in alloc; "@{}:{}", at.line, at.column)
}

impl Trees {
    /// No names and no expressions.
    pub fn new(alloc: Global, has_places: bool) -> Trees {
        Trees {
            alloc,
            names: Vec::new(alloc),
            exprs: Vec::new(alloc),
            has_places,
        }
    }

    /// Adds the next name.
    pub fn add_name(&mut self, name: &Word) -> Result<(), AllocError> {
        let name = match str::from_utf8(name.items.as_slice()) {
            Ok(name) => String::from_str(self.alloc, name)?,
            Err(_) => String::from_str(self.alloc, "no text")?,
        };
        Ok(self.names.push(name)?)
    }

    /// Adds the next expressions. Each names only earlier ones.
    pub fn add_exprs(&mut self, nodes: &[Expr]) -> Result<(), AllocError> {
        for node in nodes {
            let expr = self.shown(node)?;
            self.exprs.push(expr)?;
        }
        Ok(())
    }

    /// A name.
    pub fn name(&self, number: u32) -> &str {
        match self.names.get(number as usize) {
            Some(name) => name.as_str(),
            None => "no such name",
        }
    }

    /// An expression.
    pub fn expr(&self, id: ExprId) -> &str {
        match self.exprs.get(id.0 as usize) {
            Some(expr) => expr.as_str(),
            None => "no such node",
        }
    }

    /// An expression, or `_` where there is none.
    pub fn part(&self, id: Option<ExprId>) -> &str {
        match id {
            Some(id) => self.expr(id),
            None => "_",
        }
    }

    /// Expressions with blanks between them.
    pub fn exprs(&self, ids: &Items<ExprId>) -> Result<String, AllocError> {
        let mut line = String::new(self.alloc);
        for id in &ids.items {
            if !line.is_empty() {
                line.push(' ')?;
            }
            line.push_str(self.expr(*id))?;
        }
        Ok(line)
    }

    /// A name that is declared, with its place.
    pub fn declared(&self, declared: Declared) -> Result<String, AllocError> {
        let place = place(self.alloc, declared.at)?;
        format!(in self.alloc; "{}{place}", self.name(declared.name))
    }

    /// An operand with its place.
    pub fn operand(&self, operand: &OperandRef) -> Result<String, AllocError> {
        let indexed = self.indexed(operand, operand.at)?;
        let place = place(self.alloc, operand.at)?;
        format!(in self.alloc; "{indexed}{place}")
    }

    /// A type with its place.
    pub fn typed(&self, ty: TypeRef) -> Result<String, AllocError> {
        let scalar = self.scalar(ty, ty.at)?;
        let place = place(self.alloc, ty.at)?;
        format!(in self.alloc; "{scalar}{place}")
    }

    /// The place of a part of an expression, where places are shown and it is not that of the whole.
    fn other_place(&self, at: Span, whole: Span) -> Result<String, AllocError> {
        if self.has_places && at != whole {
            place(self.alloc, at)
        } else {
            Ok(String::new(self.alloc))
        }
    }

    /// An expression of nodes that stand here.
    fn shown(&self, node: &Expr) -> Result<String, AllocError> {
        let kind = self.kind(node)?;
        if self.has_places {
            let place = place(self.alloc, node.at)?;
            format!(in self.alloc; "{kind}{place}")
        } else {
            Ok(kind)
        }
    }

    fn kind(&self, node: &Expr) -> Result<String, AllocError> {
        match &node.kind {
            ExprKind::Name(operand) => self.indexed(operand, node.at),
            ExprKind::Hardware(n) => format!(in self.alloc; "${n}"),
            ExprKind::Whole(n) => format!(in self.alloc; "{n}"),
            ExprKind::Truth(truth) => format!(in self.alloc; "{truth}"),
            ExprKind::Bits(bits) => self.bits(bits),
            ExprKind::Unary(op, operand) => {
                format!(in self.alloc; "({} {})", sign(*op), self.expr(*operand))
            }
            ExprKind::Binary(op, left, right) => {
                let left = self.expr(*left);
                let right = self.expr(*right);
                format!(in self.alloc; "({} {left} {right})", operator(*op))
            }
            ExprKind::Cast(ty, operand) => {
                let scalar = self.scalar(*ty, node.at)?;
                format!(in self.alloc; "({scalar} {})", self.expr(*operand))
            }
            ExprKind::Call(name, arguments) => {
                let arguments = self.exprs(arguments)?;
                format!(in self.alloc; "{}({arguments})", self.name(*name))
            }
        }
    }

    fn bits(&self, bits: &BitText) -> Result<String, AllocError> {
        let mut line = String::from_str(self.alloc, "'")?;
        for bit in &bits.items {
            line.push(if *bit { '1' } else { '0' })?;
        }
        line.push('\'')?;
        Ok(line)
    }

    /// An operand of a whole of this place.
    fn indexed(&self, operand: &OperandRef, whole: Span) -> Result<String, AllocError> {
        let place = self.other_place(operand.at, whole)?;
        let mut line = match operand.name {
            OperandName::Name(number) => format!(in self.alloc; "{}{place}", self.name(number))?,
            OperandName::Hardware(n) => format!(in self.alloc; "${n}{place}")?,
        };
        for index in &operand.index.items {
            let index = self.index(index)?;
            write!(line, "[{index}]")?;
        }
        Ok(line)
    }

    fn index(&self, index: &IndexRef) -> Result<String, AllocError> {
        match index {
            IndexRef::At(id) => String::from_str(self.alloc, self.expr(*id)),
            IndexRef::Range {
                start,
                step,
                stop,
                at,
            } => {
                let start = self.part(*start);
                let step = self.part(*step);
                let stop = self.part(*stop);
                if self.has_places {
                    let place = place(self.alloc, *at)?;
                    format!(in self.alloc; "(range {start} {step} {stop}){place}")
                } else {
                    format!(in self.alloc; "{start} {step} {stop}")
                }
            }
            IndexRef::Set(members) => {
                let members = self.exprs(members)?;
                format!(in self.alloc; "{{{members}}}")
            }
        }
    }

    /// A type of a whole of this place.
    fn scalar(&self, ty: TypeRef, whole: Span) -> Result<String, AllocError> {
        let place = self.other_place(ty.at, whole)?;
        let word = word(ty.base);
        match ty.width {
            Some(width) => format!(in self.alloc; "{word}{place}[{}]", self.expr(width)),
            None => format!(in self.alloc; "{word}{place}"),
        }
    }
}

fn word(base: Base) -> &'static str {
    match base {
        Base::Bool => "bool",
        Base::Bit => "bit",
        Base::Int => "int",
        Base::Uint => "uint",
        Base::Angle => "angle",
        Base::Qubit => "qubit",
    }
}

fn sign(op: UnaryOp) -> &'static str {
    match op {
        UnaryOp::Complement => "~",
        UnaryOp::Not => "!",
        UnaryOp::Negate => "-",
    }
}

/// An operator between two operands.
pub fn operator(op: BinaryOp) -> &'static str {
    match op {
        BinaryOp::Or => "||",
        BinaryOp::And => "&&",
        BinaryOp::BitOr => "|",
        BinaryOp::BitXor => "^",
        BinaryOp::BitAnd => "&",
        BinaryOp::Equal => "==",
        BinaryOp::NotEqual => "!=",
        BinaryOp::Less => "<",
        BinaryOp::LessEqual => "<=",
        BinaryOp::Greater => ">",
        BinaryOp::GreaterEqual => ">=",
        BinaryOp::ShiftLeft => "<<",
        BinaryOp::ShiftRight => ">>",
        BinaryOp::Add => "+",
        BinaryOp::Subtract => "-",
        BinaryOp::Multiply => "*",
        BinaryOp::Divide => "/",
        BinaryOp::Remainder => "%",
        BinaryOp::Power => "**",
    }
}
