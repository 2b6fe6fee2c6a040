//! Expressions, and what stands in them.

use crate::items::Items;
use crate::word::BitText;
use qq_base::Span;

/// An expression, by its place in the list of expressions.
#[derive(Clone, Copy, Debug, PartialEq, Eq)]
pub struct ExprId(pub u32);

/// An expression. Its place is the first character of its first token that is no round bracket for
/// grouping.
#[derive(Debug, Drop)]
pub struct Expr {
    pub kind: ExprKind,
    pub at: Span,
}

/// What an expression is.
#[derive(Debug, Drop)]
pub enum ExprKind {
    /// A name with its index brackets.
    Name(OperandRef),
    /// A hardware qubit, by its number.
    Hardware(u32),
    /// A whole number.
    Whole(u64),
    /// `true` or `false`.
    Truth(bool),
    /// A bit string.
    Bits(BitText),
    Unary(UnaryOp, ExprId),
    Binary(BinaryOp, ExprId, ExprId),
    /// A type, and in round brackets what is cast to it.
    Cast(TypeRef, ExprId),
    /// A name by its number, and in round brackets its arguments.
    Call(u32, Items<ExprId>),
}

/// An operand of a statement or an expression, with its index brackets.
#[derive(Debug, Drop)]
pub struct OperandRef {
    pub name: OperandName,
    pub index: Items<IndexRef>,
    pub at: Span,
}

/// What an operand names.
#[derive(Clone, Copy, Debug, PartialEq, Eq)]
pub enum OperandName {
    /// A name, by its number.
    Name(u32),
    /// A hardware qubit, by its number.
    Hardware(u32),
}

/// What stands in an index bracket.
#[derive(Debug, Drop)]
pub enum IndexRef {
    At(ExprId),
    /// A range. Its place is that of its start, or its first `:`. Of three parts the middle one is the
    /// step.
    Range {
        start: Option<ExprId>,
        step: Option<ExprId>,
        stop: Option<ExprId>,
        at: Span,
    },
    /// Members in braces.
    Set(Items<ExprId>),
}

/// A type as it is written.
#[derive(Clone, Copy, Debug, PartialEq, Eq)]
pub struct TypeRef {
    pub base: Base,
    pub width: Option<ExprId>,
    pub at: Span,
}

/// The word of a type.
#[derive(Clone, Copy, Debug, PartialEq, Eq)]
pub enum Base {
    Bool,
    Bit,
    Int,
    Uint,
    Angle,
    Qubit,
}

/// The operators in front of one operand.
#[derive(Clone, Copy, Debug, PartialEq, Eq)]
pub enum UnaryOp {
    /// `~`
    Complement,
    /// `!`
    Not,
    /// `-`
    Negate,
}

/// The operators between two operands, the loosest first.
#[derive(Clone, Copy, Debug, PartialEq, Eq)]
pub enum BinaryOp {
    /// `||`
    Or,
    /// `&&`
    And,
    /// `|`
    BitOr,
    /// `^`
    BitXor,
    /// `&`
    BitAnd,
    /// `==`
    Equal,
    /// `!=`
    NotEqual,
    /// `<`
    Less,
    /// `<=`
    LessEqual,
    /// `>`
    Greater,
    /// `>=`
    GreaterEqual,
    /// `<<`
    ShiftLeft,
    /// `>>`
    ShiftRight,
    /// `+`
    Add,
    /// `-`
    Subtract,
    /// `*`
    Multiply,
    /// `/`
    Divide,
    /// `%`
    Remainder,
    /// `**`
    Power,
}
