// The tree of a source program, as it lies in memory: lists of expressions and of statements, whose
// members name one another by number, each only members with smaller numbers.
//
// It stands on `qq_base` for places in the text. The layers above read a program through the inductive
// tree of `specs/Tree.antt`, which shows no numbers: `Program::name`, `Program::expr` and `Program::stmt`
// say how the tree unfolds at each node, `specs/View.antt` has the tree of each part and of the whole
// program, `specs/Size.antt` measures for walks (as in `walks`), and `specs/Whole.antt` what holds of each
// `Program`. `Program::depth` gives the greatest level of the tree by `specs/Level.antt`.
#![tactic(auto)]

mod expr;
mod items;
mod level;
mod program;
mod stmt;
#[cfg(test)]
mod walks;
mod word;

pub use expr::{
    Base, BinaryOp, Expr, ExprId, ExprKind, IndexRef, OperandName, OperandRef, TypeRef, UnaryOp,
};
pub use items::Items;
pub use program::{Program, trees_stay};
pub use stmt::{Declared, Modifier, Stmt, StmtId, StmtKind, ValueRef};
pub use word::{BitText, Word};
