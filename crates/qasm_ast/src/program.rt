//! Whole programs.

ghost use Rattle.std.specs.Prelude.{◌≡◌, ℕ, ◌++◌, ◌<◌, ◌≤◌, List, length, Some, slice_get, IfOk};
ghost use Rattle.qasm_ast.specs.declared.expr.Expr.{Expr};
ghost use Rattle.qasm_ast.specs.Tree.{tree_of, place_of, place_of_statement, close_of_statement};
ghost use Rattle.qasm_ast.specs.Whole.{Source, IsProgram, ExprFits, StmtFits, ExprsFit};
ghost use Rattle.qasm_ast.specs.View.{number_of, text_in, tree_in, statement_in, expr_in, stmt_in, depth};

use crate::expr::{Expr, ExprId};
use crate::items::Items;
use crate::level::{level_of_body, levels_of_exprs, levels_of_stmts};
use crate::stmt::{Stmt, StmtId};
use crate::word::Word;
use qq_base::{NoMemory, Span};
use std::alloc::Global;
use std::marker::Model;

/// A program: its names, its expressions and statements, each by its place in its list, the statements
/// of its top level in text order, and the place of the end of its text.
///
/// An expression names only expressions with smaller numbers, and the bodies of a statement only statements
/// with smaller numbers, so a walk down from a node ends. It goes as deep as the tree is high. A parsed
/// program has at most 64 levels, and at most 64 operators in a chain, which bounds the height. A program
/// that no parser made may have a chain to the left, which opens no level, of any length.
#[derive(Debug, Drop)]
pub struct Program {
    pub names: Vec<Word>,
    pub exprs: Vec<Expr>,
    pub stmts: Vec<Stmt>,
    pub top: Items<StmtId>,
    pub end: Span,
    /// The greatest level of the tree, or 65 where that is over 64.
    depth: u32,
}

impl Model for Program {
    ghost use Rattle.std.specs.Prelude.{◌≡◌};
    ghost use Rattle.qasm_ast.specs.Whole.{Source, IsProgram};
    ghost use Rattle.qasm_ast.specs.View.{depth as depth_of};

    ghost Value = { Source };

    ghost view = { λ p. record { names = p.names.items; exprs = p.exprs.items; stmts = p.stmts.items; top = p.top; end = p.end } };

    ghost invariant = { λ p. IsProgram (record { names = p.names.items; exprs = p.exprs.items; stmts = p.stmts.items; top = p.top; end = p.end }) × (p.depth ≡ depth_of (record { names = p.names.items; exprs = p.exprs.items; stmts = p.stmts.items; top = p.top; end = p.end })) };
}

impl Program {
    /// The program with these parts. Its depth is found once, here.
    pub fn new(
        alloc: Global,
        names: Vec<Word>,
        exprs: Vec<Expr>,
        stmts: Vec<Stmt>,
        top: Items<StmtId>,
        end: Span,
    ) -> Result<Program, NoMemory>
        requires { IsProgram (record { names = names.items; exprs = exprs.items; stmts = stmts.items; top = top; end = end }) }
        ensures { IfOk result (λ p. p ≡ record { names = names.items; exprs = exprs.items; stmts = stmts.items; top = top; end = end }) }
    {
        let levels = levels_of_exprs(alloc, &exprs)?;
        let bodies = levels_of_stmts(alloc, &exprs, &levels, &stmts)?;
        let depth = level_of_body(&bodies, &top);
        Ok(Program {
            names,
            exprs,
            stmts,
            top,
            end,
            depth,
        })
    }

    /// The greatest level of the tree, or 65 where that is over 64. Round brackets that only group, and
    /// empty ones behind a gate name, leave no node and are not counted.
    pub fn depth(&self) -> u32
        ensures value { result ≡ depth self.now }
        ensures whole { IsProgram self.now }
    {
        self.depth
    }

    /// The name with this number.
    pub fn name(&self, number: u32) -> &Word
        requires { number < length self.now.names }
        ensures found { slice_get self.now.names number ≡ Some result.now }
        ensures text { text_in self.now number ≡ result.now }
        ensures number { number_of self.now.names result.now ≡ Some number }
        ensures short { length result.now ≤ 4096 }
        ensures whole { IsProgram self.now }
    {
        &self.names[number as usize]
    }

    /// The expression with this number. It names only expressions with smaller numbers, and its tree is its
    /// constructor with their trees.
    pub fn expr(&self, id: ExprId) -> &Expr
        requires { id.0 < length self.now.exprs }
        ensures found { slice_get self.now.exprs id.0 ≡ Some result.now }
        ensures tree { tree_in self.now id.0 ≡ expr_in self.now result.now }
        ensures place { place_of (tree_in self.now id.0) ≡ result.now.at }
        ensures fits { ExprFits (length self.now.names) id.0 result.now.kind }
        ensures whole { IsProgram self.now }
    {
        &self.exprs[id.0 as usize]
    }

    /// The statement with this number. Its bodies name only statements with smaller numbers, and its tree is its
    /// constructor with their trees and those of its expressions.
    pub fn stmt(&self, id: StmtId) -> &Stmt
        requires { id.0 < length self.now.stmts }
        ensures found { slice_get self.now.stmts id.0 ≡ Some result.now }
        ensures tree { statement_in self.now id.0 ≡ stmt_in self.now result.now }
        ensures place { place_of_statement (statement_in self.now id.0) ≡ result.now.at }
        ensures close { close_of_statement (statement_in self.now id.0) ≡ result.now.close }
        ensures fits { StmtFits (length self.now.names) self.now.exprs self.now.stmts id.0 result.now.kind }
        ensures whole { IsProgram self.now }
    {
        &self.stmts[id.0 as usize]
    }
}

/// Names and expressions that come later change no tree.
pub fn trees_stay()
    ensures { (names more : List (List ℕ)) (exprs later : List Expr) (id : ℕ) → ExprsFit (length names) 0 exprs → id < length exprs →
        tree_of (names ++ more) (exprs ++ later) id ≡ tree_of names exprs id }
{}

#[cfg(test)]
mod tests;
