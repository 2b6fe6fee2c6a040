//! Expressions, by recursive descent. Every recursion passes a level, of which there are 64 at most, or a
//! level of operators; chains, lists and indexes are loops.

ghost use Rattle.std.specs.Prelude.{◌≡◌, ◌≤◌, ◌<◌, ◌+◌, ◌^◌, Some, length};
ghost use Rattle.qasm_ast.specs.declared.expr.ExprKind.TheVariants.{Binary};
ghost use Rattle.qasm_ast.specs.Tree.{place_of, maybe_at};
ghost use Rattle.grammar_parts.specs.Reading.{take_one};
ghost use Rattle.qasm_expr.specs.TokenKinds.{mark_kind};
ghost use Rattle.qasm_expr.specs.Grammar.{literal_of};
ghost use Rattle.qasm_expr.specs.Reader.{read_expr, read_unary, read_binary, read_type, read_prim, read_cast, read_between, read_indexes, read_content, read_behind_colon, read_stop, read_list};
ghost use Rattle.qasm_expr.specs.Seen.{deeper_expr, deeper_content, tighter};
ghost use Rattle.qasm_parser.specs.State.{Reads, Takes, Adds, nodes, tree};
ghost use Rattle.qasm_parser.specs.Shows.{IsTree, IsCounted, IsMaybe, IsTrees, IsBracket, IsBrackets, IsScalar, read_named};

use crate::parser::Parser;
use crate::stop::Stop;
use qasm_ast::{BinaryOp, ExprId, ExprKind, IndexRef, Items, OperandName, OperandRef, TypeRef};
use qasm_expr::expressions_take_a_token;
use qasm_lexer::Mark;
use qq_base::Span;

/// The levels of binary operators.
const RANKS: usize = 10;

impl<'a> Parser<'a> {
    /// Adds the node of a binary operator, at the place of its first operand.
    fn join(&mut self, op: BinaryOp, left: ExprId, right: ExprId) -> Result<ExprId, Stop>
        requires room { nodes self.old + length self.old.left + 1 < 2 ^ 32 }
        requires left { left.0 < length self.old.exprs }
        requires right { right.0 < length self.old.exprs }
        ensures { Adds (Binary op left right) (place_of (tree self.old left.0)) self.old result self.new }
    {
        let at = self.place(left);
        self.node(ExprKind::Binary(op, left, right), at)
    }

    /// A literal.
    fn literal(&mut self) -> Result<ExprId, Stop>
        ensures { Reads IsTree (take_one (literal_of self.old.text)) self.old result self.new }
    {
        let Some(token) = self.next() else {
            return Err(Stop::Syntax);
        };
        let Some(kind) = self.leaf(token)? else {
            return Err(Stop::Syntax);
        };
        self.skip();
        self.node(kind, token.at)
    }

    /// An expression.
    #[cycle(expr)]
    pub fn expr(&mut self, room: u32) -> Result<ExprId, Stop>
        ensures { Reads IsTree (read_expr self.old.text (Some 64) room) self.old result self.new }
    {
        let (found, _) = self.binary(room, 0, 0)?;
        Ok(found)
    }

    /// The operators of one level and of the tighter ones, where the chain has `used` before.
    #[cycle(expr)]
    fn binary(&mut self, room: u32, rank: usize, used: u32) -> Result<(ExprId, u32), Stop>
        requires { rank ≤ 10 }
        ensures { Reads IsCounted (read_binary self.old.text (Some 64) (tighter rank) (read_unary self.old.text (Some 64) room) used) self.old result self.new }
    {
        if rank == RANKS {
            return self.unary(room, used);
        }
        let (mut left, mut count) = self.binary(room, rank + 1, used)?;
        'chain: while self.begins_operator(rank) {
            let op = self.operator(rank, count)?;
            let (right, more) = self.binary(room, rank + 1, count + 1)?;
            left = self.join(op, left, right)?;
            count = more;
        }
        Ok((left, count))
    }

    /// An operand with the operators in front of it, and its power.
    #[cycle(expr)]
    fn unary(&mut self, room: u32, used: u32) -> Result<(ExprId, u32), Stop>
        ensures { Reads IsCounted (read_unary self.old.text (Some 64) room used) self.old result self.new }
    {
        if self.begins_sign() {
            let (op, at, inner) = self.sign(room)?;
            let (operand, count) = self.unary(inner, used)?;
            let node = self.node(ExprKind::Unary(op, operand), at)?;
            return Ok((node, count));
        }
        let base = self.prim(room)?;
        if !self.sees(Mark::StarStar) {
            return Ok((base, used));
        }
        let inner = self.power(room, used)?;
        let (right, count) = self.unary(inner, used + 1)?;
        let node = self.join(BinaryOp::Power, base, right)?;
        Ok((node, count))
    }

    /// An operand.
    #[cycle(expr)]
    fn prim(&mut self, room: u32) -> Result<ExprId, Stop>
        ensures { Reads IsTree (read_prim self.old.text room (deeper_expr self.old.text room) (deeper_content self.old.text room)) self.old result self.new }
    {
        if self.begins_literal() {
            return self.literal();
        }
        if self.sees(Mark::LeftParen) {
            return self.between(room, Mark::LeftParen, Mark::RightParen);
        }
        if self.begins_type() {
            return self.cast(room);
        }
        self.named(room)
    }

    /// An expression between two marks, of which the first opens a level.
    #[cycle(expr)]
    pub fn between(&mut self, room: u32, left: Mark, right: Mark) -> Result<ExprId, Stop>
        ensures { Takes IsTree (read_between self.old.text room (mark_kind left) (mark_kind right) (deeper_expr self.old.text room)) self.old result self.new }
    {
        let inner = self.enter(room, left)?;
        let found = self.expr(inner)?;
        self.mark(right)?;
        Ok(found)
    }

    /// A type, and in round brackets what is cast to it.
    #[cycle(expr)]
    fn cast(&mut self, room: u32) -> Result<ExprId, Stop>
        ensures { Reads IsTree (read_cast self.old.text room (deeper_expr self.old.text room)) self.old result self.new }
    {
        let ty = self.scalar(room)?;
        let operand = self.between(room, Mark::LeftParen, Mark::RightParen)?;
        self.node(ExprKind::Cast(ty, operand), ty.at)
    }

    /// A type with its width.
    #[cycle(expr)]
    pub fn scalar(&mut self, room: u32) -> Result<TypeRef, Stop>
        ensures { Takes IsScalar (read_type self.old.text room (deeper_expr self.old.text room)) self.old result self.new }
    {
        if self.begins_plain_type() {
            let (plain, place) = self.plain_type()?;
            return Ok(TypeRef {
                base: plain,
                width: None,
                at: place,
            });
        }
        let (base, at) = self.sized_type()?;
        if !self.sees(Mark::LeftBracket) {
            return Ok(TypeRef {
                base,
                width: None,
                at,
            });
        }
        let width = self.between(room, Mark::LeftBracket, Mark::RightBracket)?;
        Ok(TypeRef {
            base,
            width: Some(width),
            at,
        })
    }

    /// A call of a name, or a name with its index brackets.
    #[cycle(expr)]
    fn named(&mut self, room: u32) -> Result<ExprId, Stop>
        ensures { Reads IsTree (read_named self.old.text room (deeper_expr self.old.text room) (deeper_content self.old.text room)) self.old result self.new }
    {
        let called = self.name()?;
        if self.sees(Mark::LeftParen) {
            let inner = self.enter(room, Mark::LeftParen)?;
            let args = self.list(inner, false)?;
            self.mark(Mark::RightParen)?;
            return self.node(
                ExprKind::Call(called.name, Items { items: args }),
                called.at,
            );
        }
        let index = self.indexes(room)?;
        let operand = OperandRef {
            name: OperandName::Name(called.name),
            index: Items { items: index },
            at: called.at,
        };
        self.node(ExprKind::Name(operand), called.at)
    }

    /// Index brackets, as many as there are.
    #[cycle(expr)]
    pub fn indexes(&mut self, room: u32) -> Result<Vec<IndexRef>, Stop>
        ensures { Reads (λ s v. IsBrackets s v.items) (read_indexes self.old.text room (deeper_content self.old.text room)) self.old result self.new }
    {
        let mut found = Vec::new(self.alloc());
        'brackets: while self.sees(Mark::LeftBracket) {
            let inner = self.enter(room, Mark::LeftBracket)?;
            let index = self.content(inner)?;
            self.mark(Mark::RightBracket)?;
            if found.push(index).is_err() {
                return Err(Stop::Memory);
            }
        }
        Ok(found)
    }

    /// What stands between the brackets of an index.
    #[cycle(expr)]
    fn content(&mut self, room: u32) -> Result<IndexRef, Stop>
        ensures { Reads IsBracket (read_content self.old.text room (read_expr self.old.text (Some 64) room) (deeper_expr self.old.text room)) self.old result self.new }
    {
        if self.sees(Mark::LeftBrace) {
            let inner = self.enter(room, Mark::LeftBrace)?;
            let members = self.list(inner, true)?;
            self.mark(Mark::RightBrace)?;
            return Ok(IndexRef::Set(Items { items: members }));
        }
        if self.sees(Mark::Colon) {
            let at = self.mark(Mark::Colon)?.at;
            return self.behind_colon(room, None, at);
        }
        let start = self.expr(room)?;
        if !self.eat(Mark::Colon) {
            return Ok(IndexRef::At(start));
        }
        let at = self.place(start);
        self.behind_colon(room, Some(start), at)
    }

    /// A range behind its start and the first colon.
    #[cycle(expr)]
    fn behind_colon(&mut self, room: u32, start: Option<ExprId>, at: Span) -> Result<IndexRef, Stop>
        requires { IsMaybe self.old start (maybe_at (tree self.old) start) }
        ensures { Reads IsBracket (read_behind_colon self.old.text (read_expr self.old.text (Some 64) room) (maybe_at (tree self.old) start) at) self.old result self.new }
    {
        if self.sees(Mark::Colon) {
            return self.range_end(room, start, None, at);
        }
        if !self.begins_expr() {
            return Ok(IndexRef::Range {
                start,
                step: None,
                stop: None,
                at,
            });
        }
        let middle = self.expr(room)?;
        if self.sees(Mark::Colon) {
            return self.range_end(room, start, Some(middle), at);
        }
        Ok(IndexRef::Range {
            start,
            step: None,
            stop: Some(middle),
            at,
        })
    }

    /// The last of the three parts of a range, with the colon in front of it.
    #[cycle(expr)]
    fn range_end(
        &mut self,
        room: u32,
        start: Option<ExprId>,
        step: Option<ExprId>,
        at: Span,
    ) -> Result<IndexRef, Stop>
        requires start { IsMaybe self.old start (maybe_at (tree self.old) start) }
        requires step { IsMaybe self.old step (maybe_at (tree self.old) step) }
        ensures { Reads IsBracket (read_stop self.old.text (read_expr self.old.text (Some 64) room) (maybe_at (tree self.old) start) (maybe_at (tree self.old) step) at) self.old result self.new }
    {
        self.mark(Mark::Colon)?;
        let stop = self.expr(room)?;
        Ok(IndexRef::Range {
            start,
            step,
            stop: Some(stop),
            at,
        })
    }

    /// Expressions with commas between them, and maybe one behind them; one at least where it is filled.
    #[cycle(expr)]
    pub fn list(&mut self, room: u32, filled: bool) -> Result<Vec<ExprId>, Stop>
        ensures { Reads (λ s v. IsTrees s v.items) (read_list self.old.text filled (read_expr self.old.text (Some 64) room)) self.old result self.new }
    {
        expressions_take_a_token();
        let mut found = Vec::new(self.alloc());
        let mut first = filled;
        'items: while self.may_take(first) {
            let item = self.expr(room)?;
            if found.push(item).is_err() {
                return Err(Stop::Memory);
            }
            first = false;
            if !self.eat(Mark::Comma) {
                return Ok(found);
            }
        }
        Ok(found)
    }
}
