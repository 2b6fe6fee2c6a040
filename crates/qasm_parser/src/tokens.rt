//! Single tokens: what stands next, and what is taken.

ghost use Rattle.std.specs.Prelude.{◌≡◌, ◌<◌, ◌||◌, ◌∷◌, [], Some};
ghost use Rattle.grammar_parts.specs.Reading.{heads, take_one};
ghost use Rattle.grammar_parts.specs.Kinds.{by, marked, picked, kinds_of, is_free, take_allowed, take_opening};
ghost use Rattle.qasm_expr.specs.TokenKinds.{kind, keyword_kind, mark_kind};
ghost use Rattle.qasm_expr.specs.Grammar.{unary_operators, plain_types, sized_types};
ghost use Rattle.qasm_expr.specs.Reader.{begins, expr_kinds, literal_kinds, type_kinds, read_sign, read_opener};
ghost use Rattle.qasm_expr.specs.Seen.{rows_at};
ghost use Rattle.qasm_lexer.specs.declared.token.Mark.TheVariants.{StarStar};
ghost use Rattle.qasm_parser.specs.State.{Takes, Eats};
ghost use Rattle.qasm_parser.specs.Shows.{Same, IsDeeper, IsPower, IsSign, IsLink, IsPlainBase, IsSizedBase};

use crate::kinds::{
    begins_operand, is_literal, is_mark, is_type, is_word, operator_at, plain_type_of, sign_of,
    sized_type_of,
};
use crate::parser::Parser;
use crate::stop::Stop;
use qasm_ast::{Base, BinaryOp, UnaryOp};
use qasm_lexer::{Keyword, Mark, Token};
use qq_base::Span;

/// The operators that a chain may have.
const CHAIN: u32 = 64;

impl<'a> Parser<'a> {
    /// Whether a mark stands next.
    pub fn sees(&self, mark: Mark) -> bool
        ensures { result ≡ heads (begins self.now.text (mark_kind mark ∷ [])) self.now.left }
    {
        match self.next() {
            Some(token) => is_mark(token.kind, mark),
            None => false,
        }
    }

    /// Whether a word stands next.
    pub fn sees_word(&self, word: Keyword) -> bool
        ensures { result ≡ heads (begins self.now.text (keyword_kind word ∷ [])) self.now.left }
    {
        match self.next() {
            Some(token) => is_word(token.kind, word),
            None => false,
        }
    }

    /// Whether a literal stands next.
    pub fn begins_literal(&self) -> bool
        ensures { result ≡ heads (begins self.now.text literal_kinds) self.now.left }
    {
        match self.next() {
            Some(token) => is_literal(self.is_bit_string(token), token.kind),
            None => false,
        }
    }

    /// Whether an expression begins here.
    pub fn begins_expr(&self) -> bool
        ensures { result ≡ heads (begins self.now.text expr_kinds) self.now.left }
    {
        match self.next() {
            Some(token) => {
                is_literal(self.is_bit_string(token), token.kind) || begins_operand(token.kind)
            }
            None => false,
        }
    }

    /// Whether an item of a list of expressions is to be taken: the first one has to be, another where it begins.
    pub fn may_take(&self, first: bool) -> bool
        ensures { result ≡ (first || heads (begins self.now.text expr_kinds) self.now.left) }
    {
        first || self.begins_expr()
    }

    /// Whether a type stands next.
    pub fn begins_type(&self) -> bool
        ensures { result ≡ heads (begins self.now.text type_kinds) self.now.left }
    {
        match self.next() {
            Some(token) => is_type(token.kind),
            None => false,
        }
    }

    /// Whether a type stands next that has no width.
    pub fn begins_plain_type(&self) -> bool
        ensures { result ≡ heads (begins self.now.text (kinds_of plain_types)) self.now.left }
    {
        match self.next() {
            Some(token) => plain_type_of(token.kind).is_some(),
            None => false,
        }
    }

    /// Whether an operator stands next that comes in front of an operand.
    pub fn begins_sign(&self) -> bool
        ensures { result ≡ heads (begins self.now.text (kinds_of unary_operators)) self.now.left }
    {
        match self.next() {
            Some(token) => sign_of(token.kind).is_some(),
            None => false,
        }
    }

    /// Whether a binary operator of a level stands next, the loosest level being 0.
    pub fn begins_operator(&self, rank: usize) -> bool
        requires { rank < 10 }
        ensures { result ≡ heads (begins self.now.text (kinds_of (rows_at rank))) self.now.left }
    {
        match self.next() {
            Some(token) => operator_at(token.kind, rank).is_some(),
            None => false,
        }
    }

    /// Takes a mark.
    pub fn mark(&mut self, mark: Mark) -> Result<Token, Stop>
        ensures { Takes Same (read_sign self.old.text (mark_kind mark)) self.old result self.new }
    {
        let Some(token) = self.next() else {
            return Err(Stop::Syntax);
        };
        if !is_mark(token.kind, mark) {
            return Err(Stop::Syntax);
        }
        self.skip();
        Ok(token)
    }

    /// Takes a word.
    pub fn word(&mut self, word: Keyword) -> Result<Token, Stop>
        ensures { Takes Same (read_sign self.old.text (keyword_kind word)) self.old result self.new }
    {
        let Some(token) = self.next() else {
            return Err(Stop::Syntax);
        };
        if !is_word(token.kind, word) {
            return Err(Stop::Syntax);
        }
        self.skip();
        Ok(token)
    }

    /// Takes a mark where it stands next.
    pub fn eat(&mut self, mark: Mark) -> bool
        ensures { Eats mark self.old result self.new }
    {
        let Some(token) = self.next() else {
            return false;
        };
        if !is_mark(token.kind, mark) {
            return false;
        }
        self.skip();
        true
    }

    /// Takes a mark that opens a level, where there is room for one, and gives the room behind it.
    pub fn enter(&mut self, room: u32, mark: Mark) -> Result<u32, Stop>
        ensures { Takes (IsDeeper room) (read_opener self.old.text room (mark_kind mark)) self.old result self.new }
    {
        let Some(token) = self.next() else {
            return Err(Stop::Syntax);
        };
        if !is_mark(token.kind, mark) {
            return Err(Stop::Syntax);
        }
        if room == 0 {
            return Err(Stop::Deep);
        }
        self.skip();
        Ok(room - 1)
    }

    /// Takes the operator of a power, where the chain and the levels have room for it.
    pub fn power(&mut self, room: u32, used: u32) -> Result<u32, Stop>
        ensures { Takes (IsPower room used) (take_allowed (is_free (Some 64) used) (by (marked (kind self.old.text) (mark_kind StarStar))) (read_opener self.old.text room (mark_kind StarStar))) self.old result self.new }
    {
        if !self.sees(Mark::StarStar) {
            return Err(Stop::Syntax);
        }
        if used >= CHAIN {
            return Err(Stop::Deep);
        }
        self.enter(room, Mark::StarStar)
    }

    /// Takes an operator in front of an operand, where there is room for a level: it, its place, and the room behind it.
    pub fn sign(&mut self, room: u32) -> Result<(UnaryOp, Span, u32), Stop>
        ensures { Takes (IsSign room) (take_opening room (picked (kind self.old.text) unary_operators)) self.old result self.new }
    {
        let Some(token) = self.next() else {
            return Err(Stop::Syntax);
        };
        let Some(op) = sign_of(token.kind) else {
            return Err(Stop::Syntax);
        };
        if room == 0 {
            return Err(Stop::Deep);
        }
        self.skip();
        Ok((op, token.at, room - 1))
    }

    /// Takes a binary operator of a level, where the chain has room for it.
    pub fn operator(&mut self, rank: usize, used: u32) -> Result<BinaryOp, Stop>
        requires { rank < 10 }
        ensures { Takes (IsLink used) (take_allowed (is_free (Some 64) used) (by (picked (kind self.old.text) (rows_at rank))) (take_one (picked (kind self.old.text) (rows_at rank)))) self.old result self.new }
    {
        let Some(token) = self.next() else {
            return Err(Stop::Syntax);
        };
        let Some(op) = operator_at(token.kind, rank) else {
            return Err(Stop::Syntax);
        };
        if used >= CHAIN {
            return Err(Stop::Deep);
        }
        self.skip();
        Ok(op)
    }

    /// Takes a type that has no width, and gives its place too.
    pub fn plain_type(&mut self) -> Result<(Base, Span), Stop>
        ensures { Takes IsPlainBase (take_one (picked (kind self.old.text) plain_types)) self.old result self.new }
    {
        let Some(token) = self.next() else {
            return Err(Stop::Syntax);
        };
        let Some(base) = plain_type_of(token.kind) else {
            return Err(Stop::Syntax);
        };
        self.skip();
        Ok((base, token.at))
    }

    /// Takes a type that may have a width, and gives its place too.
    pub fn sized_type(&mut self) -> Result<(Base, Span), Stop>
        ensures { Takes IsSizedBase (take_one (picked (kind self.old.text) sized_types)) self.old result self.new }
    {
        let Some(token) = self.next() else {
            return Err(Stop::Syntax);
        };
        let Some(base) = sized_type_of(token.kind) else {
            return Err(Stop::Syntax);
        };
        self.skip();
        Ok((base, token.at))
    }
}
