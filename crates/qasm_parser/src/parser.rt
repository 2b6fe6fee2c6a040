//! The parser: a text, its tokens, and the lists of the tree that is being read.

ghost use Rattle.std.specs.Prelude.{◌≡◌, ◌≢◌, ◌<◌, ◌≤◌, ◌+◌, ◌^◌, None, length, drop, IfSome, IfOk, IfErr};
ghost use Rattle.qasm_lexer.specs.Sizes.{bytes_of};
ghost use Rattle.qasm_ast.specs.Tree.{place_of};
ghost use Rattle.grammar_parts.specs.Kinds.{is_some};
ghost use Rattle.grammar_parts.specs.Reading.{take_one};
ghost use Rattle.qasm_expr.specs.TokenKinds.{bits_of};
ghost use Rattle.qasm_expr.specs.Grammar.{name_of};
ghost use Rattle.qasm_expr.specs.Seen.{Cut};
ghost use Rattle.qasm_parser.specs.State.{start_of, resumed, nodes, tree, first, IsSpelled, Skipped, Takes, Adds, MayAdd, Pushes, MayPush};
ghost use Rattle.qasm_parser.specs.Shows.{IsWord, IsLeaf, read_word_as};
ghost use Rattle.qasm_parser.specs.declared.stop.Stop.TheVariants.{Memory};

use crate::kinds::{is_name, is_word};
use crate::literal::{bits, is_bits, is_text, plain_literal};
use crate::names::{intern, spelling};
use crate::stop::Stop;
use indexmap::IndexSet;
use qasm_ast::{Declared, Expr, ExprId, ExprKind, Stmt, StmtId, Word};
use qasm_lexer::{Keyword, Token};
use qq_base::Span;
use std::alloc::Global;
use std::marker::Model;

/// A text with its tokens, how many of them were taken, and the lists of names, expressions and statements.
#[derive(Drop)]
pub struct Parser<'a> {
    alloc: Global,
    text: &'a [u8],
    tokens: &'a [Token],
    at: usize,
    names: IndexSet<Word>,
    exprs: Vec<Expr>,
    stmts: Vec<Stmt>,
}

impl<'a> Model for Parser<'a> {
    ghost use Rattle.qasm_parser.specs.State.{State};

    ghost Value = { State };

    ghost use Rattle.qasm_parser.specs.Inside.{state_of, IsReady};

    ghost view = { state_of };

    ghost invariant = { IsReady };
}

impl<'a> Parser<'a> {
    /// A parser at the first token, with empty lists.
    pub fn new(alloc: Global, text: &'a [u8], tokens: &'a [Token]) -> Parser<'a>
        requires { Cut text.now tokens.now }
        ensures { result ≡ start_of text.now tokens.now }
    {
        Parser {
            alloc,
            text,
            tokens,
            at: 0,
            names: IndexSet::new(alloc),
            exprs: Vec::new(alloc),
            stmts: Vec::new(alloc),
        }
    }

    /// A parser at a token, which goes on with lists of names and expressions.
    pub fn resume(
        alloc: Global,
        text: &'a [u8],
        tokens: &'a [Token],
        at: usize,
        names: IndexSet<Word>,
        exprs: Vec<Expr>,
    ) -> Parser<'a>
        requires cut { Cut text.now tokens.now }
        requires within { at ≤ length tokens.now }
        requires names { length names.keys + length tokens.now < 2 ^ 32 }
        requires exprs { length exprs.items + length tokens.now < 2 ^ 32 }
        ensures { result ≡ resumed text.now tokens.now at names.keys exprs.items }
    {
        Parser {
            alloc,
            text,
            tokens,
            at,
            names,
            exprs,
            stmts: Vec::new(alloc),
        }
    }

    /// The place of the next token, or that behind the last one.
    pub fn at(&self) -> usize
        ensures within { result ≤ length self.now.tokens }
        ensures here { drop result self.now.tokens ≡ self.now.left }
    {
        self.at
    }

    /// How many tokens are left.
    pub fn remaining(&self) -> usize
        ensures { result ≡ length self.now.left }
    {
        self.tokens.len() - self.at
    }

    /// Gives up the lists of names, expressions and statements.
    pub fn lists(self) -> (IndexSet<Word>, Vec<Expr>, Vec<Stmt>)
        ensures names { result.0.keys ≡ self.entry.names }
        ensures exprs { result.1.items ≡ self.entry.exprs }
        ensures stmts { result.2.items ≡ self.entry.stmts }
    {
        let Parser {
            names,
            exprs,
            stmts,
            ..
        } = self;
        (names, exprs, stmts)
    }

    /// The allocator. A list of parts that are still to come is not too long.
    pub fn alloc(&self) -> Global
        ensures { length self.now.left < 2 ^ 23 }
    {
        self.alloc
    }

    /// The next token.
    pub fn next(&self) -> Option<Token>
        ensures token { result ≡ first self.now.left }
        ensures spelled { IfSome result (λ x. IsSpelled self.now.text x) }
    {
        if self.at == self.tokens.len() {
            return None;
        }
        Some(self.tokens[self.at])
    }

    /// Takes the next token.
    pub fn skip(&mut self)
        requires { first self.old.left ≢ None }
        ensures { Skipped self.old self.new }
    {
        self.at += 1;
    }

    /// The bytes of a token.
    pub fn spelling(&self, token: Token) -> &[u8]
        requires { IsSpelled self.now.text token }
        ensures { result.now ≡ bytes_of self.now.text token }
    {
        spelling(self.text, token)
    }

    /// Whether a token is spelled as a bit string.
    pub fn is_bit_string(&self, token: Token) -> bool
        requires { IsSpelled self.now.text token }
        ensures { result ≡ is_some (bits_of (bytes_of self.now.text token)) }
    {
        is_bits(spelling(self.text, token))
    }

    /// The node of a literal.
    pub fn leaf(&self, token: Token) -> Result<Option<ExprKind>, Stop>
        requires { IsSpelled self.now.text token }
        ensures leaf { IfOk result (λ found. IsLeaf self.now.text token found) }
        ensures memory { IfErr result (λ e. e ≡ Memory) }
    {
        if is_text(token.kind) {
            return match bits(self.alloc, spelling(self.text, token))? {
                None => Ok(None),
                Some(found) => Ok(Some(ExprKind::Bits(found))),
            };
        }
        Ok(plain_literal(token.kind))
    }

    /// Takes a name, and gives its number, a new one where it is new.
    pub fn name(&mut self) -> Result<Declared, Stop>
        ensures { Takes IsWord (take_one (name_of self.old.text)) self.old result self.new }
    {
        let Some(token) = self.next() else {
            return Err(Stop::Syntax);
        };
        if !is_name(token.kind) {
            return Err(Stop::Syntax);
        }
        let name = intern(self.alloc, &mut self.names, spelling(self.text, token))?;
        self.at += 1;
        Ok(Declared { name, at: token.at })
    }

    /// Takes a word as a name with this spelling, and gives its number, a new one where it is new.
    pub fn word_as(&mut self, word: Keyword, spelling: &[u8]) -> Result<Declared, Stop>
        requires { length spelling.now ≤ 4096 }
        ensures { Takes IsWord (read_word_as self.old.text word spelling.now) self.old result self.new }
    {
        let Some(token) = self.next() else {
            return Err(Stop::Syntax);
        };
        if !is_word(token.kind, word) {
            return Err(Stop::Syntax);
        }
        let name = intern(self.alloc, &mut self.names, spelling)?;
        self.at += 1;
        Ok(Declared { name, at: token.at })
    }

    /// Adds a node, and gives its number.
    pub fn node(&mut self, kind: ExprKind, at: Span) -> Result<ExprId, Stop>
        requires room { nodes self.old + length self.old.left + 1 < 2 ^ 32 }
        requires fits { MayAdd self.old kind }
        ensures { Adds kind at self.old result self.new }
    {
        let id = ExprId(self.exprs.len() as u32);
        if self.exprs.push(Expr { kind, at }).is_err() {
            return Err(Stop::Memory);
        }
        Ok(id)
    }

    /// Adds a statement, and gives its number.
    pub fn push(&mut self, stmt: Stmt) -> Result<StmtId, Stop>
        requires room { nodes self.old + length self.old.left + 1 < 2 ^ 32 }
        requires fits { MayPush self.old stmt.kind }
        ensures { Pushes stmt self.old result self.new }
    {
        let id = StmtId(self.stmts.len() as u32);
        if self.stmts.push(stmt).is_err() {
            return Err(Stop::Memory);
        }
        Ok(id)
    }

    /// The place of an expression.
    pub fn place(&self, id: ExprId) -> Span
        requires { id.0 < length self.now.exprs }
        ensures { result ≡ place_of (tree self.now id.0) }
    {
        self.exprs[id.0 as usize].at
    }
}
