//! Declarations that need no statements in them.

ghost use Rattle.std.specs.Prelude.{◌≡◌, ◌≢◌, ◌≤◌, ◌+◌, ◌∷◌, Some, Ok, length, drop, IfOk, IfErr, OnOk};
ghost use Rattle.qasm_expr.specs.Seen.{Cut, Gives};
ghost use Rattle.qasm_expr.specs.declared.stop.Stop.TheVariants.{Syntax, Memory};
ghost use Rattle.qasm_grammar.specs.Parts.{included, is_stdgates};
ghost use Rattle.qasm_grammar.specs.Reader.{read_inclusion, read_qubit_line, read_qreg_line, read_creg_line, read_variable_line, read_constant_line, read_output_line, read_alias_line, read_initial, read_joins};
ghost use Rattle.qasm_stmt.specs.Seen.{Sound, Few, Grown, IsList, IfBoth, IsOperand, IsValue, IsLine, Any, line_of};
ghost use Rattle.grammar_parts.specs.Reading.{take_one};

use crate::arena::Arena;
use crate::expressions::{any_type, any_width, expression};
use crate::names::declared;
use crate::operands::{operand, value};
use crate::words::word;
use qasm_ast::{Base, Items, OperandRef, Stmt, StmtKind, TypeRef, ValueRef};
use qasm_expr::parts::{Stop, expect, sees};
use qasm_lexer::{Keyword, Mark, Token, TokenKind};
use qq_base::Span;
use std::alloc::Global;

/// A statement that has no other closing brace.
pub fn line(kind: StmtKind, at: Span) -> Stmt
    ensures { result ≡ line_of kind at }
{
    Stmt {
        kind,
        at,
        close: at,
    }
}

/// Whether the characters are the text `stdgates.inc`, in quotes of either kind.
fn is_stdgates(spelling: &[u8]) -> bool
    ensures { result ≡ is_stdgates spelling.now }
{
    spelling == b"\"stdgates.inc\"".as_slice() || spelling == b"'stdgates.inc'".as_slice()
}

/// The file that may be included.
fn included(text: &[u8], tokens: &[Token], from: usize) -> Result<((), usize), Stop>
    requires within { from ≤ length tokens.now }
    requires cut { Cut text.now tokens.now }
    ensures gives { Gives Any tokens.now from (take_one (included text.now) (drop from tokens.now)) result }
    ensures next { IfOk result (λ r. r.1 ≡ from + 1) }
    ensures stop { IfErr result (λ e. e ≡ Syntax from) }
{
    if from == tokens.len() {
        return Err(Stop::Syntax(from));
    }
    let token = tokens[from];
    match token.kind {
        TokenKind::Text if is_stdgates(&text[token.start as usize..token.end as usize]) => {
            Ok(((), from + 1))
        }
        _ => Err(Stop::Syntax(from)),
    }
}

/// An include.
pub fn inclusion(
    text: &[u8],
    tokens: &[Token],
    from: usize,
    arena: &Arena,
) -> Result<(Stmt, usize), Stop>
    requires within { from ≤ length tokens.now }
    requires cut { Cut text.now tokens.now }
    requires few { Few arena.now from }
    requires sound { Sound arena.now }
    ensures gives { Gives (IsLine arena.now) tokens.now from (read_inclusion text.now (drop from tokens.now)) result }
    ensures grown { OnOk result (Grown arena.now arena.now) }
    ensures few { IfOk result (λ r. Few arena.now r.1) }
    ensures sound { OnOk result (Sound arena.now) }
    ensures memory { IfErr result (λ e. e ≢ Memory) }
{
    let (at, next) = word(text, tokens, from, Keyword::Include)?;
    let (_, next) = included(text, tokens, next)?;
    let next = expect(text, tokens, next, Mark::Semicolon)?;
    Ok((line(StmtKind::Include, at), next))
}

/// Qubits.
pub fn qubit_line(
    alloc: Global,
    text: &[u8],
    tokens: &[Token],
    from: usize,
    room: u32,
    arena: &mut Arena,
) -> Result<(Stmt, usize), Stop>
    requires within { from ≤ length tokens.now }
    requires cut { Cut text.now tokens.now }
    requires few { Few arena.old from }
    requires sound { Sound arena.old }
    ensures gives { Gives (IsLine arena.new) tokens.now from (read_qubit_line text.now (Some 64) room (drop from tokens.now)) result }
    ensures grown { OnOk result (Grown arena.old arena.new) }
    ensures kept { OnOk result (arena.new.stmts.items ≡ arena.old.stmts.items) }
    ensures few { IfOk result (λ r. Few arena.new r.1) }
    ensures sound { OnOk result (Sound arena.new) }
{
    let (at, next) = word(text, tokens, from, Keyword::Qubit)?;
    let (width, next) = any_width(alloc, text, tokens, next, room, arena)?;
    let (name, next) = declared(alloc, text, tokens, next, arena)?;
    let next = expect(text, tokens, next, Mark::Semicolon)?;
    let base = Base::Qubit;
    Ok((
        line(StmtKind::Qubit(TypeRef { base, width, at }, name), at),
        next,
    ))
}

/// Qubits, in the old form.
pub fn qreg_line(
    alloc: Global,
    text: &[u8],
    tokens: &[Token],
    from: usize,
    room: u32,
    arena: &mut Arena,
) -> Result<(Stmt, usize), Stop>
    requires within { from ≤ length tokens.now }
    requires cut { Cut text.now tokens.now }
    requires few { Few arena.old from }
    requires sound { Sound arena.old }
    ensures gives { Gives (IsLine arena.new) tokens.now from (read_qreg_line text.now (Some 64) room (drop from tokens.now)) result }
    ensures grown { OnOk result (Grown arena.old arena.new) }
    ensures kept { OnOk result (arena.new.stmts.items ≡ arena.old.stmts.items) }
    ensures few { IfOk result (λ r. Few arena.new r.1) }
    ensures sound { OnOk result (Sound arena.new) }
{
    let (at, next) = word(text, tokens, from, Keyword::Qreg)?;
    let (name, next) = declared(alloc, text, tokens, next, arena)?;
    let (width, next) = any_width(alloc, text, tokens, next, room, arena)?;
    let next = expect(text, tokens, next, Mark::Semicolon)?;
    let base = Base::Qubit;
    Ok((
        line(StmtKind::Qubit(TypeRef { base, width, at }, name), at),
        next,
    ))
}

/// Bits, in the old form.
pub fn creg_line(
    alloc: Global,
    text: &[u8],
    tokens: &[Token],
    from: usize,
    room: u32,
    arena: &mut Arena,
) -> Result<(Stmt, usize), Stop>
    requires within { from ≤ length tokens.now }
    requires cut { Cut text.now tokens.now }
    requires few { Few arena.old from }
    requires sound { Sound arena.old }
    ensures gives { Gives (IsLine arena.new) tokens.now from (read_creg_line text.now (Some 64) room (drop from tokens.now)) result }
    ensures grown { OnOk result (Grown arena.old arena.new) }
    ensures kept { OnOk result (arena.new.stmts.items ≡ arena.old.stmts.items) }
    ensures few { IfOk result (λ r. Few arena.new r.1) }
    ensures sound { OnOk result (Sound arena.new) }
{
    let (at, next) = word(text, tokens, from, Keyword::Creg)?;
    let (name, next) = declared(alloc, text, tokens, next, arena)?;
    let (width, next) = any_width(alloc, text, tokens, next, room, arena)?;
    let next = expect(text, tokens, next, Mark::Semicolon)?;
    let base = Base::Bit;
    let ty = TypeRef { base, width, at };
    Ok((line(StmtKind::Variable(ty, name, None), at), next))
}

/// The initial value of a variable, or none.
fn initial(
    alloc: Global,
    text: &[u8],
    tokens: &[Token],
    from: usize,
    room: u32,
    arena: &mut Arena,
) -> Result<(Option<ValueRef>, usize), Stop>
    requires within { from ≤ length tokens.now }
    requires cut { Cut text.now tokens.now }
    requires few { Few arena.old from }
    requires sound { Sound arena.old }
    ensures gives { Gives (IfBoth (IsValue arena.new)) tokens.now from (read_initial text.now (Some 64) room (drop from tokens.now)) result }
    ensures grown { OnOk result (Grown arena.old arena.new) }
    ensures kept { OnOk result (arena.new.stmts.items ≡ arena.old.stmts.items) }
    ensures few { IfOk result (λ r. Few arena.new r.1) }
    ensures sound { OnOk result (Sound arena.new) }
{
    if !sees(text, tokens, from, Mark::Assign) {
        return Ok((None, from));
    }
    let (found, next) = value(alloc, text, tokens, from + 1, room, arena)?;
    Ok((Some(found), next))
}

/// A variable.
pub fn variable_line(
    alloc: Global,
    text: &[u8],
    tokens: &[Token],
    from: usize,
    room: u32,
    arena: &mut Arena,
) -> Result<(Stmt, usize), Stop>
    requires within { from ≤ length tokens.now }
    requires cut { Cut text.now tokens.now }
    requires few { Few arena.old from }
    requires sound { Sound arena.old }
    ensures gives { Gives (IsLine arena.new) tokens.now from (read_variable_line text.now (Some 64) room (drop from tokens.now)) result }
    ensures grown { OnOk result (Grown arena.old arena.new) }
    ensures kept { OnOk result (arena.new.stmts.items ≡ arena.old.stmts.items) }
    ensures few { IfOk result (λ r. Few arena.new r.1) }
    ensures sound { OnOk result (Sound arena.new) }
{
    let (ty, next) = any_type(alloc, text, tokens, from, room, arena)?;
    let (name, next) = declared(alloc, text, tokens, next, arena)?;
    let (initial, next) = initial(alloc, text, tokens, next, room, arena)?;
    let next = expect(text, tokens, next, Mark::Semicolon)?;
    let at = ty.at;
    Ok((line(StmtKind::Variable(ty, name, initial), at), next))
}

/// A constant.
pub fn constant_line(
    alloc: Global,
    text: &[u8],
    tokens: &[Token],
    from: usize,
    room: u32,
    arena: &mut Arena,
) -> Result<(Stmt, usize), Stop>
    requires within { from ≤ length tokens.now }
    requires cut { Cut text.now tokens.now }
    requires few { Few arena.old from }
    requires sound { Sound arena.old }
    ensures gives { Gives (IsLine arena.new) tokens.now from (read_constant_line text.now (Some 64) room (drop from tokens.now)) result }
    ensures grown { OnOk result (Grown arena.old arena.new) }
    ensures kept { OnOk result (arena.new.stmts.items ≡ arena.old.stmts.items) }
    ensures few { IfOk result (λ r. Few arena.new r.1) }
    ensures sound { OnOk result (Sound arena.new) }
{
    let (at, next) = word(text, tokens, from, Keyword::Const)?;
    let (ty, next) = any_type(alloc, text, tokens, next, room, arena)?;
    let (name, next) = declared(alloc, text, tokens, next, arena)?;
    let next = expect(text, tokens, next, Mark::Assign)?;
    let (value, next) = expression(alloc, text, tokens, next, room, arena)?;
    let next = expect(text, tokens, next, Mark::Semicolon)?;
    Ok((line(StmtKind::Constant(ty, name, value), at), next))
}

/// An output.
pub fn output_line(
    alloc: Global,
    text: &[u8],
    tokens: &[Token],
    from: usize,
    room: u32,
    arena: &mut Arena,
) -> Result<(Stmt, usize), Stop>
    requires within { from ≤ length tokens.now }
    requires cut { Cut text.now tokens.now }
    requires few { Few arena.old from }
    requires sound { Sound arena.old }
    ensures gives { Gives (IsLine arena.new) tokens.now from (read_output_line text.now (Some 64) room (drop from tokens.now)) result }
    ensures grown { OnOk result (Grown arena.old arena.new) }
    ensures kept { OnOk result (arena.new.stmts.items ≡ arena.old.stmts.items) }
    ensures few { IfOk result (λ r. Few arena.new r.1) }
    ensures sound { OnOk result (Sound arena.new) }
{
    let (at, next) = word(text, tokens, from, Keyword::Output)?;
    let (ty, next) = any_type(alloc, text, tokens, next, room, arena)?;
    let (name, next) = declared(alloc, text, tokens, next, arena)?;
    let next = expect(text, tokens, next, Mark::Semicolon)?;
    Ok((line(StmtKind::Output(ty, name), at), next))
}

/// Operands, as many as there are, each behind the mark that joins it.
fn joins(
    alloc: Global,
    text: &[u8],
    tokens: &[Token],
    from: usize,
    room: u32,
    arena: &mut Arena,
) -> Result<(Vec<OperandRef>, usize), Stop>
    requires within { from ≤ length tokens.now }
    requires cut { Cut text.now tokens.now }
    requires few { Few arena.old from }
    requires sound { Sound arena.old }
    ensures gives { Gives (λ v os. IsList (IsOperand arena.new) v.items os) tokens.now from (read_joins text.now (Some 64) room (drop from tokens.now)) result }
    ensures count { IfOk result (λ r. length r.0.items + from ≤ r.1) }
    ensures grown { OnOk result (Grown arena.old arena.new) }
    ensures kept { OnOk result (arena.new.stmts.items ≡ arena.old.stmts.items) }
    ensures few { IfOk result (λ r. Few arena.new r.1) }
    ensures sound { OnOk result (Sound arena.new) }
{
    let mut found = Vec::new(alloc);
    let mut at = from;
    'joins: while sees(text, tokens, at, Mark::PlusPlus) {
        let (item, next) = operand(alloc, text, tokens, at + 1, room, arena)?;
        if found.push(item).is_err() {
            return Err(Stop::Memory);
        }
        at = next;
    }
    Ok((found, at))
}

/// A joined list of operands by a name.
pub fn alias_line(
    alloc: Global,
    text: &[u8],
    tokens: &[Token],
    from: usize,
    room: u32,
    arena: &mut Arena,
) -> Result<(Stmt, usize), Stop>
    requires within { from ≤ length tokens.now }
    requires cut { Cut text.now tokens.now }
    requires few { Few arena.old from }
    requires sound { Sound arena.old }
    ensures gives { Gives (IsLine arena.new) tokens.now from (read_alias_line text.now (Some 64) room (drop from tokens.now)) result }
    ensures grown { OnOk result (Grown arena.old arena.new) }
    ensures kept { OnOk result (arena.new.stmts.items ≡ arena.old.stmts.items) }
    ensures few { IfOk result (λ r. Few arena.new r.1) }
    ensures sound { OnOk result (Sound arena.new) }
{
    let (at, next) = word(text, tokens, from, Keyword::Let)?;
    let (name, next) = declared(alloc, text, tokens, next, arena)?;
    let next = expect(text, tokens, next, Mark::Assign)?;
    let (first, next) = operand(alloc, text, tokens, next, room, arena)?;
    let (mut operands, next) = joins(alloc, text, tokens, next, room, arena)?;
    if operands.insert(0, first).is_err() {
        return Err(Stop::Memory);
    }
    let next = expect(text, tokens, next, Mark::Semicolon)?;
    Ok((
        line(StmtKind::Let(name, Items { items: operands }), at),
        next,
    ))
}
