//! Which part of a statement the token at a place begins.

ghost use Rattle.std.specs.Prelude.{◌≡◌, ◌≤◌, ◌++◌, length, drop};
ghost use Rattle.grammar_parts.specs.Reading.{heads};
ghost use Rattle.grammar_parts.specs.Kinds.{has, kinds_of};
ghost use Rattle.qasm_expr.specs.Reader.{begins};
ghost use Rattle.qasm_expr.specs.Seen.{Cut};
ghost use Rattle.qasm_grammar.specs.Reader.{name_kinds, operand_kinds, value_kinds, parameter_kinds, change_kinds, call_kinds, member_kinds, assignment_kinds, declaration_kinds, action_kinds, stmt_kinds, word_kinds};
ghost use Rattle.qasm_grammar.specs.Grammar.{assign_operators};
ghost use Rattle.qasm_lexer.specs.declared.token.Keyword.TheVariants.{Include, Qubit, Qreg, Creg, Const, Output, Let, Gate, Def, Barrier, Reset, Measure, Break, Continue, End, Return};

use qasm_expr::parts::{is_expr_kind, is_type_kind, keyword_number, kind_at, mark_number};
use qasm_lexer::{Keyword, Mark, Token};

/// Whether a name stands at a place.
pub fn begins_name(text: &[u8], tokens: &[Token], at: usize) -> bool
    requires within { at ≤ length tokens.now }
    requires cut { Cut text.now tokens.now }
    ensures { result ≡ heads (begins text.now name_kinds) (drop at tokens.now) }
{
    is_name_kind(kind_at(text, tokens, at))
}

/// Whether a token of the kind with this number begins it.
fn is_name_kind(kind: u8) -> bool
    ensures { result ≡ has name_kinds kind }
{
    kind == 1
}

/// Whether an operand begins at a place.
pub fn begins_operand(text: &[u8], tokens: &[Token], at: usize) -> bool
    requires within { at ≤ length tokens.now }
    requires cut { Cut text.now tokens.now }
    ensures { result ≡ heads (begins text.now operand_kinds) (drop at tokens.now) }
{
    is_operand_kind(kind_at(text, tokens, at))
}

/// Whether a token of the kind with this number begins it.
fn is_operand_kind(kind: u8) -> bool
    ensures { result ≡ has operand_kinds kind }
{
    kind == 1 || kind == 6
}

/// Whether a value begins at a place.
pub fn begins_value(text: &[u8], tokens: &[Token], at: usize) -> bool
    requires within { at ≤ length tokens.now }
    requires cut { Cut text.now tokens.now }
    ensures { result ≡ heads (begins text.now value_kinds) (drop at tokens.now) }
{
    is_value_kind(kind_at(text, tokens, at))
}

/// Whether a token of the kind with this number begins it.
fn is_value_kind(kind: u8) -> bool
    ensures { result ≡ has value_kinds kind }
{
    is_expr_kind(kind) || kind == keyword_number(Keyword::Measure)
}

/// Whether a parameter of a subroutine begins at a place.
pub fn begins_parameter(text: &[u8], tokens: &[Token], at: usize) -> bool
    requires within { at ≤ length tokens.now }
    requires cut { Cut text.now tokens.now }
    ensures { result ≡ heads (begins text.now parameter_kinds) (drop at tokens.now) }
{
    is_parameter_kind(kind_at(text, tokens, at))
}

/// Whether a token of the kind with this number begins it.
fn is_parameter_kind(kind: u8) -> bool
    ensures { result ≡ has parameter_kinds kind }
{
    is_type_kind(kind) || kind == keyword_number(Keyword::Qubit)
}

/// Whether a modifier begins at a place.
pub fn begins_change(text: &[u8], tokens: &[Token], at: usize) -> bool
    requires within { at ≤ length tokens.now }
    requires cut { Cut text.now tokens.now }
    ensures { result ≡ heads (begins text.now change_kinds) (drop at tokens.now) }
{
    is_change_kind(kind_at(text, tokens, at))
}

/// Whether a token of the kind with this number begins it.
fn is_change_kind(kind: u8) -> bool
    ensures { result ≡ has change_kinds kind }
{
    kind == keyword_number(Keyword::Inv)
        || kind == keyword_number(Keyword::Pow)
        || kind == keyword_number(Keyword::Ctrl)
}

/// Whether a gate call begins at a place.
pub fn begins_call(text: &[u8], tokens: &[Token], at: usize) -> bool
    requires within { at ≤ length tokens.now }
    requires cut { Cut text.now tokens.now }
    ensures { result ≡ heads (begins text.now call_kinds) (drop at tokens.now) }
{
    is_call_kind(kind_at(text, tokens, at))
}

/// Whether a token of the kind with this number begins it.
fn is_call_kind(kind: u8) -> bool
    ensures { result ≡ has call_kinds kind }
{
    is_change_kind(kind) || kind == keyword_number(Keyword::Gphase) || kind == 1
}

/// Whether a member of a gate's body begins at a place.
pub fn begins_member(text: &[u8], tokens: &[Token], at: usize) -> bool
    requires within { at ≤ length tokens.now }
    requires cut { Cut text.now tokens.now }
    ensures { result ≡ heads (begins text.now member_kinds) (drop at tokens.now) }
{
    is_member_kind(kind_at(text, tokens, at))
}

/// Whether a token of the kind with this number begins it.
fn is_member_kind(kind: u8) -> bool
    ensures { result ≡ has member_kinds kind }
{
    is_call_kind(kind) || kind == keyword_number(Keyword::Barrier)
}

/// Whether an assignment goes on so, behind the name of its target.
pub fn begins_assignment(text: &[u8], tokens: &[Token], at: usize) -> bool
    requires within { at ≤ length tokens.now }
    requires cut { Cut text.now tokens.now }
    ensures { result ≡ heads (begins text.now assignment_kinds) (drop at tokens.now) }
{
    is_assignment_kind(kind_at(text, tokens, at))
}

/// Whether a token of the kind with this number begins it.
fn is_assignment_kind(kind: u8) -> bool
    ensures { result ≡ has assignment_kinds kind }
{
    kind == mark_number(Mark::LeftBracket)
        || kind == mark_number(Mark::Assign)
        || is_assign_kind(kind)
}

/// Whether a mark of this kind assigns the value of an operator.
fn is_assign_kind(kind: u8) -> bool
    ensures { result ≡ has (kinds_of assign_operators) kind }
{
    kind >= mark_number(Mark::PlusAssign) && kind <= mark_number(Mark::ShiftRightAssign)
}

/// Whether a declaration begins at a place.
pub fn begins_declaration(text: &[u8], tokens: &[Token], at: usize) -> bool
    requires within { at ≤ length tokens.now }
    requires cut { Cut text.now tokens.now }
    ensures { result ≡ heads (begins text.now declaration_kinds) (drop at tokens.now) }
{
    is_declaration_kind(kind_at(text, tokens, at))
}

/// Whether a token of the kind with this number begins it.
fn is_declaration_kind(kind: u8) -> bool
    ensures { result ≡ has declaration_kinds kind }
{
    is_register_kind(kind) || is_type_kind(kind) || is_definition_kind(kind)
}

/// Whether an include or a declaration of qubits or old bits begins so.
fn is_register_kind(kind: u8) -> bool
    ensures { result ≡ has (word_kinds Include ++ (word_kinds Qubit ++ (word_kinds Qreg ++ word_kinds Creg))) kind }
{
    kind == keyword_number(Keyword::Include)
        || kind == keyword_number(Keyword::Qubit)
        || kind == keyword_number(Keyword::Qreg)
        || kind == keyword_number(Keyword::Creg)
}

/// Whether another declaration begins so, that of a variable aside.
fn is_definition_kind(kind: u8) -> bool
    ensures { result ≡ has (word_kinds Const ++ (word_kinds Output ++ (word_kinds Let ++ (word_kinds Gate ++ word_kinds Def)))) kind }
{
    kind == keyword_number(Keyword::Const)
        || kind == keyword_number(Keyword::Output)
        || kind == keyword_number(Keyword::Let)
        || kind == keyword_number(Keyword::Gate)
        || kind == keyword_number(Keyword::Def)
}

/// Whether an action begins at a place.
pub fn begins_action(text: &[u8], tokens: &[Token], at: usize) -> bool
    requires within { at ≤ length tokens.now }
    requires cut { Cut text.now tokens.now }
    ensures { result ≡ heads (begins text.now action_kinds) (drop at tokens.now) }
{
    is_action_kind(kind_at(text, tokens, at))
}

/// Whether a token of the kind with this number begins it.
fn is_action_kind(kind: u8) -> bool
    ensures { result ≡ has action_kinds kind }
{
    is_verb_kind(kind) || is_call_kind(kind)
}

/// Whether an action other than a call or an assignment begins so.
fn is_verb_kind(kind: u8) -> bool
    ensures { result ≡ has (word_kinds Barrier ++ (word_kinds Reset ++ (word_kinds Measure ++ (word_kinds Break ++ (word_kinds Continue ++ (word_kinds End ++ word_kinds Return)))))) kind }
{
    kind == keyword_number(Keyword::Barrier)
        || kind == keyword_number(Keyword::Reset)
        || kind == keyword_number(Keyword::Measure)
        || kind == keyword_number(Keyword::Break)
        || kind == keyword_number(Keyword::Continue)
        || kind == keyword_number(Keyword::End)
        || kind == keyword_number(Keyword::Return)
}

/// Whether a statement begins at a place.
pub fn begins_stmt(text: &[u8], tokens: &[Token], at: usize) -> bool
    requires within { at ≤ length tokens.now }
    requires cut { Cut text.now tokens.now }
    ensures { result ≡ heads (begins text.now stmt_kinds) (drop at tokens.now) }
{
    is_stmt_kind(kind_at(text, tokens, at))
}

/// Whether a token of the kind with this number begins it.
fn is_stmt_kind(kind: u8) -> bool
    ensures { result ≡ has stmt_kinds kind }
{
    is_declaration_kind(kind)
        || is_action_kind(kind)
        || kind == keyword_number(Keyword::If)
        || kind == keyword_number(Keyword::While)
        || kind == keyword_number(Keyword::For)
}
