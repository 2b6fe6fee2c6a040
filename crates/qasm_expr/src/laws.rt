//! The laws of expressions. They have no code: each contract is a law.

ghost use Rattle.std.specs.Prelude.{◌≡◌, ℕ, ◌<◌, ◌≤◌, ◌==◌, ◌||◌, true, Bool, Option, Some, None, Ok, List, length, map, filter};
ghost use Rattle.qasm_lexer.specs.Tokens.{Tokens};
ghost use Rattle.qasm_lexer.specs.declared.token.Token.{Token};
ghost use Rattle.qasm_ast.specs.Tree.{Tree};
ghost use Rattle.grammar_parts.specs.Exact.{Exactly};
ghost use Rattle.grammar_parts.specs.Kinds.{is_some};
ghost use Rattle.qasm_expr.specs.Seen.{Cut};
ghost use Rattle.qasm_expr.specs.TokenKinds.{bits_of};
ghost use Rattle.qasm_expr.specs.Grammar.{expr};
ghost use Rattle.qasm_expr.specs.Reader.{read_expr};
ghost use Rattle.qasm_expr.specs.Rows.{BitString, JoinsLeft, ProductFirst, SignOfPower, PowerOfSign, PowerJoinsRight, ThirdOperator, ThirdLevel, ThirdBracket, PlaceOfGroup, ChainOfGroup, EmptyCall, TrailingComma, CommaAlone, TwoCommas, ThreeParts, NoStep, NoStop, SetOfMembers, EmptySet, EmptyIndex, CastWithWidth, BoolHasNoWidth, BehindACall, AtTheEnd, BeginsNothing};

use qasm_lexer::MOST_BYTES;

/// The reader of expressions takes the longest list of tokens that begins an expression. Where that list
/// is an expression, and no limit alone forbids the token behind it, it answers the tree and the rest;
/// else it stops behind that list, and tells whether only a limit forbids the token there. This holds for
/// every limit on chains and for every number of levels that may still be opened.
pub fn expressions_are_read_exactly()
    ensures { (text : List ℕ) (limit : Option ℕ) (room : ℕ) (tokens : List Token) →
        Exactly (expr text limit room) (expr text None) tokens (read_expr text limit room tokens) }
{}

/// At most one tree is derived from tokens.
pub fn expressions_have_one_tree()
    ensures { (text : List ℕ) (limit : Option ℕ) (room : ℕ) (tokens : List Token) (a b : Tree) →
        (expr text limit room).derives tokens a → (expr text limit room).derives tokens b → a ≡ b }
{}

/// An expression takes a token at least.
pub fn expressions_take_a_token()
    ensures { (text : List ℕ) (limit : Option ℕ) (room : ℕ) (tokens : List Token) (a : Tree) (rest : List Token) →
        read_expr text limit room tokens ≡ Ok (a, rest) → length rest < length tokens }
{}

/// The tokens of a text that is not too long are few, lie within it, and are of names and bit strings that
/// are not large.
pub fn tokens_are_cut()
    ensures { (text : List ℕ) (tokens : List Token) →
        length text ≤ MOST_BYTES → Tokens text (Ok tokens) → Cut text tokens }
{}

/// The bits of a bit string are its digits.
pub fn bits_are_digits()
    ensures { (spelling : List ℕ) → is_some (bits_of spelling) ≡ true →
        bits_of spelling ≡ Some (map (λ c. c == 49) (filter (λ c. (c == 48) || (c == 49)) spelling)) }
{}

/// Worked rows: what is read of some short lists of tokens, and where reading stops.
pub fn worked_rows()
    ensures bit_string { BitString }
    ensures joins_left { JoinsLeft }
    ensures product_first { ProductFirst }
    ensures sign_of_power { SignOfPower }
    ensures power_of_sign { PowerOfSign }
    ensures power_joins_right { PowerJoinsRight }
    ensures third_operator { ThirdOperator }
    ensures third_level { ThirdLevel }
    ensures third_bracket { ThirdBracket }
    ensures place_of_group { PlaceOfGroup }
    ensures chain_of_group { ChainOfGroup }
    ensures empty_call { EmptyCall }
    ensures trailing_comma { TrailingComma }
    ensures comma_alone { CommaAlone }
    ensures two_commas { TwoCommas }
    ensures three_parts { ThreeParts }
    ensures no_step { NoStep }
    ensures no_stop { NoStop }
    ensures set_of_members { SetOfMembers }
    ensures empty_set { EmptySet }
    ensures empty_index { EmptyIndex }
    ensures cast_with_width { CastWithWidth }
    ensures bool_has_no_width { BoolHasNoWidth }
    ensures behind_a_call { BehindACall }
    ensures at_the_end { AtTheEnd }
    ensures begins_nothing { BeginsNothing }
{}
