//! Names, words, texts and marks.

ghost use Rattle.std.specs.Prelude.{◌≡◌, ℕ, Bool, false, List, [], ◌∷◌, length, IsTrue};
ghost use Rattle.std.specs.Str.{chars};
ghost use Rattle.qasm_lexer.specs.Characters.{begins_name, is_quote, is_blank};
ghost use Rattle.qasm_lexer.specs.Scan.{Cuts, BeginsMark, Finds};
ghost use Rattle.qasm_lexer.specs.Tokens.{BeginsWith};

use crate::numbers::{hardware, has_too_many_bits, number, pointed};
use crate::scan::{Class, begins_name, front_of, skip_char, skip_passing};
use crate::tables::{first_mark, word_of};
use crate::token::TokenKind;
use qq_base::Rule;

/// The most characters of a name.
const MOST_CHARACTERS: usize = 1024;

/// How many characters the text has.
fn character_count(text: &str) -> usize
    ensures { result ≡ length (chars text.now) }
{
    text.chars().count()
}

/// The token at a character with which names begin.
fn name(text: &str) -> Result<(TokenKind, &str), Rule>
    requires { BeginsWith begins_name (chars text.now) }
    ensures { (version : Bool) → Finds version text.now result }
{
    let end = skip_passing(text, Class::NamePart);
    let name = front_of(text, end);
    if let Some(word) = word_of(name) {
        return Ok((TokenKind::Word(word), end));
    }
    if character_count(name) > MOST_CHARACTERS {
        return Err(Rule::LiteralRange);
    }
    Ok((TokenKind::Name, end))
}

/// The token at a quote, where `inside` stands behind it.
fn quoted<'a>(text: &str, quote: char, inside: &'a str) -> Result<(TokenKind, &'a str), Rule>
    requires quotes { IsTrue (is_quote quote) }
    requires cut { Cuts text.now (quote ∷ []) inside.now }
    ensures { (version : Bool) → Finds version text.now result }
{
    let close = skip_passing(inside, Class::InText(quote));
    let Some(end) = skip_char(close, quote) else {
        return Err(Rule::OpenString);
    };
    if quote == '"' && has_too_many_bits(front_of(inside, close)) {
        return Err(Rule::LiteralRange);
    }
    Ok((TokenKind::Text, end))
}

/// The token at any other character.
fn mark(text: &str) -> Result<(TokenKind, &str), Rule>
    requires { (c : ℕ) × (behind : List ℕ) × (chars text.now ≡ c ∷ behind) × BeginsMark c }
    ensures { (version : Bool) → Finds version text.now result }
{
    match first_mark(text) {
        Some((mark, end)) => Ok((TokenKind::Mark(mark), end)),
        None => Err(Rule::BadCharacter),
    }
}

/// The token that the text begins with, where `first` is its first character and no blank.
pub(crate) fn first_token<'a>(
    text: &'a str,
    first: char,
    behind: &'a str,
    version: bool,
) -> Result<(TokenKind, &'a str), Rule>
    requires cut { Cuts text.now (first ∷ []) behind.now }
    requires no_blank { is_blank first ≡ false }
    ensures { Finds version text.now result }
{
    if begins_name(first) {
        return name(text);
    }
    if first.is_digit(10) {
        return number(text, behind, version);
    }
    match first {
        '.' => pointed(text, text, behind, version),
        '"' => quoted(text, '"', behind),
        '\'' => quoted(text, '\'', behind),
        '$' => hardware(text, behind),
        _ => mark(text),
    }
}
