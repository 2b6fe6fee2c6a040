//! Blanks and comments.

ghost use Rattle.std.specs.Prelude.{◌≡◌, false, [], ◌∷◌, MatchOption};
ghost use Rattle.std.specs.Str.{chars};
ghost use Rattle.qasm_lexer.specs.Characters.{is_blank};
ghost use Rattle.qasm_lexer.specs.Scan.{Cuts, BeginsSo, SkipsClose, SkipsGaps};
ghost use Rattle.qasm_lexer.specs.Tokens.{has_close};

use crate::scan::{Class, skip_char, skip_passing, split_first};

/// What stands at a place of the text.
pub(crate) enum Gap<'a> {
    /// A blank or a comment, and this behind it.
    Before(&'a str),
    /// A comment that does not end.
    Open,
    /// Neither.
    Nothing,
}

/// What stands behind the first `*/`.
fn skip_close(text: &str) -> Option<&str>
    ensures { MatchOption result (has_close (chars text.now) ≡ false) (λ behind. SkipsClose text.now behind.now) }
{
    let mut rest = text;
    while let Some((first, behind)) = split_first(rest) {
        if first == '*' {
            if let Some(end) = skip_char(behind, '/') {
                return Some(end);
            }
        }
        rest = behind;
    }
    None
}

/// Whether the character is a blank.
fn is_blank(c: char) -> bool
    ensures { result ≡ is_blank c }
{
    c == ' ' || c == '\t' || c == '\r' || c == '\n'
}

/// A blank or a comment that the text begins with.
fn first_gap(text: &str) -> Gap<'_>
    ensures { BeginsSo text.now result }
{
    let Some((first, behind)) = split_first(text) else {
        return Gap::Nothing;
    };
    if is_blank(first) {
        return Gap::Before(behind);
    }
    if first != '/' {
        return Gap::Nothing;
    }
    comment(text, behind)
}

/// A comment that the text begins with, where `behind` stands behind its `/`.
fn comment<'a>(text: &str, behind: &'a str) -> Gap<'a>
    requires { Cuts text.now (47 ∷ []) behind.now }
    ensures { BeginsSo text.now result }
{
    if let Some(body) = skip_char(behind, '/') {
        return Gap::Before(skip_passing(body, Class::InLine));
    }
    let Some(body) = skip_char(behind, '*') else {
        return Gap::Nothing;
    };
    match skip_close(body) {
        Some(end) => Gap::Before(end),
        None => Gap::Open,
    }
}

/// What stands behind the blanks and comments of the text, and whether an open comment does.
pub(crate) fn skip_gaps(text: &str) -> (&str, bool)
    ensures { SkipsGaps text.now result.0.now result.1 }
{
    let mut rest = text;
    loop {
        match first_gap(rest) {
            Gap::Before(behind) => rest = behind,
            Gap::Open => return (rest, true),
            Gap::Nothing => return (rest, false),
        }
    }
}
