//! The steps of the scanners: one character, or the longest front of one class of characters. Each gives
//! what stands behind.

ghost use Rattle.std.specs.Prelude.{◌≡◌, ℕ, ◌+◌, List, [], ◌∷◌, ◌++◌, ◌==◌, length, MatchOption};
ghost use Rattle.std.specs.Str.{chars};
ghost use Rattle.qasm_lexer.specs.Characters.{begins_name, continues_name};
ghost use Rattle.qasm_lexer.specs.Scan.{Cuts, HasRest, SkipsPassing, StopsAt, passes};

use unicode::properties::GeneralCategory;

/// A class of characters.
#[derive(Clone, Copy)]
pub(crate) enum Class {
    /// What a name goes on with.
    NamePart,
    /// Decimal digits.
    Digit,
    /// All but CR and LF.
    InLine,
    /// All but this quote, CR and LF.
    InText(char),
}

/// Whether a name may begin with the character.
pub(crate) fn begins_name(c: char) -> bool
    ensures { result ≡ begins_name c }
{
    if c.is_ascii() {
        return c == '_' || c.is_ascii_alphabetic();
    }
    matches!(
        GeneralCategory::for_char(c),
        GeneralCategory::UppercaseLetter
            | GeneralCategory::LowercaseLetter
            | GeneralCategory::TitlecaseLetter
            | GeneralCategory::ModifierLetter
            | GeneralCategory::OtherLetter
            | GeneralCategory::LetterNumber
    )
}

/// Whether the character is in the class.
fn passes(class: Class, c: char) -> bool
    ensures { result ≡ passes class c }
{
    match class {
        Class::NamePart => begins_name(c) || c.is_ascii_digit(),
        Class::Digit => c.is_digit(10),
        Class::InLine => c != '\r' && c != '\n',
        Class::InText(quote) => c != quote && c != '\r' && c != '\n',
    }
}

/// The first character of the text, and what stands behind it.
pub(crate) fn split_first(text: &str) -> Option<(char, &str)>
    ensures { MatchOption result (chars text.now ≡ [])
        (λ found. Cuts text.now (found.0 ∷ []) found.1.now) }
{
    let first = text.chars().next()?;
    let (_, behind) = text.split_at(first.len_utf8());
    Some((first, behind))
}

/// What stands behind the longest front of the text that is in the class.
pub(crate) fn skip_passing(text: &str, class: Class) -> &str
    ensures { SkipsPassing (passes class) text.now result.now }
{
    let mut rest = text;
    while let Some((first, behind)) = split_first(rest) {
        if !passes(class, first) {
            break;
        }
        rest = behind;
    }
    rest
}

/// What stands behind the character, where the text begins with it.
pub(crate) fn skip_char(text: &str, c: char) -> Option<&str>
    ensures { MatchOption result (StopsAt (λ d. d == c) (chars text.now))
        (λ behind. Cuts text.now (c ∷ []) behind.now) }
{
    let (first, behind) = split_first(text)?;
    if first == c { Some(behind) } else { None }
}

/// What stands in the text in front of its rest.
pub(crate) fn front_of<'a>(text: &'a str, rest: &str) -> &'a str
    requires { HasRest text.now rest.now }
    ensures whole { text.now ≡ result.now ++ rest.now }
    ensures length { length result.now + length rest.now ≡ length text.now }
{
    let (front, _) = text.split_at(text.len() - rest.len());
    front
}
