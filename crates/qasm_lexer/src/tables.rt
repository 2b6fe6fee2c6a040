//! The tables of words and marks, each made from one list.

ghost use Rattle.std.specs.Prelude.{◌≡◌, ℕ, List, ◌++◌, MatchOption, length};
ghost use Rattle.std.specs.Str.{chars, encode_utf8_all};
ghost use Rattle.qasm_lexer.specs.Scan.{Cuts, IsFirstMark, BeginsNoMark};
ghost use Rattle.qasm_lexer.specs.Tables.{word_spelling, mark_spelling};

use crate::token::{Keyword, Mark};

/// Each word with its spelling.
macro_rules! words {
    ($make:ident) => {
        $make! {
            Keyword;
            OpenQasm = "OPENQASM",
            Include = "include",
            Qubit = "qubit",
            Qreg = "qreg",
            Bit = "bit",
            Creg = "creg",
            Bool = "bool",
            Int = "int",
            Uint = "uint",
            Angle = "angle",
            Const = "const",
            Output = "output",
            Let = "let",
            Gate = "gate",
            Def = "def",
            Gphase = "gphase",
            Inv = "inv",
            Pow = "pow",
            Ctrl = "ctrl",
            Reset = "reset",
            Barrier = "barrier",
            Measure = "measure",
            If = "if",
            Else = "else",
            While = "while",
            For = "for",
            In = "in",
            Break = "break",
            Continue = "continue",
            Return = "return",
            End = "end",
            True = "true",
            False = "false",
            Float = "float",
            Complex = "complex",
            Array = "array",
            Duration = "duration",
            Stretch = "stretch",
            Box = "box",
            Delay = "delay",
            DurationOf = "durationof",
            Defcal = "defcal",
            Cal = "cal",
            DefcalGrammar = "defcalgrammar",
            Extern = "extern",
            Pragma = "pragma",
            Input = "input",
            Readonly = "readonly",
            Mutable = "mutable",
            Void = "void",
            Switch = "switch",
            Case = "case",
            Default = "default",
            Negctrl = "negctrl",
            Euler = "euler",
            EulerSign = "ℇ",
        }
    };
}

/// Each mark with its spelling, the longer ones first.
macro_rules! marks {
    ($make:ident) => {
        $make! {
            Mark;
            ShiftLeftAssign = "<<=",
            ShiftRightAssign = ">>=",
            Arrow = "->",
            PlusPlus = "++",
            StarStar = "**",
            AndAnd = "&&",
            OrOr = "||",
            ShiftLeft = "<<",
            ShiftRight = ">>",
            LessEqual = "<=",
            GreaterEqual = ">=",
            Equal = "==",
            NotEqual = "!=",
            PlusAssign = "+=",
            MinusAssign = "-=",
            StarAssign = "*=",
            SlashAssign = "/=",
            PercentAssign = "%=",
            AndAssign = "&=",
            OrAssign = "|=",
            CaretAssign = "^=",
            Semicolon = ";",
            Comma = ",",
            LeftParen = "(",
            RightParen = ")",
            LeftBracket = "[",
            RightBracket = "]",
            LeftBrace = "{",
            RightBrace = "}",
            At = "@",
            Hash = "#",
            Colon = ":",
            Assign = "=",
            Plus = "+",
            Minus = "-",
            Star = "*",
            Slash = "/",
            Percent = "%",
            Tilde = "~",
            Bang = "!",
            Ampersand = "&",
            Pipe = "|",
            Caret = "^",
            Less = "<",
            Greater = ">",
        }
    };
}

/// Writes the list of all variants of a table.
macro_rules! variants {
    ($kind:ident; $($variant:ident = $spelling:literal,)*) => {
        [$($kind::$variant),*]
    };
}

const WORDS: [Keyword; 56] = words!(variants);

const MARKS: [Mark; 45] = marks!(variants);

/// How the word is spelled.
fn word_spelling(word: Keyword) -> &'static str
    ensures { result.now ≡ encode_utf8_all (word_spelling word) }
{
    macro_rules! arms {
        ($kind:ident; $($variant:ident = $spelling:literal,)*) => {
            match word {
                $($kind::$variant => $spelling,)*
            }
        };
    }
    words!(arms)
}

/// How the mark is spelled.
fn mark_spelling(mark: Mark) -> &'static str
    ensures { result.now ≡ mark_spelling mark }
{
    macro_rules! arms {
        ($kind:ident; $($variant:ident = $spelling:literal,)*) => {
            match mark {
                $($kind::$variant => $spelling,)*
            }
        };
    }
    marks!(arms)
}

/// The word that the text is.
pub(crate) fn word_of(text: &str) -> Option<Keyword>
    ensures { MatchOption result ((word : Keyword) → ¬ (chars text.now ≡ word_spelling word))
        (λ word. chars text.now ≡ word_spelling word) }
{
    for word in WORDS {
        if word_spelling(word) == text {
            return Some(word);
        }
    }
    None
}

/// The longest mark that the text begins with, and what stands behind it.
pub(crate) fn first_mark(text: &str) -> Option<(Mark, &str)>
    ensures { MatchOption result (BeginsNoMark (chars text.now))
        (λ found. Cuts text.now (mark_spelling found.0) found.1.now × IsFirstMark (chars text.now) found.0) }
{
    for mark in MARKS {
        if let Some(behind) = text.strip_prefix(mark_spelling(mark)) {
            return Some((mark, behind));
        }
    }
    None
}
