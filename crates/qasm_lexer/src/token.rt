//! The tokens of a source text. Their spellings are those of the OpenQASM 3.0 specification, but for
//! what the profile leaves out.

use qq_base::Span;

/// A token: what it is, and where it stands.
#[derive(Clone, Copy, Debug, PartialEq, Eq)]
pub struct Token {
    pub kind: TokenKind,
    /// The byte of the text at which it begins.
    pub start: u32,
    /// The byte of the text behind it.
    pub end: u32,
    /// The place of its first character.
    pub at: Span,
}

/// What a token is.
#[derive(Clone, Copy, Debug, PartialEq, Eq)]
pub enum TokenKind {
    /// A name that is no word of the language.
    Name,
    /// A word of the language, or one that the profile leaves out.
    Word(Keyword),
    /// A whole number.
    Whole(u64),
    /// A text in quotes. A bit string is one too.
    Text,
    /// A version, as it stands behind `OPENQASM`.
    Version { major: u32, minor: Option<u32> },
    /// A hardware qubit, by its number.
    Hardware(u32),
    /// A mark.
    Mark(Mark),
}

/// The words of the language, and behind them those that the profile leaves out.
#[derive(Clone, Copy, Debug, PartialEq, Eq)]
pub enum Keyword {
    /// `OPENQASM`
    OpenQasm,
    /// `include`
    Include,
    /// `qubit`
    Qubit,
    /// `qreg`
    Qreg,
    /// `bit`
    Bit,
    /// `creg`
    Creg,
    /// `bool`
    Bool,
    /// `int`
    Int,
    /// `uint`
    Uint,
    /// `angle`
    Angle,
    /// `const`
    Const,
    /// `output`
    Output,
    /// `let`
    Let,
    /// `gate`
    Gate,
    /// `def`
    Def,
    /// `gphase`
    Gphase,
    /// `inv`
    Inv,
    /// `pow`
    Pow,
    /// `ctrl`
    Ctrl,
    /// `reset`
    Reset,
    /// `barrier`
    Barrier,
    /// `measure`
    Measure,
    /// `if`
    If,
    /// `else`
    Else,
    /// `while`
    While,
    /// `for`
    For,
    /// `in`
    In,
    /// `break`
    Break,
    /// `continue`
    Continue,
    /// `return`
    Return,
    /// `end`
    End,
    /// `true`
    True,
    /// `false`
    False,
    /// `float`, left out
    Float,
    /// `complex`, left out
    Complex,
    /// `array`, left out
    Array,
    /// `duration`, left out
    Duration,
    /// `stretch`, left out
    Stretch,
    /// `box`, left out
    Box,
    /// `delay`, left out
    Delay,
    /// `durationof`, left out
    DurationOf,
    /// `defcal`, left out
    Defcal,
    /// `cal`, left out
    Cal,
    /// `defcalgrammar`, left out
    DefcalGrammar,
    /// `extern`, left out
    Extern,
    /// `pragma`, left out
    Pragma,
    /// `input`, left out
    Input,
    /// `readonly`, left out
    Readonly,
    /// `mutable`, left out
    Mutable,
    /// `void`, left out
    Void,
    /// `switch`, left out
    Switch,
    /// `case`, left out
    Case,
    /// `default`, left out
    Default,
    /// `negctrl`, left out
    Negctrl,
    /// `euler`, left out
    Euler,
    /// `ℇ`, left out
    EulerSign,
}

/// The marks.
#[derive(Clone, Copy, Debug, PartialEq, Eq)]
pub enum Mark {
    /// `;`
    Semicolon,
    /// `,`
    Comma,
    /// `(`
    LeftParen,
    /// `)`
    RightParen,
    /// `[`
    LeftBracket,
    /// `]`
    RightBracket,
    /// `{`
    LeftBrace,
    /// `}`
    RightBrace,
    /// `@`
    At,
    /// `#`, left out
    Hash,
    /// `:`
    Colon,
    /// `=`
    Assign,
    /// `->`
    Arrow,
    /// `+`
    Plus,
    /// `++`
    PlusPlus,
    /// `-`
    Minus,
    /// `*`
    Star,
    /// `**`
    StarStar,
    /// `/`
    Slash,
    /// `%`
    Percent,
    /// `~`
    Tilde,
    /// `!`
    Bang,
    /// `&`
    Ampersand,
    /// `&&`
    AndAnd,
    /// `|`
    Pipe,
    /// `||`
    OrOr,
    /// `^`
    Caret,
    /// `<<`
    ShiftLeft,
    /// `>>`
    ShiftRight,
    /// `<`
    Less,
    /// `<=`
    LessEqual,
    /// `>`
    Greater,
    /// `>=`
    GreaterEqual,
    /// `==`
    Equal,
    /// `!=`
    NotEqual,
    /// `+=`
    PlusAssign,
    /// `-=`
    MinusAssign,
    /// `*=`
    StarAssign,
    /// `/=`
    SlashAssign,
    /// `%=`
    PercentAssign,
    /// `&=`
    AndAssign,
    /// `|=`
    OrAssign,
    /// `^=`
    CaretAssign,
    /// `<<=`
    ShiftLeftAssign,
    /// `>>=`
    ShiftRightAssign,
}
