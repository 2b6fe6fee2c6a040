//! The tokens of QIR text, in the syntax of the LLVM Language Reference.

use qq_base::Span;

/// A token: what it is, and where it stands.
#[derive(Clone, Copy, Debug, PartialEq, Eq)]
pub struct QirToken {
    pub kind: QirKind,
    /// The byte of the text at which it begins.
    pub start: u32,
    /// The byte of the text behind it.
    pub end: u32,
    /// The place of its first byte.
    pub at: Span,
}

/// What a token is. The bytes of a word, a name or a quoted text are those of the token in the text.
#[derive(Clone, Copy, Debug, PartialEq, Eq)]
pub enum QirKind {
    /// A word.
    Word,
    /// A number by itself.
    Number(i64),
    /// `%rN`
    Register(u32),
    /// `%bN`
    Target(u32),
    /// `bN:`
    Block(u32),
    /// `@N`
    Constant(u32),
    /// `#N`
    Group(u32),
    /// `!N`
    Flag(u32),
    /// `@` and a word.
    Named,
    /// `!` and a word.
    FlagName,
    /// A quoted text.
    Text,
    /// `c` and a quoted text.
    Bytes,
    /// `!` and a quoted text.
    FlagText,
    /// One of `= ( ) [ ] { } , !`.
    Mark(u8),
}
