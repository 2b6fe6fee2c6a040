//! The classes of tokens. Whether a part of the grammar begins with a token, or goes on with it, is told by the
//! class alone. A mark is in the class of its character, and all other classes are above.

ghost use Rattle.std.specs.Prelude.{◌≡◌, ◌<◌, ◌≤◌, length, cond, nat_lt};
ghost use Rattle.qir_module.specs.Words.{reserved_class as the_reserved_class, quoted_class as the_quoted_class, text_class as the_text_class, flag_text_class as the_flag_text_class, group_class as the_group_class, flag_class as the_flag_class, number_class as the_number_class, name_class as the_name_class, flag_name_class as the_flag_name_class, class_of as the_class_of};
ghost use Rattle.qir_lexer.specs.Seen.{kind_of};
ghost use Rattle.qir_reader.specs.Seen.{reserved_of, quoted_of, IsSpelled};

use crate::bytes::between;
use crate::words::{Quoted, Reserved, text_of, word_of};
use qir_lexer::QirKind;

/// The class of the end of a text.
pub(crate) const END: u16 = 0;

pub(crate) const COMMA: u16 = 44;

pub(crate) const MAIN: u16 = 150;

pub(crate) const FLAGS: u16 = 152;

pub(crate) const REGISTER: u16 = 160;

pub(crate) const BLOCK: u16 = 162;

pub(crate) const CONSTANT: u16 = 163;

/// The words of binary instructions: those on words of 64 bits alone, and those on truth values too.
pub(crate) const ARITHMETIC: u16 = 228;

pub(crate) const LOGIC: u16 = 229;

/// The numbers 1 and 7.
pub(crate) const ONE: u16 = 140;

pub(crate) const SEVEN: u16 = 141;

/// The class of a word. Those of the words that begin no instruction, no phi and no last instruction are below
/// 220.
pub(crate) fn reserved_class(word: Reserved) -> u16
    ensures { result ≡ the_reserved_class (reserved_of word) }
{
    match word {
        Reserved::Define => 200,
        Reserved::Declare => 201,
        Reserved::Attributes => 202,
        Reserved::Internal => 203,
        Reserved::ConstantWord => 204,
        Reserved::X => 205,
        Reserved::I1 => 206,
        Reserved::I8 => 207,
        Reserved::I32 => 208,
        Reserved::I64 => 209,
        Reserved::Ptr => 210,
        Reserved::Void => 211,
        Reserved::Null => 212,
        Reserved::Inttoptr => 213,
        Reserved::To => 214,
        Reserved::Label => 215,
        Reserved::True => 216,
        Reserved::False => 217,
        Reserved::Condition(_) => 218,
        Reserved::Other => 219,
        Reserved::Phi => 220,
        Reserved::Icmp => 221,
        Reserved::Zext => 222,
        Reserved::Trunc => 223,
        Reserved::Select => 224,
        Reserved::Call => 225,
        Reserved::Br => 226,
        Reserved::Ret => 227,
        Reserved::Arithmetic(_) => 228,
        Reserved::Logic(_) => 229,
    }
}

/// The class of a quoted text, as a number from 0 on.
fn quoted_class(text: Quoted) -> u16
    ensures { result ≡ the_quoted_class (quoted_of text) }
{
    match text {
        Quoted::EntryPoint => 0,
        Quoted::Profiles => 1,
        Quoted::AProfile(_) => 2,
        Quoted::LabelingSchema => 3,
        Quoted::Labeled => 4,
        Quoted::RequiredQubits => 5,
        Quoted::RequiredResults => 6,
        Quoted::Irreversible => 7,
        Quoted::MajorVersion => 8,
        Quoted::MinorVersion => 9,
        Quoted::DynamicQubits => 10,
        Quoted::DynamicResults => 11,
        Quoted::Numeral(_) => 12,
        Quoted::OtherText => 13,
    }
}

/// The class of a quoted text by itself.
pub(crate) fn text_class(text: Quoted) -> u16
    ensures { result ≡ the_text_class (quoted_of text) }
{
    300 + quoted_class(text)
}

/// The class of a quoted text behind a `!`.
pub(crate) fn flag_text_class(text: Quoted) -> u16
    ensures { result ≡ the_flag_text_class (quoted_of text) }
{
    320 + quoted_class(text)
}

/// The class of a group of attributes.
pub(crate) fn group_class(number: u32) -> u16
    ensures { result ≡ the_group_class number }
{
    match number {
        0 => 130,
        1 => 131,
        _ => 132,
    }
}

/// The class of a flag.
pub(crate) fn flag_class(number: u32) -> u16
    ensures { result ≡ the_flag_class number }
{
    match number {
        0 => 134,
        1 => 135,
        2 => 136,
        3 => 137,
        _ => 138,
    }
}

/// The class of a number by itself.
fn number_class(value: i64) -> u16
    ensures { result ≡ the_number_class value }
{
    match value {
        1 => ONE,
        7 => SEVEN,
        0..=4_294_967_295 => 142,
        _ => 143,
    }
}

/// The class of a name behind its `@`.
fn name_class(name: &[u8]) -> u16
    ensures { result ≡ the_name_class name.now }
{
    match name {
        b"main" => MAIN,
        _ => 151,
    }
}

/// The class of a name behind its `!`.
fn flag_name_class(name: &[u8]) -> u16
    ensures { result ≡ the_flag_name_class name.now }
{
    match name {
        b"llvm.module.flags" => FLAGS,
        _ => 153,
    }
}

/// The class of a mark.
fn mark_class(mark: u8) -> u16
    ensures { result ≡ cond (nat_lt mark 128) mark 129 }
{
    if mark < 128 { u16::from(mark) } else { 129 }
}

/// The class of a token of this kind and spelling.
pub(crate) fn class_of(kind: QirKind, spelling: &[u8]) -> u16
    requires { IsSpelled kind spelling.now }
    ensures { result ≡ the_class_of (kind_of spelling.now kind) }
{
    match kind {
        QirKind::Word => reserved_class(word_of(spelling)),
        QirKind::Number(value) => number_class(value),
        QirKind::Register(_) => REGISTER,
        QirKind::Target(_) => 161,
        QirKind::Block(_) => BLOCK,
        QirKind::Constant(_) => CONSTANT,
        QirKind::Group(number) => group_class(number),
        QirKind::Flag(number) => flag_class(number),
        QirKind::Named => name_class(&spelling[1..]),
        QirKind::FlagName => flag_name_class(&spelling[1..]),
        QirKind::Text => text_class(text_of(between(1, spelling))),
        QirKind::Bytes => 164,
        QirKind::FlagText => flag_text_class(text_of(between(2, spelling))),
        QirKind::Mark(mark) => mark_class(mark),
    }
}
