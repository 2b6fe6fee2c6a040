//! The rules of QIR text, by their numbers and names, and refusals of a text.

ghost use Rattle.std.specs.Prelude.{◌≡◌, encode_utf8_all};
ghost use Rattle.qir_lexer.specs.Rules.{number_of, name_of};

use qq_base::Span;

/// Why a QIR text is refused.
#[derive(Clone, Copy, Debug, PartialEq, Eq)]
pub enum TextRule {
    /// There are more than 1,073,741,824 bytes.
    TooLong,
    /// A byte begins no token.
    BadCharacter,
    /// A quote begins no quoted text: it is not closed on its line, or a byte or an escape in it is none.
    OpenString,
    /// A number has a leading zero, is `-0`, or is out of range for its kind.
    NumberForm,
    /// No module goes on so.
    Syntax,
    /// A label constant, a group or a flag line has not the next number.
    NumberOrder,
    /// The stated length of a label is not the number of its bytes, or the last byte is not 0.
    LabelLength,
    /// A called or declared name is not in the table of functions.
    UnknownFunction,
    /// The types of a declaration, or its `#1`, are not those of the table.
    SignatureWrong,
    /// The word of an instruction is none.
    UnknownInstruction,
    /// The profile is neither of the two.
    UnknownProfile,
    /// A token stands behind the last flag line.
    TrailingText,
}

/// A rule that a text breaks, and where. A column is one byte, and a line ends behind LF.
#[derive(Clone, Copy, Debug, PartialEq, Eq)]
pub struct TextRefusal {
    pub rule: TextRule,
    pub at: Span,
}

/// Why a call over a text gives nothing: want of memory, or a refusal of the text.
#[derive(Clone, Copy, Debug, PartialEq, Eq)]
pub enum TextFault {
    Memory,
    Refused(TextRefusal),
}

/// Each rule with its number, its name and the bytes of its name.
macro_rules! rules {
    ($make:ident) => {
        $make! {
            TooLong = 1, "TooLong";
            BadCharacter = 2, "BadCharacter";
            OpenString = 3, "OpenString";
            NumberForm = 4, "NumberForm";
            Syntax = 5, "Syntax";
            NumberOrder = 6, "NumberOrder";
            LabelLength = 7, "LabelLength";
            UnknownFunction = 8, "UnknownFunction";
            SignatureWrong = 9, "SignatureWrong";
            UnknownInstruction = 10, "UnknownInstruction";
            UnknownProfile = 11, "UnknownProfile";
            TrailingText = 12, "TrailingText";
        }
    };
}

impl TextRule {
    /// The number of the rule.
    pub fn number(self) -> u8
        ensures { result ≡ number_of self }
    {
        macro_rules! arms {
            ($($rule:ident = $number:literal, $name:literal;)*) => {
                match self {
                    $(TextRule::$rule => $number,)*
                }
            };
        }
        rules!(arms)
    }

    /// The name of the rule.
    pub fn name(self) -> &'static str
        ensures { result.now ≡ name_of self }
    {
        macro_rules! arms {
            ($($rule:ident = $number:literal, $name:literal;)*) => {
                match self {
                    $(TextRule::$rule => $name,)*
                }
            };
        }
        rules!(arms)
    }
}
