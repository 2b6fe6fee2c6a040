//! The words and quoted texts of modules.

ghost use Rattle.std.specs.Prelude.{◌≡◌, ◌<◌, SomeIff, IsTrue, slice_get};
ghost use Rattle.std.specs.Str.Parse.{digits_value};
ghost use Rattle.qir_module.specs.Words.{word_of as the_word_of, text_of as the_text_of, is_numeral, looked_up, words, texts, OtherText, function_named};
ghost use Rattle.qir_reader.specs.Seen.{reserved_of, quoted_of, word_in, text_in};

use qir_module::laws::function_names_differ;
use qir_module::{Function, Opcode, Profile};

/// What a word is. The words of binary instructions are those on words of 64 bits alone, and those on truth
/// values too.
#[derive(Clone, Copy, Debug)]
pub(crate) enum Reserved {
    Define,
    Declare,
    Attributes,
    Internal,
    ConstantWord,
    X,
    I1,
    I8,
    I32,
    I64,
    Ptr,
    Void,
    Null,
    Inttoptr,
    To,
    Label,
    True,
    False,
    Phi,
    Icmp,
    Zext,
    Trunc,
    Select,
    Call,
    Br,
    Ret,
    Arithmetic(Opcode),
    Logic(Opcode),
    Condition(Opcode),
    Other,
}

/// What a quoted text is.
#[derive(Clone, Copy, Debug)]
pub(crate) enum Quoted {
    EntryPoint,
    Profiles,
    AProfile(Profile),
    LabelingSchema,
    Labeled,
    RequiredQubits,
    RequiredResults,
    Irreversible,
    MajorVersion,
    MinorVersion,
    DynamicQubits,
    DynamicResults,
    /// A number below 2^32 in decimal digits, with no leading zero.
    Numeral(u32),
    OtherText,
}

/// How many words there are that a reader knows.
const WORDS: u8 = 49;

/// A word of LLVM by its place in their table, which also has the operations and conditions of instructions.
fn word_row(place: u8) -> (&'static str, Reserved)
    requires { place < WORDS }
    ensures { slice_get words place ≡ Some (word_in result) }
{
    macro_rules! rows {
        ($($place:literal $word:literal $reserved:expr;)*) => {
            match place {
                $($place => ($word, $reserved),)*
                WORDS..=255 => unreachable!(),
            }
        };
    }
    rows! {
        0 "define" Reserved::Define;
        1 "declare" Reserved::Declare;
        2 "attributes" Reserved::Attributes;
        3 "internal" Reserved::Internal;
        4 "constant" Reserved::ConstantWord;
        5 "x" Reserved::X;
        6 "i1" Reserved::I1;
        7 "i8" Reserved::I8;
        8 "i32" Reserved::I32;
        9 "i64" Reserved::I64;
        10 "ptr" Reserved::Ptr;
        11 "void" Reserved::Void;
        12 "null" Reserved::Null;
        13 "inttoptr" Reserved::Inttoptr;
        14 "to" Reserved::To;
        15 "label" Reserved::Label;
        16 "true" Reserved::True;
        17 "false" Reserved::False;
        18 "phi" Reserved::Phi;
        19 "icmp" Reserved::Icmp;
        20 "zext" Reserved::Zext;
        21 "trunc" Reserved::Trunc;
        22 "select" Reserved::Select;
        23 "call" Reserved::Call;
        24 "br" Reserved::Br;
        25 "ret" Reserved::Ret;
        26 "add" Reserved::Arithmetic(Opcode::Add);
        27 "sub" Reserved::Arithmetic(Opcode::Sub);
        28 "mul" Reserved::Arithmetic(Opcode::Mul);
        29 "sdiv" Reserved::Arithmetic(Opcode::Sdiv);
        30 "srem" Reserved::Arithmetic(Opcode::Srem);
        31 "udiv" Reserved::Arithmetic(Opcode::Udiv);
        32 "urem" Reserved::Arithmetic(Opcode::Urem);
        33 "shl" Reserved::Arithmetic(Opcode::Shl);
        34 "lshr" Reserved::Arithmetic(Opcode::Lshr);
        35 "ashr" Reserved::Arithmetic(Opcode::Ashr);
        36 "and" Reserved::Logic(Opcode::And);
        37 "or" Reserved::Logic(Opcode::Or);
        38 "xor" Reserved::Logic(Opcode::Xor);
        39 "eq" Reserved::Condition(Opcode::Eq);
        40 "ne" Reserved::Condition(Opcode::Ne);
        41 "slt" Reserved::Condition(Opcode::Slt);
        42 "sle" Reserved::Condition(Opcode::Sle);
        43 "sgt" Reserved::Condition(Opcode::Sgt);
        44 "sge" Reserved::Condition(Opcode::Sge);
        45 "ult" Reserved::Condition(Opcode::Ult);
        46 "ule" Reserved::Condition(Opcode::Ule);
        47 "ugt" Reserved::Condition(Opcode::Ugt);
        48 "uge" Reserved::Condition(Opcode::Uge);
    }
}

/// What the word of this spelling is.
pub(crate) fn word_of(spelling: &[u8]) -> Reserved
    ensures { reserved_of result ≡ the_word_of spelling.now }
{
    for place in 0..WORDS {
        let (word, reserved) = word_row(place);
        if word.as_bytes() == spelling {
            return reserved;
        }
    }
    Reserved::Other
}

/// The number of the text, where it is one below 2^32 in decimal digits with no leading zero.
fn numeral_of(body: &[u8]) -> Option<u32>
    ensures { SomeIff result (IsTrue (is_numeral body.now)) (digits_value 10 body.now) }
{
    if body.is_empty() || body.len() > 1 && body[0] == b'0' {
        return None;
    }
    let mut value: u64 = 0;
    for byte in body {
        if !byte.is_ascii_digit() {
            return None;
        }
        value = value * 10 + u64::from(*byte - b'0');
        if value > u64::from(u32::MAX) {
            return None;
        }
    }
    Some(value as u32)
}

/// How many quoted texts there are that are no numbers.
const TEXTS: u8 = 13;

/// A quoted text of modules that is no number, by its place in their table.
fn text_row(place: u8) -> (&'static str, Quoted)
    requires { place < TEXTS }
    ensures { slice_get texts place ≡ Some (text_in result) }
{
    macro_rules! rows {
        ($($place:literal $text:literal $quoted:expr;)*) => {
            match place {
                $($place => ($text, $quoted),)*
                TEXTS..=255 => unreachable!(),
            }
        };
    }
    rows! {
        0 "entry_point" Quoted::EntryPoint;
        1 "qir_profiles" Quoted::Profiles;
        2 "adaptive_profile" Quoted::AProfile(Profile::Adaptive);
        3 "base_profile" Quoted::AProfile(Profile::Base);
        4 "output_labeling_schema" Quoted::LabelingSchema;
        5 "labeled" Quoted::Labeled;
        6 "required_num_qubits" Quoted::RequiredQubits;
        7 "required_num_results" Quoted::RequiredResults;
        8 "irreversible" Quoted::Irreversible;
        9 "qir_major_version" Quoted::MajorVersion;
        10 "qir_minor_version" Quoted::MinorVersion;
        11 "dynamic_qubit_management" Quoted::DynamicQubits;
        12 "dynamic_result_management" Quoted::DynamicResults;
    }
}

/// What the quoted text of these characters between its quotes is, where it is no number.
fn name_of(body: &[u8]) -> Quoted
    ensures { quoted_of result ≡ looked_up OtherText texts body.now }
{
    for place in 0..TEXTS {
        let (text, quoted) = text_row(place);
        if text.as_bytes() == body {
            return quoted;
        }
    }
    Quoted::OtherText
}

/// What the quoted text of these characters between its quotes is.
pub(crate) fn text_of(body: &[u8]) -> Quoted
    ensures { quoted_of result ≡ the_text_of body.now }
{
    match numeral_of(body) {
        Some(number) => Quoted::Numeral(number),
        None => name_of(body),
    }
}

/// The function of this name, without the `@` in front.
pub(crate) fn function_of(name: &[u8]) -> Option<Function>
    ensures { result ≡ function_named name.now }
{
    function_names_differ();
    Function::by_name(name)
}
