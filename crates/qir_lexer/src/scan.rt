//! What a byte begins, how far bytes of one class go, and where a quoted text closes.

ghost use Rattle.std.specs.Prelude.{◌≡◌, ◌<◌, ◌≤◌, ◌^◌, ◌==◌, ℕ, false, List, length, IsTrue, MatchOption, IfSome};
ghost use Rattle.std.specs.List.{list_all};
ghost use Rattle.std.specs.Char.{is_ascii_digit};
ghost use Rattle.std.specs.Str.Parse.{digits_value};
ghost use Rattle.qir_module.specs.Tokens.{is_blank, begins_word, continues_word, is_mark, leads_with_zero, Outside, behind as behind_in, may_stand as stands_in};
ghost use Rattle.qir_module.specs.Lexer.{lead_of, run, closed};
ghost use Rattle.qir_lexer.specs.Scan.{passes, lead_in, escape_in};

/// A class of bytes.
#[derive(Clone, Copy)]
pub(crate) enum Class {
    /// What a word goes on with.
    WordPart,
    /// Decimal digits.
    Digit,
    /// All but CR and LF.
    InLine,
}

/// What a token, a blank or a comment begins with.
#[derive(Clone, Copy)]
pub(crate) enum Lead {
    Blank,
    Semicolon,
    Letter,
    Digit,
    Minus,
    Percent,
    At,
    Hash,
    Bang,
    Quote,
    /// A mark other than `!`.
    OtherMark,
    Nothing,
}

/// Where a byte of a quoted text stands: outside an escape, behind its backslash, or behind its first digit.
#[derive(Clone, Copy)]
enum Escape {
    Outside,
    Opened,
    HalfRead,
}

/// Space, tab, CR or LF.
fn is_blank(byte: u8) -> bool
    ensures { result ≡ is_blank byte }
{
    byte == b' ' || byte == b'\t' || byte == b'\r' || byte == b'\n'
}

/// Whether a word may begin with the byte.
pub(crate) fn begins_word(byte: u8) -> bool
    ensures { result ≡ begins_word byte }
{
    byte.is_ascii_alphabetic() || byte == b'_'
}

/// Whether a word may go on with the byte.
fn continues_word(byte: u8) -> bool
    ensures { result ≡ continues_word byte }
{
    begins_word(byte) || byte.is_ascii_digit() || byte == b'.'
}

/// Whether the byte is a mark.
fn is_mark(byte: u8) -> bool
    ensures { result ≡ is_mark byte }
{
    byte == b'='
        || byte == b'('
        || byte == b')'
        || byte == b'['
        || byte == b']'
        || byte == b'{'
        || byte == b'}'
        || byte == b','
        || byte == b'!'
}

/// What the byte begins.
pub(crate) fn lead_of(byte: u8) -> Lead
    ensures { lead_in result ≡ lead_of byte }
{
    if is_blank(byte) {
        Lead::Blank
    } else if byte == b';' {
        Lead::Semicolon
    } else if begins_word(byte) {
        Lead::Letter
    } else if byte.is_ascii_digit() {
        Lead::Digit
    } else {
        sign_of(byte)
    }
}

/// What a byte begins that begins no blank, comment, word or number.
fn sign_of(byte: u8) -> Lead
    requires blank { is_blank byte ≡ false }
    requires comment { byte == 59 ≡ false }
    requires word { begins_word byte ≡ false }
    requires digit { is_ascii_digit byte ≡ false }
    ensures { lead_in result ≡ lead_of byte }
{
    if byte == b'-' {
        Lead::Minus
    } else if byte == b'%' {
        Lead::Percent
    } else if byte == b'@' {
        Lead::At
    } else if byte == b'#' {
        Lead::Hash
    } else if byte == b'!' {
        Lead::Bang
    } else if byte == b'"' {
        Lead::Quote
    } else if is_mark(byte) {
        Lead::OtherMark
    } else {
        Lead::Nothing
    }
}

/// Whether the byte is in the class.
fn passes(class: Class, byte: u8) -> bool
    ensures { result ≡ passes class byte }
{
    match class {
        Class::WordPart => continues_word(byte),
        Class::Digit => byte.is_ascii_digit(),
        Class::InLine => byte != b'\r' && byte != b'\n',
    }
}

/// How many bytes of the class stand at the front of the text.
pub(crate) fn count_while(text: &[u8], class: Class) -> usize
    ensures count { result ≡ run (passes class) text.now }
    ensures inside { result ≤ length text.now }
{
    let mut count = 0;
    while count < text.len() && passes(class, text[count]) {
        count += 1;
    }
    count
}

/// Whether the byte may stand there in a quoted text.
fn may_stand(state: Escape, byte: u8) -> bool
    ensures { result ≡ stands_in (escape_in state) byte }
{
    match state {
        Escape::Outside => (b' '..=b'~').contains(&byte) && byte != b'"',
        Escape::Opened | Escape::HalfRead => char::from(byte).is_digit(16),
    }
}

/// The state behind a byte of a quoted text.
fn behind(state: Escape, byte: u8) -> Escape
    ensures { (text : List ℕ) → closed (escape_in result) text ≡ closed (behind_in (escape_in state) byte) text }
{
    match state {
        Escape::Outside => {
            if byte == b'\\' {
                Escape::Opened
            } else {
                Escape::Outside
            }
        }
        Escape::Opened => Escape::HalfRead,
        Escape::HalfRead => Escape::Outside,
    }
}

/// How many bytes stand in front of the closing quote, where the text goes on a quoted text up to it.
pub(crate) fn closing(text: &[u8]) -> Option<usize>
    ensures count { result ≡ closed Outside text.now }
    ensures inside { IfSome result (λ n. n < length text.now) }
{
    let mut state = Escape::Outside;
    for at in 0..text.len() {
        let byte = text[at];
        if matches!(state, Escape::Outside) && byte == b'"' {
            return Some(at);
        }
        if !may_stand(state, byte) {
            return None;
        }
        state = behind(state, byte);
    }
    None
}

/// The value of the digits, where it is at most 2^63; of some larger ones too.
pub(crate) fn value_of(digits: &[u8]) -> Option<u64>
    requires { IsTrue (list_all is_ascii_digit digits.now) }
    ensures { let value = digits_value 10 digits.now in MatchOption result (2 ^ 63 < value) (λ n. n ≡ value) }
{
    let mut value: u64 = 0;
    for digit in digits {
        if value > 1_844_674_407_370_955_160 {
            return None;
        }
        value = value * 10 + u64::from(*digit - b'0');
    }
    Some(value)
}

/// Whether a 0 stands in front of another digit.
pub(crate) fn leads_with_zero(digits: &[u8]) -> bool
    ensures { result ≡ leads_with_zero digits.now }
{
    digits.len() > 1 && digits[0] == b'0'
}
