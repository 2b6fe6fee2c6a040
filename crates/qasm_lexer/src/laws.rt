//! Laws of tokens. No program calls these functions, and the contract of each is the law. All but
//! `texts_have_a_reading` have an empty body.

ghost use Rattle.std.specs.Prelude.{◌≡◌, ℕ, ◌≤◌, false, List, Result, Ok, length};
ghost use Rattle.qq_base.specs.declared.refusal.Refusal.{Refusal};
ghost use Rattle.qasm_lexer.specs.Pieces.{Piece, text_of, AreApart, AreWritten};
ghost use Rattle.qasm_lexer.specs.Sizes.{AreBounded};
ghost use Rattle.qasm_lexer.specs.Tokens.{Tokens};
ghost use Rattle.qasm_lexer.specs.declared.token.Token.{Token};

use crate::lexer::{MOST_BYTES, end_of, next_token, opens_version};

/// A list of bytes has a reading, whatever they are: its tokens, or its first refusal. It is found by going
/// from token to token.
pub fn texts_have_a_reading(bytes: &[u8])
    requires { length bytes.now ≤ MOST_BYTES }
    ensures { (reading : Result (List Token) Refusal) × Tokens bytes.now reading }
{
    let Ok(text) = str::from_utf8(bytes) else {
        return;
    };
    let mut from = 0;
    let mut version = false;
    loop {
        let at = end_of(&bytes[..from]);
        match next_token(text, from, at, version) {
            Ok(Some(token)) => {
                from = token.end as usize;
                version = opens_version(token.kind);
            }
            Ok(None) => return,
            Err(_) => return,
        }
    }
}

/// A text has one reading: its tokens, or its first refusal.
pub fn texts_have_one_reading()
    ensures { (bytes : List ℕ) (a b : Result (List Token) Refusal) → Tokens bytes a → Tokens bytes b → a ≡ b }
{}

/// The tokens of a text are no more than its bytes and stand within it. A name has at most 4,096 bytes, and
/// a bit string at most 4,096 bits.
pub fn tokens_are_bounded()
    ensures { (text : List ℕ) (tokens : List Token) → Tokens text (Ok tokens) → AreBounded text tokens }
{}

/// Tokens that are written one behind the other, each of which cannot go on with what stands behind it, are
/// read as they are written.
pub fn written_tokens_are_read()
    ensures { (pieces : List Piece) → AreApart false pieces → (tokens : List Token) × Tokens (text_of pieces) (Ok tokens) × AreWritten (text_of pieces) tokens pieces }
{}
