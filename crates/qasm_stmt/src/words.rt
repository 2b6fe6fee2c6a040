//! Single words and marks, with their places.

ghost use Rattle.std.specs.Prelude.{◌≡◌, ◌≤◌, ◌+◌, Ok, length, drop, IfOk, IfErr};
ghost use Rattle.qasm_expr.specs.Seen.{Cut, Gives};
ghost use Rattle.qasm_expr.specs.declared.stop.Stop.TheVariants.{Syntax};
ghost use Rattle.qasm_grammar.specs.Reader.{read_keyword, read_symbol};

use qasm_expr::parts::{Stop, sees, sees_word};
use qasm_lexer::{Keyword, Mark, Token};
use qq_base::Span;

/// Takes a word, and gives its place in the text.
pub fn word(text: &[u8], tokens: &[Token], at: usize, word: Keyword) -> Result<(Span, usize), Stop>
    requires within { at ≤ length tokens.now }
    requires cut { Cut text.now tokens.now }
    ensures gives { Gives (λ place x. place ≡ x.at) tokens.now at (read_keyword text.now word (drop at tokens.now)) result }
    ensures next { IfOk result (λ r. r.1 ≡ at + 1) }
    ensures stop { IfErr result (λ e. e ≡ Syntax at) }
{
    if sees_word(text, tokens, at, word) {
        Ok((tokens[at].at, at + 1))
    } else {
        Err(Stop::Syntax(at))
    }
}

/// Takes a mark, and gives its place in the text.
pub fn symbol(text: &[u8], tokens: &[Token], at: usize, mark: Mark) -> Result<(Span, usize), Stop>
    requires within { at ≤ length tokens.now }
    requires cut { Cut text.now tokens.now }
    ensures gives { Gives (λ place x. place ≡ x.at) tokens.now at (read_symbol text.now mark (drop at tokens.now)) result }
    ensures next { IfOk result (λ r. r.1 ≡ at + 1) }
    ensures stop { IfErr result (λ e. e ≡ Syntax at) }
{
    if sees(text, tokens, at, mark) {
        Ok((tokens[at].at, at + 1))
    } else {
        Err(Stop::Syntax(at))
    }
}
