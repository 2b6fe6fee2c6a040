//! Refusals, by where reading stops.

ghost use Rattle.std.specs.Prelude.{◌≡◌, ◌≤◌, length, drop};
ghost use Rattle.qasm_expr.specs.Answer.{rule_at};
ghost use Rattle.qasm_parser.specs.Answer.{fault_of};

use crate::stop::Stop;
use qasm_expr::parts::{is_left_out, place_at};
use qasm_lexer::{MOST_BYTES, Token};
use qq_base::{Fault, Refusal, Rule};

/// The rule of what stands at a place where no part goes on.
fn rule_at(tokens: &[Token], at: usize) -> Rule
    requires { at ≤ length tokens.now }
    ensures { result ≡ rule_at (drop at tokens.now) }
{
    if at < tokens.len() && is_left_out(tokens[at].kind) {
        Rule::LeftOut
    } else {
        Rule::Syntax
    }
}

/// The fault of a call, by where and why reading stopped.
pub fn fault_of(text: &str, tokens: &[Token], at: usize, stop: Stop) -> Fault
    requires size { length text.now ≤ MOST_BYTES }
    requires within { at ≤ length tokens.now }
    ensures { result ≡ fault_of text.now (drop at tokens.now) stop }
{
    match stop {
        Stop::Memory => Fault::Memory,
        Stop::Syntax => Fault::Refused(Refusal {
            rule: rule_at(tokens, at),
            at: place_at(text, tokens, at),
        }),
        Stop::Deep => Fault::Refused(Refusal {
            rule: Rule::NestingDeep,
            at: place_at(text, tokens, at),
        }),
    }
}
