//! Modules from their text.

ghost use Rattle.std.specs.Prelude.{◌≡◌, ◌≤◌, ℕ, List, length, Ok};
ghost use Rattle.qir_module.specs.Module.{Module, IsShaped};
ghost use Rattle.qir_module.specs.Grammar as g;
ghost use Rattle.qir_module.specs.Spoilt.{rule_of_value, place_at};
ghost use Rattle.qir_module.specs.Reader as r;
ghost use Rattle.qir_lexer.specs.Seen.{kind_of};
ghost use Rattle.qir_lexer.specs.Rules.{number_of};
ghost use Rattle.qir_reader.specs.Seen.{GivesAs};
ghost use Rattle.qir_reader.specs.Answered.{IsRead};
ghost use Rattle.qir_reader.specs.Whole.{IsFault, rule_of_head, Answers, ending_of, module_in};

use crate::cursor::Cursor;
use crate::declaration::Heading;
use crate::ending::{Attributes, Flags};
use crate::stop::Stop;
use qir_lexer::{
    MOST_BYTES, QirKind, TextFault, TextRefusal, TextRule, answers_are_right, end_of, qir_tokens,
};
use qir_module::{Module, Sequence};
use qq_base::Span;
use std::alloc::Global;

/// The rule by which a token fails of which only the value is wrong.
fn rule_of_value(kind: QirKind) -> TextRule
    ensures { (spelling : List ℕ) → number_of result ≡ rule_of_value (kind_of spelling kind) }
{
    match kind {
        QirKind::Constant(_) | QirKind::Group(_) | QirKind::Flag(_) => TextRule::NumberOrder,
        QirKind::Bytes => TextRule::LabelLength,
        QirKind::Named => TextRule::UnknownFunction,
        QirKind::Word => TextRule::UnknownInstruction,
        QirKind::Text => TextRule::UnknownProfile,
        _ => TextRule::Syntax,
    }
}

/// A refusal by a rule.
fn refused(rule: TextRule, at: Span) -> TextFault
    ensures { result ≡ TextFault.Refused (record { rule = rule; at = at }) }
{
    TextFault::Refused(TextRefusal { rule, at })
}

/// The place of the next token, or of the end of the text.
fn place(text: &[u8], cursor: &Cursor) -> Span
    requires { length text.now ≤ MOST_BYTES }
    ensures { result ≡ place_at text.now cursor.now }
{
    match cursor.peek() {
        Some(token) => token.at,
        None => end_of(text),
    }
}

/// The rule by which the next token fails of which only the value is wrong.
fn rule_of_next(cursor: &Cursor) -> TextRule
    ensures { number_of result ≡ rule_of_head cursor.now }
{
    match cursor.peek() {
        Some(token) => rule_of_value(token.kind),
        None => TextRule::Syntax,
    }
}

/// Why the cursor stopped, with the rule and the place.
fn fault(text: &[u8], cursor: &Cursor, stop: Stop) -> TextFault
    requires { length text.now ≤ MOST_BYTES }
    ensures { IsFault text.now cursor.now stop result }
{
    match stop {
        Stop::Memory => TextFault::Memory,
        Stop::Syntax => refused(TextRule::Syntax, place(text, cursor)),
        Stop::Value => refused(rule_of_next(cursor), place(text, cursor)),
    }
}

/// What stands behind the declarations.
#[tactic(auto, unfolding(qir_module::specs::Reader::read_ending))]
fn ending(cursor: &mut Cursor) -> Result<(Attributes, Flags), Stop>
    ensures { (heading : g.Heading) → GivesAs (ending_of heading) (r.read_ending heading) cursor.old result cursor.new }
{
    let attributes = cursor.attributes()?;
    cursor.second_attributes()?;
    let flags = cursor.flags()?;
    Ok((attributes, flags))
}

/// The module of these parts.
fn module_of(heading: Heading, attributes: Attributes, flags: Flags) -> Module
    requires { IsShaped (module_in heading attributes flags) }
    ensures { result ≡ module_in heading attributes flags }
{
    Module {
        labels: Sequence {
            items: heading.labels,
        },
        blocks: Sequence {
            items: heading.blocks,
        },
        declarations: Sequence {
            items: heading.declarations.functions,
        },
        profile: attributes.profile,
        qubits: attributes.qubits,
        results: attributes.results,
        major: flags.major,
        minor: flags.minor,
        dynamic_qubits: flags.dynamic_qubits,
        dynamic_results: flags.dynamic_results,
    }
}

/// The module that the tokens of a text are.
fn module(text: &[u8], cursor: &mut Cursor) -> Result<Module, TextFault>
    requires few { length text.now ≤ MOST_BYTES }
    requires shaped { (m : Module) → r.answer text.now cursor.old ≡ Ok m → IsShaped m }
    ensures { Answers (r.answer text.now cursor.old) result }
{
    let heading = match cursor.heading() {
        Ok(heading) => heading,
        Err(stop) => return Err(fault(text, cursor, stop)),
    };
    if let Some(at) = heading.declarations.wrong {
        return Err(refused(TextRule::SignatureWrong, at));
    }
    let (attributes, flags) = match ending(cursor) {
        Ok(found) => found,
        Err(stop) => return Err(fault(text, cursor, stop)),
    };
    match cursor.peek() {
        None => Ok(module_of(heading, attributes, flags)),
        Some(next) => Err(refused(TextRule::TrailingText, next.at)),
    }
}

/// The module that a text is, or the first rule that the text breaks, and where. The rules of tokens are asked over
/// the whole text first.
pub fn read_module(alloc: Global, text: &[u8]) -> Result<Module, TextFault>
    requires { length text.now ≤ MOST_BYTES }
    ensures { IsRead text.now result }
{
    answers_are_right();
    let tokens = match qir_tokens(alloc, text) {
        Ok(tokens) => tokens,
        Err(fault) => return Err(fault),
    };
    let mut cursor = Cursor::new(alloc, text, &tokens);
    module(text, &mut cursor)
}
