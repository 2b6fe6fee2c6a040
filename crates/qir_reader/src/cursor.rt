//! The tokens of a text that are left to read.

ghost use Rattle.std.specs.Prelude.{◌≡◌, ◌<◌, ◌≤◌, ◌^◌, ◌&&◌, ◌∷◌, [], length, map, drop, List};
ghost use Rattle.std.specs.Option.{option_map};
ghost use Rattle.grammar_parts.specs.Reading.{heads, take_one};
ghost use Rattle.grammar_parts.specs.Kinds.{among};
ghost use Rattle.qir_module.specs.Tokens.{Token};
ghost use Rattle.qir_module.specs.Words as w;
ghost use Rattle.qir_module.specs.Words.{kind};
ghost use Rattle.qir_module.specs.Grammar as g;
ghost use Rattle.qir_module.specs.Reader as r;
ghost use Rattle.qir_lexer.specs.Seen.{kind_of, token_of};
ghost use Rattle.qir_reader.specs.Inside.{AreTokens, left_from};
ghost use Rattle.qir_reader.specs.Seen.{Gives, GivesAs, Takes, reserved_of, quoted_of, first_by, head_kind, Peeks, TakesIf, stray_stop};

use crate::bytes::{between, bytes_meant};
use crate::class;
use crate::peek::{Next, class_at, next_at};
use crate::stop::Stop;
use crate::words::{Quoted, Reserved, function_of, text_of, word_of};
use qir_lexer::{QirKind, QirToken};
use qir_module::{Function, Opcode, Profile};
use qq_base::{Label, Span};
use std::alloc::Global;
use std::marker::Model;

/// What is left of the tokens of a text.
#[derive(Drop)]
pub(crate) struct Cursor<'a> {
    alloc: Global,
    text: &'a [u8],
    tokens: &'a [QirToken],
    position: usize,
    /// The class of the next token.
    class: u16,
}

impl<'a> Model for Cursor<'a> {
    ghost use Rattle.std.specs.Prelude.{List};
    ghost use Rattle.qir_module.specs.Tokens.{Token};

    ghost Value = { List Token };

    ghost use Rattle.qir_reader.specs.Inside.{left_of, IsReady};

    ghost view = { left_of };

    ghost invariant = { IsReady };
}

impl<'a> Cursor<'a> {
    /// All tokens of a text.
    pub(crate) fn new(alloc: Global, text: &'a [u8], tokens: &'a [QirToken]) -> Cursor<'a>
        requires sound { AreTokens text.now tokens.now }
        requires few { length tokens.now < 2 ^ 32 }
        ensures { result ≡ map (token_of text.now) tokens.now }
    {
        let class = class_at(text, tokens, 0);
        Cursor {
            alloc,
            text,
            tokens,
            position: 0,
            class,
        }
    }

    /// The allocator.
    pub(crate) fn alloc(&self) -> Global {
        self.alloc
    }

    /// How many tokens are left.
    pub(crate) fn count(&self) -> usize
        ensures count { result ≡ length self.now }
        ensures few { result < 2 ^ 32 }
    {
        self.tokens.len() - self.position
    }

    /// What is seen of the next token.
    pub(crate) fn peek(&self) -> Option<Next<'a>>
        ensures { Peeks self.now result }
    {
        next_at(self.text, self.tokens, self.position)
    }

    /// Steps over the next token.
    fn advance(&mut self)
        requires { 0 < length self.old }
        ensures { self.new ≡ drop 1 self.old }
    {
        self.position += 1;
        self.class = class_at(self.text, self.tokens, self.position);
    }

    /// Whether a token of the class stands next.
    pub(crate) fn sees(&self, class: u16) -> bool
        requires { 0 < class }
        ensures { result ≡ heads (among kind (class ∷ [])) self.now }
    {
        self.class == class
    }

    /// Whether this word stands next.
    pub(crate) fn sees_word(&self, word: Reserved) -> bool
        ensures { result ≡ heads (among kind (r.word_kinds (reserved_of word))) self.now }
    {
        self.sees(class::reserved_class(word))
    }

    /// Takes a token of the class.
    pub(crate) fn sign(&mut self, class: u16) -> Result<(), Stop>
        requires { 0 < class }
        ensures { Takes (r.read_sign class) self.old result self.new }
    {
        if self.class != class {
            return Err(Stop::Syntax);
        }
        self.advance();
        Ok(())
    }

    /// Takes a mark.
    pub(crate) fn mark(&mut self, mark: u8) -> Result<(), Stop>
        requires { 0 < mark }
        ensures { Takes (r.read_sign mark) self.old result self.new }
    {
        self.sign(u16::from(mark))
    }

    /// Takes a word.
    pub(crate) fn word(&mut self, word: Reserved) -> Result<(), Stop>
        ensures { Takes (r.read_word (reserved_of word)) self.old result self.new }
    {
        self.sign(class::reserved_class(word))
    }

    /// Takes a quoted text.
    pub(crate) fn quoted(&mut self, text: Quoted) -> Result<(), Stop>
        ensures { Takes (r.read_quoted (quoted_of text)) self.old result self.new }
    {
        self.sign(class::text_class(text))
    }

    /// Takes a quoted text behind a `!`.
    pub(crate) fn flag_text(&mut self, text: Quoted) -> Result<(), Stop>
        ensures { Takes (r.read_flag_text (quoted_of text)) self.old result self.new }
    {
        self.sign(class::flag_text_class(text))
    }

    /// Takes a group of attributes of this number, which is 0 or 1.
    pub(crate) fn group(&mut self, number: u32) -> Result<(), Stop>
        ensures { Takes (r.read_group number) self.old result self.new }
    {
        self.sign(class::group_class(number))
    }

    /// Takes a flag of this number, which is at most 3.
    pub(crate) fn flag(&mut self, number: u32) -> Result<(), Stop>
        ensures { Takes (r.read_flag number) self.old result self.new }
    {
        self.sign(class::flag_class(number))
    }

    /// A number.
    pub(crate) fn number(&mut self) -> Result<i64, Stop>
        ensures { Gives r.read_number self.old result self.new }
    {
        let next = self.peek().ok_or(Stop::Syntax)?;
        let QirKind::Number(value) = next.kind else {
            return Err(Stop::Syntax);
        };
        self.advance();
        Ok(value)
    }

    /// A number below 2^32.
    pub(crate) fn small_number(&mut self) -> Result<u32, Stop>
        ensures { Gives r.read_small_number self.old result self.new }
    {
        let next = self.peek().ok_or(Stop::Syntax)?;
        let QirKind::Number(value) = next.kind else {
            return Err(Stop::Syntax);
        };
        let Ok(number) = u32::try_from(value) else {
            return Err(Stop::Syntax);
        };
        self.advance();
        Ok(number)
    }

    /// A register, by its number.
    pub(crate) fn register(&mut self) -> Result<u32, Stop>
        ensures { Gives r.read_register self.old result self.new }
    {
        let next = self.peek().ok_or(Stop::Syntax)?;
        let QirKind::Register(number) = next.kind else {
            return Err(Stop::Syntax);
        };
        self.advance();
        Ok(number)
    }

    /// The target of a branch, by its number.
    pub(crate) fn target(&mut self) -> Result<u32, Stop>
        ensures { Gives r.read_target self.old result self.new }
    {
        let next = self.peek().ok_or(Stop::Syntax)?;
        let QirKind::Target(number) = next.kind else {
            return Err(Stop::Syntax);
        };
        self.advance();
        Ok(number)
    }

    /// The name of a block, by its number.
    pub(crate) fn block_name(&mut self) -> Result<u32, Stop>
        ensures { Gives (r.read_value g.block_at) self.old result self.new }
    {
        let next = self.peek().ok_or(Stop::Syntax)?;
        let QirKind::Block(number) = next.kind else {
            return Err(Stop::Syntax);
        };
        self.advance();
        Ok(number)
    }

    /// A label constant, by its number.
    pub(crate) fn constant(&mut self) -> Result<u32, Stop>
        ensures { Gives (r.read_value g.constant_at) self.old result self.new }
    {
        let next = self.peek().ok_or(Stop::Syntax)?;
        let QirKind::Constant(number) = next.kind else {
            return Err(Stop::Syntax);
        };
        self.advance();
        Ok(number)
    }

    /// The number in a quoted text.
    pub(crate) fn numeral(&mut self) -> Result<u32, Stop>
        ensures { Gives r.read_numeral self.old result self.new }
    {
        let Some(Quoted::Numeral(number)) = self.next_text() else {
            return Err(Stop::Syntax);
        };
        self.advance();
        Ok(number)
    }

    /// What the next token is, where it is a quoted text.
    fn next_text(&self) -> Option<Quoted>
        ensures { option_map quoted_of result ≡ first_by (λ t. g.text_at t.kind) self.now }
    {
        let next = self.peek()?;
        let QirKind::Text = next.kind else {
            return None;
        };
        Some(text_of(between(1, next.spelling)))
    }

    /// What the next token is, where it is a word.
    pub(crate) fn next_word(&self) -> Option<Reserved>
        ensures { option_map reserved_of result ≡ first_by (λ t. g.reserved_at t.kind) self.now }
    {
        let next = self.peek()?;
        let QirKind::Word = next.kind else {
            return None;
        };
        Some(word_of(next.spelling))
    }

    /// The operation of a word on words of 64 bits alone.
    pub(crate) fn arithmetic(&mut self) -> Result<Opcode, Stop>
        ensures { Gives (r.read_operation_word g.arithmetic) self.old result self.new }
    {
        let Some(Reserved::Arithmetic(op)) = self.next_word() else {
            return Err(Stop::Syntax);
        };
        self.advance();
        Ok(op)
    }

    /// The operation of a word on words of 64 bits and on truth values.
    pub(crate) fn logic(&mut self) -> Result<Opcode, Stop>
        ensures { Gives (r.read_operation_word g.logic) self.old result self.new }
    {
        let Some(Reserved::Logic(op)) = self.next_word() else {
            return Err(Stop::Syntax);
        };
        self.advance();
        Ok(op)
    }

    /// The condition of a comparison.
    pub(crate) fn condition(&mut self) -> Result<Opcode, Stop>
        ensures { Gives (r.read_operation_word g.condition) self.old result self.new }
    {
        let Some(Reserved::Condition(op)) = self.next_word() else {
            return Err(Stop::Syntax);
        };
        self.advance();
        Ok(op)
    }

    /// Takes the label constant of this number.
    pub(crate) fn label_number(&mut self, number: u32) -> Result<(), Stop>
        ensures { Takes (r.read_numbered g.constant_at number) self.old result self.new }
    {
        let next = self.peek().ok_or(Stop::Syntax)?;
        let QirKind::Constant(found) = next.kind else {
            return Err(Stop::Syntax);
        };
        self.take_if(number == found)
    }

    /// Takes the group of attributes of this number.
    pub(crate) fn group_number(&mut self, number: u32) -> Result<(), Stop>
        ensures { Takes (r.read_numbered g.group_at number) self.old result self.new }
    {
        let next = self.peek().ok_or(Stop::Syntax)?;
        let QirKind::Group(found) = next.kind else {
            return Err(Stop::Syntax);
        };
        self.take_if(number == found)
    }

    /// Takes the flag of this number.
    pub(crate) fn flag_number(&mut self, number: u32) -> Result<(), Stop>
        ensures { Takes (r.read_numbered g.flag_at number) self.old result self.new }
    {
        let next = self.peek().ok_or(Stop::Syntax)?;
        let QirKind::Flag(found) = next.kind else {
            return Err(Stop::Syntax);
        };
        self.take_if(number == found)
    }

    /// Takes the next token where its value is right.
    fn take_if(&mut self, right: bool) -> Result<(), Stop>
        requires { 0 < length self.old }
        ensures { TakesIf right self.old result self.new }
    {
        if !right {
            return Err(Stop::Value);
        }
        self.advance();
        Ok(())
    }

    /// The bytes of a label, as many as were stated, of which the last is 0.
    pub(crate) fn label_bytes(&mut self, stated: i64) -> Result<Label, Stop>
        ensures { Gives (r.read_label_bytes stated) self.old result self.new }
    {
        let next = self.peek().ok_or(Stop::Syntax)?;
        let QirKind::Bytes = next.kind else {
            return Err(Stop::Syntax);
        };
        let items = bytes_meant(self.alloc, between(2, next.spelling))?;
        self.take_if(is_label(&items, stated))?;
        Ok(Label { items })
    }

    /// A function by its name, with the place of the name.
    pub(crate) fn function_name(&mut self) -> Result<(Function, Span), Stop>
        ensures { Gives r.read_function_name self.old result self.new }
    {
        let Some(next) = self.peek() else {
            return Err(Stop::Syntax);
        };
        let QirKind::Named = next.kind else {
            return Err(Stop::Syntax);
        };
        let Some(function) = function_of(&next.spelling[1..]) else {
            return Err(Stop::Value);
        };
        self.advance();
        Ok((function, next.at))
    }

    /// A profile by its name.
    pub(crate) fn profile(&mut self) -> Result<Profile, Stop>
        ensures { Gives r.read_profile self.old result self.new }
    {
        let text = self.next_text().ok_or(Stop::Syntax)?;
        let Quoted::AProfile(profile) = text else {
            return Err(Stop::Value);
        };
        self.advance();
        Ok(profile)
    }

    /// Why the next token stands in no place of an instruction's word.
    pub(crate) fn stray(&self) -> Stop
        ensures { result ≡ stray_stop self.now }
    {
        if 200 <= self.class && self.class < 220 {
            Stop::Value
        } else {
            Stop::Syntax
        }
    }
}

/// Whether the last byte is 0.
#[tactic(auto, using(crate::proofs::Labels::last_byte_is))]
fn ends_in_zero(bytes: &[u8]) -> bool
    ensures { result ≡ g.ends_in_zero bytes.now }
{
    if bytes.is_empty() {
        return false;
    }
    bytes[bytes.len() - 1] == 0
}

/// Whether these are as many bytes as stated, and the last is 0.
fn is_label(bytes: &[u8], stated: i64) -> bool
    ensures { result ≡ (g.is_count stated (length bytes.now) && g.ends_in_zero bytes.now) }
{
    let Ok(count) = u64::try_from(stated) else {
        return false;
    };
    count == bytes.len() as u64 && ends_in_zero(bytes)
}
