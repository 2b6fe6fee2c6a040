//! Operands, and the arguments of calls.

ghost use Rattle.std.specs.Prelude.{◌≡◌};
ghost use Rattle.grammar_parts.specs.Reading.{heads};
ghost use Rattle.grammar_parts.specs.Kinds.{among};
ghost use Rattle.qir_module.specs.Words.{kind};
ghost use Rattle.qir_module.specs.Reader as r;
ghost use Rattle.qir_module.specs.Reader.{◌▹◌};
ghost use Rattle.qir_reader.specs.Seen.{Gives, GivesAs};
ghost use Rattle.qir_reader.specs.Parts.{read_type};

use crate::class;
use crate::cursor::Cursor;
use crate::stop::Stop;
use crate::words::Reserved;
use qir_module::{Arg, Operand};

impl<'a> Cursor<'a> {
    /// The type of a value, which tells whether it is a truth value.
    pub(crate) fn is_truth(&mut self) -> Result<bool, Stop>
        ensures { Gives read_type self.old result self.new }
    {
        if self.sees_word(Reserved::I64) {
            self.word(Reserved::I64)?;
            return Ok(false);
        }
        self.word(Reserved::I1)?;
        Ok(true)
    }

    /// `true` or `false`.
    pub(crate) fn truth(&mut self) -> Result<bool, Stop>
        ensures { Gives r.read_truth self.old result self.new }
    {
        if self.sees_word(Reserved::True) {
            self.word(Reserved::True)?;
            return Ok(true);
        }
        self.word(Reserved::False)?;
        Ok(false)
    }

    /// A fixed value: a truth value, or else a word.
    fn fixed(&mut self, is_truth: bool) -> Result<Operand, Stop>
        ensures { Gives (r.read_fixed is_truth) self.old result self.new }
    {
        let value = if is_truth {
            i64::from(self.truth()?)
        } else {
            self.number()?
        };
        Ok(Operand::Fixed(value))
    }

    /// A register or a fixed value.
    #[tactic(auto, unfolding(qir_module::specs::Reader::read_operand))]
    pub(crate) fn operand(&mut self, is_truth: bool) -> Result<Operand, Stop>
        ensures { Gives (r.read_operand is_truth) self.old result self.new }
    {
        if self.sees(class::REGISTER) {
            return Ok(Operand::Register(self.register()?));
        }
        self.fixed(is_truth)
    }

    /// The number that a pointer is made of; `null` is made of 0.
    #[tactic(auto, unfolding(qir_module::specs::Reader::read_id))]
    fn id(&mut self) -> Result<u32, Stop>
        ensures { Gives r.read_id self.old result self.new }
    {
        if self.sees_word(Reserved::Null) {
            self.word(Reserved::Null)?;
            return Ok(0);
        }
        self.word(Reserved::Inttoptr)?;
        self.mark(b'(')?;
        self.word(Reserved::I64)?;
        let number = self.small_number()?;
        self.word(Reserved::To)?;
        self.word(Reserved::Ptr)?;
        self.mark(b')')?;
        Ok(number)
    }

    /// What stands behind the type of a pointer.
    fn pointer_argument(&mut self) -> Result<Arg, Stop>
        ensures { Gives r.read_pointer_argument self.old result self.new }
    {
        if self.sees_word(Reserved::Null) || self.sees_word(Reserved::Inttoptr) {
            return Ok(Arg::Id(self.id()?));
        }
        Ok(Arg::Text(self.constant()?))
    }

    /// A word or a truth value behind its type.
    fn value_argument(&mut self) -> Result<Arg, Stop>
        ensures { Gives (r.read_typed r.read_value_argument) self.old result self.new }
    {
        if self.is_truth()? {
            Ok(Arg::Truth(self.operand(true)?))
        } else {
            Ok(Arg::Number(self.operand(false)?))
        }
    }

    /// An argument of a call.
    #[tactic(auto, unfolding(qir_module::specs::Reader::read_argument))]
    pub(crate) fn argument(&mut self) -> Result<Arg, Stop>
        ensures { Gives r.read_argument self.old result self.new }
    {
        if self.sees_word(Reserved::I64) || self.sees_word(Reserved::I1) {
            return self.value_argument();
        }
        self.word(Reserved::Ptr)?;
        self.pointer_argument()
    }

    /// Whether the type of an argument stands next.
    pub(crate) fn sees_type(&self) -> bool
        ensures { result ≡ heads (among kind r.argument_kinds) self.now }
    {
        self.sees_word(Reserved::I64)
            || self.sees_word(Reserved::I1)
            || self.sees_word(Reserved::Ptr)
    }

    /// An argument behind a comma.
    fn further_argument(&mut self) -> Result<Arg, Stop>
        ensures { Gives (r.read_comma ▹ r.read_argument) self.old result self.new }
    {
        self.mark(b',')?;
        let argument = self.argument()?;
        Ok(argument)
    }

    /// Arguments with commas between them, one at least.
    fn some_arguments(&mut self) -> Result<Vec<Arg>, Stop>
        ensures { GivesAs (λ found. found.items) (r.read_separated r.read_argument) self.old result self.new }
    {
        let mut found = Vec::new(self.alloc());
        found.push(self.argument()?)?;
        for _ in 0..self.count() {
            if !self.sees(class::COMMA) {
                return Ok(found);
            }
            found.push(self.further_argument()?)?;
        }
        Ok(found)
    }

    /// The arguments of a call.
    #[tactic(auto, unfolding(qir_module::specs::Reader::read_arguments))]
    pub(crate) fn arguments(&mut self) -> Result<Vec<Arg>, Stop>
        ensures { GivesAs (λ found. found.items) r.read_arguments self.old result self.new }
    {
        self.mark(b'(')?;
        let found = if self.sees_type() {
            self.some_arguments()?
        } else {
            Vec::new(self.alloc())
        };
        self.mark(b')')?;
        Ok(found)
    }
}
