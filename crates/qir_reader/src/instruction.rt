//! Instructions, and phis.

ghost use Rattle.std.specs.Prelude.{◌≡◌};
ghost use Rattle.grammar_parts.specs.Reading.{heads};
ghost use Rattle.grammar_parts.specs.Kinds.{among};
ghost use Rattle.qir_module.specs.Words.{kind};
ghost use Rattle.qir_module.specs.Reader as r;
ghost use Rattle.qir_module.specs.Reader.{◌▹◌};
ghost use Rattle.qir_reader.specs.Seen.{Gives, GivesAs};
ghost use Rattle.qir_reader.specs.Parts.{read_arithmetic, read_logic, read_comparison, read_extension, read_truncation};

use crate::class;
use crate::cursor::Cursor;
use crate::stop::Stop;
use crate::words::Reserved;
use qir_module::{Instr, Opcode, Operand, Phi, Sequence};

impl<'a> Cursor<'a> {
    /// The operands of a binary instruction.
    #[tactic(auto, unfolding(qir_module::specs::Reader::read_binary))]
    fn binary(&mut self, register: u32, op: Opcode, truth: bool) -> Result<Instr, Stop>
        ensures { Gives (r.read_binary register op truth) self.old result self.new }
    {
        let left = self.operand(truth)?;
        self.mark(b',')?;
        let right = self.operand(truth)?;
        Ok(Instr::Op {
            register,
            op,
            truth,
            left,
            right,
        })
    }

    /// A binary instruction on words alone.
    fn arithmetic_operation(&mut self, register: u32) -> Result<Instr, Stop>
        ensures { Gives (read_arithmetic register) self.old result self.new }
    {
        let op = self.arithmetic()?;
        self.word(Reserved::I64)?;
        self.binary(register, op, false)
    }

    /// A binary instruction on words or truth values.
    fn logic_operation(&mut self, register: u32) -> Result<Instr, Stop>
        ensures { Gives (read_logic register) self.old result self.new }
    {
        let op = self.logic()?;
        let truth = self.is_truth()?;
        self.binary(register, op, truth)
    }

    /// A comparison.
    fn comparison(&mut self, register: u32) -> Result<Instr, Stop>
        ensures { Gives (read_comparison register) self.old result self.new }
    {
        self.word(Reserved::Icmp)?;
        let op = self.condition()?;
        self.word(Reserved::I64)?;
        self.binary(register, op, false)
    }

    /// The word of a truth value.
    fn extension(&mut self, register: u32) -> Result<Instr, Stop>
        ensures { Gives (read_extension register) self.old result self.new }
    {
        self.word(Reserved::Zext)?;
        self.word(Reserved::I1)?;
        let from = self.operand(true)?;
        self.word(Reserved::To)?;
        self.word(Reserved::I64)?;
        Ok(Instr::Zext { register, from })
    }

    /// The truth value of a word.
    fn truncation(&mut self, register: u32) -> Result<Instr, Stop>
        ensures { Gives (read_truncation register) self.old result self.new }
    {
        self.word(Reserved::Trunc)?;
        self.word(Reserved::I64)?;
        let from = self.operand(false)?;
        self.word(Reserved::To)?;
        self.word(Reserved::I1)?;
        Ok(Instr::Trunc { register, from })
    }

    /// The two values of a choice.
    #[tactic(auto, unfolding(qir_module::specs::Reader::read_choice))]
    fn choice(&mut self, register: u32, test: Operand, truth: bool) -> Result<Instr, Stop>
        ensures { Gives (r.read_choice register test truth) self.old result self.new }
    {
        let yes = self.operand(truth)?;
        self.mark(b',')?;
        self.word(if truth { Reserved::I1 } else { Reserved::I64 })?;
        let no = self.operand(truth)?;
        Ok(Instr::Select {
            register,
            truth,
            test,
            yes,
            no,
        })
    }

    /// A choice between two values.
    #[tactic(auto, unfolding(qir_module::specs::Reader::read_selection))]
    fn selection(&mut self, register: u32) -> Result<Instr, Stop>
        ensures { Gives (r.read_selection register) self.old result self.new }
    {
        self.word(Reserved::Select)?;
        self.word(Reserved::I1)?;
        let test = self.operand(true)?;
        self.mark(b',')?;
        let truth = self.is_truth()?;
        self.choice(register, test, truth)
    }

    /// A call, which gives a truth value exactly where a register takes it.
    #[tactic(auto, unfolding(qir_module::specs::Reader::read_call))]
    pub(crate) fn call(&mut self, register: Option<u32>) -> Result<Instr, Stop>
        ensures { Gives (r.read_call register) self.old result self.new }
    {
        self.word(Reserved::Call)?;
        self.word(match register {
            None => Reserved::Void,
            Some(_) => Reserved::I1,
        })?;
        let (function, _) = self.function_name()?;
        let items = self.arguments()?;
        Ok(Instr::Call {
            register,
            function,
            args: Sequence { items },
        })
    }

    /// A binary instruction.
    #[tactic(auto, unfolding(qir_module::specs::Reader::read_operation))]
    fn operation(&mut self, register: u32) -> Result<Instr, Stop>
        ensures { Gives (r.read_operation register) self.old result self.new }
    {
        if self.sees(class::ARITHMETIC) {
            return self.arithmetic_operation(register);
        }
        if self.sees(class::LOGIC) {
            return self.logic_operation(register);
        }
        self.comparison(register)
    }

    /// A conversion between words and truth values.
    #[tactic(auto, unfolding(qir_module::specs::Reader::read_conversion))]
    fn conversion(&mut self, register: u32) -> Result<Instr, Stop>
        ensures { Gives (r.read_conversion register) self.old result self.new }
    {
        if self.sees_word(Reserved::Zext) {
            return self.extension(register);
        }
        self.truncation(register)
    }

    /// Whether a binary instruction begins here.
    fn sees_operation(&self) -> bool
        ensures { result ≡ heads (among kind r.operation_kinds) self.now }
    {
        self.sees(class::ARITHMETIC) || self.sees(class::LOGIC) || self.sees_word(Reserved::Icmp)
    }

    /// Whether a conversion begins here.
    fn sees_conversion(&self) -> bool
        ensures { result ≡ heads (among kind r.conversion_kinds) self.now }
    {
        self.sees_word(Reserved::Zext) || self.sees_word(Reserved::Trunc)
    }

    /// Whether an instruction begins here that gives its value to a register.
    pub(crate) fn sees_instruction(&self) -> bool
        ensures { result ≡ heads (among kind r.instruction_kinds) self.now }
    {
        self.sees_operation()
            || self.sees_conversion()
            || self.sees_word(Reserved::Select)
            || self.sees_word(Reserved::Call)
    }

    /// An instruction that gives its value to a register.
    pub(crate) fn instruction(&mut self, register: u32) -> Result<Instr, Stop>
        ensures { Gives (r.read_instruction register) self.old result self.new }
    {
        if self.sees_operation() {
            return self.operation(register);
        }
        if self.sees_conversion() {
            return self.conversion(register);
        }
        if self.sees_word(Reserved::Select) {
            return self.selection(register);
        }
        self.call(Some(register))
    }

    /// An operand, and the block that it comes from.
    #[tactic(auto, unfolding(qir_module::specs::Reader::read_entry))]
    fn entry(&mut self, truth: bool) -> Result<(Operand, u32), Stop>
        ensures { Gives (r.read_entry truth) self.old result self.new }
    {
        self.mark(b'[')?;
        let operand = self.operand(truth)?;
        self.mark(b',')?;
        let block = self.target()?;
        self.mark(b']')?;
        Ok((operand, block))
    }

    /// An entry behind a comma.
    fn further_entry(&mut self, truth: bool) -> Result<(Operand, u32), Stop>
        ensures { Gives (r.read_comma ▹ r.read_entry truth) self.old result self.new }
    {
        self.mark(b',')?;
        let entry = self.entry(truth)?;
        Ok(entry)
    }

    /// The entries of a phi, with commas between them, one at least.
    fn entries(&mut self, truth: bool) -> Result<Vec<(Operand, u32)>, Stop>
        ensures { GivesAs (λ found. found.items) (r.read_separated (r.read_entry truth)) self.old result self.new }
    {
        let mut found = Vec::new(self.alloc());
        found.push(self.entry(truth)?)?;
        for _ in 0..self.count() {
            if !self.sees(class::COMMA) {
                return Ok(found);
            }
            found.push(self.further_entry(truth)?)?;
        }
        Ok(found)
    }

    /// A phi.
    #[tactic(auto, unfolding(qir_module::specs::Reader::read_phi_of))]
    pub(crate) fn phi(&mut self, register: u32) -> Result<Phi, Stop>
        ensures { Gives (r.read_phi register) self.old result self.new }
    {
        self.word(Reserved::Phi)?;
        let truth = self.is_truth()?;
        let items = self.entries(truth)?;
        Ok(Phi {
            register,
            number: !truth,
            entries: Sequence { items },
        })
    }
}
