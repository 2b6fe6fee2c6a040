//! The qubits of the operands of a call.

ghost use Rattle.std.specs.Prelude.{◌≡◌, map, IsTrue};
ghost use Rattle.std.specs.Map.{lookup as found};
ghost use Rattle.std.specs.Option.{option_map};
ghost use Rattle.const_eval.specs.Seen.{is_same_operand, qubits_of};
ghost use Rattle.gate_arguments.specs.Answering.{QubitsFit};
ghost use Rattle.gate_cases.specs.Answered.{answer_told, operand_told, lent_told};

use const_eval::Qubits;
use qasm_ast::OperandName;
use qq_base::{QubitId, Rule};

/// The qubits of an operand, or the rule that its name breaks.
#[derive(Drop)]
pub enum Answer {
    Found { ids: Vec<QubitId>, single: bool },
    Broken(Rule),
}

/// The answer to the name of an operand.
#[derive(Drop)]
pub struct OperandAnswer {
    pub name: OperandName,
    pub answer: Answer,
}

/// Whether two names of operands are the same.
fn is_same(a: OperandName, b: OperandName) -> bool
    ensures { result ≡ is_same_operand a b }
{
    match a {
        OperandName::Name(m) => match b {
            OperandName::Name(n) => m == n,
            OperandName::Hardware(_) => false,
        },
        OperandName::Hardware(m) => match b {
            OperandName::Name(_) => false,
            OperandName::Hardware(n) => m == n,
        },
    }
}

/// The first answer to a name.
pub fn answer_of(answers: &[OperandAnswer], name: OperandName) -> Option<&Answer>
    ensures { found (is_same_operand name) (map operand_told answers.now) ≡ option_map lent_told result }
{
    for entry in answers {
        if is_same(name, entry.name) {
            return Some(&entry.answer);
        }
    }
    None
}

/// The qubits of an answer.
pub fn qubits_told(answer: &Answer) -> Result<Qubits<'_>, Rule>
    ensures { qubits_of result ≡ answer_told answer.now }
{
    match answer {
        Answer::Found { ids, single } => Ok(Qubits {
            ids,
            single: *single,
        }),
        Answer::Broken(rule) => Err(*rule),
    }
}

/// Whether an answer names at most 1,024 qubits, and what is single one.
pub fn answer_fits(answer: &Answer) -> bool
    ensures { IsTrue result → QubitsFit (answer_told answer.now) }
{
    match answer {
        Answer::Found { ids, single } => ids.len() <= 1024 && (!*single || ids.len() == 1),
        Answer::Broken(_) => true,
    }
}
