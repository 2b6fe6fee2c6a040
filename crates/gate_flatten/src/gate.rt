//! The gate that is called, with its arguments.
ghost use Rattle.std.specs.Prelude.{◌≡◌, ◌<◌, [], ◌∷◌, ℕ, ℤ, All, length, map, IfOk};
ghost use Rattle.qasm_ast.specs.View.{trees_in};
ghost use Rattle.qasm_ast.specs.Whole.{AllOf, IsExpr};
ghost use Rattle.const_eval.specs.Answers.{Answers};
ghost use Rattle.const_eval.specs.Walk.{behind, done};
ghost use Rattle.gate_lists.specs.Amounts.{units_in, IsNamed, params_of, qubits_of};
ghost use Rattle.gate_lists.specs.Members.{instructions_in};
ghost use Rattle.gate_lists.specs.Paid.{AnswersWithin};
ghost use Rattle.gate_arguments.specs.Arguments.{places_of, units_of_all as spec_units_of_all};
ghost use Rattle.gate_arguments.specs.Seen.{arguments_seen, ArgumentFits};
ghost use Rattle.gate_flatten.specs.Expand.{ready as spec_ready};
ghost use Rattle.gate_flatten.specs.Served.{GateFits, Leaves, ReadyFits, count_of, gate_seen, ready_seen};

use crate::call::Call;
use gate_arguments::{Argument, units_at};
use gate_lists::{Amount, Member, Work, push, refused};
use gate_table::Row;
use qasm_ast::{Declared, ExprId, Items, Program, StmtId};
use qq_base::{Fault, GateId, QubitId, Rule};
use std::alloc::Global;

/// What an application of a gate of the table costs.
const GATE_COST: u64 = 1;

/// A gate that the program defines.
#[derive(Clone, Copy)]
pub(crate) struct Defined<'a> {
    pub def: StmtId,
    pub params: &'a Items<Declared>,
    pub qubits: &'a Items<Declared>,
    pub body: &'a Items<StmtId>,
}

/// The gate that is called.
#[derive(Clone, Copy)]
pub(crate) enum Gate<'a> {
    /// A gate of the target table, with its row.
    Table(GateId, Row),
    Defined(Defined<'a>),
}

/// A gate with its arguments.
#[derive(Drop)]
pub(crate) enum Ready<'p, 'a> {
    /// A gate of the target table, with its arguments in units and the number of its qubits.
    Table {
        gate: GateId,
        args: Vec<Amount>,
        qubits: u8,
    },
    Defined {
        defined: Defined<'p>,
        arguments: &'a [Argument],
    },
}

impl<'p, 'a> Ready<'p, 'a> {
    /// How many qubits the gate takes.
    pub fn qubit_count(&self) -> usize
        ensures { result ≡ count_of self.now }
    {
        match self {
            Ready::Table { qubits, .. } => *qubits as usize,
            Ready::Defined { defined, .. } => {
                let names = defined.qubits;
                names.items.len()
            }
        }
    }
}

/// A gate with as many arguments as it takes. Those of a gate of the table are brought to units.
#[tactic(auto, using(crate::proofs::Readying::table_ready, crate::proofs::Readying::table_fails, crate::proofs::Readying::table_miscounted, crate::proofs::Readying::defined_ready, crate::proofs::Readying::defined_miscounted))]
pub(crate) fn ready_gate<'p, 'a>(
    alloc: Global,
    program: &Program,
    call: &Call<'_>,
    gate: &Gate<'p>,
    arguments: &'a [Argument],
) -> Result<Ready<'p, 'a>, Fault>
    requires args { AllOf (IsExpr (length program.now.exprs)) call.now.args.now }
    requires gate { GateFits program.now gate.now }
    requires arguments { length arguments.now ≡ length call.now.args.now }
    ensures answer { (worths : ℕ → ℤ) → Answers (ready_seen program.now worths) result (spec_ready call.now.gate.at (places_of (trees_in program.now call.now.args.now)) (arguments_seen worths arguments.now) (gate_seen program.now gate.now)) }
    ensures fits { (turns : ℕ) → All (ArgumentFits turns) arguments.now → IfOk result (ReadyFits program.now turns) }
{
    match gate {
        Gate::Table(gate, row) => {
            if arguments.len() != row.params as usize {
                return Err(refused(Rule::ArgumentCount, call.gate.at));
            }
            Ok(Ready::Table {
                gate: *gate,
                args: units_of_all(alloc, program, call.args, arguments)?,
                qubits: row.qubits,
            })
        }
        Gate::Defined(defined) => {
            let params = defined.params;
            if arguments.len() != params.items.len() {
                return Err(refused(Rule::ArgumentCount, call.gate.at));
            }
            Ok(Ready::Defined {
                defined: *defined,
                arguments,
            })
        }
    }
}

// The units of all arguments, in order.
#[tactic(auto, using(crate::proofs::Readying::units_more, crate::proofs::Readying::units_refused, crate::proofs::Readying::units_end))]
fn units_of_all(
    alloc: Global,
    program: &Program,
    args: &Items<ExprId>,
    arguments: &[Argument],
) -> Result<Vec<Amount>, Fault>
    requires in_range { AllOf (IsExpr (length program.now.exprs)) args.now }
    requires count { length arguments.now ≡ length args.now }
    ensures answer { (worths : ℕ → ℤ) → Answers (λ v. map (units_in worths) v.items) result (spec_units_of_all (places_of (trees_in program.now args.now)) (arguments_seen worths arguments.now)) }
    ensures count { IfOk result (λ v. length v.items ≡ length arguments.now) }
    ensures named { (turns : ℕ) → All (ArgumentFits turns) arguments.now → IfOk result (λ v. All (IsNamed turns) v.items) }
{
    let mut amounts = Vec::new(alloc);
    for (k, argument) in arguments.iter().enumerate() {
        let units = units_at(argument, program.expr(args.items[k]).at)?;
        push(&mut amounts, units)?;
    }
    Ok(amounts)
}

/// The list of a gate of the table, which costs 1.
#[tactic(auto, using(crate::proofs::Readying::one_paid, crate::proofs::Readying::one_unpaid, crate::proofs::Growing::grows_one, crate::proofs::Growing::grows_paid))]
pub(crate) fn one_instruction(
    alloc: Global,
    gate: GateId,
    args: &[Amount],
    qubits: &[QubitId],
    work: &mut Work,
) -> Result<Vec<Member>, Fault>
    requires of_table { gate.0 < 31 }
    requires count { length qubits.now ≡ qubits_of gate.0 }
    requires args { length args.now ≡ params_of gate.0 }
    requires named { All (IsNamed (length work.old.turns.items.items)) args.now }
    ensures answer { (worths : ℕ → ℤ) → AnswersWithin work.old.budget work.new.budget (λ v. instructions_in worths v.items) result (behind 1 (done (record { gate = gate.0; arguments = map (units_in worths) args.now; qubits = qubits.now } ∷ []))) }
    ensures leaves { Leaves work.old work.new result }
{
    work.budget.spend(GATE_COST)?;
    let mut list = Vec::new(alloc);
    push(&mut list, Member::new(gate, args, qubits))?;
    Ok(list)
}
