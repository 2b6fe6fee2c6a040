//! What names mean where a gate is called.
ghost use Rattle.std.specs.Prelude.{◌≡◌, ◌<◌, ◌^◌, [], ◌∷◌, ◌++◌, ℕ, ℤ, true, All, map, length, slice_get, Some, Ok, IsSome, IsSomeAnd, IfOk, OnOk, nat_eq};
ghost use Rattle.std.specs.List.{range_with_len};
ghost use Rattle.std.specs.Map.{lookup as found};
ghost use Rattle.qasm_ast.specs.declared.expr.OperandName.{OperandName};
ghost use Rattle.qasm_ast.specs.View.{called_in as operand_name_in, name_in, text_in};
ghost use Rattle.qasm_ast.specs.Whole.{AllOf, DeclaredFits, NameFits};
ghost use Rattle.alias_resolve.specs.Seen.{seen_qubits};
ghost use Rattle.const_eval.specs.Answers.{Answers};
ghost use Rattle.const_eval.specs.Operands.{at_place};
ghost use Rattle.const_eval.specs.Refusing.{go_on};
ghost use Rattle.const_eval.specs.Seen.{HasNames, is_same_operand, meaning_inside, meaning_of};
ghost use Rattle.gate_arguments.specs.Answering.{CallableFits, HasCallables, HasInside, IsDefinition, QubitsFit};
ghost use Rattle.gate_arguments.specs.Environment.{called_in, declarations_in, operand_in};
ghost use Rattle.gate_arguments.specs.Scope.{body_scope as scope_of_body, called_around, given_to, is_open as is_open_in, meaning_around, names_differ};
ghost use Rattle.gate_arguments.specs.Seen.{ArgumentFits, HasOperand, TurnsFit, arguments_seen, entered, one_seen, open_in, parameter_meaning, qubits_by, scope_callables, scope_names, scope_qubits, scope_seen, turn_in};

use alias_resolve::QubitList;
use const_eval::{Callable, Const, Constants, GateEnv, Lookup, Visible};
use gate_lists::refused;
use qasm_ast::{Declared, Items, OperandName, OperandRef, Program, StmtId};
use qq_base::{Fault, NoMemory, QubitId, Rule};
use scope_env::{DeclareFault, Scopes};
use std::alloc::Global;

/// An argument of a gate.
#[derive(Debug, Drop)]
pub enum Argument {
    /// A constant, which is kept exactly.
    Constant(Const),
    /// A turn, by its place in the list of turns.
    Turn(u32),
}

/// What a parameter is given.
#[derive(Clone, Copy, Debug, PartialEq, Eq)]
pub enum Given {
    /// An argument, by its place.
    Argument(u32),
    Qubit(QubitId),
}

/// The body of a gate, in a call that gives its parameters these arguments and qubits.
#[derive(Drop)]
pub struct Body<'a> {
    pub def: StmtId,
    /// The gates whose calls are open around this one, the innermost first.
    pub callers: Vec<StmtId>,
    pub arguments: &'a [Argument],
    pub given: Scopes<Given>,
}

/// A place where a gate is called: where the outermost call stands, or in the body of a gate.
#[derive(Drop)]
pub struct Scope<'a, E> {
    pub env: &'a E,
    pub body: Option<Body<'a>>,
}

impl<'a, E: GateEnv> Constants for Scope<'a, E> {
    ghost names = { λ s. scope_names (E.names s.env.now) (E.inside s.env.now) s.body };

    #[tactic(auto, using(crate::proofs::Naming::names_of_body))]
    fn lookup(&self, name: u32) -> Lookup<'_> {
        let Some(body) = &self.body else {
            return self.env.lookup(name);
        };
        match body.given.find(name) {
            Some(given) => body.meaning(*given),
            None => meaning_around(self.env.visible(body.def, name)),
        }
    }
}

impl<'a> Body<'a> {
    // What a parameter that is given this means.
    fn meaning(&self, given: Given) -> Lookup<'_>
        ensures { meaning_of result ≡ parameter_meaning self.now.arguments.now given }
    {
        match given {
            Given::Argument(place) => match self.arguments.get(place as usize) {
                Some(Argument::Constant(value)) => Lookup::Value(value),
                Some(Argument::Turn(_)) => Lookup::Variable,
                None => Lookup::Other,
            },
            Given::Qubit(_) => Lookup::Other,
        }
    }
}

// What a name that is no parameter means in the body of a gate.
fn meaning_around(visible: Visible<'_>) -> Lookup<'_>
    ensures { meaning_of result ≡ meaning_around (meaning_inside visible.entry) }
{
    match visible {
        Visible::Value(value) => Lookup::Value(value),
        Visible::Called(Callable::Unknown) | Visible::Unknown => Lookup::Unknown,
        Visible::Called(_) => Lookup::Other,
    }
}

// What a name that is no parameter calls in the body of a gate.
fn called_around(visible: Visible<'_>) -> Callable
    ensures { result ≡ called_around (meaning_inside visible.entry) }
{
    match visible {
        Visible::Value(_) => Callable::Other,
        Visible::Called(callable) => callable,
        Visible::Unknown => Callable::Unknown,
    }
}

// Whether a gate is one of these.
fn is_among(def: StmtId, gates: &[StmtId]) -> bool
    ensures { result ≡ is_open_in def gates.now }
{
    for other in gates {
        if other.0 == def.0 {
            return true;
        }
    }
    false
}

impl<'a, E: GateEnv> Scope<'a, E> {
    /// What a name is where it is called. A parameter is nothing to call.
    pub fn callable(&self, program: &Program, name: u32) -> Callable
        requires in_range { name < length program.now.names }
        requires served { HasCallables program.now (scope_callables (E.callables self.now.env.now) (E.inside self.now.env.now) self.now.body) }
        ensures found { called_in program.now (scope_callables (E.callables self.now.env.now) (E.inside self.now.env.now) self.now.body) (text_in program.now name) ≡ result }
        ensures fits { CallableFits program.now result }
    {
        let _text = program.name(name);
        self.called(name)
    }

    // The same by the maps of the environment.
    #[tactic(auto, using(crate::proofs::Naming::callables_of_body))]
    fn called(&self, name: u32) -> Callable
        requires { IsSome (found (nat_eq name) (scope_callables (E.callables self.now.env.now) (E.inside self.now.env.now) self.now.body)) }
        ensures { found (nat_eq name) (scope_callables (E.callables self.now.env.now) (E.inside self.now.env.now) self.now.body) ≡ Some result }
    {
        let Some(body) = &self.body else {
            return self.env.callable(name);
        };
        match body.given.find(name) {
            Some(_) => Callable::Other,
            None => called_around(self.env.visible(body.def, name)),
        }
    }

    /// The qubits of an operand before its brackets.
    pub fn qubits(
        &self,
        alloc: Global,
        program: &Program,
        operand: &OperandRef,
    ) -> Result<QubitList, Fault>
        requires in_range { NameFits (length program.now.names) operand.now.name }
        requires answered { HasOperand (E.operands self.now.env.now) (E.inside self.now.env.now) self.now.body operand.now.name }
        ensures answer { Answers seen_qubits result (at_place operand.now.at (scope_qubits program.now (E.operands self.now.env.now) (E.inside self.now.env.now) self.now.body (operand_name_in program.now operand.now.name))) }
        ensures one { IfOk result (λ l. l.single ≡ true → length l.ids.items ≡ 1) }
        ensures few { IfOk result (λ l. length l.ids.items < 2 ^ 32) }
    {
        let Some(body) = &self.body else {
            return self.outer_qubits(alloc, program, operand);
        };
        match self.parameter_qubit(program, body, operand.name) {
            Ok(qubit) => Ok(listed(alloc, &[qubit], true)?),
            Err(rule) => Err(refused(rule, operand.at)),
        }
    }

    // The qubits of an operand of the outermost call.
    fn outer_qubits(
        &self,
        alloc: Global,
        program: &Program,
        operand: &OperandRef,
    ) -> Result<QubitList, Fault>
        requires in_range { NameFits (length program.now.names) operand.now.name }
        requires answered { IsSomeAnd (found (is_same_operand operand.now.name) (E.operands self.now.env.now)) QubitsFit }
        ensures answer { Answers seen_qubits result (at_place operand.now.at (operand_in program.now (E.operands self.now.env.now) (operand_name_in program.now operand.now.name))) }
        ensures fits { IfOk result (λ l. QubitsFit (Ok (seen_qubits l))) }
    {
        if let OperandName::Name(name) = operand.name {
            let _text = program.name(name);
        }
        match self.env.qubits(operand) {
            Ok(found) => Ok(listed(alloc, found.ids, found.single)?),
            Err(rule) => Err(refused(rule, operand.at)),
        }
    }

    // The qubit that an operand names in the body of a gate.
    fn parameter_qubit(
        &self,
        program: &Program,
        body: &Body<'_>,
        name: OperandName,
    ) -> Result<QubitId, Rule>
        requires in_range { NameFits (length program.now.names) name }
        requires answered { HasOperand (E.operands self.now.env.now) (E.inside self.now.env.now) (Some body.now) name }
        ensures { one_seen result ≡ qubits_by program.now (E.inside self.now.env.now) body.now (operand_name_in program.now name) }
    {
        let OperandName::Name(number) = name else {
            return Err(Rule::WrongKind);
        };
        let _text = program.name(number);
        match body.given.find(number) {
            Some(Given::Qubit(qubit)) => Ok(*qubit),
            Some(Given::Argument(_)) => Err(Rule::WrongKind),
            None => match self.env.visible(body.def, number) {
                Visible::Unknown | Visible::Called(Callable::Unknown) => Err(Rule::Unknown),
                Visible::Value(_) | Visible::Called(_) => Err(Rule::WrongKind),
            },
        }
    }

    /// Whether a call of this gate is open.
    pub fn is_open(&self, def: StmtId) -> bool
        ensures { result ≡ is_open_in def (open_in self.now.body) }
    {
        match &self.body {
            None => false,
            Some(body) => body.def.0 == def.0 || is_among(def, &body.callers),
        }
    }

    /// The turn that a parameter is given, if it is given one.
    pub fn turn(&self, name: u32) -> Option<u32>
        ensures { result ≡ turn_in self.now.body name }
    {
        let body = self.body.as_ref()?;
        match body.given.find(name) {
            Some(Given::Argument(place)) => match body.arguments.get(*place as usize) {
                Some(Argument::Turn(turn)) => Some(*turn),
                _ => None,
            },
            _ => None,
        }
    }
}

// A list of these qubits.
fn listed(alloc: Global, ids: &[QubitId], single: bool) -> Result<QubitList, NoMemory>
    ensures { IfOk result (λ list. seen_qubits list ≡ record { items = ids.now; single = single }) }
{
    Ok(QubitList {
        ids: Vec::from_slice(alloc, ids)?,
        single,
    })
}

/// What a definition says of its gate: its statement, and the names of its parameters and of its qubits.
#[derive(Clone, Copy)]
pub struct Signature<'a> {
    pub def: StmtId,
    pub params: &'a Items<Declared>,
    pub qubits: &'a Items<Declared>,
}

/// The scope of the body of a gate that is called from another scope, with as many arguments and qubits as it has names for.
/// The names are entered in the order of the text, and one that stands twice is refused.
pub fn body_scope<'a, E: GateEnv>(
    alloc: Global,
    program: &Program,
    outer: &Scope<'a, E>,
    signature: Signature<'_>,
    arguments: &'a [Argument],
    qubits: &[QubitId],
) -> Result<Scope<'a, E>, Fault>
    requires inside { HasInside program.now (E.inside outer.now.env.now) }
    requires definition { IsDefinition (slice_get program.now.stmts signature.def.0) }
    requires params { AllOf (DeclaredFits (length program.now.names)) signature.params.now }
    requires names { AllOf (DeclaredFits (length program.now.names)) signature.qubits.now }
    requires arguments { length arguments.now ≡ length signature.params.now }
    requires qubits { length qubits.now ≡ length signature.qubits.now }
    ensures answer { (worths : ℕ → ℤ) → Answers (λ s. scope_seen program.now worths (E.names outer.now.env.now) (E.callables outer.now.env.now) (E.operands outer.now.env.now) (E.inside outer.now.env.now) s.body) result (go_on (names_differ [] (map (name_in program.now) signature.entry.params.now ++ map (name_in program.now) signature.entry.qubits.now)) (λ _. Ok (scope_of_body (declarations_in program.now (E.inside outer.now.env.now)) (open_in outer.now.body) signature.entry.def (given_to (map (name_in program.now) signature.entry.params.now) (arguments_seen worths arguments.now) (map (name_in program.now) signature.entry.qubits.now) qubits.now)))) }
    ensures env { IfOk result (λ s. s.env ≡ outer.now.env) }
    ensures names { IfOk result (λ s. HasNames program.now (scope_names (E.names outer.now.env.now) (E.inside outer.now.env.now) s.body)) }
    ensures callables { IfOk result (λ s. HasCallables program.now (scope_callables (E.callables outer.now.env.now) (E.inside outer.now.env.now) s.body)) }
    ensures operands { IfOk result (λ s. (name : OperandName) → NameFits (length program.now.names) name → HasOperand (E.operands outer.now.env.now) (E.inside outer.now.env.now) s.body name) }
    ensures turns { (turns : ℕ) → All (ArgumentFits turns) arguments.now → IfOk result (λ s. TurnsFit turns s.body) }
{
    // no two names of a program are equal
    let _depth = program.depth();
    let given = given_names(alloc, signature, arguments.len() as u32, qubits)?;
    let callers = callers_of(alloc, outer)?;
    Ok(Scope {
        env: outer.env,
        body: Some(Body {
            def: signature.def,
            callers,
            arguments,
            given,
        }),
    })
}

// The names of a gate's parameters and qubits with what they are given, in the order of the text.
fn given_names(
    alloc: Global,
    signature: Signature<'_>,
    arguments: u32,
    qubits: &[QubitId],
) -> Result<Scopes<Given>, Fault>
    requires arguments { arguments ≡ length signature.params.now }
    requires qubits { length qubits.now ≡ length signature.qubits.now }
    ensures { Answers (λ given. given) result (entered ([] ∷ []) (signature.entry.params.now ++ signature.entry.qubits.now) (map (λ k. Given.Argument k) (range_with_len 0 arguments) ++ map (λ q. Given.Qubit q) qubits.now)) }
{
    let mut given = Scopes::new(alloc)?;
    let places = argument_places(alloc, arguments)?;
    enter_each(&mut given, signature.params, &places)?;
    let values = given_qubits(alloc, qubits)?;
    enter_each(&mut given, signature.qubits, &values)?;
    Ok(given)
}

// Enters names with what they are given.
#[tactic(auto, using(crate::proofs::Entering::entered_more, crate::proofs::Entering::entered_stops, crate::proofs::Entering::entered_all))]
fn enter_each(
    given: &mut Scopes<Given>,
    names: &Items<Declared>,
    values: &[Given],
) -> Result<(), Fault>
    requires scoped { 0 < length given.old }
    requires count { length values.now ≡ length names.now }
    ensures answer { Answers (λ _. given.new) result (entered given.old names.now values.now) }
    ensures scoped { OnOk result (0 < length given.new) }
{
    for (k, name) in names.items.iter().enumerate() {
        match given.declare(name.name, values[k]) {
            Ok(()) => {}
            Err(DeclareFault::Redeclared(_)) => return Err(refused(Rule::Redeclared, name.at)),
            Err(DeclareFault::Memory(_)) => return Err(Fault::Memory),
        }
    }
    Ok(())
}

// The arguments by their places.
fn argument_places(alloc: Global, count: u32) -> Result<Vec<Given>, NoMemory>
    ensures { IfOk result (λ v. v.items ≡ map (λ k. Given.Argument k) (range_with_len 0 count)) }
{
    Ok((0..count).map(Given::Argument).collect(alloc)?)
}

fn given_qubits(alloc: Global, qubits: &[QubitId]) -> Result<Vec<Given>, NoMemory>
    ensures { IfOk result (λ v. v.items ≡ map (λ q. Given.Qubit q) qubits.now) }
{
    Ok(
        qubits
            .iter()
            .map(|qubit| Given::Qubit(*qubit))
            .collect(alloc)?,
    )
}

// The gates whose calls are open in a scope, its own first.
fn callers_of<E: GateEnv>(alloc: Global, scope: &Scope<'_, E>) -> Result<Vec<StmtId>, NoMemory>
    ensures { IfOk result (λ v. v.items ≡ open_in scope.now.body) }
{
    let mut callers = Vec::new(alloc);
    if let Some(body) = &scope.body {
        callers.push(body.def)?;
        callers.extend_from_slice(&body.callers)?;
    }
    Ok(callers)
}
