// Constants with index brackets.
ghost use Rattle.std.specs.Prelude.{◌≡◌, ◌<◌, ◌^◌, length, reverse, IfOk, slice_get};
ghost use Rattle.qasm_ast.specs.View.{bracket_in, brackets_in};
ghost use Rattle.qasm_ast.specs.Whole.{AllOf, IndexFits};
ghost use Rattle.alias_resolve.specs.Places.{AreFew, items_at};
ghost use Rattle.const_eval.specs.Answers.{Answers, Fails};
ghost use Rattle.const_eval.specs.Constant.{register_of, Constant};
ghost use Rattle.const_eval.specs.ConstIndexes.{place_of_index as index_place, place_of_step as step_place, at_bracket, refusal_of_fault as refusal_by, constant_of_bits, indexed_constant};
ghost use Rattle.const_eval.specs.Seen.{constant_of};

use crate::constant::{BitRegister, Const};
use crate::refusing::refused;
use alias_resolve::{IndexValue, SelectFault, Selection, positions};
use qasm_ast::{BitText, IndexRef, Items, Program};
use qq_base::{Fault, NoMemory, Rule, Span};
use std::alloc::Global;

/// The place at which a position is not in the register: the index expression, the range, or the member of the set.
#[tactic(auto, using(crate::proofs::Placing::member_there, crate::proofs::Placing::member_missing))]
fn place_of_index(program: &Program, index: &IndexRef, member: u32, otherwise: Span) -> Span
    requires { IndexFits (length program.now.exprs) index.now }
    ensures { result ≡ index_place otherwise (bracket_in program.now index.now) member }
{
    match index {
        IndexRef::At(id) => program.expr(*id).at,
        IndexRef::Range { at, .. } => *at,
        IndexRef::Set(ids) => match ids.items.get(member as usize) {
            Some(id) => program.expr(*id).at,
            None => otherwise,
        },
    }
}

/// The place of a step.
fn place_of_step(program: &Program, index: &IndexRef, otherwise: Span) -> Span
    requires { IndexFits (length program.now.exprs) index.now }
    ensures { result ≡ step_place otherwise (bracket_in program.now index.now) }
{
    match index {
        IndexRef::Range {
            step: Some(step),
            ..
        } => program.expr(*step).at,
        _ => otherwise,
    }
}

/// Why brackets select nothing, where `name` is the place of the name in front of them. A bracket behind a single position
/// follows no register (Q15, at the name); a step is 0 (Q26, at the step); a position is not in the register (Q25, at the
/// index expression, the range or the member of the set).
#[tactic(auto, using(crate::proofs::Placing::bracket_there, crate::proofs::Placing::bracket_missing))]
pub fn refusal_of_fault(
    program: &Program,
    name: Span,
    index: &Items<IndexRef>,
    fault: SelectFault,
) -> Fault
    requires { AllOf (IndexFits (length program.now.exprs)) index.now }
    ensures refusal { Fails result (refusal_by {A = Constant} name (brackets_in program.now index.now) fault) }
    ensures memory { fault ≡ SelectFault.Memory → result ≡ Fault.Memory }
{
    match fault {
        SelectFault::Memory => Fault::Memory,
        SelectFault::NotRegister { .. } => refused(Rule::WrongKind, name),
        SelectFault::StepZero { index: bracket } => {
            let place = match index.items.get(bracket as usize) {
                Some(found) => place_of_step(program, found, name),
                None => name,
            };
            refused(Rule::StepZero, place)
        }
        SelectFault::IndexRange {
            index: bracket,
            member,
        } => {
            let place = match index.items.get(bracket as usize) {
                Some(found) => place_of_index(program, found, member, name),
                None => name,
            };
            refused(Rule::IndexRange, place)
        }
    }
}

/// The bits at the places, that of index 0 first.
fn bits_at(alloc: Global, text: &BitText, places: &[u32]) -> Result<Vec<bool>, NoMemory>
    ensures { IfOk result (λ bits. bits.items ≡ items_at (reverse text.now) places.now) }
{
    let mut bits = Vec::from_slice(alloc, &text.items)?;
    bits.reverse();
    let found = places
        .iter()
        .filter_map(
            |place: &u32| -> Option<bool>
                ensures { result ≡ slice_get bits.items place.now }
            { bits.get(*place as usize).copied() },
        )
        .collect(alloc)?;
    Ok(found)
}

/// What is selected of the bits of a constant: a single position is a truth value, and else it is a register.
fn selected_bits(alloc: Global, text: &BitText, selection: &Selection) -> Result<Const, NoMemory>
    requires { length selection.now.places.items < 2 ^ 32 }
    ensures { IfOk result (λ value. constant_of value ≡ constant_of_bits (record { items = items_at (reverse text.now) selection.now.places.items; single = selection.now.single })) }
{
    let mut bits = bits_at(alloc, text, &selection.places)?;
    match bits.first() {
        Some(bit) if selection.single => Ok(Const::Bool(*bit)),
        _ => {
            bits.reverse();
            Ok(Const::Bits(BitRegister {
                text: BitText { items: bits },
            }))
        }
    }
}

/// What brackets with these values select of the bits of a constant, with the place of the name.
#[tactic(auto, using(crate::proofs::Placing::indexed_fault))]
pub(crate) fn indexed_constant(
    alloc: Global,
    program: &Program,
    place: Span,
    index: &Items<IndexRef>,
    bits: &BitRegister,
    values: &[IndexValue],
) -> Result<Const, Fault>
    requires in_range { AllOf (IndexFits (length program.now.exprs)) index.now }
    requires few { AreFew values.now }
    ensures { Answers constant_of result (indexed_constant place (brackets_in program.now index.now) (register_of (reverse bits.now.text)) values.now) }
{
    match positions(alloc, bits.text.items.len() as u32, values) {
        Ok(selection) => Ok(selected_bits(alloc, &bits.text, &selection)?),
        Err(fault) => Err(refusal_of_fault(program, place, index, fault)),
    }
}
