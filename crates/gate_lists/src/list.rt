//! Lists of instructions, and what each modifier does to them.
ghost use Rattle.std.specs.Prelude.{◌≡◌, ℕ, ℤ, ◌+◌, ◌≤◌, ◌++◌, length, IfOk, OnOk};
ghost use Rattle.const_eval.specs.Answers.{Answers};
ghost use Rattle.gate_lists.specs.Instructions as spec;
ghost use Rattle.gate_lists.specs.Members.{instructions_in, AreNamed};
ghost use Rattle.gate_lists.specs.Paid.{AnswersWithin};

use crate::budget::Budget;
use crate::member::Member;
use crate::refusing::{push, refused};
use gate_table::target;
use qq_base::{Fault, NoMemory, QubitId, Rule, Span};
use std::alloc::Global;

/// `inv`: the inverses in reverse order.
pub(crate) fn inverse_list(
    alloc: Global,
    place: Span,
    list: &[Member],
) -> Result<Vec<Member>, Fault>
    ensures exact { (worths : ℕ → ℤ) → Answers (λ v. instructions_in worths v.items) result (spec.inverse_list place (instructions_in worths list.now)) }
    ensures named { (turns : ℕ) → AreNamed turns list.now → IfOk result (λ v. AreNamed turns v.items) }
    ensures count { IfOk result (λ v. length v.items ≡ length list.now) }
{
    let table = target();
    let mut inverses = Vec::new(alloc);
    for member in list {
        let Some(row) = table.inverse(member.gate) else {
            return Err(refused(Rule::InverseOutsideTable, place));
        };
        push(&mut inverses, member.inverse(row))?;
    }
    inverses.reverse();
    Ok(inverses)
}

// `ctrl` with one control: each member under that control.
fn controlled_list(
    alloc: Global,
    place: Span,
    control: QubitId,
    list: &[Member],
) -> Result<Vec<Member>, Fault>
    ensures exact { (worths : ℕ → ℤ) → Answers (λ v. instructions_in worths v.items) result (spec.controlled_list place control (instructions_in worths list.now)) }
    ensures named { (turns : ℕ) → AreNamed turns list.now → IfOk result (λ v. AreNamed turns v.items) }
    ensures count { IfOk result (λ v. length v.items ≡ length list.now) }
{
    let table = target();
    let mut members = Vec::new(alloc);
    for member in list {
        let Some(row) = table.controlled(member.gate) else {
            return Err(refused(Rule::ControlOutsideTable, place));
        };
        push(&mut members, member.controlled(control, row))?;
    }
    Ok(members)
}

/// `ctrl(n)`: n such controls, that of the first qubit applied last.
pub(crate) fn under_controls(
    alloc: Global,
    place: Span,
    controls: &[QubitId],
    list: Vec<Member>,
) -> Result<Vec<Member>, Fault>
    ensures exact { (worths : ℕ → ℤ) → Answers (λ v. instructions_in worths v.items) result (spec.under_controls place controls.now (instructions_in worths list.items)) }
    ensures named { (turns : ℕ) → AreNamed turns list.items → IfOk result (λ v. AreNamed turns v.items) }
    ensures count { IfOk result (λ v. length v.items ≡ length list.items) }
{
    let mut members = list;
    for k in (0..controls.len()).rev() {
        members = controlled_list(alloc, place, controls[k], &members)?;
    }
    Ok(members)
}

/// Puts members behind others.
pub fn append(list: &mut Vec<Member>, more: &[Member]) -> Result<(), NoMemory>
    ensures { OnOk result (list.new.items ≡ list.old.items ++ more.now) }
{
    list.extend_from_slice(more)?;
    Ok(())
}

// The list so many times. Each copy costs 1, and 1 for each member, before it is made.
fn copied_list(
    alloc: Global,
    times: u32,
    list: &[Member],
    budget: &mut Budget,
) -> Result<Vec<Member>, Fault>
    ensures exact { (worths : ℕ → ℤ) → AnswersWithin budget.old budget.new (λ v. instructions_in worths v.items) result (spec.copied_list times (instructions_in worths list.now)) }
    ensures named { (turns : ℕ) → AreNamed turns list.now → IfOk result (λ v. AreNamed turns v.items) }
    ensures paid { IfOk result (λ v. budget.new.left + length v.items ≤ budget.old.left) }
{
    let mut copies = Vec::new(alloc);
    for _ in 0..times {
        budget.spend(1 + list.len() as u64)?;
        append(&mut copies, list)?;
    }
    Ok(copies)
}

/// `pow(k)`: k copies, or for a negative k -k copies of the inverse.
pub(crate) fn power_list(
    alloc: Global,
    place: Span,
    exponent: i32,
    list: &[Member],
    budget: &mut Budget,
) -> Result<Vec<Member>, Fault>
    ensures exact { (worths : ℕ → ℤ) → AnswersWithin budget.old budget.new (λ v. instructions_in worths v.items) result (spec.power_list place exponent (instructions_in worths list.now)) }
    ensures named { (turns : ℕ) → AreNamed turns list.now → IfOk result (λ v. AreNamed turns v.items) }
    ensures paid { IfOk result (λ v. budget.new.left + length v.items ≤ budget.old.left) }
{
    let times = exponent.unsigned_abs();
    if exponent < 0 {
        let inverses = inverse_list(alloc, place, list)?;
        return copied_list(alloc, times, &inverses, budget);
    }
    copied_list(alloc, times, list, budget)
}
