//! Modifiers, and what they make of the list of a gate.
ghost use Rattle.std.specs.Prelude.{◌≡◌, ℕ, ℤ, ◌+◌, ◌≤◌, ◌^◌, length, IfOk, IfSome, IfNone};
ghost use Rattle.gate_lists.specs.Modifiers as spec;
ghost use Rattle.gate_lists.specs.Members.{instructions_in, AreNamed};
ghost use Rattle.gate_lists.specs.Paid.{AnswersWithin};

use crate::budget::Budget;
use crate::list::{inverse_list, power_list, under_controls};
use crate::member::Member;
use qq_base::{Fault, QubitId, Span};
use std::alloc::Global;

/// A modifier with its place, once its number is known.
#[derive(Clone, Copy, Debug, PartialEq, Eq)]
pub enum Modified {
    Inverse(Span),
    /// With its exponent, from -1,024 to 1,024.
    Power(i32, Span),
    /// With its number of controls, from 1 to 1,024.
    Controls(u32, Span),
}

// How many operands are controls of a modifier.
fn controls_of(modifier: &Modified) -> usize
    ensures { result ≡ spec.controls_of modifier.now }
{
    match modifier {
        Modified::Controls(count, _) => *count as usize,
        Modified::Inverse(_) | Modified::Power(..) => 0,
    }
}

/// How many operands are controls; None where more than a `usize` holds.
pub fn control_count(modifiers: &[Modified]) -> Option<usize>
    ensures count { IfSome result (λ n. n ≡ spec.control_count modifiers.now) }
    ensures too_many { IfNone result (2 ^ 64 ≤ spec.control_count modifiers.now) }
{
    let mut count: usize = 0;
    for modifier in modifiers {
        count = count.checked_add(controls_of(modifier))?;
    }
    Some(count)
}

// What one modifier with its controls makes of a list.
fn changed_list(
    alloc: Global,
    modifier: &Modified,
    controls: &[QubitId],
    list: Vec<Member>,
    budget: &mut Budget,
) -> Result<Vec<Member>, Fault>
    ensures exact { (worths : ℕ → ℤ) → AnswersWithin budget.old budget.new (λ v. instructions_in worths v.items) result (spec.changed_list modifier.now controls.now (instructions_in worths list.items)) }
    ensures named { (turns : ℕ) → AreNamed turns list.items → IfOk result (λ v. AreNamed turns v.items) }
    ensures paid { IfOk result (λ v. budget.new.left + length v.items ≤ budget.old.left + length list.items) }
{
    match modifier {
        Modified::Inverse(place) => inverse_list(alloc, *place, &list),
        Modified::Power(exponent, place) => power_list(alloc, *place, *exponent, &list, budget),
        Modified::Controls(_, place) => under_controls(alloc, *place, controls, list),
    }
}

/// What modifiers make of the list of a gate: they act from right to left. `controls` are the qubits of all of them, those of
/// the leftmost first.
pub fn modified_list(
    alloc: Global,
    modifiers: &[Modified],
    controls: &[QubitId],
    list: Vec<Member>,
    budget: &mut Budget,
) -> Result<Vec<Member>, Fault>
    requires { length controls.now ≡ spec.control_count modifiers.now }
    ensures exact { (worths : ℕ → ℤ) → AnswersWithin budget.old budget.new (λ v. instructions_in worths v.items) result (spec.modified_list modifiers.now controls.now (instructions_in worths list.items)) }
    ensures named { (turns : ℕ) → AreNamed turns list.items → IfOk result (λ v. AreNamed turns v.items) }
    ensures paid { IfOk result (λ v. budget.new.left + length v.items ≤ budget.old.left + length list.items) }
{
    let mut members = list;
    let mut end = controls.len();
    for k in (0..modifiers.len()).rev() {
        let modifier = &modifiers[k];
        let start = end - controls_of(modifier);
        members = changed_list(alloc, modifier, &controls[start..end], members, budget)?;
        end = start;
    }
    Ok(members)
}
