//! Refusals, and lists that grow.
ghost use Rattle.std.specs.Prelude.{◌≡◌, ◌++◌, [], ◌∷◌, OnOk};

use qq_base::{Fault, NoMemory, Refusal, Rule, Span};

/// The refusal by a rule at a place.
pub fn refused(rule: Rule, at: Span) -> Fault
    ensures { result ≡ Fault.Refused (record { rule = rule; at = at }) }
{
    Fault::Refused(Refusal { rule, at })
}

/// Puts an item behind a list.
pub fn push<T: Drop>(list: &mut Vec<T>, item: T) -> Result<(), NoMemory>
    ensures { OnOk result (list.new.items ≡ list.old.items ++ item ∷ []) }
{
    list.push(item)?;
    Ok(())
}
