//! The phis of an entered block, all at once: each reads what was stored before them.

ghost use Rattle.std.specs.Prelude.{◌≡◌, ◌<◌, ◌≤◌, length, map, take, IfOk, Some, None, if◌then◌else◌};
ghost use Rattle.std.specs.List.{AllByRecursion};
ghost use Rattle.std.specs.Option.{option_map};
ghost use Rattle.qir_module.specs.Machine.{phi_value, entry_from, take_phis};
ghost use Rattle.qir_machine.specs.Remaining.{value_of};
ghost use Rattle.qir_machine.specs.Memory.{state_of};
ghost use Rattle.qir_machine.specs.Phis.{phi_values, stored_phis, HasRegister};

use crate::memory::Memory;
use crate::value::Value;
use qir_module::Phi;
use qq_base::NoMemory;
use std::alloc::Global;

/// Room for what so many phis take.
pub fn empty_buffer(alloc: Global, phis: usize) -> Result<Vec<Value>, NoMemory>
    ensures { IfOk result (λ buffer. length buffer.items ≡ phis) }
{
    let buffer = vec![in alloc; Value::Truth(false); phis]?;
    Ok(buffer)
}

/// What a phi takes from the block of a name, if it can be read.
fn read_phi(memory: &Memory, phi: &Phi, from: u32) -> Option<Value>
    ensures { option_map value_of result
        ≡ phi_value (state_of memory.now) phi.now (entry_from phi.now.entries (Some from)) }
{
    for (operand, name) in &phi.entries.items {
        if *name == from {
            return memory.value(!phi.number, *operand);
        }
    }
    None
}

/// What all phis take; false where one cannot be read.
fn read_phis(memory: &Memory, values: &mut Vec<Value>, phis: &[Phi], from: u32) -> bool
    requires { length phis.now ≤ length values.old.items }
    ensures values { phi_values (state_of memory.now) phis.now (Some from)
        ≡ (if result then Some (map value_of (take (length phis.now) values.new.items)) else None) }
    ensures length { length values.new.items ≡ length values.old.items }
{
    for (index, phi) in phis.iter().enumerate() {
        match read_phi(memory, phi, from) {
            Some(value) => values[index] = value,
            None => return false,
        }
    }
    true
}

/// Stores what all phis take.
fn store_phis(memory: &mut Memory, values: &[Value], phis: &[Phi])
    requires registers { AllByRecursion (HasRegister memory.old) phis.now }
    requires values { length phis.now ≤ length values.now }
    ensures state { state_of memory.new
        ≡ stored_phis phis.now (map value_of values.now) (state_of memory.old) }
    ensures registers { length memory.new.registers.items ≡ length memory.old.registers.items }
    ensures results { length memory.new.results.items ≡ length memory.old.results.items }
{
    let mut left = phis.len();
    while left > 0 {
        left -= 1;
        memory.store(phis[left].register, values[left]);
    }
}

/// Takes all phis of a block that is entered from the block of a name; false where one cannot be read.
pub fn enter_phis(memory: &mut Memory, buffer: &mut Vec<Value>, phis: &[Phi], from: u32) -> bool
    requires registers { AllByRecursion (HasRegister memory.old) phis.now }
    requires buffer { length phis.now ≤ length buffer.old.items }
    ensures buffer { length buffer.new.items ≡ length buffer.old.items }
    ensures state { take_phis phis.now (Some from) (state_of memory.old)
        ≡ (if result then Some (state_of memory.new) else None) }
    ensures registers { length memory.new.registers.items ≡ length memory.old.registers.items }
    ensures results { length memory.new.results.items ≡ length memory.old.results.items }
{
    if !read_phis(memory, buffer, phis, from) {
        return false;
    }
    store_phis(memory, buffer, phis);
    true
}
