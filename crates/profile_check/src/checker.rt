//! The checker.

ghost use Rattle.std.specs.Prelude.{◌≡◌, ◌≢◌, IfOk, IfErr, Some};
ghost use Rattle.qir_module.specs.Passes.{Passes};
ghost use Rattle.qir_module.specs.Broken.{broken as broken_by};
ghost use Rattle.profile_check.specs.Check.{breach_in};
ghost use Rattle.profile_check.specs.Rules.{breach_of};

use crate::first_broken::{Found, first_broken_rule};
use crate::rule::CheckRule;
use qir_module::Module;
use qq_base::NoMemory;
use std::alloc::Global;

/// Why a module is not found to keep the rules: want of memory, or the least rule that it breaks, at the first
/// place in the order of the text: a block and an item of it, both counted from 0. The items of a block are its
/// phis, its instructions and its last instruction.
#[derive(Clone, Copy, Debug, PartialEq, Eq)]
pub enum CheckFault {
    Memory,
    Broken {
        rule: CheckRule,
        block: u32,
        item: u32,
    },
}

impl From<NoMemory> for CheckFault {
    ghost use Rattle.profile_check.specs.declared.checker.CheckFault.TheVariants.{Memory};
    ghost use Rattle.std.specs.Prelude.{◌≡◌};

    ghost from_gives = { λ _ fault. fault ≡ Memory };

    fn from(_error: NoMemory) -> CheckFault {
        CheckFault::Memory
    }
}

/// The fault of a rule that is broken. Its place is one of the module's text, and so both numbers are small.
fn fault_at(module: &Module, found: Found) -> CheckFault
    requires { broken_by «module».now ≡ breach_of (Some found) }
    ensures { breach_in result ≡ breach_of (Some found) }
{
    prove!(found.at.block < module.blocks.items.len());
    CheckFault::Broken {
        rule: found.rule,
        block: found.at.block as u32,
        item: found.at.item as u32,
    }
}

/// Whether a module keeps the twenty rules of QIR's Adaptive Profile that a target demands: Ok exactly where it
/// passes, else the least rule that it breaks and where, or want of memory.
pub fn check(alloc: Global, module: &Module) -> Result<(), CheckFault>
    ensures passes { IfOk result (λ _. Passes «module».now) }
    ensures broken { IfErr result (λ fault. fault ≢ CheckFault.Memory → broken_by «module».now ≡ breach_in fault) }
{
    match first_broken_rule(alloc, module)? {
        None => Ok(()),
        Some(found) => Err(fault_at(module, found)),
    }
}
