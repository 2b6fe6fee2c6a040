//! The laws of the module that a core is lowered to. They have no code: each contract is a law.

ghost use Rattle.block_graph.specs.Laws.{RunsAsCore, IsInOrder, StaysWithin, ModuleIsShaped, WorkIsSmall, StoresAreAssigned, KeepsItems, KeepsWays, KeepsTypes, KeepsResults, KeepsRegisters, LoweredPasses};

use core_ir::laws::statements_unfold;
use expr_lower::laws::straight_runs;
use phi_place::laws::{same_where_not_differ, ways_carry};

/// The module's run is the core's, for every list of outcomes and every number of turns.
pub fn lowered_module_runs_as_its_core()
    ensures { RunsAsCore }
{
    straight_runs();
    ways_carry();
    same_where_not_differ();
}

/// Blocks, registers and results are numbered in the order of the text, and an outcome is read right behind its
/// measurement.
pub fn lowered_module_is_in_order()
    ensures { IsInOrder }
{
    ways_carry();
    same_where_not_differ();
}

/// Items, blocks, phis and calls are bounded by the core's size.
pub fn lowered_module_stays_within()
    ensures { StaysWithin }
{
    ways_carry();
    same_where_not_differ();
}

/// While statements are lowered the numbers of registers, results and blocks stay small.
pub fn lowering_stays_small()
    ensures { WorkIsSmall }
{
    ways_carry();
    same_where_not_differ();
}

/// What a way stores in a cell, the statement assigns.
pub fn stores_are_assigned()
    ensures { StoresAreAssigned }
{}

/// The module can be made as a value of its type.
pub fn lowered_module_is_shaped()
    ensures { ModuleIsShaped }
{
    ways_carry();
    same_where_not_differ();
}

/// The module keeps the rules of the profile that single items and their order in the text decide.
pub fn lowered_module_keeps_item_rules()
    ensures { KeepsItems }
{
    statements_unfold();
    ways_carry();
    same_where_not_differ();
}

/// The module keeps the rules of the profile on the ways between blocks.
pub fn lowered_module_keeps_way_rules()
    ensures { KeepsWays }
{
    ways_carry();
    same_where_not_differ();
}

/// Each operand of the module is of the type that its register is assigned with.
pub fn lowered_module_keeps_types()
    ensures { KeepsTypes }
{
    ways_carry();
    same_where_not_differ();
}

/// Each result of the module is read only after it was measured on every way.
pub fn lowered_module_keeps_results()
    ensures { KeepsResults }
{
    ways_carry();
    same_where_not_differ();
}

/// Each register of the module is taken only where it was assigned on every way.
pub fn lowered_module_keeps_registers()
    ensures { KeepsRegisters }
{
    ways_carry();
    same_where_not_differ();
}

/// The module keeps all the rules of the profile.
pub fn lowered_module_passes()
    ensures { LoweredPasses }
{
    statements_unfold();
    ways_carry();
    same_where_not_differ();
}
