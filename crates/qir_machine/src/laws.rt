//! Laws of the run of a module. No program calls these functions; each has an empty body, and its contract is the law.

ghost use Rattle.qir_machine.specs.Laws.{StaysEnded, KeepsEvents, NeverEndsByBound, NeverStuck};

/// Where a run ended, more turns and further outcomes give the same.
pub fn ended_run_stays()
    ensures { StaysEnded }
{}

/// The events of a run begin those with more turns and further outcomes.
pub fn events_go_on()
    ensures { KeepsEvents }
{}

/// The bound on entered blocks in the definition of the run never ends one.
pub fn bound_never_ends_a_run()
    ensures { NeverEndsByBound }
{}

/// A module that passes is never stuck, for every list of outcomes and every number of turns.
pub fn passing_module_is_never_stuck()
    ensures { NeverStuck }
{}
