// Laws of the expansion of gate calls. No program calls these functions; the contract of each is the law.
ghost use Rattle.source_calls.specs.Alike.{CallsAreAlike};
ghost use Rattle.source_calls.specs.CallRows.{WorkedGateCalls};
ghost use Rattle.source_calls.specs.Laws.{DefinitionsAreFound};

use expr_names::expressions_rest_on_their_names;

/// The number of a gate tells its definition and what is seen in its body, in whatever scopes it is called.
pub fn definitions_are_found()
    ensures { DefinitionsAreFound }
{}

/// Calls of gates in open scopes, worked by hand: their instructions and cost, or the rule that they break.
pub fn worked_gate_calls()
    ensures { WorkedGateCalls }
{}

/// A call of a gate gives the same at places where names mean the same and definitions are the same, whatever their numbers are.
pub fn calls_are_alike()
    ensures { CallsAreAlike }
{
    expressions_rest_on_their_names();
}
