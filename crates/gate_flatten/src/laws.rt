//! Laws of calls of gates. No program calls these functions; each has an empty body, and its contract is the law.
ghost use Rattle.gate_flatten.specs.Rows.{WorkedCalls};

/// Calls worked by hand: their instructions and cost, or the rule that they break.
pub fn worked_calls()
    ensures { WorkedCalls }
{}
