//! The laws of phis. They have no code: each contract is a law.

ghost use Rattle.phi_place.specs.Phis.{WaysCarry, SameWhereNotDiffer};

/// After the phis of some ways, taken from one of them, the new operands hold what that way's held.
pub fn ways_carry()
    ensures { WaysCarry }
{}

/// Where the ways do not differ in a cell, each has the first one's operand.
pub fn same_where_not_differ()
    ensures { SameWhereNotDiffer }
{}
