// How large the core of a program is, as laws alone: its knots and its calls in the units of the program's walk, and that the levels of
// its jumps are there.
//
// It stands on `source_core` for the core of a program and on `core_ir` for the ways along statements. The layer above, whose code makes
// this core, uses the law `cores_are_bounded` (`specs/Laws.antt`; `specs/Size.antt` has what is counted).
#![tactic(auto)]

ghost use Rattle.core_sizes.specs.Laws.{CoresAreBounded};

/// A program's core has at most four knots for each joint and one more, at most as many calls as the program has sites, and jumps only to
/// levels that are there.
pub fn cores_are_bounded()
    ensures { CoresAreBounded }
{}
