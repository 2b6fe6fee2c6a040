//! Laws of lists of instructions. No program calls these functions; the contract is the law.
ghost use Rattle.gate_lists.specs.Laws.{InversesOfListsReturn};

use gate_table::laws::inverses_return;

/// The inverse of the inverse of a list, where both exist, is the list.
pub fn inverses_of_lists_return()
    ensures { InversesOfListsReturn }
{
    inverses_return();
}
