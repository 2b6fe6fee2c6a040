// Laws of the definitions.
ghost use Rattle.source_core.specs.CoreRows.{WorkedCores, WorkedStores};
ghost use Rattle.source_core.specs.Laws.{ElaborationFollowsTheWalk, JoinedBodiesRunInOrder};

/// The elaboration refuses what the walk of a program refuses, and comes to the same sums.
pub fn elaboration_follows_the_walk()
    ensures { ElaborationFollowsTheWalk }
{}

/// A body behind a body runs behind it.
pub fn joined_bodies_run_in_order()
    ensures { JoinedBodiesRunInOrder }
{}

/// Worked rows: the core of a program shows what the program shows.
pub fn worked_cores()
    ensures runs { WorkedCores }
    ensures stores { WorkedStores }
{}
