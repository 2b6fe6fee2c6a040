// Laws of the definitions, and what they give, worked by hand.
ghost use Rattle.source_meaning.specs.Laws.{EndedRunsStay, EventsGoOn, AllIsLeftAtFirst};
ghost use Rattle.source_meaning.specs.RefusedRows.{RefusedNames, RefusedValues};
ghost use Rattle.source_meaning.specs.SumRows.{WorkedSums};
ghost use Rattle.source_meaning.specs.RunRows.{WorkedRuns, WorkedValues, WorkedLabels};

/// More turns and further outcomes change no run that ended, and take no event back from another one.
pub fn longer_runs_go_on()
    ensures ended { EndedRunsStay }
    ensures begun { EventsGoOn }
{}

/// What is left in front of the first statement is the whole run.
pub fn all_is_left_at_first()
    ensures { AllIsLeftAtFirst }
{}

/// Worked rows: the rules by which some programs are refused, and where.
pub fn worked_refusals()
    ensures names { RefusedNames }
    ensures values { RefusedValues }
{}

/// Worked rows: what some programs cost.
pub fn worked_sums()
    ensures { WorkedSums }
{}

/// Worked rows: what is seen of the runs of some programs.
pub fn worked_runs()
    ensures runs { WorkedRuns }
    ensures values { WorkedValues }
    ensures labels { WorkedLabels }
{}
