//! Laws of ranges.

ghost use Rattle.alias_resolve.specs.Numbers.{RangesGoByTheirStep, RangesCountBySteps};
ghost use Rattle.alias_resolve.specs.Places.{RangePlacesDiffer};

/// A range is nothing once its stop is passed, and else its start and the range behind it.
pub fn ranges_go_by_their_step()
    ensures { RangesGoByTheirStep }
{}

/// A range has so many numbers, each so many steps behind its start.
pub fn ranges_count_by_steps()
    ensures { RangesCountBySteps }
{}

/// No place stands twice among those of one range.
pub fn range_places_differ()
    ensures { RangePlacesDiffer }
{}
