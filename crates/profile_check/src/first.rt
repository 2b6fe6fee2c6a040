//! The first of some places, in the order of the text.

ghost use Rattle.std.specs.Prelude.{◌≡◌};
ghost use Rattle.profile_check.specs.First.{is_before as stands_before, first_of as first_of_both};

use crate::place::Place;

/// Whether a place stands in front of another.
fn is_before(place: Place, other: Place) -> bool
    ensures { result ≡ stands_before place other }
{
    place.block < other.block || place.block == other.block && place.item < other.item
}

/// The first of the place that was found so far, if any, and another.
pub(crate) fn first_of(found: Option<Place>, place: Place) -> Option<Place>
    ensures { result ≡ first_of_both found place }
{
    match found {
        None => Some(place),
        Some(first) => {
            if is_before(place, first) {
                Some(place)
            } else {
                Some(first)
            }
        }
    }
}
