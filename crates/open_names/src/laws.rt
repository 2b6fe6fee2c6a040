//! Laws of open names. No program calls these functions; each has an empty body, and its contract is the law.
ghost use Rattle.open_names.specs.Laws.{ThingsFollowSlots};
ghost use Rattle.open_names.specs.Meanings.{NamesHaveMeanings};

/// Of each name of the program it is said what it means.
pub fn names_have_meanings<A>()
    ensures { NamesHaveMeanings A }
{}

/// What is said of the open scopes holds of the things in them.
pub fn things_follow_slots<A>()
    ensures { ThingsFollowSlots A }
{}
