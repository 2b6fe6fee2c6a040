//! Laws of the rules.

ghost use Rattle.profile_check.specs.Laws.{UnbrokenPasses, PassingIsUnbroken};

/// A module passes exactly where it breaks no rule.
pub fn passes_or_is_broken()
    ensures unbroken { UnbrokenPasses }
    ensures passing { PassingIsUnbroken }
{}
