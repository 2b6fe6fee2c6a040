//! Laws of scopes, over any content.

ghost use Rattle.scope_env.specs.OpenScopes.{NewNamesAreFound, OtherNamesAreKept, BodiesAreLeft, ThingsAreMapped};
ghost use Rattle.scope_env.specs.Scopes.{DeclarationsAreFound, UnknownNamesAreNowhere, ScopesAreRestored, ValuesAreMapped};

/// A declared name is found, and other names mean what they meant.
pub fn declarations_are_found<T>()
    ensures { DeclarationsAreFound T }
{}

/// A name means nothing exactly where no scope has it.
pub fn unknown_names_are_nowhere<T>()
    ensures { UnknownNamesAreNowhere T }
{}

/// A scope that is opened hides nothing, and its closing restores the scopes.
pub fn scopes_are_restored<T>()
    ensures { ScopesAreRestored T }
{}

/// Where a function is applied to all values, each name finds that function of what it found.
pub fn values_are_mapped<T, U>()
    ensures { ValuesAreMapped T U }
{}

/// In open scopes a declared name is found, and an assigned one changes no other.
pub fn new_names_are_found<T>()
    ensures found { NewNamesAreFound T }
    ensures kept { OtherNamesAreKept T }
{}

/// An opened scope hides nothing, and what a body declares is gone when it is left.
pub fn bodies_are_left<T>()
    ensures { BodiesAreLeft T }
{}

/// Where a function is applied to all things in open scopes, each name stands for that function of what it stood for.
pub fn things_are_mapped<T, U>()
    ensures { ThingsAreMapped T U }
{}
