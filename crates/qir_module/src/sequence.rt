//! Lists in the fields of a module.

use std::marker::Model;

/// A list of parts of a module. Contracts see the list, and never its capacity.
#[derive(Debug, Drop)]
pub struct Sequence<T> {
    pub items: Vec<T>,
}

impl<T> Model for Sequence<T> {
    ghost use Rattle.std.specs.Prelude.{List};

    ghost Value = { List T };

    ghost view = { λ sequence. sequence.items.items };
}
