//! Lists in the tree.

use std::marker::Model;

/// A list that contracts see as the list of its items.
#[derive(Debug, Drop)]
pub struct Items<T> {
    pub items: Vec<T>,
}

impl<T> Model for Items<T> {
    ghost use Rattle.std.specs.Prelude.{List};

    ghost Value = { List T };

    ghost view = { λ list. list.items.items };
}
