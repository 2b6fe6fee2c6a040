//! Label texts of output records.

use std::marker::Model;

/// The bytes of a label, seen as their list. A label of a module ends with a zero byte.
#[derive(Debug, Drop)]
pub struct Label {
    pub items: Vec<u8>,
}

impl Model for Label {
    ghost use Rattle.std.specs.Prelude.{List, ℕ};

    ghost Value = { List ℕ };

    ghost view = { λ label. label.items.items };
}
