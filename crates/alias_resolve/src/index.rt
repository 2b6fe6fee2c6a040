//! The values of the indexes in brackets.

use std::marker::Model;

/// The members of a set, seen as their list.
#[derive(Debug, Drop)]
pub struct MemberList {
    pub items: Vec<i128>,
}

impl Model for MemberList {
    ghost use Rattle.std.specs.Prelude.{List, ℤ};

    ghost Value = { List ℤ };

    ghost view = { λ members. members.items.items };
}

/// What stands in one pair of brackets. A negative position counts from the end of the register.
#[derive(Debug, Drop)]
pub enum IndexValue {
    /// One position.
    At(i128),
    /// All positions from a start by a step up to a stop, and not past it. A missing step is 1. A missing start is
    /// the first position and a missing stop the last; with a negative step they are exchanged.
    Range {
        start: Option<i128>,
        step: Option<i128>,
        stop: Option<i128>,
    },
    /// The positions that are listed, in their order.
    Set(MemberList),
}
