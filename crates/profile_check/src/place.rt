//! Places in the text of a module.

/// A block and an item of it, both counted from 0.
#[derive(Clone, Copy, Debug, PartialEq, Eq)]
pub(crate) struct Place {
    pub block: usize,
    pub item: usize,
}

impl Place {
    /// Where rules on the whole module stand.
    pub const FIRST: Place = Place { block: 0, item: 0 };
}
