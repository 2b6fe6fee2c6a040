//! Values of registers.

/// What a register holds.
#[derive(Clone, Copy, Debug, PartialEq, Eq)]
pub enum Value {
    /// A word of 64 bits, read as signed.
    Word(i64),
    Truth(bool),
}
