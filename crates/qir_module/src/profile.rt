//! The profiles of QIR.

/// The profile that a module declares.
#[derive(Clone, Copy, Debug, PartialEq, Eq)]
pub enum Profile {
    Adaptive,
    Base,
}
