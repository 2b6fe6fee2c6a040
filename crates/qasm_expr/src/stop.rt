//! Why reading stops.

/// Why a part is not read, with the place in the list of tokens.
#[derive(Clone, Copy, Debug, PartialEq, Eq)]
pub enum Stop {
    /// There is no memory left.
    Memory,
    /// No expression goes on with the token at this place.
    Syntax(usize),
    /// Only a limit forbids the token at this place.
    Deep(usize),
}
