//! The calls of a stream in memory that fail.

ghost use Rattle.std.specs.Prelude.{◌↔◌, Contains, IsTrue};

/// Whether the call with this number is one of those that fail.
pub fn is_failing(failing: &[u32], call: u64) -> bool
    ensures { IsTrue result ↔ Contains failing.now call }
{
    failing.iter().any(|number| u64::from(*number) == call)
}
