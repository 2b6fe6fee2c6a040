//! Single numbers.

ghost use Rattle.std.specs.Prelude.{◌≡◌};
ghost use Rattle.alias_resolve.specs.Numbers.{from_start, end_or, place_of, has_passed};

/// A written position, counted from the start of the register.
pub(crate) fn from_start(size: u32, number: i128) -> i128
    ensures { result ≡ from_start size number }
{
    if number < 0 {
        number + i128::from(size)
    } else {
        number
    }
}

/// An end of a range, counted from the start of the register. A missing one is the last position or the first.
pub(crate) fn end_or(size: u32, is_last: bool, end: Option<i128>) -> i128
    ensures { result ≡ end_or size is_last end }
{
    let missing = if is_last { i128::from(size) - 1 } else { 0 };
    from_start(size, end.unwrap_or(missing))
}

/// The place that a number stands for.
pub(crate) fn place_of(size: u32, number: i128) -> Option<u32>
    ensures { result ≡ place_of size number }
{
    if number >= 0 && number < i128::from(size) {
        Some(number as u32)
    } else {
        None
    }
}

/// Whether a range has ended before this number.
pub(crate) fn has_passed(step: i128, stop: i128, number: i128) -> bool
    ensures { result ≡ has_passed step stop number }
{
    if step < 0 {
        number < stop
    } else {
        stop < number
    }
}
