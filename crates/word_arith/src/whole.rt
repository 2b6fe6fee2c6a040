// The operations on the bits of whole numbers, in two's complement without end, on an i128 for each number.
ghost use Rattle.std.specs.Prelude.{◌≡◌, ℕ, ◌+◌, ◌%◌, min, max};
ghost use Rattle.word_arith.specs.Whole.{int_bit_at, int_and, int_or, int_xor};

/// The number whose bits are those that are set in both numbers. A number below 0 has infinitely many bits set.
pub fn whole_and(a: i128, b: i128) -> i128
    ensures value { result ≡ int_and a b }
    ensures bits { (i : ℕ) → int_bit_at result i ≡ min (int_bit_at a i) (int_bit_at b i) }
{
    a & b
}

/// The number whose bits are those that are set in at least one number.
pub fn whole_or(a: i128, b: i128) -> i128
    ensures value { result ≡ int_or a b }
    ensures bits { (i : ℕ) → int_bit_at result i ≡ max (int_bit_at a i) (int_bit_at b i) }
{
    a | b
}

/// The number whose bits are those that are set in exactly one number.
pub fn whole_xor(a: i128, b: i128) -> i128
    ensures value { result ≡ int_xor a b }
    ensures bits { (i : ℕ) → int_bit_at result i ≡ (int_bit_at a i + int_bit_at b i) % 2 }
{
    a ^ b
}
