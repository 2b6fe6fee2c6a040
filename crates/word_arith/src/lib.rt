// Words: the arithmetic of `int[n]` and `uint[n]` for n from 1 to 64, on an i64 for each word.
//
// A word is an i64 that holds the low 64 bits of its value. For `int[n]` that is the value itself, from -2^(n-1) up to
// 2^(n-1) - 1. For `uint[n]` the value lies from 0 up to 2^n - 1, and one from 2^63 on is held as an i64 below 0.
//
// The crate stands on std alone. No call refuses, takes memory or loops.
//
// The layer above uses two clauses of each call: `value`, that the result's value is the operation on the values of the
// arguments as whole numbers without bound, reduced once modulo 2^width, and `word`, that the result is a word again.
// `specs/WordTy.antt` says what a word's value and the reduction are, `specs/Whole.antt` has the operations on the bits
// of whole numbers. `wrap` also says that the reduction is the one value of the type that is congruent, and that each
// value has one word, so the two clauses fix the i64 that a call gives. `value` is a word's value, and `is_value` asks
// whether a whole number is a value of the type.
//
// For constants, which are whole numbers, `whole_and`, `whole_or` and `whole_xor` are the operations on their bits. Two
// laws serve a layer that computes first and reduces once: `congruent_numbers_combine` and
// `congruent_numbers_have_one_word`.
#![tactic(auto)]

ghost use Rattle.std.specs.Prelude.{◌≡◌, ℕ, ◌+◌, ◌-◌, ◌%◌, ◌^◌, ◌<◌, ◌≤◌, min, max, ◌↔◌, ℤ, pos, neg_ℤ, ◌+ℤ◌, ◌-ℤ◌, ◌*ℤ◌, ◌≤ℤ◌, ◌<ℤ◌, IsTrue, FitsSigned, unsigned_abs, int_div, int_rem};
ghost use Rattle.std.specs.Int.{w64, int_div_euclid};
ghost use Rattle.word_arith.specs.Whole.{IsCongruent, int_bit_at, int_and, int_or, int_xor};
ghost use Rattle.word_arith.specs.WordTy.{value_of, reduced, IsValue, IsWord, IsReduction};

mod laws;
#[cfg(test)]
mod tests;
mod whole;
mod word_ty;

pub use laws::{congruent_numbers_combine, congruent_numbers_have_one_word};
pub use whole::{whole_and, whole_or, whole_xor};
pub use word_ty::WordTy;

/// The word of any whole number: the number modulo 2^width, as the value of the type that is congruent to it.
/// -9 wraps to 7 at `int[4]`.
pub fn wrap(x: i128, ty: WordTy) -> i64
    ensures value { value_of ty result ≡ reduced ty x }
    ensures word { IsWord ty result }

    // of every whole number `reduced` gives the one value of the type that is congruent to it
    ensures reduction { (y v : ℤ) → (v ≡ reduced ty y) ↔ IsReduction ty y v }

    // two i64 of one value are one i64
    ensures one_word { (a b : ℤ) → FitsSigned w64 a → FitsSigned w64 b
        → value_of ty a ≡ value_of ty b → a ≡ b }
{
    let low = low_bits(x, ty.width);
    if ty.signed {
        sign_extended(low, ty.width)
    } else {
        low.cast_signed()
    }
}

// The lowest bits of x.
fn low_bits(x: i128, width: u32) -> u64
    requires { width ≤ 64 }
    ensures congruent { IsCongruent (2 ^ width) (pos result) x }
    ensures bound { result < 2 ^ width }
{
    (x & ((1 << width) - 1)) as u64
}

// The number whose two's complement of `width` bits is `low`.
fn sign_extended(low: u64, width: u32) -> i64
    requires has_bits { 1 ≤ width }
    requires fits_i64 { width ≤ 64 }
    requires bound { low < 2 ^ width }
    ensures congruent { IsCongruent (2 ^ width) result (pos low) }
    ensures lower { neg_ℤ (pos (2 ^ (width - 1))) ≤ℤ result }
    ensures upper { result <ℤ pos (2 ^ (width - 1)) }
{
    if low < 1 << (width - 1) {
        low as i64
    } else {
        (i128::from(low) - (1 << width)) as i64
    }
}

/// The value of a word: the i64 itself where the type is signed, else the number from 0 on that has the same 64 bits.
pub fn value(a: i64, ty: WordTy) -> i128
    ensures value { result ≡ value_of ty a }
    ensures bound { unsigned_abs result < 2 ^ 64 }
{
    if ty.signed {
        i128::from(a)
    } else {
        i128::from(a.cast_unsigned())
    }
}

/// Whether a whole number is one of the type's values: from -2^(n-1) below 2^(n-1) of `int[n]`, from 0 below 2^n of
/// `uint[n]`.
pub fn is_value(x: i128, ty: WordTy) -> bool
    ensures { IsTrue result ↔ IsValue ty x }
{
    value(wrap(x, ty), ty) == x
}

/// The sum, wrapped. Both arguments are words of the type.
pub fn add(a: i64, b: i64, ty: WordTy) -> i64
    requires first { IsWord ty a }
    requires second { IsWord ty b }
    ensures value { value_of ty result ≡ reduced ty (value_of ty a +ℤ value_of ty b) }
    ensures word { IsWord ty result }
{
    wrap(value(a, ty) + value(b, ty), ty)
}

/// The difference, wrapped. Both arguments are words of the type.
pub fn sub(a: i64, b: i64, ty: WordTy) -> i64
    requires first { IsWord ty a }
    requires second { IsWord ty b }
    ensures value { value_of ty result ≡ reduced ty (value_of ty a -ℤ value_of ty b) }
    ensures word { IsWord ty result }
{
    wrap(value(a, ty) - value(b, ty), ty)
}

/// The product, wrapped. Both arguments are words of the type.
// The product of two values can pass an i128. That of the words is congruent to it, and never does.
pub fn mul(a: i64, b: i64, ty: WordTy) -> i64
    requires first { IsWord ty a }
    requires second { IsWord ty b }
    ensures value { value_of ty result ≡ reduced ty (value_of ty a *ℤ value_of ty b) }
    ensures word { IsWord ty result }
{
    wrap(i128::from(a) * i128::from(b), ty)
}

/// The quotient, truncated toward zero: -7 / 2 is -3. Both arguments are words of the type, and the divisor `b` is at
/// least 1 as an i64: at `uint[64]` its value is then below 2^63.
pub fn div(a: i64, b: i64, ty: WordTy) -> i64
    requires first { IsWord ty a }
    requires second { IsWord ty b }
    requires from_one { pos 1 ≤ℤ b }
    ensures value { value_of ty result ≡ reduced ty (int_div (value_of ty a) (value_of ty b)) }
    ensures word { IsWord ty result }
{
    wrap(value(a, ty) / value(b, ty), ty)
}

/// The remainder of the truncated quotient, with the sign of the dividend `a`: -7 % 2 is -1. Both arguments are words of
/// the type, and the divisor `b` is at least 1 as an i64.
pub fn rem(a: i64, b: i64, ty: WordTy) -> i64
    requires first { IsWord ty a }
    requires second { IsWord ty b }
    requires from_one { pos 1 ≤ℤ b }
    ensures value { value_of ty result ≡ reduced ty (int_rem (value_of ty a) (value_of ty b)) }
    ensures word { IsWord ty result }
{
    wrap(value(a, ty) % value(b, ty), ty)
}

/// The number with its sign turned, wrapped. The argument is a word of the type.
pub fn neg(a: i64, ty: WordTy) -> i64
    requires { IsWord ty a }
    ensures value { value_of ty result ≡ reduced ty (neg_ℤ (value_of ty a)) }
    ensures word { IsWord ty result }
{
    wrap(-value(a, ty), ty)
}

/// The word with each of the type's bits turned over: -x - 1, wrapped. The argument is a word of the type.
pub fn not(a: i64, ty: WordTy) -> i64
    requires { IsWord ty a }
    ensures value { value_of ty result ≡ reduced ty (neg_ℤ (value_of ty a) -ℤ pos 1) }
    ensures word { IsWord ty result }
{
    wrap(!value(a, ty), ty)
}

/// The word of the bits that are set in both arguments, in two's complement. Both arguments are words of the type.
pub fn and(a: i64, b: i64, ty: WordTy) -> i64
    requires first { IsWord ty a }
    requires second { IsWord ty b }
    ensures value { value_of ty result ≡ reduced ty (int_and (value_of ty a) (value_of ty b)) }
    ensures word { IsWord ty result }
    ensures bits { (i : ℕ) → int_bit_at (value_of ty result) i
        ≡ min (int_bit_at (value_of ty a) i) (int_bit_at (value_of ty b) i) }
{
    a & b
}

/// The word of the bits that are set in at least one argument, in two's complement. Both arguments are words of the
/// type.
pub fn or(a: i64, b: i64, ty: WordTy) -> i64
    requires first { IsWord ty a }
    requires second { IsWord ty b }
    ensures value { value_of ty result ≡ reduced ty (int_or (value_of ty a) (value_of ty b)) }
    ensures word { IsWord ty result }
    ensures bits { (i : ℕ) → int_bit_at (value_of ty result) i
        ≡ max (int_bit_at (value_of ty a) i) (int_bit_at (value_of ty b) i) }
{
    a | b
}

/// The word of the bits that are set in exactly one argument, in two's complement. Both arguments are words of the type.
pub fn xor(a: i64, b: i64, ty: WordTy) -> i64
    requires first { IsWord ty a }
    requires second { IsWord ty b }
    ensures value { value_of ty result ≡ reduced ty (int_xor (value_of ty a) (value_of ty b)) }
    ensures word { IsWord ty result }
    ensures bits { (i : ℕ) → int_bit_at (value_of ty result) i
        ≡ (int_bit_at (value_of ty a) i + int_bit_at (value_of ty b) i) % 2 }
{
    a ^ b
}

/// The number times 2^amount, wrapped. `a` is a word of the type, and the amount is below the type's width.
pub fn shl(a: i64, amount: u32, ty: WordTy) -> i64
    requires word { IsWord ty a }
    requires below_width { amount < ty.width }
    ensures value { value_of ty result ≡ reduced ty (value_of ty a *ℤ pos (2 ^ amount)) }
    ensures word { IsWord ty result }
{
    wrap(value(a, ty) << amount, ty)
}

/// The number divided by 2^amount and rounded down, which keeps the sign: -8 >> 1 is -4, and -7 >> 1 too. `a` is a word
/// of the type, and the amount is below the type's width.
pub fn shr(a: i64, amount: u32, ty: WordTy) -> i64
    requires word { IsWord ty a }
    requires below_width { amount < ty.width }
    ensures value { value_of ty result ≡ reduced ty (int_div_euclid (value_of ty a) (pos (2 ^ amount))) }
    ensures word { IsWord ty result }
{
    wrap(value(a, ty) >> amount, ty)
}

/// Whether the value of `a` is below that of `b`. Both are words of the type.
pub fn less(a: i64, b: i64, ty: WordTy) -> bool
    requires first { IsWord ty a }
    requires second { IsWord ty b }
    ensures { IsTrue result ↔ (value_of ty a <ℤ value_of ty b) }
{
    value(a, ty) < value(b, ty)
}
