// Registers of bits, and the numbers whose bits they are.
ghost use Rattle.std.specs.Prelude.{◌≡◌, ◌<◌, ◌%◌, ◌^◌, false, not, pos, get_or, length, map, IfOk};
ghost use Rattle.std.specs.Ordering.{int_eq};
ghost use Rattle.qasm_types.specs.Values.{bits_of, number_of_bits};

use crate::number::is_odd;
use crate::value::Register;
use qq_base::NoMemory;
use std::alloc::Global;

/// The lowest bits of a number, in two's complement.
pub(crate) fn pattern(alloc: Global, number: i128, width: u32) -> Result<Register, NoMemory>
    ensures bits { IfOk result (λ r. r.bits.items ≡ bits_of width number) }
    ensures count { IfOk result (λ r. length r.bits.items ≡ width) }
{
    let mut bits = Vec::new(alloc);
    let mut rest = number;
    for _ in 0..width {
        bits.push(is_odd(rest))?;
        rest = rest.div_euclid(2);
    }
    Ok(Register { bits })
}

/// The bits at another width: with zeros behind the highest, or without the highest.
pub(crate) fn resized(alloc: Global, bits: &[bool], width: u32) -> Result<Register, NoMemory>
    ensures bits { IfOk result (λ r. r.bits.items ≡ bits_of width (pos (number_of_bits bits.now))) }
    ensures count { IfOk result (λ r. length r.bits.items ≡ width) }
{
    let mut others = Vec::new(alloc);
    for place in 0..width {
        others.push(bit_at(bits, place))?;
    }
    Ok(Register { bits: others })
}

// The bit at a place, which is 0 behind the highest.
fn bit_at(bits: &[bool], place: u32) -> bool
    ensures { result ≡ get_or bits.now place false }
{
    match bits.get(place as usize) {
        Some(bit) => *bit,
        None => false,
    }
}

/// Each bit turned over.
pub(crate) fn turned(alloc: Global, bits: &[bool]) -> Result<Register, NoMemory>
    requires { length bits.now < 2 ^ 32 }
    ensures { IfOk result (λ r. r.bits.items ≡ map not bits.now) }
{
    let bits = bits.iter().map(|bit| !*bit).collect(alloc)?;
    Ok(Register { bits })
}

/// The number of bits, modulo 2^64.
pub(crate) fn lowest_number(bits: &[bool]) -> u64
    ensures { result ≡ number_of_bits bits.now % 2 ^ 64 }
{
    let mut number: u64 = 0;
    for place in (0..bits.len()).rev() {
        number = number % (1 << 63) * 2 + u64::from(bits[place]);
    }
    number
}

/// Whether some bit is 1.
pub(crate) fn has_one(bits: &[bool]) -> bool
    ensures { result ≡ not (int_eq (pos (number_of_bits bits.now)) (pos 0)) }
{
    for bit in bits {
        if *bit {
            return true;
        }
    }
    false
}
