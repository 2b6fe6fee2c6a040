// Operands: a type of few bits with a value.

use qasm_types::Ty;
use std::alloc::{AllocError, Global};
use std::fmt;

/// A value of a type, as a number: index 0 of bits is the lowest bit. A part of pi has a denominator too.
#[derive(Clone, Copy, Debug, PartialEq, Eq)]
pub struct Typed {
    pub ty: Ty,
    pub number: i128,
    pub den: i128,
}

impl Typed {
    /// A number at a type.
    pub fn new(ty: Ty, number: i128) -> Typed {
        Typed { ty, number, den: 1 }
    }

    /// Whether it is a part of pi.
    pub fn is_part(self) -> bool {
        self.ty == Ty::Pi
    }

    /// Whether it is a whole constant.
    pub fn is_whole(self) -> bool {
        self.ty == Ty::Whole
    }
}

impl fmt::Display for Typed {
    fn fmt<W: fmt::Write>(&self, f: &mut fmt::Formatter<W>) -> fmt::Result {
        let ty = self.ty;
        let number = self.number;
        let den = self.den;
        write!(f, "{ty:?} {number}/{den}")
    }
}

/// The type that is written so, or of a constant `whole` or `pi/4`, and its denominator.
fn named(name: &str) -> Option<(Ty, i128)> {
    if let Some(den) = name.strip_prefix("pi/") {
        return Some((Ty::Pi, den.parse::<i128>().ok()?));
    }
    let ty = match name {
        "bool" => Ty::Bool,
        "bit" => Ty::Bit,
        "whole" => Ty::Whole,
        _ => {
            let (word, width) = name.strip_suffix(']')?.split_once('[')?;
            of_width(word, width.parse::<u32>().ok()?)?
        }
    };
    Some((ty, 1))
}

fn of_width(word: &str, width: u32) -> Option<Ty> {
    Some(match word {
        "bit" => Ty::Bits(width),
        "int" => Ty::Int(width),
        "uint" => Ty::Uint(width),
        "angle" => Ty::Angle(width),
        _ => return None,
    })
}

/// The operands of a line: a type, and the least and the greatest number.
fn add_operands(all: &mut Vec<Typed>, line: &str) -> Result<(), AllocError> {
    let mut words = line.split(' ');
    let ty = words.next().and_then(named);
    let least = words.next().and_then(|word| word.parse::<i128>().ok());
    let greatest = words.next().and_then(|word| word.parse::<i128>().ok());
    if let (Some((ty, den)), Some(least), Some(greatest)) = (ty, least, greatest) {
        for number in least..=greatest {
            all.push(Typed { ty, number, den })?;
        }
    }
    Ok(())
}

/// The operands of all lines.
pub fn operands(alloc: Global, lines: &str) -> Result<Vec<Typed>, AllocError> {
    let mut all = Vec::new(alloc);
    for line in lines.lines() {
        add_operands(&mut all, line)?;
    }
    Ok(all)
}

/// The type at the head of a line, where it is no type of constants alone.
pub fn type_of(line: &str) -> Option<(&str, Ty)> {
    let name = line.split(' ').next()?;
    match named(name)?.0 {
        Ty::Whole | Ty::Pi => None,
        ty => Some((name, ty)),
    }
}
