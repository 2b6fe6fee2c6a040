// What is told of the cases of one operator, or of the casts to one type.

use crate::typed::Typed;
use anyhow::Result;
use std::alloc::Global;
use std::fmt;

/// An operator or a cast with its operands. Where it has one, that stands on both sides.
#[derive(Clone, Copy)]
pub struct Case<'a> {
    pub name: &'a str,
    pub left: Typed,
    pub right: Typed,
    /// Whether there are two operands.
    pub binary: bool,
}

impl Case<'_> {
    pub fn of_one(name: &str, operand: Typed) -> Case<'_> {
        Case {
            name,
            left: operand,
            right: operand,
            binary: false,
        }
    }

    pub fn of_two(name: &str, left: Typed, right: Typed) -> Case<'_> {
        Case {
            name,
            left,
            right,
            binary: true,
        }
    }
}

impl fmt::Display for Case<'_> {
    fn fmt<W: fmt::Write>(&self, f: &mut fmt::Formatter<W>) -> fmt::Result {
        let name = self.name;
        let left = self.left;
        let right = self.right;
        if self.binary {
            write!(f, "{left} {name} {right}")
        } else {
            write!(f, "{name} {left}")
        }
    }
}

/// What is compared of a case.
#[derive(Clone, Copy)]
pub enum What {
    /// Whether there is a row, and of what type its result is.
    Row,
    /// The value of words.
    Word,
    /// The answer for constants.
    Constant,
}

/// How many rows, words and constants were compared, and a line for each case in which the two differ.
#[derive(Drop)]
pub struct Report {
    rows: u64,
    words: u64,
    constants: u64,
    differences: String,
}

impl Report {
    pub fn new(alloc: Global) -> Report {
        Report {
            rows: 0,
            words: 0,
            constants: 0,
            differences: String::new(alloc),
        }
    }

    /// Compares what the two say of a case.
    pub fn compare<T: PartialEq + fmt::Debug + Copy>(
        &mut self,
        what: What,
        case: Case<'_>,
        plain: T,
        other: T,
    ) -> Result<()> {
        match what {
            What::Row => self.rows = self.rows.wrapping_add(1),
            What::Word => self.words = self.words.wrapping_add(1),
            What::Constant => self.constants = self.constants.wrapping_add(1),
        }
        if plain != other {
            writeln!(self.differences, "{case}: {plain:?}, but {other:?}")?;
        }
        Ok(())
    }

    /// Prints the differences, and then the numbers of cases behind a name.
    pub fn tell(self, rt: &impl Print, name: &str) -> Result<()> {
        let Report {
            rows,
            words,
            constants,
            differences,
        } = self;
        rt.print(differences.as_str())?;
        rt.println(format_args!("{name}: {rows} rows, {words} words, {constants} constants"))?;
        Ok(())
    }
}
