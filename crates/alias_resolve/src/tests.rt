//! Brackets as they are written, and what they select.

mod rows;

ghost use Rattle.std.specs.Prelude.{IsTrue};
ghost use Rattle.alias_resolve.specs.Places.{AreFew, HasFewMembers};

use crate::{IndexValue, MemberList, SelectFault, Selection, positions, qubits_of};
use qq_base::QubitId;
use rows::ROWS;
use std::alloc::{AllocError, Global};
use std::test::Fail;

/// The members that stand between the braces of a set.
fn members(alloc: Global, text: &str) -> Result<MemberList, AllocError> {
    let mut items = Vec::new(alloc);
    for member in text.split(',') {
        if let Ok(number) = member.parse::<i128>() {
            items.push(number)?;
        }
    }
    Ok(MemberList { items })
}

/// A number, where one stands.
fn number(text: &str) -> Option<i128> {
    text.parse::<i128>().ok()
}

/// The value of one bracket.
fn bracket(alloc: Global, text: &str) -> Result<IndexValue, AllocError> {
    if let Some(set) = text.strip_prefix('{') {
        return Ok(IndexValue::Set(members(alloc, set.strip_suffix('}').unwrap_or(set))?));
    }
    let Some((start, rest)) = text.split_once(':') else {
        return Ok(IndexValue::At(number(text).unwrap_or(0)));
    };
    let (step, stop) = match rest.split_once(':') {
        Some((step, stop)) => (number(step), number(stop)),
        None => (None, number(rest)),
    };
    Ok(IndexValue::Range {
        start: number(start),
        step,
        stop,
    })
}

/// Whether a set is small.
fn is_small(bracket: &IndexValue) -> bool
    ensures { IsTrue result → HasFewMembers bracket.now }
{
    match bracket {
        IndexValue::Set(members) => members.items.len() < 100,
        _ => true,
    }
}

/// Whether there are few brackets, and small sets.
fn are_few(brackets: &[IndexValue]) -> bool
    ensures { IsTrue result → AreFew brackets.now }
{
    if brackets.len() >= 100 {
        return false;
    }
    for bracket in brackets {
        if !is_small(bracket) {
            return false;
        }
    }
    true
}

/// A selection or a fault as a row shows it.
fn shown(alloc: Global, answer: Result<Selection, SelectFault>) -> Result<String, AllocError> {
    match answer {
        Ok(selection) => {
            let mut text = String::from_str(
                alloc,
                if selection.single {
                    "single"
                } else {
                    "register"
                },
            )?;
            for place in selection.places.iter() {
                write!(text, " {place}")?;
            }
            Ok(text)
        }
        Err(SelectFault::Memory) => format!(in alloc; "Memory"),
        Err(SelectFault::IndexRange { index, member }) => format!(in alloc;
            "IndexRange {index} {member}"
        ),
        Err(SelectFault::StepZero { index }) => format!(in alloc; "StepZero {index}"),
        Err(SelectFault::NotRegister { index }) => format!(in alloc; "NotRegister {index}"),
    }
}

/// What the brackets of a row select.
fn answer(alloc: Global, size: &str, text: &str) -> Result<String, AllocError> {
    let mut index = Vec::new(alloc);
    for word in text.split_whitespace() {
        index.push(bracket(alloc, word)?)?;
    }
    let size = size.parse::<u32>().unwrap_or(0);
    if !are_few(&index) {
        return format!(in alloc; "too many");
    }
    shown(alloc, positions(alloc, size, &index))
}

/// The first row that is answered otherwise, or nothing.
fn other_row(alloc: Global) -> Result<String, AllocError> {
    for row in ROWS.lines() {
        let Some((brackets, want)) = row.split_once(" => ") else {
            return format!(in alloc; "no row: {row}");
        };
        let Some((size, text)) = brackets.split_once(" |") else {
            return format!(in alloc; "no row: {row}");
        };
        let found = answer(alloc, size, text)?;
        if found.as_str() != want {
            return format!(in alloc; "{row}, but {found}");
        }
    }
    Ok(String::new(alloc))
}

#[test]
fn brackets_select(rt: HostRuntime) -> Result<(), Fail> {
    let other = other_row(rt.alloc())?;
    assert_eq!(rt; other.as_str(), "");
    Ok(())
}

#[test]
fn qubits_are_those_at_the_places(rt: HostRuntime) -> Result<(), Fail> {
    let register = [QubitId(7), QubitId(9), QubitId(4)];
    let index = [IndexValue::Range {
        start: None,
        step: Some(-2),
        stop: None,
    }];
    assert!(rt; are_few(&index));
    let list = qubits_of(rt.alloc(), &register, &index)?;
    assert!(rt; !list.single);
    assert_eq!(rt; list.ids.as_slice(), [QubitId(4), QubitId(7)].as_slice());
    Ok(())
}
