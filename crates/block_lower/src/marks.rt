//! What the ways through a statement do with a cell, at all its exits at once.

ghost use Rattle.std.specs.Prelude.{◌≡◌, ◌++◌, [], IfOk, OnOk, get_or};
ghost use Rattle.block_lower.specs.Marks.{no_mark, either_marks, then_marks, back_marks, tail_marks, at_marks, straight_marks, seq_marks, if_marks, block_marks, loop_marks};

use crate::mark::{Mark, back_mark, either_mark, no_mark, passing, then_mark};
use qq_base::NoMemory;
use std::alloc::Global;
use std::marker::Model;

/// The marks behind a statement, and of each level that it leaves or goes back to, the innermost first.
#[derive(Drop)]
pub struct Marks {
    behind: Mark,
    leaves: Vec<Mark>,
    agains: Vec<Mark>,
}

impl Model for Marks {
    ghost use Rattle.block_lower.specs.Marks.{Marks as MarksValue};

    ghost Value = { MarksValue };

    ghost view = { λ m. record { behind = m.behind; leaves = m.leaves.items; agains = m.agains.items } };
}

impl Marks {
    fn new(behind: Mark, leaves: Vec<Mark>, agains: Vec<Mark>) -> Marks
        ensures { result ≡ record { behind = behind; leaves = leaves.items; agains = agains.items } }
    {
        Marks {
            behind,
            leaves,
            agains,
        }
    }

    /// Of a statement that always goes on behind it.
    pub fn straight(alloc: Global, behind: Mark) -> Marks
        ensures { result ≡ straight_marks behind }
    {
        Marks::new(behind, Vec::new(alloc), Vec::new(alloc))
    }

    /// Of a statement that leaves a level.
    pub fn leaving(alloc: Global, k: u32) -> Result<Marks, NoMemory>
        ensures { IfOk result (λ m. m ≡ record { behind = no_mark; leaves = at_marks k; agains = [] }) }
    {
        let leaves = at_level(alloc, k)?;
        Ok(Marks::new(no_mark(), leaves, Vec::new(alloc)))
    }

    /// Of a statement that goes back to a level's start.
    pub fn returning(alloc: Global, k: u32) -> Result<Marks, NoMemory>
        ensures { IfOk result (λ m. m ≡ record { behind = no_mark; leaves = []; agains = at_marks k }) }
    {
        let agains = at_level(alloc, k)?;
        Ok(Marks::new(no_mark(), Vec::new(alloc), agains))
    }

    /// Behind the statement.
    pub fn behind(&self) -> Mark
        ensures { result ≡ self.now.behind }
    {
        self.behind
    }

    fn leaves(&self) -> &[Mark]
        ensures { result.now ≡ self.now.leaves }
    {
        &self.leaves
    }

    fn agains(&self) -> &[Mark]
        ensures { result.now ≡ self.now.agains }
    {
        &self.agains
    }

    /// On the ways back to the start of the innermost loop.
    pub fn again(&self) -> Mark
        ensures { result ≡ get_or self.now.agains 0 no_mark }
    {
        first(&self.agains)
    }
}

fn first(list: &[Mark]) -> Mark
    ensures { result ≡ get_or list.now 0 no_mark }
{
    match list {
        [] => no_mark(),
        [mark, ..] => *mark,
    }
}

fn tail(list: &[Mark]) -> &[Mark]
    ensures { result.now ≡ tail_marks list.now }
{
    match list {
        [] => list,
        [_, rest @ ..] => rest,
    }
}

fn either_into(list: &[Mark], others: &[Mark], out: &mut Vec<Mark>) -> Result<(), NoMemory>
    ensures { OnOk result (out.new.items ≡ out.old.items ++ either_marks list.now others.now) }
{
    match list {
        [] => out.extend_from_slice(others)?,
        [mark, rest @ ..] => match others {
            [] => out.extend_from_slice(list)?,
            [other, more @ ..] => {
                out.push(either_mark(*mark, *other))?;
                either_into(rest, more, out)?;
            }
        },
    }
    Ok(())
}

fn either_all(alloc: Global, list: &[Mark], others: &[Mark]) -> Result<Vec<Mark>, NoMemory>
    ensures { IfOk result (λ r. r.items ≡ either_marks list.now others.now) }
{
    let mut all = Vec::new(alloc);
    either_into(list, others, &mut all)?;
    Ok(all)
}

fn then_all(alloc: Global, a: Mark, list: &[Mark]) -> Result<Vec<Mark>, NoMemory>
    ensures { IfOk result (λ r. r.items ≡ then_marks a list.now) }
{
    let mut all = Vec::new(alloc);
    for mark in list {
        all.push(then_mark(a, *mark))?;
    }
    Ok(all)
}

fn back_all(alloc: Global, back: Mark, list: &[Mark]) -> Result<Vec<Mark>, NoMemory>
    ensures { IfOk result (λ r. r.items ≡ back_marks back list.now) }
{
    let mut all = Vec::new(alloc);
    for mark in list {
        all.push(back_mark(back, *mark))?;
    }
    Ok(all)
}

/// Where there is a way to this level alone.
#[tactic(auto, using(crate::proofs::Marking::at_replicate))]
fn at_level(alloc: Global, k: u32) -> Result<Vec<Mark>, NoMemory>
    ensures { IfOk result (λ r. r.items ≡ at_marks k) }
{
    let mut all = vec![in alloc; no_mark(); k as usize]?;
    all.push(passing())?;
    Ok(all)
}

/// Of one statement behind another.
pub fn seq_marks(alloc: Global, a: &Marks, b: &Marks) -> Result<Marks, NoMemory>
    ensures { IfOk result (λ m. m ≡ seq_marks a.now b.now) }
{
    let leaves = then_all(alloc, a.behind(), b.leaves())?;
    let agains = then_all(alloc, a.behind(), b.agains())?;
    let leaves = either_all(alloc, a.leaves(), &leaves)?;
    let agains = either_all(alloc, a.agains(), &agains)?;
    Ok(Marks::new(then_mark(a.behind(), b.behind()), leaves, agains))
}

/// Of a choice.
pub fn if_marks(alloc: Global, a: &Marks, b: &Marks) -> Result<Marks, NoMemory>
    ensures { IfOk result (λ m. m ≡ if_marks a.now b.now) }
{
    let leaves = either_all(alloc, a.leaves(), b.leaves())?;
    let agains = either_all(alloc, a.agains(), b.agains())?;
    Ok(Marks::new(either_mark(a.behind(), b.behind()), leaves, agains))
}

/// Of a block with this body.
pub fn block_marks(alloc: Global, a: &Marks) -> Result<Marks, NoMemory>
    ensures { IfOk result (λ m. m ≡ block_marks a.now) }
{
    let leaves = Vec::from_slice(alloc, tail(a.leaves()))?;
    let agains = Vec::from_slice(alloc, a.agains())?;
    Ok(Marks::new(either_mark(a.behind(), first(a.leaves())), leaves, agains))
}

/// Of a loop with this body.
pub fn loop_marks(alloc: Global, a: &Marks) -> Result<Marks, NoMemory>
    ensures { IfOk result (λ m. m ≡ loop_marks a.now) }
{
    let back = first(a.agains());
    let leaves = back_all(alloc, back, tail(a.leaves()))?;
    let agains = back_all(alloc, back, tail(a.agains()))?;
    let behind = either_mark(
        back_mark(back, a.behind()),
        back_mark(back, first(a.leaves())),
    );
    Ok(Marks::new(behind, leaves, agains))
}
