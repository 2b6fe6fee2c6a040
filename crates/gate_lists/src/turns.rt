//! Turns: numbers of units that are known when the program runs.
ghost use Rattle.std.specs.Prelude.{◌≡◌, ◌<◌, ◌≤◌, ◌+◌, ℕ, IsTrue, IfOk, OnOk, OnErr, length, slice_get, Some, []};
ghost use Rattle.gate_lists.specs.declared.expansion.TurnExpr.{TurnExpr};
ghost use Rattle.gate_lists.specs.declared.expansion.TurnExpr.TheVariants.{Outer};
ghost use Rattle.gate_lists.specs.Turns.{turn_fits};
ghost use Rattle.gate_lists.specs.Pushed.{IsPushed};

use crate::expansion::TurnExpr;
use qq_base::NoMemory;
use std::alloc::Global;

/// Turns, each of which names earlier ones alone. An argument of the call is named at most once, and none from the number `args`
/// on.
#[derive(Debug, Drop)]
pub struct Turns {
    pub items: Vec<TurnExpr>,
    pub args: u64,
    pub ghost fit: { (at : ℕ) (t : TurnExpr) → slice_get items.items at ≡ Some t → IsTrue (turn_fits args at t) },
    pub ghost once: { (i j k : ℕ) → slice_get items.items i ≡ Some (Outer k) → slice_get items.items j ≡ Some (Outer k) → i ≡ j },
}

impl Turns {
    /// No turns.
    pub fn new(alloc: Global) -> Turns
        ensures none { result.items.items ≡ [] }
        ensures args { result.args ≡ 0 }
    {
        Turns {
            items: Vec::new(alloc),
            args: 0,
        }
    }

    /// Puts a turn that is no argument behind the others, and gives its place.
    pub fn push(&mut self, turn: TurnExpr) -> Result<u32, NoMemory>
        requires { IsTrue (turn_fits 0 (length self.old.items.items) turn) }
        ensures pushed { IfOk result (IsPushed self.old.items.items self.new.items.items turn) }
        ensures args { OnOk result (self.new.args ≡ self.old.args) }
        ensures err { OnErr result (self.new.items.items ≡ self.old.items.items) }
    {
        let place = self.items.len();
        if place >= u32::MAX as usize {
            return Err(NoMemory);
        }
        self.items.push(turn)?;
        Ok(place as u32)
    }

    /// Puts an argument of the call behind the others, and gives its place. No argument behind it was named before.
    pub fn push_outer(&mut self, k: u32) -> Result<u32, NoMemory>
        requires { self.old.args ≤ k }
        ensures pushed { IfOk result (IsPushed self.old.items.items self.new.items.items (Outer k)) }
        ensures args { OnOk result (self.new.args ≡ k + 1) }
        ensures err { OnErr result (self.new.items.items ≡ self.old.items.items) }
    {
        let place = self.items.len();
        if place >= u32::MAX as usize {
            return Err(NoMemory);
        }
        self.items.push(TurnExpr::Outer(k))?;
        self.args = k as u64 + 1;
        Ok(place as u32)
    }
}
