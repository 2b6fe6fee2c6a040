//! What a walk may still cost.

use crate::refusing::refused;
use qq_base::{Fault, Rule, Span};

/// What is left of the budget of a call, and the place at which a cost that passes it is refused.
#[derive(Clone, Copy, Debug, PartialEq, Eq)]
pub struct Budget {
    pub left: u64,
    pub place: Span,
}

impl Budget {
    ghost use Rattle.std.specs.Prelude.{◌≡◌, ◌-◌, ◌<◌, ◌≤◌, OnOk, OnErr, IfErr};
    ghost use Rattle.qq_base.specs.declared.rule.Rule.TheVariants.{TooLarge};

    /// Adds to the cost of the walk. A cost that passes what is left is refused.
    pub fn spend(&mut self, cost: u64) -> Result<(), Fault>
        ensures paid { OnOk result (cost ≤ self.old.left) }
        ensures rest { OnOk result (self.new ≡ record { left = self.old.left - cost; place = self.old.place }) }
        ensures passed { OnErr result (self.old.left < cost) }
        ensures refused { IfErr result (λ fault. fault ≡ Fault.Refused (record { rule = TooLarge; at = self.old.place })) }
    {
        if cost > self.left {
            return Err(refused(Rule::TooLarge, self.place));
        }
        self.left -= cost;
        Ok(())
    }
}
