//! What a walk changes as it goes.

use crate::budget::Budget;
use crate::turns::Turns;

/// What is left of the budget, and the turns that were made.
#[derive(Debug, Drop)]
pub struct Work {
    pub budget: Budget,
    pub turns: Turns,
}
