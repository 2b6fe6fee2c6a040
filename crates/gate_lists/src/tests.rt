//! A list under modifiers, worked by hand.

use crate::{Amount, Budget, Member, Modified, Turns, append, control_count, modified_list};
use qq_base::{GateId, QubitId, Span};
use std::test::Fail;

// `ctrl @ pow(-2) @ rz(a) q[1];` with the control `q[0]`, where `a` is the first argument of the call: `crz(-a)` twice, each for 2.
#[test]
#[tactic(auto, unfolding(crate::specs::Amounts::params_of, crate::specs::Amounts::qubits_of))]
fn controls_two_inverses(rt: HostRuntime) -> Result<(), Fail> {
    let place = Span { line: 1, column: 1 };
    let mut turns = Turns::new(rt.alloc());
    let angle = turns.push_outer(0)?;
    let rotation = Member::new(
        GateId(14),
        &[Amount::Turn {
            turn: angle,
            negated: false,
        }],
        &[QubitId(1)],
    );
    let mut list = Vec::new(rt.alloc());
    append(&mut list, &[rotation])?;
    let modifiers = [Modified::Controls(1, place), Modified::Power(-2, place)];
    assert_eq!(rt; control_count(&modifiers), Some(1));
    let mut budget = Budget { left: 10, place };
    let made = modified_list(rt.alloc(), &modifiers, &[QubitId(0)], list, &mut budget)?;
    assert_eq!(rt; (made.len(), budget.left), (2, 6));
    assert_eq!(rt; made[1].gate, GateId(22));
    assert_eq!(rt; made[1].qubits, [QubitId(0), QubitId(1), QubitId(0)]);
    assert_eq!(rt;
        made[1].args[0],
        Amount::Turn {
            turn: 0,
            negated: true
        }
    );
    Ok(())
}
