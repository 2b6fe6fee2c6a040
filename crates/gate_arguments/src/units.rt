//! Arguments of gates of the target table, in units of 2^-32 turn.
ghost use Rattle.std.specs.Prelude.{◌≡◌, ◌≤◌, ◌^◌, ℕ, ℤ, unsigned_abs, IfOk};
ghost use Rattle.const_eval.specs.Answers.{Answers};
ghost use Rattle.const_eval.specs.Seen.{constant_of};
ghost use Rattle.gate_lists.specs.Amounts.{IsNamed, units_in};
ghost use Rattle.gate_arguments.specs.Arguments.{units_at, units_of_part};
ghost use Rattle.gate_arguments.specs.Seen.{ArgumentFits, argument_seen};

use crate::scope::Argument;
use angle_arith::{AngleRefusal, PiFraction, to_units};
use const_eval::Const;
use gate_lists::{Amount, refused};
use qq_base::{Fault, Rule, Span};

/// A fraction of pi in units: whole, and at most 2^40 in size.
pub(crate) fn units_of_part(part: PiFraction, place: Span) -> Result<i64, Fault>
    ensures answer { Answers (λ z. z) result (units_of_part place part) }
    ensures bounded { IfOk result (λ z. unsigned_abs z ≤ 2 ^ 40) }
{
    let _ = part.den();
    match to_units(part) {
        Ok(units) => Ok(units),
        Err(refusal) => Err(refused(units_rule(refusal), place)),
    }
}

// Why a fraction of pi has no units.
fn units_rule(refusal: AngleRefusal) -> Rule
    ensures beyond { refusal ≡ AngleRefusal.TurnRange → result ≡ Rule.TurnRange }
    ensures parted { refusal ≡ AngleRefusal.NotDyadic → result ≡ Rule.NotDyadic }
{
    match refusal {
        AngleRefusal::TurnRange => Rule::TurnRange,
        _ => Rule::NotDyadic,
    }
}

/// An argument of a gate of the target table. Its units are never reduced modulo a turn.
pub fn units_at(argument: &Argument, place: Span) -> Result<Amount, Fault>
    ensures answer { (worths : ℕ → ℤ) → Answers (units_in worths) result (units_at place (argument_seen worths argument.now)) }
    ensures named { (turns : ℕ) → ArgumentFits turns argument.now → IfOk result (IsNamed turns) }
{
    match argument {
        Argument::Turn(turn) => Ok(Amount::Turn {
            turn: *turn,
            negated: false,
        }),
        Argument::Constant(value) => Ok(Amount::Units(constant_units(value, place)?)),
    }
}

fn constant_units(value: &Const, place: Span) -> Result<i64, Fault>
    ensures { Answers (λ z. z) result (units_at place (constant_of value.now)) }
{
    match value {
        Const::Pi(part) => units_of_part(*part, place),
        Const::Whole(whole) if whole.number == 0 => Ok(0),
        Const::Whole(_) => Err(refused(Rule::NotPiMultiple, place)),
        Const::Angle(angle) => Ok((angle.count << (32 - angle.width)) as i64),
        Const::Bool(_) | Const::Bits(_) => Err(refused(Rule::NoCast, place)),
    }
}
