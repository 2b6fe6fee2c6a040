//! Laws over all texts and all runs. No program calls these functions, and the contract of each is the law.

ghost use Rattle.std.specs.Prelude.{◌≡◌, ℕ, List};
ghost use Rattle.qir_module.specs.Machine.{machine_run};
ghost use Rattle.qir_module.specs.Module.{Module};
ghost use Rattle.qq_base.specs.declared.refusal.Refusal.{Refusal};
ghost use Rattle.qq_tool.specs.Compiled.{Implements};
ghost use Rattle.qq_tool.specs.Laws.{EndedRunsStay, UnfinishedRunsGoOn};
ghost use Rattle.qq_tool.specs.QirRefused.{AreApart, IsQirDecided};
ghost use Rattle.qq_tool.specs.Refused.{IsRefused, IsProgramText, IsDecided};
ghost use Rattle.qq_tool.specs.ThinRun.{source_run};
ghost use Rattle.qq_tool.specs.Thin.{Thin, Spells, IsThinText};

use profile_check::passes_or_is_broken;
use qasm_grammar::answers_are_right;
use qasm_lexer::{MOST_BYTES, texts_have_a_reading};
use qir_lexer::{texts_are_answered, texts_have_one_answer};

/// Each list of bytes is accepted, or refused by one rule at one place, and not both.
pub fn texts_are_decided(bytes: &[u8])
    ensures { IsDecided bytes.now }
{
    if bytes.len() <= MOST_BYTES {
        texts_have_a_reading(bytes);
        answers_are_right();
    }
}

/// A text spells one thin program at most.
pub fn one_program()
    ensures { (bytes : List ℕ) (p q : Thin) → Spells bytes p → Spells bytes q → p ≡ q }
{}

/// A thin text breaks no rule of tokens and of programs.
pub fn thin_texts_are_programs()
    ensures { (bytes : List ℕ) → IsThinText bytes → IsProgramText bytes }
{}

/// A text is refused by one rule and at one place at most.
pub fn refusals_are_one()
    ensures { (bytes : List ℕ) (a b : Refusal) → IsRefused bytes a → IsRefused bytes b → a ≡ b }
{}

/// A thin text is never refused: it is short enough, breaks no rule, and is of the form that is built.
pub fn thin_texts_are_accepted()
    ensures { (bytes : List ℕ) (refusal : Refusal) → IsThinText bytes → ¬ IsRefused bytes refusal }
{}

/// Where the run of a thin program ended, more turns and further outcomes show the same.
pub fn ended_source_runs_stay()
    ensures { (p : Thin) → EndedRunsStay (source_run p) }
{}

/// Where it did not end, more turns and further outcomes show the same events first.
pub fn unfinished_source_runs_go_on()
    ensures { (p : Thin) → UnfinishedRunsGoOn (source_run p) }
{}

/// Where the run of a compiled module ended, more turns and further outcomes show the same.
pub fn ended_module_runs_stay()
    ensures { (p : Thin) (m : Module) → Implements m p → EndedRunsStay (machine_run m) }
{}

/// Where it did not end, more turns and further outcomes show the same events first.
pub fn unfinished_module_runs_go_on()
    ensures { (p : Thin) (m : Module) → Implements m p → UnfinishedRunsGoOn (machine_run m) }
{}

/// No QIR text passes and is refused.
pub fn passing_texts_are_not_refused()
    ensures { AreApart }
{
    texts_have_one_answer();
    passes_or_is_broken();
}

/// Each QIR text is that of a module that passes, or is refused by one line, and not both.
pub fn qir_texts_are_decided()
    ensures { (bytes : List ℕ) → IsQirDecided bytes }
{
    texts_are_answered();
    texts_have_one_answer();
    passes_or_is_broken();
}
