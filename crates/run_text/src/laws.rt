//! Laws of printing. These functions have no code: each contract is a law, for who calls it.

ghost use Rattle.std.specs.Prelude.{List, ℕ, [], ◌++◌};
ghost use Rattle.run_text.specs.Printing.{Desk, Prints};

/// Where nothing is done, nothing is printed; and a text printed behind another is both.
pub fn texts_are_joined()
    ensures none { (desk : Desk) → Prints desk [] desk }
    ensures both { (first middle last : Desk) (text more : List ℕ) → Prints first text middle → Prints middle more last → Prints first (text ++ more) last }
{}
