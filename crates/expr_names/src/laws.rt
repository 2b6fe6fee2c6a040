// Laws of names in expressions. No program calls these functions; each has an empty body, and its contract is the law.
ghost use Rattle.std.specs.Prelude.{ℕ, Bool, List};
ghost use Rattle.const_eval.specs.Meaning.{Meaning};
ghost use Rattle.expr_names.specs.Laws.{Agree, ConstantsRestOnNames, WalksRestOnNames, ValuesRestOnNames, OperandsRestOnNames, TreesNameTheirNames};

/// What constants are, what the walks of expressions and operands answer, and what expressions are worth in a run is the same
/// wherever the names in them mean the same.
pub fn expressions_rest_on_their_names()
    ensures constants { (is : List ℕ → Bool) (means other : List ℕ → Meaning) → Agree is means other → ConstantsRestOnNames is means other }
    ensures walks { (is : List ℕ → Bool) (means other : List ℕ → Meaning) → Agree is means other → WalksRestOnNames is means other }
    ensures values { (is : List ℕ → Bool) (means other : List ℕ → Meaning) → Agree is means other → ValuesRestOnNames is means other }
    ensures operands { (is : List ℕ → Bool) (means other : List ℕ → Meaning) → Agree is means other → OperandsRestOnNames is means other }
{}

/// Each name in an expression of a program is one of its names.
pub fn programs_name_their_names()
    ensures { TreesNameTheirNames }
{}
