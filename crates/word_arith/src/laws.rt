// Laws of arithmetic modulo 2^width, for the layers that compute with whole numbers first and reduce once.
ghost use Rattle.std.specs.Prelude.{◌≡◌, ◌↔◌, ℕ, ◌^◌, ℤ, neg_ℤ, ◌+ℤ◌, ◌-ℤ◌, ◌*ℤ◌};
ghost use Rattle.word_arith.specs.Whole.{IsCongruent};
ghost use Rattle.word_arith.specs.WordTy.{reduced};
ghost use Rattle.word_arith.specs.declared.word_ty.WordTy.{WordTy};

/// Congruence is an equivalence, and sums, differences, products and negatives of congruent numbers are congruent.
pub fn congruent_numbers_combine()
    ensures same { (m : ℕ) (a : ℤ) → IsCongruent m a a }
    ensures turned { (m : ℕ) (a b : ℤ) → IsCongruent m a b → IsCongruent m b a }
    ensures joined { (m : ℕ) (a b c : ℤ) → IsCongruent m a b → IsCongruent m b c → IsCongruent m a c }

    ensures sums { (m : ℕ) (a b c d : ℤ) → IsCongruent m a b → IsCongruent m c d → IsCongruent m (a +ℤ c) (b +ℤ d) }
    ensures differences { (m : ℕ) (a b c d : ℤ) → IsCongruent m a b → IsCongruent m c d
        → IsCongruent m (a -ℤ c) (b -ℤ d) }
    ensures products { (m : ℕ) (a b c d : ℤ) → IsCongruent m a b → IsCongruent m c d
        → IsCongruent m (a *ℤ c) (b *ℤ d) }
    ensures negatives { (m : ℕ) (a b : ℤ) → IsCongruent m a b → IsCongruent m (neg_ℤ a) (neg_ℤ b) }
{}

/// Two whole numbers have one reduction exactly where they are congruent.
pub fn congruent_numbers_have_one_word()
    ensures { (ty : WordTy) (x y : ℤ) → IsCongruent (2 ^ ty.width) x y ↔ (reduced ty x ≡ reduced ty y) }
{}
