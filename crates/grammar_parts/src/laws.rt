//! The laws by which readers of parts are put together. They have no code: each contract is a law.

ghost use Rattle.std.specs.Prelude.{◌≡◌, Bool, true, false, Option, List, [], ◌∷◌};
ghost use Rattle.grammar_parts.specs.Part.{Part, one, then, repeated};
ghost use Rattle.grammar_parts.specs.Reading.{Reader, Answers, and_then, take_one, take_repeated};
ghost use Rattle.grammar_parts.specs.Law.{Follows, Filled};

/// A part of a grammar over the tokens `T` with values `Self`, which is not empty and is read exactly.
pub trait Phrase<T> {
    /// The part, with its limits.
    ghost part: { Part T Self };

    /// The part without limits.
    ghost wide: { Part T Self };

    /// What reads it from the front of a list.
    ghost reader: { Reader T Self };

    /// Holds of each token that begins it.
    ghost first: { T → Type 0 };

    /// Holds of each token that goes on behind a whole one.
    ghost more: { Self → T → Type 0 };

    /// The reader takes the longest list of tokens that begins the part, and at most one value is derived.
    ghost read: { Follows (Unit {0}) part wide reader first more };

    /// The empty list is no whole one.
    ghost filled: { Filled wide };
}

/// One token is read exactly, whatever the test that gives its value.
pub fn token_is_read_exactly<T, A>()
    ensures { (test : T → Option A) (ts : List T) → Answers (one test) (one test) ts (take_one test ts) }
{}

/// Where no token that goes on behind the first part begins the second, one behind the other is read
/// exactly, and has at most one value.
pub fn sequence_is_read_exactly<T, P: Phrase<T>, Q: Phrase<T>>()
    ensures exact { ((a : P) (t : T) → P.more a t → Q.first t → ⊥) →
        (ts : List T) → Answers (then P.part (λ _. Q.part)) (then P.wide (λ _. Q.wide)) ts (and_then (P.reader ts) (λ _. Q.reader)) }
    ensures single { ((a : P) (t : T) → P.more a t → Q.first t → ⊥) →
        (ts : List T) (a b : Q) → (then P.part (λ _. Q.part)).derives ts a → (then P.part (λ _. Q.part)).derives ts b → a ≡ b }
{}

/// Where no token that goes on behind a part begins another, and a test tells the tokens that begin one,
/// any number of them is read exactly.
pub fn repetition_is_read_exactly<T, P: Phrase<T>>()
    ensures { (test : T → Bool) → ((a : P) (t : T) → P.more a t → P.first t → ⊥) →
        ((t : T) → test t ≡ true → P.wide.begins (t ∷ [])) → ((t : T) → test t ≡ false → P.first t → ⊥) →
        (ts : List T) → Answers (repeated P.part) (repeated P.wide) ts (take_repeated test P.reader ts) }
{}
