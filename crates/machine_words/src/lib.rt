// Words of 64 bits for whole numbers without bound: what the instructions of the machine give on them.
//
// It stands on `word_arith` for values modulo 2^n and for congruent numbers, and on `qir_module` for the machine. The layer above, which
// makes expressions over cells, uses the laws: an instruction on the words of numbers gives the word of what the operation gives on
// the numbers.
#![tactic(auto)]

ghost use Rattle.machine_words.specs.Laws.{NumbersAreKept, WordsAreExact, SignedWordsAreExact, UnsignedWordsAreExact, WordsAreReduced};

use word_arith::{congruent_numbers_combine, congruent_numbers_have_one_word};

/// Numbers in range are their own words and values.
pub fn numbers_are_kept()
    ensures { NumbersAreKept }
{}

/// Instructions that are exact modulo 2^64.
pub fn words_are_exact()
    ensures { WordsAreExact }
{
    congruent_numbers_combine();
    congruent_numbers_have_one_word();
}

/// Instructions on signed and on unsigned words that are exact in range.
pub fn ranges_are_exact()
    ensures signed { SignedWordsAreExact }
    ensures unsigned { UnsignedWordsAreExact }
{}

/// How a word is reduced to fewer bits.
pub fn words_are_reduced()
    ensures { WordsAreReduced }
{
    congruent_numbers_combine();
    congruent_numbers_have_one_word();
}
