// Grammars made of parts, and readers that read them exactly.
//
// A part (`specs/Part.antt`) says by two relations which lists of tokens it derives, each with its
// value, and which lists begin it. Parts are made of parts: one token, one part behind another, one of
// two, any number of them, lists with commas, and parts that a limit on levels or on a chain shuts off.
// A reader (`specs/Reading.antt`) is a function on lists beside the part. It takes the longest list of
// tokens that begins the part, and answers the value and the rest, or where it stops and whether only a
// limit forbids the token there.
//
// It stands on nothing. It knows tokens only by the numbers of their kinds (`specs/Kinds.antt`), so that
// each language has its own tokens and its own grammar. A layer above states its grammar by these parts,
// and proves its reader with the lemmas of `proofs/Productions.antt`, one for each way to make a part.
// Their side conditions are computed from sets of kinds. The functions here are the laws themselves.
#![tactic(auto)]

mod laws;

pub use laws::{
    Phrase, repetition_is_read_exactly, sequence_is_read_exactly, token_is_read_exactly,
};
