//! The arguments of a call, read by the kinds that its function takes.

ghost use Rattle.std.specs.Prelude.{◌≡◌, ◌<◌, ◌≤◌, List, [], ◌∷◌, ◌++◌, length, map, MatchOption};
ghost use Rattle.std.specs.Option.{option_map};
ghost use Rattle.qir_module.specs.Kinds.{kind_of};
ghost use Rattle.qir_module.specs.Machine.{given, all_given};
ghost use Rattle.qir_machine.specs.Memory.{state_of};
ghost use Rattle.qir_machine.specs.Given.{Givens, given_of, IsRead, AreRead};

use crate::memory::Memory;
use qir_module::{Arg, Kind};
use qq_base::QubitId;

/// What a call is given.
#[derive(Clone, Copy, Debug)]
pub enum Given {
    Word(i64),
    Truth(bool),
    Null,
    /// A qubit or a result.
    Id(u32),
    Label(u32),
}

/// What an argument of a kind gives; None where it is of another kind, or cannot be read.
fn read_argument(memory: &Memory, labels: usize, kind: Kind, arg: Arg) -> Option<Given>
    ensures { option_map given_of result ≡ given labels (state_of memory.now) (kind_of kind) arg }
{
    match (kind, arg) {
        (Kind::Number, Arg::Number(operand)) => match memory.word(operand) {
            Some(word) => Some(Given::Word(word)),
            None => None,
        },
        (Kind::Truth, Arg::Truth(operand)) => match memory.truth(operand) {
            Some(truth) => Some(Given::Truth(truth)),
            None => None,
        },
        (Kind::Null, Arg::Id(id)) => if id == 0 { Some(Given::Null) } else { None },
        (Kind::Qubit, Arg::Id(id)) => Some(Given::Id(id)),
        (Kind::Result, Arg::Id(id)) => Some(Given::Id(id)),
        (Kind::Label, Arg::Text(label)) => {
            if (label as usize) < labels {
                Some(Given::Label(label))
            } else {
                None
            }
        }
        _ => None,
    }
}

/// What a call is given, by kinds: words and ids in their order, and at most one truth value and one label.
/// Places behind those that are given hold 0.
#[derive(Clone, Copy, Debug)]
pub struct Arguments {
    pub words: [i64; 4],
    pub word_count: usize,
    pub ids: [QubitId; 3],
    pub id_count: usize,
    pub truth: bool,
    pub label: u32,
}

impl Arguments {
    fn empty() -> Arguments
        ensures { IsRead [] result }
    {
        Arguments {
            words: [0; 4],
            word_count: 0,
            ids: [QubitId(0); 3],
            id_count: 0,
            truth: false,
            label: 0,
        }
    }

    /// These, with one more.
    fn with(self, next: Given) -> Arguments
        ensures { (front : Givens) → IsRead front self → IsRead (front ++ given_of next ∷ []) result }
    {
        let mut all = self;
        match next {
            Given::Word(word) => {
                if all.word_count < 4 {
                    all.words[all.word_count] = word;
                    all.word_count += 1;
                }
            }
            Given::Truth(truth) => all.truth = truth,
            Given::Null => {}
            Given::Id(id) => {
                if all.id_count < 3 {
                    all.ids[all.id_count] = QubitId(id);
                    all.id_count += 1;
                }
            }
            Given::Label(label) => all.label = label,
        }
        all
    }
}

/// All arguments of a call; None where one cannot be read, or the kinds differ.
pub fn read_arguments(
    memory: &Memory,
    labels: usize,
    kinds: &[Kind],
    args: &[Arg],
) -> Option<Arguments>
    ensures { MatchOption result
        (all_given labels (state_of memory.now) (map kind_of kinds.now) args.now ≡ None)
        (AreRead (all_given labels (state_of memory.now) (map kind_of kinds.now) args.now)) }
{
    if kinds.len() != args.len() {
        return None;
    }
    let mut all = Arguments::empty();
    for (index, kind) in kinds.iter().enumerate() {
        match read_argument(memory, labels, *kind, args[index]) {
            Some(next) => all = all.with(next),
            None => return None,
        }
    }
    Some(all)
}
