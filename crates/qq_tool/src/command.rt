//! The words of the program's command line.

ghost use Rattle.std.specs.Prelude.{◌≡◌, map, string_bytes};
ghost use Rattle.std.specs.Fmt.{decimal};
ghost use Rattle.std.specs.List.{list_all};
ghost use Rattle.std.specs.Str.{bytes_eq};
ghost use Rattle.qq_tool.specs.Command.{single as single_of, is_bit, outcomes_in, number_in, run_of as run_in, command_of as command_in};
ghost use Rattle.qq_tool.specs.Reading.{Gives};
ghost use Rattle.qq_tool.specs.Tasks.{task_of, bits_of};

use itoa::Buffer;

/// What is done with a source text.
#[derive(Clone, Copy, Debug, PartialEq, Eq)]
pub enum SourceTask {
    /// Its QIR text is written.
    Compile,
    /// Only whether it is accepted is written.
    Check,
}

/// What is done with a QIR text.
#[derive(Clone, Copy)]
pub enum ModuleTask<'a> {
    /// Whether it passes is written.
    Verify,
    /// Its run is written, for these outcomes, a digit each, and so many turns.
    Run { outcomes: &'a [u8], turns: u32 },
}

/// What the program is asked to do.
#[derive(Clone, Copy)]
pub enum Command<'a> {
    Source(SourceTask),
    Module(ModuleTask<'a>),
}

/// The greatest number of outcomes, and of turns.
const MOST_OUTCOMES: usize = 65_536;

const MOST_TURNS: u32 = 1_000_000;

/// Whether all are the digits 0 and 1.
fn are_bits(digits: &[u8]) -> bool
    ensures { result ≡ list_all is_bit digits.now }
{
    digits.iter().all(|digit| *digit >= b'0' && *digit <= b'1')
}

/// The digits of the outcomes of a word: none for a dash, or the word itself.
fn outcomes_of(word: &str) -> Option<&[u8]>
    ensures { Gives (λ digits. bits_of digits.now) result (outcomes_in word.now) }
{
    if word == "-" {
        return Some(&[]);
    }
    let digits = word.as_bytes();
    if digits.is_empty() || digits.len() > MOST_OUTCOMES {
        return None;
    }
    if are_bits(digits) { Some(digits) } else { None }
}

/// Whether a word is a number in decimal.
fn is_decimal(word: &str, number: u32) -> bool
    ensures { result ≡ bytes_eq word.now (decimal number) }
{
    let mut buffer = Buffer::new();
    word == buffer.format(number)
}

/// The number that a word is in decimal digits, without sign or leading zero, where it is at most so large.
fn number_of(most: u32, word: &str) -> Option<u32>
    ensures { result ≡ number_in most word.now }
{
    match word.parse::<u32>() {
        Err(_) => None,
        Ok(number) => {
            if number > most {
                return None;
            }
            if is_decimal(word, number) {
                Some(number)
            } else {
                None
            }
        }
    }
}

/// The command of one word.
fn single<'a>(word: &str) -> Option<Command<'a>>
    ensures { Gives task_of result (single_of word.now) }
{
    match word {
        "compile" => Some(Command::Source(SourceTask::Compile)),
        "check" => Some(Command::Source(SourceTask::Check)),
        "verify" => Some(Command::Module(ModuleTask::Verify)),
        _ => None,
    }
}

/// The run for the outcomes and turns of two words.
fn run_of<'a>(outcomes: &'a str, turns: &str) -> Option<Command<'a>>
    ensures { Gives task_of result (run_in (outcomes_in outcomes.now) (number_in MOST_TURNS turns.now)) }
{
    let outcomes = outcomes_of(outcomes)?;
    let turns = number_of(MOST_TURNS, turns)?;
    Some(Command::Module(ModuleTask::Run { outcomes, turns }))
}

/// The command that the words name, if any.
pub fn command_of(words: &[String]) -> Option<Command<'_>>
    ensures { Gives task_of result (command_in (map string_bytes words.now)) }
{
    match words {
        [word] => single(word.as_str()),
        [word, outcomes, turns] if word.as_str() == "run" => run_of(
            outcomes.as_str(),
            turns.as_str(),
        ),
        _ => None,
    }
}
