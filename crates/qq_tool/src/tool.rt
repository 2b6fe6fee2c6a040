//! The top call.

ghost use Rattle.std.specs.Prelude.{◌≡◌, ◌≢◌, ◌≤◌, List, ℕ, length, map, Some, IsNone, IfOk, string_bytes};
ghost use Rattle.qir_module.specs.Module.{Module};
ghost use Rattle.qir_module.specs.Passes.{Passes};
ghost use Rattle.qq_base.specs.declared.refusal.Refusal.{Refusal};
ghost use Rattle.qq_tool.specs.declared.status.Status.{Status};
ghost use Rattle.qq_tool.specs.Answer.{change, Tells, Writes, IsAnswer, IsStatusOf};
ghost use Rattle.qq_tool.specs.Command.{Command as CommandOf, Compile, command_of as command_in, input_limit, TakesSource, TakesModule};
ghost use Rattle.qq_tool.specs.Due.{Due, DueOfSource, DueOfModule};
ghost use Rattle.qq_tool.specs.Headline.{IsSound, Headline};
ghost use Rattle.qq_tool.specs.QirRefused.{IsQirRefused, IsPassing};
ghost use Rattle.qq_tool.specs.Refused.{IsRefused, refusal_line};
ghost use Rattle.qq_tool.specs.Status.{code_of};
ghost use Rattle.qq_tool.specs.Tasks.{task_of, module_command, text_of, shows_of, too_long_line};
ghost use Rattle.qq_tool.specs.Thin.{IsThinText};
ghost use Rattle.qq_tool.specs.Told.{IsTold};
ghost use Rattle.qq_tool.specs.Verdict.{line_of};

use crate::check::{at_start, checked};
use crate::command::{Command, ModuleTask, SourceTask, command_of};
use crate::compile::compiled;
use crate::laws::passing_texts_are_not_refused;
use crate::refusal_text::refusal_text;
use crate::run::show_run;
use crate::status::Status;
use crate::tell::tell;
use crate::thin::ThinProgram;
use crate::verdict::{QirFault, QirRefusal, passing_module, qir_refusal_text};
use qasm_lexer::MOST_BYTES;
use qir_lexer::{MOST_BYTES as MOST_QIR_BYTES, TextRefusal, TextRule};
use qir_module::Module;
use qq_base::{Fault, NoMemory, Refusal, Rule, Span};
use qq_streams::{ReadAllFault, Sink, Source, read_all};
use std::alloc::Global;

/// The greatest number of bytes of a source text, and of a QIR text.
const SOURCE_LIMIT: u64 = MOST_BYTES as u64;

const QIR_LIMIT: u64 = MOST_QIR_BYTES as u64;

/// The refusal of a QIR text that is too long.
const TOO_LONG: TextRefusal = TextRefusal {
    rule: TextRule::TooLong,
    at: Span { line: 1, column: 1 },
};

/// Does what the words say: reads `input`, writes the text that is due on `out` and the reason of a refusal on
/// `err`, and answers the status. The commands so far are `compile`, from source text to QIR text; `check`, which
/// writes the line `ok` where `compile` writes QIR text; `verify`, which writes `ok` for a QIR text that passes; and
/// `run BITS TURNS`, which shows the run of such a text for outcomes and a number of turns.
///
/// | status | comes |
/// |---|---|
/// | 0 | with the whole text of the command on `out`, and nothing on `err` |
/// | 1 | exactly where the input is refused; its line is on `err`, and nothing on `out` |
/// | 2 | exactly where the words are no command; nothing is read, and `bad words` is on `err` |
/// | 3 | only where the count of faults of `input` rose in this call; nothing is written |
/// | 4 | only where the count of `out` or `err` rose in this call; each took a prefix of its due text |
/// | 5 | for want of memory, never where the words are no command; nothing is written |
/// | 7 | exactly where the run stands before a measurement with no outcome left; it is shown on `out` |
/// | 8 | exactly where the run stands at the end of a loop's body with no turn left; it is shown on `out` |
///
/// Each "exactly where" yields to 3, 4 and 5. At 0, 1, 7 and 8 the input was read to its end, or, where it is
/// refused for its length, past its limit. `IsAnswer` of `specs/Answer.antt` has the whole clause, and
/// `Due` of `specs/Due.antt` what is due: for `compile` the canonical text of a module that runs exactly as
/// the source does, for `compile` and `check` the refusal of `IsRefused` in `specs/Refused.antt`, and for `verify` and
/// `run` that of `IsQirRefused` in `specs/QirRefused.antt`.
pub fn run_tool<S: Source, O: Sink, E: Sink>(
    alloc: Global,
    words: &[String],
    input: &mut S,
    out: &mut O,
    err: &mut E,
) -> u8
    ensures answer { (status : Status) × (result ≡ code_of status) × IsAnswer (command_in (map string_bytes words.now))
        (change (S.left input.old) (S.left input.new) (S.faults input.old) (S.faults input.new))
        (change (O.taken out.old) (O.taken out.new) (O.faults out.old) (O.faults out.new))
        (change (E.taken err.old) (E.taken err.new) (E.faults err.old) (E.faults err.new)) status }
    // The theorem: where no stream failed and memory was there, a source text is refused, or compiled into a module that
    // does what it does.
    ensures headline { command_in (map string_bytes words.now) ≡ Some Compile → (bytes : List ℕ) → S.left input.old ≡ Some bytes
        → IsSound (change (S.left input.old) (S.left input.new) (S.faults input.old) (S.faults input.new))
        (change (O.taken out.old) (O.taken out.new) (O.faults out.old) (O.faults out.new))
        (change (E.taken err.old) (E.taken err.new) (E.faults err.old) (E.faults err.new)) result
        → Headline bytes (change (S.left input.old) (S.left input.new) (S.faults input.old) (S.faults input.new))
        (change (O.taken out.old) (O.taken out.new) (O.faults out.old) (O.faults out.new))
        (change (E.taken err.old) (E.taken err.new) (E.faults err.old) (E.faults err.new)) result }
    // Words that name no command that reads leave the input as it was.
    ensures unread { IsNone (input_limit (command_in (map string_bytes words.now))) → input.new ≡ input.old }
    // No source text that is accepted is refused, and none that is refused is accepted.
    ensures accepted { (command : CommandOf) (bytes : List ℕ) → command_in (map string_bytes words.now) ≡ Some command → TakesSource command
        → S.left input.old ≡ Some bytes → IsThinText bytes → result ≢ 1 }
    ensures refused { (command : CommandOf) (bytes : List ℕ) (refusal : Refusal) → command_in (map string_bytes words.now) ≡ Some command → TakesSource command
        → S.left input.old ≡ Some bytes → IsRefused bytes refusal → result ≢ 0 }
    // No QIR text that passes is refused, and none that is refused passes or is run.
    ensures passing { (command : CommandOf) (bytes : List ℕ) (m : Module) → command_in (map string_bytes words.now) ≡ Some command → TakesModule command
        → S.left input.old ≡ Some bytes → IsPassing bytes m → result ≢ 1 }
    ensures broken { (command : CommandOf) (bytes : List ℕ) (line : List ℕ) → command_in (map string_bytes words.now) ≡ Some command → TakesModule command
        → S.left input.old ≡ Some bytes → IsQirRefused bytes line → (result ≢ 0) × (result ≢ 7) × (result ≢ 8) }
{
    passing_texts_are_not_refused();
    respond(alloc, words, input, out, err).code()
}

/// Does what the words say.
fn respond<S: Source, O: Sink, E: Sink>(
    alloc: Global,
    words: &[String],
    input: &mut S,
    out: &mut O,
    err: &mut E,
) -> Status
    ensures answer { IsAnswer (command_in (map string_bytes words.now))
        (change (S.left input.old) (S.left input.new) (S.faults input.old) (S.faults input.new))
        (change (O.taken out.old) (O.taken out.new) (O.faults out.old) (O.faults out.new))
        (change (E.taken err.old) (E.taken err.new) (E.faults err.old) (E.faults err.new)) result }
    ensures unread { IsNone (input_limit (command_in (map string_bytes words.now))) → input.new ≡ input.old }
{
    match command_of(words) {
        None => tell(err, b"bad words\n", Status::BadWords),
        Some(command) => perform(alloc, command, input, out, err),
    }
}

/// How many bytes a command reads at most.
fn limit_of(command: Command<'_>) -> u64
    ensures { input_limit (Some (task_of command.entry)) ≡ Some result }
{
    match command {
        Command::Source(_) => SOURCE_LIMIT,
        Command::Module(_) => QIR_LIMIT,
    }
}

/// Does what a command says.
fn perform<S: Source, O: Sink, E: Sink>(
    alloc: Global,
    command: Command<'_>,
    input: &mut S,
    out: &mut O,
    err: &mut E,
) -> Status
    ensures { IsAnswer (Some (task_of command.entry))
        (change (S.left input.old) (S.left input.new) (S.faults input.old) (S.faults input.new))
        (change (O.taken out.old) (O.taken out.new) (O.faults out.old) (O.faults out.new))
        (change (E.taken err.old) (E.taken err.new) (E.faults err.old) (E.faults err.new)) result }
{
    match read_all(alloc, input, limit_of(command)) {
        Ok(bytes) => answer(alloc, command, &bytes, out, err),
        Err(ReadAllFault::TooLong) => report_length(alloc, command, err),
        Err(ReadAllFault::ReadFault) => Status::ReadFault,
        Err(ReadAllFault::Memory) => Status::OutOfMemory,
    }
}

/// Reports that an input is too long.
fn report_length<E: Sink>(alloc: Global, command: Command<'_>, err: &mut E) -> Status
    ensures { IsTold (λ status. status ≡ Status.Refused) (too_long_line (task_of command.entry))
        (change (E.taken err.old) (E.taken err.new) (E.faults err.old) (E.faults err.new)) result }
{
    match command {
        Command::Source(_) => report(alloc, at_start(Rule::InputTooLong), err),
        Command::Module(_) => report_module(alloc, QirRefusal::Text(TOO_LONG), err),
    }
}

/// Answers an input that was read to its end.
fn answer<O: Sink, E: Sink>(
    alloc: Global,
    command: Command<'_>,
    bytes: &[u8],
    out: &mut O,
    err: &mut E,
) -> Status
    requires { (most : ℕ) → input_limit (Some (task_of command)) ≡ Some most → length bytes.now ≤ most }
    ensures tells { Tells (Due (Some (task_of command.entry)) bytes.now)
        (change (O.taken out.old) (O.taken out.new) (O.faults out.old) (O.faults out.new))
        (change (E.taken err.old) (E.taken err.new) (E.faults err.old) (E.faults err.new)) result }
    ensures writes { Writes
        (change (O.taken out.old) (O.taken out.new) (O.faults out.old) (O.faults out.new))
        (change (E.taken err.old) (E.taken err.new) (E.faults err.old) (E.faults err.new)) result }
    ensures statuses { IsStatusOf (Some (task_of command.entry)) result × (result ≢ Status.ReadFault) }
{
    match command {
        Command::Source(task) => answer_source(alloc, task, bytes, out, err),
        Command::Module(task) => answer_module(alloc, task, bytes, out, err),
    }
}

/// Answers a source text.
fn answer_source<O: Sink, E: Sink>(
    alloc: Global,
    task: SourceTask,
    source: &[u8],
    out: &mut O,
    err: &mut E,
) -> Status
    requires { length source.now ≤ MOST_BYTES }
    ensures tells { Tells (DueOfSource (text_of task) source.now)
        (change (O.taken out.old) (O.taken out.new) (O.faults out.old) (O.faults out.new))
        (change (E.taken err.old) (E.taken err.new) (E.faults err.old) (E.faults err.new)) result }
    ensures writes { Writes
        (change (O.taken out.old) (O.taken out.new) (O.faults out.old) (O.faults out.new))
        (change (E.taken err.old) (E.taken err.new) (E.faults err.old) (E.faults err.new)) result }
    ensures statuses { (result ≢ Status.BadWords) × (result ≢ Status.Asked) × (result ≢ Status.Turning) × (result ≢ Status.ReadFault) }
{
    match checked(alloc, source) {
        Ok(program) => match output_of(alloc, task, &program) {
            Ok(text) => tell(out, &text, Status::Success),
            Err(NoMemory) => Status::OutOfMemory,
        },
        Err(Fault::Refused(refusal)) => report(alloc, refusal, err),
        Err(Fault::Memory) => Status::OutOfMemory,
    }
}

/// What is written on `out` for a program.
fn output_of(alloc: Global, task: SourceTask, program: &ThinProgram) -> Result<Vec<u8>, NoMemory>
    ensures { IfOk result (λ text. text_of task program.now text.items) }
{
    match task {
        SourceTask::Compile => compiled(alloc, program),
        SourceTask::Check => Ok(Vec::from_slice(alloc, b"ok\n")?),
    }
}

/// Answers a QIR text.
fn answer_module<O: Sink, E: Sink>(
    alloc: Global,
    task: ModuleTask<'_>,
    text: &[u8],
    out: &mut O,
    err: &mut E,
) -> Status
    requires { length text.now ≤ MOST_QIR_BYTES }
    ensures tells { Tells (DueOfModule (shows_of task.entry) text.now)
        (change (O.taken out.old) (O.taken out.new) (O.faults out.old) (O.faults out.new))
        (change (E.taken err.old) (E.taken err.new) (E.faults err.old) (E.faults err.new)) result }
    ensures writes { Writes
        (change (O.taken out.old) (O.taken out.new) (O.faults out.old) (O.faults out.new))
        (change (E.taken err.old) (E.taken err.new) (E.faults err.old) (E.faults err.new)) result }
    ensures statuses { IsStatusOf (Some (module_command task.entry)) result × (result ≢ Status.ReadFault) }
{
    match passing_module(alloc, text) {
        Ok(module) => output_module(alloc, task, &module, out),
        Err(QirFault::Refused(refusal)) => report_module(alloc, refusal, err),
        Err(QirFault::Memory) => Status::OutOfMemory,
    }
}

/// Writes on `out` what the task gives of a module.
fn output_module<O: Sink>(
    alloc: Global,
    task: ModuleTask<'_>,
    module: &Module,
    out: &mut O,
) -> Status
    requires { Passes «module».now }
    ensures { (text : List ℕ) × (due : Status) × shows_of task.entry «module».now due text
        × IsTold (λ status. shows_of task.entry «module».now status text) text
        (change (O.taken out.old) (O.taken out.new) (O.faults out.old) (O.faults out.new)) result }
{
    match task {
        ModuleTask::Verify => tell(out, b"ok\n", Status::Success),
        ModuleTask::Run { outcomes, turns } => show_run(alloc, module, outcomes, turns, out),
    }
}

/// Reports the refusal of a source text.
fn report<E: Sink>(alloc: Global, refusal: Refusal, err: &mut E) -> Status
    ensures { IsTold (λ status. status ≡ Status.Refused) (refusal_line refusal)
        (change (E.taken err.old) (E.taken err.new) (E.faults err.old) (E.faults err.new)) result }
{
    match refusal_text(alloc, refusal) {
        Ok(line) => tell(err, &line, Status::Refused),
        Err(NoMemory) => Status::OutOfMemory,
    }
}

/// Reports the refusal of a QIR text.
fn report_module<E: Sink>(alloc: Global, refusal: QirRefusal, err: &mut E) -> Status
    ensures { IsTold (λ status. status ≡ Status.Refused) (line_of refusal)
        (change (E.taken err.old) (E.taken err.new) (E.faults err.old) (E.faults err.new)) result }
{
    match qir_refusal_text(alloc, refusal) {
        Ok(line) => tell(err, &line, Status::Refused),
        Err(NoMemory) => Status::OutOfMemory,
    }
}
