//! The lowering of a thin program to a module of one block: its lines as calls, each measurement with the
//! reading of its result right behind it, and then the records of its bits.

ghost use Rattle.std.specs.Prelude.{◌≡◌, ◌+◌, ◌<◌, ◌^◌, suc, [], ◌∷◌, ◌++◌, IfOk, OnOk, length, replicate, pos, codes};
ghost use Rattle.std.specs.List.{list_any};
ghost use Rattle.qq_tool.specs.Thin.{bit_text};
ghost use Rattle.qq_tool.specs.ThinRun.{label_of, bit_labels};
ghost use Rattle.qq_tool.specs.Lowered.{function, line_instrs, count_behind, lines_instrs, lines_count, operands_behind, lines_operands, record_instrs, is_hadamard, is_not, is_controlled_not, is_measure, declared_if, declared_by};
ghost use Rattle.qq_tool.specs.Compiled.{Implements};

use crate::thin::{ThinLine, ThinProgram};
use qir_module::{Arg, Block, Function, Instr, Last, Module, Operand, Profile, Sequence};
use qq_base::{Label, NoMemory};
use std::alloc::Global;

/// The module of one block that does what the program does and keeps every rule of the profile. Its
/// declarations are the functions that it calls, and its only error is want of memory.
pub fn lower_thin(alloc: Global, program: &ThinProgram) -> Result<Module, NoMemory>
    ensures { IfOk result (λ m. Implements m program.now) }
{
    let lines = program.lines.as_slice();
    let mut draft = Draft::new(alloc, program.bits)?;
    draft.add_lines(alloc, lines)?;
    let results = draft.measured;
    let block = draft.finish(alloc)?;
    Ok(Module {
        labels: labels(alloc, program.bits)?,
        blocks: one(alloc, block)?,
        declarations: declarations(alloc, lines)?,
        profile: Profile::Adaptive,
        qubits: program.qubits,
        results,
        major: 2,
        minor: 0,
        dynamic_qubits: false,
        dynamic_results: false,
    })
}

/// What is written so far: the instructions, the operand of each bit and the number of measurements.
#[derive(Drop)]
struct Draft {
    body: Vec<Instr>,
    operands: Vec<Operand>,
    measured: u32,
}

impl Draft {
    /// The start of the block, with all bits 0.
    fn new(alloc: Global, bits: u32) -> Result<Draft, NoMemory>
        ensures body { IfOk result (λ d. d.body.items ≡ Instr.Call None (function 0) (Arg.Id 0 ∷ []) ∷ []) }
        ensures operands { IfOk result (λ d. d.operands.items ≡ replicate bits (Operand.Fixed (pos 0))) }
        ensures measured { IfOk result (λ d. d.measured ≡ 0) }
    {
        let mut body = Vec::new(alloc);
        push_call(alloc, &mut body, None, Function::INITIALIZE, &[Arg::Id(0)])?;
        Ok(Draft {
            body,
            operands: vec![in alloc; Operand::Fixed(0); bits as usize]?,
            measured: 0,
        })
    }

    fn add_lines(&mut self, alloc: Global, lines: &[ThinLine]) -> Result<(), NoMemory>
        requires room { self.old.measured + length lines.now < 2 ^ 32 }
        ensures body { OnOk result (self.new.body.items ≡ self.old.body.items ++ lines_instrs self.old.measured lines.now) }
        ensures operands { OnOk result (self.new.operands.items ≡ lines_operands self.old.measured lines.now self.old.operands.items) }
        ensures measured { OnOk result (self.new.measured ≡ lines_count self.old.measured lines.now) }
    {
        for line in lines {
            self.add_line(alloc, *line)?;
        }
        Ok(())
    }

    fn add_line(&mut self, alloc: Global, line: ThinLine) -> Result<(), NoMemory>
        requires room { self.old.measured + 1 < 2 ^ 32 }
        ensures body { OnOk result (self.new.body.items ≡ self.old.body.items ++ line_instrs self.old.measured line) }
        ensures operands { OnOk result (self.new.operands.items ≡ operands_behind self.old.measured line self.old.operands.items) }
        ensures measured { OnOk result (self.new.measured ≡ count_behind self.old.measured line) }
    {
        let body = &mut self.body;
        match line {
            ThinLine::Hadamard { qubit } => {
                push_call(alloc, body, None, Function::H, &[Arg::Id(qubit)])
            }
            ThinLine::Not { qubit } => push_call(alloc, body, None, Function::X, &[Arg::Id(qubit)]),
            ThinLine::ControlledNot { control, target } => push_call(
                alloc,
                body,
                None,
                Function::CX,
                &[Arg::Id(control), Arg::Id(target)],
            ),
            ThinLine::Measure { qubit, bit } => self.add_measurement(alloc, qubit, bit),
        }
    }

    /// A measurement, the reading of its result, and its bit's new operand.
    fn add_measurement(&mut self, alloc: Global, qubit: u32, bit: u32) -> Result<(), NoMemory>
        requires room { self.old.measured + 1 < 2 ^ 32 }
        ensures body { OnOk result (self.new.body.items ≡ self.old.body.items ++ line_instrs self.old.measured (ThinLine.Measure qubit bit)) }
        ensures operands { OnOk result (self.new.operands.items ≡ operands_behind self.old.measured (ThinLine.Measure qubit bit) self.old.operands.items) }
        ensures measured { OnOk result (self.new.measured ≡ suc self.old.measured) }
    {
        let result = self.measured;
        let body = &mut self.body;
        push_call(
            alloc,
            body,
            None,
            Function::MZ,
            &[Arg::Id(qubit), Arg::Id(result)],
        )?;
        push_call(
            alloc,
            body,
            Some(result),
            Function::READ_RESULT,
            &[Arg::Id(result)],
        )?;
        // A program's lines keep to its registers, so that each bit has its operand.
        if (bit as usize) < self.operands.len() {
            self.operands[bit as usize] = Operand::Register(result);
        }
        self.measured += 1;
        Ok(())
    }

    /// The block, with the records of the bits at its end.
    fn finish(self, alloc: Global) -> Result<Block, NoMemory>
        requires { length self.operands.items < 2 ^ 31 }
        ensures { IfOk result (λ b. b ≡ record { name = 0; phis = []; body = self.body.items ++ record_instrs self.operands.items; last = Last.Return (pos 0) }) }
    {
        let Draft {
            mut body,
            operands,
            ..
        } = self;
        add_records(alloc, &mut body, operands.as_slice())?;
        Ok(Block {
            name: 0,
            phis: Sequence {
                items: Vec::new(alloc),
            },
            body: Sequence { items: body },
            last: Last::Return(0),
        })
    }
}

/// The record of the array's size, and that of each bit.
fn add_records(alloc: Global, body: &mut Vec<Instr>, operands: &[Operand]) -> Result<(), NoMemory>
    requires { length operands.now < 2 ^ 31 }
    ensures { OnOk result (body.new.items ≡ body.old.items ++ record_instrs operands.now) }
{
    let size = Arg::Number(Operand::Fixed(operands.len() as i64));
    push_call(
        alloc,
        body,
        None,
        Function::ARRAY_RECORD_OUTPUT,
        &[size, Arg::Text(0)],
    )?;
    let mut label = 1;
    for operand in operands {
        let args = [Arg::Truth(*operand), Arg::Text(label)];
        push_call(alloc, body, None, Function::BOOL_RECORD_OUTPUT, &args)?;
        label += 1;
    }
    Ok(())
}

/// One more call, with the register that takes its value where it gives one.
fn push_call(
    alloc: Global,
    body: &mut Vec<Instr>,
    register: Option<u32>,
    function: Function,
    args: &[Arg],
) -> Result<(), NoMemory>
    ensures { OnOk result (body.new.items ≡ body.old.items ++ Instr.Call register function args.now ∷ []) }
{
    let args = Sequence {
        items: Vec::from_slice(alloc, args)?,
    };
    body.push(Instr::Call {
        register,
        function,
        args,
    })?;
    Ok(())
}

/// The label of the array, and then those of its bits.
fn labels(alloc: Global, bits: u32) -> Result<Sequence<Label>, NoMemory>
    ensures { IfOk result (λ ls. ls ≡ label_of (codes "c") ∷ bit_labels 0 bits) }
{
    let array = Label {
        items: Vec::from_slice(alloc, b"c\0")?,
    };
    let mut items = vec![in alloc; array]?;
    for bit in 0..bits {
        items.push(bit_label(alloc, bit)?)?;
    }
    Ok(Sequence { items })
}

fn bit_label(alloc: Global, bit: u32) -> Result<Label, NoMemory>
    ensures { IfOk result (λ l. l ≡ label_of (bit_text bit)) }
{
    let text = format!(in alloc; "c[{bit}]\0")?;
    Ok(Label {
        items: text.into_bytes(),
    })
}

/// The called functions, in the order of the table.
fn declarations(alloc: Global, lines: &[ThinLine]) -> Result<Sequence<Function>, NoMemory>
    ensures { IfOk result (λ fs. fs ≡ declared_by lines.now) }
{
    let measures = has_measure(lines);
    let negates = has_not(lines);
    let mixes = has_hadamard(lines);
    let controls = has_controlled_not(lines);
    let mut items = Vec::new(alloc);
    declare_if(&mut items, true, Function::INITIALIZE)?;
    declare_if(&mut items, measures, Function::READ_RESULT)?;
    declare_if(&mut items, true, Function::ARRAY_RECORD_OUTPUT)?;
    declare_if(&mut items, true, Function::BOOL_RECORD_OUTPUT)?;
    declare_if(&mut items, measures, Function::MZ)?;
    declare_if(&mut items, negates, Function::X)?;
    declare_if(&mut items, mixes, Function::H)?;
    declare_if(&mut items, controls, Function::CX)?;
    Ok(Sequence { items })
}

fn has_measure(lines: &[ThinLine]) -> bool
    ensures { result ≡ list_any is_measure lines.now }
{
    lines
        .iter()
        .any(|line| matches!(line, ThinLine::Measure { .. }))
}

fn has_not(lines: &[ThinLine]) -> bool
    ensures { result ≡ list_any is_not lines.now }
{
    lines
        .iter()
        .any(|line| matches!(line, ThinLine::Not { .. }))
}

fn has_hadamard(lines: &[ThinLine]) -> bool
    ensures { result ≡ list_any is_hadamard lines.now }
{
    lines
        .iter()
        .any(|line| matches!(line, ThinLine::Hadamard { .. }))
}

fn has_controlled_not(lines: &[ThinLine]) -> bool
    ensures { result ≡ list_any is_controlled_not lines.now }
{
    lines
        .iter()
        .any(|line| matches!(line, ThinLine::ControlledNot { .. }))
}

fn declare_if(
    functions: &mut Vec<Function>,
    called: bool,
    function: Function,
) -> Result<(), NoMemory>
    ensures { OnOk result (functions.new.items ≡ functions.old.items ++ declared_if called function.0) }
{
    if called {
        functions.push(function)?;
    }
    Ok(())
}

/// A list of one item.
fn one<T: Drop>(alloc: Global, item: T) -> Result<Sequence<T>, NoMemory>
    ensures { IfOk result (λ s. s ≡ item ∷ []) }
{
    let mut items = Vec::new(alloc);
    items.push(item)?;
    Ok(Sequence { items })
}
