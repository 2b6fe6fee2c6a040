//! What the items of a module say of its registers and of its results, gathered once.

ghost use Rattle.std.specs.Prelude.{◌≡◌, ℕ, ◌++◌, List, [], ◌∷◌, OnOk, IfOk, map, nat_eq, if◌then◌else◌, Some};
ghost use Rattle.std.specs.List.{flat_map};
ghost use Rattle.std.specs.Option.{option_to_list};
ghost use Rattle.qir_module.specs.Spots.{TheInstr};
ghost use Rattle.qir_module.specs.Passes.{instr_operands};
ghost use Rattle.profile_check.specs.Walk.{item_of};
ghost use Rattle.profile_check.specs.Visits.{placed_from};
ghost use Rattle.profile_check.specs.Mentions.{Registers, Results, Adds, AddsItem, HoldsMentions, numbers_in, operand_numbers, arg_numbers, taken_by, taken, read, assigned, latest_in, latest_behind, read_mention, read_mentions, taken_mentions, assigned_mention, assigned_mentions, mentions_of, only_id_in, second_id_in};

use crate::item::Item;
use crate::place::Place;
use crate::registers::register_in;
use crate::table::{is_measuring, is_reading};
use crate::visit::{Visit, visit_all};
use qir_module::{Arg, Block, Instr, Last, Operand};
use qq_base::NoMemory;
use std::alloc::Global;
use std::collections::HashMap;

/// How an item mentions a register or a result.
#[derive(Clone, Copy)]
pub(crate) enum How {
    /// It assigns it, as a measurement does with its result.
    Assigned,
    /// It reads it, and nothing in front of it in its block assigns it.
    Read,
    /// It is a phi that takes it from the block of a name.
    Entry(u32),
}

/// A register or a result that an item mentions.
#[derive(Clone, Copy)]
pub(crate) struct Mention {
    pub how: How,
    pub at: Place,
    pub number: u32,
}

/// The mentions of registers, or those of results, in the order of the text.
#[derive(Drop)]
pub(crate) struct Gathered {
    /// The last block that assigns each.
    latest: HashMap<u32, usize>,
    pub mentions: Vec<Mention>,
}

impl Gathered {
    /// Nothing is gathered yet.
    fn new(alloc: Global) -> Self
        ensures registers { HoldsMentions Registers result [] }
        ensures results { HoldsMentions Results result [] }
    {
        Gathered {
            latest: HashMap::new(alloc),
            mentions: Vec::new(alloc),
        }
    }

    /// It is read, unless its block assigns it in front.
    fn read(&mut self, at: Place, number: u32) -> Result<(), NoMemory>
        ensures { OnOk result (Adds self.old self.new (read_mention (latest_in self.old) at number)) }
    {
        if self.latest.get(&number).copied() != Some(at.block) {
            self.mentions.push(Mention {
                how: How::Read,
                at,
                number,
            })?;
        }
        Ok(())
    }

    /// An operand is read.
    fn read_operand(&mut self, at: Place, operand: Operand) -> Result<(), NoMemory>
        ensures { OnOk result (Adds self.old self.new (read_mentions (latest_in self.old) at (numbers_in operand))) }
    {
        match operand {
            Operand::Register(number) => self.read(at, number),
            Operand::Fixed(_) => Ok(()),
        }
    }

    /// An argument of a call is read.
    fn read_arg(&mut self, at: Place, arg: Arg) -> Result<(), NoMemory>
        ensures { OnOk result (Adds self.old self.new (read_mentions (latest_in self.old) at (arg_numbers arg))) }
    {
        match arg {
            Arg::Number(operand) | Arg::Truth(operand) => self.read_operand(at, operand),
            Arg::Id(_) | Arg::Text(_) => Ok(()),
        }
    }

    /// The arguments of a call are read.
    fn read_args(&mut self, at: Place, args: &[Arg]) -> Result<(), NoMemory>
        ensures { OnOk result (Adds self.old self.new (read_mentions (latest_in self.old) at (flat_map arg_numbers args.now))) }
    {
        for arg in args {
            self.read_arg(at, *arg)?;
        }
        Ok(())
    }

    /// Two operands are read.
    fn read_both(&mut self, at: Place, left: Operand, right: Operand) -> Result<(), NoMemory>
        ensures { OnOk result (Adds self.old self.new (read_mentions (latest_in self.old) at (numbers_in left ++ numbers_in right))) }
    {
        self.read_operand(at, left)?;
        self.read_operand(at, right)
    }

    /// The operands of an instruction are read.
    #[tactic(auto, using(crate::proofs::MentionLemmas::numbers_of_args))]
    fn read_instr(&mut self, at: Place, instr: &Instr) -> Result<(), NoMemory>
        ensures { OnOk result (Adds self.old self.new (read_mentions (latest_in self.old) at (operand_numbers (instr_operands instr.now)))) }
    {
        match instr {
            Instr::Op { left, right, .. } => self.read_both(at, *left, *right),
            Instr::Zext { from, .. } | Instr::Trunc { from, .. } => self.read_operand(at, *from),
            Instr::Select { test, yes, no, .. } => {
                self.read_operand(at, *test)?;
                self.read_both(at, *yes, *no)
            }
            Instr::Call { args, .. } => self.read_args(at, &args.items),
        }
    }

    /// The registers that an item other than a phi reads.
    fn read_registers(&mut self, at: Place, it: Item<'_>) -> Result<(), NoMemory>
        ensures { OnOk result (Adds self.old self.new (read_mentions (latest_in self.old) at (read Registers (item_of it.entry)))) }
    {
        match it {
            Item::Instr(instr) => self.read_instr(at, instr),
            Item::Last(Last::Branch(test, ..)) => self.read_operand(at, test),
            Item::Phi(_) | Item::Last(_) => Ok(()),
        }
    }

    /// An operand is taken from the block of a name.
    fn take_operand(&mut self, at: Place, operand: Operand, name: u32) -> Result<(), NoMemory>
        ensures { OnOk result (Adds self.old self.new (taken_mentions at (taken_by (operand, name)))) }
    {
        if let Operand::Register(number) = operand {
            let how = How::Entry(name);
            self.mentions.push(Mention { how, at, number })?;
        }
        Ok(())
    }

    /// The entries of a phi are taken.
    fn take_entries(&mut self, at: Place, entries: &[(Operand, u32)]) -> Result<(), NoMemory>
        ensures { OnOk result (Adds self.old self.new (taken_mentions at (flat_map taken_by entries.now))) }
    {
        for (operand, name) in entries {
            self.take_operand(at, *operand, *name)?;
        }
        Ok(())
    }

    /// What a phi takes.
    fn take(&mut self, at: Place, it: Item<'_>) -> Result<(), NoMemory>
        ensures { OnOk result (Adds self.old self.new (taken_mentions at (taken Registers (item_of it.entry)))) }
    {
        match it {
            Item::Phi(phi) => self.take_entries(at, &phi.entries.items),
            Item::Instr(_) | Item::Last(_) => Ok(()),
        }
    }

    /// One is read, if there is one.
    fn read_if(&mut self, at: Place, number: Option<u32>) -> Result<(), NoMemory>
        ensures { OnOk result (Adds self.old self.new (read_mentions (latest_in self.old) at (option_to_list number))) }
    {
        match number {
            Some(number) => self.read(at, number),
            None => Ok(()),
        }
    }

    /// One is assigned, if there is one.
    fn assign_if(&mut self, at: Place, number: Option<u32>) -> Result<(), NoMemory>
        ensures mentions { OnOk result (self.new.mentions.items ≡ self.old.mentions.items ++ assigned_mentions at (option_to_list number)) }
        ensures latest { OnOk result ((n : ℕ) → latest_in self.new n ≡ latest_behind (option_to_list number) (latest_in self.old) at.block n) }
    {
        if let Some(number) = number {
            let how = How::Assigned;
            self.mentions.push(Mention { how, at, number })?;
            self.latest.insert(number, at.block)?;
        }
        Ok(())
    }
}

/// The id of a call that has one argument.
fn only_id(args: &[Arg]) -> Option<u32>
    ensures { option_to_list result ≡ only_id_in args.now }
{
    match args {
        [Arg::Id(number)] => Some(*number),
        _ => None,
    }
}

/// The second id of a call that has two.
fn second_id(args: &[Arg]) -> Option<u32>
    ensures { option_to_list result ≡ second_id_in args.now }
{
    match args {
        [Arg::Id(_), Arg::Id(number)] => Some(*number),
        _ => None,
    }
}

/// The result that an item reads, if any.
#[tactic(auto, using(crate::proofs::MentionLemmas::read_by_is))]
fn result_read(it: Item<'_>) -> Option<u32>
    ensures { option_to_list result ≡ read Results (item_of it.entry) }
{
    match it {
        Item::Instr(Instr::Call { function, args, .. }) => {
            if is_reading(*function) {
                only_id(&args.items)
            } else {
                None
            }
        }
        _ => None,
    }
}

/// The result that an item measures into, if any.
#[tactic(auto, using(crate::proofs::MentionLemmas::measured_by_is))]
fn result_measured(it: Item<'_>) -> Option<u32>
    ensures { option_to_list result ≡ assigned Results (item_of it.entry) }
{
    match it {
        Item::Instr(Instr::Call { function, args, .. }) => {
            if is_measuring(*function) {
                second_id(&args.items)
            } else {
                None
            }
        }
        _ => None,
    }
}

/// Gathers what an item says of registers.
#[tactic(auto, using(crate::proofs::MentionLemmas::adds_item))]
fn gather_registers(gathered: &mut Gathered, at: Place, it: Item<'_>) -> Result<(), NoMemory>
    ensures { OnOk result (AddsItem Registers gathered.old gathered.new at (item_of it.entry)) }
{
    gathered.read_registers(at, it)?;
    gathered.take(at, it)?;
    gathered.assign_if(at, register_in(it))
}

/// Gathers what an item says of results.
#[tactic(auto, using(crate::proofs::MentionLemmas::adds_item))]
fn gather_results(gathered: &mut Gathered, at: Place, it: Item<'_>) -> Result<(), NoMemory>
    ensures { OnOk result (AddsItem Results gathered.old gathered.new at (item_of it.entry)) }
{
    gathered.read_if(at, result_read(it))?;
    gathered.assign_if(at, result_measured(it))
}

/// The mentions of registers and those of results.
#[derive(Drop)]
pub(crate) struct AllMentions {
    pub registers: Gathered,
    pub results: Gathered,
}

impl Visit for AllMentions {
    ghost Holds = { λ v visited. HoldsMentions Registers v.registers visited × HoldsMentions Results v.results visited };

    fn visit(&mut self, block: usize, item: usize, it: Item<'_>) -> Result<(), NoMemory> {
        let at = Place { block, item };
        gather_registers(&mut self.registers, at, it)?;
        gather_results(&mut self.results, at, it)
    }
}

/// All mentions of some blocks.
pub(crate) fn gather(alloc: Global, blocks: &[Block]) -> Result<AllMentions, NoMemory>
    ensures registers { IfOk result (λ m. m.registers.mentions.items ≡ mentions_of Registers (placed_from 0 blocks.now)) }
    ensures results { IfOk result (λ m. m.results.mentions.items ≡ mentions_of Results (placed_from 0 blocks.now)) }
{
    let mut mentions = AllMentions {
        registers: Gathered::new(alloc),
        results: Gathered::new(alloc),
    };
    visit_all(&mut mentions, blocks)?;
    Ok(mentions)
}
