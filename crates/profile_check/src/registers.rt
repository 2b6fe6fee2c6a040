//! The rules on registers: that each is assigned once, and used with the type that it is assigned with.

ghost use Rattle.std.specs.Prelude.{◌≡◌, ℕ, ◌+◌, ◌<◌, ◌^◌, ◌++◌, [], ◌∷◌, length, map, List, IfOk, None, nat_lt, Bool, true, false};
ghost use Rattle.std.specs.List.{list_all, flat_map};
ghost use Rattle.qir_module.specs.declared.instruction.Operand.{Operand as TheOperand};
ghost use Rattle.std.specs.Option.{option_to_list};
ghost use Rattle.qir_module.specs.Numbered.{registers_of};
ghost use Rattle.qir_module.specs.Spots.{ThePhi, TheInstr, TheLast, items_in};
ghost use Rattle.qir_module.specs.Passes.{item_registers, compares as compares_words, assigned_with, arg_operands, limits_kept, assigned_once_kept, operand_types_kept};
ghost use Rattle.qir_module.specs.Broken.{first_breach};
ghost use Rattle.profile_check.specs.Walk.{seen, item_of};
ghost use Rattle.profile_check.specs.Registers.{HasAll, HoldsAssigned, of_type, typed_in, operand_fits, operands_fit, in_sets, first_again as first_again_in};
ghost use Rattle.profile_check.specs.Visits.{placed_from};

use crate::item::Item;
use crate::place::Place;
use crate::visit::{Visit, visit_all};
use crate::walk::{Rule, first_refused};
use qir_module::{Arg, Block, Instr, Last, Module, Opcode, Operand};
use qq_base::NoMemory;
use std::alloc::Global;
use std::collections::HashSet;

/// The register that an instruction assigns, if any.
pub(crate) fn register_of(instr: &Instr) -> Option<u32>
    ensures { option_to_list result ≡ registers_of instr.now }
{
    match instr {
        Instr::Op { register, .. }
        | Instr::Zext { register, .. }
        | Instr::Trunc { register, .. }
        | Instr::Select { register, .. } => Some(*register),
        Instr::Call { register, .. } => *register,
    }
}

/// The register that an item assigns, if any.
pub(crate) fn register_in(it: Item<'_>) -> Option<u32>
    ensures { option_to_list result ≡ item_registers (item_of it.entry) }
{
    match it {
        Item::Phi(phi) => Some(phi.register),
        Item::Instr(instr) => register_of(instr),
        Item::Last(_) => None,
    }
}

/// The registers that were assigned, up to the first that is assigned again.
#[derive(Drop)]
struct Assignments {
    assigned: HashSet<u32>,
    again: Option<Place>,
}

impl Visit for Assignments {
    ghost Holds = { λ v visited. HoldsAssigned v.assigned v.again visited };

    fn visit(&mut self, block: usize, item: usize, it: Item<'_>) -> Result<(), NoMemory> {
        if self.again.is_some() {
            return Ok(());
        }
        if let Some(register) = register_in(it) {
            if !self.assigned.insert(register)? {
                self.again = Some(Place { block, item });
            }
        }
        Ok(())
    }
}

/// The first item that assigns a register again.
fn first_again(alloc: Global, blocks: &[Block]) -> Result<Option<Place>, NoMemory>
    ensures { IfOk result (λ found. seen found ≡ first_again_in [] (placed_from 0 blocks.now)) }
{
    let mut assignments = Assignments {
        assigned: HashSet::new(alloc),
        again: None,
    };
    visit_all(&mut assignments, blocks)?;
    Ok(assignments.again)
}

#[tactic(auto, using(crate::proofs::RegisterLemmas::assigned_once_at))]
pub(crate) fn assigned_once(alloc: Global, module: &Module) -> Result<Option<Place>, NoMemory>
    ensures { IfOk result (λ found. seen found ≡ first_breach «module».now assigned_once_kept) }
{
    first_again(alloc, &module.blocks.items)
}

/// The register that an item assigns, if any, and whether it is a truth value.
fn typed_register(it: Item<'_>) -> Option<(u32, bool)>
    ensures { (truth : Bool) → of_type truth result ≡ assigned_with truth (item_of it.entry) }
{
    match it {
        Item::Phi(phi) => Some((phi.register, !phi.number)),
        Item::Instr(instr) => match instr {
            Instr::Op {
                register,
                op,
                truth,
                ..
            } => Some((*register, *truth || compares(*op))),
            Instr::Zext { register, .. } => Some((*register, false)),
            Instr::Trunc { register, .. } => Some((*register, true)),
            Instr::Select {
                register,
                truth,
                ..
            } => Some((*register, *truth)),
            Instr::Call { register, .. } => match register {
                Some(register) => Some((*register, true)),
                None => None,
            },
        },
        Item::Last(_) => None,
    }
}

/// Whether an instruction compares words.
fn compares(op: Opcode) -> bool
    ensures { result ≡ compares_words op }
{
    match op {
        Opcode::Eq
        | Opcode::Ne
        | Opcode::Slt
        | Opcode::Sle
        | Opcode::Sgt
        | Opcode::Sge
        | Opcode::Ult
        | Opcode::Ule
        | Opcode::Ugt
        | Opcode::Uge => true,
        _ => false,
    }
}

/// The registers that are assigned as words, and those that are assigned as truth values.
#[derive(Drop)]
struct Types {
    words: HashSet<u32>,
    truths: HashSet<u32>,
}

impl Visit for Types {
    ghost Holds = { λ v visited. HasAll v.words (typed_in false visited) × HasAll v.truths (typed_in true visited) };

    fn visit(&mut self, _block: usize, _item: usize, it: Item<'_>) -> Result<(), NoMemory> {
        match typed_register(it) {
            Some((register, true)) => {
                self.truths.insert(register)?;
            }
            Some((register, false)) => {
                self.words.insert(register)?;
            }
            None => {}
        }
        Ok(())
    }
}

/// The types of all registers.
fn type_sets(alloc: Global, blocks: &[Block]) -> Result<Types, NoMemory>
    ensures words { IfOk result (λ types. HasAll types.words (typed_in false (placed_from 0 blocks.now))) }
    ensures truths { IfOk result (λ types. HasAll types.truths (typed_in true (placed_from 0 blocks.now))) }
{
    let mut types = Types {
        words: HashSet::new(alloc),
        truths: HashSet::new(alloc),
    };
    visit_all(&mut types, blocks)?;
    Ok(types)
}

impl Types {
    /// Whether an operand is fixed, or a register that has a type.
    fn fits(&self, operand: Operand, truth: bool) -> bool
        ensures { result ≡ operand_fits (in_sets self.now.words self.now.truths) operand truth }
    {
        match operand {
            Operand::Register(register) => {
                if truth {
                    self.truths.contains(&register)
                } else {
                    self.words.contains(&register)
                }
            }
            Operand::Fixed(value) => !truth || value == 0 || value == 1,
        }
    }

    /// Whether what a phi may take has its type.
    fn fit_entries(&self, entries: &[(Operand, u32)], truth: bool) -> bool
        ensures { result ≡ list_all (λ (o : TheOperand × Bool). operand_fits (in_sets self.now.words self.now.truths) o.0 o.1)
            (map (λ (e : TheOperand × ℕ). (e.0, truth)) entries.now) }
    {
        for (operand, _) in entries {
            if !self.fits(*operand, truth) {
                return false;
            }
        }
        true
    }

    /// Whether the arguments of a call have their types.
    fn fit_args(&self, args: &[Arg]) -> bool
        ensures { result ≡ list_all (λ (o : TheOperand × Bool). operand_fits (in_sets self.now.words self.now.truths) o.0 o.1)
            (flat_map arg_operands args.now) }
    {
        for arg in args {
            let fits = match *arg {
                Arg::Number(operand) => self.fits(operand, false),
                Arg::Truth(operand) => self.fits(operand, true),
                Arg::Id(_) | Arg::Text(_) => true,
            };
            if !fits {
                return false;
            }
        }
        true
    }
}

impl Rule for Types {
    ghost keeps = { λ r. operands_fit (in_sets r.words r.truths) };

    #[tactic(auto, unfolding(crate::specs::Registers::operands_fit))]
    fn is_kept(&self, _block: usize, _item: usize, it: Item<'_>) -> bool {
        match it {
            Item::Phi(phi) => self.fit_entries(&phi.entries.items, !phi.number),
            Item::Instr(instr) => match instr {
                Instr::Op {
                    truth,
                    left,
                    right,
                    ..
                } => self.fits(*left, *truth) && self.fits(*right, *truth),
                Instr::Zext { from, .. } => self.fits(*from, true),
                Instr::Trunc { from, .. } => self.fits(*from, false),
                Instr::Select {
                    truth,
                    test,
                    yes,
                    no,
                    ..
                } => self.fits(*test, true) && self.fits(*yes, *truth) && self.fits(*no, *truth),
                Instr::Call { args, .. } => self.fit_args(&args.items),
            },
            Item::Last(Last::Branch(test, ..)) => self.fits(test, true),
            Item::Last(_) => true,
        }
    }
}

/// Registers are below 2^23.
#[derive(Clone, Copy)]
struct RegistersSmall;

/// Whether a register's number is small enough.
fn is_small(register: u32) -> bool
    ensures { result ≡ nat_lt register 8_388_608 }
{
    register < 8_388_608
}

impl Rule for RegistersSmall {
    ghost keeps = { λ r b i item. list_all (λ n. nat_lt n 8_388_608) (item_registers item) };

    fn is_kept(&self, _block: usize, _item: usize, it: Item<'_>) -> bool {
        match it {
            Item::Phi(phi) => is_small(phi.register),
            Item::Instr(instr) => match register_of(instr) {
                Some(register) => is_small(register),
                None => true,
            },
            Item::Last(_) => true,
        }
    }
}

#[tactic(auto, using(crate::proofs::Heads::limits_at))]
pub(crate) fn limits(module: &Module) -> Option<Place>
    ensures { seen result ≡ first_breach «module».now limits_kept }
{
    if module.blocks.items.len() <= 16_384
        && module.labels.items.len() <= 16_384
        && module.qubits <= 1_024
        && module.results <= 1_048_576
    {
        first_refused(&RegistersSmall, &module.blocks.items)
    } else {
        Some(Place::FIRST)
    }
}

#[tactic(auto, using(crate::proofs::RegisterLemmas::operand_types_at))]
pub(crate) fn operand_types(alloc: Global, module: &Module) -> Result<Option<Place>, NoMemory>
    ensures { IfOk result (λ found. seen found ≡ first_breach «module».now operand_types_kept) }
{
    let types = type_sets(alloc, &module.blocks.items)?;
    Ok(first_refused(&types, &module.blocks.items))
}
