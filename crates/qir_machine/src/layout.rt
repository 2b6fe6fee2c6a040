//! What a run of a module needs: room in its tables, and the ways out of its blocks.

ghost use Rattle.std.specs.Prelude.{◌≡◌, ℕ, nat_eq, ◌≤◌, ◌<◌, ◌^◌, List, length, map, IfOk};
ghost use Rattle.std.specs.List.{AllByRecursion, flat_map};
ghost use Rattle.std.specs.HashMap.{get};
ghost use Rattle.qir_module.specs.declared.block.Block.{Block};
ghost use Rattle.qir_module.specs.declared.block.Phi.{Phi};
ghost use Rattle.qir_module.specs.Machine.{place_of};
ghost use Rattle.qir_machine.specs.Effect.{id_in, IsRoomFor};
ghost use Rattle.qir_machine.specs.Ready.{ways_of, IsRoomForBlock};
ghost use Rattle.qir_machine.specs.Layout.{IsWithin};

use crate::ways::Ways;
use qir_module::{Arg, Block, Function, Instr, Last, Phi};
use qq_base::NoMemory;
use std::alloc::Global;
use std::collections::HashMap;

/// So many registers, results and values of phis.
#[derive(Clone, Copy, Debug)]
pub struct Room {
    pub registers: usize,
    pub results: usize,
    pub phis: usize,
}

/// The greater of a bound and one more than a number.
fn above(bound: usize, number: u32) -> usize
    ensures grows { bound ≤ result }
    ensures above { number < result }
{
    let least = number as usize + 1;
    if bound < least { least } else { bound }
}

/// A bound that is above the id too, if the argument is one.
fn above_id(bound: usize, arg: Arg) -> usize
    ensures grows { bound ≤ result }
    ensures above { AllByRecursion (λ (k : ℕ). k < result) (id_in arg) }
{
    match arg {
        Arg::Id(id) => above(bound, id),
        _ => bound,
    }
}

/// A bound that is above all ids among the arguments of a call.
fn above_ids(bound: usize, args: &[Arg]) -> usize
    ensures grows { bound ≤ result }
    ensures above { AllByRecursion (λ (k : ℕ). k < result) (flat_map id_in args.now) }
{
    let mut least = bound;
    for arg in args {
        least = above_id(least, *arg);
    }
    least
}

/// Room for an instruction too.
fn with_instruction(room: Room, instr: &Instr) -> Room
    ensures grows { IsWithin room result }
    ensures enough { IsRoomFor result.registers result.results instr.now }
{
    let mut room = room;
    match instr {
        Instr::Op { register, .. }
        | Instr::Zext { register, .. }
        | Instr::Trunc { register, .. }
        | Instr::Select { register, .. } => {
            room.registers = above(room.registers, *register);
            room
        }
        Instr::Call {
            register,
            function,
            args,
        } => {
            if let Some(register) = register {
                room.registers = above(room.registers, *register);
            }
            if *function == Function::MZ {
                room.results = above_ids(room.results, &args.items);
            }
            room
        }
    }
}

/// Room for a list of instructions too.
fn with_body(room: Room, body: &[Instr]) -> Room
    ensures grows { IsWithin room result }
    ensures enough { AllByRecursion (IsRoomFor result.registers result.results) body.now }
{
    let mut all = room;
    for instr in body {
        all = with_instruction(all, instr);
    }
    all
}

/// Room for phis too.
fn with_phis(room: Room, phis: &[Phi]) -> Room
    ensures grows { IsWithin room result }
    ensures registers { AllByRecursion (λ (p : Phi). p.register < result.registers) phis.now }
    ensures buffer { length phis.now ≤ result.phis }
{
    let mut registers = room.registers;
    for phi in phis {
        registers = above(registers, phi.register);
    }
    Room {
        registers,
        results: room.results,
        phis: room.phis.max(phis.len()),
    }
}

/// Room for a block too.
fn with_block(room: Room, block: &Block) -> Room
    ensures grows { IsWithin room result }
    ensures enough { IsRoomForBlock result.registers result.results result.phis block.now }
{
    with_body(with_phis(room, &block.phis.items), &block.body.items)
}

/// Room for blocks.
pub fn room_for(blocks: &[Block]) -> Room
    ensures { AllByRecursion
        (IsRoomForBlock result.registers result.results result.phis) blocks.now }
{
    let mut all = Room {
        registers: 0,
        results: 0,
        phis: 0,
    };
    for block in blocks {
        all = with_block(all, block);
    }
    all
}

/// The place of the first block of each name.
fn find_places(alloc: Global, blocks: &[Block]) -> Result<HashMap<u32, u32>, NoMemory>
    requires { length blocks.now < 2 ^ 32 }
    ensures { IfOk result (λ places. (name : ℕ) → get nat_eq places name ≡ place_of blocks.now name) }
{
    let mut places = HashMap::new(alloc);
    for place in (0..blocks.len()).rev() {
        places.insert(blocks[place].name, place as u32)?;
    }
    Ok(places)
}

/// The ways that a last instruction names.
fn ways_by(places: &HashMap<u32, u32>, last: Last) -> Ways
    ensures { (blocks : List Block) → ((name : ℕ) → get nat_eq places.now name ≡ place_of blocks name)
        → result ≡ ways_of blocks last }
{
    match last {
        Last::Jump(to) => Ways {
            first: places.get(&to).copied(),
            second: None,
        },
        Last::Branch(_, first, second) => Ways {
            first: places.get(&first).copied(),
            second: places.get(&second).copied(),
        },
        Last::Return(_) => Ways {
            first: None,
            second: None,
        },
    }
}

/// The ways out of each block.
pub fn find_ways(alloc: Global, blocks: &[Block]) -> Result<Vec<Ways>, NoMemory>
    requires { length blocks.now < 2 ^ 32 }
    ensures { IfOk result (λ ways. ways.items ≡ map (λ (b : Block). ways_of blocks.now b.last) blocks.now) }
{
    let places = find_places(alloc, blocks)?;
    let mut ways = Vec::with_capacity(alloc, blocks.len())?;
    for block in blocks {
        ways.push(ways_by(&places, block.last))?;
    }
    Ok(ways)
}
