//! Instructions, their arguments, and the last instructions of blocks.

ghost use Rattle.std.specs.Prelude.{◌≡◌, ◌++◌, OnOk, codes, map};
ghost use Rattle.qir_module.specs.Text.{comma_joined};
ghost use Rattle.qir_module.specs.Written.{register_text, opcode_text, assigned_text, arg_text, instr_text, last_text, called_text, call_text, gives_text};

use crate::function::{function_name, gives_name};
use crate::number::write_signed;
use crate::operand::{
    write_comma, write_id, write_label_name, write_operand, write_register, write_target,
    write_typed,
};
use qir_module::{Arg, Function, Instr, Last, Opcode};
use qq_base::NoMemory;

/// The words of a binary instruction.
pub fn opcode_name(op: Opcode) -> &'static str
    ensures { result.now ≡ opcode_text op }
{
    match op {
        Opcode::Add => "add",
        Opcode::Sub => "sub",
        Opcode::Mul => "mul",
        Opcode::Sdiv => "sdiv",
        Opcode::Srem => "srem",
        Opcode::Udiv => "udiv",
        Opcode::Urem => "urem",
        Opcode::Shl => "shl",
        Opcode::Lshr => "lshr",
        Opcode::Ashr => "ashr",
        Opcode::And => "and",
        Opcode::Or => "or",
        Opcode::Xor => "xor",
        Opcode::Eq => "icmp eq",
        Opcode::Ne => "icmp ne",
        Opcode::Slt => "icmp slt",
        Opcode::Sle => "icmp sle",
        Opcode::Sgt => "icmp sgt",
        Opcode::Sge => "icmp sge",
        Opcode::Ult => "icmp ult",
        Opcode::Ule => "icmp ule",
        Opcode::Ugt => "icmp ugt",
        Opcode::Uge => "icmp uge",
    }
}

/// Appends the register that takes a value, and the equals sign.
pub fn write_assigned(out: &mut Vec<u8>, register: u32) -> Result<(), NoMemory>
    ensures { OnOk result (out.new.items ≡ out.old.items ++ register_text register ++ codes " = ") }
{
    write_register(out, register)?;
    out.extend_from_slice(b" = ")?;
    Ok(())
}

/// Appends an argument of a call.
fn write_arg(out: &mut Vec<u8>, arg: Arg) -> Result<(), NoMemory>
    ensures { OnOk result (out.new.items ≡ out.old.items ++ arg_text arg) }
{
    match arg {
        Arg::Number(operand) => write_typed(out, false, operand),
        Arg::Truth(operand) => write_typed(out, true, operand),
        Arg::Id(id) => {
            out.extend_from_slice(b"ptr ")?;
            write_id(out, id)
        }
        Arg::Text(label) => {
            out.extend_from_slice(b"ptr ")?;
            write_label_name(out, u64::from(label))
        }
    }
}

/// Appends the arguments of a call.
fn write_args(out: &mut Vec<u8>, args: &[Arg]) -> Result<(), NoMemory>
    ensures { OnOk result (out.new.items ≡ out.old.items ++ comma_joined (map arg_text args.now)) }
{
    for (index, arg) in args.iter().enumerate() {
        write_comma(out, index)?;
        write_arg(out, *arg)?;
    }
    Ok(())
}

/// Appends a call by whether it gives a truth value.
fn write_called(
    out: &mut Vec<u8>,
    gives: bool,
    function: Function,
    args: &[Arg],
) -> Result<(), NoMemory>
    ensures { OnOk result (out.new.items
        ≡ out.old.items ++ called_text (gives_text gives) function args.now) }
{
    out.extend_from_slice(b"call ")?;
    out.extend_from_slice(gives_name(gives).as_bytes())?;
    out.extend_from_slice(b" @")?;
    out.extend_from_slice(function_name(function).as_bytes())?;
    out.push(b'(')?;
    write_args(out, args)?;
    out.push(b')')?;
    Ok(())
}

/// Appends a call, behind the register that takes its truth value where it gives one.
fn write_call(
    out: &mut Vec<u8>,
    register: Option<u32>,
    function: Function,
    args: &[Arg],
) -> Result<(), NoMemory>
    ensures { OnOk result (out.new.items ≡ out.old.items ++ call_text register function args.now) }
{
    match register {
        None => write_called(out, false, function, args),
        Some(register) => {
            write_assigned(out, register)?;
            write_called(out, true, function, args)
        }
    }
}

/// Appends an instruction.
pub fn write_instr(out: &mut Vec<u8>, instr: &Instr) -> Result<(), NoMemory>
    ensures { OnOk result (out.new.items ≡ out.old.items ++ instr_text instr.now) }
{
    match instr {
        Instr::Op {
            register,
            op,
            truth,
            left,
            right,
        } => {
            write_assigned(out, *register)?;
            out.extend_from_slice(opcode_name(*op).as_bytes())?;
            out.push(b' ')?;
            write_typed(out, *truth, *left)?;
            out.extend_from_slice(b", ")?;
            write_operand(out, *truth, *right)
        }
        Instr::Zext { register, from } => {
            write_assigned(out, *register)?;
            out.extend_from_slice(b"zext ")?;
            write_typed(out, true, *from)?;
            out.extend_from_slice(b" to i64")?;
            Ok(())
        }
        Instr::Trunc { register, from } => {
            write_assigned(out, *register)?;
            out.extend_from_slice(b"trunc ")?;
            write_typed(out, false, *from)?;
            out.extend_from_slice(b" to i1")?;
            Ok(())
        }
        Instr::Select {
            register,
            truth,
            test,
            yes,
            no,
        } => {
            write_assigned(out, *register)?;
            out.extend_from_slice(b"select ")?;
            write_typed(out, true, *test)?;
            out.extend_from_slice(b", ")?;
            write_typed(out, *truth, *yes)?;
            out.extend_from_slice(b", ")?;
            write_typed(out, *truth, *no)
        }
        Instr::Call {
            register,
            function,
            args,
        } => write_call(out, *register, *function, &args.items),
    }
}

/// Appends the last instruction of a block.
pub fn write_last(out: &mut Vec<u8>, last: Last) -> Result<(), NoMemory>
    ensures { OnOk result (out.new.items ≡ out.old.items ++ last_text last) }
{
    match last {
        Last::Jump(to) => {
            out.extend_from_slice(b"br label ")?;
            write_target(out, to)
        }
        Last::Branch(test, first, second) => {
            out.extend_from_slice(b"br ")?;
            write_typed(out, true, test)?;
            out.extend_from_slice(b", label ")?;
            write_target(out, first)?;
            out.extend_from_slice(b", label ")?;
            write_target(out, second)
        }
        Last::Return(code) => {
            out.extend_from_slice(b"ret i64 ")?;
            write_signed(out, code)
        }
    }
}
