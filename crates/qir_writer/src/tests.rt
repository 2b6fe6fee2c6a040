//! The text of a module that is built by hand: one qubit, a Hadamard gate and a measurement.

ghost use Rattle.std.specs.Prelude.{◌≡◌, ◌<◌, ◌∷◌, ◌++◌, [], codes, length, IfOk};
ghost use Rattle.std.specs.List.{AllByRecursion};
ghost use Rattle.qir_module.specs.Module.{IsShapedInstr};

use crate::write_module;
use qir_module::{Arg, Block, Function, Instr, Last, Module, Operand, Profile, Sequence};
use qq_base::{Label, NoMemory};
use std::alloc::Global;
use std::test::Fail;

const COIN: &str = r#"@0 = internal constant [2 x i8] c"c\00"

define i64 @main() #0 {
b0:
  call void @__quantum__rt__initialize(ptr null)
  call void @__quantum__qis__h__body(ptr null)
  call void @__quantum__qis__mz__body(ptr null, ptr null)
  %r0 = call i1 @__quantum__rt__read_result(ptr null)
  call void @__quantum__rt__bool_record_output(i1 %r0, ptr @0)
  ret i64 0
}

declare void @__quantum__rt__initialize(ptr)
declare i1 @__quantum__rt__read_result(ptr)
declare void @__quantum__rt__bool_record_output(i1, ptr)
declare void @__quantum__qis__mz__body(ptr, ptr) #1
declare void @__quantum__qis__h__body(ptr)

attributes #0 = { "entry_point" "qir_profiles"="adaptive_profile" "output_labeling_schema"="labeled" "required_num_qubits"="1" "required_num_results"="1" }
attributes #1 = { "irreversible" }

!llvm.module.flags = !{!0, !1, !2, !3}

!0 = !{i32 1, !"qir_major_version", i32 2}
!1 = !{i32 7, !"qir_minor_version", i32 0}
!2 = !{i32 1, !"dynamic_qubit_management", i1 false}
!3 = !{i32 1, !"dynamic_result_management", i1 false}
"#;

/// A call of a function.
fn call(
    alloc: Global,
    register: Option<u32>,
    function: Function,
    args: &[Arg],
) -> Result<Instr, NoMemory>
    ensures { IfOk result (λ instr. instr ≡ Instr.Call register function args.now) }
{
    Ok(Instr::Call {
        register,
        function,
        args: Sequence {
            items: args.to_vec(alloc)?,
        },
    })
}

/// The instructions of the one block.
fn coin_body(alloc: Global) -> Result<Vec<Instr>, NoMemory>
    ensures few { IfOk result (λ body. length body.items < 9) }
    ensures shaped { IfOk result (λ body. AllByRecursion IsShapedInstr body.items) }
{
    let read = Arg::Truth(Operand::Register(0));
    let calls = [
        call(alloc, None, Function::INITIALIZE, &[Arg::Id(0)])?,
        call(alloc, None, Function::H, &[Arg::Id(0)])?,
        call(alloc, None, Function::MZ, &[Arg::Id(0), Arg::Id(0)])?,
        call(alloc, Some(0), Function::READ_RESULT, &[Arg::Id(0)])?,
        call(
            alloc,
            None,
            Function::BOOL_RECORD_OUTPUT,
            &[read, Arg::Text(0)],
        )?,
    ];
    Ok(Vec::from_array(alloc, calls)?)
}

/// The whole module.
fn coin(alloc: Global) -> Result<Module, NoMemory> {
    let label = Label {
        items: Vec::from_slice(alloc, b"c\0")?,
    };
    let block = Block {
        name: 0,
        phis: Sequence {
            items: Vec::new(alloc),
        },
        body: Sequence {
            items: coin_body(alloc)?,
        },
        last: Last::Return(0),
    };
    Ok(Module {
        labels: Sequence {
            items: vec![in alloc; label]?,
        },
        blocks: Sequence {
            items: vec![in alloc; block]?,
        },
        declarations: Sequence {
            items: vec![in alloc;
                Function::INITIALIZE,
                Function::READ_RESULT,
                Function::BOOL_RECORD_OUTPUT,
                Function::MZ,
                Function::H,
            ]?,
        },
        profile: Profile::Adaptive,
        qubits: 1,
        results: 1,
        major: 2,
        minor: 0,
        dynamic_qubits: false,
        dynamic_results: false,
    })
}

#[test]
fn writes_a_coin_toss(rt: HostRuntime) -> Result<(), Fail> {
    let text = write_module(rt.alloc(), &coin(rt.alloc())?)?;
    assert_eq!(rt; text.as_slice(), COIN.as_bytes());
    Ok(())
}
