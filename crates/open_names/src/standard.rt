//! The names that a program has without declaring them.
ghost use Rattle.std.specs.Prelude.{◌≡◌, ◌+◌, ◌<◌, ◌^◌, Some, length, slice_get};
ghost use Rattle.qasm_ast.specs.Tree.{text_at};
ghost use Rattle.source_meaning.specs.Library.{included};
ghost use Rattle.open_names.specs.Texts.{texts, standard_names};
ghost use Rattle.open_names.specs.Keys.{IsKey};

use qasm_ast::Program;
use qq_base::GateId;

/// The text of a standard name.
fn standard_text(index: u8) -> &'static [u8]
    requires { index < 38 }
    ensures { result.now ≡ text_at standard_names index }
{
    match index {
        0 => b"pi",
        1 => b"\xCF\x80",
        2 => b"tau",
        3 => b"\xCF\x84",
        4 => b"U",
        5 => b"gphase",
        6 => b"x",
        7 => b"y",
        8 => b"z",
        9 => b"h",
        10 => b"s",
        11 => b"sdg",
        12 => b"t",
        13 => b"tdg",
        14 => b"sx",
        15 => b"id",
        16 => b"p",
        17 => b"rx",
        18 => b"ry",
        19 => b"rz",
        20 => b"cx",
        21 => b"cy",
        22 => b"cz",
        23 => b"ch",
        24 => b"cp",
        25 => b"crx",
        26 => b"cry",
        27 => b"crz",
        28 => b"swap",
        29 => b"ccx",
        30 => b"cswap",
        31 => b"u3",
        32 => b"u2",
        33 => b"cu",
        34 => b"CX",
        35 => b"phase",
        36 => b"u1",
        37 => b"cphase",
        _ => unreachable!(),
    }
}

/// The row of the target table that a name of the library stands for, by the place of the name in the library.
pub fn library_row(place: u8) -> GateId
    requires { place < 32 }
    ensures { slice_get included place ≡ Some (text_at standard_names (place + 6), result.0) }
{
    GateId(match place {
        0 => 0,
        1 => 1,
        2 => 2,
        3 => 3,
        4 => 4,
        5 => 5,
        6 => 6,
        7 => 7,
        8 => 8,
        9 => 10,
        10 => 11,
        11 => 12,
        12 => 13,
        13 => 14,
        14 => 15,
        15 => 16,
        16 => 17,
        17 => 18,
        18 => 19,
        19 => 20,
        20 => 21,
        21 => 22,
        22 => 23,
        23 => 24,
        24 => 25,
        25 => 27,
        26 => 28,
        27 => 29,
        28 => 15,
        29 => 11,
        30 => 11,
        31 => 19,
        _ => unreachable!(),
    })
}

/// The number of a standard name: its number in the program, where it occurs there.
pub fn standard_key(program: &Program, index: u8) -> u32
    requires index { index < 38 }
    requires few { length (texts program.now) < 2 ^ 32 }
    ensures key { IsKey (texts program.now) result }
    ensures text { text_at (texts program.now) result ≡ text_at standard_names index }
{
    let text = standard_text(index);
    let count = program.names.len() as u32;
    for number in 0..count {
        if program.name(number).items.as_slice() == text {
            return number;
        }
    }
    count + u32::from(index)
}
