//! The reader of texts of the thin form.

ghost use Rattle.std.specs.Prelude.{◌≡◌, ◌≤◌, length, slice_index, IfOk, MatchOption, EachIndex};
ghost use Rattle.std.specs.Char.{IsAsciiDigit, is_ascii_digit};
ghost use Rattle.std.specs.List.{prefix_len};
ghost use Rattle.std.specs.Str.Parse.{digits_value};
ghost use Rattle.qq_tool.specs.Thin.{Spells, IsThinText};
ghost use Rattle.qq_tool.specs.Reading.{Gives, after, is_numeral as is_numeral_text, number_at, place_at, hadamard_at, not_at, controlled_not_at, measure_at, line_at, lines_at, sizes_at};

use crate::thin::{ThinLine, ThinProgram};
use qq_base::NoMemory;
use std::alloc::Global;

/// The greatest number of qubits, of bits and of lines behind the declarations.
const MOST_QUBITS: u32 = 1024;

const MOST_BITS: u32 = 4096;

const MOST_LINES: usize = 10_000;

/// What stands behind the prefix, if the bytes begin with it.
fn expect<'a>(bytes: &'a [u8], prefix: &[u8]) -> Option<&'a [u8]>
    ensures { Gives (λ rest. rest.now) result (after prefix.now bytes.now) }
{
    bytes.strip_prefix(prefix)
}

/// How many digits stand in front.
fn digit_count(bytes: &[u8]) -> usize
    ensures { result ≡ prefix_len is_ascii_digit bytes.now }
{
    bytes
        .iter()
        .take_while(|byte| byte.is_ascii_digit())
        .count()
}

/// Whether the digits are one to four, with no zero in front of others.
#[tactic(auto, unfolding(crate::specs::Reading::is_numeral))]
fn is_numeral(digits: &[u8]) -> bool
    ensures { result ≡ is_numeral_text digits.now }
{
    match digits {
        [] => false,
        [_] => true,
        [first, _, others @ ..] => *first != b'0' && others.len() <= 2,
    }
}

/// The number that the digits write.
fn value_of(digits: &[u8]) -> u32
    requires few { length digits.now ≤ 4 }
    requires digits { EachIndex digits.now (λ i. IsAsciiDigit (slice_index digits.now i)) }
    ensures { result ≡ digits_value 10 digits.now }
{
    let mut value = 0;
    for digit in digits {
        value = value * 10 + u32::from(*digit - b'0');
    }
    value
}

/// The number in front, of at most four digits and without leading zeros.
#[tactic(auto, unfolding(crate::specs::Reading::number_at))]
fn number(bytes: &[u8]) -> Option<(u32, &[u8])>
    ensures { Gives (λ x. (x.0, x.1.now)) result (number_at bytes.now) }
{
    let (digits, rest) = bytes.split_at(digit_count(bytes));
    if !is_numeral(digits) {
        return None;
    }
    Some((value_of(digits), rest))
}

/// A number below the limit and a closing bracket, behind a prefix.
#[tactic(auto, unfolding(crate::specs::Reading::place_at))]
fn place<'a>(bytes: &'a [u8], before: &[u8], limit: u32) -> Option<(u32, &'a [u8])>
    ensures { Gives (λ x. (x.0, x.1.now)) result (place_at before.now limit bytes.now) }
{
    let behind = expect(bytes, before)?;
    let (n, rest) = number(behind)?;
    let rest = expect(rest, b"]")?;
    if n < limit { Some((n, rest)) } else { None }
}

/// `h q[0];`
#[tactic(auto, unfolding(crate::specs::Reading::hadamard_at))]
fn hadamard(bytes: &[u8], qubits: u32) -> Option<(ThinLine, &[u8])>
    ensures { Gives (λ x. (x.0, x.1.now)) result (hadamard_at qubits bytes.now) }
{
    let (qubit, rest) = place(bytes, b"h q[", qubits)?;
    let rest = expect(rest, b";\n")?;
    Some((ThinLine::Hadamard { qubit }, rest))
}

/// `x q[0];`
#[tactic(auto, unfolding(crate::specs::Reading::not_at))]
fn not(bytes: &[u8], qubits: u32) -> Option<(ThinLine, &[u8])>
    ensures { Gives (λ x. (x.0, x.1.now)) result (not_at qubits bytes.now) }
{
    let (qubit, rest) = place(bytes, b"x q[", qubits)?;
    let rest = expect(rest, b";\n")?;
    Some((ThinLine::Not { qubit }, rest))
}

/// `cx q[0], q[1];`, at two qubits that differ.
#[tactic(auto, unfolding(crate::specs::Reading::controlled_not_at))]
fn controlled_not(bytes: &[u8], qubits: u32) -> Option<(ThinLine, &[u8])>
    ensures { Gives (λ x. (x.0, x.1.now)) result (controlled_not_at qubits bytes.now) }
{
    let (control, rest) = place(bytes, b"cx q[", qubits)?;
    let (target, rest) = place(rest, b", q[", qubits)?;
    let rest = expect(rest, b";\n")?;
    if control == target {
        return None;
    }
    Some((ThinLine::ControlledNot { control, target }, rest))
}

/// `c[0] = measure q[0];`
#[tactic(auto, unfolding(crate::specs::Reading::measure_at))]
fn measure(bytes: &[u8], qubits: u32, bits: u32) -> Option<(ThinLine, &[u8])>
    ensures { Gives (λ x. (x.0, x.1.now)) result (measure_at qubits bits bytes.now) }
{
    let (bit, rest) = place(bytes, b"c[", bits)?;
    let (qubit, rest) = place(rest, b" = measure q[", qubits)?;
    let rest = expect(rest, b";\n")?;
    Some((ThinLine::Measure { qubit, bit }, rest))
}

/// The statement in front, on a line of its own.
#[tactic(auto, unfolding(crate::specs::Reading::line_at))]
fn line(bytes: &[u8], qubits: u32, bits: u32) -> Option<(ThinLine, &[u8])>
    ensures { Gives (λ x. (x.0, x.1.now)) result (line_at qubits bits bytes.now) }
{
    hadamard(bytes, qubits)
        .or_else(|| not(bytes, qubits))
        .or_else(|| controlled_not(bytes, qubits))
        .or_else(|| measure(bytes, qubits, bits))
}

/// The statements of all the bytes, if there are not too many.
fn lines(
    alloc: Global,
    bytes: &[u8],
    qubits: u32,
    bits: u32,
) -> Result<Option<Vec<ThinLine>>, NoMemory>
    ensures { IfOk result (λ found. Gives (λ v. v.items) found (lines_at qubits bits 10000 bytes.now)) }
{
    let mut found = Vec::new(alloc);
    let mut rest = bytes;
    while !rest.is_empty() {
        if found.len() == MOST_LINES {
            return Ok(None);
        }
        let Some((next, behind)) = line(rest, qubits, bits) else {
            return Ok(None);
        };
        found.push(next)?;
        rest = behind;
    }
    Ok(Some(found))
}

/// The sizes of the registers of qubits and of bits that the first four lines declare.
#[tactic(auto, unfolding(crate::specs::Reading::sizes_at))]
fn sizes(bytes: &[u8]) -> Option<(u32, u32, &[u8])>
    ensures { Gives (λ x. (x.0, x.1, x.2.now)) result (sizes_at bytes.now) }
{
    let rest = expect(bytes, b"OPENQASM 3.0;\ninclude \"stdgates.inc\";\n")?;
    let (qubits, rest) = place(rest, b"qubit[", MOST_QUBITS + 1)?;
    let rest = expect(rest, b" q;\n")?;
    let (bits, rest) = place(rest, b"bit[", MOST_BITS + 1)?;
    let rest = expect(rest, b" c;\n")?;
    if qubits == 0 || bits == 0 {
        return None;
    }
    Some((qubits, bits, rest))
}

/// The program that the bytes spell, if they are a thin text: the declarations of 1 to 1,024 qubits and of
/// 1 to 4,096 bits, and then at most 10,000 gates and measurements, with exactly the blanks of `ThinLine`'s
/// forms and each on a line of its own that ends with LF.
///
/// # Errors
///
/// `NoMemory` where there is no memory for the lines of the program.
pub fn read_thin(alloc: Global, bytes: &[u8]) -> Result<Option<ThinProgram>, NoMemory>
    // What is read is spelled so, and nothing is read only where the bytes are no thin text.
    ensures { IfOk result (λ found. MatchOption found (¬ IsThinText bytes.now) (λ p. Spells bytes.now p)) }
{
    let Some((qubits, bits, rest)) = sizes(bytes) else {
        return Ok(None);
    };
    let Some(lines) = lines(alloc, rest, qubits, bits)? else {
        return Ok(None);
    };
    let program = ThinProgram {
        qubits,
        bits,
        lines,
    };
    Ok(Some(program))
}

#[cfg(test)]
mod tests {
    use super::*;
    use std::process::Abort;
    use std::test::Fail;

    const FRONT: &str = "OPENQASM 3.0;\ninclude \"stdgates.inc\";\n";

    /// The text behind the first two lines is read as a program with these parts.
    fn reads(
        rt: &impl Abort,
        alloc: Global,
        behind: &str,
        qubits: u32,
        bits: u32,
        lines: &[ThinLine],
    ) -> Result<(), Fail> {
        let text = format!(in alloc; "{FRONT}{behind}")?;
        let program = read_thin(alloc, text.as_bytes())?.ok_or("a thin text is refused")?;
        assert_eq!(rt; program.qubits, qubits);
        assert_eq!(rt; program.bits, bits);
        assert_eq!(rt; program.lines.as_slice(), lines);
        Ok(())
    }

    #[test]
    fn accepted(rt: HostRuntime) -> Result<(), Fail> {
        let alloc = rt.alloc();
        reads(&rt, alloc, "qubit[1] q;\nbit[1] c;\n", 1, 1, &[])?;
        reads(
            &rt,
            alloc,
            "qubit[1024] q;\nbit[4096] c;\nx q[1023];\nc[4095] = measure q[10];\n",
            1024,
            4096,
            &[
                ThinLine::Not { qubit: 1023 },
                ThinLine::Measure {
                    qubit: 10,
                    bit: 4095,
                },
            ],
        )?;
        reads(
            &rt,
            alloc,
            "qubit[2] q;\nbit[2] c;\nh q[0];\ncx q[0], q[1];\nc[0] = measure q[0];\nc[1] = measure q[1];\n",
            2,
            2,
            &[
                ThinLine::Hadamard { qubit: 0 },
                ThinLine::ControlledNot {
                    control: 0,
                    target: 1,
                },
                ThinLine::Measure { qubit: 0, bit: 0 },
                ThinLine::Measure { qubit: 1, bit: 1 },
            ],
        )
    }

    /// Texts that are not thin, with `\n` for the end of a line and `\r` for CR: whole ones, ones behind the first
    /// two lines, and ones behind the declarations of two qubits and three bits.
    const NO_TEXTS: &str = r#"
OPENQASM 3.0;\n
OPENQASM 3;\ninclude "stdgates.inc";\nqubit[1] q;\nbit[1] c;\n
 OPENQASM 3.0;\ninclude "stdgates.inc";\nqubit[1] q;\nbit[1] c;\n
OPENQASM 3.0;\r\ninclude "stdgates.inc";\r\nqubit[1] q;\r\nbit[1] c;\r\n
OPENQASM 3.0;\n\ninclude "stdgates.inc";\nqubit[1] q;\nbit[1] c;\n
OPENQASM 3.0;\nqubit[1] q;\nbit[1] c;\n"#;

    const NO_DECLARATIONS: &str = r#"qubit[0] q;\nbit[1] c;\n
qubit[1025] q;\nbit[1] c;\n
qubit[01] q;\nbit[1] c;\n
qubit[] q;\nbit[1] c;\n
qubit[+1] q;\nbit[1] c;\n
qubit q;\nbit[1] c;\n
qubit[1] r;\nbit[1] c;\n
qubit[1] q;\nbit[0] c;\n
qubit[1] q;\nbit[4097] c;\n
qubit[1] q;\nbit[10000] c;\n
qubit[1] q;\nbit[99999999999999999999] c;\n
qubit[1] q;\n
bit[1] c;\nqubit[1] q;\n
qubit[1] q;\nbit[1] c;"#;

    const NO_LINES: &str = r#"h q[0];
h q[0];\r\n
h  q[0];\n
 h q[0];\n
h q[0]; \n
h q[0] ;\n
h q[00];\n
h q[2];\n
h q;\n
H q[0];\n
y q[0];\n
x q[2];\n
cx q[0], q[0];\n
cx q[0],q[1];\n
cx q[2], q[1];\n
cx q[0], q[2];\n
cx q[0];\n
c[3] = measure q[0];\n
c[0] = measure q[2];\n
c[0]=measure q[0];\n
measure q[0] -> c[0];\n
measure q[0];\n
\n
h q[0];\n// the end\n
h q[0];\n\n
h q[0];\nx
h q[0];x q[1];\n"#;

    /// Each row is no thin text behind this front.
    fn refuses_each(rt: &impl Abort, alloc: Global, front: &str, table: &str) -> Result<(), Fail> {
        for row in table.lines() {
            let behind = row.replace(alloc, "\\n", "\n")?;
            let behind = behind.as_str().replace(alloc, "\\r", "\r")?;
            let text = format!(in alloc; "{front}{behind}")?;
            assert!(rt; read_thin(alloc, text.as_bytes())?.is_none(), "{row}");
        }
        Ok(())
    }

    #[test]
    fn refused(rt: HostRuntime) -> Result<(), Fail> {
        let alloc = rt.alloc();
        refuses_each(&rt, alloc, "", NO_TEXTS)?;
        refuses_each(&rt, alloc, FRONT, NO_DECLARATIONS)?;
        let declared = format!(in alloc; "{FRONT}qubit[2] q;\nbit[3] c;\n")?;
        refuses_each(&rt, alloc, declared.as_str(), NO_LINES)
    }

    #[test]
    fn ten_thousand_lines(rt: HostRuntime) -> Result<(), Fail> {
        let mut text = format!(in rt.alloc(); "{FRONT}qubit[1] q;\nbit[1] c;\n")?;
        for _ in 0..10_000 {
            text.push_str("x q[0];\n")?;
        }
        let program = read_thin(rt.alloc(), text.as_bytes())?.ok_or("10,000 lines are refused")?;
        assert_eq!(rt; program.lines.len(), 10_000);
        text.push_str("x q[0];\n")?;
        assert!(rt; read_thin(rt.alloc(), text.as_bytes())?.is_none());
        Ok(())
    }
}
