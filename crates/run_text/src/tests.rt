//! The lines of runs, one of each kind, and sinks that fail.

use crate::Show;
use crate::printer::Printer;
use qq_base::{Event, Fate, GateId, Label, QubitId, Record, Step};
use qq_streams::MemorySink;
use std::alloc::Global;
use std::test::Fail;

/// The bytes of the label `a"θ`, with the zero byte at its end.
const LABEL: [u8; 5] = [b'a', b'"', 0xce, 0xb8, 0];

/// A sink for so many bytes, of which the calls with these numbers fail.
fn sink(alloc: Global, room: usize, failing: Vec<u32>) -> Result<MemorySink, Fail> {
    Ok(
        MemorySink::new(alloc, room, 3, failing)
            .ok()
            .ok_or("memory")?,
    )
}

#[test]
fn each_line_is_shown(rt: HostRuntime) -> Result<(), Fail> {
    let label = Label {
        items: LABEL.to_vec(rt.alloc())?,
    };
    let labels = vec![in rt.alloc(); label]?;
    let mut out = sink(rt.alloc(), 400, Vec::new(rt.alloc()))?;
    let mut printer = Printer::new();
    let qubits = [QubitId(0), QubitId(1), QubitId(2)];
    printer.event(
        &mut out,
        &Event::Gate {
            gate: GateId(24),
            args: [0; 4],
            qubits,
        },
    );
    printer.event(
        &mut out,
        &Event::Gate {
            gate: GateId(29),
            args: [1, -2, 3, 4],
            qubits,
        },
    );
    printer.event(
        &mut out,
        &Event::Gate {
            gate: GateId(30),
            args: [-4, 0, 0, 0],
            qubits,
        },
    );
    printer.event(&mut out, &Event::Reset { qubit: QubitId(3) });
    printer.event(
        &mut out,
        &Event::Measure {
            qubit: QubitId(0),
            outcome: true,
        },
    );
    printer.record(&mut out, &labels, &Record::Array { label: 0, size: 2 });
    printer.record(
        &mut out,
        &labels,
        &Record::Bool {
            label: 0,
            value: false,
        },
    );
    printer.record(
        &mut out,
        &labels,
        &Record::Int {
            label: 0,
            value: -4,
        },
    );
    printer.fate(&mut out, Fate::Turning);
    printer.flush(&mut out);
    assert!(rt; !printer.has_failed());
    let shown = "gate ccx 0 1 2\ngate cu(1,-2,3,4) 0 1\ngate gphase(-4)\nreset 3\nmeasure 0 = 1\n\
        array a\\22\\CE\\B8 2\nbool a\\22\\CE\\B8 0\nint a\\22\\CE\\B8 -4\nfate turning\n";
    assert_eq!(rt; out.bytes(), shown.as_bytes());
    Ok(())
}

#[test]
fn nothing_is_written_behind_a_fault(rt: HostRuntime) -> Result<(), Fail> {
    let failing = vec![in rt.alloc(); 1]?;
    let mut out = sink(rt.alloc(), 20_000, failing)?;
    let mut printer = Printer::new();
    for _ in 0..1000u32 {
        printer.fate(&mut out, Fate::Ended);
    }
    printer.flush(&mut out);
    assert!(rt; printer.has_failed());
    assert_eq!(rt; out.bytes(), b"fat".as_slice());
    Ok(())
}

#[test]
fn a_run_is_shown_to_its_fate(rt: HostRuntime) -> Result<(), Fail> {
    let mut out = sink(rt.alloc(), 100, Vec::new(rt.alloc()))?;
    let mut show = Show::new(&[], b"1", 1);
    let qubit = QubitId(0);
    let outcome = show.outcome().ok_or("no outcome")?;
    let measured = Step::Event(Event::Measure { qubit, outcome });
    assert_eq!(rt; show.take(&mut out, measured), None);
    assert_eq!(rt; show.outcome(), None);
    assert_eq!(rt; show.take(&mut out, Step::Turn), None);
    assert_eq!(rt; show.take(&mut out, Step::Turn), Some(Fate::Turning));
    show.finish(&mut out, Fate::Turning);
    assert!(rt; !show.has_failed());
    assert_eq!(rt; out.bytes(), b"measure 0 = 1\nfate turning\n".as_slice());
    Ok(())
}
