//! The lines of a run.

ghost use Rattle.std.specs.Prelude.{◌≡◌, ◌<◌, ◌≤◌, [], ◌∷◌, length, slice_get, take, Some};
ghost use Rattle.std.specs.List.{flat_map};
ghost use Rattle.gate_table.specs.Table.{gates};
ghost use Rattle.qir_module.specs.Text.{is_plain as is_plain_of, hex_digit as hex_digit_of, escaped as escaped_of};
ghost use Rattle.run_text.specs.Printing.{Prints, desk};
ghost use Rattle.run_text.specs.Shown as s;

use crate::printer::Printer;
use gate_table::target;
use qq_base::{Event, Fate, GateId, Label, QubitId, Record};
use qq_streams::Sink;

/// The number of gates in the target table.
const GATES: u8 = 31;

/// Whether a byte stands for itself in a quoted text.
fn is_plain(byte: u8) -> bool
    ensures { result ≡ is_plain_of byte }
{
    matches!(byte, b' '..=b'~') && byte != b'"' && byte != b'\\'
}

/// The upper case hexadecimal digit of a number.
fn hex_digit(value: u8) -> u8
    requires { value < 16 }
    ensures { result ≡ hex_digit_of value }
{
    if value < 10 {
        b'0' + value
    } else {
        b'A' + (value - 10)
    }
}

/// 0 or 1.
fn bit_digit(value: bool) -> &'static str
    ensures { result.now ≡ s.bit_text value }
{
    if value { "1" } else { "0" }
}

/// As many items as a gate takes, from the front.
fn front<T>(items: &[T], count: u8) -> &[T]
    ensures { result.now ≡ take count items.now }
{
    let count = usize::from(count);
    if count < items.len() {
        &items[..count]
    } else {
        items
    }
}

impl Printer {
    /// Puts a qubit behind a blank.
    fn put_qubit<O: Sink>(&mut self, out: &mut O, qubit: QubitId)
        ensures { Prints (desk (O.taken out.old) (O.faults out.old) self.old) (s.qubit_text qubit) (desk (O.taken out.new) (O.faults out.new) self.new) }
    {
        self.put(out, b" ");
        self.put_number(out, qubit.0);
    }

    /// Puts the qubits of a gate.
    fn put_qubits<O: Sink>(&mut self, out: &mut O, qubits: &[QubitId])
        ensures { Prints (desk (O.taken out.old) (O.faults out.old) self.old) (flat_map s.qubit_text qubits.now) (desk (O.taken out.new) (O.faults out.new) self.new) }
    {
        for qubit in qubits {
            self.put_qubit(out, *qubit);
        }
    }

    /// Puts an argument behind a comma.
    fn put_further<O: Sink>(&mut self, out: &mut O, angle: i64)
        ensures { Prints (desk (O.taken out.old) (O.faults out.old) self.old) (s.further_text angle) (desk (O.taken out.new) (O.faults out.new) self.new) }
    {
        self.put(out, b",");
        self.put_signed(out, angle);
    }

    /// Puts the arguments of a gate behind the first.
    fn put_furthers<O: Sink>(&mut self, out: &mut O, angles: &[i64])
        ensures { Prints (desk (O.taken out.old) (O.faults out.old) self.old) (flat_map s.further_text angles.now) (desk (O.taken out.new) (O.faults out.new) self.new) }
    {
        for angle in angles {
            self.put_further(out, *angle);
        }
    }

    /// Puts the arguments of a gate.
    fn put_arguments<O: Sink>(&mut self, out: &mut O, angles: &[i64])
        ensures { Prints (desk (O.taken out.old) (O.faults out.old) self.old) (s.arguments_text angles.now) (desk (O.taken out.new) (O.faults out.new) self.new) }
    {
        match angles.split_first() {
            None => {}
            Some((first, others)) => {
                self.put(out, b"(");
                self.put_signed(out, *first);
                self.put_furthers(out, others);
                self.put(out, b")");
            }
        }
    }

    /// Puts a gate with its arguments and qubits, where the table has it.
    fn put_gate<O: Sink>(&mut self, out: &mut O, gate: GateId, args: &[i64], qubits: &[QubitId])
        ensures { Prints (desk (O.taken out.old) (O.faults out.old) self.old)
            (s.gate_text (slice_get gates gate.0) args.now qubits.now)
            (desk (O.taken out.new) (O.faults out.new) self.new) }
    {
        if gate.0 < GATES {
            let table = target();
            let row = table.row(gate);
            self.put(out, table.name(gate).as_bytes());
            self.put_arguments(out, front(args, row.params));
            self.put_qubits(out, front(qubits, row.qubits));
        }
    }

    /// Puts the line of a gate.
    fn gate<O: Sink>(&mut self, out: &mut O, gate: GateId, args: &[i64; 4], qubits: &[QubitId; 3])
        ensures { Prints (desk (O.taken out.old) (O.faults out.old) self.old)
            (s.event_line (Event.Gate gate args.now qubits.now))
            (desk (O.taken out.new) (O.faults out.new) self.new) }
    {
        self.put(out, b"gate ");
        self.put_gate(out, gate, args, qubits);
        self.put(out, b"\n");
    }

    /// Puts the line of a reset.
    fn reset<O: Sink>(&mut self, out: &mut O, qubit: QubitId)
        ensures { Prints (desk (O.taken out.old) (O.faults out.old) self.old) (s.event_line (Event.Reset qubit)) (desk (O.taken out.new) (O.faults out.new) self.new) }
    {
        self.put(out, b"reset");
        self.put_qubit(out, qubit);
        self.put(out, b"\n");
    }

    /// Puts the line of a measurement.
    fn measurement<O: Sink>(&mut self, out: &mut O, qubit: QubitId, outcome: bool)
        ensures { Prints (desk (O.taken out.old) (O.faults out.old) self.old) (s.event_line (Event.Measure qubit outcome)) (desk (O.taken out.new) (O.faults out.new) self.new) }
    {
        self.put(out, b"measure");
        self.put_qubit(out, qubit);
        self.put(out, b" = ");
        self.put(out, bit_digit(outcome).as_bytes());
        self.put(out, b"\n");
    }

    /// Puts the line of an event.
    pub fn event<O: Sink>(&mut self, out: &mut O, event: &Event)
        ensures { Prints (desk (O.taken out.old) (O.faults out.old) self.old) (s.event_line event.now) (desk (O.taken out.new) (O.faults out.new) self.new) }
    {
        match event {
            Event::Gate { gate, args, qubits } => self.gate(out, *gate, args, qubits),
            Event::Reset { qubit } => self.reset(out, *qubit),
            Event::Measure { qubit, outcome } => self.measurement(out, *qubit, *outcome),
        }
    }

    /// Puts a byte of a label: itself, or its escape.
    fn put_escaped<O: Sink>(&mut self, out: &mut O, byte: u8)
        ensures { Prints (desk (O.taken out.old) (O.faults out.old) self.old) (escaped_of byte) (desk (O.taken out.new) (O.faults out.new) self.new) }
    {
        if is_plain(byte) {
            self.put(out, &[byte]);
        } else {
            self.put(out, &[b'\\', hex_digit(byte / 16), hex_digit(byte % 16)]);
        }
    }

    /// Puts bytes of a label.
    fn put_quoted<O: Sink>(&mut self, out: &mut O, bytes: &[u8])
        ensures { Prints (desk (O.taken out.old) (O.faults out.old) self.old) (flat_map escaped_of bytes.now) (desk (O.taken out.new) (O.faults out.new) self.new) }
    {
        for byte in bytes {
            self.put_escaped(out, *byte);
        }
    }

    /// Puts the text of a label: its bytes without the last one.
    fn put_label<O: Sink>(&mut self, out: &mut O, label: &Label)
        ensures { Prints (desk (O.taken out.old) (O.faults out.old) self.old) (s.label_text (Some label.now)) (desk (O.taken out.new) (O.faults out.new) self.new) }
    {
        match label.items.as_slice().split_last() {
            None => {}
            Some((_, text)) => self.put_quoted(out, text),
        }
    }

    /// Puts the text of the label with this number, where there is one.
    fn put_name<O: Sink>(&mut self, out: &mut O, labels: &[Label], number: u32)
        ensures { Prints (desk (O.taken out.old) (O.faults out.old) self.old) (s.name_text labels.now number) (desk (O.taken out.new) (O.faults out.new) self.new) }
    {
        let number = number as usize;
        if number < labels.len() {
            self.put_label(out, &labels[number]);
        }
    }

    /// Puts the word and the label that begin the line of a record, and the blank behind them.
    fn put_start<O: Sink>(&mut self, out: &mut O, word: &str, labels: &[Label], number: u32)
        ensures { Prints (desk (O.taken out.old) (O.faults out.old) self.old)
            (s.start_text labels.now word.now number)
            (desk (O.taken out.new) (O.faults out.new) self.new) }
    {
        self.put(out, word.as_bytes());
        self.put(out, b" ");
        self.put_name(out, labels, number);
        self.put(out, b" ");
    }

    /// Puts the line of a record of a module with these labels.
    pub fn record<O: Sink>(&mut self, out: &mut O, labels: &[Label], record: &Record)
        ensures { Prints (desk (O.taken out.old) (O.faults out.old) self.old)
            (s.record_line labels.now «record».now)
            (desk (O.taken out.new) (O.faults out.new) self.new) }
    {
        match record {
            Record::Array { label, size } => {
                self.put_start(out, "array", labels, *label);
                self.put_number(out, *size);
                self.put(out, b"\n");
            }
            Record::Bool { label, value } => {
                self.put_start(out, "bool", labels, *label);
                self.put(out, bit_digit(*value).as_bytes());
                self.put(out, b"\n");
            }
            Record::Int { label, value } => {
                self.put_start(out, "int", labels, *label);
                self.put_signed(out, *value);
                self.put(out, b"\n");
            }
        }
    }

    /// Puts the line of a fate.
    pub fn fate<O: Sink>(&mut self, out: &mut O, fate: Fate)
        ensures { Prints (desk (O.taken out.old) (O.faults out.old) self.old)
            (s.fate_line (s.ending_of fate))
            (desk (O.taken out.new) (O.faults out.new) self.new) }
    {
        let line = match fate {
            Fate::Ended => "fate ended\n",
            Fate::Asked => "fate asked\n",
            Fate::Turning => "fate turning\n",
        };
        self.put(out, line.as_bytes());
    }
}
