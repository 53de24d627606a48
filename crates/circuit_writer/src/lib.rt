// Writes circuit texts, line by line.
#![tactic(auto)]

ghost use Rattle.std.specs.Prelude.{◌+◌, ◌<◌, ◌^◌, ◌≤◌};
ghost use Rattle.circuit_writer.specs.Writing.{name_text, qubit_text, qubits_text, line_text, header_text};
ghost use Rattle.lines.specs.Parts.Putting.{Puts};

use clifford::{After, Gate, Op, Two};
use lines::Lines;

fn put_qubit(lines: &mut Lines, qubit: usize)
    requires { lines.old.at + 21 < 2 ^ 64 }
    ensures puts { Puts (qubit_text qubit) lines.old lines.new }
    ensures few { lines.new.at ≤ lines.old.at + 21 }
{
    lines.byte(b' ');
    lines.number(qubit);
}

fn put_name(lines: &mut Lines, op: Op)
    requires { lines.old.at + 2 < 2 ^ 64 }
    ensures puts { Puts (name_text op) lines.old lines.new }
    ensures few { lines.new.at ≤ lines.old.at + 2 }
{
    match op {
        Op::Gate(Gate::One(gate, _)) => lines.byte(u8::from(gate)),
        Op::Gate(Gate::Two(Two::Cx, _, _)) => lines.text(b"CX"),
        Op::Gate(Gate::Two(Two::Cz, _, _)) => lines.text(b"CZ"),
        Op::Measure(After::Keep, _) => lines.text(b"M"),
        Op::Measure(After::Reset, _) => lines.text(b"MR"),
    }
}

fn put_qubits(lines: &mut Lines, op: Op)
    requires { lines.old.at + 42 < 2 ^ 64 }
    ensures puts { Puts (qubits_text op) lines.old lines.new }
    ensures few { lines.new.at ≤ lines.old.at + 42 }
{
    match op {
        Op::Gate(Gate::One(_, a)) | Op::Measure(_, a) => put_qubit(lines, a),
        Op::Gate(Gate::Two(_, a, b)) => {
            put_qubit(lines, a);
            put_qubit(lines, b);
        }
    }
}

// Puts the line of an operation.
pub fn put_line(lines: &mut Lines, op: Op)
    requires { lines.old.at + 45 < 2 ^ 64 }
    ensures { Puts (line_text op) lines.old lines.new }
{
    put_name(lines, op);
    put_qubits(lines, op);
    lines.byte(b'\n');
}

// Puts line 1.
pub fn put_header(lines: &mut Lines, qubits: usize)
    requires { lines.old.at + 23 < 2 ^ 64 }
    ensures { Puts (header_text qubits) lines.old lines.new }
{
    lines.byte(b'Q');
    put_qubit(lines, qubits);
    lines.byte(b'\n');
}
