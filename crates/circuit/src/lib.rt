// Reads a line of a circuit text at a position: an operation line, which the check and the run share, or line 1.
#![tactic(auto)]

ghost use Rattle.std.specs.Prelude.{◌≡◌, [], ◌∷◌};
ghost use Rattle.circuit.specs.Lines.{closed_by, end_byte, op_line};
ghost use Rattle.circuit.specs.Text.{header, all_below, apart, measures};
ghost use Rattle.circuit.specs.Parts.Reading.{ReadsAt, NameAt};

use clifford::{After, Gate, One, Op, Two};

pub mod numbers;

// The name of an operation.
#[derive(Clone, Copy)]
enum Word {
    One(One),
    Two(Two),
    Measure(After),
}

// The name that stands here, with the position behind it.
fn name_at(s: &[u8], at: usize) -> Option<(Word, usize)>
    ensures { NameAt s.now at result }
{
    match s.get(at)? {
        b'H' => Some((Word::One(One::H), at + 1)),
        b'S' => Some((Word::One(One::S), at + 1)),
        b'X' => Some((Word::One(One::PauliX), at + 1)),
        b'Y' => Some((Word::One(One::PauliY), at + 1)),
        b'Z' => Some((Word::One(One::PauliZ), at + 1)),
        b'C' => match s.get(at + 1)? {
            b'X' => Some((Word::Two(Two::Cx), at + 2)),
            b'Z' => Some((Word::Two(Two::Cz), at + 2)),
            _ => None,
        },
        b'M' if numbers::byte_at(s, at + 1, b'R') => Some((Word::Measure(After::Reset), at + 2)),
        b'M' => Some((Word::Measure(After::Keep), at + 1)),
        _ => None,
    }
}

// The value with the position behind its line, if the line ends here.
fn closed_at<T: Drop>(s: &[u8], at: usize, value: T) -> Option<(T, usize)>
    ensures { ReadsAt (closed_by (end_byte ∷ []) value) s.now at result }
{
    if numbers::byte_at(s, at, b'\n') {
        Some((value, at + 1))
    } else {
        None
    }
}

// The operation of the line that stands here, with the position behind the line.
pub fn line_at(s: &[u8], at: usize) -> Option<(Op, usize)>
    ensures { ReadsAt op_line s.now at result }
{
    let (word, behind) = name_at(s, at)?;
    let (a, next) = numbers::qubit_at(s, behind)?;
    match word {
        Word::One(gate) => closed_at(s, next, Op::Gate(Gate::One(gate, a))),
        Word::Two(gate) => {
            let (b, last) = numbers::qubit_at(s, next)?;
            closed_at(s, last, Op::Gate(Gate::Two(gate, a, b)))
        }
        Word::Measure(after) => closed_at(s, next, Op::Measure(after, a)),
    }
}

pub fn qubits_below(n: usize, op: Op) -> bool
    ensures { result ≡ all_below n op }
{
    match op {
        Op::Gate(Gate::Two(_, a, b)) => a < n && b < n,
        Op::Gate(Gate::One(_, a)) | Op::Measure(_, a) => a < n,
    }
}

pub fn qubits_apart(op: Op) -> bool
    ensures { result ≡ apart op }
{
    match op {
        Op::Gate(Gate::Two(_, a, b)) => a != b,
        Op::Gate(Gate::One(_, _)) | Op::Measure(_, _) => true,
    }
}

pub fn one_if_measure(op: Op) -> usize
    ensures { result ≡ measures op }
{
    usize::from(matches!(op, Op::Measure(_, _)))
}

// Line 1: n, with the position behind the line.
pub fn header_at(s: &[u8]) -> Option<(usize, usize)>
    ensures { ReadsAt header s.now 0 result }
{
    if !numbers::byte_at(s, 0, b'Q') {
        return None;
    }
    let (n, next) = numbers::qubit_at(s, 1)?;
    closed_at(s, next, n)
}
