// Reads a whole circuit text: line 1, one pass over the operation lines, and the check.
#![tactic(auto)]

ghost use Rattle.std.specs.Prelude.{◌≡◌, ◌+◌, ◌-◌, ◌≤◌, length, drop};
ghost use Rattle.limits.specs.Limits.{most_qubits, most_operations};
ghost use Rattle.answers.specs.Verdict.{accepted, then};
ghost use Rattle.answers.specs.Refusals.{told};
ghost use Rattle.circuit.specs.Text.{operations};
ghost use Rattle.checking.specs.Parts.Promises.{added, TurnAt, Heads, Scans};
ghost use Rattle.checking.specs.Check.{check_of};

use answers::Refusal;
use quick_lines::FlatOp;

// What a check answers: the number of qubits, and how many operations.
#[derive(Clone, Copy, Debug, PartialEq, Eq)]
pub struct Size {
    pub qubits: usize,
    pub operations: usize,
}

// How many operations, and how many of them measurements.
#[derive(Clone, Copy, Debug, PartialEq, Eq)]
pub struct Counts {
    pub operations: usize,
    pub measured: usize,
}

// Line 1: the number of qubits, and where the operation lines begin.
#[derive(Clone, Copy, Debug, PartialEq, Eq)]
pub struct Heading {
    pub qubits: usize,
    pub body: usize,
}

// A circuit's size and its measurements; its operation lines begin at body.
#[derive(Clone, Copy, Debug, PartialEq, Eq)]
pub struct Scanned {
    pub qubits: usize,
    pub operations: usize,
    pub measured: usize,
    pub body: usize,
}

// The position behind a line, and 1 if it measures.
#[derive(Clone, Copy)]
struct Turn {
    next: usize,
    measured: usize,
}

fn judged_at(s: &[u8], at: usize, n: usize, line: usize) -> Result<Turn, Refusal>
    ensures { TurnAt s.now at n line result }
{
    let (op, next) = circuit::line_at(s, at).ok_or(Refusal::Malformed(line))?;
    if !circuit::qubits_below(n, op) {
        return Err(Refusal::NoSuchQubit(line));
    }
    if !circuit::qubits_apart(op) {
        return Err(Refusal::QubitTwice(line));
    }
    Ok(Turn {
        next,
        measured: circuit::one_if_measure(op),
    })
}

fn turn_at(s: &[u8], at: usize, n: usize, line: usize) -> Result<Turn, Refusal>
    requires { (n ≤ most_qubits) × (at ≤ length s.now) }
    ensures { TurnAt s.now at n line result }
{
    if let Some((op, size)) = quick_lines::usual::line_at(s, at, n) {
        return Ok(Turn {
            next: at + size,
            measured: usize::from(matches!(op, FlatOp::Measure(..))),
        });
    }
    judged_at(s, at, n, line)
}

// The lines from a position on, behind so many operations and measurements: how many there are with these, or why a line is refused.
pub fn scan_lines(
    s: &[u8],
    from: usize,
    n: usize,
    done: usize,
    seen: usize,
) -> Result<Counts, Refusal>
    requires { (n ≤ most_qubits) × (done ≤ most_operations) × (seen ≤ done) }
    ensures { told result ≡ then (operations n (most_operations - done) (done + 2) (drop from s.now)) (λ ops. accepted (added done seen ops)) }
{
    let mut at = from;
    let mut operations = done;
    let mut measured = seen;
    while at < s.len() {
        if operations == limits::MOST_OPERATIONS {
            return Err(Refusal::TooManyOperations);
        }
        let turn = turn_at(s, at, n, operations + 2)?;
        at = turn.next;
        operations += 1;
        measured += turn.measured;
    }
    Ok(Counts {
        operations,
        measured,
    })
}

// Line 1, or why the text is refused.
pub fn head(text: &[u8]) -> Result<Heading, Refusal>
    ensures { Heads text.now result }
{
    let (qubits, body) = circuit::header_at(text).ok_or(Refusal::NotQubits)?;
    if qubits < 1 || limits::MOST_QUBITS < qubits {
        return Err(Refusal::QubitCount);
    }
    Ok(Heading { qubits, body })
}

pub fn scan(text: &[u8]) -> Result<Scanned, Refusal>
    ensures { Scans text.now result }
{
    let line = head(text)?;
    let lines = scan_lines(text, line.body, line.qubits, 0, 0)?;
    Ok(Scanned {
        qubits: line.qubits,
        operations: lines.operations,
        measured: lines.measured,
        body: line.body,
    })
}

pub fn check(text: &[u8]) -> Result<Size, Refusal>
    ensures { told result ≡ check_of text.now }
{
    let scanned = scan(text)?;
    Ok(Size {
        qubits: scanned.qubits,
        operations: scanned.operations,
    })
}
