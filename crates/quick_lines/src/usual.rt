// Reads a line of the usual kind: one of the nine names, qubits of one to three digits, and nothing near the end of the text. Such a line needs few
// tests. Between one digit and two there is no jump: a jump there is often mispredicted. What is None here is left to `line_at` of circuit.
ghost use Rattle.std.specs.Prelude.{false, ◌&&◌, cond, ◌≡◌, ℕ, ◌+◌, ◌*◌, ◌%◌, ◌≤◌, ◌<◌, leb, length, get_or, IfSome};
ghost use Rattle.limits.specs.Limits.{most_qubits};
ghost use Rattle.clifford.specs.Named.{one_letter};
ghost use Rattle.circuit.specs.Lines.{is_digit};
ghost use Rattle.quick_lines.specs.Parts.Lines.{second_letter, digits_at, three_digits, QubitAt, Usual};

use crate::FlatOp;
use clifford::{After, One, Two};

// The gates on one qubit by their letters, from H to Z. A `match` of letters becomes a jump, and it is often mispredicted.
static GATES: [Option<One>; 19] = [
    Some(One::H),
    None,
    None,
    None,
    None,
    None,
    None,
    None,
    None,
    None,
    None,
    Some(One::S),
    None,
    None,
    None,
    None,
    Some(One::PauliX),
    Some(One::PauliY),
    Some(One::PauliZ),
];

// The gate on one qubit that this letter names.
#[inline(always)]
fn single(c: u8) -> Option<One>
    ensures { IfSome result (λ gate. one_letter gate ≡ c) }
{
    if (c < b'H') | (b'Z' < c) {
        return None;
    }
    GATES[usize::from(c - b'H')]
}

// The gate on two qubits that C and this letter name.
#[inline(always)]
fn pair(c: u8) -> Option<Two>
    ensures { IfSome result (λ gate. second_letter gate ≡ c) }
{
    match c {
        b'X' => Some(Two::Cx),
        b'Z' => Some(Two::Cz),
        _ => None,
    }
}

// How many digits the number behind this space has, if this byte ends it.
fn width(s: &[u8], at: usize, stop: u8) -> usize
    requires { at + 5 ≤ length s.now }
    ensures { result ≡ digits_at s.now at stop }
{
    if s[at + 4] == stop {
        return 3;
    }
    1 + usize::from(s[at + 2].is_ascii_digit())
}

// Whether a number begins with this byte, with more behind it or not: not with a zero too many.
fn starts(first: u8, more: bool) -> bool
    ensures { result ≡ (leb first 57 && leb (48 + cond more 1 0) first) }
{
    (first <= b'9') & (usize::from(b'0') + usize::from(more) <= usize::from(first))
}

// The number of one or two digits that these bytes make. A product takes the second digit in or leaves it out: of an `if` the compiler makes a jump here.
fn value(first: u8, more: bool, second: u8) -> usize
    ensures { result ≡ cond more (10 * (first % 16) + second % 16) (first % 16) }
{
    let d = usize::from(first % 16);
    d + usize::from(more) * (9 * d + usize::from(second % 16))
}

// The number of three digits that these bytes make.
fn three(first: u8, second: u8, third: u8) -> Option<usize>
    ensures { IfSome result (λ a. three_digits first second third a) }
{
    if !(second.is_ascii_digit() & third.is_ascii_digit()) {
        return None;
    }
    Some(100 * usize::from(first % 16) + 10 * usize::from(second % 16) + usize::from(third % 16))
}

// The qubit whose number stands behind a space, with this byte behind it.
fn qubit(s: &[u8], at: usize, n: usize, stop: u8) -> Option<usize>
    requires { (at + 5 ≤ length s.now) × (is_digit stop ≡ false) }
    ensures { QubitAt s.now at n stop result }
{
    if s[at] != b' ' {
        return None;
    }
    let first = s[at + 1];
    let second = s[at + 2];
    let more = second.is_ascii_digit();
    if !starts(first, more) {
        return None;
    }
    if s[at + 4] == stop {
        let a = three(first, second, s[at + 3])?;
        return (a < n).then_some(a);
    }
    if s[at + 1 + width(s, at, stop)] != stop {
        return None;
    }
    let a = value(first, more, second);
    (a < n).then_some(a)
}

// M or MR, and a qubit.
#[inline(always)]
fn measure_at(s: &[u8], at: usize, n: usize) -> Option<(FlatOp, usize)>
    requires { (at + 11 ≤ length s.now) × (get_or s.now at 0 ≡ 77) × (n ≤ most_qubits) }
    ensures { Usual s.now at n result }
{
    if s[at + 1] == b'R' {
        let a = qubit(s, at + 2, n, b'\n')?;
        let length = 4 + width(s, at + 2, b'\n');
        return Some((FlatOp::Measure(After::Reset, a), length));
    }
    let a = qubit(s, at + 1, n, b'\n')?;
    Some((FlatOp::Measure(After::Keep, a), 3 + width(s, at + 1, b'\n')))
}

// The gate of this letter, and a qubit.
#[inline(always)]
fn one_at(s: &[u8], at: usize, n: usize, c: u8) -> Option<(FlatOp, usize)>
    requires { (at + 11 ≤ length s.now) × (get_or s.now at 0 ≡ c) × (n ≤ most_qubits) }
    ensures { Usual s.now at n result }
{
    let target = qubit(s, at + 1, n, b'\n')?;
    let gate = single(c)?;
    Some((FlatOp::One(gate, target), 3 + width(s, at + 1, b'\n')))
}

// CX or CZ, and two qubits.
#[inline(always)]
fn two_at(s: &[u8], at: usize, n: usize) -> Option<(FlatOp, usize)>
    requires { (at + 11 ≤ length s.now) × (get_or s.now at 0 ≡ 67) × (n ≤ most_qubits) }
    ensures { Usual s.now at n result }
{
    let gate = pair(s[at + 1])?;
    let a = qubit(s, at + 2, n, b' ')?;
    let front = 3 + width(s, at + 2, b' ');
    let b = qubit(s, at + front, n, b'\n')?;
    if a == b {
        return None;
    }
    let length = front + 2 + width(s, at + front, b'\n');
    Some((FlatOp::Two(gate, a, b), length))
}

#[inline(always)]
pub fn line_at(s: &[u8], at: usize, n: usize) -> Option<(FlatOp, usize)>
    requires { (n ≤ most_qubits) × (at ≤ length s.now) }
    ensures { Usual s.now at n result }
{
    if s.len() - at < 11 {
        return None;
    }
    match s[at] {
        b'C' => two_at(s, at, n),
        b'M' => measure_at(s, at, n),
        c => one_at(s, at, n, c),
    }
}
