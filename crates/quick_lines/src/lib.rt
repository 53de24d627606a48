// An operation line at a position: lines of the usual kind are read at once, and all others as circuit reads them.
#![tactic(auto)]

ghost use Rattle.std.specs.Prelude.{◌≤◌, length};
ghost use Rattle.limits.specs.Limits.{most_qubits};
ghost use Rattle.quick_lines.specs.Parts.Lines.{OpAt};

use clifford::{After, Gate, One, Op, Two};

pub mod other;
pub mod usual;

// An operation, all its kinds side by side: a gate is no enum within the enum, as it is in `Op`. So a part of it has one place in memory, whatever its kind, and
// it goes on in registers: with `Op` here runs took up to a third longer.
#[derive(Clone, Copy, Debug, PartialEq, Eq)]
pub enum FlatOp {
    One(One, usize),
    Two(Two, usize, usize),
    Measure(After, usize),
}

impl From<Op> for FlatOp {
    ghost use Rattle.std.specs.Prelude.{◌≡◌};
    ghost use Rattle.quick_lines.specs.Flat.{op_of};

    ghost from_gives = { λ op flat. op_of flat ≡ op };

    fn from(op: Op) -> FlatOp {
        match op {
            Op::Gate(Gate::One(gate, a)) => FlatOp::One(gate, a),
            Op::Gate(Gate::Two(gate, a, b)) => FlatOp::Two(gate, a, b),
            Op::Measure(after, a) => FlatOp::Measure(after, a),
        }
    }
}

// The operation of the line and the line's length, if the line is well formed and the operation allowed.
#[inline(always)]
pub fn op_at(s: &[u8], at: usize, n: usize) -> Option<(FlatOp, usize)>
    requires { (n ≤ most_qubits) × (at ≤ length s.now) }
    ensures { OpAt s.now at n result }
{
    match usual::line_at(s, at, n) {
        None => other::line_at(s, at, n),
        found => found,
    }
}
