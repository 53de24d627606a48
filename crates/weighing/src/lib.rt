// The walk over the operation lines of a text with a stated readout: they are read and run one by one over the packed tableau, and each measurement is held
// against its character, whose lowest bit serves as the coin. A line that is refused, or a fixed measurement that disagrees, stops the walk.
#![tactic(auto)]

ghost use Rattle.std.specs.Prelude.{◌≤◌, ◌<◌, length};
ghost use Rattle.walking.specs.Parts.Walk.{following};
ghost use Rattle.weighing.specs.Parts.Heard.{HeardAs, PacedAs, Weighable, Fresh, WeighedAs};

use packing::Packed;
use quick_lines::FlatOp;

// A measurement beside its character: whether it is random, which agrees with any character, or fixed and agrees; none where it goes no further.
fn hear(rows: &mut Packed, reset: bool, a: usize, stated: &[u8], at: usize) -> Option<bool>
    requires { a < rows.old.qubits }
    ensures { HeardAs (following reset) a rows.old stated.now at result rows.new }
{
    let value = *stated.get(at)? % 2 == 1;
    let outcome = walking::shoot(rows, reset, a, stated, at)?;
    if !outcome.random & (value ^ outcome.value) {
        return None;
    }
    Some(outcome.random)
}

// How many measurements the lines so far have, and how many of them are random.
#[derive(Clone, Copy, Debug, PartialEq, Eq)]
pub struct Passed {
    pub measured: usize,
    pub random: usize,
}

// The line at this position: the position behind it and the counts with it, or none where the walk stops there.
fn pace(
    text: &[u8],
    at: usize,
    rows: &mut Packed,
    stated: &[u8],
    passed: Passed,
) -> Option<(usize, Passed)>
    requires { Weighable passed × (at ≤ length text.now) }
    ensures { PacedAs text.now at stated.now rows.old passed result rows.new }
{
    let (op, size) = quick_lines::op_at(text, at, rows.qubits)?;
    let mut more = passed;
    match op {
        FlatOp::One(gate, a) => columns::one(&mut rows.words, gate, a),
        FlatOp::Two(gate, a, b) => columns::two(&mut rows.words, gate, a, b),
        FlatOp::Measure(after, a) => {
            let random = hear(rows, walking::resets(after), a, stated, passed.measured)?;
            more.measured += 1;
            more.random += usize::from(random);
        }
    }
    Some((at + size, more))
}

// The walk ended before the text: at a line that begins at this position, behind so many operations and these counts.
#[derive(Clone, Copy, Debug, PartialEq, Eq)]
pub struct Stopped {
    pub at: usize,
    pub done: usize,
    pub passed: Passed,
}

pub fn weigh(text: &[u8], body: usize, rows: &mut Packed, stated: &[u8]) -> Result<Passed, Stopped>
    requires { Fresh rows.old }
    ensures { WeighedAs text.now body rows.old.qubits stated.now result }
{
    let mut passed = Passed {
        measured: 0,
        random: 0,
    };
    let mut at = body;
    for done in 0..limits::MOST_OPERATIONS {
        if text.len() <= at {
            return Ok(passed);
        }
        match pace(text, at, rows, stated, passed) {
            Some((next, more)) => {
                at = next;
                passed = more;
            }
            None => return Err(Stopped { at, done, passed }),
        }
    }
    if at < text.len() {
        return Err(Stopped {
            at,
            done: limits::MOST_OPERATIONS,
            passed,
        });
    }
    Ok(passed)
}
