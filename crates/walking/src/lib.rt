// The walk over the operation lines of a text on lent coins: they are read and run one by one over the packed tableau, each outcome a character in an
// array. A line that is refused, or finds no coin, breaks the walk off.
#![tactic(auto)]

ghost use Rattle.std.specs.Prelude.{◌≡◌, ◌≤◌, ◌<◌, length, drop};
ghost use Rattle.limits.specs.Limits.{most_qubits};
ghost use Rattle.packing.specs.View.{rows_of};
ghost use Rattle.records.specs.Record.{mark};
ghost use Rattle.walking.specs.Parts.Walk.{following, flipped, ShotAs, HasRoom, MeasureAs, StepAs, Walkable, WalkAs};

use clifford::{After, One, Outcome};
use packing::Packed;
use quick_lines::FlatOp;
use tally::Tally;

// X on a, where it is to be applied.
fn flip(rows: &mut Packed, a: usize, applies: bool)
    requires { a < rows.old.qubits }
    ensures { (rows.new.qubits ≡ rows.old.qubits) × (rows_of rows.old.qubits rows.new.words ≡ flipped a applies (rows_of rows.old.qubits rows.old.words)) }
{
    if applies {
        columns::one(&mut rows.words, One::PauliX, a);
    }
}

// The measurement of a with the coin behind so many that are used, and what follows it; none where it is random and finds no coin.
pub fn shoot(rows: &mut Packed, reset: bool, a: usize, coins: &[u8], used: usize) -> Option<Outcome>
    requires { (a < rows.old.qubits) × (used ≤ length coins.now) }
    ensures { ShotAs (following reset) a rows.old (drop used coins.now) result rows.new }
{
    match random_row::random_row(rows, a) {
        None => {
            let value = measure_fixed::fixed_value(rows, a);
            flip(rows, a, reset & value);
            Some(Outcome {
                random: false,
                value,
            })
        }
        Some(p) => {
            let coin = *coins.get(used)? % 2 == 1;
            measure_random::collapse(rows, a, p, coin);
            flip(rows, a, reset & coin);
            Some(Outcome {
                random: true,
                value: coin,
            })
        }
    }
}

// The character of an outcome.
fn mark(outcome: Outcome) -> u8
    ensures { result ≡ mark outcome }
{
    match (outcome.random, outcome.value) {
        (false, false) => b'0',
        (false, true) => b'1',
        (true, false) => b'2',
        (true, true) => b'3',
    }
}

// Why a line is not run.
#[derive(Clone, Copy, Debug, PartialEq, Eq)]
enum Stop {
    NoCoin,
    Refused,
}

// The walk ended before the text, at this line.
#[derive(Clone, Copy, Debug, PartialEq, Eq)]
pub struct BrokenOff {
    pub line: usize,
}

// A walk under way: the rows, the characters of the outcomes so far, and the tally.
#[derive(Drop)]
pub struct Walk {
    pub rows: Packed,
    pub marks: [u8; limits::MOST_OPERATIONS],
    pub tally: Tally,
}

// Whether a measurement resets.
pub fn resets(after: After) -> bool
    ensures { following result ≡ after }
{
    matches!(after, After::Reset)
}

impl Walk {
    fn measure(&mut self, reset: bool, a: usize, coins: &[u8]) -> Option<()>
        requires { HasRoom coins.now self.old.tally × (a < self.old.rows.qubits) }
        ensures { MeasureAs (following reset) a coins.now self.old result self.new }
    {
        let used = self.tally.taken;
        let outcome = shoot(&mut self.rows, reset, a, coins, used)?;
        self.marks[self.tally.measured] = mark(outcome);
        self.tally.step(outcome.random);
        Some(())
    }

    // The line at this position; the position behind it.
    fn turn(&mut self, text: &[u8], at: usize, coins: &[u8]) -> Result<usize, Stop>
        requires { HasRoom coins.now self.old.tally × (at ≤ length text.now) }
        ensures { StepAs text.now at coins.now self.old result self.new }
    {
        let Some((op, size)) = quick_lines::op_at(text, at, self.rows.qubits) else {
            return Err(Stop::Refused);
        };
        match op {
            FlatOp::One(gate, a) => columns::one(&mut self.rows.words, gate, a),
            FlatOp::Two(gate, a, b) => columns::two(&mut self.rows.words, gate, a, b),
            FlatOp::Measure(after, a) => self.measure(resets(after), a, coins).ok_or(Stop::NoCoin)?,
        }
        Ok(at + size)
    }

    // All lines from the first on.
    pub fn walk(&mut self, text: &[u8], body: usize, coins: &[u8]) -> Result<(), BrokenOff>
        requires { Walkable self.old.rows.qubits self.old }
        ensures { WalkAs text.now body coins.now self.old.rows.qubits result self.new }
    {
        let mut at = body;
        for line in 2..limits::MOST_OPERATIONS + 2 {
            if text.len() <= at {
                return Ok(());
            }
            match self.turn(text, at, coins) {
                Ok(next) => at = next,
                Err(_) => return Err(BrokenOff { line }),
            }
        }
        if at < text.len() {
            return Err(BrokenOff {
                line: limits::MOST_OPERATIONS + 2,
            });
        }
        Ok(())
    }
}
