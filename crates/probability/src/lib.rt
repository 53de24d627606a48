// The probability of a stated readout of a circuit text: its lines are walked over the start tableau with the stated values as coins, and the answer is k with
// its double, the line that rules the readout out, or a refusal. Where the walk stops before the end, the rest of the text says whether it is refused.
#![tactic(auto)]

ghost use Rattle.std.specs.List.{position};
ghost use Rattle.std.specs.Prelude.{not, ◌≡◌, ◌+◌, ◌-◌, ◌≤◌, drop};
ghost use Rattle.answers.specs.Refusals.{told};
ghost use Rattle.limits.specs.Limits.{most_qubits, most_operations};
ghost use Rattle.answers.specs.Verdict.{Verdict, accepted, then};
ghost use Rattle.circuit.specs.Text.{operations};
ghost use Rattle.checking.specs.Parts.Promises.{added, Headed};
ghost use Rattle.readouts.specs.Readouts.{Weighed, impossible};
ghost use Rattle.probability.specs.Probability.{is_value, well_stated, told_limit, probability_of, Tells};
ghost use Rattle.probability.specs.Parts.Stating.{weighed_as};

use answers::Refusal;
use half::Likelihood;
use packing::Packed;
use weighing::Stopped;

// A readout is possible, with k and its double; or impossible, since the fixed measurement on this line disagrees, the first that does.
#[derive(Clone, Copy, Debug)]
pub enum Chance {
    Possible(Likelihood),
    Impossible(usize),
}

fn is_value(b: u8) -> bool
    ensures { result ≡ is_value b }
{
    (b == b'0') | (b == b'1')
}

// The place of the first other character.
fn first_other(stated: &[u8]) -> Option<usize>
    ensures { result ≡ position (λ b. not (is_value b)) stated.now }
{
    stated.iter().position(|b| !is_value(*b))
}

// 15 for another number of characters than this, then 10 for another character.
#[tactic(auto, using(crate::proofs::Characters::found_first))]
fn well_stated(stated: &[u8], measured: usize) -> Result<(), Refusal>
    ensures { (v : Verdict Weighed) → well_stated stated.now measured v ≡ then (told result) (λ _. v) }
{
    if stated.len() != measured {
        return Err(Refusal::ReadoutLength);
    }
    match first_other(stated) {
        Some(at) => Err(Refusal::BadByte(at)),
        None => Ok(()),
    }
}

// The line on which a fixed measurement disagrees; where there is none, 14, or k with its double.
fn chance_of(random: usize, against: Option<usize>) -> Result<Chance, Refusal>
    ensures { Tells (told_limit (weighed_as random against)) result }
{
    if let Some(line) = against {
        return Ok(Chance::Impossible(line));
    }
    let k = random as u64;
    if limits::MOST_HALVINGS < k {
        return Err(Refusal::TooUnlikely);
    }
    Ok(Chance::Possible(Likelihood::of(k)))
}

// The text is accepted, and has so many measurements.
fn judged(
    stated: &[u8],
    measured: usize,
    random: usize,
    against: Option<usize>,
) -> Result<Chance, Refusal>
    ensures { Tells (well_stated stated.now measured (told_limit (weighed_as random against))) result }
{
    well_stated(stated, measured)?;
    chance_of(random, against)
}

// The walk stopped at the line that begins here, behind so many operations and with these counts.
fn halted(text: &[u8], n: usize, s: Stopped, stated: &[u8]) -> Result<Chance, Refusal>
    requires { (n ≤ most_qubits) × (s.done ≤ most_operations) × (s.passed.measured ≤ s.done) }
    ensures { Tells (then (then (operations n (most_operations - s.done) (s.done + 2) (drop s.at text.now)) (λ ops. accepted (added s.done s.passed.measured ops))) (λ c. well_stated stated.now c.measured (accepted (impossible (s.done + 2))))) result }
{
    let all = checking::scan_lines(text, s.at, n, s.done, s.passed.measured)?;
    judged(stated, all.measured, s.passed.random, Some(s.done + 2))
}

fn weighed(text: &[u8], body: usize, n: usize, stated: &[u8]) -> Result<Chance, Refusal>
    requires { Headed text.now n body }
    ensures { Tells (probability_of text.now stated.now) result }
{
    let mut rows = Packed {
        qubits: n,
        words: [0; packing::WORDS],
    };
    start_rows::start_words(&mut rows.words, n);
    match weighing::weigh(text, body, &mut rows, stated) {
        Ok(passed) => judged(stated, passed.measured, passed.random, None),
        Err(stopped) => halted(text, n, stopped, stated),
    }
}

// A circuit is lent, and a character `0` or `1` for each of its measurements.
pub fn probability(text: &[u8], stated: &[u8]) -> Result<Chance, Refusal>
    ensures { Tells (probability_of text.now stated.now) result }
{
    let heading = checking::head(text)?;
    weighed(text, heading.body, heading.qubits, stated)
}
