// The run of a circuit text on lent coins: its lines are walked over the start tableau, and the record is written at the end, so that a refused run has
// written nothing. Where the walk breaks off before the end, the whole text says why.
#![tactic(auto)]

ghost use Rattle.std.specs.Prelude.{◌≡◌};
ghost use Rattle.answers.specs.Refusals.{number_of, place_of};
ghost use Rattle.answers.specs.Verdict.{refused};
ghost use Rattle.checking.specs.Parts.Promises.{Headed};
ghost use Rattle.run.specs.Run.{Runs};
ghost use Rattle.run.specs.Parts.Ran.{judgement, RanAs};

use answers::Refusal;
use packing::Packed;
use tally::Tally;
use walking::Walk;

// What an accepted run comes to: the record's length, and the tally.
#[derive(Clone, Copy, Debug, PartialEq, Eq)]
pub struct Ran {
    pub size: usize,
    pub tally: Tally,
}

// Why the run of a text breaks off at this line: 1 to 6 if the text is refused, and then 8 before 7.
fn judged(text: &[u8], line: usize, room: usize) -> Refusal
    ensures { judgement text.now line room ≡ refused (number_of result) (place_of result) }
{
    match checking::scan(text) {
        Ok(circuit) => {
            if room < writing::record_size(circuit.qubits, circuit.measured) {
                return Refusal::NoRoom;
            }
            Refusal::NoCoin(line)
        }
        Err(r) => r,
    }
}

fn play(text: &[u8], body: usize, n: usize, coins: &[u8], record: &mut [u8]) -> Result<Ran, Refusal>
    requires { Headed text.now n body }
    ensures { RanAs text.now coins.now «record».old result «record».new }
{
    let mut walk = Walk {
        rows: Packed {
            qubits: n,
            words: [0; packing::WORDS],
        },
        marks: [0; limits::MOST_OPERATIONS],
        tally: Tally::NONE_YET,
    };
    start_rows::start_words(&mut walk.rows.words, n);
    match walk.walk(text, body, coins) {
        Ok(()) => {
            let tally = walk.tally;
            let count = tally.measured;
            if record.len() < writing::record_size(n, count) {
                return Err(Refusal::NoRoom);
            }
            let size = writing::put_record(record, &walk.marks[..count], &walk.rows.words, n);
            Ok(Ran { size, tally })
        }
        Err(broken) => Err(judged(text, broken.line, record.len())),
    }
}

fn simulate(text: &[u8], coins: &[u8], record: &mut [u8]) -> Result<Ran, Refusal>
    ensures { RanAs text.now coins.now «record».old result «record».new }
{
    let heading = checking::head(text)?;
    play(text, heading.body, heading.qubits, coins, record)
}

// A circuit and coins are lent, a buffer for the record, and a place for the answer; the unused rest of the coins comes back, when refused all of them.
pub fn run<'c>(
    text: &[u8],
    coins: &'c [u8],
    record: &mut [u8],
    answer: &mut Result<Ran, Refusal>,
) -> &'c [u8]
    ensures { Runs text.now coins.now «record».old answer.new result.now «record».new }
{
    let ran = simulate(text, coins, record);
    *answer = ran;
    match ran {
        Ok(ran) => &coins[ran.tally.taken..],
        Err(_) => coins,
    }
}
