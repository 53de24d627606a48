// The public face of the library: every function that a user calls, with the promise that he relies on. Nothing is required of any argument. Each promise cites
// a definition in the words of documents 01 and 02: `check_of` (crate checking), `meaning` (circuit), `run_of` (run), `read_of` (records), `copy_of` and `same_of`
// (archive), `product_of` (product) and `probability_of` (probability); `Writes`, `Runs`, `Hands` and `Tells` say what becomes of the answer, the coins and the lent bytes.
#![tactic(auto)]

ghost use Rattle.std.specs.Prelude.{◌≡◌};
ghost use Rattle.answers.specs.Refusals.{told, Writes};
ghost use Rattle.archive.specs.Copy.{copy_of};
ghost use Rattle.archive.specs.Same.{same_of, told_same};
ghost use Rattle.checking.specs.Check.{check_of};
ghost use Rattle.probability.specs.Probability.{probability_of, Tells};
ghost use Rattle.product.specs.Product.{product_of};
ghost use Rattle.reading.specs.Answer.{Hands};
ghost use Rattle.run.specs.Run.{Runs};

use answers::Refusal;
use archive::Unread;
use checking::Size;
use packing::Words;
use probability::Chance;
use reading::Record;
use run::Ran;

// n and the number of operations of a circuit text, or one of the refusals 1 to 6 with its line.
pub fn check(circuit: &[u8]) -> Result<Size, Refusal>
    ensures { told result ≡ check_of circuit.now }
{
    checking::check(circuit)
}

// Runs a circuit with lent coins and writes its record at the buffer's front. The answer: the record's length, and how many were measured, random and taken.
// What comes back is the unused rest of the coins; when refused, all of them.
pub fn run<'c>(
    circuit: &[u8],
    coins: &'c [u8],
    sheet: &mut [u8],
    answer: &mut Result<Ran, Refusal>,
) -> &'c [u8]
    ensures { Runs circuit.now coins.now sheet.old answer.new result.now sheet.new }
{
    run::run(circuit, coins, sheet, answer)
}

// Reads the last record of the lent bytes: hands out that part of them that holds the outcomes, with the record's length and n, and the rows as packed words.
// When refused, the words are those of the start rows of n = 1.
pub fn read<'b>(bytes: &'b [u8], words: &mut Words) -> Result<Record<'b>, Refusal>
    ensures { Hands bytes.now result words.new }
{
    reading::read_record(bytes, words)
}

// Copies the last record out: reads it, then writes it from what was read.
pub fn copy(bytes: &[u8], out: &mut [u8]) -> Result<usize, Refusal>
    ensures { Writes (copy_of bytes.now) out.old result out.new }
{
    archive::copy(bytes, out)
}

// Whether the last records of two lots of bytes describe the same state.
pub fn same_state(first: &[u8], second: &[u8]) -> Result<bool, Unread>
    ensures { told_same result ≡ same_of first.now second.now }
{
    archive::same_state(first, second)
}

// The product of two rows, texts in and text out.
pub fn product(first: &[u8], second: &[u8], out: &mut [u8]) -> Result<usize, Refusal>
    ensures { Writes (product_of first.now second.now) out.old result out.new }
{
    product::product(first, second, out)
}

// How likely a readout is that states `0` or `1` for each measurement: possible, with the number k of random measurements and one half to the power k; or
// impossible, with the line of the first fixed measurement that disagrees. No coins are taken: the stated values serve as coins.
pub fn probability(circuit: &[u8], stated: &[u8]) -> Result<Chance, Refusal>
    ensures { Tells (probability_of circuit.now stated.now) result }
{
    probability::probability(circuit, stated)
}
