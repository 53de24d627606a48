// Prints a run: the circuit is run into a record, and the lines of the record are put into the lent buffer once they are known to fit. The input
// of the program `shot` holds the coins in its first line and the circuit behind it.
#![tactic(auto)]

ghost use Rattle.std.specs.Prelude.{◌≡◌, ◌≤◌, eqb, length, position};
ghost use Rattle.answers.specs.Verdict.{accepted};
ghost use Rattle.answers.specs.Refusals.{Writes};
ghost use Rattle.lines.specs.Parts.Putting.{Puts};
ghost use Rattle.walking.specs.Parts.Walk.{lines_of};
ghost use Rattle.circuit.specs.Lines.{end_byte};
ghost use Rattle.records.specs.Record.{outcome_of, longest_record};
ghost use Rattle.print.specs.Printed.{printed, Recorded, too_long, shot_printed};
ghost use Rattle.print.specs.Parts.Sheets.{sheet_lines, Ready, ReadyAs, answer_lines, Answered};

use answers::Refusal;
use checking::Heading;
use clifford::{Op, Outcome};
use lines::Lines;
use run::Ran;

// The longest input that `shot` runs.
pub const MOST_INPUT: usize = 60000;

// The outcome of a character of the record.
fn outcome(mark: u8) -> Outcome
    ensures { result ≡ outcome_of mark }
{
    Outcome {
        random: matches!(mark, b'2' | b'3'),
        value: matches!(mark, b'1' | b'3'),
    }
}

fn put_run(lines: &mut Lines, text: &[u8], heading: Heading, sheet: &[u8])
    requires at_front { lines.old.at ≡ 0 }
    requires ready { Ready text.now heading.body heading.qubits sheet.now }
    ensures { Puts (sheet_lines (lines_of heading.qubits heading.body text.now) heading.qubits sheet.now) lines.old lines.new }
{
    let mut at = heading.body;
    let mut line: usize = 2;
    let mut measured = 0;
    while let Some((op, behind)) = circuit::line_at(text, at) {
        if let Op::Measure(_, qubit) = op {
            print_lines::put_outcome(lines, line, qubit, outcome(sheet[measured]));
            measured += 1;
        }
        at = behind;
        line += 1;
    }
    let n = heading.qubits;
    print_lines::put_rows(lines, &sheet[measured..], n + 1, n + n);
}

fn put_answer(lines: &mut Lines, text: &[u8], ran: Result<Heading, Refusal>, sheet: &[u8])
    requires at_front { lines.old.at ≡ 0 }
    requires ready { ReadyAs text.now ran sheet.now }
    ensures { Puts (answer_lines text.now ran sheet.now) lines.old lines.new }
{
    match ran {
        Ok(heading) => put_run(lines, text, heading, sheet),
        Err(refusal) => print_lines::put_refusal(lines, refusal),
    }
}

// Where the operation lines of a run begin that came to its end.
fn answered(
    text: &[u8],
    coins: &[u8],
    sheet: &mut [u8],
    answer: &mut Result<Ran, Refusal>,
) -> Result<Heading, Refusal>
    requires { longest_record ≤ length sheet.old }
    ensures { Answered text.now coins.now sheet.old answer.new result sheet.new }
{
    run::run(text, coins, sheet, answer);
    (*answer)?;
    checking::head(text)
}

// One run for both: its record goes to the lent sheet, its size and tally to the answer, as `run::run` puts them, and what it prints to the buffer.
pub fn run_and_print(
    circuit: &[u8],
    coins: &[u8],
    sheet: &mut [u8; limits::LONGEST_RECORD],
    answer: &mut Result<Ran, Refusal>,
    out: &mut [u8],
) -> Result<usize, Refusal>
    ensures recorded { Recorded circuit.now coins.now sheet.old answer.new sheet.new }
    ensures printed { Writes (accepted (printed circuit.now coins.now)) out.old result out.new }
{
    let ran = answered(circuit, coins, sheet, answer);
    let mut measure = Lines {
        out: &mut [],
        at: 0,
    };
    put_answer(&mut measure, circuit, ran, sheet);
    if out.len() < measure.at {
        return Err(Refusal::NoRoom);
    }
    let mut lines = Lines { out, at: 0 };
    put_answer(&mut lines, circuit, ran, sheet);
    Ok(lines.at)
}

pub fn print(circuit: &[u8], coins: &[u8], out: &mut [u8]) -> Result<usize, Refusal>
    ensures { Writes (accepted (printed circuit.now coins.now)) out.old result out.new }
{
    let mut sheet = [0u8; limits::LONGEST_RECORD];
    let mut answer = Err(Refusal::NoRecord); // until the run answers
    run_and_print(circuit, coins, &mut sheet, &mut answer, out)
}

fn put_too_long(out: &mut [u8]) -> Result<usize, Refusal>
    ensures { Writes (accepted too_long) out.old result out.new }
{
    let text = b"input too long\n";
    if out.len() < text.len() {
        return Err(Refusal::NoRoom);
    }
    out[..text.len()].copy_from_slice(text);
    Ok(text.len())
}

// Where the first line ends.
fn first_end(input: &[u8]) -> Option<usize>
    ensures { result ≡ position (λ b. eqb b end_byte) input.now }
{
    input.iter().position(|b| *b == b'\n')
}

pub fn shot(input: &[u8], out: &mut [u8]) -> Result<usize, Refusal>
    ensures { Writes (accepted (shot_printed input.now)) out.old result out.new }
{
    if MOST_INPUT < input.len() {
        return put_too_long(out);
    }
    match first_end(input) {
        Some(end) => print(&input[end + 1..], &input[..end], out),
        None => print(b"", input, out),
    }
}
