// The lines that a run prints, put behind one another.
#![tactic(auto)]

ghost use Rattle.std.specs.Prelude.{◌+◌, ◌*◌, ◌≤◌, ◌<◌, ◌^◌, length};
ghost use Rattle.answers.specs.Refusals.{number_of, place_of};
ghost use Rattle.lines.specs.Parts.Putting.{Puts};
ghost use Rattle.print_lines.specs.Line.{outcome_line, refusal_line};
ghost use Rattle.print_lines.specs.Rows.{parts_closed};

use answers::Refusal;
use clifford::Outcome;
use lines::Lines;

pub fn put_outcome(lines: &mut Lines, line: usize, qubit: usize, outcome: Outcome)
    requires { lines.old.at + 51 < 2 ^ 64 }
    ensures { Puts (outcome_line line qubit outcome) lines.old lines.new }
{
    lines.number(line);
    lines.byte(b' ');
    lines.number(qubit);
    lines.byte(b' ');
    lines.text(if outcome.random { b"random" } else { b"fixed" });
    lines.byte(b' ');
    lines.byte(if outcome.value { b'1' } else { b'0' });
    lines.byte(b'\n');
}

// The same text as the refusal's `Display`, put without `write!`, of which `Lines::number` speaks.
pub fn put_refusal(lines: &mut Lines, refusal: Refusal)
    requires { lines.old.at + 50 < 2 ^ 64 }
    ensures { Puts (refusal_line (number_of refusal) (place_of refusal)) lines.old lines.new }
{
    lines.text(b"refused ");
    lines.number(refusal.number() as usize);
    lines.byte(b' ');
    lines.number(refusal.place());
    lines.byte(b'\n');
}

// So many rows of one width, which stand end to end, each as a line.
pub fn put_rows(lines: &mut Lines, rows: &[u8], width: usize, count: usize)
    requires within { count * width ≤ length rows.now }
    requires room { lines.old.at + (count * width + count) < 2 ^ 64 }
    ensures { Puts (parts_closed width rows.now count) lines.old lines.new }
{
    for i in 0..count {
        let from = i * width;
        lines.text(&rows[from..from + width]);
        lines.byte(b'\n');
    }
}
