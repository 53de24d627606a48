// Whether the rows of a record are paired properly: which rows anticommute with a row is held against the row's partner, for all rows at once. In the order of the rows the first that
// is wrong with any other is the lower row of the first wrong pair, since those before it are right with all.
#![tactic(auto)]

ghost use Rattle.std.specs.Prelude.{◌≡◌, ◌+◌, ◌≤◌, ◌<◌, ◌↔◌, eqb, IsTrue};
ghost use Rattle.limits.specs.Limits.{most_qubits};
ghost use Rattle.groups.specs.Parts.Rows.{row_bit, All};
ghost use Rattle.packing.specs.View.{rows_of};
ghost use Rattle.records.specs.Reading.{first_wrong};
ghost use Rattle.read_rows.specs.Parts.Loading.{Loaded};
ghost use Rattle.pairing.specs.Parts.Partners.{partner, Rights};

use column_sums::ROWS;
use groups::Group;
use packing::Words;
use read_rows::RowTexts;

// The number that the partner of row i of the 2n has among the packed rows.
fn partner(n: usize, i: usize) -> usize
    requires { (n ≤ most_qubits) × (i < n + n) }
    ensures { result ≡ partner n i }
{
    if i < n {
        limits::MOST_QUBITS + i
    } else {
        i - n
    }
}

fn tells_only(g: Group, t: usize) -> bool
    ensures { IsTrue result ↔ All (λ s. row_bit g s ≡ eqb s t) }
{
    g == Group::row(t)
}

// The first row of the 2n that other rows than its partner anticommute with, or not its partner.
fn first_wrong(found: &[Group; ROWS], n: usize) -> Option<usize>
    requires { n ≤ most_qubits }
    ensures { Rights found.now n result }
{
    for i in 0..n + n {
        if !tells_only(found[i], partner(n, i)) {
            return Some(i);
        }
    }
    None
}

// The lower row of the first wrong pair of the 2n rows, which the words hold.
pub fn unpaired(rows: &RowTexts, w: &Words) -> Option<usize>
    requires { Loaded rows.now.bytes.now rows.now.qubits w.now }
    ensures { result ≡ first_wrong rows.now.qubits (rows_of rows.now.qubits w.now) }
{
    let found = column_sums::against(rows, w);
    first_wrong(&found, rows.qubits)
}
