// The search for the row of a random measurement, in the two words that have the x bits of the stabilizers on a qubit.
#![tactic(auto)]

ghost use Rattle.std.specs.Prelude.{◌≡◌, ◌<◌};
ghost use Rattle.clifford.specs.Measurement.{random_row};
ghost use Rattle.packing.specs.View.{rows_of};

use packing::Packed;

// The lowest stabilizer that has X or Y at a. Nothing is set from row n on, so that no row is left out.
pub fn random_row(rows: &Packed, a: usize) -> Option<usize>
    requires { a < rows.now.qubits }
    ensures { result ≡ random_row rows.now.qubits a (rows_of rows.now.qubits rows.now.words) }
{
    let x = rows.words[8 * a + 2];
    let z = rows.words[8 * a + 3];
    let p = x.trailing_zeros();
    let q = z.trailing_zeros();
    if p < 64 {
        Some(p as usize)
    } else if q < 64 {
        Some(64 + q as usize)
    } else {
        None
    }
}
