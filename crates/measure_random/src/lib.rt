// The random measurement on a tableau in one lent array. Both rows of number p count as all I while the others are multiplied, so that the partner, which is under the mask,
// becomes old stabilizer p, and stabilizer p itself is left for Z.
#![tactic(auto)]

ghost use Rattle.std.specs.Prelude.{◌≡◌, ◌<◌, ◌≤◌};
ghost use Rattle.limits.specs.Limits.{most_qubits};
ghost use Rattle.clifford.specs.Measurement.{collapsed};
ghost use Rattle.packing.specs.View.{Words, rows_of, Holds};
ghost use Rattle.groups.specs.Parts.Rows.{row_bit};
ghost use Rattle.measure_random.specs.Parts.Settled.{Settled};

use groups::Group;
use multiply_rows::RowSets;
use packing::{Packed, Words};
use std::hint::select_unpredictable;

// The row that `own` has, which is all I, becomes Z on a with the coin's sign.
fn settle(w: &mut Words, a: usize, own: Group, coin: bool)
    requires { a < most_qubits }
    ensures { Settled a (row_bit own) coin w.old w.new }
{
    let zi = 8 * a + 4;
    let z = Group::load(w, zi) ^ own;
    let minus = own & Group::all(select_unpredictable(coin, u64::MAX, 0));
    let signs = Group::load(w, packing::SIGNS) ^ minus;
    z.store(w, zi);
    signs.store(w, packing::SIGNS);
}

// The random measurement of a at stabilizer p.
pub fn collapse(rows: &mut Packed, a: usize, p: usize, coin: bool)
    requires { (a < rows.old.qubits) × (p < rows.old.qubits) }
    ensures { (rows.new.qubits ≡ rows.old.qubits) × (rows_of rows.old.qubits rows.new.words ≡ collapsed rows.old.qubits a p coin (rows_of rows.old.qubits rows.old.words)) }
{
    let n = rows.qubits;
    let w = &mut rows.words;
    let partner = Group::row(p);
    let own = Group::row(limits::MOST_QUBITS + p);
    let kept = !(partner ^ own);
    let x = Group::load(w, 8 * a);
    let multiplied = (x & kept) ^ partner;
    multiply_rows::multiply(w, n, p, RowSets { kept, multiplied });
    settle(w, a, own, coin);
}
