// The value of a fixed measurement: the sign of an ordered product of stabilizers, in one pass over the columns and with no loop over the rows.
// Y is i^3 times Z X. So each row is written with its Z before its X, at 3 for a Y; then each X of a column is carried to the front, at 2
// for each Z of its own row or an earlier one; and X Z, which may be left of the column, is i^3 times Y. The rows stand in two words, and
// the parities of the second start from the last one of the first.
#![tactic(auto)]

ghost use Rattle.std.specs.Prelude.{IfSome, ◌&&◌, ◌≡◌, ℕ, suc, ◌<◌, ◌≤◌};
ghost use Rattle.limits.specs.Limits.{most_qubits};
ghost use Rattle.pauli.specs.Rows.{odd_number};
ghost use Rattle.clifford.specs.Measurement.{fixed_value};
ghost use Rattle.words.specs.Bit.{bit};
ghost use Rattle.packing.specs.View.{rows_of};
ghost use Rattle.measure_fixed.specs.Parts.Column.{count, power_of, pair, all_powers, OnlyRow};

use packing::{Packed, Words};

// Bit k is the parity of the bits of z up to k, the last one with them.
fn parities(z: u64) -> u64
    ensures { (k : ℕ) → k < 64 → bit k result ≡ odd_number (λ i. bit i z) (suc k) }
{
    let a = z ^ (z << 1);
    let b = a ^ (a << 2);
    let c = b ^ (b << 4);
    let d = c ^ (c << 8);
    let e = d ^ (d << 16);
    e ^ (e << 32)
}

// 1 where x and z both have an odd number of bits, p having the parities of z.
fn both_odd(x: u64, p: u64) -> u64
    ensures { (result ≤ 1) × (result ≡ count (odd_number (λ i. bit i x) 64 && bit 63 p)) }
{
    if p >> 63 == 1 { parities(x) >> 63 } else { 0 }
}

// The power of i of the product of the rows of sel and tel in their order, modulo four. A bit of h0 or h1 is 3 for an odd number of Y in its row,
// each bit of twos is 2: for a minus, for two Y of a row, for an X behind an odd number of Z. A column with neither X nor Y among the rows adds nothing.
// It is written out at each call: where tel is written 0 nothing is left of the second word.
#[inline(always)]
fn powers(w: &Words, sel: u64, tel: u64, n: usize) -> u64
    requires { n ≤ most_qubits }
    ensures { power_of result ≡ all_powers most_qubits n w.now (pair sel tel) }
{
    let mut twos = (sel & w[packing::SIGNS + 2]) ^ (tel & w[packing::SIGNS + 3]);
    let mut h0 = 0u64;
    let mut h1 = 0u64;
    let mut columns = 0u64;
    for j in 0..n {
        let xi = 8 * j;
        let zi = 8 * j + 4;
        let x0 = sel & w[xi + 2];
        let x1 = tel & w[xi + 3];
        if x0 | x1 != 0 {
            let z0 = sel & w[zi + 2];
            let z1 = tel & w[zi + 3];
            let y0 = x0 & z0;
            let y1 = x1 & z1;
            let p0 = parities(z0);
            let p1 = parities(z1) ^ words::splat(p0, 63);
            twos ^= (h0 & y0) ^ (p0 & x0) ^ (h1 & y1) ^ (p1 & x1);
            h0 ^= y0;
            h1 ^= y1;
            columns += both_odd(x0 ^ x1, p1);
        }
    }
    let rows = u64::from(h0.count_ones()) + u64::from(h1.count_ones());
    3 * columns + 3 * rows + 2 * u64::from(twos.count_ones())
}

// The sign of the one row that a word selects, of the rows with these signs; none where it selects no row or more.
fn lone_sign(sel: u64, signs: u64) -> Option<bool>
    ensures { IfSome result (λ minus. OnlyRow sel signs minus) }
{
    let p = sel.trailing_zeros();
    if p < 64 && sel >> p == 1 {
        Some((signs >> p) & 1 == 1)
    } else {
        None
    }
}

// The stabilizers whose partners have X or Y at a, multiplied: 1 when the sign is minus. Of none the sign is plus, and of one it is its own.
pub fn fixed_value(rows: &Packed, a: usize) -> bool
    requires { a < rows.now.qubits }
    ensures { result ≡ fixed_value rows.now.qubits a (rows_of rows.now.qubits rows.now.words) }
{
    let n = rows.qubits;
    let w = &rows.words;
    let sel = w[8 * a];
    let tel = w[8 * a + 1];
    if tel == 0 {
        if sel == 0 {
            return false;
        }
        if let Some(minus) = lone_sign(sel, w[packing::SIGNS + 2]) {
            return minus;
        }
        return powers(w, sel, 0, n) / 2 % 2 == 1;
    }
    if sel == 0 {
        if let Some(minus) = lone_sign(tel, w[packing::SIGNS + 3]) {
            return minus;
        }
    }
    powers(w, sel, tel, n) / 2 % 2 == 1
}
