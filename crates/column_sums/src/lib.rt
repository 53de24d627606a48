// Which packed rows anticommute with each row of a record, for all packed rows at once. A letter that a row has on a qubit tells which of them it differs from there, a bit for
// each; of two qubits at a time the sixteen sums of such bits are made beforehand, and each row picks one for every two of its letters.
#![tactic(auto)]

ghost use Rattle.std.specs.Prelude.{◌≡◌, ℕ, ◌+◌, ◌*◌, ◌/◌, ◌≤◌, ◌<◌, length, get_or};
ghost use Rattle.limits.specs.Limits.{most_qubits};
ghost use Rattle.pauli.specs.Letters.{differ};
ghost use Rattle.pauli.specs.Rows.{odd_number};
ghost use Rattle.packing.specs.View.{letter_at, Holds};
ghost use Rattle.groups.specs.Parts.Rows.{row_bit, All};
ghost use Rattle.column_sums.specs.Parts.Sums.{half_most, told_at, spelled_number, letter_numbered, Summed, Picks, Against};

use groups::Group;
use packing::Words;
use read_rows::RowTexts;

// Qubit j is taken together with qubit j + half, where half is at most this.
pub const HALF: usize = limits::MOST_QUBITS / 2;

// Sixteen sums for each two qubits.
pub const SUMS: usize = 16 * HALF;

// As many rows as a record can have.
pub const ROWS: usize = 2 * limits::MOST_QUBITS;

// Which rows have on qubit j another letter than the one of number e, neither being I: 0 is I, 1 X, 2 Z and 3 Y.
fn differing(w: &Words, j: usize, e: usize) -> Group
    requires { (j < most_qubits) × (e < 4) }
    ensures { All (λ s. row_bit result s ≡ differ (letter_numbered e) (letter_at w.now s j)) }
{
    let x = Group::load(w, 8 * j);
    let z = Group::load(w, 8 * j + 4);
    let by_x = Group::all(words::splat(e as u64, 0)) & z;
    let by_z = Group::all(words::splat(e as u64, 1)) & x;
    by_x ^ by_z
}

// The number of the letter that a byte spells.
fn number(b: u8) -> u8
    ensures { result ≡ spelled_number b }
{
    u8::from(pauli::has_x(b)) + 2 * u8::from(pauli::has_z(b))
}

// Qubit j is taken together with qubit half + j: of the two there are sixteen sums, for each letter of the one and each of the other.
#[derive(Drop)]
struct Sums {
    half: usize,
    table: [Group; SUMS],
    ghost most: { half ≤ half_most },
}

impl Sums {
    // The sixteen sums of qubits j and half + j.
    fn put(&mut self, w: &Words, j: usize)
        requires { (j < self.old.half) × Summed w.now self.old.half (16 * j) self.old.table }
        ensures half { self.new.half ≡ self.old.half }
        ensures table { Summed w.now self.old.half (16 * (j + 1)) self.new.table }
    {
        let x = differing(w, j, 1);
        let z = differing(w, j, 2);
        let y = differing(w, j, 3);
        let other = self.half + j;
        for e in 0..4 {
            let s = differing(w, other, e);
            let o = 16 * j + 4 * e;
            self.table[o] = s;
            self.table[o + 1] = x ^ s;
            self.table[o + 2] = z ^ s;
            self.table[o + 3] = y ^ s;
        }
    }

    fn fill(&mut self, w: &Words)
        ensures half { self.new.half ≡ self.old.half }
        ensures table { Summed w.now self.new.half (16 * self.new.half) self.new.table }
    {
        for j in 0..self.half {
            self.put(w, j);
        }
    }

    // Which of the sixteen sums of each two qubits the letters of a row pick, lent so that none of it is copied.
    fn pick(&self, letters: &[u8], p: &mut [u8; HALF])
        requires { (self.now.half ≤ length letters.now) × (length letters.now ≤ self.now.half + self.now.half) }
        ensures { Picks letters.now self.now.half p.new }
    {
        let (low, high) = letters.split_at(self.half);
        for (j, b) in low.iter().enumerate() {
            p[j] = number(*b);
        }
        for (k, b) in high.iter().enumerate() {
            p[k] += 4 * number(*b);
        }
    }

    // The sum of the sums picked.
    fn picked(&self, p: &[u8; HALF]) -> Group
        requires { (j : ℕ) → j < self.now.half → get_or p.now j 0 < 16 }
        ensures { All (λ s. row_bit result s ≡ odd_number (λ j. told_at self.now.table (16 * j + get_or p.now j 0) s) self.now.half) }
    {
        let mut sum = Group::all(0);
        for j in 0..self.half {
            sum = sum ^ self.table[16 * j + usize::from(p[j])];
        }
        sum
    }
}

// Of each of the 2n rows, which packed rows anticommute with it.
pub fn against(rows: &RowTexts, w: &Words) -> [Group; ROWS]
    requires { Holds rows.now.qubits w.now }
    ensures { Against rows.now.bytes.now rows.now.qubits w.now (rows.now.qubits + rows.now.qubits) result }
{
    let mut sums = Sums {
        half: rows.qubits.div_ceil(2),
        table: [Group::all(0); SUMS],
    };
    sums.fill(w);
    let mut p = [0u8; HALF];
    let mut found = [Group::all(0); ROWS];
    for i in 0..2 * rows.qubits {
        let row = rows.row(i);
        sums.pick(&row[1..], &mut p);
        found[i] = sums.picked(&p);
    }
    found
}
