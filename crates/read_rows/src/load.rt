// The rows of a record as words, those of one word of every qubit at a time. Each row's letters go along the bytes of its eight rows, sixteen at
// a time in one register, and the bytes of a qubit are then put together.
ghost use Rattle.std.specs.Prelude.{cond, ◌≡◌, ℕ, ◌+◌, ◌*◌, ◌/◌, ◌%◌, ◌≤◌, ◌<◌, length, get_or};
ghost use Rattle.limits.specs.Limits.{most_qubits};
ghost use Rattle.pauli.specs.Letters.{x, z};
ghost use Rattle.pauli.specs.Texts.{letter_of};
ghost use Rattle.packing.specs.Parts.Planes.{plane_size, plane_bit};
ghost use Rattle.words.specs.Bit.{bit};
ghost use Rattle.read_rows.specs.Parts.Loading.{Turned, SlicedRows, Share, Placed, Loaded};

use crate::RowTexts;
use packing::{PLANE, Planes, Words};

fn chosen(on: bool, bit: u8) -> u8
    ensures { result ≡ cond on bit 0 }
{
    u8::from(on) * bit
}

// The letters of a row, into one bit of as many bytes.
fn slice(letters: &[u8], bit: u8, from: usize, p: &mut Planes)
    requires { from + length letters.now ≤ plane_size }
    ensures x_turned { Turned (λ j. x (letter_of (get_or letters.now j 0))) (length letters.now) bit from p.old.x p.new.x }
    ensures z_turned { Turned (λ j. z (letter_of (get_or letters.now j 0))) (length letters.now) bit from p.old.z p.new.z }
    ensures signs_kept { p.new.signs ≡ p.old.signs }
{
    for (j, b) in letters.iter().enumerate() {
        p.x[from + j] ^= chosen(pauli::has_x(*b), bit);
        p.z[from + j] ^= chosen(pauli::has_z(*b), bit);
    }
}

// The eight bytes of a qubit, as a word.
fn word(plane: &[u8; PLANE], j: usize) -> u64
    requires { j < most_qubits }
    ensures { (k : ℕ) → k < 64 → bit k result ≡ plane_bit plane.now k j }
{
    let mut bytes = [0u8; 8];
    for r in 0..8 {
        bytes[r] = plane[limits::MOST_QUBITS * r + j];
    }
    u64::from_le_bytes(bytes)
}

// How many of n destabilizers, or of n stabilizers, have their bits in word g.
fn share(n: usize, g: usize) -> usize
    requires { (n ≤ most_qubits) × (g < 4) }
    ensures { Share n g result }
{
    n.saturating_sub(64 * (g % 2)).min(64)
}

impl RowTexts<'_> {
    // The `count` rows from row `first` on.
    fn sliced(&self, first: usize, count: usize) -> Planes
        requires { (count ≤ 64) × (first + count ≤ self.now.qubits + self.now.qubits) }
        ensures { SlicedRows self.now.bytes.now self.now.qubits first count result }
    {
        let mut p = Planes {
            x: [0; PLANE],
            z: [0; PLANE],
            signs: 0,
        };
        for i in 0..count {
            let row = self.row(first + i);
            let from = limits::MOST_QUBITS * (i / 8);
            slice(&row[1..], 1 << (i % 8), from, &mut p);
            p.signs ^= u64::from(row[0] == b'-') << i;
        }
        p
    }

    // The `count` rows from row `first` on, as word g of every qubit and of the signs.
    fn place(&self, first: usize, count: usize, g: usize, w: &mut Words)
        requires { (count ≤ 64) × (g < 4) × (first + count ≤ self.now.qubits + self.now.qubits) }
        ensures { Placed self.now.bytes.now self.now.qubits first count g w.old w.new }
    {
        let p = self.sliced(first, count);
        for j in 0..self.qubits {
            w[8 * j + g] = word(&p.x, j);
            w[8 * j + 4 + g] = word(&p.z, j);
        }
        w[packing::SIGNS + g] = p.signs;
    }

    // All 2n rows, and nothing else.
    pub fn load(&self, w: &mut Words)
        ensures { Loaded self.now.bytes.now self.now.qubits w.new }
    {
        start_rows::clear(w);
        let n = self.qubits;
        for g in 0..4 {
            let count = share(n, g);
            if 0 < count {
                let first = n * (g / 2) + 64 * (g % 2);
                self.place(first, count, g, w);
            }
        }
    }
}
