// Many rows times one row, in one pass over the columns. At each column all rows under a mask are multiplied at once, the powers of i counted modulo four in two
// bits a row.
#![tactic(auto)]

ghost use Rattle.std.specs.Prelude.{◌&&◌, ◌+◌, ◌*◌, ◌<◌, ◌≤◌};
ghost use Rattle.limits.specs.Limits.{most_qubits};
ghost use Rattle.pauli.specs.Letters.{◌⊕◌};
ghost use Rattle.packing.specs.View.{sign_words, Words, bit_at, row_at};
ghost use Rattle.packing.specs.Parts.Changes.{Changed};
ghost use Rattle.groups.specs.Parts.Rows.{row_bit};
ghost use Rattle.multiply_rows.specs.Parts.Steps.{Lettered, Timed, erased, Keeps, Multiplied};

use groups::Group;
use packing::Words;

// The powers of i counted so far, modulo four, of all rows: high bits and low bits.
#[derive(Drop)]
pub struct Powers {
    pub hi: Group,
    pub lo: Group,
}

// The rows that are kept, and those of them that are multiplied; all others are cleared.
#[derive(Clone, Copy)]
pub struct RowSets {
    pub kept: Group,
    pub multiplied: Group,
}

// The letters of qubit j that are kept, times the letter whose bits are those of px and pz, where rows are multiplied. The counts grow by the powers.
fn times(w: &mut Words, j: usize, px: Group, pz: Group, sets: RowSets, counts: Powers) -> Powers
    requires { j < most_qubits }
    ensures { Timed j (row_bit px) (row_bit pz) (row_bit sets.kept) (row_bit sets.multiplied) counts result w.old w.new }
{
    let xi = 8 * j;
    let zi = 8 * j + 4;
    let x = Group::load(w, xi) & sets.kept;
    let z = Group::load(w, zi) & sets.kept;
    let nx = x ^ (px & sets.multiplied);
    let nz = z ^ (pz & sets.multiplied);
    let t = x & pz;
    let odd = (t ^ (z & px)) & sets.multiplied;
    let carry = (counts.lo ^ (nx ^ nz)) ^ t;
    nx.store(w, xi);
    nz.store(w, zi);
    Powers {
        hi: counts.hi ^ (odd & carry),
        lo: counts.lo ^ odd,
    }
}

// The letters of qubit j in word g, but those that `own` has not.
fn erase(w: &mut Words, j: usize, g: usize, own: u64)
    requires { (j < most_qubits) × (g < 4) }
    ensures { Lettered j (erased j g own w.old) w.old w.new }
{
    w[8 * j + g] &= own;
    w[8 * j + 4 + g] &= own;
}

// The signs that are kept, turned where rows are multiplied and the count's high bit and `minus` differ.
fn sign(w: &mut Words, hi: Group, minus: Group, sets: RowSets)
    ensures { Changed sign_words (λ s. (bit_at w.old sign_words s && row_bit sets.kept s) ⊕ (row_bit sets.multiplied s && (row_bit hi s ⊕ row_bit minus s))) w.old w.new }
{
    let kept = Group::load(w, packing::SIGNS) & sets.kept;
    let turned = sets.multiplied & (hi ^ minus);
    (kept ^ turned).store(w, packing::SIGNS);
}

// Both rows of number p, and these alone, are cleared, and then rows are multiplied by old stabilizer p. In a column where that row has I nothing is multiplied, and its own word
// has nothing to clear.
pub fn multiply(w: &mut Words, n: usize, p: usize, sets: RowSets)
    requires { (n ≤ most_qubits) × (p < most_qubits) × Keeps p (row_bit sets.kept) }
    ensures { Multiplied n p (row_bit sets.multiplied) (row_at n w.old (most_qubits + p)) w.old w.new }
{
    let g = p / 64;
    let q = p % 64;
    let own = !(1u64 << q);
    let none = Group::all(0);
    let mut counts = Powers { hi: none, lo: none };
    for j in 0..n {
        let x = w[8 * j + (2 + g)];
        let z = w[8 * j + 4 + (2 + g)];
        if ((x | z) >> q) & 1 == 1 {
            let px = Group::all(words::splat(x, q));
            let pz = Group::all(words::splat(z, q));
            counts = times(w, j, px, pz, sets, counts);
        } else {
            erase(w, j, g, own);
        }
    }
    let minus = Group::all(words::splat(w[packing::SIGNS + (2 + g)], q));
    sign(w, counts.hi, minus, sets);
}
