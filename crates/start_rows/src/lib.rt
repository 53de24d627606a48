// The tableau that a run starts from.
#![tactic(auto)]

ghost use Rattle.std.specs.Prelude.{◌≡◌, ℕ, ◌<◌, ◌≤◌, get_or};
ghost use Rattle.limits.specs.Limits.{most_qubits};
ghost use Rattle.clifford.specs.Tableau.{start};
ghost use Rattle.packing.specs.View.{word_count, Words, rows_of, Holds};

use packing::{Packed, Words};

// No bit is set.
pub fn clear(w: &mut Words)
    ensures { Words w.new × ((k : ℕ) → k < word_count → get_or w.new k 0 ≡ 0) }
{
    *w = [0; packing::WORDS];
}

// Destabilizer i has X on qubit i, and stabilizer i has Z there, where nothing is set before.
fn put_letters(w: &mut Words, n: usize)
    requires { (n ≤ most_qubits) × ((k : ℕ) → k < word_count → get_or w.old k 0 ≡ 0) }
    ensures { Holds n w.new × (rows_of n w.new ≡ start n) }
{
    for i in 0..n {
        let g = i / 64;
        let b = 1u64 << (i % 64);
        let xi = 8 * i;
        let zi = 8 * i + 4;
        w[xi + g] = b;
        w[zi + (2 + g)] = b;
    }
}

// The start rows of n qubits in lent words.
pub fn start_words(w: &mut Words, n: usize)
    requires { n ≤ most_qubits }
    ensures { Holds n w.new × (rows_of n w.new ≡ start n) }
{
    clear(w);
    put_letters(w, n);
}

pub fn start(n: usize) -> Packed
    requires { n ≤ most_qubits }
    ensures { (result.qubits ≡ n) × (rows_of n result.words ≡ start n) }
{
    let mut words = [0; packing::WORDS];
    put_letters(&mut words, n);
    Packed { qubits: n, words }
}
