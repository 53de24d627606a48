// The seven gates on a tableau in one lent array, for all rows at once. A gate is a few small steps, each of which loads groups of four words, stores
// one group, and leaves: values that two stored groups share would keep the compiler from using vectors.
#![tactic(auto)]

ghost use Rattle.std.specs.Prelude.{◌≡◌, ◌+◌, ◌<◌, ◌≤◌};
ghost use Rattle.limits.specs.Limits.{most_qubits};
ghost use Rattle.clifford.specs.Gates.{Fits};
ghost use Rattle.pauli.specs.Letters.{◌⊕◌};
ghost use Rattle.packing.specs.View.{sign_words, word_count, Words, bit_at};
ghost use Rattle.packing.specs.Parts.Changes.{Changed};
ghost use Rattle.groups.specs.Parts.Rows.{row_bit, All};
ghost use Rattle.columns.specs.Parts.Gated.{Gated};
ghost use Rattle.columns.specs.Parts.Picked.{Shuffled, one_turns, two_turns};

use clifford::{Gate, One, Two};
use groups::Group;
use packing::Words;
use std::hint::select_unpredictable;

// The words from `from` on, added to those from `to` on.
fn add(w: &mut Words, to: usize, from: usize)
    requires { (to + 4 ≤ word_count) × (from + 4 ≤ word_count) }
    ensures { Changed to (λ s. bit_at w.old to s ⊕ bit_at w.old from s) w.old w.new }
{
    let old = Group::load(w, to);
    let more = Group::load(w, from);
    (old ^ more).store(w, to);
}

// The signs turn where a group is set.
fn turn(w: &mut Words, turned: Group)
    ensures { Changed sign_words (λ s. bit_at w.old sign_words s ⊕ row_bit turned s) w.old w.new }
{
    let signs = Group::load(w, packing::SIGNS);
    (signs ^ turned).store(w, packing::SIGNS);
}

// Where a gate on two qubits turns signs: x of a and one bit of b are set, and z of a and the other bit of b differ; or, with y, are the same.
fn two_turns(w: &Words, xa: usize, za: usize, p: usize, q: usize, y: u64) -> Group
    requires { (xa + 4 ≤ word_count) × (za + 4 ≤ word_count) × (p + 4 ≤ word_count) × (q + 4 ≤ word_count) }
    ensures { All (λ s. row_bit result s ≡ two_turns w.now xa za p q y s) }
{
    let x = Group::load(w, xa);
    let z = Group::load(w, za);
    let u = Group::load(w, p);
    let v = Group::load(w, q);
    let differ = (z ^ v) ^ Group::all(y);
    (x & u) & differ
}

// Where a gate on one qubit turns signs: both of two words are set, or one is and y.
fn one_turns(w: &Words, pa: usize, pb: usize, zi: usize, y: u64) -> Group
    requires { (pa + 4 ≤ word_count) × (pb + 4 ≤ word_count) × (zi + 4 ≤ word_count) }
    ensures { All (λ s. row_bit result s ≡ one_turns w.now pa pb zi y s) }
{
    let a = Group::load(w, pa);
    let b = Group::load(w, pb);
    let z = Group::load(w, zi);
    (a & b) ^ (z & Group::all(y))
}

// The letters of a gate on one qubit, whose x words stand from xi on and its z words behind them: x from fx, z from fz with the old x where `added` is set.
fn shuffle(w: &mut Words, xi: usize, fx: usize, fz: usize, added: u64)
    requires { (xi + 8 ≤ word_count) × (fx + 4 ≤ word_count) × (fz + 4 ≤ word_count) }
    ensures { Shuffled xi fx fz added w.old w.new }
{
    let x = Group::load(w, fx);
    let z = Group::load(w, fz);
    let old = Group::load(w, xi);
    let sum = z ^ (old & Group::all(added));
    x.store(w, xi);
    sum.store(w, xi + 4);
}

// A gate on one qubit, or what stands for one, as its letter's number does. Which it is decides no jump of the processor's: the gate picks indices.
pub fn one<G: Into<One>>(w: &mut Words, gate: G, a: usize)
    requires { a < most_qubits }
    ensures { (g : One) × G.converts gate g × Gated (Gate.One g a) w.old w.new }
{
    let gate = gate.into();
    let xi = 8 * a;
    let zi = 8 * a + 4;
    let h = gate == One::H;
    let s = gate == One::S;
    let x = gate == One::PauliX;
    let y = gate == One::PauliY;
    let pa = select_unpredictable(x, zi, xi);
    let pb = select_unpredictable(h | s | x, zi, xi);
    let ys = select_unpredictable(y, u64::MAX, 0);
    let fx = select_unpredictable(h, zi, xi);
    let fz = select_unpredictable(h, xi, zi);
    let added = select_unpredictable(s, u64::MAX, 0);
    let turned = one_turns(w, pa, pb, zi, ys);
    turn(w, turned);
    shuffle(w, xi, fx, fz, added);
}

// A gate on two qubits: CX, or CZ, which is CX with the bits of b exchanged. Which it is decides no jump of the processor's.
pub fn two(w: &mut Words, gate: Two, a: usize, b: usize)
    requires { (a < most_qubits) × (b < most_qubits) × (a ≡ b → ⊥) }
    ensures { Gated (Gate.Two gate a b) w.old w.new }
{
    let xa = 8 * a;
    let za = 8 * a + 4;
    let xb = 8 * b;
    let zb = 8 * b + 4;
    let cx = gate == Two::Cx;
    let p = select_unpredictable(cx, zb, xb);
    let q = select_unpredictable(cx, xb, zb);
    let y = select_unpredictable(cx, u64::MAX, 0);
    let turned = two_turns(w, xa, za, p, q, y);
    add(w, za, p);
    add(w, q, xa);
    turn(w, turned);
}

pub fn gate(w: &mut Words, g: Gate)
    requires { Fits most_qubits g }
    ensures { Gated g w.old w.new }
{
    match g {
        Gate::One(k, a) => one(w, k, a),
        Gate::Two(k, a, b) => two(w, k, a, b),
    }
}
