// Four words side by side, which have a bit for each row: loaded and stored at once, and what is done to all rows of them. The words are written out one by one, so that the
// compiler makes vectors of them.
#![tactic(auto)]

ghost use Rattle.std.specs.Prelude.{not, ◌&&◌, ◌≡◌, ◌+◌, ◌%◌, ◌≤◌, eqb};
ghost use Rattle.pauli.specs.Letters.{◌⊕◌};
ghost use Rattle.words.specs.Bit.{bit};
ghost use Rattle.packing.specs.View.{bit_at};
ghost use Rattle.packing.specs.Parts.Changes.{Replaced};
ghost use Rattle.groups.specs.Parts.Rows.{row_bit, All};

use std::hint::select_unpredictable;
use std::ops::{BitAnd, BitXor, Not};

// Two groups are equal where the same rows are set in both.
#[derive(Clone, Copy, PartialEq, Eq)]
pub struct Group {
    pub a: u64,
    pub b: u64,
    pub c: u64,
    pub d: u64,
}

impl Group {
    // The four words from o on.
    pub fn load<const N: usize>(w: &[u64; N], o: usize) -> Self
        requires { o + 4 ≤ N }
        ensures { All (λ s. row_bit result s ≡ bit_at w.now o s) }
    {
        Group {
            a: w[o],
            b: w[o + 1],
            c: w[o + 2],
            d: w[o + 3],
        }
    }

    pub fn store<const N: usize>(self, w: &mut [u64; N], o: usize)
        requires { o + 4 ≤ N }
        ensures { Replaced N o (row_bit self) w.old w.new }
    {
        w[o] = self.a;
        w[o + 1] = self.b;
        w[o + 2] = self.c;
        w[o + 3] = self.d;
    }

    // One word, four times.
    pub fn all(word: u64) -> Self
        ensures { All (λ s. row_bit result s ≡ bit (s % 64) word) }
    {
        Group {
            a: word,
            b: word,
            c: word,
            d: word,
        }
    }

    // Row t alone.
    pub fn row(t: usize) -> Self
        ensures { All (λ s. row_bit result s ≡ eqb s t) }
    {
        let b = 1u64 << (t % 64);
        Group {
            a: select_unpredictable(t / 64 == 0, b, 0),
            b: select_unpredictable(t / 64 == 1, b, 0),
            c: select_unpredictable(t / 64 == 2, b, 0),
            d: select_unpredictable(t / 64 == 3, b, 0),
        }
    }
}

// What is set in one of two, not in both.
impl BitXor for Group {
    type Output = Group;

    ghost bitxor_gives = { λ g h r. All (λ s. row_bit r s ≡ row_bit g s ⊕ row_bit h s) };

    fn bitxor(self, h: Group) -> Group {
        Group {
            a: self.a ^ h.a,
            b: self.b ^ h.b,
            c: self.c ^ h.c,
            d: self.d ^ h.d,
        }
    }
}

// What is set in both.
impl BitAnd for Group {
    type Output = Group;

    ghost bitand_gives = { λ g h r. All (λ s. row_bit r s ≡ (row_bit g s && row_bit h s)) };

    fn bitand(self, h: Group) -> Group {
        Group {
            a: self.a & h.a,
            b: self.b & h.b,
            c: self.c & h.c,
            d: self.d & h.d,
        }
    }
}

// What is not set.
impl Not for Group {
    type Output = Group;

    ghost not_gives = { λ g r. All (λ s. row_bit r s ≡ not (row_bit g s)) };

    fn not(self) -> Group {
        Group {
            a: !self.a,
            b: !self.b,
            c: !self.c,
            d: !self.d,
        }
    }
}
