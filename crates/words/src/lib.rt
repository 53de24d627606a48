// Whole words from a single bit, for the functions that work on all rows of a word at once.
#![tactic(auto)]

ghost use Rattle.std.specs.Prelude.{◌≡◌, ℕ, ◌<◌};
ghost use Rattle.words.specs.Bit.{bit};

// Bit j of w, 64 times. A product and no `if`: of that the compiler makes a choice for each word in place of vectors.
pub fn splat(w: u64, j: usize) -> u64
    requires { j < 64 }
    ensures { (k : ℕ) → k < 64 → bit k result ≡ bit j w }
{
    ((w >> j) & 1) * u64::MAX
}
