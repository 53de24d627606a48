// Lines put one behind another into a lent buffer, as far as it reaches: what has no room is left out and counted all the same, so that one
// pass over a short buffer measures what another writes.
#![tactic(auto)]

ghost use Rattle.std.specs.Prelude.{◌≡◌, [], ◌∷◌, ◌+◌, ◌≤◌, ◌<◌, ◌^◌, length};
ghost use Rattle.lines.specs.Decimal.{decimal};
ghost use Rattle.lines.specs.Parts.Putting.{Puts};

// The buffer, and the position behind what was put.
#[derive(Drop)]
pub struct Lines<'a> {
    pub out: &'a mut [u8],
    pub at: usize,
}

impl Lines<'_> {
    // Not by `get_mut`: of a buffer in a field, no proof learns what was written through what it lends.
    #[inline]
    pub fn byte(&mut self, b: u8)
        requires { self.old.at + 1 < 2 ^ 64 }
        ensures { Puts (b ∷ []) self.old self.new }
    {
        if self.at < self.out.len() {
            self.out[self.at] = b;
        }
        self.at += 1;
    }

    pub fn text(&mut self, text: &[u8])
        requires { self.old.at + length text.now < 2 ^ 64 }
        ensures { Puts text.now self.old self.new }
    {
        for b in text {
            self.byte(*b);
        }
    }

    // `write!` may answer an error, of which its contract says nothing, so the digits are put here.
    pub fn number(&mut self, v: usize)
        requires { self.old.at + 20 < 2 ^ 64 }
        ensures puts { Puts (decimal v) self.old self.new }
        ensures few { self.new.at ≤ self.old.at + 20 }
    {
        if 10 <= v {
            self.number(v / 10);
        }
        self.byte(b'0' + (v % 10) as u8);
    }
}
