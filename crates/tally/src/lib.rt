// The tally of a run, stepped at each measurement (document 01, "The operations"): three counters in a struct, which is lent by `&mut`.
#![tactic(auto)]

ghost use Rattle.std.specs.Prelude.{◌≡◌, ◌<◌};
ghost use Rattle.limits.specs.Limits.{most_operations};
ghost use Rattle.tally.specs.Parts.Stepping.{stepped};

// Measurements so far, random ones among them, and coins taken.
#[derive(Clone, Copy, Debug, PartialEq, Eq)]
pub struct Tally {
    pub measured: usize,
    pub random: usize,
    pub taken: usize,
}

impl Tally {
    // Before the first measurement.
    pub const NONE_YET: Tally = Tally {
        measured: 0,
        random: 0,
        taken: 0,
    };

    pub fn step(&mut self, random: bool)
        requires { (self.old.measured < most_operations) × (self.old.random < most_operations) × (self.old.taken < most_operations) }
        ensures { self.new ≡ stepped random self.old }
    {
        let more = usize::from(random);
        self.measured += 1;
        self.random += more;
        self.taken += more;
    }
}
