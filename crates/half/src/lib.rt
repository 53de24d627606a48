// One half to the power k as a double, exactly: its 64 bits are written as a whole number and read as an `f64`, and no operation on floats takes part, so that
// nothing is rounded. Up to k = 1022 the double is not subnormal.
#![tactic(auto)]

ghost use Rattle.std.specs.Prelude.{◌≡◌, ◌≤◌};
ghost use Rattle.limits.specs.Limits.{most_halvings};
ghost use Rattle.half.specs.Half.{half_bits, Halved};

// How likely an outcome is: the number k of random measurements, and one half to the power k.
#[derive(Clone, Copy, Debug)]
pub struct Likelihood {
    pub k: u64,
    pub probability: f64,
    pub ghost halved: { Halved k probability },
}

fn half_pattern(k: u64) -> u64
    requires { k ≤ most_halvings }
    ensures { result ≡ half_bits k }
{
    (1023 - k) * 0x10_0000_0000_0000
}

fn half_power(k: u64) -> f64
    requires { k ≤ most_halvings }
    ensures { Halved k result }
{
    f64::from_bits(half_pattern(k))
}

impl Likelihood {
    ghost use Rattle.half.specs.Tied.{Tied};

    pub fn of(k: u64) -> Self
        requires { k ≤ most_halvings }
        ensures { Tied k result }
    {
        let probability = half_power(k);
        Likelihood { k, probability }
    }

    // The 64 bits of the double.
    pub fn bits(self) -> u64
        ensures { result ≡ half_bits self.k }
    {
        f64::to_bits(self.probability)
    }
}
