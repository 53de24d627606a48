// The nine operations of a circuit: five gates on one qubit, two on two, the measurement, and the measurement with a reset; and what a measurement gives. Their rules are in specs/.
#![tactic(auto)]

#[derive(Clone, Copy, Debug, PartialEq, Eq)]
pub enum One {
    H,
    S,
    PauliX,
    PauliY,
    PauliZ,
}

// The first qubit of Cx is its control.
#[derive(Clone, Copy, Debug, PartialEq, Eq)]
pub enum Two {
    Cx,
    Cz,
}

#[derive(Clone, Copy, Debug, PartialEq, Eq)]
pub enum Gate {
    One(One, usize),
    Two(Two, usize, usize),
}

// What becomes of a qubit once it is measured: M keeps it, MR resets it.
#[derive(Clone, Copy, Debug, PartialEq, Eq)]
pub enum After {
    Keep,
    Reset,
}

#[derive(Clone, Copy, Debug, PartialEq, Eq)]
pub enum Op {
    Gate(Gate),
    Measure(After, usize),
}

// What a measurement gives: whether it is random, and the value measured.
#[derive(Clone, Copy, Debug, PartialEq, Eq)]
pub struct Outcome {
    pub random: bool,
    pub value: bool,
}

// The letter of a gate on one qubit.
impl From<One> for u8 {
    ghost use Rattle.std.specs.Prelude.{◌≡◌};
    ghost use Rattle.clifford.specs.Named.{one_letter};

    ghost from_gives = { λ gate letter. letter ≡ one_letter gate };

    fn from(gate: One) -> u8 {
        match gate {
            One::H => b'H',
            One::S => b'S',
            One::PauliX => b'X',
            One::PauliY => b'Y',
            One::PauliZ => b'Z',
        }
    }
}

// The gate that a letter names, by its number; any other number is Z.
impl From<usize> for One {
    ghost use Rattle.std.specs.Prelude.{◌≡◌};
    ghost use Rattle.clifford.specs.Parts.ByLetter.{one_of};

    ghost from_gives = { λ letter gate. gate ≡ one_of letter };

    fn from(letter: usize) -> One {
        match letter {
            72 => One::H,
            83 => One::S,
            88 => One::PauliX,
            89 => One::PauliY,
            _ => One::PauliZ,
        }
    }
}
