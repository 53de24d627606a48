// The layout of a tableau in one array, which specs/View.antt explains: where the signs stand, behind the eight words of each qubit, and how many words there are; the rows
// of so many qubits in such an array; and the layout of 64 rows in bytes, as they are read and written.
#![tactic(auto)]

ghost use Rattle.std.specs.Prelude.{◌≤◌};
ghost use Rattle.limits.specs.Limits.{most_qubits};
ghost use Rattle.packing.specs.View.{Holds};

pub const SIGNS: usize = 8 * limits::MOST_QUBITS;

pub const WORDS: usize = SIGNS + 4;

pub type Words = [u64; WORDS];

// The rows of so many qubits: nothing is set beyond them.
#[derive(Drop)]
pub struct Packed {
    pub qubits: usize,
    pub words: Words,
    pub ghost few: { qubits ≤ most_qubits },
    pub ghost holds: { Holds qubits words },
}

// A byte for each qubit and each eight of 64 rows: that of rows 8r to 8r + 7 and of qubit j is byte MOST_QUBITS r + j.
pub const PLANE: usize = 8 * limits::MOST_QUBITS;

// 64 rows in such bytes, of their x bits and of their z bits, and a bit for each sign: specs/Parts/Planes.antt.
#[derive(Drop)]
pub struct Planes {
    pub x: [u8; PLANE],
    pub z: [u8; PLANE],
    pub signs: u64,
}
