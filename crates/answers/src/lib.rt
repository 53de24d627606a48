// The numbered refusals of document 01, and 14 and 15 of document 02, with their numbers, their places and the words that programs print.
#![tactic(auto)]

ghost use Rattle.std.specs.Prelude.{◌≡◌};
ghost use Rattle.answers.specs.Refusals.{number_of, place_of};

use std::error::Error;
use std::fmt;

#[derive(Clone, Copy, Debug, PartialEq, Eq)]
pub enum Refusal {
    NotQubits,
    QubitCount,
    Malformed(usize),
    NoSuchQubit(usize),
    QubitTwice(usize),
    TooManyOperations,
    NoCoin(usize),
    NoRoom,
    NoRecord,
    BadByte(usize),
    NotPaired(usize),
    Anticommuting,
    RowLengths,
    TooUnlikely,
    ReadoutLength,
}

impl Refusal {
    pub fn number(self) -> u64
        ensures { result ≡ number_of self }
    {
        match self {
            Refusal::NotQubits => 1,
            Refusal::QubitCount => 2,
            Refusal::Malformed(_) => 3,
            Refusal::NoSuchQubit(_) => 4,
            Refusal::QubitTwice(_) => 5,
            Refusal::TooManyOperations => 6,
            Refusal::NoCoin(_) => 7,
            Refusal::NoRoom => 8,
            Refusal::NoRecord => 9,
            Refusal::BadByte(_) => 10,
            Refusal::NotPaired(_) => 11,
            Refusal::Anticommuting => 12,
            Refusal::RowLengths => 13,
            Refusal::TooUnlikely => 14,
            Refusal::ReadoutLength => 15,
        }
    }

    pub fn place(self) -> usize
        ensures { result ≡ place_of self }
    {
        match self {
            Refusal::NotQubits | Refusal::QubitCount => 1,
            Refusal::Malformed(line)
            | Refusal::NoSuchQubit(line)
            | Refusal::QubitTwice(line)
            | Refusal::NoCoin(line) => line,
            Refusal::TooManyOperations => limits::MOST_OPERATIONS + 2,
            Refusal::BadByte(at) => at,
            Refusal::NotPaired(row) => row,
            Refusal::NoRoom
            | Refusal::NoRecord
            | Refusal::Anticommuting
            | Refusal::RowLengths
            | Refusal::TooUnlikely
            | Refusal::ReadoutLength => 0,
        }
    }
}

impl fmt::Display for Refusal {
    fn fmt<W: fmt::Write>(&self, f: &mut fmt::Formatter<W>) -> fmt::Result {
        let number = self.number();
        let place = self.place();
        write!(f, "refused {number} {place}")
    }
}

impl Error for Refusal {}
