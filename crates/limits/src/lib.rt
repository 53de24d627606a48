// The limits as the code has them, and what follows from them: how long a row text, a record and a printed text can be. A promise cites specs/Limits.antt instead.
#![tactic(auto)]

pub const MOST_QUBITS: usize = 128;

pub const MOST_OPERATIONS: usize = 4096;

// The greatest k for which one half to the power k is told.
pub const MOST_HALVINGS: u64 = 1022;

// A sign, and a letter for each qubit.
pub const LONGEST_ROW: usize = 1 + MOST_QUBITS;

// Two distances, the number of qubits and the mark, behind the rows of a record.
pub const TRAILER: usize = 12;

// Outcomes, rows and the trailer.
pub const LONGEST_RECORD: usize = MOST_OPERATIONS + 2 * MOST_QUBITS * LONGEST_ROW + TRAILER;

// What a run prints: outcome lines of 18 bytes, and the rows, each with an end byte.
pub const LONGEST_TEXT: usize = 18 * MOST_OPERATIONS + 2 * MOST_QUBITS * (LONGEST_ROW + 1);
