// What a tableau by value costs: a hundred thousand times H by the method of the tableau where the first word is `value`, ten million times H on a lent array where it is
// `lent`, and a hundred thousand times H and M by the methods otherwise. bench/by_value times them.
#![tactic(auto)]

use clifford::{Gate, One};
use std::env::Env;
use std::io;
use tableau::Tableau;

fn by_gates(rounds: usize) -> u64 {
    let mut t = Tableau::start(limits::MOST_QUBITS);
    for i in 0..rounds {
        t = t.gate(Gate::One(One::H, i % limits::MOST_QUBITS));
    }
    t.packed.words[0]
}

fn by_measurements(rounds: usize) -> u64 {
    let mut t = Tableau::start(limits::MOST_QUBITS);
    for i in 0..rounds {
        let a = i % limits::MOST_QUBITS;
        let m = t.gate(Gate::One(One::H, a)).measure(a, i % 2 == 1);
        t = m.tableau;
    }
    t.packed.words[0]
}

fn lent(rounds: usize) -> u64 {
    let mut words = Tableau::start(limits::MOST_QUBITS).packed.words;
    for i in 0..rounds {
        columns::gate(&mut words, Gate::One(One::H, i % limits::MOST_QUBITS));
    }
    words[0] ^ words[6]
}

// The first word counts by its length alone: four bytes as `lent`, five as `value`.
fn main(rt: HostRuntime) -> io::Result<()> {
    let mut word = [0u8; 4096];
    let done = match rt.arg(1, &mut word) {
        Ok(4) => lent(10_000_000),
        Ok(5) => by_gates(100_000),
        _ => by_measurements(100_000),
    };
    println!(rt; "{done}")
}
