// The tableau as a struct by value. Each operation takes a whole tableau and gives back a whole tableau: it lends the packed rows to the functions
// that do the work.
#![tactic(auto)]

ghost use Rattle.std.specs.Prelude.{◌≡◌, ◌≤◌, ◌<◌};
ghost use Rattle.limits.specs.Limits.{most_qubits};
ghost use Rattle.clifford.specs.Gates.{Fits};

use clifford::{Gate, Outcome};
use packing::Packed;

// There is one qubit at least.
#[derive(Drop)]
pub struct Tableau {
    pub packed: Packed,
    pub ghost least: { 1 ≤ packed.qubits },
}

// What a measurement answers: the tableau after it, and its outcome.
#[derive(Drop)]
pub struct Measured {
    pub tableau: Tableau,
    pub outcome: Outcome,
}

impl Tableau {
    ghost use Rattle.clifford.specs.Tableau.{start, gated};
    ghost use Rattle.tableau.specs.View.{rows};
    ghost use Rattle.tableau.specs.Operations.{Becomes, measured, answer};

    pub fn start(n: usize) -> Self
        requires { (1 ≤ n) × (n ≤ most_qubits) }
        ensures { Becomes n (start n) result }
    {
        Tableau {
            packed: start_rows::start(n),
        }
    }

    pub fn gate(self, g: Gate) -> Self
        requires { Fits self.packed.qubits g }
        ensures { Becomes self.packed.qubits (gated g (rows self)) result }
    {
        let mut packed = self.packed;
        columns::gate(&mut packed.words, g);
        Tableau { packed }
    }

    // The coin counts only where the measurement is random.
    pub fn measure(self, a: usize, coin: bool) -> Measured
        requires { a < self.packed.qubits }
        ensures { (result.tableau.packed.qubits ≡ self.packed.qubits) × (answer result ≡ measured self.packed.qubits a coin (rows self)) }
    {
        let mut packed = self.packed;
        let outcome = match random_row::random_row(&packed, a) {
            Some(p) => {
                measure_random::collapse(&mut packed, a, p, coin);
                Outcome {
                    random: true,
                    value: coin,
                }
            }
            None => Outcome {
                random: false,
                value: measure_fixed::fixed_value(&packed, a),
            },
        };
        Measured {
            tableau: Tableau { packed },
            outcome,
        }
    }
}
