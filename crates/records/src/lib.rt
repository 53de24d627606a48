// The run record as bytes, and how it is read, as definitions in specs/; and the distance that its writer puts down and its reader looks for.
#![tactic(auto)]

ghost use Rattle.std.specs.Prelude.{◌≡◌, ◌≤◌};
ghost use Rattle.limits.specs.Limits.{most_qubits};
ghost use Rattle.records.specs.Record.{to_rows};

// From a record's end to its first row.
pub fn to_rows(n: usize) -> usize
    requires { n ≤ most_qubits }
    ensures { result ≡ to_rows n }
{
    limits::TRAILER + 2 * (n * (n + 1))
}
