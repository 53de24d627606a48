// Checks the circuit in the file that the first word names, and prints its number of qubits and of operations, or the refusal.
#![tactic(auto)]

use std::env::Env;
use std::io;
use std::rt::Files;
use tool::Quit;

fn check<R: Files + Env + Print + Eprint + Alloc>(rt: &R) -> Result<(), Quit> {
    let mut room = [0u8; tool::CIRCUIT_ROOM];
    let text = tool::circuit(rt, &mut room)?;
    match library::check(text) {
        Ok(size) => println!(rt; "{} qubits, {} operations", size.qubits, size.operations)?,
        Err(r) => rt.println(r)?,
    }
    Ok(())
}

fn main(rt: HostRuntime) -> io::Result<()> {
    tool::ended(check(&rt))
}
