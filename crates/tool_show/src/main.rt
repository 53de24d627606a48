// Prints the last record of the archive that the first word names: its outcome characters on one line, then its rows, a line each; or the refusal.
#![tactic(auto)]

use std::env::Env;
use std::io;
use std::rt::Files;
use tool::Quit;

// The rows stand between the outcomes and the trailer.
#[tactic(auto, using(crate::proofs::Sizes::handed_sizes))]
fn show<R: Files + Env + Print + Eprint + Alloc>(rt: &R) -> Result<(), Quit> {
    let mut room = [0u8; limits::LONGEST_RECORD];
    let bytes = tool::tail(rt, 1, &mut room)?;
    let mut words = [0u64; packing::WORDS];
    match library::read(bytes, &mut words) {
        Ok(record) => {
            tool::print_line(rt, record.outcomes)?;
            let start = bytes.len() - record.size + record.outcomes.len();
            let end = bytes.len() - limits::TRAILER;
            for row in bytes[start..end].chunks_exact(record.qubits + 1) {
                tool::print_line(rt, row)?;
            }
        }
        Err(r) => rt.println(r)?,
    }
    Ok(())
}

fn main(rt: HostRuntime) -> io::Result<()> {
    tool::ended(show(&rt))
}
