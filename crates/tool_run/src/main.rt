// Runs the circuit of the first file named with the coins of the second, appends the record to the archive that the third names, and prints the outcomes and
// the rows; or prints the refusal and changes no file. A crash in mid-append leaves at worst a torn tail behind the records that were there.
#![tactic(auto)]

use answers::Refusal;
use std::env::Env;
use std::io;
use std::rt::Files;
use tool::Quit;

// The record is appended before anything is printed, so that what is printed is in the archive. A refused run has no record, and its refusal is printed.
fn run<R: Files + Env + Print + Eprint + Alloc>(rt: &R) -> Result<(), Quit> {
    let mut circuit_room = [0u8; tool::CIRCUIT_ROOM];
    let circuit = tool::circuit(rt, &mut circuit_room)?;
    let mut coin_room = [0u8; tool::COIN_ROOM];
    let coins = tool::coins(rt, &mut coin_room)?;
    let mut sheet = [0u8; limits::LONGEST_RECORD];
    let mut answer = Err(Refusal::NoRecord); // until the run answers
    let mut out = [0u8; limits::LONGEST_TEXT];
    match print::run_and_print(circuit, coins, &mut sheet, &mut answer, &mut out) {
        Ok(size) => {
            if let Ok(ran) = answer {
                tool::append(rt, 3, &sheet[..ran.size])?;
            }
            rt.write_all(&out[..size])?;
        }
        Err(r) => rt.println(r)?,
    }
    Ok(())
}

fn main(rt: HostRuntime) -> io::Result<()> {
    tool::ended(run(&rt))
}
