// Copies the last record of the archive that the first word names into the file that the second names, or prints the refusal and changes no file.
#![tactic(auto)]

use std::env::Env;
use std::io;
use std::rt::Files;
use tool::Quit;

fn copy<R: Files + Env + Print + Eprint + Alloc>(rt: &R) -> Result<(), Quit> {
    let mut room = [0u8; limits::LONGEST_RECORD];
    let bytes = tool::tail(rt, 1, &mut room)?;
    let mut out = [0u8; limits::LONGEST_RECORD];
    match library::copy(bytes, &mut out) {
        Ok(size) => tool::save(rt, 2, &out[..size])?,
        Err(r) => rt.println(r)?,
    }
    Ok(())
}

fn main(rt: HostRuntime) -> io::Result<()> {
    tool::ended(copy(&rt))
}
