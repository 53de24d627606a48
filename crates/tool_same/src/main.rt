// Compares the last records of the two archives that the words name: prints whether they describe the same state, or which of the two was refused and why.
#![tactic(auto)]

use answers::Refusal;
use archive::Unread;
use std::env::Env;
use std::io;
use std::rt::Files;
use tool::Quit;

fn refuse(rt: &impl Print, which: &str, r: Refusal) -> io::Result<()> {
    println!(rt; "refused {which} {} {}", r.number(), r.place())
}

fn compare<R: Files + Env + Print + Eprint + Alloc>(rt: &R) -> Result<(), Quit> {
    let mut first_room = [0u8; limits::LONGEST_RECORD];
    let first = tool::tail(rt, 1, &mut first_room)?;
    let mut second_room = [0u8; limits::LONGEST_RECORD];
    let second = tool::tail(rt, 2, &mut second_room)?;
    match library::same_state(first, second) {
        Ok(true) => rt.println("same")?,
        Ok(false) => rt.println("different")?,
        Err(Unread::First(r)) => refuse(rt, "first", r)?,
        Err(Unread::Second(r)) => refuse(rt, "second", r)?,
    }
    Ok(())
}

fn main(rt: HostRuntime) -> io::Result<()> {
    tool::ended(compare(&rt))
}
