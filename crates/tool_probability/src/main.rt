// Tells how likely each readout of the file that the second word names is, for the circuit of the first: a line for each, in order. The circuit is checked
// once. The file may have any length: it is read in pieces, and of a line no more is kept than one character beyond the most measurements.
#![tactic(auto)]

use arrayvec::ArrayVec;
use probability::Chance;
use std::env::Env;
use std::io::{self, Read};
use std::rt::Files;
use tool::Quit;

const LONGEST_LINE: usize = limits::MOST_OPERATIONS + 1;

fn tell(rt: &impl Print, text: &[u8], readout: &[u8]) -> io::Result<()> {
    match library::probability(text, readout) {
        Ok(Chance::Possible(l)) => {
            let k = l.k;
            println!(rt; "possible {k} 2^-{k}")
        }
        Ok(Chance::Impossible(line)) => println!(rt; "impossible {line}"),
        Err(r) => rt.println(r),
    }
}

// Takes so much of a part to the line as there is room for.
fn keep(line: &mut ArrayVec<u8, LONGEST_LINE>, part: &[u8]) {
    let room = LONGEST_LINE - line.len();
    let _ = line.try_extend_from_slice(&part[..part.len().min(room)]);
}

// Answers each line at its end byte. A line that is longer than LONGEST_LINE is cut there: it has more characters than any circuit has measurements, and is refused
// for that.
fn each_readout<R: Print + Eprint, F: Read + Drop>(
    rt: &R,
    text: &[u8],
    mut file: F,
) -> io::Result<()> {
    let mut piece = [0u8; 65536];
    let mut line = ArrayVec::new();
    for _ in 0..u64::MAX {
        let n = match file.read(&mut piece) {
            Ok(0) => break,
            Ok(n) => n,
            Err(_) => {
                rt.eprintln("cannot read on: only the readouts above are answered")?;
                break;
            }
        };
        for part in piece[..n].split_inclusive(|b| *b == b'\n') {
            match part.strip_suffix(b"\n") {
                Some(last) => {
                    keep(&mut line, last);
                    tell(rt, text, line.as_slice())?;
                    line.clear();
                }
                None => keep(&mut line, part),
            }
        }
    }
    if !line.is_empty() {
        rt.eprintln("the last readout has no end byte and is not answered: end its line")?;
    }
    Ok(())
}

fn readouts<R: Files + Env + Print + Eprint + Alloc>(rt: &R) -> Result<(), Quit> {
    let mut room = [0u8; tool::CIRCUIT_ROOM];
    let text = tool::circuit(rt, &mut room)?;
    match library::check(text) {
        Ok(_) => each_readout(rt, text, tool::open_word(rt, 2)?)?,
        Err(r) => rt.println(r)?,
    }
    Ok(())
}

fn main(rt: HostRuntime) -> io::Result<()> {
    tool::ended(readouts(&rt))
}
