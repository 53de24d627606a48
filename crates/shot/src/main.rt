// Reads one line of coin characters and a circuit from standard input, and prints the run. An input one byte above the most is enough to tell that
// it is too long, and no printed text is longer than the buffer.
#![tactic(auto)]

use std::io;
use std::io::Read;

fn main(rt: HostRuntime) -> io::Result<()> {
    let mut input = Vec::new(rt.alloc());
    rt.reader()
        .take(print::MOST_INPUT as u64 + 1)
        .read_to_end(&mut input)?;
    let mut out = [0u8; limits::LONGEST_TEXT];
    let size = print::shot(input.as_slice(), &mut out).unwrap();
    rt.write_all(&out[..size])
}
