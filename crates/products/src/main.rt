// Multiplies the pairs of rows on standard input, a pair to a line with one space between, and prints each product, or its refusal with number and place.
#![tactic(auto)]

use std::io;
use std::io::Read;

// As in `tool_product`, which calls the public face; here it is the crate below.
fn multiply(rt: &impl Print, first: &[u8], second: &[u8]) -> io::Result<()> {
    let mut out = [0u8; limits::LONGEST_ROW];
    match product::product(first, second, &mut out) {
        Ok(n) => rt.write_all(&out[..n])?,
        Err(r) => rt.print(r)?,
    }
    rt.write_all(b"\n")
}

// A line is a pair of rows, or lacks its second.
fn multiply_pair(rt: &impl Print, line: &[u8]) -> io::Result<()> {
    let mut rows = line.splitn(2, |b| *b == b' ');
    let first = rows.next().unwrap_or(b"");
    let second = rows.next().unwrap_or(b"");
    multiply(rt, first, second)
}

// Of an input no more than 65,536 bytes are read.
fn main(rt: HostRuntime) -> io::Result<()> {
    let mut text = Vec::new(rt.alloc());
    rt.reader().take(65536).read_to_end(&mut text)?;
    for line in text.split_inclusive(|b| *b == b'\n') {
        multiply_pair(&rt, line.strip_suffix(b"\n").unwrap_or(line))?;
    }
    Ok(())
}
