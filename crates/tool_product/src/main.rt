// Multiplies the two rows that the words are, and prints the product, or the refusal.
#![tactic(auto)]

use std::io;

fn multiply(rt: &impl Print, first: &[u8], second: &[u8]) -> io::Result<()> {
    let mut out = [0u8; limits::LONGEST_ROW];
    match library::product(first, second, &mut out) {
        Ok(size) => tool::print_line(rt, &out[..size]),
        Err(r) => rt.println(r),
    }
}

// A word that is missing or has more than 4,096 bytes counts as an empty row: both are refused for their length.
fn main(rt: HostRuntime) -> io::Result<()> {
    let mut first = [0u8; tool::LONGEST_WORD];
    let mut second = [0u8; tool::LONGEST_WORD];
    multiply(
        &rt,
        tool::word(&rt, 1, &mut first).unwrap_or(b""),
        tool::word(&rt, 2, &mut second).unwrap_or(b""),
    )
}
