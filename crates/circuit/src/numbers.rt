// Reads bytes and numbers at a position of a text. No function here needs the position to lie within the text.
ghost use Rattle.std.specs.Prelude.{◌≡◌, drop};
ghost use Rattle.circuit.specs.Lines.{number, qubit};
ghost use Rattle.circuit.specs.Parts.Reading.{digit_value, Has, ReadsAt};

pub fn byte_at(s: &[u8], at: usize, b: u8) -> bool
    ensures { Has s.now at b result }
{
    s.get(at) == Some(&b)
}

pub fn digit_at(s: &[u8], at: usize) -> Option<usize>
    ensures { result ≡ digit_value (drop at s.now) }
{
    let c = *s.get(at)?;
    if c.is_ascii_digit() {
        Some(usize::from(c - b'0'))
    } else {
        None
    }
}

// A number, which has at most three digits, with the position behind it.
pub fn number_at(s: &[u8], at: usize) -> Option<(usize, usize)>
    ensures { ReadsAt number s.now at result }
{
    let first = digit_at(s, at)?;
    if first == 0 {
        return Some((0, at + 1));
    }
    let end = at + 3;
    let mut value = first;
    for next in at + 1..end {
        match digit_at(s, next) {
            Some(digit) => value = 10 * value + digit,
            None => return Some((value, next)),
        }
    }
    Some((value, end))
}

// A space, and a number.
pub fn qubit_at(s: &[u8], at: usize) -> Option<(usize, usize)>
    ensures { ReadsAt qubit s.now at result }
{
    if byte_at(s, at, b' ') {
        number_at(s, at + 1)
    } else {
        None
    }
}
