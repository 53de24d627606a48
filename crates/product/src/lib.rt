// The product of two Pauli rows: two row texts are lent, and a buffer for the answer.
#![tactic(auto)]

ghost use Rattle.std.specs.Prelude.{◌≡◌, ◌≤◌, ◌-◌, ◌%◌, length};
ghost use Rattle.answers.specs.Refusals.{Writes};
ghost use Rattle.answers.specs.Verdict.{over};
ghost use Rattle.pauli.specs.Rows.{product, phased};
ghost use Rattle.pauli.specs.Texts.{letter_of, fits_at, spelled};
ghost use Rattle.product.specs.Parts.Table.{code_of, power_number, Tabled, first_unlisted, letter_text};
ghost use Rattle.product.specs.Product.{longest_row, product_of};

use answers::Refusal;

#[derive(Clone, Copy, Debug, PartialEq, Eq)]
pub struct Entry {
    pub letter: u8,
    pub power: u8,
}

// The sixteen products of two letters, each its letter and its power of i: a line for each left factor I, X, Y, Z, with the right factors in the same order.
const PRODUCTS: [[(u8, u8); 4]; 4] = [
    [(b'I', 0), (b'X', 0), (b'Y', 0), (b'Z', 0)],
    [(b'X', 0), (b'I', 0), (b'Z', 1), (b'Y', 3)],
    [(b'Y', 0), (b'Z', 3), (b'I', 0), (b'X', 1)],
    [(b'Z', 0), (b'Y', 1), (b'X', 3), (b'I', 0)],
];

// I, X, Y, Z as 0 to 3.
fn code(b: u8) -> usize
    ensures { result ≡ code_of (letter_of b) }
{
    match b {
        b'X' => 1,
        b'Y' => 2,
        b'Z' => 3,
        _ => 0,
    }
}

fn multiply(a: u8, b: u8) -> Entry
    ensures { Tabled a b result }
{
    let products = &PRODUCTS;
    let (letter, power) = products[code(a)][code(b)];
    Entry { letter, power }
}

// The byte is one listed for place k of a row's text.
fn fits(k: usize, b: u8) -> bool
    ensures { result ≡ fits_at k b }
{
    if k == 0 {
        pauli::is_sign(b)
    } else {
        pauli::is_letter(b)
    }
}

// The first place with a byte that is not listed.
fn first_unlisted(s: &[u8]) -> Option<usize>
    ensures { result ≡ first_unlisted s.now }
{
    for (k, b) in s.iter().enumerate() {
        if !fits(k, *b) {
            return Some(k);
        }
    }
    None
}

// The power of i before the product: the letters' powers and two for each minus, not yet reduced.
fn power_sum(first: &[u8], second: &[u8]) -> u64
    requires { (length first.now ≡ length second.now) × (1 ≤ length first.now) × (length first.now ≤ longest_row) }
    ensures { result % 4 ≡ power_number (product (length first.now - 1) (phased (spelled first.now)) (phased (spelled second.now))).phase }
{
    let mut sum = 2 * (u64::from(first[0] == b'-') + u64::from(second[0] == b'-'));
    for k in 1..first.len() {
        sum += u64::from(multiply(first[k], second[k]).power);
    }
    sum
}

// The product's text: its sign, and letter by letter.
fn write(first: &[u8], second: &[u8], minus: bool, out: &mut [u8])
    requires { (length first.now ≡ length second.now) × (1 ≤ length first.now) × (length first.now ≤ length out.old) }
    ensures { out.new ≡ over (letter_text first.now second.now minus) out.old }
{
    out[0] = pauli::sign_byte(minus);
    for k in 1..first.len() {
        out[k] = multiply(first[k], second[k]).letter;
    }
}

pub fn product(first: &[u8], second: &[u8], out: &mut [u8]) -> Result<usize, Refusal>
    ensures { Writes (product_of first.now second.now) out.old result out.new }
{
    let size = first.len();
    if size != second.len() || size < 2 || limits::LONGEST_ROW < size {
        return Err(Refusal::RowLengths);
    }
    if let Some(one) = first_unlisted(first) {
        return Err(Refusal::BadByte(one));
    }
    if let Some(two) = first_unlisted(second) {
        return Err(Refusal::BadByte(size + two));
    }
    let sum = power_sum(first, second);
    if sum % 2 == 1 {
        return Err(Refusal::Anticommuting);
    }
    if out.len() < size {
        return Err(Refusal::NoRoom);
    }
    write(first, second, sum % 4 == 2, out);
    Ok(size)
}
