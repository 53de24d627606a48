// The run record, written into a lent buffer: the outcome characters, the 2n rows, and the trailer that points back. Each part
// writes its text at the front of what it is lent and leaves the rest as it was. The bits of the rows are first put into bytes, so that
// letters are made sixteen at a time in one register.
#![tactic(auto)]

ghost use Rattle.std.specs.Prelude.{◌≡◌, ◌+◌, ◌*◌, ◌≤◌, ◌<◌, length};
ghost use Rattle.limits.specs.Limits.{most_qubits, most_operations};
ghost use Rattle.answers.specs.Verdict.{over};
ghost use Rattle.pauli.specs.Texts.{letter_byte, row_text};
ghost use Rattle.packing.specs.Parts.Planes.{plane_size, plane_letter};
ghost use Rattle.packing.specs.View.{row_count, rows_of};
ghost use Rattle.records.specs.Record.{trailer, record_with, record_length};
ghost use Rattle.writing.specs.Parts.Texts.{texts_from};
ghost use Rattle.writing.specs.Parts.Planes.{Filled, PlaneOf, PlanesOf, plane_row};

use packing::{PLANE, Planes, Words};

// The word of each four in which the stabilizers begin.
const STABILIZERS: usize = limits::MOST_QUBITS / 64;

// The eight bytes of a word of qubit j, the one in this slot of its eight words.
fn put_bytes(plane: &mut [u8; PLANE], words: &Words, slot: usize, j: usize)
    requires { (slot < 8) × (j < most_qubits) × Filled words.now slot j plane.old }
    ensures { Filled words.now slot (j + 1) plane.new }
{
    let bytes = words[8 * j + slot].to_le_bytes();
    for r in 0..8 {
        plane[limits::MOST_QUBITS * r + j] = bytes[r];
    }
}

fn put_plane(plane: &mut [u8; PLANE], words: &Words, slot: usize, n: usize)
    requires { (length plane.old ≡ plane_size) × (slot < 8) × (n ≤ most_qubits) }
    ensures { PlaneOf words.now slot n plane.new }
{
    for j in 0..n {
        put_bytes(plane, words, slot, j);
    }
}

fn letter_in(p: &Planes, i: usize, j: usize) -> u8
    requires { (i < 64) × (j < most_qubits) }
    ensures { result ≡ letter_byte (plane_letter p.now.x p.now.z i j) }
{
    let at = limits::MOST_QUBITS * (i / 8) + j;
    let bit = 1u8 << (i % 8);
    let x = p.x[at] & bit == bit;
    let z = p.z[at] & bit == bit;
    pauli::letter_byte(x, z)
}

fn put_row(out: &mut [u8], p: &Planes, i: usize, n: usize)
    requires { (i < 64) × (n ≤ most_qubits) × (n + 1 ≤ length out.old) }
    ensures { out.new ≡ over (row_text n (plane_row p.now i)) out.old }
{
    out[0] = pauli::sign_byte((p.signs >> i) % 2 == 1);
    for j in 0..n {
        out[1 + j] = letter_in(p, i, j);
    }
}

// The first k rows of word g of each group of four.
fn put_rows(out: &mut [u8], words: &Words, g: usize, k: usize, n: usize)
    requires { (g < 4) × (k ≤ 64) × (n ≤ most_qubits) × (k * (n + 1) ≤ length out.old) }
    ensures { out.new ≡ over (texts_from n words.now (64 * g) k) out.old }
{
    let mut p = Planes {
        x: [0; PLANE],
        z: [0; PLANE],
        signs: words[packing::SIGNS + g],
    };
    put_plane(&mut p.x, words, g, n);
    put_plane(&mut p.z, words, 4 + g, n);
    for i in 0..k {
        put_row(&mut out[i * (n + 1)..], &p, i, n);
    }
}

// The n rows of one kind, of which the first is in word `first`: words that are full, and the last.
fn put_group(out: &mut [u8], words: &Words, first: usize, n: usize)
    requires { (64 * first + most_qubits ≤ row_count) × (1 ≤ n) × (n ≤ most_qubits) × (n * (n + 1) ≤ length out.old) }
    ensures { out.new ≡ over (texts_from n words.now (64 * first) n) out.old }
{
    for done in (0..n).step_by(64) {
        let g = first + done / 64;
        put_rows(&mut out[done * (n + 1)..], words, g, (n - done).min(64), n);
    }
}

// Byte by byte: `copy_from_slice` would have the archive for C ask for `memmove`, which it does without.
fn put(out: &mut [u8], text: &[u8])
    requires { length text.now ≤ length out.old }
    ensures { out.new ≡ over text.now out.old }
{
    for k in 0..text.len() {
        out[k] = text[k];
    }
}

fn put_trailer(out: &mut [u8], n: usize, count: usize)
    requires { (n ≤ most_qubits) × (count ≤ most_operations) × (12 ≤ length out.old) }
    ensures { out.new ≡ over (trailer n count) out.old }
{
    let rows = records::to_rows(n);
    let start = rows + count;
    put(out, &(rows as u32).to_le_bytes());
    put(&mut out[4..], &(start as u32).to_le_bytes());
    put(&mut out[8..], &(n as u16).to_le_bytes());
    put(&mut out[10..], b"SR");
}

pub fn record_size(n: usize, outcomes: usize) -> usize
    requires { (n ≤ most_qubits) × (outcomes ≤ most_operations) }
    ensures { result ≡ record_length n outcomes }
{
    outcomes + records::to_rows(n)
}

pub fn put_record(out: &mut [u8], marks: &[u8], words: &Words, n: usize) -> usize
    requires { (1 ≤ n) × (n ≤ most_qubits) × (length marks.now ≤ most_operations) × (record_length n (length marks.now) ≤ length out.old) }
    ensures { (result ≡ record_length n (length marks.now)) × (out.new ≡ over (record_with n marks.now (rows_of n words.now)) out.old) }
{
    let count = marks.len();
    let half = n * (n + 1);
    put(out, marks);
    put_group(&mut out[count..], words, 0, n);
    put_group(&mut out[count + half..], words, STABILIZERS, n);
    put_trailer(&mut out[count + half + half..], n, count);
    record_size(n, count)
}
