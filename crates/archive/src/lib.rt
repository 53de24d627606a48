// What is done with the records of an archive: one is read and written again from what was read, and two are read and compared, stabilizer rows by
// packed words.
#![tactic(auto)]

ghost use Rattle.std.specs.Prelude.{◌≡◌, ◌+◌, ◌≤◌};
ghost use Rattle.limits.specs.Limits.{most_qubits};
ghost use Rattle.answers.specs.Refusals.{Writes};
ghost use Rattle.packing.specs.View.{word_count, rows_from, Holds};
ghost use Rattle.archive.specs.Copy.{copy_of};
ghost use Rattle.archive.specs.Same.{all_of, equal_rows, told_same, same_of};
ghost use Rattle.archive.specs.Parts.Words.{equal_groups};

use answers::Refusal;
use packing::Words;
use reading::Last;

pub fn copy(bytes: &[u8], out: &mut [u8]) -> Result<usize, Refusal>
    ensures { Writes (copy_of bytes.now) out.old result out.new }
{
    let mut words = [0u64; packing::WORDS];
    let Last {
        start,
        outcomes,
        qubits,
    } = reading::read(bytes, &mut words)?;
    if out.len() < writing::record_size(qubits, outcomes) {
        return Err(Refusal::NoRoom);
    }
    let end = start + outcomes;
    let size = writing::put_record(out, &bytes[start..end], &words, qubits);
    Ok(size)
}

// The bits of the stabilizers, in the four words from o on.
fn same_group(v: &Words, w: &Words, o: usize) -> bool
    requires { o + 4 ≤ word_count }
    ensures { result ≡ equal_groups v.now w.now o }
{
    (v[o + 2] == w[o + 2]) & (v[o + 3] == w[o + 3])
}

// Group q of four words has the x bits of qubit q / 2, or its z bits. Nothing is set from row n on, so that whole words are compared.
fn equal(v: &Words, w: &Words, n: usize) -> bool
    requires { (n ≤ most_qubits) × Holds n v.now × Holds n w.now }
    ensures { result ≡ all_of (λ i. equal_rows n (rows_from n most_qubits v.now i) (rows_from n most_qubits w.now i)) n }
{
    (0..2 * n).all(|q| same_group(v, w, 4 * q)) && same_group(v, w, packing::SIGNS)
}

// Which of two records was refused.
#[derive(Clone, Copy, Debug, PartialEq, Eq)]
pub enum Unread {
    First(Refusal),
    Second(Refusal),
}

// Whether two records describe the same state.
pub fn same_state(first: &[u8], second: &[u8]) -> Result<bool, Unread>
    ensures { told_same result ≡ same_of first.now second.now }
{
    let mut v = [0u64; packing::WORDS];
    let one = reading::read(first, &mut v).map_err(Unread::First)?;
    let mut w = [0u64; packing::WORDS];
    let other = reading::read(second, &mut w).map_err(Unread::Second)?;
    Ok(one.qubits == other.qubits && equal(&v, &w, one.qubits))
}
