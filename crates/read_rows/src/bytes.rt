// The first byte of a record that is not one listed for its place: outcomes, then rows of a sign and n letters. It is searched for only where
// a look at all bytes finds that there may be one.
ghost use Rattle.std.specs.Prelude.{not, ◌≡◌, ◌+◌, ◌%◌, ◌++◌, length, get_or};
ghost use Rattle.answers.specs.First.{lowest};
ghost use Rattle.pauli.specs.Texts.{fits_at};
ghost use Rattle.records.specs.Reading.{is_mark, first_bad};
ghost use Rattle.read_rows.specs.Parts.Loading.{NoneWhere};

use crate::RowTexts;

fn is_mark(b: u8) -> bool
    ensures { result ≡ is_mark b }
{
    (b'0' <= b) & (b <= b'3')
}

// A look at all bytes with no way out, many at a time in one register: where it is true all are listed.
fn all_marks(marks: &[u8]) -> bool
    ensures { NoneWhere result (λ k. not (is_mark (get_or marks.now k 0))) (length marks.now) }
{
    let mut ok = true;
    for b in marks {
        ok &= is_mark(*b);
    }
    ok
}

fn all_in_row(row: &[u8]) -> bool
    ensures { NoneWhere result (λ k. not (fits_at k (get_or row.now k 0))) (length row.now) }
{
    let Some((sign, letters)) = row.split_first() else {
        return true;
    };
    let mut ok = pauli::is_sign(*sign);
    for b in letters {
        ok &= pauli::is_letter(*b);
    }
    ok
}

// The first byte of a row that is not listed.
fn in_row(row: &[u8]) -> Option<usize>
    ensures { result ≡ lowest (λ k. not (fits_at k (get_or row.now k 0))) (length row.now) }
{
    let (sign, letters) = row.split_first()?;
    if !pauli::is_sign(*sign) {
        return Some(0);
    }
    let k = letters.iter().position(|b| !pauli::is_letter(*b))?;
    Some(1 + k)
}

impl RowTexts<'_> {
    fn all_in_rows(&self) -> bool
        ensures { NoneWhere result (λ k. not (fits_at (k % (self.now.qubits + 1)) (get_or self.now.bytes.now k 0))) (length self.now.bytes.now) }
    {
        let mut ok = true;
        for i in 0..2 * self.qubits {
            ok &= all_in_row(self.row(i));
        }
        ok
    }

    // The first byte of all rows that is not listed.
    fn in_rows(&self) -> Option<usize>
        ensures { result ≡ lowest (λ k. not (fits_at (k % (self.now.qubits + 1)) (get_or self.now.bytes.now k 0))) (length self.now.bytes.now) }
    {
        for i in 0..2 * self.qubits {
            if let Some(k) = in_row(self.row(i)) {
                return Some(i * (self.qubits + 1) + k);
            }
        }
        None
    }
}

// The first byte that is not listed, from the record's start.
pub fn bad(outcomes: &[u8], rows: &RowTexts) -> Option<usize>
    ensures { result ≡ first_bad rows.now.qubits (length outcomes.now) (outcomes.now ++ rows.now.bytes.now) }
{
    if all_marks(outcomes) & rows.all_in_rows() {
        return None;
    }
    if let Some(k) = outcomes.iter().position(|b| !is_mark(*b)) {
        return Some(k);
    }
    let k = rows.in_rows()?;
    Some(outcomes.len() + k)
}
