// From the bytes of a record to packed rows: the first byte that is not listed, and the words of the rows.
#![tactic(auto)]

ghost use Rattle.std.specs.Prelude.{◌≡◌, ◌+◌, ◌*◌, ◌≤◌, ◌<◌, length};
ghost use Rattle.limits.specs.Limits.{most_qubits};
ghost use Rattle.read_rows.specs.Parts.Texts.{text_of};

pub mod bytes;
pub mod load;

// The 2n rows of a record, row behind row: each a sign and n letters.
#[derive(Clone, Copy)]
pub struct RowTexts<'a> {
    pub bytes: &'a [u8],
    pub qubits: usize,
    ghost most: { qubits ≤ most_qubits },
    ghost whole: { length bytes.now ≡ 2 * (qubits * (qubits + 1)) },
}

impl<'a> RowTexts<'a> {
    // The text of row i.
    pub fn row(&self, i: usize) -> &'a [u8]
        requires { i < self.now.qubits + self.now.qubits }
        ensures text { result.now ≡ text_of self.now.bytes.now self.now.qubits i }
        ensures size { length result.now ≡ self.now.qubits + 1 }
    {
        let size = self.qubits + 1;
        &self.bytes[i * size..(i + 1) * size]
    }
}
