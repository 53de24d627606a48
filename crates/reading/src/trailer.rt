// The trailer: whether the lent bytes end in a record, and where it stands by the numbers in its last twelve bytes, lowest byte first.
ghost use Rattle.std.specs.Prelude.{◌≡◌};
ghost use Rattle.reading.specs.Answer.{last_of};

use crate::Last;
use limits::{MOST_OPERATIONS, MOST_QUBITS, TRAILER};

// The last record of the bytes, if they end in one.
pub fn last(bytes: &[u8]) -> Option<Last>
    ensures { result ≡ last_of bytes.now }
{
    let &[r0, r1, r2, r3, s0, s1, s2, s3, n0, n1, b'S', b'R'] = bytes.last_chunk::<TRAILER>()?
    else {
        return None;
    };
    let to_rows = u32::from_le_bytes([r0, r1, r2, r3]) as usize;
    let to_start = u32::from_le_bytes([s0, s1, s2, s3]) as usize;
    let qubits = usize::from(u16::from_le_bytes([n0, n1]));
    let outcomes = to_start.checked_sub(to_rows)?;
    let start = bytes.len().checked_sub(to_start)?;
    if 1 <= qubits
        && qubits <= MOST_QUBITS
        && outcomes <= MOST_OPERATIONS
        && to_rows == records::to_rows(qubits)
    {
        Some(Last {
            start,
            outcomes,
            qubits,
        })
    } else {
        None
    }
}
