// Reads a line that is not of the usual kind, as the last ones of a text.
ghost use Rattle.quick_lines.specs.Parts.Lines.{OpAt};

use crate::FlatOp;

#[cold]
#[inline(never)]
pub fn line_at(s: &[u8], at: usize, n: usize) -> Option<(FlatOp, usize)>
    ensures { OpAt s.now at n result }
{
    let (op, next) = circuit::line_at(s, at)?;
    if circuit::qubits_below(n, op) && circuit::qubits_apart(op) {
        Some((FlatOp::from(op), next - at))
    } else {
        None
    }
}
