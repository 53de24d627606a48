// The record reader: the last record of the bytes it is lent, its rows as packed words and the place of its outcomes, or refusal 9, 10 or 11.
#![tactic(auto)]

ghost use Rattle.reading.specs.Answer.{Reads, Hands};
ghost use Rattle.reading.specs.Parts.Finding.{Finds};

mod trailer;

use answers::Refusal;
use packing::Words;
use read_rows::RowTexts;

// Where the last record of some bytes starts, and how many outcomes and qubits it has.
#[derive(Clone, Copy, Debug, PartialEq, Eq)]
pub struct Last {
    pub start: usize,
    pub outcomes: usize,
    pub qubits: usize,
}

// The last record, with its rows in the words.
fn find(bytes: &[u8], words: &mut Words) -> Result<Last, Refusal>
    ensures { Finds bytes.now result words.new }
{
    let last = trailer::last(bytes).ok_or(Refusal::NoRecord)?;
    let first = last.start + last.outcomes;
    let end = bytes.len() - limits::TRAILER;
    let rows = RowTexts {
        bytes: &bytes[first..end],
        qubits: last.qubits,
    };
    if let Some(place) = read_rows::bytes::bad(&bytes[last.start..first], &rows) {
        return Err(Refusal::BadByte(place));
    }
    rows.load(words);
    if let Some(row) = pairing::unpaired(&rows, words) {
        return Err(Refusal::NotPaired(row));
    }
    Ok(last)
}

// A refusal leaves the start rows of n = 1 in the words.
pub fn read(bytes: &[u8], words: &mut Words) -> Result<Last, Refusal>
    ensures { Reads bytes.now result words.new }
{
    let found = find(bytes, words);
    if found.is_err() {
        start_rows::start_words(words, 1);
    }
    found
}

// A record: its outcomes, as a part of the bytes, and how many bytes and qubits it has.
#[derive(Clone, Copy, Debug, PartialEq, Eq)]
pub struct Record<'b> {
    pub outcomes: &'b [u8],
    pub size: usize,
    pub qubits: usize,
}

// The same, with the outcomes handed out.
pub fn read_record<'b>(bytes: &'b [u8], words: &mut Words) -> Result<Record<'b>, Refusal>
    ensures { Hands bytes.now result words.new }
{
    let Last {
        start,
        outcomes,
        qubits,
    } = read(bytes, words)?;
    let end = start + outcomes;
    Ok(Record {
        outcomes: &bytes[start..end],
        size: bytes.len() - start,
        qubits,
    })
}
