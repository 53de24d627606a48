// The functions that C programs link, each thin over the library's own: any bytes, any lengths. Each returns the refusal's number, 0 when accepted, and every
// call writes all places of `answer`. include/senghovai.h says the same in C.
#![tactic(auto)]

ghost use Rattle.std.specs.Prelude.{◌≡◌, ◌∷◌, ◌-◌, ◌<◌, replicate};
ghost use Rattle.archive.specs.Copy.{copy_of};
ghost use Rattle.archive.specs.Same.{same_of};
ghost use Rattle.checking.specs.Check.{check_of};
ghost use Rattle.probability.specs.Probability.{probability_of};
ghost use Rattle.product.specs.Product.{product_of};
ghost use Rattle.records.specs.Reading.{read_of};
ghost use Rattle.senghovai.specs.Exports.{verdict_number, chance_places, check_places, ExportsRun, read_places, ExportsWritten, same_number, same_places, write_places};
ghost use Rattle.answers.specs.Refusals.{number_of, place_of, told};

use answers::Refusal;
use archive::Unread;
use probability::Chance;

// A refusal: its place in front of the answer, and zero behind it.
fn refuse<const N: usize>(r: Refusal, answer: &mut [u64; N]) -> u64
    requires { 0 < N }
    ensures number { result ≡ number_of r }
    ensures places { answer.new ≡ place_of r ∷ replicate (N - 1) 0 }
{
    answer.fill(0);
    answer[0] = r.place() as u64;
    r.number()
}

#[unsafe(no_mangle)]
pub extern "C" fn senghovai_check(circuit: &[u8], answer: &mut [u64; 3]) -> u64
    ensures { (result ≡ verdict_number (check_of circuit.now)) × (answer.new ≡ check_places (check_of circuit.now)) }
{
    match library::check(circuit) {
        Ok(size) => {
            *answer = [0, size.qubits as u64, size.operations as u64];
            0
        }
        Err(r) => refuse(r, answer),
    }
}

#[unsafe(no_mangle)]
pub extern "C" fn senghovai_run(
    circuit: &[u8],
    coins: &[u8],
    sheet: &mut [u8],
    answer: &mut [u64; 6],
) -> u64
    ensures { ExportsRun circuit.now coins.now sheet.old result answer.new sheet.new }
{
    let mut ran = Err(Refusal::NoRoom);
    let rest = library::run(circuit, coins, sheet, &mut ran);
    let left = rest.len() as u64;
    match ran {
        Ok(ran) => {
            *answer = [
                0,
                ran.size as u64,
                left,
                ran.tally.measured as u64,
                ran.tally.random as u64,
                ran.tally.taken as u64,
            ];
            0
        }
        Err(r) => {
            *answer = [r.place() as u64, 0, left, 0, 0, 0];
            r.number()
        }
    }
}

#[unsafe(no_mangle)]
pub extern "C" fn senghovai_read(bytes: &[u8], answer: &mut [u64; 5]) -> u64
    ensures { (result ≡ verdict_number (read_of bytes.now)) × (answer.new ≡ read_places bytes.now (read_of bytes.now)) }
{
    let mut words = [0u64; packing::WORDS];
    match library::read(bytes, &mut words) {
        Ok(record) => {
            let start = bytes.len() - record.size;
            *answer = [
                0,
                record.size as u64,
                record.qubits as u64,
                start as u64,
                record.outcomes.len() as u64,
            ];
            0
        }
        Err(r) => refuse(r, answer),
    }
}

// Place and length of a function that writes bytes.
fn tell(written: Result<usize, Refusal>, answer: &mut [u64; 2]) -> u64
    ensures { (result ≡ verdict_number (told written)) × (answer.new ≡ write_places (told written)) }
{
    match written {
        Ok(count) => {
            *answer = [0, count as u64];
            0
        }
        Err(r) => refuse(r, answer),
    }
}

#[unsafe(no_mangle)]
pub extern "C" fn senghovai_copy(bytes: &[u8], out: &mut [u8], answer: &mut [u64; 2]) -> u64
    ensures { ExportsWritten (copy_of bytes.now) out.old result answer.new out.new }
{
    tell(library::copy(bytes, out), answer)
}

#[unsafe(no_mangle)]
pub extern "C" fn senghovai_product(
    first: &[u8],
    second: &[u8],
    out: &mut [u8],
    answer: &mut [u64; 2],
) -> u64
    ensures { ExportsWritten (product_of first.now second.now) out.old result answer.new out.new }
{
    tell(library::product(first, second, out), answer)
}

#[unsafe(no_mangle)]
pub extern "C" fn senghovai_same(first: &[u8], second: &[u8], answer: &mut [u64; 3]) -> u64
    ensures { (result ≡ same_number (same_of first.now second.now)) × (answer.new ≡ same_places (same_of first.now second.now)) }
{
    match library::same_state(first, second) {
        Ok(same) => {
            *answer = [0, 0, u64::from(same)];
            0
        }
        Err(Unread::First(r)) => {
            *answer = [1, r.place() as u64, 0];
            r.number()
        }
        Err(Unread::Second(r)) => {
            *answer = [2, r.place() as u64, 0];
            r.number()
        }
    }
}

#[unsafe(no_mangle)]
pub extern "C" fn senghovai_probability(circuit: &[u8], stated: &[u8], answer: &mut [u64; 4]) -> u64
    ensures { (result ≡ verdict_number (probability_of circuit.now stated.now)) × (answer.new ≡ chance_places (probability_of circuit.now stated.now)) }
{
    match library::probability(circuit, stated) {
        Ok(Chance::Possible(l)) => {
            *answer = [0, 1, l.k, l.bits()];
            0
        }
        Ok(Chance::Impossible(line)) => {
            *answer = [0, 0, line as u64, 0];
            0
        }
        Err(r) => refuse(r, answer),
    }
}
