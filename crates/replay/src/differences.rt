// What the library answers on an entry, against what the entry says.
ghost use Rattle.std.specs.Prelude.{◌<◌};

use crate::entries::{Answer, Entry, Given, Sample};
use refusal::Refusal;

// The first thing in which an entry is not as expected.
#[derive(Clone, Copy)]
pub enum Difference {
    CutOff,
    Answer,
    Rows,
    Pool,
    Size,
    Addresses,
    Message,
    Slots,
}

// A difference, unless something is as expected.
fn expect(as_expected: bool, difference: Difference) -> Result<(), Difference> {
    if as_expected { Ok(()) } else { Err(difference) }
}

// The number that little-endian bytes write, at most 8.
fn number(bytes: &[u8]) -> u64 {
    bytes.iter().rev().fold(0, |n, b| (n << 8) | u64::from(*b))
}

// Whether a list holds the numbers given, of so many bytes each, and zeros behind them.
fn holds<T: Copy + Into<u64>>(list: &[T], given: &[u8], size: usize) -> bool
    requires { 0 < size }
{
    let count = given.len() / size;
    count <= list.len()
        && list
            .iter()
            .zip(given.chunks_exact(size))
            .all(|(x, bytes)| (*x).into() == number(bytes))
        && list.iter().skip(count).all(|x| (*x).into() == 0)
}

fn is_answered(got: Result<usize, Refusal>, answer: Answer) -> bool {
    let said = match got {
        Ok(n) => Answer {
            number: 0,
            first: n as u64,
            second: 0,
        },
        Err(e) => {
            let values = refusal::values(e);
            Answer {
                number: refusal::number(e),
                first: values.first.unwrap_or(0),
                second: values.second.unwrap_or(0),
            }
        }
    };
    said == answer
}

// Whether a call that lists numbers, of so many bytes each, gives the number and the bytes given.
fn is_given<T: Copy + Into<u64>>(
    got: Result<usize, Refusal>,
    list: &[T],
    given: Given,
    size: usize,
) -> bool
    requires { 0 < size }
{
    match got {
        Ok(n) => {
            let Some((listed, _)) = list.split_at_checked(n) else {
                return false;
            };
            given.number == 0
                && listed.len() == given.bytes.len() / size
                && holds(listed, given.bytes, size)
        }
        Err(e) => given.bytes.is_empty() && given.number == refusal::number(e),
    }
}

// Compares the rows and the pool.
fn compare_type(words: &[u8], bytes: &[u8], table: &[u32], pool: &[u8]) -> Result<(), Difference> {
    expect(holds(table, words, 4), Difference::Rows)?;
    expect(holds(pool, bytes, 1), Difference::Pool)
}

// Compares the size and the two predicates.
fn compare_facts(sample: Sample, table: &[u32], pool: &[u8]) -> Result<(), Difference> {
    let size = table::type_size(table, pool);
    expect(size == Ok(sample.size), Difference::Size)?;
    let object = table::datatype_holds_object_address(table, pool).map(u8::from);
    expect(object == Ok(sample.object), Difference::Addresses)?;
    let file = table::datatype_holds_file_address(table, pool).map(u8::from);
    expect(file == Ok(sample.file), Difference::Addresses)
}

// Compares the message written and the slots listed.
fn compare_results(sample: Sample, table: &[u32], pool: &[u8]) -> Result<(), Difference> {
    let mut out = [7u8; 131072];
    let mut slots = [7u64; 4096];
    let written = writer::write(table, pool, 3, &mut out);
    expect(
        is_given(written, &out, sample.written, 1),
        Difference::Message,
    )?;
    let listed = slots::embedded_reference_slots(table, pool, &mut slots).map(|n| n as usize);
    expect(
        is_given(listed, &slots, sample.listed, 8),
        Difference::Slots,
    )
}

// Reads the message and compares all that the entry says. A refused message leaves a table and a pool of zeros.
fn compare_read(entry: Entry, table: &mut [u32], pool: &mut [u8]) -> Result<(), Difference> {
    let got = reader::read(entry.message, 15, table, pool);
    expect(is_answered(got, entry.answer), Difference::Answer)?;
    let Some(sample) = entry.sample else {
        return compare_type(b"", b"", table, pool);
    };
    compare_type(sample.words, sample.pool, table, pool)?;
    compare_facts(sample, table, pool)?;
    compare_results(sample, table, pool)
}

// Runs an entry.
pub fn compare(entry: Entry) -> Result<(), Difference> {
    let mut table = [7u32; 65536];
    let mut pool = [7u8; 65536];
    compare_read(entry, &mut table, &mut pool)
}
