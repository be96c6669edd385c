// `duplicates`: which records of a block are the same as an earlier one.
#![tactic(auto)]

mod lists;

ghost use Rattle.std.specs.Prelude.{◌≡◌, [], length};
ghost use Rattle.groups.specs.Duplicates.{duplicating};
ghost use Rattle.groups.specs.Groups.{numbers_of, distinct_of};
ghost use Rattle.compare.specs.Agreeing.{Admits};
ghost use Rattle.duplicates.specs.Answers.{Listed, Answered, DuplicatesAre};
ghost use Rattle.firsts.specs.Found.{Standing, numbers_in};
ghost use Rattle.firsts.specs.Records.{keys_in, Comparable};
ghost use Rattle.duplicates.specs.WordCount.{words_needed, most_words_of, WordsAre};

use compare::admit;
use firsts::found::Found;
use firsts::records::Records;
use firsts::search;
use lists::{list_sizes, put_numbers};
use refusal::Refusal;
use runs::list_runs;

// How many records a block has, and how many distinct ones.
#[derive(Clone, Copy)]
pub struct Groups {
    pub records: u64,
    pub distinct: u64,
}

// The groups of the records, d of which are firsts, with room for the number of each.
fn list_groups<'a>(
    found: Found<'a>,
    d: usize,
    numbers: &mut [u64],
    sizes: &mut [u64],
) -> Result<Groups, Refusal>
    requires standing { Standing found × (length numbers.old ≡ found.n) }
    requires firsts { d ≡ distinct_of (keys_in found.table.now found.pool.now found.records) }
    ensures { Listed (numbers_in found.entry) result numbers.old numbers.new sizes.old sizes.new }
{
    if sizes.len() < d {
        return Err(Refusal::NoRoom(d as u64));
    }
    put_numbers(found, numbers);
    list_sizes(found, numbers, sizes);
    Ok(Groups {
        records: found.n as u64,
        distinct: d as u64,
    })
}

// The groups of the records of two blocks, with a place for the number of each.
fn grouped<'a>(
    table: &[u32],
    pool: &[u8],
    records: Records<'a>,
    numbers: &mut [u64],
    sizes: &mut [u64],
    work: &mut [u64],
) -> Result<Groups, Refusal>
    requires comparable { Comparable table.now pool.now records }
    requires places { length numbers.old ≡ length (keys_in table.now pool.now records) }
    ensures { Listed (numbers_of (keys_in table.now pool.now records.entry)) result numbers.old numbers.new sizes.old sizes.new }
{
    let (found, distinct) = search(table, pool, records, work);
    list_groups(found, distinct, numbers, sizes)
}

// No bytes of a block.
fn no_bytes(block: &[u8]) -> &[u8]
    ensures { result.now ≡ [] }
{
    &block[..0]
}

// The answer for a type that is admitted and has a size.
fn sized(
    table: &[u32],
    pool: &[u8],
    block: &[u8],
    size: u32,
    numbers: &mut [u64],
    sizes: &mut [u64],
    work: &mut [u64],
) -> Result<Groups, Refusal>
    requires { Admits table.now pool.now size }
    ensures { Answered (duplicating table.now pool.now block.now (length numbers.old) (length sizes.old)) result numbers.old numbers.new sizes.old sizes.new }
{
    if block.len() % (size as usize) != 0 {
        return Err(Refusal::WrongLength);
    }
    let n = block.len() / (size as usize);
    if numbers.len() < n {
        return Err(Refusal::NoRoom(n as u64));
    }
    let records = Records {
        a: block,
        b: no_bytes(block),
        size,
    };
    grouped(table, pool, records, &mut numbers[..n], sizes, work)
}

fn answer(
    table: &[u32],
    pool: &[u8],
    block: &[u8],
    numbers: &mut [u64],
    sizes: &mut [u64],
    work: &mut [u64],
) -> Result<Groups, Refusal>
    ensures { Answered (duplicating table.now pool.now block.now (length numbers.old) (length sizes.old)) result numbers.old numbers.new sizes.old sizes.new }
{
    let size = admit(table, pool)?;
    sized(table, pool, block, size, numbers, sizes, work)
}

// For each record of a block the number, from 0, of the earliest record that is the same, into the front of `numbers`; the sizes of the groups,
// by first record, into the front of `sizes`; the answer is how many records and how many groups. Refused, in this order: BadTable, ZeroSize,
// OutsideRecord, HeapHeld, WrongLength, NoRoom for the numbers, NoRoom for the sizes; a refusal leaves both lists as they are. The workspace is
// all zero afterwards and no answer depends on it. Cost: with 3 words a record and 2 a run of the type (`duplicates_words`) the time grows
// little faster than the block; with fewer the chains grow longer, and with 2 a record and 2 a run or less, or none, each record is compared
// with those before it. The workspace's first word seeds the hash: where it is filled at random, nobody can choose records that make the call
// slow.
pub fn duplicates(
    table: &[u32],
    pool: &[u8],
    block: &[u8],
    numbers: &mut [u64],
    sizes: &mut [u64],
    work: &mut [u64],
) -> Result<Groups, Refusal>
    ensures { DuplicatesAre (duplicating table.now pool.now block.now (length numbers.old) (length sizes.old)) result numbers.old numbers.new sizes.old sizes.new work.old work.new }
{
    let r = answer(table, pool, block, numbers, sizes, work);
    work.fill(0);
    r
}

// 3 words a record and 2 a run, at most 18,446,744,073,709,551,615.
fn most_words(records: u64, runs: u64) -> u64
    ensures { result ≡ most_words_of records runs }
{
    records
        .saturating_mul(3)
        .saturating_add(runs.saturating_mul(2))
}

// The words of workspace with which `duplicates` is near-linear on so many records of a type: 3 a record and 2 a run. Refused, in this order:
// BadTable, ZeroSize, OutsideRecord, HeapHeld. Cost: as a comparison of two records.
pub fn duplicates_words(table: &[u32], pool: &[u8], records: u64) -> Result<u64, Refusal>
    ensures { WordsAre (words_needed table.now pool.now records) result }
{
    let size = admit(table, pool)?;
    let mut none: [u64; 1] = [0; 1];
    let runs = list_runs(table, pool, size, usize::MAX, &mut none);
    Ok(most_words(records, runs))
}
