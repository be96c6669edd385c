// A view of a record block: its bytes with the record size. The functions over the view call those over a plain slice and numbers.
#![tactic(auto)]

ghost use Rattle.std.specs.Prelude.{◌≡◌};
ghost use Rattle.format.specs.Ownership.{comparing};
ghost use Rattle.format.specs.Slots.{record_count_of};
ghost use Rattle.table.specs.Names.{further};
ghost use Rattle.compare.specs.Agreeing.{Compares};
ghost use Rattle.references.specs.References.{ReferencesAre};
ghost use Rattle.blocks.specs.Blocks.{record_of_lem, record_place};

use references::at_least_one;
use refusal::Refusal;

// A block of records, and the size of one, where 0 counts as 1.
#[derive(Clone, Copy)]
pub struct Block<'a> {
    pub bytes: &'a [u8],
    pub record_size: u64,
}

// How many whole records the bytes of a block are; a remainder is ignored, and record size 0 counts as 1.
pub fn record_count(bytes: &[u8], record_size: u64) -> u64
    ensures { result ≡ record_count_of bytes.now record_size }
{
    let size = at_least_one(record_size);
    bytes.len() as u64 / size
}

// The record of a number, from 0, as the part of the block that holds it; the empty part at the block's start for a number past the last
// whole record's, which document 01 leaves free.
pub fn record_bytes<'a>(bytes: &'a [u8], record_size: u64, number: u64) -> &'a [u8]
    ensures is { result.now ≡ record_of_lem bytes.now record_size number }
    ensures begins { result.ref_ptr ≡ further bytes.entry.ref_ptr (record_place bytes.now record_size number) }
{
    let count = record_count(bytes, record_size);
    if count <= number {
        return &bytes[0..0];
    }
    let size = at_least_one(record_size) as usize;
    let from = number as usize * size;
    let to = from + size;
    &bytes[from..to]
}

// The view of a block.
pub fn view<'a>(bytes: &'a [u8], record_size: u64) -> Block<'a>
    ensures { (result.bytes ≡ bytes.entry) × (result.record_size ≡ record_size) }
{
    Block { bytes, record_size }
}

// How many whole records a block has, as `record_count` says it: a number for every block, since record size 0 counts as 1.
pub fn count<'a>(block: Block<'a>) -> u64
    ensures { result ≡ record_count_of block.entry.bytes.now block.entry.record_size }
{
    record_count(block.bytes, block.record_size)
}

// One record of a block, as `record_bytes` gives it.
pub fn record_at<'a>(block: Block<'a>, number: u64) -> &'a [u8]
    ensures is { result.now ≡ record_of_lem block.entry.bytes.now block.entry.record_size number }
    ensures begins { result.ref_ptr ≡ further block.entry.bytes.ref_ptr (record_place block.entry.bytes.now block.entry.record_size number) }
{
    record_bytes(block.bytes, block.record_size, number)
}

// The references of each whole record of a block, as `stored_object_references` gives them, with its refusals and its cost.
pub fn block_references<'a>(
    block: Block<'a>,
    slots: &[u64],
    places: &mut [u64],
    values: &mut [u64],
) -> Result<u64, Refusal>
    ensures { ReferencesAre block.entry.bytes.now block.entry.record_size slots.now result places.old places.new values.old values.new }
{
    references::stored_object_references(block.bytes, block.record_size, slots, places, values)
}

// Whether two records of a block are the same, by `same`, with its refusals and its cost. A number past the block stands for an empty record.
pub fn compare_records(
    table: &[u32],
    pool: &[u8],
    bytes: &[u8],
    record_size: u64,
    first: u64,
    second: u64,
) -> Result<bool, Refusal>
    ensures { Compares (comparing table.now pool.now (record_of_lem bytes.now record_size first) (record_of_lem bytes.now record_size second)) result }
{
    let block = view(bytes, record_size);
    let a = record_at(block, first);
    let b = record_at(block, second);
    compare::same(table, pool, a, b)
}
