// The answer, from bytes and numbers.
ghost use Rattle.std.specs.Prelude.{◌≡◌};
ghost use Rattle.same.specs.Answers.{answering, answer_sized, Answered};
ghost use Rattle.same.specs.declared.answers.Wrong.TheVariants.{Refused};

use refusal::Refusal;

// Why two records are not compared.
#[derive(Clone, Copy)]
pub enum Wrong {
    Refused(Refusal),
    // The block is no whole number of records: its length, and how many whole records of what size it has.
    Remainder(u64, u64, u64),
    // A record number past the block, and how many records of what size the block has.
    Past(u64, u64, u64),
}

impl From<Refusal> for Wrong {
    ghost from_gives = { λ e w. w ≡ Refused e };

    fn from(e: Refusal) -> Wrong {
        Wrong::Refused(e)
    }
}

fn of_size(
    table: &[u32],
    pool: &[u8],
    block: &[u8],
    size: u64,
    first: u64,
    second: u64,
) -> Result<bool, Wrong>
    ensures { result ≡ answer_sized table.now pool.now block.now size first second }
{
    let count = blocks::record_count(block, size);
    let length = block.len() as u64;
    if count * size != length {
        return Err(Wrong::Remainder(length, count, size));
    }
    if count <= first {
        return Err(Wrong::Past(first, count, size));
    }
    if count <= second {
        return Err(Wrong::Past(second, count, size));
    }
    let is_same = blocks::compare_records(table, pool, block, size, first, second)?;
    Ok(is_same)
}

// The record size is the size of the type.
fn of_type(table: &[u32], pool: &[u8], block: &[u8], first: u64, second: u64) -> Result<bool, Wrong>
    ensures { result ≡ answering table.now pool.now block.now first second }
{
    let size = table::element_size(table, pool)?;
    of_size(table, pool, block, u64::from(size), first, second)
}

// Reads the message into the table and pool, and compares two records of the block. The limit is 5, the highest version that HDF5 writes.
pub fn of_message(
    message: &[u8],
    block: &[u8],
    first: u64,
    second: u64,
    table: &mut [u32],
    pool: &mut [u8],
) -> Result<bool, Wrong>
    ensures { Answered message.now block.now first second table.old pool.old result table.new pool.new }
{
    reader::read(message, 5, table, pool)?;
    of_type(table, pool, block, first, second)
}
