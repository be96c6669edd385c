// Demand 3 over the code: what `write` puts out, `read` gives back.
#![tactic(auto)]

ghost use Rattle.round_trip.specs.Back.{Back};

use reader::read;
use refusal::Refusal;
use writer::write;

// Writes the type of a table in an edition into a lent buffer, and reads it back from that whole buffer, with whatever stands behind the
// message, into a second table and pool under a limit: the length of the message. Refused: as `write`, and then nothing is read; then as
// `read`. Cost: theirs.
pub fn write_and_read(
    table: &[u32],
    pool: &[u8],
    edition: u32,
    buffer: &mut [u8],
    limit: u32,
    second_table: &mut [u32],
    second_pool: &mut [u8],
) -> Result<usize, Refusal>
    ensures { Back table.now pool.now edition limit result buffer.old buffer.new
        second_table.old second_table.new second_pool.old second_pool.new }
{
    write(table, pool, edition, buffer)?;
    let length = read(buffer, limit, second_table, second_pool)?;
    Ok(length)
}
