// Reading a datatype message: `Datatype::parse` over a lent table and pool.
#![tactic(auto)]

ghost use Rattle.std.specs.Prelude.{◌+◌, ◌*◌, ◌<◌, ◌≤◌, length};
ghost use Rattle.format.specs.Reading.{read_members_of, read_type_of};
ghost use Rattle.reading.specs.Contract.{run, Ready, AfterType, AfterMembers};
ghost use Rattle.reading.specs.Reads.{Reads};

use format::Header;
use reader_before::{open_headed, open_header};
use reader_behind::{end_based, enter_member, member_count};
use reader_leaf::read_leaf;
use reading::{Cursor, Limits, Opened, State, end_row};
use refusal::Refusal;

// The members of a compound, from behind its header on.
#[cycle(read)]
fn read_members(
    data: &[u8],
    table: &mut [u32],
    pool: &mut [u8],
    limits: Limits,
    start: Cursor,
    levels: usize,
    header: Header,
    version: u8,
    count: usize,
) -> Result<Cursor, Refusal>
    requires { (Ready limits start.rows start.pooled table.old pool.old × (start.at ≤ length «data».now + 7)) × (count < 65536) }
    ensures { AfterMembers count (run (read_members_of (read_type_of limits.version levels) version header.size count) «data».now limits start.at start.rows start.pooled)
        «data».now limits start.rows start.pooled result table.old table.new pool.old pool.new }
{
    let mut next = start;
    for _ in 0..count {
        let named = enter_member(data, table, pool, limits, next, version, header.size)?;
        let part = &data[named.at..];
        let inner = read_type(part, table, pool, limits, named.rows, named.pooled, levels)?;
        next = inner.end.behind(named.at);
    }
    Ok(next)
}

// A message, with so many levels left.
#[cycle(read)]
fn read_type(
    data: &[u8],
    table: &mut [u32],
    pool: &mut [u8],
    limits: Limits,
    used: usize,
    pooled: usize,
    levels: usize,
) -> Result<State, Refusal>
    requires { Ready limits used pooled table.old pool.old }
    ensures { AfterType (run (read_type_of limits.version levels) «data».now limits 0 used pooled)
        «data».now limits used pooled result table.old table.new pool.old pool.new }
{
    if levels == 0 {
        return Err(Refusal::TooDeep);
    }
    let header = open_header(data, limits, used)?;
    let opened = open_headed(data, limits, used, pooled, header)?;
    match opened {
        Opened::Leaf(_) => read_leaf(data, table, pool, limits, used, pooled, header),
        Opened::Compound(version) => {
            let count = member_count(header);
            let members = read_members(
                data,
                table,
                pool,
                limits,
                Cursor {
                    at: 8,
                    rows: used + 1,
                    pooled,
                },
                levels - 1,
                header,
                version,
                count as usize,
            )?;
            end_row(
                table,
                used,
                header.class,
                [7, header.size, 0, 0, count, 0, 0, 0, 0, 0, 0, 0, 0, 0, 0, 0],
                members,
                header.size,
            )
        }
        Opened::Based(base) => {
            let part = &data[base.from..];
            let inner = read_type(part, table, pool, limits, used + 1, base.place, levels - 1)?;
            let outer = State {
                end: inner.end.behind(base.from),
                ..inner
            };
            end_based(
                data,
                table,
                pool,
                limits,
                used,
                pooled,
                header,
                base.around,
                outer,
            )
        }
    }
}

// Reads a message under a version limit into the rows of `table` and the bytes of `pool`; what is not used is zero, and all of both
// where the message is refused. Refused, by the first met in message order: TooDeep, TooMany, Short, TooNew, BadClass, BadVersion, BadPadding,
// BadCharset, BadReferenceKind, PoolFull, ZeroSize. Cost: one pass over the message and one over what is lent.
pub fn read(data: &[u8], limit: u32, table: &mut [u32], pool: &mut [u8]) -> Result<usize, Refusal>
    ensures { Reads limit «data».now table.old pool.old result table.new pool.new }
{
    let rows = (table.len() / 16).min(4096);
    let room = pool.len().min(65536);
    let got = read_type(
        data,
        table,
        pool,
        Limits {
            version: limit,
            rows,
            pool: room,
        },
        0,
        0,
        32,
    );
    match got {
        Ok(s) => {
            table[s.end.rows * 16..].fill(0);
            pool[s.end.pooled..].fill(0);
            Ok(s.end.at)
        }
        Err(e) => {
            table.fill(0);
            pool.fill(0);
            Err(e)
        }
    }
}
