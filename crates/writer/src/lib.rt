// Writing the message of the type in a table: `serialize`, in editions 1 to 3.
#![tactic(auto)]

ghost use Rattle.std.specs.Prelude.{◌+◌, ◌*◌, ◌-◌, ◌≤◌, ◌<◌, length};
ghost use Rattle.format.specs.Table.{type_at, members_at};
ghost use Rattle.writer.specs.Writes.{PutsType, PutsMembers, Writes};

use measure::measure_type;
use refusal::Refusal;
use rows::{Entry, known_entry_at, known_member_at};
use table::{check, ends_at, size_at};
use writer_parts::{
    Written, put_array_head, put_enum_members, put_group_header, put_leaf, put_member_head,
    put_variable_header,
};

// The members of a compound of a size, into `out` at a place. Here and in `put_type` a row is not tested again: measuring tested it.
// Inlined, so that a compound takes one frame of the stack.
#[inline(always)]
#[cycle(put)]
fn put_members(
    table: &[u32],
    pool: &[u8],
    row: usize,
    place: usize,
    count: u32,
    size: u32,
    levels: usize,
    edition: u8,
    out: &mut [u8],
    at: usize,
) -> Option<Written>
    requires { edition ≤ 3 }
    ensures { PutsMembers edition size at (members_at (type_at levels table.now pool.now) table.now pool.now count row place) result out.old out.new }
{
    let mut last = Written { row, place, at };
    for _ in 0..count {
        let member = known_member_at(table, pool, last.row, last.place)?;
        let behind = put_member_head(
            pool,
            last.place,
            member.name,
            out,
            last.at,
            edition,
            size,
            member.number,
        )?;
        let from = last.place + member.name as usize;
        last = put_inner(
            table,
            pool,
            last.row + 1,
            from,
            levels,
            edition,
            out,
            behind,
        )?;
    }
    Some(last)
}

// As `put_type`, of a member: a leaf is put here, and `put_type` reads any other row again.
#[cycle(put)]
fn put_inner(
    table: &[u32],
    pool: &[u8],
    row: usize,
    place: usize,
    levels: usize,
    edition: u8,
    out: &mut [u8],
    at: usize,
) -> Option<Written>
    requires { edition ≤ 3 }
    ensures { PutsType edition at (type_at levels table.now pool.now row place) result out.old out.new }
{
    if levels == 0 {
        return None;
    }
    let entry = known_entry_at(table, pool, row, place)?;
    match entry {
        Entry::Leaf(class, size, length, code) => put_leaf(
            table, pool, row, place, class, size, length, code, out, at,
        ),
        _ => put_type(table, pool, row, place, levels, edition, out, at),
    }
}

// The type at a row, its pool bytes at a place, with so many levels left, into `out` at a place. None where there is none, it does not fit
// or it cannot be stored.
#[cycle(put)]
fn put_type(
    table: &[u32],
    pool: &[u8],
    row: usize,
    place: usize,
    levels: usize,
    edition: u8,
    out: &mut [u8],
    at: usize,
) -> Option<Written>
    requires { edition ≤ 3 }
    ensures { PutsType edition at (type_at levels table.now pool.now row place) result out.old out.new }
{
    if levels == 0 {
        return None;
    }
    let inner = levels - 1;
    let entry = known_entry_at(table, pool, row, place)?;
    match entry {
        Entry::Leaf(class, size, length, code) => put_leaf(
            table, pool, row, place, class, size, length, code, out, at,
        ),
        Entry::Compound(size, count) => {
            let behind = put_group_header(out, at, 6, edition, count, size)?;
            put_members(
                table,
                pool,
                row + 1,
                place,
                count,
                size,
                inner,
                edition,
                out,
                behind,
            )
        }
        Entry::Enumeration(size, count) => {
            let behind = put_group_header(out, at, 8, edition, count, size)?;
            let base = put_type(table, pool, row + 1, place, inner, edition, out, behind)?;
            put_enum_members(
                table, pool, base.row, base.place, count, out, base.at, edition,
            )
        }
        Entry::VariableLength(string, padding, charset) => {
            let behind = put_variable_header(out, at, string, padding, charset)?;
            put_type(table, pool, row + 1, place, inner, edition, out, behind)
        }
        Entry::Array(rank) => {
            let size = size_at(table, pool, row, levels);
            let behind = put_array_head(pool, place, rank, size, out, at, edition)?;
            let from = place + (rank as usize) * 4;
            put_type(table, pool, row + 1, from, inner, edition, out, behind)
        }
    }
}

// Writes the message of the type that a table and pool set out, in an edition, to the start of `out`. Refused, in this order: BadTable,
// NoSuchEdition, Unstorable, NotInEdition, NoRoom. Costs two passes over the rows, and for each array a step for each
// array right inside it; what is behind the type in table and pool is looked at once.
pub fn write(table: &[u32], pool: &[u8], edition: u32, out: &mut [u8]) -> Result<usize, Refusal>
    ensures { Writes table.now pool.now edition result out.old out.new }
{
    match u8::try_from(edition) {
        Ok(known @ 1..=3) => write_edition(table, pool, known, out),
        _ => {
            check(table, pool).ok_or(Refusal::BadTable)?;
            Err(Refusal::NoSuchEdition)
        }
    }
}

// The same, in an edition that exists. Measuring finds no type exactly where the check does.
fn write_edition(table: &[u32], pool: &[u8], edition: u8, out: &mut [u8]) -> Result<usize, Refusal>
    requires { (1 ≤ edition) × (edition ≤ 3) }
    ensures { Writes table.now pool.now edition result out.old out.new }
{
    let m = measure_type(table, pool, 0, 0, 32, edition).ok_or(Refusal::BadTable)?;
    if !ends_at(table, pool, m.row, m.place) {
        return Err(Refusal::BadTable);
    }
    if !m.storable {
        return Err(Refusal::Unstorable);
    }
    if !m.carried {
        return Err(Refusal::NotInEdition);
    }
    let length = m.length as usize;
    if out.len() < length {
        return Err(Refusal::NoRoom(m.length));
    }
    put_type(table, pool, 0, 0, 32, edition, out, 0).ok_or(Refusal::BadTable)?;
    Ok(length)
}
