// A compound member up to its type, and what stands behind a nested message: an enumeration's names and values, rows over a
// base.
#![tactic(auto)]

ghost use Rattle.std.specs.Prelude.{◌≡◌, List, [], ◌∷◌, ℕ, ◌+◌, ◌*◌, ◌<◌, ◌≤◌, min, length, take, drop};
ghost use Rattle.std.proofs.lemmas.List.Edits.{sets};
ghost use Rattle.format.specs.Bytes.{dimensions_from};
ghost use Rattle.format.specs.Columns.{member_offset_column, place_column, length_column, value_length_column};
ghost use Rattle.format.specs.Reading.{class_kind, count_of, read_names_of, read_values_of};
ghost use Rattle.format.specs.Table.{row, isEnumeration, isArray};
ghost use Rattle.reader_behind.specs.Naming.{NameBegins};
ghost use Rattle.reader_behind.specs.Ending.{StoresVariable};
ghost use Rattle.reading.specs.Contract.{run, Ready, Enters, Names, AfterNames, Values, AfterEnum, read_enum_members_of, Surrounds, BaseRead, Ends, dimensions_of_lem};

use format::Header;
use names::{Name, NameError, read_name};
use primitives::{
    capped, copy_bytes, high4, low4, name_padding, offset_bytes_for_size, put_row, read_uint,
    scaled, skipped_bytes,
};
use reading::{Around, Cursor, Limits, State, end_row};
use refusal::Refusal;

// The number of members of a compound or an enumeration.
pub fn member_count(header: Header) -> u32
    ensures { (result ≡ count_of header) × (result < 65536) }
{
    u32::from(u16::from_le_bytes([header.f0, header.f1]))
}

// A member's row, by its kind (12 of a compound, 13 of an enumeration): its offset, where its name lies in the pool, its value's length.
fn put_member_row(
    table: &mut [u32],
    used: usize,
    kind: u32,
    offset: u32,
    place: usize,
    long: usize,
    width: u32,
)
    requires { (used * 16 + 16 ≤ length table.old) × ((place < 4294967296) × (long < 4294967296)) }
    ensures { table.new ≡ sets table.old (used * 16) (row kind ((member_offset_column, offset) ∷ (place_column, place) ∷ (length_column, long) ∷ (value_length_column, width) ∷ [])) }
{
    put_row(
        table,
        used,
        [
            kind,
            offset,
            place as u32,
            long as u32,
            width,
            0,
            0,
            0,
            0,
            0,
            0,
            0,
            0,
            0,
            0,
            0,
        ],
    );
}

// A member's name, once a row is free for it: TooMany, Short, PoolFull.
// Inlined, so that the name's answer stays in registers.
#[inline(always)]
fn begin_member(
    data: &[u8],
    pool: &mut [u8],
    limits: Limits,
    start: Cursor,
) -> Result<Name, Refusal>
    requires { ((start.pooled ≤ limits.pool) × (limits.pool ≤ length pool.old)) × ((limits.pool ≤ 65536) × (start.at ≤ length «data».now + 7)) }
    ensures { NameBegins «data».now limits start.at start.rows start.pooled result pool.old pool.new }
{
    if limits.rows <= start.rows {
        return Err(Refusal::TooMany);
    }
    let rest = &data[start.at.min(data.len())..];
    read_name(rest, &mut pool[start.pooled..limits.pool]).map_err(|e| match e {
        NameError::Missing => Refusal::Short(start.at + 1, data.len()),
        NameError::Full => Refusal::PoolFull,
    })
}

// One member up to its type: its row and name are stored.
pub fn enter_member(
    data: &[u8],
    table: &mut [u32],
    pool: &mut [u8],
    limits: Limits,
    start: Cursor,
    version: u8,
    size: u32,
) -> Result<Cursor, Refusal>
    requires { Ready limits start.rows start.pooled table.old pool.old × (start.at ≤ length «data».now + 7) }
    ensures { Enters «data».now limits version size start result table.old table.new pool.old pool.new }
{
    let name = begin_member(data, pool, limits, start)?;
    let n = name.length + 1;
    let from = start.at + n + name_padding(version, n);
    let width = offset_bytes_for_size(version, size);
    if data.len() < from + width {
        return Err(Refusal::Short(from + width, data.len()));
    }
    let inner = from + width + skipped_bytes(version);
    if data.len() < inner {
        return Err(Refusal::Short(inner, data.len()));
    }
    let offset = read_uint(data, from, width);
    put_member_row(table, start.rows, 12, offset, start.pooled, name.stored, 0);
    Ok(Cursor {
        at: inner,
        rows: start.rows + 1,
        pooled: start.pooled + name.stored,
    })
}

// One name of an enumeration, with the length that its value will have.
fn enter_enum_member(
    data: &[u8],
    table: &mut [u32],
    pool: &mut [u8],
    limits: Limits,
    start: Cursor,
    version: u8,
    width: u32,
) -> Result<Cursor, Refusal>
    requires { Ready limits start.rows start.pooled table.old pool.old × (start.at ≤ length «data».now + 7) }
    ensures { Names «data».now limits version width start result table.old table.new pool.old pool.new }
{
    let name = begin_member(data, pool, limits, start)?;
    let n = name.length + 1;
    put_member_row(table, start.rows, 13, 0, start.pooled, name.stored, width);
    Ok(Cursor {
        at: start.at + n + name_padding(version, n),
        rows: start.rows + 1,
        pooled: start.pooled + name.stored,
    })
}

// All names of an enumeration.
fn read_names(
    data: &[u8],
    table: &mut [u32],
    pool: &mut [u8],
    limits: Limits,
    start: Cursor,
    version: u8,
    count: usize,
    width: u32,
) -> Result<Cursor, Refusal>
    requires { Ready limits start.rows start.pooled table.old pool.old × (start.at ≤ length «data».now + 7) }
    ensures { AfterNames count width (run (read_names_of version count) «data».now limits start.at start.rows start.pooled)
        «data».now limits start.rows start.pooled result table.old table.new pool.old pool.new }
{
    let mut next = start;
    for _ in 0..count {
        next = enter_enum_member(data, table, pool, limits, next, version, width)?;
    }
    Ok(next)
}

// All values of an enumeration, each as long as the base's size.
fn read_values(
    data: &[u8],
    pool: &mut [u8],
    limits: Limits,
    start: Cursor,
    count: usize,
    width: usize,
) -> Result<Cursor, Refusal>
    requires { (((start.pooled ≤ limits.pool) × (limits.pool ≤ length pool.old)) × (start.at ≤ length «data».now + 7)) × ((0 < width) × (width < 4294967296)) }
    ensures { (bs : List (List ℕ)) → length bs ≡ count → Values bs (run (read_values_of width bs) «data».now limits start.at start.rows start.pooled) width
        «data».now limits start.rows start.pooled result pool.old pool.new }
{
    let mut next = start;
    for _ in 0..count {
        if data.len() < next.at + width {
            return Err(Refusal::Short(next.at + width, data.len()));
        }
        if limits.pool - next.pooled < width {
            return Err(Refusal::PoolFull);
        }
        copy_bytes(data, next.at, width, pool, next.pooled);
        next.at += width;
        next.pooled += width;
    }
    Ok(next)
}

// Names, then values as long as the base's size.
fn read_enum_members(
    data: &[u8],
    table: &mut [u32],
    pool: &mut [u8],
    limits: Limits,
    base: State,
    version: u8,
    count: usize,
) -> Result<Cursor, Refusal>
    requires { (Ready limits base.end.rows base.end.pooled table.old pool.old × (base.end.at ≤ length «data».now + 7)) × (0 < base.size) }
    ensures { AfterEnum count (run (read_enum_members_of version count base.size) «data».now limits base.end.at base.end.rows base.end.pooled)
        «data».now limits base.end.rows base.end.pooled result table.old table.new pool.old pool.new }
{
    let named = read_names(
        data, table, pool, limits, base.end, version, count, base.size,
    )?;
    read_values(data, pool, limits, named, count, base.size as usize)
}

// Class 8, behind its base.
fn end_enumeration(
    data: &[u8],
    table: &mut [u32],
    pool: &mut [u8],
    limits: Limits,
    used: usize,
    pooled: usize,
    header: Header,
    inner: State,
) -> Result<State, Refusal>
    requires { BaseRead «data».now limits used pooled [] inner table.old pool.old × (class_kind header.class ≡ isEnumeration) }
    ensures { Ends «data».now limits used pooled header [] inner result table.old table.new pool.old pool.new }
{
    let count = member_count(header);
    let end = read_enum_members(
        data,
        table,
        pool,
        limits,
        inner,
        header.version,
        count as usize,
    )?;
    end_row(
        table,
        used,
        header.class,
        [9, header.size, 0, 0, count, 0, 0, 0, 0, 0, 0, 0, 0, 0, 0, 0],
        end,
        header.size,
    )
}

// The row of class 9: a string's codes are stored plus 1.
fn put_variable_row(table: &mut [u32], used: usize, header: Header)
    requires { used * 16 + 16 ≤ length table.old }
    ensures { StoresVariable header used table.old table.new }
{
    let (string, padding, charset) = if low4(header.f0) == 1 {
        (
            1,
            u32::from(high4(header.f0)) + 1,
            u32::from(low4(header.f1)) + 1,
        )
    } else {
        (0, 0, 0)
    };
    put_row(
        table,
        used,
        [
            10, 0, 0, 0, 0, string, padding, charset, 0, 0, 0, 0, 0, 0, 0, 0,
        ],
    );
}

// Class 10, behind its base: the dimensions are stored in front of the base's pool bytes.
fn end_array(
    data: &[u8],
    table: &mut [u32],
    pool: &mut [u8],
    limits: Limits,
    used: usize,
    pooled: usize,
    header: Header,
    start: usize,
    rank: usize,
    inner: State,
) -> Result<State, Refusal>
    requires { BaseRead «data».now limits used pooled (dimensions_from rank (take (4 * rank) (drop start «data».now))) inner table.old pool.old
        × ((class_kind header.class ≡ isArray) × (rank ≤ 255) × (start + 4 * rank ≤ length «data».now)) }
    ensures { Ends «data».now limits used pooled header (dimensions_from rank (take (4 * rank) (drop start «data».now))) inner result
        table.old table.new pool.old pool.new }
{
    let size = capped(scaled(data, start, rank as u32, inner.size));
    copy_bytes(data, start, 4 * rank, pool, pooled);
    end_row(
        table,
        used,
        header.class,
        [
            11,
            0,
            pooled as u32,
            rank as u32,
            0,
            0,
            0,
            0,
            0,
            0,
            0,
            0,
            0,
            0,
            0,
            0,
        ],
        inner.end,
        size,
    )
}

// What stands behind the base of a class 8, 9 or 10 type, which was read up to `inner`, and the type's own row.
// Inlined, so that the answers of `read_type` of the reader stay in registers.
#[inline(always)]
pub fn end_based(
    data: &[u8],
    table: &mut [u32],
    pool: &mut [u8],
    limits: Limits,
    used: usize,
    pooled: usize,
    header: Header,
    around: Around,
    inner: State,
) -> Result<State, Refusal>
    requires { Surrounds «data».now (class_kind header.class) around × BaseRead «data».now limits used pooled (dimensions_of_lem «data».now around) inner table.old pool.old }
    ensures { Ends «data».now limits used pooled header (dimensions_of_lem «data».now around) inner result table.old table.new pool.old pool.new }
{
    match around {
        Around::Enumeration => {
            end_enumeration(data, table, pool, limits, used, pooled, header, inner)
        }
        Around::VariableLength => {
            put_variable_row(table, used, header);
            Ok(State {
                end: inner.end,
                size: 16,
            })
        }
        Around::Array(start, rank) => {
            end_array(
                data, table, pool, limits, used, pooled, header, start, rank, inner,
            )
        }
    }
}
