// The check of a lent table, the sizes and address predicates of its type, the names of its members, and the path that a walk over it
// carries.
#![tactic(auto)]

mod path;

ghost use Rattle.std.specs.Prelude.{◌≡◌, true, ◌+◌, ◌*◌, ◌-◌, ◌≤◌, ◌<◌, min, length, take, drop};
ghost use Rattle.format.specs.Bytes.{dimensions_from};
ghost use Rattle.format.specs.Datatype.{product};
ghost use Rattle.format.specs.Sizes.{sizing, element_sizing, class_may_hold_object_address_of, object_address_held, file_address_held};
ghost use Rattle.format.specs.Table.{type_at, members_at};
ghost use Rattle.table.specs.Known.{PassesNames, PassesType, PassesMembers, TotalAt, SizedAt};
ghost use Rattle.table.specs.Survey.{survey_of, survey_in, leaf_survey_of, enumeration_survey_of, variable_survey_of, array_survey_of, enum_spot_of, ends_at, Checks, SizedAs, HeldAs};
ghost use Rattle.table.specs.Names.{name_of, name_place, further, PartIs};
ghost use Rattle.table.specs.Extent.{extending, UsedAs};

pub use path::Path;
use primitives::{capped, low4, scaled};
use refusal::Refusal;
use rows::{
    Entry, EnumPlace, clear_bytes, clear_words, entry_at, enum_member_at, member_at, row_entry,
    row_member,
};

// What a walk over a type finds: the next row and pool place, the size, the class of the first row of size 0, whether something reaches
// outside (refusal 16), whether it holds what refusal 17 names, and the two address predicates.
#[derive(Clone, Copy)]
pub struct Survey {
    pub row: usize,
    pub place: usize,
    pub size: u32,
    pub zero: Option<u8>,
    pub outside: bool,
    pub heap: bool,
    pub object: bool,
    pub file: bool,
}

// The next row and pool place.
#[derive(Clone, Copy)]
pub struct Spot {
    pub row: usize,
    pub place: usize,
}

// How many rows and pool bytes a type uses.
#[derive(Clone, Copy)]
pub struct Used {
    pub rows: usize,
    pub bytes: usize,
}

// A part of the pool.
#[derive(Clone, Copy)]
pub struct NamePart {
    pub place: usize,
    pub length: usize,
}

// The members of an enumeration: all names, then all values.
pub fn skip_enum_members(
    table: &[u32],
    pool: &[u8],
    row: usize,
    place: usize,
    count: u32,
) -> Option<Spot>
    ensures { result ≡ enum_spot_of table.now pool.now count row place }
{
    if count == 0 {
        return Some(Spot { row, place });
    }
    let mut at = EnumPlace {
        row,
        place,
        values: 0,
    };
    for _ in 0..count {
        let member = enum_member_at(table, pool, at.row, at.place)?;
        at = at.behind(pool, member)?;
    }
    let end = at.end(pool)?;
    Some(Spot {
        row: at.row,
        place: end,
    })
}

// The row behind an enumeration's members, by their number; of use where they are known to be there.
pub fn behind_enum_members(table: &[u32], row: usize, count: u32) -> usize
    ensures { PassesNames table.now row count result }
{
    if table.len() / 16 <= row {
        return row;
    }
    row + count as usize
}

// The row behind the type at a row that is known, with so many levels left. No row is tested, and an enumeration's members are passed by their
// number: the cost is a step for each other row.
#[cycle(passing)]
pub fn next_row(table: &[u32], row: usize, levels: usize) -> usize
    ensures { PassesType levels table.now row result }
{
    if levels == 0 {
        return row;
    }
    let Some(entry) = row_entry(table, row) else {
        return row;
    };
    match entry {
        Entry::Leaf(_, _, _, _) => row + 1,
        Entry::Compound(_, count) => next_member_row(table, row + 1, count, levels - 1),
        Entry::Enumeration(_, count) => {
            let base = next_row(table, row + 1, levels - 1);
            behind_enum_members(table, base, count)
        }
        Entry::VariableLength(_, _, _) => next_row(table, row + 1, levels - 1),
        Entry::Array(_) => next_row(table, row + 1, levels - 1),
    }
}

// The row behind so many members of a compound.
#[cycle(passing)]
fn next_member_row(table: &[u32], row: usize, count: u32, levels: usize) -> usize
    ensures { PassesMembers levels table.now row count result }
{
    let mut r = row;
    for _ in 0..count {
        if row_member(table, r).is_none() {
            return r;
        }
        r = next_row(table, r + 1, levels);
    }
    r
}

// A size times the dimensions of an array that is known, as `scaled` gives it: its row says where they lie in the pool. It cannot fail: of a
// row that is no array's nothing is said, and 0 is answered where the piece that its words name is not in the pool.
pub fn array_total(table: &[u32], pool: &[u8], row: usize, rank: u32, size: u32) -> u64
    requires { row * 16 + 16 ≤ length table.now }
    ensures { TotalAt table.now pool.now row rank size result }
{
    let place = table[row * 16 + 2] as usize;
    if pool.len() < place + (rank as usize) * 4 {
        return 0;
    }
    scaled(pool, place, rank, size)
}

// The size of the type at a row that is known, with so many levels left; no row is tested. It cannot fail: of a row that is no type's, and
// of a type of more levels, nothing is said, and 0 is answered. Costs a step for each array above one another.
pub fn size_at(table: &[u32], pool: &[u8], row: usize, levels: usize) -> u32
    ensures { SizedAt levels table.now pool.now row result }
{
    if levels == 0 {
        return 0;
    }
    let Some(entry) = row_entry(table, row) else {
        return 0;
    };
    match entry {
        Entry::Leaf(_, size, _, _) => size,
        Entry::Compound(size, _) => size,
        Entry::Enumeration(size, _) => size,
        Entry::VariableLength(_, _, _) => 16,
        Entry::Array(rank) => {
            let base = size_at(table, pool, row + 1, levels - 1);
            capped(array_total(table, pool, row, rank, base))
        }
    }
}

fn leaf_survey(row: usize, place: usize, class: u32, size: u32, length: u32, code: u32) -> Survey
    requires { (row + 1 < 18446744073709551616) × ((place + length < 18446744073709551616) × (class ≤ 7)) }
    ensures { result ≡ leaf_survey_of row place class size length code }
{
    let reference = class == 7;
    Survey {
        row: row + 1,
        place: place + length as usize,
        size,
        zero: (size == 0).then_some(class as u8),
        outside: false,
        heap: reference & (code == 1),
        object: reference,
        file: reference,
    }
}

fn enumeration_survey(size: u32, base: Survey, end: Spot) -> Survey
    ensures { result ≡ enumeration_survey_of size base end }
{
    Survey {
        row: end.row,
        place: end.place,
        size,
        zero: (size == 0).then_some(8).or(base.zero),
        ..base
    }
}

fn variable_survey(base: Survey) -> Survey
    ensures { result ≡ variable_survey_of base }
{
    Survey {
        size: 16,
        heap: true,
        file: true,
        ..base
    }
}

fn array_survey(pool: &[u8], place: usize, rank: u32, base: Survey) -> Survey
    requires { place + rank * 4 ≤ length pool.now }
    ensures { result ≡ array_survey_of (min (base.size * product (dimensions_from rank (take (rank * 4) (drop place pool.now)))) 4294967296) base }
{
    let total = scaled(pool, place, rank, base.size);
    let size = capped(total);
    Survey {
        size,
        zero: (size == 0).then_some(10).or(base.zero),
        outside: (total > 4294967295) | base.outside,
        ..base
    }
}

// The type at a row, its pool bytes at a place, with so many levels left. Costs one pass over its rows.
#[cycle(survey)]
pub fn survey_type(
    table: &[u32],
    pool: &[u8],
    row: usize,
    place: usize,
    levels: usize,
) -> Option<Survey>
    ensures { result ≡ survey_of (type_at levels table.now pool.now row place) }
{
    if levels == 0 {
        return None;
    }
    let entry = entry_at(table, pool, row, place)?;
    match entry {
        Entry::Leaf(class, size, length, code) => {
            Some(leaf_survey(row, place, class, size, length, code))
        }
        Entry::Compound(size, count) => survey_members(
            table,
            pool,
            row + 1,
            place,
            count,
            size,
            levels - 1,
        ),
        Entry::Enumeration(size, count) => {
            let base = survey_type(table, pool, row + 1, place, levels - 1)?;
            let end = skip_enum_members(table, pool, base.row, base.place, count)?;
            Some(enumeration_survey(size, base, end))
        }
        Entry::VariableLength(_, _, _) => {
            let base = survey_type(table, pool, row + 1, place, levels - 1)?;
            Some(variable_survey(base))
        }
        Entry::Array(rank) => {
            let behind = place + (rank as usize) * 4;
            let base = survey_type(table, pool, row + 1, behind, levels - 1)?;
            Some(array_survey(pool, place, rank, base))
        }
    }
}

// The same, of a member: a leaf is surveyed without a call of `survey_type`, which reads any other row again.
#[cycle(survey)]
fn survey_inner(
    table: &[u32],
    pool: &[u8],
    row: usize,
    place: usize,
    levels: usize,
) -> Option<Survey>
    ensures { result ≡ survey_of (type_at levels table.now pool.now row place) }
{
    if levels == 0 {
        return None;
    }
    let entry = entry_at(table, pool, row, place)?;
    match entry {
        Entry::Leaf(class, size, length, code) => {
            Some(leaf_survey(row, place, class, size, length, code))
        }
        _ => survey_type(table, pool, row, place, levels),
    }
}

// The members of a compound of a size.
#[cycle(survey)]
fn survey_members(
    table: &[u32],
    pool: &[u8],
    row: usize,
    place: usize,
    count: u32,
    size: u32,
    levels: usize,
) -> Option<Survey>
    ensures { result ≡ survey_in size (members_at (type_at levels table.now pool.now) table.now pool.now count row place) }
{
    let mut r = row;
    let mut p = place;
    let mut zero = (size == 0).then_some(6);
    let mut outside = false;
    let mut heap = false;
    let mut object = false;
    let mut file = false;
    for _ in 0..count {
        let member = member_at(table, pool, r, p)?;
        let s = survey_inner(table, pool, r + 1, p + member.name as usize, levels)?;
        let past = u64::from(size) < u64::from(member.number) + u64::from(s.size);
        r = s.row;
        p = s.place;
        zero = zero.or(s.zero);
        outside = outside | past | s.outside;
        heap |= s.heap;
        object |= s.object;
        file |= s.file;
    }
    Some(Survey {
        row: r,
        place: p,
        size,
        zero,
        outside,
        heap,
        object,
        file,
    })
}

// Whether a type whose rows end before a row and whose pool bytes end before a place is all of a table and pool: it keeps the limits, and
// every word and byte behind it is zero.
pub fn ends_at(table: &[u32], pool: &[u8], row: usize, place: usize) -> bool
    requires { (row * 16 ≤ length table.now) × (place ≤ length pool.now) }
    ensures { result ≡ ends_at table.now pool.now row place }
{
    if row > 4096 {
        return false;
    }
    if place > 65536 {
        return false;
    }
    if !clear_words(&table[row * 16..]) {
        return false;
    }
    clear_bytes(&pool[place..])
}

// Whether a table and pool set out exactly one type, and what a walk over it finds: row and place are its numbers of rows and pool bytes.
pub fn check(table: &[u32], pool: &[u8]) -> Option<Survey>
    ensures { Checks table.now pool.now result }
{
    let s = survey_type(table, pool, 0, 0, 32)?;
    ends_at(table, pool, s.row, s.place).then_some(s)
}

// The size in bytes of one element: `type_size`. Refused: BadTable, for which document 01 sets nothing down in sizes and predicates. Cost: one
// pass over the table and the pool's rest.
pub fn type_size(table: &[u32], pool: &[u8]) -> Result<u32, Refusal>
    ensures { SizedAs (sizing table.now pool.now) result }
{
    let s = check(table, pool).ok_or(Refusal::BadTable)?;
    Ok(s.size)
}

// The class of a type's row.
fn class_of(kind: u32) -> u8
    requires { (1 ≤ kind) × (kind ≤ 11) }
    ensures { result ≡ kind - 1 }
{
    (kind - 1) as u8
}

// The same, not 0: `element_size`. Refused: BadTable, ZeroSize of the outermost type's class. Cost: as `type_size`.
pub fn element_size(table: &[u32], pool: &[u8]) -> Result<u32, Refusal>
    ensures { SizedAs (element_sizing table.now pool.now) result }
{
    let s = check(table, pool).ok_or(Refusal::BadTable)?;
    if s.size == 0 {
        return Err(Refusal::ZeroSize(class_of(table[0])));
    }
    Ok(s.size)
}

// Whether a type of the class in a message's first byte could hold an object address: classes 6 to 10, and not 11, as in the Rust.
pub fn class_may_hold_object_address(byte: u8) -> bool
    ensures { result ≡ class_may_hold_object_address_of byte }
{
    matches!(low4(byte), 6..=10)
}

// Whether the type holds a reference at any level. Refused: BadTable. Cost: as `type_size`.
pub fn datatype_holds_object_address(table: &[u32], pool: &[u8]) -> Result<bool, Refusal>
    ensures { HeldAs (object_address_held table.now pool.now) result }
{
    let s = check(table, pool).ok_or(Refusal::BadTable)?;
    Ok(s.object)
}

// Whether the type holds a reference or a variable-length type at any level. Refused: BadTable. Cost: as `type_size`.
pub fn datatype_holds_file_address(table: &[u32], pool: &[u8]) -> Result<bool, Refusal>
    ensures { HeldAs (file_address_held table.now pool.now) result }
{
    let s = check(table, pool).ok_or(Refusal::BadTable)?;
    Ok(s.file)
}

// Where in the pool the name of the member lies whose row this is. It cannot fail: for a bad table, a row that is no member's and a row past
// the type it answers the empty part at the pool's start, as document 01 has it. An enumeration's members count as a compound's, which
// document 01 leaves free. Cost: as `type_size`.
pub fn name_part(table: &[u32], pool: &[u8], row: usize) -> NamePart
    ensures { PartIs table.now pool.now row result }
{
    let none = NamePart {
        place: 0,
        length: 0,
    };
    let Some(s) = check(table, pool) else {
        return none;
    };
    if s.row <= row {
        return none;
    }
    let at = row * 16;
    let kind = table[at];
    if kind < 12 {
        return none;
    }
    let place = table[at + 2] as usize;
    let length = table[at + 3] as usize;
    NamePart { place, length }
}

// The name of the member whose row this is, as the part of the pool that holds it; where there is none, the empty part at the pool's start.
// Which rows and what cost: as `name_part`.
pub fn member_name<'a>(table: &[u32], pool: &'a [u8], row: usize) -> &'a [u8]
    ensures is { result.now ≡ name_of table.now pool.now row }
    ensures begins { result.ref_ptr ≡ further pool.entry.ref_ptr (name_place table.now pool.now row) }
{
    let part = name_part(table, pool, row);
    let from = part.place;
    let to = from + part.length;
    &pool[from..to]
}

// How many rows and pool bytes the type uses: a table and pool cut to them set out the same type, and each call on them has no zeros behind
// it to look at. Refused: BadTable. Cost: as `type_size`.
pub fn extent(table: &[u32], pool: &[u8]) -> Result<Used, Refusal>
    ensures { UsedAs (extending table.now pool.now) result }
{
    let s = check(table, pool).ok_or(Refusal::BadTable)?;
    Ok(Used {
        rows: s.row,
        bytes: s.place,
    })
}
