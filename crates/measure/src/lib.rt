// What a message of the type in a table would be: whether it can be stored, whether an edition carries it, and how long it is.
#![tactic(auto)]

ghost use Rattle.std.specs.Prelude.{◌≡◌, ℕ, List, true, ◌&&◌, ◌+◌, ◌*◌, ◌≤◌, ◌<◌, length, take, drop, get_or};
ghost use Rattle.format.specs.Bytes.{dimensions_from};
ghost use Rattle.format.specs.Message.{storable_variable};
ghost use Rattle.format.specs.Table.{all_below, type_at, members_at};
ghost use Rattle.rows.specs.Columns.{IsRow};
ghost use Rattle.measure.specs.Measure.{measure_of, measure_in, enum_measure_of, parts_fit_of, leaf_storable_of, leaf_length_of, most_length, offset_fits_of, name_length_of_lem, array_head_of, member_head_of, valid_at, with_enum_name_of, leaf_measure_of, with_member_of, compound_measure_of, enumeration_measure_of, variable_measure_of, array_measure_of};

use names::valid_name;
use primitives::{
    capped, name_padding, offset_bytes_for_size, padding_to_8, scaled, skipped_bytes,
};
use rows::{Entry, EnumPlace, Member, entry_at, enum_member_at, member_at};

// The next row and pool place, the size, whether the type can be stored and the edition carries it, and the message's length, which stops at
// 4,294,967,296.
#[derive(Clone, Copy)]
pub struct Measure {
    pub row: usize,
    pub place: usize,
    pub size: u32,
    pub storable: bool,
    pub carried: bool,
    pub length: u64,
}

// Whether the names and values of an enumeration can be stored, and the length of the names, which stops at 4,294,967,296.
#[derive(Clone, Copy)]
pub struct EnumNames {
    pub storable: bool,
    pub length: u64,
}

// A sum of lengths, which stops at 4,294,967,296.
#[tactic(auto, unfolding(crate::specs::Measure::most_length))]
fn add_lengths(a: u64, b: u64) -> u64
    ensures { (result ≡ most_length (a + b)) × (result ≤ 4294967296) }
{
    a.saturating_add(b).min(4294967296)
}

// Whether place and size of exponent and mantissa fit a byte each.
#[tactic(auto, unfolding(crate::specs::Measure::parts_fit_of))]
fn parts_fit(words: &[u32; 16]) -> bool
    ensures { result ≡ parts_fit_of words.now 0 }
{
    words[9] < 256 && words[10] < 256 && words[11] < 256 && words[12] < 256
}

// Whether the numbers of a leaf's row fit its message. The definitions take a table and a row: `words` is a table of one row,
// number 0.
#[tactic(auto, unfolding(crate::specs::Measure::leaf_storable_of))]
fn leaf_storable(words: &[u32; 16], class: u32, size: u32, long: u32) -> bool
    ensures { result ≡ leaf_storable_of words.now 0 class size long }
{
    if size == 0 {
        return false;
    }
    let order = words[5] < 2;
    let place = words[7] < 65536;
    let precision = words[8] < 65536;
    match class {
        0 | 4 => order && place && precision,
        1 => size <= 536870911 && place && precision && parts_fit(words),
        2 => order && precision,
        5 => long < 256,
        _ => true,
    }
}

// The length of a leaf's message.
#[tactic(auto, unfolding(crate::specs::Measure::leaf_length_of))]
fn leaf_length(class: u32, long: u32) -> u64
    ensures { result ≡ leaf_length_of class long }
{
    match class {
        0 => 12,
        1 => 20,
        2 => 10,
        4 => 12,
        5 => 8 + u64::from(long) + padding_to_8(long as usize) as u64,
        _ => 8,
    }
}

// Whether an offset fits the width that edition 3 gives it.
#[tactic(auto, unfolding(crate::specs::Measure::offset_fits_of, format::specs::Message::offset_width))]
fn offset_fits(offset: u32, size: u32) -> bool
    ensures { result ≡ offset_fits_of offset size }
{
    if size <= 255 {
        return offset < 256;
    }
    if size <= 65535 {
        return offset < 65536;
    }
    true
}

// Whether a variable-length type has padding and charset exactly if it is a string.
#[tactic(auto, unfolding(format::specs::Message::storable_variable))]
fn variable_storable(string: u32, padding: u32, charset: u32) -> bool
    ensures { result ≡ storable_variable string padding charset }
{
    if string == 0 {
        return padding == 0 && charset == 0;
    }
    string == 1 && padding > 0 && padding < 4 && charset > 0 && charset < 3
}

// The bytes before an array's base type.
#[tactic(auto, unfolding(crate::specs::Measure::array_head_of, format::specs::Message::reserved_bytes_of, format::specs::Message::permutation_bytes_of))]
fn array_head(edition: u8, rank: u32) -> u64
    ensures { result ≡ array_head_of edition rank }
{
    if edition < 3 {
        return 12 + 8 * u64::from(rank);
    }
    9 + 4 * u64::from(rank)
}

// The bytes of a name with its NUL and padding.
#[tactic(auto, unfolding(crate::specs::Measure::name_length_of_lem))]
fn name_length(edition: u8, long: u32) -> u64
    ensures { (result ≡ name_length_of_lem edition long) × (result < 4294967304) }
{
    let n = long as usize;
    u64::from(long) + 1 + name_padding(edition, n + 1) as u64
}

// The bytes before a member's type.
#[tactic(auto, unfolding(crate::specs::Measure::member_head_of))]
fn member_head(edition: u8, size: u32, long: u32) -> u64
    ensures { result ≡ member_head_of edition size long }
{
    let width = offset_bytes_for_size(edition, size) as u64;
    name_length(edition, long) + width + skipped_bytes(edition) as u64
}

// What is measured so far of a compound's members, and one member more, of a valid name or not, with so many bytes before its type.
#[tactic(auto, unfolding(crate::specs::Measure::with_member_of))]
fn with_member(sum: Measure, valid: bool, offset: u32, head: u64, member: Measure) -> Measure
    ensures { result ≡ with_member_of sum valid offset head member }
{
    Measure {
        row: member.row,
        place: member.place,
        size: sum.size,
        storable: sum.storable && valid && offset_fits(offset, sum.size) && member.storable,
        carried: sum.carried && member.carried,
        length: add_lengths(sum.length, add_lengths(head, member.length)),
    }
}

// The same, of a member whose name is next in the pool, and what is measured of its type.
#[tactic(auto, unfolding(crate::specs::Measure::valid_at))]
fn with_named_member(
    pool: &[u8],
    sum: Measure,
    member: Member,
    inner: Measure,
    edition: u8,
) -> Measure
    requires { sum.place + member.name ≤ length pool.now }
    ensures { result ≡ with_member_of sum (valid_at pool.now sum.place member.name) member.number (member_head_of edition sum.size member.name) inner }
{
    let from = sum.place;
    let valid = valid_name(&pool[from..from + member.name as usize]);
    let head = member_head(edition, sum.size, member.name);
    with_member(sum, valid, member.number, head, inner)
}

// A leaf whose row has these words.
#[tactic(auto, unfolding(crate::specs::Measure::leaf_measure_of, crate::specs::Measure::most_length))]
fn leaf_measure(
    words: &[u32; 16],
    row: usize,
    place: usize,
    class: u32,
    size: u32,
    long: u32,
) -> Measure
    requires { (row < 18446744073709551615) × (place + long < 18446744073709551616) }
    ensures is { (table : List ℕ) → IsRow table row words.now → result ≡ leaf_measure_of table row place class size long }
    ensures below { (size < 4294967296) × (get_or words.now 13 0 < 4294967296) }
{
    let next = place + long as usize;
    Measure {
        row: row + 1,
        place: next,
        size,
        storable: leaf_storable(words, class, size, long),
        carried: true,
        length: leaf_length(class, long).min(4294967296),
    }
}

#[tactic(auto, unfolding(crate::specs::Measure::compound_measure_of))]
fn compound_measure(size: u32, count: u32, members: Measure) -> Measure
    ensures { (result ≡ compound_measure_of size count members) × (size < 4294967296) }
{
    Measure {
        size,
        storable: size > 0 && count < 65536 && members.storable,
        length: add_lengths(8, members.length),
        ..members
    }
}

#[tactic(auto, unfolding(crate::specs::Measure::enumeration_measure_of))]
fn enumeration_measure(size: u32, count: u32, base: Measure, members: Measure) -> Measure
    ensures { (result ≡ enumeration_measure_of size count base members) × (size < 4294967296) }
{
    Measure {
        size,
        storable: size > 0 && count < 65536 && members.storable && base.storable,
        carried: base.carried,
        length: add_lengths(8, add_lengths(base.length, members.length)),
        ..members
    }
}

#[tactic(auto, unfolding(crate::specs::Measure::variable_measure_of))]
fn variable_measure(string: u32, padding: u32, charset: u32, base: Measure) -> Measure
    ensures { result ≡ variable_measure_of string padding charset base }
{
    Measure {
        size: 16,
        storable: variable_storable(string, padding, charset) && base.storable,
        length: add_lengths(8, base.length),
        ..base
    }
}

#[tactic(auto, unfolding(crate::specs::Measure::array_measure_of))]
fn array_measure(pool: &[u8], place: usize, rank: u32, edition: u8, base: Measure) -> Measure
    requires { place + rank * 4 ≤ length pool.now }
    ensures is { result ≡ array_measure_of edition rank (dimensions_from rank (take (rank * 4) (drop place pool.now))) base }
    ensures below { all_below 4294967296 (dimensions_from rank (take (rank * 4) (drop place pool.now))) ≡ true }
{
    let size = capped(scaled(pool, place, rank, base.size));
    Measure {
        size,
        storable: rank < 256 && size > 0 && base.storable,
        carried: edition > 1 && base.carried,
        length: add_lengths(array_head(edition, rank), base.length),
        ..base
    }
}

// What is measured so far of an enumeration's names over a base of size `width`, and one more, its name at a place of the pool.
#[tactic(auto, unfolding(crate::specs::Measure::with_enum_name_of, crate::specs::Measure::valid_at))]
fn with_enum_name(
    pool: &[u8],
    place: usize,
    member: Member,
    width: u32,
    names: EnumNames,
    edition: u8,
) -> EnumNames
    requires { place + member.name ≤ length pool.now }
    ensures { result ≡ with_enum_name_of pool.now edition width names place member.name member.number }
{
    let valid = valid_name(&pool[place..place + member.name as usize]);
    EnumNames {
        storable: names.storable && valid && member.number == width,
        length: add_lengths(names.length, name_length(edition, member.name)),
    }
}

// The members of an enumeration over a base of size `width`: names, then values.
fn measure_enum_members(
    table: &[u32],
    pool: &[u8],
    row: usize,
    place: usize,
    count: u32,
    edition: u8,
    width: u32,
) -> Option<Measure>
    ensures { result ≡ enum_measure_of edition width table.now pool.now count row place }
{
    if count == 0 {
        return Some(Measure {
            row,
            place,
            size: width,
            storable: true,
            carried: true,
            length: 0,
        });
    }
    let mut at = EnumPlace {
        row,
        place,
        values: 0,
    };
    let mut names = EnumNames {
        storable: true,
        length: 0,
    };
    for _ in 0..count {
        let member = enum_member_at(table, pool, at.row, at.place)?;
        // A value that the pool has no room for ends it before the name is looked at.
        let next = at.behind(pool, member)?;
        names = with_enum_name(pool, at.place, member, width, names, edition);
        at = next;
    }
    let end = at.end(pool)?;
    Some(Measure {
        row: at.row,
        place: end,
        size: width,
        storable: names.storable,
        carried: true,
        length: add_lengths(names.length, at.values as u64),
    })
}

// The type at a row, its pool bytes at a place, with so many levels left.
#[cycle(measure)]
pub fn measure_type(
    table: &[u32],
    pool: &[u8],
    row: usize,
    place: usize,
    levels: usize,
    edition: u8,
) -> Option<Measure>
    ensures { result ≡ measure_of edition (type_at levels table.now pool.now row place) }
{
    if levels == 0 {
        return None;
    }
    let inner = levels - 1;
    let entry = entry_at(table, pool, row, place)?;
    match entry {
        Entry::Leaf(class, size, long, _) => {
            let words = &table.as_chunks::<16>().0[row];
            Some(leaf_measure(words, row, place, class, size, long))
        }
        Entry::Compound(size, count) => {
            let members = measure_members(
                table,
                pool,
                row + 1,
                place,
                count,
                size,
                inner,
                edition,
            )?;
            Some(compound_measure(size, count, members))
        }
        Entry::Enumeration(size, count) => {
            let base = measure_type(table, pool, row + 1, place, inner, edition)?;
            let members = measure_enum_members(
                table, pool, base.row, base.place, count, edition, base.size,
            )?;
            Some(enumeration_measure(size, count, base, members))
        }
        Entry::VariableLength(string, padding, charset) => {
            let base = measure_type(table, pool, row + 1, place, inner, edition)?;
            Some(variable_measure(string, padding, charset, base))
        }
        Entry::Array(rank) => {
            let behind = place + (rank as usize) * 4;
            let base = measure_type(table, pool, row + 1, behind, inner, edition)?;
            Some(array_measure(pool, place, rank, edition, base))
        }
    }
}

// As `measure_type`, of a member: a leaf is measured here, and `measure_type` reads any other row again.
#[cycle(measure)]
fn measure_inner(
    table: &[u32],
    pool: &[u8],
    row: usize,
    place: usize,
    levels: usize,
    edition: u8,
) -> Option<Measure>
    ensures { result ≡ measure_of edition (type_at levels table.now pool.now row place) }
{
    if levels == 0 {
        return None;
    }
    let entry = entry_at(table, pool, row, place)?;
    match entry {
        Entry::Leaf(class, size, long, _) => {
            let words = &table.as_chunks::<16>().0[row];
            Some(leaf_measure(words, row, place, class, size, long))
        }
        _ => measure_type(table, pool, row, place, levels, edition),
    }
}

// The members of a compound of a size.
#[cycle(measure)]
fn measure_members(
    table: &[u32],
    pool: &[u8],
    row: usize,
    place: usize,
    count: u32,
    size: u32,
    levels: usize,
    edition: u8,
) -> Option<Measure>
    ensures { result ≡ measure_in edition size (members_at (type_at levels table.now pool.now) table.now pool.now count row place) }
{
    let mut sum = Measure {
        row,
        place,
        size,
        storable: true,
        carried: true,
        length: 0,
    };
    for _ in 0..count {
        let member = member_at(table, pool, sum.row, sum.place)?;
        let from = sum.place + member.name as usize;
        let inner = measure_inner(table, pool, sum.row + 1, from, levels, edition)?;
        sum = with_named_member(pool, sum, member, inner, edition);
    }
    Some(sum)
}
