// The pieces of a message, each stored at a place of `out`: numbers, names, headers, a leaf, the members of an enumeration.
#![tactic(auto)]

ghost use Rattle.std.specs.Prelude.{Some, ◌≡◌, true, ◌++◌, ◌+◌, ◌*◌, ◌-◌, ◌/◌, ◌%◌, ◌≤◌, ◌<◌, length, take, drop};
ghost use Rattle.format.specs.Bytes.{zeros, little_endian};
ghost use Rattle.format.specs.Message.{header, name_bytes, offset_width, skipped_bytes_of, reserved_bytes_of, permutation_bytes_of, variable_flags, variable_charset, storable_variable};
ghost use Rattle.writer_parts.specs.Places.{Places, PlacesFrom, Inside};
ghost use Rattle.writer_parts.specs.Leaf.{leaf_codes, leaf_flags_of, leaf_bits_of, column_width_of, column_bytes, tag_bytes, leaf_rest, PutsLeaf};
ghost use Rattle.writer_parts.specs.Enum.{PutsEnum};

use primitives::{
    class_and_version, copy_bytes, fixed_flags, float_flags, name_padding, nibbles_of,
    offset_bytes_for_size, padding_to_8, permutation_bytes, reserved_bytes, skipped_bytes,
    write_uint,
};
use rows::{EnumPlace, known_enum_member_at};

// The next row and pool place, and the place behind what was stored.
#[derive(Clone, Copy)]
pub struct Written {
    pub row: usize,
    pub place: usize,
    pub at: usize,
}

// Each `put_` function answers the place behind what it stored, or None where that does not fit or cannot be stored. Those that pass rows
// answer the next row and pool place with it, as `Written`.

// n zeros. One, as behind every name in edition 3, is stored without `fill`, which is compiled to a call.
pub fn put_zeros(out: &mut [u8], at: usize, n: usize) -> Option<usize>
    ensures { Places (zeros n) at result out.old out.new }
{
    if n == 0 {
        return Some(at);
    }
    if out.len().saturating_sub(at) < n {
        return None;
    }
    if n == 1 {
        out[at] = 0;
        return Some(at + 1);
    }
    out[at..at + n].fill(0);
    Some(at + n)
}

// The `width` low bytes of a number, little-endian. A width that is known is compiled to one store.
pub fn put_number(out: &mut [u8], at: usize, width: usize, value: u32) -> Option<usize>
    requires { (0 < width) × (width ≤ 4) }
    ensures { Places (little_endian width value) at result out.old out.new }
{
    if out.len().saturating_sub(at) < width {
        return None;
    }
    let behind = at + width;
    match width {
        1 => write_uint(out, at, 1, value),
        2 => write_uint(out, at, 2, value),
        _ => write_uint(out, at, width, value),
    }
    Some(behind)
}

// n bytes of the pool from `place` on.
pub fn put_piece(pool: &[u8], place: usize, n: usize, out: &mut [u8], at: usize) -> Option<usize>
    ensures { PlacesFrom pool.now place n (take n (drop place pool.now)) at result out.old out.new }
{
    if n == 0 {
        return Some(at);
    }
    if pool.len().saturating_sub(place) < n {
        return None;
    }
    if out.len().saturating_sub(at) < n {
        return None;
    }
    copy_bytes(pool, place, n, out, at);
    Some(at + n)
}

// `build_header`: class and version, two flag bytes and a 0, size.
pub fn put_header(
    out: &mut [u8],
    at: usize,
    class: u8,
    version: u8,
    f0: u8,
    f1: u8,
    size: u32,
) -> Option<usize>
    requires { (class < 16) × (version < 16) }
    ensures { Places (header class version f0 f1 size) at result out.old out.new }
{
    if out.len().saturating_sub(at) < 8 {
        return None;
    }
    out[at] = class_and_version(class, version);
    out[at + 1] = f0;
    out[at + 2] = f1;
    out[at + 3] = 0;
    write_uint(out, at + 4, 4, size);
    Some(at + 8)
}

// The header of a compound or an enumeration, its number of members in the flag bytes.
pub fn put_group_header(
    out: &mut [u8],
    at: usize,
    class: u8,
    version: u8,
    count: u32,
    size: u32,
) -> Option<usize>
    requires { (class < 16) × (version < 16) }
    ensures { count < 65536 → Places (header class version (count % 256) (count / 256) size) at result out.old out.new }
{
    let [low, high] = u16::try_from(count).ok()?.to_le_bytes();
    put_header(out, at, class, version, low, high, size)
}

// The header of a variable-length type.
#[tactic(auto, using(crate::proofs::Placing::variable_laws))]
pub fn put_variable_header(
    out: &mut [u8],
    at: usize,
    string: u32,
    padding: u32,
    charset: u32,
) -> Option<usize>
    ensures { storable_variable string padding charset ≡ true → Places (header 9 1 (variable_flags string padding) (variable_charset string charset) 16) at result out.old out.new }
{
    if string == 0 {
        return put_header(out, at, 9, 1, 0, 0, 16);
    }
    match padding {
        1..=3 => match charset {
            1..=2 => put_header(
                out,
                at,
                9,
                1,
                nibbles_of(1, padding - 1),
                (charset - 1) as u8,
                16,
            ),
            _ => None,
        },
        _ => None,
    }
}

// A number of `width` bytes, and `padding` zeros behind it.
fn put_padded_number(
    out: &mut [u8],
    at: usize,
    width: usize,
    value: u32,
    padding: usize,
) -> Option<usize>
    requires { (0 < width) × (width ≤ 4) }
    ensures { Places (little_endian width value ++ zeros padding) at result out.old out.new }
{
    let end = put_number(out, at, width, value)?;
    put_zeros(out, end, padding)
}

// n bytes of the pool from `place` on, and `padding` zeros behind them.
fn put_padded_piece(
    pool: &[u8],
    place: usize,
    n: usize,
    out: &mut [u8],
    at: usize,
    padding: usize,
) -> Option<usize>
    ensures { PlacesFrom pool.now place n (take n (drop place pool.now) ++ zeros padding) at result out.old out.new }
{
    let end = put_piece(pool, place, n, out, at)?;
    put_zeros(out, end, padding)
}

// A name of n bytes, its NUL and padding.
pub fn put_name(
    pool: &[u8],
    place: usize,
    n: u32,
    out: &mut [u8],
    at: usize,
    version: u8,
) -> Option<usize>
    ensures { PlacesFrom pool.now place n (name_bytes version (take n (drop place pool.now))) at result out.old out.new }
{
    let long = n as usize;
    put_padded_piece(
        pool,
        place,
        long,
        out,
        at,
        1 + name_padding(version, long + 1),
    )
}

// What stands before a member's message: name and offset.
pub fn put_member_head(
    pool: &[u8],
    place: usize,
    n: u32,
    out: &mut [u8],
    at: usize,
    version: u8,
    size: u32,
    offset: u32,
) -> Option<usize>
    ensures { PlacesFrom pool.now place n (name_bytes version (take n (drop place pool.now)) ++ (little_endian (offset_width version size) offset ++ zeros (skipped_bytes_of version)))
        at result out.old out.new }
{
    let end = put_name(pool, place, n, out, at, version)?;
    put_padded_number(
        out,
        end,
        offset_bytes_for_size(version, size),
        offset,
        skipped_bytes(version),
    )
}

// What stands between an array's header and its base.
fn put_array_body(
    pool: &[u8],
    place: usize,
    rank: u32,
    out: &mut [u8],
    at: usize,
    version: u8,
) -> Option<usize>
    requires { rank < 256 }
    ensures { PlacesFrom pool.now place (rank * 4) ((little_endian 1 rank ++ zeros (reserved_bytes_of version)) ++ (take (rank * 4) (drop place pool.now) ++ zeros (permutation_bytes_of version rank)))
        at result out.old out.new }
{
    let count = rank as usize;
    let end = put_padded_number(out, at, 1, rank, reserved_bytes(version))?;
    put_padded_piece(
        pool,
        place,
        count * 4,
        out,
        end,
        permutation_bytes(version, count),
    )
}

// What stands before the message of an array's base.
pub fn put_array_head(
    pool: &[u8],
    place: usize,
    rank: u32,
    size: u32,
    out: &mut [u8],
    at: usize,
    version: u8,
) -> Option<usize>
    requires { version < 16 }
    ensures { rank < 256 → PlacesFrom pool.now place (rank * 4)
        (header 10 version 0 0 size ++ ((little_endian 1 rank ++ zeros (reserved_bytes_of version)) ++ (take (rank * 4) (drop place pool.now) ++ zeros (permutation_bytes_of version rank))))
        at result out.old out.new }
{
    if rank > 255 {
        return None;
    }
    let end = put_header(out, at, 10, version, 0, 0, size)?;
    put_array_body(pool, place, rank, out, end, version)
}

// The first flag byte of a leaf, by the codes in columns 5 and 6 or the length of its tag; None for codes that no message can store.
#[tactic(auto, using(crate::proofs::Leaves::flag_laws))]
fn leaf_flags(class: u32, code: u32, second: u32, length: u32) -> Option<u8>
    ensures { leaf_codes class code second length ≡ true → result ≡ Some (leaf_flags_of class code second length) }
{
    match class {
        0 => {
            if code > 1 {
                return None;
            }
            if second > 1 {
                return None;
            }
            Some(fixed_flags(code, second))
        }
        1 => {
            if code > 2 {
                return None;
            }
            Some(float_flags(code))
        }
        3 => {
            if code > 15 {
                return None;
            }
            if second > 15 {
                return None;
            }
            Some(nibbles_of(code, second))
        }
        5 => u8::try_from(length).ok(),
        _ => u8::try_from(code).ok(),
    }
}

// The second flag byte of a leaf: of class 1 the place of the sign bit.
fn leaf_bits(class: u32, size: u32) -> u8
    ensures { result ≡ leaf_bits_of class size }
{
    if class != 1 {
        return 0;
    }
    if size == 0 {
        return 0;
    }
    ((u64::from(size) * 8 - 1) % 256) as u8
}

// The bytes of a column's number in a message.
fn column_width(column: usize) -> usize
    ensures { (result ≡ column_width_of column) × ((0 < result) × (result ≤ 4)) }
{
    match column {
        0..=8 => 2,
        9..=12 => 1,
        _ => 4,
    }
}

// The numbers in the columns of a row from `from` up to `to`. The definitions take a table and a row: `words` is a table of one
// row, number 0.
fn put_columns(
    words: &[u32; 16],
    from: usize,
    to: usize,
    out: &mut [u8],
    at: usize,
) -> Option<usize>
    requires { (from ≤ to) × (to ≤ 16) }
    ensures { Places (column_bytes words.now 0 from (to - from)) at result out.old out.new }
{
    let mut a = at;
    for c in from..to {
        a = put_number(out, a, column_width(c), words[c])?;
    }
    Some(a)
}

// A tag and its padding.
fn put_tag(pool: &[u8], place: usize, n: u32, out: &mut [u8], at: usize) -> Option<usize>
    ensures { PlacesFrom pool.now place n (tag_bytes pool.now place n) at result out.old out.new }
{
    let long = n as usize;
    put_padded_piece(pool, place, long, out, at, padding_to_8(long))
}

// What stands behind a leaf's header.
fn put_leaf_rest(
    words: &[u32; 16],
    pool: &[u8],
    place: usize,
    class: u32,
    n: u32,
    out: &mut [u8],
    at: usize,
) -> Option<usize>
    ensures { Inside pool.now place n → Places (leaf_rest words.now pool.now 0 place class n) at result out.old out.new }
{
    match class {
        0 => put_columns(words, 7, 9, out, at),
        1 => put_columns(words, 7, 14, out, at),
        2 => put_columns(words, 8, 9, out, at),
        4 => put_columns(words, 7, 9, out, at),
        5 => put_tag(pool, place, n, out, at),
        _ => Some(at),
    }
}

// The message of a leaf: classes 0 to 5 and 7. Codes that no message can store give a first flag byte of 0.
pub fn put_leaf(
    table: &[u32],
    pool: &[u8],
    row: usize,
    place: usize,
    class: u32,
    size: u32,
    n: u32,
    code: u32,
    out: &mut [u8],
    at: usize,
) -> Option<Written>
    requires { (row * 16 + 16 ≤ length table.now) × Inside pool.now place n }
    ensures { class ≤ 7 → PutsLeaf table.now pool.now row place class size n code at result out.old out.new }
{
    if class > 7 {
        return None;
    }
    let words = &table.as_chunks::<16>().0[row];
    let flags = leaf_flags(class, code, words[6], n).unwrap_or(0);
    let behind = put_header(out, at, class as u8, 1, flags, leaf_bits(class, size), size)?;
    let end = put_leaf_rest(words, pool, place, class, n, out, behind)?;
    Some(Written {
        row: row + 1,
        place: place + n as usize,
        at: end,
    })
}

// The members of an enumeration: all names, then all values, which stand in the pool as in the message.
pub fn put_enum_members(
    table: &[u32],
    pool: &[u8],
    row: usize,
    place: usize,
    count: u32,
    out: &mut [u8],
    at: usize,
    version: u8,
) -> Option<Written>
    ensures { PutsEnum version at table.now pool.now count row place result out.old out.new }
{
    let mut from = EnumPlace {
        row,
        place,
        values: 0,
    };
    let mut a = at;
    for _ in 0..count {
        let member = known_enum_member_at(table, pool, from.row, from.place)?;
        a = put_name(pool, from.place, member.name, out, a, version)?;
        from = from.behind(pool, member)?;
    }
    let end = put_piece(pool, from.place, from.values, out, a)?;
    Some(Written {
        row: from.row,
        place: from.place + from.values,
        at: end,
    })
}
