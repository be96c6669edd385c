// The text of a type, a line for each of its type rows, and the line of a refusal.
#![tactic(auto)]

ghost use Rattle.std.specs.Prelude.{◌≡◌, [], ◌∷◌, ◌++◌, ◌+◌, ◌-◌, ◌<◌, length};
ghost use Rattle.std.proofs.Math.Option.{some};
ghost use Rattle.format.specs.Table.{type_at, members_at};
ghost use Rattle.rows.specs.Entries.{entry_at};
ghost use Rattle.listing.specs.Text.{decimal_in, decimal, spaced, hex_digit_of, hexadecimal, name_text, refusal_text};
ghost use Rattle.listing.specs.Puts.{Puts, name_of, class_in, InsideAt, PutsLine, PutsType, PutsMembers};
ghost use Rattle.listing.specs.Answers.{PutsFields, ListsText, ListsFields, ListsRefusal};

use refusal::{Refusal, number, values};
use rows::{Entry, entry_at, member_at};
use table::{check, size_at, survey_type};

// The types inside a type: none, so many members, or a base whose pool bytes begin at a place. No Option, since there are three cases.
#[derive(Clone, Copy)]
enum Inside {
    Nothing,
    Members(u32),
    Base(usize),
}

// A byte at a place of `out`, if there is one. This function and those below that take `out` and a place answer the place behind what they
// put; it stops at 18,446,744,073,709,551,615. So they give the length of a text whatever room there is.
fn put_byte(byte: u8, out: &mut [u8], at: usize) -> usize
    ensures { Puts (byte ∷ []) at result out.old out.new }
{
    if at < out.len() {
        out[at] = byte;
    }
    at.saturating_add(1)
}

// All of a text.
fn put_text(text: &[u8], out: &mut [u8], at: usize) -> usize
    ensures { Puts text.now at result out.old out.new }
{
    let mut a = at;
    for byte in text {
        a = put_byte(*byte, out, a);
    }
    a
}

// A number in decimal, at most so many digits of it.
fn put_digits(n: u64, digits: usize, out: &mut [u8], at: usize) -> usize
    ensures { Puts (decimal_in digits n) at result out.old out.new }
{
    if digits == 0 {
        return at;
    }
    if n < 10 {
        return put_byte(48 + n as u8, out, at);
    }
    let behind = put_digits(n / 10, digits - 1, out, at);
    put_byte(48 + (n % 10) as u8, out, behind)
}

// Numbers in decimal, a space before each.
fn put_spaced(numbers: &[u64], out: &mut [u8], at: usize) -> usize
    ensures { Puts (spaced numbers.now) at result out.old out.new }
{
    let mut a = at;
    for number in numbers {
        let behind = put_byte(b' ', out, a);
        a = put_digits(*number, 20, out, behind);
    }
    a
}

// A hexadecimal digit.
fn hex_digit(digit: u8) -> u8
    requires { digit < 16 }
    ensures { result ≡ hex_digit_of digit }
{
    if digit < 10 {
        return 48 + digit;
    }
    55 + digit
}

// Bytes in hexadecimal.
fn put_hex(bytes: &[u8], out: &mut [u8], at: usize) -> usize
    ensures { Puts (hexadecimal bytes.now) at result out.old out.new }
{
    let mut a = at;
    for byte in bytes {
        let high = put_byte(hex_digit(*byte / 16), out, a);
        a = put_byte(hex_digit(*byte % 16), out, high);
    }
    a
}

// A name, and the line's end.
fn put_piece(name: &[u8], out: &mut [u8], at: usize) -> usize
    ensures { Puts (name_text (some name.now) ++ (10 ∷ [])) at result out.old out.new }
{
    if name.is_empty() {
        return put_text(b".\n", out, at);
    }
    let behind = put_hex(name, out, at);
    put_byte(b'\n', out, behind)
}

// A space, what a line calls a type, a member's name or nothing, and the line's end.
fn put_name(name: Option<&[u8]>, out: &mut [u8], at: usize) -> usize
    ensures { Puts ((32 ∷ name_text (name_of name.entry)) ++ (10 ∷ [])) at result out.old out.new }
{
    let behind = put_byte(b' ', out, at);
    match name {
        None => put_text(b"-\n", out, behind),
        Some(piece) => put_piece(piece, out, behind),
    }
}

// The class of the type at a row, if there is one.
fn class_at(table: &[u32], pool: &[u8], row: usize, place: usize) -> Option<u32>
    ensures { result ≡ class_in (entry_at table.now pool.now row place) }
{
    match entry_at(table, pool, row, place)? {
        Entry::Leaf(class, _, _, _) => Some(class),
        Entry::Compound(_, _) => Some(6),
        Entry::Enumeration(_, _) => Some(8),
        Entry::VariableLength(_, _, _) => Some(9),
        Entry::Array(_) => Some(10),
    }
}

// What is inside the type at a row.
fn inside_at(table: &[u32], pool: &[u8], row: usize, place: usize) -> Inside
    ensures { InsideAt (entry_at table.now pool.now row place) (length table.now) row place result }
{
    let Some(entry) = entry_at(table, pool, row, place) else {
        return Inside::Nothing;
    };
    match entry {
        Entry::Leaf(_, _, _, _) => Inside::Nothing,
        Entry::Compound(_, count) => Inside::Members(count),
        Entry::Enumeration(_, _) => Inside::Base(place),
        Entry::VariableLength(_, _, _) => Inside::Base(place),
        Entry::Array(rank) => Inside::Base(place + (rank as usize) * 4),
    }
}

// The numbers of a line.
fn put_numbers(level: u64, class: u32, offset: u32, size: u32, out: &mut [u8], at: usize) -> usize
    ensures { Puts (decimal level ++ spaced (class ∷ offset ∷ size ∷ [])) at result out.old out.new }
{
    let numbers = [u64::from(class), u64::from(offset), u64::from(size)];
    let behind = put_digits(level, 20, out, at);
    put_spaced(&numbers, out, behind)
}

// The line of the type at a row, at a level from 1 on: of 32 levels, 33 less this are left.
fn put_line(
    table: &[u32],
    pool: &[u8],
    row: usize,
    place: usize,
    level: usize,
    offset: u32,
    name: Option<&[u8]>,
    out: &mut [u8],
    at: usize,
) -> usize
    ensures { PutsLine level offset (name_of name.entry) at (type_at (33 - level) table.now pool.now row place) result out.old out.new }
{
    let size = size_at(table, pool, row, 33usize.saturating_sub(level));
    let class = class_at(table, pool, row, place).unwrap_or(0);
    let behind = put_numbers(level as u64, class, offset, size, out, at);
    put_name(name, out, behind)
}

// The lines of so many members of a compound, their types at a level.
#[cycle(put)]
fn put_members(
    table: &[u32],
    pool: &[u8],
    row: usize,
    place: usize,
    count: u32,
    level: usize,
    out: &mut [u8],
    at: usize,
) -> usize
    ensures { PutsMembers level at (members_at (type_at (33 - level) table.now pool.now) table.now pool.now count row place) result out.old out.new }
{
    let mut r = row;
    let mut p = place;
    let levels = 33usize.saturating_sub(level);
    let mut a = at;
    for _ in 0..count {
        let Some(member) = member_at(table, pool, r, p) else {
            return a;
        };
        let from = p + member.name as usize;
        let name = Some(&pool[p..from]);
        a = put_type(table, pool, r + 1, from, level, member.number, name, out, a);
        let Some(s) = survey_type(table, pool, r + 1, from, levels) else {
            return a;
        };
        r = s.row;
        p = s.place;
    }
    a
}

// The lines of the type at a row, its pool bytes at a place, at a level as above: its own line and those of the types inside.
#[cycle(put)]
fn put_type(
    table: &[u32],
    pool: &[u8],
    row: usize,
    place: usize,
    level: usize,
    offset: u32,
    name: Option<&[u8]>,
    out: &mut [u8],
    at: usize,
) -> usize
    ensures { PutsType level offset (name_of name.entry) at (type_at (33 - level) table.now pool.now row place) result out.old out.new }
{
    if level > 32 {
        return at;
    }
    let behind = put_line(table, pool, row, place, level, offset, name, out, at);
    let inside = inside_at(table, pool, row, place);
    match inside {
        Inside::Nothing => behind,
        Inside::Members(count) => put_members(
            table,
            pool,
            row + 1,
            place,
            count,
            level + 1,
            out,
            behind,
        ),
        Inside::Base(from) => put_type(table, pool, row + 1, from, level + 1, 0, None, out, behind),
    }
}

// The heading, and the lines of the outermost type.
fn put_fields(table: &[u32], pool: &[u8], out: &mut [u8]) -> usize
    ensures { PutsFields (type_at 32 table.now pool.now 0 0) result out.old out.new }
{
    let behind = put_text(b"level class offset size name\n", out, 0);
    put_type(table, pool, 0, 0, 1, 0, None, out, behind)
}

// What `put` puts, if there is room. It puts without room first: so its length is known, and a refusal leaves `out` as it was.
fn list_text<F: Fn(&mut [u8]) -> usize>(put: F, out: &mut [u8]) -> Result<usize, Refusal>
    requires { F.IsAlwaysCallable put }
    ensures { ListsText F.Fn put result out.old out.new }
{
    let mut none = [0u8; 1];
    let length = put(&mut none);
    if out.len() < length {
        return Err(Refusal::NoRoom(length as u64));
    }
    put(out);
    Ok(length)
}

// Writes the heading and a line for each type row of the type that a table and pool set out to the start of `out`: level, class, offset,
// size and name. Refused: BadTable, NoRoom. Costs at most two passes over the rows for each level of the type, one of them to find the length.
pub fn list_fields(table: &[u32], pool: &[u8], out: &mut [u8]) -> Result<usize, Refusal>
    ensures { ListsFields table.now pool.now result out.old out.new }
{
    check(table, pool).ok_or(Refusal::BadTable)?;
    list_text(|buffer| put_fields(table, pool, buffer), out)
}

// `refused`, and a refusal's number and values.
fn put_refusal(refusal: Refusal, out: &mut [u8]) -> usize
    ensures { Puts (refusal_text refusal) 0 result out.old out.new }
{
    let v = values(refusal);
    let word = put_text(b"refused", out, 0);
    let numbered = put_spaced(&[u64::from(number(refusal))], out, word);
    let first = put_spaced(v.first.as_slice(), out, numbered);
    let second = put_spaced(v.second.as_slice(), out, first);
    put_byte(b'\n', out, second)
}

// Writes the line of a refusal to the start of `out`: `refused`, its number and its values. Refused: NoRoom. Cost: the length of the line, twice.
pub fn list_refusal(refusal: Refusal, out: &mut [u8]) -> Result<usize, Refusal>
    ensures { ListsRefusal refusal result out.old out.new }
{
    list_text(|buffer| put_refusal(refusal, buffer), out)
}
