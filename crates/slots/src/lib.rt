// `embedded_reference_slots`: where the object references of a record lie.
#![tactic(auto)]

ghost use Rattle.std.specs.Prelude.{◌≡◌, ◌+◌, ◌-◌, ◌*◌, ◌<◌, ◌≤◌, min, max, length};
ghost use Rattle.format.specs.Slots.{last_end, moved_end_of};
ghost use Rattle.rows.specs.Entries.{RowSays};
ghost use Rattle.rows.specs.declared.Entry.TheVariants.{Array};
ghost use Rattle.table.specs.Known.{TotalAt};
ghost use Rattle.table.specs.Path.{top_of};
ghost use Rattle.table.specs.Survey.{Sets};
ghost use Rattle.slots.specs.Slots.{most_slots, most_end, leaf_tally_of, hidden_tally_of, entries_tally_of, TallyAt, TallyIn, Passed, PutLeaf, moved_on, Repeats, PutAt, PutInside, SlotsAre};

use refusal::Refusal;
use rows::{Entry, row_entry, row_member};
use std::num::wrapping_add_u64;
use table::{Path, Survey, array_total, behind_enum_members, check, next_row, size_at};

// What a first walk finds, before anything is listed: the row behind the type, whether the type holds a reference that is no slot's, the number
// of slots and the greatest slot + 8; the last two stop at 1,073,741,824 and 4,294,967,296, past all that a type of 32-bit size can have.
#[derive(Clone, Copy)]
pub struct Tally {
    pub row: usize,
    pub unmapped: bool,
    pub count: u64,
    pub end: u64,
}

// What the listing goes on with: the row behind the type, and where the next slot would go.
#[derive(Clone, Copy)]
pub struct Put {
    pub row: usize,
    pub next: usize,
}

// The sum of two numbers of slots.
fn sum_slots(a: u64, b: u64) -> u64
    ensures { result ≡ most_slots (a + b) }
{
    a.saturating_add(b).min(1073741824)
}

// The slots of n entries.
fn times_slots(n: u64, count: u64) -> u64
    ensures { result ≡ most_slots (n * count) }
{
    n.saturating_mul(count).min(1073741824)
}

// The greater of an end and a member's, which is moved by the member's offset.
fn further_end(most: u64, offset: u32, end: u64) -> u64
    ensures { result ≡ most_end (max most (moved_end_of offset end)) }
{
    if end == 0 {
        return most.min(4294967296);
    }
    let moved = u64::from(offset).saturating_add(end);
    most.max(moved).min(4294967296)
}

// The end of the last of n entries.
fn last_end(stride: u32, end: u64, n: u64) -> u64
    ensures { result ≡ most_end (last_end stride end n) }
{
    if end == 0 || n == 0 {
        return 0;
    }
    let last = (n - 1).saturating_mul(u64::from(stride));
    last.saturating_add(end).min(4294967296)
}

// Where no type is found: nothing is counted.
fn untyped_tally(row: usize) -> Tally
    ensures { result.row ≡ row }
{
    Tally {
        row,
        unmapped: false,
        count: 0,
        end: 0,
    }
}

// A leaf, the row behind it given: an 8-byte object reference is a slot, every other reference no slot's.
fn leaf_tally(class: u32, size: u32, code: u32, row: usize) -> Tally
    ensures { result ≡ leaf_tally_of class size code row }
{
    let reference = class == 7;
    if reference & ((size == 8) & (code == 0)) {
        return Tally {
            row,
            unmapped: false,
            count: 1,
            end: 8,
        };
    }
    Tally {
        row,
        unmapped: reference,
        count: 0,
        end: 0,
    }
}

// A type below which no slot is, an enumeration or a variable-length type, by its base's count and the row behind it.
fn hidden_tally(row: usize, base: Tally) -> Tally
    ensures { result ≡ hidden_tally_of row base }
{
    // What is below is not listed.
    let count = 0;
    Tally {
        row,
        unmapped: base.unmapped | (0 < base.count),
        count,
        end: 0,
    }
}

// So many entries of a base, a stride apart.
fn entries_tally(stride: u32, n: u64, base: Tally) -> Tally
    ensures { result ≡ entries_tally_of stride n base }
{
    Tally {
        row: base.row,
        unmapped: base.unmapped,
        count: times_slots(n, base.count),
        end: last_end(stride, base.end, n),
    }
}

// The number of entries of the array at a row, at most 4,294,967,296.
fn entry_count(table: &[u32], pool: &[u8], row: usize, rank: u32) -> u64
    requires { row * 16 + 16 ≤ length table.now }
    ensures total { TotalAt table.now pool.now row rank 1 result }
    ensures low { result ≤ 4294967296 }
{
    array_total(table, pool, row, rank, 1).min(4294967296)
}

// Counts the type at the top of the path. No row is tested again, and an enumeration's members are passed by their number: the cost is a step
// for each other row, and the steps of `size_at` for each array.
#[cycle(tally)]
fn tally_type(table: &[u32], pool: &[u8], path: Path) -> Tally
    ensures { TallyAt (33 - path.depth) table.now pool.now (top_of path) result }
{
    let row = path.top();
    let Some(entry) = row_entry(table, row) else {
        return untyped_tally(row);
    };
    match entry {
        Entry::Leaf(class, size, _, code) => leaf_tally(class, size, code, row + 1),
        Entry::Compound(_, count) => tally_members(table, pool, path, row + 1, count),
        Entry::Enumeration(_, count) => {
            let base = tally_inner(table, pool, path, row + 1);
            hidden_tally(behind_enum_members(table, base.row, count), base)
        }
        Entry::VariableLength(_, _, _) => {
            let base = tally_inner(table, pool, path, row + 1);
            hidden_tally(base.row, base)
        }
        Entry::Array(rank) => {
            let base = tally_inner(table, pool, path, row + 1);
            let size = size_at(table, pool, row + 1, 32 - path.depth);
            entries_tally(size, entry_count(table, pool, row, rank), base)
        }
    }
}

// The same of a type at a row one level below the path; where no level is left, none is found there. A leaf is counted here, since a path costs
// more than it; any other row is read again.
#[cycle(tally)]
fn tally_inner(table: &[u32], pool: &[u8], path: Path, row: usize) -> Tally
    ensures { TallyAt (32 - path.depth) table.now pool.now row result }
{
    if path.depth == 32 {
        return untyped_tally(row);
    }
    match row_entry(table, row) {
        Some(Entry::Leaf(class, size, _, code)) => leaf_tally(class, size, code, row + 1),
        _ => tally_type(table, pool, path.enter(row)),
    }
}

// The same of so many members of the compound at the top of the path, from a row on.
#[cycle(tally)]
fn tally_members(table: &[u32], pool: &[u8], path: Path, row: usize, count: u32) -> Tally
    ensures { TallyIn (32 - path.depth) table.now pool.now row count result }
{
    let mut r = row;
    let mut unmapped = false;
    let mut slots: u64 = 0;
    let mut end: u64 = 0;
    for _ in 0..count {
        let Some(member) = row_member(table, r) else {
            return untyped_tally(r);
        };
        let t = tally_inner(table, pool, path, r + 1);
        r = t.row;
        unmapped |= t.unmapped;
        slots = sum_slots(slots, t.count);
        end = further_end(end, member.number, t.end);
    }
    Tally {
        row: r,
        unmapped,
        count: slots,
        end,
    }
}

// Passes over a type with so many levels left, of which nothing is listed.
fn pass(table: &[u32], row: usize, levels: usize, at: usize) -> Put
    ensures { Passed levels table.now row at result }
{
    Put {
        row: next_row(table, row, levels),
        next: at,
    }
}

// Lists a leaf of a class that begins at `base` in the record, the row behind it given.
fn put_leaf(row: usize, class: u32, base: u32, out: &mut [u64], at: usize) -> Put
    ensures { PutLeaf row class base out.old at result out.new }
{
    if class != 7 || out.len() <= at {
        return Put { row, next: at };
    }
    out[at] = u64::from(base);
    Put { row, next: at + 1 }
}

// Each number from `from` up to `to` becomes `by` more than the one `back` places before it.
fn move_on(out: &mut [u64], from: usize, to: usize, back: usize, by: u64)
    requires { (back ≤ from) × (to ≤ length out.old) }
    ensures { out.new ≡ moved_on by back from (to - from) out.old }
{
    for k in from..to {
        out[k] = wrapping_add_u64(out[k - back], by);
    }
}

// Lists the slots of all entries of an array, a stride apart, whose first entry's stand from `at` up to `next`; the answer is where the next
// slot would go. Each turn moves all that is listed so far, or as much of it as is left, so that `move_on` reads nothing that it writes and
// can take several numbers in a step. A `while`, since its steps differ.
fn repeat_slots(out: &mut [u64], at: usize, next: usize, stride: u32, count: u64) -> usize
    requires { count ≤ 4294967296 }
    ensures { Repeats stride count at next out.old result out.new }
{
    if next <= at {
        return next;
    }
    if out.len() < next {
        return next;
    }
    let n = next - at;
    if (((out.len() - at) / n) as u64) < count {
        return next;
    }
    let mut done: u64 = 1;
    let mut k = next;
    while done < count {
        let more = done.min(count - done);
        let end = k + n * (more as usize);
        move_on(out, k, end, k - at, done * u64::from(stride));
        k = end;
        done += more;
    }
    k
}

// Lists the slots of the type at the top of the path, which begins at `base` in the record: from `at` on. Each row is looked at once, and an
// enumeration's members are passed by their number.
#[cycle(put)]
fn put_type(table: &[u32], pool: &[u8], path: Path, base: u32, out: &mut [u64], at: usize) -> Put
    ensures { PutAt (33 - path.depth) table.now pool.now (top_of path) base out.old at result out.new }
{
    let depth = path.depth;
    let row = path.top();
    let Some(entry) = row_entry(table, row) else {
        return pass(table, row, 33 - depth, at);
    };
    match entry {
        Entry::Enumeration(_, _) => pass(table, row, 33 - depth, at),
        Entry::VariableLength(_, _, _) => pass(table, row, 33 - depth, at),
        Entry::Leaf(class, _, _, _) => put_leaf(row + 1, class, base, out, at),
        Entry::Compound(_, count) => put_members(table, pool, path, row + 1, count, base, out, at),
        Entry::Array(rank) => put_array(table, pool, path, row, rank, base, out, at),
    }
}

// The same of an array whose row is the top of the path: the first entry is listed, the others are moved from it.
#[cycle(put)]
fn put_array(
    table: &[u32],
    pool: &[u8],
    path: Path,
    row: usize,
    rank: u32,
    base: u32,
    out: &mut [u64],
    at: usize,
) -> Put
    requires { RowSays table.now row (Some (Array rank)) }
    ensures { PutAt (33 - path.depth) table.now pool.now row base out.old at result out.new }
{
    let depth = path.depth;
    let first = put_inner(table, pool, path, row + 1, u64::from(base), out, at);
    let stride = size_at(table, pool, row + 1, 32 - depth);
    let count = entry_count(table, pool, row, rank);
    let next = repeat_slots(out, at, first.next, stride, count);
    Put {
        row: first.row,
        next,
    }
}

// The same of so many members of the compound at the top of the path, from a row on.
#[cycle(put)]
fn put_members(
    table: &[u32],
    pool: &[u8],
    path: Path,
    row: usize,
    count: u32,
    base: u32,
    out: &mut [u64],
    at: usize,
) -> Put
    ensures { PutInside (32 - path.depth) table.now pool.now row count base out.old at result out.new }
{
    let mut r = row;
    let mut next = at;
    for _ in 0..count {
        let Some(member) = row_member(table, r) else {
            return Put { row: r, next };
        };
        let begins = u64::from(base) + u64::from(member.number);
        let put = put_inner(table, pool, path, r + 1, begins, out, next);
        r = put.row;
        next = put.next;
    }
    Put { row: r, next }
}

// The same of a type at a row one level below the path, which begins at `base` in the record. One that begins past all 32-bit places lists
// nothing; where no level is left, none is found there. A leaf is listed here, since a path costs more than it.
#[cycle(put)]
fn put_inner(
    table: &[u32],
    pool: &[u8],
    path: Path,
    row: usize,
    base: u64,
    out: &mut [u64],
    at: usize,
) -> Put
    ensures { PutAt (32 - path.depth) table.now pool.now row base out.old at result out.new }
{
    let depth = path.depth;
    let Ok(near) = u32::try_from(base) else {
        return pass(table, row, 32 - depth, at);
    };
    if depth == 32 {
        return pass(table, row, 0, at);
    }
    match row_entry(table, row) {
        Some(Entry::Leaf(class, _, _, _)) => put_leaf(row + 1, class, near, out, at),
        _ => put_type(table, pool, path.enter(row), near, out, at),
    }
}

// Of a type that the check has surveyed.
fn slots_checked(table: &[u32], pool: &[u8], out: &mut [u64], s: Survey) -> Result<u64, Refusal>
    requires { Sets table.now pool.now s }
    ensures { SlotsAre table.now pool.now result out.old out.new }
{
    if let Some(class) = s.zero {
        return Err(Refusal::ZeroSize(class));
    }
    let path = Path::outermost();
    let t = tally_type(table, pool, path);
    let size = u64::from(s.size);
    if t.unmapped || size / 8 < t.count || size < t.end {
        return Err(Refusal::Unmapped);
    }
    let count = t.count;
    if (out.len() as u64) < count {
        return Err(Refusal::NoRoom(count));
    }
    put_type(table, pool, path, 0, out, 0);
    Ok(count)
}

// The slots of the type that a table and pool set out, in walking order, into the front of `out`; a refusal leaves it as it is. Refused, in
// this order: BadTable, ZeroSize, Unmapped, NoRoom. Cost: the check of the table; a count that steps over each row but for an enumeration's
// members; and the listing, which steps over the same rows once and then costs one store a slot, however many entries an array has.
pub fn embedded_reference_slots(table: &[u32], pool: &[u8], out: &mut [u64]) -> Result<u64, Refusal>
    ensures { SlotsAre table.now pool.now result out.old out.new }
{
    let s = check(table, pool).ok_or(Refusal::BadTable)?;
    slots_checked(table, pool, out, s)
}
