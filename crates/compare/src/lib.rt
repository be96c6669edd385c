// Whether two records are the same: they agree on each byte that a field owns, as it is taken.
#![tactic(auto)]

ghost use Rattle.std.specs.Prelude.{◌≡◌, true, false, not, ◌+◌, ◌*◌, ◌-◌, ◌≤◌, ◌<◌, length};
ghost use Rattle.format.specs.Image.{no_nul_between};
ghost use Rattle.format.specs.Outcome.{gives, answer_of};
ghost use Rattle.format.specs.Ownership.{admission, comparing};
ghost use Rattle.rows.specs.Entries.{RowSays};
ghost use Rattle.table.specs.Path.{top_of};
ghost use Rattle.table.specs.Survey.{Sets};
ghost use Rattle.compare.specs.Agreeing.{equal_range_of, Equal, Common, nul_terminated_of, is_field_of, is_field_in, is_string_of, is_string_in, Standing, AgreesAt, AgreesArray, AgreesMembers, AgreesEntries, AgreesEnumeration, AgreesField, AgreesStrings, AgreesFields, StringSame, BaseIn, Admits, Compares};

use refusal::Refusal;
use rows::{Entry, row_entry, row_member};
use table::{Path, Survey, array_total, check, next_row, size_at};

// Why a walk over a type's fields stops: two bytes of a field differ, or the table has no type there, or the records no room for it.
#[derive(Clone, Copy, Debug, PartialEq, Eq)]
pub enum Disagreement {
    Apart,
    Lost,
}

// An array's base: its size, what all its entries take, and their number.
#[derive(Clone, Copy)]
pub struct Base {
    pub stride: usize,
    pub bytes: usize,
    pub count: usize,
}

// Whether the 128 bytes from `at` on are equal: without leaving early, so that they are compared side by side.
fn equal_block(a: &[u8], b: &[u8], at: usize) -> bool
    requires { (at + 128 ≤ length a.now) × (at + 128 ≤ length b.now) }
    ensures { result ≡ equal_range_of a.now b.now at 128 }
{
    let mut all: u8 = 0;
    for i in 0..128 {
        all |= a[at + i] ^ b[at + i];
    }
    all == 0
}

// Whether n bytes from `at` on are equal: by whole blocks, the first that is not ends it, and what is left.
pub fn equal_range(a: &[u8], b: &[u8], at: usize, n: usize) -> bool
    requires { (at + n ≤ length a.now) × (at + n ≤ length b.now) }
    ensures { result ≡ equal_range_of a.now b.now at n }
{
    for i in 0..n / 128 {
        if !equal_block(a, b, at + i * 128) {
            return false;
        }
    }
    let rest = at + n / 128 * 128;
    a[rest..at + n] == b[rest..at + n]
}

// How many of n bytes from `at` on are equal, looking at whole blocks only: the first that is not ends it.
fn equal_blocks(a: &[u8], b: &[u8], at: usize, n: usize) -> usize
    requires { (at + n ≤ length a.now) × (at + n ≤ length b.now) }
    ensures { Equal a.now b.now at n result }
{
    for i in 0..n / 128 {
        if !equal_block(a, b, at + i * 128) {
            return i * 128;
        }
    }
    n / 128 * 128
}

// How many of n bytes from `at` on are equal, up to the first that differs.
fn common(a: &[u8], b: &[u8], at: usize, n: usize) -> usize
    requires { (at + n ≤ length a.now) × (at + n ≤ length b.now) }
    ensures { Common a.now b.now at n result }
{
    for i in equal_blocks(a, b, at, n)..n {
        if a[at + i] != b[at + i] {
            return i;
        }
    }
    n
}

// Whether a NUL is among the n bytes from `at` on. From their end, where a name's NUL most often is if what follows it differs.
pub fn has_nul(s: &[u8], at: usize, n: usize) -> bool
    requires { at + n ≤ length s.now }
    ensures { result ≡ not (no_nul_between s.now at (at + n)) }
{
    for i in (at..at + n).rev() {
        if s[i] == 0 {
            return true;
        }
    }
    false
}

// Whether a NUL-terminated string of n bytes from `at` on is the same in both: they are equal, or as far as they are there is a NUL.
pub fn equal_string(a: &[u8], b: &[u8], at: usize, n: usize) -> bool
    requires { (at + n ≤ length a.now) × (at + n ≤ length b.now) }
    ensures { StringSame a.now b.now at n result }
{
    let equal = common(a, b, at, n);
    equal == n || has_nul(a, at, equal)
}

// A field of n bytes from `at` on that counts whole.
fn agree_field(a: &[u8], b: &[u8], at: usize, n: usize, next: usize) -> Result<usize, Disagreement>
    requires { Standing a.now b.now at }
    ensures { AgreesField n false a.now b.now at next result }
{
    if a.len() - at < n {
        return Err(Disagreement::Lost);
    }
    if equal_range(a, b, at, n) {
        Ok(next)
    } else {
        Err(Disagreement::Apart)
    }
}

// Whether a leaf of a class and a code, its row's column 5, is a NUL-terminated string.
pub fn nul_terminated(class: u32, code: u32) -> bool
    ensures { result ≡ nul_terminated_of class code }
{
    class == 3 && code == 0
}

// A leaf of a size, a class and a code, from `at` on. What it is matters only where its bytes differ.
fn agree_leaf(
    a: &[u8],
    b: &[u8],
    at: usize,
    size: u32,
    class: u32,
    code: u32,
    next: usize,
) -> Result<usize, Disagreement>
    requires { Standing a.now b.now at }
    ensures { AgreesField size (nul_terminated_of class code) a.now b.now at next result }
{
    let n = size as usize;
    if a.len() - at < n {
        return Err(Disagreement::Lost);
    }
    let equal = common(a, b, at, n);
    if equal == n {
        return Ok(next);
    }
    if nul_terminated(class, code) && has_nul(a, at, equal) {
        return Ok(next);
    }
    Err(Disagreement::Apart)
}

// So many strings of n bytes, one behind the other from `at` on, each of which ends at its own first NUL.
// Not inlined, so that its loop over bytes has the registers to itself.
#[inline(never)]
fn agree_strings(
    a: &[u8],
    b: &[u8],
    at: usize,
    n: usize,
    count: usize,
    next: usize,
) -> Result<usize, Disagreement>
    requires { Standing a.now b.now at }
    ensures { AgreesStrings n count a.now b.now at next result }
{
    let mut start = at;
    for _ in 0..count {
        if a.len() - start < n {
            return Err(Disagreement::Lost);
        }
        if !equal_string(a, b, start, n) {
            return Err(Disagreement::Apart);
        }
        start += n;
    }
    Ok(next)
}

// An enumeration's row, with so many levels left: its own size counts, and its members are passed by their number.
fn agree_enumeration(
    table: &[u32],
    row: usize,
    levels: usize,
    size: u32,
    a: &[u8],
    b: &[u8],
    at: usize,
) -> Result<usize, Disagreement>
    requires { Standing a.now b.now at }
    ensures { AgreesEnumeration levels table.now row size a.now b.now at result }
{
    let next = next_row(table, row, levels);
    agree_field(a, b, at, size as usize, next)
}

fn is_field_entry(entry: Entry) -> bool
    ensures { result ≡ is_field_of entry }
{
    matches!(entry, Entry::Leaf(_, _, _, _) | Entry::Enumeration(_, _))
}

// Whether a row's type is a field, an entry of which follows the one before without a gap; a row that is no type's is none.
#[tactic(auto, unfolding(crate::specs::Agreeing::is_field_in))]
pub fn is_field(entry: Option<Entry>) -> bool
    ensures { result ≡ is_field_in entry }
{
    match entry {
        Some(entry) => is_field_entry(entry),
        None => false,
    }
}

#[tactic(auto, unfolding(crate::specs::Agreeing::is_string_of))]
fn is_string_entry(entry: Entry) -> bool
    ensures { result ≡ is_string_of entry }
{
    match entry {
        Entry::Leaf(class, _, _, code) => nul_terminated(class, code),
        Entry::Enumeration(_, _) => false,
        Entry::Compound(_, _) | Entry::VariableLength(_, _, _) | Entry::Array(_) => false,
    }
}

// Whether a row's type is a NUL-terminated string; a row that is no type's is none.
#[tactic(auto, unfolding(crate::specs::Agreeing::is_string_in))]
pub fn is_string(entry: Option<Entry>) -> bool
    ensures { result ≡ is_string_in entry }
{
    match entry {
        Some(entry) => is_string_entry(entry),
        _ => false,
    }
}

// An array of a field, `entry` what its row has: strings each by itself, every other field as one range.
fn agree_fields(
    a: &[u8],
    b: &[u8],
    at: usize,
    base: Base,
    entry: Entry,
    next: usize,
) -> Result<usize, Disagreement>
    requires { Standing a.now b.now at }
    ensures { AgreesFields (is_string_of entry) base a.now b.now at next result }
{
    if is_string(Some(entry)) {
        return agree_strings(a, b, at, base.stride, base.count, next);
    }
    agree_field(a, b, at, base.bytes, next)
}

// The base of an array at a row, with so many levels left below it: None where there is none, or one of size 0.
fn array_base(table: &[u32], pool: &[u8], row: usize, rank: u32, levels: usize) -> Option<Base>
    requires { row * 16 + 16 ≤ length table.now }
    ensures { BaseIn table.now pool.now row rank levels result }
{
    let size = size_at(table, pool, row + 1, levels);
    if size == 0 {
        return None;
    }
    let total = array_total(table, pool, row, rank, size);
    Some(Base {
        stride: size as usize,
        bytes: total as usize,
        count: (total / u64::from(size)) as usize,
    })
}

// The fields of the type at the top of the path, `entry` what its row has; its record begins at `at`.
#[cycle(agree)]
fn agree_type(
    table: &[u32],
    pool: &[u8],
    path: Path,
    entry: Entry,
    a: &[u8],
    b: &[u8],
    at: usize,
) -> Result<usize, Disagreement>
    requires { Standing a.now b.now at × RowSays table.now (top_of path) (Some entry) }
    ensures { AgreesAt (33 - path.depth) table.now pool.now (top_of path) a.now b.now at result }
{
    let depth = path.depth;
    let row = path.top();
    match entry {
        Entry::VariableLength(_, _, _) => Err(Disagreement::Lost),
        Entry::Leaf(class, size, _, code) => agree_leaf(a, b, at, size, class, code, row + 1),
        Entry::Enumeration(size, _) => agree_enumeration(table, row, 33 - depth, size, a, b, at),
        Entry::Compound(_, count) => agree_members(table, pool, path, row + 1, count, a, b, at),
        Entry::Array(rank) => agree_array(table, pool, path, row, rank, a, b, at),
    }
}

// The fields of an array whose row is the top of the path, and whose record begins at `at`. The path is copied only
// for a base that has fields below it.
#[cycle(agree)]
fn agree_array(
    table: &[u32],
    pool: &[u8],
    path: Path,
    row: usize,
    rank: u32,
    a: &[u8],
    b: &[u8],
    at: usize,
) -> Result<usize, Disagreement>
    requires { Standing a.now b.now at × (row * 16 + 16 ≤ length table.now) }
    ensures { AgreesArray (32 - path.depth) table.now pool.now row rank a.now b.now at result }
{
    let depth = path.depth;
    if depth >= 32 {
        return Err(Disagreement::Lost);
    }
    let base = array_base(table, pool, row, rank, 32 - depth).ok_or(Disagreement::Lost)?;
    let below = row + 1;
    let entry = row_entry(table, below).ok_or(Disagreement::Lost)?;
    if is_field(Some(entry)) {
        let next = next_row(table, below, 32 - depth);
        return agree_fields(a, b, at, base, entry, next);
    }
    let inner = path.enter(below);
    agree_entries(table, pool, inner, entry, a, b, at, base.stride, base.count)
}

// The members of a compound whose record begins at `at`.
#[cycle(agree)]
fn agree_members(
    table: &[u32],
    pool: &[u8],
    path: Path,
    row: usize,
    members: u32,
    a: &[u8],
    b: &[u8],
    at: usize,
) -> Result<usize, Disagreement>
    requires { Standing a.now b.now at }
    ensures { AgreesMembers (32 - path.depth) table.now pool.now members row a.now b.now at result }
{
    let depth = path.depth;
    let mut r = row;
    for _ in 0..members {
        if depth >= 32 {
            return Err(Disagreement::Lost);
        }
        let member = row_member(table, r).ok_or(Disagreement::Lost)?;
        let offset = member.number as usize;
        if a.len() - at < offset {
            return Err(Disagreement::Lost);
        }
        r = agree_member(table, pool, path, r + 1, a, b, at + offset)?;
    }
    Ok(r)
}

// The fields of a member's type at a row, whose record begins at `at`. A field is compared here; only a type with fields below it is entered,
// since that copies the path.
#[cycle(agree)]
fn agree_member(
    table: &[u32],
    pool: &[u8],
    path: Path,
    row: usize,
    a: &[u8],
    b: &[u8],
    at: usize,
) -> Result<usize, Disagreement>
    requires { (path.depth < 32) × Standing a.now b.now at }
    ensures { AgreesAt (32 - path.depth) table.now pool.now row a.now b.now at result }
{
    let depth = path.depth;
    let entry = row_entry(table, row).ok_or(Disagreement::Lost)?;
    match entry {
        Entry::Leaf(class, size, _, code) => agree_leaf(a, b, at, size, class, code, row + 1),
        Entry::Enumeration(size, _) => agree_enumeration(table, row, 32 - depth, size, a, b, at),
        _ => agree_type(table, pool, path.enter(row), entry, a, b, at),
    }
}

// So many entries of an array, a base size apart; the path's top is the base's row, and `entry` what it has.
#[cycle(agree)]
fn agree_entries(
    table: &[u32],
    pool: &[u8],
    path: Path,
    entry: Entry,
    a: &[u8],
    b: &[u8],
    at: usize,
    stride: usize,
    count: usize,
) -> Result<usize, Disagreement>
    requires { Standing a.now b.now at × RowSays table.now (top_of path) (Some entry) }
    ensures { AgreesEntries (33 - path.depth) table.now pool.now (top_of path) stride count a.now b.now at result }
{
    let mut start = at;
    let mut next: usize = 0;
    for _ in 0..count {
        if a.len() - start < stride {
            return Err(Disagreement::Lost);
        }
        next = agree_type(table, pool, path, entry, a, b, start)?;
        start += stride;
    }
    Ok(next)
}

// Whether two records are the same, of the size of a type that is admitted to comparison: the walk behind the check, for calls that compare many
// records of one type. Cost: one pass over equal bytes; where a byte differs, a step for each row of the type, an enumeration's members
// excepted, and so for each entry of an array, and the bytes of the fields up to the first that differ.
pub fn same_records(table: &[u32], pool: &[u8], a: &[u8], b: &[u8]) -> bool
    requires { Admits table.now pool.now (length a.now) × (length b.now ≡ length a.now) }
    ensures { comparing table.now pool.now a.now b.now ≡ gives result }
{
    if equal_range(a, b, 0, a.len()) {
        return true;
    }
    let Some(entry) = row_entry(table, 0) else {
        return false;
    };
    agree_type(table, pool, Path::outermost(), entry, a, b, 0).is_ok()
}

// The admission of a type that the check has surveyed.
fn admit_surveyed(table: &[u32], pool: &[u8], s: Survey) -> Result<u32, Refusal>
    requires { Sets table.now pool.now s }
    ensures { result ≡ answer_of (λ n. n) (admission table.now pool.now) }
{
    if let Some(class) = s.zero {
        return Err(Refusal::ZeroSize(class));
    }
    if s.outside {
        return Err(Refusal::OutsideRecord);
    }
    if s.heap {
        return Err(Refusal::HeapHeld);
    }
    Ok(s.size)
}

// Whether the type that a table and pool set out is admitted to comparison, and its size. Refused, in this order: BadTable, ZeroSize,
// OutsideRecord, HeapHeld. Cost: the check, which tests each row and looks at the whole of the lent table and pool.
pub fn admit(table: &[u32], pool: &[u8]) -> Result<u32, Refusal>
    ensures { result ≡ answer_of (λ n. n) (admission table.now pool.now) }
{
    let s = check(table, pool).ok_or(Refusal::BadTable)?;
    admit_surveyed(table, pool, s)
}

// Two records of an admitted type that has a size.
fn same_sized(table: &[u32], pool: &[u8], a: &[u8], b: &[u8], size: u32) -> Result<bool, Refusal>
    requires { Admits table.now pool.now size }
    ensures { Compares (comparing table.now pool.now a.now b.now) result }
{
    let size = size as usize;
    if a.len() != size || b.len() != size {
        return Err(Refusal::WrongLength);
    }
    Ok(same_records(table, pool, a, b))
}

// Whether two records of the type that a table and pool set out agree on each byte that a field owns; behind the first NUL of a
// NUL-terminated string a byte counts only if another field counts it. Refused, in this order: BadTable, ZeroSize, OutsideRecord, HeapHeld,
// WrongLength. Cost: the check, which tests each row and looks at the whole of the lent table and pool, and then `same_records`.
pub fn same(table: &[u32], pool: &[u8], a: &[u8], b: &[u8]) -> Result<bool, Refusal>
    ensures { Compares (comparing table.now pool.now a.now b.now) result }
{
    let size = admit(table, pool)?;
    same_sized(table, pool, a, b, size)
}
