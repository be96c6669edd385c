// The rows of a lent table, one at a time: which columns a row of a kind uses, its codes, and its piece of the pool.
#![tactic(auto)]

ghost use Rattle.std.specs.Prelude.{◌≡◌, ◌+◌, ◌*◌, ◌/◌, ◌≤◌, ◌<◌, length, leb, is_some, MatchOption};
ghost use Rattle.std.specs.Bool.{then_some};
ghost use Rattle.format.specs.Bytes.{all_zero};
ghost use Rattle.rows.specs.Columns.{clear_columns_of, leaf_columns_of, group_columns_of, variable_length_columns_of, piece_columns_of, IsRow};
ghost use Rattle.rows.specs.Entries.{entry_at, member_in, member_at_of, enum_member_at_of, EntryInside, behind_of, IfKnown, entry_fits_of, RowSays, RowNames, MemberInside};

// A type's row. Leaf: class, size, length of the tag, and column 5 (order, padding or reference kind). Compound and Enumeration: size and
// number of members. VariableLength: is a string, padding, charset. Array: rank.
#[derive(Clone, Copy)]
pub enum Entry {
    Leaf(u32, u32, u32, u32),
    Compound(u32, u32),
    Enumeration(u32, u32),
    VariableLength(u32, u32, u32),
    Array(u32),
}

// A member's row: length of the name; and a compound member's offset, or the length of an enumeration member's value.
#[derive(Clone, Copy)]
pub struct Member {
    pub name: u32,
    pub number: u32,
}

// A place among the rows of an enumeration's members: the row, where its name is in the pool, and how many bytes the values of the members
// before it have in all, which stand behind all names.
#[derive(Clone, Copy)]
pub struct EnumPlace {
    pub row: usize,
    pub place: usize,
    pub values: usize,
}

// Whether a block of words is all zero: without leaving early, so that they are tested side by side.
fn clear_word_block(words: &[u32]) -> bool
    ensures { result ≡ all_zero words.now }
{
    words.iter().fold(0, |all, word| all | *word) == 0
}

// Whether words are all zero: by blocks, of which the first that is not ends it.
pub fn clear_words(words: &[u32]) -> bool
    ensures { result ≡ all_zero words.now }
{
    let (blocks, rest) = words.as_chunks::<64>();
    for block in blocks {
        if !clear_word_block(block) {
            return false;
        }
    }
    clear_word_block(rest)
}

// Whether a block of bytes is all zero, as above.
fn clear_byte_block(bytes: &[u8]) -> bool
    ensures { result ≡ all_zero bytes.now }
{
    bytes.iter().fold(0, |all, byte| all | *byte) == 0
}

// Whether bytes are all zero, as above.
pub fn clear_bytes(bytes: &[u8]) -> bool
    ensures { result ≡ all_zero bytes.now }
{
    let (blocks, rest) = bytes.as_chunks::<256>();
    for block in blocks {
        if !clear_byte_block(block) {
            return false;
        }
    }
    clear_byte_block(rest)
}

// The words of a row; None past the table.
fn row_words(table: &[u32], row: usize) -> Option<&[u32; 16]>
    ensures { MatchOption result (length table.now / 16 ≤ row) (λ words. IsRow table.now row words.now) }
{
    table.as_chunks::<16>().0.get(row)
}

// Whether columns `from` up to `to` of a row are zero. Here and below a row that is given by its words is the first of a table of its own.
fn clear_columns(words: &[u32; 16], from: usize, to: usize) -> bool
    requires { (from ≤ to) × (to ≤ 16) }
    ensures { result ≡ clear_columns_of words.now 0 from to }
{
    clear_word_block(&words[from..to])
}

// The row of a leaf: columns 2 to 4, 6 up to `from`, and from `to` on are zero, and the code in column 5 is below `limit`.
fn leaf_columns(words: &[u32; 16], from: usize, to: usize, limit: u32) -> bool
    requires { (6 ≤ from) × ((from ≤ to) × (to ≤ 16)) }
    ensures { result ≡ leaf_columns_of words.now 0 from to limit }
{
    let common = clear_columns(words, 2, 5);
    let middle = clear_columns(words, 6, from);
    let last = clear_columns(words, to, 16);
    common & middle & last & (words[5] < limit)
}

// The row of a compound or an enumeration: only columns 1 and 4 are used.
fn group_columns(words: &[u32; 16]) -> bool
    ensures { result ≡ group_columns_of words.now 0 }
{
    let middle = clear_columns(words, 2, 4);
    let last = clear_columns(words, 5, 16);
    middle & last
}

fn variable_length_columns(words: &[u32; 16]) -> bool
    ensures { result ≡ variable_length_columns_of words.now 0 }
{
    let common = clear_columns(words, 1, 5);
    let last = clear_columns(words, 8, 16);
    common & last & (words[5] < 2) & (words[6] < 4) & (words[7] < 3)
}

// The row of a piece of the pool: it is at `place`, so many times `width` bytes long, and the columns from `from` on are zero.
fn piece_columns(words: &[u32; 16], pool: &[u8], place: usize, from: usize, width: usize) -> bool
    requires { (from ≤ 16) × (width ≤ 4) }
    ensures { result ≡ piece_columns_of words.now pool.now 0 place from width }
{
    if words[2] as usize != place {
        return false;
    }
    let end = place + (words[3] as usize) * width;
    clear_columns(words, from, 16) & (end <= pool.len())
}

// What a type's row has in its columns, not tested: none for a kind that is no type's.
fn words_entry(words: &[u32; 16]) -> Option<Entry>
    ensures { RowSays words.now 0 result }
{
    let kind = words[0];
    let size = words[1];
    let length = words[3];
    let count = words[4];
    let code = words[5];
    Some(match kind {
        1 => Entry::Leaf(0, size, 0, code),
        2 => Entry::Leaf(1, size, 0, code),
        3 => Entry::Leaf(2, size, 0, code),
        4 => Entry::Leaf(3, size, 0, code),
        5 => Entry::Leaf(4, size, 0, code),
        6 => Entry::Leaf(5, size, length, code),
        7 => Entry::Compound(size, count),
        8 => Entry::Leaf(7, size, 0, code),
        9 => Entry::Enumeration(size, count),
        10 => Entry::VariableLength(code, words[6], words[7]),
        11 => Entry::Array(length),
        _ => return None,
    })
}

// The same, of a row of a table: none past the table.
pub fn row_entry(table: &[u32], row: usize) -> Option<Entry>
    ensures { RowSays table.now row result }
{
    words_entry(row_words(table, row)?)
}

// Whether a row is a type's, its pool bytes at `place`: it uses the columns of its kind only, with known codes, and its piece lies in the pool.
fn row_known(words: &[u32; 16], pool: &[u8], place: usize) -> bool
    ensures { result ≡ is_some (entry_at words.now pool.now 0 place) }
{
    match words[0] {
        1 => leaf_columns(words, 6, 9, 3) & (words[6] < 2),
        2 => leaf_columns(words, 7, 14, 3),
        3 => leaf_columns(words, 8, 9, 3),
        4 => leaf_columns(words, 6, 7, 3) & (words[6] < 2),
        5 => leaf_columns(words, 7, 9, 3),
        6 => piece_columns(words, pool, place, 4, 1),
        7 => group_columns(words),
        8 => leaf_columns(words, 6, 6, 2),
        9 => group_columns(words),
        10 => variable_length_columns(words),
        11 => (words[1] == 0) & piece_columns(words, pool, place, 4, 4),
        _ => false,
    }
}

// The type's row at `row`, its pool bytes at `place`.
pub fn entry_at(table: &[u32], pool: &[u8], row: usize, place: usize) -> Option<Entry>
    ensures is { result ≡ entry_at table.now pool.now row place }
    ensures inside { EntryInside result (length table.now) (length pool.now) row place }
{
    let words = row_words(table, row)?;
    let entry = words_entry(words)?;
    row_known(words, pool, place).then_some(entry)
}

// What a member's row has in its columns, not tested, its number in a column.
fn member_columns(words: &[u32; 16], number: usize) -> Member
    requires { number < 16 }
    ensures { result ≡ member_in words.now 0 number }
{
    Member {
        name: words[3],
        number: words[number],
    }
}

// The row of a compound's member, its name at `place`.
pub fn member_at(table: &[u32], pool: &[u8], row: usize, place: usize) -> Option<Member>
    ensures is { result ≡ member_at_of table.now pool.now row place }
    ensures inside { MemberInside result (length table.now) (length pool.now) row place }
{
    let words = row_words(table, row)?;
    let known = (words[0] == 12) & piece_columns(words, pool, place, 4, 1);
    known.then_some(member_columns(words, 1))
}

// The row of an enumeration's member, its name at `place`.
pub fn enum_member_at(table: &[u32], pool: &[u8], row: usize, place: usize) -> Option<Member>
    ensures is { result ≡ enum_member_at_of table.now pool.now row place }
    ensures inside { MemberInside result (length table.now) (length pool.now) row place }
{
    let words = row_words(table, row)?;
    let begins = (words[0] == 13) & (words[1] == 0);
    let known = begins & piece_columns(words, pool, place, 5, 1);
    known.then_some(member_columns(words, 4))
}

// Whether a piece of so many times `width` bytes at a place lies in the pool.
fn piece_fits(pool: &[u8], place: usize, n: u32, width: usize) -> bool
    requires { width ≤ 4 }
    ensures { result ≡ leb (place + n * width) (length pool.now) }
{
    let lent = pool.len();
    if lent < place {
        return false;
    }
    let bytes = (n as usize) * width;
    bytes <= lent - place
}

// Whether an entry's piece lies in the pool at `place`.
fn entry_fits(pool: &[u8], place: usize, entry: Entry) -> bool
    ensures { result ≡ entry_fits_of entry place (length pool.now) }
{
    match entry {
        Entry::Leaf(_, _, length, _) => {
            if length == 0 {
                return true;
            }
            piece_fits(pool, place, length, 1)
        }
        Entry::Array(rank) => piece_fits(pool, place, rank, 4),
        Entry::Compound(_, _) => true,
        Entry::Enumeration(_, _) => true,
        Entry::VariableLength(_, _, _) => true,
    }
}

// What `entry_at` answers of a row that is known to be a type's, without testing it again: what it takes from the row lies in the table and the
// pool, whatever the row has.
pub fn known_entry_at(table: &[u32], pool: &[u8], row: usize, place: usize) -> Option<Entry>
    ensures is { IfKnown (entry_at table.now pool.now row place) result }
    ensures inside { EntryInside result (length table.now) (length pool.now) row place }
{
    let entry = row_entry(table, row)?;
    entry_fits(pool, place, entry).then_some(entry)
}

// What a compound member's row has in its columns, not tested: none past the table.
pub fn row_member(table: &[u32], row: usize) -> Option<Member>
    ensures { RowNames table.now row result }
{
    Some(member_columns(row_words(table, row)?, 1))
}

// A member whose name lies in the pool at `place`.
fn named_at(pool: &[u8], place: usize, member: Member) -> Option<Member>
    ensures { result ≡ then_some (leb (place + member.name) (length pool.now)) member }
{
    piece_fits(pool, place, member.name, 1).then_some(member)
}

// What `member_at` answers of a row that is known to be a member's.
pub fn known_member_at(table: &[u32], pool: &[u8], row: usize, place: usize) -> Option<Member>
    ensures is { IfKnown (member_at_of table.now pool.now row place) result }
    ensures inside { MemberInside result (length table.now) (length pool.now) row place }
{
    named_at(pool, place, member_columns(row_words(table, row)?, 1))
}

// What `enum_member_at` answers of a row that is known to be an enumeration member's.
pub fn known_enum_member_at(table: &[u32], pool: &[u8], row: usize, place: usize) -> Option<Member>
    ensures is { IfKnown (enum_member_at_of table.now pool.now row place) result }
    ensures inside { MemberInside result (length table.now) (length pool.now) row place }
{
    named_at(pool, place, member_columns(row_words(table, row)?, 4))
}

impl EnumPlace {
    // The place behind a member; None where the values are longer than the pool.
    pub fn behind(self, pool: &[u8], member: Member) -> Option<EnumPlace>
        requires { (self.row < 18446744073709551615) × ((self.place + member.name ≤ length pool.now) × (self.values ≤ length pool.now)) }
        ensures { result ≡ behind_of (length pool.now) self member }
    {
        let length = member.number as usize;
        if pool.len() - self.values < length {
            return None;
        }
        Some(EnumPlace {
            row: self.row + 1,
            place: self.place + member.name as usize,
            values: self.values + length,
        })
    }

    // Where the values end that begin here, behind the last name; None where they are not in the pool.
    pub fn end(self, pool: &[u8]) -> Option<usize>
        ensures { result ≡ then_some (leb (self.place + self.values) (length pool.now)) (self.place + self.values) }
    {
        if pool.len() < self.place {
            return None;
        }
        if pool.len() - self.place < self.values {
            return None;
        }
        Some(self.place + self.values)
    }
}
