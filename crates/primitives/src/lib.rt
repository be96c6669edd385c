// Numbers and header bits, as in the Rust's `datatype.rs`; rows, copying, an array's size.
#![tactic(auto)]

ghost use Rattle.std.specs.Prelude.{◌≡◌, ◌+◌, ◌*◌, ◌-◌, ◌≤◌, ◌<◌, min, length, take, drop};
ghost use Rattle.std.proofs.lemmas.List.Edits.{sets};
ghost use Rattle.format.specs.Bytes.{number_from, little_endian, padding_to8, dimensions_from};
ghost use Rattle.format.specs.Datatype.{product};
ghost use Rattle.format.specs.Bits.{low_bits, high_bits, bit_at, float_order_of, class_and_version_of, fixed_flags_of, float_flags_of, nibbles};
ghost use Rattle.format.specs.Message.{name_padding_of, offset_width, skipped_bytes_of, reserved_bytes_of, permutation_bytes_of};

// The number of `width` bytes at `offset`, little-endian: from the last byte down.
pub fn read_uint(data: &[u8], offset: usize, width: usize) -> u32
    requires { (width ≤ 4) × (offset + width ≤ length «data».now) }
    ensures { result ≡ number_from (take width (drop offset «data».now)) }
{
    let mut value: u32 = 0;
    for i in (0..width).rev() {
        value = 256 * value + u32::from(data[offset + i]);
    }
    value
}

// The `width` low bytes of `value` at `offset`, little-endian.
pub fn write_uint(out: &mut [u8], offset: usize, width: usize, value: u32)
    requires { (width ≤ 4) × (offset + width ≤ length out.old) }
    ensures { out.new ≡ sets out.old offset (little_endian width value) }
{
    let mut rest = value;
    for i in 0..width {
        out[offset + i] = (rest % 256) as u8;
        rest /= 256;
    }
}

// The low four bits of a byte.
pub fn low4(b: u8) -> u8
    ensures { (result ≡ low_bits 4 b) × (result < 16) }
{
    b & 15
}

// The high four bits of a byte.
pub fn high4(b: u8) -> u8
    ensures { (result ≡ high_bits 4 b) × (result < 16) }
{
    b >> 4
}

// Bit k of a byte.
pub fn bit(b: u8, k: u32) -> u32
    requires { k < 8 }
    ensures { (result ≡ bit_at k b) × (result < 2) }
{
    u32::from((b >> k) & 1)
}

// The byte order of class 1: VAX is 2.
pub fn float_order(f0: u8) -> u32
    ensures { (result ≡ float_order_of f0) × (result < 3) }
{
    if bit(f0, 6) == 1 { 2 } else { bit(f0, 0) }
}

// The first byte of a header.
pub fn class_and_version(class: u8, version: u8) -> u8
    requires { (class < 16) × (version < 16) }
    ensures { result ≡ class_and_version_of class version }
{
    class | (version << 4)
}

// f0 of a fixed type: order and sign.
pub fn fixed_flags(order: u32, signed: u32) -> u8
    requires { (order < 2) × (signed < 2) }
    ensures { result ≡ fixed_flags_of order signed }
{
    (order | (signed << 3)) as u8
}

// f0 of a float: bit 5, and the order's two bits in bits 0 and 6.
pub fn float_flags(order: u32) -> u8
    requires { order < 3 }
    ensures { result ≡ float_flags_of order }
{
    ((order & 1) | 0x20 | ((order >> 1) << 6)) as u8
}

// A byte of its low and its high four bits.
pub fn nibbles_of(low: u32, high: u32) -> u8
    requires { (low < 16) × (high < 16) }
    ensures { result ≡ nibbles low high }
{
    (low | (high << 4)) as u8
}

// How many bytes fill n up to a multiple of 8.
pub fn padding_to_8(n: usize) -> usize
    ensures { (result ≡ padding_to8 n) × (result < 8) }
{
    (8 - n % 8) % 8
}

// The padding behind a name that has n bytes with its NUL.
pub fn name_padding(version: u8, n: usize) -> usize
    ensures { (result ≡ name_padding_of version n) × (result < 8) }
{
    match version {
        0..=2 => padding_to_8(n),
        _ => 0,
    }
}

// The width of a member's offset in a compound of this size.
pub fn offset_bytes_for_size(version: u8, size: u32) -> usize
    ensures { (result ≡ offset_width version size) × ((0 < result) × (result ≤ 4)) }
{
    match version {
        0..=2 => 4,
        _ => match size {
            0..=255 => 1,
            256..=65535 => 2,
            _ => 4,
        },
    }
}

// The bytes between a member's offset and its message.
pub fn skipped_bytes(version: u8) -> usize
    ensures { (result ≡ skipped_bytes_of version) × (result ≤ 28) }
{
    match version {
        0..=1 => 28,
        _ => 0,
    }
}

// The bytes between an array's rank and its dimensions.
pub fn reserved_bytes(version: u8) -> usize
    ensures { (result ≡ reserved_bytes_of version) × (result ≤ 3) }
{
    match version {
        0..=2 => 3,
        _ => 0,
    }
}

// The bytes of the permutation behind an array's dimensions.
pub fn permutation_bytes(version: u8, rank: usize) -> usize
    requires { rank ≤ 255 }
    ensures { (result ≡ permutation_bytes_of version rank) × (result ≤ 1020) }
{
    match version {
        0..=2 => 4 * rank,
        _ => 0,
    }
}

// Stores a row whole.
pub fn put_row(table: &mut [u32], row: usize, words: [u32; 16])
    requires { (row * 16 + 16 ≤ length table.old) × (length words ≡ 16) }
    ensures { table.new ≡ sets table.old (row * 16) words }
{
    let at = row * 16;
    table[at..at + 16].copy_from_slice(&words);
}

// Copies n bytes of `from`, from `start` on, into `to` at `place`.
pub fn copy_bytes(from: &[u8], start: usize, n: usize, to: &mut [u8], place: usize)
    requires { (start + n ≤ length from.now) × (place + n ≤ length to.old) }
    ensures { to.new ≡ sets to.old place (take n (drop start from.now)) }
{
    for i in 0..n {
        to[place + i] = from[start + i];
    }
}

// A size times an array's dimensions: true up to 4,294,967,295, and 4,294,967,296 for all that is more.
pub fn scaled(pool: &[u8], place: usize, rank: u32, size: u32) -> u64
    requires { place + rank * 4 ≤ length pool.now }
    ensures { result ≡ min (size * product (dimensions_from rank (take (rank * 4) (drop place pool.now)))) 4294967296 }
{
    let (dimensions, _) = pool[place..place + rank as usize * 4].as_chunks::<4>();
    let mut total = u64::from(size);
    for dimension in dimensions {
        total = (total * u64::from(u32::from_le_bytes(*dimension))).min(4294967296);
    }
    total
}

// At most 4,294,967,295.
pub fn capped(total: u64) -> u32
    ensures { result ≡ min total 4294967295 }
{
    total.min(4294967295) as u32
}
