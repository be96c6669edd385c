// The messages of the cases. U1, R and P are document 01's.
ghost use Rattle.std.specs.Prelude.{◌≡◌, ◌+◌, ◌*◌, length};

use record_types::{FLOAT, NO_U1, ON_OFF, P, R, SQUARE_OF_U1, TWO_R, U1, put_sequences};
use show::reading;

// An opaque type with a tag of 3 bytes, without the padding.
const TAG: [u8; 11] = *b"\x15\x03\x00\x00\x05\x00\x00\x00abc";

// A compound that ends before its member.
const MEMBER_CUT_OFF: [u8; 8] = *b"\x36\x01\x00\x00\x04\x00\x00\x00";

// A compound that ends in the name of its member.
const NAME_WITHOUT_NUL: [u8; 11] = *b"\x36\x01\x00\x00\x04\x00\x00\x00abc";

// A header of class 12 and version 15.
const CLASS_12: [u8; 8] = *b"\xfc\x00\x00\x00\x00\x00\x00\x00";

// At limit 15, with 64 rows and 256 pool bytes.
fn plain(label: &[u8], message: &[u8]) {
    reading(label, message, 15, 64, 256);
}

// Document 01's own cases of reading.
pub fn document_cases() {
    plain(b"empty", b"");
    plain(b"U1", &U1);
    plain(b"a tag without its padding", &TAG);
    plain(b"class 12", b"\x1c\x00\x00\x00\x00\x00\x00\x00");
    plain(
        b"compound of version 0",
        b"\x06\x00\x00\x00\x00\x00\x00\x00",
    );
    plain(b"padding 3", b"\x13\x23\x00\x00\x01\x00\x00\x00");
    plain(b"charset 2", b"\x13\x20\x00\x00\x01\x00\x00\x00");
    plain(b"P", &P);
    reading(b"P at limit 2", &P, 2, 64, 256);
    plain(b"array with dimension 0", &NO_U1);
    plain(b"array of two R", &TWO_R);
    plain(b"dimensions 65536 and 65536 over U1", &SQUARE_OF_U1);
    sequences(b"31 sequences round R", 31, &R);
    sequences(b"32 sequences round R", 32, &R);
}

// So many sequences, at most 40, round a message of at most 64 bytes.
fn sequences(label: &[u8], count: usize, inner: &[u8]) {
    let mut message = [0u8; 384];
    if count > 40 || inner.len() > 64 {
        return;
    }
    let end = 8 * count + inner.len();
    fill(&mut message[..end], 8 * count, inner);
    plain(label, &message[..end]);
}

// Puts the sequences' headers before a place, and the message behind it.
fn fill(message: &mut [u8], start: usize, inner: &[u8])
    requires { start + length inner.now ≡ length message.old }
{
    let (headers, rest) = message.split_at_mut(start);
    put_sequences(headers);
    rest.copy_from_slice(inner);
}

// Too few rows, and too many levels.
pub fn row_and_level_cases() {
    reading(b"empty, no row", b"", 15, 0, 256);
    reading(b"one member cut off, 1 row", &MEMBER_CUT_OFF, 15, 1, 256);
    reading(b"one member cut off, 2 rows", &MEMBER_CUT_OFF, 15, 2, 256);
    sequences(b"31 sequences round a member cut off", 31, &MEMBER_CUT_OFF);
    sequences(
        b"31 sequences round a member's start",
        31,
        b"\x36\x01\x00\x00\x04\x00\x00\x00a\x00\x00",
    );
    reading(
        b"enumeration, a row short of its members",
        b"\x38\x02\x00\x00\x01\x00\x00\x00\x10\x00\x00\x00\x01\x00\x00\x00\x00\x00\x08\x00a\x00b\x00\x01\x02",
        15,
        3,
        256,
    );
}

// Messages that end too early, by the message that the count begins in.
pub fn short_cases() {
    plain(b"a name without NUL", &NAME_WITHOUT_NUL);
    plain(
        b"nested header cut off",
        b"\x19\x00\x00\x00\x10\x00\x00\x00\x10\x00\x00",
    );
    plain(
        b"fixed cut off",
        b"\x10\x00\x00\x00\x01\x00\x00\x00\x00\x00\x08",
    );
    plain(
        b"float cut off",
        b"\x11\x20\x1f\x00\x04\x00\x00\x00\x00\x00\x20\x00\x17\x08\x00\x17\x7f\x00\x00",
    );
    plain(b"time cut off", b"\x12\x00\x00\x00\x04\x00\x00\x00\x20");
    plain(
        b"version 2 array cut off at its rank",
        b"\x2a\x00\x00\x00\x00\x00\x00\x00\x01\x00\x00",
    );
    plain(
        b"version 2 array without its permutation",
        b"\x2a\x00\x00\x00\x00\x00\x00\x00\x01\x00\x00\x00\x02\x00\x00\x00",
    );
    plain(
        b"a tag's absent padding before a member",
        b"\x36\x02\x00\x00\x04\x00\x00\x00a\x00\x00\x15\x03\x00\x00\x01\x00\x00\x00xyz",
    );
    plain(
        b"a tag's absent padding at the end",
        b"\x36\x01\x00\x00\x04\x00\x00\x00a\x00\x00\x15\x03\x00\x00\x01\x00\x00\x00xyz",
    );
    plain(
        b"version 1 enumeration cut off in a name's padding",
        b"\x18\x01\x00\x00\x01\x00\x00\x00\x10\x00\x00\x00\x01\x00\x00\x00\x00\x00\x08\x00a\x00",
    );
}

// Names that do not fit the pool, and names that are mended.
pub fn name_cases() {
    reading(
        b"a name too long for the pool",
        b"\x36\x01\x00\x00\x04\x00\x00\x00abc\x00",
        15,
        64,
        2,
    );
    reading(
        b"a name too long, without NUL",
        &NAME_WITHOUT_NUL,
        15,
        64,
        2,
    );
    reading(
        b"an empty name fits a full pool",
        b"\x36\x01\x00\x00\x04\x00\x00\x00\x00\x00\x17\x00\x00\x00\x08\x00\x00\x00",
        15,
        64,
        0,
    );
    plain(
        b"an ill-formed name",
        b"\x36\x01\x00\x00\x08\x00\x00\x00a\xe2\x82\xf0b\xff\x00\x00\x17\x00\x00\x00\x08\x00\x00\x00",
    );
    reading(
        b"an ill-formed name that does not fit mended",
        b"\x36\x01\x00\x00\x08\x00\x00\x00\xff\x00\x00\x17\x00\x00\x00\x08\x00\x00\x00",
        15,
        64,
        2,
    );
}

// Tags, values and dimensions that do not fit the pool.
pub fn piece_cases() {
    plain(
        b"a tag is not mended",
        b"\x15\x01\x00\x00\x01\x00\x00\x00\xff",
    );
    reading(b"a tag too long for the pool", &TAG, 15, 64, 2);
    reading(
        b"a value too long for the pool",
        b"\x38\x01\x00\x00\x02\x00\x00\x00\x10\x00\x00\x00\x02\x00\x00\x00\x00\x00\x10\x00a\x00\x01\x02",
        15,
        64,
        2,
    );
    reading(b"dimensions too long for the pool", &TWO_R, 15, 64, 3);
}

// Sizes of 0, versions at the limit and above it, and codes.
pub fn size_and_version_cases() {
    reading(
        b"class 12 of version 15 at limit 14",
        &CLASS_12,
        14,
        64,
        256,
    );
    plain(b"class 12 of version 15 at limit 15", &CLASS_12);
    plain(
        b"class 11 of version 1 is read as version 3",
        b"\x1b\x01\x00\x00\x08\x00\x00\x00a\x00\x00\x17\x00\x00\x00\x08\x00\x00\x00",
    );
    reading(
        b"class 11 at limit 4, bearing 5",
        b"\x5b\x00\x00\x00\x08\x00\x00\x00",
        4,
        64,
        256,
    );
    plain(b"class 11 of size 0", b"\x3b\x00\x00\x00\x00\x00\x00\x00");
    plain(
        b"size 0 of a member before its compound's",
        b"\x36\x01\x00\x00\x00\x00\x00\x00a\x00\x00\x13\x00\x00\x00\x00\x00\x00\x00",
    );
    plain(
        b"a sequence's header size is not looked at",
        b"\x19\x00\x00\x00\x00\x00\x00\x00\x17\x00\x00\x00\x08\x00\x00\x00",
    );
    reading(
        b"a nested header above the limit",
        b"\x19\x00\x00\x00\x10\x00\x00\x00\x47\x00\x00\x00\x08\x00\x00\x00",
        3,
        64,
        256,
    );
    plain(b"array of version 1", b"\x1a\x00\x00\x00\x00\x00\x00\x00");
    plain(
        b"compound of version 5",
        b"\x56\x00\x00\x00\x04\x00\x00\x00",
    );
    plain(b"reference kind 2", b"\x17\x02\x00\x00\x08\x00\x00\x00");
    plain(
        b"padding 3 of a variable-length string",
        b"\x19\x31\x02\x00\x10\x00\x00\x00",
    );
    plain(
        b"charset 2 of a variable-length string",
        b"\x19\x21\x02\x00\x10\x00\x00\x00",
    );
}

// A type of each class.
pub fn class_cases() {
    plain(b"float", &FLOAT);
    plain(
        b"VAX float",
        b"\x11\x41\x1f\x00\x04\x00\x00\x00\x00\x00\x20\x00\x17\x08\x00\x17\x7f\x00\x00\x00",
    );
    plain(
        b"signed big-endian fixed",
        b"\x10\x09\x00\x00\x02\x00\x00\x00\x01\x00\x0f\x00",
    );
    plain(b"time", b"\x12\x01\x00\x00\x04\x00\x00\x00\x20\x00");
    plain(b"string", b"\x13\x12\x00\x00\x10\x00\x00\x00");
    plain(
        b"bit field",
        b"\x14\x01\x00\x00\x02\x00\x00\x00\x03\x00\x05\x00",
    );
    plain(b"enumeration", &ON_OFF);
    plain(
        b"variable-length string",
        b"\x19\x21\x01\x00\x10\x00\x00\x00\x10\x00\x00\x00\x01\x00\x00\x00\x00\x00\x08\x00",
    );
    plain(
        b"variable-length kind 2 is a sequence",
        b"\x19\x32\x05\x00\x10\x00\x00\x00\x10\x00\x00\x00\x01\x00\x00\x00\x00\x00\x08\x00",
    );
    plain(
        b"version 1 compound",
        b"\x16\x01\x00\x00\x04\x00\x00\x00name\x00\x00\x00\x00\x02\x00\x00\x00\x00\x00\x00\x00\x00\x00\x00\x00\x00\x00\x00\x00\x00\x00\x00\x00\x00\x00\x00\x00\x00\x00\x00\x00\x00\x00\x00\x00\x13\x00\x00\x00\x02\x00\x00\x00",
    );
    plain(
        b"version 2 array in a version 2 compound",
        b"\x26\x01\x00\x00\x04\x00\x00\x00n\x00\x00\x00\x00\x00\x00\x00\x00\x00\x00\x00\x2a\x00\x00\x00\x04\x00\x00\x00\x01\x00\x00\x00\x02\x00\x00\x00\x00\x00\x00\x00\x13\x00\x00\x00\x02\x00\x00\x00",
    );
    plain(
        b"version 4 compound of 256 bytes, an offset of 2 bytes",
        b"\x46\x01\x00\x00\x00\x01\x00\x00a\x00\x02\x01\x17\x00\x00\x00\x08\x00\x00\x00",
    );
    plain(
        b"version 3 compound of 65,536 bytes, an offset of 4 bytes",
        b"\x36\x01\x00\x00\x00\x00\x01\x00a\x00\x04\x03\x02\x01\x17\x00\x00\x00\x08\x00\x00\x00",
    );
}
