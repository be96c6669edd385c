// Document 02's cases of two blocks made one. A and B are of document 01's P: A's first two records are the same, and so are B's last two, and
// A's last and B's first.
use crate::calls::joining;
use record_types::{NAME, NO_MEMBER, P, with_refused_types};

pub const A: [u8; 12] = *b"\x01\xff\x05\x00\x01\x00\x05\x00\x02\x00\x05\x00";

pub const B: [u8; 12] = *b"\x02\x99\x05\x00\x03\x00\x00\x00\x03\x01\x00\x00";

const A_AND_A_BYTE: [u8; 13] = *b"\x01\xff\x05\x00\x01\x00\x05\x00\x02\x00\x05\x00\x01";

const B_AND_A_BYTE: [u8; 13] = *b"\x02\x99\x05\x00\x03\x00\x00\x00\x03\x01\x00\x00\x01";

// Just enough room, room to spare and room for both blocks; the other way round; and a block with itself.
pub fn joined_cases() {
    joining(b"A and B, room for 12", &P, &A, &B, 12, 22);
    joining(b"A and B, room for 16", &P, &A, &B, 16, 22);
    joining(b"A and B, room for 24", &P, &A, &B, 24, 22);
    joining(b"B and A, room for 12", &P, &B, &A, 12, 22);
    joining(b"A and A, room for 12", &P, &A, &A, 12, 22);
}

// Too little room.
pub fn room_cases() {
    joining(b"A and B, room for 11", &P, &A, &B, 11, 22);
    joining(b"A and B, no room", &P, &A, &B, 0, 22);
}

// No records in one block or in both.
pub fn empty_cases() {
    joining(b"two empty blocks, no room", &P, b"", b"", 0, 0);
    joining(b"two empty blocks, room for 4", &P, b"", b"", 4, 3);
    joining(b"A and an empty block, room for 8", &P, &A, b"", 8, 13);
    joining(b"an empty block and B, room for 8", &P, b"", &B, 8, 13);
    joining(b"an empty block and B, room for 7", &P, b"", &B, 7, 13);
}

// Blocks that are no whole number of records. In the last case the bytes of both make whole records.
pub fn length_cases() {
    joining(b"A and B, a byte more in B", &P, &A, &B_AND_A_BYTE, 24, 22);
    joining(
        b"A and B, a byte more in B, no room",
        &P,
        &A,
        &B_AND_A_BYTE,
        0,
        22,
    );
    joining(b"A and B, a byte more in A", &P, &A_AND_A_BYTE, &B, 24, 22);
    joining(
        b"A and B, a byte more in A, no room",
        &P,
        &A_AND_A_BYTE,
        &B,
        0,
        22,
    );
    joining(
        b"A and B, a byte more in both",
        &P,
        &A_AND_A_BYTE,
        &B_AND_A_BYTE,
        24,
        22,
    );
    joining(
        b"A and B, a byte less in A and one more in B",
        &P,
        &A[..11],
        &B_AND_A_BYTE,
        24,
        22,
    );
}

// Records that differ in what stands behind a name's NUL, both ways round; and records that own nothing.
pub fn name_cases() {
    joining(
        b"two and three with a name",
        &NAME,
        b"A\x00\x55\x01A\x00\x00\x02",
        b"A\x00\x66\x02ABC\x01A\x00\x77\x01",
        13,
        21,
    );
    joining(
        b"three and two with a name",
        &NAME,
        b"A\x00\x66\x02ABC\x01A\x00\x77\x01",
        b"A\x00\x55\x01A\x00\x00\x02",
        13,
        21,
    );
    joining(
        b"two and one of a compound without members",
        &NO_MEMBER,
        b"\x01\x02\x03\x04\x05\x06\x07\x08",
        b"\x09\x0a\x0b\x0c",
        5,
        11,
    );
}

// A type whose records are not compared: blocks of a byte, and whole records with no room.
fn refused(label: &[u8], message: &[u8], record: &[u8]) {
    joining(label, message, b"\x01", b"\x01", 1, 3);
    joining(b"  a record and no room", message, record, record, 0, 3);
}

pub fn refused_cases() {
    with_refused_types(|label, message, record| refused(label, message, record));
}
