// Document 01's cases of sizes, slots and references, members' names, and one for each refusal of them. U1, R and P are document 01's.
use crate::calls::{first_byte, names, references, sizes, slots};
use record_types::{ON_OFF, OUTSIDE, P, R, REGION, SQUARE_OF_U1, TWO_R, U1};

// Types with slots and without, and immense arrays.
pub fn slot_cases() {
    slots(b"array of two R", &TWO_R);
    slots(b"R", &R);
    slots(b"U1", &U1);
    slots(
        b"array of five R",
        b"\x3a\x00\x00\x00\x00\x00\x00\x00\x01\x05\x00\x00\x00\x17\x00\x00\x00\x08\x00\x00\x00",
    );
    slots(
        b"array of 536,870,911 R",
        b"\x3a\x00\x00\x00\x00\x00\x00\x00\x01\xff\xff\xff\x1f\x17\x00\x00\x00\x08\x00\x00\x00",
    );
    slots(
        b"dimensions 65536 and 65536 over R",
        b"\x3a\x00\x00\x00\x00\x00\x00\x00\x02\x00\x00\x01\x00\x00\x00\x01\x00\x17\x00\x00\x00\x08\x00\x00\x00",
    );
    slots(
        b"array of 4,294,967,295 U1",
        b"\x3a\x00\x00\x00\x00\x00\x00\x00\x01\xff\xff\xff\xff\x10\x00\x00\x00\x01\x00\x00\x00\x00\x00\x08\x00",
    );
}

// References that are no slots, and a member past the end of its compound.
pub fn unmapped_cases() {
    slots(b"a region reference", &REGION);
    slots(
        b"a sequence of R",
        b"\x19\x00\x00\x00\x10\x00\x00\x00\x17\x00\x00\x00\x08\x00\x00\x00",
    );
    slots(
        b"an enumeration over R",
        b"\x38\x00\x00\x00\x08\x00\x00\x00\x17\x00\x00\x00\x08\x00\x00\x00",
    );
    slots(
        b"a member at 8 that is R",
        b"\x36\x01\x00\x00\x10\x00\x00\x00\x61\x00\x08\x17\x00\x00\x00\x08\x00\x00\x00",
    );
    slots(b"a member past the end of its compound", &OUTSIDE);
}

// References of blocks of records.
pub fn reference_cases() {
    references(
        b"a record of two R and a remainder",
        b"\x01\x00\x00\x00\x00\x00\x00\x00\x00\x01\x00\x00\x00\x00\x00\x00\x05\x00\x00\x00\x00\x00\x00\x00",
        16,
        &[0, 8],
    );
    references(
        b"two records of R",
        b"\x01\x00\x00\x00\x00\x00\x00\x00\x02\x00\x00\x00\x00\x00\x00\x00",
        8,
        &[0],
    );
    references(
        b"a slot past its record",
        b"\x01\x00\x00\x00\x00\x00\x00\x00",
        8,
        &[1],
    );
    references(
        b"five records of R",
        b"\x01\x00\x00\x00\x00\x00\x00\x00\x00\x00\x00\x00\x00\x00\x00\x00\x00\x00\x00\x00\x00\x00\x00\x00\x00\x00\x00\x00\x00\x00\x00\x00\x00\x00\x00\x00\x00\x00\x00\x00",
        8,
        &[0],
    );
    references(
        b"record size 0",
        b"\x01\x00\x00\x00\x00\x00\x00\x00",
        0,
        &[],
    );
}

// Sizes and address predicates.
pub fn size_cases() {
    sizes(b"P", &P);
    sizes(b"array of two R", &TWO_R);
    sizes(b"dimensions 65536 and 65536 over U1", &SQUARE_OF_U1);
    sizes(
        b"a sequence of U1",
        b"\x19\x00\x00\x00\x00\x00\x00\x00\x10\x00\x00\x00\x01\x00\x00\x00\x00\x00\x08\x00",
    );
    sizes(b"a region reference", &REGION);
    first_byte(b"class 5", 0x15);
    first_byte(b"class 6", 0x16);
    first_byte(b"class 10", 0x3a);
    first_byte(b"class 11", 0x1b);
}

// Names of members: of a compound, and of an enumeration.
pub fn name_cases() {
    names(b"names of P", &P);
    names(b"names of an enumeration over U1", &ON_OFF);
}
