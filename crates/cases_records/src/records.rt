// Document 01's cases of comparing, and one for each refusal of it. P is document 01's.
use record_types::{NO_U1, OUTSIDE, P, REGION, SEQUENCE, WIDE_ENUMERATION};
use show_comparison::comparing;

// Two members of 2 bytes, at 0 and at 1 of 4.
const OVERLAPPING: [u8; 38] =
    *b"\x36\x02\x00\x00\x04\x00\x00\x00\x61\x00\x00\x10\x00\x00\x00\x02\x00\x00\x00\x00\x00\x10\x00\x62\x00\x01\x10\x00\x00\x00\x02\x00\x00\x00\x00\x00\x10\x00";

// An array of two P.
const TWO_OF_P: [u8; 55] =
    *b"\x3a\x00\x00\x00\x00\x00\x00\x00\x02\x02\x00\x00\x00\x01\x00\x00\x00\x36\x02\x00\x00\x04\x00\x00\x00\x61\x00\x00\x10\x00\x00\x00\x01\x00\x00\x00\x00\x00\x08\x00\x62\x00\x02\x10\x00\x00\x00\x02\x00\x00\x00\x00\x00\x10\x00";

// Records of P.
pub fn gap_cases() {
    comparing(
        b"records of P that differ in the gap",
        &P,
        b"\x01\xff\x05\x00",
        b"\x01\x00\x05\x00",
    );
    comparing(
        b"records of P that differ in a",
        &P,
        b"\x02\x00\x05\x00",
        b"\x01\x00\x05\x00",
    );
    comparing(
        b"records of P that differ in the last byte",
        &P,
        b"\x01\x00\x05\x00",
        b"\x01\x00\x05\x01",
    );
}

// Members that overlap, and arrays of compounds.
pub fn overlap_cases() {
    comparing(
        b"overlapping members, a byte that only the second owns",
        &OVERLAPPING,
        b"\x01\x02\x03\x04",
        b"\x01\x02\x04\x04",
    );
    comparing(
        b"overlapping members, a byte that none owns",
        &OVERLAPPING,
        b"\x01\x02\x03\x04",
        b"\x01\x02\x03\x05",
    );
    comparing(
        b"array of P, gaps",
        &TWO_OF_P,
        b"\x01\xff\x05\x00\x01\xfe\x05\x00",
        b"\x01\x00\x05\x00\x01\x00\x05\x00",
    );
    comparing(
        b"array of P, second entry",
        &TWO_OF_P,
        b"\x01\x00\x05\x00\x01\x00\x05\x00",
        b"\x01\x00\x05\x00\x01\x00\x06\x00",
    );
}

// An enumeration counts over its own size; a compound without members owns nothing.
pub fn enumeration_cases() {
    comparing(
        b"an enumeration wider than its base",
        &WIDE_ENUMERATION,
        b"\x05\x00",
        b"\x05\x01",
    );
    comparing(
        b"a compound without members",
        b"\x36\x00\x00\x00\x03\x00\x00\x00",
        b"\x01\x02\x03",
        b"\x04\x05\x06",
    );
    comparing(b"array with dimension 0", &NO_U1, b"", b"");
}

// Types and records that are not compared.
pub fn refused_cases() {
    comparing(
        b"a sequence",
        &SEQUENCE,
        b"\x00\x00\x00\x00\x00\x00\x00\x00\x00\x00\x00\x00\x00\x00\x00\x00",
        b"\x00\x00\x00\x00\x00\x00\x00\x00\x00\x00\x00\x00\x00\x00\x00\x00",
    );
    comparing(
        b"a region reference",
        &REGION,
        b"\x00\x00\x00\x00\x00\x00\x00\x00\x00\x00\x00\x00",
        b"\x00\x00\x00\x00\x00\x00\x00\x00\x00\x00\x00\x00",
    );
    comparing(
        b"records of 3 and 4 bytes",
        &P,
        b"\x01\x00\x05",
        b"\x01\x00\x05\x00",
    );
    comparing(
        b"records of 4 and 5 bytes",
        &P,
        b"\x01\x00\x05\x00",
        b"\x01\x00\x05\x00\x00",
    );
    comparing(
        b"a member past the end of its compound",
        &OUTSIDE,
        b"\x00\x00\x00\x00",
        b"\x00\x00\x00\x00",
    );
}
