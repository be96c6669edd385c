// Document 02, N2: NUL-terminated names with leftovers after their end.
use show_comparison::comparing;

// An array of two names of 2 bytes.
const TWO_NAMES: [u8; 21] =
    *b"\x3a\x00\x00\x00\x00\x00\x00\x00\x01\x02\x00\x00\x00\x13\x00\x00\x00\x02\x00\x00\x00";

// An array of two records, each a name of 3 bytes and a U1.
const TWO_RECORDS: [u8; 47] =
    *b"\x3a\x00\x00\x00\x00\x00\x00\x00\x01\x02\x00\x00\x00\x36\x02\x00\x00\x04\x00\x00\x00\x6e\x00\x00\x13\x00\x00\x00\x03\x00\x00\x00\x76\x00\x03\x10\x00\x00\x00\x01\x00\x00\x00\x00\x00\x08\x00";

// A U1 and an array of two records, each an array of one name of 3 bytes and a byte that no field owns.
const RECORDS_IN_A_RECORD: [u8; 71] =
    *b"\x36\x02\x00\x00\x09\x00\x00\x00\x78\x00\x00\x10\x00\x00\x00\x01\x00\x00\x00\x00\x00\x08\x00\x73\x00\x01\x3a\x00\x00\x00\x00\x00\x00\x00\x01\x02\x00\x00\x00\x36\x01\x00\x00\x04\x00\x00\x00\x6e\x00\x00\x3a\x00\x00\x00\x00\x00\x00\x00\x01\x01\x00\x00\x00\x13\x00\x00\x00\x03\x00\x00\x00";

// A name of 4 bytes at 0, and one at 2.
const OVERLAPPING_NAMES: [u8; 30] =
    *b"\x36\x02\x00\x00\x06\x00\x00\x00\x61\x00\x00\x13\x00\x00\x00\x04\x00\x00\x00\x62\x00\x02\x13\x00\x00\x00\x04\x00\x00\x00";

// A name of 4 bytes at 0, and an array of two names of 2 bytes at 2.
const OVERLAPPING_ARRAY: [u8; 43] =
    *b"\x36\x02\x00\x00\x06\x00\x00\x00\x61\x00\x00\x13\x00\x00\x00\x04\x00\x00\x00\x62\x00\x02\x3a\x00\x00\x00\x00\x00\x00\x00\x01\x02\x00\x00\x00\x13\x00\x00\x00\x02\x00\x00\x00";

// A name of 4 bytes, and a U1 at 3.
const NUMBER_IN_A_NAME: [u8; 34] =
    *b"\x36\x02\x00\x00\x04\x00\x00\x00\x61\x00\x00\x13\x00\x00\x00\x04\x00\x00\x00\x62\x00\x03\x10\x00\x00\x00\x01\x00\x00\x00\x00\x00\x08\x00";

// A name of 2 bytes.
const NAME_OF_2: [u8; 8] = *b"\x13\x00\x00\x00\x02\x00\x00\x00";

// A name of 4 bytes.
const NAME_OF_4: [u8; 8] = *b"\x13\x00\x00\x00\x04\x00\x00\x00";

// A name of 1 byte.
const NAME_OF_1: [u8; 8] = *b"\x13\x00\x00\x00\x01\x00\x00\x00";

// Entries of an array of names, each by itself.
pub fn array_cases() {
    comparing(
        b"names of an array, after a NUL",
        &TWO_NAMES,
        b"\x00\x58\x62\x00",
        b"\x00\x59\x62\x00",
    );
    comparing(
        b"names of an array, the second",
        &TWO_NAMES,
        b"\x00\x58\x62\x00",
        b"\x00\x58\x63\x00",
    );
    comparing(
        b"records in an array, leftovers",
        &TWO_RECORDS,
        b"\x41\x00\x55\x01\x42\x00\x66\x02",
        b"\x41\x00\x77\x01\x42\x00\x88\x02",
    );
    comparing(
        b"records in an array, a number behind leftovers",
        &TWO_RECORDS,
        b"\x41\x00\x55\x01\x42\x00\x66\x02",
        b"\x41\x00\x55\x01\x42\x00\x66\x03",
    );
    comparing(
        b"records in an array in a record, leftovers and gaps",
        &RECORDS_IN_A_RECORD,
        b"\x07\x41\x00\x55\x01\x42\x00\x66\x02",
        b"\x07\x41\x00\x77\x08\x42\x00\x88\x09",
    );
    comparing(
        b"records in an array in a record, the second name",
        &RECORDS_IN_A_RECORD,
        b"\x07\x41\x00\x55\x01\x42\x00\x66\x02",
        b"\x07\x41\x00\x55\x01\x43\x00\x66\x02",
    );
}

// Names that share bytes: a byte counts if one of them is not past its end there.
pub fn two_names_cases() {
    comparing(
        b"two names overlap, both past their end",
        &OVERLAPPING_NAMES,
        b"\x41\x00\x42\x00\x55\x66",
        b"\x41\x00\x42\x00\x77\x88",
    );
    comparing(
        b"two names overlap, the second counts",
        &OVERLAPPING_NAMES,
        b"\x41\x00\x42\x43\x55\x66",
        b"\x41\x00\x42\x44\x55\x66",
    );
    comparing(
        b"two names overlap, the second empty",
        &OVERLAPPING_NAMES,
        b"\x41\x00\x00\x43\x55\x66",
        b"\x41\x00\x00\x99\x98\x97",
    );
    comparing(
        b"a name and names of an array overlap, both past their end",
        &OVERLAPPING_ARRAY,
        b"\x41\x00\x00\x58\x62\x00",
        b"\x41\x00\x00\x59\x62\x00",
    );
    comparing(
        b"a name and names of an array overlap, an entry counts",
        &OVERLAPPING_ARRAY,
        b"\x41\x00\x42\x58\x62\x00",
        b"\x41\x00\x42\x59\x62\x00",
    );
    comparing(
        b"a name and names of an array overlap, the name counts",
        &OVERLAPPING_ARRAY,
        b"\x41\x42\x43\x58\x62\x00",
        b"\x41\x42\x43\x59\x62\x00",
    );
}

// What counts whole: a number in a name, an enumeration over a string, other padding.
pub fn whole_cases() {
    comparing(
        b"a number overlaps a name, leftovers",
        &NUMBER_IN_A_NAME,
        b"\x41\x00\x42\x01",
        b"\x41\x00\x43\x01",
    );
    comparing(
        b"a number overlaps a name, the number",
        &NUMBER_IN_A_NAME,
        b"\x41\x00\x42\x01",
        b"\x41\x00\x43\x02",
    );
    comparing(
        b"an enumeration over a name",
        b"\x38\x00\x00\x00\x04\x00\x00\x00\x13\x00\x00\x00\x04\x00\x00\x00",
        b"\x41\x00\x42\x01",
        b"\x41\x00\x43\x01",
    );
    comparing(
        b"an array of enumerations over a name",
        b"\x3a\x00\x00\x00\x00\x00\x00\x00\x01\x02\x00\x00\x00\x38\x00\x00\x00\x02\x00\x00\x00\x13\x00\x00\x00\x02\x00\x00\x00",
        b"\x00\x42\x41\x00",
        b"\x00\x43\x41\x00",
    );
    comparing(
        b"a NUL-padded name",
        b"\x13\x01\x00\x00\x04\x00\x00\x00",
        b"\x41\x00\x42\x01",
        b"\x41\x00\x43\x01",
    );
    comparing(
        b"a space-padded name",
        b"\x13\x02\x00\x00\x04\x00\x00\x00",
        b"\x41\x00\x42\x01",
        b"\x41\x00\x43\x01",
    );
    comparing(
        b"an array of NUL-padded names",
        b"\x3a\x00\x00\x00\x00\x00\x00\x00\x01\x02\x00\x00\x00\x13\x01\x00\x00\x02\x00\x00\x00",
        b"\x00\x58\x62\x00",
        b"\x00\x59\x62\x00",
    );
}

// Where a name ends.
pub fn end_cases() {
    comparing(b"names without a NUL", &NAME_OF_2, b"\x41\x42", b"\x41\x43");
    comparing(
        b"a name without a NUL, and one with",
        &NAME_OF_2,
        b"\x41\x42",
        b"\x41\x00",
    );
    comparing(
        b"an empty name",
        &NAME_OF_4,
        b"\x00\x42\x43\x44",
        b"\x00\x00\x00\x00",
    );
    comparing(
        b"a name that ends, and goes on in the other record",
        &NAME_OF_4,
        b"\x41\x00\x42\x43",
        b"\x41\x42\x00\x43",
    );
    comparing(b"names of one byte", &NAME_OF_1, b"\x41", b"\x42");
    comparing(
        b"a name of one byte, and none",
        &NAME_OF_1,
        b"\x00",
        b"\x41",
    );
    comparing(
        b"a UTF-8 name",
        b"\x13\x10\x00\x00\x05\x00\x00\x00",
        b"\xc3\xa9\x00\x42\x43",
        b"\xc3\xa9\x00\x44\x45",
    );
}
