// Document 02's cases of records that are the same as an earlier one.
use crate::calls::{grouping, words};
use record_types::{NAME, NO_MEMBER, P, with_refused_types};

// Six records of P, of three kinds.
pub const SIX_OF_P: [u8; 24] =
    *b"\x01\xff\x05\x00\x02\x00\x05\x00\x01\x00\x05\x00\x01\x11\x05\x00\x02\x77\x05\x00\x01\x00\x05\x01";

// Records that differ in what no field owns, with more room than is needed.
pub fn group_cases() {
    grouping(b"six of P", &P, &SIX_OF_P, 7, 4, 22);
    grouping(
        b"five with a name",
        &NAME,
        b"A\x00\x55\x01A\x00\x00\x01A\x00\x66\x02ABC\x01A\x00\x77\x02",
        6,
        4,
        21,
    );
    grouping(
        b"three of a compound without members",
        &NO_MEMBER,
        b"\x00\x01\x02\x03\x04\x05\x06\x07\x08\x09\x0a\x0b",
        4,
        2,
        11,
    );
}

fn six_of_p(label: &[u8], places: usize, groups: usize) {
    grouping(label, &P, &SIX_OF_P, places, groups, 22);
}

// Too little room for the numbers, for the sizes, and just enough.
pub fn room_cases() {
    six_of_p(b"room for 5 numbers and no size", 5, 0);
    six_of_p(b"room for 6 numbers and 2 sizes", 6, 2);
    six_of_p(b"room for 6 numbers and 3 sizes", 6, 3);
}

fn six_and_a_byte(label: &[u8], places: usize, groups: usize) {
    grouping(
        label,
        &P,
        b"\x01\xff\x05\x00\x02\x00\x05\x00\x01\x00\x05\x00\x01\x11\x05\x00\x02\x77\x05\x00\x01\x00\x05\x01\x01",
        places,
        groups,
        22,
    );
}

// No record, and blocks that are no whole number of records.
pub fn length_cases() {
    grouping(b"an empty block and no room", &P, b"", 0, 0, 0);
    grouping(b"an empty block", &P, b"", 1, 1, 3);
    grouping(b"a byte and no room", &P, b"\x01", 0, 0, 3);
    six_and_a_byte(b"a byte more than six of P", 7, 4);
    six_and_a_byte(b"a byte more and no room", 0, 0);
}

// One record.
pub fn single_cases() {
    grouping(b"one of P", &P, b"\x01\xff\x05\x00", 2, 2, 7);
    grouping(b"one of P and no room", &P, b"\x01\xff\x05\x00", 0, 0, 7);
    grouping(b"one with a name", &NAME, b"A\x00\x55\x01", 2, 2, 9);
    grouping(
        b"one of a compound without members",
        &NO_MEMBER,
        b"\x00\x01\x02\x03",
        2,
        2,
        5,
    );
}

// Words of workspace: 3 a record and 2 a run. P has two runs; the type with a name has three, since the empty run that each list of runs begins with
// is not joined to a string.
pub fn word_cases() {
    words(b"words for six of P", &P, 6);
    words(
        b"words for 18,446,744,073,709,551,615 of P",
        &P,
        18446744073709551615,
    );
    words(b"words for five with a name", &NAME, 5);
}

fn refused(label: &[u8], message: &[u8], block: &[u8]) {
    grouping(label, message, block, 1, 1, 3);
    words(b"  words", message, 1);
}

// Types whose records are not compared.
pub fn refused_cases() {
    with_refused_types(|label, message, block| refused(label, message, block));
}
