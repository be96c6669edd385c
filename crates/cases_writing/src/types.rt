// Document 01's cases of writing, and one for each refusal of it. U1 and P are document 01's.
use crate::calls::{
    bad_table, writing, writing_array, writing_changed, writing_tag, written_and_read,
};
use record_types::{FLOAT, P, SEQUENCE, TWO_R, U1};

// P in each edition, and in two that there are not.
pub fn editions_of_p() {
    writing(b"P in edition 3", &P, 3);
    writing(b"P in edition 2", &P, 2);
    writing(b"P in edition 1", &P, 1);
    writing(b"P in edition 0", &P, 0);
    writing(b"P in edition 4", &P, 4);
}

// An array of two R in each edition.
pub fn editions_of_an_array() {
    writing(b"array of two R in edition 3", &TWO_R, 3);
    writing(b"array of two R in edition 2", &TWO_R, 2);
    writing(b"array of two R in edition 1", &TWO_R, 1);
}

// P written, then read under a limit.
pub fn p_read_back() {
    written_and_read(b"P in edition 3 at limit 3", &P, 3, 3);
    written_and_read(b"P in edition 3 at limit 2", &P, 3, 2);
    written_and_read(b"P in edition 2 at limit 2", &P, 2, 2);
    written_and_read(b"P in edition 2 at limit 1", &P, 2, 1);
    written_and_read(b"P in edition 1 at limit 1", &P, 1, 1);
    written_and_read(b"P in edition 1 at limit 0", &P, 1, 0);
    written_and_read(b"P in edition 4 at limit 15", &P, 4, 15);
}

// An array of two R written, then read under a limit.
pub fn array_read_back() {
    written_and_read(b"array of two R in edition 3 at limit 15", &TWO_R, 3, 15);
    written_and_read(b"array of two R in edition 2 at limit 1", &TWO_R, 2, 1);
    written_and_read(b"array of two R in edition 1 at limit 1", &TWO_R, 1, 1);
}

// Sizes, names and an offset that cannot be stored.
pub fn sizes_and_names() {
    writing_changed(b"a size of 0", &U1, 1, 0, 256, 0);
    writing_changed(b"a member name that holds NUL", &P, 1024, 0, 0, 0);
    writing_changed(b"a member name that is not UTF-8", &P, 1024, 0, 0, 255);
    writing_changed(b"an offset past its width", &P, 17, 256, 256, 0);
    writing_changed(
        b"a float size past 536,870,911",
        &FLOAT,
        1,
        536870912,
        256,
        0,
    );
}

// Orders, padding and charset, and a table whose pool has a byte behind its tag.
pub fn orders_and_codes() {
    writing_changed(b"VAX order in a fixed type", &U1, 5, 2, 256, 0);
    writing_changed(b"VAX order in a float", &FLOAT, 5, 2, 256, 0);
    writing_changed(b"padding in a sequence", &SEQUENCE, 6, 1, 256, 0);
    writing_changed(
        b"no charset in a string",
        b"\x19\x01\x00\x00\x10\x00\x00\x00\x10\x00\x00\x00\x01\x00\x00\x00\x00\x00\x08\x00",
        7,
        0,
        256,
        0,
    );
    writing_changed(
        b"a tag as long as its row says, with a byte behind it",
        b"\x15\x03\x00\x00\x05\x00\x00\x00\x61\x62\x63\x00\x00\x00\x00\x00",
        3,
        2,
        256,
        0,
    );
}

// Numbers past their bits, a value shorter than its base, and a table with an unused word that is not 0.
pub fn numbers_past_their_bits() {
    writing_changed(b"a bit offset past 65,535", &U1, 7, 65536, 256, 0);
    writing_changed(
        b"a precision past 65,535",
        b"\x12\x00\x00\x00\x04\x00\x00\x00\x20\x00",
        8,
        65536,
        256,
        0,
    );
    writing_changed(b"an exponent place past 255", &FLOAT, 9, 256, 256, 0);
    writing_changed(
        b"an enumeration value shorter than the base",
        b"\x38\x01\x00\x00\x01\x00\x00\x00\x10\x00\x00\x00\x01\x00\x00\x00\x00\x00\x08\x00\x61\x00\x05",
        17,
        2,
        256,
        0,
    );
    writing_changed(b"an unused word that is not 0", &U1, 15, 1, 256, 0);
}

// Tags and ranks at 255 and past it, and a table that sets out no type.
pub fn tag_and_rank_cases() {
    let short_tag = [1u8; 255];
    let tag = [1u8; 256];
    let short_dimensions = [1u8; 1020];
    let dimensions = [1u8; 1024];
    writing_tag(b"a tag of 255 bytes", 255, &short_tag);
    writing_tag(b"a tag of 256 bytes", 256, &tag);
    writing_array(b"an array of 255 dimensions", 255, &short_dimensions);
    writing_array(b"an array of 256 dimensions", 256, &dimensions);
    bad_table();
}
