// Listings of types. U1, R and P are document 01's.
use listing::list_fields;
use record_types::{P, SQUARE_OF_U1, U1, WIDE_ENUMERATION, put_sequences, with_type};
use refusal::Refusal;
use show::{answer_line, out, shown_text, text};
use show_lent::lent_line;

fn listing_lines(answer: Result<usize, Refusal>, out: &[u8]) {
    answer_line(answer, |n| {
        out!("{n} bytes\n");
        shown_text(out, n);
    });
    lent_line(out, answer.unwrap_or(0));
}

fn list_and_show(table: &[u32], pool: &[u8], out: &mut [u8]) {
    let answer = list_fields(table, pool, out);
    listing_lines(answer, out);
}

// The listing of the type of a message, into so many bytes, at most 1,024.
fn listed(label: &[u8], message: &[u8], room: usize) {
    if room > 1024 {
        return;
    }
    with_type(label, message, |table, pool| {
        let mut out = [7u8; 1024];
        list_and_show(table, pool, &mut out[..room]);
    });
}

// The lines of whole types.
pub fn type_cases() {
    listed(b"P", &P, 1024);
    listed(
        b"an empty name and an ill-formed one",
        b"\x36\x02\x00\x00\x02\x00\x00\x00\x00\x00\x10\x00\x00\x00\x01\x00\x00\x00\x00\x00\x08\x00\x61\xff\x00\x01\x10\x00\x00\x00\x01\x00\x00\x00\x00\x00\x08\x00",
        1024,
    );
    listed(
        b"an enumeration over U1 with one member",
        &WIDE_ENUMERATION,
        1024,
    );
    listed(
        b"a member that is an array of two sequences of U1",
        b"\x36\x01\x00\x00\x28\x00\x00\x00\x61\x00\x08\x3a\x00\x00\x00\x00\x00\x00\x00\x01\x02\x00\x00\x00\x19\x00\x00\x00\x10\x00\x00\x00\x10\x00\x00\x00\x01\x00\x00\x00\x00\x00\x08\x00",
        1024,
    );
    listed(b"dimensions 65536 and 65536 over U1", &SQUARE_OF_U1, 1024);
}

// 31 sequences round R: 32 levels.
pub fn depth_case() {
    let mut message = [0u8; 256];
    put_sequences(&mut message);
    message[248] = 0x17;
    message[252] = 8;
    listed(b"31 sequences round R", &message, 1024);
}

// Enough room, a byte less, and a table that sets out no type.
pub fn refused_cases() {
    listed(b"U1 in 39 bytes", &U1, 39);
    listed(b"U1 in 38 bytes", &U1, 38);
    let table = [0u32; 16];
    let mut out = [7u8; 64];
    text(b"no type: ");
    list_and_show(&table, b"", &mut out);
}
