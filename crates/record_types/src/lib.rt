// For the programs that run cases: messages of types that several cases are about, and a type read behind the label of a case.
#![tactic(auto)]

use show::{refusal_line, text};

// Document 01's U1: a fixed type of a byte.
pub const U1: [u8; 12] = *b"\x10\x00\x00\x00\x01\x00\x00\x00\x00\x00\x08\x00";

// Document 01's R: an object reference of 8 bytes.
pub const R: [u8; 8] = *b"\x17\x00\x00\x00\x08\x00\x00\x00";

// An array of two R.
pub const TWO_R: [u8; 21] =
    *b"\x3a\x00\x00\x00\x00\x00\x00\x00\x01\x02\x00\x00\x00\x17\x00\x00\x00\x08\x00\x00\x00";

// A region reference of 12 bytes.
pub const REGION: [u8; 8] = *b"\x17\x01\x00\x00\x0c\x00\x00\x00";

// A float of 4 bytes, as IEEE 754 has it.
pub const FLOAT: [u8; 20] =
    *b"\x11\x20\x1f\x00\x04\x00\x00\x00\x00\x00\x20\x00\x17\x08\x00\x17\x7f\x00\x00\x00";

// Document 01's P: a U1, a byte that no field owns, and a fixed type of 2 bytes.
pub const P: [u8; 38] =
    *b"\x36\x02\x00\x00\x04\x00\x00\x00\x61\x00\x00\x10\x00\x00\x00\x01\x00\x00\x00\x00\x00\x08\x00\x62\x00\x02\x10\x00\x00\x00\x02\x00\x00\x00\x00\x00\x10\x00";

// A NUL-terminated string of 3 bytes and a U1.
pub const NAME: [u8; 34] =
    *b"\x36\x02\x00\x00\x04\x00\x00\x00\x61\x00\x00\x13\x00\x00\x00\x03\x00\x00\x00\x62\x00\x03\x10\x00\x00\x00\x01\x00\x00\x00\x00\x00\x08\x00";

// A compound of 4 bytes without members.
pub const NO_MEMBER: [u8; 8] = *b"\x36\x00\x00\x00\x04\x00\x00\x00";

// A compound of 4 bytes with a member of 8.
pub const OUTSIDE: [u8; 19] =
    *b"\x36\x01\x00\x00\x04\x00\x00\x00\x61\x00\x00\x17\x00\x00\x00\x08\x00\x00\x00";

// A sequence of U1, which has 16 bytes in a record.
pub const SEQUENCE: [u8; 20] =
    *b"\x19\x00\x00\x00\x10\x00\x00\x00\x10\x00\x00\x00\x01\x00\x00\x00\x00\x00\x08\x00";

// An array of no U1.
pub const NO_U1: [u8; 25] =
    *b"\x3a\x00\x00\x00\x00\x00\x00\x00\x01\x00\x00\x00\x00\x10\x00\x00\x00\x01\x00\x00\x00\x00\x00\x08\x00";

// An array of 65,536 times 65,536 U1.
pub const SQUARE_OF_U1: [u8; 29] =
    *b"\x3a\x00\x00\x00\x00\x00\x00\x00\x02\x00\x00\x01\x00\x00\x00\x01\x00\x10\x00\x00\x00\x01\x00\x00\x00\x00\x00\x08\x00";

// An enumeration over U1: on is 1, off is 2.
pub const ON_OFF: [u8; 29] =
    *b"\x38\x02\x00\x00\x01\x00\x00\x00\x10\x00\x00\x00\x01\x00\x00\x00\x00\x00\x08\x00on\x00off\x00\x01\x02";

// An enumeration of 2 bytes over U1: a is 5.
pub const WIDE_ENUMERATION: [u8; 23] =
    *b"\x38\x01\x00\x00\x02\x00\x00\x00\x10\x00\x00\x00\x01\x00\x00\x00\x00\x00\x08\x00\x61\x00\x05";

// Makes each 8 bytes the header of a sequence.
pub fn put_sequences(headers: &mut [u8]) {
    for header in headers.chunks_exact_mut(8) {
        header[0] = 0x19;
        header[4] = 16;
    }
}

// Reads the type of a message at limit 15 into 64 rows and 256 pool bytes, all 7 before, and calls `then` with both; where the message is refused,
// writes the refusal.
pub fn with_read<F: FnOnce(&mut [u32], &mut [u8])>(message: &[u8], then: F)
    requires { F.IsAlwaysCallable then }
{
    let mut table = [7u32; 1024];
    let mut pool = [7u8; 256];
    match reader::read(message, 15, &mut table, &mut pool) {
        Err(e) => refusal_line(e),
        Ok(_) => then(&mut table, &mut pool),
    }
}

// Writes the label, and reads the type of a message as `with_read` does.
pub fn with_type<F: FnOnce(&mut [u32], &mut [u8])>(label: &[u8], message: &[u8], then: F)
    requires { F.IsAlwaysCallable then }
{
    text(label);
    text(b": ");
    with_read(message, then);
}

// Calls `then` with the messages of two types whose records are not compared, and with a record of zeros of each; each behind its label.
pub fn with_refused_types<F: Fn(&[u8], &[u8], &[u8])>(then: F)
    requires { F.IsAlwaysCallable then }
{
    then(
        b"a member past the end of its compound",
        &OUTSIDE,
        &[0u8; 4],
    );
    then(b"a sequence", &SEQUENCE, &[0u8; 16]);
}

// Calls `then` with a table that sets out no type, and with one of a fixed type of size 0, which no message gives; each behind its label.
pub fn with_bad_tables<F: Fn(&[u8], &[u32], &[u8])>(then: F)
    requires { F.IsAlwaysCallable then }
{
    let mut table = [0u32; 16];
    let pool = [0u8; 8];
    then(b"no type", &table, &pool);
    table[0] = 1;
    then(b"a fixed type of size 0", &table, &pool);
}
