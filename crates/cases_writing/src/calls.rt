// The calls on a type that is read first, at limit 15, into 64 rows and 256 pool bytes; and what each gives.
use record_types::with_type;
use refusal::Refusal;
use show::{answer_line, out, refusal_line, shown_bytes, text};
use show_lent::lent_line;

fn written_line(answer: Result<usize, Refusal>, out: &[u8]) {
    answer_line(answer, |n| {
        out!("written {n} ");
        shown_bytes(out, n);
        out!("\n");
    });
    lent_line(out, answer.unwrap_or(0));
}

fn write_and_show(table: &[u32], pool: &[u8], edition: u32, out: &mut [u8]) {
    let answer = writer::write(table, pool, edition, out);
    written_line(answer, out);
}

// Writes the type of a message in an edition, into 160 bytes.
pub fn writing(label: &[u8], message: &[u8], edition: u32) {
    with_type(label, message, |table, pool| {
        let mut out = [7u8; 160];
        write_and_show(table, pool, edition, &mut out);
    });
}

// Changes an element, if there is one at that place.
fn set<T: Copy>(list: &mut [T], place: usize, value: T) {
    if place < list.len() {
        list[place] = value;
    }
}

// The same in edition 3, after a word of the table and a byte of the pool are changed.
pub fn writing_changed(
    label: &[u8],
    message: &[u8],
    word: usize,
    value: u32,
    place: usize,
    byte: u8,
) {
    with_type(label, message, |table, pool| {
        let mut out = [7u8; 160];
        set(table, word, value);
        set(pool, place, byte);
        write_and_show(table, pool, 3, &mut out);
    });
}

// Writes an opaque type whose tag is a whole pool.
pub fn writing_tag(label: &[u8], length: u32, pool: &[u8]) {
    let mut table = [0u32; 16];
    let mut out = [7u8; 160];
    table[0] = 6;
    table[1] = 1;
    table[3] = length;
    text(label);
    text(b": ");
    write_and_show(&table, pool, 3, &mut out);
}

// Writes an array of U1 whose dimensions are a whole pool.
pub fn writing_array(label: &[u8], rank: u32, pool: &[u8]) {
    let mut table = [0u32; 32];
    let mut out = [7u8; 160];
    table[0] = 11;
    table[3] = rank;
    table[16] = 1;
    table[17] = 1;
    table[24] = 8;
    text(label);
    text(b": ");
    write_and_show(&table, pool, 3, &mut out);
}

// TooNew comes of reading back; every other refusal leaves all that is lent as it was.
fn not_back_lines(e: Refusal, buffer: &[u8], table: &[u32], pool: &[u8]) {
    refusal_line(e);
    if !matches!(e, Refusal::TooNew(_)) {
        lent_line(buffer, 0);
        lent_line(table, 0);
        lent_line(pool, 0);
    }
}

fn round_trip_lines(answer: Result<usize, Refusal>, buffer: &[u8], table: &[u32], pool: &[u8]) {
    match answer {
        Err(e) => not_back_lines(e, buffer, table, pool),
        Ok(n) => {
            out!("back {n}\n");
            lent_line(buffer, n);
        }
    }
}

// Writes the type of a message in an edition into 160 bytes of 7, and reads it back under a limit.
pub fn written_and_read(label: &[u8], message: &[u8], edition: u32, limit: u32) {
    with_type(label, message, |table, pool| {
        let mut second_table = [7u32; 512];
        let mut second_pool = [7u8; 128];
        let mut buffer = [7u8; 160];
        let answer = round_trip::write_and_read(
            table,
            pool,
            edition,
            &mut buffer,
            limit,
            &mut second_table,
            &mut second_pool,
        );
        round_trip_lines(answer, &buffer, &second_table, &second_pool);
    });
}

// Writing a table that sets out no type.
pub fn bad_table() {
    let table = [0u32; 16];
    let pool = [0u8; 8];
    let mut out = [7u8; 16];
    text(b"no type, written: ");
    write_and_show(&table, &pool, 3, &mut out);
}
