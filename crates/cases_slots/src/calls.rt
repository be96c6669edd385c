// The sizes, extents, predicates, names, slots and references of a type that is read first, at limit 15, into 64 rows and 256 pool bytes; and what
// each gives.
use record_types::{with_read, with_type};
use refusal::Refusal;
use show::{answer_line, out, text};
use show_lent::lent_line;
use table::Used;

// The first numbers, so many.
fn list(numbers: &[u64], count: u64) {
    for x in numbers.iter().take(count as usize) {
        out!(" {x}");
    }
}

fn slots_line(answer: Result<u64, Refusal>, out: &[u64]) {
    answer_line(answer, |n| {
        out!("slots {n}:");
        list(out, n);
        text(b"\n");
    });
    lent_line(out, answer.unwrap_or(0) as usize);
}

// Lists the slots of the type of a message, at most 4.
pub fn slots(label: &[u8], message: &[u8]) {
    with_type(label, message, |table, pool| {
        let mut out = [7u64; 4];
        let answer = slots::embedded_reference_slots(table, pool, &mut out);
        slots_line(answer, &out);
    });
}

fn references_line(answer: Result<u64, Refusal>, places: &[u64], values: &[u64]) {
    answer_line(answer, |n| {
        out!("references {n} at");
        list(places, n);
        out!(" are");
        list(values, n);
        text(b"\n");
    });
    let given = answer.unwrap_or(0) as usize;
    lent_line(places, given);
    lent_line(values, given);
}

// Collects the references of a block of records, at most 4.
pub fn references(label: &[u8], block: &[u8], record_size: u64, slots: &[u64]) {
    let mut places = [7u64; 4];
    let mut values = [7u64; 4];
    text(label);
    text(b": ");
    let answer = references::stored_object_references(
        block,
        record_size,
        slots,
        &mut places,
        &mut values,
    );
    references_line(answer, &places, &values);
}

fn size_line(answer: Result<u32, Refusal>) {
    answer_line(answer, |n| out!("size {n}\n"));
}

fn held_line(answer: Result<bool, Refusal>) {
    answer_line(answer, |held| out!("{}\n", if held { "yes" } else { "no" }));
}

fn extent_line(answer: Result<Used, Refusal>) {
    answer_line(answer, |used| {
        out!("{} rows, {} pool bytes\n", used.rows, used.bytes)
    });
}

fn size_lines(table: &[u32], pool: &[u8]) {
    size_line(table::type_size(table, pool));
    text(b"  element: ");
    size_line(table::element_size(table, pool));
    text(b"  extent: ");
    extent_line(table::extent(table, pool));
    text(b"  object address: ");
    held_line(table::datatype_holds_object_address(table, pool));
    text(b"  file address: ");
    held_line(table::datatype_holds_file_address(table, pool));
}

// The sizes, extent and address predicates of the type of a message.
pub fn sizes(label: &[u8], message: &[u8]) {
    with_type(label, message, |table, pool| size_lines(table, pool));
}

fn name_line(table: &[u32], pool: &[u8], row: usize) {
    out!("  row {row}: '");
    text(table::member_name(table, pool, row));
    out!("'\n");
}

fn name_lines(table: &[u32], pool: &[u8]) {
    out!("\n");
    for row in 0..5 {
        name_line(table, pool, row);
    }
}

// The names of the first five rows of the type of a message.
pub fn names(label: &[u8], message: &[u8]) {
    text(label);
    text(b":");
    with_read(message, |table, pool| name_lines(table, pool));
}

// By a table that sets out no type, and of a fixed type of size 0, which no message gives.
pub fn bad_tables() {
    let mut table = [0u32; 16];
    let pool = [0u8; 8];
    let mut places = [7u64; 4];
    text(b"no type: ");
    size_lines(&table, &pool);
    name_line(&table, &pool, 0);
    text(b"no type, slots: ");
    let none = slots::embedded_reference_slots(&table, &pool, &mut places);
    slots_line(none, &places);
    table[0] = 1;
    text(b"a fixed type of size 0: ");
    size_lines(&table, &pool);
    text(b"a fixed type of size 0, slots: ");
    let answer = slots::embedded_reference_slots(&table, &pool, &mut places);
    slots_line(answer, &places);
}

// Whether a message with this first byte may hold an object address.
pub fn first_byte(label: &[u8], byte: u8) {
    text(label);
    if table::class_may_hold_object_address(byte) {
        text(b": may hold an object address\n");
    } else {
        text(b": holds no object address\n");
    }
}
