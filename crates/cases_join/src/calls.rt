// Two blocks of records made one, of a type that is read first into 64 rows and 256 pool bytes. What is lent for the result and as workspace is all
// 7 before the call and shown whole after it.
use join::{Joint, join};
use record_types::{with_bad_tables, with_type};
use refusal::Refusal;
use show::{answer_line, out, shown_bytes, text};
use show_lent::list_line;

fn joined_line(answer: Result<Joint, Refusal>) {
    answer_line(answer, |joint| {
        out!("bytes {} records {}\n", joint.bytes, joint.records)
    });
}

fn out_line(out: &[u8]) {
    text(b"  out");
    if !out.is_empty() {
        text(b" ");
        shown_bytes(out, out.len());
    }
    text(b"\n");
}

fn join_and_show<'a>(
    table: &[u32],
    pool: &[u8],
    a: &'a [u8],
    b: &'a [u8],
    out: &mut [u8],
    work: &mut [u64],
) {
    let answer = join(table, pool, a, b, out, work);
    joined_line(answer);
    out_line(out);
    list_line(b"  workspace", work);
}

// With room for so many bytes and a workspace of so many words, at most 32 each.
fn join_in<'a>(table: &[u32], pool: &[u8], a: &'a [u8], b: &'a [u8], room: usize, words: usize) {
    let mut out = [7u8; 32];
    let mut work = [7u64; 32];
    if room > 32 || words > 32 {
        return;
    }
    join_and_show(table, pool, a, b, &mut out[..room], &mut work[..words]);
}

// Two blocks of records of the type of a message.
pub fn joining<'a>(
    label: &[u8],
    message: &[u8],
    a: &'a [u8],
    b: &'a [u8],
    room: usize,
    words: usize,
) {
    with_type(label, message, |table, pool| {
        join_in(table, pool, a, b, room, words);
    });
}

fn refused_table(label: &[u8], table: &[u32], pool: &[u8]) {
    text(label);
    text(b": ");
    join_in(table, pool, b"\x01", b"\x01", 1, 3);
    text(b"  no room: ");
    join_in(table, pool, b"\x01", b"\x01", 0, 3);
}

// By tables whose types are not admitted.
pub fn bad_tables() {
    with_bad_tables(|label, table, pool| refused_table(label, table, pool));
}
