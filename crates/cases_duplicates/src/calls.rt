// The groups of a block of records of a type that is read first into 64 rows and 256 pool bytes. What is lent for numbers and sizes and as workspace
// is all 7 before the call and shown whole after it.
use duplicates::{Groups, duplicates, duplicates_words};
use record_types::{with_bad_tables, with_type};
use refusal::Refusal;
use show::{answer_line, out, text};
use show_lent::list_line;

fn groups_line(answer: Result<Groups, Refusal>) {
    answer_line(answer, |groups| {
        out!("records {} distinct {}\n", groups.records, groups.distinct)
    });
}

fn group_and_show(
    table: &[u32],
    pool: &[u8],
    block: &[u8],
    numbers: &mut [u64],
    sizes: &mut [u64],
    work: &mut [u64],
) {
    let answer = duplicates(table, pool, block, numbers, sizes, work);
    groups_line(answer);
    list_line(b"  numbers", numbers);
    list_line(b"  sizes", sizes);
    list_line(b"  workspace", work);
}

// With room for so many numbers and sizes, at most 8 each, and a workspace of so many words, at most 32.
fn group_in(table: &[u32], pool: &[u8], block: &[u8], places: usize, groups: usize, words: usize) {
    let mut numbers = [7u64; 8];
    let mut sizes = [7u64; 8];
    let mut work = [7u64; 32];
    if places > 8 || groups > 8 || words > 32 {
        return;
    }
    group_and_show(
        table,
        pool,
        block,
        &mut numbers[..places],
        &mut sizes[..groups],
        &mut work[..words],
    );
}

// The groups of a block of records of the type of a message.
pub fn grouping(
    label: &[u8],
    message: &[u8],
    block: &[u8],
    places: usize,
    groups: usize,
    words: usize,
) {
    with_type(label, message, |table, pool| {
        group_in(table, pool, block, places, groups, words);
    });
}

fn words_line(answer: Result<u64, Refusal>) {
    answer_line(answer, |n| out!("{n} words\n"));
}

// The words of workspace for so many records of the type of a message.
pub fn words(label: &[u8], message: &[u8], records: u64) {
    with_type(label, message, |table, pool| {
        words_line(duplicates_words(table, pool, records));
    });
}

fn refused_table(label: &[u8], table: &[u32], pool: &[u8]) {
    text(label);
    text(b": ");
    group_in(table, pool, b"", 1, 1, 3);
    text(b"  words: ");
    words_line(duplicates_words(table, pool, 1));
}

// By tables whose types are not admitted.
pub fn bad_tables() {
    with_bad_tables(|label, table, pool| refused_table(label, table, pool));
}
