// Six records of P with a workspace of every length, up to one word more than `duplicates_words` tells.
use crate::types::SIX_OF_P;
use duplicates::{Groups, duplicates, duplicates_words};
use record_types::{P, with_read};
use show::{answer_line, out};
use show_lent::{cleared_to, workspaces_line};

// Whether the lists are those of the six records, the lent words are 0 and those behind them as before.
fn lists_are(numbers: &[u64], sizes: &[u64], work: &[u64; 32], words: usize) -> bool {
    numbers == [0, 1, 0, 0, 1, 5, 7].as_slice()
        && sizes == [3, 2, 1, 7].as_slice()
        && cleared_to(work, words)
}

// Whether a workspace of so many words, at most 32, gives the lists of the six records.
fn given_with(table: &[u32], pool: &[u8], words: usize) -> bool {
    let mut numbers = [7u64; 7];
    let mut sizes = [7u64; 4];
    let mut work = [7u64; 32];
    if words > 32 {
        return false;
    }
    let answer = duplicates(
        table,
        pool,
        &SIX_OF_P,
        &mut numbers,
        &mut sizes,
        &mut work[..words],
    );
    let six_and_three = matches!(
        answer,
        Ok(Groups {
            records: 6,
            distinct: 3
        })
    );
    six_and_three && lists_are(&numbers, &sizes, &work, words)
}

fn lengths_line(table: &[u32], pool: &[u8], needed: u64) {
    if needed > 30 {
        return;
    }
    let most = needed as usize + 1;
    out!("six of P, workspaces of 0 to {most} words: ");
    workspaces_line(most, |words| given_with(table, pool, words));
}

fn needed_and_more(table: &[u32], pool: &[u8]) {
    answer_line(
        duplicates_words(table, pool, 6),
        |n| lengths_line(table, pool, n),
    );
}

pub fn workspace_case() {
    with_read(&P, |table, pool| needed_and_more(table, pool));
}
