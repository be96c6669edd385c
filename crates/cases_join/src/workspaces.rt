// A and B with a workspace of every length, up to one word more than the 22 that six records of P want.
use crate::blocks::{A, B};
use join::{Joint, join};
use record_types::{P, with_type};
use show_lent::{cleared_to, workspaces_line};

// Whether the joined block is there, the lent words are 0, and what lies behind each is as before.
fn left_as(out: &[u8], work: &[u64; 32], words: usize) -> bool {
    let joined = b"\x01\xff\x05\x00\x02\x00\x05\x00\x03\x00\x00\x00\x07\x07\x07\x07";
    out == joined.as_slice() && cleared_to(work, words)
}

// Whether a workspace of so many words, at most 32, gives the joined block.
fn given_with(table: &[u32], pool: &[u8], words: usize) -> bool {
    let mut out = [7u8; 16];
    let mut work = [7u64; 32];
    if words > 32 {
        return false;
    }
    let answer = join(table, pool, &A, &B, &mut out, &mut work[..words]);
    let twelve_and_three = matches!(
        answer,
        Ok(Joint {
            bytes: 12,
            records: 3
        })
    );
    twelve_and_three && left_as(&out, &work, words)
}

pub fn workspace_case() {
    with_type(
        b"A and B, workspaces of 0 to 23 words",
        &P,
        |table, pool| workspaces_line(23, |words| given_with(table, pool, words)),
    );
}
