// The line that is written.
use crate::answers::Wrong;
use show::{out, refusal_line, text};

fn past_line(i: u64, count: u64, size: u64) {
    out!(
        "error: there is no record {i}: the record file has {count} whole records of {size} bytes, numbered from 0\n"
    );
}

fn remainder_line(length: u64, count: u64, size: u64) {
    out!(
        "error: the record file has {length} bytes, which is no whole number of records of {size} bytes: {count} whole records and a remainder\n"
    );
}

// Writes the line of an answer.
pub fn answer_line(answer: Result<bool, Wrong>) {
    match answer {
        Ok(true) => text(b"same\n"),
        Ok(false) => text(b"differs\n"),
        Err(Wrong::Refused(e)) => refusal_line(e),
        Err(Wrong::Remainder(length, count, size)) => remainder_line(length, count, size),
        Err(Wrong::Past(i, count, size)) => past_line(i, count, size),
    }
}
