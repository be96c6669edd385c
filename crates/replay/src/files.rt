// One file of samples: opened, read whole, and its entries run.
use crate::differences::{Difference, compare};
use crate::entries::Rest;
use crate::lines::{end_line, entry_line, file_line};
use std::io::{Read, Result};
use std::rt::{Env, Files};

// How many bytes a read of one byte more gives: 0 at the file's end.
fn one_more(file: &mut impl Read) -> Result<usize> {
    let mut byte = [0u8; 1];
    file.read(&mut byte)
}

// Runs the entries of a file, up to 10 that differ or one that is cut off.
fn entries(name: &[u8], bytes: &[u8]) {
    let mut rest = Rest { bytes };
    let mut count: u64 = 0;
    let mut lines: u64 = 0;
    // A `while`, since each entry says how long it is.
    while !rest.bytes.is_empty() && lines < 10 {
        count += 1;
        let Some(entry) = rest.entry() else {
            entry_line(name, count, Difference::CutOff);
            return;
        };
        if let Err(difference) = compare(entry) {
            entry_line(name, count, difference);
            lines += 1;
        }
    }
    if lines == 0 {
        end_line(name, count);
    }
}

// Runs the file that is open, of at most 1,048,576 bytes, by way of a buffer of that length.
fn file(name: &[u8], from: &mut impl Read, bytes: &mut [u8]) {
    let (n, outcome) = command::fill(from, bytes);
    if outcome.is_err() {
        file_line(name, "cannot be read");
        return;
    }
    match one_more(from) {
        Err(_) => file_line(name, "cannot be read"),
        Ok(0) => {
            if n == 0 {
                file_line(name, "empty");
                return;
            }
            entries(name, &bytes[..n]);
        }
        Ok(_) => file_line(name, "larger than 1048576 bytes"),
    }
}

// Runs the file that an argument names.
pub fn named(rt: &(impl Env + Files), argument: usize, bytes: &mut [u8]) {
    let mut space = io::buffer();
    match rt.arg(argument, &mut space) {
        Err(_) => file_line(b"a file's name", "missing or too long"),
        Ok(length) => match command::open_file(rt, &space[..length]) {
            Err(_) => file_line(&space[..length], "cannot be opened"),
            Ok(mut from) => file(&space[..length], &mut from, bytes),
        },
    }
}
