// Reads a message on standard input and writes the fields of its type, one a line, or the refusal. Where standard input is no message at all,
// a line on standard error says what it is. With an argument it writes its usage.
#![tactic(auto)]

ghost use Rattle.io.specs.Counts.{IsPrefixLen};

use listing::{list_fields, list_refusal};
use reader::read;
use refusal::Refusal;
use show::shown_text;
use std::io::{Error, ErrorKind};

fn show_refusal(refusal: Refusal) {
    let mut line = [0u8; 64];
    if let Ok(length) = list_refusal(refusal, &mut line) {
        shown_text(&line, length);
    }
}

// 1,024 rows have at most 1,024 lines of 30 bytes, and their names at most twice 65,536 digits.
fn show_fields(table: &[u32], pool: &[u8]) {
    let mut text = [0u8; 163840];
    match list_fields(table, pool, &mut text) {
        Err(refusal) => show_refusal(refusal),
        Ok(length) => shown_text(&text, length),
    }
}

fn read_and_show(message: &[u8]) {
    let mut table = [0u32; 16384];
    let mut pool = [0u8; 65536];
    match read(message, 15, &mut table, &mut pool) {
        Err(refusal) => show_refusal(refusal),
        Ok(_) => show_fields(&table, &pool),
    }
}

// A line on standard error: what standard input is.
fn note(what: &[u8]) {
    io::write_all(2, b"fields: standard input ");
    io::write_all(2, what);
    io::write_all(2, b"\n");
}

// The number of the system's error where a file is closed, for which there is no kind.
const CLOSED: i32 = 9;

// The same, after a read that failed with this error.
fn note_unread(error: Error) {
    if error.kind() == ErrorKind::IsADirectory {
        note(b"is a directory, not a datatype message");
        return;
    }
    if error.raw_os_error() == Some(CLOSED) {
        note(b"is closed");
        return;
    }
    note(b"cannot be read");
}

// Reads standard input into the start of a buffer, and notes where nothing is read.
fn input(rt: &impl Input, buffer: &mut [u8]) -> usize
    ensures { IsPrefixLen result buffer.new }
{
    let (count, outcome) = command::fill(&mut rt.reader(), buffer);
    if count == 0 {
        match outcome {
            Ok(()) => note(b"is empty"),
            Err(error) => note_unread(error),
        }
    }
    count
}

// At most 65,536 bytes are read; what is behind them is not looked at.
fn main(rt: HostRuntime) {
    if command::has_argument(&rt, 1) {
        io::write_all(
            1,
            b"usage: fields <MESSAGE\n\
Writes the fields of the HDF5 datatype message on standard input: a line for each type, with level, class, offset, size and name in hexadecimal, or refused with number and values.\n",
        );
        return;
    }
    let mut message = io::large_buffer();
    let length = input(&rt, &mut message);
    if command::is_hdf5_file(&message[..length]) {
        note(b"is an HDF5 file, not a datatype message");
    }
    read_and_show(&message[..length]);
}
