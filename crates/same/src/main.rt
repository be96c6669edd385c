// Says whether two records of a block are the same. Its arguments: a file with the datatype message, a file with the records, and the
// numbers of two records, from 0, in decimal. It writes one line: `same`, `differs`, `refused` with number and values, or `error:` and what
// is wrong with an argument. With `--help` it writes its usage.
#![tactic(auto)]

mod answers;
mod buffers;
mod files;
mod numbers;
mod say;

use std::rt::{Env, Files};

fn main(rt: HostRuntime) {
    if command::helped(
        &rt,
        b"usage: same MESSAGE RECORDS I J\n\
Whether records I and J of a block, by number from 0, are the same: bytes between fields and behind the NUL of a name do not count.\n\
MESSAGE is a file with an HDF5 datatype message, RECORDS a file with whole records of that type.\n\
Writes one line: same, differs, refused with number and values, or error and what is wrong.\n",
    ) {
        return;
    }
    if !command::has_argument(&rt, 4) || command::has_argument(&rt, 5) {
        show::text(
            b"error: wanted are a message file, a record file and two record numbers from 0\n",
        );
        return;
    }
    let mut message = io::large_buffer();
    if let Some(length) = files::argument(&rt, 1, "message file", &mut message) {
        with_message(&rt, &message[..length]);
    }
}

fn with_message(rt: &(impl Env + Files), message: &[u8]) {
    if command::is_hdf5_file(message) {
        show::text(b"error: the message file is an HDF5 file, not a datatype message\n");
        return;
    }
    let mut block = buffers::block();
    if let Some(length) = files::argument(rt, 2, "record file", &mut block) {
        with_block(rt, message, &block[..length]);
    }
}

fn with_block(rt: &impl Env, message: &[u8], block: &[u8]) {
    if let Some(i) = numbers::argument(rt, 3) {
        if let Some(j) = numbers::argument(rt, 4) {
            with_numbers(message, block, i, j);
        }
    }
}

fn with_numbers(message: &[u8], block: &[u8], first: u64, second: u64) {
    let mut table = buffers::table();
    let mut pool = io::large_buffer();
    let answer = answers::of_message(message, block, first, second, &mut table, &mut pool);
    say::answer_line(answer);
}
