// Runs the samples of the two files that its arguments name, and writes for each whether the library answers as the file says.
#![tactic(auto)]

mod differences;
mod entries;
mod files;
mod lines;

use std::rt::{Env, Files};

fn main(rt: HostRuntime) {
    if command::helped(
        &rt,
        b"usage: replay FILE FILE\n\
Runs two files of samples and writes for each whether the library answers as the file says.\n",
    ) {
        return;
    }
    replay(&rt, 1);
    replay(&rt, 2);
}

// Runs the file that an argument names.
fn replay(rt: &(impl Env + Files), argument: usize) {
    let mut bytes = [0u8; 1048576];
    files::named(rt, argument, &mut bytes);
}
