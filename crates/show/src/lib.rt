// Lines on standard output for the programs: text, numbers, a refusal, and what a message reads as.
#![tactic(auto)]

use refusal::Refusal;
use std::fmt::{self, Display, Write};

// Standard output, by `io`, which wants no handle.
#[derive(Drop)]
struct Output;

impl Write for Output {
    fn write_str(&mut self, s: &str) -> fmt::Result {
        io::write_all(1, s.as_bytes());
        Ok(())
    }
}

// Writes what `out!` formats.
pub fn formatted<D: Display + Drop>(what: D) {
    let _ = Output.write(what);
}

// Writes to standard output, as `print!` does without a runtime.
#[macro_export]
macro_rules! out {
    ($($format:tt)*) => {
        $crate::formatted(format_args!($($format)*))
    };
}

// Writes bytes as they are.
pub fn text(s: &[u8]) {
    io::write_all(1, s);
}

// Writes bytes in hexadecimal, two digits each.
fn bytes(s: &[u8]) {
    for b in s {
        out!("{b:02x}");
    }
}

// The first bytes in hexadecimal, if there are so many.
pub fn shown_bytes(s: &[u8], count: usize) {
    if let Some((first, _)) = s.split_at_checked(count) {
        bytes(first);
    }
}

// So many bytes as they are, if there are so many.
pub fn shown_text(s: &[u8], count: usize) {
    if let Some((first, _)) = s.split_at_checked(count) {
        text(first);
    }
}

// A refusal, on a line.
pub fn refusal_line(e: Refusal) {
    out!("{e}\n");
}

// The line of an answer: a refusal, or what `line` writes of a result.
pub fn answer_line<T, F: FnOnce(T)>(answer: Result<T, Refusal>, line: F)
    requires { F.IsAlwaysCallable line }
{
    match answer {
        Err(e) => refusal_line(e),
        Ok(x) => line(x),
    }
}

// What there is up to the last that is not 0.
fn to_last<T: Copy + Default + PartialEq>(list: &[T]) -> &[T] {
    let zero = T::default();
    match list.iter().rposition(|x| *x != zero) {
        Some(last) => &list[..=last],
        None => &[],
    }
}

// The words of a row up to the last that is not 0.
fn row(words: &[u32]) {
    out!(" ");
    for word in to_last(words) {
        out!(" {word}");
    }
    out!("\n");
}

// The rows in use, whose first word is not 0.
fn rows(table: &[u32]) {
    for words in table.chunks_exact(16) {
        if words[0] != 0 {
            row(words);
        }
    }
}

// The rows, and the pool up to its last byte that is not 0.
fn table_and_pool(table: &[u32], pool: &[u8]) {
    rows(table);
    let used = to_last(pool);
    if !used.is_empty() {
        out!("  pool ");
        bytes(used);
        out!("\n");
    }
}

fn read_and_show(label: &[u8], message: &[u8], limit: u32, table: &mut [u32], pool: &mut [u8]) {
    let answer = reader::read(message, limit, table, pool);
    text(label);
    out!(": ");
    answer_line(answer, |n| out!("read {n}\n"));
    table_and_pool(table, pool);
}

// Reads a message into so many rows and pool bytes, at most 64 rows and 256 bytes.
pub fn reading(label: &[u8], message: &[u8], limit: u32, rows: usize, room: usize) {
    let mut table = [7u32; 1024];
    let mut pool = [7u8; 256];
    if rows > 64 || room > 256 {
        return;
    }
    read_and_show(
        label,
        message,
        limit,
        &mut table[..rows * 16],
        &mut pool[..room],
    );
}
