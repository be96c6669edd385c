// The lines that the program writes.
use crate::differences::Difference;
use show::{out, text};
use std::fmt::{self, Display, Formatter};

// A line on a file.
pub fn file_line(name: &[u8], what: &str) {
    text(name);
    out!(": {what}\n");
}

// What a line says of an entry.
impl Display for Difference {
    fn fmt<W: fmt::Write>(&self, f: &mut Formatter<W>) -> fmt::Result {
        f.write_str(match self {
            Difference::CutOff => "is cut off",
            Difference::Answer => "differs in the answer",
            Difference::Rows => "differs in the rows",
            Difference::Pool => "differs in the pool",
            Difference::Size => "differs in the size",
            Difference::Addresses => "differs in the addresses",
            Difference::Message => "differs in the message",
            Difference::Slots => "differs in the slots",
        })
    }
}

// The line on an entry, numbered from 1, that is not as expected.
pub fn entry_line(name: &[u8], entry: u64, difference: Difference) {
    text(name);
    out!(": entry {entry} {difference}\n");
}

// The line on all entries, where each is as expected.
pub fn end_line(name: &[u8], entries: u64) {
    text(name);
    out!(": {entries} entries, as expected\n");
}
