// For the programs that run cases of comparing: two records of a type that is read first, at limit 15, into 64 rows and 256 pool bytes.
#![tactic(auto)]

use record_types::with_type;
use refusal::Refusal;
use show::{answer_line, text};

// The answer as a line.
pub fn comparison_line(answer: Result<bool, Refusal>) {
    answer_line(answer, |same| {
        text(if same { b"same\n" } else { b"differs\n" })
    });
}

// Compares two records of the type of a message.
pub fn comparing(label: &[u8], message: &[u8], a: &[u8], b: &[u8]) {
    with_type(label, message, |table, pool| {
        comparison_line(compare::same(table, pool, a, b));
    });
}
