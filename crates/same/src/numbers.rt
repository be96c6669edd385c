// A record number among the arguments.
ghost use Rattle.std.specs.Prelude.{◌≡◌};
ghost use Rattle.same.specs.Numbers.{decimal_of};

use show::{out, text};
use std::rt::Env;

// The number that decimal digits write; none for no digit, for any other byte and for a number past 18,446,744,073,709,551,615.
pub fn decimal(s: &[u8]) -> Option<u64>
    ensures { result ≡ decimal_of s.now }
{
    if s.is_empty() {
        return None;
    }
    let mut value: u64 = 0;
    for b in s {
        if *b < b'0' || *b > b'9' {
            return None;
        }
        value = value.checked_mul(10)?.checked_add(u64::from(*b - b'0'))?;
    }
    Some(value)
}

// The number that a word writes; where it writes none, a line says so.
fn number_or_line(word: &[u8]) -> Option<u64>
    ensures { result ≡ decimal_of word.now }
{
    let parsed = decimal(word);
    if parsed.is_none() {
        out!("error: '");
        text(word);
        out!("' is not a record number, which is decimal and below 18446744073709551616\n");
    }
    parsed
}

// The number that an argument writes; where it writes none, a line says so. One of more than 4,096 bytes counts as empty.
pub fn argument(rt: &impl Env, i: usize) -> Option<u64> {
    let mut word = io::buffer();
    match rt.arg(i, &mut word) {
        Ok(n) => number_or_line(&word[..n]),
        Err(_) => number_or_line(b""),
    }
}
