// For the programs that run cases: whether lent output, which is all 7 before a call, is as it was from a place on, or 0 up to it, and what a list holds.
#![tactic(auto)]

ghost use Rattle.std.specs.Prelude.{ℕ};

use show::{out, text};

// Whether all is as it was from a place on.
fn is_untouched<T: Copy + From<u8> + PartialEq>(out: &[T], from: usize) -> bool {
    let seven = T::from(7);
    out.iter().skip(from).all(|x| *x == seven)
}

// A line for lent bytes, words or numbers.
pub fn lent_line<T: Copy + From<u8> + PartialEq>(out: &[T], from: usize) {
    let what = if is_untouched(out, from) {
        "untouched"
    } else {
        "changed"
    };
    out!("  {what} from {from}\n");
}

// Whether the first numbers, so many, are 0 and those behind them as they were.
pub fn cleared_to(list: &[u64], count: usize) -> bool {
    count <= list.len() && list[..count].iter().all(|x| *x == 0) && is_untouched(list, count)
}

// A line on whether the workspaces of all lengths up to the most, in words, give what they should.
pub fn workspaces_line<F: FnMut(usize) -> bool>(most: usize, gives: F)
    requires { (state : F) (words : ℕ) → F.pre state words }
{
    if (0..=most).all(gives) {
        out!("all give the same and are zero afterwards\n");
    } else {
        out!("not all give the same\n");
    }
}

// A line of all numbers of a list, behind its name.
pub fn list_line(name: &[u8], list: &[u64]) {
    text(name);
    for x in list {
        out!(" {x}");
    }
    out!("\n");
}
