// The line of each refusal.
use listing::list_refusal;
use refusal::Refusal;
use show::{answer_line, shown_text, text};
use show_lent::lent_line;

fn shown(answer: Result<usize, Refusal>, out: &[u8]) {
    answer_line(answer, |n| shown_text(out, n));
    if answer.is_err() {
        lent_line(out, 0);
    }
}

fn line(refusal: Refusal) {
    let mut out = [7u8; 64];
    let answer = list_refusal(refusal, &mut out);
    shown(answer, &out);
}

// A line of 11 bytes into 10.
pub fn short_room() {
    let mut out = [7u8; 10];
    text(b"refusal 19 in 10 bytes: ");
    let answer = list_refusal(Refusal::Unmapped, &mut out);
    shown(answer, &out);
}

// Refusals 1 to 11.
pub fn first_half() {
    line(Refusal::BadTable);
    line(Refusal::TooDeep);
    line(Refusal::TooMany);
    line(Refusal::Short(9, 18446744073709551615));
    line(Refusal::TooNew(15));
    line(Refusal::BadClass(12));
    line(Refusal::BadVersion(6, 0));
    line(Refusal::BadPadding(3));
    line(Refusal::BadCharset(2));
    line(Refusal::BadReferenceKind(2));
    line(Refusal::PoolFull);
}

// Refusals 12 to 21.
pub fn second_half() {
    line(Refusal::ZeroSize(11));
    line(Refusal::NoSuchEdition);
    line(Refusal::Unstorable);
    line(Refusal::NotInEdition);
    line(Refusal::OutsideRecord);
    line(Refusal::HeapHeld);
    line(Refusal::WrongLength);
    line(Refusal::Unmapped);
    line(Refusal::SlotOutside);
    line(Refusal::NoRoom(112));
}
