// Document 01: the refusals' numbers, and the limit of 65,535 bytes.
use crate::{Tally, held};
use base_refusals::Refusal;

pub(crate) fn run(rt: &impl Print, t: Tally) -> Tally {
    let read = numbers_of_readers(rt, t);
    let all = numbers_of_sets(rt, read);
    let dealt = numbers_of_dealers(rt, all);
    let coming = numbers_of_requests(rt, dealt);
    let exact = longest_text(rt, coming);
    let over = one_byte_more(rt, exact);
    broken_text(rt, over)
}

// 1 to 5 and 9: texts, places, lines and runs.
fn numbers_of_readers(rt: &impl Print, t: Tally) -> Tally {
    let mut n = t;
    n = held(rt, n, base_refusals::number(Refusal::TextTooLong) == 1);
    n = held(rt, n, base_refusals::number(Refusal::NotUtf8) == 2);
    n = held(rt, n, base_refusals::number(Refusal::NothingThere) == 3);
    n = held(rt, n, base_refusals::number(Refusal::NoClose) == 4);
    n = held(rt, n, base_refusals::number(Refusal::NoReading) == 5);
    n = held(rt, n, base_refusals::number(Refusal::JoinFull) == 9);
    n
}

// 6, 7 and 10 to 12: sets, and what is written of them.
fn numbers_of_sets(rt: &impl Print, t: Tally) -> Tally {
    let mut n = t;
    n = held(rt, n, base_refusals::number(Refusal::TooManyClasses) == 6);
    n = held(rt, n, base_refusals::number(Refusal::TooManyKeys) == 7);
    n = held(rt, n, base_refusals::number(Refusal::CanonTooLong) == 10);
    n = held(rt, n, base_refusals::number(Refusal::NotWellFormed) == 11);
    n = held(rt, n, base_refusals::number(Refusal::EmptySet) == 12);
    n
}

// 20 and 21: the dealers' table.
fn numbers_of_dealers(rt: &impl Print, t: Tally) -> Tally {
    let mut n = t;
    n = held(rt, n, base_refusals::number(Refusal::BadSetting) == 20);
    n = held(rt, n, base_refusals::number(Refusal::SharedValve) == 21);
    n
}

// 13 to 19: strict tags, an index beside the sheet, numbers over all sheets, and columns.
fn numbers_of_requests(rt: &impl Print, t: Tally) -> Tally {
    let mut n = t;
    n = held(rt, n, base_refusals::number(Refusal::BadTag) == 13);
    n = held(rt, n, base_refusals::number(Refusal::NotAnIndex) == 14);
    n = held(rt, n, base_refusals::number(Refusal::TableFull) == 15);
    n = held(rt, n, base_refusals::number(Refusal::AnotherVersion) == 16);
    n = held(rt, n, base_refusals::number(Refusal::TotalTooLarge) == 17);
    n = held(rt, n, base_refusals::number(Refusal::TooManyColumns) == 18);
    n = held(rt, n, base_refusals::number(Refusal::IndexTooLong) == 19);
    n
}

// Whether a text is answered with the number, 0 where it passes.
fn answers(s: &[u8], number: u8) -> bool {
    match text_checks::check_text(s) {
        Ok(()) => number == 0,
        Err(r) => base_refusals::number(r) == number,
    }
}

// The longest text passes.
fn longest_text(rt: &impl Print, t: Tally) -> Tally {
    let text = [b'a'; 65535];
    held(rt, t, answers(&text, 0))
}

// One byte more is refused with 1, also where the text isn't UTF-8.
fn one_byte_more(rt: &impl Print, t: Tally) -> Tally {
    let text = [b'a'; 65536];
    let broken = [0xFFu8; 65536];
    let mut n = t;
    n = held(rt, n, answers(&text, 1));
    n = held(rt, n, answers(&broken, 1));
    n
}

// A text within the limit that isn't UTF-8 is refused with 2; the empty one passes.
fn broken_text(rt: &impl Print, t: Tally) -> Tally {
    let mut n = t;
    n = held(rt, n, answers(&[0xFF], 2));
    n = held(rt, n, answers(b"", 0));
    n
}
