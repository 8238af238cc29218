// Requests for a payload alone, and at a brace.
use crate::readers::Twice;
use crate::reply::Reply;
use crate::{fields, readers, reply};
use base_bytes::Mode;
use base_refusals::Refusal;
use read_brace::{NotRead, Read};

// A payload, or a place in a text, by the number of the word in the list of `ask`.
pub(crate) fn answer(word: usize, place: usize, text: &[u8]) -> Reply {
    match word {
        0 => reply::said(block_payloads::parse_attrs(text)),
        1 => reply::said(block_payloads::is_valid_attr_payload(text)),
        2 => reply::said(block_payloads::valid_wrapped_attr_continuation(text)),
        3 => payload(text, place),
        _ => reply::said(block_quick::attr_payload_provably_invalid(text, place)),
    }
}

// A place and the number of a mode.
pub(crate) fn answer_read(text: &[u8], place: usize, mode: usize, canon: &mut [u8]) -> Reply {
    match mode {
        0 => both(readers::ordinary(text, place, Mode::Strict), text, canon),
        1 => both(readers::ordinary(text, place, Mode::Loose), text, canon),
        _ => reply::alone(reply::ERROR),
    }
}

// What both readers say, or that they differ.
pub(crate) fn both(twice: Twice, text: &[u8], canon: &mut [u8]) -> Reply {
    if !twice.alike {
        return reply::alone(reply::DIFFER);
    }
    told(twice.read, text, canon)
}

// What was read at a brace, a payload with no reading without its place.
pub(crate) fn told(read: Read, text: &[u8], canon: &mut [u8]) -> Reply {
    let answer = read.answer;
    match answer {
        Err(NotRead::Refused(r)) => reply::refused(reply::REFUSED, r),
        Err(NotRead::Unread(_)) => reply::refused(reply::REFUSED, Refusal::NoReading),
        Ok(n) => {
            reply::with_set(
                reply::numbered(reply::OK_NEXT, n),
                text,
                b"",
                read.set,
                canon,
            )
        }
    }
}

// The part that is handed back has no place in it, so the range is asked too.
fn payload(text: &[u8], place: usize) -> Reply {
    let r = read_brace::payload_range(text, place);
    let handed = read_brace::payload_at(text, place);
    if handed != fields::part(text, r.from, r.to) {
        return reply::alone(reply::ANOTHER);
    }
    reply::paired(reply::FROM, r.from, reply::TO, r.to)
}
