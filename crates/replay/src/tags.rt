// Requests for language tags, and at a brace with the tag looked at, with the place at which the payload went wrong, or with both.
use crate::readers::Twice;
use crate::reply::Reply;
use crate::{ask, brace, fields, readers, reply};
use base_bytes::Mode;
use base_refusals::Refusal;
use read_brace::{NotRead, Read};

// How many words there are, the number of a line that has none of them.
pub(crate) const NONE: usize = 4;

// The number of a request's word.
pub(crate) fn word_of(line: &[u8]) -> usize {
    fields::index_of(
        b"language_tag_strict/read_attrs_at_lang/place/place_lang",
        fields::part(line, 0, fields::find(line, 0, b' ')),
    )
}

// Answers a request by the number of its word, its text laid into a; b is for a canonical text.
pub(crate) fn answer(
    word: usize,
    line: &[u8],
    a: &mut [u8],
    b: &mut [u8],
    output: &mut [u8],
    at: usize,
) -> usize {
    let laid = fields::unhex(fields::field(line, b' ', text_at(word)), a);
    let text = fields::part(a, 0, laid.n);
    let r = reply_to(word, line, laid.bad, text, b);
    reply::put(output, at, r, b, b"")
}

// The field of a request's text, which is its last.
fn text_at(word: usize) -> usize {
    if word == 0 {
        return 1;
    }
    3
}

// How many fields a request has.
fn count_of(word: usize) -> usize {
    if word == 0 {
        return 2;
    }
    4
}

fn reply_to(word: usize, line: &[u8], bad: u8, text: &[u8], canon: &mut [u8]) -> Reply {
    if bad != 0 {
        return reply::alone(reply::ERROR);
    }
    // A length of the join buffer is taken and not heeded, as where a block is read at a brace.
    if ask::cap_of(line, 0, count_of(word)).bad != 0 {
        return reply::alone(reply::ERROR);
    }
    if word == 0 {
        return reply::said(text_langtags::is_allowed_tag(text));
    }
    read_at(word, line, text, canon)
}

// A place, a mode and a text.
fn read_at(word: usize, line: &[u8], text: &[u8], canon: &mut [u8]) -> Reply {
    let place = fields::number(fields::field(line, b' ', 1));
    if place.bad != 0 {
        return reply::alone(reply::ERROR);
    }
    match fields::index_of(b"strict/loose", fields::field(line, b' ', 2)) {
        0 => read(word, text, place.n, Mode::Strict, canon),
        1 => read(word, text, place.n, Mode::Loose, canon),
        _ => reply::alone(reply::ERROR),
    }
}

fn read(word: usize, text: &[u8], place: usize, mode: Mode, canon: &mut [u8]) -> Reply {
    match word {
        1 => brace::both(readers::strictly(text, place, mode), text, canon),
        2 => placed_by(readers::ordinary(text, place, mode), text, canon),
        _ => placed_by(readers::strictly(text, place, mode), text, canon),
    }
}

// What both readers say, or that they differ.
fn placed_by(twice: Twice, text: &[u8], canon: &mut [u8]) -> Reply {
    if !twice.alike {
        return reply::alone(reply::DIFFER);
    }
    placed(twice.read, text, canon)
}

// What was read at a brace, a payload with no reading with its place.
fn placed(read: Read, text: &[u8], canon: &mut [u8]) -> Reply {
    let answer = read.answer;
    match answer {
        Err(NotRead::Unread(n)) => reply::paired(
            reply::REFUSED,
            fields::wide(base_refusals::number(Refusal::NoReading)),
            reply::AT,
            n,
        ),
        _ => brace::told(read, text, canon),
    }
}
