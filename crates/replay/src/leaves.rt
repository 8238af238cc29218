// Requests for the smallest parts, over any bytes: `leaf WORD ..`.
use crate::reply::Reply;
use crate::{ask, fields, out, reply};
use base_refusals::Refusal;
use text_lines::Range;

// A text, or the byte x, by the number of the word in the list of `ask`.
pub(crate) fn answer(word: usize, x: usize, text: &[u8], b: &mut [u8]) -> Reply {
    if word < ask::MEASURE {
        return reply::said(is(word, text));
    }
    if word < ask::TITLE {
        return measure(word, text);
    }
    if word < ask::CLASS {
        return unescaped(text, b);
    }
    classes(x, b)
}

// Whether a text is what the word names.
fn is(word: usize, s: &[u8]) -> bool {
    match word {
        25 => text_utf8::is_utf8(s),
        26 => text_names::is_whole(text_names::is_identifier(s)),
        27 => text_names::is_whole(text_names::is_css_identifier(s)),
        28 => text_names::is_whole(text_names::is_boolean_attr_name(s)),
        29 => text_names::is_whole(text_names::is_language_tag(s)),
        _ => text_lines::is_blank_line(s),
    }
}

// What the leaf of that word counts in a text, or which part of it it takes.
fn measure(word: usize, s: &[u8]) -> Reply {
    match word {
        31 => reply::numbered(reply::NUMBER, number_of(text_checks::check_text(s))),
        32 => reply::numbered(reply::NUMBER, text_utf8::char_count(s)),
        33 => reply::numbered(reply::NUMBER, text_tabs::indent_columns(s)),
        34 => reply::numbered(reply::NUMBER, text_tabs::columns(0, s)),
        35 => part(text_lines::trim_ascii(s)),
        36 => reply::paired(
            reply::FROM,
            text_lines::trim_ascii_start(s),
            reply::TO,
            s.len(),
        ),
        _ => reply::paired(reply::FROM, 0, reply::TO, text_lines::trim_ascii_end(s)),
    }
}

// What the leaf of that word says of a text and a number, or of two texts.
pub(crate) fn answer_at<'a>(word: usize, k: usize, s: &'a [u8], other: &'a [u8]) -> Reply {
    match word {
        40 => reply::said(text_utf8::is_char_boundary(s, k)),
        41 => line(text_lines::line_of(s, k)),
        42 => ends(text_lines::line_from(s, k)),
        43 => piece(text_escapes::piece_at(s, k)),
        44 => reply::said(text_escapes::same_unescaped(s, other)),
        _ => reply::alone(reply::ERROR),
    }
}

fn part(r: text_lines::Range) -> Reply {
    reply::paired(reply::FROM, r.from, reply::TO, r.to)
}

fn line(line: Option<Range>) -> Reply {
    match line {
        None => reply::alone(reply::NONE),
        Some(r) => part(r),
    }
}

fn ends(l: text_lines::LineEnd) -> Reply {
    reply::paired(reply::ENDS, l.to, reply::NEXT, l.next)
}

fn piece(p: Option<(u8, usize)>) -> Reply {
    match p {
        None => reply::alone(reply::END),
        Some((b, next)) => { reply::paired(reply::BYTE, fields::wide(b), reply::NEXT, next) }
    }
}

// The number of a refusal, 0 where the text passes.
fn number_of(c: Result<(), Refusal>) -> usize {
    match c {
        Ok(()) => 0,
        Err(r) => fields::wide(base_refusals::number(r)),
    }
}

// The text without its escapes, laid into the second buffer.
fn unescaped(s: &[u8], b: &mut [u8]) -> Reply {
    match text_escapes::write_unescaped(b, 0, s) {
        None => reply::alone(reply::ERROR),
        Some(n) => reply::numbered(reply::BYTES, n),
    }
}

// The classes of the byte that a field names, a letter for each, laid into the second buffer.
fn classes(n: usize, b: &mut [u8]) -> Reply {
    if 255 < n {
        return reply::alone(reply::ERROR);
    }
    let byte = n as u8;
    let first = out::put(b, 0, &classes_of_names(byte));
    let to = out::put(b, first, &classes_of_marks(byte));
    reply::numbered(reply::LETTERS, to)
}

fn classes_of_names(byte: u8) -> [u8; 6] {
    [
        mark(base_letters::is_letter(byte)),
        mark(base_letters::is_digit(byte)),
        mark(base_letters::is_alnum(byte)),
        mark(base_letters::is_css_ident_start(byte)),
        mark(base_letters::is_attr_ident_start(byte)),
        mark(base_letters::is_attr_ident_part(byte)),
    ]
}

fn classes_of_marks(byte: u8) -> [u8; 8] {
    [
        mark(base_bytes::is_space(byte)),
        mark(base_bytes::is_punct(byte)),
        mark(base_bytes::is_quote(byte)),
        mark(base_bytes::is_plain(byte)),
        mark(base_bytes::is_blank(base_bytes::Mode::Strict, byte)),
        mark(base_bytes::is_blank(base_bytes::Mode::Loose, byte)),
        mark(base_bytes::is_indent(byte)),
        mark(base_bytes::is_tail(byte)),
    ]
}

fn mark(yes: bool) -> u8 {
    if yes { b'y' } else { b'n' }
}
