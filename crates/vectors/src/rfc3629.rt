// RFC 3629, UTF-8: its examples and the edges of its grammar.
use crate::{Tally, held};

pub(crate) fn run(rt: &impl Print, t: Tally) -> Tally {
    let examples = section_7(rt, t);
    let places = boundaries(rt, examples);
    let invalid = section_3_and_10(rt, places);
    let first = lowest(rt, invalid);
    let last = highest(rt, first);
    let beyond = out_of_range(rt, last);
    cut_short(rt, beyond)
}

// Text of so many characters.
fn text(rt: &impl Print, t: Tally, s: &[u8], characters: usize) -> Tally {
    if !text_utf8::is_utf8(s) {
        return held(rt, t, false);
    }
    held(rt, t, text_utf8::char_count(s) == characters)
}

// Bytes that are no text.
fn no_text(rt: &impl Print, t: Tally, s: &[u8]) -> Tally {
    held(rt, t, !text_utf8::is_utf8(s))
}

// Section 7: `A`, not identical to, Alpha, `.`; the Korean and the Japanese word for the language; a byte order mark and U+233B4.
fn section_7(rt: &impl Print, t: Tally) -> Tally {
    let mut n = t;
    n = text(rt, n, b"\x41\xE2\x89\xA2\xCE\x91\x2E", 4);
    n = text(rt, n, b"\xED\x95\x9C\xEA\xB5\xAD\xEC\x96\xB4", 3);
    n = text(rt, n, b"\xE6\x97\xA5\xE6\x9C\xAC\xE8\xAA\x9E", 3);
    n = text(rt, n, b"\xEF\xBB\xBF\xF0\xA3\x8E\xB4", 2);
    n
}

// Where the characters of the first of them part, and whether a place past the end is one.
fn boundaries(rt: &impl Print, t: Tally) -> Tally {
    let s = b"\x41\xE2\x89\xA2\xCE\x91\x2E";
    let mut n = t;
    n = held(rt, n, text_utf8::is_char_boundary(s, 0));
    n = held(rt, n, text_utf8::is_char_boundary(s, 1));
    n = held(rt, n, !text_utf8::is_char_boundary(s, 2));
    n = held(rt, n, !text_utf8::is_char_boundary(s, 3));
    n = held(rt, n, text_utf8::is_char_boundary(s, 4));
    n = held(rt, n, !text_utf8::is_char_boundary(s, 5));
    n = held(rt, n, text_utf8::is_char_boundary(s, 6));
    n = held(rt, n, text_utf8::is_char_boundary(s, 7));
    n = held(rt, n, !text_utf8::is_char_boundary(s, 8));
    n
}

// Sections 3 and 10: an overlong NUL, surrogates in place of U+233B4, an overlong `.` between `/` and `./`.
fn section_3_and_10(rt: &impl Print, t: Tally) -> Tally {
    let mut n = t;
    n = no_text(rt, n, b"\xC0\x80");
    n = no_text(rt, n, b"\xED\xA1\x8C\xED\xBE\xB4");
    n = no_text(rt, n, b"\x2F\xC0\xAE\x2E\x2F");
    n = text(rt, n, b"\x2F\x2E\x2E\x2F", 4);
    n = text(rt, n, b"", 0);
    n
}

// Section 4: the first character of each length and range, and what lies just below it.
fn lowest(rt: &impl Print, t: Tally) -> Tally {
    let mut n = t;
    n = text(rt, n, b"\x00", 1);
    n = text(rt, n, b"\xC2\x80", 1);
    n = no_text(rt, n, b"\xC1\xBF");
    n = text(rt, n, b"\xE0\xA0\x80", 1);
    n = no_text(rt, n, b"\xE0\x9F\xBF");
    n = text(rt, n, b"\xEE\x80\x80", 1);
    n = no_text(rt, n, b"\xED\xBF\xBF");
    n = text(rt, n, b"\xF0\x90\x80\x80", 1);
    n = no_text(rt, n, b"\xF0\x8F\xBF\xBF");
    n
}

// The last character of each length and range, and what lies just above it.
fn highest(rt: &impl Print, t: Tally) -> Tally {
    let mut n = t;
    n = text(rt, n, b"\x7F", 1);
    n = no_text(rt, n, b"\x80");
    n = text(rt, n, b"\xDF\xBF", 1);
    n = text(rt, n, b"\xED\x9F\xBF", 1);
    n = no_text(rt, n, b"\xED\xA0\x80");
    n = text(rt, n, b"\xEF\xBF\xBF", 1);
    n = text(rt, n, b"\xF4\x8F\xBF\xBF", 1);
    n = no_text(rt, n, b"\xF4\x90\x80\x80");
    n
}

// Bytes that never stand in text, and one that only follows others.
fn out_of_range(rt: &impl Print, t: Tally) -> Tally {
    let mut n = t;
    n = no_text(rt, n, b"\xC0");
    n = no_text(rt, n, b"\xC1");
    n = no_text(rt, n, b"\xF5\x80\x80\x80");
    n = no_text(rt, n, b"\xFE");
    n = no_text(rt, n, b"\xFF");
    n = no_text(rt, n, b"\xBF");
    n = no_text(rt, n, b"a\xBF");
    n = no_text(rt, n, b"\xC2\x80\x80");
    n
}

// A character whose last bytes are missing, at the end and before another character.
fn cut_short(rt: &impl Print, t: Tally) -> Tally {
    let mut n = t;
    n = no_text(rt, n, b"\xC2");
    n = no_text(rt, n, b"\xE2\x89");
    n = no_text(rt, n, b"\xE2");
    n = no_text(rt, n, b"\xF0\xA3\x8E");
    n = no_text(rt, n, b"\xF0\xA3");
    n = no_text(rt, n, b"\xF0");
    n = no_text(rt, n, b"\xC2a");
    n = no_text(rt, n, b"\xE2\x89a");
    n = no_text(rt, n, b"\xF0\xA3\x8Ea");
    n = no_text(rt, n, b"\xE2\x89\xE2\x89\xA2");
    n
}
