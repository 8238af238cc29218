// CommonMark 0.31.2: backslash escapes (section 2.4) and tabs (section 2.2).
use crate::{Tally, held};

pub(crate) fn run(rt: &impl Print, t: Tally) -> Tally {
    let all = every_punctuation(rt, t);
    let escaped = escapes_stand(rt, all);
    let titles = escapes_elsewhere(rt, escaped);
    let room = room_for(rt, titles);
    let stops = tab_stops(rt, room);
    let indents = indents(rt, stops);
    columns_of_lines(rt, indents)
}

// Whether the raw text unescapes to the plain one, both as it is compared and as it is written.
fn unescapes<'a>(raw: &'a [u8], plain: &'a [u8]) -> bool {
    if !text_escapes::same_unescaped(raw, plain) {
        return false;
    }
    let mut buf = [0xFFu8; 80];
    match text_escapes::write_unescaped(&mut buf, 0, raw) {
        None => false,
        Some(n) => begins(&buf, n, plain),
    }
}

// Whether the first n bytes are those of the plain text.
fn begins<'a>(buf: &'a [u8], n: usize, plain: &'a [u8]) -> bool {
    if buf.len() < n {
        return false;
    }
    &buf[..n] == plain
}

// Example 12: any ASCII punctuation character may be backslash-escaped. Example 13: before other characters the backslash
// stays (the first is a tab, the last are a phi and a left guillemet).
fn every_punctuation(rt: &impl Print, t: Tally) -> Tally {
    let mut n = t;
    n = held(
        rt,
        n,
        unescapes(
            b"\\!\\\"\\#\\$\\%\\&\\'\\(\\)\\*\\+\\,\\-\\.\\/\\:\\;\\<\\=\\>\\?\\@\\[\\\\\\]\\^\\_\\`\\{\\|\\}\\~",
            b"!\"#$%&'()*+,-./:;<=>?@[\\]^_`{|}~",
        ),
    );
    n = held(
        rt,
        n,
        unescapes(
            b"\\\t\\A\\a\\ \\3\\\xCF\x86\\\xC2\xAB",
            b"\\\t\\A\\a\\ \\3\\\xCF\x86\\\xC2\xAB",
        ),
    );
    n
}

// Lines of example 14, and example 15: a backslash that is itself escaped leaves the next one alone.
fn escapes_stand(rt: &impl Print, t: Tally) -> Tally {
    let mut n = t;
    n = held(rt, n, unescapes(b"\\*not emphasized*", b"*not emphasized*"));
    n = held(rt, n, unescapes(b"\\<br/> not a tag", b"<br/> not a tag"));
    n = held(rt, n, unescapes(b"1\\. not a list", b"1. not a list"));
    n = held(
        rt,
        n,
        unescapes(
            b"\\&ouml; not a character entity",
            b"&ouml; not a character entity",
        ),
    );
    n = held(rt, n, unescapes(b"\\\\*emphasis*", b"\\*emphasis*"));
    n = held(rt, n, unescapes(b"\\\\_", b"\\_"));
    n = held(rt, n, unescapes(b"\\\\\\_", b"\\_"));
    n = held(rt, n, unescapes(b"\\\\\\\\", b"\\\\"));
    n
}

// Example 22, a title; example 16, a backslash before a line's end; one at the text's end; no text.
fn escapes_elsewhere(rt: &impl Print, t: Tally) -> Tally {
    let mut n = t;
    n = held(rt, n, unescapes(b"ti\\*tle", b"ti*tle"));
    n = held(rt, n, unescapes(b"foo\\\nbar", b"foo\\\nbar"));
    n = held(rt, n, unescapes(b"foo\\", b"foo\\"));
    n = held(rt, n, unescapes(b"\\", b"\\"));
    n = held(rt, n, unescapes(b"", b""));
    n = held(
        rt,
        n,
        !text_escapes::same_unescaped(b"ti\\*tle", b"ti\\*tle"),
    );
    n = held(rt, n, !text_escapes::same_unescaped(b"ti\\*tle", b"ti*tl"));
    n = held(
        rt,
        n,
        !text_escapes::same_unescaped(b"ti\\*tle", b"ti*tles"),
    );
    n
}

// The unescaped text has to fit, and nothing is written where it doesn't.
fn room_for(rt: &impl Print, t: Tally) -> Tally {
    let mut exact = [0u8; 6];
    let mut short = [0u8; 5];
    let mut n = t;
    n = held(
        rt,
        n,
        fits(text_escapes::write_unescaped(&mut exact, 0, b"ti\\*tle")),
    );
    n = held(rt, n, base_lists::same_bytes(&exact, b"ti*tle"));
    n = held(
        rt,
        n,
        !fits(text_escapes::write_unescaped(&mut short, 0, b"ti\\*tle")),
    );
    n = held(rt, n, base_lists::same_bytes(&short, b"\0\0\0\0\0"));
    n
}

fn fits(w: Option<usize>) -> bool {
    match w {
        None => false,
        Some(_) => true,
    }
}

// Section 2.2: a tab goes to the next multiple of four.
fn tab_stops(rt: &impl Print, t: Tally) -> Tally {
    let mut n = t;
    n = held(rt, n, text_tabs::columns(0, b"\t") == 4);
    n = held(rt, n, text_tabs::columns(1, b"\t") == 4);
    n = held(rt, n, text_tabs::columns(2, b"\t") == 4);
    n = held(rt, n, text_tabs::columns(3, b"\t") == 4);
    n = held(rt, n, text_tabs::columns(4, b"\t") == 8);
    n = held(rt, n, text_tabs::columns(0, b" \t") == 4);
    n = held(rt, n, text_tabs::columns(0, b"   \t\t") == 8);
    n = held(rt, n, text_tabs::columns(0, b"") == 0);
    n
}

// The indentation of lines of examples 1, 2, 3, 5, 9 and 8, and lines without one.
fn indents(rt: &impl Print, t: Tally) -> Tally {
    let mut n = t;
    n = held(rt, n, text_tabs::indent_columns(b"\tfoo\tbaz\t\tbim") == 4);
    n = held(
        rt,
        n,
        text_tabs::indent_columns(b"  \tfoo\tbaz\t\tbim") == 4,
    );
    n = held(rt, n, text_tabs::indent_columns(b"    a\ta") == 4);
    n = held(rt, n, text_tabs::indent_columns(b"\t\tbar") == 8);
    n = held(rt, n, text_tabs::indent_columns(b"\t - baz") == 5);
    n = held(rt, n, text_tabs::indent_columns(b" \t") == 4);
    n = held(rt, n, text_tabs::indent_columns(b"foo") == 0);
    n = held(rt, n, text_tabs::indent_columns(b"") == 0);
    n = held(rt, n, text_tabs::indent_columns(b"\x0C{") == 0);
    n
}

// The columns behind lines of examples 3, 6, 10 and 11; characters count, not bytes.
fn columns_of_lines(rt: &impl Print, t: Tally) -> Tally {
    let mut n = t;
    n = held(rt, n, text_tabs::columns(0, b"    a\ta") == 9);
    n = held(rt, n, text_tabs::columns(0, b"    \xE1\xBD\x90\ta") == 9);
    n = held(rt, n, text_tabs::columns(0, b">\t\tfoo") == 11);
    n = held(rt, n, text_tabs::columns(0, b"#\tFoo") == 7);
    n = held(rt, n, text_tabs::columns(0, b"*\t*\t*\t") == 12);
    n = held(rt, n, text_tabs::columns(0, b"\xF0\xA3\x8E\xB4") == 1);
    n
}
