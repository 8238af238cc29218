// Document 01 and our readings of it: names, tags, classes of bytes, trimming and lines.
use crate::{Tally, held};

pub(crate) fn run(rt: &impl Print, t: Tally) -> Tally {
    let named = names_and_keys(rt, t);
    let bare = bare_names(rt, named);
    let tagged = tags(rt, bare);
    let plain = unquoted(rt, tagged);
    let trimmed = trimming(rt, plain);
    let kept = never_trimmed(rt, trimmed);
    let blank = blank_lines(rt, kept);
    let sheet = lines_of_a_sheet(rt, blank);
    let ends = line_ends(rt, sheet);
    missing_lines(rt, ends)
}

// The bytes are what was asked for.
fn whole(rt: &impl Print, t: Tally, tested: Result<(), usize>) -> Tally {
    held(rt, t, text_names::is_whole(tested))
}

// The bytes are none, and can be continued to one up to the place.
fn stops(rt: &impl Print, t: Tally, tested: Result<(), usize>, place: usize) -> Tally {
    match tested {
        Ok(()) => held(rt, t, false),
        Err(n) => held(rt, t, n == place),
    }
}

// A name begins with a letter, a digit or `_`; a key with a letter or `_`.
fn names_and_keys(rt: &impl Print, t: Tally) -> Tally {
    let mut n = t;
    n = whole(rt, n, text_names::is_css_identifier(b"v17"));
    n = whole(rt, n, text_names::is_css_identifier(b"1a"));
    n = whole(rt, n, text_names::is_css_identifier(b"_a-"));
    n = stops(rt, n, text_names::is_css_identifier(b"-a"), 0);
    n = stops(rt, n, text_names::is_css_identifier(b""), 0);
    n = stops(rt, n, text_names::is_css_identifier(b"a.b"), 1);
    n = whole(rt, n, text_names::is_identifier(b"side"));
    n = whole(rt, n, text_names::is_identifier(b"_a"));
    n = stops(rt, n, text_names::is_identifier(b"1a"), 0);
    n = stops(rt, n, text_names::is_identifier(b"-a"), 0);
    n = stops(rt, n, text_names::is_identifier(b""), 0);
    n
}

// A bare name begins with a letter; letters are ASCII, so neither an e with acute nor the Kelvin sign is one.
fn bare_names(rt: &impl Print, t: Tally) -> Tally {
    let mut n = t;
    n = whole(rt, n, text_names::is_boolean_attr_name(b"a1_-"));
    n = stops(rt, n, text_names::is_boolean_attr_name(b"_a"), 0);
    n = stops(rt, n, text_names::is_boolean_attr_name(b"1a"), 0);
    n = stops(rt, n, text_names::is_boolean_attr_name(b""), 0);
    n = stops(rt, n, text_names::is_boolean_attr_name(b"\xC3\xA9"), 0);
    n = stops(rt, n, text_names::is_boolean_attr_name(b"a\xC3\xA9"), 1);
    n = stops(rt, n, text_names::is_boolean_attr_name(b"\xE2\x84\xAA"), 0);
    n
}

// Nothing or a tag, whose subtags have one to eight letters or digits.
fn tags(rt: &impl Print, t: Tally) -> Tally {
    let mut n = t;
    n = whole(rt, n, text_names::is_language_tag(b""));
    n = whole(rt, n, text_names::is_language_tag(b"abcdefgh"));
    n = stops(rt, n, text_names::is_language_tag(b"abcdefghi"), 8);
    n = whole(rt, n, text_names::is_language_tag(b"zh-Hant-TW"));
    n = whole(rt, n, text_names::is_language_tag(b"x-12345678-9"));
    n = stops(rt, n, text_names::is_language_tag(b"x-123456789"), 10);
    n = stops(rt, n, text_names::is_language_tag(b"en-"), 3);
    n = stops(rt, n, text_names::is_language_tag(b"-en"), 0);
    n = stops(rt, n, text_names::is_language_tag(b"en--us"), 3);
    n = stops(rt, n, text_names::is_language_tag(b"de_DE"), 2);
    n = stops(rt, n, text_names::is_tag(b""), 0);
    n
}

// The nine bytes that no unquoted value has, and some that it has.
fn unquoted(rt: &impl Print, t: Tally) -> Tally {
    let mut n = t;
    n = held(rt, n, !base_bytes::is_plain(b'}'));
    n = held(rt, n, !base_bytes::is_plain(b'|'));
    n = held(rt, n, !base_bytes::is_plain(b'"'));
    n = held(rt, n, !base_bytes::is_plain(b'\''));
    n = held(rt, n, !base_bytes::is_plain(b'\\'));
    n = held(rt, n, !base_bytes::is_plain(b' '));
    n = held(rt, n, !base_bytes::is_plain(b'\t'));
    n = held(rt, n, !base_bytes::is_plain(b'\r'));
    n = held(rt, n, !base_bytes::is_plain(b'\n'));
    n = held(rt, n, base_bytes::is_plain(b'{'));
    n = held(rt, n, base_bytes::is_plain(0x0C));
    n
}

// Whether trimming leaves the bytes from `from` up to `to`, and its halves one of the places each.
fn trims_to(s: &[u8], from: usize, to: usize) -> bool {
    let r = text_lines::trim_ascii(s);
    if r.from != from {
        return false;
    }
    if r.to != to {
        return false;
    }
    if text_lines::trim_ascii_start(s) != from {
        return false;
    }
    text_lines::trim_ascii_end(s) == to
}

// Space, tab, LF, FF and CR go at both ends and stay inside.
fn trimming(rt: &impl Print, t: Tally) -> Tally {
    let mut n = t;
    n = held(
        rt,
        n,
        trims_to(b" \t\n\x0C\ra \t\n\x0C\rb \t\n\x0C\r", 5, 12),
    );
    n = held(rt, n, trims_to(b"a", 0, 1));
    n = held(rt, n, trims_to(b"", 0, 0));
    n = held(rt, n, trims_to(b"\x0C\r{a}", 2, 5));
    n = held(rt, n, text_lines::trim_ascii_start(b" \t\n\x0C\r") == 5);
    n = held(rt, n, text_lines::trim_ascii_end(b" \t\n\x0C\r") == 0);
    n
}

// VT, U+0085, U+00A0, U+3000 and a byte order mark stay.
fn never_trimmed(rt: &impl Print, t: Tally) -> Tally {
    let mut n = t;
    n = held(rt, n, trims_to(b"\x0Ba\x0B", 0, 3));
    n = held(rt, n, trims_to(b"\xC2\x85a\xC2\x85", 0, 5));
    n = held(rt, n, trims_to(b"\xC2\xA0a\xC2\xA0", 0, 5));
    n = held(rt, n, trims_to(b"\xE3\x80\x80a\xE3\x80\x80", 0, 7));
    n = held(rt, n, trims_to(b" \xEF\xBB\xBFa ", 1, 5));
    n = held(rt, n, trims_to(b" \0 ", 1, 2));
    n
}

// A line is blank if nothing but the five is there.
fn blank_lines(rt: &impl Print, t: Tally) -> Tally {
    let mut n = t;
    n = held(rt, n, text_lines::is_blank_line(b""));
    n = held(rt, n, text_lines::is_blank_line(b" \t\n\x0C\r"));
    n = held(rt, n, !text_lines::is_blank_line(b"a"));
    n = held(rt, n, !text_lines::is_blank_line(b" \x0B"));
    n = held(rt, n, !text_lines::is_blank_line(b"\xC2\x85"));
    n = held(rt, n, !text_lines::is_blank_line(b"\xC2\xA0"));
    n = held(rt, n, !text_lines::is_blank_line(b"\xE3\x80\x80"));
    n = held(rt, n, !text_lines::is_blank_line(b"\xEF\xBB\xBF"));
    n
}

// Whether the line of that number has the bytes from `from` up to `to`.
fn line_is(s: &[u8], number: usize, from: usize, to: usize) -> bool {
    match text_lines::line_of(s, number) {
        None => false,
        Some(r) => same_part(r, from, to),
    }
}

fn same_part(r: text_lines::Range, from: usize, to: usize) -> bool {
    r.from == from && r.to == to
}

fn is_missing(s: &[u8], number: usize) -> bool {
    text_lines::line_of(s, number).is_none()
}

// The five lines of document 01's sheet.
fn lines_of_a_sheet(rt: &impl Print, t: Tally) -> Tally {
    let s = b"{.wheel side=left}\ntext\n{#v17\n side=right}\n{.a}{.b side=\"x}y\"}\n";
    let mut n = t;
    n = held(rt, n, line_is(s, 1, 0, 18));
    n = held(rt, n, line_is(s, 2, 19, 23));
    n = held(rt, n, line_is(s, 3, 24, 29));
    n = held(rt, n, line_is(s, 4, 30, 42));
    n = held(rt, n, line_is(s, 5, 43, 62));
    n = held(rt, n, is_missing(s, 6));
    n
}

// One CR goes before an LF, none at the text's end, and no other byte ends a line.
fn line_ends(rt: &impl Print, t: Tally) -> Tally {
    let mut n = t;
    n = held(rt, n, line_is(b"a\r\nb", 1, 0, 1));
    n = held(rt, n, line_is(b"a\r\nb", 2, 3, 4));
    n = held(rt, n, line_is(b"a\r\r\nb", 1, 0, 2));
    n = held(rt, n, line_is(b"a\r", 1, 0, 2));
    n = held(rt, n, line_is(b"a\n\r", 2, 2, 3));
    n = held(rt, n, line_is(b"\r\n", 1, 0, 0));
    n = held(rt, n, line_is(b"\n\r\n", 2, 1, 1));
    n = held(rt, n, line_is(b"a\rb", 1, 0, 3));
    n = held(rt, n, line_is(b"a\x0B\x0C\xC2\x85\xE2\x80\xA8b\n", 1, 0, 9));
    n
}

// Line 0, a line past the last and every line of the empty text; what follows the last LF is a line if it isn't empty.
fn missing_lines(rt: &impl Print, t: Tally) -> Tally {
    let mut n = t;
    n = held(rt, n, is_missing(b"a\nb", 0));
    n = held(rt, n, line_is(b"a\nb", 2, 2, 3));
    n = held(rt, n, is_missing(b"a\nb", 3));
    n = held(rt, n, is_missing(b"a\n", 2));
    n = held(rt, n, line_is(b"a\n\n", 2, 2, 2));
    n = held(rt, n, is_missing(b"a\n\n", 3));
    n = held(rt, n, line_is(b"\n", 1, 0, 0));
    n = held(rt, n, is_missing(b"", 0));
    n = held(rt, n, is_missing(b"", 1));
    n = held(rt, n, is_missing(b"a", 18446744073709551615));
    n
}
