// Sets over the text itself: of a line, and of two lines of one text merged.
use crate::fields::Said;
use crate::reply::Reply;
use crate::{fields, out, reply};
use set_table::{Attrs, Filled};

// 1 where a text has an LF, else 0.
fn lf_in(s: &[u8]) -> u8 {
    if fields::find(s, 0, b'\n') < s.len() {
        return 1;
    }
    0
}

// Adds an LF and the second text behind the first, each of one line. What has no room makes the text too long all the same.
pub(crate) fn behind(a: &mut [u8], first: Said, second: &[u8]) -> Said {
    let n = first.n;
    let bad = first.bad | lf_in(fields::part(a, 0, n)) | lf_in(second);
    let next = out::put_byte(a, n, b'\n');
    Said {
        bad,
        n: out::put(a, next, second),
    }
}

// The sets of the text's two lines, merged: `leading` says that the second stands before the first.
pub(crate) fn answer(text: &[u8], leading: bool, canon: &mut [u8]) -> Reply {
    let first = read_by_line::parse_standalone_attrs(text, 1);
    let outcome = first.outcome;
    match outcome {
        Err(r) => reply::refused(reply::FIRST, r),
        Ok(()) => answer_second(text, first.set, leading, canon),
    }
}

// The first set is read.
fn answer_second(text: &[u8], first: Attrs, leading: bool, canon: &mut [u8]) -> Reply {
    let second = read_by_line::parse_standalone_attrs(text, 2);
    let outcome = second.outcome;
    match outcome {
        Err(r) => reply::refused(reply::SECOND, r),
        Ok(()) => filled(text, b"", merged(text, first, second.set, leading), canon),
    }
}

// What a line alone reads, or a merge answers, over the texts.
pub(crate) fn filled<'a>(
    first: &'a [u8],
    second: &'a [u8],
    filled: Filled,
    canon: &mut [u8],
) -> Reply {
    let outcome = filled.outcome;
    match outcome {
        Err(r) => reply::refused(reply::REFUSED, r),
        Ok(()) => reply::with_set(reply::alone(reply::OK), first, second, filled.set, canon),
    }
}

// The two sets merged.
fn merged(text: &[u8], first: Attrs, second: Attrs, leading: bool) -> Filled {
    if leading {
        return set_merge::merge_leading_attrs(text, b"", first, second);
    }
    set_merge::merge_attrs(text, b"", first, second)
}
