// Answers, by value: up to four phrases, and what stands behind each. Only what is written at the end needs the output.
use crate::{fields, out};
use base_refusals::Refusal;
use set_table::Attrs;

// The number of a phrase and what stands behind it: a number, or how many bytes of a buffer.
#[derive(Clone, Copy)]
pub(crate) struct Reply {
    first: usize,
    n: usize,
    second: usize,
    m: usize,
    run: usize,
    joined: usize,
    set: usize,
    canon: usize,
}

// Phrases that stand alone.
pub(crate) const NOTHING: usize = 0;

pub(crate) const ERROR: usize = 1;

pub(crate) const YES: usize = 2;

pub(crate) const NO: usize = 3;

pub(crate) const OK: usize = 4;

pub(crate) const NONE: usize = 5;

pub(crate) const END: usize = 6;

pub(crate) const NO_END: usize = 7;

pub(crate) const ANOTHER: usize = 8;

pub(crate) const SPOILED: usize = 9;

pub(crate) const WHOLE: usize = 10;

pub(crate) const DIFFER: usize = 11;
// Phrases with a number behind them, the first of no bytes.
pub(crate) const NUMBER: usize = 12;

pub(crate) const REFUSED: usize = 13;

pub(crate) const OK_NEXT: usize = 14;

pub(crate) const OK_LINES: usize = 15;

pub(crate) const LINES: usize = 16;

pub(crate) const NO_AT: usize = 17;

pub(crate) const FROM: usize = 18;

pub(crate) const TO: usize = 19;

pub(crate) const ENDS: usize = 20;

pub(crate) const NEXT: usize = 21;

pub(crate) const BYTE: usize = 22;

pub(crate) const FIRST: usize = 23;

pub(crate) const SECOND: usize = 24;

pub(crate) const UNREAD: usize = 25;

pub(crate) const LOOKAHEAD: usize = 26;

pub(crate) const CANON_REFUSED: usize = 27;

pub(crate) const AT: usize = 28;
// Phrases with bytes in hex behind them, the first of no bytes.
pub(crate) const BYTES: usize = 29;

pub(crate) const JOINED: usize = 30;

pub(crate) const CANON: usize = 31;
// No bytes, with bytes as they are behind them.
pub(crate) const LETTERS: usize = 32;
// What stands before a report.
pub(crate) const SHEET: usize = 33;

// Adds the phrase of a number, in the order of the numbers above.
pub(crate) fn put_phrase(output: &mut [u8], at: usize, phrase: usize) -> usize {
    let list =
        b"/error/yes/no/ok/none/end/no end/another part/ joined spoiled/whole/readers differ//refused /ok next /ok lines /lines /no /from / to /to / next /byte /unread first /unread second /unread / lookahead / canon refused / at // joined / canon //sheet ";
    out::put(output, at, fields::field(list, b'/', phrase))
}

// Adds a phrase, and the number or the bytes behind it.
fn put_part(output: &mut [u8], at: usize, phrase: usize, n: usize, bytes: &[u8]) -> usize {
    let to = put_phrase(output, at, phrase);
    if phrase < NUMBER {
        return to;
    }
    if phrase < BYTES {
        return out::put_number(output, to, n);
    }
    if phrase < LETTERS {
        return out::put_hex(output, to, fields::part(bytes, 0, n));
    }
    out::put(output, to, fields::part(bytes, 0, n))
}

// Adds an answer, with bytes of the join buffer behind what was joined, and of the other behind the rest.
pub(crate) fn put<'a>(
    output: &mut [u8],
    at: usize,
    r: Reply,
    bytes: &'a [u8],
    join: &'a [u8],
) -> usize {
    let first = put_part(output, at, r.first, r.n, bytes);
    let second = put_part(output, first, r.second, r.m, bytes);
    let run = put_part(output, second, r.run, r.joined, join);
    put_part(output, run, r.set, r.canon, bytes)
}

// Two phrases, what stands behind each.
pub(crate) fn paired(first: usize, n: usize, second: usize, m: usize) -> Reply {
    Reply {
        first,
        n,
        second,
        m,
        run: NOTHING,
        joined: 0,
        set: NOTHING,
        canon: 0,
    }
}

// A phrase and what stands behind it.
pub(crate) fn numbered(first: usize, n: usize) -> Reply {
    paired(first, n, NOTHING, 0)
}

// A phrase alone.
pub(crate) fn alone(first: usize) -> Reply {
    paired(first, 0, NOTHING, 0)
}

// `yes` or `no`.
pub(crate) fn said(yes: bool) -> Reply {
    if yes {
        return alone(YES);
    }
    alone(NO)
}

// The number of a refusal behind a phrase.
pub(crate) fn refused(first: usize, r: Refusal) -> Reply {
    numbered(first, fields::wide(base_refusals::number(r)))
}

// Adds the lookahead and what was joined. The join buffer has the byte FF behind that, which no UTF-8 text holds.
pub(crate) fn with_run(r: Reply, lookahead: usize, join: &[u8]) -> Reply {
    let n = fields::find(join, 0, 255);
    Reply {
        first: r.first,
        n: r.n,
        second: LOOKAHEAD,
        m: lookahead,
        run: run_phrase(least(fields::part(join, n, join.len()))),
        joined: n,
        set: r.set,
        canon: r.canon,
    }
}

// What is said of a join buffer by the bits that all bytes behind the first FF have.
fn run_phrase(rest: u8) -> usize {
    if rest < 255 {
        return SPOILED;
    }
    JOINED
}

// The bits that all bytes have.
fn least(s: &[u8]) -> u8 {
    s.iter().fold(255, |all, byte| all & *byte)
}

// Adds the canonical text of a set over the texts, laid into the buffer, or what the writer refuses it with.
pub(crate) fn with_set<'a>(
    r: Reply,
    first: &'a [u8],
    second: &'a [u8],
    set: Attrs,
    canon: &mut [u8],
) -> Reply {
    match set_writer::write_attrs(first, second, set, canon) {
        Err(why) => with_canon(r, CANON_REFUSED, fields::wide(base_refusals::number(why))),
        Ok(n) => with_canon(r, CANON, n),
    }
}

// Adds a phrase and what stands behind it as the last.
fn with_canon(r: Reply, set: usize, canon: usize) -> Reply {
    Reply {
        first: r.first,
        n: r.n,
        second: r.second,
        m: r.m,
        run: r.run,
        joined: r.joined,
        set,
        canon,
    }
}
