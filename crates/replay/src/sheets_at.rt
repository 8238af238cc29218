// Requests for whole sheets.
use crate::{fields, out, reply};
use sheet_report::{Part, Told};

// How far the answer goes, at which place and line the report goes on, and whether it does.
#[derive(Clone, Copy)]
struct State {
    to: usize,
    at: usize,
    line: usize,
    more: bool,
}

// A text: its report, laid into the answer part by part by way of b. The join buffer is the whole one.
pub(crate) fn answer(
    text: &[u8],
    b: &mut [u8],
    join: &mut [u8],
    output: &mut [u8],
    at: usize,
) -> usize {
    let words = reply::put_phrase(output, at, reply::SHEET);
    let to = put_report(text, b, join, output, words);
    put_none(output, words, to)
}

// A proved loop has to end: this one goes on for more turns than any sheet needs.
fn put_report(text: &[u8], b: &mut [u8], join: &mut [u8], output: &mut [u8], at: usize) -> usize {
    let mut s = State {
        to: at,
        at: 0,
        line: 0,
        more: true,
    };
    for _ in 0..u64::MAX {
        s = put_next(text, b, join, output, s);
        if !s.more {
            return s.to;
        }
    }
    s.to
}

// Lays one part and adds it.
fn put_next(text: &[u8], b: &mut [u8], join: &mut [u8], output: &mut [u8], s: State) -> State {
    let part = lay_next(text, s.at, s.line, join, b);
    State {
        to: out::put_pairs(output, s.to, fields::part(b, 0, part.len)),
        at: part.at,
        line: part.line,
        more: is_more(part),
    }
}

// Lays the next part; there is no line 0, which stands for the start.
fn lay_next(text: &[u8], at: usize, line: usize, join: &mut [u8], b: &mut [u8]) -> Part {
    if line == 0 {
        return sheet_report::report_start(text, join, b);
    }
    sheet_report::report_part(text, at, line, join, b)
}

fn is_more(part: Part) -> bool {
    matches!(part.told, Ok(Told::More))
}

// Adds `-` where nothing was added.
fn put_none(output: &mut [u8], from: usize, to: usize) -> usize {
    if from < to {
        return to;
    }
    out::put_byte(output, to, b'-')
}
