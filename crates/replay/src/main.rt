// Answers request lines from standard input, one line for each: the Rattle side of the comparison with the Rust.
#![tactic(auto)]

mod ask;
mod brace;
mod by_line;
mod columns;
mod dealers;
mod fields;
mod indexes;
mod input;
mod leaves;
mod loose;
mod merging;
mod out;
mod past;
mod places;
mod readers;
mod refusing;
mod reply;
mod reports;
mod rows;
mod sheets_at;
mod tags;
mod two_texts;

use crate::ask::Ask;
use crate::reply::Reply;

// A request line fits the input buffer with its LF: four texts in hex and the words around them, and some more.
const INPUT: usize = 800100;
// The longest text of a request; a canonical text is no longer.
pub(crate) const TEXT: usize = 65600;
// The join buffer.
pub(crate) const JOIN: usize = 65535;
// The longest answer is a sheet's, six times its text and in hex, and stands behind those that wait to be written.
const OUTPUT: usize = 1048576;

fn main(rt: HostRuntime) {
    let mut input = [0u8; INPUT];
    let mut a = [0u8; TEXT];
    let mut b = [0u8; TEXT];
    let mut join = [255u8; JOIN];
    let mut index = [0u8; indexes::INDEX];
    let mut table = [0usize; indexes::TABLE];
    let mut laid = [0u8; indexes::INDEX];
    let mut output = [0u8; OUTPUT];
    input::answer_all(
        &rt,
        &mut input,
        &mut a,
        &mut b,
        &mut join,
        &mut index,
        &mut table,
        &mut laid,
        &mut output,
    );
}

// Answers one request, its text or texts laid into a and b and an index into `index`, behind what stands in the output up to `at`.
pub(crate) fn answer(
    line: &[u8],
    a: &mut [u8],
    b: &mut [u8],
    join: &mut [u8],
    index: &mut [u8],
    table: &mut [usize],
    laid: &mut [u8],
    output: &mut [u8],
    at: usize,
) -> usize {
    let word = indexes::word_of(line);
    if word < indexes::NONE {
        let to = indexes::answer(word, line, a, b, join, index, table, laid, output, at);
        by_line::clear(join);
        return to;
    }
    answer_sheets(line, a, b, join, output, at)
}

// Answers a request about sheets.
fn answer_sheets(
    line: &[u8],
    a: &mut [u8],
    b: &mut [u8],
    join: &mut [u8],
    output: &mut [u8],
    at: usize,
) -> usize {
    let word = reports::word_of(line);
    if word < reports::NONE {
        let to = reports::answer(word, line, a, join, output, at);
        by_line::clear(join);
        return to;
    }
    let tag = tags::word_of(line);
    if tag < tags::NONE {
        return tags::answer(tag, line, a, b, output, at);
    }
    answer_leaf(line, a, b, join, output, at)
}

// Answers a request for how far a name or a tag goes on.
fn answer_leaf(
    line: &[u8],
    a: &mut [u8],
    b: &mut [u8],
    join: &mut [u8],
    output: &mut [u8],
    at: usize,
) -> usize {
    if places::is_asked(line) {
        return places::answer(line, a, output, at);
    }
    answer_one(line, a, b, join, output, at)
}

// Answers a request about one text or two.
fn answer_one(
    line: &[u8],
    a: &mut [u8],
    b: &mut [u8],
    join: &mut [u8],
    output: &mut [u8],
    at: usize,
) -> usize {
    let q = ask::read(line, a, b);
    let text = fields::part(a, 0, q.n);
    let to = answer_asked(q, text, b, join, output, at);
    by_line::clear(join);
    to
}

// Answers what is asked of a text, by way of b.
fn answer_asked(
    q: Ask,
    text: &[u8],
    b: &mut [u8],
    join: &mut [u8],
    output: &mut [u8],
    at: usize,
) -> usize {
    if q.word == ask::SHEET {
        return sheets_at::answer(text, b, join, output, at);
    }
    let r = reply_to(q, text, b, join);
    reply::put(output, at, r, b, join)
}

// Works out an answer with a join buffer of `cap` bytes.
fn reply_to(q: Ask, text: &[u8], b: &mut [u8], join: &mut [u8]) -> Reply {
    let cap = q.cap;
    if cap <= join.len() {
        let part = &mut join[..cap];
        return reply_by(q, text, b, part);
    }
    reply::alone(reply::ERROR)
}

// Works out an answer by the number of the word, with those buffers alone that it needs.
fn reply_by(q: Ask, text: &[u8], b: &mut [u8], join: &mut [u8]) -> Reply {
    let word = q.word;
    if word < ask::JOINS {
        return brace::answer(word, q.x, text);
    }
    if word < ask::BLOCKS {
        return by_line::answer(q, text, join);
    }
    if word < ask::SETS {
        return by_line::answer_block(q, text, join, b);
    }
    if word < ask::PAIRS {
        return by_line::answer_set(q, text, b);
    }
    if word < ask::LOOSE {
        return two_texts::answer(q, text, b, join);
    }
    if word < ask::COLUMNS {
        return loose::answer(q.x, text, b, join);
    }
    if word < ask::VARIANTS {
        return columns::answer(q.x, text, b, join);
    }
    if word < ask::SHEET {
        return dealers::answer(text, b, join);
    }
    if word < ask::LEAF_AT {
        return leaves::answer(word, q.x, text, b);
    }
    leaves::answer_at(word, q.x, text, fields::part(b, 0, q.m))
}
