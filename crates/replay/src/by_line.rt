// Requests by line: blocks, runs, and what the join buffer holds behind a call. Between requests the join buffer has the byte FF
// everywhere, which no UTF-8 text holds.
use crate::ask::Ask;
use crate::reply::Reply;
use crate::{brace, fields, merging, refusing, reply, rows};
use read_blocks::Block;
use read_lengths::Measure;

// What only measures, and refused runs, by the number of the word in the list of `ask`.
pub(crate) fn answer(q: Ask, text: &[u8], join: &mut [u8]) -> Reply {
    let word = q.word;
    match word {
        8 => refusing::run(text, q.x, join),
        9 => refusing::ends(text, join),
        _ => measured(measure(q, text, join), join),
    }
}

// A line, or a column and a line.
fn measure(q: Ask, text: &[u8], join: &mut [u8]) -> Measure {
    let word = q.word;
    match word {
        5 => read_lengths::standalone_attrs_block_len(text, q.x, join),
        6 => read_lengths::indented_wrapped_attrs_block_len(text, q.x, join),
        _ => read_lengths::attrs_block_len_at(text, q.y, q.x, join),
    }
}

// Blocks that may be joined.
pub(crate) fn answer_block(q: Ask, text: &[u8], join: &mut [u8], canon: &mut [u8]) -> Reply {
    let block = read(q, text, join);
    read_block(text, block, join, canon)
}

// A line, or a column and a line.
fn read(q: Ask, text: &[u8], join: &mut [u8]) -> Block {
    if q.word == 10 {
        return read_by_line::parse_standalone_attrs_block(text, q.x, join);
    }
    read_by_line::wrapped_attrs_run_at(text, q.y, q.x, join)
}

// A line, two lines that are merged, or a place: sets over the text itself.
pub(crate) fn answer_set(q: Ask, text: &[u8], canon: &mut [u8]) -> Reply {
    let word = q.word;
    match word {
        12 => merging::filled(
            text,
            b"",
            read_by_line::parse_standalone_attrs(text, q.x),
            canon,
        ),
        13 => merging::answer(text, false, canon),
        14 => merging::answer(text, true, canon),
        15 => brace::answer_read(text, q.x, q.mode, canon),
        _ => rows::answer(text, q.x, q.mode, canon),
    }
}

// What a block reads. The second text of its set is what was joined.
fn read_block<'a>(text: &'a [u8], block: Block, join: &'a [u8], canon: &mut [u8]) -> Reply {
    let outcome = block.outcome;
    match outcome {
        Err(r) => { reply::with_run(reply::refused(reply::REFUSED, r), block.lookahead, join) }
        Ok(()) => {
            let head = reply::numbered(reply::OK_LINES, block.lines);
            let run = reply::with_run(head, block.lookahead, join);
            reply::with_set(
                run,
                text,
                fields::part(join, 0, block.joined),
                block.set,
                canon,
            )
        }
    }
}

// What measuring answers.
fn measured(measure: Measure, join: &[u8]) -> Reply {
    let length = measure.length;
    match length {
        Err(r) => { reply::with_run(reply::refused(reply::REFUSED, r), measure.lookahead, join) }
        Ok(n) => reply::with_run(reply::numbered(reply::OK_LINES, n), measure.lookahead, join),
    }
}

// Lays the byte FF everywhere.
pub(crate) fn clear(join: &mut [u8]) {
    join.fill(255);
}
