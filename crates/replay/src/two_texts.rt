// Sets of two texts, merged: of line 1 of each, or of the blocks there; the merged set without its key `loose`, and its columns.
use crate::ask::Ask;
use crate::reply::Reply;
use crate::{JOIN, TEXT, ask, columns, fields, loose, merging, out, reply};
use set_table::Attrs;

// The second text stands in b, where the canonical text goes, so it is laid into a buffer of its own.
pub(crate) fn answer(q: Ask, text: &[u8], b: &mut [u8], join: &mut [u8]) -> Reply {
    let mut second = [0u8; TEXT];
    let n = out::put(&mut second, 0, fields::part(b, 0, q.m));
    answer_over(q.word, text, fields::part(&second, 0, n), join, b)
}

// By line or by block.
fn answer_over<'a>(
    word: usize,
    first: &'a [u8],
    second: &'a [u8],
    join: &mut [u8],
    canon: &mut [u8],
) -> Reply {
    if word == ask::PAIRS {
        return lines(first, second, canon);
    }
    blocks(word, first, second, join, canon)
}

// Line 1 of each.
fn lines<'a>(first: &'a [u8], second: &'a [u8], canon: &mut [u8]) -> Reply {
    let read = read_by_line::parse_standalone_attrs(first, 1);
    let outcome = read.outcome;
    match outcome {
        Err(r) => reply::refused(reply::FIRST, r),
        Ok(()) => second_line(first, second, read.set, canon),
    }
}

// The first line is read.
fn second_line<'a>(first: &'a [u8], second: &'a [u8], target: Attrs, canon: &mut [u8]) -> Reply {
    let read = read_by_line::parse_standalone_attrs(second, 1);
    let outcome = read.outcome;
    match outcome {
        Err(r) => reply::refused(reply::SECOND, r),
        Ok(()) => {
            let incoming = set_exchange::exchange(read.set);
            merged(ask::PAIRS, first, second, target, incoming, canon)
        }
    }
}

// The blocks at line 1 of each.
fn blocks<'a>(
    word: usize,
    first: &'a [u8],
    second: &'a [u8],
    join: &mut [u8],
    canon: &mut [u8],
) -> Reply {
    let block = read_by_line::parse_standalone_attrs_block(first, 1, join);
    let outcome = block.outcome;
    let cap = join.len();
    match outcome {
        Err(r) => reply::refused(reply::FIRST, r),
        Ok(()) => {
            let over = set_table::text_over(first, join, block.joined);
            joined_behind(word, over, second, read_blocks::as_first(block), cap, canon)
        }
    }
}

// The first block is read. The second has a join buffer of its own, of as many bytes.
fn joined_behind<'a>(
    word: usize,
    first: &'a [u8],
    second: &'a [u8],
    target: Attrs,
    cap: usize,
    canon: &mut [u8],
) -> Reply {
    let mut join = [255u8; JOIN];
    if cap <= JOIN {
        let part = &mut join[..cap];
        return second_block(word, first, second, target, part, canon);
    }
    reply::alone(reply::ERROR)
}

// Reads the second block with that buffer.
fn second_block<'a>(
    word: usize,
    first: &'a [u8],
    second: &'a [u8],
    target: Attrs,
    join: &mut [u8],
    canon: &mut [u8],
) -> Reply {
    let block = read_by_line::parse_standalone_attrs_block(second, 1, join);
    let outcome = block.outcome;
    match outcome {
        Err(r) => reply::refused(reply::SECOND, r),
        Ok(()) => {
            let over = set_table::text_over(second, join, block.joined);
            merged(
                word,
                first,
                over,
                target,
                read_blocks::as_second(block),
                canon,
            )
        }
    }
}

// The two sets merged, and `loose` taken out of the merged one, or its columns, where the word asks for that.
fn merged<'a>(
    word: usize,
    first: &'a [u8],
    second: &'a [u8],
    target: Attrs,
    incoming: Attrs,
    canon: &mut [u8],
) -> Reply {
    let filled = set_merge::merge_attrs(first, second, target, incoming);
    if word == ask::LOOSE_PAIR {
        return loose::merged(first, second, filled, canon);
    }
    if word == ask::COLUMNS_PAIR {
        return columns::merged(first, second, filled, canon);
    }
    merging::filled(first, second, filled, canon)
}
