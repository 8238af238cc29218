// Sets without their key `loose`: that of the block at a line, and a merged one.
use crate::reply::Reply;
use crate::{fields, reply};
use set_table::{Attrs, Filled};

// The block at a line. The second text of its set is what was joined.
pub(crate) fn answer(line: usize, text: &[u8], canon: &mut [u8], join: &mut [u8]) -> Reply {
    let block = read_by_line::parse_standalone_attrs_block(text, line, join);
    let outcome = block.outcome;
    match outcome {
        Err(r) => reply::refused(reply::UNREAD, r),
        Ok(()) => {
            let joined = fields::part(join, 0, block.joined);
            taken_out(text, joined, block.set, canon)
        }
    }
}

// What a merge answers, over the texts.
pub(crate) fn merged<'a>(
    first: &'a [u8],
    second: &'a [u8],
    filled: Filled,
    canon: &mut [u8],
) -> Reply {
    let outcome = filled.outcome;
    match outcome {
        Err(r) => reply::refused(reply::REFUSED, r),
        Ok(()) => taken_out(first, second, filled.set, canon),
    }
}

// Whether the key was taken out of the set, and the set that is left.
fn taken_out<'a>(first: &'a [u8], second: &'a [u8], set: Attrs, canon: &mut [u8]) -> Reply {
    let consumed = set_loose::consume_loose(first, second, set);
    let did = consumed.did;
    let left = consumed.set;
    match did {
        Err(r) => reply::refused(reply::REFUSED, r),
        Ok(true) => reply::with_set(reply::alone(reply::YES), first, second, left, canon),
        Ok(false) => reply::with_set(reply::alone(reply::NO), first, second, left, canon),
    }
}
