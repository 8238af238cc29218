// The columns that a set says: that of the block at a line, and a merged one. They are laid into b.
use crate::reply::Reply;
use crate::{fields, out, reply};
use set_columns::{Align, Column, Columns, Valign, Width};
use set_table::{Attrs, Filled, Origin};

// The block at a line. The second text of its set is what was joined.
pub(crate) fn answer(line: usize, text: &[u8], b: &mut [u8], join: &mut [u8]) -> Reply {
    let block = read_by_line::parse_standalone_attrs_block(text, line, join);
    let outcome = block.outcome;
    match outcome {
        Err(r) => reply::refused(reply::UNREAD, r),
        Ok(()) => {
            let joined = fields::part(join, 0, block.joined);
            columns(text, joined, block.set, b, false, block.joined)
        }
    }
}

// What a merge answers, over the texts.
pub(crate) fn merged<'a>(first: &'a [u8], second: &'a [u8], filled: Filled, b: &mut [u8]) -> Reply {
    let outcome = filled.outcome;
    match outcome {
        Err(r) => reply::refused(reply::REFUSED, r),
        Ok(()) => columns(first, second, filled.set, b, true, 0),
    }
}

// The columns of a set; `pair` says that widths tell which text they are of.
fn columns<'a>(
    first: &'a [u8],
    second: &'a [u8],
    set: Attrs,
    b: &mut [u8],
    pair: bool,
    joined: usize,
) -> Reply {
    let made = set_columns::table_columns(first, second, set);
    let outcome = made.outcome;
    match outcome {
        Err(r) => reply::refused(reply::REFUSED, r),
        Ok(()) => {
            let to = put_columns(b, made.table, pair);
            reply::numbered(reply::LETTERS, put_over(b, to, pair, joined))
        }
    }
}

// Which text the widths are of, where they don't say so one by one.
fn put_over(b: &mut [u8], at: usize, pair: bool, joined: usize) -> usize {
    if pair {
        return at;
    }
    if joined == 0 {
        return out::put(b, at, b" over lent");
    }
    out::put(b, at, b" over joined")
}

// The count, and each column.
fn put_columns(b: &mut [u8], table: Columns, pair: bool) -> usize {
    let n = table.count as usize;
    let columns = table.columns;
    let head = out::put(b, 0, b"columns ");
    let mut to = out::put_number(b, head, n);
    for (k, column) in columns.iter().enumerate() {
        to = put_column(b, to, *column, pair, k < n);
    }
    to
}

// A column that counts.
fn put_column(b: &mut [u8], at: usize, column: Column, pair: bool, counts: bool) -> usize {
    if !counts {
        return at;
    }
    let align = column.align;
    let valign = column.valign;
    let width = column.width;
    let next = put_align(b, at, align);
    let last = put_valign(b, next, valign);
    put_width(b, last, width, pair)
}

fn put_align(b: &mut [u8], at: usize, align: Option<Align>) -> usize {
    match align {
        None => out::put(b, at, b" none"),
        Some(Align::Left) => out::put(b, at, b" left"),
        Some(Align::Right) => out::put(b, at, b" right"),
        Some(Align::Center) => out::put(b, at, b" center"),
    }
}

fn put_valign(b: &mut [u8], at: usize, valign: Option<Valign>) -> usize {
    match valign {
        None => out::put(b, at, b" none"),
        Some(Valign::Top) => out::put(b, at, b" top"),
        Some(Valign::Middle) => out::put(b, at, b" middle"),
        Some(Valign::Bottom) => out::put(b, at, b" bottom"),
    }
}

fn put_width(b: &mut [u8], at: usize, width: Option<Width>, pair: bool) -> usize {
    match width {
        None => out::put(b, at, b" none"),
        Some(Width::Empty) => out::put(b, at, b" empty"),
        Some(Width::Range(o, f, t)) => {
            let next = put_origin(b, at, o, pair);
            put_range(b, next, f as usize, t as usize)
        }
    }
}

fn put_range(b: &mut [u8], at: usize, from: usize, to: usize) -> usize {
    let next = out::put_number(b, at, from);
    let last = out::put_byte(b, next, b'-');
    out::put_number(b, last, to)
}

// A space and, of a pair, which text.
fn put_origin(b: &mut [u8], at: usize, origin: Origin, pair: bool) -> usize {
    if !pair {
        return out::put_byte(b, at, b' ');
    }
    match origin {
        Origin::First => out::put(b, at, b" 1:"),
        Origin::Second => out::put(b, at, b" 2:"),
    }
}
