// Requests for a set row by row: each kind, range, count and slot that the reader hands out, in words and numbers.
use crate::reply::Reply;
use crate::{fields, out, past, reply};
use base_bytes::Mode;
use base_refusals::Refusal;
use read_brace::{NotRead, Read};
use set_table::{Attrs, Name, Origin, Row, Slot, SlotRecord, Text, Value};

// A place and the number of a mode. The rows are laid into b.
pub(crate) fn answer(text: &[u8], place: usize, mode: usize, b: &mut [u8]) -> Reply {
    match mode {
        0 => told(read_brace::read_attrs_at(text, place), b),
        1 => told(read_brace::read_attrs_at_with(text, place, Mode::Loose), b),
        _ => reply::alone(reply::ERROR),
    }
}

fn told(read: Read, b: &mut [u8]) -> Reply {
    let answer = read.answer;
    match answer {
        Err(NotRead::Refused(r)) => reply::refused(reply::REFUSED, r),
        Err(NotRead::Unread(_)) => reply::refused(reply::REFUSED, Refusal::NoReading),
        Ok(next) => reply::numbered(reply::LETTERS, put_set(b, next, read.set)),
    }
}

// Lays all from the front on.
fn put_set(b: &mut [u8], next: usize, set: Attrs) -> usize {
    let id = set.id;
    let classes = set.classes;
    let keys = set.keys;
    let order = set.order;
    let behind_next = put_counted(b, 0, b"ok ", next);
    let behind_id = put_id(b, behind_next, set.given, id);
    let behind_classes = put_classes(b, behind_id, classes, fields::wide(set.nclass));
    let behind_keys = put_keys(b, behind_classes, keys, fields::wide(set.nkey));
    let behind_slots = put_slots(b, behind_keys, order, fields::wide(set.norder));
    put_past(b, behind_slots, past::is_zero(set))
}

// Adds words and the number behind them.
fn put_counted(b: &mut [u8], at: usize, words: &[u8], n: usize) -> usize {
    let to = out::put(b, at, words);
    out::put_number(b, to, n)
}

// Adds words and the two places behind them.
fn put_range(b: &mut [u8], at: usize, words: &[u8], origin: Origin, from: u16, to: u16) -> usize {
    let behind = put_origin(b, at, origin);
    let first = put_counted(b, behind, words, from as usize);
    put_counted(b, first, b" ", to as usize)
}

// Adds words for a range of the second text: a set that is read at a brace has none.
fn put_origin(b: &mut [u8], at: usize, origin: Origin) -> usize {
    match origin {
        Origin::First => at,
        Origin::Second => out::put(b, at, b" of the second text"),
    }
}

fn put_id(b: &mut [u8], at: usize, given: bool, id: Value) -> usize {
    let to = out::put(b, at, b" id");
    if given {
        return put_value(b, to, id);
    }
    out::put(b, to, b" none")
}

fn put_value(b: &mut [u8], at: usize, value: Value) -> usize {
    let text = value.text;
    match text {
        Text::Plain(origin, from, to) => put_range(b, at, b" plain ", origin, from, to),
        Text::Quoted(origin, from, to) => put_range(b, at, b" quoted ", origin, from, to),
        Text::Empty => out::put(b, at, b" empty"),
    }
}

fn put_name(b: &mut [u8], at: usize, name: Name) -> usize {
    match name {
        Name::Range(origin, from, to) => put_range(b, at, b" at ", origin, from, to),
        Name::Lang => out::put(b, at, b" lang"),
    }
}

fn put_key(b: &mut [u8], at: usize, row: Row) -> usize {
    let name = row.name;
    let value = row.value;
    let to = put_name(b, at, name);
    put_value(b, to, value)
}

fn put_slot(b: &mut [u8], at: usize, record: SlotRecord) -> usize {
    let slot = record.slot;
    match slot {
        Slot::Id => out::put(b, at, b" id"),
        Slot::Class => out::put(b, at, b" class"),
        Slot::Key(k) => put_counted(b, at, b" key ", fields::wide(k)),
    }
}

// Adds how many classes there are, and each.
fn put_classes(b: &mut [u8], at: usize, rows: [Value; Attrs::CLASSES], n: usize) -> usize {
    let mut to = put_counted(b, at, b" classes ", n);
    for row in rows.iter().take(n) {
        to = put_value(b, to, *row);
    }
    to
}

// Adds how many keys there are, and the name and the value of each.
fn put_keys(b: &mut [u8], at: usize, rows: [Row; Attrs::KEYS], n: usize) -> usize {
    let mut to = put_counted(b, at, b" keys ", n);
    for row in rows.iter().take(n) {
        to = put_key(b, to, *row);
    }
    to
}

// Adds how many slots there are, and each.
fn put_slots(b: &mut [u8], at: usize, rows: [SlotRecord; Attrs::SLOTS], n: usize) -> usize {
    let mut to = put_counted(b, at, b" slots ", n);
    for row in rows.iter().take(n) {
        to = put_slot(b, to, *row);
    }
    to
}

// Adds whether the rows past the counts are zero.
fn put_past(b: &mut [u8], at: usize, zero: bool) -> usize {
    if zero {
        return out::put(b, at, b" past zero");
    }
    out::put(b, at, b" past other")
}
