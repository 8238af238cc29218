// Whether the rows of a set past its counts are zero, as document 01 asks of every set that is handed out, and so an id that isn't given.
use crate::fields;
use set_table::{Attrs, Name, Origin, Row, Slot, SlotRecord, Text, Value};

// Whether all classes, keys and slots past the counts are zero, and an id that isn't given.
pub(crate) fn is_zero(set: Attrs) -> bool {
    let id = set.id;
    let classes = set.classes;
    let keys = set.keys;
    let order = set.order;
    if !is_given_or_zero(set.given, id) {
        return false;
    }
    if !are_zero_values(classes, fields::wide(set.nclass)) {
        return false;
    }
    if !are_zero_rows(keys, fields::wide(set.nkey)) {
        return false;
    }
    are_zero_slots(order, fields::wide(set.norder))
}

fn is_given_or_zero(given: bool, id: Value) -> bool {
    if given {
        return true;
    }
    is_zero_value(id)
}

fn are_zero_values(rows: [Value; Attrs::CLASSES], n: usize) -> bool {
    rows.iter().skip(n).all(|row| is_zero_value(*row))
}

fn are_zero_rows(rows: [Row; Attrs::KEYS], n: usize) -> bool {
    rows.iter().skip(n).all(|row| is_zero_row(*row))
}

fn are_zero_slots(rows: [SlotRecord; Attrs::SLOTS], n: usize) -> bool {
    rows.iter().skip(n).all(|row| is_zero_slot(*row))
}

// A zero value is plain, of no bytes at the first text's front.
fn is_zero_value(value: Value) -> bool {
    value.text == Text::Plain(Origin::First, 0, 0)
}

// A zero key's name is a range of no bytes at the first text's front, and its value is zero.
fn is_zero_row(row: Row) -> bool {
    row.name == Name::Range(Origin::First, 0, 0) && is_zero_value(row.value)
}

// A zero slot is that of the first key.
fn is_zero_slot(record: SlotRecord) -> bool {
    record.slot == Slot::Key(0)
}
