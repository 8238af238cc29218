// A well-formed table, and a short one.
use set_table::{Attrs, Name, Origin, Row, Slot, SlotRecord, Text, Value};

// Of either text.
pub(crate) fn plain_of(origin: Origin, from: u16, to: u16) -> Value {
    Value {
        text: Text::Plain(origin, from, to),
    }
}

pub(crate) fn quoted_of(origin: Origin, from: u16, to: u16) -> Value {
    Value {
        text: Text::Quoted(origin, from, to),
    }
}

pub(crate) fn row_of(origin: Origin, from: u16, to: u16, value: Value) -> Row {
    Row {
        name: Name::Range(origin, from, to),
        value,
    }
}

// Of the first text.
pub(crate) fn plain(from: u16, to: u16) -> Value {
    plain_of(Origin::First, from, to)
}

pub(crate) fn quoted(from: u16, to: u16) -> Value {
    quoted_of(Origin::First, from, to)
}

pub(crate) fn row(from: u16, to: u16, value: Value) -> Row {
    row_of(Origin::First, from, to, value)
}

pub(crate) fn slot(slot: Slot) -> SlotRecord {
    SlotRecord { slot }
}

// A class, an id, and two keys, the second of them quoted.
pub(crate) fn set() -> Attrs {
    set_of(Origin::First)
}

pub(crate) fn set_of(o: Origin) -> Attrs {
    let mut s = Attrs::empty();
    s.id = plain_of(o, 0, 3);
    s.given = true;
    s.classes[0] = plain_of(o, 4, 9);
    s.nclass = 1;
    s.keys[0] = row_of(o, 10, 14, plain_of(o, 15, 19));
    s.keys[1] = row_of(o, 32, 33, quoted_of(o, 38, 40));
    s.nkey = 2;
    s.order[0] = slot(Slot::Class);
    s.order[1] = slot(Slot::Id);
    s.order[2] = slot(Slot::Key(1));
    s.order[3] = slot(Slot::Key(0));
    s.norder = 4;
    s
}

// One class of a text's first bytes.
pub(crate) fn class_of(origin: Origin, n: u16) -> Attrs {
    let mut s = Attrs::empty();
    s.classes[0] = plain_of(origin, 0, n);
    s.nclass = 1;
    s.order[0] = slot(Slot::Class);
    s.norder = 1;
    s
}
