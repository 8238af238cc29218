// The good table with one thing changed, reported.
use crate::good::{plain, row, slot};
use crate::{good, report};
use set_table::{Row, Slot, Value};

pub(crate) fn counts<'a>(
    rt: &impl Print,
    name: &'a [u8],
    text: &'a [u8],
    nclass: u8,
    nkey: u8,
    norder: u8,
) {
    let mut s = good::set();
    s.nclass = nclass;
    s.nkey = nkey;
    s.norder = norder;
    report(rt, name, text, s);
}

pub(crate) fn id<'a>(rt: &impl Print, name: &'a [u8], text: &'a [u8], from: u16, to: u16) {
    let mut s = good::set();
    s.id = plain(from, to);
    report(rt, name, text, s);
}

pub(crate) fn class<'a>(rt: &impl Print, name: &'a [u8], text: &'a [u8], value: Value) {
    let mut s = good::set();
    s.classes[0] = value;
    report(rt, name, text, s);
}

// The first key's name.
pub(crate) fn key<'a>(rt: &impl Print, name: &'a [u8], text: &'a [u8], from: u16, to: u16) {
    let mut s = good::set();
    s.keys[0] = row(from, to, plain(15, 19));
    report(rt, name, text, s);
}

// The first key's value.
pub(crate) fn value<'a>(rt: &impl Print, name: &'a [u8], text: &'a [u8], value: Value) {
    let mut s = good::set();
    s.keys[0] = row(10, 14, value);
    report(rt, name, text, s);
}

pub(crate) fn second_key<'a>(rt: &impl Print, name: &'a [u8], text: &'a [u8], key: Row) {
    let mut s = good::set();
    s.keys[1] = key;
    report(rt, name, text, s);
}

// The last slot, of a row.
pub(crate) fn last_slot<'a>(rt: &impl Print, name: &'a [u8], text: &'a [u8], k: u8) {
    let mut s = good::set();
    s.order[3] = slot(Slot::Key(k));
    report(rt, name, text, s);
}
