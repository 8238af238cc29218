// Tables with ranges of either of two texts, and what a range of the second text breaks.
use crate::good::{plain, plain_of, quoted_of, row, row_of};
use crate::{good, over};
use set_table::{Origin, Row, Value};

pub(crate) fn run<'a>(rt: &impl Print, t: &'a [u8], u: &'a [u8]) {
    either(rt, t, u);
    alone(rt, t);
    of_empty(rt, t);
    ranges(rt, t, u);
    cut_values(rt, t, u);
    names(rt, t, u);
    values(rt, t, u);
}

// Ranges of the second text.
fn other(from: u16, to: u16) -> Value {
    plain_of(Origin::Second, from, to)
}

fn other_row(from: u16, to: u16, value: Value) -> Row {
    row_of(Origin::Second, from, to, value)
}

// The good table of the first text with one thing changed, reported over both texts.
fn id<'a>(rt: &impl Print, name: &'a [u8], t: &'a [u8], u: &'a [u8], value: Value) {
    let mut s = good::set();
    s.id = value;
    over(rt, name, t, u, s, good::set());
}

fn class<'a>(rt: &impl Print, name: &'a [u8], t: &'a [u8], u: &'a [u8], value: Value) {
    let mut s = good::set();
    s.classes[0] = value;
    over(rt, name, t, u, s, good::set());
}

fn key<'a>(rt: &impl Print, name: &'a [u8], t: &'a [u8], u: &'a [u8], key: Row) {
    let mut s = good::set();
    s.keys[0] = key;
    over(rt, name, t, u, s, good::set());
}

fn value<'a>(rt: &impl Print, name: &'a [u8], t: &'a [u8], u: &'a [u8], value: Value) {
    key(rt, name, t, u, row(10, 14, value));
}

// The first key's name, of the second text.
fn name<'a>(rt: &impl Print, name: &'a [u8], t: &'a [u8], u: &'a [u8], from: u16, to: u16) {
    key(rt, name, t, u, other_row(from, to, plain(15, 19)));
}

// "Every range shall say which of two lent texts it belongs to"
fn either<'a>(rt: &impl Print, t: &'a [u8], u: &'a [u8]) {
    id(rt, b"an id of the second text", t, u, other(0, 4));
    class(rt, b"a class of the second text", t, u, other(5, 9));
    value(
        rt,
        b"a name of the first text, its value of the second",
        t,
        u,
        other(5, 9),
    );
    name(
        rt,
        b"a name of the second text, its value of the first",
        t,
        u,
        15,
        19,
    );
    let quotes = quoted_of(Origin::Second, 12, 14);
    key(
        rt,
        b"a key of the second text",
        t,
        u,
        other_row(0, 4, quotes),
    );
}

// "A set with one text only, the other being lent empty, behaves as before."
fn alone(rt: &impl Print, t: &[u8]) {
    let a = good::set();
    let b = good::set_of(Origin::Second);
    over(rt, b"a set of the first text alone", t, b"", a, a);
    over(rt, b"a set of the second text alone", b"", t, b, b);
}

fn of_empty(rt: &impl Print, t: &[u8]) {
    let a = good::set();
    let b = good::set_of(Origin::Second);
    over(rt, b"a set of the first text, which is empty", b"", t, a, b);
    over(
        rt,
        b"a set of the second text, which is empty",
        t,
        b"",
        b,
        a,
    );
    class(rt, b"no bytes of an empty text", t, b"", other(0, 0));
    class(rt, b"a byte of an empty text", t, b"", other(0, 1));
}

// "ranges inside their text on character boundaries"
fn ranges<'a>(rt: &impl Print, t: &'a [u8], u: &'a [u8]) {
    id(
        rt,
        b"an id past the second text's end alone",
        t,
        u,
        other(23, 29),
    );
    class(
        rt,
        b"a class past the second text's end alone",
        t,
        u,
        other(23, 29),
    );
    name(rt, b"a name past the second text's end alone", t, u, 23, 29);
    class(
        rt,
        b"a class that goes back in the second text",
        t,
        u,
        other(9, 5),
    );
}

fn cut_values<'a>(rt: &impl Print, t: &'a [u8], u: &'a [u8]) {
    let cut = quoted_of(Origin::Second, 10, 11);
    value(
        rt,
        b"a value past the second text's end alone",
        t,
        u,
        other(23, 29),
    );
    value(
        rt,
        b"a value that ends in the second text's character",
        t,
        u,
        other(5, 10),
    );
    value(
        rt,
        b"a value that begins in the second text's character",
        t,
        u,
        cut,
    );
}

// "keys by the grammar, distinct, not `id` or `class`"
fn names<'a>(rt: &impl Print, t: &'a [u8], u: &'a [u8]) {
    let mut s = good::set();
    s.keys[1] = other_row(15, 19, plain(0, 3));
    over(rt, b"a key twice, once by each text", t, u, s, good::set());
    name(rt, b"a key with the second text's space", t, u, 0, 9);
    name(rt, b"a key `id` of the second text", t, u, 20, 22);
    name(rt, b"a key `class` of the second text", t, u, 23, 28);
}

// "no LF in an unescaped id, class or key value", "a class is free of whitespace or nothing but whitespace"
fn values<'a>(rt: &impl Print, t: &'a [u8], u: &'a [u8]) {
    let line = quoted_of(Origin::Second, 9, 12);
    id(rt, b"the second text's LF in an id", t, u, other(11, 12));
    class(rt, b"the second text's LF as a class", t, u, other(11, 12));
    value(rt, b"the second text's LF in a quoted value", t, u, line);
    class(
        rt,
        b"a class with the second text's space",
        t,
        u,
        other(0, 9),
    );
}
