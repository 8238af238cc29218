// Tables that list two classes, equal or not, whichever ranges and texts they are of.
use crate::changed::counts;
use crate::good::{plain, plain_of, quoted, quoted_of};
use crate::{good, over};
use set_table::{Attrs, Origin, Text, Value};

pub(crate) fn run<'a>(rt: &impl Print, t: &'a [u8], u: &'a [u8]) {
    equal(rt, t, u);
    unequal(rt, t, u);
    escaped(rt, t);
    // rows that are zero have no bytes
    counts(
        rt,
        b"as many classes as fit, all but the first of no bytes",
        t,
        Attrs::CLASSES as u8,
        2,
        4,
    );
}

// The good table with two classes.
fn pair<'a>(rt: &impl Print, name: &'a [u8], t: &'a [u8], u: &'a [u8], a: Value, b: Value) {
    let mut s = good::set();
    s.classes[0] = a;
    s.classes[1] = b;
    s.nclass = 2;
    over(rt, name, t, u, s, good::set());
}

// "a class equal byte for byte to an earlier one doesn't count"
fn equal<'a>(rt: &impl Print, t: &'a [u8], u: &'a [u8]) {
    let none = Value { text: Text::Empty };
    let side = plain_of(Origin::Second, 15, 19);
    let space = quoted_of(Origin::Second, 14, 15);
    pair(
        rt,
        b"a class twice by one range",
        t,
        u,
        plain(4, 9),
        plain(4, 9),
    );
    pair(
        rt,
        b"a class plain and quoted",
        t,
        u,
        plain(4, 9),
        quoted(4, 9),
    );
    pair(
        rt,
        b"a class twice, once by each text",
        t,
        u,
        plain(10, 14),
        side,
    );
    pair(rt, b"a space of each text", t, u, plain(9, 10), space);
    pair(
        rt,
        b"no bytes by a range and by none",
        t,
        u,
        plain_of(Origin::Second, 0, 0),
        none,
    );
}

fn unequal<'a>(rt: &impl Print, t: &'a [u8], u: &'a [u8]) {
    pair(rt, b"a class and its front", t, u, plain(4, 9), plain(4, 7));
    pair(rt, b"classes that overlap", t, u, plain(4, 8), plain(5, 9));
    pair(
        rt,
        b"the same places of two texts",
        t,
        u,
        plain(0, 3),
        plain_of(Origin::Second, 0, 3),
    );
}

// The second text is a backslash and a double quote: in quotes they are the double quote alone.
fn escaped(rt: &impl Print, t: &[u8]) {
    let u = b"\\\"";
    let quote = plain_of(Origin::Second, 1, 2);
    pair(
        rt,
        b"a quote, and one with its backslash, quoted",
        t,
        u,
        quote,
        quoted_of(Origin::Second, 0, 2),
    );
    pair(
        rt,
        b"a quote, and one with its backslash, plain",
        t,
        u,
        quote,
        plain_of(Origin::Second, 0, 2),
    );
}
