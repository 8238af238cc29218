// Each clause of 'well-formed', broken once; and what is odd but well-formed.
use crate::changed::{class, counts, id, key, last_slot, second_key, value};
use crate::good::{plain, quoted, row, slot};
use crate::{good, report};
use set_table::{Attrs, Name, Row, Slot, Text, Value};

pub(crate) fn run(rt: &impl Print, text: &[u8]) {
    whole(rt, text);
    too_many(rt, text);
    ranges(rt, text);
    names(rt, text);
    lang_twice(rt, text);
    reserved(rt, text);
    values(rt, text);
    classes(rt, text);
    missing_slots(rt, text);
    classes_slot_twice(rt, text);
    absent(rt, text);
    past_counts(rt, text);
    odd_classes(rt, text);
}

// "the texts give neither 1 nor 2"
fn whole(rt: &impl Print, text: &[u8]) {
    report(rt, b"good", text, good::set());
    too_long(rt);
    report(rt, b"a text that isn't UTF-8", b"\xFF", Attrs::empty());
}

fn too_long(rt: &impl Print) {
    let long = [b'a'; 65536];
    report(rt, b"a text of 65,536 bytes", &long, good::set());
}

// "counts within the limits"
fn too_many(rt: &impl Print, text: &[u8]) {
    counts(
        rt,
        b"a class too many",
        text,
        Attrs::CLASSES as u8 + 1,
        2,
        4,
    );
    counts(rt, b"a key too many", text, 1, Attrs::KEYS as u8 + 1, 4);
    counts(rt, b"a slot too many", text, 1, 2, Attrs::SLOTS as u8 + 1);
    counts(rt, b"all counts 255", text, 255, 255, 255);
}

// "ranges inside their text on character boundaries"
fn ranges(rt: &impl Print, text: &[u8]) {
    id(rt, b"an id past the text's end", text, 41, 46);
    id(rt, b"an id far behind the text", text, 65535, 65535);
    class(rt, b"a class whose range goes back", text, plain(9, 4));
    value(rt, b"a value that ends in a character", text, plain(34, 36));
    value(
        rt,
        b"a value that begins in a character",
        text,
        quoted(36, 37),
    );
    key(rt, b"a name past the text's end", text, 10, 46);
}

// "keys by the grammar, distinct, not `id` or `class`"
fn names(rt: &impl Print, text: &[u8]) {
    key(rt, b"a key that begins with a digit", text, 29, 31);
    key(rt, b"a key of no bytes", text, 10, 10);
    key(rt, b"a key with a space", text, 10, 19);
    second_key(rt, b"a key twice", text, row(10, 14, plain(0, 3)));
}

fn lang_twice(rt: &impl Print, text: &[u8]) {
    let mut s = good::set();
    s.keys[0] = row(41, 45, plain(0, 3));
    s.keys[1] = Row {
        name: Name::Lang,
        value: plain(0, 3),
    };
    report(rt, b"`lang` by its bytes and as the fixed name", text, s);
}

fn reserved(rt: &impl Print, text: &[u8]) {
    key(rt, b"a key `id`", text, 20, 22);
    key(rt, b"a key `class`", text, 23, 28);
}

// "no LF in an unescaped id, class or key value"
fn values(rt: &impl Print, text: &[u8]) {
    id(rt, b"an LF in an id", text, 37, 38);
    class(rt, b"an LF as a class", text, plain(37, 38));
    second_key(
        rt,
        b"an LF in a quoted value",
        text,
        row(32, 33, quoted(34, 39)),
    );
}

// "a class is free of whitespace or nothing but whitespace"
fn classes(rt: &impl Print, text: &[u8]) {
    class(rt, b"a class with a space", text, plain(4, 14));
    class(
        rt,
        b"a class of a backslash and a space",
        text,
        quoted(39, 41),
    );
}

// "slots name exactly the Id, Class and keys present, once each"
fn missing_slots(rt: &impl Print, text: &[u8]) {
    counts(rt, b"a key without a slot", text, 1, 2, 3);
    last_slot(rt, b"a slot of a row that isn't there", text, 2);
    last_slot(rt, b"a slot of row 255", text, 255);
    last_slot(rt, b"a slot twice", text, 1);
}

fn classes_slot_twice(rt: &impl Print, text: &[u8]) {
    let mut s = good::set();
    s.order[4] = slot(Slot::Class);
    s.norder = 5;
    report(rt, b"the classes' slot twice", text, s);
}

fn absent(rt: &impl Print, text: &[u8]) {
    let mut s = good::set();
    s.given = false;
    report(rt, b"an id's slot without an id", text, s);
    counts(rt, b"the classes' slot without a class", text, 0, 2, 4);
    let mut s = good::set();
    s.order[1] = slot(Slot::Class);
    report(rt, b"an id without a slot", text, s);
}

// Well-formed all the same: what stands past the counts, rows out of order, empty and white classes, the empty set.
fn past_counts(rt: &impl Print, text: &[u8]) {
    let mut s = good::set();
    s.classes[Attrs::CLASSES - 1] = plain(9, 4);
    s.keys[Attrs::KEYS - 1] = row(65535, 0, plain(9, 4));
    s.order[Attrs::SLOTS - 1] = slot(Slot::Key(255));
    report(rt, b"nonsense past the counts", text, s);
}

fn odd_classes(rt: &impl Print, text: &[u8]) {
    let mut s = good::set();
    s.classes[0] = plain(9, 10);
    s.classes[1] = Value { text: Text::Empty };
    s.nclass = 2;
    report(rt, b"a class of a space and one of no bytes", text, s);
    report(rt, b"the empty set", text, Attrs::empty());
}
