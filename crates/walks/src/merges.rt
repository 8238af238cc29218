// Sets merged into one that is lent, where it stands; a refusal leaves it as it was.
use crate::{groups, say, say_refusal};
use base_refusals::Refusal;
use set_lent::Both;
use set_table::{Attrs, Origin, Text, Value};

// Three blocks of a text, by their places: the middle one is lent, the first one leads it, and the last one comes in behind.
pub(crate) fn run(rt: &impl Print) {
    // all three
    three(rt, b"{.a k=1}{#x .b k=2 m=3}{.c #y m=4 n}", 0, 8, 23);
    // nothing leads
    three(rt, b"{.a k=1}{#x .b k=2 m=3}", 23, 0, 8);
    crowded(rt, b"{.a}{.b}{k}");
    // the text isn't UTF-8 elsewhere: 2, both times
    three(rt, b"{.a}{.b}{.c}\xFF", 0, 4, 8);
    broken(rt, b"{.a k=1}{#x .b k=2}");
    // a block of each text
    across(rt, b"{.a #x k=1}", b"{m=3 #y k=2 .b}");
    // the second text isn't UTF-8 elsewhere: 2, each time
    across(rt, b"{.a #x k=1}", b"{.b}\xFF");
    // the first text isn't UTF-8 elsewhere, and the second is one block only: 2, each time
    across(rt, b"{.a #x k=1}\xFF", b"{.b}");
    // a set of the second text whose ranges are past the first one's end, taken for one of the first: 11
    not_exchanged(rt, b"{.a}", b"{.b longer=1}");
}

// The first text's block is lent to the second one's: which leads it, or comes in behind; and the other way round, both.
fn across<'a>(rt: &impl Print, first: &'a [u8], second: &'a [u8]) {
    let target = read_brace::read_attrs_at(first, 0);
    let read = read_brace::read_attrs_at(second, 0);
    let other = set_exchange::exchange(read.set);
    let none = Attrs::empty();
    tell(
        rt,
        first,
        second,
        set_lent::merge_both(first, second, target.set, other, none),
    );
    tell(
        rt,
        first,
        second,
        set_lent::merge_both(first, second, target.set, none, other),
    );
    tell(
        rt,
        first,
        second,
        set_lent::merge_both(first, second, other, target.set, target.set),
    );
}

fn not_exchanged<'a>(rt: &impl Print, first: &'a [u8], second: &'a [u8]) {
    let target = read_brace::read_attrs_at(first, 0);
    let read = read_brace::read_attrs_at(second, 0);
    tell(
        rt,
        first,
        second,
        set_lent::merge_both(first, second, target.set, read.set, read.set),
    );
}

fn three(rt: &impl Print, text: &[u8], leading: usize, target: usize, incoming: usize) {
    let first = read_brace::read_attrs_at(text, leading);
    let middle = read_brace::read_attrs_at(text, target);
    let last = read_brace::read_attrs_at(text, incoming);
    tell(
        rt,
        text,
        b"",
        set_lent::merge_both(text, b"", middle.set, first.set, last.set),
    );
}

// As many classes are there as a set has, and one more leads: 6, and the last set comes in all the same; or a key leads, and the class comes in: 6,
// and the key that led stays.
fn crowded(rt: &impl Print, text: &[u8]) {
    let one = read_brace::read_attrs_at(text, 0);
    let read = read_brace::read_attrs_at(text, 4);
    let key = read_brace::read_attrs_at(text, 8);
    let target = groups::classes(read.set, Attrs::CLASSES as u8);
    tell(
        rt,
        text,
        b"",
        set_lent::merge_both(text, b"", target, one.set, key.set),
    );
    tell(
        rt,
        text,
        b"",
        set_lent::merge_both(text, b"", target, key.set, one.set),
    );
}

// A set with rows past its counts is lent to one that is no set: 11, and not even those rows are touched.
fn broken(rt: &impl Print, text: &[u8]) {
    let read = read_brace::read_attrs_at(text, 0);
    let mut target = read.set;
    target.classes[Attrs::CLASSES - 1] = Value {
        text: Text::Plain(Origin::First, 9, 4),
    };
    let mut bad = Attrs::empty();
    bad.nclass = Attrs::CLASSES as u8 + 1;
    let both = set_lent::merge_both(text, b"", target, bad, bad);
    tell(rt, text, b"", both);
    let set = both.set;
    say_row(rt, set.classes[Attrs::CLASSES - 1]);
    let both = set_lent::merge_both(text, b"", bad, target, target);
    tell(rt, text, b"", both);
    let set = both.set;
    let _ = println!(rt; "  one class too many still: {}", set.nclass);
}

fn say_row(rt: &impl Print, value: Value) {
    let text = value.text;
    match text {
        Text::Plain(_, from, to) => {
            let _ = println!(rt; "  the last row still goes from {from} to {to}");
        }
        Text::Quoted(_, _, _) => say(rt, b"  ANOTHER ROW\n"),
        Text::Empty => say(rt, b"  ANOTHER ROW\n"),
    }
}

pub(crate) fn tell<'a>(rt: &impl Print, first: &'a [u8], second: &'a [u8], both: Both) {
    let led = both.led;
    let merged = both.merged;
    say(rt, b"leading: ");
    say_outcome(rt, led);
    say(rt, b", incoming: ");
    say_outcome(rt, merged);
    say(rt, b"\n");
    let set = both.set;
    say_set(rt, first, second, set);
}

fn say_outcome(rt: &impl Print, outcome: Result<(), Refusal>) {
    match outcome {
        Err(r) => say_refusal(rt, r),
        Ok(()) => say(rt, b"merged"),
    }
}

// The set's canonical text, for every table.
pub(crate) fn say_set<'a>(rt: &impl Print, first: &'a [u8], second: &'a [u8], set: Attrs) {
    let mut out = [0u8; 400];
    let wrote = set_writer::write_set(first, second, set, &mut out);
    say(rt, b"  ");
    match wrote {
        Err(r) => say_refusal(rt, r),
        Ok(n) => say(rt, set_table::bytes_of(&out, 0, n)),
    }
    say(rt, b"\n");
}
