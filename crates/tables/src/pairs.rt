// Which of two texts is refused first, and merges of sets of two texts.
use crate::buffers::say_length;
use crate::full::say_counts;
use crate::good::{class_of, plain, plain_of, row_of, slot};
use crate::{MARK, good, is_kept, over, say, say_wrote};
use base_refusals::Refusal;
use set_table::{Attrs, Origin, Slot};

pub(crate) fn run<'a>(rt: &impl Print, t: &'a [u8], u: &'a [u8]) {
    checks(rt, t, u);
    merges(rt, t, u);
    longer(rt);
}

// "1 and 2 are checked for the first text, then 1 and 2 for the second, then 11 over both."
fn checks<'a>(rt: &impl Print, t: &'a [u8], u: &'a [u8]) {
    let long = [b'a'; 65536];
    one_bad(rt, t, u, &long);
    both_bad(rt, t, &long);
}

fn one_bad<'a>(rt: &impl Print, t: &'a [u8], u: &'a [u8], long: &'a [u8]) {
    let s = good::set();
    over(rt, b"a first text of 65,536 bytes", long, u, s, s);
    over(rt, b"a first text that isn't UTF-8", b"\xFF", u, s, s);
    over(rt, b"a second text of 65,536 bytes", t, long, s, s);
    over(rt, b"a second text that isn't UTF-8", t, b"\xFF", s, s);
}

fn both_bad<'a>(rt: &impl Print, t: &'a [u8], long: &'a [u8]) {
    let s = good::set();
    let none = Attrs::empty();
    let mut bad = good::set();
    bad.classes[0] = plain(9, 4);
    over(rt, b"not UTF-8, and 65,536 bytes", b"\xFF", long, s, s);
    over(rt, b"65,536 bytes, and not UTF-8", long, b"\xFF", s, s);
    over(rt, b"65,536 bytes each", long, long, s, s);
    over(rt, b"a bad range, and not UTF-8", t, b"\xFF", bad, s);
    over(rt, b"a bad range, and 65,536 bytes", t, long, bad, s);
    over(rt, b"the empty set, and not UTF-8", t, b"\xFF", none, s);
}

// An id, a class and two keys, one of them with a name that the good table has.
fn of_second() -> Attrs {
    let mut s = Attrs::empty();
    let grip = plain_of(Origin::Second, 5, 9);
    s.id = plain_of(Origin::Second, 0, 4);
    s.given = true;
    s.classes[0] = grip;
    s.nclass = 1;
    s.keys[0] = row_of(Origin::Second, 15, 19, grip);
    s.keys[1] = row_of(Origin::Second, 0, 4, plain(0, 3));
    s.nkey = 2;
    s.order[0] = slot(Slot::Key(1));
    s.order[1] = slot(Slot::Key(0));
    s.order[2] = slot(Slot::Id);
    s.order[3] = slot(Slot::Class);
    s.norder = 4;
    s
}

// "a later id wins, classes are joined, later key values win, new slots go behind", whichever text each is of; and "A refusal touches no other
// lent memory, a merge's target included."
fn merges<'a>(rt: &impl Print, t: &'a [u8], u: &'a [u8]) {
    let none = Attrs::empty();
    lent(rt, b"the first text's set leads", t, u, good::set(), none);
    lent(
        rt,
        b"the first text's set comes in",
        t,
        u,
        none,
        good::set(),
    );
    let mut bad = good::set();
    bad.classes[0] = plain_of(Origin::Second, 23, 29);
    lent(rt, b"a set past the second text's end", t, u, bad, bad);
}

// The second text's set is lent to one that leads and to one that comes in behind.
fn lent<'a>(
    rt: &impl Print,
    name: &'a [u8],
    t: &'a [u8],
    u: &'a [u8],
    leading: Attrs,
    incoming: Attrs,
) {
    let mut out = [MARK; 100];
    let both = set_lent::merge_both(t, u, of_second(), leading, incoming);
    let led = both.led;
    let merged = both.merged;
    say(rt, name);
    say(rt, b", leading: ");
    say_outcome(rt, led);
    say(rt, b", incoming: ");
    say_outcome(rt, merged);
    let wrote = set_writer::write_set(t, u, both.set, &mut out);
    say_wrote(rt, wrote, &out);
    say(rt, b"\n");
}

fn say_outcome(rt: &impl Print, outcome: Result<(), Refusal>) {
    match outcome {
        Err(r) => {
            let _ = print!(rt; "{}", base_refusals::number(r));
        }
        Ok(()) => say(rt, b"yes"),
    }
}

// "canonical text above 65,535 bytes": a merge over two texts may have more than either of them.
fn longer(rt: &impl Print) {
    let first = [b'a'; 65535];
    let second = [b'b'; 65535];
    let mut out = [MARK; 65540];
    longer_into(rt, &first, &second, &mut out);
}

// `{class="`, `" class="` and `"}` are 19 bytes.
fn longer_into<'a>(rt: &impl Print, first: &'a [u8], second: &'a [u8], out: &mut [u8]) {
    say(
        rt,
        b"a class of each text, 65,536 bytes of canonical text: ",
    );
    joined(rt, first, second, 32758, 32759, out);
    say(
        rt,
        b"a class of each text, 65,535 bytes of canonical text: ",
    );
    joined(rt, first, second, 32758, 32758, out);
    // one of them is not written, and `{class="` and `"}` are ten bytes
    say(rt, b"the same class of 65,525 bytes in each text: ");
    joined(rt, first, first, 65525, 65525, out);
}

// How long the merge is when written, with the memory as it was where that is refused; and what it comes to.
fn joined<'a>(rt: &impl Print, first: &'a [u8], second: &'a [u8], m: u16, n: u16, out: &mut [u8]) {
    let a = class_of(Origin::First, m);
    let b = class_of(Origin::Second, n);
    let merged = set_merge::merge_attrs(first, second, a, b);
    say_length(rt, set_writer::write_attrs(first, second, merged.set, out));
    if is_kept(out) {
        say(rt, b", memory kept");
    }
    say(rt, b", merged: ");
    say_counts(rt, merged);
}
