// Tables that are full: an id, a class and as many keys as a set has, so all its slots; and merges that would have more keys.
use crate::good::{plain, row, slot};
use crate::{MARK, say, say_wrote};
use set_table::{Attrs, Filled, Slot};

pub(crate) fn run(rt: &impl Print) {
    let letters = b"abcdefghijklmnopqrstuvwxyzABCDEFGHIJKLMNOPQRSTUVWXYZacegikmoqsuwyA";
    tables(rt, letters);
    merges(rt, letters);
}

// Where the name of key k ends: names of two letters or of three.
fn name_end(k: u8, long: bool) -> u16 {
    if long {
        return k as u16 + 3;
    }
    k as u16 + 2
}

// All keys, each named by the two letters at its place, or by these and the next one; no two letters stand together twice.
pub(crate) fn full(long: bool) -> Attrs {
    let mut s = Attrs::empty();
    s.id = plain(0, 1);
    s.given = true;
    s.classes[0] = plain(1, 2);
    s.nclass = 1;
    s.order[0] = slot(Slot::Id);
    s.order[1] = slot(Slot::Class);
    for k in 0..Attrs::KEYS as u8 {
        s.keys[k as usize] = row(k as u16, name_end(k, long), plain(0, 2));
        s.order[k as usize + 2] = slot(Slot::Key(k));
    }
    s.nkey = Attrs::KEYS as u8;
    s.norder = Attrs::SLOTS as u8;
    s
}

// "counts within the limits", and "slots name exactly the Id, Class and keys present, once each"
fn tables(rt: &impl Print, text: &[u8]) {
    told(rt, b"all slots", text, full(false));
    let mut s = full(false);
    s.norder = Attrs::SLOTS as u8 + 1;
    told(rt, b"all slots that claim to be one more", text, s);
    let mut s = full(false);
    s.order[Attrs::SLOTS - 1] = slot(Slot::Key(0));
    told(rt, b"all slots, a row among them twice", text, s);
    let mut s = full(false);
    s.nclass = 0;
    told(rt, b"all slots, one for a class that isn't there", text, s);
}

// One line: whether the table is well-formed, what the writer answers and leaves, and what a merge with itself comes to.
fn told<'a>(rt: &impl Print, name: &'a [u8], text: &'a [u8], set: Attrs) {
    let mut out = [MARK; 600];
    say(rt, name);
    if set_wellformed::well_formed(text, b"", set) {
        say(rt, b": well-formed");
    } else {
        say(rt, b": not well-formed");
    }
    let wrote = set_writer::write_attrs(text, b"", set, &mut out);
    say_wrote(rt, wrote, &out);
    say(rt, b", merged with itself: ");
    say_counts(rt, set_merge::merge_attrs(text, b"", set, set));
}

// All keys and as many others are too many, also where they share one; as many that are there already are none more.
fn merges(rt: &impl Print, text: &[u8]) {
    let target = full(false);
    say(rt, b"all keys merged with as many others: ");
    say_counts(rt, set_merge::merge_attrs(text, b"", target, full(true)));
    let mut one = full(true);
    one.keys[0] = row(0, 2, plain(0, 2));
    say(rt, b"all keys merged with as many, one of them shared: ");
    say_counts(rt, set_merge::merge_attrs(text, b"", target, one));
    say(rt, b"all keys merged with as many, all of them shared: ");
    say_counts(
        rt,
        set_merge::merge_leading_attrs(text, b"", target, full(false)),
    );
}

// A refusal, or how many classes, keys and slots there are.
pub(crate) fn say_counts(rt: &impl Print, merged: Filled) {
    let outcome = merged.outcome;
    let set = merged.set;
    match outcome {
        Err(r) => {
            let _ = print!(rt; "refused {}", base_refusals::number(r));
        }
        Ok(()) => {
            let _ = print!(rt;
                "{} classes, {} keys, {} slots",
                set.nclass, set.nkey, set.norder
            );
        }
    }
    say(rt, b"\n");
}
