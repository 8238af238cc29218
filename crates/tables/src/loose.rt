// The key `loose` taken out of hand-made tables, by value and lent: rows and slots behind it, the row and the slot that become free, and each refusal.
use crate::good::{plain, plain_of, quoted, row, row_of, slot};
use crate::{MARK, full, say, say_wrote};
use base_refusals::Refusal;
use set_loose::Consumed;
use set_table::{Attrs, Name, Origin, Row, Slot, SlotRecord, Text, Value};

// 0 `loose`, 5 `loose-list`, 15 `LOOSE`, 20 `abc`, and its end at 23; the second text is `loose`.
pub(crate) fn run(rt: &impl Print) {
    let t = b"looseloose-listLOOSEabc";
    let u = b"loose";
    values(rt, t, u);
    names(rt, t, u);
    refusals(rt, t, u);
    limits(rt);
    lent_sets(rt);
}

fn bare() -> Value {
    Value { text: Text::Empty }
}

// Three keys a, k and c in the rows 0, 1 and 2, whose slots stand c, id, k, a; rows past the counts that aren't zero.
fn three(k: Row) -> Attrs {
    let mut s = Attrs::empty();
    s.id = plain(20, 23);
    s.given = true;
    s.keys[0] = row(20, 21, plain(21, 22));
    s.keys[1] = k;
    s.keys[2] = row(22, 23, plain(20, 21));
    s.keys[3] = row(21, 22, plain(20, 21));
    s.nkey = 3;
    s.order[0] = slot(Slot::Key(2));
    s.order[1] = slot(Slot::Id);
    s.order[2] = slot(Slot::Key(1));
    s.order[3] = slot(Slot::Key(0));
    s.order[4] = slot(Slot::Class);
    s.norder = 4;
    s
}

// "it acts only if the key's unescaped value is empty"
fn values<'a>(rt: &impl Print, t: &'a [u8], u: &'a [u8]) {
    told(rt, b"bare", t, u, three(row(0, 5, bare())));
    told(
        rt,
        b"a plain range of no bytes",
        t,
        u,
        three(row(0, 5, plain(7, 7))),
    );
    told(
        rt,
        b"a quoted range of no bytes",
        t,
        u,
        three(row(0, 5, quoted(7, 7))),
    );
    told(rt, b"a value", t, u, three(row(0, 5, plain(20, 21))));
    let name = row_of(Origin::Second, 0, 5, plain_of(Origin::Second, 5, 5));
    told(rt, b"name and value of the second text", t, u, three(name));
}

fn names<'a>(rt: &impl Print, t: &'a [u8], u: &'a [u8]) {
    told(rt, b"a longer name", t, u, three(row(5, 15, bare())));
    told(rt, b"capital letters", t, u, three(row(15, 20, bare())));
    let lang = Row {
        name: Name::Lang,
        value: bare(),
    };
    told(rt, b"lang by a colon", t, u, three(lang));
    let mut s = Attrs::empty();
    told(rt, b"the empty set", t, u, s);
    s.keys[0] = row(0, 5, bare());
    s.nkey = 1;
    s.order[0] = slot(Slot::Key(0));
    s.norder = 1;
    told(rt, b"nothing but loose", t, u, s);
}

// "1, 2 and 11, in the writer's order": of the first text, of the second, then the table.
fn refusals<'a>(rt: &impl Print, t: &'a [u8], u: &'a [u8]) {
    let s = three(row(0, 5, bare()));
    told(rt, b"a first text that isn't UTF-8", b"\xFF", u, s);
    told(rt, b"a second text that isn't UTF-8", t, b"\xFF", s);
    told(
        rt,
        b"a name past the text's end",
        t,
        u,
        three(row(19, 24, bare())),
    );
    let mut two = three(row(0, 5, bare()));
    two.order[3] = slot(Slot::Key(1));
    told(rt, b"two slots of one row", t, u, two);
}

// "1": a text of 65,536 bytes.
pub(crate) fn too_long(rt: &impl Print, long: &[u8]) {
    let t = b"looseloose-listLOOSEabc";
    let s = three(row(0, 5, bare()));
    told(rt, b"loose of a first text of 65,536 bytes", long, b"", s);
    told(rt, b"loose of a second text of 65,536 bytes", t, long, s);
}

// As many keys as a set has, `loose` the first, one in the middle and the last of the rows.
fn limits(rt: &impl Print) {
    let t = b"abcdefghijklmnopqrstuvwxyzABCDEFGHIJKLMNOPQRSTUVWXYZacegikmoqsuwyAloose";
    let mut s = full::full(false);
    s.keys[0] = row(66, 71, bare());
    told(rt, b"the first of all keys", t, b"", s);
    let mut s = full::full(false);
    s.keys[Attrs::KEYS / 2] = row(66, 71, bare());
    told(rt, b"one in the middle of all keys", t, b"", s);
    let mut s = full::full(false);
    s.keys[Attrs::KEYS - 1] = row(66, 71, bare());
    told(rt, b"the last of all keys", t, b"", s);
}

// The slots stand the other way round: the last key's first, the id's last.
fn reversed() -> Attrs {
    let mut s = full::full(false);
    s.order[Attrs::KEYS] = slot(Slot::Class);
    s.order[Attrs::KEYS + 1] = slot(Slot::Id);
    for k in 0..Attrs::KEYS as u8 {
        s.order[k as usize] = slot(Slot::Key(Attrs::KEYS as u8 - 1 - k));
    }
    s
}

// As many keys as a set has, in a lent set: `loose` the first of the rows and the last of the keys' slots, in the middle, and the last row and the first slot.
fn lent_sets(rt: &impl Print) {
    let t = b"abcdefghijklmnopqrstuvwxyzABCDEFGHIJKLMNOPQRSTUVWXYZacegikmoqsuwyAloose";
    let mut s = reversed();
    s.keys[0] = row(66, 71, bare());
    lent(rt, b"lent, the first row and the last slot", t, b"", s);
    let mut s = reversed();
    s.keys[Attrs::KEYS / 2] = row(66, 71, quoted(7, 7));
    lent(rt, b"lent, in the middle", t, b"", s);
    let mut s = reversed();
    s.keys[Attrs::KEYS - 1] = row(66, 71, plain(7, 7));
    lent(rt, b"lent, the last row and the first slot", t, b"", s);
    lent_kept(rt, t);
}

// "it acts only if the key's unescaped value is empty": else, and on each refusal, a lent set stays as it was to its last row.
fn lent_kept(rt: &impl Print, t: &[u8]) {
    let mut s = reversed();
    s.keys[Attrs::KEYS - 1] = row(66, 71, plain(0, 1));
    lent(rt, b"lent, a value", t, b"", s);
    s.order[0] = slot(Slot::Key(0));
    lent(rt, b"lent, two slots of one row", t, b"", s);
    let s = three(row(0, 5, plain(20, 21)));
    let t = b"looseloose-listLOOSEabc";
    lent(rt, b"lent, a value, and rows past the counts", t, b"", s);
    lent(rt, b"lent, a text that isn't UTF-8", t, b"\xFF", s);
    let past = three(row(19, 24, bare()));
    lent(rt, b"lent, a name past the text's end", t, b"", past);
}

// One line: what is answered of a lent set, its rows and its slots afterwards, those past the counts too.
fn lent<'a>(rt: &impl Print, name: &'a [u8], first: &'a [u8], second: &'a [u8], set: Attrs) {
    say(rt, name);
    say(rt, b": ");
    let left = set_lent::consume_loose_lent(first, second, set);
    let did = left.did;
    let now = left.set;
    say_did(rt, did);
    let keys = now.keys;
    let order = now.order;
    say_rows(rt, first, second, keys, now.nkey as usize);
    say_slots(rt, order, now.norder as usize);
    let consumed = set_loose::consume_loose(first, second, set);
    let by_value = consumed.set;
    say_stands(rt, now, set, by_value);
    say(rt, b"\n");
}

// One line: the answer, the names of the rows, the slots, whether what became free is zero, what the writer answers, and what becomes of a lent set.
fn told<'a>(rt: &impl Print, name: &'a [u8], first: &'a [u8], second: &'a [u8], set: Attrs) {
    let mut out = [MARK; 600];
    say(rt, name);
    say(rt, b": ");
    let consumed = set_loose::consume_loose(first, second, set);
    let did = consumed.did;
    let left = consumed.set;
    say_did(rt, did);
    let keys = left.keys;
    let order = left.order;
    say_rows(rt, first, second, keys, left.nkey as usize);
    say_slots(rt, order, left.norder as usize);
    let wrote = set_writer::write_attrs(first, second, left, &mut out);
    say_wrote(rt, wrote, &out);
    say_lent(rt, first, second, set, consumed);
    say(rt, b"\n");
}

fn say_did(rt: &impl Print, did: Result<bool, Refusal>) {
    match did {
        Err(r) => {
            let _ = print!(rt; "refused {}", base_refusals::number(r));
        }
        Ok(true) => say(rt, b"yes"),
        Ok(false) => say(rt, b"no"),
    }
}

// The same asked of a lent set.
fn say_lent<'a>(
    rt: &impl Print,
    first: &'a [u8],
    second: &'a [u8],
    set: Attrs,
    consumed: Consumed,
) {
    let left = set_lent::consume_loose_lent(first, second, set);
    let did = left.did;
    let now = left.set;
    let by_value = consumed.set;
    say(rt, b", lent: ");
    say_did(rt, did);
    say_stands(rt, now, set, by_value);
}

// Whether a set is to its last row what it was before, or what is left by value.
fn say_stands(rt: &impl Print, now: Attrs, was: Attrs, by_value: Attrs) {
    if now == was {
        say(rt, b", as it was");
    } else {
        say_new(rt, now, by_value);
    }
}

fn say_new(rt: &impl Print, now: Attrs, by_value: Attrs) {
    if now == by_value {
        say(rt, b", as by value");
    } else {
        say(rt, b", LEFT OTHERWISE");
    }
}

// The names of the first n rows, and whether those behind them are zero.
fn say_rows<'a>(
    rt: &impl Print,
    first: &'a [u8],
    second: &'a [u8],
    keys: [Row; Attrs::KEYS],
    n: usize,
) {
    say(rt, b", rows");
    for (k, r) in keys.iter().enumerate() {
        say_row(rt, first, second, *r, k < n);
    }
}

// A row that counts, or one past the count.
fn say_row<'a>(rt: &impl Print, first: &'a [u8], second: &'a [u8], r: Row, counts: bool) {
    let name = r.name;
    if counts {
        say(rt, b" ");
        say_name(rt, first, second, name);
        return;
    }
    say_name_past(rt, name);
}

fn say_name<'a>(rt: &impl Print, first: &'a [u8], second: &'a [u8], name: Name) {
    match name {
        Name::Range(o, f, t) => {
            let bytes = set_table::range_of(first, second, o, f as usize, t as usize);
            say(rt, bytes);
        }
        Name::Lang => say(rt, b"lang"),
    }
}

// Nothing of a zero row.
fn say_name_past(rt: &impl Print, name: Name) {
    match name {
        Name::Range(_, _, t) => {
            if 0 < t {
                say(rt, b" AND A ROW");
            }
        }
        Name::Lang => say(rt, b" AND A ROW"),
    }
}

// The first n slots, and whether those behind them are zero.
fn say_slots(rt: &impl Print, order: [SlotRecord; Attrs::SLOTS], n: usize) {
    say(rt, b", slots");
    for (k, p) in order.iter().enumerate() {
        say_slot(rt, p.slot, k < n);
    }
}

// A slot that counts, or one past the count.
fn say_slot(rt: &impl Print, slot: Slot, counts: bool) {
    if counts {
        say_place(rt, slot);
        return;
    }
    say_slot_past(rt, slot);
}

fn say_place(rt: &impl Print, slot: Slot) {
    match slot {
        Slot::Key(k) => {
            let _ = print!(rt; " {k}");
        }
        Slot::Id => say(rt, b" id"),
        Slot::Class => say(rt, b" class"),
    }
}

// Nothing of a zero slot.
fn say_slot_past(rt: &impl Print, slot: Slot) {
    match slot {
        Slot::Key(k) => {
            if 0 < k {
                say(rt, b" AND A SLOT");
            }
        }
        Slot::Id => say(rt, b" AND A SLOT"),
        Slot::Class => say(rt, b" AND A SLOT"),
    }
}
