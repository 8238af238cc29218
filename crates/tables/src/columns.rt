// The columns of hand-made tables, by value and laid into a lent table: lists of either text, values that no reading makes, and each refusal.
use crate::good::{plain, plain_of, quoted, quoted_of, row, slot};
use crate::say;
use base_refusals::Refusal;
use set_columns::{Align, Column, Columns, Made, Valign, Width};
use set_table::{Attrs, Origin, Slot, Text, Value};

// 0 `aligns`, 6 `valigns`, 13 `widths`, 19 `left,right`, 29 `1\,2\\,3`, 37 a character of two bytes, and its end at 39. In the second text: 0 `top,middle`,
// 10 a character of two bytes, 12 `,5`, and its end at 14.
pub(crate) fn run(rt: &impl Print) {
    let t = b"alignsvalignswidthsleft,right1\\,2\\\\,3\xC3\xA9";
    let u = b"top,middle\xC3\xA9,5";
    values(rt, t, u);
    refusals(rt, t, u);
    limits(rt, t);
    lent_tables(rt, t, u);
}

fn bare() -> Value {
    Value { text: Text::Empty }
}

// The three lists, the last of them first in the order.
fn three(aligns: Value, valigns: Value, widths: Value) -> Attrs {
    let mut s = Attrs::empty();
    s.keys[0] = row(0, 6, aligns);
    s.keys[1] = row(6, 13, valigns);
    s.keys[2] = row(13, 19, widths);
    s.nkey = 3;
    s.order[0] = slot(Slot::Key(2));
    s.order[1] = slot(Slot::Key(1));
    s.order[2] = slot(Slot::Key(0));
    s.norder = 3;
    s
}

fn values<'a>(rt: &impl Print, t: &'a [u8], u: &'a [u8]) {
    let a = plain(19, 29);
    let v = plain_of(Origin::Second, 0, 10);
    told(
        rt,
        b"backslashes in a quoted value",
        t,
        u,
        three(a, v, quoted(29, 37)),
    );
    told(
        rt,
        b"backslashes in a plain value",
        t,
        u,
        three(a, v, plain(29, 37)),
    );
    told(
        rt,
        b"a quoted range of no bytes",
        t,
        u,
        three(a, v, quoted(30, 30)),
    );
    told(rt, b"bare lists", t, u, three(bare(), bare(), bare()));
    told(
        rt,
        b"widths of the second text",
        t,
        u,
        three(a, v, quoted_of(Origin::Second, 10, 14)),
    );
    let mut s = three(a, v, plain(29, 37));
    s.nkey = 2;
    s.order[0] = slot(Slot::Key(1));
    s.order[1] = slot(Slot::Key(0));
    s.norder = 2;
    told(rt, b"widths past the count", t, u, s);
    told(rt, b"the empty set", t, u, Attrs::empty());
}

// "18 more than 32 columns, after 11"; before that 1 and 2 of the first text, then of the second.
fn refusals<'a>(rt: &impl Print, t: &'a [u8], u: &'a [u8]) {
    let s = three(plain(19, 29), bare(), quoted(29, 37));
    told(rt, b"a first text that isn't UTF-8", b"\xFF", u, s);
    told(rt, b"a second text that isn't UTF-8", t, b"\xFF", s);
    told(
        rt,
        b"a width that ends in a character",
        t,
        u,
        three(bare(), bare(), quoted(29, 38)),
    );
    told(
        rt,
        b"aligns past the text's end",
        t,
        u,
        three(plain(19, 40), bare(), bare()),
    );
}

// "1": a text of 65,536 bytes.
pub(crate) fn too_long(rt: &impl Print, long: &[u8]) {
    let t = b"alignsvalignswidthsleft,right1\\,2\\\\,3";
    let s = three(plain(19, 29), bare(), quoted(29, 37));
    told(rt, b"columns of a first text of 65,536 bytes", long, b"", s);
    told(rt, b"columns of a second text of 65,536 bytes", t, long, s);
}

fn limits(rt: &impl Print, t: &[u8]) {
    let u = b",,,,,,,,,,,,,,,,,,,,,,,,,,,,,,,,";
    told(
        rt,
        b"32 widths",
        t,
        u,
        three(bare(), bare(), plain_of(Origin::Second, 0, 31)),
    );
    told(
        rt,
        b"33 aligns",
        t,
        u,
        three(plain_of(Origin::Second, 0, 32), bare(), bare()),
    );
    told(
        rt,
        b"33 aligns, and a range past the end",
        t,
        u,
        three(plain_of(Origin::Second, 0, 32), bare(), plain(38, 40)),
    );
}

// A table that has all its columns, each with an align, a vertical align and a width.
fn all_columns() -> Columns {
    let c = Column {
        align: Some(Align::Center),
        valign: Some(Valign::Bottom),
        width: Some(Width::Range(Origin::Second, 7, 9)),
    };
    let columns = [c; Columns::MOST];
    Columns {
        columns: columns,
        count: Columns::MOST as u8,
    }
}

// The lent table itself, which had all its columns before: filled, with none past the count, or as it was.
fn lent_tables<'a>(rt: &impl Print, t: &'a [u8], u: &'a [u8]) {
    let a = plain(19, 29);
    let v = plain_of(Origin::Second, 0, 10);
    let s = three(a, v, quoted(29, 37));
    lent(rt, b"lent, three columns over all", t, u, s);
    lent(
        rt,
        b"lent, one column over all",
        t,
        u,
        three(bare(), bare(), bare()),
    );
    lent(rt, b"lent, no column over all", t, u, Attrs::empty());
    lent(rt, b"lent, a text that isn't UTF-8", t, b"\xFF", s);
    lent(
        rt,
        b"lent, aligns past the text's end",
        t,
        u,
        three(plain(19, 40), bare(), bare()),
    );
}

fn lent<'a>(rt: &impl Print, name: &'a [u8], first: &'a [u8], second: &'a [u8], set: Attrs) {
    say(rt, name);
    let was = all_columns();
    let laid = set_columns_lent::table_columns_lent(first, second, was, set);
    let outcome = laid.outcome;
    let table = laid.table;
    say_outcome(rt, outcome, table);
    let columns = table.columns;
    say_columns(rt, columns, table.count as usize);
    let made = set_columns::table_columns(first, second, set);
    let by_value = made.table;
    say_stands(rt, table, was, by_value);
    say(rt, b"\n");
}

// One line: the count, each column, whether those behind them are zero, and what becomes of a lent table without a column and of one with all.
fn told<'a>(rt: &impl Print, name: &'a [u8], first: &'a [u8], second: &'a [u8], set: Attrs) {
    say(rt, name);
    let made = set_columns::table_columns(first, second, set);
    let outcome = made.outcome;
    let table = made.table;
    say_outcome(rt, outcome, table);
    let columns = table.columns;
    say_columns(rt, columns, table.count as usize);
    say(rt, b", lent empty: ");
    say_lent(rt, first, second, Columns::empty(), set, made);
    say(rt, b", lent full: ");
    say_lent(rt, first, second, all_columns(), set, made);
    say(rt, b"\n");
}

fn say_outcome(rt: &impl Print, outcome: Result<(), Refusal>, table: Columns) {
    match outcome {
        Err(r) => {
            let _ = print!(rt; ": refused {}", base_refusals::number(r));
        }
        Ok(()) => {
            let _ = print!(rt; ": columns {}", table.count);
        }
    }
}

// The same asked of a lent table that holds `was`.
fn say_lent<'a>(
    rt: &impl Print,
    first: &'a [u8],
    second: &'a [u8],
    was: Columns,
    set: Attrs,
    made: Made,
) {
    let laid = set_columns_lent::table_columns_lent(first, second, was, set);
    let outcome = laid.outcome;
    let table = laid.table;
    let by_value = made.table;
    match outcome {
        Err(r) => {
            let _ = print!(rt; "refused {}", base_refusals::number(r));
        }
        Ok(()) => say(rt, b"yes"),
    }
    say_stands(rt, table, was, by_value);
}

// Whether a table is to its last row what it was before, or what is made by value.
fn say_stands(rt: &impl Print, now: Columns, was: Columns, by_value: Columns) {
    if now == was {
        say(rt, b", as it was");
    } else {
        say_new(rt, now, by_value);
    }
}

fn say_new(rt: &impl Print, now: Columns, by_value: Columns) {
    if now == by_value {
        say(rt, b", as by value");
    } else {
        say(rt, b", LAID OTHERWISE");
    }
}

fn say_columns(rt: &impl Print, columns: [Column; Columns::MOST], n: usize) {
    for (k, c) in columns.iter().enumerate() {
        say_column(rt, *c, k < n);
    }
}

// A column that counts, or one past the count.
fn say_column(rt: &impl Print, c: Column, counts: bool) {
    let a = c.align;
    let v = c.valign;
    let w = c.width;
    if counts {
        say(rt, b",");
    }
    say_align(rt, a, counts);
    say_valign(rt, v, counts);
    say_width(rt, w, counts);
}

// What counts is said, and so is what is past the count and not zero.
fn say_if(rt: &impl Print, words: &[u8], counts: bool) {
    if counts {
        say(rt, words);
        return;
    }
    say(rt, b" AND A COLUMN");
}

fn say_align(rt: &impl Print, a: Option<Align>, counts: bool) {
    match a {
        None => {}
        Some(Align::Left) => say_if(rt, b" left", counts),
        Some(Align::Right) => say_if(rt, b" right", counts),
        Some(Align::Center) => say_if(rt, b" center", counts),
    }
}

fn say_valign(rt: &impl Print, v: Option<Valign>, counts: bool) {
    match v {
        None => {}
        Some(Valign::Top) => say_if(rt, b" top", counts),
        Some(Valign::Middle) => say_if(rt, b" middle", counts),
        Some(Valign::Bottom) => say_if(rt, b" bottom", counts),
    }
}

fn say_width(rt: &impl Print, w: Option<Width>, counts: bool) {
    match w {
        None => {}
        Some(Width::Empty) => say_if(rt, b" empty", counts),
        Some(Width::Range(o, f, t)) => {
            say_if(rt, b" ", counts);
            say_origin(rt, o);
            let _ = print!(rt; "{f}-{t}");
        }
    }
}

fn say_origin(rt: &impl Print, o: Origin) {
    match o {
        Origin::First => say(rt, b"1:"),
        Origin::Second => say(rt, b"2:"),
    }
}
