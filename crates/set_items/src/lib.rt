// The items of a set's canonical text one by one, and the values under a name, each class once: which there is, and its bytes laid in lent memory, unescaped.
#![tactic(auto)]

ghost use Rattle.std.specs.Prelude.{◌≡◌, [], ◌∷◌, map, ◌≤◌, ◌+◌, min, leb, length, get_or, take};
ghost use Rattle.std.proofs.lemmas.List.Edits.{sets};
ghost use Rattle.base_refusals.specs.declared.Refusal.TheVariants.{CanonTooLong};
ghost use Rattle.text_checks.specs.Outcomes.{unless, or_else};
ghost use Rattle.set_canon.specs.Canon.{pairs};
ghost use Rattle.set_table.specs.Types.{two, zero_row, name_bytes, value_bytes, max_classes};
ghost use Rattle.set_table.specs.Rows.{rows_in, meaning_of};
ghost use Rattle.set_marks.specs.Marks.{bytes_in};
ghost use Rattle.set_items.specs.declared.Item.TheVariants.{Missing, Class};
ghost use Rattle.set_items.specs.Items.{nth, item_as, named, unnamed, values_under, laid_of, laid_in, laid_paper, numbered_laid};
ghost use Rattle.set_items.specs.Inner.{slot_items, items_in, item_of, slot_named, first_slot};

use base_refusals::Refusal;
use set_table::{Attrs, Name, Origin, Row, Slot, Text, Value};

// An item of a set by what it is of, or that there is none.
#[derive(Clone, Copy)]
pub enum Item {
    Missing,
    Id(Value),
    Class(Value),
    Key(Row),
}

// How many there are, and the one that was asked for.
#[derive(Clone, Copy)]
pub struct Nth {
    pub count: usize,
    pub item: Item,
}

// Whether an item was laid, and how many bytes its name and its value have.
#[derive(Clone, Copy)]
pub struct Laid {
    pub outcome: Result<(), Refusal>,
    pub name: usize,
    pub value: usize,
}

// The lesser of two numbers.
fn least(a: usize, b: usize) -> usize
    ensures { result ≡ min a b }
{
    a.min(b)
}

// A row among the first n; what lies past them is zero.
fn row_at(keys: [Row; Attrs::KEYS], n: usize, k: usize) -> Row
    ensures { result ≡ get_or (take n keys) k zero_row }
{
    let none = Value {
        text: Text::Plain(Origin::First, 0, 0),
    };
    let zero = Row {
        name: Name::Range(Origin::First, 0, 0),
        value: none,
    };
    if n <= k {
        return zero;
    }
    if Attrs::KEYS <= k {
        return zero;
    }
    keys[k]
}

// How many items a slot lists.
fn slot_count(set: Attrs, slot: Slot) -> usize
    ensures { (result ≡ length (slot_items set slot)) × (result ≤ max_classes) }
{
    match slot {
        Slot::Id => {
            if set.given {
                return 1;
            }
            0
        }
        Slot::Class => least(set.nclass as usize, Attrs::CLASSES),
        Slot::Key(_) => 1,
    }
}

// The n-th of the first `many` classes.
fn class_item(classes: [Value; Attrs::CLASSES], many: usize, n: usize) -> Item
    ensures { result ≡ item_of n (map Class (take many classes)) }
{
    if many <= n {
        return Item::Missing;
    }
    if Attrs::CLASSES <= n {
        return Item::Missing;
    }
    let value = classes[n];
    Item::Class(value)
}

// The n-th of one item.
fn only(item: Item, n: usize) -> Item
    ensures { result ≡ item_of n (item ∷ []) }
{
    if n == 0 {
        return item;
    }
    Item::Missing
}

// The n-th item of a slot.
fn slot_item(set: Attrs, slot: Slot, n: usize) -> Item
    ensures { result ≡ item_of n (slot_items set slot) }
{
    match slot {
        Slot::Id => {
            if set.given {
                let id = set.id;
                return only(Item::Id(id), n);
            }
            Item::Missing
        }
        Slot::Class => {
            let classes = set.classes;
            class_item(classes, set.nclass as usize, n)
        }
        Slot::Key(k) => {
            let keys = set.keys;
            let row = row_at(keys, set.nkey as usize, k as usize);
            only(Item::Key(row), n)
        }
    }
}

// How many items a set lists.
fn count_in(set: Attrs) -> usize
    ensures { result ≡ length (items_in set) }
{
    let slots = least(set.norder as usize, Attrs::SLOTS);
    let mut n: usize = 0;
    for p in 0..slots {
        n += slot_count(set, set.order[p].slot);
    }
    n
}

// The n-th item that a set lists.
fn item_in(set: Attrs, n: usize) -> Item
    ensures { result ≡ item_of n (items_in set) }
{
    let slots = least(set.norder as usize, Attrs::SLOTS);
    let mut left = n;
    for p in 0..slots {
        let slot = set.order[p].slot;
        let many = slot_count(set, slot);
        if left < many {
            return slot_item(set, slot, left);
        }
        left -= many;
    }
    Item::Missing
}

// Whether a slot has the name.
fn slot_named<'a>(first: &'a [u8], second: &'a [u8], set: Attrs, name: &[u8], slot: Slot) -> bool
    ensures { result ≡ slot_named (two first.now second.now) set name.now slot }
{
    match slot {
        Slot::Id => base_lists::same_bytes(b"id", name),
        Slot::Class => base_lists::same_bytes(b"class", name),
        Slot::Key(k) => {
            let keys = set.keys;
            let row = row_at(keys, set.nkey as usize, k as usize);
            let label = row.name;
            set_table::is_named(first, second, label, name)
        }
    }
}

// The first slot that has the name.
fn slot_of<'a>(first: &'a [u8], second: &'a [u8], set: Attrs, name: &[u8]) -> Option<Slot>
    ensures { result ≡ first_slot (slot_named (two first.now second.now) set name.now) (rows_in set).order }
{
    let slots = least(set.norder as usize, Attrs::SLOTS);
    for p in 0..slots {
        let slot = set.order[p].slot;
        if slot_named(first, second, set, name, slot) {
            return Some(slot);
        }
    }
    None
}

// The n-th item of the canonical text, counted from 0, and how many it has.
pub fn item_at<'a>(first: &'a [u8], second: &'a [u8], set: Attrs, n: usize) -> Nth
    ensures count_value { result.count ≡ length (pairs (meaning_of (two first.now second.now) set)) }
    ensures item_value { item_as named (two first.now second.now) result.item ≡ nth n (pairs (meaning_of (two first.now second.now) set)) }
{
    let kept = set_once::classes_once(first, second, set);
    let count = count_in(kept);
    let item = item_in(kept, n);
    Nth { count, item }
}

// The n-th of the values that the set has under a name, counted from 0, and how many it has: one for the id or a key, one for each class under `class`.
pub fn value_at<'a>(first: &'a [u8], second: &'a [u8], set: Attrs, name: &[u8], n: usize) -> Nth
    ensures count_value { result.count ≡ length (values_under name.now (meaning_of (two first.now second.now) set)) }
    ensures item_value { item_as unnamed (two first.now second.now) result.item ≡ nth n (values_under name.now (meaning_of (two first.now second.now) set)) }
{
    let kept = set_once::classes_once(first, second, set);
    match slot_of(first, second, kept, name) {
        None => Nth {
            count: 0,
            item: Item::Missing,
        },
        Some(slot) => {
            let count = slot_count(kept, slot);
            let item = slot_item(kept, slot, n);
            Nth { count, item }
        }
    }
}

// How many bytes a raw text stands for.
fn value_len(s: &[u8], quoted: bool) -> usize
    ensures { result ≡ length (bytes_in quoted s.now) }
{
    if quoted {
        return text_escapes::unescaped_len(s);
    }
    s.len()
}

// Writes what a raw text stands for from `at` on.
fn put_value(out: &mut [u8], at: usize, s: &[u8], quoted: bool)
    requires { at + length (bytes_in quoted s.now) ≤ length out.old }
    ensures { out.new ≡ sets out.old at (bytes_in quoted s.now) }
{
    if quoted {
        text_escapes::write_unescaped(out, at, s);
        return;
    }
    base_lists::put_bytes(out, at, s);
}

// What was refused before, or else that so many bytes have no room.
fn room_of(c: Result<(), Refusal>, n: usize, v: usize, size: usize) -> Result<(), Refusal>
    ensures { result ≡ or_else c (unless CanonTooLong (leb (n + v) size)) }
{
    c?;
    if size < n {
        return Err(Refusal::CanonTooLong);
    }
    if size - n < v {
        return Err(Refusal::CanonTooLong);
    }
    Ok(())
}

// Lays a name and a value at the front of lent memory, unless something refuses it.
fn lay_pair<'a>(
    c: Result<(), Refusal>,
    name: &[u8],
    first: &'a [u8],
    second: &'a [u8],
    value: Value,
    out: &mut [u8],
) -> Laid
    ensures value { result ≡ laid_of c (length out.old) (named name.now (value_bytes (two first.now second.now) value) ∷ []) }
    ensures out_after { out.new ≡ laid_in c out.old (named name.now (value_bytes (two first.now second.now) value) ∷ []) }
{
    let s = set_marks::raw_bytes(first, second, value);
    let quoted = set_marks::is_quoted(value);
    let n = name.len();
    let v = value_len(s, quoted);
    match room_of(c, n, v, out.len()) {
        Err(why) => Laid {
            outcome: Err(why),
            name: n,
            value: v,
        },
        Ok(()) => {
            base_lists::put_bytes(out, 0, name);
            put_value(out, n, s, quoted);
            Laid {
                outcome: Ok(()),
                name: n,
                value: v,
            }
        }
    }
}

// Lays a key's name and value.
fn lay_key<'a>(
    c: Result<(), Refusal>,
    first: &'a [u8],
    second: &'a [u8],
    row: Row,
    out: &mut [u8],
) -> Laid
    ensures value { result ≡ laid_of c (length out.old) (named (name_bytes (two first.now second.now) row.name) (value_bytes (two first.now second.now) row.value) ∷ []) }
    ensures out_after { out.new ≡ laid_in c out.old (named (name_bytes (two first.now second.now) row.name) (value_bytes (two first.now second.now) row.value) ∷ []) }
{
    let name = row.name;
    match name {
        Name::Range(o, f, t) => lay_pair(
            c,
            set_table::range_of(first, second, o, f as usize, t as usize),
            first,
            second,
            row.value,
            out,
        ),
        Name::Lang => lay_pair(c, b"lang", first, second, row.value, out),
    }
}

// Lays an item's name, and its value behind that, at the front of lent memory, unless something refuses it.
pub fn lay_item<'a>(
    c: Result<(), Refusal>,
    first: &'a [u8],
    second: &'a [u8],
    item: Item,
    out: &mut [u8],
) -> Laid
    ensures value { result ≡ laid_of c (length out.old) (item_as named (two first.now second.now) item) }
    ensures out_after { out.new ≡ laid_in c out.old (item_as named (two first.now second.now) item) }
    ensures result_value { laid_paper result ≡ numbered_laid c (length out.old) (item_as named (two first.now second.now) item) }
{
    match item {
        Item::Missing => Laid {
            outcome: c,
            name: 0,
            value: 0,
        },
        Item::Id(v) => lay_pair(c, b"id", first, second, v, out),
        Item::Class(v) => lay_pair(c, b"class", first, second, v, out),
        Item::Key(row) => lay_key(c, first, second, row, out),
    }
}

// Lays an item's value alone.
pub fn lay_value<'a>(
    c: Result<(), Refusal>,
    first: &'a [u8],
    second: &'a [u8],
    item: Item,
    out: &mut [u8],
) -> Laid
    ensures value { result ≡ laid_of c (length out.old) (item_as unnamed (two first.now second.now) item) }
    ensures out_after { out.new ≡ laid_in c out.old (item_as unnamed (two first.now second.now) item) }
    ensures result_value { laid_paper result ≡ numbered_laid c (length out.old) (item_as unnamed (two first.now second.now) item) }
{
    match item {
        Item::Missing => Laid {
            outcome: c,
            name: 0,
            value: 0,
        },
        Item::Id(v) => lay_pair(c, b"", first, second, v, out),
        Item::Class(v) => lay_pair(c, b"", first, second, v, out),
        Item::Key(row) => {
            let v = row.value;
            lay_pair(c, b"", first, second, v, out)
        }
    }
}
