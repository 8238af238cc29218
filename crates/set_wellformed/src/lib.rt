// Whether a table is well-formed over its texts.
#![tactic(auto)]

ghost use Rattle.std.specs.Prelude.{◌≡◌, cond, map, ◌≤◌, take};
ghost use Rattle.base_lists.specs.Lists.{all};
ghost use Rattle.set_table.specs.Types.{two, max_classes, max_keys, max_slots};
ghost use Rattle.set_table.specs.Rows.{slot_in};
ghost use Rattle.set_table.specs.Shape.{times, slot_number};
ghost use Rattle.set_values.specs.Values.{class_ok, key_ok};
ghost use Rattle.set_wellformed.specs.WellFormed.{keys_apart, table_ok, well_formed};
ghost use Rattle.set_wellformed.specs.Inner.{present_by, keys_in, slots_in};

use set_table::{Attrs, Row, Slot, SlotRecord, Value};

// Whether each of the first n classes may stand.
fn classes_ok<'a>(
    first: &'a [u8],
    second: &'a [u8],
    classes: [Value; Attrs::CLASSES],
    n: usize,
) -> bool
    requires { n ≤ max_classes }
    ensures { result ≡ all (class_ok (two first.now second.now)) (take n classes) }
{
    classes[..n]
        .iter()
        .all(|v| set_values::class_ok(first, second, *v))
}

// Whether each of the first n rows may stand.
fn keys_ok<'a>(first: &'a [u8], second: &'a [u8], keys: [Row; Attrs::KEYS], n: usize) -> bool
    requires { n ≤ max_keys }
    ensures { result ≡ all (key_ok (two first.now second.now)) (take n keys) }
{
    keys[..n]
        .iter()
        .all(|row| set_values::key_ok(first, second, *row))
}

// Whether the first n rows have names of their own: no row has the name of one before it.
fn keys_apart<'a>(first: &'a [u8], second: &'a [u8], keys: [Row; Attrs::KEYS], n: usize) -> bool
    requires { n ≤ max_keys }
    ensures { result ≡ keys_apart (two first.now second.now) (take n keys) }
{
    for k in 0..n {
        if set_table::find_key(first, second, keys, k, keys[k].name) < k {
            return false;
        }
    }
    true
}

// One for yes, nothing for no.
fn one_if(b: bool) -> usize
    ensures { result ≡ cond b 1 0 }
{
    if b { 1 } else { 0 }
}

// The number of a slot: Id, Class, then the keys by row.
fn slot_number(x: Slot) -> usize
    ensures { result ≡ slot_number x }
{
    match x {
        Slot::Id => 0,
        Slot::Class => 1,
        Slot::Key(k) => k as usize + 2,
    }
}

// How often the first n slots of an order name one.
fn times_in(order: [SlotRecord; Attrs::SLOTS], n: usize, x: Slot) -> usize
    requires { n ≤ max_slots }
    ensures { result ≡ times x (map slot_in (take n order)) }
{
    let a = slot_number(x);
    order[..n]
        .iter()
        .filter(|p| a == slot_number(p.slot))
        .count()
}

// Whether a slot is there, where the first `keys` keys are.
fn is_there(x: Slot, id: bool, class: bool, keys: u8) -> bool
    ensures { result ≡ present_by id class keys x }
{
    match x {
        Slot::Id => id,
        Slot::Class => class,
        Slot::Key(k) => k < keys,
    }
}

// Whether each of the first n slots is there.
fn all_there(order: [SlotRecord; Attrs::SLOTS], n: usize, id: bool, class: bool, keys: u8) -> bool
    requires { n ≤ max_slots }
    ensures { result ≡ all (present_by id class keys) (map slot_in (take n order)) }
{
    order[..n].iter().all(|p| is_there(p.slot, id, class, keys))
}

// Whether each key stands once among the first n slots.
fn keys_once(order: [SlotRecord; Attrs::SLOTS], n: usize, keys: u8) -> bool
    requires { n ≤ max_slots }
    ensures { result ≡ keys_in (map slot_in (take n order)) keys }
{
    (0..keys).all(|k| times_in(order, n, Slot::Key(k)) == 1)
}

// Whether the first n slots name just what is there, once each.
fn slots_ok(order: [SlotRecord; Attrs::SLOTS], n: usize, id: bool, class: bool, keys: u8) -> bool
    requires { n ≤ max_slots }
    ensures { result ≡ slots_in (map slot_in (take n order)) id class keys }
{
    if !all_there(order, n, id, class, keys) {
        return false;
    }
    if times_in(order, n, Slot::Id) != one_if(id) {
        return false;
    }
    if times_in(order, n, Slot::Class) != one_if(class) {
        return false;
    }
    keys_once(order, n, keys)
}

// Whether a table is well-formed, but for what is asked of the texts themselves.
pub fn table_ok<'a>(first: &'a [u8], second: &'a [u8], set: Attrs) -> bool
    ensures { result ≡ table_ok (two first.now second.now) set }
{
    let nclass = set.nclass as usize;
    let nkey = set.nkey as usize;
    let norder = set.norder as usize;
    if Attrs::CLASSES < nclass {
        return false;
    }
    if Attrs::KEYS < nkey {
        return false;
    }
    if Attrs::SLOTS < norder {
        return false;
    }
    let given = set.given;
    let id = set.id;
    if !set_values::ident_ok(first, second, given, id) {
        return false;
    }
    let classes = set.classes;
    if !classes_ok(first, second, classes, nclass) {
        return false;
    }
    let keys = set.keys;
    if !keys_ok(first, second, keys, nkey) {
        return false;
    }
    if !keys_apart(first, second, keys, nkey) {
        return false;
    }
    let order = set.order;
    slots_ok(order, norder, given, 0 < nclass, set.nkey)
}

// Whether a table is well-formed over its texts.
pub fn well_formed<'a>(first: &'a [u8], second: &'a [u8], set: Attrs) -> bool
    ensures { result ≡ well_formed (two first.now second.now) set }
{
    if !text_checks::is_text(first) {
        return false;
    }
    if !text_checks::is_text(second) {
        return false;
    }
    table_ok(first, second, set)
}
