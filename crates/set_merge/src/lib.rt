// Two sets over two texts made into one.
#![tactic(auto)]

ghost use Rattle.std.specs.Prelude.{◌≡◌, cond, [], ◌∷◌, map, ◌+◌, ◌≤◌, take};
ghost use Rattle.base_refusals.specs.Numbers.{outcome_no};
ghost use Rattle.base_refusals.specs.Orders.{order_no};
ghost use Rattle.set_table.specs.Types.{Texts, two, zero_value, zero_row, zero_slot, max_classes, max_keys, max_slots};
ghost use Rattle.set_table.specs.Rows.{Ident, Put, id_or, with_put, with_puts, rows_in, table_of};
ghost use Rattle.set_table.specs.Filled.{limited};
ghost use Rattle.set_table.specs.Inner.{Holds};
ghost use Rattle.set_merge.specs.Merge.{puts_at, puts_by, merge_of, merge_order};
ghost use Rattle.set_merge.specs.Inner.{firsts, Steps, Sound, Present};

use base_refusals::Refusal;
use set_table::{Attrs, Filled, Name, Origin, Row, Slot, SlotRecord, Text, Value};

// What becomes of a set when something is put into it: whether that fits, and the set behind it.
#[derive(Clone, Copy)]
struct Merging {
    pub fits: bool,
    pub set: Attrs,
}

// The first n classes, and zero behind them.
fn first_classes(from: [Value; Attrs::CLASSES], n: usize) -> [Value; Attrs::CLASSES]
    requires { n ≤ max_classes }
    ensures { result ≡ firsts max_classes zero_value n from }
{
    let none = Value {
        text: Text::Plain(Origin::First, 0, 0),
    };
    let mut out = [none; Attrs::CLASSES];
    out[..n].copy_from_slice(&from[..n]);
    out
}

// The first n keys, and zero behind them.
fn first_keys(from: [Row; Attrs::KEYS], n: usize) -> [Row; Attrs::KEYS]
    requires { n ≤ max_keys }
    ensures { result ≡ firsts max_keys zero_row n from }
{
    let none = Row {
        name: Name::Range(Origin::First, 0, 0),
        value: Value {
            text: Text::Plain(Origin::First, 0, 0),
        },
    };
    let mut out = [none; Attrs::KEYS];
    out[..n].copy_from_slice(&from[..n]);
    out
}

// The first n slots, and zero behind them.
fn first_slots(from: [SlotRecord; Attrs::SLOTS], n: usize) -> [SlotRecord; Attrs::SLOTS]
    requires { n ≤ max_slots }
    ensures { result ≡ firsts max_slots zero_slot n from }
{
    let none = SlotRecord { slot: Slot::Key(0) };
    let mut out = [none; Attrs::SLOTS];
    out[..n].copy_from_slice(&from[..n]);
    out
}

// The id's value, zero where there is none.
fn first_id(given: bool, v: Value) -> Value
    ensures { result ≡ id_or (cond given (Ident.given v) Ident.missing) }
{
    if given {
        return v;
    }
    Value {
        text: Text::Plain(Origin::First, 0, 0),
    }
}

// The set with zero rows past its counts.
fn cleaned(a: Attrs) -> Attrs
    requires { (a.nclass ≤ max_classes) × (a.nkey ≤ max_keys) × (a.norder ≤ max_slots) }
    ensures { result ≡ table_of (rows_in a) }
{
    let v = a.id;
    let cs = a.classes;
    let ks = a.keys;
    let os = a.order;
    let classes = first_classes(cs, a.nclass as usize);
    let keys = first_keys(ks, a.nkey as usize);
    let order = first_slots(os, a.norder as usize);
    let id = first_id(a.given, v);
    Attrs {
        id: id,
        given: a.given,
        nclass: a.nclass,
        nkey: a.nkey,
        norder: a.norder,
        classes: classes,
        keys: keys,
        order: order,
    }
}

// The id, whose slot goes behind where there was none.
fn put_id(s: Attrs, v: Value) -> Attrs
    requires { Holds s (rows_in s) }
    ensures { (t : Texts) → Holds result (with_put t (rows_in s) (Put.ident v)) }
{
    let mut set = s;
    let was = set.given;
    set.id = v;
    set.given = true;
    if was {
        return set;
    }
    let p = set.norder as usize;
    set.order[p] = SlotRecord { slot: Slot::Id };
    set.norder = set.norder + 1;
    set
}

// The first m of the classes, joined to those that are there.
fn put_classes(s: Attrs, from: [Value; Attrs::CLASSES], m: usize) -> Attrs
    requires { (Holds s (rows_in s)) × (s.nclass + m ≤ max_classes) }
    ensures { (t : Texts) → Holds result (with_puts t (rows_in s) (map Put.class (take m from))) }
{
    let mut set = s;
    for class in from[..m].iter() {
        let n = set.nclass as usize;
        set.classes[n] = *class;
        set.nclass = set.nclass + 1;
        if 0 < n {
            continue;
        }
        let p = set.norder as usize;
        set.order[p] = SlotRecord { slot: Slot::Class };
        set.norder = set.norder + 1;
    }
    set
}

// A key with its value: the value alone where the key is there already, else a new row whose slot goes behind.
fn put_key<'a>(first: &'a [u8], second: &'a [u8], s: Attrs, name: Name, value: Value) -> Merging
    requires { Holds s (rows_in s) }
    ensures { Steps (two first.now second.now) s (Put.key name value ∷ []) result }
{
    let mut set = s;
    let n = set.nkey as usize;
    let keys = set.keys;
    let k = set_table::find_key(first, second, keys, n, name);
    if k < n {
        let mut row = set.keys[k];
        row.value = value;
        set.keys[k] = row;
        return Merging { fits: true, set };
    }
    if Attrs::KEYS <= n {
        return Merging { fits: false, set };
    }
    let p = set.norder as usize;
    set.keys[n] = Row { name, value };
    set.order[p] = SlotRecord {
        slot: Slot::Key(set.nkey),
    };
    set.nkey = set.nkey + 1;
    set.norder = set.norder + 1;
    Merging { fits: true, set }
}

// What stands at one slot of b.
fn put_slot<'a>(first: &'a [u8], second: &'a [u8], s: Attrs, b: Attrs, slot: Slot) -> Merging
    requires { (Holds s (rows_in s)) × (Present s b slot) }
    ensures { Steps (two first.now second.now) s (puts_at (rows_in b) slot) result }
{
    match slot {
        Slot::Id => {
            if b.given {
                return Merging {
                    fits: true,
                    set: put_id(s, b.id),
                };
            }
            Merging { fits: true, set: s }
        }
        Slot::Class => {
            let classes = b.classes;
            Merging {
                fits: true,
                set: put_classes(s, classes, b.nclass as usize),
            }
        }
        Slot::Key(k) => {
            let row = b.keys[k as usize];
            let name = row.name;
            put_key(first, second, s, name, row.value)
        }
    }
}

// The slots of b in their order, each put into a. Its classes are counted first: a merge with too many of both is refused for its classes.
fn merge_rows<'a>(first: &'a [u8], second: &'a [u8], a: Attrs, b: Attrs) -> Filled
    requires { (Holds a (rows_in a)) × (Sound b) }
    ensures { result ≡ limited (with_puts (two first.now second.now) (rows_in a) (puts_by (rows_in b))) }
{
    if Attrs::CLASSES < a.nclass as usize + b.nclass as usize {
        return set_fill::refusing(Refusal::TooManyClasses);
    }
    let n = b.norder as usize;
    let mut set = a;
    for i in 0..n {
        let step = put_slot(first, second, set, b, b.order[i].slot);
        if !step.fits {
            return set_fill::refusing(Refusal::TooManyKeys);
        }
        set = step.set;
    }
    Filled {
        outcome: Ok(()),
        set,
    }
}

// The set `incoming` merged into the set `target`, both over the texts.
pub fn merge_attrs<'a>(first: &'a [u8], second: &'a [u8], target: Attrs, incoming: Attrs) -> Filled
    ensures value { result ≡ merge_of (two first.now second.now) target incoming }
    ensures outcome_value { outcome_no result.outcome ≡ order_no (merge_order (two first.now second.now) target incoming) }
{
    match text_checks::check_both(first, second) {
        Err(r) => set_fill::refusing(r),
        Ok(()) => {
            if !set_wellformed::table_ok(first, second, target) {
                return set_fill::refusing(Refusal::NotWellFormed);
            }
            if !set_wellformed::table_ok(first, second, incoming) {
                return set_fill::refusing(Refusal::NotWellFormed);
            }
            merge_rows(first, second, cleaned(target), incoming)
        }
    }
}

// The set `leading` comes first, and what `target` has wins.
pub fn merge_leading_attrs<'a>(
    first: &'a [u8],
    second: &'a [u8],
    target: Attrs,
    leading: Attrs,
) -> Filled
    ensures value { result ≡ merge_of (two first.now second.now) leading target }
    ensures outcome_value { outcome_no result.outcome ≡ order_no (merge_order (two first.now second.now) leading target) }
{
    merge_attrs(first, second, leading, target)
}
