// The key `loose` of a check list: where it has no value it is taken out of the set, with its slot, and the answer says so.
#![tactic(auto)]

ghost use Rattle.std.specs.Prelude.{◌≡◌, [], ◌∷◌, map, ◌+◌, ◌<◌, ◌≤◌, take};
ghost use Rattle.base_refusals.specs.Orders.{on_paper};
ghost use Rattle.set_table.specs.Types.{two, max_keys, max_slots, zero_row, zero_slot};
ghost use Rattle.set_table.specs.Rows.{rows_in, table_of, meaning_of, padded, held, slot_in};
ghost use Rattle.set_loose.specs.Without.{without_at, slots_without, without_row};
ghost use Rattle.set_loose.specs.Loose.{is_loose, row_named, consumed_by, loose_of, loose_order, acted_no, did_paper};
ghost use Rattle.set_loose.specs.Inner.{raised, kept_of, Ready, Clean};

use base_refusals::Refusal;
use set_table::{Attrs, Name, Origin, Row, Slot, SlotRecord, Text, Value};

// The answer, and the set that is left; that of a refusal is empty.
#[derive(Clone, Copy)]
pub struct Consumed {
    pub did: Result<bool, Refusal>,
    pub set: Attrs,
}

// The row among the first n that has the name, or how many rows were looked at where none has.
fn row_named<'a>(
    first: &'a [u8],
    second: &'a [u8],
    keys: [Row; Attrs::KEYS],
    n: usize,
    name: &[u8],
) -> usize
    ensures { result ≡ row_named (two first.now second.now) name.now (take n keys) }
{
    for (k, row) in keys.iter().enumerate() {
        if n <= k || set_table::is_named(first, second, row.name, name) {
            return k;
        }
    }
    Attrs::KEYS
}

// Where row j of the rows without row k stood.
fn stood(k: usize, j: usize) -> usize
    requires { j < max_keys }
    ensures { result ≡ raised k j }
{
    if j < k {
        return j;
    }
    j + 1
}

// The first n rows without row k, and zero behind them.
fn rows_without(keys: [Row; Attrs::KEYS], n: usize, k: usize) -> [Row; Attrs::KEYS]
    requires { (n ≤ max_keys) × (k < n) }
    ensures { result ≡ padded max_keys zero_row (without_at k (take n keys)) }
{
    let none = Row {
        name: Name::Range(Origin::First, 0, 0),
        value: Value {
            text: Text::Plain(Origin::First, 0, 0),
        },
    };
    let mut out = [none; Attrs::KEYS];
    for i in 0..n - 1 {
        out[i] = keys[stood(k, i)];
    }
    out
}

// A slot of the rows without row k.
fn slot_left(k: u8, y: Slot) -> Option<Slot>
    ensures { result ≡ kept_of k y }
{
    match y {
        Slot::Id => Some(Slot::Id),
        Slot::Class => Some(Slot::Class),
        Slot::Key(j) => {
            if j == k {
                return None;
            }
            if k < j {
                return Some(Slot::Key(j - 1));
            }
            Some(Slot::Key(j))
        }
    }
}

// The first n slots without that of row k, and zero behind them.
fn slots_without(order: [SlotRecord; Attrs::SLOTS], n: usize, k: u8) -> [SlotRecord; Attrs::SLOTS]
    requires { n ≤ max_slots }
    ensures { result ≡ padded max_slots zero_slot (map held (slots_without k (map slot_in (take n order)))) }
{
    let none = SlotRecord { slot: Slot::Key(0) };
    let mut out = [none; Attrs::SLOTS];
    let mut j: usize = 0;
    for p in order[..n].iter() {
        if let Some(x) = slot_left(k, p.slot) {
            out[j] = SlotRecord { slot: x };
            j += 1;
        }
    }
    out
}

// The set without row k and its slot.
fn without_row(s: Attrs, k: usize) -> Attrs
    requires { Ready s k }
    ensures { result ≡ table_of (without_row k (rows_in s)) }
{
    let id = s.id;
    let classes = s.classes;
    let ks = s.keys;
    let os = s.order;
    let keys = rows_without(ks, s.nkey as usize, k);
    let order = slots_without(os, s.norder as usize, k as u8);
    Attrs {
        id: id,
        given: s.given,
        nclass: s.nclass,
        nkey: s.nkey - 1,
        norder: s.norder - 1,
        classes: classes,
        keys: keys,
        order: order,
    }
}

// A set with zero rows past its counts, whose slots name what is there.
fn consume<'a>(first: &'a [u8], second: &'a [u8], s: Attrs) -> Consumed
    requires { Clean (two first.now second.now) s }
    ensures { result ≡ consumed_by (is_loose (meaning_of (two first.now second.now) s)) (two first.now second.now) (rows_in s) }
{
    let keys = s.keys;
    let n = s.nkey as usize;
    let k = row_named(first, second, keys, n, b"loose");
    if n <= k {
        return Consumed {
            did: Ok(false),
            set: s,
        };
    }
    let row = keys[k];
    let v = row.value;
    if 0 < set_marks::raw_bytes(first, second, v).len() {
        return Consumed {
            did: Ok(false),
            set: s,
        };
    }
    let left = without_row(s, k);
    Consumed {
        did: Ok(true),
        set: left,
    }
}

// Where the key `loose` has no value, takes it out of the set. The merge with nothing asks for 1, 2 and 11 and leaves zero rows past the counts.
pub fn consume_loose<'a>(first: &'a [u8], second: &'a [u8], set: Attrs) -> Consumed
    ensures value { result ≡ loose_of (two first.now second.now) set }
    ensures did_value { did_paper result.did ≡ on_paper (loose_order (two first.now second.now) set) (acted_no (is_loose (meaning_of (two first.now second.now) set)) ∷ []) }
{
    let clean = set_merge::merge_attrs(first, second, set, Attrs::empty());
    let s = clean.set;
    let o = clean.outcome;
    match o {
        Err(r) => Consumed {
            did: Err(r),
            set: s,
        },
        Ok(()) => consume(first, second, s),
    }
}
