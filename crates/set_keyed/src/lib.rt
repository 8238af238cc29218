// The value of a key by its literal name: what it is, whether it is a given string, and its number. No key is named here.
#![tactic(auto)]

ghost use Rattle.std.specs.Prelude.{◌≡◌, map, get_or, take, true};
ghost use Rattle.base_lists.specs.Lists.{same};
ghost use Rattle.block_grammar.specs.Meaning.{lookup};
ghost use Rattle.set_table.specs.Types.{two, zero_row, value_bytes};
ghost use Rattle.set_table.specs.Rows.{slot_in, meaning_of};
ghost use Rattle.set_table.specs.Shape.{is_free};
ghost use Rattle.set_marks.specs.Marks.{bytes_in};
ghost use Rattle.text_digits.specs.Digits.{digits_of, number_in, decimal_paper};
ghost use Rattle.set_keyed.specs.Keyed.{values_by, keyed_paper, slot_found, key_in, key_found};

use set_table::{Attrs, Name, Origin, Row, Slot, SlotRecord, Text, Value};
use text_digits::Digits;

// A row among the first n; what lies past them is zero.
fn row_at(keys: [Row; Attrs::KEYS], n: usize, k: usize) -> Row
    ensures { result ≡ get_or (take n keys) k zero_row }
{
    let none = Value {
        text: Text::Plain(Origin::First, 0, 0),
    };
    let zero = Row {
        name: Name::Range(Origin::First, 0, 0),
        value: none,
    };
    if n <= k {
        return zero;
    }
    if Attrs::KEYS <= k {
        return zero;
    }
    keys[k]
}

// What one slot gives for the name.
fn slot_found<'a>(
    first: &'a [u8],
    second: &'a [u8],
    keys: [Row; Attrs::KEYS],
    n: usize,
    name: &[u8],
    slot: Slot,
) -> Option<Value>
    ensures { result ≡ slot_found (two first.now second.now) (take n keys) name.now slot }
{
    match slot {
        Slot::Id => None,
        Slot::Class => None,
        Slot::Key(k) => {
            let row = row_at(keys, n, k as usize);
            let m = row.name;
            if set_table::is_named(first, second, m, name) {
                let v = row.value;
                return Some(v);
            }
            None
        }
    }
}

// What the first n slots of an order give for the name.
fn found_in<'a>(
    first: &'a [u8],
    second: &'a [u8],
    keys: [Row; Attrs::KEYS],
    nkey: usize,
    name: &[u8],
    order: [SlotRecord; Attrs::SLOTS],
    n: usize,
) -> Option<Value>
    ensures { result ≡ key_in (two first.now second.now) (take nkey keys) name.now (map slot_in (take n order)) }
{
    for p in order[..n.min(Attrs::SLOTS)].iter() {
        if let Some(v) = slot_found(first, second, keys, nkey, name, p.slot) {
            return Some(v);
        }
    }
    None
}

// The value of the key of that name: what the set's meaning has under it, where a key may have the name.
pub fn find<'a>(first: &'a [u8], second: &'a [u8], set: Attrs, name: &[u8]) -> Option<Value>
    ensures value { result ≡ key_found (two first.now second.now) set name.now }
    ensures result_value { is_free name.now ≡ true → values_by (two first.now second.now) result ≡ lookup name.now (meaning_of (two first.now second.now) set) }
    ensures result_value_2 { keyed_paper (two first.now second.now) result ≡ keyed_paper (two first.now second.now) (key_found (two first.now second.now) set name.now) }
{
    let keys = set.keys;
    let order = set.order;
    found_in(
        first,
        second,
        keys,
        set.nkey as usize,
        name,
        order,
        set.norder as usize,
    )
}

// Whether a value is the bytes.
pub fn value_is<'a>(first: &'a [u8], second: &'a [u8], value: Value, bytes: &[u8]) -> bool
    ensures { result ≡ same (value_bytes (two first.now second.now) value) bytes.now }
{
    let raw = set_marks::raw_bytes(first, second, value);
    if set_marks::is_quoted(value) {
        return text_escapes::same_unescaped(raw, bytes);
    }
    base_lists::same_bytes(raw, bytes)
}

// What the digits of a raw text are, unescaped where it was quoted.
fn read_raw(s: &[u8], quoted: bool, most: u64) -> Digits
    ensures { result ≡ digits_of most (bytes_in quoted s.now) }
{
    let mut d = Digits::NoDigit;
    let mut i = 0;
    while let Some((b, next)) = set_marks::value_piece(s, i, quoted) {
        d = text_digits::step(d, b, most);
        i = next;
    }
    d
}

// The number that a value is, if it is one up to the bound.
pub fn value_number<'a>(first: &'a [u8], second: &'a [u8], value: Value, most: u64) -> Option<u64>
    ensures value { result ≡ number_in most (value_bytes (two first.now second.now) value) }
    ensures result_value { decimal_paper result ≡ decimal_paper (number_in most (value_bytes (two first.now second.now) value)) }
{
    let raw = set_marks::raw_bytes(first, second, value);
    text_digits::read_out(read_raw(raw, set_marks::is_quoted(value), most))
}
