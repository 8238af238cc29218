// A set with its two texts changed over: what was of the first text is of the second, and the other way round.
#![tactic(auto)]

ghost use Rattle.std.specs.Prelude.{◌≡◌, cond};
ghost use Rattle.set_exchange.specs.Exchange.{other_origin, other_value, other_row, firsts_by, exchanged};

use set_table::{Attrs, Name, Origin, Row, Text, Value};

fn other(origin: Origin) -> Origin
    ensures { result ≡ other_origin origin }
{
    match origin {
        Origin::First => Origin::Second,
        Origin::Second => Origin::First,
    }
}

fn other_value(v: Value) -> Value
    ensures { result ≡ other_value v }
{
    let text = v.text;
    match text {
        Text::Plain(o, f, t) => Value {
            text: Text::Plain(other(o), f, t),
        },
        Text::Quoted(o, f, t) => Value {
            text: Text::Quoted(other(o), f, t),
        },
        Text::Empty => Value { text: Text::Empty },
    }
}

fn other_row(row: Row) -> Row
    ensures { result ≡ other_row row }
{
    let v = row.value;
    let value = other_value(v);
    let name = row.name;
    match name {
        Name::Range(o, f, t) => Row {
            name: Name::Range(other(o), f, t),
            value,
        },
        Name::Lang => Row {
            name: Name::Lang,
            value,
        },
    }
}

// The id's value, which is left as it stands where no id is given.
fn other_id(given: bool, v: Value) -> Value
    ensures { result ≡ cond given (other_value v) v }
{
    if given {
        return other_value(v);
    }
    v
}

// The first n classes; those past them are left as they stand.
fn other_classes(from: [Value; Attrs::CLASSES], n: usize) -> [Value; Attrs::CLASSES]
    ensures { result ≡ firsts_by other_value n from }
{
    let mut out = from;
    for v in out[..n.min(Attrs::CLASSES)].iter_mut() {
        *v = other_value(*v);
    }
    out
}

// The first n keys; those past them are left as they stand.
fn other_keys(from: [Row; Attrs::KEYS], n: usize) -> [Row; Attrs::KEYS]
    ensures { result ≡ firsts_by other_row n from }
{
    let mut out = from;
    for row in out[..n.min(Attrs::KEYS)].iter_mut() {
        *row = other_row(*row);
    }
    out
}

// The set with first and second changed over, in what counts; counts, slots and what lies past the counts stay.
pub fn exchange(set: Attrs) -> Attrs
    ensures { result ≡ exchanged set }
{
    let v = set.id;
    let cs = set.classes;
    let ks = set.keys;
    let id = other_id(set.given, v);
    let classes = other_classes(cs, set.nclass as usize);
    let keys = other_keys(ks, set.nkey as usize);
    let order = set.order;
    Attrs {
        id: id,
        given: set.given,
        nclass: set.nclass,
        nkey: set.nkey,
        norder: set.norder,
        classes: classes,
        keys: keys,
        order: order,
    }
}
